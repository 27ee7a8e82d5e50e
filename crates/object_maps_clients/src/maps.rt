//! What callers rest on of the pointers of an object that were read before a group.

ghost use Rattle.std.specs.Prelude.{◌≡◌, ◌∷◌, [], get_or};
ghost use Rattle.std.specs.Global.{Vec};
ghost use Rattle.base.specs.declared.pointer.Pointer.{Pointer};
ghost use Rattle.base.specs.formats.Fields.{no_pointer};

use base::Pointer;
use tree_blocks::{ObjectMap, pointer_of_list};

// The last strip has the last pointer of the map.
fn each_strip_has_its_own_indirect_block(map: &ObjectMap) -> Pointer
    requires { (get_or map.now.indirects.items 83 no_pointer).address ≡ 4202496 }
    ensures { result.address ≡ 4202496 }
{
    map.indirect(83)
}

// If the indirect block of strip 5 was read, its last record has the last pointer in that block.
fn a_record_has_the_pointer_that_was_read(map: &ObjectMap) -> Pointer
    requires { (get_or map.now.indirects.items 5 no_pointer).address ≡ 4202496 }
    ensures { (read : Vec Pointer) → map.now.strips.entries ≡ (5, read) ∷ []
        → result ≡ get_or read.items 83 no_pointer }
{
    map.record(5, 83)
}

// A strip without an indirect block has no pointer to a record, whatever was read.
fn a_record_of_a_strip_without_a_block_has_no_pointer(map: &ObjectMap) -> Pointer
    requires { (get_or map.now.indirects.items 5 no_pointer).address ≡ 0 }
    ensures { result ≡ no_pointer }
{
    map.record(5, 83)
}

// The records of strip 5 are those that were read of it, and not those of strip 4.
fn the_records_of_a_strip_are_its_own(map: &ObjectMap) -> &[Pointer]
    requires { (get_or map.now.indirects.items 5 no_pointer).address ≡ 4202496 }
    ensures { (other read : Vec Pointer) → map.now.strips.entries ≡ (4, other) ∷ (5, read) ∷ []
        → get_or result.now 83 no_pointer ≡ get_or read.items 83 no_pointer }
{
    map.records(5)
}

// Of a strip that wasn't read, no pointer to a record is given.
fn no_records_are_given_of_a_strip_that_was_not_read(map: &ObjectMap) -> &[Pointer]
    requires { map.now.strips.entries ≡ [] }
    ensures { get_or result.now 0 no_pointer ≡ no_pointer }
{
    map.records(5)
}

// A list of two pointers has its second one, and no third.
fn a_list_of_two_pointers_has_a_second_one(pointers: &[Pointer]) -> (Pointer, Pointer)
    ensures second { (a b : Pointer) → pointers.now ≡ a ∷ b ∷ [] → result.0 ≡ b }
    ensures third { (a b : Pointer) → pointers.now ≡ a ∷ b ∷ [] → result.1 ≡ no_pointer }
{
    (pointer_of_list(pointers, 1), pointer_of_list(pointers, 2))
}
