//! What callers rest on: one function for each promise of this crate's calls, proved from the contract of the call
//! alone. So it is refused as soon as that contract says less.

ghost use Rattle.std.specs.Prelude.{◌≡◌, ◌≢◌, ◌≤◌, ◌<◌, [], IfOk, IfSome, IsErr, IsNone, IsOk, IsSome, Some, codes, false, length, take, true};
ghost use Rattle.object_names.specs.NameTables.{IsFree, IsNameTable, IsNamed, has_object, name_at};
ghost use Rattle.object_names.specs.Laws.{IsUnused, with_slot};
ghost use Rattle.object_names.specs.Names.{IsName};
ghost use Rattle.object_names.specs.Slots.{slot_bytes};

use crate::laws::slots_change_one_name;
use crate::name::is_object_name;
use crate::name_table::{NameTable, NoNameTable};
use crate::slot::{SLOT_SIZE, empty_slot, header_slot, slot_of, slot_place};
use base::{Bytes, ObjectId};

// What was written into the slot of object 7 is read, and found.
fn a_name_that_is_written_is_found(
    before: &NameTable,
    after: Bytes,
    name: &[u8],
) -> Option<ObjectId>
    requires table { IsNameTable before.now }
    requires name { IsName name.now }
    requires unused { IsUnused before.now 7 name.now }
    requires written { after ≡ with_slot 7 name.now before.now }
    ensures { result ≡ Some (record { 0 = 7 }) }
{
    slots_change_one_name();
    match NameTable::read(after) {
        Ok(table) => table.find(name),
        Err(_) => None,
    }
}

// A write into the slot of object 7 leaves a table of names.
fn a_written_slot_leaves_a_table(
    before: &NameTable,
    after: Bytes,
    name: &[u8],
) -> Result<NameTable, NoNameTable>
    requires table { IsNameTable before.now }
    requires name { IsName name.now }
    requires unused { IsUnused before.now 7 name.now }
    requires written { after ≡ with_slot 7 name.now before.now }
    ensures { IsOk result }
{
    slots_change_one_name();
    NameTable::read(after)
}

// Object 8 has the name that it had.
fn another_name_stays(before: &NameTable, after: &NameTable, name: &[u8])
    requires table { IsNameTable before.now }
    requires name { IsName name.now }
    requires unused { IsUnused before.now 7 name.now }
    requires written { after.now ≡ with_slot 7 name.now before.now }
    ensures { name_at after.now 8 ≡ name_at before.now 8 }
{
    slots_change_one_name();
}

// After the slot of object 7 was emptied, its name is found no more.
fn a_name_that_is_removed_is_not_found(
    before: &NameTable,
    after: &NameTable,
    name: &[u8],
) -> Option<ObjectId>
    requires table { IsNameTable before.now }
    requires one { IsUnused before.now 7 name.now }
    requires written { after.now ≡ with_slot 7 [] before.now }
    ensures { IsNone result }
{
    slots_change_one_name();
    after.find(name)
}

// Objects that are found by two names are two.
fn two_names_never_share_a_number(table: &NameTable, one: &[u8], other: &[u8]) -> bool
    requires { one.now ≢ other.now }
    ensures { result ≡ false }
{
    match (table.find(one), table.find(other)) {
        (Some(first), Some(second)) => first.0 == second.0,
        _ => false,
    }
}

// Object 5 is found by its name, and by no other number.
fn a_name_has_one_number(table: &NameTable, name: &[u8]) -> Option<ObjectId>
    requires { IsNamed table.now 5 name.now }
    ensures { result ≡ Some (record { 0 = 5 }) }
{
    table.find(name)
}

// It is text without control characters, so it can be printed.
fn a_name_in_a_table_is_one_that_an_object_may_have(table: &NameTable) -> Option<&[u8]>
    ensures { IfSome result (λ name. IsName name.now) }
{
    table.named(ObjectId(5))
}

fn an_object_without_bytes_is_an_empty_table(bytes: Bytes) -> Result<NameTable, NoNameTable>
    requires { bytes ≡ [] }
    ensures table { IsOk result }
{
    NameTable::read(bytes)
}

// It has no whole slot.
fn an_object_of_5_bytes_is_no_table(bytes: Bytes) -> Result<NameTable, NoNameTable>
    requires { length bytes ≡ 5 }
    ensures { IsErr result }
{
    NameTable::read(bytes)
}

// It has whole slots, and another first byte than a header.
fn an_object_that_begins_otherwise_is_no_table(bytes: Bytes) -> Result<NameTable, NoNameTable>
    requires size { length bytes ≡ 512 }
    requires first { take 1 bytes ≡ codes "x" }
    ensures { IsErr result }
{
    NameTable::read(bytes)
}

fn the_lowest_free_number_is_taken(
    table: &NameTable,
    objects: &[(ObjectId, u64)],
) -> Option<ObjectId>
    requires named { name_at table.now 1 ≢ [] }
    requires unnamed { name_at table.now 2 ≡ [] }
    requires absent { has_object objects.now 2 ≡ false }
    ensures { result ≡ Some (record { 0 = 2 }) }
{
    table.free_number(objects)
}

// Object 2 may have another use.
fn an_object_that_is_there_is_not_given_away(
    table: &NameTable,
    objects: &[(ObjectId, u64)],
) -> Option<ObjectId>
    requires { has_object objects.now 2 ≡ true }
    ensures { IfSome result (λ object. object.0 ≢ 2) }
{
    table.free_number(objects)
}

fn a_slot_has_the_length_and_the_name() -> [u8; SLOT_SIZE]
    ensures { take 5 result ≡ codes "\u{3}\0abc" }
{
    slot_of(b"abc")
}
