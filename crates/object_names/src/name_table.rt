//! A table of names, as the bytes of object 0 have it.
//!
//! 1. Slot n, at 256n, has the name of object n. So a name changes by one write of 256 bytes, and one read of object 0
//!    finds any name.
//! 2. Bytes are a table only if each slot is spelled as this crate spells it, and no name stands twice. So an object 0
//!    of another use is refused.
//! 3. A slot past the end has no name. A name may stand for an object that isn't there, if that was removed by number.

ghost use Rattle.std.specs.Prelude.{◌≡◌, ◌≤◌, ◌<◌, ◌*◌, ◌↔◌, ℕ, List, [], IfErr, IfNone, IfOk, IfSome, IsTrue, false, length, true};
ghost use Rattle.base.specs.formats.Limits.{object_count};
ghost use Rattle.object_names.specs.NameTables.{AreDistinct, AreSlots, HasHeader, IsFree, IsNameTable, IsNamed, IsThere, IsWhole, has_object, name_at, slot_at};
ghost use Rattle.object_names.specs.Slots.{slot_size};

use crate::slot::{SLOT_SIZE, is_header, is_slot, name_in};
use base::{Bytes, OBJECT_COUNT, ObjectId};
use std::fmt;
use std::marker::Model;

/// The bytes of object 0 are no table of names.
#[derive(Clone, Copy, Debug, PartialEq, Eq)]
pub struct NoNameTable;

impl fmt::Display for NoNameTable {
    fn fmt<W: fmt::Write>(&self, f: &mut fmt::Formatter<W>) -> fmt::Result {
        f.write_str("object 0 is no table of names")
    }
}

/// The names of a pool's objects: each has one object, and each object one name or none. Contracts see it as the bytes
/// of object 0.
#[derive(Debug, Drop)]
pub struct NameTable {
    bytes: Bytes,
}

impl Model for NameTable {
    ghost use Rattle.std.specs.Prelude.{List, ℕ};
    ghost use Rattle.object_names.specs.NameTables.{IsNameTable};

    ghost Value = { List ℕ };

    ghost view = { λ t. t.bytes };

    ghost invariant = { λ t. IsNameTable t.bytes };
}

impl NameTable {
    ghost use Rattle.std.specs.Prelude.{◌≡◌, ◌≤◌, ◌<◌, ◌≢◌, ℕ, List, [], IfErr, IfNone, IfOk, IfSome, IsTrue, false, length, true};
    ghost use Rattle.base.specs.formats.Limits.{object_count};
    ghost use Rattle.object_names.specs.NameTables.{IsFree, IsNameTable, IsNamed, name_at};
    ghost use Rattle.object_names.specs.Names.{IsName};

    /// The table that the bytes of object 0 are. No bytes are one without names. It takes no memory.
    ///
    /// # Errors
    /// The bytes are none. The table of 5,291 names is tested in some 14 million comparisons of lengths.
    pub fn read(bytes: Bytes) -> Result<NameTable, NoNameTable>
        ensures table { IfOk result (λ t. (t ≡ bytes) × IsNameTable bytes) }
        ensures refused { IfErr result (λ _. IsNameTable bytes → ⊥) }
    {
        if is_name_table(bytes.as_slice()) {
            Ok(NameTable { bytes })
        } else {
            Err(NoNameTable)
        }
    }

    /// Whether object 0 has no bytes yet, so that the first named object needs the header too.
    pub fn is_empty(&self) -> bool
        ensures yes { IsTrue result → self.now ≡ [] }
        ensures no { result ≡ false → self.now ≢ [] }
    {
        self.bytes.is_empty()
    }

    /// The object of this name, if one has it.
    pub fn find(&self, name: &[u8]) -> Option<ObjectId>
        ensures found { IfSome result (λ object. IsNamed self.now object.0 name.now) }
        ensures only { IfSome result
            (λ object. (n : ℕ) → IsNamed self.now n name.now → n ≡ object.0) }
        ensures none { IfNone result ((n : ℕ) → IsNamed self.now n name.now → ⊥) }
    {
        if name.is_empty() {
            return None;
        }
        let bytes = self.bytes.as_slice();
        let number = first_with(bytes, name, slot_count(bytes))?;
        Some(ObjectId(number as u32))
    }

    /// The name of an object, if it has one: 1 to 254 bytes of UTF-8 without control characters.
    pub fn named(&self, object: ObjectId) -> Option<&[u8]>
        ensures name { IfSome result (λ name. IsNamed self.now object.0 name.now) }
        ensures text { IfSome result (λ name. IsName name.now) }
        ensures none { IfNone result ((name : List ℕ) → IsNamed self.now object.0 name → ⊥) }
    {
        let bytes = self.bytes.as_slice();
        let number = object.0 as usize;
        if number == 0 || number >= slot_count(bytes) {
            return None;
        }
        let name = name_in(slot_at(bytes, number));
        if name.is_empty() { None } else { Some(name) }
    }

    /// The lowest number from 1 on that has no name and isn't that of one of these objects, with their lengths.
    pub fn free_number(&self, objects: &[(ObjectId, u64)]) -> Option<ObjectId>
        ensures free { IfSome result (λ n. IsFree self.now objects.now n.0) }
        ensures lowest { IfSome result
            (λ n. (k : ℕ) → IsFree self.now objects.now k → n.0 ≤ k) }
        ensures none { IfNone result ((k : ℕ) → IsFree self.now objects.now k → ⊥) }
    {
        for number in 1..OBJECT_COUNT {
            if self.is_free(objects, number) {
                return Some(ObjectId(number));
            }
        }
        None
    }

    // Whether an object of this number can be made and named.
    fn is_free(&self, objects: &[(ObjectId, u64)], number: u32) -> bool
        requires low { 0 < number }
        requires high { number < object_count }
        ensures yes { result ≡ true → IsFree self.now objects.now number }
        ensures no { result ≡ false → IsFree self.now objects.now number → ⊥ }
    {
        self.named(ObjectId(number)).is_none() && !has_object(objects, number)
    }
}

fn has_object(objects: &[(ObjectId, u64)], number: u32) -> bool
    ensures { result ≡ has_object objects.now number }
{
    objects.iter().any(|object| object.0.0 == number)
}

// How many slots there are, with that of the header.
fn slot_count(bytes: &[u8]) -> usize
    requires { IsWhole bytes.now }
    ensures count { slot_size * result ≡ length bytes.now }
    ensures few { result ≤ object_count }
{
    bytes.len() / SLOT_SIZE
}

// The slot of this number, which is there.
fn slot_at(bytes: &[u8], number: usize) -> &[u8]
    requires whole { IsWhole bytes.now }
    requires there { IsThere bytes.now number }
    ensures slot { result.now ≡ slot_at bytes.now number }
    ensures length { length result.now ≡ slot_size }
{
    &bytes[SLOT_SIZE * number..SLOT_SIZE * number + SLOT_SIZE]
}

fn is_name_table(bytes: &[u8]) -> bool
    ensures yes { result ≡ true → IsNameTable bytes.now }
    ensures no { result ≡ false → IsNameTable bytes.now → ⊥ }
{
    if !is_whole(bytes) {
        return false;
    }
    if !has_header(bytes) {
        return false;
    }
    if !are_slots(bytes) {
        return false;
    }
    are_distinct(bytes)
}

fn is_whole(bytes: &[u8]) -> bool
    ensures { IsTrue result ↔ IsWhole bytes.now }
{
    bytes.len() % SLOT_SIZE == 0 && bytes.len() <= SLOT_SIZE * OBJECT_COUNT as usize
}

fn has_header(bytes: &[u8]) -> bool
    requires { IsWhole bytes.now }
    ensures { IsTrue result ↔ HasHeader bytes.now }
{
    bytes.is_empty() || is_header(slot_at(bytes, 0))
}

fn are_slots(bytes: &[u8]) -> bool
    requires { IsWhole bytes.now }
    ensures { IsTrue result ↔ AreSlots bytes.now }
{
    for number in 1..slot_count(bytes) {
        if !is_slot(slot_at(bytes, number)) {
            return false;
        }
    }
    true
}

fn are_distinct(bytes: &[u8]) -> bool
    requires { IsWhole bytes.now }
    ensures { IsTrue result ↔ AreDistinct bytes.now }
{
    for number in 1..slot_count(bytes) {
        let name = name_in(slot_at(bytes, number));
        if !name.is_empty() && first_with(bytes, name, number).is_some() {
            return false;
        }
    }
    true
}

// The first slot of an object, below one that there may be, that has this name.
fn first_with(bytes: &[u8], name: &[u8], end: usize) -> Option<usize>
    requires whole { IsWhole bytes.now }
    requires end { slot_size * end ≤ length bytes.now }
    ensures found { IfSome result
        (λ n. (0 < n) × (n < end) × (name_at bytes.now n ≡ name.now)) }
    ensures none { IfNone result
        ((n : ℕ) → 0 < n → n < end → name_at bytes.now n ≡ name.now → ⊥) }
{
    for number in 1..end {
        if name_in(slot_at(bytes, number)) == name {
            return Some(number);
        }
    }
    None
}
