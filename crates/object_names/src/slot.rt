//! The slots of a table of names, of 256 bytes each.

ghost use Rattle.std.specs.Prelude.{◌≡◌, ◌≤◌, ◌*◌, ◌↔◌, [], IsTrue, length};
ghost use Rattle.object_names.specs.Names.{max_name};
ghost use Rattle.object_names.specs.Slots.{IsSlot, header_bytes, name_in, slot_bytes, slot_size};

use crate::name::{MAX_OBJECT_NAME, is_object_name};
use base::{ObjectId, write_bytes};

/// The bytes of a slot.
pub const SLOT_SIZE: usize = 256;

/// The first bytes of a table of names. Zeros follow, up to the first slot of an object.
pub const HEADER_SLOT: [u8; 16] = *b"topzerad names 1";

/// The bytes before the name.
const HEAD: usize = 2;

/// The header of a table of names: the slot of object 0.
pub fn header_slot() -> [u8; SLOT_SIZE]
    ensures { result ≡ header_bytes }
{
    let mut slot = [0; SLOT_SIZE];
    write_bytes(&mut slot, 0, &HEADER_SLOT);
    slot
}

/// The slot of a name of at most 254 bytes.
pub fn slot_of(name: &[u8]) -> [u8; SLOT_SIZE]
    requires { length name.now ≤ max_name }
    ensures { result ≡ slot_bytes name.now }
{
    let mut slot = [0; SLOT_SIZE];
    slot[0] = name.len() as u8;
    write_bytes(&mut slot, HEAD, name);
    slot
}

/// The slot of an object without a name.
pub fn empty_slot() -> [u8; SLOT_SIZE]
    ensures { result ≡ slot_bytes [] }
{
    slot_of(&[])
}

/// Where the slot of an object begins in object 0.
pub fn slot_place(number: ObjectId) -> u64
    ensures { result ≡ slot_size * number.0 }
{
    SLOT_SIZE as u64 * number.0 as u64
}

/// Whether a slot is the header.
pub(crate) fn is_header(slot: &[u8]) -> bool
    requires { length slot.now ≡ slot_size }
    ensures { IsTrue result ↔ (slot.now ≡ header_bytes) }
{
    slot == &header_slot()[..]
}

/// Whether a slot has a name or none, and is spelled as `slot_of` spells it.
pub(crate) fn is_slot(slot: &[u8]) -> bool
    requires { length slot.now ≡ slot_size }
    ensures { IsTrue result ↔ IsSlot slot.now }
{
    let name = name_in(slot);
    slot == &slot_of(name)[..] && (name.is_empty() || is_object_name(name))
}

/// The name in a slot; no bytes if there is none.
pub(crate) fn name_in(slot: &[u8]) -> &[u8]
    requires { length slot.now ≡ slot_size }
    ensures name { result.now ≡ name_in slot.now }
    ensures short { length result.now ≤ max_name }
{
    let count = (slot[0] as usize).min(MAX_OBJECT_NAME);
    &slot[HEAD..HEAD + count]
}
