//! Little-endian fields of a block, a slot or a payload (On-Disk Specification, chapter 2, in this project's one byte
//! order).

ghost use Rattle.std.specs.Prelude.{◌≡◌, ◌+◌, ◌≤◌, ◌↔◌, IsTrue, length, replicate};
ghost use Rattle.base.specs.disk.Disk.{put};
ghost use Rattle.base.specs.formats.Fields.{number_at, number_bytes, pointer_at, pointer_bytes};
ghost use Rattle.base.specs.formats.Limits.{pointer_size};

use crate::pointer::Pointer;
use byteorder::{ByteOrder, LittleEndian};

/// The bytes of a pointer: 8 of the address, 8 of the birth group, 32 of the check.
pub const POINTER_SIZE: usize = 48;

/// The number of 8 bytes at a place.
#[tactic(auto, unfolding(crate::specs::formats::Fields::number_at))]
pub fn read_u64(bytes: &[u8], at: usize) -> u64
    requires { at + 8 ≤ length bytes.now }
    ensures { result ≡ number_at bytes.now at }
{
    LittleEndian::read_u64(&bytes[at..])
}

/// Whether each of these bytes is this one: the first one is, and each other is as the one before it.
pub fn are_all(bytes: &[u8], value: u8) -> bool
    ensures { IsTrue result ↔ (bytes.now ≡ replicate (length bytes.now) value) }
{
    match bytes.split_first() {
        Some((first, rest)) => *first == value && rest == &bytes[..rest.len()],
        None => true,
    }
}

/// Whether all of these bytes are zero.
pub fn are_zeros(bytes: &[u8]) -> bool
    ensures { IsTrue result ↔ (bytes.now ≡ replicate (length bytes.now) 0) }
{
    are_all(bytes, 0)
}

/// Writes a number's 8 bytes at a place.
pub fn write_u64(bytes: &mut [u8], at: usize, value: u64)
    requires { at + 8 ≤ length bytes.old }
    ensures { bytes.new ≡ put at (number_bytes value) bytes.old }
{
    LittleEndian::write_u64(&mut bytes[at..], value);
}

/// Writes these bytes at a place.
pub fn write_bytes(bytes: &mut [u8], at: usize, content: &[u8])
    requires { at + length content.now ≤ length bytes.old }
    ensures { bytes.new ≡ put at content.now bytes.old }
{
    bytes[at..at + content.len()].copy_from_slice(content);
}

/// The pointer of 48 bytes at a place.
pub fn read_pointer(bytes: &[u8], at: usize) -> Pointer
    requires { at + pointer_size ≤ length bytes.now }
    ensures { result ≡ pointer_at bytes.now at }
{
    let mut check = [0; 32];
    check.copy_from_slice(&bytes[at + 16..at + POINTER_SIZE]);
    Pointer {
        address: read_u64(bytes, at),
        birth: read_u64(bytes, at + 8),
        check,
    }
}

/// Writes a pointer's 48 bytes at a place.
pub fn write_pointer(bytes: &mut [u8], at: usize, pointer: &Pointer)
    requires { at + pointer_size ≤ length bytes.old }
    ensures { bytes.new ≡ put at (pointer_bytes pointer.now) bytes.old }
{
    write_u64(bytes, at, pointer.address);
    write_u64(bytes, at + 8, pointer.birth);
    write_bytes(bytes, at + 16, &pointer.check);
}
