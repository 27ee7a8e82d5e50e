//! Bits of a bits block: one for each block of its region, the lowest bit of each byte first. A 1 says that the block
//! is free.

ghost use Rattle.std.specs.Int.{bit_at};
ghost use Rattle.std.specs.Prelude.{◌≡◌, ◌≢◌, ◌≤◌, ◌<◌, ℕ, cond, false, length, nat_eq, true};
ghost use Rattle.base.specs.formats.Limits.{payload_size};
ghost use Rattle.mapped_labels.specs.Shapes.{bit_count};
ghost use Rattle.space_maps.specs.Nodes.{bit_in, count_true};

use crate::entry::zero_payload;
use checked_blocks::PAYLOAD_SIZE;

/// The blocks that a bits block has bits for.
pub const BIT_COUNT: usize = 32_256;

/// Whether the bit of this index is 1.
pub fn bit_in(payload: &[u8], index: usize) -> bool
    requires size { length payload.now ≡ payload_size }
    requires index { index < bit_count }
    ensures { result ≡ bit_in payload.now index }
{
    is_bit(payload[index / 8], (index % 8) as u32)
}

// Whether a bit of a byte is 1.
fn is_bit(byte: u8, bit: u32) -> bool
    requires { bit < 8 }
    ensures { result ≡ nat_eq (bit_at byte bit) 1 }
{
    (byte >> bit) & 1 == 1
}

// The byte with this bit 1.
fn with_bit(byte: u8, bit: u32) -> u8
    requires { bit < 8 }
    ensures here { bit_at result bit ≡ 1 }
    ensures others { (i : ℕ) → i ≢ bit → bit_at result i ≡ bit_at byte i }
{
    byte | (1 << bit)
}

// The byte with this bit 0.
fn without_bit(byte: u8, bit: u32) -> u8
    requires { bit < 8 }
    ensures here { bit_at result bit ≡ 0 }
    ensures others { (i : ℕ) → i < 8 → i ≢ bit → bit_at result i ≡ bit_at byte i }
{
    byte & !(1 << bit)
}

/// Makes the bit of this index 1.
pub fn set_bit(payload: &mut [u8], index: usize)
    requires size { length payload.old ≡ payload_size }
    requires index { index < bit_count }
    ensures size { length payload.new ≡ payload_size }
    ensures here { bit_in payload.new index ≡ true }
    ensures others { (k : ℕ) → k ≢ index → bit_in payload.new k ≡ bit_in payload.old k }
{
    payload[index / 8] = with_bit(payload[index / 8], (index % 8) as u32);
}

/// Makes the bit of this index 0.
pub fn clear_bit(payload: &mut [u8], index: usize)
    requires size { length payload.old ≡ payload_size }
    requires index { index < bit_count }
    ensures size { length payload.new ≡ payload_size }
    ensures here { bit_in payload.new index ≡ false }
    ensures others { (k : ℕ) → k ≢ index → bit_in payload.new k ≡ bit_in payload.old k }
{
    payload[index / 8] = without_bit(payload[index / 8], (index % 8) as u32);
}

/// How many of the bits of a payload are 1.
pub fn count_bits(payload: &[u8]) -> u64
    requires { length payload.now ≡ payload_size }
    ensures count { result ≡ count_true (bit_in payload.now) bit_count }
    ensures most { result ≤ bit_count }
{
    let mut count = 0;
    for index in 0..BIT_COUNT {
        count += bit_value(payload, index);
    }
    count
}

// 1 if the bit of this index is 1, else 0.
fn bit_value(payload: &[u8], index: usize) -> u64
    requires size { length payload.now ≡ payload_size }
    requires index { index < bit_count }
    ensures value { result ≡ cond (bit_in payload.now index) 1 0 }
    ensures most { result ≤ 1 }
{
    if bit_in(payload, index) { 1 } else { 0 }
}

/// A payload whose bits are all 0.
pub fn no_bits() -> [u8; PAYLOAD_SIZE]
    ensures size { length result ≡ payload_size }
    ensures clear { (k : ℕ) → bit_in result k ≡ false }
{
    zero_payload()
}
