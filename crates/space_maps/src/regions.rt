//! The bits of a region after a sync: those before it, where the log's blocks are free, with what was freed, without
//! what was taken.

ghost use Rattle.std.specs.Prelude.{◌≡◌, ◌≢◌, ◌<◌, ◌+◌, ◌*◌, ◌^◌, ◌==◌, ℕ, IfNone, IfSome, cond, length};
ghost use Rattle.base.specs.formats.Geometry.{block_address};
ghost use Rattle.base.specs.formats.Limits.{payload_size};
ghost use Rattle.base.specs.steps.Locks.{is_in};
ghost use Rattle.space.specs.FreeSets.{is_free};
ghost use Rattle.mapped_labels.specs.Shapes.{bit_count};
ghost use Rattle.space_maps.specs.Nodes.{bit_in};
ghost use Rattle.space_maps.specs.Laws as law;
ghost use Rattle.space_maps.specs.Regions.{region_start, tree_bits};

use crate::bits::{BIT_COUNT, clear_bit, no_bits, set_bit};
use base::BLOCK_SIZE;
use checked_blocks::{BLOCK_AREA, PAYLOAD_SIZE};
use space::FreeSet;

/// The payload of the bits block of this index after a sync that takes and frees the blocks at these addresses. The log
/// has blocks that aren't free in the set, and are free in the map.
pub fn bits_after(
    free: &FreeSet,
    log: &[u64],
    taken: &[u64],
    freed: &[u64],
    index: u64,
) -> [u8; PAYLOAD_SIZE]
    requires { index < 2 ^ 18 }
    ensures size { length result ≡ payload_size }
    ensures bits { (k : ℕ) → k < bit_count → bit_in result k
        ≡ law.bits_after taken.now freed.now (tree_bits free.now log.now) (region_start index + k) }
{
    let first = BIT_COUNT * index as usize;
    let mut payload = free_bits(free, first);
    put_blocks(&mut payload, first, log, true);
    put_blocks(&mut payload, first, freed, true);
    put_blocks(&mut payload, first, taken, false);
    payload
}

// A payload with a 1 for each free block from this one on.
fn free_bits(free: &FreeSet, first: usize) -> [u8; PAYLOAD_SIZE]
    requires { first < 2 ^ 40 }
    ensures size { length result ≡ payload_size }
    ensures bits { (k : ℕ) → k < bit_count → bit_in result k ≡ is_free (first + k) free.now }
{
    let mut payload = no_bits();
    for index in 0..BIT_COUNT {
        put_bit(&mut payload, index, free.is_free(first + index));
    }
    payload
}

// Makes the bit of this index 1 or 0.
fn put_bit(payload: &mut [u8], index: usize, value: bool)
    requires size { length payload.old ≡ payload_size }
    requires index { index < bit_count }
    ensures size { length payload.new ≡ payload_size }
    ensures here { bit_in payload.new index ≡ value }
    ensures others { (k : ℕ) → k ≢ index → bit_in payload.new k ≡ bit_in payload.old k }
{
    if value {
        set_bit(payload, index);
    } else {
        clear_bit(payload, index);
    }
}

// Makes the bits of the blocks at these addresses 1 or 0, in a payload with bits for the blocks from this one on.
fn put_blocks(payload: &mut [u8], first: usize, addresses: &[u64], value: bool)
    requires size { length payload.old ≡ payload_size }
    requires first { first < 2 ^ 40 }
    ensures size { length payload.new ≡ payload_size }
    ensures bits { (k : ℕ) → k < bit_count → bit_in payload.new k
        ≡ cond (is_in (block_address (first + k)) addresses.now) value (bit_in payload.old k) }
{
    for address in addresses {
        put_block(payload, first, *address, value);
    }
}

// The same for one block.
fn put_block(payload: &mut [u8], first: usize, address: u64, value: bool)
    requires size { length payload.old ≡ payload_size }
    requires first { first < 2 ^ 40 }
    ensures size { length payload.new ≡ payload_size }
    ensures bits { (k : ℕ) → k < bit_count → bit_in payload.new k
        ≡ cond (block_address (first + k) == address) value (bit_in payload.old k) }
{
    match bit_of(first, address) {
        Some(index) => put_bit(payload, index, value),
        None => {}
    }
}

// The bit of the block at an address, among those of the blocks from this one on.
fn bit_of(first: usize, address: u64) -> Option<usize>
    requires { first < 2 ^ 40 }
    ensures within { IfSome result (λ k. k < bit_count) }
    ensures some { IfSome result (λ k. address ≡ block_address (first + k)) }
    ensures none { IfNone result ((k : ℕ) → k < bit_count → block_address (first + k) ≢ address) }
{
    let offset = address.checked_sub(BLOCK_AREA)?;
    if offset % BLOCK_SIZE as u64 != 0 {
        return None;
    }
    let index = (offset / BLOCK_SIZE as u64).checked_sub(first as u64)?;
    if index < BIT_COUNT as u64 {
        Some(index as usize)
    } else {
        None
    }
}
