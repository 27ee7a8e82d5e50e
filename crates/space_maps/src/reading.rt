//! What a node that was read has to say. A damage of what it says is told of the node, a wrong count of the node that
//! holds the count.

ghost use Rattle.std.specs.Prelude.{◌≡◌, ◌≢◌, ◌↔◌, ◌≤◌, ◌<◌, ◌+◌, ◌*◌, ◌^◌, ◌&&◌, ℕ, IfErr, IsTrue, OnOk, drop, false, length, true};
ghost use Rattle.base.specs.disk.Calls.{IsOnDevice};
ghost use Rattle.base.specs.disk.Disk.{bytes_of};
ghost use Rattle.base.specs.formats.Blocks.{payload_at};
ghost use Rattle.base.specs.formats.Geometry.{block_size};
ghost use Rattle.base.specs.formats.Limits.{payload_size};
ghost use Rattle.device_model.specs.Reading.{OnlyReads};
ghost use Rattle.object_maps.specs.Cached.{IsBlockRefusal};
ghost use Rattle.space.specs.FreeSets.{is_free};
ghost use Rattle.mapped_labels.specs.Shapes.{bit_count, fan, node_count};
ghost use Rattle.space_maps.specs.Nodes.{bit_in, kind_number};
ghost use Rattle.space_maps.specs.Opening.{AreClearFrom, HoldsBits, HoldsEntries, IsBitsFault, IsEntriesFault, IsEntryOf, IsNodeAt, IsNodePlace, IsNodeRefusal};
ghost use Rattle.space_maps.specs.Regions.{TakesUsed};

use crate::bits::{BIT_COUNT, bit_in, count_bits};
use crate::entry::{FAN, entry_in};
use crate::node::{NodeKind, open_node};
use base::{BLOCK_SIZE, Pointer, PoolError};
use checked_blocks::Frame;
use device_model::SectorDevice;
use mapped_labels::{MapEntry, MappedGeometry};
use space::FreeSet;

// Whether a node may be where a pointer says, and as old.
fn can_read(shape: MappedGeometry, frame: &Frame, node: u64, pointer: &Pointer) -> bool
    requires { node < node_count shape }
    ensures place { IsTrue result ↔ IsNodePlace frame.now shape node pointer.now }
    ensures on_device { IsTrue result → IsOnDevice shape pointer.now.address block_size }
{
    shape.side_at(node, pointer.address).is_some() && pointer.birth <= frame.group().0
}

/// Reads the block of the node of this kind and number, which a pointer names, into the buffer.
///
/// # Errors
/// `Damaged` with the kind and the pointer's address if its address is none of the node's sides, its birth is above the
/// frame's group, or the block there is another. `Read` if the device refuses the read.
pub fn read_node<D: SectorDevice>(
    device: &mut D,
    shape: MappedGeometry,
    frame: &Frame,
    kind: NodeKind,
    node: u64,
    pointer: &Pointer,
    buffer: &mut [u8; BLOCK_SIZE],
) -> Result<(), PoolError>
    requires size { D.size device.old ≡ shape }
    requires node { node < node_count shape }
    ensures reads { OnlyReads D.SectorDevice result device.old device.new }
    ensures cause { IfErr result (IsBlockRefusal (kind_number kind) pointer.now.address) }
    ensures stands { IsTrue D.keeps_model → OnOk result
        (IsNodeAt (bytes_of (D.disk device.old).now) frame.now shape (kind_number kind) node pointer.now) }
    ensures payload { IsTrue D.keeps_model → OnOk result
        (drop 64 buffer.new ≡ payload_at (bytes_of (D.disk device.old).now) pointer.now.address) }
    ensures refused { IsTrue D.keeps_model → IfErr result (IsNodeRefusal
        (bytes_of (D.disk device.old).now) frame.now shape (kind_number kind) node pointer.now) }
{
    if !can_read(shape, frame, node, pointer) {
        return Err(PoolError::Damaged {
            kind: kind.number(),
            address: pointer.address,
        });
    }
    device.read(pointer.address, &mut buffer[..])?;
    open_node(buffer, kind, frame.guid(), node, pointer)?;
    Ok(())
}

/// Whether an entry is what a map may say of a node of a level. A node that the map has not has an entry of zeros.
/// Another has a pointer, or none and all blocks below it as its count.
pub fn is_entry_of(shape: MappedGeometry, level: usize, index: u64, entry: &MapEntry) -> bool
    requires level { level < 4 }
    ensures { IsTrue result ↔ IsEntryOf shape level index entry.now }
{
    if shape.level_size(level) <= index {
        entry.pointer.is_none() && entry.count == 0
    } else if entry.pointer.address != 0 {
        true
    } else {
        entry.pointer.is_none() && entry.count == shape.blocks_below(level, index)
    }
}

/// Tests the payload of a map node. The nodes that it has entries for are of the given level, and its own index is one
/// of the level above. It has this entry itself, in the node at the address `holder`.
///
/// # Errors
/// `Damaged` of kind 9, at the node's address if one of its entries is none, else at `holder` if its entry's count isn't
/// the sum of theirs.
pub fn test_entries(
    shape: MappedGeometry,
    level: usize,
    index: u64,
    entry: &MapEntry,
    holder: u64,
    payload: &[u8],
) -> Result<(), PoolError>
    requires level { level < 4 }
    requires index { index < 2 ^ 18 }
    requires size { length payload.now ≡ payload_size }
    ensures holds { OnOk result (HoldsEntries shape level index entry.now payload.now) }
    ensures refused { IfErr result (IsEntriesFault shape level index entry.now holder payload.now) }
{
    let mut sum = 0;
    for k in 0..FAN {
        let child = entry_in(payload, k);
        if !is_entry_of(shape, level, FAN as u64 * index + k as u64, &child) {
            return Err(PoolError::Damaged {
                kind: NodeKind::Entries.number(),
                address: entry.pointer.address,
            });
        }
        sum += child.count as u128;
    }
    test_count(entry, holder, sum)?;
    Ok(())
}

// Tests the count of an entry, which the node at the address `holder` has.
fn test_count(entry: &MapEntry, holder: u64, count: u128) -> Result<(), PoolError>
    ensures ok { OnOk result (count ≡ entry.now.count) }
    ensures refused { IfErr result (λ e. (e ≡ PoolError.Damaged 9 holder) × (count ≢ entry.now.count)) }
{
    if count == entry.count as u128 {
        Ok(())
    } else {
        Err(PoolError::Damaged {
            kind: NodeKind::Entries.number(),
            address: holder,
        })
    }
}

/// Tests the payload of a bits block of this index. It has this entry, in the node at the address `holder`.
///
/// # Errors
/// `Damaged` of kind 8 at the block's address if a bit past the last block of the area is 1. Else `Damaged` of kind 9 at
/// `holder` if the entry's count isn't the number of ones.
pub fn test_bits(
    shape: MappedGeometry,
    index: u64,
    entry: &MapEntry,
    holder: u64,
    payload: &[u8],
) -> Result<(), PoolError>
    requires index { index < 2 ^ 18 }
    requires size { length payload.now ≡ payload_size }
    ensures holds { OnOk result (HoldsBits shape index entry.now payload.now) }
    ensures refused { IfErr result (IsBitsFault shape index entry.now holder payload.now) }
{
    if !are_clear_from(payload, shape.blocks_below(0, index) as usize) {
        return Err(PoolError::Damaged {
            kind: NodeKind::Bits.number(),
            address: entry.pointer.address,
        });
    }
    test_count(entry, holder, count_bits(payload) as u128)?;
    Ok(())
}

// Whether the bits from this one on are 0.
fn are_clear_from(payload: &[u8], first: usize) -> bool
    requires { length payload.now ≡ payload_size }
    ensures { IsTrue result ↔ AreClearFrom first payload.now }
{
    for index in first..BIT_COUNT {
        if bit_in(payload, index) {
            return false;
        }
    }
    true
}

/// Takes the blocks from this one on whose bits are 0 from a set of free blocks.
pub fn take_used(free: &mut FreeSet, first: usize, payload: &[u8])
    requires first { first < 2 ^ 40 }
    requires size { length payload.now ≡ payload_size }
    ensures { TakesUsed first bit_count payload.now free.old free.new }
{
    for k in 0..BIT_COUNT {
        take_unless(free, first + k, bit_in(payload, k));
    }
}

// Takes a block, unless it stays.
fn take_unless(free: &mut FreeSet, block: usize, stays: bool)
    ensures here { is_free block free.new ≡ (is_free block free.old && stays) }
    ensures others { (k : ℕ) → k ≢ block → is_free k free.new ≡ is_free k free.old }
    ensures rest { free.new ≡ record free.old { free = free.new.free } }
{
    if stays {
        return;
    }
    free.take(block);
}
