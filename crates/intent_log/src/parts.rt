//! The parts of a long record: each fills its block but the last, which holds the rest and nothing else.

ghost use Rattle.std.specs.Prelude.{◌≡◌, ◌<◌, ◌≤◌, ◌^◌, IfErr, IfOk, IfSome, IfNone, IsTrue};
ghost use Rattle.base.specs.disk.Disk.{bytes_of};
ghost use Rattle.base.specs.formats.Geometry.{block_address};
ghost use Rattle.base.specs.formats.Versions.{number_of_version};
ghost use Rattle.device_model.specs.Reading.{OnlyReads};
ghost use Rattle.intent_log.specs.Chains.{AreGathered, AreSoundParts, BeginsNone, IsBlockAt, IsChainRefusal, MayBegin, NoneStand};

use crate::chains::ChainHeader;
use crate::log_blocks::{LogBlock, read_block};
use crate::packing::LOG_BLOCK_ROOM;
use base::{MAX_LOG_RECORD, PoolError, Version};
use byteorder::{ByteOrder, LittleEndian};
use checked_blocks::Frame;
use device_model::SectorDevice;
use std::alloc::Global;

/// All parts of a record: their bytes, where the blocks after the first one lie, and which block the last one names as
/// the next.
#[derive(Drop)]
pub(crate) struct Parts {
    pub(crate) bytes: Vec<u8>,
    pub(crate) behind: Vec<u64>,
    pub(crate) next: u64,
}

/// How many bytes the long record has that begins with the used bytes of a block. `None` if none begins with them, as
/// in version 1.
pub(crate) fn long_size(version: Version, used: &[u8]) -> Option<usize>
    ensures new { IfSome result (λ size. version ≡ Version.Two) }
    ensures some { IfSome result (MayBegin used.now) }
    ensures none { IfNone result (1 < number_of_version version → BeginsNone used.now) }
{
    match version {
        Version::One => None,
        Version::Two => size_said(used),
    }
}

// The same, whatever the version.
fn size_said(used: &[u8]) -> Option<usize>
    ensures some { IfSome result (MayBegin used.now) }
    ensures none { IfNone result (BeginsNone used.now) }
{
    if used.len() != LOG_BLOCK_ROOM {
        return None;
    }
    let size = LittleEndian::read_u32(used) as usize;
    (LOG_BLOCK_ROOM < size && size <= MAX_LOG_RECORD as usize).then_some(size)
}

/// Reads the parts of so many bytes from their first block on. `None` if one is missing or has another length.
///
/// # Errors
/// `Read` if the device refuses a read, `NoMemory` if there is no memory for them.
pub(crate) fn gather<D: SectorDevice>(
    alloc: Global,
    device: &mut D,
    frame: &Frame,
    header: &ChainHeader,
    first: LogBlock,
    size: usize,
) -> Result<Option<Parts>, PoolError>
    requires fits { block_address frame.now.blocks ≤ D.size device.old }
    requires number { header.now.number ≤ 2 ^ 62 }
    requires begins { MayBegin first.used size }
    ensures reads { OnlyReads D.SectorDevice result device.old device.new }
    ensures cause { IfErr result IsChainRefusal }
    ensures all { IsTrue D.keeps_model
        → IsBlockAt (bytes_of (D.disk device.old).now) frame.now header.now first
        → IfOk result (λ found. IfSome found
        (AreGathered (bytes_of (D.disk device.old).now) frame.now header.now size)) }
    ensures none { IsTrue D.keeps_model
        → IsBlockAt (bytes_of (D.disk device.old).now) frame.now header.now first
        → IfOk result (λ found. IfNone found
        (NoneStand (bytes_of (D.disk device.old).now) frame.now header.now size)) }
    ensures sound { IfOk result (λ found. IfSome found (AreSoundParts frame.now.blocks size)) }
{
    let mut bytes = first.used;
    let mut behind = Vec::new(alloc);
    let mut next = *header;
    next.address = first.next;
    next.number += 1;
    while bytes.len() < size {
        let Some(block) = read_block(alloc, device, frame, &next)? else {
            return Ok(None);
        };
        if block.used.len() != LOG_BLOCK_ROOM.min(size - bytes.len()) {
            return Ok(None);
        }
        bytes.extend_from_slice(block.used.as_slice())?;
        behind.push(next.address)?;
        next.address = block.next;
        next.number += 1;
    }
    Ok(Some(Parts {
        bytes,
        behind,
        next: next.address,
    }))
}
