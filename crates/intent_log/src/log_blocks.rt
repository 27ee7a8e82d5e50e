//! A log block that is read: which block it names as the next, and the bytes of records that it has.

ghost use Rattle.std.specs.Prelude.{◌≡◌, ◌≤◌, IfErr, IfOk, IfSome, IfNone, IsTrue, length};
ghost use Rattle.base.specs.disk.Disk.{bytes_of};
ghost use Rattle.base.specs.formats.Chain.{IsLogPayload};
ghost use Rattle.base.specs.formats.Geometry.{block_address};
ghost use Rattle.base.specs.formats.Limits.{log_block_room, payload_size};
ghost use Rattle.device_model.specs.Reading.{OnlyReads};
ghost use Rattle.intent_log.specs.Chains.{HasNoBlock, HasNoPayload, IsBlockAt, IsChainRefusal, IsLogExpected, IsSoundBlock};

use crate::chains::ChainHeader;
use crate::packing::{LOG_BLOCK_ROOM, RECORDS_AT};
use base::{PoolError, are_zeros, read_u64};
use checked_blocks::{Expected, Frame, Kind, open};
use device_model::SectorDevice;
use std::alloc::Global;
use std::marker::Model;

/// A log block: where it lies, where the next one does, and its used bytes. Contracts see it as these three.
#[derive(Drop)]
pub(crate) struct LogBlock {
    pub(crate) address: u64,
    pub(crate) next: u64,
    pub(crate) used: Vec<u8>,
}

impl Model for LogBlock {
    ghost use Rattle.base.specs.formats.Chain as chains;

    ghost Value = { chains.LogBlock };

    ghost view = { λ b. record { address = b.address; next = b.next; used = b.used.items } };
}

/// The log block that a header names. `None` if there is none.
pub(crate) fn read_block<D: SectorDevice>(
    alloc: Global,
    device: &mut D,
    frame: &Frame,
    header: &ChainHeader,
) -> Result<Option<LogBlock>, PoolError>
    requires fits { block_address frame.now.blocks ≤ D.size device.old }
    ensures reads { OnlyReads D.SectorDevice result device.old device.new }
    ensures cause { IfErr result IsChainRefusal }
    ensures read { IsTrue D.keeps_model → IfOk result (λ found. IfSome found
        (IsBlockAt (bytes_of (D.disk device.old).now) frame.now header.now)) }
    ensures none { IsTrue D.keeps_model → IfOk result (λ found. IfNone found
        (HasNoBlock (bytes_of (D.disk device.old).now) frame.now header.now)) }
    ensures sound { IfOk result (λ found. IfSome found (IsSoundBlock frame.now.blocks header.now)) }
{
    if !frame.is_block_address(header.address) {
        return Ok(None);
    }
    let mut buffer = [0; 4096];
    device.read(header.address, &mut buffer[..])?;
    let Ok(payload) = open(&buffer, &expected(frame, header)) else {
        return Ok(None);
    };
    read_payload(alloc, header, payload.as_slice())
}

// What the block that a header names has to be. The group in which it was packed is any.
fn expected(frame: &Frame, header: &ChainHeader) -> Expected
    ensures { IsLogExpected frame.now header.now result }
{
    Expected {
        address: header.address,
        kind: Kind::Log as u64,
        guid: frame.guid(),
        number: header.number,
        group: None,
        check: None,
    }
}

// The log block with this payload. `None` if it is none of the header's chain.
fn read_payload(
    alloc: Global,
    header: &ChainHeader,
    payload: &[u8],
) -> Result<Option<LogBlock>, PoolError>
    requires { length payload.now ≡ payload_size }
    ensures read { IfOk result (λ found. IfSome found
        (IsLogPayload payload.now header.now.import_number)) }
    ensures none { IfOk result (λ found. IfNone found
        (HasNoPayload payload.now header.now.import_number)) }
    ensures address { IfOk result (λ found. IfSome found
        (λ block. block.address ≡ header.now.address)) }
    ensures fits { IfOk result (λ found. IfSome found
        (λ block. length block.used ≤ log_block_room)) }
    ensures refused { IfErr result (λ e. e ≡ PoolError.NoMemory) }
{
    let used = read_u64(payload, 16);
    if read_u64(payload, 0) != header.import_number || used > LOG_BLOCK_ROOM as u64 {
        return Ok(None);
    }
    let end = RECORDS_AT + used as usize;
    if !are_zeros(&payload[end..]) {
        return Ok(None);
    }
    Ok(Some(LogBlock {
        address: header.address,
        next: read_u64(payload, 8),
        used: Vec::from_slice(alloc, &payload[RECORDS_AT..end])?,
    }))
}
