//! Packing: as many whole records from the front of the pending ones as fit a log block, or a part of one that a block
//! can't hold, and the block that holds them.
//!
//! A record is encoded when its block or its first part is written, and again if it did not fit behind others. It may
//! also be encoded before its turn, when its block is sealed ahead with an earlier one. A record is never encoded if its
//! group is synced before all of this.

ghost use Rattle.std.specs.Prelude.{◌≡◌, ◌<◌, ◌≤◌, ◌+◌, ◌^◌, All, IfErr, IfOk, length, map, take};
ghost use Rattle.base.specs.formats.Limits.{log_block_room, payload_size};
ghost use Rattle.base.specs.formats.Records.{IsAllowed, bytes_of_record, size_of};
ghost use Rattle.records.specs.Records.{record_fields};
ghost use Rattle.intent_log.specs.Packing.{HoldsBytes, HoldsUsed, IsEncoded, IsEncodedFront, IsEncodedLong, IsFirstPart, IsPackedAs, IsPackedFirst, IsPackedWhole, log_bytes};
ghost use Rattle.base.specs.steps.Logs.{next_part};
ghost use Rattle.intent_log.specs.Kept.{begun_shown};

use crate::ahead::Sealer;
use crate::begun::{BegunRecord, tell_record};
use crate::chains::ChainHeader;
use base::{Group, PoolError, Receipt, write_bytes, write_u64};
use checked_blocks::{Block, Kind, PAYLOAD_SIZE, seal};
use records::{Record, encode_into};
use std::alloc::Global;

/// Where the records of a log block's payload begin: after the chain's number, the next address and the used length.
pub(crate) const RECORDS_AT: usize = 24;

/// The most bytes of records that a log block holds.
pub const LOG_BLOCK_ROOM: usize = PAYLOAD_SIZE - RECORDS_AT;

/// Where a log block goes: the pool and the open group, its own place in the chain, and the address of the block
/// after it.
#[derive(Clone, Copy, PartialEq, Eq)]
pub struct NewBlock {
    /// The pool's guid.
    pub guid: u64,
    /// The open group, in which the block is packed.
    pub group: Group,
    /// The block's own address, log number and import number.
    pub header: ChainHeader,
    /// The address of the block after it, in bytes.
    pub next: u64,
}

/// A log block that is to be written, and how many records from the front of the pending ones it holds.
#[derive(Drop)]
pub struct PackedBlock {
    /// The block, with its check.
    pub block: Block,
    /// The number of its records.
    pub count: usize,
}

/// A log block that is to be written with the first part of a record, and the record that is begun then.
#[derive(Drop)]
pub struct FirstPart {
    /// The block, with its check.
    pub block: Block,
    /// The record, of which 4,008 bytes are written.
    pub begun: BegunRecord,
}

/// What a log block takes from the front of the pending records.
#[derive(Drop)]
pub enum Packed {
    /// Whole records, one at least.
    Whole(PackedBlock),
    /// The first part of the first one, if that has more than 4,008 bytes.
    First(FirstPart),
}

/// Packs as many whole records from the front as fit, or else the first part of the first one.
///
/// # Errors
/// `NoMemory` if there is no memory for the bytes of the records.
pub fn pack(alloc: Global, place: &NewBlock, pending: &[Record]) -> Result<Packed, PoolError>
    requires some { 0 < length pending.now }
    requires allowed { All IsAllowed (map record_fields pending.now) }
    ensures packed { IfOk result (IsPackedAs place.now (map record_fields pending.now)) }
    ensures refused { IfErr result (λ e. e ≡ PoolError.NoMemory) }
{
    let mut sealer = Sealer::alone(alloc);
    match encode_front(alloc, pending)? {
        Encoded::Front(bytes, count) => Ok(Packed::Whole(PackedBlock {
            block: pack_front(&mut sealer, place, &bytes, count, pending),
            count,
        })),
        Encoded::Long(bytes) => Ok(Packed::First(pack_first(&mut sealer, place, bytes, pending))),
    }
}

/// The block with so many whole records from the front, of which these are the bytes. It needs no memory.
pub(crate) fn pack_front(
    sealer: &mut Sealer<'_>,
    place: &NewBlock,
    bytes: &[u8],
    count: usize,
    pending: &[Record],
) -> Block
    requires front { IsEncodedFront (map record_fields pending.now) count bytes.now }
    requires allowed { All IsAllowed (map record_fields pending.now) }
    ensures { IsPackedWhole place.now (map record_fields pending.now) count result }
{
    let (_, behind) = pending.split_at(count);
    sealer.seal(place, bytes, &[], behind)
}

/// The block with the first part of the first record, of which these are the bytes. It needs no memory.
pub(crate) fn pack_first(
    sealer: &mut Sealer<'_>,
    place: &NewBlock,
    bytes: Vec<u8>,
    pending: &[Record],
) -> FirstPart
    requires some { 0 < length pending.now }
    requires long { IsEncodedLong (map record_fields pending.now) bytes.items }
    requires allowed { All IsAllowed (map record_fields pending.now) }
    ensures { IsPackedFirst place.now (map record_fields pending.now) result }
{
    let (_, behind) = pending.split_at(1);
    begin(sealer, place, &pending[0], bytes, behind)
}

/// The block with the next part of a record that is begun, before these pending records. It needs no memory.
pub(crate) fn pack_part(
    sealer: &mut Sealer<'_>,
    place: &NewBlock,
    begun: &BegunRecord,
    pending: &[Record],
) -> Block
    requires { All IsAllowed (map record_fields pending.now) }
    ensures { HoldsUsed place.now result (next_part (begun_shown begun.now)) }
{
    sealer.seal(place, begun.next_part(), begun.behind_next_part(), pending)
}

// The block with the first part of a record, of which these are all the bytes, before these pending records.
fn begin(
    sealer: &mut Sealer<'_>,
    place: &NewBlock,
    first: &Record,
    bytes: Vec<u8>,
    pending: &[Record],
) -> FirstPart
    requires long { log_block_room < size_of (record_fields first.now) }
    requires spelled { bytes.items ≡ bytes_of_record (record_fields first.now) }
    requires allowed { All IsAllowed (map record_fields pending.now) }
    ensures { IsFirstPart place.now (record_fields first.now) result }
{
    let begun = BegunRecord {
        receipt: Receipt {
            ordinal: first.ordinal,
            group: first.group,
        },
        logged: tell_record(first),
        bytes,
        written: LOG_BLOCK_ROOM,
    };
    let (part, rest) = begun.bytes.split_at(LOG_BLOCK_ROOM);
    let block = sealer.seal(place, part, rest, pending);
    FirstPart { block, begun }
}

/// What the front of the pending records is as bytes.
#[derive(Drop)]
pub(crate) enum Encoded {
    /// The bytes of as many records as fit, and how many these are.
    Front(Vec<u8>, usize),
    /// The bytes of the first one, which doesn't fit.
    Long(Vec<u8>),
}

/// The bytes of as many records from the front as fit a log block, or those of the first one if it doesn't fit.
pub(crate) fn encode_front(alloc: Global, pending: &[Record]) -> Result<Encoded, PoolError>
    requires some { 0 < length pending.now }
    requires allowed { All IsAllowed (map record_fields pending.now) }
    ensures front { IfOk result (IsEncoded (map record_fields pending.now)) }
    ensures refused { IfErr result (λ e. e ≡ PoolError.NoMemory) }
{
    let mut bytes = Vec::with_capacity(alloc, 2 * LOG_BLOCK_ROOM)?;
    for index in 0..pending.len() {
        let before = bytes.len();
        encode_into(&mut bytes, &pending[index])?;
        let total = bytes.len();
        if total > LOG_BLOCK_ROOM {
            if index == 0 {
                return Ok(Encoded::Long(bytes));
            }
            bytes.truncate(before);
            return Ok(Encoded::Front(bytes, index));
        }
    }
    Ok(Encoded::Front(bytes, pending.len()))
}

/// The block that holds these bytes of records.
pub(crate) fn seal_records(place: &NewBlock, records: &[u8]) -> Block
    requires { length records.now ≤ log_block_room }
    ensures { HoldsBytes place.now result records.now }
{
    let payload = payload_of(place.header.import_number, place.next, records);
    seal(
        Kind::Log as u64,
        place.guid,
        place.group,
        place.header.number,
        &payload[..RECORDS_AT + records.len()],
    )
    .unwrap()
}

/// Chain number, next address, used length and the records, and then zeros.
pub(crate) fn payload_of(chain: u64, next: u64, records: &[u8]) -> [u8; PAYLOAD_SIZE]
    requires { length records.now ≤ log_block_room }
    ensures payload { take (24 + length records.now) result ≡ log_bytes chain next records.now }
    ensures chain_fits { chain < 2 ^ 64 }
    ensures next_fits { next < 2 ^ 64 }
{
    let mut payload = zero_payload();
    write_u64(&mut payload, 0, chain);
    write_u64(&mut payload, 8, next);
    write_u64(&mut payload, 16, records.len() as u64);
    write_bytes(&mut payload, RECORDS_AT, records);
    payload
}

fn zero_payload() -> [u8; PAYLOAD_SIZE]
    ensures { length result ≡ payload_size }
{
    [0; PAYLOAD_SIZE]
}
