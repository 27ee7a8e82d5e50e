//! The chain of log blocks from a header on: what an import replays.
//!
//! It is made of pieces. A piece is one block of whole records, or the blocks of one record that is longer than a
//! block. Version 1 has no such record, and none that reaches past the length of one level. A block is of the chain if
//! all of this is true of it:
//! 1. It lies in the block area, and opens as a log block of this pool.
//! 2. Its number follows that of the block before it.
//! 3. It names the chain of its run, which is the run's import number.
//! 4. Its used bytes are whole records, one at least, or the next part of a long record. After them it has zeros.
//!
//! The first block that isn't so ends the chain. A long record that isn't whole ends it before its first block.
//! A chain has no more blocks than the device has room for: each has a number of its own, and so an address of its own.
//! Whatever the device holds, none is read after so many.

ghost use Rattle.std.specs.Prelude.{◌≡◌, ◌↔◌, ◌≤◌, ◌<◌, ◌^◌, All, IfErr, IfOk, IfSome, IfNone, IsTrue, length, map};
ghost use Rattle.std.specs.List.{list_all};
ghost use Rattle.base.specs.disk.Disk.{bytes_of};
ghost use Rattle.base.specs.formats.Geometry.{block_address};
ghost use Rattle.base.specs.formats.Limits.{last_number};
ghost use Rattle.base.specs.formats.Records.{is_one_level_op};
ghost use Rattle.device_model.specs.Reading.{OnlyReads};
ghost use Rattle.records.specs.Records.{record_fields};
ghost use Rattle.intent_log.specs.Chains.{AreOfVersion, HasNoLong, HasNoPieceAt, HasNoneOfVersion, IsBlockAt, IsChainFrom, IsChainRefusal, IsLongAt, IsPieceAt, IsShortOf, IsSoundBlock, IsSoundPiece, MayBegin};

use crate::block_records::{read_record, read_records};
use crate::log_blocks::{LogBlock, read_block};
use crate::parts::{Parts, gather, long_size};
use base::{BLOCK_SIZE, PoolError, SECTOR_SIZE, Version};
use checked_blocks::Frame;
use device_model::SectorDevice;
use records::{Record, is_one_level};
use std::alloc::Global;
use std::marker::Model;

/// How many sectors a block has.
const SECTORS: u64 = BLOCK_SIZE as u64 / SECTOR_SIZE;

/// The first block of a chain: where it lies, its log number, the import number of the chain's run, and the version by
/// whose rules it is read.
#[derive(Clone, Copy, PartialEq, Eq)]
pub struct ChainHeader {
    /// The block's address in bytes. That of no block begins the empty chain.
    pub address: u64,
    /// The block's log number.
    pub number: u64,
    /// The import number of the run that wrote the chain.
    pub import_number: u64,
    /// The version of the uberblock that names the chain.
    pub version: Version,
}

/// A piece of a chain: where it begins, where its other blocks lie, where the next piece begins, and its records.
/// Contracts see it as these four.
#[derive(Drop)]
pub struct LoggedPiece {
    address: u64,
    behind: Vec<u64>,
    next: u64,
    records: Vec<Record>,
}

impl Model for LoggedPiece {
    ghost use Rattle.std.specs.Prelude.{map};
    ghost use Rattle.base.specs.formats.Chain.{LogPiece};
    ghost use Rattle.records.specs.Records.{record_fields};

    ghost Value = { LogPiece };

    ghost view = { λ p. record {
      address = p.address;
      behind = p.behind.items;
      next = p.next;
      records = map record_fields p.records.items;
    } };
}

impl LoggedPiece {
    ghost use Rattle.std.specs.Prelude.{◌≡◌, map};
    ghost use Rattle.records.specs.Records.{record_fields};

    /// The address of its first block in bytes.
    pub fn address(&self) -> u64
        ensures { result ≡ self.now.address }
    {
        self.address
    }

    /// The addresses of its other blocks in bytes, in order.
    pub fn behind(&self) -> &[u64]
        ensures { result.now ≡ self.now.behind }
    {
        self.behind.as_slice()
    }

    /// Its records, in order.
    pub fn records(&self) -> &[Record]
        ensures { map record_fields result.now ≡ self.now.records }
    {
        self.records.as_slice()
    }

    /// The `Vec` that holds its records, in order.
    pub fn into_records(self) -> Vec<Record>
        ensures { map record_fields result.items ≡ self.records }
    {
        self.records
    }
}

/// Reads the longest chain from a header on. It reads each block once, and the one at which the chain ends. If that
/// one begins a long record, it reads the record's parts, too, up to the one that is missing.
///
/// # Errors
/// `Read` if the device refuses a read, `NoMemory` if there is no memory for a block's bytes or records.
pub fn chain<D: SectorDevice>(
    alloc: Global,
    device: &mut D,
    frame: &Frame,
    header: &ChainHeader,
) -> Result<Vec<LoggedPiece>, PoolError>
    requires fits { block_address frame.now.blocks ≤ D.size device.old }
    requires number { header.now.number ≤ last_number }
    ensures reads { OnlyReads D.SectorDevice result device.old device.new }
    ensures cause { IfErr result IsChainRefusal }
    ensures chain { IsTrue D.keeps_model → IfOk result
        (λ pieces. IsChainFrom (bytes_of (D.disk device.old).now) frame.now header.now
        pieces.items) }
    ensures sound { IfOk result (λ pieces. All (IsSoundPiece frame.now.blocks) pieces.items) }
{
    let mut pieces = Vec::new(alloc);
    let mut next = *header;
    let end = header.number + device.sectors() / SECTORS;
    while next.number < end {
        let Some(piece) = read_piece(alloc, device, frame, &next)? else {
            return Ok(pieces);
        };
        next.address = piece.next;
        next.number += 1 + piece.behind.len() as u64;
        pieces.push(piece)?;
    }
    Ok(pieces)
}

// The piece that a header names. `None` if there is none.
fn read_piece<D: SectorDevice>(
    alloc: Global,
    device: &mut D,
    frame: &Frame,
    header: &ChainHeader,
) -> Result<Option<LoggedPiece>, PoolError>
    requires fits { block_address frame.now.blocks ≤ D.size device.old }
    requires number { header.now.number ≤ 2 ^ 62 }
    ensures reads { OnlyReads D.SectorDevice result device.old device.new }
    ensures cause { IfErr result IsChainRefusal }
    ensures read { IsTrue D.keeps_model → IfOk result (λ found. IfSome found
        (IsPieceAt (bytes_of (D.disk device.old).now) frame.now header.now)) }
    ensures none { IsTrue D.keeps_model → IfOk result (λ found. IfNone found
        (HasNoPieceAt (bytes_of (D.disk device.old).now) frame.now header.now)) }
    ensures sound { IfOk result (λ found. IfSome found (IsSoundPiece frame.now.blocks)) }
{
    let Some(block) = read_block(alloc, device, frame, header)? else {
        return Ok(None);
    };
    let Some(size) = long_size(header.version, block.used.as_slice()) else {
        return read_short(alloc, header.version, block);
    };
    read_parts(alloc, device, frame, header, block, size)
}

// The piece of one block of whole records. `None` if its bytes aren't that, or if the version has not each of them.
fn read_short(
    alloc: Global,
    version: Version,
    block: LogBlock,
) -> Result<Option<LoggedPiece>, PoolError>
    ensures read { IfOk result (λ found. IfSome found (IsShortOf version block)) }
    ensures none { IfOk result (λ found. IfNone found (HasNoneOfVersion version block.used)) }
    ensures refused { IfErr result (λ e. e ≡ PoolError.NoMemory) }
{
    let Some(records) = read_records(alloc, block.used.as_slice())? else {
        return Ok(None);
    };
    if !are_of_version(version, records.as_slice()) {
        return Ok(None);
    }
    Ok(Some(LoggedPiece {
        address: block.address,
        behind: Vec::new(alloc),
        next: block.next,
        records,
    }))
}

// Whether a version has these records: version 1 has none that reaches past the length of one level.
fn are_of_version(version: Version, records: &[Record]) -> bool
    ensures { IsTrue result ↔ AreOfVersion version (map record_fields records.now) }
{
    match version {
        Version::One => are_of_one_level(records),
        Version::Two => true,
    }
}

fn are_of_one_level(records: &[Record]) -> bool
    ensures { result ≡ list_all (λ r. list_all is_one_level_op r.ops) records.now }
{
    records.iter().all(|committed| is_one_level(committed))
}

// The piece of one long record, whose first block was read and says that it has so many bytes. `None` if a part of it
// is missing or has another length, or if its bytes are no record.
fn read_parts<D: SectorDevice>(
    alloc: Global,
    device: &mut D,
    frame: &Frame,
    header: &ChainHeader,
    first: LogBlock,
    size: usize,
) -> Result<Option<LoggedPiece>, PoolError>
    requires fits { block_address frame.now.blocks ≤ D.size device.old }
    requires number { header.now.number ≤ 2 ^ 62 }
    requires begins { MayBegin first.used size }
    requires sound { IsSoundBlock frame.now.blocks header.now first }
    ensures reads { OnlyReads D.SectorDevice result device.old device.new }
    ensures cause { IfErr result IsChainRefusal }
    ensures read { IsTrue D.keeps_model
        → IsBlockAt (bytes_of (D.disk device.old).now) frame.now header.now first
        → IfOk result (λ found. IfSome found
        (IsLongAt (bytes_of (D.disk device.old).now) frame.now header.now)) }
    ensures none { IsTrue D.keeps_model
        → IsBlockAt (bytes_of (D.disk device.old).now) frame.now header.now first
        → IfOk result (λ found. IfNone found
        (HasNoLong (bytes_of (D.disk device.old).now) frame.now header.now size)) }
    ensures sound { IfOk result (λ found. IfSome found (IsSoundPiece frame.now.blocks)) }
{
    let Some(
        Parts {
            bytes,
            behind,
            next,
        },
    ) = gather(alloc, device, frame, header, first, size)?
    else {
        return Ok(None);
    };
    let Some(record) = read_record(alloc, bytes.as_slice())? else {
        return Ok(None);
    };
    let mut records = Vec::new(alloc);
    records.push(record)?;
    Ok(Some(LoggedPiece {
        address: header.address,
        behind,
        next,
        records,
    }))
}
