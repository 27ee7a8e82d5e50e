//! Log blocks that are sealed before their turn. The checks of four blocks side by side cost about as much as those of
//! two alone (`hash_lanes`). So the next block is sealed beside three that follow it (`checked_blocks::seal_all`), if two
//! of these are known at least.
//!
//! 1. A block that follows is known if it has a part of a long record. It is also known if it has whole records behind
//!    which the next pending one doesn't fit. The last pending records make no known block: others may come behind them.
//! 2. A block waits for its turn. It is used if the block that is written then is the same: of the same pool and group,
//!    with the same header, next address and bytes of records. If not, the block is sealed again.
//! 3. So no clause rests on what waits. If the blocks that follow are refused memory, the next block is sealed alone,
//!    which needs none.

ghost use Rattle.std.specs.Prelude.{◌≡◌, ◌<◌, ◌≤◌, ◌^◌, All, IfOk, IfSome, IsTrue, drop, length, map, vec_len};
ghost use Rattle.base.specs.formats.Limits.{log_block_room};
ghost use Rattle.base.specs.formats.Records.{IsAllowed};
ghost use Rattle.checked_blocks.specs.Sealing.{padded};
ghost use Rattle.records.specs.Records.{record_fields};
ghost use Rattle.intent_log.specs.Ahead.{IsSealedAt, place_beside};
ghost use Rattle.intent_log.specs.Packing.{HoldsBytes, log_bytes};

use crate::chains::ChainHeader;
use crate::packing::{
    Encoded, LOG_BLOCK_ROOM, NewBlock, RECORDS_AT, encode_front, payload_of, seal_records,
};
use base::PoolError;
use checked_blocks::{Block, Kind, Lanes, Prepared, SealedBlock, seal_all};
use records::Record;
use std::alloc::{AllocError, Global};
use std::marker::Model;

/// How many blocks are sealed beside one.
pub const AHEAD: usize = 3;

/// Log blocks that wait for their turn: at most 3, which are 12 KiB of blocks and 12 KiB of their records.
#[derive(Drop)]
pub struct Ahead {
    blocks: Vec<SealedAhead>,
    ghost few: { vec_len blocks ≤ 3 },
}

impl Ahead {
    /// No block waits. It takes no memory.
    pub(crate) fn none(alloc: Global) -> Self {
        Ahead {
            blocks: Vec::new(alloc),
        }
    }

    // The block at this place with these bytes of records, if it waits.
    fn block(&self, place: &NewBlock, records: &[u8]) -> Option<Block>
        ensures { IfSome result (λ block. HoldsBytes place.now block records.now) }
    {
        for sealed in &self.blocks {
            if sealed.is_for(place, records) {
                return Some(sealed.block.to_block());
            }
        }
        None
    }
}

/// A log block that waits for its turn: the place that it was sealed for, and its bytes of records.
#[derive(Drop)]
struct SealedAhead {
    place: NewBlock,
    records: Vec<u8>,
    block: SealedBlock,
}

impl Model for SealedAhead {
    ghost use Rattle.intent_log.specs.Ahead.{AheadBlock};
    ghost use Rattle.intent_log.specs.Packing.{HoldsBytes};

    ghost Value = { AheadBlock };

    ghost view = { λ a. record { place = a.place; records = a.records.items; block = a.block } };

    ghost invariant = { λ a. HoldsBytes a.place a.block a.records.items };
}

impl SealedAhead {
    // Whether it is the block at this place with these bytes of records.
    fn is_for(&self, place: &NewBlock, records: &[u8]) -> bool
        ensures { IsTrue result → HoldsBytes place.now self.now.block records.now }
    {
        self.place == *place && self.records.as_slice() == records
    }
}

/// Seals the next log block, with those that follow it.
#[derive(Drop)]
pub(crate) struct Sealer<'a> {
    alloc: Global,
    waiting: Option<&'a Ahead>,
    // the addresses that the blocks after the next two are likely to have
    after: [u64; AHEAD],
    /// The blocks that were sealed beside it, which wait now in place of all others.
    pub(crate) sealed: Option<Ahead>,
}

impl<'a> Sealer<'a> {
    /// A sealer with the blocks that wait, and the addresses that the blocks after the next two are likely to have.
    pub fn new(alloc: Global, waiting: &'a Ahead, after: &[u64; AHEAD]) -> Self {
        Sealer {
            alloc,
            waiting: Some(waiting),
            after: *after,
            sealed: None,
        }
    }

    /// A sealer of one block alone.
    pub fn alone(alloc: Global) -> Self {
        Sealer {
            alloc,
            waiting: None,
            after: [0; AHEAD],
            sealed: None,
        }
    }

    /// The block at this place with these bytes of records. `rest` is what is left of the record whose part it has, and
    /// `pending` are the records after it.
    pub fn seal(
        &mut self,
        place: &NewBlock,
        records: &[u8],
        rest: &[u8],
        pending: &[Record],
    ) -> Block
        requires fits { length records.now ≤ log_block_room }
        requires allowed { All IsAllowed (map record_fields pending.now) }
        ensures { HoldsBytes place.now result records.now }
    {
        let Some(waiting) = self.waiting else {
            return seal_records(place, records);
        };
        if let Some(block) = waiting.block(place, records) {
            return block;
        }
        match self.seal_beside(place, records, rest, pending) {
            Ok(Some((block, ahead))) => {
                self.sealed = Some(ahead);
                block
            }
            _ => seal_records(place, records),
        }
    }

    // The same, sealed beside those that follow. `None` if fewer than two of them are known.
    fn seal_beside(
        &self,
        place: &NewBlock,
        records: &[u8],
        rest: &[u8],
        pending: &[Record],
    ) -> Result<Option<(Block, Ahead)>, PoolError>
        requires fits { length records.now ≤ log_block_room }
        requires allowed { All IsAllowed (map record_fields pending.now) }
        ensures { IfOk result (λ sealed. IfSome sealed
            (λ s. HoldsBytes place.now s.0 records.now)) }
    {
        if rest.is_empty() && pending.is_empty() {
            return Ok(None);
        }
        let mut following = Vec::with_capacity(self.alloc, AHEAD)?;
        self.add_parts(&mut following, place, rest)?;
        self.add_records(&mut following, place, pending)?;
        if following.len() < 2 {
            return Ok(None);
        }
        for _ in following.len()..AHEAD {
            self.add_following(&mut following, place, &[])?;
        }
        seal_with(self.alloc, place, records, following)
    }

    // The blocks that follow have these bytes of one record or more, as far as there is room.
    fn add_parts(
        &self,
        following: &mut Vec<FollowingBlock>,
        place: &NewBlock,
        bytes: &[u8],
    ) -> Result<(), AllocError> {
        for part in bytes.chunks(LOG_BLOCK_ROOM) {
            if following.len() >= AHEAD {
                break;
            }
            self.add_following(following, place, part)?;
        }
        Ok(())
    }

    // And then what pending records fill.
    fn add_records(
        &self,
        following: &mut Vec<FollowingBlock>,
        place: &NewBlock,
        pending: &[Record],
    ) -> Result<(), PoolError>
        requires { All IsAllowed (map record_fields pending.now) }
    {
        let mut pending = pending;
        for _ in 0..AHEAD {
            if following.len() >= AHEAD || pending.is_empty() {
                break;
            }
            let (bytes, count) = match encode_front(self.alloc, pending)? {
                // more may be behind them by then
                Encoded::Front(_, count) if count >= pending.len() => break,
                Encoded::Front(bytes, count) => (bytes, count),
                Encoded::Long(bytes) => (bytes, 1),
            };
            self.add_parts(following, place, &bytes)?;
            let (_, rest) = pending.split_at(count);
            pending = rest;
        }
        Ok(())
    }

    // One more block follows, with these bytes of records.
    fn add_following(
        &self,
        following: &mut Vec<FollowingBlock>,
        place: &NewBlock,
        bytes: &[u8],
    ) -> Result<(), AllocError> {
        let index = following.len();
        let Some(next) = self.after.get(index) else {
            return Ok(());
        };
        let header = ChainHeader {
            address: following.last().map_or(place.next, |block| block.next),
            number: place.header.number.wrapping_add(index as u64 + 1),
            import_number: place.header.import_number,
            version: place.header.version,
        };
        let part = &bytes[..bytes.len().min(LOG_BLOCK_ROOM)];
        following.push(FollowingBlock {
            header,
            next: *next,
            records: Vec::from_slice(self.alloc, part)?,
        })?;
        Ok(())
    }
}

// A block that follows: its place in the chain, the address of the block after it, and its bytes of records.
#[derive(Drop)]
struct FollowingBlock {
    header: ChainHeader,
    next: u64,
    records: Vec<u8>,
    ghost fits: { vec_len records ≤ log_block_room },
}

impl FollowingBlock {
    // It waits: this is the block, in the pool and the group of another one.
    fn into_sealed(self, beside: &NewBlock, block: SealedBlock) -> SealedAhead
        requires { HoldsBytes (place_beside beside.now self.header self.next) block
            self.records.items }
    {
        SealedAhead {
            place: NewBlock {
                guid: beside.guid,
                group: beside.group,
                header: self.header,
                next: self.next,
            },
            records: self.records,
            block,
        }
    }
}

// The block at this place with these bytes of records, sealed beside three that follow.
fn seal_with(
    alloc: Global,
    place: &NewBlock,
    records: &[u8],
    following: Vec<FollowingBlock>,
) -> Result<Option<(Block, Ahead)>, PoolError>
    requires { length records.now ≤ log_block_room }
    ensures { IfOk result (λ sealed. IfSome sealed
        (λ s. HoldsBytes place.now s.0 records.now)) }
{
    let mut following = following;
    let (Some(d), Some(c), Some(b)) = (following.pop(), following.pop(), following.pop()) else {
        return Ok(None);
    };
    // before any check is made: a refusal costs none
    let mut blocks = Vec::with_capacity(alloc, AHEAD)?;
    let (first, second, third, fourth) = seal_side_by_side(
        alloc,
        place,
        prepare(alloc, &place.header, place.next, records)?,
        prepare(alloc, &b.header, b.next, &b.records)?,
        prepare(alloc, &c.header, c.next, &c.records)?,
        prepare(alloc, &d.header, d.next, &d.records)?,
    )?;
    blocks.push_reserved(b.into_sealed(place, second));
    blocks.push_reserved(c.into_sealed(place, third));
    blocks.push_reserved(d.into_sealed(place, fourth));
    Ok(Some((first.to_block(), Ahead { blocks })))
}

// A log block with this header, this next address and these bytes of records, before it is sealed.
fn prepare(
    alloc: Global,
    header: &ChainHeader,
    next: u64,
    records: &[u8],
) -> Result<Prepared, AllocError>
    requires { length records.now ≤ log_block_room }
    ensures number { IfOk result (λ block. block.number ≡ header.now.number) }
    ensures payload { IfOk result (λ block. drop 64 block.bytes.value
        ≡ padded (log_bytes header.now.import_number next records.now)) }
    ensures chain_fits { header.now.import_number < 2 ^ 64 }
    ensures next_fits { next < 2 ^ 64 }
{
    let payload = payload_of(header.import_number, next, records);
    Prepared::new(alloc, header.number, &payload[..RECORDS_AT + records.len()])
}

// Four prepared log blocks in the pool and the group of a place. With four, more lanes save nothing.
fn seal_side_by_side(
    alloc: Global,
    place: &NewBlock,
    first: Prepared,
    second: Prepared,
    third: Prepared,
    fourth: Prepared,
) -> Result<(SealedBlock, SealedBlock, SealedBlock, SealedBlock), AllocError>
    ensures first { IfOk result (λ sealed. IsSealedAt place.now first sealed.0) }
    ensures second { IfOk result (λ sealed. IsSealedAt place.now second sealed.1) }
    ensures third { IfOk result (λ sealed. IsSealedAt place.now third sealed.2) }
    ensures fourth { IfOk result (λ sealed. IsSealedAt place.now fourth sealed.3) }
{
    let blocks = vec![in alloc; first, second, third, fourth]?;
    let mut sealed = seal_all(
        alloc,
        Lanes::Four,
        Kind::Log as u64,
        place.guid,
        place.group,
        blocks,
    )?;
    let (Some(d), Some(c), Some(b), Some(a)) = (
        sealed.pop(),
        sealed.pop(),
        sealed.pop(),
        sealed.pop(),
    ) else {
        unreachable!()
    };
    Ok((a, b, c, d))
}
