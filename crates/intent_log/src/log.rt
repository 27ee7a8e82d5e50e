//! The intent log of a run (`zil.c`): the records of its unsynced groups, its kept blocks from the header on, and where
//! the next one goes.
//!
//! 1. The records are those of unsynced groups, in commit order. Those of which a part is written are a front of them.
//! 2. A block is kept from its write until the end of the sync that gives it back, oldest first.
//! 3. Kept blocks are numbered one after another, up to the number of the next one. So the blocks before a header are
//!    the front of them.
//! 4. A flush makes all of them certain at once. So it is enough to know how many are, counted from the front.
//! 5. Each block knows how high the ordinals go in it and in the blocks before it. So a search by halves finds the
//!    first block that may have a receipt. As commits are written in order, that is the only one.
//! 6. While a record is begun, each block that is written has its next part. A sync keeps the block in which it begins.

ghost use Rattle.std.specs.Prelude.{◌≡◌, ◌≤◌, ◌<◌, ◌+◌, ◌==◌, ◌&&◌, ◌++◌, ◌∷◌, ℕ, [], IfErr, IfNone, IfOk, IfSome, IsOk, IsSome, None, OnOk, false, is_none, length, nat_le, not, take};
ghost use Rattle.base.specs.formats.Limits.{last_number};
ghost use Rattle.base.specs.formats.Records.{IsAllowed};
ghost use Rattle.base.specs.steps.Logs as logs;
ghost use Rattle.base.specs.steps.Logs.{blocks_before, is_flushed_in, log_after_commit, log_after_flush, log_after_write};
ghost use Rattle.records.specs.Records.{record_fields};
ghost use Rattle.intent_log.specs.Fillings.{IsNextBlock, TakesNext, begun_after_part, ended_by_part, part_noted, taken_of};
ghost use Rattle.intent_log.specs.Kept.{AreNumberedTo, AreRising, HasBlockRoom, HasRecordRoom, IsFrontGiven, ReachBelow, ReachUpTo, begins_begun, block_with, header_fields, is_block_needed, log_shown, receipt_begun};
ghost use Rattle.intent_log.specs.Receipts.{begins_of, committed, ends_of};
ghost use Rattle.intent_log.specs.RunLogs.{IsLogOf, KeepsHeader, KeepsHeaders, is_unsynced_in, pending_after, records_after};

use crate::ahead::{AHEAD, Ahead, Sealer};
use crate::begun::BegunRecord;
use crate::filling::{Filling, NextLogBlock, receipts_of};
use crate::kept_block::{Holds, KeptBlock, LogHeader};
use crate::packing::{
    Encoded, FirstPart, LOG_BLOCK_ROOM, NewBlock, encode_front, pack_first, pack_front, pack_part,
};
use base::{Group, LAST_NUMBER, Ordinal, PoolError, Receipt};
use records::Record;
use std::alloc::Global;
use std::collections::VecDeque;
use std::marker::Model;

/// The log of a run. Contracts see the unsynced records, those that are pending, the begun one, the kept blocks with
/// what begins and ends in each, the next header, and for how many more records and blocks there is room.
#[derive(Drop)]
pub struct Log {
    unsynced: Vec<Record>,
    // so many of them from the front are written, in whole or in part
    written: usize,
    blocks: VecDeque<KeptBlock>,
    // so many from the front are certain
    flushed: usize,
    begun: Option<BegunRecord>,
    next: LogHeader,
    // blocks that were sealed before their turn
    ahead: Ahead,
}

impl Model for Log {
    ghost use Rattle.intent_log.specs.Kept.{IsLogSound, RunLog, run_log};

    ghost Value = { RunLog };

    ghost view = { run_log };

    ghost invariant = { IsLogSound };
}

impl Log {
    /// No record is unsynced and no block is kept, and the first one goes to this address with number 0. It takes no
    /// memory.
    pub fn new(alloc: Global, address: u64) -> Self
        ensures records { result.records ≡ [] }
        ensures shown { log_shown result ≡ record {
          unsynced = [];
          begun = None;
          pending = [];
          kept = [];
          next = record { address = address; number = 0 };
        } }
    {
        Log {
            unsynced: Vec::new(alloc),
            written: 0,
            blocks: VecDeque::new(alloc),
            flushed: 0,
            begun: None,
            next: LogHeader { address, number: 0 },
            ahead: Ahead::none(alloc),
        }
    }

    /// Takes the room for a record more.
    ///
    /// # Errors
    /// `NoMemory` if there is no memory for it. Then nothing has changed.
    pub fn reserve_record(&mut self) -> Result<(), PoolError>
        ensures room { OnOk result (HasRecordRoom self.new) }
        ensures succeeds { HasRecordRoom self.old → IsOk result }
        ensures same { self.new ≡ record self.old { record_room = self.new.record_room } }
        ensures refused { IfErr result (λ e. e ≡ PoolError.NoMemory) }
    {
        self.unsynced.reserve(1)?;
        Ok(())
    }

    /// A transaction commits: its record is the last one, and pending. It takes no memory: the room is there.
    pub fn enter(&mut self, committed: Record)
        requires room { HasRecordRoom self.old }
        requires allowed { IsAllowed (record_fields committed) }
        ensures records { self.new.records ≡ self.old.records ++ committed ∷ [] }
        ensures shown { log_shown self.new
            ≡ log_after_commit (record_fields committed) (log_shown self.old) }
    {
        self.unsynced.push_reserved(committed);
    }

    /// The records of unsynced groups, in commit order.
    pub fn records(&self) -> &[Record]
        ensures { result.now ≡ self.now.records }
    {
        self.unsynced.as_slice()
    }

    /// Whether a receipt is that of an unsynced record. It looks at the latest ones first.
    pub fn is_unsynced(&self, receipt: Receipt) -> bool
        ensures { result ≡ is_unsynced_in (log_shown self.now) (committed receipt) }
    {
        self.unsynced.iter().rev().any(|record| receipt.ordinal == record.ordinal
            && receipt.group == record.group)
    }

    /// Whether a record is pending, or begun and not yet whole. It costs a constant.
    pub fn is_pending(&self) -> bool
        ensures { result ≡ not ((length self.now.pending == 0) && is_none self.now.begun) }
    {
        !(self.written == self.unsynced.len() && self.begun.is_none())
    }

    /// Where the next block goes.
    pub fn next(&self) -> LogHeader
        ensures header { header_fields result ≡ self.now.next }
        ensures fits { result.number ≤ last_number }
    {
        self.next
    }

    /// Whether the next block is the last one that has a number: none is written to it, as none could follow it.
    pub fn is_at_last(&self) -> bool
        ensures { result ≡ nat_le last_number self.now.next.number }
    {
        self.next.number >= LAST_NUMBER
    }

    /// Whether a kept block awaits a flush. It costs a constant.
    pub fn awaits_flush(&self) -> bool
        ensures { result ≡ logs.awaits_flush (log_shown self.now) }
    {
        self.flushed < self.blocks.len()
    }

    /// Whether a block is kept, and no record is begun and not yet whole. Then a sync of all unsynced records gives
    /// every kept block back. It costs a constant.
    pub fn keeps_whole(&self) -> bool
        ensures { result ≡ is_none self.now.begun && not (length self.now.kept == 0) }
    {
        self.begun.is_none() && !self.blocks.is_empty()
    }

    /// Takes the room for a block more.
    ///
    /// # Errors
    /// `NoMemory` if there is no memory for it. Then nothing has changed.
    pub fn reserve_block(&mut self) -> Result<(), PoolError>
        ensures room { OnOk result (HasBlockRoom self.new) }
        ensures succeeds { HasBlockRoom self.old → IsOk result }
        ensures same { self.new ≡ record self.old { block_room = self.new.block_room } }
        ensures refused { IfErr result (λ e. e ≡ PoolError.NoMemory) }
    {
        self.blocks.reserve(1)?;
        Ok(())
    }

    /// The next block, for this place: the next part of the record that is begun, or else as many whole pending records
    /// from the front as fit, or else the first part of the first one. `after` are the addresses that the blocks after
    /// the next two are likely to have: if they have them, their checks cost less.
    ///
    /// # Errors
    /// `NoMemory` if there is no memory for the bytes of the records and their receipts. The next part of a begun
    /// record needs none.
    pub fn pack_next(
        &self,
        alloc: Global,
        place: &NewBlock,
        after: &[u64; AHEAD],
    ) -> Result<NextLogBlock, PoolError>
        requires { ((length self.now.pending == 0) && is_none self.now.begun) ≡ false }
        ensures packs { IfOk result (IsNextBlock place.now self.now) }
        ensures part { is_none self.now.begun ≡ false → IsOk result }
        ensures refused { IfErr result (λ e. e ≡ PoolError.NoMemory) }
    {
        let mut sealer = Sealer::new(alloc, &self.ahead, after);
        let pending = &self.unsynced[self.written..];
        if let Some(begun) = &self.begun {
            return Ok(NextLogBlock {
                block: pack_part(&mut sealer, place, begun, pending),
                filling: Filling::Part,
                ahead: sealer.sealed,
            });
        }
        match encode_front(alloc, pending)? {
            Encoded::Front(bytes, count) => {
                // before blocks are sealed ahead: the receipts are not refused memory that these take
                let receipts = receipts_of(alloc, &pending[..count])?;
                Ok(NextLogBlock {
                    block: pack_front(&mut sealer, place, &bytes, count, pending),
                    filling: Filling::Whole(receipts),
                    ahead: sealer.sealed,
                })
            }
            Encoded::Long(bytes) => {
                let FirstPart { block, begun } = pack_first(&mut sealer, place, bytes, pending);
                Ok(NextLogBlock {
                    block,
                    filling: Filling::First(begun),
                    ahead: sealer.sealed,
                })
            }
        }
    }

    /// Blocks that were sealed beside the next one wait for their turn, in place of those before.
    pub fn keep_ahead(&mut self, ahead: Option<Ahead>)
        ensures { self.new ≡ self.old }
    {
        if let Some(ahead) = ahead {
            self.ahead = ahead;
        }
    }

    /// A block that has this goes to the device at the next header, and the one after it to this address. It is noted
    /// before the write, so that its address stays taken if the device refuses it. It takes no memory: the room is
    /// there. It returns how many records end in the block.
    pub fn note(&mut self, filling: Filling, address: u64) -> usize
        requires takes { TakesNext self.old filling }
        requires room { HasBlockRoom self.old }
        requires number { self.old.next.number < last_number }
        ensures records { self.new.records ≡ self.old.records }
        ensures shown { log_shown self.new
            ≡ log_after_write (taken_of self.old filling) address (log_shown self.old) }
        ensures ends { result ≡ length (taken_of self.old filling).ends }
        ensures headers { KeepsHeaders (log_shown self.old) (log_shown self.new) }
    {
        match filling {
            Filling::Whole(receipts) => {
                let count = receipts.len();
                self.push(Holds::Whole(receipts), address);
                self.written += count;
                count
            }
            Filling::First(begun) => {
                self.push(Holds::First(begun.receipt), address);
                self.written += 1;
                self.begun = Some(begun);
                0
            }
            Filling::Part => self.note_part(address),
        }
    }

    // The next block has the next part of the record that is begun. The record ends in it if it is the last part.
    fn note_part(&mut self, address: u64) -> usize
        requires room { HasBlockRoom self.old }
        requires number { self.old.next.number < last_number }
        requires begun { IsSome self.old.begun }
        ensures records { self.new.records ≡ self.old.records }
        ensures pending { self.new.pending ≡ self.old.pending }
        ensures kept { IfSome self.old.begun (λ g. self.new.kept
            ≡ self.old.kept ++ part_noted self.old.next g ∷ []) }
        ensures begun { IfSome self.old.begun (λ g. self.new.begun ≡ begun_after_part g) }
        ensures next { self.new.next
            ≡ record { address = address; number = self.old.next.number + 1 } }
        ensures ends { IfSome self.old.begun (λ g. result ≡ length (ended_by_part g)) }
        ensures numbered { AreNumberedTo self.old }
    {
        let Some(mut begun) = self.begun.take() else {
            unreachable!();
        };
        if begun.is_at_last_part() {
            self.push(Holds::Last(begun.receipt), address);
            return 1;
        }
        self.push(Holds::Part, address);
        begun.written += LOG_BLOCK_ROOM;
        self.begun = Some(begun);
        0
    }

    // A block that has this goes to the device at the next header.
    fn push(&mut self, holds: Holds, address: u64)
        requires room { HasBlockRoom self.old }
        requires number { self.old.next.number < last_number }
        ensures kept { self.new.kept
            ≡ self.old.kept ++ block_with self.old.next (begins_of holds) (ends_of holds) false ∷ [] }
        ensures next { self.new.next
            ≡ record { address = address; number = self.old.next.number + 1 } }
        ensures others { self.new ≡ record self.old {
          kept = self.new.kept;
          next = self.new.next;
          block_room = self.new.block_room;
        } }
        ensures numbered { AreNumberedTo self.old }
    {
        let block = KeptBlock::new(self.next, holds, reach(&self.blocks));
        let Ok(()) = self.blocks.push_back(block) else {
            unreachable!();
        };
        self.next = LogHeader {
            address,
            number: self.next.number + 1,
        };
    }

    /// A flush was answered: each kept block is certain. It costs a constant, and takes no memory.
    pub fn flushed(&mut self)
        ensures records { self.new.records ≡ self.old.records }
        ensures shown { log_shown self.new ≡ log_after_flush (log_shown self.old) }
    {
        self.flushed = self.blocks.len();
    }

    /// The header for the sync of a group: the first kept block in which a record begins that is of a group above it,
    /// or that is begun and not yet whole, or else the next one. It looks only at that block and at those before it,
    /// which the sync gives back.
    pub fn header_for(&self, group: Group) -> LogHeader
        ensures header { header_fields result ≡ logs.header_for group.0 (log_shown self.now) }
        ensures fits { result.number ≤ last_number }
        ensures keeps { (synced : ℕ) → IsLogOf synced (log_shown self.now)
            → KeepsHeader group.0 (header_fields result) (log_shown self.now) }
    {
        let begun = receipt_begun(&self.begun);
        match self
            .blocks
            .iter()
            .find(|block| is_needed(block, group, begun))
        {
            Some(block) => block.header,
            None => self.next,
        }
    }

    /// A group is synced: its records are no longer unsynced, nor are those of older groups. It takes no memory.
    pub fn drop_synced(&mut self, group: Group)
        ensures { self.new ≡ record self.old {
          records = records_after group.0 self.old.records;
          pending = pending_after group.0 self.old.pending;
          record_room = self.new.record_room;
        } }
    {
        self.written = count_after(&self.unsynced[..self.written], group);
        self.unsynced.retain(|record| record.group > group);
    }

    /// Gives the first kept block back if its number is below that of a header: its address. It takes no memory.
    pub fn give_back(&mut self, header: LogHeader) -> Option<u64>
        ensures given { IfSome result
            (IsFrontGiven (header_fields header) self.old.kept self.new.kept) }
        ensures none { IfNone result
            (blocks_before (header_fields header) self.old.kept ≡ []) }
        ensures others { self.new
            ≡ record self.old { kept = self.new.kept; block_room = self.new.block_room } }
        ensures unchanged { IfNone result (self.new ≡ self.old) }
    {
        if self.blocks.front()?.header.number >= header.number {
            return None;
        }
        let block = self.blocks.pop_front()?;
        self.flushed = self.flushed.saturating_sub(1);
        Some(block.header.address)
    }

    /// Whether the record of a receipt lies in a kept block that is certain. It costs a constant for a commit of the
    /// newest such block, and for one after it. A search by halves finds the block of an older one.
    pub fn has_flushed(&self, receipt: Receipt) -> bool
        ensures { result ≡ is_flushed_in (log_shown self.now) (committed receipt) }
    {
        let Some(last) = self.flushed.checked_sub(1) else {
            return false;
        };
        let newest = &self.blocks[last];
        if newest.last.0 < receipt.ordinal.0 {
            return false;
        }
        if newest.has(receipt) {
            return true;
        }
        let first = first_to_reach(&self.blocks, receipt.ordinal);
        self.blocks
            .range(first..last)
            .any(|block| block.has(receipt))
    }
}

// How many records are of groups after this one.
fn count_after(records: &[Record], group: Group) -> usize
    ensures { result ≡ length (records_after group.0 records.now) }
{
    records.iter().filter(|record| record.group > group).count()
}

// The receipt of the record that is begun.
fn receipt_begun(begun: &Option<BegunRecord>) -> Option<Receipt>
    ensures { result ≡ receipt_begun begun.now }
{
    match begun {
        Some(begun) => Some(begun.receipt),
        None => None,
    }
}

// Whether a sync of this group has to keep a block: a record begins in it that is of a group above, or is this one,
// which isn't whole.
fn is_needed(block: &KeptBlock, group: Group, begun: Option<Receipt>) -> bool
    ensures { result ≡ is_block_needed group.0 begun block.now }
{
    block.highest.0 > group.0 || begins(block, begun)
}

fn begins(block: &KeptBlock, begun: Option<Receipt>) -> bool
    ensures { result ≡ begins_begun begun block.now }
{
    match begun {
        Some(receipt) => block.begins(receipt),
        None => false,
    }
}

// The highest ordinal that blocks reach, 0 if there is none.
fn reach(blocks: &VecDeque<KeptBlock>) -> Ordinal
    ensures { AreRising blocks.now.items → ReachUpTo result.0 blocks.now.items }
{
    blocks.back().map_or(Ordinal(0), |block| block.last)
}

// The place of the first block that reaches an ordinal, or how many there are.
fn first_to_reach(blocks: &VecDeque<KeptBlock>, ordinal: Ordinal) -> usize
    requires { AreRising blocks.now.items }
    ensures { ReachBelow ordinal.0 (take result blocks.now.items) }
{
    blocks.partition_point(|block| block.last.0 < ordinal.0)
}
