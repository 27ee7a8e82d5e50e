//! The held ranges of one number, cut at the ends of its locks.
//!
//! Each offset where a lock begins or ends is a key, with what lies from there to the next one: a piece, or a gap that
//! no lock covers. So a lock or an unlock touches its own two ends and the ends between them, and two pieces are joined
//! where the last lock that begins or ends between them is released.

ghost use Rattle.std.specs.Prelude.{ℕ, ◌≡◌, ◌+◌, ◌<◌, ◌≤◌, ◌↔◌, true, false, None, Some, IfSome, IfNone, IfOk, OnOk, OnErr, IfErr, IsTrue};
ghost use Rattle.range_locks.specs.Locks.{LockTable};
ghost use Rattle.range_locks.specs.Pieces.{pieces_of};
ghost use Rattle.range_locks.specs.Rows.{part_in};
ghost use Rattle.range_locks.specs.Parts.{AreCounted, Becomes, blocks_part, CanRecount, CanRecountPart, change_of_grant, change_of_release, HasCounts, HasNone, HasNoParts, HoldsFor, IsBlockedIn, IsFreeIn, is_covered_part, IsTable, most_counted, recounted, recounted_part, with_end, with_lock, without_end, without_lock};

use crate::held::HeldPiece;
use crate::part_table::PartTable;
use base::{LockId, MAX_LENGTH, Mode, PoolError, Range};
use std::alloc::Global;

/// What begins at an end of a lock, up to the next end of the same number.
#[derive(Clone, Copy)]
pub(crate) struct Part {
    /// How many locks begin or end where it begins.
    pub ends: usize,
    /// How many reader locks cover it.
    pub readers: usize,
    /// The writer lock that covers it: one at most, as a writer overlaps nothing.
    pub writer: Option<LockId>,
}

/// What a lock that comes or goes changes of the parts that it covers.
#[derive(Clone, Copy)]
pub(crate) enum Change {
    ReaderCame,
    ReaderLeft,
    WriterCame(LockId),
    WriterLeft,
}

/// No lock ends as far up as this.
const PAST_ALL: u64 = MAX_LENGTH + 1;

/// What no lock covers.
pub(crate) const NOTHING: Part = Part {
    ends: 0,
    readers: 0,
    writer: None,
};

impl Change {
    /// What a lock of this name and mode changes as it is granted.
    fn of_grant(id: LockId, mode: Mode) -> Change
        ensures { result ≡ change_of_grant id mode }
    {
        match mode {
            Mode::Reader => Change::ReaderCame,
            Mode::Writer => Change::WriterCame(id),
        }
    }

    /// What a lock of this mode changes as it is released.
    fn of_release(mode: Mode) -> Change
        ensures { result ≡ change_of_release mode }
    {
        match mode {
            Mode::Reader => Change::ReaderLeft,
            Mode::Writer => Change::WriterLeft,
        }
    }
}

impl Part {
    /// Whether some lock covers it.
    fn is_covered(self) -> bool
        ensures { result ≡ is_covered_part self }
    {
        self.writer.is_some() || self.readers > 0
    }

    /// Whether a lock of this mode may not overlap it.
    fn blocks(self, mode: Mode) -> bool
        ensures { result ≡ blocks_part mode self }
    {
        self.writer.is_some() || (self.readers > 0 && !mode.is_reader())
    }

    /// It, after a change.
    fn recounted(self, change: Change) -> Part
        requires { CanRecountPart change self }
        ensures { result ≡ recounted_part change self }
    {
        match change {
            Change::ReaderCame => Part {
                readers: self.readers + 1,
                ..self
            },
            Change::ReaderLeft => Part {
                readers: self.readers - 1,
                ..self
            },
            Change::WriterCame(id) => Part {
                writer: Some(id),
                ..self
            },
            Change::WriterLeft => Part {
                writer: None,
                ..self
            },
        }
    }
}

/// The parts of a number by offset, rising.
#[derive(Drop)]
pub(crate) struct Parts {
    table: PartTable,
}

impl Parts {
    /// No parts. It takes no memory.
    pub fn new(alloc: Global) -> Self
        ensures { HasNoParts result.table }
    {
        Parts {
            table: PartTable::new(alloc),
        }
    }

    /// Whether there are none.
    pub fn is_empty(&self) -> bool
        ensures { IsTrue result ↔ HasNoParts self.now.table }
    {
        self.table.is_empty()
    }

    /// The first part that begins in a range, with the offset where it begins.
    fn next_part(&self, low: u64, high: u64) -> Option<(u64, Part)>
        requires { low ≤ high }
        ensures within { IfSome result (λ r. (low ≤ r.0) × (r.0 < high)) }
        ensures part { IfSome result (λ r. part_in self.now.table r.0 ≡ Some r.1) }
        ensures before { IfSome result (λ r. HasNone self.now.table low r.0) }
        ensures none { IfNone result (HasNone self.now.table low high) }
    {
        match self.table.first_from(low) {
            Some((begin, part)) => {
                if begin < high {
                    Some((begin, part))
                } else {
                    None
                }
            }
            None => None,
        }
    }

    /// What covers an offset, and how many locks begin or end there.
    pub fn part_at(&self, at: u64) -> Part
        ensures { HoldsFor self.now.table (λ f. result ≡ f at) }
    {
        match self.table.last_up_to(at) {
            Some((begin, part)) if begin == at => part,
            Some((_, part)) => Part { ends: 0, ..part },
            None => NOTHING,
        }
    }

    /// One more lock begins or ends at an offset. It is refused where there is no memory, and then nothing has changed.
    fn add_end(&mut self, at: u64) -> Result<(), PoolError>
        requires { HasCounts (most_counted + 1) self.old.table }
        ensures added { OnOk result
            (HoldsFor self.old.table (λ f. IsTable self.new.table (with_end at f))) }
        ensures unchanged { OnErr result (Becomes self.old.table (λ f. f) self.new.table) }
        ensures refused { IfErr result (λ e. e ≡ PoolError.NoMemory) }
    {
        let part = self.part_at(at);
        let ends = part.ends + 1;
        self.table.insert(at, Part { ends, ..part })?;
        Ok(())
    }

    /// One lock fewer begins or ends at an offset.
    fn remove_end(&mut self, at: u64)
        ensures { Becomes self.old.table (without_end at) self.new.table }
    {
        match self.table.get(at) {
            Some(part) if part.ends > 1 => {
                let ends = part.ends - 1;
                self.table.replace(at, Part { ends, ..part });
            }
            _ => self.table.remove(at),
        }
    }

    /// Changes the parts that begin in a range.
    fn recount(&mut self, range: Range, change: Change)
        requires ordered { range.low ≤ range.high }
        requires counted { CanRecount range change self.old.table }
        ensures { Becomes self.old.table (recounted range change) self.new.table }
    {
        let Range { low, high } = range;
        let mut offset = low;
        while let Some((at, part)) = self.next_part(offset, high) {
            self.table.replace(at, part.recounted(change));
            offset = at + 1;
        }
    }

    /// One more lock covers a range. It is refused where there is no memory, and then nothing has changed.
    pub fn add(&mut self, range: Range, id: LockId, mode: Mode) -> Result<(), PoolError>
        requires ordered { range.low ≤ range.high }
        requires counted { HasCounts most_counted self.old.table }
        ensures added { OnOk result (HoldsFor self.old.table
            (λ f. IsTable self.new.table (with_lock range (change_of_grant id mode) f))) }
        ensures unchanged { OnErr result
            (HoldsFor self.old.table (λ f. IsTable self.new.table f)) }
        ensures refused { IfErr result (λ e. e ≡ PoolError.NoMemory) }
    {
        self.add_end(range.low)?;
        if let Err(refused) = self.add_end(range.high) {
            self.remove_end(range.low);
            return Err(refused);
        }
        self.recount(range, Change::of_grant(id, mode));
        Ok(())
    }

    /// One lock fewer covers a range. It takes no memory.
    pub fn remove(&mut self, range: Range, mode: Mode)
        requires ordered { range.low ≤ range.high }
        requires counted { CanRecount range (change_of_release mode) self.old.table }
        ensures { Becomes self.old.table
            (without_lock range (change_of_release mode)) self.new.table }
    {
        self.recount(range, Change::of_release(mode));
        self.remove_end(range.low);
        self.remove_end(range.high);
    }

    /// Whether some part of a range keeps a lock of this mode away.
    pub fn blocks(&self, range: Range, mode: Mode) -> bool
        requires { range.low < range.high }
        ensures some { result ≡ true → HoldsFor self.now.table (IsBlockedIn range mode) }
        ensures none { result ≡ false → HoldsFor self.now.table (IsFreeIn range mode) }
    {
        let Range { low, high } = range;
        if self.part_at(low).blocks(mode) {
            return true;
        }
        let mut offset = low;
        while let Some((at, part)) = self.next_part(offset, high) {
            if part.blocks(mode) {
                return true;
            }
            offset = at + 1;
        }
        false
    }

    /// The pieces, rising.
    pub fn pieces(&self, alloc: Global) -> Result<Vec<HeldPiece>, PoolError>
        ensures pieces { IfOk result (λ pieces. (n : ℕ) (held : LockTable)
            → AreCounted n held self.now.table → pieces.items ≡ pieces_of n held.locks) }
        ensures refused { IfErr result (λ e. e ≡ PoolError.NoMemory) }
    {
        let mut pieces = Vec::new(alloc);
        let mut begin = self.next_part(0, PAST_ALL);
        while let Some((low, part)) = begin {
            begin = self.next_part(low + 1, PAST_ALL);
            if let Some((high, _)) = begin {
                if part.is_covered() {
                    pieces.push(HeldPiece {
                        low,
                        high,
                        writer: part.writer.is_some(),
                        readers: part.readers,
                    })?;
                }
            }
        }
        Ok(pieces)
    }
}
