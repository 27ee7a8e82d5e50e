//! A device in memory: the disk of tests and scripts, which fails as a plan says and crashes on demand.
//!
//! It keeps the bytes that a read gives, and a note of each write since it was made. The notes are its history: the
//! disk over time, with each moment and all that a crash may leave at it, is read from them (`specs/Notes`). No call
//! looks at older notes, so a call costs what it copies.
//!
//! A write first notes the bytes that stand at its place and the bytes that it was handed, and then writes these.
//! What fails by plan is noted too, as not done: a read gives what it gave, but a crash may leave any bytes there.
//! If there is no memory for the note, nothing is written, and the write is refused and counted apart: a write of
//! which nothing is known must not have happened.
//!
//! A good flush settles the notes since the last good flush or crash. The newest of them becomes the last before it.
//! The bytes before them are dropped, since nothing takes them back any more.
//!
//! A crash takes the notes since the last flush back, the newest first, so that the bytes are those of that flush.
//! Then it writes the piece of each that it leaves, the oldest first, and settles them as a flush does.
//!
//! What holds between two calls (`IsSoundDevice` in `specs/Memory`): there are 512 bytes for each sector; the settled
//! notes tell a disk on which nothing is unflushed; and from its image the other notes, each with what stood before
//! it, lead to the bytes.

ghost use Rattle.std.specs.Prelude.{◌≡◌, ◌*◌, ◌-◌, ◌<◌, ◌⊎◌, length, true, refl, IfOk, IfErr, OnOk, OnErr, Ok, Err};
ghost use Rattle.base.specs.formats.Fields.{part};
ghost use Rattle.base.specs.formats.Geometry.{sector_size};
ghost use Rattle.base.specs.disk.Disk.{bytes_of, disk_size, MayLeave};
ghost use Rattle.base.specs.disk.Crashes.{crash_image};

use crate::device::SectorDevice;
use crate::fault::Fault;
use crate::notes::{Note, copy_part, fires, leave_pieces, make_note, overwrite, settle};
use base::{Piece, PoolError, RefusedCalls, SECTOR_SIZE};
use std::alloc::Global;
use std::fmt;
use std::marker::Model;

/// A device in memory, which fails by a plan and crashes on demand.
///
/// It notes every write, and its disk over time is read from these notes. Contracts see it as that disk, the counts of
/// its refused calls, and its fault plan.
#[derive(Drop)]
pub struct MemDevice {
    alloc: Global,
    sectors: u64,
    bytes: Vec<u8>,
    notes: Vec<Note>,
    // how many of the notes came before the last good flush or crash
    settled: usize,
    refused: RefusedCalls,
    // how many writes found no memory to be noted
    unnoted: u64,
    // which call of each kind from now fails, or 0
    reads: u64,
    writes: u64,
    flushes: u64,
}

impl Model for MemDevice {
    ghost use Rattle.device_model.specs.MemState.{MemState};

    ghost Value = { MemState };

    ghost use Rattle.device_model.specs.Memory.{state_of, IsSoundDevice};

    ghost view = { state_of };

    ghost invariant = { IsSoundDevice };
}

impl MemDevice {
    ghost use Rattle.device_model.specs.Plans.{with_plan};
    ghost use Rattle.device_model.specs.MemState.{new_state, after_crash};

    /// A device of this many sectors of 512 bytes, all zeros. Refused with `NoMemory` if there is not so much memory.
    #[tactic(auto, unfolding(crate::specs::MemState::zeros))]
    pub fn new(alloc: Global, sectors: u64) -> Result<Self, PoolError>
        ensures zeros { IfOk result (λ device. device ≡ new_state sectors) }
        ensures size { IfOk result (λ device. disk_size device.disk ≡ sector_size * sectors) }
        ensures memory { IfErr result (λ e. e ≡ PoolError.NoMemory) }
    {
        let Some(size) = sectors.checked_mul(SECTOR_SIZE) else {
            return Err(PoolError::NoMemory);
        };
        let Ok(bytes) = vec![in alloc; 0u8; size as usize] else {
            return Err(PoolError::NoMemory);
        };
        Ok(MemDevice {
            alloc,
            sectors,
            bytes,
            notes: Vec::new(alloc),
            settled: 0,
            refused: RefusedCalls::NONE,
            unnoted: 0,
            reads: 0,
            writes: 0,
            flushes: 0,
        })
    }

    /// Makes the n-th such call from now fail, once; `n` is at least 1. A new plan of a kind replaces the old one, and
    /// with 0 no call of this kind is planned to fail.
    pub fn fail(&mut self, fault: Fault, n: u64)
        ensures { self.new ≡ with_plan fault n self.old }
    {
        match fault {
            Fault::Read => self.reads = n,
            Fault::Write => self.writes = n,
            Fault::Flush => self.flushes = n,
        }
    }

    /// How many writes, also failed ones, came since the last good flush or crash.
    pub fn unflushed(&self) -> usize
        ensures { result ≡ length self.now.disk.now.unflushed }
    {
        self.notes.len() - self.settled
    }

    /// How many writes found no memory to be noted. Each was refused `Write` and counts for nothing.
    pub fn unnoted(&self) -> u64
        ensures { result ≡ self.now.unnoted }
    {
        self.unnoted
    }

    /// The device after a crash that leaves these pieces of the writes since the last good flush, one for each in
    /// order; those without a piece are kept. Of a failed write `Keep` and `Lose` leave what was there, and `Fill`
    /// fills its range. What is left counts as flushed, and no call is planned to fail. It takes no memory.
    pub fn crash(mut self, pieces: &[Piece]) -> MemDevice
        ensures left { result ≡ after_crash pieces.now self }
        ensures size { disk_size result.disk ≡ disk_size self.disk }
        ensures possible { MayLeave self.disk.now (crash_image pieces.now self.disk.now) }
    {
        leave_pieces(&mut self.bytes, &mut self.notes, self.settled, pieces);
        self.settled = self.notes.len();
        self.reads = 0;
        self.writes = 0;
        self.flushes = 0;
        self
    }
}

impl SectorDevice for MemDevice {
    ghost use Rattle.base.specs.disk.Calls.{IsOnDevice, Writes, Flushes, counted};
    ghost use Rattle.device_model.specs.NotedWrites.{IsNoted, IsUnnoted};
    ghost use Rattle.device_model.specs.Plans.{FailsAsPlanned, KeepsPlans};

    ghost keeps_model = { true };

    ghost size = { λ m. disk_size m.disk };

    ghost refused = { λ m. m.refused };

    ghost disk = { λ m. m.disk };

    ghost sized = { λ _ _. refl };

    fn sectors(&self) -> u64 {
        self.sectors
    }

    fn read(&mut self, at: u64, into: &mut [u8]) -> Result<(), PoolError>
        requires { IsOnDevice (disk_size self.old.disk) at (length into.old) }
        ensures size { disk_size self.new.disk ≡ disk_size self.old.disk }
        ensures count { self.new.refused ≡ counted result self.old.refused }
        ensures refusal { IfErr result (λ e. e ≡ PoolError.Read) }
        ensures bytes { OnOk result
            (into.new ≡ part (bytes_of self.old.disk.now) at (length into.old)) }
        ensures unchanged { OnErr result (into.new ≡ into.old) }
        ensures disk { self.new.disk ≡ self.old.disk }

        // It fails as planned, and only then.
        ensures planned { FailsAsPlanned Fault.Read result self.old self.new }
    {
        if fires(&mut self.reads) {
            self.refused.count(PoolError::Read);
            return Err(PoolError::Read);
        }
        copy_part(&self.bytes, at, into);
        Ok(())
    }

    fn write(&mut self, at: u64, bytes: &[u8]) -> Result<(), PoolError>
        requires { IsOnDevice (disk_size self.old.disk) at (length bytes.now) }
        ensures size { disk_size self.new.disk ≡ disk_size self.old.disk }
        ensures count { self.new.refused ≡ counted result self.old.refused }
        ensures refusal { IfErr result (λ e. e ≡ PoolError.Write) }
        ensures disk { Writes self.old.disk at bytes.now result self.new.disk }

        // It fails as planned, and is then one of the writes of which a crash leaves pieces. Otherwise it fails only
        // if there is no memory for its note, and then counts for nothing.
        ensures noted { IsNoted at bytes.now result self.old self.new
            ⊎ IsUnnoted result self.old self.new }
        ensures plans { KeepsPlans Fault.Write self.old self.new }
    {
        let fails = fires(&mut self.writes);
        let noted = make_note(self.alloc, &self.bytes, &mut self.notes, at, bytes, !fails);
        if noted.is_err() {
            self.unnoted = self.unnoted.saturating_add(1);
            self.refused.count(PoolError::Write);
            return Err(PoolError::Write);
        }
        if fails {
            self.refused.count(PoolError::Write);
            return Err(PoolError::Write);
        }
        overwrite(&mut self.bytes, at, bytes);
        Ok(())
    }

    fn flush(&mut self) -> Result<(), PoolError>
        ensures size { disk_size self.new.disk ≡ disk_size self.old.disk }
        ensures count { self.new.refused ≡ counted result self.old.refused }
        ensures refusal { IfErr result (λ e. e ≡ PoolError.Flush) }
        ensures disk { Flushes self.old.disk result self.new.disk }

        // It fails as planned, and only then.
        ensures planned { FailsAsPlanned Fault.Flush result self.old self.new }
    {
        if fires(&mut self.flushes) {
            self.refused.count(PoolError::Flush);
            return Err(PoolError::Flush);
        }
        settle(&mut self.notes, self.settled);
        self.settled = self.notes.len();
        Ok(())
    }
}

/// The type's name alone.
impl fmt::Debug for MemDevice {
    fn fmt<W: fmt::Write>(&self, f: &mut fmt::Formatter<W>) -> fmt::Result {
        f.debug_struct("MemDevice").finish_non_exhaustive()
    }
}
