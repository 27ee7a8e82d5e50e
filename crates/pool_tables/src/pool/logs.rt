//! The intent log of a pool: what is pending is written in blocks, and is durable after a flush (`zil.c`). These two
//! steps keep rules 9 to 11 of the pool.

ghost use Rattle.std.specs.Prelude.{◌≡◌, ◌<◌, IfErr, IfOk, IsTrue, None, OnOk, length};
ghost use Rattle.base.specs.formats.Geometry.{block_address};
ghost use Rattle.base.specs.formats.Limits.{last_number};
ghost use Rattle.base.specs.steps.Refusals.{log_write_refusal, log_write_tests};
ghost use Rattle.intent_log.specs.Fillings.{IsNextBlock, TakesNext, taken_of};
ghost use Rattle.intent_log.specs.Kept.{HasBlockRoom};
ghost use Rattle.space.specs.FreeSets.{IsLowestFree};

use crate::pool::PoolTables;
use base::{KEPT_BACK, PoolError, WRITTEN_VERSION};
use device_model::SectorDevice;
use intent_log::{AHEAD, Ahead, ChainHeader, Filling, NewBlock, NextLogBlock};

impl PoolTables {
    ghost use Rattle.base.specs.disk.Calls.{Flushes, counted};
    ghost use Rattle.pool_tables.specs.Duties.{keeps_whole_log};
    ghost use Rattle.pool_tables.specs.KeptTrees.{KeepsTree};
    ghost use Rattle.pool_tables.specs.LogBlocks.{WritesLogBlock, next_place, shown_after_block};
    ghost use Rattle.pool_tables.specs.Meets.{Passes};
    ghost use Rattle.pool_tables.specs.Shows.{geometry_of, pool_shown};
    ghost use Rattle.pool_tables.specs.StepAnswers.{FlushesLog, WritesLog};

    /// Whether a log block is kept, and no record is begun. Then a sync of all unsynced groups gives every kept block
    /// back.
    pub fn keeps_whole_log(&self) -> bool
        ensures { result ≡ keeps_whole_log (pool_shown self.now) }
    {
        self.log.keeps_whole()
    }

    /// Writes the next part of the record that is begun, or else a log block with as many whole pending records from
    /// the front as fit, or else the first part of the first one. It returns how many records end in the block: 0 if
    /// the record of which it has a part goes on. Refused, in this order, `Suspended`, `NotReady` if none is pending
    /// and none begun, `NoLogSpace`, `NoMemory`, or `Write` as the device refused. It is `NoLogSpace` if no more than
    /// 16 blocks are available, or if the log is at its last number. After a refused write the pool is suspended, and
    /// its log has the block.
    pub fn log_write<D: SectorDevice>(&mut self, device: &mut D) -> Result<u64, PoolError>
        requires { D.size device.old ≡ geometry_of self.old }
        ensures size { D.size device.new ≡ D.size device.old }
        ensures tree { KeepsTree self.old self.new }
        ensures step { WritesLog result (pool_shown self.old) (pool_shown self.new) }
        ensures wrote { IsTrue D.keeps_model → WritesLogBlock result
            (pool_shown self.old) (pool_shown self.new) (D.disk device.old) (D.disk device.new) }
        ensures count { D.refused device.new ≡ counted result (D.refused device.old) }
    {
        self.check_log_write()?;
        self.reserve_log()?;
        let next = self.lowest_free();
        let NextLogBlock {
            block,
            filling,
            ahead,
        } = self.pack_next(next)?;
        let address = self.log.next().address;
        let ends = self.note_written(filling, next);
        match device.write(address, block.as_bytes()) {
            Ok(()) => {
                self.keep_ahead(ahead);
                Ok(ends as u64)
            }
            Err(error) => {
                self.suspended = true;
                Err(error)
            }
        }
    }

    // Refused as a log write is, except for want of memory.
    fn check_log_write(&self) -> Result<(), PoolError>
        ensures { Passes (log_write_tests (pool_shown self.now)) result }
    {
        self.check_running()?;
        if !self.log.is_pending() {
            return Err(PoolError::NotReady);
        }
        if self.available() <= KEPT_BACK || self.log.is_at_last() {
            return Err(PoolError::NoLogSpace);
        }
        Ok(())
    }

    // Takes the room that the log needs for a block more (rule 8).
    fn reserve_log(&mut self) -> Result<(), PoolError>
        ensures tree { KeepsTree self.old self.new }
        ensures unchanged { pool_shown self.new ≡ pool_shown self.old }
        ensures room { OnOk result (HasBlockRoom self.new.log) }
        ensures refused { IfErr result (λ e. e ≡ PoolError.NoMemory) }
    {
        self.log.reserve_block()
    }

    // The block that a log write hands to the device, if the one after it lies at this index.
    fn pack_next(&self, next: usize) -> Result<NextLogBlock, PoolError>
        requires passes { log_write_refusal (pool_shown self.now) ≡ None }
        requires next { IsLowestFree self.now.free next }
        ensures packs { IfOk result
            (IsNextBlock (next_place (block_address next) self.now) self.now.log) }
        ensures refused { IfErr result (λ e. e ≡ PoolError.NoMemory) }
    {
        self.log
            .pack_next(self.alloc, &self.next_place(next), &self.free_after(next))
    }

    // The addresses of the lowest free blocks after this one, and 0 where there is none.
    fn free_after(&self, block: usize) -> [u64; AHEAD] {
        let mut addresses = [0; AHEAD];
        let mut block = block;
        for address in &mut addresses {
            if let Some(next) = self.free.next_from(block.saturating_add(1)) {
                *address = self.geometry.block_address(next as u64);
                block = next;
            }
        }
        addresses
    }

    // The blocks that were sealed beside a log block wait for their turn.
    fn keep_ahead(&mut self, ahead: Option<Ahead>)
        ensures tree { KeepsTree self.old self.new }
        ensures unchanged { pool_shown self.new ≡ pool_shown self.old }
    {
        self.log.keep_ahead(ahead);
    }

    // Where the next log block goes, if the one after it lies at this index.
    fn next_place(&self, next: usize) -> NewBlock
        requires { IsLowestFree self.now.free next }
        ensures { result ≡ next_place (block_address next) self.now }
    {
        let header = self.log.next();
        NewBlock {
            guid: self.guid,
            group: self.groups.open_group(),
            header: ChainHeader {
                address: header.address,
                number: header.number,
                import_number: self.import_number,
                version: WRITTEN_VERSION,
            },
            next: self.geometry.block_address(next as u64),
        }
    }

    // The index of the lowest free block.
    fn lowest_free(&self) -> usize
        requires { log_write_refusal (pool_shown self.now) ≡ None }
        ensures { IsLowestFree self.now.free result }
    {
        let Some(index) = self.free.next_from(0) else {
            unreachable!();
        };
        index
    }

    // The next log block has this of records, and the one after it lies at this index (rule 10). It returns how many
    // records end in it.
    fn note_written(&mut self, filling: Filling, next: usize) -> usize
        requires taken { TakesNext self.old.log filling }
        requires next { IsLowestFree self.old.free next }
        requires room { HasBlockRoom self.old.log }
        requires number { self.old.log.next.number < last_number }
        ensures tree { KeepsTree self.old self.new }
        ensures shown { pool_shown self.new ≡ shown_after_block
            (taken_of self.old.log filling) (block_address next) (pool_shown self.old) }
        ensures ends { result ≡ length (taken_of self.old.log filling).ends }
    {
        self.free.take(next);
        self.log
            .note(filling, self.geometry.block_address(next as u64))
    }

    /// Makes each log block that was written certain, so its records are durable. Refused, in this order, `Suspended`,
    /// `NotReady` if no block awaits a flush, or `Flush` as the device refused, and then the pool is suspended. It
    /// takes no memory.
    pub fn log_flush<D: SectorDevice>(&mut self, device: &mut D) -> Result<(), PoolError>
        ensures size { D.size device.new ≡ D.size device.old }
        ensures tree { KeepsTree self.old self.new }
        ensures step { FlushesLog result (pool_shown self.old) (pool_shown self.new) }
        ensures flushed { IsTrue D.keeps_model
            → Flushes (D.disk device.old) result (D.disk device.new) }
        ensures count { D.refused device.new ≡ counted result (D.refused device.old) }
    {
        self.check_running()?;
        if !self.log.awaits_flush() {
            return Err(PoolError::NotReady);
        }
        match device.flush() {
            Ok(()) => {
                self.log.flushed();
                Ok(())
            }
            Err(error) => {
                self.suspended = true;
                Err(error)
            }
        }
    }
}
