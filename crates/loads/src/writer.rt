//! What a worker of a load does on the pool: one transaction after another, each in one turn of the pool's lock, under
//! a lock of its range.
//!
//! A refused transaction holds no range, so no other thread waits for it, also while its stream syncs the pool.

use crate::gate::Gate;
use crate::order::WRITES_BETWEEN_WAITS;
use crate::words::{PART, SHARED, Word, Words};
use base::{Bytes, Mode, ObjectId, Op, Ops, Owner, PoolError, Range, Receipt};
use command_arguments::{Order, STREAMS};
use device_model::SectorDevice;
use pool_threads::{Handle, Pool};
use running_pools::Halt;
use std::alloc::Global;
use std::sync::Wait;

/// How often a write that finds no space syncs the pool and begins again.
const SYNCS_FOR_SPACE: u32 = 8;

/// All parts of the shared object.
const ALL_PARTS: Range = Range {
    low: 0,
    high: PART * STREAMS as u64,
};

/// A handle of the pool with the owner that it works for.
#[derive(Drop)]
pub(crate) struct Writer<'a, 'p, D: SectorDevice, W: Wait> {
    rt: &'a W,
    alloc: Global,
    handle: Handle<'p, D>,
    owner: Owner,
}

impl<'a, 'p, D: SectorDevice, W: Wait> Writer<'a, 'p, D, W> {
    pub(crate) fn new(rt: &'a W, alloc: Global, pool: &'p Pool<D>, owner: Owner) -> Self {
        Writer {
            rt,
            alloc,
            handle: pool.handle(),
            owner,
        }
    }

    /// Makes each object of a load, or empties it if it is there.
    pub(crate) fn make_objects(&mut self) -> Result<(), PoolError> {
        for number in 0..=STREAMS {
            let object = ObjectId(number);
            let op = match self.handle.length(self.rt, object) {
                Ok(_) => Op::SetLength(object, 0),
                Err(PoolError::NoObject) => Op::Create(object),
                Err(error) => return Err(error),
            };
            self.transact(op)?;
        }
        Ok(())
    }

    /// Makes the writes of the stream that has the owner's number, up to the last one or until the load is halted.
    pub(crate) fn run_stream<G: Gate>(
        &mut self,
        order: Order,
        gate: &G,
        halt: &Halt,
    ) -> Result<(), PoolError> {
        let stream = self.owner.0;
        let mut words = Words::new(order.seed, stream);
        for number in 0..order.writes {
            if halt.is_raised() {
                break;
            }
            let receipt = self.write(words.draw())?;
            let is_eighth = number % WRITES_BETWEEN_WAITS == WRITES_BETWEEN_WAITS - 1;
            if is_eighth || gate.waits_for_each() {
                self.handle.fsync(self.rt, receipt)?;
                gate.acknowledged(stream, number + 1);
            }
            if is_eighth {
                self.read_shared()?;
            }
        }
        Ok(())
    }

    // Commits a write. If it finds no space it syncs the pool and begins again, at most so often.
    fn write(&mut self, word: Word) -> Result<Receipt, PoolError> {
        for _ in 0..SYNCS_FOR_SPACE {
            match self.try_write(word) {
                Err(PoolError::NoSpace) => {
                    self.handle.sync_pool(self.rt)?;
                }
                written => return written,
            }
        }
        self.try_write(word)
    }

    fn try_write(&mut self, word: Word) -> Result<Receipt, PoolError> {
        let bytes = Bytes::new(vec![in self.alloc; word.byte; word.length]?);
        self.transact(Op::Write(word.place.object, word.place.range.low, bytes))
    }

    // Commits an operation in a transaction of its own.
    fn transact(&mut self, op: Op) -> Result<Receipt, PoolError> {
        let ops = Ops::new(vec![in self.alloc; op]?);
        self.handle.transact(self.rt, self.owner, ops)
    }

    // Reads all parts of the shared object, under a lock.
    fn read_shared(&mut self) -> Result<(), PoolError> {
        let lock = self
            .handle
            .lock(self.rt, self.owner, SHARED, ALL_PARTS, Mode::Reader)?;
        let read = self.handle.read(self.rt, self.owner, SHARED, ALL_PARTS);
        let unlocked = self.handle.unlock(self.rt, self.owner, lock);
        read?;
        unlocked
    }
}
