//! What a worker of a bench does on the pool: one timed commit after another, each a write to the worker's own object.
//!
//! The writes of a worker follow each other in its object, and begin again at its first byte once they fill its part of
//! the pool. So the pool has room for all of them, however long the bench takes.

use crate::call_times::CallTimes;
use crate::measured::BenchError;
use base::{Bytes, ObjectId, Op, Ops, Owner, PoolError};
use command_arguments::BenchOrder;
use device_model::SectorDevice;
use pool_threads::{Handle, Pool};
use rates::in_microseconds;
use running_pools::Halt;
use std::alloc::Global;
use std::rt::Clock;
use std::sync::Wait;
use std::time::{Duration, Instant};

/// How often a write that finds no space syncs the pool and begins again.
const SYNCS_FOR_SPACE: u32 = 8;

/// A handle of the pool with the owner that it works for, and what it writes.
#[derive(Drop)]
pub(crate) struct Writer<'a, 'p, D: SectorDevice, R: Wait + Clock> {
    rt: &'a R,
    alloc: Global,
    handle: Handle<'p, D>,
    owner: Owner,
    order: BenchOrder,
    places: u64,
}

impl<'a, 'p, D: SectorDevice, R: Wait + Clock> Writer<'a, 'p, D, R> {
    /// A writer to the object of the owner's number, which has so many places for writes.
    pub(crate) fn new(
        rt: &'a R,
        alloc: Global,
        pool: &'p Pool<D>,
        owner: Owner,
        order: BenchOrder,
        places: u64,
    ) -> Self {
        Writer {
            rt,
            alloc,
            handle: pool.handle(),
            owner,
            order,
            places,
        }
    }

    /// Makes the object.
    pub(crate) fn make_object(&mut self) -> Result<(), PoolError> {
        let ops = Ops::new(vec![in self.alloc; Op::Create(ObjectId(self.owner.0))]?);
        self.handle.transact(self.rt, self.owner, ops)?;
        Ok(())
    }

    /// Commits writes until the seconds of the order are over since the start, or the bench is halted. It returns how
    /// long each took.
    pub(crate) fn run(&mut self, start: Instant, halt: &Halt) -> Result<CallTimes, BenchError> {
        let mut times = new_times(self.alloc)?;
        let end = Duration::from_secs(self.order.seconds);
        for number in 0..u64::MAX {
            let ops = self.ops(number)?;
            let begun = Instant::now(self.rt)?;
            if halt.is_raised() || begun.duration_since(start) >= end {
                break;
            }
            self.write(number, ops)?;
            times.note(in_microseconds(begun.elapsed(self.rt)?));
        }
        Ok(times)
    }

    // Commits a write. If it finds no space it syncs the pool and begins again, at most so often.
    fn write(&mut self, number: u64, ops: Ops) -> Result<(), PoolError> {
        let mut ops = ops;
        for _ in 0..SYNCS_FOR_SPACE {
            match self.commit(ops) {
                Err(PoolError::NoSpace) => {
                    self.handle.sync_pool(self.rt)?;
                    ops = self.ops(number)?;
                }
                written => return written,
            }
        }
        self.commit(ops)
    }

    // Commits operations, durably if the order says so.
    fn commit(&mut self, ops: Ops) -> Result<(), PoolError> {
        if !self.order.is_durable {
            self.handle.transact(self.rt, self.owner, ops)?;
            return Ok(());
        }
        match self.handle.transact_durably(self.rt, self.owner, ops) {
            Ok(_) => Ok(()),
            Err((error, _)) => Err(error),
        }
    }

    // The write of this number.
    fn ops(&self, number: u64) -> Result<Ops, PoolError> {
        let place = number % self.places.max(1);
        let at = place.saturating_mul(self.order.bytes);
        let byte = (number % 251) as u8;
        let bytes = Bytes::new(vec![in self.alloc; byte; self.order.bytes as usize]?);
        let write = Op::Write(ObjectId(self.owner.0), at, bytes);
        Ok(Ops::new(vec![in self.alloc; write]?))
    }
}

/// The times of no call.
pub(crate) fn new_times(alloc: Global) -> Result<CallTimes, PoolError> {
    Ok(CallTimes::new(alloc)?)
}
