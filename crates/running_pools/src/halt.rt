//! The flags that the threads beside a pool share. No clause rests on them.

ghost use Rattle.std.specs.Prelude.{◌≡◌};

use base::PoolError;
use std::sync::Wait;
use std::sync::atomic::{AtomicBool, AtomicU64, Ordering};
use std::time::Duration;

// How many loops there are.
const LOOPS: u64 = 2;

// So often, and so long each time, the work waits for the loops: ten seconds in all.
const NAPS: u32 = 10_000;

const NAP_IN_MICROSECONDS: u64 = 1_000;

/// Whether the work beside the loops of a pool is to end early, and how many loops have begun.
#[derive(Drop)]
pub struct Halt {
    raised: AtomicBool,
    loops: AtomicU64,
}

impl Halt {
    /// A flag that is not raised, for one call of `run_beside_loops`.
    pub fn new() -> Self {
        Halt {
            raised: AtomicBool::new(false),
            loops: AtomicU64::new(0),
        }
    }

    /// Whether the work is to end: a loop was refused, or `note` was given a refusal.
    pub fn is_raised(&self) -> bool {
        self.raised.load(Ordering::SeqCst)
    }

    /// Raises the flag if a call was refused. It hands the answer on.
    pub fn note(&self, answer: Result<(), PoolError>) -> Result<(), PoolError>
        ensures { result ≡ answer }
    {
        if answer.is_err() {
            self.raised.store(true, Ordering::SeqCst);
        }
        answer
    }

    /// A loop begins.
    pub(crate) fn loop_begins(&self) {
        self.loops.fetch_add(1, Ordering::SeqCst);
        self.loops.wake_all();
    }

    /// Waits until both loops have begun. Without them a write would wait at the dirty limit for ever.
    ///
    /// # Errors
    /// `NoMemory` if they don't begin, since no threads can be made for them.
    pub(crate) fn wait_for_loops<W: Wait>(&self, rt: &W) -> Result<(), PoolError> {
        let nap = Duration::from_micros(NAP_IN_MICROSECONDS);
        for _ in 0..NAPS {
            let begun = self.loops.load(Ordering::SeqCst);
            if begun >= LOOPS {
                return Ok(());
            }
            self.loops.park_timeout(rt, (begun % LOOPS) as u32, nap);
        }
        Err(PoolError::NoMemory)
    }

    /// Rests for a short time.
    pub(crate) fn rest<W: Wait>(&self, rt: &W) {
        let begun = self.loops.load(Ordering::SeqCst);
        let nap = Duration::from_micros(NAP_IN_MICROSECONDS);
        self.loops.park_timeout(rt, (begun % (1 << 32)) as u32, nap);
    }
}
