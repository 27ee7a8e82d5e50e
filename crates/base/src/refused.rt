//! The counts of the calls that a device has refused.

ghost use Rattle.std.specs.Prelude.{◌≡◌};
ghost use Rattle.base.specs.disk.Calls.{with_refusal};

use crate::error::PoolError;

/// How many calls of each kind a device has refused. Each count stops at 2^64 - 1.
#[derive(Clone, Copy, Debug, PartialEq, Eq)]
pub struct RefusedCalls {
    /// The refused reads.
    pub reads: u64,
    /// The refused writes.
    pub writes: u64,
    /// The refused flushes.
    pub flushes: u64,
}

impl RefusedCalls {
    /// None was refused.
    pub const NONE: RefusedCalls = RefusedCalls {
        reads: 0,
        writes: 0,
        flushes: 0,
    };

    /// Counts a refused call: one more of its kind for `Read`, `Write` and `Flush`, nothing for another refusal.
    pub fn count(&mut self, refusal: PoolError)
        ensures { self.new ≡ with_refusal refusal self.old }
    {
        match refusal {
            PoolError::Read => self.reads = self.reads.saturating_add(1),
            PoolError::Write => self.writes = self.writes.saturating_add(1),
            PoolError::Flush => self.flushes = self.flushes.saturating_add(1),
            _ => {}
        }
    }
}
