//! What a bench measured.

ghost use Rattle.std.specs.Prelude.{◌≡◌};
ghost use Rattle.benchmarks.specs.Measured.{HasTimes, IsMeasured};
ghost use Rattle.rates.specs.Rates.{rate_of};

use crate::call_times::CallTimes;
use base::PoolError;
use rates::per_second;
use std::io;

/// What a bench measured. A time is in microseconds.
#[derive(Clone, Copy)]
pub struct Measured {
    /// How many calls committed.
    pub commits: u64,
    /// The bytes that they wrote, at most 2^64 - 1.
    pub bytes: u64,
    /// The flushes that the device was asked for meanwhile.
    pub flushes: u64,
    /// The time from the begin of the first call to the end of the last one.
    pub time: u64,
    /// The time that half of the calls did not exceed, at most a sixteenth too long. At most `longest`.
    pub middle: u64,
    /// The time that 99 of 100 calls did not exceed, at most a sixteenth too long. At most `longest`.
    pub percentile_99: u64,
    /// The time of the longest call.
    pub longest: u64,
}

impl Measured {
    /// What was measured: these calls, each of so many bytes, with so many flushes in so long.
    pub(crate) fn of(times: &CallTimes, bytes: u64, flushes: u64, time: u64) -> Measured
        ensures measured { IsMeasured bytes times.now result }
        ensures some { HasTimes bytes result }
    {
        let commits = times.calls();
        Measured {
            commits,
            bytes: commits.saturating_mul(bytes),
            flushes,
            time,
            middle: times.middle(),
            percentile_99: times.percentile_99(),
            longest: times.longest(),
        }
    }

    /// The commits a second, rounded down.
    pub fn commits_per_second(&self) -> u64
        ensures { result ≡ rate_of self.now.commits self.now.time }
    {
        per_second(self.commits, self.time)
    }

    /// The bytes a second, rounded down.
    pub fn bytes_per_second(&self) -> u64
        ensures { result ≡ rate_of self.now.bytes self.now.time }
    {
        per_second(self.bytes, self.time)
    }

    /// The flushes a second, rounded down.
    pub fn flushes_per_second(&self) -> u64
        ensures { result ≡ rate_of self.now.flushes self.now.time }
    {
        per_second(self.flushes, self.time)
    }
}

/// Why a bench has measured nothing.
#[derive(Clone, Copy)]
pub enum BenchError {
    /// The pool refused a call.
    Refused(PoolError),
    /// The system's clock can't be read, for this cause.
    NoClock(io::Error),
}

impl From<PoolError> for BenchError {
    ghost use Rattle.std.specs.Prelude.{◌≡◌};
    ghost use Rattle.benchmarks.specs.declared.measured.BenchError.TheVariants.{Refused};

    ghost from_gives = { λ refusal error. error ≡ Refused refusal };

    fn from(refusal: PoolError) -> BenchError {
        BenchError::Refused(refusal)
    }
}

impl From<io::Error> for BenchError {
    ghost use Rattle.std.specs.Prelude.{◌≡◌};
    ghost use Rattle.benchmarks.specs.declared.measured.BenchError.TheVariants.{NoClock};

    ghost from_gives = { λ cause error. error ≡ NoClock cause };

    fn from(cause: io::Error) -> BenchError {
        BenchError::NoClock(cause)
    }
}
