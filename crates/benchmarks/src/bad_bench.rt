//! A number that a bench was given outside its limits.

ghost use Rattle.std.specs.Prelude.{◌≡◌, IsSome, false};
ghost use Rattle.base.specs.formats.Geometry.{is_geometry};
ghost use Rattle.base.specs.kept.Imports.{is_dirty_max_allowed};
ghost use Rattle.command_arguments.specs.Benches.{is_bench_order};
ghost use Rattle.read_commands.specs.Failures.{sector_bytes};

use base::{GREATEST_DIRTY_MAX, LEAST_DIRTY_MAX, PoolError};
use command_arguments::{
    BenchArguments, BenchOrder, MAX_BENCH_BYTES, MAX_BENCH_SECONDS, MAX_BENCH_WORKERS,
};
use labels::{Geometry, LABEL_SIZE, MAX_SIZE, MIN_SIZE, SECTOR_SIZE};
use read_commands::BadNumber;
use std::fmt;

/// A number that a bench was given outside its limits. As text it is the number and its limits.
#[derive(Clone, Copy)]
pub(crate) enum BadBench {
    /// The bytes of the file.
    Size(u64),
    /// The threads that commit.
    Workers(u64),
    /// The bytes of each write.
    WriteBytes(u64),
    /// The seconds.
    Seconds(u64),
    /// A dirty limit.
    DirtyLimit(BadNumber),
}

impl BadBench {
    /// The first number of a bench that is outside its limits: the size, those of the order, the dirty limit.
    pub(crate) fn of(arguments: &BenchArguments<'_>) -> Option<BadBench>
        ensures size { is_geometry (sector_bytes arguments.now.size) ≡ false → IsSome result }
        ensures order { is_bench_order arguments.now.order ≡ false → IsSome result }
        ensures limit { is_dirty_max_allowed arguments.now.dirty_max ≡ false → IsSome result }
    {
        if Geometry::of(arguments.size / SECTOR_SIZE).is_err() {
            return Some(BadBench::Size(arguments.size));
        }
        match BadBench::of_order(arguments.order) {
            Some(number) => Some(number),
            None => BadBench::of_limit(arguments.dirty_max),
        }
    }

    // The first number of the order.
    fn of_order(order: BenchOrder) -> Option<BadBench>
        ensures { is_bench_order order ≡ false → IsSome result }
    {
        if order.workers == 0 || MAX_BENCH_WORKERS < order.workers {
            Some(BadBench::Workers(order.workers))
        } else if order.bytes == 0 || MAX_BENCH_BYTES < order.bytes {
            Some(BadBench::WriteBytes(order.bytes))
        } else if order.seconds == 0 || MAX_BENCH_SECONDS < order.seconds {
            Some(BadBench::Seconds(order.seconds))
        } else {
            None
        }
    }

    // The dirty limit.
    fn of_limit(dirty_max: u64) -> Option<BadBench>
        ensures { is_dirty_max_allowed dirty_max ≡ false → IsSome result }
    {
        if dirty_max < LEAST_DIRTY_MAX || GREATEST_DIRTY_MAX < dirty_max {
            Some(BadBench::DirtyLimit(BadNumber::DirtyLimit(dirty_max)))
        } else {
            None
        }
    }

    /// How the engine refuses it.
    pub(crate) fn refusal(&self) -> PoolError {
        match self {
            BadBench::Size(_) => PoolError::BadGeometry,
            _ => PoolError::BadRange,
        }
    }
}

impl fmt::Display for BadBench {
    fn fmt<W: fmt::Write>(&self, f: &mut fmt::Formatter<W>) -> fmt::Result {
        match self {
            BadBench::Size(size) => write!(
                f,
                "size {size}: {MIN_SIZE} to {MAX_SIZE} bytes in steps of {LABEL_SIZE}"
            ),
            BadBench::Workers(workers) => write!(f, "workers {workers}: 1 to {MAX_BENCH_WORKERS}"),
            BadBench::WriteBytes(bytes) => write!(f, "bytes {bytes}: 1 to {MAX_BENCH_BYTES}"),
            BadBench::Seconds(seconds) => write!(f, "seconds {seconds}: 1 to {MAX_BENCH_SECONDS}"),
            BadBench::DirtyLimit(number) => write!(f, "{number}"),
        }
    }
}
