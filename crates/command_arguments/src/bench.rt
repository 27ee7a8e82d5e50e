//! What a bench is asked for.

ghost use Rattle.std.specs.Prelude.{◌≡◌};
ghost use Rattle.command_arguments.specs.Benches.{is_bench_order};

/// The most workers of a bench. Each has an owner and an object of its number.
pub const MAX_BENCH_WORKERS: u64 = 64;

/// The most bytes of a write of a bench: those that 16 records of an object hold.
pub const MAX_BENCH_BYTES: u64 = 64_512;

/// The most seconds of a bench, a day.
pub const MAX_BENCH_SECONDS: u64 = 86_400;

/// What a bench times.
#[derive(Clone, Copy)]
pub struct BenchOrder {
    /// The threads that commit: 1 to [`MAX_BENCH_WORKERS`].
    pub workers: u64,
    /// The bytes of each write: 1 to [`MAX_BENCH_BYTES`].
    pub bytes: u64,
    /// The seconds after which no worker begins a further call: 1 to [`MAX_BENCH_SECONDS`].
    pub seconds: u64,
    /// Whether each call waits until its commit is durable.
    pub is_durable: bool,
}

impl BenchOrder {
    /// Whether it is within its limits.
    pub fn is_allowed(&self) -> bool
        ensures { result ≡ is_bench_order self.now }
    {
        1 <= self.workers
            && self.workers <= MAX_BENCH_WORKERS
            && 1 <= self.bytes
            && self.bytes <= MAX_BENCH_BYTES
            && 1 <= self.seconds
            && self.seconds <= MAX_BENCH_SECONDS
    }
}
