//! What a load is asked for.

ghost use Rattle.std.specs.Prelude.{◌≡◌};
ghost use Rattle.command_arguments.specs.Orders.{is_order};

/// The streams of a load. Each has an owner of its number.
pub const STREAMS: u32 = 16;

/// The most workers of a load: one for each stream.
pub const MAX_WORKERS: u32 = STREAMS;

/// The most writes of a stream.
pub const MAX_WRITES: u32 = 1_000_000;

/// What a load does.
#[derive(Clone, Copy)]
pub struct Order {
    /// The threads that share the 16 streams: 1 to [`MAX_WORKERS`].
    pub workers: u32,
    /// The writes of each stream: at most [`MAX_WRITES`].
    pub writes: u32,
    /// The seed from which the writes are drawn.
    pub seed: u64,
}

impl Order {
    /// Whether it is within its limits.
    pub fn is_allowed(&self) -> bool
        ensures { result ≡ is_order self.now }
    {
        1 <= self.workers && self.workers <= MAX_WORKERS && self.writes <= MAX_WRITES
    }
}
