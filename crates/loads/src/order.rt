//! What a load returns, and how many transactions it commits. What it is asked for is the `Order` of
//! `command_arguments`.

ghost use Rattle.std.specs.Prelude.{◌≡◌, ◌+◌, ◌*◌};
ghost use Rattle.loads.specs.Orders.{committed_by};

use command_arguments::{Order, STREAMS};

/// After so many writes a stream waits until they are durable, and reads.
pub const WRITES_BETWEEN_WAITS: u32 = 8;

/// What a load has done.
#[derive(Clone, Copy)]
pub struct Loaded {
    /// The transactions that it committed.
    pub committed: u64,
    /// The digest of the contents that it left, a SHA-256.
    pub digest: [u8; 32],
}

/// How many transactions a load of an order commits: one for each object, and one for each write.
pub(crate) fn count_committed(order: Order) -> u64
    ensures { result ≡ committed_by order }
{
    let streams = u64::from(STREAMS);
    streams + 1 + streams * u64::from(order.writes)
}
