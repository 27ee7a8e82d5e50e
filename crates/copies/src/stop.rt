//! Why a copy ended before its end.

use base::PoolError;

/// Why a copy ended before its end.
#[derive(Clone, Copy, Debug, PartialEq, Eq)]
pub enum Stop {
    /// The old pool can't be read for this, or this block of it is damaged and is not to be passed over.
    Old(PoolError),
    /// The new pool refused this.
    New(PoolError),
    /// A line can't be written.
    Unwritten,
}
