//! A range lock as it is held, and the pieces that the held locks of a number make.

use base::{Mode, ObjectRange, Owner};

/// A held range lock. Its name is the key under which it is held.
#[derive(Clone, Copy, Debug, PartialEq, Eq)]
pub struct HeldLock {
    /// Who asked for it, and may let it go.
    pub owner: Owner,
    /// What it locks.
    pub range: ObjectRange,
    /// What it lets its owner do.
    pub mode: Mode,
}

/// What lies between two neighbouring ends of the held locks of a number, where some lock covers it.
#[derive(Clone, Copy, Debug, PartialEq, Eq)]
pub struct HeldPiece {
    /// Where it begins.
    pub low: u64,
    /// Where it ends: this offset is not in it.
    pub high: u64,
    /// Whether a writer covers it.
    pub writer: bool,
    /// How many readers cover it.
    pub readers: usize,
}
