//! The range locks of a pool (`zfs_rlock.c`): readers may overlap readers, a writer overlaps nothing.
#![tactic(auto)]

mod clients;
mod held;
mod locks;
mod numbers;
mod part_table;
mod parts;
mod table;

pub use held::{HeldLock, HeldPiece};
pub use locks::RangeLocks;
pub use table::HeldLocks;
