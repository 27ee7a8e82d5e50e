//! How a pool comes onto a device, and how it is opened again (On-Disk Specification, chapter 1).
//!
//! `create` makes a new pool, and `import` opens the one that is there. The parts of an import that only read are public
//! for the calls of `inspections`.
#![tactic(auto)]

mod creation;
mod finding;
mod free_blocks;
mod imported;
mod importing;
mod label_sync;
mod limits;
mod next_pool;
mod reading;

pub use creation::create;
pub use finding::{Found, find_pool};
pub use free_blocks::take_logged;
pub use imported::Imported;
pub use importing::import;
pub use limits::{GREATEST_SHARED_CACHE_BLOCKS, Limits};
pub use next_pool::{ReplayedPool, replay_pool};
pub use reading::{frame_of, read_chain, read_pool};
