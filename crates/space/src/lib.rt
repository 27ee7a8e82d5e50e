//! The free blocks of a pool.
#![tactic(auto)]

mod bit_flags;
mod clients;
mod counted_flags;
mod free_set;

pub use free_set::FreeSet;
