//! Bells: by them the threads of a pool sleep until others have changed something.
//!
//! A [`Bell`] wakes those that sleep by it. [`Bells`] are those of a pool's loops, and [`Flushers`] the handles that wait
//! until their commits are durable. No clause rests on them: each that sleeps looks again by itself after a time.
#![tactic(auto)]

mod bell;
mod bells;
mod flushers;

pub use bell::Bell;
pub use bells::{Bells, Heard, Loop};
pub use flushers::Flushers;
