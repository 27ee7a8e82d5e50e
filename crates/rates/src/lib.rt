//! Times in microseconds, and how many of a count there were in a second.
#![tactic(auto)]

mod clients;
mod seconds;

pub use seconds::{in_microseconds, per_second};
