//! The tables of a running pool, and each call on them, without a device.
#![tactic(auto)]

mod blocks;
mod clients;
mod duty;
mod pool;

pub use duty::Duty;
pub use pool::{PoolTables, Progress};
