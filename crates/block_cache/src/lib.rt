//! Blocks that are kept in memory, and the device that reads by them.
#![tactic(auto)]

mod block_cache;
mod cached_device;
mod sealed_blocks;

pub use block_cache::BlockCache;
pub use cached_device::CachedDevice;
