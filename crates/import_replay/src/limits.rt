//! How much a pool may hold in memory.

use base::{DEFAULT_CACHE_BLOCKS, DEFAULT_DIRTY_MAX};

/// The greatest number of tree blocks that a pool that threads share keeps in memory once they were read, and of those
/// that syncs wrote: 1 GiB of each. The least is one.
pub const GREATEST_SHARED_CACHE_BLOCKS: u64 = 262_144;

/// How much a pool may hold in memory.
#[derive(Clone, Copy)]
pub struct Limits {
    /// The most bytes that unsynced transactions may be charged, 4,096 to 2^40. `PoolState::begin` says what is charged.
    pub dirty_max: u64,
    /// The most tree blocks of 4,096 bytes that stay in memory once they were read. As many that syncs wrote stay, too.
    /// An `import` takes 1 to 4,096, and `Pool::open` of `pool_threads` 1 to 262,144, which is 1 GiB.
    pub cache_blocks: u64,
}

impl Limits {
    /// 4 MiB of unsynced bytes, and 256 blocks: with those that syncs wrote, 2.1 MB.
    pub const DEFAULT: Limits = Limits {
        dirty_max: DEFAULT_DIRTY_MAX,
        cache_blocks: DEFAULT_CACHE_BLOCKS,
    };
}
