//! The contents of a pool as they were last synced: its name, and the tree that has its objects.

use base::PoolName;
use tree_blocks::Tree;

/// The name of a pool and its synced tree.
#[derive(Drop)]
pub struct SyncedTree {
    /// The name of the pool.
    pub name: PoolName,
    /// The tree of its objects.
    pub tree: Tree,
}
