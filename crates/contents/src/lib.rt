//! The contents of a pool as they were last synced, its name and its tree, and which operations can take place on
//! objects.
#![tactic(auto)]

mod judging;
mod synced_tree;

pub use judging::judge;
pub use synced_tree::SyncedTree;
