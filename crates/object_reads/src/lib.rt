//! Reads of the objects that a pool shows: the synced tree, block by block as a read needs it, and over it the changes
//! of the unsynced groups.
#![tactic(auto)]

mod clients;
mod digests;
mod pointer_blocks;
mod reading;
mod shown_tree;

pub use shown_tree::ShownTree;
