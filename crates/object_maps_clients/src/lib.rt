//! What callers of `tree_blocks`, `contents`, `object_maps`, `block_cache`, `trees`, `extents` and `unsynced_extents`
//! rest on: one function for each promise of their calls, proved from the contract of the call alone. So it is refused
//! as soon as that contract says less.
#![tactic(auto)]

mod blocks;
mod cached;
mod changes;
mod damages;
mod entry_lists;
mod forms;
mod judged;
mod loads;
mod maps;
mod paths;
mod reads;
mod strips;
