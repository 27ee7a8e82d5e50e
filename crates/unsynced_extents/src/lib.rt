//! What the transactions of the unsynced groups changed of the objects of a pool and of its name, read over the synced
//! tree.
#![tactic(auto)]

mod laws;
mod unsynced;

pub use laws::{
    added_entry, groups_are_read, left_changes, moved_groups, names_are_read, oldest_is_laid,
    oldest_name_is_laid, unsynced_are_read,
};
pub use unsynced::UnsyncedExtents;
