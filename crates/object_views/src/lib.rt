//! The objects of a pool as an import would mount it, read by the blocks of their paths alone: the labels, the log
//! chain, the root, one directory, and of an object what its range needs. A list of the objects with their lengths has
//! each directory, and nothing below.
//!
//! The bytes of one object of a tree are those of a [`StoredObject`]: its top if it has two levels, the indirect blocks of
//! its strips, and its records. The directory's entry names the first of them (`find_entry` of `trees`).
#![tactic(auto)]

mod clients;
mod laws;
mod listing;
mod names;
mod own_records;
mod path_blocks;
mod paths;
mod stored_object;
mod view;
mod zeros;

pub use laws::own_operations_suffice;
pub use listing::{ListedPool, list_pool};
pub use path_blocks::PathBlocks;
pub use paths::{PoolPaths, find_paths};
pub use stored_object::StoredObject;
pub use view::{ObjectView, view_object};
