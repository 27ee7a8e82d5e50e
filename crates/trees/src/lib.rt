//! What is read of a whole tree, in the order of its walk: its load, and all its damages.
#![tactic(auto)]

mod damages;
mod entry_lists;
mod laws;
mod marks;
mod objects;
mod one_walk;
mod paths;
mod read_ahead;
mod sound_blocks;
mod walk;

pub use damages::{BlockDamage, Examined, examine};
pub use entry_lists::list_entries;
pub use laws::trees_are_by_paths;
pub use objects::Loaded;
pub use paths::find_entry;
pub use walk::load;
