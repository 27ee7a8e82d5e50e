//! What an import of a pool would mount, found by reads alone.
//!
//! `inspect` reports it, `find_damages` goes on after a damage of the tree, and `view_pool` gives a view that reads the
//! objects. None of them writes or flushes.
#![tactic(auto)]

mod damages;
mod inspection;
mod object_lists;
mod viewing;

pub use damages::{Soundness, find_damages};
pub use inspection::{Inspected, inspect};
pub use object_lists::list_objects;
pub use viewing::{View, view_pool};
