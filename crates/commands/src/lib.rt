//! The commands of the program `ztxg` that make or change the pool in a file: `create`, `put` and `rm`. An object is named
//! by its number, or by a name that object 0 has (`docs/FORMATS.md`, "Names of objects"). And the way from what was asked
//! for to whichever of these commands it is.
//!
//! Those that only read are in `read_commands`, `serve` is in `serving`, `load` in `loads`, and `script` in
//! `script_sessions`.
//!
//! The crate knows no command line: each command is given its arguments by a type of `command_arguments`.
#![tactic(auto)]

mod changes;
mod clients;
mod dispatch;
mod laws;
mod named_pools;
mod named_puts;
mod named_removals;
mod named_steps;
mod new_objects;
mod pool_files;
mod put_room;
mod replacing;

pub use changes::{put_on, read_input, remove_on, run_put, run_remove};
pub use dispatch::run_change;
pub use laws::{new_names_are_written, puts_leave_bytes, removed_names_are_gone};
pub use named_puts::{put_named_on, run_put_named};
pub use named_removals::{remove_named_on, run_remove_named};
pub use pool_files::run_create;
pub use replacing::{run_create_over, run_create_sized};
