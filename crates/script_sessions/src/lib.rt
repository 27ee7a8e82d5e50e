//! The command `script` of the program `ztxg`, and the sessions that it runs a script on.
//!
//! 1. On a device in memory the pool is under a lock. A [`SharedSession`] is a session of `scripts` on a [`SharedPool`],
//!    and runs its commands as any other does. Whatever a script asks of the pool is made by its only handle.
//! 2. On a file the session notes the receipts of commits, and asks at the end which are durable (`noted_session.rt`).
//!
//! The crate knows no command line: `ztxg` reads its words into the `Arguments` of `command_arguments`.
#![tactic(auto)]

mod begun_plans;
mod clients;
mod noted_session;
mod pool_caller;
mod script;
mod shared_pool;

pub use script::{run_named_script, run_opened};
pub use shared_pool::{SharedPool, SharedSession};
