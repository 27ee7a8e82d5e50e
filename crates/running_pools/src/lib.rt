//! Pools from their opening to their end, as programs and commands run them: opened for one handle, or with two loops
//! beside the program's work, and closed. And what an import then finds on their devices.
//!
//! 1. A pool that [`open_alone`] opens has one handle. So all that happens to it until [`close_alone`] is what that handle
//!    did, and what its device has then is known to the byte. [`close_after`] closes a pool that threads shared.
//! 2. Two loops run beside a program's work, each in a thread of its own: one closes groups, and one syncs them.
//!    [`run_beside_loops`] starts them, runs the work, stops them and waits for their ends. [`work_beside_loops`] also
//!    gives back what the work returned if a loop was refused. `load` of `loads` is built on the one, and the command
//!    `serve` of `ztxg` on the other.
#![tactic(auto)]

mod alone;
mod beside;
mod clients;
mod closing;
mod halt;
mod loops;

pub use alone::{OWNER, close_alone, open_alone};
pub use beside::{run_beside_loops, work_beside_loops};
pub use closing::{close, close_after};
pub use halt::Halt;
