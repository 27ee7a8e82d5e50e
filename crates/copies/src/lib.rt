//! The command `copy` of the program `ztxg`: what can be read of a pool goes into a new pool in a new file. It is the way
//! out of a pool of which a block is damaged.
//!
//! 1. The old pool is only read, by the blocks of each object's path (`object_views`). So a damage takes with it what it
//!    leads to, and nothing else.
//! 2. A record that reads as zeros isn't written, so it stays a hole. One that can't be read has a line, or ends the copy.
//! 3. The new file is made by the system's call itself, so nothing of anybody's is written. Unless the copy came to its
//!    end it is removed.
#![tactic(auto)]

mod clients;
mod copying;
mod files;
mod laws;
mod missing;
mod objects;
mod old_records;
mod pools;
mod stop;

pub use copying::{NewPool, copy_into};
pub use files::run_copy;
pub use laws::copies_have_all;
pub use stop::Stop;
