//! What an import mounts, and blocks that come back to its free ones. Both an import and a running pool stand on it.
#![tactic(auto)]

mod clients;
mod given_blocks;
mod mounted;

pub use given_blocks::give_all;
pub use mounted::Mounted;
