//! The replay of the intent log at import (`zil_replay` of `zil.c`): which records of a chain take place after a
//! failure, and what they make of the contents that the tree holds.
//!
//! 1. Records of groups above the active one are applied in the order of the chain. Those of groups up to it are in the
//!    tree already, and are passed over.
//! 2. A record takes place whole. The first one that can't is a damage of its piece, and nothing after it counts.
//! 3. What was applied is then synced as the operations of one group, four after the active one.
#![tactic(auto)]

mod changes;
mod clients;
mod judging;
mod laws;
mod replaying;

pub use changes::changes_of;
pub use laws::{refusals_agree, replays_stay_bounded};
pub use replaying::{Replayed, replay};
