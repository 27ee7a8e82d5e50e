//! Blocks of 4,096 bytes with a check over the whole block: each is sealed before it is written, and opened after it is
//! read.
#![tactic(auto)]

mod block;
mod expected;
mod frame;
mod kind;
mod laws;
mod opening;
mod payload;
mod sealing;

pub use block::{Block, Content, HEAD_SIZE, PAYLOAD_SIZE, seal, seal_four};
pub use expected::Expected;
pub use frame::{BLOCK_AREA, Frame};
pub use hash_lanes::Lanes;
pub use kind::Kind;
pub use laws::{opened_blocks_are_sealed, sealed_blocks_open};
pub use opening::open_all;
pub use payload::{Payload, ReadBlock, are_expected, open};
pub use sealing::{Prepared, SealedBlock, seal_all};
