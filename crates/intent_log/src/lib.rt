//! The intent log (`zil.c`; On-Disk Specification, chapter 7): the log of a run, what it packs into log blocks, and the
//! chain of them that an import reads.
#![tactic(auto)]

mod ahead;
mod begun;
mod block_records;
mod chains;
mod filling;
mod kept_block;
mod log;
mod log_blocks;
mod packing;
mod parts;

pub use ahead::{AHEAD, Ahead};
pub use begun::BegunRecord;
pub use chains::{ChainHeader, LoggedPiece, chain};
pub use filling::{Filling, NextLogBlock};
pub use kept_block::LogHeader;
pub use log::Log;
pub use packing::{FirstPart, LOG_BLOCK_ROOM, NewBlock, Packed, PackedBlock, pack};
