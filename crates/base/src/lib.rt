//! The words that every layer of the pool shares.
#![tactic(auto)]

mod bytes;
pub mod chain_laws;
mod clients;
mod error;
pub mod field_laws;
mod fields;
pub mod laws;
mod levels;
mod limits;
mod lists;
mod names;
mod operation;
mod piece;
mod pointer;
mod pool_name;
mod range;
mod record_state;
mod refused;
pub mod seen_laws;
pub mod space_laws;
mod status;
mod step;
pub mod step_laws;
mod told;
mod version;

pub use bytes::Bytes;
pub use error::PoolError;
pub use fields::{
    POINTER_SIZE, are_all, are_zeros, read_pointer, read_u64, write_bytes, write_pointer, write_u64,
};
pub use levels::has_two_levels;
pub use limits::{
    BLOCK_SIZE, DEFAULT_CACHE_BLOCKS, DEFAULT_DIRTY_MAX, ENTRY_COUNT, ENTRY_SIZE, FIRST_GROUP,
    GREATEST_CACHE_BLOCKS, GREATEST_DIRTY_MAX, KEPT_BACK, LAST_NUMBER, LEAST_DIRTY_MAX, MAX_LENGTH,
    MAX_LOCKS, MAX_LOG_RECORD, MAX_TRANSACTIONS, OBJECT_COUNT, ONE_LEVEL_LENGTH, POINTER_COUNT,
    RECORD_SIZE, SECTOR_SIZE, WRITTEN_VERSION,
};
pub use lists::{Ops, Plan};
pub use names::{Group, LockId, ObjectId, Ordinal, Owner, Receipt, TxId};
pub use operation::{Op, Shape};
pub use piece::Piece;
pub use pointer::Pointer;
pub use pool_name::{MAX_NAME, PoolName, is_name};
pub use range::{Mode, ObjectRange, Range};
pub use record_state::RecordState;
pub use refused::RefusedCalls;
pub use status::Status;
pub use step::{Reply, Step};
pub use told::Told;
pub use version::Version;
