//! The state of a pool, one step at a time, for a program with one thread that makes each step itself.
//!
//! [`PoolState`] owns its device, and each of its calls is one step. No step waits: what another owner holds is refused
//! `Busy`, and a transaction past the dirty limit is refused `Throttled`. [`PoolState::sync_open_group`] syncs all that
//! was committed. [`run`] makes a list of steps that are given as values; [`calls`] has them as types.
//!
//! Threads share a pool by `Pool` of `pool_threads`. The functions besides [`run`] are laws, for proofs.
//!
//! # Examples
//!
//! It makes an object, and syncs it.
//!
//! ```
//! #![tactic(auto)]
//!
//! use base::{Group, Mode, ObjectId, Op, Ops, Owner, Plan, PoolError, Range};
//! use device_model::MemDevice;
//! use import_replay::{Limits, create, import};
//! use pool_core::PoolState;
//! use std::alloc::Global;
//!
//! fn main(rt: HostRuntime) -> anyhow::Result<()> {
//!     let synced = make_object(rt.alloc(), Owner(1), ObjectId(1))?;
//!     Ok(println!(rt; "group {} is synced", synced.0)?)
//! }
//!
//! fn make_object(alloc: Global, owner: Owner, object: ObjectId) -> Result<Group, PoolError> {
//!     let device = create(MemDevice::new(alloc, 16_384)?, b"tank", 77, 0)?;
//!     let mut pool = PoolState::new(import(alloc, device, Limits::DEFAULT, 0)?);
//!     let lock = pool.lock(owner, object, Range::WHOLE, Mode::Writer)?;
//!     let ops = Ops::new(vec![in alloc; Op::Create(object)]?);
//!     let (tx, _) = pool.begin(owner, &Plan::of(alloc, &ops)?)?;
//!     pool.commit(tx, ops)?;
//!     pool.unlock(owner, lock)?;
//!     pool.sync_open_group(0)
//! }
//! ```
#![tactic(auto)]

pub mod calls;
mod group_sync;
mod laws;
mod runs;
mod state;

pub use calls::{Change, PoolCall};
pub use laws::{
    kept_pools_are_explained, kept_pools_are_laid, kept_pools_are_safe, kept_pools_leave_their_own,
    stopped_steps_are_safe, stopped_steps_leave_their_own,
};
pub use pool_tables::{Duty, Progress};
pub use runs::run;
pub use state::PoolState;
