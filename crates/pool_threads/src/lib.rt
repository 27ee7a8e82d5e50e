//! A pool that threads share: each takes it whole, makes one step, and releases it.
//!
//! **At the dirty limit `transact` makes the steps of a sync itself**, unless other threads run the loops `quiescer`
//! and `syncer`: then it waits for them. At the default limit the 147th object makes the first sync, if each
//! transaction creates one and writes a few bytes to it. Transactions are charged until their group is synced.
//!
//! [`Pool::open`] opens the pool on a device, and [`Pool::handle`] gives each thread a [`Handle`]. `transact` of a
//! handle makes a whole transaction in one turn, and `transact_durably` returns once no crash loses it.
//! `transact_locked` makes one under the caller's locks, and `write_long` makes several for one write. `fetch` reads a
//! range under a lock, in one turn too. Its other calls are single steps, as those of `PoolState` in `pool_core`; `lock`
//! and `begin` wait for what others hold. When no handle is left, [`Pool::finish`] syncs the pool and gives the device
//! back.
//!
//! As each step is made under the pool's lock, other threads wait for a write or a flush.
//!
//! [`LastSeen`], [`OwnedPool`], [`PoolRule`], [`PoolView`] and the functions are for proofs.
//!
//! # Examples
//!
//! It commits a transaction, and waits until no crash loses it. Then it syncs the pool, so that nothing is charged.
//!
//! ```
//! #![tactic(auto)]
//!
//! use base::{ObjectId, Op, Ops, Owner, PoolError};
//! use device_model::MemDevice;
//! use import_replay::create;
//! use pool_threads::{Limits, Pool};
//!
//! fn main(rt: HostRuntime) -> anyhow::Result<()> {
//!     let device = create(MemDevice::new(rt.alloc(), 16_384)?, b"tank", 77, 0);
//!     let device = device.map_err(PoolError::from)?;
//!     let pool = Pool::open(rt.alloc(), device, Limits::DEFAULT, 0).map_err(PoolError::from)?;
//!     let mut handle = pool.handle();
//!     let ops = Ops::new(vec![in rt.alloc(); Op::Create(ObjectId(1))]?);
//!     let receipt = handle.transact(&rt, Owner(1), ops)?;
//!     handle.fsync(&rt, receipt)?;
//!     handle.sync_pool(&rt)?;
//!     Ok(())
//! }
//! ```
#![tactic(auto)]

mod answers;
mod cache_room;
mod calls;
mod clients;
mod debug;
mod fetch;
mod first;
mod fsync_all;
mod handle;
mod laws;
mod limited;
mod long_writes;
mod loops;
mod objects;
mod one_turn;
mod opened;
mod owned;
mod pool;
mod retries;
mod rule;
mod shared;
mod transact;
mod turn;
mod waits;

pub use handle::Handle;
pub use import_replay::Limits;
pub use long_writes::PIECE_SIZE;
pub use opened::Opened;
pub use pool::Pool;

// For proofs.
pub use handle::LastSeen;
pub use laws::{
    finished_pools_are_left, free_pools_are_explained, stepped_pools_are_explained,
    stepped_pools_are_safe, stopped_pools_are_left,
};
pub use owned::OwnedPool;
pub use rule::{PoolRule, PoolView};
