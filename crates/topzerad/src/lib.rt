//! The write engine of a copy-on-write storage pool, after ZFS: all that a program needs, by one name.
//!
//! A program keeps numbered objects of bytes in a pool, changes them by transactions from many threads, and finds them
//! again after a power failure.
//!
//! 1. **A device** holds the pool: a [`FileDevice`] on a file, or a [`MemDevice`] in memory for tests. A device on a
//!    file holds the file's lock, so one device at a time writes to it.
//! 2. **[`create`]** makes a pool on a device once. **[`Pool::open`]** opens it, as often as one likes: take this way
//!    in. [`import`] with [`PoolState`] is for one thread that makes each step itself, and the others are for proofs.
//!    [`inspect`] only shows what is there, and reads all of it. [`list_pool`] and [`view_object`] read only the blocks
//!    that lead to what is asked for.
//! 3. **A [`Handle`]** makes the calls of a thread. `transact` commits operations whole, or returns why it refused
//!    them. `fetch` reads a range. To read several as they are at one moment, `lock` them first: nobody changes them
//!    until they are unlocked. `transact_locked` commits under such locks, so that what was read still stands.
//!    `objects` lists what is there, and `status`, `name`, `digest` and `durable` answer too. An [`Owner`] is a number
//!    for who holds locks and transactions; each thread takes one of its own.
//! 4. **`transact_durably`** returns once no power failure loses the commit, and so does `fsync` of a receipt. Both
//!    write the intent log and flush it; threads that wait at once share one flush. A commit that nobody waited for
//!    may be lost, until its [`Group`] is synced. The newest receipt doesn't promise older ones: `fsync_all` waits for
//!    each commit so far.
//! 5. **A sync** writes the objects of a group to their places. `sync_pool` syncs all that was committed before. A
//!    program that writes for long has two threads for it: `quiescer` and `syncer` of a handle each run until
//!    `Pool::stop`. [`run_beside_loops`] starts them beside a program's work, and stops them. A write or a flush is
//!    made under the pool's lock, so other threads wait for it. [`Pool::finish`] makes a last sync and gives the device
//!    back.
//! 6. **The dirty limit**, as [`DEFAULT_DIRTY_MAX`], is in bytes. Until its group is synced, a transaction is charged
//!    4,096 bytes for each block that its sync may write: 2 blocks for a create or a remove, 5 for a new length. A
//!    write is 3 blocks, and one more for each piece of 4,032 bytes, and of 338,688, that it touches. At the limit
//!    [`PoolState::begin`] is refused `Throttled`, and `begin` of a handle waits until a thread syncs a group.
//!    `transact` waits only while the loops `quiescer` and `syncer` run; without them it makes the sync itself. At
//!    [`DEFAULT_DIRTY_MAX`] the 147th object makes the first sync, if each transaction creates one and writes a few
//!    bytes to it. `transact` does the same if it finds no space, and is refused `NoSpace` only if no sync can make
//!    some.
//! 7. **A refusal** is a [`PoolError`]. A refused step changes nothing, with one exception: a refused write or flush
//!    suspends the pool, and it has to be opened again. `sync_pool` and `sync_open_group` keep the steps before the
//!    refused one. A refused `transact` changes no contents, and holds no lock. [`create`], [`import`] and
//!    [`Pool::open`] give the device back with their refusal, and `transact_durably` the receipt, if the commit took
//!    place. In a function that returns a `PoolError`, `?` takes the refusal and drops the other. With `anyhow`, write
//!    `.map_err(PoolError::from)?`.
//!
//! Numbers: an object has up to 28,449,792 bytes ([`MAX_LENGTH`]), a device 6 MiB to 1 GiB in sectors of 512 bytes. A
//! guid is any number that distinguishes pools. A moment is a time in seconds that the uberblocks carry; 0 serves if no
//! clock is read.
//!
//! The sharpest limit is that of one transaction: its log record has at most 65,536 bytes ([`MAX_LOG_RECORD`]), or it
//! is refused `TooLarge`. These are 22, and for each operation 5 (a create, a remove), 13 (a new length), 17 and its
//! bytes (a write), or 5 and its bytes (a name). So one write has at most 65,497 bytes. Whatever its size, a
//! transaction takes place whole or not at all. [`record_size`] returns how many bytes the record of a plan has.
//! [`charge`] returns what the plan is charged: if that alone is above the dirty limit, the transaction is refused
//! `Throttled`. So at [`DEFAULT_DIRTY_MAX`] it has at most 204 small writes. At most 256 ranges are locked for it: those
//! that overlap count as one.
//!
//! # Examples
//!
//! It makes a pool in a file, commits five bytes so that no power failure loses them, and syncs. Then it opens the file
//! again and prints what it reads there: `hello`.
//!
//! ```
//! #![tactic(auto)]
//!
//! use anyhow::Result;
//! use std::sync::Wait;
//! use topzerad::{Bytes, FileDevice, Group, Limits, ObjectId, Op, Ops, Owner};
//! use topzerad::{Pool, PoolError, Range, create};
//!
//! fn main(rt: HostRuntime) -> Result<()> {
//!     write(&rt, FileDevice::create(&rt, "tank.pool", 8_388_608)?)?;
//!     let bytes = read(&rt, FileDevice::open(&rt, "tank.pool")?)?;
//!     Ok(println!(rt; "{}", str::from_utf8(bytes.as_slice())?)?)
//! }
//!
//! fn write<R: Wait + AllocGlobal>(rt: &R, device: FileDevice) -> Result<Group> {
//!     let device = create(device, b"tank", 77, 0).map_err(PoolError::from)?;
//!     let pool = Pool::open(rt.alloc(), device, Limits::DEFAULT, 0).map_err(PoolError::from)?;
//!     let mut handle = pool.handle();
//!     let bytes = Bytes::from_slice(rt.alloc(), b"hello")?;
//!     let ops = vec![in rt.alloc(); Op::Create(ObjectId(1)), Op::Write(ObjectId(1), 0, bytes)]?;
//!     let committed = handle.transact_durably(rt, Owner(1), Ops::new(ops));
//!     committed.map_err(PoolError::from)?; // from here on a power failure loses nothing
//!     Ok(handle.sync_pool(rt)?) // writes the object to its place
//! }
//!
//! fn read<R: Wait + AllocGlobal>(rt: &R, device: FileDevice) -> Result<Bytes> {
//!     let pool = Pool::open(rt.alloc(), device, Limits::DEFAULT, 0).map_err(PoolError::from)?;
//!     let mut handle = pool.handle();
//!     Ok(handle.fetch(rt, Owner(1), ObjectId(1), Range::WHOLE)?)
//! }
//! ```
#![tactic(auto)]

pub use base::{
    Bytes, DEFAULT_CACHE_BLOCKS, DEFAULT_DIRTY_MAX, GREATEST_CACHE_BLOCKS, GREATEST_DIRTY_MAX,
    Group, LEAST_DIRTY_MAX, LockId, MAX_LENGTH, MAX_LOCKS, MAX_LOG_RECORD, MAX_NAME,
    MAX_TRANSACTIONS, Mode, OBJECT_COUNT, ObjectId, ObjectRange, Op, Ops, Ordinal, Owner, Piece,
    Plan, PoolError, PoolName, Range, Receipt, RefusedCalls, Reply, SECTOR_SIZE, Shape, Status,
    Step, TxId, is_name,
};
pub use device_model::{Fault, MemDevice, SectorDevice};
pub use file_devices::{
    Access, CallCause, FileCall, FileDevice, FileRefusal, HeldFile, RefusedCall, SectorFile,
};
pub use import_replay::{GREATEST_SHARED_CACHE_BLOCKS, Imported, Limits, create, import};
pub use inspections::{Inspected, Soundness, View, find_damages, inspect, view_pool};
pub use mounted::Mounted;
pub use object_views::{ListedPool, ObjectView, PoolPaths, find_paths, list_pool, view_object};
pub use pool_core::{Duty, PoolState, Progress, run};
pub use pool_threads::{Handle, Opened, PIECE_SIZE, Pool};
pub use range_locks::{HeldLock, HeldLocks, HeldPiece};
pub use records::record_size;
pub use running_pools::{Halt, run_beside_loops};
pub use transactions::{charge, is_plan_allowed};
pub use trees::BlockDamage;

// For proofs alone: pools and handles with what was seen of them, and the rule of the pool under its lock.
pub use pool_threads::{LastSeen, OwnedPool, PoolRule, PoolView};
