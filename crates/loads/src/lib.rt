//! A load on a pool: sixteen streams of small writes, shared by threads, beside the two loops that sync groups.
//!
//! 1. The pool's objects 0 to 16 are made first, or emptied, each in a transaction of owner 16. The loops run already,
//!    so a dirty limit that admits one create is enough.
//! 2. Then there are 16 streams. Stream j, of owner j, is done by worker j mod W. A worker does its streams one after
//!    the other, and each worker is a thread.
//! 3. Stream j draws its writes by a generator, PCG (XSH-RR 64/32), from a seed and its number (`words.rt`). It writes
//!    to object j and to a part of object 16 that no other stream writes. So what a load leaves doesn't depend on the
//!    order in which threads write.
//! 4. A write locks its range, begins, commits and unlocks, in one turn of the pool's lock (`transact` of a handle).
//!    After each eighth write a stream waits until it is durable, and then reads all parts of object 16 under a lock.
//! 5. If a write finds no space, its stream syncs the pool and begins again, at most 8 times. It holds no lock then.
//! 6. At the end the pool is synced, the loops are stopped, and the digest of the contents is taken.
//! 7. A refusal ends the load: no worker begins a further write, each gives up what it holds, and the loops stop.
//!
//! `load` works on any device. The command `load` of `ztxg` ([`run_load`]) runs it on the pool in a file.
#![tactic(auto)]

mod clients;
mod command;
mod gate;
mod order;
mod words;
mod workers;
mod writer;

pub use command::run_load;
pub use command_arguments::{MAX_WORKERS, MAX_WRITES, Order, STREAMS};
pub use gate::Gate;
pub use order::{Loaded, WRITES_BETWEEN_WAITS};
pub use workers::load;
