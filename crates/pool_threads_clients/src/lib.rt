//! What callers of `pool_threads` rest on: one function for each promise of its calls, proved from the contract of the
//! call alone. So it is refused as soon as that contract says less.
#![tactic(auto)]

mod answers;
mod crashes;
mod fetches;
mod handles;
mod in_time;
mod long_writes;
mod loops;
mod pools;
mod transacts;
mod turns;
mod waits;
