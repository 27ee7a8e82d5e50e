//! A lock over one value, proved for any rule that says how the value may change.
//!
//! OpenZFS has no such lock: there a pool's state stands under several mutexes and condition variables. This one is
//! the project's own. It is one word and one slot of an `atomic_table`. The value lies in the slot while the word's
//! lowest bit is clear, and is out with one seat while that bit is set.
//!
//! What the value has been through is a *view*, which exists in the proofs alone. A `LockRule` says which value a
//! view explains, and which view goes on from which. Each `Seat` has seen a view, and a thread that takes the lock
//! gets the value with a view that explains it and goes on from what its seat has seen. A seat also knows the turns
//! that it has had, so that a contract can say that a call is one turn and adds nothing else.
//!
//! That would say nothing if a call could make a seat of its own, step by it and let it go. So no call makes a seat
//! of a lock and a seat but `Seat::split`. It raises the number of the seat that is split, and the new seat has that
//! number too. A join adds the number of the seat that it uses up, and nothing lowers a number. So each split shows in
//! a number that comes back. Other seats come from a `SeatSource` alone, which is no part of the lock: whoever has a
//! lock and a seat of it has no source in reach. So a contract that says that a seat's number and what it took over by
//! joins stay says that each step of the call was a turn of that seat.
#![tactic(auto)]

mod clients;
mod debug;
mod guard;
mod lock;
mod plays;
mod rule;
mod seat;
mod source;
mod word;

pub use guard::{Guard, Held, release};
pub use lock::WordLock;
pub use rule::{LockRule, Turn};
pub use seat::Seat;
pub use source::SeatSource;
