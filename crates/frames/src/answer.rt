//! What a program is answered: the number of its request, and what came of it.

use crate::listing::Listing;
use base::{Bytes, Group, PoolError, PoolName, Receipt, Status};

/// What came of a request.
#[derive(Drop)]
pub enum Outcome {
    /// It was refused, for this reason.
    Refused(PoolError),
    /// The operations were committed, with this receipt.
    Transacted(Receipt),
    /// They were committed, and no crash loses them.
    MadeDurable(Receipt),
    /// They were committed, but making them durable was refused for this reason. A crash may lose them.
    NotDurable(Receipt, PoolError),
    /// The bytes that were read.
    Bytes(Bytes),
    /// The object's length in bytes.
    Length(u64),
    /// The objects that are there, and their lengths.
    Objects(Listing),
    /// The pool's groups, and what is charged and free.
    Status(Status),
    /// Whether the commit survives a crash.
    Durable(bool),
    /// All that was committed before survives a crash.
    Flushed,
    /// This group is synced.
    Synced(Group),
    /// The pool's name.
    Name(PoolName),
}

/// What came of the request of this number.
#[derive(Drop)]
pub struct Answer {
    /// The number of the request.
    pub number: u64,
    /// What came of it.
    pub outcome: Outcome,
}
