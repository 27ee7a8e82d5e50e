//! What a program asks of a pool: a call with what it needs, and a number that its answer has too.

use base::{ObjectId, Range, Receipt};
use records::Record;

/// What a request asks of the pool.
#[derive(Drop)]
pub enum Call {
    /// Commits the operations of a record as one entry. The record's group and ordinal say nothing.
    Transact(Record),
    /// Commits them so, and makes the commit durable.
    TransactDurably(Record),
    /// Reads the bytes of a range, up to the object's length.
    Read(ObjectId, Range),
    /// Returns an object's length.
    Length(ObjectId),
    /// Returns which objects are there from the first number on, below the second one, and their lengths.
    Objects(ObjectId, ObjectId),
    /// Returns the pool's groups, and what is charged and free.
    Status,
    /// Returns whether a commit survives a crash.
    Durable(Receipt),
    /// Makes durable what was committed so far.
    Flush,
    /// Syncs the open group.
    Sync,
    /// Returns the pool's name.
    Name,
}

/// A call, and the number by which its answer is known. The program chooses it.
#[derive(Drop)]
pub struct Request {
    /// The number that the answer has too.
    pub number: u64,
    /// What is asked.
    pub call: Call,
}
