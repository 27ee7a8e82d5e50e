//! What a script prints for a command.

ghost use Rattle.std.specs.Prelude.{◌≡◌, ◌<◌};
ghost use Rattle.base.specs.formats.Limits.{last_number};

use base::{Bytes, Group, PoolError, Reply, Status};
use std::fmt;

/// The answer to a command, one line of text.
#[derive(Drop)]
pub enum Answer {
    /// The pool that an import mounted.
    Imported {
        /// The group that the import synced.
        synced: Group,
        /// The open group, which is the one after it.
        open: Group,
        /// How many log records the import replayed.
        records: u64,
    },
    /// What a crash found: the number of writes since the last good flush.
    Crashed(usize),
    /// What the pool answered.
    Reply(Reply),
}

impl Answer {
    ghost use Rattle.script_lines.specs.Answers.{imported_answer, is_refusal_answer};

    /// The answer to an import that synced this group and replayed so many log records. The group after it is open.
    pub fn imported(synced: Group, records: u64) -> Answer
        requires { synced.0 < last_number }
        ensures { result ≡ imported_answer synced records }
    {
        Answer::Imported {
            synced,
            open: Group(synced.0 + 1),
            records,
        }
    }

    /// The answer that a command is refused.
    pub fn refused(error: PoolError) -> Answer
        ensures { result ≡ Answer.Reply (Reply.Refused error) }
    {
        Answer::Reply(Reply::Refused(error))
    }

    /// Whether it is a refusal.
    pub fn is_refusal(&self) -> bool
        ensures { result ≡ is_refusal_answer self.now }
    {
        matches!(self, Answer::Reply(Reply::Refused(_)))
    }
}

impl fmt::Display for Answer {
    fn fmt<W: fmt::Write>(&self, f: &mut fmt::Formatter<W>) -> fmt::Result {
        match self {
            Answer::Imported {
                synced,
                open,
                records,
            } => { write!(f, "synced {} open {} records {records}", synced.0, open.0) }
            Answer::Crashed(unflushed) => write!(f, "crashed {unflushed}"),
            Answer::Reply(reply) => write_reply(reply, f),
        }
    }
}

fn write_reply<W: fmt::Write>(reply: &Reply, f: &mut fmt::Formatter<W>) -> fmt::Result {
    match reply {
        Reply::Refused(error) => write_refusal(*error, f),
        Reply::Done => write!(f, "ok"),
        Reply::Locked(id) => write_number("lock", id.0, f),
        Reply::Appended(id, range) => write!(f, "lock {} {} {}", id.0, range.low, range.high),
        Reply::Began(tx, group) => write_in_group("tx", tx.0, *group, f),
        Reply::Committed(receipt) => write_in_group("entry", receipt.ordinal.0, receipt.group, f),
        Reply::Bytes(bytes) => write_bytes(bytes, f),
        Reply::Length(length) => write_number("length", *length, f),
        Reply::Digest(digest) => write_digest(digest, f),
        Reply::Name(name) => write!(f, "name {name}"),
        Reply::Status(status) => write_status(status, f),
        Reply::Opened(group) => write_number("open", group.0, f),
        Reply::Quiesced(group) => write_number("quiesced", group.0, f),
        Reply::Syncing(group) => write_number("syncing", group.0, f),
        Reply::More => write!(f, "more"),
        Reply::Synced(group) => write_number("synced", group.0, f),
        Reply::Logged(records) => write_number("logged", *records, f),
        Reply::Flushed => write!(f, "flushed"),
        Reply::Durable(true) => write!(f, "durable yes"),
        Reply::Durable(false) => write!(f, "durable no"),
    }
}

// A word and a number.
fn write_number<W: fmt::Write>(word: &str, number: u64, f: &mut fmt::Formatter<W>) -> fmt::Result {
    write!(f, "{word} {number}")
}

// A word and the number of what is in a group.
fn write_in_group<W: fmt::Write>(
    word: &str,
    number: u64,
    group: Group,
    f: &mut fmt::Formatter<W>,
) -> fmt::Result {
    write!(f, "{word} {number} group {}", group.0)
}

// The refusal's number and name, and what is damaged.
fn write_refusal<W: fmt::Write>(error: PoolError, f: &mut fmt::Formatter<W>) -> fmt::Result {
    write!(f, "refused {} {}", error.number(), error.name())?;
    if let PoolError::Damaged { kind, address } = error {
        write!(f, " {kind} {address}")?;
    }
    Ok(())
}

// The number of the bytes, and if there are any, each as two hexadecimal digits.
fn write_bytes<W: fmt::Write>(bytes: &Bytes, f: &mut fmt::Formatter<W>) -> fmt::Result {
    write!(f, "bytes {}", bytes.len())?;
    if bytes.is_empty() {
        return Ok(());
    }
    write!(f, " ")?;
    for byte in bytes.as_slice() {
        write!(f, "{byte:02x}")?;
    }
    Ok(())
}

// Two hexadecimal digits for each byte.
fn write_digest<W: fmt::Write>(digest: &[u8; 32], f: &mut fmt::Formatter<W>) -> fmt::Result {
    write!(f, "digest ")?;
    for byte in digest {
        write!(f, "{byte:02x}")?;
    }
    Ok(())
}

// The groups and the sums of a pool.
fn write_status<W: fmt::Write>(status: &Status, f: &mut fmt::Formatter<W>) -> fmt::Result {
    write!(f, "synced {} syncing ", status.synced.0)?;
    write_group(status.syncing, f)?;
    write!(f, " middle ")?;
    write_group(status.middle, f)?;
    write!(f, " open {} dirty {}", status.open_group.0, status.dirty)?;
    write!(f, " free {} available {}", status.free, status.available)
}

// The group, or `-` if there is none.
fn write_group<W: fmt::Write>(group: Option<Group>, f: &mut fmt::Formatter<W>) -> fmt::Result {
    match group {
        Some(group) => write!(f, "{}", group.0),
        None => write!(f, "-"),
    }
}
