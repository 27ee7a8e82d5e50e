//! Answers as bytes, after those that a list of bytes has. The caller has taken their room.

ghost use Rattle.std.specs.Prelude.{◌≡◌, ◌+◌, ◌*◌, ◌≤◌, ◌<◌, length};
ghost use Rattle.std.specs.List.{flat_map};
ghost use Rattle.std.specs.Int.{to_le_bytes, w16, w32, w64};
ghost use Rattle.frames.specs.Limits.{max_frame};
ghost use Rattle.frames.specs.Answers as words;
ghost use Rattle.frames.specs.Answers.{bytes_of_answer, bytes_of_groups, bytes_of_listed, bytes_of_listing, bytes_of_outcome, bytes_of_receipt, bytes_of_refusal, bytes_of_status, bytes_of_string};
ghost use Rattle.records.specs.Writing.{AppendsBytes, HasRoomFor};

use crate::answer::{Answer, Outcome};
use crate::listing::Listed;
use base::{Group, PoolError, Receipt, Status};

/// Appends answers.
pub(crate) fn write_all(out: &mut Vec<u8>, answers: &[Answer])
    requires small { length (flat_map bytes_of_answer answers.now) ≤ max_frame }
    requires room { HasRoomFor out.old (length (flat_map bytes_of_answer answers.now)) }
    ensures { AppendsBytes out.old out.new (flat_map bytes_of_answer answers.now) }
{
    for answer in answers {
        write_answer(out, answer);
    }
}

/// Appends an answer: the number of its request, and what came of it.
fn write_answer(out: &mut Vec<u8>, answer: &Answer)
    requires small { length (bytes_of_answer answer.now) ≤ max_frame }
    requires room { HasRoomFor out.old (length (bytes_of_answer answer.now)) }
    ensures { AppendsBytes out.old out.new (bytes_of_answer answer.now) }
{
    write_u64(out, answer.number);
    write_outcome(out, &answer.outcome);
}

fn write_outcome(out: &mut Vec<u8>, outcome: &Outcome)
    requires small { length (bytes_of_outcome outcome.now) ≤ max_frame }
    requires room { HasRoomFor out.old (length (bytes_of_outcome outcome.now)) }
    ensures { AppendsBytes out.old out.new (bytes_of_outcome outcome.now) }
{
    match outcome {
        Outcome::Refused(error) => {
            write_bytes(out, &[0]);
            write_refusal(out, error);
        }
        Outcome::Transacted(receipt) => {
            write_bytes(out, &[1]);
            write_receipt(out, receipt);
        }
        Outcome::MadeDurable(receipt) => {
            write_bytes(out, &[2]);
            write_receipt(out, receipt);
        }
        Outcome::NotDurable(receipt, error) => {
            write_bytes(out, &[11]);
            write_receipt(out, receipt);
            write_refusal(out, error);
        }
        Outcome::Bytes(bytes) => {
            write_bytes(out, &[3]);
            write_string(out, bytes.as_slice());
        }
        Outcome::Length(length) => {
            write_bytes(out, &[4]);
            write_u64(out, *length);
        }
        Outcome::Objects(listing) => {
            write_bytes(out, &[5]);
            write_listing(out, listing.as_slice());
        }
        Outcome::Status(status) => {
            write_bytes(out, &[6]);
            write_status(out, status);
        }
        Outcome::Durable(durable) => {
            write_bytes(out, &[7, u8::from(*durable)]);
        }
        Outcome::Flushed => write_bytes(out, &[8]),
        Outcome::Synced(group) => {
            write_bytes(out, &[9]);
            write_u64(out, group.0);
        }
        Outcome::Name(name) => {
            write_bytes(out, &[10]);
            write_string(out, name.as_slice());
        }
    }
}

/// Appends the number of a refusal, and the kind and the address of the block that it tells of.
fn write_refusal(out: &mut Vec<u8>, error: &PoolError)
    requires { HasRoomFor out.old (length (bytes_of_refusal error.now)) }
    ensures { AppendsBytes out.old out.new (bytes_of_refusal error.now) }
{
    let (kind, address) = damage(error);
    write_bytes(out, &[error.number()]);
    write_u64(out, kind);
    write_u64(out, address);
}

/// The kind and the address of the block that a refusal tells of, or zeros.
pub(crate) fn damage(error: &PoolError) -> (u64, u64)
    ensures { result ≡ (words.damaged_kind error.now, words.damaged_address error.now) }
{
    match error {
        PoolError::Damaged { kind, address } => (*kind, *address),
        _ => (0, 0),
    }
}

/// Appends a receipt.
fn write_receipt(out: &mut Vec<u8>, receipt: &Receipt)
    requires { HasRoomFor out.old 16 }
    ensures { AppendsBytes out.old out.new (bytes_of_receipt receipt.now) }
{
    write_u64(out, receipt.ordinal.0);
    write_u64(out, receipt.group.0);
}

fn write_status(out: &mut Vec<u8>, status: &Status)
    requires { HasRoomFor out.old 56 }
    ensures { AppendsBytes out.old out.new (bytes_of_status status.now) }
{
    write_groups(out, status);
    write_u64(out, status.dirty);
    write_u64(out, status.free);
    write_u64(out, status.available);
}

/// Appends the groups of a status.
fn write_groups(out: &mut Vec<u8>, status: &Status)
    requires { HasRoomFor out.old 32 }
    ensures { AppendsBytes out.old out.new (bytes_of_groups status.now) }
{
    write_u64(out, status.synced.0);
    write_u64(out, number_of_group(status.syncing));
    write_u64(out, number_of_group(status.middle));
    write_u64(out, status.open_group.0);
}

/// A group that may not be there: 0 if it isn't.
fn number_of_group(group: Option<Group>) -> u64
    ensures { result ≡ words.number_of_group group }
{
    match group {
        Some(group) => group.0,
        None => 0,
    }
}

/// Appends objects and their lengths, after their number.
#[tactic(auto, using(crate::proofs::Appended::sizes))]
fn write_listing(out: &mut Vec<u8>, listed: &[Listed])
    requires small { length (bytes_of_listing listed.now) ≤ max_frame }
    requires room { HasRoomFor out.old (length (bytes_of_listing listed.now)) }
    ensures { AppendsBytes out.old out.new (bytes_of_listing listed.now) }
{
    write_u32(out, listed.len() as u32);
    write_objects(out, listed);
}

/// Appends objects and their lengths.
fn write_objects(out: &mut Vec<u8>, listed: &[Listed])
    requires { HasRoomFor out.old (length (flat_map bytes_of_listed listed.now)) }
    ensures { AppendsBytes out.old out.new (flat_map bytes_of_listed listed.now) }
{
    for object in listed {
        write_listed(out, object);
    }
}

/// Appends an object and its length.
fn write_listed(out: &mut Vec<u8>, listed: &Listed)
    requires { HasRoomFor out.old 12 }
    ensures { AppendsBytes out.old out.new (bytes_of_listed listed.now) }
{
    write_u32(out, listed.object.0);
    write_u64(out, listed.length);
}

/// Appends bytes after their number.
pub(crate) fn write_string(out: &mut Vec<u8>, content: &[u8])
    requires small { length content.now ≤ max_frame }
    requires room { HasRoomFor out.old (4 + length content.now) }
    ensures { AppendsBytes out.old out.new (bytes_of_string content.now) }
{
    write_u32(out, content.len() as u32);
    write_bytes(out, content);
}

pub(crate) fn write_u16(out: &mut Vec<u8>, number: u16)
    requires { HasRoomFor out.old 2 }
    ensures { AppendsBytes out.old out.new (to_le_bytes w16 number) }
{
    write_bytes(out, &number.to_le_bytes());
}

pub(crate) fn write_u32(out: &mut Vec<u8>, number: u32)
    requires { HasRoomFor out.old 4 }
    ensures { AppendsBytes out.old out.new (to_le_bytes w32 number) }
{
    write_bytes(out, &number.to_le_bytes());
}

pub(crate) fn write_u64(out: &mut Vec<u8>, number: u64)
    requires { HasRoomFor out.old 8 }
    ensures { AppendsBytes out.old out.new (to_le_bytes w64 number) }
{
    write_bytes(out, &number.to_le_bytes());
}

/// Appends these bytes.
pub(crate) fn write_bytes(out: &mut Vec<u8>, bytes: &[u8])
    requires { HasRoomFor out.old (length bytes.now) }
    ensures { AppendsBytes out.old out.new bytes.now }
{
    out.extend_from_slice(bytes).unwrap();
}
