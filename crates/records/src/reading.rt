//! The bytes of a record as its fields, from left to right. Each function gives what it read and the bytes after it.

ghost use Rattle.std.specs.Prelude.{◌≡◌};
ghost use Rattle.std.specs.Int.{w16, w32, w64};
ghost use Rattle.records.specs.declared.reading.ReadError.TheVariants.{NoMemory};
ghost use Rattle.base.specs.declared.operation.Op.TheVariants.{Write};
ghost use Rattle.records.specs.Records as words;
ghost use Rattle.records.specs.Records.{record_fields};
ghost use Rattle.records.specs.Reading.{Gives, number_in, split_at, string_in, create_in, remove_in, write_in, set_length_in, set_name_in, tagged_in, op_in, ops_in, body_in, record_in};

use crate::record::Record;
use crate::shapes::is_shape_allowed;
use base::{Bytes, Group, LAST_NUMBER, MAX_LOG_RECORD, ObjectId, Op, Ops, Ordinal, Shape, is_name};
use byteorder::{ByteOrder, LittleEndian};
use std::alloc::{AllocError, AllocFailed, Global};

/// Why no record was read.
#[derive(Drop)]
pub(crate) enum ReadError {
    NoMemory,
    /// No front of the bytes is a record.
    NoRecord,
}

impl From<AllocError> for ReadError {
    ghost from_gives = { λ _ e. e ≡ NoMemory };

    fn from(_error: AllocError) -> ReadError {
        ReadError::NoMemory
    }
}

impl<T: Drop> From<AllocFailed<T>> for ReadError {
    ghost from_gives = { λ _ e. e ≡ NoMemory };

    fn from(_failed: AllocFailed<T>) -> ReadError {
        ReadError::NoMemory
    }
}

/// The first so many bytes, and the rest.
fn split(bytes: &[u8], count: usize) -> Result<(&[u8], &[u8]), ReadError>
    ensures { Gives (λ x. (x.0.now, x.1.now)) result (split_at count bytes.now) }
{
    bytes.split_at_checked(count).ok_or(ReadError::NoRecord)
}

fn read_u16(bytes: &[u8]) -> Result<(u16, &[u8]), ReadError>
    ensures { Gives (λ x. (x.0, x.1.now)) result (number_in w16 bytes.now) }
{
    let (number, rest) = split(bytes, 2)?;
    Ok((LittleEndian::read_u16(number), rest))
}

fn read_u32(bytes: &[u8]) -> Result<(u32, &[u8]), ReadError>
    ensures { Gives (λ x. (x.0, x.1.now)) result (number_in w32 bytes.now) }
{
    let (number, rest) = split(bytes, 4)?;
    Ok((LittleEndian::read_u32(number), rest))
}

fn read_number(bytes: &[u8]) -> Result<(u64, &[u8]), ReadError>
    ensures { Gives (λ x. (x.0, x.1.now)) result (number_in w64 bytes.now) }
{
    let (number, rest) = split(bytes, 8)?;
    Ok((LittleEndian::read_u64(number), rest))
}

#[tactic(auto, unfolding(crate::specs::Reading::string_in))]
fn read_bytes(alloc: Global, bytes: &[u8]) -> Result<(Bytes, &[u8]), ReadError>
    ensures { Gives (λ x. (x.0, x.1.now)) result (string_in bytes.now) }
{
    let (count, rest) = read_u32(bytes)?;
    let (content, rest) = split(rest, count as usize)?;
    Ok((Bytes::from_slice(alloc, content)?, rest))
}

#[tactic(auto, unfolding(crate::specs::Reading::create_in))]
fn read_create(bytes: &[u8]) -> Result<(Op, &[u8]), ReadError>
    ensures { Gives (λ x. (x.0, x.1.now)) result (create_in bytes.now) }
{
    let (object, rest) = read_u32(bytes)?;
    Ok((Op::Create(ObjectId(object)), rest))
}

#[tactic(auto, unfolding(crate::specs::Reading::remove_in))]
fn read_remove(bytes: &[u8]) -> Result<(Op, &[u8]), ReadError>
    ensures { Gives (λ x. (x.0, x.1.now)) result (remove_in bytes.now) }
{
    let (object, rest) = read_u32(bytes)?;
    Ok((Op::Remove(ObjectId(object)), rest))
}

#[tactic(auto, unfolding(crate::specs::Reading::write_in))]
fn read_write(alloc: Global, bytes: &[u8]) -> Result<(Op, &[u8]), ReadError>
    ensures { Gives (λ x. (x.0, x.1.now)) result (write_in bytes.now) }
{
    let (object, rest) = read_u32(bytes)?;
    let (offset, rest) = read_number(rest)?;
    let (content, rest) = read_bytes(alloc, rest)?;
    Ok((Op::Write(ObjectId(object), offset, content), rest))
}

#[tactic(auto, unfolding(crate::specs::Reading::set_length_in))]
fn read_set_length(bytes: &[u8]) -> Result<(Op, &[u8]), ReadError>
    ensures { Gives (λ x. (x.0, x.1.now)) result (set_length_in bytes.now) }
{
    let (object, rest) = read_u32(bytes)?;
    let (length, rest) = read_number(rest)?;
    Ok((Op::SetLength(ObjectId(object), length), rest))
}

#[tactic(auto, unfolding(crate::specs::Reading::set_name_in))]
fn read_set_name(alloc: Global, bytes: &[u8]) -> Result<(Op, &[u8]), ReadError>
    ensures { Gives (λ x. (x.0, x.1.now)) result (set_name_in bytes.now) }
{
    let (name, rest) = read_bytes(alloc, bytes)?;
    Ok((Op::SetName(name), rest))
}

/// An operation of this kind.
#[tactic(auto, unfolding(crate::specs::Reading::tagged_in))]
fn read_tagged(alloc: Global, tag: u8, bytes: &[u8]) -> Result<(Op, &[u8]), ReadError>
    ensures { Gives (λ x. (x.0, x.1.now)) result (tagged_in tag bytes.now) }
{
    match tag {
        1 => read_create(bytes),
        2 => read_remove(bytes),
        3 => read_write(alloc, bytes),
        4 => read_set_length(bytes),
        5 => read_set_name(alloc, bytes),
        _ => Err(ReadError::NoRecord),
    }
}

/// An operation within its limits.
#[tactic(auto, unfolding(crate::specs::Reading::op_in))]
fn read_op(alloc: Global, bytes: &[u8]) -> Result<(Op, &[u8]), ReadError>
    ensures { Gives (λ x. (x.0, x.1.now)) result (op_in bytes.now) }
{
    let [tag, rest @ ..] = bytes else {
        return Err(ReadError::NoRecord);
    };
    let (op, rest) = read_tagged(alloc, *tag, rest)?;
    if is_op_allowed(&op) {
        Ok((op, rest))
    } else {
        Err(ReadError::NoRecord)
    }
}

/// Whether an operation is within its limits.
pub(crate) fn is_op_allowed(op: &Op) -> bool
    ensures { result ≡ words.is_op_allowed op.now }
{
    match op {
        Op::Write(object, offset, content) => {
            is_write_allowed(*object, *offset, content.as_slice())
        }
        Op::SetName(name) => is_name(name.as_slice()),
        _ => is_shape_allowed(&op.shape()),
    }
}

/// Whether a write of these bytes is within its limits.
fn is_write_allowed(object: ObjectId, offset: u64, content: &[u8]) -> bool
    ensures { result ≡ words.is_op_allowed (Write object offset content.now) }
{
    is_shape_allowed(&Shape::Write(object, offset, content.len() as u64))
}

/// So many operations.
fn read_ops(alloc: Global, count: u16, bytes: &[u8]) -> Result<(Vec<Op>, &[u8]), ReadError>
    ensures { Gives (λ x. (x.0.items, x.1.now)) result (ops_in count bytes.now) }
{
    let mut ops = Vec::new(alloc);
    let mut rest = bytes;
    for _ in 0..count {
        let (op, after) = read_op(alloc, rest)?;
        ops.push(op)?;
        rest = after;
    }
    Ok((ops, rest))
}

/// The record of which these are all the bytes after its length.
#[tactic(auto, unfolding(crate::specs::Reading::body_in))]
fn read_body(alloc: Global, bytes: &[u8]) -> Result<Record, ReadError>
    ensures { Gives (λ r. record_fields r) result (body_in bytes.now) }
{
    let (group, rest) = read_number(bytes)?;
    let (ordinal, rest) = read_number(rest)?;
    let (count, rest) = read_u16(rest)?;
    let (ops, rest) = read_ops(alloc, count, rest)?;
    if group > LAST_NUMBER || ordinal > LAST_NUMBER || count == 0 || !rest.is_empty() {
        return Err(ReadError::NoRecord);
    }
    Ok(Record {
        group: Group(group),
        ordinal: Ordinal(ordinal),
        ops: Ops::new(ops),
    })
}

/// The record at the front of the bytes.
#[tactic(auto, unfolding(crate::specs::Reading::record_in))]
pub(crate) fn read_record(alloc: Global, bytes: &[u8]) -> Result<(Record, &[u8]), ReadError>
    ensures { Gives (λ x. (record_fields x.0, x.1.now)) result (record_in bytes.now) }
{
    let (size, rest) = read_u32(bytes)?;
    if u64::from(size) > MAX_LOG_RECORD {
        return Err(ReadError::NoRecord);
    }
    let (body, rest) = split(rest, (size as usize).saturating_sub(4))?;
    Ok((read_body(alloc, body)?, rest))
}
