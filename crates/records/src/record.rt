//! The record of a committed transaction for the intent log (`zil.c`): little-endian, and of one spelling.

ghost use Rattle.std.specs.Prelude.{◌≡◌, ◌<◌, ◌≤◌, ◌++◌, List, ℕ, IfErr, IfNone, IfOk, IfSome, IsOk, None, OnErr, OnOk, map, vec_capacity};
ghost use Rattle.std.specs.List.{list_all};
ghost use Rattle.base.specs.formats.Limits.{max_log_record};
ghost use Rattle.base.specs.history.Plans.{log_record_size, shape_of};
ghost use Rattle.base.specs.formats.Records as records;
ghost use Rattle.base.specs.formats.Records.{HasNoRecord, IsAllowed, IsDecoded, bytes_of_record, is_one_level_op, size_of};
ghost use Rattle.records.specs.Refusals.{Refuses};
ghost use Rattle.records.specs.Records as words;
ghost use Rattle.records.specs.Records.{Decodes, encode_refusal, record_fields};
ghost use Rattle.records.specs.Writing.{HasRoomFor};

use crate::reading::{ReadError, is_op_allowed, read_record};
use crate::shapes::{RECORD_HEAD, is_one_level_shape, with_shape};
use crate::writing::write_record;
use base::{Group, LAST_NUMBER, Op, Ops, Ordinal, PoolError};
use std::alloc::Global;

/// A committed transaction as the intent log has it.
#[derive(PartialEq, Eq, Drop)]
pub struct Record {
    /// The group that the transaction is of.
    pub group: Group,
    /// Its place in its run's history.
    pub ordinal: Ordinal,
    /// What it did, in order.
    pub ops: Ops,
}

/// The bytes of a record.
///
/// # Errors
///
/// In this order:
///
/// - `BadRange` if there is no operation, or one of them, the group or the ordinal is outside its limits.
/// - `TooLarge` if it would be longer than 65,536 bytes.
/// - `NoMemory` if there is no memory for the bytes.
pub fn encode_record(alloc: Global, committed: &Record) -> Result<Vec<u8>, PoolError>
    ensures bytes { IfOk result
        (λ bytes. bytes.items ≡ bytes_of_record (record_fields committed.now)) }
    ensures allowed { OnOk result (IsAllowed (record_fields committed.now)) }
    ensures refused { IfErr result (λ e. Refuses (encode_refusal (record_fields committed.now)) e) }
{
    let mut bytes = Vec::new(alloc);
    encode_into(&mut bytes, committed)?;
    Ok(bytes)
}

/// Appends the bytes of a record. All room is taken first: if it is refused, the bytes stay as they are.
///
/// # Errors
///
/// As those of `encode_record`, and `NoMemory` only if the bytes have no room for the record.
pub fn encode_into(out: &mut Vec<u8>, committed: &Record) -> Result<(), PoolError>
    ensures bytes { OnOk result
        (out.new.items ≡ out.old.items ++ bytes_of_record (record_fields committed.now)) }
    ensures allowed { OnOk result (IsAllowed (record_fields committed.now)) }
    ensures refused { IfErr result (λ e. Refuses (encode_refusal (record_fields committed.now)) e) }
    ensures room { HasRoomFor out.old (size_of (record_fields committed.now))
        → encode_refusal (record_fields committed.now) ≡ None → IsOk result }
    ensures capacity { vec_capacity out.old ≤ vec_capacity out.new }
    ensures unchanged { OnErr result (out.new.items ≡ out.old.items) }
{
    if !is_in_limits(committed) {
        return Err(PoolError::BadRange);
    }
    let Some(size) = size_of(committed.ops.as_slice()) else {
        return Err(PoolError::TooLarge);
    };
    out.reserve(size as usize)?;
    write_record(out, committed, size);
    Ok(())
}

/// Whether a record is within its limits, except for its size.
fn is_in_limits(committed: &Record) -> bool
    ensures { result ≡ words.is_in_limits (record_fields committed.now) }
{
    committed.group.0 <= LAST_NUMBER
        && committed.ordinal.0 <= LAST_NUMBER
        && are_ops_allowed(committed.ops.as_slice())
}

/// Whether there is an operation, and each is within its limits.
fn are_ops_allowed(ops: &[Op]) -> bool
    ensures { result ≡ words.are_ops_allowed ops.now }
{
    !ops.is_empty() && is_each_allowed(ops)
}

fn is_each_allowed(ops: &[Op]) -> bool
    ensures { result ≡ list_all words.is_op_allowed ops.now }
{
    ops.iter().all(|op| is_op_allowed(op))
}

/// Whether each operation of a record ends within the 338,688 bytes that one level of indirect blocks holds. Version 1
/// has no other records.
pub fn is_one_level(committed: &Record) -> bool
    ensures { result ≡ list_all is_one_level_op committed.now.ops }
{
    committed
        .ops
        .as_slice()
        .iter()
        .all(|op| is_one_level_shape(&op.shape()))
}

/// How many bytes the record of these operations has. `None` if these are above 65,536.
fn size_of(ops: &[Op]) -> Option<u32>
    ensures size { IfSome result (λ size. size ≡ log_record_size (map shape_of ops.now)) }
    ensures small { IfSome result (λ size. size ≤ max_log_record) }
    ensures large { IfNone result (max_log_record < log_record_size (map shape_of ops.now)) }
{
    let mut size = RECORD_HEAD;
    for op in ops {
        size = with_shape(size, &op.shape())?;
    }
    Some(size as u32)
}

/// The record that stands at the front of these bytes, and the bytes after it. `None` if no front of them is a record:
/// of 22 bytes and those of its operations, 65,536 at most, with a group and an ordinal of at most 2^60 and operations
/// within their limits.
///
/// # Errors
///
/// `NoMemory` if there is no memory for the operations.
pub fn decode_record(alloc: Global, bytes: &[u8]) -> Result<Option<(Record, &[u8])>, PoolError>
    ensures found { IfOk result (λ found. IfSome found
        (λ (read, rest). IsDecoded bytes.now (record_fields read) rest.now)) }
    ensures none { IfOk result (λ found. IfNone found (HasNoRecord bytes.now)) }
    ensures again { (r : records.Record) (rest : List ℕ) → IsDecoded bytes.now r rest
        → Decodes result r rest }
    ensures refused { IfErr result (λ e. e ≡ PoolError.NoMemory) }
{
    match read_record(alloc, bytes) {
        Ok((committed, rest)) => Ok(Some((committed, rest))),
        Err(ReadError::NoRecord) => Ok(None),
        Err(ReadError::NoMemory) => Err(PoolError::NoMemory),
    }
}
