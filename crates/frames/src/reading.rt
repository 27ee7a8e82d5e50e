//! The bytes of a frame as its requests, from left to right. Each function gives what it read and the bytes after it.

ghost use Rattle.std.specs.Int.{w16, w32, w64};
ghost use Rattle.frames.specs.declared.error.FrameError.TheVariants.{CutOff};
ghost use Rattle.records.specs.Reading.{split_at};
ghost use Rattle.frames.specs.Reading.{Gives, or_error, one_byte_in, call_in, durable_in, field_in, head_in, length_in, log_record_in, objects_in, read_in, request_in, requests_in, transact_durably_in, transact_in};

use crate::error::FrameError;
use crate::limits::{FRAME_VERSION, MAX_FRAME, REQUESTS};
use crate::request::{Call, Request};
use base::{Group, ObjectId, Ordinal, Range, Receipt};
use byteorder::{ByteOrder, LittleEndian};
use records::{Record, decode_record};
use std::alloc::Global;

/// The first so many bytes, and the rest.
fn split(bytes: &[u8], count: usize) -> Result<(&[u8], &[u8]), FrameError>
    ensures { Gives (λ x. (x.0.now, x.1.now)) result (or_error CutOff (split_at count bytes.now)) }
{
    bytes.split_at_checked(count).ok_or(FrameError::CutOff)
}

#[tactic(auto, unfolding(crate::specs::Reading::field_in))]
fn read_u16(bytes: &[u8]) -> Result<(u16, &[u8]), FrameError>
    ensures { Gives (λ x. (x.0, x.1.now)) result (field_in w16 bytes.now) }
{
    let (number, rest) = split(bytes, 2)?;
    Ok((LittleEndian::read_u16(number), rest))
}

#[tactic(auto, unfolding(crate::specs::Reading::field_in))]
fn read_u32(bytes: &[u8]) -> Result<(u32, &[u8]), FrameError>
    ensures { Gives (λ x. (x.0, x.1.now)) result (field_in w32 bytes.now) }
{
    let (number, rest) = split(bytes, 4)?;
    Ok((LittleEndian::read_u32(number), rest))
}

#[tactic(auto, unfolding(crate::specs::Reading::field_in))]
fn read_u64(bytes: &[u8]) -> Result<(u64, &[u8]), FrameError>
    ensures { Gives (λ x. (x.0, x.1.now)) result (field_in w64 bytes.now) }
{
    let (number, rest) = split(bytes, 8)?;
    Ok((LittleEndian::read_u64(number), rest))
}

fn read_byte(bytes: &[u8]) -> Result<(u8, &[u8]), FrameError>
    ensures { Gives (λ x. (x.0, x.1.now)) result (one_byte_in bytes.now) }
{
    let [byte, rest @ ..] = bytes else {
        return Err(FrameError::CutOff);
    };
    Ok((*byte, rest))
}

/// A log record.
#[tactic(auto, unfolding(crate::specs::Reading::log_record_in))]
fn read_record(alloc: Global, bytes: &[u8]) -> Result<(Record, &[u8]), FrameError>
    ensures { Gives (λ x. (x.0, x.1.now)) result (log_record_in bytes.now) }
{
    match decode_record(alloc, bytes) {
        Ok(Some((committed, rest))) => Ok((committed, rest)),
        Ok(None) => Err(FrameError::BadRecord),
        Err(_) => Err(FrameError::NoMemory),
    }
}

#[tactic(auto, unfolding(crate::specs::Reading::transact_in))]
fn read_transact(alloc: Global, bytes: &[u8]) -> Result<(Call, &[u8]), FrameError>
    ensures { Gives (λ x. (x.0, x.1.now)) result (transact_in bytes.now) }
{
    let (committed, rest) = read_record(alloc, bytes)?;
    Ok((Call::Transact(committed), rest))
}

#[tactic(auto, unfolding(crate::specs::Reading::transact_durably_in))]
fn read_transact_durably(alloc: Global, bytes: &[u8]) -> Result<(Call, &[u8]), FrameError>
    ensures { Gives (λ x. (x.0, x.1.now)) result (transact_durably_in bytes.now) }
{
    let (committed, rest) = read_record(alloc, bytes)?;
    Ok((Call::TransactDurably(committed), rest))
}

#[tactic(auto, unfolding(crate::specs::Reading::read_in))]
fn read_read(bytes: &[u8]) -> Result<(Call, &[u8]), FrameError>
    ensures { Gives (λ x. (x.0, x.1.now)) result (read_in bytes.now) }
{
    let (object, rest) = read_u32(bytes)?;
    let (low, rest) = read_u64(rest)?;
    let (high, rest) = read_u64(rest)?;
    Ok((Call::Read(ObjectId(object), Range { low, high }), rest))
}

#[tactic(auto, unfolding(crate::specs::Reading::length_in))]
fn read_length(bytes: &[u8]) -> Result<(Call, &[u8]), FrameError>
    ensures { Gives (λ x. (x.0, x.1.now)) result (length_in bytes.now) }
{
    let (object, rest) = read_u32(bytes)?;
    Ok((Call::Length(ObjectId(object)), rest))
}

#[tactic(auto, unfolding(crate::specs::Reading::objects_in))]
fn read_objects(bytes: &[u8]) -> Result<(Call, &[u8]), FrameError>
    ensures { Gives (λ x. (x.0, x.1.now)) result (objects_in bytes.now) }
{
    let (first, rest) = read_u32(bytes)?;
    let (past, rest) = read_u32(rest)?;
    Ok((Call::Objects(ObjectId(first), ObjectId(past)), rest))
}

#[tactic(auto, unfolding(crate::specs::Reading::durable_in))]
fn read_durable(bytes: &[u8]) -> Result<(Call, &[u8]), FrameError>
    ensures { Gives (λ x. (x.0, x.1.now)) result (durable_in bytes.now) }
{
    let (ordinal, rest) = read_u64(bytes)?;
    let (group, rest) = read_u64(rest)?;
    let receipt = Receipt {
        ordinal: Ordinal(ordinal),
        group: Group(group),
    };
    Ok((Call::Durable(receipt), rest))
}

/// The call of this number.
#[tactic(auto, unfolding(crate::specs::Reading::call_in))]
fn read_call(alloc: Global, number: u8, bytes: &[u8]) -> Result<(Call, &[u8]), FrameError>
    ensures { Gives (λ x. (x.0, x.1.now)) result (call_in number bytes.now) }
{
    match number {
        1 => read_transact(alloc, bytes),
        2 => read_transact_durably(alloc, bytes),
        3 => read_read(bytes),
        4 => read_length(bytes),
        5 => read_objects(bytes),
        6 => Ok((Call::Status, bytes)),
        7 => read_durable(bytes),
        8 => Ok((Call::Flush, bytes)),
        9 => Ok((Call::Sync, bytes)),
        10 => Ok((Call::Name, bytes)),
        _ => Err(FrameError::BadCall),
    }
}

#[tactic(auto, unfolding(crate::specs::Reading::request_in))]
fn read_request(alloc: Global, bytes: &[u8]) -> Result<(Request, &[u8]), FrameError>
    ensures { Gives (λ x. (x.0, x.1.now)) result (request_in bytes.now) }
{
    let (number, rest) = read_u64(bytes)?;
    let (tag, rest) = read_byte(rest)?;
    let (call, rest) = read_call(alloc, tag, rest)?;
    Ok((Request { number, call }, rest))
}

/// So many requests.
pub(crate) fn read_requests(
    alloc: Global,
    count: u32,
    bytes: &[u8],
) -> Result<(Vec<Request>, &[u8]), FrameError>
    ensures { Gives (λ x. (x.0.items, x.1.now)) result (requests_in count bytes.now) }
{
    let mut requests = Vec::new(alloc);
    let mut rest = bytes;
    for _ in 0..count {
        let (request, after) = read_request(alloc, rest)?;
        requests.push(request)?;
        rest = after;
    }
    Ok((requests, rest))
}

/// The head of a frame of requests: how many there are.
#[tactic(auto, unfolding(crate::specs::Reading::head_in))]
pub(crate) fn read_head(bytes: &[u8]) -> Result<(u32, &[u8]), FrameError>
    ensures { Gives (λ x. (x.0, x.1.now)) result (head_in bytes.now) }
{
    let (size, rest) = read_u32(bytes)?;
    if size as usize != bytes.len() || u64::from(size) > MAX_FRAME {
        return Err(FrameError::BadLength);
    }
    let (version, rest) = read_u16(rest)?;
    if version != FRAME_VERSION {
        return Err(FrameError::BadVersion);
    }
    let (kind, rest) = read_u16(rest)?;
    if kind != REQUESTS {
        return Err(FrameError::BadKind);
    }
    read_u32(rest)
}
