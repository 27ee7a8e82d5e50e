//! Frames as bytes: those of answers, the refusal of a frame, and what a program does that asks.

ghost use Rattle.std.specs.Prelude.{◌≡◌, ◌+◌, ◌-◌, ◌^◌, ◌<◌, ◌≤◌, ◌⊎◌, ◌++◌, IfErr, IfNone, IfOk, IfSome, IsOk, OnErr, OnOk, All, ◌∷◌, length, min};
ghost use Rattle.std.specs.Int.{to_le_bytes, w16, w32, w64};
ghost use Rattle.frames.specs.Answers.{bytes_of_answer, bytes_of_answers, bytes_of_listing, bytes_of_outcome, bytes_of_refused, size_of_answers};
ghost use Rattle.base.specs.declared.error.PoolError.TheVariants as lacking;
ghost use Rattle.base.specs.formats.Records.{IsAllowed, bytes_of_record};
ghost use Rattle.frames.specs.Limits.{frame_head, frame_version, max_frame};
ghost use Rattle.frames.specs.Requests.{AreAllowed, IsCallAllowed, IsFrameOf, IsRequestAllowed, bytes_of_all, bytes_of_call, bytes_of_request, number_of_call};
ghost use Rattle.records.specs.Records.{record_fields};
ghost use Rattle.records.specs.Writing.{AppendsBytes, HasRoomFor};

use crate::answer::{Answer, Outcome};
use crate::decode::answers_room;
use crate::error::FrameError;
use crate::limits::{
    ANSWERS, FRAME_HEAD, FRAME_VERSION, LISTED_SIZE, MAX_FRAME, REFUSAL, REQUESTS,
};
use crate::listing::Listed;
use crate::request::{Call, Request};
use crate::writing::{write_all, write_bytes, write_u16, write_u32, write_u64};
use base::PoolError;
use records::{Record, encode_into};
use std::alloc::{AllocError, Global};

/// Appends the frame of these answers. All room is taken first: if it is refused, the bytes stay as they are.
///
/// # Errors
///
/// `AnswersTooLong` if the frame would have more than [`MAX_FRAME`] bytes. `NoMemory` if the bytes have no room for it,
/// and there is no memory for more.
pub fn encode_answers(out: &mut Vec<u8>, answers: &[Answer]) -> Result<(), FrameError>
    ensures bytes { OnOk result (out.new.items ≡ out.old.items ++ bytes_of_answers answers.now) }
    ensures small { OnOk result (size_of_answers answers.now ≤ max_frame) }
    ensures refused { IfErr result (λ e. (e ≡ FrameError.NoMemory)
        ⊎ ((e ≡ FrameError.AnswersTooLong) × (max_frame < size_of_answers answers.now))) }
    ensures room { HasRoomFor out.old (size_of_answers answers.now)
        → size_of_answers answers.now ≤ max_frame → IsOk result }
    ensures unchanged { OnErr result (out.new.items ≡ out.old.items) }
{
    let Some(size) = size_of_answers(answers) else {
        return Err(FrameError::AnswersTooLong);
    };
    out.reserve(size as usize)?;
    write_answers(out, answers, size as u32);
    Ok(())
}

/// Appends the refusal of a frame. If there is no memory for its 12 bytes, the bytes stay as they are.
pub fn encode_refusal(out: &mut Vec<u8>, error: FrameError) -> Result<(), AllocError>
    ensures bytes { OnOk result (out.new.items ≡ out.old.items ++ bytes_of_refused error) }
    ensures room { HasRoomFor out.old frame_head → IsOk result }
    ensures unchanged { OnErr result (out.new.items ≡ out.old.items) }
{
    out.reserve(FRAME_HEAD)?;
    write_head(out, FRAME_HEAD as u32, REFUSAL, u32::from(error.number()));
    Ok(())
}

/// The frame of these requests. A program that asks may have other ways to write it.
///
/// # Errors
///
/// `NoMemory` if there is no memory for it. `BadRecord` if a transaction's record is outside its limits. `BadLength` if
/// it would have more than [`MAX_FRAME`] bytes, and `AnswersTooLong` if `answers_room` has none for the requests.
pub fn encode_requests(alloc: Global, requests: &[Request]) -> Result<Vec<u8>, FrameError>
    ensures spelled { IfOk result (λ frame. IsFrameOf frame.items requests.now) }
    ensures refused { AreAllowed requests.now → IfErr result (λ e. e ≡ FrameError.NoMemory) }
{
    let mut body = Vec::new(alloc);
    append_requests(&mut body, requests)?;
    if body.len() as u64 > MAX_FRAME - FRAME_HEAD as u64 {
        return Err(FrameError::BadLength);
    }
    if answers_room(requests).is_none() {
        return Err(FrameError::AnswersTooLong);
    }
    let size = FRAME_HEAD + body.len();
    let mut frame = Vec::with_capacity(alloc, size)?;
    write_head(&mut frame, size as u32, REQUESTS, requests.len() as u32);
    write_bytes(&mut frame, body.as_slice());
    Ok(frame)
}

/// Appends the head of a frame.
pub(crate) fn write_head(out: &mut Vec<u8>, size: u32, kind: u16, count: u32)
    requires { HasRoomFor out.old frame_head }
    ensures { AppendsBytes out.old out.new (to_le_bytes w32 size ++ to_le_bytes w16 frame_version
        ++ to_le_bytes w16 kind ++ to_le_bytes w32 count) }
{
    write_u32(out, size);
    write_u16(out, FRAME_VERSION);
    write_u16(out, kind);
    write_u32(out, count);
}

/// Appends the frame of answers, which has so many bytes.
fn write_answers(out: &mut Vec<u8>, answers: &[Answer], size: u32)
    requires size { size ≡ size_of_answers answers.now }
    requires small { size ≤ max_frame }
    requires room { HasRoomFor out.old size }
    ensures { AppendsBytes out.old out.new (bytes_of_answers answers.now) }
{
    write_head(out, size, ANSWERS, answers.len() as u32);
    write_all(out, answers);
}

/// How many bytes the frame of these answers has. `None` if these are above [`MAX_FRAME`].
fn size_of_answers(answers: &[Answer]) -> Option<u64>
    ensures size { IfSome result (λ size. size ≡ size_of_answers answers.now) }
    ensures small { IfSome result (λ size. size ≤ max_frame) }
    ensures large { IfNone result (max_frame < size_of_answers answers.now) }
{
    let mut size = FRAME_HEAD as u64;
    for answer in answers {
        size = with_answer(size, answer)?;
    }
    Some(size)
}

/// That size with an answer more. `None` if it is above the most bytes of a frame.
fn with_answer(size: u64, answer: &Answer) -> Option<u64>
    ensures size { IfSome result (λ larger. larger ≡ size + length (bytes_of_answer answer.now)) }
    ensures small { IfSome result (λ larger. larger ≤ max_frame) }
    ensures large { IfNone result (max_frame < size + length (bytes_of_answer answer.now)) }
{
    let larger = size.saturating_add(size_of_answer(answer));
    (larger <= MAX_FRAME).then_some(larger)
}

/// How many bytes an answer has. It stays within 64 bits.
fn size_of_answer(answer: &Answer) -> u64
    ensures { result ≡ min (length (bytes_of_answer answer.now)) (2 ^ 64 - 1) }
{
    size_of_outcome(&answer.outcome).saturating_add(8)
}

/// How many bytes what came of a request has. It stays within 64 bits.
fn size_of_outcome(outcome: &Outcome) -> u64
    ensures { result ≡ min (length (bytes_of_outcome outcome.now)) (2 ^ 64 - 1) }
{
    match outcome {
        Outcome::Refused(_) => 18,
        Outcome::Transacted(_) | Outcome::MadeDurable(_) => 17,
        Outcome::NotDurable(_, _) => 34,
        Outcome::Bytes(bytes) => (bytes.len() as u64).saturating_add(5),
        Outcome::Length(_) | Outcome::Synced(_) => 9,
        Outcome::Objects(listing) => size_of_listing(listing.as_slice()).saturating_add(1),
        Outcome::Status(_) => 57,
        Outcome::Durable(_) => 2,
        Outcome::Flushed => 1,
        Outcome::Name(name) => (name.as_slice().len() as u64).saturating_add(5),
    }
}

/// How many bytes objects and their lengths have, after their number. It stays within 64 bits.
#[tactic(auto, using(crate::proofs::Appended::sizes))]
fn size_of_listing(listed: &[Listed]) -> u64
    ensures { result ≡ min (length (bytes_of_listing listed.now)) (2 ^ 64 - 1) }
{
    (listed.len() as u64)
        .saturating_mul(LISTED_SIZE)
        .saturating_add(4)
}

/// Appends requests.
fn append_requests(out: &mut Vec<u8>, requests: &[Request]) -> Result<(), FrameError>
    ensures bytes { OnOk result (out.new.items ≡ out.old.items ++ bytes_of_all requests.now) }
    ensures allowed { OnOk result (All IsRequestAllowed requests.now) }
    ensures refused { All IsRequestAllowed requests.now
        → IfErr result (λ e. e ≡ FrameError.NoMemory) }
{
    for request in requests {
        append_request(out, request)?;
    }
    Ok(())
}

/// Appends a request: its number, that of its call, and what the call needs.
fn append_request(out: &mut Vec<u8>, request: &Request) -> Result<(), FrameError>
    ensures bytes { OnOk result
        (out.new.items ≡ out.old.items ++ bytes_of_request request.now) }
    ensures allowed { OnOk result (IsRequestAllowed request.now) }
    ensures refused { IsRequestAllowed request.now
        → IfErr result (λ e. e ≡ FrameError.NoMemory) }
{
    out.reserve(32)?;
    write_u64(out, request.number);
    append_call(out, &request.call)
}

/// Appends the number of a call and what it needs. There is room unless that is a record.
fn append_call(out: &mut Vec<u8>, call: &Call) -> Result<(), FrameError>
    requires { HasRoomFor out.old 24 }
    ensures bytes { OnOk result (out.new.items
        ≡ out.old.items ++ number_of_call call.now ∷ bytes_of_call call.now) }
    ensures allowed { OnOk result (IsCallAllowed call.now) }
    ensures refused { IsCallAllowed call.now → IfErr result (λ e. e ≡ FrameError.NoMemory) }
{
    match call {
        Call::Transact(committed) => append_record(out, 1, committed)?,
        Call::TransactDurably(committed) => append_record(out, 2, committed)?,
        Call::Read(object, range) => write_read(out, object.0, range.low, range.high),
        Call::Length(object) => {
            write_bytes(out, &[4]);
            write_u32(out, object.0);
        }
        Call::Objects(first, past) => {
            write_bytes(out, &[5]);
            write_u32(out, first.0);
            write_u32(out, past.0);
        }
        Call::Status => write_bytes(out, &[6]),
        Call::Durable(receipt) => {
            write_bytes(out, &[7]);
            write_u64(out, receipt.ordinal.0);
            write_u64(out, receipt.group.0);
        }
        Call::Flush => write_bytes(out, &[8]),
        Call::Sync => write_bytes(out, &[9]),
        Call::Name => write_bytes(out, &[10]),
    }
    Ok(())
}

/// Appends the call of a read.
fn write_read(out: &mut Vec<u8>, object: u32, low: u64, high: u64)
    requires { HasRoomFor out.old 21 }
    ensures { AppendsBytes out.old out.new (3 ∷ to_le_bytes w32 object ++ to_le_bytes w64 low
        ++ to_le_bytes w64 high) }
{
    write_bytes(out, &[3]);
    write_u32(out, object);
    write_u64(out, low);
    write_u64(out, high);
}

/// Appends the number of a call and a record.
fn append_record(out: &mut Vec<u8>, number: u8, committed: &Record) -> Result<(), FrameError>
    requires { HasRoomFor out.old 1 }
    ensures bytes { OnOk result (out.new.items
        ≡ out.old.items ++ number ∷ bytes_of_record (record_fields committed.now)) }
    ensures allowed { OnOk result (IsAllowed (record_fields committed.now)) }
    ensures refused { IsAllowed (record_fields committed.now)
        → IfErr result (λ e. e ≡ FrameError.NoMemory) }
{
    write_bytes(out, &[number]);
    match encode_into(out, committed) {
        Ok(()) => Ok(()),
        Err(error) => Err(frame_error(error)),
    }
}

/// Why a frame is refused if one of its records is.
fn frame_error(error: PoolError) -> FrameError
    ensures { error ≡ lacking.NoMemory → result ≡ FrameError.NoMemory }
{
    match error {
        PoolError::NoMemory => FrameError::NoMemory,
        _ => FrameError::BadRecord,
    }
}
