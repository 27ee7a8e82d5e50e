//! A frame of requests as these.

ghost use Rattle.std.specs.Prelude.{◌≡◌, ◌+◌, ◌<◌, ◌≤◌, ◌-◌, List, IfNone, IfOk, IfSome};
ghost use Rattle.frames.specs.Limits.{max_frame};
ghost use Rattle.frames.specs.Reading.{DecodesTo, Gives, frame_in};
ghost use Rattle.frames.specs.Requests as words;
ghost use Rattle.frames.specs.Requests.{IsFrameOf, room_of_answers};
ghost use Rattle.frames.specs.declared.request.Request as declared;

use crate::error::FrameError;
use crate::limits::{FRAME_HEAD, LEAST_ROOM, LISTED_SIZE, MAX_FRAME};
use crate::reading::{read_head, read_requests};
use crate::request::{Call, Request};
use base::{MAX_LENGTH, OBJECT_COUNT};
use std::alloc::Global;

/// The requests of a frame, of which these are all the bytes.
///
/// A frame that is not spelled so, or whose requests or answers are too long for a frame, is refused whole.
///
/// # Errors
///
/// `NoMemory` if there is no memory for the requests. Else the first of these that applies, from left to right:
///
/// - `CutOff` if the bytes end within the head, or within a request but not in its log record.
/// - `BadLength` if the frame says another length than it has, or one above [`MAX_FRAME`].
/// - `BadVersion` and `BadKind` if it is of another version, or no frame of requests.
/// - `BadCall` if no call has the number of a request's; `BadRecord` if a transaction is no log record.
/// - `Surplus` if bytes stand after the last request.
/// - `AnswersTooLong` if `answers_room` has none for the requests.
pub fn decode_frame(alloc: Global, bytes: &[u8]) -> Result<Vec<Request>, FrameError>
    ensures reads { Gives (λ requests. requests.items) result (frame_in bytes.now) }
    ensures spelled { IfOk result (λ requests. IsFrameOf bytes.now requests.items) }
    ensures again { (requests : List declared.Request) → IsFrameOf bytes.now requests
        → DecodesTo result requests }
{
    match read_frame(alloc, bytes) {
        Ok(requests) => Ok(requests),
        Err(error) => Err(error),
    }
}

#[tactic(auto, unfolding(crate::specs::Reading::frame_in))]
fn read_frame(alloc: Global, bytes: &[u8]) -> Result<Vec<Request>, FrameError>
    ensures { Gives (λ requests. requests.items) result (frame_in bytes.now) }
{
    let (count, rest) = read_head(bytes)?;
    let (requests, rest) = read_requests(alloc, count, rest)?;
    if !rest.is_empty() {
        return Err(FrameError::Surplus);
    }
    if answers_room(requests.as_slice()).is_none() {
        return Err(FrameError::AnswersTooLong);
    }
    Ok(requests)
}

/// The bytes that are kept for the frame of the answers to these requests: 12, and for each request 80, the bytes that
/// it may read, and 12 for each object that it may list. `None` if these are above [`MAX_FRAME`].
pub fn answers_room(requests: &[Request]) -> Option<u64>
    ensures room { IfSome result (λ room. room ≡ room_of_answers requests.now) }
    ensures small { IfSome result (λ room. room ≤ max_frame) }
    ensures large { IfNone result (max_frame < room_of_answers requests.now) }
{
    let mut room = FRAME_HEAD as u64;
    for request in requests {
        room = with_call(room, &request.call)?;
    }
    Some(room)
}

/// That room with the answer to a call more. `None` if it is above the most bytes of a frame.
fn with_call(room: u64, call: &Call) -> Option<u64>
    ensures room { IfSome result (λ larger. larger ≡ room + words.room_of_call call.now) }
    ensures small { IfSome result (λ larger. larger ≤ max_frame) }
    ensures large { IfNone result (max_frame < room + words.room_of_call call.now) }
{
    let larger = room.saturating_add(room_of_call(call));
    (larger <= MAX_FRAME).then_some(larger)
}

/// The bytes that are kept for the answer to a call.
fn room_of_call(call: &Call) -> u64
    ensures { result ≡ words.room_of_call call.now }
{
    match call {
        Call::Read(_, range) => LEAST_ROOM + range.high.saturating_sub(range.low).min(MAX_LENGTH),
        Call::Objects(first, past) => LEAST_ROOM
            + LISTED_SIZE * u64::from(past.0.saturating_sub(first.0).min(OBJECT_COUNT)),
        _ => LEAST_ROOM,
    }
}
