//! A frame's answer.
//!
//! All room that the answer takes is had before the first request is made. So what was made is answered, and a frame
//! for which there is no memory is refused with nothing made.

ghost use Rattle.std.specs.Prelude.{ℕ, ◌≡◌, ◌+◌, ◌≤◌, ◌++◌, [], IfErr, IsTrue, List, OnErr, OnOk, vec_capacity, vec_len};
ghost use Rattle.frames.specs.Answers.{bytes_of_refused};
ghost use Rattle.frames.specs.Limits.{max_frame};
ghost use Rattle.frames.specs.Requests.{room_of_answers};
ghost use Rattle.serving.specs.Calls.{MakesCalls};
ghost use Rattle.serving.specs.Frames.{AnswersFrame};
ghost use Rattle.records.specs.Writing.{HasRoomFor};

use crate::calls::make_call;
use base::Owner;
use device_model::SectorDevice;
use durable_answers::make_durable;
use frames::{
    Answer, FrameError, Request, answers_room, decode_frame, encode_answers, encode_refusal,
};
use pool_threads::Handle;
use std::alloc::{AllocError, Global};
use std::sync::Wait;

/// Makes the requests of a frame, of which these are all the bytes, and appends the frame that answers it.
///
/// The requests are made in their order, each as the call of the handle that has its name; the operations of a
/// transaction take place whole or not at all. Then one flush of the log makes all durable transactions durable. Bytes
/// that are no frame are answered by the refusal of a frame, and so is a frame for which there is no memory. Nothing is
/// made then.
///
/// # Errors
///
/// `NoMemory` if there is no memory for the refusal. Then nothing was made, and nothing was appended.
///
/// For proofs: this is so over a device that keeps the disk model (`none_made`).
pub fn answer_frame<'a, 'b, 'p, D: SectorDevice, W: Wait>(
    handle: &'a mut Handle<'p, D>,
    rt: &'b W,
    alloc: Global,
    owner: Owner,
    bytes: &[u8],
    out: &mut Vec<u8>,
) -> Result<(), FrameError>
    ensures answered { (answer : List ℕ) × AnswersFrame owner bytes.now answer handle.old handle.new
        × OnOk result (out.new.items ≡ out.old.items ++ answer) }
    ensures unchanged { OnErr result (out.new.items ≡ out.old.items) }
    ensures none_made { IsTrue D.keeps_model
        → IfErr result (λ e. (e ≡ FrameError.NoMemory) × (handle.new ≡ handle.old)) }
{
    let requests = match decode_frame(alloc, bytes) {
        Ok(requests) => requests,
        Err(error) => return refuse(out, error),
    };
    let Ok(room) = Vec::with_capacity(alloc, requests.len()) else {
        return refuse(out, FrameError::NoMemory);
    };
    let Ok(last) = Vec::with_capacity(alloc, requests.len()) else {
        return refuse(out, FrameError::NoMemory);
    };
    let Ok(()) = take_room(out, requests.as_slice()) else {
        return refuse(out, FrameError::NoMemory);
    };
    let made = make_calls(handle, rt, alloc, owner, requests, room);
    let answers = make_durable(handle, rt, made, last);
    encode_answers(out, answers.as_slice())
}

/// Appends the refusal of a frame.
fn refuse(out: &mut Vec<u8>, error: FrameError) -> Result<(), FrameError>
    ensures bytes { OnOk result (out.new.items ≡ out.old.items ++ bytes_of_refused error) }
    ensures no_memory { IfErr result (λ e. e ≡ FrameError.NoMemory) }
    ensures unchanged { OnErr result (out.new.items ≡ out.old.items) }
{
    match encode_refusal(out, error) {
        Ok(()) => Ok(()),
        Err(_) => Err(FrameError::NoMemory),
    }
}

/// Takes room for the answers to requests.
fn take_room(out: &mut Vec<u8>, requests: &[Request]) -> Result<(), AllocError>
    requires { room_of_answers requests.now ≤ max_frame }
    ensures room { OnOk result (HasRoomFor out.new (room_of_answers requests.now)) }
    ensures unchanged { out.new.items ≡ out.old.items }
{
    let room = answers_room(requests).unwrap_or(0);
    out.reserve(room as usize)
}

/// Makes the calls of requests, in their order. The list of answers has room for them.
fn make_calls<'a, 'b, 'p, D: SectorDevice, W: Wait>(
    handle: &'a mut Handle<'p, D>,
    rt: &'b W,
    alloc: Global,
    owner: Owner,
    requests: Vec<Request>,
    room: Vec<Answer>,
) -> Vec<Answer>
    requires room { vec_len room + vec_len requests ≤ vec_capacity room }
    requires empty { room.items ≡ [] }
    ensures made { MakesCalls owner requests.items result.items handle.old handle.new }
    ensures count { vec_len result ≡ vec_len requests }
{
    let mut answers = room;
    for request in requests {
        let number = request.number;
        let outcome = make_call(handle, rt, alloc, owner, request.call);
        answers.push_reserved(Answer { number, outcome });
    }
    answers
}
