//! What callers rest on: one function for each promise of this crate's calls, proved from the contract of the call
//! alone. So it is refused as soon as that contract says less.

ghost use Rattle.std.specs.Prelude.{◌≡◌, ◌⊎◌, ◌∷◌, [], IfErr, IfOk, IsErrAnd, OnOk};
ghost use Rattle.base.specs.declared.operation.Op.TheVariants as op;
ghost use Rattle.base.specs.declared.error.PoolError.TheVariants.{NoSpace};
ghost use Rattle.frames.specs.Reading.{DecodesTo};
ghost use Rattle.frames.specs.declared.answer.Outcome.TheVariants as outcome;
ghost use Rattle.frames.specs.declared.request.Call.TheVariants as call;

use crate::answer::Answer;
use crate::decode::decode_frame;
use crate::encode::{encode_answers, encode_refusal, encode_requests};
use crate::error::FrameError;
use crate::opening::{Opening, encode_opening, encode_unopened};
use crate::request::Request;
use base::{Group, PoolError};
use std::alloc::{AllocError, Global};

// These 21 bytes are the frame of one request, number 5, for a status.
#[tactic(auto, unfolding(crate::specs::Reading::frame_in, crate::specs::Reading::head_in, crate::specs::Reading::field_in, crate::specs::Reading::requests_in, crate::specs::Reading::request_in, crate::specs::Reading::call_in))]
fn a_frame_for_a_status_is_read(alloc: Global, bytes: &[u8]) -> Result<Vec<Request>, FrameError>
    requires { bytes.now ≡ 21 ∷ 0 ∷ 0 ∷ 0 ∷ 1 ∷ 0 ∷ 1 ∷ 0 ∷ 1 ∷ 0 ∷ 0 ∷ 0
        ∷ 5 ∷ 0 ∷ 0 ∷ 0 ∷ 0 ∷ 0 ∷ 0 ∷ 0 ∷ 6 ∷ [] }
    ensures { DecodesTo result (record { number = 5; call = call.Status } ∷ []) }
{
    decode_frame(alloc, bytes)
}

// A frame that ends within its request, by 6 of 8 bytes of the number, is refused as cut off, unless memory runs out.
#[tactic(auto, unfolding(crate::specs::Reading::frame_in, crate::specs::Reading::head_in, crate::specs::Reading::field_in, crate::specs::Reading::requests_in, crate::specs::Reading::request_in, crate::specs::Reading::call_in))]
fn a_frame_that_ends_within_a_request_is_refused(
    alloc: Global,
    bytes: &[u8],
) -> Result<Vec<Request>, FrameError>
    requires { bytes.now ≡ 18 ∷ 0 ∷ 0 ∷ 0 ∷ 1 ∷ 0 ∷ 1 ∷ 0 ∷ 1 ∷ 0 ∷ 0 ∷ 0
        ∷ 5 ∷ 0 ∷ 0 ∷ 0 ∷ 0 ∷ 0 ∷ [] }
    ensures { IsErrAnd result (λ e. (e ≡ FrameError.NoMemory) ⊎ (e ≡ FrameError.CutOff)) }
{
    decode_frame(alloc, bytes)
}

// A transaction with a create of object 1, request 2, is the frame of 48 bytes that docs/FORMATS.md spells.
fn a_frame_for_a_create_has_48_bytes(
    alloc: Global,
    requests: &[Request],
) -> Result<Vec<u8>, FrameError>
    requires { requests.now ≡ record {
      number = 2;
      call = call.Transact (record {
        group = record { 0 = 0 };
        ordinal = record { 0 = 0 };
        ops = op.Create (record { 0 = 1 }) ∷ [];
      });
    } ∷ [] }
    ensures { IfOk result (λ frame. frame.items
        ≡ 48 ∷ 0 ∷ 0 ∷ 0 ∷ 1 ∷ 0 ∷ 1 ∷ 0 ∷ 1 ∷ 0 ∷ 0 ∷ 0
        ∷ 2 ∷ 0 ∷ 0 ∷ 0 ∷ 0 ∷ 0 ∷ 0 ∷ 0 ∷ 1 ∷ 27 ∷ 0 ∷ 0 ∷ 0
        ∷ 0 ∷ 0 ∷ 0 ∷ 0 ∷ 0 ∷ 0 ∷ 0 ∷ 0 ∷ 0 ∷ 0 ∷ 0 ∷ 0 ∷ 0 ∷ 0 ∷ 0 ∷ 0
        ∷ 1 ∷ 0 ∷ 1 ∷ 1 ∷ 0 ∷ 0 ∷ 0 ∷ []) }
{
    encode_requests(alloc, requests)
}

// A frame that goes on after its last request is refused as such, unless memory runs out.
#[tactic(auto, unfolding(crate::specs::Reading::frame_in, crate::specs::Reading::head_in, crate::specs::Reading::field_in, crate::specs::Reading::requests_in, crate::specs::Reading::request_in, crate::specs::Reading::call_in))]
fn a_frame_with_a_byte_more_is_refused(
    alloc: Global,
    bytes: &[u8],
) -> Result<Vec<Request>, FrameError>
    requires { bytes.now ≡ 13 ∷ 0 ∷ 0 ∷ 0 ∷ 1 ∷ 0 ∷ 1 ∷ 0 ∷ 0 ∷ 0 ∷ 0 ∷ 0 ∷ 7 ∷ [] }
    ensures { IsErrAnd result (λ e. (e ≡ FrameError.NoMemory) ⊎ (e ≡ FrameError.Surplus)) }
{
    decode_frame(alloc, bytes)
}

// What was encoded decodes to the same requests, unless memory runs out.
fn what_is_encoded_is_decoded(
    alloc: Global,
    requests: &[Request],
) -> Result<Vec<Request>, FrameError>
    ensures { IfOk result (λ again. again.items ≡ requests.now) }
{
    let frame = encode_requests(alloc, requests)?;
    decode_frame(alloc, frame.as_slice())
}

// A frame that is decoded has one spelling: encoded again it has the same bytes.
fn what_is_decoded_is_encoded(alloc: Global, bytes: &[u8]) -> Result<Vec<u8>, FrameError>
    ensures { IfOk result (λ again. again.items ≡ bytes.now) }
{
    let requests = decode_frame(alloc, bytes)?;
    encode_requests(alloc, requests.as_slice())
}

// Requests that were a frame's are encoded again, unless memory runs out.
fn what_was_decoded_lacks_only_memory(alloc: Global, bytes: &[u8]) -> Result<Vec<u8>, FrameError>
    ensures { IfErr result (λ e. e ≡ FrameError.NoMemory) }
{
    match decode_frame(alloc, bytes) {
        Ok(requests) => encode_requests(alloc, requests.as_slice()),
        Err(_) => Err(FrameError::NoMemory),
    }
}

// A transaction that is refused `NoSpace`, number 2, is answered by a frame of 38 bytes.
fn a_refusal_is_answered_by_its_number(
    out: &mut Vec<u8>,
    answers: &[Answer],
) -> Result<(), FrameError>
    requires answers { answers.now ≡ record {
      number = 2;
      outcome = outcome.Refused NoSpace;
    } ∷ [] }
    requires empty { out.old.items ≡ [] }
    ensures { OnOk result (out.new.items
        ≡ 38 ∷ 0 ∷ 0 ∷ 0 ∷ 1 ∷ 0 ∷ 2 ∷ 0 ∷ 1 ∷ 0 ∷ 0 ∷ 0
        ∷ 2 ∷ 0 ∷ 0 ∷ 0 ∷ 0 ∷ 0 ∷ 0 ∷ 0 ∷ 0 ∷ 16
        ∷ 0 ∷ 0 ∷ 0 ∷ 0 ∷ 0 ∷ 0 ∷ 0 ∷ 0 ∷ 0 ∷ 0 ∷ 0 ∷ 0 ∷ 0 ∷ 0 ∷ 0 ∷ 0 ∷ []) }
{
    encode_answers(out, answers)
}

// A commit of ordinal 3 in group 9 is answered with both, after the number of its call.
fn a_commit_is_answered_by_its_receipt(
    out: &mut Vec<u8>,
    answers: &[Answer],
) -> Result<(), FrameError>
    requires answers { answers.now ≡ record {
      number = 2;
      outcome = outcome.Transacted (record { ordinal = record { 0 = 3 }; group = record { 0 = 9 } });
    } ∷ [] }
    requires empty { out.old.items ≡ [] }
    ensures { OnOk result (out.new.items
        ≡ 37 ∷ 0 ∷ 0 ∷ 0 ∷ 1 ∷ 0 ∷ 2 ∷ 0 ∷ 1 ∷ 0 ∷ 0 ∷ 0
        ∷ 2 ∷ 0 ∷ 0 ∷ 0 ∷ 0 ∷ 0 ∷ 0 ∷ 0 ∷ 1
        ∷ 3 ∷ 0 ∷ 0 ∷ 0 ∷ 0 ∷ 0 ∷ 0 ∷ 0 ∷ 9 ∷ 0 ∷ 0 ∷ 0 ∷ 0 ∷ 0 ∷ 0 ∷ 0 ∷ []) }
{
    encode_answers(out, answers)
}

// The refusal of a frame has 12 bytes, and its number at the ninth.
fn a_refused_frame_is_answered_by_12_bytes(out: &mut Vec<u8>) -> Result<(), AllocError>
    requires { out.old.items ≡ [] }
    ensures { OnOk result (out.new.items
        ≡ 12 ∷ 0 ∷ 0 ∷ 0 ∷ 1 ∷ 0 ∷ 3 ∷ 0 ∷ 6 ∷ 0 ∷ 0 ∷ 0 ∷ []) }
{
    encode_refusal(out, FrameError::BadCall)
}

// A new pool with guid 77 is open: 36 bytes, with group 8 and no replayed record.
fn an_open_pool_says_so_by_36_bytes(out: &mut Vec<u8>) -> Result<(), AllocError>
    requires { out.old.items ≡ [] }
    ensures { OnOk result (out.new.items
        ≡ 36 ∷ 0 ∷ 0 ∷ 0 ∷ 1 ∷ 0 ∷ 4 ∷ 0 ∷ 0 ∷ 0 ∷ 0 ∷ 0
        ∷ 77 ∷ 0 ∷ 0 ∷ 0 ∷ 0 ∷ 0 ∷ 0 ∷ 0 ∷ 8 ∷ 0 ∷ 0 ∷ 0 ∷ 0 ∷ 0 ∷ 0 ∷ 0
        ∷ 0 ∷ 0 ∷ 0 ∷ 0 ∷ 0 ∷ 0 ∷ 0 ∷ 0 ∷ []) }
{
    let opening = Opening {
        guid: 77,
        group: Group(8),
        records: 0,
    };
    encode_opening(out, &opening)
}

// A pool whose root at byte 256 is damaged isn't open: number 7, kind 2 and that address, and a cause of one byte.
fn a_pool_that_is_damaged_says_so(out: &mut Vec<u8>, cause: &str) -> Result<(), FrameError>
    requires empty { out.old.items ≡ [] }
    requires cause { cause.now ≡ 33 ∷ [] }
    ensures { OnOk result (out.new.items
        ≡ 37 ∷ 0 ∷ 0 ∷ 0 ∷ 1 ∷ 0 ∷ 5 ∷ 0 ∷ 7 ∷ 0 ∷ 0 ∷ 0
        ∷ 2 ∷ 0 ∷ 0 ∷ 0 ∷ 0 ∷ 0 ∷ 0 ∷ 0 ∷ 0 ∷ 1 ∷ 0 ∷ 0 ∷ 0 ∷ 0 ∷ 0 ∷ 0
        ∷ 0 ∷ 0 ∷ 0 ∷ 0 ∷ 1 ∷ 0 ∷ 0 ∷ 0 ∷ 33 ∷ []) }
{
    let damaged = PoolError::Damaged {
        kind: 2,
        address: 256,
    };
    encode_unopened(out, Some(damaged), 0, cause)
}
