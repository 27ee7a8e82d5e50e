//! What callers rely on of the frames of an input and their answers.

ghost use Rattle.std.specs.Prelude.{ℕ, ◌≡◌, ◌≢◌, ◌⊎◌, ◌++◌, ◌∷◌, [], All, IfSome, List, Ok, OnErr, OnOk, Result, length};
ghost use Rattle.std.specs.Io.{StartsWith};
ghost use Rattle.base.specs.declared.error.PoolError as error;
ghost use Rattle.base.specs.declared.names.Group as group;
ghost use Rattle.base.specs.declared.names.Receipt as receipt;
ghost use Rattle.device_model.specs.declared.device.SectorDevice as device;
ghost use Rattle.durable_answers.specs.Durability.{durable_receipt};
ghost use Rattle.serving.specs.Calls.{outcome_of};
ghost use Rattle.serving.specs.Inputs.{AnswersFrames, Exchange, IsWhole, answers_of, frames_of, program};
ghost use Rattle.serving.specs.Written.{MayBeAnswered};
ghost use Rattle.frames.specs.Answers.{bytes_of_answers, bytes_of_refused};
ghost use Rattle.frames.specs.Requests.{IsFrameOf};
ghost use Rattle.frames.specs.declared.answer.Answer as answer;
ghost use Rattle.frames.specs.declared.answer.Outcome.TheVariants as outcome;
ghost use Rattle.frames.specs.declared.error.FrameError as refusal;
ghost use Rattle.frames.specs.declared.request.Call.TheVariants as call;
ghost use Rattle.frames.specs.declared.request.Request as request;
ghost use Rattle.pool_threads.specs.declared.handle.Handle as handles;
ghost use Rattle.pool_threads.specs.Answers.{Sees};
ghost use Rattle.pool_threads.specs.Transacts.{TransactsOrLacks};
ghost use Rattle.pool_threads.specs.Waits.{LeavesDurable, SyncsPool};
ghost use Rattle.records.specs.declared.record.Record as logged;

use crate::answering::answer_frame;
use crate::inputs::{Ending, serve};
use crate::sink::{AnswerSink, AnswerWriter};
use base::{Owner, PoolError};
use device_model::{MemDevice, SectorDevice};
use frames::{FrameError, frames_agree};
use pool_threads::Handle;
use std::alloc::Global;
use std::io::{self, Read};
use std::sync::Wait;

// Bytes that no requests are spelled by are answered by a refusal, and the handle has done nothing.
fn a_malformed_frame_changes_nothing<D: SectorDevice, W: Wait>(
    rt: &W,
    alloc: Global,
    handle: &mut Handle<'_, D>,
    bytes: &[u8],
    out: &mut Vec<u8>,
) -> Result<(), FrameError>
    requires { (requests : List request.Request) → IsFrameOf bytes.now requests → ⊥ }
    ensures unchanged { handle.new ≡ handle.old }
    ensures refused { OnOk result ((e : refusal.FrameError)
        × (out.new.items ≡ out.old.items ++ bytes_of_refused e)) }
{
    answer_frame(handle, rt, alloc, Owner(1), bytes, out)
}

// A frame that is neither answered nor refused, for want of memory, has changed nothing.
fn a_frame_that_is_not_answered_was_not_made<W: Wait>(
    rt: &W,
    alloc: Global,
    handle: &mut Handle<'_, MemDevice>,
    bytes: &[u8],
    out: &mut Vec<u8>,
) -> Result<(), FrameError>
    ensures { OnErr result (handle.new ≡ handle.old) }
{
    answer_frame(handle, rt, alloc, Owner(1), bytes, out)
}

// If the frame was answered by answers, each that says `MadeDurable` is right: no crash loses that commit.
fn an_answer_of_a_durable_transaction_comes_after_its_flush<D: SectorDevice, W: Wait>(
    rt: &W,
    alloc: Global,
    handle: &mut Handle<'_, D>,
    bytes: &[u8],
    out: &mut Vec<u8>,
) -> Result<(), FrameError>
    ensures { OnOk result (((e : refusal.FrameError)
        × (out.new.items ≡ out.old.items ++ bytes_of_refused e))
        ⊎ ((answers : List answer.Answer)
        × (out.new.items ≡ out.old.items ++ bytes_of_answers answers)
        × All (λ a. IfSome (durable_receipt a.outcome)
        (λ r. Sees (LeavesDurable r) handle.old handle.new)) answers)) }
{
    answer_frame(handle, rt, alloc, Owner(1), bytes, out)
}

// The first is made before the second, each with a result of its own, and both results are answered in that order. Or
// there was no memory, and neither is made.
fn two_transactions_of_a_frame_are_made_in_order<D: SectorDevice, W: Wait>(
    rt: &W,
    alloc: Global,
    handle: &mut Handle<'_, D>,
    bytes: &[u8],
    out: &mut Vec<u8>,
) -> Result<(), FrameError>
    ensures { (a b : logged.Record) → IsFrameOf bytes.now
        (record { number = 1; call = call.Transact a }
        ∷ record { number = 2; call = call.Transact b } ∷ [])
        → (handle.new ≡ handle.old)
        ⊎ ((first second : Result receipt.Receipt error.PoolError) × (next : handles.Handle _ _)
        × TransactsOrLacks (record { 0 = 1 }) a.ops first handle.old next
        × TransactsOrLacks (record { 0 = 1 }) b.ops second next handle.new
        × OnOk result (out.new.items ≡ out.old.items ++ bytes_of_answers
        (record { number = 1; outcome = outcome_of outcome.Transacted first }
        ∷ record { number = 2; outcome = outcome_of outcome.Transacted second } ∷ []))) }
{
    frames_agree();
    answer_frame(handle, rt, alloc, Owner(1), bytes, out)
}

// The handle answered frames, and then it synced the pool. It made no other steps.
fn a_serve_only_answers_frames_and_syncs<D: SectorDevice, W: Wait, R: Read, S: AnswerSink>(
    rt: &W,
    alloc: Global,
    handle: &mut Handle<'_, D>,
    input: &mut R,
    output: &mut S,
) -> Result<Ending, PoolError>
    ensures { (exchanges : List Exchange) × (served : handles.Handle _ _)
        × (synced : Result group.Group error.PoolError)
        × AnswersFrames program exchanges handle.old served
        × SyncsPool synced served handle.new }
{
    serve(handle, rt, alloc, input, output)
}

// An input of three bytes has no whole frame, so the handle only syncs the pool.
fn a_frame_that_is_cut_off_is_not_made<D: SectorDevice, W: Wait, S: AnswerSink>(
    rt: &W,
    alloc: Global,
    handle: &mut Handle<'_, D>,
    input: &mut &[u8],
    output: &mut S,
) -> Result<Ending, PoolError>
    ensures { length input.old.now ≡ 3 → (synced : Result group.Group error.PoolError)
        × SyncsPool synced handle.old handle.new }
{
    serve(handle, rt, alloc, input, output)
}

// An input of known bytes that ended after a whole frame is those frames, each of which says its own length, and the
// output got the answers to them.
fn a_serve_that_ends_well_answered_all_of_its_input<D: SectorDevice, W: Wait>(
    rt: &W,
    alloc: Global,
    handle: &mut Handle<'_, D>,
    input: &mut &[u8],
    output: &mut AnswerWriter<Vec<u8>>,
) -> Result<Ending, PoolError>
    ensures { result ≡ Ok Ending.Done → (exchanges : List Exchange)
        × All (λ x. IsWhole x.frame) exchanges × (frames_of exchanges ≡ input.old.now)
        × (output.new.output.items ≡ output.old.output.items ++ answers_of exchanges) }
{
    serve(handle, rt, alloc, input, output)
}

// Whatever ends a serve, also a refused sync: what the output got is a front of the answers to frames of the input.
fn a_serve_writes_nothing_but_answers<D: SectorDevice, W: Wait>(
    rt: &W,
    alloc: Global,
    handle: &mut Handle<'_, D>,
    input: &mut &[u8],
    output: &mut AnswerWriter<Vec<u8>>,
) -> Result<Ending, PoolError>
    ensures { (exchanges : List Exchange) × (front : List ℕ)
        × StartsWith input.old.now (frames_of exchanges)
        × (output.new.output.items ≡ output.old.output.items ++ front)
        × StartsWith (answers_of exchanges) front }
{
    serve(handle, rt, alloc, input, output)
}

// An input without a byte is never said to end within a frame.
fn an_input_without_bytes_is_not_cut_off<D: SectorDevice, W: Wait, S: AnswerSink>(
    rt: &W,
    alloc: Global,
    handle: &mut Handle<'_, D>,
    input: &mut &[u8],
    output: &mut S,
) -> Result<Ending, PoolError>
    requires { input.old.now ≡ [] }
    ensures { result ≢ Ok Ending.CutOff }
{
    serve(handle, rt, alloc, input, output)
}

// What is handed to a writer of answers is appended to what it holds.
fn an_answer_is_appended<D: SectorDevice>(
    handle: &Handle<'_, D>,
    output: &mut AnswerWriter<Vec<u8>>,
    answer: &[u8],
) -> io::Result<()>
    requires { MayBeAnswered handle.now answer.now }
    ensures { OnOk result (output.new.output.items ≡ output.old.output.items ++ answer.now) }
{
    output.put(handle, answer)
}
