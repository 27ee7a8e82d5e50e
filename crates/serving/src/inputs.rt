//! The frames of an input, one after another, each answered before the next is read.

ghost use Rattle.std.specs.Prelude.{ℕ, ◌≡◌, ◌≢◌, ◌≤◌, ◌<◌, ◌+◌, ◌⊎◌, ◌++◌, List, Result, Err, IfErr, IfOk, IfSome, IsOk, OnErr, OnOk, drop, length, take, true, false};
ghost use Rattle.std.specs.Int.{from_le_bytes, w32};
ghost use Rattle.std.specs.Io.KnownBytes.{Consumes, IsAtEnd, Keeps};
ghost use Rattle.base.specs.declared.error.PoolError as declared_error;
ghost use Rattle.base.specs.declared.names.Group as group;
ghost use Rattle.serving.specs.Inputs.{AnswersFrames, BeginsWithFrames, EndsWell, Exchange, GoesOnWell, IsBadLength, IsWhole, ReadsFrame, ServesFrames, program};
ghost use Rattle.frames.specs.Limits.{frame_head, max_frame};

use crate::answering::answer_frame;
use crate::sink::AnswerSink;
use base::{Owner, PoolError};
use device_model::SectorDevice;
use frames::{FRAME_HEAD, MAX_FRAME};
use pool_threads::Handle;
use std::alloc::Global;
use std::io::{self, ErrorKind, Read};
use std::sync::Wait;

/// The bytes of a frame's length.
const LENGTH_SIZE: usize = 4;

/// The owner of the transactions and the reads that frames ask for.
const PROGRAM: Owner = Owner(1);

/// How the frames of an input ended.
#[derive(Clone, Copy)]
pub enum Ending {
    /// The input ended after a whole frame, or after none.
    Done,
    /// The input ended within a frame, or a frame had no length that a frame may have. Nothing after it was read.
    CutOff,
    /// The input could not be read.
    ReadFailed,
    /// The output could not be written.
    WriteFailed,
    /// There was no memory for a frame or its answer.
    NoMemory,
}

/// Answers all frames of the input, until it ends. Then it syncs the pool.
///
/// The handle makes no other steps. Only frames that stand whole in the input are made, from its beginning and in
/// order, however the input ends. What the output gets is a front of their answers, and all of them unless the output
/// fails or there is no memory.
///
/// A frame that is none is answered by its refusal, and the next one is read. After one whose length can't be a frame's
/// nothing more is read, since nobody knows where the next begins.
///
/// # Errors
///
/// Those of `Handle::sync_pool` at the end.
pub fn serve<'a, 'b, 'p, D: SectorDevice, W: Wait, R: Read, S: AnswerSink>(
    handle: &'a mut Handle<'p, D>,
    rt: &'b W,
    alloc: Global,
    input: &mut R,
    output: &mut S,
) -> Result<Ending, PoolError>
    ensures served { (ending : Ending) × (exchanges : List Exchange)
        × (synced : Result group.Group declared_error.PoolError)
        × ServesFrames program exchanges synced handle.old handle.new
        × BeginsWithFrames exchanges (R.remaining input.old)
        × EndsWell ending exchanges
        (record { input = R.remaining input.old; output = S.contents output.old })
        (record { input = R.remaining input.new; output = S.contents output.new })
        × IfOk result (λ e. (e ≡ ending) × IsOk synced) × IfErr result (λ e. synced ≡ Err e) }
{
    let ending = answer_all(handle, rt, alloc, input, output);
    match handle.sync_pool(rt) {
        Ok(_) => Ok(ending),
        Err(error) => Err(error),
    }
}

/// Answers all frames of the input, until it ends.
fn answer_all<'a, 'b, 'p, D: SectorDevice, W: Wait, R: Read, S: AnswerSink>(
    handle: &'a mut Handle<'p, D>,
    rt: &'b W,
    alloc: Global,
    input: &mut R,
    output: &mut S,
) -> Ending
    ensures { (exchanges : List Exchange) × AnswersFrames program exchanges handle.old handle.new
        × BeginsWithFrames exchanges (R.remaining input.old)
        × EndsWell result exchanges
        (record { input = R.remaining input.old; output = S.contents output.old })
        (record { input = R.remaining input.new; output = S.contents output.new }) }
{
    let mut frame = Vec::new(alloc);
    let mut answer = Vec::new(alloc);
    for _ in rt.forever() {
        match answer_next(handle, rt, alloc, input, output, &mut frame, &mut answer) {
            Ok(()) => {}
            Err(ending) => return ending,
        }
    }
    unreachable!()
}

/// Reads the next frame and answers it. The lists of bytes are its room.
fn answer_next<'a, 'b, 'p, D: SectorDevice, W: Wait, R: Read, S: AnswerSink>(
    handle: &'a mut Handle<'p, D>,
    rt: &'b W,
    alloc: Global,
    input: &mut R,
    output: &mut S,
    frame: &mut Vec<u8>,
    answer: &mut Vec<u8>,
) -> Result<(), Ending>
    ensures { (exchanges : List Exchange) × AnswersFrames program exchanges handle.old handle.new
        × BeginsWithFrames exchanges (R.remaining input.old)
        × GoesOnWell result exchanges
        (record { input = R.remaining input.old; output = S.contents output.old })
        (record { input = R.remaining input.new; output = S.contents output.new }) }
{
    match read_frame(rt, input, frame) {
        Ok(()) => {}
        Err(ending) => return Err(ending),
    }
    answer.clear();
    match answer_frame(handle, rt, alloc, PROGRAM, frame.as_slice(), answer) {
        Ok(()) => {}
        Err(_) => return Err(Ending::NoMemory),
    }
    match output.put(handle, answer.as_slice()) {
        Ok(()) => {}
        Err(_) => return Err(Ending::WriteFailed),
    }
    if frame.len() == LENGTH_SIZE {
        return Err(Ending::CutOff);
    }
    Ok(())
}

/// Reads a frame in place of the bytes that there were. If its length can't be a frame's, these four bytes are all:
/// they are refused `CutOff`, as bytes that end within the head of a frame.
fn read_frame<W: Wait, R: Read>(rt: &W, input: &mut R, frame: &mut Vec<u8>) -> Result<(), Ending>
    ensures reads { ReadsFrame result frame.new.items
        (R.remaining input.old) (R.remaining input.new) }
    ensures whole { OnOk result (IsBadLength frame.new.items ⊎ IsWhole frame.new.items) }
{
    frame.clear();
    let mut length = [0; LENGTH_SIZE];
    match read_length(rt, input, &mut length) {
        Ok(()) => {}
        Err(ending) => return Err(ending),
    }
    match frame.extend_from_slice(&length) {
        Ok(()) => {}
        Err(_) => return Err(Ending::NoMemory),
    }
    let size = u32::from_le_bytes(length);
    if !is_size(size) {
        return Ok(());
    }
    match frame.resize(size as usize, 0) {
        Ok(()) => {}
        Err(_) => return Err(Ending::NoMemory),
    }
    read_rest(rt, input, frame)
}

/// Whether a frame may have this length.
fn is_size(size: u32) -> bool
    ensures allowed { result ≡ true → (frame_head ≤ size) × (size ≤ max_frame) }
    ensures bad { result ≡ false → (size < frame_head) ⊎ (max_frame < size) }
{
    size >= FRAME_HEAD as u32 && u64::from(size) <= MAX_FRAME
}

/// Reads the length of a frame.
fn read_length<W: Wait, R: Read>(
    rt: &W,
    input: &mut R,
    length: &mut [u8; LENGTH_SIZE],
) -> Result<(), Ending>
    ensures { ReadsFrame result length.new (R.remaining input.old) (R.remaining input.new) }
{
    match read_up_to(rt, input, length) {
        Ok(0) => Err(Ending::Done),
        Ok(LENGTH_SIZE) => Ok(()),
        Ok(_) => Err(Ending::CutOff),
        Err(_) => Err(Ending::ReadFailed),
    }
}

/// Reads what follows the length of a frame.
fn read_rest<W: Wait, R: Read>(rt: &W, input: &mut R, frame: &mut Vec<u8>) -> Result<(), Ending>
    requires { 4 ≤ length frame.old.items }
    ensures reads { OnOk result ((rest : List ℕ)
        × (frame.new.items ≡ take 4 frame.old.items ++ rest)
        × Consumes (R.remaining input.old) (R.remaining input.new) rest) }
    ensures cut_off { result ≡ Err Ending.CutOff → IfSome (R.remaining input.old)
        (λ bytes. length bytes + 4 < length frame.old.items) }
    ensures begun { result ≢ Err Ending.Done }
    ensures size { length frame.new.items ≡ length frame.old.items }
{
    let rest = &mut frame.as_mut_slice()[LENGTH_SIZE..];
    let size = rest.len();
    match read_up_to(rt, input, rest) {
        Ok(count) if count == size => Ok(()),
        Ok(_) => Err(Ending::CutOff),
        Err(_) => Err(Ending::ReadFailed),
    }
}

/// Reads until the bytes are full or the input has ended: how many were read.
fn read_up_to<W: Wait, R: Read>(rt: &W, input: &mut R, into: &mut [u8]) -> io::Result<usize>
    ensures most { IfOk result (λ count. count ≤ length into.new) }
    ensures reads { IfOk result (λ count. Consumes (R.remaining input.old)
        (R.remaining input.new) (take count into.new)) }
    ensures ended { IfOk result
        (λ count. count < length into.new → IsAtEnd (R.remaining input.new)) }
    ensures size { length into.new ≡ length into.old }
{
    let mut at = 0;
    while at < into.len() {
        match read_some(rt, input, &mut into[at..]) {
            Ok(0) => return Ok(at),
            Ok(count) => at += count,
            Err(error) => return Err(error),
        }
    }
    Ok(at)
}

/// One read, which is made again if a signal interrupts it.
fn read_some<W: Wait, R: Read>(rt: &W, input: &mut R, into: &mut [u8]) -> io::Result<usize>
    ensures most { IfOk result (λ count. count ≤ length into.new) }
    ensures reads { IfOk result (λ count. Consumes (R.remaining input.old)
        (R.remaining input.new) (take count into.new)) }
    ensures ended { IfOk result
        (λ count. count ≡ 0 → 0 < length into.old → IsAtEnd (R.remaining input.new)) }
    ensures size { length into.new ≡ length into.old }
{
    for _ in rt.forever() {
        match input.read(into) {
            Ok(count) => return Ok(count),
            Err(error) => {
                if error.kind() != ErrorKind::Interrupted {
                    return Err(error);
                }
            }
        }
    }
    unreachable!()
}
