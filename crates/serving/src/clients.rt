//! What callers rely on of the command that serves a pool.

mod answers;

ghost use Rattle.std.specs.Prelude.{ℕ, ◌≡◌, ◌++◌, Bool, IfSome, IsSomeAnd, IsTrue, List, None, Ok, Some, false, get_or, slice_get, true};
ghost use Rattle.std.specs.Io.{StartsWith};
ghost use Rattle.base.specs.declared.names.Group as group;
ghost use Rattle.base.specs.disk.Fairness.{LeavesFairNow};
ghost use Rattle.base.specs.history.Contents.{Contents};
ghost use Rattle.base.specs.history.History.{Entry, kept, replay};
ghost use Rattle.base.specs.history.Past.{Past};
ghost use Rattle.base.specs.kept.LeftDisks.{IsLeft};
ghost use Rattle.base.specs.steps.Explains.{IsLeftBy};
ghost use Rattle.base.specs.tree.Mount.{MountsTo};
ghost use Rattle.serving.specs.Inputs.{AnswersFrames, Exchange, answers_of, frames_of, program};
ghost use Rattle.serving.specs.Serving.{opening_of};
ghost use Rattle.frames.specs.Openings.{bytes_of_opening, bytes_of_unopened};
ghost use Rattle.pool_threads.specs.Answers.{state_seen};
ghost use Rattle.pool_threads.specs.Handles.{IsNewHandle, OpensBehind, moment_in, opened_in, opening_view, shared_of};
ghost use Rattle.pool_threads.specs.Waits.{SyncsPool};
ghost use Rattle.pool_threads.specs.declared.handle.Handle as handles;
ghost use Rattle.pool_threads.specs.declared.pool.Pool as pools;

use crate::serving::{report_terminal, run_serve, serve_on};
use command_arguments::{ServeArguments, Verbosity};
use device_model::{MemDevice, SectorDevice};
use file_devices::FileRefusal;
use read_commands::NotesRefusals;
use std::io::Write;
use std::sync::Wait;
use std::thread::Threads;

const BRIEF: Verbosity = Verbosity::Quiet;

// A mebibyte of unsynced transactions, and a mebibyte of tree blocks.
const LIMITED: ServeArguments<'static> = ServeArguments {
    file: "tank.pool",
    dirty_max: 1_048_576,
    cache_blocks: 256,
    moment: 9,
};

// The pool of the device was opened with the limit and the moment. One new handle of it answered frames, then synced
// the pool, and made no other steps. The frames are the bytes of the input. The output got the frame that says that the
// pool is open, and then the answers to them.
fn a_serve_of_status_0_answered_all_of_its_input<
    'a,
    R: Threads + Wait + Sync + AllocGlobal,
    D: SectorDevice + NotesRefusals + Send + Drop,
    E: Write,
>(
    rt: &R,
    device: D,
    input: &'a [u8],
    output: Vec<u8>,
    errors: &mut E,
) -> (u8, Option<(&'a [u8], Vec<u8>)>)
    ensures { result.0 ≡ 0 → (p : pools.Pool _ D.SectorDevice)
        × OpensBehind (IsTrue D.keeps_model) (D.disk device) 1048576 (opening_view (shared_of p))
        × (moment_in (shared_of p) ≡ 9) × (exchanges : List Exchange)
        × (first served last : handles.Handle _ _) × (synced : group.Group)
        × IsNewHandle (shared_of p) first × AnswersFrames program exchanges first served
        × SyncsPool (Ok synced) served last
        × (frames_of exchanges ≡ input.now)
        × IsSomeAnd result.1 (λ kept. kept.1.items ≡ output.items
        ++ bytes_of_opening (opening_of (opened_in p)) ++ answers_of exchanges) }
{
    run_serve(rt, LIMITED, BRIEF, Ok(device), input, output, errors)
}

// Whichever run left the device: the frames were answered by a handle, and all entries that it had seen then are in a run
// that goes on from there. Every image that a crash leaves of the device mounts the replay of some entries, these among
// them.
fn what_was_answered_is_found_after_a_crash<
    'a,
    R: Threads + Wait + Sync + AllocGlobal,
    D: SectorDevice + NotesRefusals + Send + Drop,
    E: Write,
>(
    rt: &R,
    device: D,
    input: &'a [u8],
    output: Vec<u8>,
    errors: &mut E,
) -> (u8, Option<(&'a [u8], Vec<u8>)>, Option<D>)
    ensures { result.0 ≡ 0 → IsTrue D.keeps_model → (past : Past) → IsLeft past (D.disk device)
        → (exchanges : List Exchange) × (first served : handles.Handle _ D.SectorDevice)
        × AnswersFrames program exchanges first served
        × IsSomeAnd result.2 (λ after. ∥ ((later : Past) × IsLeftBy past later.base
        × LeavesFairNow (D.disk after) past.created (λ image. (c : Contents) × MountsTo image c
        × (marks : List Bool) × ((ordinal : ℕ) (e : Entry)
        → slice_get (state_seen served).past.entries ordinal ≡ Some e
        → (slice_get later.entries ordinal ≡ Some e) × (get_or marks ordinal false ≡ true))
        × (replay (kept marks later.entries) later.base ≡ Ok c))) ∥₁) }
{
    serve_on(rt, LIMITED, BRIEF, device, input, output, errors)
}

// A file that can't be used is told by a frame of kind 5 with number 0, or by a front of that; and nothing was read.
fn a_file_that_cannot_be_used_is_told_by_a_frame<
    'a,
    R: Threads + Wait + Sync + AllocGlobal,
    E: Write,
>(
    rt: &R,
    cause: FileRefusal,
    input: &'a [u8],
    output: Vec<u8>,
    errors: &mut E,
) -> (u8, Option<(&'a [u8], Vec<u8>)>)
    ensures { IfSome result.1 (λ kept. (kept.0.now ≡ input.now)
        × (system_error : ℕ) × (words : List ℕ) × (front : List ℕ)
        × (kept.1.items ≡ output.items ++ front)
        × StartsWith (bytes_of_unopened None system_error words) front) }
{
    let opened: Result<MemDevice, FileRefusal> = Err(cause);
    run_serve(rt, LIMITED, BRIEF, opened, input, output, errors)
}

// Nothing was served.
fn frames_are_not_served_to_a_terminal<E: Write>(errors: &mut E) -> u8
    ensures { result ≡ 3 }
{
    report_terminal(errors)
}
