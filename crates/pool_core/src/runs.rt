//! Steps as values, one after another.

ghost use Rattle.std.specs.Prelude.{◌≡◌, IfErr, IfOk, IsTrue, OnErr, vec_len};
ghost use Rattle.base.specs.steps.Runs as runs;
ghost use Rattle.base.specs.steps.Runs.{Run};
ghost use Rattle.pool_core.specs.Calls.{CallsDevice, answer_in, counted_in_turn};
ghost use Rattle.pool_core.specs.ExplainedRuns.{RunsOn};
ghost use Rattle.pool_tables.specs.Told.{Leads};
ghost use Rattle.pool_core.specs.Holds.{HoldsOn};
ghost use Rattle.pool_core.specs.KeptSafe.{KeepsSafe, SafeOn};
ghost use Rattle.pool_tables.specs.Progresses.{plain_progress};
ghost use Rattle.pool_core.specs.States.{CountsRefused, refused_calls, shown, told};
ghost use Rattle.pool_core.specs.StepReplies.{StepReplies};
ghost use Rattle.pool_core.specs.Turns.{MakesStep, Turns};

use crate::calls::{
    Abort, Begin, Change, CloseGroup, Commit, Digest, Durable, Length, Lock, LockAppend, LogFlush,
    LogWrite, MarkQuiesced, Name, PoolCall, Read, ReadStatus, StartSync, SyncStep, Unlock,
};
use crate::state::PoolState;
use base::{PoolError, Reply, Step};
use device_model::SectorDevice;
use pool_tables::Progress;

impl<D: SectorDevice> PoolState<D> {
    /// Makes one step. Three steps make one device call: that of a sync makes the next call of its sync, a log write
    /// writes a block, and a log flush flushes. A read, a digest and the start of a sync read the tree blocks that
    /// they need. The others make no call.
    ///
    /// Over a device that keeps the model it keeps the crash rule, whatever the device answers: from each past with
    /// which a crash leaves a cut of the entries, at each moment of the step and after it a crash still does. What the
    /// crash rule comes to is a law, `kept_pools_are_explained`: the past explains all that is shown, and what each
    /// crash leaves.
    pub fn step(&mut self, step: Step) -> Reply
        ensures replied { StepReplies step result (shown self.old) (shown self.new) }
        ensures turns { Turns step result self.old self.new }
        ensures leads { IsTrue D.keeps_model → Leads result (told self.old) (told self.new) }
        ensures safe { IsTrue D.keeps_model → KeepsSafe step result self.old self.new }
        ensures calls { CallsDevice step result self.old self.new }
        ensures count { CountsRefused (answer_in result) self.old self.new }
    {
        match step.make(self) {
            Ok(reply) => reply,
            Err(error) => Reply::Refused(error),
        }
    }
}

impl<D: SectorDevice> PoolCall<D> for Step {
    type Answer = Reply;

    ghost step = { λ s. s };

    ghost reply = { λ r. r };

    fn make(self, state: &mut PoolState<D>) -> Result<Reply, PoolError> {
        match self {
            Step::Lock(owner, object, range, mode) => Lock {
                owner,
                object,
                range,
                mode,
            }
            .make(state)
            .map(Reply::Locked),
            Step::LockAppend(owner, object) => LockAppend { owner, object }
                .make(state)
                .map(|(id, range)| Reply::Appended(id, range)),
            Step::Unlock(owner, id) => Unlock { owner, id }.make(state).map(|()| Reply::Done),
            Step::Begin(owner, plan) => Begin { owner, plan: &plan }
                .make(state)
                .map(|(tx, group)| Reply::Began(tx, group)),
            Step::Commit(tx, ops) => Commit { tx, ops }.make(state).map(Reply::Committed),
            Step::Abort(tx) => Abort { tx }.make(state).map(|()| Reply::Done),
            Step::Read(owner, object, range) => Read {
                owner,
                object,
                range,
            }
            .make(state)
            .map(Reply::Bytes),
            Step::Length(object) => Length { object }.make(state).map(Reply::Length),
            Step::Digest => Digest.make(state).map(Reply::Digest),
            Step::Name => Name.make(state).map(Reply::Name),
            Step::Status => ReadStatus.make(state).map(Reply::Status),
            Step::CloseGroup => CloseGroup.make(state).map(Reply::Opened),
            Step::MarkQuiesced => MarkQuiesced.make(state).map(Reply::Quiesced),
            Step::StartSync(moment) => StartSync { moment }.make(state).map(Reply::Syncing),
            Step::SyncStep => SyncStep.make(state).map(progress_reply),
            Step::LogWrite => LogWrite.make(state).map(Reply::Logged),
            Step::LogFlush => LogFlush.make(state).map(|()| Reply::Flushed),
            Step::Durable(receipt) => Durable { receipt }.make(state).map(Reply::Durable),
        }
    }

    fn change(reply: &Reply) -> Option<Change> {
        match reply {
            // an unlock or an abort
            Reply::Done => Some(Change::Released),
            Reply::Committed(_) => Some(Change::Committed),
            Reply::Opened(group) => Some(Change::Opened(*group)),
            Reply::Quiesced(group) => Some(Change::Quiesced(*group)),
            Reply::Synced(group) => Some(Change::Synced(*group)),
            _ => None,
        }
    }
}

// What a step of a sync answers, as a reply.
fn progress_reply(progress: Progress) -> Reply
    ensures { result ≡ runs.progress_reply (plain_progress progress) }
{
    match progress {
        Progress::More => Reply::More,
        Progress::Synced(group) => Reply::Synced(group),
    }
}

/// Makes steps one after another, and answers each. It takes the room for all replies first, and makes no device call
/// except those of its steps. After each step the past still explains the pool, as the law
/// `kept_pools_are_explained` says.
///
/// # Errors
/// `NoMemory` where there is none for the replies, and then no step was made.
pub fn run<D: SectorDevice>(
    state: &mut PoolState<D>,
    steps: Vec<Step>,
) -> Result<Vec<Reply>, PoolError>
    ensures each { IfOk result (λ replies. vec_len replies ≡ vec_len steps) }
    ensures ran { IfOk result (λ replies.
        Run MakesStep steps.items replies.items state.old state.new) }
    ensures explained { IfOk result (λ replies.
        RunsOn steps.items replies.items (shown state.old) (shown state.new)) }
    ensures held { IsTrue D.keeps_model → IfOk result (λ replies.
        HoldsOn steps.items replies.items (told state.old) (told state.new)) }
    ensures safe { IsTrue D.keeps_model → IfOk result (λ replies.
        SafeOn steps.items replies.items state.old state.new) }
    ensures count { IfOk result (λ replies.
        refused_calls state.new ≡ counted_in_turn replies.items (refused_calls state.old)) }
    ensures refused { IfErr result (λ e. e ≡ PoolError.NoMemory) }
    ensures kept { OnErr result (state.new ≡ state.old) }
{
    let mut replies = Vec::with_capacity(state.alloc(), steps.len())?;
    for step in steps {
        let reply = state.step(step);
        replies.push_reserved(reply);
    }
    Ok(replies)
}
