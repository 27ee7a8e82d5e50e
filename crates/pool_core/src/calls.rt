//! Calls on a pool as values, each with an answer of its own type.
//!
//! A `PoolCall` makes one step, and says which one and what its answer is as a reply. So whoever makes steps for
//! others, as a handle does under a lock, is written once for all calls. `Step` is a call too, for scripts and runs. A
//! new step costs its call here, an arm of `Step`'s in `runs.rt`, and nothing above.

ghost use Rattle.base.specs.declared.step.Reply.{Reply};
ghost use Rattle.base.specs.declared.step.Reply.TheVariants as reply;
ghost use Rattle.base.specs.declared.step.Step.{Step};
ghost use Rattle.base.specs.declared.step.Step.TheVariants as step;
ghost use Rattle.base.specs.steps.Runs as runs;
ghost use Rattle.base.specs.steps.Runs.{reply_of};
ghost use Rattle.pool_core.specs.Turns.{MakesStep};
ghost use Rattle.pool_tables.specs.Progresses.{plain_progress};

use crate::state::PoolState;
use base::{
    Bytes, Group, LockId, Mode, ObjectId, Ops, Owner, Plan, PoolError, PoolName, Range, Receipt,
    Status, TxId,
};
use device_model::SectorDevice;
use pool_tables::Progress;

/// A call on a pool: one step, with an answer of its own type.
pub trait PoolCall<D: SectorDevice> {
    /// What it returns if it is not refused.
    type Answer: Drop;

    /// The step that it makes.
    ghost step: { Self → Step };

    /// The reply of a step with this answer.
    ghost reply: { Self.Answer → Reply };

    /// Makes the step, with the refusals of the call of `PoolState` that it is named after.
    fn make(self, state: &mut PoolState<D>) -> Result<Self::Answer, PoolError>
        ensures { MakesStep (step self) (reply_of reply result) state.old state.new };

    /// What a step with this answer changed that another thread may wait for. No clause rests on it.
    fn change(_answer: &Self::Answer) -> Option<Change> {
        None
    }
}

/// What a step changed that another thread may wait for.
#[derive(Clone, Copy)]
pub enum Change {
    /// A lock was released. A lock that was refused `Busy` may pass.
    Unlocked,
    /// A transaction was committed. Its group may be quiescent.
    Committed,
    /// A transaction was given up, and what its group was charged for it: its group may be quiescent, and a `begin`
    /// that was refused `Throttled` may pass. Or a lock was released.
    Released,
    /// A group was closed, and this one was opened.
    Opened(Group),
    /// This group was marked as quiesced. Its sync may start.
    Quiesced(Group),
    /// This group was synced, and is charged nothing any more. A `begin` that was refused `Throttled` may pass.
    Synced(Group),
}

/// `PoolState::lock` as a value.
#[derive(Clone, Copy)]
pub struct Lock {
    /// Who gets the lock.
    pub owner: Owner,
    /// The object, or the number after the last object, which stands for the pool's name.
    pub object: ObjectId,
    /// The bytes.
    pub range: Range,
    /// Whether readers may share it.
    pub mode: Mode,
}

impl<D: SectorDevice> PoolCall<D> for Lock {
    type Answer = LockId;

    ghost step = { λ c. step.Lock c.owner c.object c.range c.mode };

    ghost reply = { λ id. reply.Locked id };

    fn make(self, state: &mut PoolState<D>) -> Result<LockId, PoolError> {
        state.lock(self.owner, self.object, self.range, self.mode)
    }
}

/// `PoolState::lock_append` as a value.
#[derive(Clone, Copy)]
pub struct LockAppend {
    /// Who gets the lock.
    pub owner: Owner,
    /// The object.
    pub object: ObjectId,
}

impl<D: SectorDevice> PoolCall<D> for LockAppend {
    type Answer = (LockId, Range);

    ghost step = { λ c. step.LockAppend c.owner c.object };

    ghost reply = { λ a. reply.Appended a.0 a.1 };

    fn make(self, state: &mut PoolState<D>) -> Result<(LockId, Range), PoolError> {
        state.lock_append(self.owner, self.object)
    }
}

/// `PoolState::unlock` as a value.
#[derive(Clone, Copy)]
pub struct Unlock {
    /// Who has the lock.
    pub owner: Owner,
    /// The lock.
    pub id: LockId,
}

impl<D: SectorDevice> PoolCall<D> for Unlock {
    type Answer = ();

    ghost step = { λ c. step.Unlock c.owner c.id };

    ghost reply = { λ _. reply.Done };

    fn make(self, state: &mut PoolState<D>) -> Result<(), PoolError> {
        state.unlock(self.owner, self.id)
    }

    fn change(_answer: &()) -> Option<Change> {
        Some(Change::Unlocked)
    }
}

/// `PoolState::begin` as a value. The plan stays the caller's, so the call can be made again.
#[derive(Clone, Copy)]
pub struct Begin<'a> {
    /// Who begins the transaction.
    pub owner: Owner,
    /// The shapes of its operations.
    pub plan: &'a Plan,
}

impl<'a, D: SectorDevice> PoolCall<D> for Begin<'a> {
    type Answer = (TxId, Group);

    ghost step = { λ c. step.Begin c.owner c.plan.now };

    ghost reply = { λ a. reply.Began a.0 a.1 };

    fn make(self, state: &mut PoolState<D>) -> Result<(TxId, Group), PoolError> {
        state.begin(self.owner, self.plan)
    }
}

/// `PoolState::commit` as a value.
#[derive(Drop)]
pub struct Commit {
    /// The transaction.
    pub tx: TxId,
    /// Its operations.
    pub ops: Ops,
}

impl<D: SectorDevice> PoolCall<D> for Commit {
    type Answer = Receipt;

    ghost step = { λ c. step.Commit c.tx c.ops };

    ghost reply = { λ r. reply.Committed r };

    fn make(self, state: &mut PoolState<D>) -> Result<Receipt, PoolError> {
        state.commit(self.tx, self.ops)
    }

    fn change(_answer: &Receipt) -> Option<Change> {
        Some(Change::Committed)
    }
}

/// `PoolState::abort` as a value.
#[derive(Clone, Copy)]
pub struct Abort {
    /// The transaction.
    pub tx: TxId,
}

impl<D: SectorDevice> PoolCall<D> for Abort {
    type Answer = ();

    ghost step = { λ c. step.Abort c.tx };

    ghost reply = { λ _. reply.Done };

    fn make(self, state: &mut PoolState<D>) -> Result<(), PoolError> {
        state.abort(self.tx)
    }

    fn change(_answer: &()) -> Option<Change> {
        Some(Change::Released)
    }
}

/// `PoolState::read` as a value.
#[derive(Clone, Copy)]
pub struct Read {
    /// Who has a lock that covers the range.
    pub owner: Owner,
    /// The object.
    pub object: ObjectId,
    /// The bytes.
    pub range: Range,
}

impl<D: SectorDevice> PoolCall<D> for Read {
    type Answer = Bytes;

    ghost step = { λ c. step.Read c.owner c.object c.range };

    ghost reply = { λ b. reply.Bytes b };

    fn make(self, state: &mut PoolState<D>) -> Result<Bytes, PoolError> {
        state.read(self.owner, self.object, self.range)
    }
}

/// `PoolState::length` as a value.
#[derive(Clone, Copy)]
pub struct Length {
    /// The object.
    pub object: ObjectId,
}

impl<D: SectorDevice> PoolCall<D> for Length {
    type Answer = u64;

    ghost step = { λ c. step.Length c.object };

    ghost reply = { λ n. reply.Length n };

    fn make(self, state: &mut PoolState<D>) -> Result<u64, PoolError> {
        state.length(self.object)
    }
}

/// `PoolState::digest` as a value.
#[derive(Clone, Copy)]
pub struct Digest;

impl<D: SectorDevice> PoolCall<D> for Digest {
    type Answer = [u8; 32];

    ghost step = { λ c. step.Digest };

    ghost reply = { λ d. reply.Digest d };

    fn make(self, state: &mut PoolState<D>) -> Result<[u8; 32], PoolError> {
        state.digest()
    }
}

/// `PoolState::name` as a value. It is never refused.
#[derive(Clone, Copy)]
pub struct Name;

impl<D: SectorDevice> PoolCall<D> for Name {
    type Answer = PoolName;

    ghost step = { λ c. step.Name };

    ghost reply = { λ n. reply.Name n };

    fn make(self, state: &mut PoolState<D>) -> Result<PoolName, PoolError> {
        Ok(state.name())
    }
}

/// `PoolState::status` as a value. It is never refused.
#[derive(Clone, Copy)]
pub struct ReadStatus;

impl<D: SectorDevice> PoolCall<D> for ReadStatus {
    type Answer = Status;

    ghost step = { λ c. step.Status };

    ghost reply = { λ s. reply.Status s };

    fn make(self, state: &mut PoolState<D>) -> Result<Status, PoolError> {
        Ok(state.status())
    }
}

/// `PoolState::durable` as a value. It is never refused.
#[derive(Clone, Copy)]
pub struct Durable {
    /// What the commit returned.
    pub receipt: Receipt,
}

impl<D: SectorDevice> PoolCall<D> for Durable {
    type Answer = bool;

    ghost step = { λ c. step.Durable c.receipt };

    ghost reply = { λ durable. reply.Durable durable };

    fn make(self, state: &mut PoolState<D>) -> Result<bool, PoolError> {
        Ok(state.durable(self.receipt))
    }
}

/// `PoolState::log_write` as a value.
#[derive(Clone, Copy)]
pub struct LogWrite;

impl<D: SectorDevice> PoolCall<D> for LogWrite {
    type Answer = u64;

    ghost step = { λ c. step.LogWrite };

    ghost reply = { λ count. reply.Logged count };

    fn make(self, state: &mut PoolState<D>) -> Result<u64, PoolError> {
        state.log_write()
    }
}

/// `PoolState::log_flush` as a value.
#[derive(Clone, Copy)]
pub struct LogFlush;

impl<D: SectorDevice> PoolCall<D> for LogFlush {
    type Answer = ();

    ghost step = { λ c. step.LogFlush };

    ghost reply = { λ _. reply.Flushed };

    fn make(self, state: &mut PoolState<D>) -> Result<(), PoolError> {
        state.log_flush()
    }
}

/// `PoolState::close_group` as a value.
#[derive(Clone, Copy)]
pub struct CloseGroup;

impl<D: SectorDevice> PoolCall<D> for CloseGroup {
    type Answer = Group;

    ghost step = { λ c. step.CloseGroup };

    ghost reply = { λ g. reply.Opened g };

    fn make(self, state: &mut PoolState<D>) -> Result<Group, PoolError> {
        state.close_group()
    }

    fn change(opened: &Group) -> Option<Change> {
        Some(Change::Opened(*opened))
    }
}

/// `PoolState::mark_quiesced` as a value.
#[derive(Clone, Copy)]
pub struct MarkQuiesced;

impl<D: SectorDevice> PoolCall<D> for MarkQuiesced {
    type Answer = Group;

    ghost step = { λ c. step.MarkQuiesced };

    ghost reply = { λ g. reply.Quiesced g };

    fn make(self, state: &mut PoolState<D>) -> Result<Group, PoolError> {
        state.mark_quiesced()
    }

    fn change(quiesced: &Group) -> Option<Change> {
        Some(Change::Quiesced(*quiesced))
    }
}

/// `PoolState::start_sync` as a value.
#[derive(Clone, Copy)]
pub struct StartSync {
    /// The moment in seconds that the group's uberblocks get.
    pub moment: u64,
}

impl<D: SectorDevice> PoolCall<D> for StartSync {
    type Answer = Group;

    ghost step = { λ c. step.StartSync c.moment };

    ghost reply = { λ g. reply.Syncing g };

    fn make(self, state: &mut PoolState<D>) -> Result<Group, PoolError> {
        state.start_sync(self.moment)
    }
}

/// `PoolState::sync_step` as a value.
#[derive(Clone, Copy)]
pub struct SyncStep;

impl<D: SectorDevice> PoolCall<D> for SyncStep {
    type Answer = Progress;

    ghost step = { λ c. step.SyncStep };

    ghost reply = { λ p. runs.progress_reply (plain_progress p) };

    fn make(self, state: &mut PoolState<D>) -> Result<Progress, PoolError> {
        state.sync_step()
    }

    fn change(answer: &Progress) -> Option<Change> {
        match answer {
            Progress::More => None,
            Progress::Synced(group) => Some(Change::Synced(*group)),
        }
    }
}
