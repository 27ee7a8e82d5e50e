//! What the handles of one pool share.
//!
//! Threads that wait sleep by bells (`bells`), and a call whose step changed something rings once it has freed the
//! pool. Each sleep has an end, so a table that left out a ring would cost time alone:
//!
//! | who sleeps | by which bell | who rings |
//! |---|---|---|
//! | a lock, a `transact` or a `fetch` that is refused `Busy` | `ranges` | an unlock |
//! | a `begin` that is throttled, and a `transact` beside loops | `room` | an abort, the end of a sync, and of a loop |
//! | a sync and the quiescer, while transactions of a closed group are open | `bells.ended` | a commit and an abort |
//! | a `transact` without loops, while such transactions are open | `bells.ended` | the same |
//! | the quiescer else | its own | a `begin` that is throttled |
//! | the syncer | its own | the turn that quiesced a group |
//! | a handle that waits until a commit is durable | that of the rounds (`Flushers`) | the leader of a round |
//! | a leader that waits for other handles | none (`Flushers`) | the last handle that it expects |
//!
//! A `transact` and a `fetch` ring for nobody: no other thread has seen their locks (`one_turn.rt`, `fetch.rt`).
//!
//! A write or a flush that is refused suspends the pool, and rings for all that wait for others' steps.
ghost use Rattle.std.specs.Prelude.{◌≡◌, IfErr, IfOk, IfSome, IsSome};

use crate::handle::{Handle, LastSeen};
use crate::rule::PoolRule;
use base::{PoolError, Reply, Step};
use bells::{Bell, Bells, Flushers, Loop};
use device_model::SectorDevice;
use pool_core::{Change, PoolCall, PoolState};
use std::alloc::Global;
use std::sync::Wait;
use word_lock::WordLock;

/// A pool under its lock, without a source of seats: a handle has no more of its pool than this and its seat, so none
/// of its calls makes a step by a seat of its own.
#[derive(Drop)]
pub(crate) struct Shared<D: SectorDevice> {
    pub(crate) lock: WordLock<Box<PoolState<D>>, PoolRule<D>>,
    pub(crate) alloc: Global,
    pub(crate) moment: u64,
    /// Rung when a range was unlocked.
    pub(crate) ranges: Bell,
    /// Rung when a group is charged less than before.
    pub(crate) room: Bell,
    pub(crate) flushers: Flushers,
    pub(crate) bells: Bells,
}

impl<D: SectorDevice> Shared<D> {
    ghost use Rattle.pool_threads.specs.Handles.{IsBackIn, IsLastState, IsLaterState, WasOf, kin_left};

    pub(crate) fn new(
        lock: WordLock<Box<PoolState<D>>, PoolRule<D>>,
        alloc: Global,
        moment: u64,
    ) -> Shared<D>
        ensures lock { result.lock ≡ lock }
        ensures moment { result.moment ≡ moment }
    {
        Shared {
            lock,
            alloc,
            moment,
            ranges: Bell::new(),
            room: Bell::new(),
            flushers: Flushers::new(),
            bells: Bells::new(),
        }
    }

    /// Rings for those whom a call with this answer may help.
    pub(crate) fn note<C: PoolCall<D>>(&self, answer: &Result<C::Answer, PoolError>) {
        match answer {
            Ok(answer) => self.note_change(C::change(answer)),
            Err(error) => self.note_refusal(*error),
        }
    }

    /// The same after steps of which the last one had this reply.
    pub(crate) fn note_last(&self, reply: &Option<Reply>) {
        match reply {
            None => {}
            Some(Reply::Refused(error)) => self.note_refusal(*error),
            Some(reply) => self.note_change(<Step as PoolCall<D>>::change(reply)),
        }
    }

    fn note_change(&self, change: Option<Change>) {
        match change {
            None => {}
            Some(Change::Unlocked) => self.ranges.ring(),
            Some(Change::Committed) => self.bells.ended.ring(),
            Some(Change::Released) => self.ring_all(),
            Some(Change::Opened(group)) => self.bells.group_opened(group),
            Some(Change::Quiesced(group)) => self.bells.group_quiesced(group),
            Some(Change::Synced(group)) => {
                self.bells.group_synced(group);
                self.room.ring();
            }
        }
    }

    // Those that wait for the steps of others are to meet `Suspended`.
    fn note_refusal(&self, error: PoolError) {
        if error == PoolError::Write || error == PoolError::Flush {
            self.ring_all();
        }
    }

    /// A begin was throttled, before which `room` had this number. It sleeps until `room` is rung, and calls the
    /// quiescer first if it wasn't rung yet.
    pub(crate) fn rest_for_room<W: Wait>(&self, rt: &W, rings: u64) {
        if self.room.rings() == rings {
            self.bells.call_for_close();
            self.room.sleep(rt, rings);
        }
    }

    /// If no step was made, since a transaction of a closed group is open, it sleeps until one has ended. `ended` had
    /// this number before.
    pub(crate) fn rest_unless_made<W: Wait>(&self, rt: &W, reply: &Option<Reply>, ends: u64) {
        if reply.is_none() {
            self.bells.ended.sleep_briefly(rt, ends);
        }
    }

    /// A loop ends. Who waits for room may have to make room.
    pub(crate) fn loop_ends(&self, which: Loop) {
        self.bells.loop_ends(which);
        self.room.ring();
    }

    fn ring_all(&self) {
        self.ranges.ring();
        self.room.ring();
        self.bells.ended.ring();
    }

    /// The loops of the pool are to end. As there is no source of seats here, it makes no step.
    pub(crate) fn stop(&self) {
        self.bells.stop();
    }

    /// A handle that goes on from what one had seen as it left.
    pub(crate) fn handle_after(&self, last: LastSeen<D>) -> Handle<'_, D>
        requires { WasOf self.now last }
        ensures { IsBackIn self.entry.now last result }
    {
        let LastSeen { seat } = last;
        Handle { shared: self, seat }
    }

    /// The state, by steps from the first one.
    pub(crate) fn close(self) -> Option<PoolState<D>>
    where
        D: Drop,
        ensures { IfSome result (λ s. IsLaterState self s) }
    {
        let Shared {
            lock,
            alloc: _,
            moment: _,
            ranges: _,
            room: _,
            flushers: _,
            bells: _,
        } = self;
        match lock.close() {
            Some(held) => Some(Box::into_inner(held)),
            None => None,
        }
    }

    /// The state, by steps that go on from what a handle had seen as it left.
    pub(crate) fn close_after(self, last: LastSeen<D>) -> Option<PoolState<D>>
    where
        D: Drop,
        requires { WasOf self last }
        ensures last { IfSome result (λ s. IsLastState self last s) }
        ensures only { kin_left last ≡ 0 → IsSome result }
    {
        let Shared {
            lock,
            alloc: _,
            moment: _,
            ranges: _,
            room: _,
            flushers: _,
            bells: _,
        } = self;
        let LastSeen { seat } = last;
        match lock.close_with(seat) {
            Some(held) => Some(Box::into_inner(held)),
            None => None,
        }
    }
}

/// The state in a box, for the slot of a lock. Refused `NoMemory` with the state.
pub(crate) fn boxed<D: SectorDevice>(
    state: PoolState<D>,
) -> Result<Box<PoolState<D>>, (PoolError, PoolState<D>)>
    ensures boxed { IfOk result (λ b. b.value ≡ state) }
    ensures refused { IfErr result (λ e. (e.0 ≡ PoolError.NoMemory) × (e.1 ≡ state)) }
{
    let alloc = state.alloc();
    match Box::new(alloc, state) {
        Ok(held) => Ok(held),
        Err(failed) => Err((PoolError::NoMemory, failed.value)),
    }
}
