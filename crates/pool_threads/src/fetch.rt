//! A read in one call, and in one turn: the lock of its range, the read, and the unlock.
//!
//! Between the lock and the unlock no other thread has the pool. So none is refused because of this lock, and nobody
//! has to be woken after such a turn.
ghost use Rattle.std.specs.Prelude.{◌≡◌, IfErr, IfOk, IsTrue};
ghost use Rattle.base.specs.declared.range.Mode.TheVariants.{Reader};
ghost use Rattle.base.specs.steps.Refusals.{object_range};
ghost use Rattle.base.specs.steps.Seen.{IsReadBetween};
ghost use Rattle.pool_threads.specs.Answers.{Sees, TakesOne, state_seen};
ghost use Rattle.pool_threads.specs.Fetches.{Fetches, IsFetchRefusal, IsFetchTurn, LeavesNoLock, MakesFetch};
ghost use Rattle.pool_threads.specs.Handles.{StaysInPool};
ghost use Rattle.pool_threads.specs.Turns.{HasDone};
ghost use Rattle.pool_threads.specs.Vain.{IsInOwnWay};
ghost use Rattle.pool_threads.specs.Views.{Explains};
ghost use Rattle.word_lock.specs.Seats.{HasMetNone, IsHolding, IsIdle, IsSameSeat, lock_table, seat_table, seen};

use crate::handle::Handle;
use crate::retries::RetriedCall;
use crate::rule::{PoolRule, PoolView};
use crate::turn::step_noted;
use base::{Bytes, Mode, ObjectId, Owner, PoolError, Range};
use crossbeam_utils::Backoff;
use device_model::SectorDevice;
use pool_core::PoolState;
use pool_core::calls::{Lock, Read, Unlock};
use std::sync::Wait;
use word_lock::{Guard, Held};

impl<'p, D: SectorDevice> Handle<'p, D> {
    /// The bytes of a range that lie below the object's length. `Range::WHOLE` is the whole object.
    ///
    /// In one turn of the pool's lock it locks the range as a reader, reads it, and unlocks it, also after a refused
    /// read. While a writer's lock overlaps the range it waits, with nothing held, and then tries again. A caller that
    /// holds such a lock itself is refused `Busy`: it takes `read`. So does one that reads several ranges under locks
    /// of its own, as they are at one moment.
    ///
    /// For proofs: the only handle of a pool leaves all that is shown of the pool as it was, its locks too, also after
    /// a refusal. The name of the lock is used up (`released`).
    ///
    /// # Errors
    /// Those of `PoolState::lock`; `Busy` only if the owner holds a writer's lock itself that overlaps the range
    /// (`busy`), and at once then (`made`). Then those of `PoolState::read`.
    pub fn fetch<'a, 'b, W: Wait>(
        &'a mut self,
        rt: &'b W,
        owner: Owner,
        object: ObjectId,
        range: Range,
    ) -> Result<Bytes, PoolError>
        ensures made { Fetches owner object range result self.old self.new }
        ensures bytes { IsTrue D.keeps_model → IfOk result (λ b. Sees (IsReadBetween
            (object_range object.0 range.low range.high) b) self.old self.new) }
        ensures refused { IfErr result (λ e. Sees (IsFetchRefusal owner object range e)
            self.old self.new) }
        ensures busy { IfErr result (λ e. e ≡ PoolError.Busy → IsInOwnWay owner
            (object_range object.0 range.low range.high) Reader (state_seen self.new).shown) }
        ensures same_pool { StaysInPool self.old self.new }
        ensures met_none { HasMetNone self.old.seat self.new.seat }
        ensures released { LeavesNoLock self.old self.new }
    {
        let read = Read {
            owner,
            object,
            range,
        };
        self.fetch_at_last(rt, read)
    }

    // Makes this read under a lock of its own, in one turn. While the lock may be had later it waits, and tries again.
    fn fetch_at_last<'a, 'b, W: Wait>(
        &'a mut self,
        rt: &'b W,
        read: Read,
    ) -> Result<Bytes, PoolError>
        ensures { Fetches read.owner read.object read.range result self.old self.new }
    {
        let backoff = Backoff::new();
        for _ in rt.forever() {
            let unlocks = self.shared.ranges.rings();
            if let Some(result) = self.try_fetch(rt, read) {
                return result;
            }
            self.shared.ranges.rest(rt, &backoff, unlocks);
        }
        unreachable!()
    }

    // Makes this read under a lock of its own, in one turn. `None` if the lock may be had later.
    fn try_fetch<'a, 'b, W: Wait>(
        &'a mut self,
        rt: &'b W,
        read: Read,
    ) -> Option<Result<Bytes, PoolError>>
        ensures { TakesOne (IsFetchTurn (IsTrue D.keeps_model) read.owner read.object read.range
            result) self.old self.new }
    {
        let guard = self.seat.acquire(rt, &self.shared.lock);
        fetch_turn(guard, read)
    }
}

// Makes this read under a lock of its own, on the pool of a lock that a seat has, and frees that lock.
fn fetch_turn<'s, 'l, D: SectorDevice>(
    guard: Guard<'s, 'l, Box<PoolState<D>>, PoolRule<D>>,
    read: Read,
) -> Option<Result<Bytes, PoolError>>
    requires own { seat_table guard.seat.now ≡ lock_table guard.lock.now }
    requires held { IsHolding guard.seat.now }
    requires view { guard.held.view.value ≡ seen guard.seat.now }
    requires explains { Explains guard.held.value.value guard.held.view.value }
    ensures same { IsSameSeat guard.entry.seat.now guard.exit.0.now × IsIdle guard.exit.0.now }
    ensures done { HasDone
        (MakesFetch (IsTrue D.keeps_model) read.owner read.object read.range result)
        guard.entry.seat.now guard.exit.0.now }
{
    let Guard { seat, lock, held } = guard;
    let mut held = held;
    let result = fetch_noted(&mut held, read);
    let Held { value, view } = held;
    seat.put_back(lock, value, &view);
    result
}

// Makes this read under a lock of its own, and goes on to the view after it. `None` if the lock may be had later.
fn fetch_noted<'h, D: SectorDevice>(
    held: &'h mut Held<Box<PoolState<D>>, PoolView>,
    read: Read,
) -> Option<Result<Bytes, PoolError>>
    requires { Explains held.old.value.value held.old.view.value }
    ensures explains { Explains held.new.value.value held.new.view.value }
    ensures made { MakesFetch (IsTrue D.keeps_model) read.owner read.object read.range result
        held.old.view.value held.new.view.value }
{
    let owner = read.owner;
    let lock = Lock {
        owner,
        object: read.object,
        range: read.range,
        mode: Mode::Reader,
    };
    let id = match step_noted(held, lock) {
        Ok(id) => id,
        Err(error) if <Lock as RetriedCall<D>>::may_pass(&lock, error, &held.value) => return None,
        Err(error) => return Some(Err(error)),
    };
    let bytes = step_noted(held, read);
    let _ = step_noted(held, Unlock { owner, id });
    Some(bytes)
}
