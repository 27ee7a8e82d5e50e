//! What callers rest on of the calls by which a handle answers.

ghost use Rattle.std.specs.Prelude.{IfOk, IsTrue, ℕ, ◌≡◌, ◌≤◌, ◌<◌, ◌⊎◌, ◌+◌, IfErr, Ok, Some, false, length, slice_get, take, true};
ghost use Rattle.base.specs.declared.range.Mode.TheVariants.{Writer};
ghost use Rattle.base.specs.declared.step.Step.TheVariants as step;
ghost use Rattle.base.specs.steps.Refusals.{object_range};
ghost use Rattle.base.specs.steps.Seen.{IsGranted, IsReadBetween, IsKnownDurable};
ghost use Rattle.pool_threads.specs.Answers.{Makes, Sees, state_seen};
ghost use Rattle.pool_threads.specs.Handles.{moment_of, TakesOneTurn, TakesTurns, kin_of, turns_of};
ghost use Rattle.base.specs.declared.names.ObjectId.{ObjectId};
ghost use Rattle.base.specs.formats.Digest.{digest_of};
ghost use Rattle.base.specs.formats.Limits.{object_count};
ghost use Rattle.base.specs.history.Contents.{Contents, length_of};
ghost use Rattle.base.specs.history.History.{replay};
ghost use Rattle.base.specs.steps.Tables.{GoesOn};
ghost use Rattle.base.specs.steps.Shown.{available, dirty_total, free_count};
ghost use Rattle.base.specs.steps.Steps.{State};
ghost use Rattle.pool_threads.specs.Vain.{IsInOwnWay};

use base::{
    Bytes, Group, LockId, Mode, ObjectId, Ordinal, Owner, PoolError, PoolName, Range, Receipt,
    Reply, Status, Step,
};
use device_model::SectorDevice;
use pool_threads::Handle;
use std::sync::Wait;
use std::time::Duration;

fn an_append_lock_is_one_of_its_owner<D: SectorDevice, W: Wait>(
    rt: &W,
    handle: &mut Handle<'_, D>,
) -> Result<(LockId, Range), PoolError>
    ensures { IfOk result (λ a. Sees (IsGranted 3 (object_range 5 a.1.low a.1.high) Writer a.0.0)
        handle.old handle.new) }
{
    handle.lock_append(rt, Owner(3), ObjectId(5))
}

fn a_read_has_the_bytes_of_its_range<D: SectorDevice, W: Wait>(
    rt: &W,
    handle: &mut Handle<'_, D>,
    owner: Owner,
) -> Result<Bytes, PoolError>
    ensures { IsTrue D.keeps_model → IfOk result (λ b. Sees (IsReadBetween (object_range 5 2 9) b)
        handle.old handle.new) }
{
    handle.read(rt, owner, ObjectId(5), Range { low: 2, high: 9 })
}

fn a_sync_starts_at_the_moment_of_the_pool<D: SectorDevice, W: Wait>(
    rt: &W,
    handle: &mut Handle<'_, D>,
) -> Reply
    ensures { Makes (step.StartSync (moment_of handle.old)) result handle.old handle.new }
{
    handle.step(rt, Step::StartSync(7))
}

// Its numbers are those of one state, no earlier than the one that was seen before, and no later than the one after.
fn a_status_has_the_numbers_of_one_state<D: SectorDevice, W: Wait>(
    rt: &W,
    handle: &mut Handle<'_, D>,
) -> Status
    ensures { Sees (λ before after. (s : State) × GoesOn before s × GoesOn s after
        × (result.synced.0 ≡ s.shown.line.synced) × (result.open_group.0 ≡ s.shown.line.open_group)
        × (result.dirty ≡ dirty_total s.shown) × (result.free ≡ free_count s.shown)
        × (result.available ≡ available s.shown)) handle.old handle.new }
{
    handle.status(rt)
}

fn a_status_changes_nothing<D: SectorDevice, W: Wait>(rt: &W, handle: &mut Handle<'_, D>)
    ensures one_turn { TakesOneTurn handle.old handle.new }
    ensures only { kin_of handle.old ≡ 0
        → Sees (λ before after. after ≡ before) handle.old handle.new }
{
    let _ = handle.status(rt);
}

// Of contents after some of the commits: no fewer than were seen before, and no more than after.
fn a_name_is_that_of_contents_in_between<D: SectorDevice, W: Wait>(
    rt: &W,
    handle: &mut Handle<'_, D>,
) -> PoolName
    ensures { Sees (λ before after. (c : Contents) × (count : ℕ)
        × (length before.past.entries ≤ count) × (count ≤ length after.past.entries)
        × (replay (take count after.past.entries) after.past.base ≡ Ok c)
        × (c.name ≡ result)) handle.old handle.new }
{
    handle.name(rt)
}

fn a_name_changes_nothing<D: SectorDevice, W: Wait>(rt: &W, handle: &mut Handle<'_, D>)
    ensures one_turn { TakesOneTurn handle.old handle.new }
    ensures only { kin_of handle.old ≡ 0
        → Sees (λ before after. after ≡ before) handle.old handle.new }
{
    let _ = handle.name(rt);
}

// It stays so.
fn a_commit_that_is_told_durable_is_so<D: SectorDevice, W: Wait>(
    rt: &W,
    handle: &mut Handle<'_, D>,
) -> bool
    ensures { result ≡ true → Sees (λ before after. IsKnownDurable 3 9 after)
        handle.old handle.new }
{
    let receipt = Receipt {
        ordinal: Ordinal(3),
        group: Group(9),
    };
    handle.durable(rt, receipt)
}

fn a_question_for_a_receipt_changes_nothing<D: SectorDevice, W: Wait>(
    rt: &W,
    handle: &mut Handle<'_, D>,
    receipt: Receipt,
)
    ensures one_turn { TakesOneTurn handle.old handle.new }
    ensures only { kin_of handle.old ≡ 0
        → Sees (λ before after. after ≡ before) handle.old handle.new }
{
    let _ = handle.durable(rt, receipt);
}

fn a_digest_is_that_of_contents_in_between<D: SectorDevice, W: Wait>(
    rt: &W,
    handle: &mut Handle<'_, D>,
) -> Result<[u8; 32], PoolError>
    ensures digest { IsTrue D.keeps_model → IfOk result (λ d. Sees (λ before after. (c : Contents)
        × (count : ℕ) × (length before.past.entries ≤ count)
        × (count ≤ length after.past.entries)
        × (replay (take count after.past.entries) after.past.base ≡ Ok c)
        × (digest_of c ≡ d)) handle.old handle.new) }
    ensures one_turn { TakesOneTurn handle.old handle.new }
{
    handle.digest(rt)
}

// Each that is listed is there with that length, as the handle saw the pool then.
fn a_listed_object_is_there<D: SectorDevice, W: Wait>(
    rt: &W,
    handle: &mut Handle<'_, D>,
    most: usize,
) -> Result<Vec<(ObjectId, u64)>, PoolError>
    ensures there { IfOk result (λ list. (i : ℕ) (n : ObjectId) (size : ℕ)
        → slice_get list.items i ≡ Some (n, size) → (7 ≤ n.0)
        × (length_of (state_seen handle.new).shown.contents n.0 ≡ Some size)) }
    ensures few { IfOk result (λ list. length list.items ≤ most) }
{
    handle.objects(rt, ObjectId(7), most)
}

// So a list that is shorter than was asked for has each object from there on.
fn an_object_that_is_there_is_listed<D: SectorDevice, W: Wait>(
    rt: &W,
    handle: &mut Handle<'_, D>,
    most: usize,
) -> Result<Vec<(ObjectId, u64)>, PoolError>
    ensures { IfOk result (λ list. length list.items < most → (n : ObjectId) (size : ℕ)
        → 7 ≤ n.0 → n.0 < object_count
        → length_of (state_seen handle.new).shown.contents n.0 ≡ Some size
        → (i : ℕ) × (slice_get list.items i ≡ Some (n, size))) }
{
    handle.objects(rt, ObjectId(7), most)
}

// And a full one leaves none out below its last.
fn a_full_list_leaves_out_none_below_its_last<D: SectorDevice, W: Wait>(
    rt: &W,
    handle: &mut Handle<'_, D>,
    most: usize,
) -> Result<Vec<(ObjectId, u64)>, PoolError>
    ensures { IfOk result (λ list. (j : ℕ) (last : ObjectId × ℕ)
        → slice_get list.items j ≡ Some last → (n : ObjectId) (size : ℕ)
        → 7 ≤ n.0 → n.0 < last.0.0
        → length_of (state_seen handle.new).shown.contents n.0 ≡ Some size
        → (i : ℕ) × (slice_get list.items i ≡ Some (n, size))) }
{
    handle.objects(rt, ObjectId(7), most)
}

// It lists none twice.
fn listed_objects_rise<D: SectorDevice, W: Wait>(
    rt: &W,
    handle: &mut Handle<'_, D>,
    from: ObjectId,
    most: usize,
) -> Result<Vec<(ObjectId, u64)>, PoolError>
    ensures { IfOk result (λ list. (i j : ℕ) (one next : ObjectId × ℕ) → i < j
        → slice_get list.items i ≡ Some one → slice_get list.items j ≡ Some next
        → one.0.0 < next.0.0) }
{
    handle.objects(rt, from, most)
}

// It made no step, and asked in one turn, or in none.
fn a_list_of_the_only_handle_changes_nothing<D: SectorDevice, W: Wait>(
    rt: &W,
    handle: &mut Handle<'_, D>,
    from: ObjectId,
    most: usize,
) -> Result<Vec<(ObjectId, u64)>, PoolError>
    ensures { kin_of handle.old ≡ 0 → state_seen handle.new ≡ state_seen handle.old }
{
    handle.objects(rt, from, most)
}

fn a_list_is_refused_for_memory_or_of_a_suspended_pool<D: SectorDevice, W: Wait>(
    rt: &W,
    handle: &mut Handle<'_, D>,
    from: ObjectId,
    most: usize,
) -> Result<Vec<(ObjectId, u64)>, PoolError>
    ensures refused { IfErr result (λ e. (e ≡ PoolError.NoMemory)
        ⊎ ((e ≡ PoolError.Suspended) × ((state_seen handle.new).shown.suspended ≡ true))) }
    ensures running { IfOk result (λ _. (state_seen handle.new).shown.suspended ≡ false) }
{
    handle.objects(rt, from, most)
}

// All that it did are tries of the lock, in turns of its own.
fn a_lock_with_a_limit_takes_turns<D: SectorDevice, W: Wait>(
    rt: &W,
    handle: &mut Handle<'_, D>,
    owner: Owner,
    range: Range,
    limit: Duration,
) -> Result<LockId, PoolError>
    ensures { TakesTurns handle.old handle.new }
{
    handle.lock_within(rt, owner, ObjectId(5), range, Mode::Writer, limit)
}

// One at once, and one after each half millisecond. `Busy` is the answer after the last one, or if its owner stands in
// its own way.
fn a_lock_with_a_limit_of_two_milliseconds_has_five_tries<D: SectorDevice, W: Wait>(
    rt: &W,
    handle: &mut Handle<'_, D>,
    owner: Owner,
    range: Range,
) -> Result<LockId, PoolError>
    ensures most { length (turns_of handle.new) ≤ length (turns_of handle.old) + 5 }
    ensures busy { IfErr result (λ e. e ≡ PoolError.Busy
        → IsInOwnWay owner (object_range 5 range.low range.high) Writer
        (state_seen handle.new).shown
        ⊎ (length (turns_of handle.new) ≡ length (turns_of handle.old) + 5)) }
{
    let limit = Duration::from_millis(2);
    handle.lock_within(rt, owner, ObjectId(5), range, Mode::Writer, limit)
}

// It was granted during the call, and is held after it.
fn a_lock_with_a_limit_is_held_by_its_owner<D: SectorDevice, W: Wait>(
    rt: &W,
    handle: &mut Handle<'_, D>,
    limit: Duration,
) -> Result<LockId, PoolError>
    ensures granted { IfOk result (λ id. Sees
        (IsGranted 3 (object_range 5 2 9) Writer id.0) handle.old handle.new) }
    ensures held { IfOk result (λ id. ∥ ((i : ℕ) × (slice_get
        (state_seen handle.new).shown.locks i ≡ Some (record {
          id = id.0;
          owner = 3;
          range = object_range 5 2 9;
          mode = Writer;
        }))) ∥₁) }
{
    let range = Range { low: 2, high: 9 };
    handle.lock_within(rt, Owner(3), ObjectId(5), range, Mode::Writer, limit)
}
