//! The transactions of a pool: they begin, commit and are given up. A call that is refused leaves the pool unchanged.

ghost use Rattle.std.specs.Prelude.{◌≡◌, ◌<◌, ◌+◌, ◌≤◌, IfOk, OnOk, nat_lt, option_map, true};
ghost use Rattle.std.specs.List.{list_all, list_any};
ghost use Rattle.base.specs.formats.Limits.{last_number, max_log_record};
ghost use Rattle.base.specs.formats.Records.{is_content_allowed};
ghost use Rattle.base.specs.history.Plans as plans;
ghost use Rattle.base.specs.history.Plans.{charge_of, estimate_of, log_record_size};
ghost use Rattle.base.specs.steps.Groups.{Admission};
ghost use Rattle.base.specs.steps.Refusals as refusals;
ghost use Rattle.base.specs.steps.Refusals.{blocks_wanted, transaction_of};
ghost use Rattle.base.specs.steps.Shown as show;
ghost use Rattle.contents.specs.Ops.{AreOpsAllowed};
ghost use Rattle.records.specs.declared.record.Record.{Record};
ghost use Rattle.pool_tables.specs.BeginTests.{plan_tests};
ghost use Rattle.pool_tables.specs.Meets.{Passes};

use crate::pool::PoolTables;
use base::{
    BLOCK_SIZE, Group, KEPT_BACK, LAST_NUMBER, Op, Ops, Ordinal, Owner, Plan, PoolError, Receipt,
    Shape, TxId, is_name,
};
use contents::judge;
use records::{Record, is_too_large};
use transactions::{charge, estimate, is_in_plan, is_plan_allowed, is_shrinking, range_of};

/// What an open transaction costs, by its plan.
#[derive(Clone, Copy)]
struct Cost {
    /// The blocks that its plan is estimated at.
    blocks: u64,
    /// The bytes that it is charged.
    charge: u64,
}

impl Cost {
    // That of a plan.
    fn of(plan: &[Shape]) -> Self
        requires allowed { plans.is_plan_allowed plan.now ≡ true }
        requires small { log_record_size plan.now ≤ max_log_record }
        ensures blocks { result.blocks ≡ estimate_of plan.now }
        ensures charge { result.charge ≡ charge_of plan.now }
    {
        let blocks = estimate(plan);
        Cost {
            blocks,
            charge: BLOCK_SIZE as u64 * blocks,
        }
    }
}

impl PoolTables {
    ghost use Rattle.pool_tables.specs.Entries.{FitsRecord, HasRoomToEnter, IsUnsynced, shown_after_entry};
    ghost use Rattle.pool_tables.specs.BeginTests.{is_above_limit, range_tests, room_tests};
    ghost use Rattle.pool_tables.specs.Meets.{ChecksBegin, ChecksCommit, MayCommit};
    ghost use Rattle.pool_tables.specs.Shows.{pool_shown, shown_contents};
    ghost use Rattle.pool_tables.specs.KeptTrees.{IsOfNoDevice, KeepsTree};
    ghost use Rattle.pool_tables.specs.StepAnswers.{Aborts, Begins, Commits};
    ghost use Rattle.pool_tables.specs.Targets.{is_kept_covered};
    ghost use Rattle.transactions.specs.Open.{has_one_open};

    /// Opens a transaction of the open group: charges it 4,096 bytes for each block that the plan is estimated at, and
    /// reserves these blocks. Refused, in this order, `Suspended`, `BadRange`, `TooLarge`, `NotLocked`, `Busy`,
    /// `TooMany`, `Throttled`, `NoSpace` or `NoMemory`.
    pub fn begin(&mut self, owner: Owner, plan: &Plan) -> Result<(TxId, Group), PoolError>
        ensures step { Begins owner plan.now result (pool_shown self.old) (pool_shown self.new) }
        ensures tree { KeepsTree self.old self.new }
    {
        let cost = self.check_begin(owner, plan.as_slice())?;
        let plan = plan.try_clone(self.alloc)?;
        let group = self.groups.open_group();
        let tx = self.transactions.admit_tested(owner, group, plan)?;
        let Ok(()) = self.dirty.admit(group, cost.charge) else {
            unreachable!();
        };
        let Ok(()) = self.free.reserve(cost.blocks, 0) else {
            unreachable!();
        };
        let Ok(_) = self.groups.hold() else {
            unreachable!();
        };
        Ok((tx, group))
    }

    /// Whether a transaction may have this plan, but its charge in bytes alone is above the limit of all charges.
    pub fn is_above_limit(&self, plan: &[Shape]) -> bool
        ensures { result ≡ is_above_limit plan.now (pool_shown self.now) }
    {
        if check_plan(plan).is_err() {
            return false;
        }
        charge(plan) > self.dirty.limit()
    }

    // What a transaction of this plan costs. Refused as a begin is, except for want of memory.
    fn check_begin(&self, owner: Owner, plan: &[Shape]) -> Result<Cost, PoolError>
        ensures refusal { ChecksBegin owner plan.now result (pool_shown self.now) }
        ensures blocks { IfOk result (λ cost. cost.blocks ≡ estimate_of plan.now) }
        ensures charge { IfOk result (λ cost. cost.charge ≡ charge_of plan.now) }
    {
        self.check_running()?;
        check_plan(plan)?;
        self.check_ranges(owner, plan)?;
        self.check_room(plan)
    }

    // Each range of a plan lies in a writer lock of the owner, and overlaps none of an open transaction (rule 3).
    fn check_ranges(&self, owner: Owner, plan: &[Shape]) -> Result<(), PoolError>
        requires { plans.is_plan_allowed plan.now ≡ true }
        ensures { Passes (range_tests owner.0 plan.now (pool_shown self.now)) result }
    {
        if !self.is_covered(owner, plan) {
            return Err(PoolError::NotLocked);
        }
        if self.transactions.is_blocked(plan) {
            return Err(PoolError::Busy);
        }
        Ok(())
    }

    // One more transaction may be open, its charge passes no limit, and the blocks that it may take are available (rule
    // 5).
    fn check_room(&self, plan: &[Shape]) -> Result<Cost, PoolError>
        requires allowed { plans.is_plan_allowed plan.now ≡ true }
        requires small { log_record_size plan.now ≤ max_log_record }
        ensures refusal { Passes (room_tests plan.now (pool_shown self.now)) result }
        ensures blocks { IfOk result (λ cost. cost.blocks ≡ estimate_of plan.now) }
        ensures charge { IfOk result (λ cost. cost.charge ≡ charge_of plan.now) }
    {
        if self.transactions.is_full() {
            return Err(PoolError::TooMany);
        }
        let cost = Cost::of(plan);
        if self.dirty.is_throttled(cost.charge) {
            return Err(PoolError::Throttled);
        }
        if self.is_short_for(plan, cost.blocks) {
            return Err(PoolError::NoSpace);
        }
        Ok(cost)
    }

    // Whether fewer blocks are available than a plan is estimated at and, unless it shrinks, 16 more.
    fn is_short_for(&self, plan: &[Shape], blocks: u64) -> bool
        requires { blocks ≡ estimate_of plan.now }
        ensures { result ≡ nat_lt (show.available (pool_shown self.now))
            (blocks_wanted (pool_shown self.now).contents plan.now) }
    {
        let kept_back = self.kept_back(plan);
        let available = self.available();
        available < blocks || available - blocks < kept_back
    }

    // How many blocks stay available beside those of a plan: 16, or none if it only removes objects and shortens
    // present ones.
    fn kept_back(&self, plan: &[Shape]) -> u64
        ensures { estimate_of plan.now + result
            ≡ blocks_wanted (pool_shown self.now).contents plan.now }
    {
        if is_shrinking(plan, &|object| self.shown_length(object)) {
            0
        } else {
            KEPT_BACK
        }
    }

    fn is_covered(&self, owner: Owner, plan: &[Shape]) -> bool
        ensures { result ≡ is_kept_covered owner.0 self.now.locks.locks plan.now }
    {
        plan.iter().all(|shape| self.locks.covers_for_writing(owner, &range_of(shape)))
    }

    /// The plan of an open transaction, or `None` if none of this name is open.
    pub fn open_plan(&self, tx: TxId) -> Option<&Plan>
        ensures { option_map (λ p. p.now) result
            ≡ option_map (λ (a : Admission). a.plan) (transaction_of tx.0 (pool_shown self.now)) }
    {
        let transaction = self.transactions.find(tx)?;
        Some(&transaction.plan)
    }

    /// Whether the owner has an open transaction.
    pub fn has_one_open(&self, owner: Owner) -> bool
        ensures { result ≡ has_one_open owner.0 (pool_shown self.now).transactions }
    {
        self.transactions.has_one_open(owner)
    }

    // The group of a transaction that may commit. Refused as a commit is, except for want of memory.
    fn check_commit(&self, tx: TxId, ops: &[Op]) -> Result<Group, PoolError>
        ensures refusal { ChecksCommit tx ops.now result (pool_shown self.now) }
        ensures allowed { OnOk result (AreOpsAllowed ops.now) }
        ensures fits { OnOk result (FitsRecord ops.now) }
        ensures named { OnOk result (self.now.next_ordinal ≤ last_number) }
    {
        self.check_running()?;
        let Some(transaction) = self.transactions.find(tx) else {
            return Err(PoolError::NoSuchTransaction);
        };
        if !is_in_plan(ops, transaction.plan.as_slice()) {
            return Err(PoolError::OutOfPlan);
        }
        if give_bad_name(ops) {
            return Err(PoolError::BadRange);
        }
        judge(&self.objects(), ops)?;
        if self.next_ordinal > LAST_NUMBER {
            return Err(PoolError::TooMany);
        }
        Ok(transaction.group)
    }

    // Which of the unsynced groups an open transaction is in, counted from the oldest on.
    fn place_of(&self, group: Group) -> usize
        requires { IsUnsynced self.now.groups.line group.0 }
        ensures place { self.now.groups.line.synced + 1 + result ≡ group.0 }
        ensures within { result < 3 }
    {
        (group.0 - self.groups.synced().0 - 1) as usize
    }

    /// Commits a transaction whole, in its own group. Refused, in this order, `Suspended`, `NoSuchTransaction`,
    /// `OutOfPlan`, `BadRange` for a name that is none, `NoObject` or `Exists` for the first operation that cannot take
    /// place, `TooMany` or `NoMemory`; the transaction stays open then.
    pub fn commit(&mut self, tx: TxId, ops: Ops) -> Result<Receipt, PoolError>
        ensures step { Commits tx ops result (pool_shown self.old) (pool_shown self.new) }
        ensures tree { KeepsTree self.old self.new }
        ensures own { IsOfNoDevice result }
    {
        let group = self.check_commit(tx, ops.as_slice())?;
        self.log.reserve_record()?;
        let place = self.place_of(group);
        self.changes.reserve(place, ops.as_slice())?;
        let ordinal = self.enter(tx, group, place, ops);
        Ok(Receipt { ordinal, group })
    }

    // The transaction takes place in its group, of which this is the place. The room is there.
    fn enter(&mut self, tx: TxId, group: Group, place: usize, ops: Ops) -> Ordinal
        requires may { MayCommit tx.0 ops group.0 (pool_shown self.old) }
        requires allowed { AreOpsAllowed ops }
        requires place { self.old.groups.line.synced + 1 + place ≡ group.0 }
        requires named { self.old.next_ordinal ≤ last_number }
        requires fits { FitsRecord ops }
        requires bytes { list_all is_content_allowed ops ≡ true }
        requires room { HasRoomToEnter place ops self.old }
        ensures ordinal { result.0 ≡ self.old.next_ordinal }
        ensures tree { KeepsTree self.old self.new }
        ensures shown { pool_shown self.new
            ≡ shown_after_entry tx.0 group.0 ops (shown_contents self.new) (pool_shown self.old) }
    {
        self.changes.apply(place, ops.as_slice());
        self.transactions.end(tx);
        let Ok(()) = self.groups.release(group) else {
            unreachable!();
        };
        let ordinal = Ordinal(self.next_ordinal);
        self.next_ordinal += 1;
        self.log.enter(Record {
            group,
            ordinal,
            ops,
        });
        ordinal
    }

    /// Gives a transaction up: its hold, its charge and its reserved blocks end. Refused, in this order, `Suspended` or
    /// `NoSuchTransaction`.
    pub fn abort(&mut self, tx: TxId) -> Result<(), PoolError>
        ensures step { Aborts tx result (pool_shown self.old) (pool_shown self.new) }
        ensures tree { KeepsTree self.old self.new }
    {
        self.check_running()?;
        let Some(transaction) = self.transactions.end(tx) else {
            return Err(PoolError::NoSuchTransaction);
        };
        let shapes = transaction.plan.as_slice();
        self.dirty.cancel(transaction.group, charge(shapes));
        self.free.unreserve(estimate(shapes));
        let Ok(()) = self.groups.release(transaction.group) else {
            unreachable!();
        };
        Ok(())
    }
}

// Whether one of the operations gives the pool something that is no name.
fn give_bad_name(ops: &[Op]) -> bool
    ensures { result ≡ list_any refusals.gives_bad_name ops.now }
{
    ops.iter().any(|op| gives_bad_name(op))
}

fn gives_bad_name(op: &Op) -> bool
    ensures { result ≡ refusals.gives_bad_name op.now }
{
    match op {
        Op::SetName(name) => !is_name(name.as_slice()),
        _ => false,
    }
}

// A transaction may have this plan. Refused `BadRange` where it has no shape, or one that is outside its limits;
// `TooLarge` where its log record would have more than 65,536 bytes.
fn check_plan(plan: &[Shape]) -> Result<(), PoolError>
    ensures refusal { Passes (plan_tests plan.now) result }
    ensures allowed { OnOk result (plans.is_plan_allowed plan.now ≡ true) }
    ensures small { OnOk result (log_record_size plan.now ≤ max_log_record) }
{
    if !is_plan_allowed(plan) {
        return Err(PoolError::BadRange);
    }
    if is_too_large(plan) {
        return Err(PoolError::TooLarge);
    }
    Ok(())
}
