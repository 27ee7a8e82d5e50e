//! What callers rest on of open transactions: which is admitted, under which name, and which stays open.

ghost use Rattle.std.specs.Prelude.{◌≡◌, ◌+◌, ◌∷◌, [], IfErr, IfOk, OnErr, false, length, true};
ghost use Rattle.base.specs.declared.operation.Shape.TheVariants as shape;
ghost use Rattle.base.specs.history.Plans.{is_plan_allowed};
ghost use Rattle.base.specs.steps.Refusals.{is_plan_blocked};

use base::{Group, ObjectId, ObjectRange, Owner, Plan, PoolError, Range, Shape, TxId};
use std::alloc::Global;
use transactions::OpenTransactions;

// At first none is open, and so nothing is in use or blocked.
fn no_transaction_is_open_at_first(alloc: Global) {
    let table = OpenTransactions::new(alloc);
    prove!(!table.is_full());
    prove!(table.find(TxId(0)).is_none());
    prove!(table.holds(Group(9)) == 0);
}

// Names rise by one, so no name is given twice.
fn the_next_name_is_one_more(
    table: &mut OpenTransactions,
    plan: Plan,
    other: Plan,
) -> Result<(TxId, TxId), PoolError>
    requires plan { is_plan_allowed plan ≡ true }
    requires other { is_plan_allowed other ≡ true }
    ensures { IfOk result (λ names. names.1.0 ≡ names.0.0 + 1) }
{
    let first = table.admit(Owner(1), Group(9), plan)?;
    let second = table.admit(Owner(1), Group(9), other)?;
    Ok((first, second))
}

// If a plan passed both tests, the next name is its transaction's, which is then the last one that is open.
fn what_passed_the_tests_is_admitted(
    table: &mut OpenTransactions,
    plan: Plan,
) -> Result<TxId, PoolError>
    requires open { table.old.transactions ≡ [] }
    requires next { table.old.next ≡ 4 }
    requires plan { plan ≡ shape.Create (record { 0 = 7 }) ∷ [] }
    ensures name { IfOk result (λ tx. tx.0 ≡ 4) }
    ensures admitted { IfOk result (λ _. table.new.transactions ≡ record {
      tx = 4;
      group = 9;
      owner = 1;
      plan = shape.Create (record { 0 = 7 }) ∷ [];
    } ∷ []) }
    ensures refused { IfErr result (λ e. e ≡ PoolError.NoMemory) }
    ensures unchanged { OnErr result (table.new ≡ table.old) }
{
    prove!(!table.is_blocked(plan.as_slice()));
    prove!(!table.is_full());
    table.admit_tested(Owner(1), Group(9), plan)
}

// While a write of ten bytes is open, none that touches the last of them is admitted.
fn no_plan_that_overlaps_an_open_one_is_admitted(
    table: &mut OpenTransactions,
    plan: Plan,
) -> Result<TxId, PoolError>
    requires transactions { table.old.transactions ≡ record {
      tx = 3;
      group = 9;
      owner = 1;
      plan = shape.Write (record { 0 = 7 }) 0 10 ∷ [];
    } ∷ [] }
    requires plan { plan ≡ shape.Write (record { 0 = 7 }) 9 1 ∷ [] }
    ensures refused { result ≡ Err PoolError.Busy }
    ensures unchanged { table.new ≡ table.old }
{
    table.admit(Owner(2), Group(9), plan)
}

// While 64 are open, no other is admitted.
fn a_sixty_fifth_transaction_is_refused(
    table: &mut OpenTransactions,
    plan: Plan,
) -> Result<TxId, PoolError>
    requires many { length table.old.transactions ≡ 64 }
    requires allowed { is_plan_allowed plan ≡ true }
    requires free { is_plan_blocked plan table.old.transactions ≡ false }
    ensures { result ≡ Err PoolError.TooMany }
{
    prove!(table.is_full());
    table.admit(Owner(1), Group(9), plan)
}

// A plan is blocked if it touches a byte of an open one, and not by the byte after them.
fn a_plan_is_blocked_where_it_overlaps(table: &OpenTransactions)
    requires { table.now.transactions ≡ record {
      tx = 3;
      group = 9;
      owner = 1;
      plan = shape.Write (record { 0 = 7 }) 0 10 ∷ [];
    } ∷ [] }
{
    prove!(table.is_blocked(&[Shape::Write(ObjectId(7), 9, 1)]));
    prove!(!table.is_blocked(&[Shape::Write(ObjectId(7), 10, 1)]));
}

// A lock is in use if it has all bytes of one of two open writes, and not if it has only those between them.
fn a_lock_of_one_of_two_open_writes_is_in_use(table: &OpenTransactions)
    requires { table.now.transactions ≡ record {
      tx = 3;
      group = 9;
      owner = 1;
      plan = shape.Write (record { 0 = 7 }) 0 10 ∷ shape.Write (record { 0 = 7 }) 50 10 ∷ [];
    } ∷ [] }
{
    prove!(table.is_lock_in_use(&ObjectRange {
        object: ObjectId(7),
        range: Range { low: 0, high: 10 },
    }));
    prove!(!table.is_lock_in_use(&ObjectRange {
        object: ObjectId(7),
        range: Range { low: 10, high: 50 },
    }));
}

// A transaction that ends is open no more, and the other one of its group is.
fn the_others_stay_open(table: &mut OpenTransactions)
    requires { table.old.transactions
        ≡ record { tx = 3; group = 9; owner = 1; plan = shape.Create (record { 0 = 7 }) ∷ [] }
        ∷ record { tx = 4; group = 9; owner = 2; plan = shape.Create (record { 0 = 8 }) ∷ [] }
        ∷ [] }
{
    prove!(table.holds(Group(9)) == 2);
    let ended = table.end(TxId(3));
    prove!(ended.is_some());
    prove!(table.find(TxId(3)).is_none());
    prove!(table.find(TxId(4)).is_some());
    prove!(table.holds(Group(9)) == 1);
}
