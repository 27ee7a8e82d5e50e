//! What callers rest on: what an import finds after transactions and a crash, said by the transactions alone.

ghost use Rattle.std.specs.Prelude.{◌≡◌, ◌⊎◌, IfSome, IsTrue, Ok};
ghost use Rattle.base.specs.disk.Crashes.{crash_image};
ghost use Rattle.base.specs.disk.Fairness.{IsFairOn};
ghost use Rattle.base.specs.history.Contents.{Contents};
ghost use Rattle.base.specs.history.History.{apply_all};
ghost use Rattle.base.specs.history.Past.{Past};
ghost use Rattle.base.specs.kept.LeftDisks.{IsLeft};
ghost use Rattle.base.specs.steps.Explains.{IsLeftBy};
ghost use Rattle.pool_threads.specs.Handles.{opening_view, shared_of};
ghost use Rattle.pool_threads.specs.Views.{viewed_state};
ghost use Rattle.running_pools.specs.LeftDevices.{LeavesContents};

use base::{DEFAULT_DIRTY_MAX, Ops, Owner, Piece};
use device_model::{MemDevice, SectorDevice};
use pool_threads::{Limits, Pool};
use running_pools::{close_alone, open_alone};
use std::alloc::Global;
use std::sync::Wait;

// Whatever a crash leaves of the device then, an import finds what was there before, or what the first transaction made
// of it, or what both made. So with the second transaction it finds the first, whatever these two have in common.
fn a_crash_leaves_no_second_transaction_without_the_first<D: SectorDevice + Drop, W: Wait>(
    rt: &W,
    alloc: Global,
    device: D,
    one: Ops,
    two: Ops,
) -> Option<D>
    ensures { IsTrue D.keeps_model → IfSome result (λ after. LeavesContents
        (λ base c. (c ≡ base) ⊎ ((apply_all one base ≡ Ok c)
        ⊎ ((d : Contents) × (apply_all one base ≡ Ok d) × (apply_all two d ≡ Ok c))))
        (D.disk device) (D.disk after)) }
{
    let Ok((pool, first)) = open_alone(alloc, device, DEFAULT_DIRTY_MAX, 0) else {
        return None;
    };
    let mut handle = pool.handle_after(first);
    let Ok(_) = handle.transact(rt, Owner(1), one) else {
        return None;
    };
    let Ok(_) = handle.transact(rt, Owner(1), two) else {
        return None;
    };
    let last = handle.leave();
    Some(close_alone(pool, last))
}

// If the second one is durable, an import finds both, whatever a crash leaves. So a durable transaction makes all before it
// durable.
fn a_durable_second_transaction_has_the_first_with_it<D: SectorDevice + Drop, W: Wait>(
    rt: &W,
    alloc: Global,
    device: D,
    one: Ops,
    two: Ops,
) -> Option<D>
    ensures { IsTrue D.keeps_model → IfSome result (λ after. LeavesContents
        (λ base c. (d : Contents) × (apply_all one base ≡ Ok d) × (apply_all two d ≡ Ok c))
        (D.disk device) (D.disk after)) }
{
    let Ok((pool, first)) = open_alone(alloc, device, DEFAULT_DIRTY_MAX, 0) else {
        return None;
    };
    let mut handle = pool.handle_after(first);
    let Ok(_) = handle.transact(rt, Owner(1), one) else {
        return None;
    };
    let Ok(_) = handle.transact_durably(rt, Owner(1), two) else {
        return None;
    };
    let last = handle.leave();
    Some(close_alone(pool, last))
}

// And an open after a crash shows contents that the run left, whatever pieces of the writes since the last flush stand.
// So it is of the device that the one above gives back, whose contents it says.
fn an_open_after_a_crash_shows_what_was_left(
    alloc: Global,
    ended: MemDevice,
    pieces: &[Piece],
) -> Option<Pool<MemDevice>>
    ensures { (past : Past) → IsLeft past ended.disk
        → IsFairOn ended.disk past.created (crash_image pieces.now ended.disk.now)
        → IfSome result (λ p. IsLeftBy past
        (viewed_state (opening_view (shared_of p))).shown.contents) }
{
    match Pool::open(alloc, ended.crash(pieces), Limits::DEFAULT, 0) {
        Ok(pool) => Some(pool),
        Err(_) => None,
    }
}
