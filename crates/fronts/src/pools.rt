//! What holds of pools whose groups rise with the ordinals: each function's contract is a law, and its body does
//! nothing.
//!
//! 1. A begin and a commit in one turn go into the group that is open, so each call that makes a whole transaction
//!    keeps groups rising. So does each call that commits nothing.
//! 2. Only a commit of a transaction that was begun before another group was opened may not: `Handle::commit`, and
//!    `Handle::step` with such a step.
//! 3. Another handle may make such a commit. So the laws of calls are of the only handle of a pool, whose number is 0.
//!    `shared.rt` has what holds of several.
//! 4. What is durable is acknowledged, if the past of the pool explains it. So with a durable transaction a crash leaves
//!    each earlier one.

ghost use Rattle.fronts.specs.DurableTransactions.{DurableEntriesHaveAllBefore, DurableTransactsHaveAllBefore, TransactsAreExplained, WaitsStayExplained};
ghost use Rattle.fronts.specs.RisingPools.{CallsGoOnRising, FirstHandlesRise, OtherCallsGoOnRising, PoolStepsKeepRising, SteppedPoolsLeaveFronts, TransactionsKeepRising, TransactsGoOnRising};

use device_model::SectorDevice;

/// A step of a pool that commits nothing into a closed group keeps groups rising.
pub fn pool_steps_keep_rising()
    ensures { PoolStepsKeepRising }
{}

/// At each moment of a step after which groups rise, every fair image of a crash mounts a front of the entries, with
/// all that was acknowledged before the step. The pool follows the crash rule, over a device that keeps the disk model.
pub fn stepped_pools_leave_fronts()
    ensures { SteppedPoolsLeaveFronts }
{}

/// A turn that makes a whole transaction keeps groups rising, also if it is refused.
pub fn transactions_keep_rising()
    ensures { TransactionsKeepRising }
{}

/// Groups rise for the only handle of a pool before its first turn, and a crash then leaves a front.
pub fn first_handles_rise<D: SectorDevice>()
    ensures { FirstHandlesRise D.SectorDevice }
{}

/// A call of the only handle that makes whole transactions, each in one turn, keeps groups rising, whatever its result.
/// A crash at any moment of it leaves a front.
pub fn transacts_go_on_rising<D: SectorDevice>()
    ensures { TransactsGoOnRising D.SectorDevice }
{}

/// So does a call of the only handle that commits nothing: a step, a fetch, a sync, a wait.
pub fn other_calls_go_on_rising<D: SectorDevice>()
    ensures { OtherCallsGoOnRising D.SectorDevice }
{}

/// So do two calls, one after the other: over both of them a crash leaves a front of all that was committed by then.
pub fn calls_go_on_rising<D: SectorDevice>()
    ensures { CallsGoOnRising D.SectorDevice }
{}

/// If groups rise, whatever a crash leaves has each entry that is durable, with all before it.
pub fn durable_entries_have_all_before()
    ensures { DurableEntriesHaveAllBefore }
{}

/// A transaction that was made leaves a pool that its past explains, whatever other handles do beside it.
pub fn transacts_are_explained<D: SectorDevice>()
    ensures { TransactsAreExplained D.SectorDevice }
{}

/// A wait for a receipt keeps that, however it ends: also by a sync, after which the handle doesn't look.
pub fn waits_stay_explained<D: SectorDevice>()
    ensures { WaitsStayExplained D.SectorDevice }
{}

/// With a durable transaction of the only handle, whatever a crash leaves then has each earlier one.
pub fn durable_transacts_have_all_before<D: SectorDevice>()
    ensures { DurableTransactsHaveAllBefore D.SectorDevice }
{}
