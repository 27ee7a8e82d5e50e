//! What callers rest on of the loops of a quiescer and a syncer.

ghost use Rattle.std.specs.Prelude.{◌≢◌, IfErr, IfOk, IsTrue, Option, Some};
ghost use Rattle.base.specs.declared.error.PoolError.TheVariants as error;
ghost use Rattle.base.specs.declared.step.Reply as declared_reply;
ghost use Rattle.base.specs.declared.step.Reply.TheVariants as reply;
ghost use Rattle.pool_tables.specs.declared.duty.Duty.TheVariants as duty;
ghost use Rattle.pool_threads.specs.Answers.{Takes};
ghost use Rattle.pool_threads.specs.Handles.{moment_of};
ghost use Rattle.pool_threads.specs.Loops.{Works};
ghost use Rattle.pool_threads.specs.Serves.{IsServedTurn};

use base::{PoolError, Reply};
use device_model::SectorDevice;
use pool_threads::Handle;
use std::sync::Wait;

// A quiescer that returns Ok had no turn in which a write was refused.
fn a_quiescer_that_ends_well_had_no_write_refused<D: SectorDevice, W: Wait>(
    rt: &W,
    handle: &mut Handle<'_, D>,
) -> Result<(), PoolError>
    ensures { IfOk result (λ _. Takes (λ t. (r : Option declared_reply.Reply)
        × (r ≢ Some (reply.Refused error.Write))
        × IsServedTurn (IsTrue D.keeps_model) duty.Quiesce r t) handle.old handle.new) }
{
    handle.quiescer(rt)
}

// A quiescer makes no step of a sync, and waits if a group is not ready.
fn a_quiescer_only_quiesces<D: SectorDevice, W: Wait>(
    rt: &W,
    handle: &mut Handle<'_, D>,
) -> Result<(), PoolError>
    ensures worked { IfOk result (λ _. Works duty.Quiesce handle.old handle.new) }
    ensures ready { IfErr result (λ e. e ≢ PoolError.NotReady) }
{
    handle.quiescer(rt)
}

// A syncer starts syncs with the pool's moment.
fn a_syncer_starts_at_the_moment_of_the_pool<D: SectorDevice, W: Wait>(
    rt: &W,
    handle: &mut Handle<'_, D>,
) -> Result<(), PoolError>
    ensures { IfOk result
        (λ _. Works (duty.Sync (moment_of handle.old)) handle.old handle.new) }
{
    handle.syncer(rt)
}
