//! The pool that a command by name opens, its table of names, and why the command was not done once it is closed.

ghost use Rattle.std.specs.Prelude.{◌≡◌, IfErr, IfOk, IsTrue};
ghost use Rattle.commands.specs.Committed.{FailsToOpen, default_dirty_max};
ghost use Rattle.commands.specs.NameRefusals.{IsNameFailureFor};
ghost use Rattle.commands.specs.TableReads.{ReadsTable};
ghost use Rattle.running_pools.specs.LeftDevices.{LosesNothing};
ghost use Rattle.pool_threads.specs.Handles.{OpensBehind, opening_view, shared_of};

use crate::named_steps::NameRefusal;
use base::{ObjectId, PoolError};
use device_model::SectorDevice;
use object_names::NameTable;
use pool_threads::{Handle, Limits, Pool};
use read_commands::{Failure, NameFailure, NotesRefusals, TABLE_RANGE, table_of};
use running_pools::OWNER;
use std::alloc::Global;
use std::sync::Wait;

/// Opens the pool on a device.
///
/// # Errors
/// The refusal of the import, with the call that the device refused, if it was for that. The device comes back.
pub(crate) fn open_pool<D: SectorDevice + NotesRefusals + Drop>(
    alloc: Global,
    device: D,
    moment: u64,
) -> Result<Pool<D>, (Failure, D)>
    ensures opened { IfOk result (λ p. OpensBehind (IsTrue D.keeps_model) (D.disk device)
        default_dirty_max (opening_view (shared_of p))) }
    ensures failed { IfErr result (λ e. FailsToOpen D.SectorDevice device moment e.0) }
    ensures still_held { IfErr result (λ e. LosesNothing D.SectorDevice device e.1) }
{
    match Pool::open(alloc, device, Limits::DEFAULT, moment) {
        Ok(pool) => Ok(pool),
        Err((refusal, device)) => Err((Failure::of_pool(refusal, &device), device)),
    }
}

/// Why a command was not done on a pool that refused it while it ran, if the pool was closed since, and gave its device
/// back.
pub(crate) fn failure_of<D: NotesRefusals>(refusal: NameRefusal, device: &Option<D>) -> NameFailure
    ensures { IsNameFailureFor refusal result }
{
    match refusal {
        NameRefusal::Name(cause) => NameFailure::Name(cause),
        NameRefusal::Engine(refusal) => NameFailure::Plain(Failure::of_closed(refusal, device)),
    }
}

/// The table of names of a pool that runs. `None` if object 0 is of another use.
///
/// # Errors
/// Those of a read of object 0, but for `NoObject`.
pub(crate) fn fetch_table<R: Wait, D: SectorDevice>(
    rt: &R,
    alloc: Global,
    handle: &mut Handle<'_, D>,
) -> Result<Option<NameTable>, PoolError>
    ensures { ReadsTable result handle.old handle.new }
{
    table_of(alloc, handle.fetch(rt, OWNER, ObjectId(0), TABLE_RANGE))
}
