//! What callers rely on: one function for each promise of this crate's calls, proved from the contract of the call
//! alone. So it is refused as soon as that contract promises less.

mod loops;

ghost use Rattle.std.specs.Prelude.{◌≡◌, IfOk, IfSome, IsTrue};
ghost use Rattle.base.specs.history.Past.{Past};
ghost use Rattle.base.specs.kept.LeftDisks.{IsLeft};
ghost use Rattle.base.specs.steps.Explains.{IsLeftBy};
ghost use Rattle.running_pools.specs.LeftDevices.{LeavesContents};
ghost use Rattle.pool_threads.specs.Handles.{OpensBehind, opening_view, shared_of};

use crate::alone::{OWNER, close_alone, open_alone};
use crate::closing::close;
use base::{DEFAULT_DIRTY_MAX, Owner, PoolError};
use device_model::SectorDevice;
use pool_threads::Pool;
use std::alloc::Global;

fn a_command_has_owner_0() -> Owner
    ensures { result.0 ≡ 0 }
{
    OWNER
}

// Whatever a crash leaves of its device then, an import mounts the contents that the first import did.
fn a_pool_that_is_opened_and_closed_has_what_it_had<D: SectorDevice + Drop>(
    alloc: Global,
    device: D,
) -> Result<D, (PoolError, D)>
    ensures { IsTrue D.keeps_model → IfOk result
        (λ after. LeavesContents (λ base contents. contents ≡ base) (D.disk device) (D.disk after)) }
{
    match open_alone(alloc, device, DEFAULT_DIRTY_MAX, 0) {
        Ok((pool, first)) => Ok(close_alone(pool, first)),
        Err(refused) => Err(refused),
    }
}

// Whichever run left the device, a run upon it has left what comes back, whatever the handles did.
fn a_shared_pool_is_closed_upon_what_it_was_opened_with<D: SectorDevice + Drop>(
    device: D,
    pool: Pool<D>,
) -> Option<D>
    requires { OpensBehind (IsTrue D.keeps_model) (D.disk device) 4096
        (opening_view (shared_of pool)) }
    ensures { IsTrue D.keeps_model → (past : Past) → IsLeft past (D.disk device)
        → IfSome result (λ after. ∥ ((later : Past) × IsLeftBy past later.base
        × IsLeft later (D.disk after)) ∥₁) }
{
    close(pool)
}
