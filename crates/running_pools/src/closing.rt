//! How the device of a pool that threads shared comes back.

ghost use Rattle.std.specs.Prelude.{IfSome};
ghost use Rattle.running_pools.specs.LeftDevices.{Closes, ClosesAfter};
ghost use Rattle.pool_threads.specs.Handles.{WasOf, shared_of};

use device_model::SectorDevice;
use pool_threads::{LastSeen, Pool};

/// Closes a pool that a handle has left, without a sync, and returns its device. `None` only if a thread was stopped
/// while it had the pool.
pub fn close_after<D: SectorDevice + Drop>(pool: Pool<D>, last: LastSeen<D>) -> Option<D>
    requires { WasOf (shared_of pool) last }
    ensures { IfSome result (ClosesAfter (shared_of pool) last) }
{
    match pool.close_after(last) {
        Some(state) => Some(state.into_device()),
        None => None,
    }
}

/// The same, of a pool of which no handle is known.
pub fn close<D: SectorDevice + Drop>(pool: Pool<D>) -> Option<D>
    ensures { IfSome result (Closes (shared_of pool)) }
{
    match pool.close() {
        Some(state) => Some(state.into_device()),
        None => None,
    }
}
