//! The two loops of a pool.
//!
//! A loop that ends early would leave a write that waits at the dirty limit waiting for ever, with two exceptions. If
//! the pool is suspended, each call is refused. A syncer that lacks memory, or a block that it needs, is called again
//! until the work is done.

use crate::halt::Halt;
use base::PoolError;
use device_model::SectorDevice;
use pool_threads::Pool;
use std::sync::Wait;

/// Quiesces groups until the pool is stopped.
pub(crate) fn quiesce<D: SectorDevice, W: Wait>(
    rt: &W,
    pool: &Pool<D>,
    halt: &Halt,
) -> Result<(), PoolError> {
    halt.loop_begins();
    halt.note(pool.handle().quiescer(rt))
}

/// Syncs groups until the pool is stopped or suspended. It returns the first refusal.
///
/// A group whose start is refused memory or a read is still quiesced, so the same call may go on.
pub(crate) fn sync<D: SectorDevice, W: Wait>(
    rt: &W,
    pool: &Pool<D>,
    halt: &Halt,
) -> Result<(), PoolError> {
    let mut handle = pool.handle();
    halt.loop_begins();
    let first = halt.note(handle.syncer(rt));
    let mut last = first;
    for _ in rt.forever() {
        match last {
            Err(PoolError::NoMemory | PoolError::Read | PoolError::Damaged { .. }) => {}
            _ => break,
        }
        halt.rest(rt);
        last = handle.syncer(rt);
    }
    first
}
