//! Work beside the loops.

ghost use Rattle.std.specs.Prelude.{◌≡◌, Err, IfOk, Ok, OnOk};

use crate::halt::Halt;
use crate::loops::{quiesce, sync};
use base::PoolError;
use device_model::SectorDevice;
use pool_threads::Pool;
use std::sync::Wait;
use std::thread::{Threads, join};

/// Runs work beside the two loops of a pool, each of which has a thread of its own. When the work has returned, it
/// stops the loops and waits for their ends.
///
/// It serves once for a pool: a pool whose loops were stopped has none any more. It begins with the work once both
/// loops have begun. A loop that is refused raises the flag `halt`: work that takes long looks at it and returns. The
/// loop that syncs is called again when memory lacks, or a block that it needs can't be read.
///
/// # Errors
/// The first refusal of these that is not `Suspended`, or else `Suspended`: that of the loop that syncs, that of the
/// loop that closes groups, that of the work. `NoMemory` is returned too if no threads can be made for the loops. The
/// work isn't called then.
pub fn run_beside_loops<
    D: SectorDevice + Send,
    R: Threads + Wait + Sync,
    T: Drop,
    F: FnOnce() -> Result<T, PoolError> + Drop,
>(rt: &R, pool: &Pool<D>, halt: &Halt, work: F) -> Result<T, PoolError>
    requires { F.pre work }
    ensures worked { IfOk result (λ t. F.post work (Ok t)) }
{
    let (worked, looped) = work_beside_loops(rt, pool, halt, work);
    match looped {
        Ok(()) => worked,
        Err(PoolError::Suspended) => match worked {
            Err(error) => Err(error),
            Ok(_) => Err(PoolError::Suspended),
        },
        Err(error) => Err(error),
    }
}

/// The same, but what the work returned comes back whatever came of the loops: first that, then what came of them.
///
/// If no threads can be made for the loops, the work isn't called, and its result is `NoMemory`.
///
/// # Errors
/// The first refusal of a loop that is not `Suspended`, or else `Suspended`: that of the loop that syncs, that of the
/// loop that closes groups.
pub fn work_beside_loops<
    D: SectorDevice + Send,
    R: Threads + Wait + Sync,
    T: Drop,
    F: FnOnce() -> Result<T, PoolError> + Drop,
>(rt: &R, pool: &Pool<D>, halt: &Halt, work: F) -> (Result<T, PoolError>, Result<(), PoolError>)
    requires { F.pre work }
    ensures worked { IfOk result.0 (λ t. F.post work (Ok t)) }
{
    let (quiesced, (synced, worked)) = join(
        rt,
        move || quiesce(rt, pool, halt),
        move ||
            requires { F.pre work }
        { sync_beside(rt, pool, halt, work) },
    );
    (worked, cause(synced, quiesced))
}

// The first refusal that is not `Suspended`, which only follows from another one; or else `Suspended`.
fn cause(first: Result<(), PoolError>, second: Result<(), PoolError>) -> Result<(), PoolError>
    ensures { OnOk result ((first ≡ Ok tt) × (second ≡ Ok tt)) }
{
    match (first, second) {
        (Ok(()), second) => second,
        (Err(PoolError::Suspended), Err(error)) => Err(error),
        (Err(error), _) => Err(error),
    }
}

// The loop that syncs, beside the work.
fn sync_beside<
    D: SectorDevice + Send,
    R: Threads + Wait + Sync,
    T: Drop,
    F: FnOnce() -> Result<T, PoolError> + Drop,
>(rt: &R, pool: &Pool<D>, halt: &Halt, work: F) -> (Result<(), PoolError>, Result<T, PoolError>)
    requires { F.pre work }
    ensures worked { IfOk result.1 (λ t. F.post work (Ok t)) }
{
    join(
        rt,
        move || sync(rt, pool, halt),
        move || {
            let worked = begin(rt, halt, work);
            // also after a refusal, since the loops are joined
            pool.stop();
            worked
        },
    )
}

// The work, once both loops have begun.
fn begin<W: Wait, T, F: FnOnce() -> Result<T, PoolError> + Drop>(
    rt: &W,
    halt: &Halt,
    work: F,
) -> Result<T, PoolError>
    requires { F.pre work }
    ensures worked { IfOk result (λ t. F.post work (Ok t)) }
{
    halt.wait_for_loops(rt)?;
    work()
}
