//! What the crash rule says of a pool that handles step, whose lock is free, or that was finished: each function's
//! contract is a law, and its body does nothing.
ghost use Rattle.pool_threads.specs.Laws.{FinishedPoolsAreLeft, FreePoolsAreExplained, SteppedPoolsAreExplained, SteppedPoolsAreSafe, StoppedPoolsAreLeft};

use device_model::SectorDevice;

/// In a step of a pool that follows the crash rule, every fair image that a crash at some moment since its start may
/// have left mounts the replay of a conflict-closed cut of its entries, with all that was acknowledged before the step.
/// The step is one of a turn (`made.made` of what a call of a handle promises), and the disk is that of the device
/// under the lock.
pub fn stepped_pools_are_safe()
    ensures { SteppedPoolsAreSafe }
{}

/// Whenever the pool's lock is free, one history explains the pool: its contents and tables, its synced tree and free
/// blocks, and what each crash may leave: the history replays to the contents, and every fair image mounts a cut of it
/// with all that was acknowledged. So it is after each step of each handle, of the disk under the lock, in a pool that
/// follows the crash rule. The history goes on from turn to turn, whichever thread has them.
pub fn stepped_pools_are_explained()
    ensures { SteppedPoolsAreExplained }
{}

/// And if a crash stops the step, between its device calls or within one, a run with its past left the disk. So an
/// import of what the crash leaves goes on from there (`Pool::open`: `opened`).
pub fn stopped_pools_are_left()
    ensures { StoppedPoolsAreLeft }
{}

/// One history explains a pool whenever its lock is free, whatever was done before: also if it was just opened, looked
/// at or closed. A view explains the state under the lock then (`PoolRule`), and the state that `Pool::close` returns.
pub fn free_pools_are_explained<D: SectorDevice>()
    ensures { FreePoolsAreExplained D.SectorDevice }
{}

/// Of the device that `Pool::finish` gives back, every fair image that a crash leaves mounts a cut with all that was
/// acknowledged, also if the sync was refused. An import of it goes on from there: a run left it whose past goes on
/// from the last one of the pool.
pub fn finished_pools_are_left<D: SectorDevice>()
    ensures { FinishedPoolsAreLeft D.SectorDevice }
{}
