//! What the crash rule of a pool says: each function's contract is a law, and its body does nothing.

ghost use Rattle.pool_core.specs.KeptSafe.{KeptPoolsAreExplained, KeptPoolsAreLaid};
ghost use Rattle.pool_core.specs.KeptSafe.{KeptPoolsAreSafe};
ghost use Rattle.pool_core.specs.KeptSafe.{KeptPoolsLeaveTheirOwn, StoppedStepsLeaveTheirOwn};
ghost use Rattle.pool_core.specs.KeptSafe.{StoppedStepsAreSafe};
ghost use Rattle.pool_core.specs.LogSafe.{LogFlushesAreSafe, LogWritesAreSafe};

/// A pool that keeps the crash rule with a past is explained by it, on the disk of its device. What is shown is exact.
/// The past's entries are a history that leads to the contents. The disk holds the tree of the synced group, and the
/// free blocks stand apart from it. Each fair image that a crash leaves mounts a cut with every acknowledged entry.
pub fn kept_pools_are_explained()
    ensures { KeptPoolsAreExplained }
{}

/// Of a pool that keeps the crash rule every fair image that a crash now may leave mounts the replay of a
/// conflict-closed cut of its entries with every acknowledged one.
pub fn kept_pools_are_safe()
    ensures { KeptPoolsAreSafe }
{}

/// What a crash leaves of it is a disk that this pool alone wrote, so that a later import and its run go on from there.
pub fn kept_pools_leave_their_own()
    ensures { KeptPoolsLeaveTheirOwn }
{}

/// Its disk is laid out as that of a pool: at rest on the view of the synced group, or between it and the view of the
/// running sync's.
pub fn kept_pools_are_laid()
    ensures { KeptPoolsAreLaid }
{}

/// Where a crash stops a step between its device calls, or within one, it is safe with what was acknowledged before the
/// step.
pub fn stopped_steps_are_safe()
    ensures { StoppedStepsAreSafe }
{}

/// And it leaves a disk that this pool alone wrote.
pub fn stopped_steps_leave_their_own()
    ensures { StoppedStepsLeaveTheirOwn }
{}

/// A write of the log keeps the crash rule, whether a sync runs or not, and whatever the device answers. At each of its
/// moments the disk is safe, and the pool's own.
pub fn log_writes_are_safe()
    ensures { LogWritesAreSafe }
{}

/// So does a flush of the log. Within it the disk is safe with what was acknowledged before it, and after it with each
/// entry whose record is in a log block.
pub fn log_flushes_are_safe()
    ensures { LogFlushesAreSafe }
{}
