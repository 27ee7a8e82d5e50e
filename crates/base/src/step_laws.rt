//! What each step keeps of a pool: each function's contract is a law, and its body does nothing.

ghost use Rattle.base.specs.kept.CrashRule.{OwnDisksMount, SteadyImportsMount};
ghost use Rattle.base.specs.steps.Additions.{PastsAreTold, PastsGrow};
ghost use Rattle.base.specs.steps.Locks.{BusyIsUnsound};
ghost use Rattle.base.specs.steps.Tables.{StepsKeepTables, RunsKeepTables, NewPoolsAreExplained};
ghost use Rattle.base.specs.steps.Readers.{ReadersAreKept};
ghost use Rattle.base.specs.kept.HeldMounts.{MountsAgree, HeldMounts, IdleMounts};
ghost use Rattle.base.specs.steps.SyncEnds.{SuspendedPoolsRefuse, SuspendedPoolsStay, SyncsEndOnTime};

/// Each step keeps what is shown of a pool exact, with what is charged and reserved and free blocks enough for it,
/// and its entries a history that leads to its contents.
pub fn steps_keep_tables()
    ensures { StepsKeepTables }
{}

/// So do steps one after another.
pub fn runs_keep_tables()
    ensures { RunsKeepTables }
{}

/// A pool that was just imported is exact with the empty past.
pub fn new_pools_are_explained()
    ensures { NewPoolsAreExplained }
{}

/// The last step of a started sync, and no other, returns that its group is synced, unless a step is refused.
pub fn syncs_end_on_time()
    ensures { SyncsEndOnTime }
{}

/// A suspended pool stays as it is.
pub fn suspended_pools_stay()
    ensures { SuspendedPoolsStay }
{}

/// It refuses each step except those that only report something: its name, its status, and whether a commit is durable.
pub fn suspended_pools_refuse()
    ensures { SuspendedPoolsRefuse }
{}

/// The step, its reply and the state before it determine the past after the step, over any device.
pub fn pasts_are_told()
    ensures { PastsAreTold }
{}

/// From step to step the past only grows.
pub fn pasts_grow()
    ensures { PastsGrow }
{}

/// An image mounts one thing at most: by one uberblock, one chain of log blocks and one tree.
pub fn mounts_agree()
    ensures { MountsAgree }
{}

/// Between two steps the device of a pool, if no block is a log block, mounts the synced group; or, once a running
/// sync has written an uberblock, the group of the sync.
pub fn held_pools_mount()
    ensures { HeldMounts }
{}

/// While no sync runs it mounts the synced group.
pub fn idle_pools_mount()
    ensures { IdleMounts }
{}

/// A lock is refused as busy exactly if granting it would leave the held locks unsound (`zfs_rlock.c`).
pub fn busy_is_unsound()
    ensures { BusyIsUnsound }
{}

/// No step changes the bytes under a lock that a reader held before it: those of an object's range, or of the pool's
/// name. So a reader sees one state in all of its reads until it unlocks (`zfs_rlock.c`).
pub fn readers_are_kept()
    ensures { ReadersAreKept }
{}

/// An import of a disk that its pool alone wrote mounts the same at each of its moments since the first good flush:
/// each fair image that a crash then leaves mounts the contents that the disk mounted before.
pub fn steady_imports_mount()
    ensures { SteadyImportsMount }
{}

/// A disk that its pool alone wrote, as a create or an import leaves it, mounts the pool's contents. So does each
/// fair image that a crash leaves of it.
pub fn own_disks_mount()
    ensures { OwnDisksMount }
{}
