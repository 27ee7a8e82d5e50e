//! No sync lacks blocks: laws of what is estimated, charged and reserved.
//!
//! A transaction is admitted with an estimate of the blocks that its sync takes, and these are reserved for its group
//! until the group is synced (`dmu_tx.c`, `dsl_dir.c`). A new pool has what these laws ask for, and each step keeps it:
//! `new_pools_are_explained`, `steps_keep_tables`. Each function's contract is a law, and its body does nothing.

ghost use Rattle.base.specs.steps.Space.{SyncsFit, GroupsFit, SyncsHaveRoom};
ghost use Rattle.base.specs.kept.LogRoom.{OldPoolsHaveRoom};

/// A sync writes no more blocks than its operations are estimated at, whatever is synced and stored before it.
pub fn syncs_fit()
    ensures { SyncsFit }
{}

/// The operations that a group committed are estimated at no more than its open and committed transactions.
pub fn groups_fit()
    ensures { GroupsFit }
{}

/// If what is charged and reserved is exact and covered by free blocks, these suffice for the sync of the quiesced
/// group.
pub fn syncs_have_room()
    ensures { SyncsHaveRoom }
{}

/// A pool of version 1 has room for an import if its free blocks are more than a program of that version reserved for
/// the records of its log.
pub fn old_pools_have_room()
    ensures { OldPoolsHaveRoom }
{}
