//! What keeps a pool going, beside the threads that use it.

use base::Group;

/// What a thread does for a pool, one step after another: `PoolState::due_step` of `pool_core` says which is due.
#[derive(Clone, Copy, Debug, PartialEq, Eq)]
pub enum Duty {
    /// It makes all commits durable: it writes the pending records to the log, and then flushes it (`zil_commit` of
    /// `zil.c`).
    CommitLog,
    /// It closes the open group if bytes are charged to it and no closed one is left, and marks the closed one as
    /// quiesced once none of its transactions is open (`txg_quiesce_thread` of `txg.c`).
    Quiesce,
    /// It syncs each group that is quiesced, with this moment, in seconds, in its uberblocks (`txg_sync_thread` of
    /// `txg.c`).
    Sync(u64),
    /// It syncs groups up to this one, with this moment, in seconds, in their uberblocks, and closes and marks them
    /// before that (`txg_wait_synced` of `txg.c`).
    SyncUpTo(Group, u64),
}
