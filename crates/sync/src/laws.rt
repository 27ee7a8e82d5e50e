//! What holds of each sync: each function's contract is a law, and its body does nothing.

ghost use Rattle.sync.specs.Laws.{CallsAreWritable, SyncsBeginWithNothing, BlocksAreWritten};
ghost use Rattle.sync.specs.Laws.{ConfigsAreStaged, SyncsBeginAtRest, SyncsEndAtRest, SyncsHavePhases};
ghost use Rattle.sync.specs.Laws.{SyncsHoldLogs, SyncsKeepPhases, SyncsTakeLogBlocks, SyncsTakeLogFlushes};

/// All that a sync writes lies in the block area or after the boot header of a label (On-Disk Specification, chapter
/// 1).
pub fn calls_are_writable()
    ensures { CallsAreWritable }
{}

/// Before its first call a sync has made nothing.
pub fn syncs_begin_with_nothing()
    ensures { SyncsBeginWithNothing }
{}

/// Of the block area a sync has changed the blocks that it wrote so far, and no other byte.
pub fn blocks_are_written()
    ensures { BlocksAreWritten }
{}

/// A sync begins at rest on the old view, if what counts could pass for no other config or log block of the
/// view of the sync, and what a read gives is fair.
pub fn syncs_begin_at_rest()
    ensures { SyncsBeginAtRest }
{}

/// A sync that is under way is in one of its phases.
pub fn syncs_have_phases()
    ensures { SyncsHavePhases }
{}

/// Each moment of a call of a sync that is under way is of one of its phases, and after the call it is under way: what
/// `SyncRun::next` says of a call goes on over all calls.
pub fn syncs_keep_phases()
    ensures { SyncsKeepPhases }
{}

/// If the logs of both views were held before a call of a sync that is under way, they are held at each moment of it. A
/// flush of the sync fixes all their blocks.
pub fn syncs_hold_logs()
    ensures { SyncsHoldLogs }
{}

/// A log block may be written between two calls of a sync, at an address that is spare in both views and for the sync.
/// The sync is under way then between the views with the block, also if the device refuses the write, and their logs
/// are held.
pub fn syncs_take_log_blocks()
    ensures { SyncsTakeLogBlocks }
{}

/// The log may be flushed between two calls of a sync, also between two writes of its uberblock. All log blocks of both
/// views are fixed then.
pub fn syncs_take_log_flushes()
    ensures { SyncsTakeLogFlushes }
{}

/// After its last call a sync is at rest on its own view.
pub fn syncs_end_at_rest()
    ensures { SyncsEndAtRest }
{}

/// What a sync writes at the place of a label's config is the config of its label stages.
pub fn configs_are_staged()
    ensures { ConfigsAreStaged }
{}
