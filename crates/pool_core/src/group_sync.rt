//! Syncs of whole groups, made of the steps of a pool.
//!
//! A group is open, then closed, then quiesced, then syncing (`txg.c`). One call here brings the group that is open
//! through all four, after the groups before it: each group is synced after the one before.

ghost use Rattle.std.specs.Prelude.{is_some};
ghost use Rattle.base.specs.declared.step.Reply.TheVariants as reply;
ghost use Rattle.base.specs.declared.step.Step.TheVariants as step;
ghost use Rattle.pool_core.specs.GroupSyncs.{EndsSync, If, SyncsClosed, SyncsOpen};
ghost use Rattle.pool_core.specs.States.{shown};

use crate::calls::{CloseGroup, MarkQuiesced, PoolCall, StartSync, SyncStep};
use crate::state::PoolState;
use base::{Group, PoolError};
use device_model::SectorDevice;
use pool_tables::Progress;

impl<D: SectorDevice> PoolState<D> {
    /// Syncs the group that is open, and returns it. Everything that was committed so far is then on the device, and a
    /// crash doesn't lose it. Another group is open afterwards.
    ///
    /// It ends a sync that runs, syncs a group that is closed, and then closes and syncs the open one. All writes and
    /// flushes are made in this call. The moment, in seconds, is stored in the uberblocks. Transactions that are open
    /// in these groups have to end first.
    ///
    /// # Errors
    /// Those of the steps that it makes, of which the ones before the refused one stay made, so that the call can be
    /// made again: `Suspended`; `NotReady` if a transaction of a closed group is open, or the open group is 2^60;
    /// `NoMemory`; `Read` if the device refused a read, and `Damaged` if it gave another block than the tree's; `Write`
    /// or `Flush` if the device refused, and then the pool is suspended.
    pub fn sync_open_group(&mut self, moment: u64) -> Result<Group, PoolError>
        ensures { SyncsOpen moment result self.old self.new }
    {
        self.end_running_sync()?;
        self.sync_closed_group_if_any(moment)?;
        CloseGroup.make(self)?;
        self.sync_closed_group(moment)
    }

    fn end_running_sync(&mut self) -> Result<(), PoolError>
        ensures { If (is_some (shown self.old).line.syncing) EndsSync result self.old self.new }
    {
        if self.status().syncing.is_some() {
            self.end_sync()?;
        }
        Ok(())
    }

    fn sync_closed_group_if_any(&mut self, moment: u64) -> Result<(), PoolError>
        ensures { If (is_some (shown self.old).line.middle) (SyncsClosed moment)
            result self.old self.new }
    {
        if self.status().middle.is_some() {
            self.sync_closed_group(moment)?;
        }
        Ok(())
    }

    // A group that is quiesced already can't be marked again. If it can't be quiesced yet, its sync doesn't start.
    fn sync_closed_group(&mut self, moment: u64) -> Result<Group, PoolError>
        ensures { SyncsClosed moment result self.old self.new }
    {
        let _ = MarkQuiesced.make(self);
        StartSync { moment }.make(self)?;
        self.end_sync()
    }

    // Makes the steps of the running sync, up to its end.
    fn end_sync(&mut self) -> Result<Group, PoolError>
        ensures { EndsSync result self.old self.new }
    {
        loop {
            if let Progress::Synced(group) = SyncStep.make(self)? {
                return Ok(group);
            }
        }
    }
}
