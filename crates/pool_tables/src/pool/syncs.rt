//! The groups of a pool and their syncs. A group closes and is quiesced. When its sync starts, all that it writes is
//! planned. For that the top of each object that it changes is read, if it has one, then the indirect blocks that the
//! plan looks at, and the records that the group changes in part: the tables keep no pointer below those of the synced
//! tree's directories. Then it is written out call by call. After the last call the pool lays its changes into the
//! synced objects, and what the sync replaced is free.

ghost use Rattle.std.specs.Prelude.{◌≡◌, ◌<◌, ℕ, All, List, IfErr, IfOk, IsTrue, OnErr, false, is_some, true, unwrap_or, vec_len};
ghost use Rattle.base.specs.formats.Geometry.{block_count, is_block_of};
ghost use Rattle.base.specs.formats.Limits.{object_count, pointer_count};
ghost use Rattle.base.specs.kept.LabelConfigs.{WritesName};
ghost use Rattle.extents.specs.Synced.{HaveLengthsAfter, patched_contents};
ghost use Rattle.unsynced_extents.specs.Unsynced.{MovesUp, changes_at, name_at};
ghost use Rattle.contents.specs.ContentsShown.{contents_of};
ghost use Rattle.tree_blocks.specs.Pointers.{pointers_of};
ghost use Rattle.tree_blocks.specs.SyncedTrees.{lengths_after, pointers_after};
ghost use Rattle.tree_blocks.specs.TreeObjects.{lengths_of};
ghost use Rattle.pool_tables.specs.Told.{SamePlaces};
ghost use Rattle.pool_tables.specs.Numbers.{IsGroup};
ghost use Rattle.intent_log.specs.Kept.{header_fields, log_shown};
ghost use Rattle.intent_log.specs.RunLogs.{KeepsHeader};
ghost use Rattle.sync.specs.GroupLabels.{WritesUberblock, stages_for};

use crate::blocks::{end_charges, forget_all, give_log, keep_blocks, take_all};
use crate::pool::{PoolTables, Progress, RunningSync};
use base::{Group, ObjectId, Pointer, PoolError, WRITTEN_VERSION};
use contents::SyncedTree;
use group_plans::{GroupSource, plan_group};
use labels::Stage;
use mounted::give_all;
use object_maps::BlockReader;
use std::collections::BTreeMap;
use sync::{SyncCall, SyncRun};
use tree_blocks::ObjectEntry;
use tree_plans::TreePlan;
use uberblocks::Uberblock;
use unsynced_extents::UnsyncedExtents;

impl PoolTables {
    ghost use Rattle.base.specs.disk.Disk.{bytes_of};
    ghost use Rattle.base.specs.disk.Calls.{counted};
    ghost use Rattle.device_model.specs.Reading.{OnlyReads};
    ghost use Rattle.sync.specs.Calls.{plain_answer};
    ghost use Rattle.pool_tables.specs.NextCalls.{MakesNextOf};
    ghost use Rattle.group_plans.specs.GroupPlans.{FitsIn, IsHeldRefusal, IsPlanRefusal, TakesLowest};
    ghost use Rattle.pool_tables.specs.Forgotten.{ForgetsFreed};
    ghost use Rattle.pool_tables.specs.GroupPlans.{BeginsPlan, HoldsOldestObjects, HoldsSyncedTree, IsPoolShort, MakesOldestTree, begun_plan, uberblock_for};
    ghost use Rattle.pool_tables.specs.Told.{Leads, config_of, sync_step_reply, pool_told};
    ghost use Rattle.pool_tables.specs.SyncPhases.{StepsPhases, run_in};
    ghost use Rattle.pool_tables.specs.Lines.{ChecksStart};
    ghost use Rattle.pool_tables.specs.Shows.{contents_after_oldest, geometry_of, plan_of, pool_shown, shown_given};
    ghost use Rattle.pool_tables.specs.KeptTrees.{KeepsTree};
    ghost use Rattle.pool_tables.specs.StepAnswers.{ClosesGroup, MarksQuiesced, StepsSync};
    ghost use Rattle.pool_tables.specs.SyncStarts.{IsSyncStart};

    /// The open group quiesces, and the next one opens, whose number it returns. Refused, in this order, `Suspended` or
    /// `NotReady`.
    pub fn close_group(&mut self) -> Result<Group, PoolError>
        ensures step { ClosesGroup result (pool_shown self.old) (pool_shown self.new) }
        ensures tree { KeepsTree self.old self.new }
    {
        self.check_running()?;
        self.groups.close_open()
    }

    /// The closed group is quiesced. Refused, in this order, `Suspended`, or `NotReady` if none quiesces or a
    /// transaction of it is open.
    pub fn mark_quiesced(&mut self) -> Result<Group, PoolError>
        ensures step { MarksQuiesced result (pool_shown self.old) (pool_shown self.new) }
        ensures tree { KeepsTree self.old self.new }
    {
        self.check_running()?;
        self.groups.mark_quiesced()
    }

    /// Starts the sync of the quiesced group, with this moment in its uberblocks, and takes the blocks that it
    /// writes. Of each changed object, rising, it reads the top, if the object has two levels, and then the indirect
    /// blocks that the plan looks at. Then it reads each record that the group changes in part. Refused, in this
    /// order, `Suspended` or `NotReady`, then `NoMemory`, `Read` or `Damaged` as they come, and then nothing is
    /// changed.
    pub fn start_sync<B: BlockReader>(
        &mut self,
        reader: &mut B,
        moment: u64,
    ) -> Result<Group, PoolError>
        requires sized { B.size reader.old ≡ geometry_of self.old }
        ensures geometry { geometry_of self.new ≡ geometry_of self.old }
        ensures start { IsSyncStart (IsTrue B.keeps_model) (bytes_of (B.disk reader.old).now) moment
            result (pool_told self.old) (pool_told self.new) }
        ensures reads { OnlyReads B.SectorDevice result reader.old reader.new }
        ensures unchanged { OnErr result (self.new ≡ self.old) }
    {
        self.check_running()?;
        let group = self.check_start()?;
        let planned = self.plan_oldest(reader, group)?;
        let running = self.running_sync(group, moment, planned);
        take_all(&mut self.free, &running.run.blocks);
        self.sync = Some(running);
        let Ok(_) = self.groups.start_sync() else {
            unreachable!();
        };
        Ok(group)
    }

    // The quiesced group, where a sync of it may start.
    fn check_start(&self) -> Result<Group, PoolError>
        ensures group { IfOk result (λ group. IsGroup group.0) }
        ensures may { ChecksStart result self.now.groups.line }
    {
        self.groups.ready_to_sync()
    }

    // The tree after the oldest unsynced group, which is this one. Over a device that holds the synced tree, its blocks
    // hold the objects after the group, and no block is found damaged.
    fn plan_oldest<B: BlockReader>(
        &self,
        reader: &mut B,
        group: Group,
    ) -> Result<TreePlan, PoolError>
        requires sized { B.size reader.old ≡ self.now.geometry }
        ensures reads { OnlyReads B.SectorDevice result reader.old reader.new }
        ensures fits { IfOk result (FitsIn self.now.geometry) }
        ensures taken { IfOk result (TakesLowest self.now.free.free) }
        ensures tree { IfOk result (MakesOldestTree self.now group.0) }
        ensures objects { IsTrue B.keeps_model
            → HoldsSyncedTree self.now (bytes_of (B.disk reader.old).now)
            → IfOk result (HoldsOldestObjects self.now group.0) }
        ensures no_space { IfErr result (IsPoolShort self.now group.0) }
        ensures refused { IfErr result IsPlanRefusal }
        ensures sound { IsTrue B.keeps_model
            → HoldsSyncedTree self.now (bytes_of (B.disk reader.old).now)
            → IfErr result IsHeldRefusal }
    {
        let source = GroupSource {
            alloc: self.alloc,
            geometry: self.geometry,
            guid: self.guid,
            group,
            tree: &self.synced.tree,
            free: &self.free,
        };
        plan_group(
            reader,
            &self.synced_frame(),
            &source,
            self.log.records(),
            self.changes.oldest(),
        )
    }

    // The sync of the group with this plan. If the group gives a name, the even labels come first, since label 1 has
    // the config that is chosen so far.
    fn running_sync(&self, group: Group, moment: u64, planned: TreePlan) -> RunningSync
        requires group { IsGroup group.0 }
        requires fits { FitsIn self.now.geometry planned }
        ensures geometry { result.run.geometry ≡ self.now.geometry }
        ensures group { result.group ≡ group }
        ensures moment { result.moment ≡ moment }
        ensures begins { BeginsPlan planned result }
        ensures plan { plan_of self.now.synced.tree (contents_after_oldest self.now) result
            ≡ begun_plan self.now group.0 moment planned }
        ensures header { KeepsHeader group.0 (header_fields result.header)
            (log_shown self.now.log) }
        ensures uberblock { WritesUberblock
            (uberblock_for self.now group.0 moment planned.root) result.run }
        ensures stages { result.run.stages ≡ stages_for self.now.guid group.0 self.now.geometry
            Stage.Even (name_at self.now.changes 0) }
        ensures named { (before : List ℕ) → WritesName (config_of result.run.stages)
            self.now.geometry self.now.guid group.0 before
            (unwrap_or (name_at self.now.changes 0) before) }
    {
        let TreePlan {
            blocks,
            entries,
            directories,
            root,
            freed,
        } = planned;
        let header = self.log.header_for(group);
        let uberblock = Uberblock {
            version: WRITTEN_VERSION,
            group,
            guid: self.guid,
            moment,
            root,
            import_number: self.import_number,
            log_address: header.address,
            log_number: header.number,
        };
        let name = self.changes.oldest().name();
        RunningSync {
            group,
            moment,
            header,
            run: SyncRun::new(self.geometry, blocks, &uberblock, name, Stage::Even),
            entries,
            directories,
            root,
            freed,
        }
    }

    /// Makes the next device call of the running sync; after the last one its group is synced. Then no read takes a
    /// block that it freed from memory, and the device keeps those that it wrote. Refused, in this order, `Suspended`,
    /// `NotReady`, or `Write` or `Flush` as the device refused, and then the pool is suspended.
    pub fn sync_step<B: BlockReader>(&mut self, device: &mut B) -> Result<Progress, PoolError>
        requires { B.size device.old ≡ geometry_of self.old }
        ensures size { B.size device.new ≡ B.size device.old }
        ensures geometry { geometry_of self.new ≡ geometry_of self.old }
        ensures step { StepsSync result (pool_shown self.old) (pool_shown self.new) }
        ensures called { MakesNextOf (IsTrue B.keeps_model) B.disk self.old (plain_answer result)
            device.old device.new }
        ensures count { B.refused device.new ≡ counted result (B.refused device.old) }
        ensures leads { IsTrue B.keeps_model → Leads (sync_step_reply result)
            (pool_told self.old (bytes_of (B.disk device.old).now))
            (pool_told self.new (bytes_of (B.disk device.new).now)) }
        ensures phases { IsTrue B.keeps_model → StepsPhases result self.old.suspended
            (run_in self.old) (run_in self.new) (B.disk device.old) (B.disk device.new) }
        ensures forgets { ForgetsFreed result self.old (B.cached device.new) }
    {
        self.check_running()?;
        let Some(running) = &mut self.sync else {
            return Err(PoolError::NotReady);
        };
        match running.run.next(device) {
            Ok(SyncCall::Last) => {
                let Some(synced) = self.sync.take() else {
                    unreachable!();
                };
                let RunningSync {
                    group,
                    moment: _,
                    header,
                    run,
                    entries,
                    directories,
                    root,
                    freed,
                } = synced;
                let Ok(_) = self.groups.finish_sync() else {
                    unreachable!();
                };
                end_charges(&mut self.dirty, &mut self.free, group);
                self.log.drop_synced(group);
                lay_oldest(
                    &mut self.changes,
                    &mut self.synced,
                    root,
                    directories,
                    entries,
                );
                give_log(&mut self.free, self.geometry, &mut self.log, header);
                forget_all(device, &freed);
                self.give_freed(&freed);
                keep_blocks(device, run);
                Ok(Progress::Synced(group))
            }
            Ok(SyncCall::More) => Ok(Progress::More),
            Err(error) => {
                self.suspended = true;
                Err(error)
            }
        }
    }

    // What the tree of the synced group replaced is free (rule 6).
    fn give_freed(&mut self, freed: &[u64])
        requires none { is_some self.old.sync ≡ false }
        requires placed { All (λ address. is_block_of (block_count self.old.geometry) address ≡ true)
            freed.now }
        ensures geometry { self.new.geometry ≡ self.old.geometry }
        ensures sync { self.new.sync ≡ self.old.sync }
        ensures synced { self.new.synced ≡ self.old.synced }
        ensures shown { pool_shown self.new ≡ shown_given freed.now (pool_shown self.old) }
    {
        give_all(&mut self.free, self.geometry, freed);
    }
}

// The oldest group is synced: the synced tree is the one that its sync wrote, with the objects and the name that the
// group left, and the groups after it move up.
fn lay_oldest(
    changes: &mut UnsyncedExtents,
    synced: &mut SyncedTree,
    root: Pointer,
    directories: Vec<Pointer>,
    entries: BTreeMap<ObjectId, ObjectEntry>,
)
    requires directories { vec_len directories ≡ pointer_count }
    requires lengths { HaveLengthsAfter (changes_at changes.old 0) entries synced.old.tree }
    ensures contents { contents_of synced.new
        ≡ patched_contents (changes_at changes.old 0) (name_at changes.old 0)
        (contents_of synced.old) }
    ensures changes { MovesUp changes.old changes.new }
    ensures pointers { SamePlaces (pointers_of synced.new.tree)
        (pointers_after root directories.items entries synced.old.tree) }
    ensures lengths { (n : ℕ) → n < object_count
        → lengths_of synced.new.tree n ≡ lengths_after entries synced.old.tree n }
    ensures root { synced.new.tree.root ≡ root }
{
    changes
        .oldest()
        .lay_into(synced, root, directories, entries);
    changes.drop_oldest();
}
