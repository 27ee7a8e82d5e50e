//! The device calls of a sync, one at a time, in an order in which a crash at any moment leaves the old group or the
//! new one.
//!
//! A disk may tear and reorder what was written since its last flush, so only flushes make an order. OpenZFS writes
//! its labels in the same order (`vdev_config_sync` in `vdev_label.c`; On-Disk Specification, chapter 1). A place is
//! a block, a label's config or an uberblock slot. It is *settled* if none of its writes is unflushed. Before a sync
//! and after it these rules hold, if s is the synced group and U its uberblock:
//!
//! 1. U is settled in its slot in all four labels, and each other uberblock that counts has a lower group: U is active.
//! 2. The config that is chosen for U is settled in both labels of one stage at least.
//! 3. Each block of U's tree is settled.
//! 4. Each flushed block of U's log chain is settled. A later one may be torn: the chain ends at the first such block.
//! 5. The transactions whose records are in that chain, with those of the groups up to s, are closed under conflicts.
//! 6. What was acknowledged as durable is in U's tree or in a flushed log block.
//!
//! The calls keep the rules so:
//!
//! 7. First the blocks, each at a place that is free in U's tree, and a flush. So no write touches 3, and an uberblock
//!    never names a block that isn't settled.
//! 8. If the configs change: those of the first stage, and a flush. The other stage keeps 2 meanwhile.
//! 9. The uberblock in labels 0 to 3, and a flush. Its slot is not U's, so a crash leaves U or the new one active.
//! 10. If the configs change: those of the other stage, and a flush.
//! 11. Only after the last flush is the group synced, and only then may the blocks that it replaced be written again.
//! 12. If the device refuses a call, that call is still the next one, and what the calls before it left stays.
//! 13. Between two calls the pool may write the next log block, at an address that no tree, no log and no block of the
//!     sync has, and it may flush. A flush between two writes of 9 makes the new uberblock active before the others are
//!     written.

ghost use Rattle.std.specs.Prelude.{◌≡◌, ◌<◌, ◌+◌, All, IfErr, IfSome, IsTrue, if◌then◌else◌};
ghost use Rattle.std.specs.Option.{option_map};
ghost use Rattle.base.specs.formats.Geometry.{IsGeometry, block_count};
ghost use Rattle.tree_plans.specs.declared.planner.PlannedBlock.{PlannedBlock};
ghost use Rattle.uberblocks.specs.Slots.{fields_of};

use crate::call::{Call, plain_call, staged_call};
use base::{PoolError, PoolName};
use checked_blocks::Block;
use device_model::SectorDevice;
use labels::{Geometry, LabelConfig, Stage};
use tree_plans::PlannedBlock;
use uberblocks::{Uberblock, slot};

/// The configs of a sync that changes the labels: their block, and which pair of labels comes first.
#[derive(Drop)]
pub struct LabelStages {
    /// The sealed block of the config, the same for each label.
    pub config: Block,
    /// The pair of labels that is written before the uberblocks.
    pub first: Stage,
}

impl LabelStages {
    ghost use Rattle.sync.specs.GroupLabels.{IsConfigFor, stages_for};

    // If the group of this uberblock gives the pool a name, the configs with it.
    fn of_group(
        geometry: Geometry,
        uberblock: &Uberblock,
        name: Option<&PoolName>,
        first: Stage,
    ) -> Option<LabelStages>
        ensures stages { result ≡ stages_for uberblock.now.guid uberblock.now.group.0 geometry first
            (option_map (λ n. n.now) name.entry) }
        ensures config { IfSome name.entry (λ n.
            IsConfigFor uberblock.now.guid uberblock.now.group.0 geometry n.now) }
    {
        let name = name?.copy();
        let config = LabelConfig::new(uberblock.guid, uberblock.group, geometry.size(), name);
        Some(LabelStages {
            config: config.encode(),
            first,
        })
    }
}

/// Which call of a sync was made.
#[derive(Clone, Copy)]
pub enum SyncCall {
    /// One that others follow.
    More,
    /// The last.
    Last,
}

/// A sync that runs.
#[derive(Drop)]
pub struct SyncRun {
    /// The size of the device.
    pub geometry: Geometry,
    /// The sealed blocks with their places, in the order in which they are written.
    pub blocks: Vec<PlannedBlock>,
    /// The bytes of the uberblock's slot, the same for each label.
    pub uberblock: [u8; 1024],
    /// The slot of the uberblock's group.
    pub slot: usize,
    /// The configs, if the sync changes them.
    pub stages: Option<LabelStages>,
    /// How many device calls were made.
    pub done: usize,
    ghost sized: { IsGeometry geometry },
    ghost slot_in_range: { slot < 128 },
    ghost placed: { All (λ (b : PlannedBlock). b.index < block_count geometry) blocks.items },
}

impl SyncRun {
    ghost use Rattle.std.specs.Prelude.{length};
    ghost use Rattle.base.specs.disk.SyncOrder.{DeviceCall};
    ghost use Rattle.base.specs.disk.Calls.{counted};
    ghost use Rattle.sync.specs.CallOrder.{call_said};
    ghost use Rattle.sync.specs.Calls.{HasCall, IsNextCall, MakesCall, MakesNextCall, TargetFits, calls_of, plain_answer, refusal_of};
    ghost use Rattle.sync.specs.Made.{KeepsWritten};
    ghost use Rattle.sync.specs.Phases.{KeepsPhases};
    ghost use Rattle.sync.specs.Runs.{CountsCall, HasPlaces, call_count};
    ghost use Rattle.uberblocks.specs.Slots.{IsWithinLimits, slot_bytes};
    ghost use Rattle.sync.specs.GroupLabels.{IsConfigFor, WritesUberblock, stages_for};

    /// The sync of the uberblock's group, with no call made yet. It writes these blocks, then the uberblock into the
    /// slot of its group in each label. If the group gives the pool a name, it writes the config with that name into
    /// each label: the labels of `first` before the uberblocks, the others after them.
    pub fn new(
        geometry: Geometry,
        blocks: Vec<PlannedBlock>,
        uberblock: &Uberblock,
        name: Option<&PoolName>,
        first: Stage,
    ) -> Self
        requires limits { IsWithinLimits (fields_of uberblock.now) }
        requires places { HasPlaces geometry blocks.items }
        ensures geometry { result.geometry ≡ geometry }
        ensures blocks { result.blocks ≡ blocks }
        ensures bytes { result.uberblock ≡ slot_bytes (fields_of uberblock.now) }
        ensures uberblock { WritesUberblock (fields_of uberblock.now) result }
        ensures stages { result.stages ≡ stages_for uberblock.now.guid uberblock.now.group.0 geometry
            first (option_map (λ n. n.now) name.entry) }
        ensures config { IfSome name.entry (λ n.
            IsConfigFor uberblock.now.guid uberblock.now.group.0 geometry n.now) }
        ensures done { result.done ≡ 0 }
    {
        SyncRun {
            geometry,
            blocks,
            uberblock: uberblock.encode(),
            slot: slot(uberblock.group),
            stages: LabelStages::of_group(geometry, uberblock, name, first),
            done: 0,
        }
    }

    /// Returns how many device calls the sync has in all.
    pub fn total(&self) -> usize
        ensures count { result ≡ call_count self.now }
        ensures calls { result ≡ length (calls_of self.now) }
    {
        match self.stages {
            Some(_) => self.blocks.len() + 12,
            None => self.blocks.len() + 6,
        }
    }

    /// Makes the next device call in the order of rules 7 to 10, and returns whether others follow. If the device
    /// refused the call, it is still the next one.
    ///
    /// After each call the sync has written just what its calls so far write (`HasMade`, if no two blocks have one
    /// place). After the last call nothing is unflushed.
    ///
    /// At each moment of the call, also of a refused one, the disk is at rest on the old view, between the old and
    /// the new one, or at rest on the new one (`HasPhaseOf`). `LeadsViews` has the premises on blocks, config and
    /// uberblock. If no write was refused and the logs of both views are held, they are held at each moment too, and a
    /// flush fixes all their blocks (`HoldsLogs`).
    ///
    /// # Errors
    /// `Write` or `Flush`, if the device refused such a call.
    pub fn next<D: SectorDevice>(&mut self, device: &mut D) -> Result<SyncCall, PoolError>
        requires sized { D.size device.old ≡ self.old.geometry }
        requires left { self.old.done < call_count self.old }
        ensures size { D.size device.new ≡ D.size device.old }
        ensures count { D.refused device.new ≡ counted result (D.refused device.old) }
        ensures counts { CountsCall self.old result self.new }
        ensures called { MakesNextCall (IsTrue D.keeps_model) self.old (plain_answer result)
            (D.disk device.old) (D.disk device.new) }
        ensures written { IsTrue D.keeps_model
            → KeepsWritten self.old self.new (D.disk device.old).now (D.disk device.new).now }
        ensures phases { IsTrue D.keeps_model
            → KeepsPhases self.old self.new (D.disk device.old) (D.disk device.new) }
    {
        self.make(device, self.call())?;
        self.done += 1;
        if self.done == self.total() {
            Ok(SyncCall::Last)
        } else {
            Ok(SyncCall::More)
        }
    }

    // The call that is made next.
    fn call(&self) -> Call
        requires { self.now.done < call_count self.now }
        ensures next { IsNextCall self.now (call_said result) }
        ensures there { HasCall self.now (call_said result) }
    {
        let blocks = self.blocks.len();
        if self.done < blocks {
            return Call::Block(self.done);
        }
        match &self.stages {
            Some(stages) => staged_call(stages.first, self.done - blocks),
            None => plain_call(self.done - blocks),
        }
    }

    // Makes a call of the sync.
    fn make<D: SectorDevice>(&self, device: &mut D, call: Call) -> Result<(), PoolError>
        requires sized { D.size device.old ≡ self.now.geometry }
        requires there { HasCall self.now (call_said call) }
        ensures size { D.size device.new ≡ D.size device.old }
        ensures fits { TargetFits self.now (call_said call) }
        ensures called { IsTrue D.keeps_model
            → MakesCall self.now (call_said call) (D.disk device.old) result (D.disk device.new) }
        ensures count { D.refused device.new ≡ counted result (D.refused device.old) }
        ensures refusal { IfErr result (λ e. e ≡ refusal_of (call_said call)) }
    {
        match call {
            Call::Block(number) => self.write_block(device, number),
            Call::Config(label) => self.write_config(device, label),
            Call::Uberblock(label) => self.write_uberblock(device, label),
            Call::Flush => device.flush(),
        }
    }

    fn write_block<D: SectorDevice>(&self, device: &mut D, number: usize) -> Result<(), PoolError>
        requires sized { D.size device.old ≡ self.now.geometry }
        requires there { HasCall self.now (DeviceCall.Block number) }
        ensures size { D.size device.new ≡ D.size device.old }
        ensures fits { TargetFits self.now (DeviceCall.Block number) }
        ensures called { IsTrue D.keeps_model → MakesCall self.now (DeviceCall.Block number)
            (D.disk device.old) result (D.disk device.new) }
        ensures count { D.refused device.new ≡ counted result (D.refused device.old) }
        ensures refusal { IfErr result (λ e. e ≡ PoolError.Write) }
    {
        let planned = &self.blocks[number];
        let at = self.geometry.block_address(planned.index as u64);
        device.write(at, planned.block.as_bytes())
    }

    fn write_config<D: SectorDevice>(&self, device: &mut D, label: usize) -> Result<(), PoolError>
        requires sized { D.size device.old ≡ self.now.geometry }
        requires there { HasCall self.now (DeviceCall.Config label) }
        ensures size { D.size device.new ≡ D.size device.old }
        ensures fits { TargetFits self.now (DeviceCall.Config label) }
        ensures called { IsTrue D.keeps_model → MakesCall self.now (DeviceCall.Config label)
            (D.disk device.old) result (D.disk device.new) }
        ensures count { D.refused device.new ≡ counted result (D.refused device.old) }
        ensures refusal { IfErr result (λ e. e ≡ PoolError.Write) }
    {
        let Some(stages) = &self.stages else {
            unreachable!()
        };
        device.write(self.geometry.config_place(label), stages.config.as_bytes())
    }

    fn write_uberblock<D: SectorDevice>(
        &self,
        device: &mut D,
        label: usize,
    ) -> Result<(), PoolError>
        requires sized { D.size device.old ≡ self.now.geometry }
        requires there { HasCall self.now (DeviceCall.Uberblock label) }
        ensures size { D.size device.new ≡ D.size device.old }
        ensures fits { TargetFits self.now (DeviceCall.Uberblock label) }
        ensures called { IsTrue D.keeps_model → MakesCall self.now (DeviceCall.Uberblock label)
            (D.disk device.old) result (D.disk device.new) }
        ensures count { D.refused device.new ≡ counted result (D.refused device.old) }
        ensures refusal { IfErr result (λ e. e ≡ PoolError.Write) }
    {
        device.write(self.geometry.slot_place(label, self.slot), &self.uberblock)
    }
}
