//! The objects of a pool with their lengths, as an import would mount them, found by reads alone. Nothing is written.
//!
//! Of the tree the root and the directories are read, so no damage below them is found. The log records that an import
//! would apply are replayed on objects of zeros, of the lengths that the directories have.

ghost use Rattle.std.specs.Prelude.{IfErr, IfOk, IsTrue};
ghost use Rattle.base.specs.disk.Disk.{bytes_of};
ghost use Rattle.base.specs.formats.Limits.{object_count};
ghost use Rattle.base.specs.history.Contents.{Contents as MountedContents};
ghost use Rattle.base.specs.tree.Mount.{IsMounted, Mount, MountsTo};
ghost use Rattle.device_model.specs.Reading.{OnlyReads};
ghost use Rattle.trees.specs.EntryLists.{AreRising};
ghost use Rattle.inspections.specs.PoolDamages.{IsOfNoDamage};
ghost use Rattle.object_views.specs.Listings.{IsListingOf, IsListingOfMount, IsListingRefused, ListsContents};

use crate::paths::{PoolPaths, find_paths};
use crate::zeros::ZeroObjects;
use base::{Group, ObjectId, PoolError, PoolName};
use device_model::SectorDevice;
use extents::Laid;
use import_replay::frame_of;
use inspections::list_objects;
use log_replay::changes_of;
use std::alloc::Global;
use trees::list_entries;

/// What the labels, the log chain, the root and the directories say of a pool that an import would mount.
#[derive(Debug, PartialEq, Eq, Drop)]
pub struct ListedPool {
    /// The guid of the pool.
    pub guid: u64,
    /// The group of the active uberblock.
    pub group: Group,
    /// The import number of the active uberblock.
    pub import_number: u64,
    /// How many blocks the device has.
    pub blocks: u64,
    /// How many log records an import would apply.
    pub records: u64,
    /// The name of the pool.
    pub name: PoolName,
    /// The objects by rising number, each with its length in bytes.
    pub objects: Vec<(ObjectId, u64)>,
}

/// Lists the objects of the pool on a device with their lengths, as an import would mount them. It makes no write and no
/// flush, also if it is refused, and sees what a read returns, flushed or not. Of the tree it reads the root and the
/// directories, at most 85 blocks, so it finds no damage below them. `inspect` walks the whole tree.
///
/// # Errors
/// In this order: `BadGeometry`, before any device call; `NoPool`; `Damaged` with the root, or with the first directory
/// that is damaged, or with kind 6 and the address of the first block of the first log record that can't take place.
/// `NoMemory` and `Read` when they happen.
pub fn list_pool<D: SectorDevice>(alloc: Global, device: &mut D) -> Result<ListedPool, PoolError>
    // The disk is as it was, and the device refused no call but a read.
    ensures reads { OnlyReads D.SectorDevice result device.old device.new }

    // It is what the directories and the log records say, on any image, and what the image mounts, if it does.
    ensures listed { IsTrue D.keeps_model
        → IfOk result (IsListingOf (bytes_of (D.disk device.old).now)) }
    ensures mounted { IsTrue D.keeps_model → (m : Mount)
        → IsMounted (bytes_of (D.disk device.old).now) m → IfOk result (IsListingOfMount m) }
    ensures exact { IsTrue D.keeps_model → (contents : MountedContents)
        → MountsTo (bytes_of (D.disk device.old).now) contents
        → IfOk result (λ l. ListsContents l contents) }
    ensures form { IfOk result (λ l. AreRising 0 l.objects.items object_count) }

    ensures refused { IfErr result
        (IsListingRefused D.SectorDevice device.old device.new) }

    // If the image mounts, no damage is found.
    ensures sound { IsTrue D.keeps_model → (contents : MountedContents)
        → MountsTo (bytes_of (D.disk device.old).now) contents → IfErr result IsOfNoDamage }
{
    let paths = find_paths(alloc, device)?;
    paths.list(alloc, device)
}

impl PoolPaths {
    ghost use Rattle.std.specs.Prelude.{IfErr, IfOk, IsTrue};
    ghost use Rattle.base.specs.disk.Disk.{bytes_of};
    ghost use Rattle.base.specs.formats.Limits.{object_count};
    ghost use Rattle.base.specs.history.Contents.{Contents as MountedContents};
    ghost use Rattle.base.specs.tree.Mount.{IsMounted, Mount, MountsTo};
    ghost use Rattle.device_model.specs.Reading.{OnlyReads};
    ghost use Rattle.log_replay.specs.Replays.{IsChainAllowed};
    ghost use Rattle.trees.specs.EntryLists.{AreRising};
    ghost use Rattle.inspections.specs.PoolDamages.{IsOfNoDamage};
    ghost use Rattle.object_views.specs.Listings.{IsListingOf, IsListingOfMount, IsRefusedOn, IsReplayedOn, ListsContents, TellsListingDamage};
    ghost use Rattle.object_views.specs.PoolPaths.{AreFoundOn, ArePathsOf, IsPathsRefusal};

    /// Lists the objects of the pool with their lengths, as an import would mount them: what `list_pool` returns, without
    /// a second read of the labels and the log chain. The device is the one that the paths were found on, and its labels
    /// and its log chain are as they were. It makes no write and no flush, also if it is refused.
    ///
    /// # Errors
    /// In this order: `Damaged` with the root, or with the first directory that is damaged, or with kind 6 and the
    /// address of the first block of the first log record that can't take place. `NoMemory` and `Read` when they happen.
    pub fn list<D: SectorDevice>(
        &self,
        alloc: Global,
        device: &mut D,
    ) -> Result<ListedPool, PoolError>
        requires fits { AreFoundOn (D.size device.old) self.now }
        ensures reads { OnlyReads D.SectorDevice result device.old device.new }

        // It is so of the image of these paths.
        ensures listed { IsTrue D.keeps_model
            → ArePathsOf (bytes_of (D.disk device.old).now) self.now
            → IfOk result (IsListingOf (bytes_of (D.disk device.old).now)) }
        ensures mounted { IsTrue D.keeps_model
            → ArePathsOf (bytes_of (D.disk device.old).now) self.now → (m : Mount)
            → IsMounted (bytes_of (D.disk device.old).now) m → IfOk result (IsListingOfMount m) }
        ensures exact { IsTrue D.keeps_model
            → ArePathsOf (bytes_of (D.disk device.old).now) self.now → (contents : MountedContents)
            → MountsTo (bytes_of (D.disk device.old).now) contents
            → IfOk result (λ l. ListsContents l contents) }
        ensures form { IfOk result (λ l. AreRising 0 l.objects.items object_count) }

        ensures refused { IfErr result
            (IsPathsRefusal D.SectorDevice self.now device.old TellsListingDamage) }

        // If that image mounts, no damage is found.
        ensures sound { IsTrue D.keeps_model
            → ArePathsOf (bytes_of (D.disk device.old).now) self.now → (contents : MountedContents)
            → MountsTo (bytes_of (D.disk device.old).now) contents → IfErr result IsOfNoDamage }
    {
        let uberblock = &self.found.uberblock;
        let frame = frame_of(uberblock, self.geometry);
        let entries = list_entries(alloc, device, &frame, uberblock.root)?;
        self.replay_on(alloc, &entries)
    }

    // What the log records make of the name and of objects with these lengths.
    fn replay_on(&self, alloc: Global, entries: &[(ObjectId, u64)]) -> Result<ListedPool, PoolError>
        requires allowed { IsChainAllowed self.now.logged.items }
        requires rising { AreRising 0 entries.now object_count }
        ensures replayed { IfOk result (IsReplayedOn self.now entries.now) }
        ensures refused { IfErr result (IsRefusedOn self.now entries.now) }
    {
        let uberblock = &self.found.uberblock;
        let zeros = ZeroObjects::of(alloc, entries)?;
        let (changes, records) = changes_of(alloc, uberblock.group, &zeros, &self.logged)?;
        let objects = list_objects(alloc, &Laid::new(&changes, &zeros))?;
        let blocks = self.geometry.blocks();
        Ok(ListedPool {
            guid: uberblock.guid,
            group: uberblock.group,
            import_number: uberblock.import_number,
            blocks,
            records,
            name: changes.name_over(&self.found.name).copy(),
            objects,
        })
    }
}
