//! A pool as an import would mount it, found by reads alone: ranges of its objects are read, and nothing is written.
//!
//! The tree is walked whole first, as by an import, so each damage of it is refused. The records of the log that an
//! import would apply stay in memory as changes, and a read lays them over the blocks that it reads. So a read has the
//! bytes of the object in what the image mounts.

ghost use Rattle.std.specs.Prelude.{◌≡◌, ◌<◌, ◌≤◌, ◌++◌, ◌∷◌, [], List, All, Err, Some, true, IsTrue, IfErr, IfOk, OnOk};
ghost use Rattle.std.specs.FinMap as finite;
ghost use Rattle.base.specs.tree.Mount.{MountsTo};
ghost use Rattle.base.specs.declared.error.PoolError.TheVariants as error;
ghost use Rattle.base.specs.declared.operation.Op.{Op as Operation};
ghost use Rattle.base.specs.disk.Disk.{bytes_of};
ghost use Rattle.base.specs.formats.Limits.{max_length, object_count};
ghost use Rattle.base.specs.history.Contents.{Contents as MountedContents};
ghost use Rattle.device_model.specs.Reading.{OnlyReads};
ghost use Rattle.log_replay.specs.Replays.{ops_of_records};
ghost use Rattle.contents.specs.Ops.{AreOpsAllowed};
ghost use Rattle.records.specs.declared.record.Record.{Record as Logged};
ghost use Rattle.inspections.specs.Refused.{IsInspectionRefused};
ghost use Rattle.inspections.specs.Views.{AreAllChanges, FitsOn, IsViewOfImage};
ghost use Rattle.mounted.specs.Ranges.{is_readable};

use base::{Bytes, OBJECT_COUNT, ObjectId, Op, PoolError, Range};
use checked_blocks::Frame;
use contents::SyncedTree;
use device_model::SectorDevice;
use import_replay::{ReplayedPool, frame_of, read_pool, replay_pool};
use labels::Geometry;
use object_maps::BlockReader;
use object_reads::ShownTree;
use records::Record;
use std::alloc::{AllocError, Global};
use std::fmt;
use tree_blocks::ObjectSource;
use unsynced_extents::UnsyncedExtents;

/// A pool as an import would mount it. It doesn't hold the device: each read is handed a `BlockReader`.
#[derive(Drop)]
pub struct View {
    frame: Frame,
    synced: SyncedTree,
    changes: UnsyncedExtents,
}

/// Returns what an import of the pool on a device would mount, to read its objects. It makes no write and no flush,
/// also if it is refused, and sees what a read returns, flushed or not. No object's bytes stay in memory, but those of
/// the log records that an import would apply.
///
/// # Errors
/// In this order: `BadGeometry`, before any device call; `NoPool`; `Damaged` with the first damage of the tree, or with
/// kind 6 and the address of the first block of the first log record that can't take place. `NoMemory` and `Read` when
/// they happen.
pub fn view_pool<D: SectorDevice>(alloc: Global, device: &mut D) -> Result<View, PoolError>
    // The disk is as it was, and the device refused no call but a read.
    ensures reads { OnlyReads D.SectorDevice result device.old device.new }

    // Its objects are those that the image mounts, and the device holds the tree that they are read from.
    ensures mounted { IsTrue D.keeps_model
        → IfOk result (IsViewOfImage (bytes_of (D.disk device.old).now)) }
    ensures fits { IfOk result (FitsOn (D.size device.old)) }
    ensures refused { IfErr result
        (IsInspectionRefused D.SectorDevice device.old device.new) }
{
    let geometry = Geometry::of(device.sectors())?;
    let (found, loaded, logged) = read_pool(alloc, device, geometry)?;
    let frame = frame_of(&found.uberblock, geometry);
    let pool = replay_pool(alloc, geometry, &found, loaded, logged)?;
    let view = view_of(alloc, frame, pool)?;
    Ok(view)
}

// What was read of a pool, with the records of its chain as changes.
fn view_of(alloc: Global, frame: Frame, pool: ReplayedPool) -> Result<View, AllocError>
    requires { All (λ (r : Logged). AreOpsAllowed r.ops) pool.replayed.records.items }
    ensures frame { IfOk result (λ v. v.frame ≡ frame) }
    ensures synced { IfOk result (λ v. v.synced ≡ pool.synced) }
    ensures changes { IfOk result
        (λ v. AreAllChanges (ops_of_records pool.replayed.records.items) v.changes) }
{
    let ReplayedPool {
        synced,
        free: _,
        spare: _,
        replayed,
    } = pool;
    let changes = changes_of(alloc, replayed.records)?;
    Ok(View {
        frame,
        synced,
        changes,
    })
}

// The operations of records, in order, as the changes of one group.
fn changes_of(alloc: Global, records: Vec<Record>) -> Result<UnsyncedExtents, AllocError>
    requires { All (λ (r : Logged). AreOpsAllowed r.ops) records.items }
    ensures { IfOk result (AreAllChanges (ops_of_records records.items)) }
{
    let mut changes = UnsyncedExtents::new(alloc);
    for record in records {
        add_ops(&mut changes, record.ops.as_slice())?;
    }
    Ok(changes)
}

// Adds operations to the changes of one group.
fn add_ops(changes: &mut UnsyncedExtents, ops: &[Op]) -> Result<(), AllocError>
    requires { AreOpsAllowed ops.now }
    ensures { (earlier : List Operation) → AreAllChanges earlier changes.old
        → OnOk result (AreAllChanges (earlier ++ ops.now) changes.new) }
{
    changes.reserve(0, ops)?;
    changes.apply(0, ops);
    Ok(())
}

impl View {
    ghost use Rattle.std.specs.Prelude.{◌≡◌, ◌≢◌, ℕ, Err, None, false, IsTrue, IfErr, IfOk};
    ghost use Rattle.base.specs.declared.error.PoolError.TheVariants as error;
    ghost use Rattle.base.specs.disk.Disk.{bytes_of};
    ghost use Rattle.device_model.specs.Reading.{OnlyReads};
    ghost use Rattle.tree_blocks.specs.Sources.{object_length, range_in};
    ghost use Rattle.inspections.specs.Views.{FitsOn, IsViewOfImage, IsViewRefusal, objects_seen};
    ghost use Rattle.mounted.specs.Ranges.{is_readable};

    /// The length of an object in bytes, if it is there. It takes no memory.
    pub fn length(&self, object: ObjectId) -> Option<u64>
        ensures { result ≡ object_length (objects_seen self.now) object.0 }
    {
        self.changes.over(&self.synced.tree).length(object)
    }

    /// The bytes of a range that lie below the object's length. Only the parts of records that they lie in are read,
    /// after the object's top, if it has one, and the indirect blocks of their strips.
    ///
    /// # Errors
    /// In this order: `BadRange` if the object's number is above 5,291 or the range above the greatest length,
    /// `NoObject` if there is no such object. Then `NoMemory` if there is none for the bytes, `Read` if the device
    /// refused a read, and `Damaged` if it gives another block than the view found.
    pub fn read<B: BlockReader>(
        &self,
        reader: &mut B,
        alloc: Global,
        object: ObjectId,
        range: Range,
    ) -> Result<Bytes, PoolError>
        requires fits { FitsOn (B.size reader.old) self.now }
        ensures reads { OnlyReads B.SectorDevice result reader.old reader.new }
        ensures exact { IsTrue B.keeps_model → IsViewOfImage (bytes_of (B.disk reader.old).now) self.now
            → IfOk result (λ bytes. bytes ≡ range_in (objects_seen self.now) object range) }
        ensures absent { IfErr result (λ e. e ≡ error.NoObject
            → object_length (objects_seen self.now) object.0 ≡ None) }
        ensures outside { is_readable object.0 range ≡ false → result ≡ Err error.BadRange }
        ensures missing { is_readable object.0 range ≡ true
            → object_length (objects_seen self.now) object.0 ≡ None
            → result ≡ Err error.NoObject }
        ensures refused { IfErr result (IsViewRefusal object range) }
        ensures sound { IsTrue B.keeps_model → IsViewOfImage (bytes_of (B.disk reader.old).now) self.now
            → IfErr result (λ e. (kind address : ℕ) → e ≢ error.Damaged kind address) }
    {
        if !is_readable(object, range) {
            return Err(PoolError::BadRange);
        }
        let Some(length) = self.length(object) else {
            return Err(PoolError::NoObject);
        };
        self.shown_tree()
            .read_range(reader, alloc, object, range, length)
    }

    // What reads need of the objects.
    fn shown_tree(&self) -> ShownTree<'_>
        ensures frame { result.frame ≡ self.now.frame }
        ensures tree { result.tree.now ≡ self.now.synced.tree }
        ensures changes { result.changes.now ≡ self.now.changes }
    {
        ShownTree {
            frame: self.frame,
            tree: &self.synced.tree,
            changes: &self.changes,
        }
    }
}

// Whether this range of an object may be read.
fn is_readable(object: ObjectId, range: Range) -> bool
    ensures allowed { result ≡ is_readable object.0 range }
    ensures number { IsTrue result → object.0 < object_count }
    ensures ordered { IsTrue result → range.low ≤ range.high }
    ensures within { IsTrue result → range.high ≤ max_length }
{
    object.0 < OBJECT_COUNT && range.is_allowed()
}

// What callers rely on.

// A view has the bytes of what the image mounts.
fn a_view_reads_what_the_image_mounts<B: BlockReader>(
    alloc: Global,
    reader: &mut B,
) -> Result<Bytes, PoolError>
    ensures { IsTrue B.keeps_model → IfOk result (λ bytes. (contents : MountedContents)
        → MountsTo (bytes_of (B.disk reader.old).now) contents
        → finite.get contents.objects 7 ≡ Some (10 ∷ 11 ∷ 12 ∷ 13 ∷ []) → bytes ≡ 11 ∷ 12 ∷ []) }
{
    let view = view_pool(alloc, reader)?;
    view.read(reader, alloc, ObjectId(7), Range { low: 1, high: 3 })
}

// Whatever a view finds, the disk is as it was.
fn a_view_writes_nothing<D: SectorDevice>(alloc: Global, device: &mut D) -> Result<View, PoolError>
    ensures disk { IsTrue D.keeps_model → D.disk device.new ≡ D.disk device.old }
    ensures writes { (D.refused device.new).writes ≡ (D.refused device.old).writes }
    ensures flushes { (D.refused device.new).flushes ≡ (D.refused device.old).flushes }
{
    view_pool(alloc, device)
}

// There is no object 5,292.
fn the_number_after_the_last_object_is_not_read<B: BlockReader>(
    view: &View,
    reader: &mut B,
    alloc: Global,
) -> Result<Bytes, PoolError>
    requires { FitsOn (B.size reader.old) view.now }
    ensures { result ≡ Err error.BadRange }
{
    view.read(reader, alloc, ObjectId(5_292), Range { low: 0, high: 1 })
}

/// The type's name alone.
impl fmt::Debug for View {
    fn fmt<W: fmt::Write>(&self, f: &mut fmt::Formatter<W>) -> fmt::Result {
        f.debug_struct("View").finish_non_exhaustive()
    }
}
