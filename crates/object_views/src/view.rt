//! One object of a pool as an import would mount it, found by reads alone: ranges of it are read, and nothing is
//! written.
//!
//! Only the object's path is read, so no damage beside it is found. The object's own operations among the records of
//! the log that an import would apply stay in memory as changes, and a read lays them over the blocks that it reads.
//! What is in memory under a block's address is taken by no read: in a damaged tree it may be the block of another
//! place.

ghost use Rattle.std.specs.Prelude.{◌≡◌, ◌≢◌, ◌<◌, ◌≤◌, ℕ, IfErr, IfOk, IsTrue};
ghost use Rattle.base.specs.declared.error.PoolError.TheVariants as error;
ghost use Rattle.base.specs.disk.Disk.{bytes_of};
ghost use Rattle.base.specs.formats.Limits.{object_count};
ghost use Rattle.base.specs.formats.Geometry.{block_address};
ghost use Rattle.base.specs.history.Contents.{Contents};
ghost use Rattle.base.specs.tree.Mount.{MountsTo};
ghost use Rattle.device_model.specs.Reading.{OnlyReads};
ghost use Rattle.object_maps.specs.Cached.{IsReadRefusal};
ghost use Rattle.trees.specs.ObjectPaths.{IsSoundAbove, TellsAbove};
ghost use Rattle.inspections.specs.PoolDamages.{IsOfNoDamage};
ghost use Rattle.object_views.specs.ObjectViews.{FitsOn, IsObjectViewOf, IsStoredEntry, IsViewingRefused, length_of_entry, object_of};

use crate::own_records::OwnObject;
use crate::path_blocks::PathBlocks;
use crate::paths::{PoolPaths, find_paths};
use crate::stored_object::StoredObject;
use base::{Bytes, OBJECT_COUNT, ObjectId, Pointer, PoolError, RECORD_SIZE, Range};
use checked_blocks::Frame;
use device_model::SectorDevice;
use extents::Extents;
use import_replay::frame_of;
use std::alloc::Global;
use std::fmt;
use tree_blocks::Entry;
use trees::find_entry;

/// One object of a pool as an import would mount it. It doesn't hold the device: each read is handed it.
#[derive(Drop)]
pub struct ObjectView {
    frame: Frame,
    object: ObjectId,
    // What the object's directory has of it.
    stored: Option<Entry>,
    // What its own operations among the log's records make of it.
    changes: Extents,
}

/// Returns one object of the pool on a device, as an import would mount it, to read it. It makes no write and no flush,
/// also if it is refused, and sees what a read returns, flushed or not. Of the tree it reads the root and the object's
/// directory. The bytes of the object's own log records stay in memory.
///
/// # Errors
/// In this order: `BadGeometry`, before any device call; `NoPool`; `Damaged` with the root or the object's directory,
/// or with kind 6 and the address of the first block of the first log record whose operation on the object can't take
/// place. `NoMemory` and `Read` when they happen.
pub fn view_object<D: SectorDevice>(
    alloc: Global,
    device: &mut D,
    object: ObjectId,
) -> Result<ObjectView, PoolError>
    // The disk is as it was, and the device refused no call but a read.
    ensures reads { OnlyReads D.SectorDevice result device.old device.new }

    // It has what the image says of this object.
    ensures object { IfOk result (λ v. object_of v ≡ object.0) }
    ensures seen { IsTrue D.keeps_model
        → IfOk result (IsObjectViewOf (bytes_of (D.disk device.old).now)) }
    ensures fits { IfOk result (FitsOn (D.size device.old)) }
    ensures refused { IfErr result
        (IsViewingRefused D.SectorDevice object.0 device.old device.new) }

    // If the image mounts, no damage is found.
    ensures sound { IsTrue D.keeps_model → (contents : Contents)
        → MountsTo (bytes_of (D.disk device.old).now) contents → IfErr result IsOfNoDamage }
{
    let paths = find_paths(alloc, device)?;
    paths.view(alloc, device, object)
}

impl PoolPaths {
    ghost use Rattle.std.specs.Prelude.{◌≡◌, IfErr, IfOk, IsTrue};
    ghost use Rattle.base.specs.disk.Disk.{bytes_of};
    ghost use Rattle.base.specs.history.Contents.{Contents};
    ghost use Rattle.base.specs.tree.Mount.{MountsTo};
    ghost use Rattle.device_model.specs.Reading.{OnlyReads};
    ghost use Rattle.inspections.specs.PoolDamages.{IsOfNoDamage};
    ghost use Rattle.object_views.specs.ObjectViews.{FitsOn, IsObjectViewOf, TellsOwnDamage, object_of};
    ghost use Rattle.object_views.specs.PoolPaths.{AreFoundOn, ArePathsOf, IsPathsRefusal};

    /// Returns one object of the pool, as an import would mount it, to read it: what `view_object` returns, without a
    /// second read of the labels and the log chain. The device is the one that the paths were found on, and its labels
    /// and its log chain are as they were. It makes no write and no flush, also if it is refused.
    ///
    /// # Errors
    /// `Damaged` with the root or the object's directory, or with kind 6 and the address of the first block of the
    /// first log record whose operation on the object can't take place. `NoMemory` and `Read` when they happen.
    pub fn view<D: SectorDevice>(
        &self,
        alloc: Global,
        device: &mut D,
        object: ObjectId,
    ) -> Result<ObjectView, PoolError>
        requires fits { AreFoundOn (D.size device.old) self.now }
        ensures reads { OnlyReads D.SectorDevice result device.old device.new }

        // It has what the image of these paths says of this object.
        ensures object { IfOk result (λ v. object_of v ≡ object.0) }
        ensures seen { IsTrue D.keeps_model
            → ArePathsOf (bytes_of (D.disk device.old).now) self.now
            → IfOk result (IsObjectViewOf (bytes_of (D.disk device.old).now)) }
        ensures fits { IfOk result (FitsOn (D.size device.old)) }
        ensures refused { IfErr result (IsPathsRefusal D.SectorDevice self.now device.old
            (λ image. TellsOwnDamage image object.0)) }

        // If that image mounts, no damage is found.
        ensures sound { IsTrue D.keeps_model
            → ArePathsOf (bytes_of (D.disk device.old).now) self.now → (contents : Contents)
            → MountsTo (bytes_of (D.disk device.old).now) contents → IfErr result IsOfNoDamage }
    {
        let uberblock = &self.found.uberblock;
        let frame = frame_of(uberblock, self.geometry);
        let stored = find_stored(device, &frame, uberblock.root, object)?;
        let own = OwnObject {
            id: object,
            size: length_of(&stored),
        };
        let changes = own.replay(alloc, uberblock.group, &self.logged)?;
        Ok(ObjectView {
            frame,
            object,
            stored,
            changes,
        })
    }
}

// The length that an entry gives, if there is one.
fn length_of(entry: &Option<Entry>) -> Option<u64>
    ensures { result ≡ length_of_entry entry.now }
{
    match entry {
        Some(entry) => Some(entry.length),
        None => None,
    }
}

// What the directory of an object has of it. A number past the last object has none.
fn find_stored<D: SectorDevice>(
    device: &mut D,
    frame: &Frame,
    root: Pointer,
    object: ObjectId,
) -> Result<Option<Entry>, PoolError>
    requires fits { block_address frame.now.blocks ≤ D.size device.old }
    ensures reads { OnlyReads D.SectorDevice result device.old device.new }
    ensures cause { IfErr result IsReadRefusal }
    ensures stored { IsTrue D.keeps_model → IfOk result
        (IsStoredEntry (bytes_of (D.disk device.old).now) root object.0) }
    ensures sound { IsTrue D.keeps_model → object.0 < object_count → IfOk result
        (λ _. IsSoundAbove (bytes_of (D.disk device.old).now) frame.now root object.0) }
    ensures number { IfErr result (λ _. object.0 < object_count) }
    ensures damage { IsTrue D.keeps_model → IfErr result
        (TellsAbove (bytes_of (D.disk device.old).now) frame.now root object.0) }
{
    if object.0 >= OBJECT_COUNT {
        return Ok(None);
    }
    find_entry(device, frame, root, object)
}

impl ObjectView {
    ghost use Rattle.std.specs.Prelude.{◌≡◌, ◌+◌, ◌*◌, ◌<◌, ◌≤◌, ℕ, List, Err, None, Some, false, is_some, length, true, IfErr, IfOk, IfSome, IsTrue, OnOk};
    ghost use Rattle.base.specs.declared.error.PoolError.TheVariants as error;
    ghost use Rattle.base.specs.disk.Disk.{bytes_of};
    ghost use Rattle.base.specs.formats.Limits.{max_length, object_count, record_count, record_size};
    ghost use Rattle.base.specs.history.Contents.{Contents, length_of};
    ghost use Rattle.base.specs.tree.Mount.{MountsTo};
    ghost use Rattle.base.specs.declared.names.ObjectId.{ObjectId};
    ghost use Rattle.device_model.specs.Reading.{OnlyReads};
    ghost use Rattle.inspections.specs.PoolDamages.{IsOfNoDamage};
    ghost use Rattle.mounted.specs.Ranges.{is_readable};
    ghost use Rattle.object_maps.specs.Cached.{IsReadRefusal};
    ghost use Rattle.object_views.specs.ReadPaths.{IsSoundRecord, TellsRecord};
    ghost use Rattle.tree_blocks.specs.Sources.{range_in};
    ghost use Rattle.object_views.specs.ObjectViews.{AreCheckedBytes, AreSeenBytes, AreStoredBytes, AreViewBlocks, FitsOn, IsCheckedRead, IsObjectReadRefusal, IsObjectViewOf, OnStored, OnView, TellsBetween, length_seen, object_of};

    /// The length of the object in bytes, if it is there. It takes no memory.
    pub fn length(&self) -> Option<u64>
        ensures seen { result ≡ length_seen self.now }
        ensures mounted { (image : List ℕ) (contents : Contents) → IsObjectViewOf image self.now
            → object_of self.now < object_count → MountsTo image contents
            → result ≡ length_of contents (object_of self.now) }
    {
        self.changes
            .length_over(self.object, length_of(&self.stored))
    }

    /// The bytes of a range that lie below the object's length. Only the parts of records that they lie in are read,
    /// after the object's top, if it has one, and the indirect blocks of their strips. No block is read for a part that
    /// the object's own log records hide.
    ///
    /// # Errors
    /// In this order: `BadRange` if the object's number is above 5,291 or the range above the greatest length,
    /// `NoObject` if there is no such object. Then `NoMemory` if there is none for the bytes, `Read` if the device
    /// refused a read, and `Damaged` with the object's top or with the indirect block or the data block of a record of
    /// the range, if it isn't sound.
    pub fn read<D: SectorDevice>(
        &self,
        device: &mut D,
        alloc: Global,
        range: Range,
    ) -> Result<Bytes, PoolError>
        requires fits { FitsOn (D.size device.old) self.now }
        ensures reads { OnlyReads D.SectorDevice result device.old device.new }

        // If the image mounts, these are the bytes of what it mounts, and no damage is found.
        ensures exact { IsTrue D.keeps_model → (contents : Contents)
            → IsObjectViewOf (bytes_of (D.disk device.old).now) self.now
            → MountsTo (bytes_of (D.disk device.old).now) contents
            → IfOk result (λ bytes. bytes ≡ range_in contents.objects self.now.object range) }
        ensures sound { IsTrue D.keeps_model → (contents : Contents)
            → IsObjectViewOf (bytes_of (D.disk device.old).now) self.now
            → MountsTo (bytes_of (D.disk device.old).now) contents → IfErr result IsOfNoDamage }

        // On any image they are those of sound blocks, or the block that is told isn't sound.
        ensures checked { IsTrue D.keeps_model
            → (seen : IsObjectViewOf (bytes_of (D.disk device.old).now) self.now) → IfOk result
            (IsCheckedRead (bytes_of (D.disk device.old).now) seen.u.root self.now range) }
        ensures damage { IsTrue D.keeps_model
            → (seen : IsObjectViewOf (bytes_of (D.disk device.old).now) self.now) → IfErr result
            (TellsBetween (bytes_of (D.disk device.old).now) seen.u.root self.now range.low range.high) }

        ensures outside { is_readable (object_of self.now) range ≡ false → result ≡ Err error.BadRange }
        ensures missing { is_readable (object_of self.now) range ≡ true
            → length_seen self.now ≡ None → result ≡ Err error.NoObject }
        ensures refused { IfErr result (IsObjectReadRefusal self.now range) }
    {
        if self.object.0 >= OBJECT_COUNT || !range.is_allowed() {
            return Err(PoolError::BadRange);
        }
        let Some(length) = self.length() else {
            return Err(PoolError::NoObject);
        };
        let low = range.low.min(length) as usize;
        let high = range.high.min(length) as usize;
        let mut bytes = vec![in alloc; 0u8; high - low]?;
        self.read_bytes(device, low, bytes.as_mut_slice())?;
        Ok(Bytes::new(bytes))
    }

    // Reads bytes of the object from an offset on, as many as `into` has. They lie below the object's length.
    fn read_bytes<D: SectorDevice>(
        &self,
        device: &mut D,
        low: usize,
        into: &mut [u8],
    ) -> Result<(), PoolError>
        requires fits { FitsOn (D.size device.old) self.now }
        requires number { object_of self.now < object_count }
        requires there { is_some (length_seen self.now) ≡ true }
        requires within { low + length into.old ≤ max_length }
        ensures reads { OnlyReads D.SectorDevice result device.old device.new }
        ensures size { length into.new ≡ length into.old }
        ensures refused { IfErr result IsReadRefusal }
        ensures bytes { OnView D.keeps_model (D.disk device.old) self.now (λ image root.
            OnOk result (AreSeenBytes image root self.now low into.new)) }
        ensures checked { OnView D.keeps_model (D.disk device.old) self.now (λ image root.
            OnOk result (AreCheckedBytes image root self.now low (length into.new))) }
        ensures damage { OnView D.keeps_model (D.disk device.old) self.now (λ image root.
            IfErr result (TellsBetween image root self.now low (low + length into.old))) }
    {
        let mut blocks = PathBlocks::new();
        let mut done = 0;
        while done < into.len() {
            let start = (low + done) % RECORD_SIZE;
            let count = (RECORD_SIZE - start).min(into.len() - done);
            let index = (low + done) / RECORD_SIZE;
            let part = &mut into[done..done + count];
            self.read_part(device, &mut blocks, index, start, part)?;
            done += count;
        }
        Ok(())
    }

    // Reads bytes of a record of the object, from the offset `start` in it on, with zeros after its end.
    fn read_part<D: SectorDevice>(
        &self,
        device: &mut D,
        blocks: &mut PathBlocks,
        index: usize,
        start: usize,
        into: &mut [u8],
    ) -> Result<(), PoolError>
        requires fits { FitsOn (D.size device.old) self.now }
        requires number { object_of self.now < object_count }
        requires there { is_some (length_seen self.now) ≡ true }
        requires index { index < record_count }
        requires within { start + length into.old ≤ record_size }
        requires blocks { OnStored D.keeps_model (D.disk device.old) self.now
            (AreViewBlocks self.now blocks.old) }
        ensures reads { OnlyReads D.SectorDevice result device.old device.new }
        ensures size { length into.new ≡ length into.old }
        ensures refused { IfErr result IsReadRefusal }
        ensures blocks { OnStored D.keeps_model (D.disk device.old) self.now (λ image root.
            OnOk result (AreViewBlocks self.now blocks.new image root)) }
        ensures bytes { OnView D.keeps_model (D.disk device.old) self.now (λ image root.
            OnOk result (AreSeenBytes image root self.now (record_size * index + start) into.new)) }
        ensures checked { OnView D.keeps_model (D.disk device.old) self.now (λ image root.
            OnOk result (AreCheckedBytes image root self.now (record_size * index + start) (length into.new))) }
        ensures damage { OnView D.keeps_model (D.disk device.old) self.now (λ image root.
            IfErr result (TellsRecord image self.now.frame root (object_of self.now) index)) }
    {
        if !self.changes.hides(self.object, index, start, into.len()) {
            self.read_stored(device, blocks, index, start, into)?;
        }
        self.changes.lay_on(self.object, index, start, into);
        Ok(())
    }

    // The same of the object in the tree. One that is not there has zeros.
    fn read_stored<D: SectorDevice>(
        &self,
        device: &mut D,
        blocks: &mut PathBlocks,
        index: usize,
        start: usize,
        into: &mut [u8],
    ) -> Result<(), PoolError>
        requires fits { FitsOn (D.size device.old) self.now }
        requires number { object_of self.now < object_count }
        requires index { index < record_count }
        requires within { start + length into.old ≤ record_size }
        requires blocks { OnStored D.keeps_model (D.disk device.old) self.now
            (AreViewBlocks self.now blocks.old) }
        ensures reads { OnlyReads D.SectorDevice result device.old device.new }
        ensures size { length into.new ≡ length into.old }
        ensures refused { IfErr result IsReadRefusal }
        ensures blocks { OnStored D.keeps_model (D.disk device.old) self.now (λ image root.
            OnOk result (AreViewBlocks self.now blocks.new image root)) }
        ensures bytes { OnView D.keeps_model (D.disk device.old) self.now (λ image root.
            OnOk result (AreStoredBytes image root self.now (record_size * index + start) into.new)) }
        ensures sound { OnView D.keeps_model (D.disk device.old) self.now (λ image root.
            OnOk result (IfSome self.now.stored
            (λ _. IsSoundRecord image self.now.frame root (object_of self.now) index))) }
        ensures damage { OnView D.keeps_model (D.disk device.old) self.now (λ image root.
            IfErr result (TellsRecord image self.now.frame root (object_of self.now) index)) }
    {
        let Some(entry) = self.stored else {
            into.fill(0);
            return Ok(());
        };
        let object = StoredObject {
            frame: self.frame,
            id: self.object,
            entry,
        };
        object.read_part(device, blocks, index, start, into)
    }
}

/// The type's name alone.
impl fmt::Debug for ObjectView {
    fn fmt<W: fmt::Write>(&self, f: &mut fmt::Formatter<W>) -> fmt::Result {
        f.debug_struct("ObjectView").finish_non_exhaustive()
    }
}
