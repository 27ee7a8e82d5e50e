//! The synced tree of a pool, as the changes of the unsynced groups show: parts of the records of its objects.
//!
//! No block is read for a part of a record that the changes of one group hide. As records are read rising, the top of
//! an object is read once for all of its strips, and an indirect block once for all records of its strip.

ghost use Rattle.std.specs.Prelude.{◌≡◌, ◌+◌, ◌*◌, ◌<◌, ◌≤◌, IfErr, OnOk, is_some, length, true};
ghost use Rattle.std.specs.FinMap as finite;
ghost use Rattle.base.specs.declared.error.PoolError.TheVariants as error;
ghost use Rattle.base.specs.formats.Geometry.{block_address};
ghost use Rattle.base.specs.formats.Limits.{object_count, record_count, record_size};
ghost use Rattle.device_model.specs.Reading.{OnlyReads};
ghost use Rattle.object_maps.specs.Cached.{IsReadRefusal};
ghost use Rattle.tree_blocks.specs.Sources.{AreBytesFrom, object_bytes, object_length};

use crate::pointer_blocks::PointerBlocks;
use base::{ObjectId, POINTER_COUNT, PoolError};
use checked_blocks::Frame;
use extents::Laid;
use object_maps::{BlockReader, read_part, record_pointer};
use tree_blocks::{ObjectSource, Tree, strip_number};
use unsynced_extents::UnsyncedExtents;

/// What a pool has in memory of the objects that it shows. Reads of their bytes are handed the device.
#[derive(Clone, Copy)]
pub struct ShownTree<'a> {
    /// The frame of the synced tree's blocks.
    pub frame: Frame,
    /// The pointers of the synced tree, down to what its directories name, and the lengths of its objects.
    pub tree: &'a Tree,
    /// What the unsynced groups made of them.
    pub changes: &'a UnsyncedExtents,
}

// The objects of the synced tree, with what the unsynced groups made of them, by their lengths.
type Objects<'a> = Laid<'a, Laid<'a, Laid<'a, &'a Tree>>>;

impl<'a> ShownTree<'a> {
    ghost use Rattle.object_reads.specs.ShownTrees.{ArePointerBlocksOf, StandsOn, shown_objects, synced_objects};

    // The objects that are shown, by their lengths.
    pub(crate) fn objects(&self) -> Objects<'a>
        ensures { ⟦<Objects<'a> as ObjectSource>⟧.objects result ≡ shown_objects self.now }
    {
        self.changes.over(self.tree)
    }

    // The length of an object that is shown in bytes, if it is there.
    pub(crate) fn length(&self, id: ObjectId) -> Option<u64>
        ensures { result ≡ object_length (shown_objects self.now) id.0 }
    {
        self.objects().length(id)
    }

    // Reads bytes of a record of an object that is shown, from the offset `start` in it on, with zeros after its end.
    pub(crate) fn read_part<B: BlockReader>(
        &self,
        reader: &mut B,
        id: ObjectId,
        blocks: &mut PointerBlocks,
        index: usize,
        start: usize,
        into: &mut [u8],
    ) -> Result<(), PoolError>
        requires fits { block_address self.now.frame.blocks ≤ B.size reader.old }
        requires number { id.0 < object_count }
        requires there { is_some (finite.get (shown_objects self.now) id.0) ≡ true }
        requires index { index < record_count }
        requires within { start + length into.old ≤ record_size }
        requires blocks { StandsOn B.SectorDevice reader.old self.now
            → ArePointerBlocksOf self.now id.0 blocks.old }
        ensures reads { OnlyReads B.SectorDevice result reader.old reader.new }
        ensures size { length into.new ≡ length into.old }
        ensures refused { IfErr result IsReadRefusal }
        ensures blocks { StandsOn B.SectorDevice reader.old self.now
            → OnOk result (ArePointerBlocksOf self.now id.0 blocks.new) }
        ensures exact { StandsOn B.SectorDevice reader.old self.now
            → OnOk result (AreBytesFrom (record_size * index + start)
            (object_bytes (shown_objects self.now) id.0) into.new) }
        ensures sound { StandsOn B.SectorDevice reader.old self.now
            → IfErr result (λ e. e ≡ error.Read) }
    {
        if !self.changes.hides(id, index, start, into.len()) {
            self.read_synced(reader, id, blocks, index, start, into)?;
        }
        self.changes.lay_on(id, index, start, into);
        Ok(())
    }

    // The same of an object of the synced tree. One that is not there has zeros.
    fn read_synced<B: BlockReader>(
        &self,
        reader: &mut B,
        id: ObjectId,
        blocks: &mut PointerBlocks,
        index: usize,
        start: usize,
        into: &mut [u8],
    ) -> Result<(), PoolError>
        requires fits { block_address self.now.frame.blocks ≤ B.size reader.old }
        requires number { id.0 < object_count }
        requires index { index < record_count }
        requires within { start + length into.old ≤ record_size }
        requires blocks { StandsOn B.SectorDevice reader.old self.now
            → ArePointerBlocksOf self.now id.0 blocks.old }
        ensures reads { OnlyReads B.SectorDevice result reader.old reader.new }
        ensures size { length into.new ≡ length into.old }
        ensures refused { IfErr result IsReadRefusal }
        ensures blocks { StandsOn B.SectorDevice reader.old self.now
            → OnOk result (ArePointerBlocksOf self.now id.0 blocks.new) }
        ensures exact { StandsOn B.SectorDevice reader.old self.now
            → OnOk result (AreBytesFrom (record_size * index + start)
            (object_bytes (synced_objects self.now) id.0) into.new) }
        ensures sound { StandsOn B.SectorDevice reader.old self.now
            → IfErr result (λ e. e ≡ error.Read) }
    {
        let Some(size) = self.tree.length(id) else {
            into.fill(0);
            return Ok(());
        };
        let size = size as usize;
        let strip = index / POINTER_COUNT;
        self.read_strip(reader, id, size, strip, blocks)?;
        let number = strip_number(id.0 as usize, strip);
        let record = index % POINTER_COUNT;
        let pointer = record_pointer(&self.frame, &blocks.indirect, number, record, size)?;
        read_part(
            reader,
            &self.frame,
            number,
            record,
            &pointer,
            size,
            start,
            into,
        )
    }
}
