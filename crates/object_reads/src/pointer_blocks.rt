//! The blocks of an object of the synced tree that have the pointers to its records, as a read goes down to them: the
//! top of an object of two levels, and then the indirect block of one strip after the other.

ghost use Rattle.std.specs.Prelude.{◌≡◌, ◌<◌, ◌≤◌, IfErr, IfOk, None, OnOk, Some, false, length};
ghost use Rattle.std.specs.FinMap as finite;
ghost use Rattle.base.specs.declared.error.PoolError.TheVariants as error;
ghost use Rattle.base.specs.formats.Geometry.{block_address};
ghost use Rattle.base.specs.formats.Limits.{object_count, payload_size, pointer_count};
ghost use Rattle.base.specs.kept.PlacedTrees.{IsLong};
ghost use Rattle.base.specs.tree.Places.{strip_number};
ghost use Rattle.base.specs.tree.Places.Place.{Indirect};
ghost use Rattle.device_model.specs.Reading.{OnlyReads};
ghost use Rattle.object_maps.specs.Cached.{IsReadRefusal};
ghost use Rattle.tree_blocks.specs.Pointers.{pointers_of};
ghost use Rattle.tree_blocks.specs.Sources.{object_length};

use crate::shown_tree::ShownTree;
use base::{ObjectId, Pointer, PoolError};
use checked_blocks::PAYLOAD_SIZE;
use object_maps::{BlockReader, read_indirect, read_top, strip_pointer};
use tree_blocks::strip_number;

// The payloads of the blocks with the pointers of an object, once they are read: that of its top, and that of the
// indirect block of the strip that was read last.
#[derive(Drop)]
pub(crate) struct PointerBlocks {
    top: [u8; PAYLOAD_SIZE],
    is_top_read: bool,
    pub(crate) indirect: [u8; PAYLOAD_SIZE],
    // The index of that strip.
    strip: Option<usize>,
    ghost top_sized: { length top ≡ payload_size },
    ghost indirect_sized: { length indirect ≡ payload_size },
}

impl PointerBlocks {
    // No block is read yet.
    pub(crate) fn new() -> Self
        ensures top { result.is_top_read ≡ false }
        ensures strip { result.strip ≡ None }
    {
        PointerBlocks {
            top: [0; PAYLOAD_SIZE],
            is_top_read: false,
            indirect: [0; PAYLOAD_SIZE],
            strip: None,
        }
    }
}

impl<'a> ShownTree<'a> {
    ghost use Rattle.object_reads.specs.ShownTrees.{ArePointerBlocksOf, ArePointersTo, AreStripPointers, StandsOn, synced_objects};

    // Reads the indirect block of a strip of an object of the synced tree, if it isn't the one that was read last. The
    // object has this length.
    pub(crate) fn read_strip<B: BlockReader>(
        &self,
        reader: &mut B,
        id: ObjectId,
        size: usize,
        strip: usize,
        blocks: &mut PointerBlocks,
    ) -> Result<(), PoolError>
        requires fits { block_address self.now.frame.blocks ≤ B.size reader.old }
        requires number { id.0 < object_count }
        requires strip { strip < pointer_count }
        requires size { object_length (synced_objects self.now) id.0 ≡ Some size }
        requires blocks { StandsOn B.SectorDevice reader.old self.now
            → ArePointerBlocksOf self.now id.0 blocks.old }
        ensures reads { OnlyReads B.SectorDevice result reader.old reader.new }
        ensures refused { IfErr result IsReadRefusal }
        ensures blocks { StandsOn B.SectorDevice reader.old self.now
            → OnOk result (ArePointerBlocksOf self.now id.0 blocks.new) }
        ensures pointers { StandsOn B.SectorDevice reader.old self.now
            → OnOk result (ArePointersTo self.now (strip_number id.0 strip) blocks.new.indirect) }
        ensures sound { StandsOn B.SectorDevice reader.old self.now
            → IfErr result (λ e. e ≡ error.Read) }
    {
        if blocks.strip == Some(strip) {
            return Ok(());
        }
        let pointer = self.find_strip(reader, id, size, strip, blocks)?;
        blocks.strip = None;
        let number = strip_number(id.0 as usize, strip);
        read_indirect(reader, &self.frame, number, &pointer, &mut blocks.indirect)?;
        blocks.strip = Some(strip);
        Ok(())
    }

    // The pointer to the indirect block of a strip. That of an object of two levels is in its top, which is read first.
    // An object of one level has its first strip alone.
    fn find_strip<B: BlockReader>(
        &self,
        reader: &mut B,
        id: ObjectId,
        size: usize,
        strip: usize,
        blocks: &mut PointerBlocks,
    ) -> Result<Pointer, PoolError>
        requires fits { block_address self.now.frame.blocks ≤ B.size reader.old }
        requires number { id.0 < object_count }
        requires strip { strip < pointer_count }
        requires size { object_length (synced_objects self.now) id.0 ≡ Some size }
        requires blocks { StandsOn B.SectorDevice reader.old self.now
            → ArePointerBlocksOf self.now id.0 blocks.old }
        ensures reads { OnlyReads B.SectorDevice result reader.old reader.new }
        ensures refused { IfErr result IsReadRefusal }
        ensures blocks { StandsOn B.SectorDevice reader.old self.now
            → OnOk result (ArePointerBlocksOf self.now id.0 blocks.new) }
        ensures pointer { StandsOn B.SectorDevice reader.old self.now → IfOk result
            (λ p. p ≡ pointers_of self.now.tree.now (Indirect (strip_number id.0 strip))) }
        ensures sound { StandsOn B.SectorDevice reader.old self.now
            → IfErr result (λ e. e ≡ error.Read) }
    {
        let entry = &self.tree.entries[id.0 as usize];
        if entry.is_long() {
            self.read_own_top(reader, id, blocks)?;
            return strip_pointer(&self.frame, &blocks.top, strip, size);
        }
        if strip != 0 {
            return Ok(Pointer::NONE);
        }
        Ok(entry.pointer)
    }

    // Reads the top of an object of the synced tree that has two levels, if it is not read yet.
    fn read_own_top<B: BlockReader>(
        &self,
        reader: &mut B,
        id: ObjectId,
        blocks: &mut PointerBlocks,
    ) -> Result<(), PoolError>
        requires fits { block_address self.now.frame.blocks ≤ B.size reader.old }
        requires number { id.0 < object_count }
        requires long { StandsOn B.SectorDevice reader.old self.now
            → IsLong (finite.get (synced_objects self.now) id.0) }
        requires blocks { StandsOn B.SectorDevice reader.old self.now
            → ArePointerBlocksOf self.now id.0 blocks.old }
        ensures reads { OnlyReads B.SectorDevice result reader.old reader.new }
        ensures refused { IfErr result IsReadRefusal }
        ensures blocks { StandsOn B.SectorDevice reader.old self.now
            → OnOk result (ArePointerBlocksOf self.now id.0 blocks.new) }
        ensures strips { StandsOn B.SectorDevice reader.old self.now
            → OnOk result (AreStripPointers self.now id.0 blocks.new.top) }
        ensures sound { StandsOn B.SectorDevice reader.old self.now
            → IfErr result (λ e. e ≡ error.Read) }
    {
        if blocks.is_top_read {
            return Ok(());
        }
        let top = self.tree.entries[id.0 as usize].top();
        read_top(reader, &self.frame, id.0 as usize, &top, &mut blocks.top)?;
        blocks.is_top_read = true;
        Ok(())
    }
}
