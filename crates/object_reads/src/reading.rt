//! A range of an object's bytes, read by the parts of records that it touches.

ghost use Rattle.std.specs.Prelude.{◌≡◌, ◌+◌, ◌<◌, ◌≤◌, IfErr, IfOk, OnOk, Some, is_some, length, true};
ghost use Rattle.std.specs.FinMap as finite;
ghost use Rattle.base.specs.declared.error.PoolError.TheVariants as error;
ghost use Rattle.base.specs.formats.Fields.{part};
ghost use Rattle.base.specs.formats.Geometry.{block_address};
ghost use Rattle.base.specs.formats.Limits.{max_length, object_count};
ghost use Rattle.device_model.specs.Reading.{OnlyReads};
ghost use Rattle.object_maps.specs.Cached.{IsReadRefusal};
ghost use Rattle.tree_blocks.specs.Sources.{object_bytes, object_length, range_in};
ghost use Rattle.object_reads.specs.ShownTrees.{IsRangeRefusal, IsRangeRefusalOnTree, StandsOn, shown_objects};

use crate::pointer_blocks::PointerBlocks;
use crate::shown_tree::ShownTree;
use base::{Bytes, ObjectId, PoolError, RECORD_SIZE, Range};
use object_maps::BlockReader;
use std::alloc::Global;

impl<'a> ShownTree<'a> {
    /// The bytes of a range of an object that lie below its length. Only the parts of records that they lie in are
    /// read, straight into their place. The top of an object of two levels is read once before them, and the indirect
    /// block of each strip once before its records.
    ///
    /// # Errors
    /// `NoMemory` if there is none for the bytes, `Read` if the device refused a read, `Damaged` if a block is not the
    /// one that its pointer names.
    pub fn read_range<B: BlockReader>(
        &self,
        reader: &mut B,
        alloc: Global,
        id: ObjectId,
        range: Range,
        length: u64,
    ) -> Result<Bytes, PoolError>
        requires fits { block_address self.now.frame.blocks ≤ B.size reader.old }
        requires number { id.0 < object_count }
        requires ordered { range.low ≤ range.high }
        requires within { range.high ≤ max_length }
        requires length { Some length ≡ object_length (shown_objects self.now) id.0 }
        ensures reads { OnlyReads B.SectorDevice result reader.old reader.new }
        ensures refused { IfErr result IsRangeRefusal }
        ensures exact { StandsOn B.SectorDevice reader.old self.now
            → IfOk result (λ bytes. bytes ≡ range_in (shown_objects self.now) id range) }
        ensures sound { StandsOn B.SectorDevice reader.old self.now
            → IfErr result IsRangeRefusalOnTree }
    {
        let low = range.low.min(length) as usize;
        let high = range.high.min(length) as usize;
        let mut bytes = vec![in alloc; 0u8; high - low]?;
        self.read_bytes(reader, id, low, bytes.as_mut_slice())?;
        Ok(Bytes::new(bytes))
    }

    // Reads bytes of an object from an offset on, as many as `into` has. They lie below the object's length.
    fn read_bytes<B: BlockReader>(
        &self,
        reader: &mut B,
        id: ObjectId,
        low: usize,
        into: &mut [u8],
    ) -> Result<(), PoolError>
        requires fits { block_address self.now.frame.blocks ≤ B.size reader.old }
        requires number { id.0 < object_count }
        requires there { is_some (finite.get (shown_objects self.now) id.0) ≡ true }
        requires within { low + length into.old ≤ max_length }
        requires inside { low + length into.old
            ≤ length (object_bytes (shown_objects self.now) id.0) }
        ensures reads { OnlyReads B.SectorDevice result reader.old reader.new }
        ensures size { length into.new ≡ length into.old }
        ensures refused { IfErr result IsReadRefusal }
        ensures exact { StandsOn B.SectorDevice reader.old self.now → OnOk result (into.new
            ≡ part (object_bytes (shown_objects self.now) id.0) low (length into.old)) }
        ensures sound { StandsOn B.SectorDevice reader.old self.now
            → IfErr result (λ e. e ≡ error.Read) }
    {
        let mut blocks = PointerBlocks::new();
        let mut done = 0;
        while done < into.len() {
            let start = (low + done) % RECORD_SIZE;
            let count = (RECORD_SIZE - start).min(into.len() - done);
            let index = (low + done) / RECORD_SIZE;
            let part = &mut into[done..done + count];
            self.read_part(reader, id, &mut blocks, index, start, part)?;
            done += count;
        }
        Ok(())
    }
}
