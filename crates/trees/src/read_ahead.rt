//! Data blocks that are read ahead of a walk: four records of a strip at a time, so that their checks are made side by
//! side. They are read in the order of the walk, before the first of them is opened.

ghost use Rattle.std.specs.Prelude.{◌≡◌, ◌≤◌, ◌↔◌, ℕ, Bool, IfErr, IsTrue, List, OnOk, drop, length};
ghost use Rattle.base.specs.disk.Disk.{bytes_of};
ghost use Rattle.base.specs.formats.Blocks.{Frame};
ghost use Rattle.base.specs.formats.Fields.{part};
ghost use Rattle.base.specs.formats.Geometry.{IsBlockAddress, block_address, block_size};
ghost use Rattle.base.specs.formats.Limits.{payload_size};
ghost use Rattle.base.specs.tree.Places.{IsPlace};
ghost use Rattle.base.specs.tree.Places.Place.{Data};
ghost use Rattle.base.specs.tree.Tree.{OpensAt};
ghost use Rattle.device_model.specs.Reading.{OnlyReads};
ghost use Rattle.object_maps.specs.Cached.{IsReadRefusal};
ghost use Rattle.object_maps.specs.BlockReads.{OnImage, IsReadable};
ghost use Rattle.checked_blocks.proofs.NamedBlocks.{IsNamed};
ghost use Rattle.trees.specs.ReadAhead.{AreReadRecords, IsRead, IsReadAhead};
ghost use Rattle.trees.specs.SoundBlocks.{IsFormed, TellsUnsound};

use crate::sound_blocks::{check_form, sound_block};
use crate::walk::Loader;
use base::{BLOCK_SIZE, Pointer, PoolError};
use checked_blocks::{Expected, Kind, ReadBlock, are_expected};
use device_model::SectorDevice;
use object_maps::{can_read, expected, new_buffer};
use tree_blocks::{BlockPlace, pointer_in};

// How many records are read at a time.
const COUNT: usize = 4;

/// A data block that was read.
#[derive(Clone, Copy)]
pub(crate) struct ReadRecord {
    number: u64,
    pointer: Pointer,
    block: [u8; BLOCK_SIZE],
}

/// The data blocks that were read ahead. Each is the one that its pointer names.
#[derive(Drop)]
pub(crate) struct ReadAhead {
    records: [Option<ReadRecord>; COUNT],
}

impl ReadAhead {
    // Nothing was read.
    pub(crate) fn new() -> ReadAhead
        ensures { (keeps : Bool) (image : List ℕ) (frame : Frame)
            → IsReadAhead keeps image frame result }
    {
        ReadAhead {
            records: [None; COUNT],
        }
    }
}

// Room for the data block that a pointer names.
fn room_for(number: u64, pointer: Pointer) -> ReadRecord
    ensures number { result.number ≡ number }
    ensures pointer { result.pointer ≡ pointer }
{
    ReadRecord {
        number,
        pointer,
        block: new_buffer(),
    }
}

impl Loader<'_> {
    // Whether all of these may.
    fn can_read_all(
        &self,
        first: &Pointer,
        second: &Pointer,
        third: &Pointer,
        fourth: &Pointer,
    ) -> bool
        ensures first { IsTrue result → IsReadable self.now.frame.now first.now }
        ensures second { IsTrue result → IsReadable self.now.frame.now second.now }
        ensures third { IsTrue result → IsReadable self.now.frame.now third.now }
        ensures fourth { IsTrue result → IsReadable self.now.frame.now fourth.now }
    {
        can_read(self.frame, first)
            && can_read(self.frame, second)
            && can_read(self.frame, third)
            && can_read(self.frame, fourth)
    }

    // Reads the block that a pointer names into the buffer, and doesn't open it.
    fn fill<D: SectorDevice>(
        &self,
        device: &mut D,
        pointer: &Pointer,
        buffer: &mut [u8; BLOCK_SIZE],
    ) -> Result<(), PoolError>
        requires fits { block_address self.now.frame.now.blocks ≤ D.size device.old }
        requires readable { IsReadable self.now.frame.now pointer.now }
        ensures reads { OnlyReads D.SectorDevice result device.old device.new }
        ensures cause { IfErr result (λ e. e ≡ PoolError.Read) }
        ensures bytes { IsTrue D.keeps_model → OnOk result
            (buffer.new ≡ part (bytes_of (D.disk device.old).now) pointer.now.address block_size) }
    {
        device.read(pointer.address, &mut buffer[..])
    }

    // Reads the four records of a strip from this index on ahead, if it is a multiple of four and each of them may
    // have a block.
    pub(crate) fn read_ahead<D: SectorDevice>(
        &self,
        device: &mut D,
        number: usize,
        index: usize,
        payload: &[u8],
        ahead: &mut ReadAhead,
    ) -> Result<(), PoolError>
        requires fits { block_address self.now.frame.now.blocks ≤ D.size device.old }
        requires place { IsPlace (Data number index) }
        requires payload { length payload.now ≡ payload_size }
        requires ahead { OnImage D.keeps_model (D.disk device.old)
            (λ image. IsReadAhead D.keeps_model image self.now.frame.now ahead.old) }
        ensures reads { OnlyReads D.SectorDevice result device.old device.new }
        ensures cause { IfErr result (λ e. e ≡ PoolError.Read) }
        ensures ahead { OnOk result (OnImage D.keeps_model (D.disk device.old)
            (λ image. IsReadAhead D.keeps_model image self.now.frame.now ahead.new)) }
    {
        if !index.is_multiple_of(COUNT) {
            return Ok(());
        }
        let first = pointer_in(payload, index);
        let second = pointer_in(payload, index + 1);
        let third = pointer_in(payload, index + 2);
        let fourth = pointer_in(payload, index + 3);
        if !self.can_read_all(&first, &second, &third, &fourth) {
            return Ok(());
        }
        let mut first = room_for(BlockPlace::Data(number, index).number(), first);
        let mut second = room_for(BlockPlace::Data(number, index + 1).number(), second);
        let mut third = room_for(BlockPlace::Data(number, index + 2).number(), third);
        let mut fourth = room_for(BlockPlace::Data(number, index + 3).number(), fourth);
        self.fill(device, &first.pointer, &mut first.block)?;
        self.fill(device, &second.pointer, &mut second.block)?;
        self.fill(device, &third.pointer, &mut third.block)?;
        self.fill(device, &fourth.pointer, &mut fourth.block)?;
        ahead.records = self.opened(first, second, third, fourth);
        Ok(())
    }

    // Of four data blocks that were read those that are the ones that their pointers name.
    fn opened(
        &self,
        first: ReadRecord,
        second: ReadRecord,
        third: ReadRecord,
        fourth: ReadRecord,
    ) -> [Option<ReadRecord>; COUNT]
        ensures { (keeps : Bool) (image : List ℕ)
            → IsRead keeps image self.now.frame.now first → IsRead keeps image self.now.frame.now second
            → IsRead keeps image self.now.frame.now third → IsRead keeps image self.now.frame.now fourth
            → AreReadRecords keeps image self.now.frame.now result }
    {
        let (a, b, c, d) = are_expected(
            &ReadBlock {
                block: &first.block,
                expected: &self.expected_record(&first),
            },
            &ReadBlock {
                block: &second.block,
                expected: &self.expected_record(&second),
            },
            &ReadBlock {
                block: &third.block,
                expected: &self.expected_record(&third),
            },
            &ReadBlock {
                block: &fourth.block,
                expected: &self.expected_record(&fourth),
            },
        );
        [
            a.then_some(first),
            b.then_some(second),
            c.then_some(third),
            d.then_some(fourth),
        ]
    }

    // What the block of a record has to be.
    fn expected_record(&self, read: &ReadRecord) -> Expected
        ensures { IsNamed result self.now.frame.now 5 read.now.number read.now.pointer }
    {
        expected(self.frame, Kind::Data as u64, read.number, &read.pointer)
    }

    // Reads the block of a record into the buffer as `sound_block` does, or takes it from those that were read ahead.
    pub(crate) fn sound_record<D: SectorDevice>(
        &self,
        device: &mut D,
        number: usize,
        index: usize,
        pointer: &Pointer,
        ahead: &ReadAhead,
        size: usize,
        buffer: &mut [u8; BLOCK_SIZE],
    ) -> Result<(), PoolError>
        requires fits { block_address self.now.frame.now.blocks ≤ D.size device.old }
        requires place { IsPlace (Data number index) }
        requires ahead { OnImage D.keeps_model (D.disk device.old)
            (λ image. IsReadAhead D.keeps_model image self.now.frame.now ahead.now) }
        ensures reads { OnlyReads D.SectorDevice result device.old device.new }
        ensures cause { IfErr result IsReadRefusal }
        ensures placed { OnOk result
            (IsBlockAddress self.now.frame.now.blocks pointer.now.address) }
        ensures formed { OnOk result
            (IsFormed self.now.frame.now size (Data number index) (drop 64 buffer.new)) }
        ensures opens { OnImage D.keeps_model (D.disk device.old) (λ image. OnOk result
            (IsTrue D.keeps_model → OpensAt image self.now.frame.now (Data number index)
            pointer.now (drop 64 buffer.new))) }
        ensures refused { IsTrue D.keeps_model → (image : List ℕ)
            → bytes_of (D.disk device.old).now ≡ image → IfErr result (TellsUnsound image
            self.now.frame.now size (Data number index) pointer.now) }
    {
        let place = BlockPlace::Data(number, index);
        let block_number = place.number();
        if let Some(read) = ahead.records[index % COUNT]
            && read.number == block_number
            && read.pointer == *pointer
        {
            *buffer = read.block;
            return check_form(self.frame, place, pointer, size, buffer);
        }
        sound_block(device, self.frame, place, pointer, size, buffer)
    }
}
