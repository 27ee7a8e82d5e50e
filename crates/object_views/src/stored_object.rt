//! Reads of parts of the records of an object, by the blocks of its path.
//!
//! Each block is tested as a walk of the tree tests it, also in its form, before what it holds is taken. So on any
//! image the bytes are those of sound blocks, and a refusal tells a place of the path that isn't sound.

ghost use Rattle.std.specs.Prelude.{◌≡◌, ◌+◌, ◌<◌, ◌≤◌, ℕ, List, IfErr, IfOk, IsTrue, OnOk, length};
ghost use Rattle.base.specs.disk.Disk.{bytes_of};
ghost use Rattle.base.specs.formats.Geometry.{block_address};
ghost use Rattle.base.specs.formats.Limits.{object_count, payload_size, pointer_count, record_count, record_size};
ghost use Rattle.base.specs.tree.Damages.{IsSoundAt};
ghost use Rattle.base.specs.tree.Places.{IsPlace, pointer_of, strip_number};
ghost use Rattle.base.specs.tree.Places.Place.{Indirect, Top};
ghost use Rattle.device_model.specs.Reading.{OnlyReads};
ghost use Rattle.object_maps.specs.Cached.{IsReadRefusal};
ghost use Rattle.tree_blocks.specs.BlockPlaces.{place_of};
ghost use Rattle.trees.specs.ObjectPaths.{TellsPlace};
ghost use Rattle.object_views.specs.ReadPaths.{ArePathBlocks, IsBlockMissing, IsPartRead, IsPayloadRead, IsRecordRead, IsStripRead, IsTopRead, OnObject, TellsRecord, TellsStrip, record_place};

use crate::path_blocks::PathBlocks;
use base::{ObjectId, POINTER_COUNT, Pointer, PoolError, RECORD_SIZE, are_zeros};
use checked_blocks::{Frame, Kind};
use device_model::SectorDevice;
use object_maps::{damaged, new_buffer, payload_of, read_block};
use tree_blocks::{BlockPlace, Entry, are_records, are_strips, pointer_in, strip_number};

/// An object of a tree, as its directory's entry has it.
#[derive(Clone, Copy)]
pub struct StoredObject {
    /// The frame of the tree's blocks.
    pub frame: Frame,
    /// The object's number.
    pub id: ObjectId,
    /// Its entry.
    pub entry: Entry,
}

// Reads the payload of the block of pointers at a place, which this pointer names. For no pointer it is zeros.
fn read_payload<D: SectorDevice>(
    device: &mut D,
    frame: &Frame,
    place: BlockPlace,
    pointer: &Pointer,
    into: &mut [u8],
) -> Result<(), PoolError>
    requires fits { block_address frame.now.blocks ≤ D.size device.old }
    requires place { IsPlace (place_of place) }
    requires size { length into.old ≡ payload_size }
    ensures reads { OnlyReads D.SectorDevice result device.old device.new }
    ensures size { length into.new ≡ payload_size }
    ensures refused { IfErr result IsReadRefusal }
    ensures read { IsTrue D.keeps_model → (image : List ℕ)
        → bytes_of (D.disk device.old).now ≡ image → OnOk result
        (IsPayloadRead image frame.now (place_of place) pointer.now into.new) }
    ensures missing { IsTrue D.keeps_model → (image : List ℕ)
        → bytes_of (D.disk device.old).now ≡ image → IfErr result
        (IsBlockMissing image frame.now (place_of place) pointer.now) }
{
    if pointer.is_none() {
        into.fill(0);
        return Ok(());
    }
    let mut buffer = new_buffer();
    read_block(device, frame, place, pointer, None, &mut buffer)?;
    into.copy_from_slice(payload_of(&buffer));
    Ok(())
}

impl StoredObject {
    /// Reads bytes of a record of the object, from the offset `start` in it on, with zeros after the object's end. The
    /// blocks above the record are read first, if `blocks` doesn't have them.
    ///
    /// # Errors
    /// `Read` if the device refused a read. `Damaged` if the object's top, the record's indirect block or its own block
    /// isn't sound. After a refusal `blocks` has no use.
    pub fn read_part<D: SectorDevice>(
        &self,
        device: &mut D,
        blocks: &mut PathBlocks,
        index: usize,
        start: usize,
        into: &mut [u8],
    ) -> Result<(), PoolError>
        requires fits { block_address self.now.frame.blocks ≤ D.size device.old }
        requires number { self.now.id.0 < object_count }
        requires index { index < record_count }
        requires within { start + length into.old ≤ record_size }
        requires blocks { OnObject D.keeps_model (D.disk device.old) self.now (λ image root.
            ArePathBlocks image self.now.frame root self.now.id.0 blocks.old) }
        ensures reads { OnlyReads D.SectorDevice result device.old device.new }
        ensures size { length into.new ≡ length into.old }
        ensures refused { IfErr result IsReadRefusal }
        ensures blocks { OnObject D.keeps_model (D.disk device.old) self.now (λ image root.
            OnOk result (ArePathBlocks image self.now.frame root self.now.id.0 blocks.new)) }
        ensures read { OnObject D.keeps_model (D.disk device.old) self.now (λ image root.
            OnOk result (IsPartRead image self.now.frame root self.now.id.0 index start into.new)) }
        ensures damage { OnObject D.keeps_model (D.disk device.old) self.now (λ image root.
            IfErr result (TellsRecord image self.now.frame root self.now.id.0 index)) }
    {
        self.read_strip(device, index / POINTER_COUNT, blocks)?;
        let pointer = pointer_in(&blocks.indirect, index % POINTER_COUNT);
        self.read_record(device, index, &pointer, start, into)
    }

    // Reads bytes of the record of this index, which has this pointer.
    fn read_record<D: SectorDevice>(
        &self,
        device: &mut D,
        index: usize,
        pointer: &Pointer,
        start: usize,
        into: &mut [u8],
    ) -> Result<(), PoolError>
        requires fits { block_address self.now.frame.blocks ≤ D.size device.old }
        requires number { self.now.id.0 < object_count }
        requires index { index < record_count }
        requires within { start + length into.old ≤ record_size }
        ensures reads { OnlyReads D.SectorDevice result device.old device.new }
        ensures size { length into.new ≡ length into.old }
        ensures refused { IfErr result IsReadRefusal }
        ensures read { OnObject D.keeps_model (D.disk device.old) self.now (λ image root.
            pointer_of image root (record_place self.now.id.0 index) ≡ pointer.now → OnOk result
            (IsRecordRead image self.now.frame root self.now.id.0 index start into.new)) }
        ensures damage { OnObject D.keeps_model (D.disk device.old) self.now (λ image root.
            pointer_of image root (record_place self.now.id.0 index) ≡ pointer.now → IfErr result
            (TellsPlace image self.now.frame root (record_place self.now.id.0 index))) }
    {
        if pointer.is_none() {
            into.fill(0);
            return Ok(());
        }
        let number = strip_number(self.id.0 as usize, index / POINTER_COUNT);
        let place = BlockPlace::Data(number, index % POINTER_COUNT);
        let mut buffer = new_buffer();
        read_block(device, &self.frame, place, pointer, None, &mut buffer)?;
        let payload = payload_of(&buffer);
        let size = self.entry.length as usize;
        let end = RECORD_SIZE.min(size.saturating_sub(RECORD_SIZE * index));
        if !are_zeros(&payload[end..]) {
            return Err(damaged(Kind::Data, pointer));
        }
        let count = into.len();
        into.copy_from_slice(&payload[start..start + count]);
        Ok(())
    }

    // Reads the indirect block of a strip, if it isn't the one that was read last.
    fn read_strip<D: SectorDevice>(
        &self,
        device: &mut D,
        strip: usize,
        blocks: &mut PathBlocks,
    ) -> Result<(), PoolError>
        requires fits { block_address self.now.frame.blocks ≤ D.size device.old }
        requires number { self.now.id.0 < object_count }
        requires strip { strip < pointer_count }
        requires blocks { OnObject D.keeps_model (D.disk device.old) self.now (λ image root.
            ArePathBlocks image self.now.frame root self.now.id.0 blocks.old) }
        ensures reads { OnlyReads D.SectorDevice result device.old device.new }
        ensures refused { IfErr result IsReadRefusal }
        ensures blocks { OnObject D.keeps_model (D.disk device.old) self.now (λ image root.
            OnOk result (ArePathBlocks image self.now.frame root self.now.id.0 blocks.new)) }
        ensures read { OnObject D.keeps_model (D.disk device.old) self.now (λ image root.
            OnOk result (IsStripRead image self.now.frame root self.now.id.0 strip blocks.new.indirect)) }
        ensures damage { OnObject D.keeps_model (D.disk device.old) self.now (λ image root.
            IfErr result (TellsStrip image self.now.frame root self.now.id.0 strip)) }
    {
        if blocks.strip == Some(strip) {
            return Ok(());
        }
        let pointer = self.find_strip(device, strip, blocks)?;
        blocks.strip = None;
        let number = strip_number(self.id.0 as usize, strip);
        let place = BlockPlace::Indirect(number);
        read_payload(device, &self.frame, place, &pointer, &mut blocks.indirect)?;
        if !are_records(&blocks.indirect, number, self.entry.length as usize) {
            return Err(damaged(Kind::Indirect, &pointer));
        }
        blocks.strip = Some(strip);
        Ok(())
    }

    // The pointer to the indirect block of a strip. That of an object of two levels is in its top, which is read first.
    // An object of one level has its first strip alone.
    fn find_strip<D: SectorDevice>(
        &self,
        device: &mut D,
        strip: usize,
        blocks: &mut PathBlocks,
    ) -> Result<Pointer, PoolError>
        requires fits { block_address self.now.frame.blocks ≤ D.size device.old }
        requires number { self.now.id.0 < object_count }
        requires strip { strip < pointer_count }
        requires blocks { OnObject D.keeps_model (D.disk device.old) self.now (λ image root.
            ArePathBlocks image self.now.frame root self.now.id.0 blocks.old) }
        ensures reads { OnlyReads D.SectorDevice result device.old device.new }
        ensures refused { IfErr result IsReadRefusal }
        ensures blocks { OnObject D.keeps_model (D.disk device.old) self.now (λ image root.
            OnOk result (ArePathBlocks image self.now.frame root self.now.id.0 blocks.new)) }
        ensures top { OnObject D.keeps_model (D.disk device.old) self.now (λ image root.
            OnOk result (IsSoundAt image self.now.frame root (Top self.now.id.0))) }
        ensures pointer { OnObject D.keeps_model (D.disk device.old) self.now (λ image root.
            IfOk result (λ p. pointer_of image root (Indirect (strip_number self.now.id.0 strip)) ≡ p)) }
        ensures damage { OnObject D.keeps_model (D.disk device.old) self.now (λ image root.
            IfErr result (TellsPlace image self.now.frame root (Top self.now.id.0))) }
    {
        if self.entry.present == 2 {
            self.read_top(device, blocks)?;
            return Ok(pointer_in(&blocks.top, strip));
        }
        if strip != 0 {
            return Ok(Pointer::NONE);
        }
        Ok(self.entry.pointer)
    }

    // Reads the top of an object of two levels, if it is not read yet.
    fn read_top<D: SectorDevice>(
        &self,
        device: &mut D,
        blocks: &mut PathBlocks,
    ) -> Result<(), PoolError>
        requires fits { block_address self.now.frame.blocks ≤ D.size device.old }
        requires number { self.now.id.0 < object_count }
        requires long { self.now.entry.present ≡ 2 }
        requires blocks { OnObject D.keeps_model (D.disk device.old) self.now (λ image root.
            ArePathBlocks image self.now.frame root self.now.id.0 blocks.old) }
        ensures reads { OnlyReads D.SectorDevice result device.old device.new }
        ensures refused { IfErr result IsReadRefusal }
        ensures blocks { OnObject D.keeps_model (D.disk device.old) self.now (λ image root.
            OnOk result (ArePathBlocks image self.now.frame root self.now.id.0 blocks.new)) }
        ensures read { OnObject D.keeps_model (D.disk device.old) self.now (λ image root.
            OnOk result (IsTopRead image self.now.frame root self.now.id.0 blocks.new.top)) }
        ensures damage { OnObject D.keeps_model (D.disk device.old) self.now (λ image root.
            IfErr result (TellsPlace image self.now.frame root (Top self.now.id.0))) }
    {
        if blocks.is_top_read {
            return Ok(());
        }
        let place = BlockPlace::Top(self.id);
        let pointer = &self.entry.pointer;
        read_payload(device, &self.frame, place, pointer, &mut blocks.top)?;
        if !are_strips(&blocks.top, self.entry.length as usize) {
            return Err(damaged(Kind::Top, pointer));
        }
        blocks.is_top_read = true;
        Ok(())
    }
}
