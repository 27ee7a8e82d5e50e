//! One walk of a tree, for whoever ends at its first damage and for whoever notes each and goes on. What lies below a
//! damaged block isn't read.

ghost use Rattle.std.specs.Prelude.{◌≡◌, ◌≢◌, ◌<◌, ◌≤◌, ◌+◌, ◌*◌, ℕ, [], false, true, IfErr, IfOk, IsTrue, List, OnOk, Some, length, replicate};
ghost use Rattle.base.specs.declared.error.PoolError.TheVariants.{Damaged};
ghost use Rattle.base.specs.declared.refused.RefusedCalls.{RefusedCalls};
ghost use Rattle.base.specs.disk.Calls.{counted, with_refusal};
ghost use Rattle.base.specs.disk.Disk.{bytes_of};
ghost use Rattle.base.specs.formats.Fields.{no_pointer, pointer_in};
ghost use Rattle.base.specs.formats.Geometry.{block_address};
ghost use Rattle.base.specs.formats.Limits.{entry_count, indirect_count, object_count, object_stride, payload_size, pointer_count, strip_stride};
ghost use Rattle.base.specs.tree.Places.{IsPlace, pointer_of, record_number, record_start, strip_of, walk_index_of, walk_index_of_indirect, walk_index_of_object};
ghost use Rattle.base.specs.tree.Places.Place.{Data, Directory};
ghost use Rattle.base.specs.tree.Tree.{record_bytes};
ghost use Rattle.device_model.specs.Reading.{OnlyReads};
ghost use Rattle.trees.specs.DamageLists.{AddsTold};
ghost use Rattle.trees.specs.FreeBlocks.{ObjectNames, StripNames, StripsName, TakesNamed};
ghost use Rattle.trees.specs.Loaders.{LoadsFrom, OnWalk};
ghost use Rattle.object_maps.specs.BlockReads.{OnImage};
ghost use Rattle.tree_blocks.specs.Bytes.{AreBytes};
ghost use Rattle.trees.specs.Loading.{AreLoadedDirectories, AreLoadedEntries, AreLoadedLevels, AreLoadedRecords, AreLoadedStrips, HasZeroRecord, IsLoadedObject, IsLoadedRecord, IsLoadedStrip, IsLoadedTree, KeepsOthers, LoadsDirectory};
ghost use Rattle.object_maps.specs.BlockReads.{IsLoadRefusal};
ghost use Rattle.trees.specs.Noted.{Finds, Notes, kept_entry};
ghost use Rattle.trees.specs.ReadAhead.{IsReadAhead};
ghost use Rattle.trees.specs.Walking.{AreDataOf, AreDirectoriesOf, AreStripsOf, IsDataOf, IsIndirectOf, IsObjectAt, IsPayloadOf, IsTopOf, directory_index, objects_index};
ghost use Rattle.tree_blocks.specs.Forms.{AreRecordForms, IsEntryOf, IsEntryPayload};
ghost use Rattle.tree_blocks.specs.Pointers.{TellsStrip, long_pointers, pointer_of_list, pointers_of_entry, strip_in, told_record};

use crate::damages::BlockDamage;
use crate::marks::{take_block, take_named};
use crate::objects::Objects;
use crate::read_ahead::ReadAhead;
use crate::sound_blocks::sound_block;
use crate::walk::{Loader, ToldObject};
use base::{ENTRY_COUNT, ObjectId, POINTER_COUNT, Pointer, PoolError, RECORD_SIZE, Told};
use device_model::SectorDevice;
use object_maps::{new_buffer, payload_of};
use space::FreeSet;
use std::alloc::Global;
use tree_blocks::{
    BlockPlace, BytesView, Entry, ObjectEntry, no_strips, pointer_in, read_entry, read_pointers,
    record_number, strip_number, strip_of, with_bytes, with_strip, zero_bytes,
};

/// What a walk makes of the damages that it comes to.
#[derive(Drop)]
pub(crate) struct Damages {
    // Those that were noted, in the order of the walk.
    pub(crate) list: Vec<BlockDamage>,
    // Whether the walk goes on after a damage, and notes it. If not, it is refused for the first one.
    pub(crate) goes_on: bool,
}

impl Damages {
    // The walk ends at the first damage.
    pub(crate) fn first(alloc: Global) -> Self
        ensures list { result.list.items ≡ [] }
        ensures goes_on { result.goes_on ≡ false }
    {
        Damages {
            list: Vec::new(alloc),
            goes_on: false,
        }
    }

    // The walk notes each damage.
    pub(crate) fn all(alloc: Global) -> Self
        ensures list { result.list.items ≡ [] }
        ensures goes_on { result.goes_on ≡ true }
    {
        Damages {
            list: Vec::new(alloc),
            goes_on: true,
        }
    }

    // Notes the damage that a refusal tells, if the walk goes on after it: what was walked isn't whole then. Any other
    // refusal is handed on.
    pub(crate) fn note(&mut self, error: PoolError) -> Result<bool, PoolError>
        requires { IsLoadRefusal error }
        ensures cause { IfErr result IsLoadRefusal }
        ensures notes { Notes self.old self.new result }
        ensures told { IfErr result
            (λ e. (kind address : ℕ) → e ≡ Damaged kind address → error ≡ Damaged kind address) }
        ensures count { (calls : RefusedCalls) → counted result calls ≡ with_refusal error calls }
        ensures damaged { IfOk result (λ whole. whole ≡ false) }
        ensures added { OnOk result (AddsTold error self.old.list.items self.new.list.items) }
    {
        if !self.goes_on {
            return Err(error);
        }
        match error {
            PoolError::Damaged { kind, address } => {
                self.list.push(BlockDamage { kind, address })?;
                Ok(false)
            }
            other => Err(other),
        }
    }
}

impl Loader<'_> {
    // Walks a tree, and puts its objects among those of which none is there, and its pointers into those of no
    // directories. Answers whether it is whole.
    pub(crate) fn walk_tree<D: SectorDevice>(
        &self,
        device: &mut D,
        root: &Pointer,
        directories: &mut [Pointer],
        objects: &mut Objects,
        free: &mut FreeSet,
        damages: &mut Damages,
    ) -> Result<bool, PoolError>
        requires fits { block_address self.now.frame.now.blocks ≤ D.size device.old }
        requires directories { length directories.old ≡ pointer_count }
        requires no_directories { (d : ℕ) → pointer_of_list directories.old d ≡ no_pointer }
        ensures reads { OnlyReads D.SectorDevice result device.old device.new }
        ensures cause { IfErr result IsLoadRefusal }
        ensures notes { Notes damages.old damages.new result }
        ensures loaded { OnImage D.keeps_model (D.disk device.old) (λ image. IfOk result
            (λ whole. IsTrue whole
            → LoadsFrom 0 objects.old objects.new free.old free.new
            (λ _ after _. IsLoadedTree D.keeps_model image self.now.frame.now
            root.now directories.new after))) }
        ensures found { IsTrue D.keeps_model → (image : List ℕ)
            → bytes_of (D.disk device.old).now ≡ image
            → Finds image self.now.frame.now root.now
            0 (directory_index pointer_count) damages.old damages.new result }
    {
        if root.is_none() {
            return Ok(true);
        }
        let mut buffer = new_buffer();
        let place = BlockPlace::Root;
        if let Err(error) = sound_block(device, self.frame, place, root, 0, &mut buffer) {
            return damages.note(error);
        }
        let payload = payload_of(&buffer);
        read_pointers(payload, directories);
        self.walk_directories(device, directories, objects, free, damages)
    }

    // Walks the directories that these pointers name.
    fn walk_directories<D: SectorDevice>(
        &self,
        device: &mut D,
        directories: &[Pointer],
        objects: &mut Objects,
        free: &mut FreeSet,
        damages: &mut Damages,
    ) -> Result<bool, PoolError>
        requires fits { block_address self.now.frame.now.blocks ≤ D.size device.old }
        requires directories { length directories.now ≡ pointer_count }
        ensures reads { OnlyReads D.SectorDevice result device.old device.new }
        ensures cause { IfErr result IsLoadRefusal }
        ensures notes { Notes damages.old damages.new result }
        ensures loaded { OnImage D.keeps_model (D.disk device.old) (λ image. IfOk result
            (λ whole. IsTrue whole
            → LoadsFrom 0 objects.old objects.new free.old free.new
            (λ _ after _. AreLoadedDirectories D.keeps_model image self.now.frame.now
            directories.now pointer_count after))) }
        ensures found { OnWalk D.keeps_model (D.disk device.old) (λ image top.
            AreDirectoriesOf image top directories.now
            → Finds image self.now.frame.now top 1 (directory_index pointer_count)
            damages.old damages.new result) }
    {
        let mut whole = true;
        for index in 0..POINTER_COUNT {
            let pointer = directories[index];
            if pointer.is_none() {
                continue;
            }
            let is_sound = self.walk_directory(device, index, &pointer, objects, free, damages)?;
            whole &= is_sound;
        }
        Ok(whole)
    }

    // Walks the directory of this number.
    fn walk_directory<D: SectorDevice>(
        &self,
        device: &mut D,
        directory: usize,
        pointer: &Pointer,
        objects: &mut Objects,
        free: &mut FreeSet,
        damages: &mut Damages,
    ) -> Result<bool, PoolError>
        requires fits { block_address self.now.frame.now.blocks ≤ D.size device.old }
        requires in_range { directory < pointer_count }
        ensures reads { OnlyReads D.SectorDevice result device.old device.new }
        ensures cause { IfErr result IsLoadRefusal }
        ensures notes { Notes damages.old damages.new result }
        ensures loaded { OnImage D.keeps_model (D.disk device.old) (λ image. IfOk result
            (λ whole. IsTrue whole
            → LoadsFrom (entry_count * directory) objects.old objects.new free.old free.new
            (LoadsDirectory D.keeps_model image self.now.frame.now directory pointer.now))) }
        ensures found { OnWalk D.keeps_model (D.disk device.old) (λ image top.
            pointer_of image top (Directory directory) ≡ pointer.now → pointer.now ≢ no_pointer
            → Finds image self.now.frame.now top
            (directory_index directory) (directory_index (directory + 1))
            damages.old damages.new result) }
    {
        let mut buffer = new_buffer();
        let place = BlockPlace::Directory(directory);
        if let Err(error) = sound_block(device, self.frame, place, pointer, 0, &mut buffer) {
            return damages.note(error);
        }
        let payload = payload_of(&buffer);
        self.walk_entries(device, directory, payload, objects, free, damages)
    }

    // Walks the objects that the entries of a directory name.
    fn walk_entries<D: SectorDevice>(
        &self,
        device: &mut D,
        directory: usize,
        payload: &[u8],
        objects: &mut Objects,
        free: &mut FreeSet,
        damages: &mut Damages,
    ) -> Result<bool, PoolError>
        requires fits { block_address self.now.frame.now.blocks ≤ D.size device.old }
        requires in_range { directory < pointer_count }
        requires payload { IsEntryPayload self.now.frame.now payload.now }
        ensures reads { OnlyReads D.SectorDevice result device.old device.new }
        ensures cause { IfErr result IsLoadRefusal }
        ensures notes { Notes damages.old damages.new result }
        ensures loaded { OnImage D.keeps_model (D.disk device.old) (λ image. IfOk result
            (λ whole. IsTrue whole
            → LoadsFrom (entry_count * directory) objects.old objects.new free.old free.new
            (AreLoadedEntries D.keeps_model image self.now.frame.now
            directory payload.now entry_count))) }
        ensures found { OnWalk D.keeps_model (D.disk device.old) (λ image top.
            IsPayloadOf image self.now.frame.now top directory payload.now
            → Finds image self.now.frame.now top
            (objects_index directory) (directory_index (directory + 1))
            damages.old damages.new result) }
    {
        let mut whole = true;
        for index in 0..ENTRY_COUNT {
            let entry = read_entry(payload, index);
            if entry.present == 0 {
                continue;
            }
            let number = ENTRY_COUNT * directory + index;
            let mut object = ToldObject {
                bytes: zero_bytes(entry.length),
                strips: no_strips(),
            };
            let is_sound = self.walk_object(device, number, &entry, &mut object, free, damages)?;
            whole &= is_sound;
            let ToldObject { bytes, strips } = object;
            let kept = ObjectEntry {
                length: Some(entry.length),
                pointer: entry.pointer,
                strips,
            };
            objects.put(number, kept, bytes);
        }
        Ok(whole)
    }

    // Walks the object that an entry names over zeros: tells it, and takes the blocks that it has.
    fn walk_object<D: SectorDevice>(
        &self,
        device: &mut D,
        number: usize,
        entry: &Entry,
        object: &mut ToldObject,
        free: &mut FreeSet,
        damages: &mut Damages,
    ) -> Result<bool, PoolError>
        requires fits { block_address self.now.frame.now.blocks ≤ D.size device.old }
        requires in_range { number < object_count }
        requires entry { IsEntryOf self.now.frame.now entry.now }
        requires zeros { object.old.bytes.value ≡ replicate entry.now.length 0 }
        requires no_strips { object.old.strips.value ≡ [] }
        ensures reads { OnlyReads D.SectorDevice result device.old device.new }
        ensures cause { IfErr result IsLoadRefusal }
        ensures notes { Notes damages.old damages.new result }
        ensures size { OnOk result (length object.new.bytes.value ≡ entry.now.length) }
        ensures taken { IfOk result (λ whole. IsTrue whole → TakesNamed
            (λ k. ObjectNames k (pointers_of_entry (kept_entry entry.now object.new)))
            free.old free.new) }
        ensures loaded { OnImage D.keeps_model (D.disk device.old) (λ image. IfOk result
            (λ whole. IsTrue whole
            → IsLoadedObject D.keeps_model image self.now.frame.now number
            (Some object.new.bytes.value) (pointers_of_entry (kept_entry entry.now object.new)))) }
        ensures found { OnWalk D.keeps_model (D.disk device.old) (λ image top.
            IsObjectAt image top number entry.now
            → Finds image self.now.frame.now top
            (walk_index_of_object number) (walk_index_of_object number + object_stride)
            damages.old damages.new result) }
    {
        let size = entry.length as usize;
        if entry.present == 2 {
            return self.walk_top(device, number, &entry.pointer, size, object, free, damages);
        }
        self.walk_strip(device, number, &entry.pointer, size, object, free, damages)
    }

    // Walks an object of two levels over zeros: its top and its strips. Tells them, and takes the blocks that it has.
    // Answers whether it is whole.
    fn walk_top<D: SectorDevice>(
        &self,
        device: &mut D,
        number: usize,
        pointer: &Pointer,
        size: usize,
        object: &mut ToldObject,
        free: &mut FreeSet,
        damages: &mut Damages,
    ) -> Result<bool, PoolError>
        requires fits { block_address self.now.frame.now.blocks ≤ D.size device.old }
        requires in_range { number < object_count }
        requires size { length object.old.bytes.value ≡ size }
        requires zeros { object.old.bytes.value ≡ replicate size 0 }
        requires no_strips { object.old.strips.value ≡ [] }
        ensures reads { OnlyReads D.SectorDevice result device.old device.new }
        ensures cause { IfErr result IsLoadRefusal }
        ensures notes { Notes damages.old damages.new result }
        ensures size { OnOk result (length object.new.bytes.value ≡ size) }
        ensures bytes { OnOk result (AreBytes object.new.bytes.value) }
        ensures taken { IfOk result (λ whole. IsTrue whole → TakesNamed
            (λ k. ObjectNames k (long_pointers pointer.now object.new.strips.value))
            free.old free.new) }
        ensures loaded { OnImage D.keeps_model (D.disk device.old) (λ image. IfOk result
            (λ whole. IsTrue whole
            → AreLoadedLevels D.keeps_model image self.now.frame.now
            number pointer.now object.new.strips.value object.new.bytes.value)) }
        ensures found { OnWalk D.keeps_model (D.disk device.old) (λ image top.
            IsTopOf image top number pointer.now size
            → Finds image self.now.frame.now top
            (walk_index_of_object number) (walk_index_of_object number + object_stride)
            damages.old damages.new result) }
    {
        if pointer.is_none() {
            return Ok(true);
        }
        let mut buffer = new_buffer();
        let place = BlockPlace::Top(ObjectId(number as u32));
        if let Err(error) = sound_block(device, self.frame, place, pointer, size, &mut buffer) {
            return damages.note(error);
        }
        let payload = payload_of(&buffer);
        take_block(free, pointer.address);
        self.walk_strips(device, number, payload, size, object, free, damages)
    }

    // Walks the strips that the payload of a top names over zeros: tells them, and takes the blocks that they have.
    fn walk_strips<D: SectorDevice>(
        &self,
        device: &mut D,
        number: usize,
        payload: &[u8],
        size: usize,
        object: &mut ToldObject,
        free: &mut FreeSet,
        damages: &mut Damages,
    ) -> Result<bool, PoolError>
        requires fits { block_address self.now.frame.now.blocks ≤ D.size device.old }
        requires in_range { number < object_count }
        requires payload { length payload.now ≡ payload_size }
        requires size { length object.old.bytes.value ≡ size }
        requires zeros { (r : ℕ) → HasZeroRecord r object.old.bytes.value }
        requires bytes { AreBytes object.old.bytes.value }
        ensures reads { OnlyReads D.SectorDevice result device.old device.new }
        ensures cause { IfErr result IsLoadRefusal }
        ensures notes { Notes damages.old damages.new result }
        ensures size { OnOk result (length object.new.bytes.value ≡ size) }
        ensures bytes { OnOk result (AreBytes object.new.bytes.value) }
        ensures taken { IfOk result (λ whole. IsTrue whole → TakesNamed
            (λ k. StripsName k object.new.strips.value pointer_count) free.old free.new) }
        ensures named { IfOk result (λ whole. IsTrue whole → (j : ℕ) → j < pointer_count
            → (strip_in object.new.strips.value j).0 ≡ pointer_in payload.now j) }
        ensures loaded { OnImage D.keeps_model (D.disk device.old) (λ image. IfOk result
            (λ whole. IsTrue whole
            → AreLoadedStrips D.keeps_model image self.now.frame.now
            number object.new.strips.value object.new.bytes.value pointer_count)) }
        ensures found { OnWalk D.keeps_model (D.disk device.old) (λ image top.
            AreStripsOf image top number payload.now size
            → Finds image self.now.frame.now top
            (walk_index_of_object number + 1) (walk_index_of_object number + object_stride)
            damages.old damages.new result) }
    {
        let mut whole = true;
        for index in 0..POINTER_COUNT {
            let pointer = pointer_in(payload, index);
            let strip = strip_number(number, index);
            let is_sound = self.walk_strip(device, strip, &pointer, size, object, free, damages)?;
            whole &= is_sound;
        }
        Ok(whole)
    }

    // Walks the strip of this number over zeros: tells it, and takes the blocks that it has. Answers whether it is
    // whole.
    fn walk_strip<D: SectorDevice>(
        &self,
        device: &mut D,
        number: usize,
        indirect: &Pointer,
        size: usize,
        object: &mut ToldObject,
        free: &mut FreeSet,
        damages: &mut Damages,
    ) -> Result<bool, PoolError>
        requires fits { block_address self.now.frame.now.blocks ≤ D.size device.old }
        requires in_range { number < indirect_count }
        requires size { length object.old.bytes.value ≡ size }
        requires zeros { (k : ℕ) → k < pointer_count
            → HasZeroRecord (record_number number k) object.old.bytes.value }
        ensures reads { OnlyReads D.SectorDevice result device.old device.new }
        ensures cause { IfErr result IsLoadRefusal }
        ensures notes { Notes damages.old damages.new result }
        ensures others { OnOk result
            (KeepsOthers (strip_of number) object.old.bytes.value object.new.bytes.value) }
        ensures told { IfOk result (λ whole. IsTrue whole
            → TellsStrip (strip_of number) indirect.now object.old.strips.value object.new.strips.value) }
        ensures taken { IfOk result (λ whole. IsTrue whole → TakesNamed
            (λ k. StripNames k indirect.now (told_record (strip_in object.new.strips.value (strip_of number))))
            free.old free.new) }
        ensures loaded { OnImage D.keeps_model (D.disk device.old) (λ image. IfOk result
            (λ whole. IsTrue whole
            → IsLoadedStrip D.keeps_model image self.now.frame.now number indirect.now
            (told_record (strip_in object.new.strips.value (strip_of number))) object.new.bytes.value)) }
        ensures found { OnWalk D.keeps_model (D.disk device.old) (λ image top.
            IsIndirectOf image top number indirect.now size
            → Finds image self.now.frame.now top
            (walk_index_of_indirect number) (walk_index_of_indirect number + strip_stride)
            damages.old damages.new result) }
    {
        let index = strip_of(number);
        if indirect.is_none() {
            object.strips = with_strip(&object.strips, index, *indirect, &[]);
            return Ok(true);
        }
        let mut buffer = new_buffer();
        let place = BlockPlace::Indirect(number);
        if let Err(error) = sound_block(device, self.frame, place, indirect, size, &mut buffer) {
            return damages.note(error);
        }
        let payload = payload_of(&buffer);
        take_block(free, indirect.address);
        take_named(free, payload);
        object.strips = with_strip(&object.strips, index, *indirect, payload);
        self.walk_records(device, number, payload, size, &mut object.bytes, damages)
    }

    // Walks the records that the payload of an indirect block names over zeros, and tells their bytes.
    fn walk_records<D: SectorDevice>(
        &self,
        device: &mut D,
        number: usize,
        payload: &[u8],
        size: usize,
        bytes: &mut Told<BytesView>,
        damages: &mut Damages,
    ) -> Result<bool, PoolError>
        requires fits { block_address self.now.frame.now.blocks ≤ D.size device.old }
        requires in_range { number < indirect_count }
        requires payload { length payload.now ≡ payload_size }
        requires size { length bytes.old.value ≡ size }
        requires records { AreRecordForms number size payload.now }
        requires zeros { (k : ℕ) → k < pointer_count
            → HasZeroRecord (record_number number k) bytes.old.value }
        ensures reads { OnlyReads D.SectorDevice result device.old device.new }
        ensures cause { IfErr result IsLoadRefusal }
        ensures notes { Notes damages.old damages.new result }
        ensures others { OnOk result
            (KeepsOthers (strip_of number) bytes.old.value bytes.new.value) }
        ensures loaded { OnImage D.keeps_model (D.disk device.old) (λ image. IfOk result
            (λ whole. IsTrue whole
            → AreLoadedRecords D.keeps_model image self.now.frame.now
            number payload.now bytes.new.value pointer_count)) }
        ensures found { OnWalk D.keeps_model (D.disk device.old) (λ image top.
            AreDataOf image top number payload.now size
            → Finds image self.now.frame.now top
            (walk_index_of_indirect number + 1) (walk_index_of_indirect number + strip_stride)
            damages.old damages.new result) }
    {
        let mut ahead = ReadAhead::new();
        let mut whole = true;
        for index in 0..POINTER_COUNT {
            self.read_ahead(device, number, index, payload, &mut ahead)?;
            let pointer = pointer_in(payload, index);
            if pointer.is_none() {
                continue;
            }
            let is_sound = self.walk_record(
                device, number, index, &pointer, &ahead, size, bytes, damages,
            )?;
            whole &= is_sound;
        }
        Ok(whole)
    }

    // Walks a record, and tells its bytes in their place among those of its object.
    fn walk_record<D: SectorDevice>(
        &self,
        device: &mut D,
        number: usize,
        index: usize,
        pointer: &Pointer,
        ahead: &ReadAhead,
        size: usize,
        bytes: &mut Told<BytesView>,
        damages: &mut Damages,
    ) -> Result<bool, PoolError>
        requires fits { block_address self.now.frame.now.blocks ≤ D.size device.old }
        requires place { IsPlace (Data number index) }
        requires size { length bytes.old.value ≡ size }
        requires within { record_start number index < size }
        requires ahead { OnImage D.keeps_model (D.disk device.old)
            (λ image. IsReadAhead D.keeps_model image self.now.frame.now ahead.now) }
        ensures reads { OnlyReads D.SectorDevice result device.old device.new }
        ensures cause { IfErr result IsLoadRefusal }
        ensures notes { Notes damages.old damages.new result }
        ensures size { OnOk result (length bytes.new.value ≡ size) }
        ensures bytes { OnOk result (AreBytes bytes.old.value → AreBytes bytes.new.value) }
        ensures others { OnOk result ((r : ℕ) → r ≢ record_number number index
            → record_bytes r bytes.new.value ≡ record_bytes r bytes.old.value) }
        ensures loaded { OnImage D.keeps_model (D.disk device.old) (λ image. IfOk result
            (λ whole. IsTrue whole
            → IsLoadedRecord D.keeps_model image self.now.frame.now
            number index pointer.now bytes.new.value)) }
        ensures found { OnWalk D.keeps_model (D.disk device.old) (λ image top.
            IsDataOf image top number index pointer.now size
            → Finds image self.now.frame.now top
            (walk_index_of (Data number index)) (walk_index_of (Data number index) + 1)
            damages.old damages.new result) }
    {
        let mut buffer = new_buffer();
        if let Err(error) = self.sound_record(
            device,
            number,
            index,
            pointer,
            ahead,
            size,
            &mut buffer,
        ) {
            return damages.note(error);
        }
        let payload = payload_of(&buffer);
        let at = RECORD_SIZE * record_number(number, index);
        let count = (size - at).min(RECORD_SIZE);
        *bytes = with_bytes(bytes, at, &payload[..count]);
        Ok(true)
    }
}
