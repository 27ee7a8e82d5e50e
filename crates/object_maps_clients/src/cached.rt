//! What callers rest on of blocks that stay in memory, and of reads of one object.

ghost use Rattle.std.specs.Prelude.{◌≡◌, ◌≢◌, ◌≤◌, ◌*◌, ◌∷◌, ℕ, Contains, List, [], IfErr, IfOk, IsTrue, OnOk, drop, false, get_or, length, true};
ghost use Rattle.std.specs.NonZero.{non_zero_usize_get};
ghost use Rattle.base.specs.declared.error.PoolError.TheVariants as error;
ghost use Rattle.base.specs.declared.pointer.Pointer.{Pointer};
ghost use Rattle.base.specs.disk.Disk.{bytes_of};
ghost use Rattle.base.specs.formats.Blocks.{Opens};
ghost use Rattle.base.specs.formats.Fields.{no_pointer, number_at, part, pointer_in};
ghost use Rattle.base.specs.formats.Geometry.{block_address};
ghost use Rattle.base.specs.formats.Limits.{payload_size};
ghost use Rattle.base.specs.tree.Places.{IsPlace, Place, kind_of, number_of_place};
ghost use Rattle.base.specs.tree.Places.Place.{Data};
ghost use Rattle.base.specs.tree.Tree.{IsRecord};
ghost use Rattle.object_maps.specs.Cached.{HoldsStrip};
ghost use Rattle.block_cache.specs.CachedDevices.{cache_of, device_in};
ghost use Rattle.tree_blocks.specs.BlockPlaces.{place_of};

use base::{Pointer, PoolError, RECORD_SIZE};
use block_cache::{BlockCache, CachedDevice};
use checked_blocks::{Block, Frame};
use device_model::{Fault, MemDevice, SectorDevice};
use object_maps::{BlockReader, read_indirect, read_part, record_pointer};
use std::alloc::Global;
use std::num::NonZeroUsize;
use tree_blocks::BlockPlace;

// A new cache has no block.
fn a_new_cache_has_no_block(alloc: Global, into: &mut [u8]) -> bool
    ensures { result ≡ false }
{
    let mut cache = BlockCache::new(alloc, NonZeroUsize::MIN);
    cache.copy(4096, into)
}

// What is found of a block is the payload that was put.
fn a_block_has_the_payload_that_was_put(cache: &mut BlockCache, into: &mut [u8]) -> bool
    requires { cache.old.entries ≡ [] }
    ensures { IsTrue result → into.new ≡ 1 ∷ 2 ∷ 3 ∷ [] }
{
    cache.put(4096, &[1, 2, 3]);
    cache.copy(4096, into)
}

// A payload that the cache has is found, if there is room for just its bytes.
fn a_block_in_the_cache_is_found(cache: &mut BlockCache, into: &mut [u8]) -> bool
    requires entries { cache.old.entries ≡ (4096, 1 ∷ 2 ∷ 3 ∷ []) ∷ [] }
    requires room { length into.old ≡ 3 }
    ensures found { result ≡ true }
    ensures bytes { into.new ≡ 1 ∷ 2 ∷ 3 ∷ [] }
{
    cache.copy(4096, into)
}

// A cache for two blocks says so, also once one was put.
fn a_cache_has_room_for_its_number_of_blocks(cache: &mut BlockCache) -> NonZeroUsize
    requires { cache.old.cap ≡ 2 }
    ensures { non_zero_usize_get result ≡ 2 }
{
    cache.put(4096, &[1, 2, 3]);
    cache.count()
}

// A block that was dropped is not found.
fn a_dropped_block_is_not_found(cache: &mut BlockCache, into: &mut [u8]) -> bool
    ensures { result ≡ false }
{
    cache.drop_block(4096);
    cache.copy(4096, into)
}

// A cleared cache has no block.
fn a_cleared_cache_has_no_block(cache: &mut BlockCache, into: &mut [u8]) -> bool
    ensures { result ≡ false }
{
    cache.clear();
    cache.copy(4096, into)
}

// A block that is written after it was read is read anew.
fn a_block_that_was_written_is_read_anew<D: SectorDevice>(
    device: &mut CachedDevice<D>,
    frame: &Frame,
    place: BlockPlace,
    pointer: &Pointer,
    block: &[u8; 4096],
    into: &mut [u8],
) -> Result<(), PoolError>
    requires fits { block_address frame.now.blocks ≤ D.size (device_in device.old) }
    requires on_device { 8192 ≤ D.size (device_in device.old) }
    requires place { IsPlace (place_of place) }
    requires size { length into.old ≡ payload_size }
    ensures { IsTrue D.keeps_model → (payload : List ℕ)
        → Opens (bytes_of (D.disk (device_in device.new)).now) frame.now (kind_of (place_of place))
        (number_of_place (place_of place)) pointer.now payload → OnOk result (into.new ≡ payload) }
{
    device.read_payload(frame, place, pointer, into)?;
    device.write(4096, block)?;
    device.read_payload(frame, place, pointer, into)
}

// The device that is taken out is the one that was put in.
fn a_device_comes_back<D: SectorDevice>(device: D, cache: BlockCache) -> D
    requires { cache.entries ≡ [] }
    ensures { result ≡ device }
{
    let (device, _) = CachedDevice::new(device, cache).into_parts();
    device
}

// A fault that is planned is one of the device, of its kind alone.
fn a_planned_fault_is_one_of_the_device(device: &mut CachedDevice<MemDevice>)
    ensures planned { (device_in device.new).read_fails ≡ 2 }
    ensures no_other { (device_in device.new).write_fails ≡ (device_in device.old).write_fails }
{
    device.fail(Fault::Read, 2);
}

// What is forgotten stays on the device, and no entry is of it.
fn a_forgotten_block_stays_on_the_device<D: SectorDevice>(device: &mut CachedDevice<D>)
    ensures disk { D.disk (device_in device.new) ≡ D.disk (device_in device.old) }
    ensures gone { (payload : List ℕ)
        → Contains (cache_of device.new).entries (4096, payload) → ⊥ }
{
    device.forget(4096);
}

// What a sync wrote stays beside the device, which is left as it is.
fn a_kept_block_leaves_the_device<D: SectorDevice>(device: &mut CachedDevice<D>, block: Block)
    ensures disk { D.disk (device_in device.new) ≡ D.disk (device_in device.old) }
    ensures size { D.size (device_in device.new) ≡ D.size (device_in device.old) }
    ensures refused { D.refused (device_in device.new) ≡ D.refused (device_in device.old) }
{
    device.keep_sealed(4096, block);
}

// A block that a sync wrote is read as the device has it.
fn a_kept_block_is_read_from_the_device<D: SectorDevice>(
    device: &mut CachedDevice<D>,
    frame: &Frame,
    place: BlockPlace,
    pointer: &Pointer,
    block: Block,
    into: &mut [u8],
) -> Result<(), PoolError>
    requires fits { block_address frame.now.blocks ≤ D.size (device_in device.old) }
    requires place { IsPlace (place_of place) }
    requires size { length into.old ≡ payload_size }
    ensures { IsTrue D.keeps_model → (payload : List ℕ)
        → Opens (bytes_of (D.disk (device_in device.old)).now) frame.now (kind_of (place_of place))
        (number_of_place (place_of place)) pointer.now payload → OnOk result (into.new ≡ payload) }
{
    device.keep_sealed(pointer.address, block);
    device.read_payload(frame, place, pointer, into)
}

// A read of a block gives what the device has there after the head of 64 bytes, also if it is in memory.
fn a_block_is_read_as_the_device_has_it<D: SectorDevice>(
    device: &mut CachedDevice<D>,
    frame: &Frame,
    place: BlockPlace,
    pointer: &Pointer,
    into: &mut [u8],
) -> Result<(), PoolError>
    requires fits { block_address frame.now.blocks ≤ D.size (device_in device.old) }
    requires place { IsPlace (place_of place) }
    requires size { length into.old ≡ payload_size }
    requires keeps { IsTrue D.keeps_model }
    ensures { OnOk result (into.new ≡ drop 64
        (part (bytes_of (D.disk (device_in device.old)).now) pointer.now.address 4096)) }
{
    device.read_payload(frame, place, pointer, into)
}

// If none is in memory, a block whose head has another kind is not taken.
fn a_block_of_another_kind_is_not_taken<D: SectorDevice>(
    device: &mut CachedDevice<D>,
    frame: &Frame,
    pointer: &Pointer,
    into: &mut [u8],
) -> Result<(), PoolError>
    requires fits { block_address frame.now.blocks ≤ D.size (device_in device.old) }
    requires size { length into.old ≡ payload_size }
    requires keeps { IsTrue D.keeps_model }
    requires empty { (cache_of device.old).entries ≡ [] }
    requires indirect { number_at (part (bytes_of (D.disk (device_in device.old)).now)
        pointer.now.address 4096) 0 ≡ 4 }
    ensures { OnOk result ⊥ }
{
    let place = BlockPlace::Data(0, 9);
    device.read_payload(frame, place, pointer, into)
}

// The payload of an object's indirect block has the pointer of each of its records.
fn an_indirect_block_has_the_pointer_of_a_record<B: BlockReader>(
    reader: &mut B,
    frame: &Frame,
    indirect: &Pointer,
    payload: &mut [u8],
) -> Result<(), PoolError>
    requires fits { block_address frame.now.blocks ≤ B.size reader.old }
    requires size { length payload.old ≡ payload_size }
    ensures { IsTrue B.keeps_model → (pointers : Place → Pointer) (bytes : List ℕ)
        → HoldsStrip (bytes_of (B.disk reader.old).now) frame.now 7 indirect.now pointers bytes
        → OnOk result (pointer_in payload.new 3 ≡ pointers (Data 7 3)) }
{
    read_indirect(reader, frame, 7, indirect, payload)
}

// If no block is in memory, one of a record is not taken for an indirect block.
fn a_data_block_is_no_indirect_block<B: BlockReader>(
    reader: &mut B,
    frame: &Frame,
    indirect: &Pointer,
    payload: &mut [u8],
) -> Result<(), PoolError>
    requires fits { block_address frame.now.blocks ≤ B.size reader.old }
    requires size { length payload.old ≡ payload_size }
    requires keeps { IsTrue B.keeps_model }
    requires empty { B.cached reader.old ≡ [] }
    requires there { indirect.now ≢ no_pointer }
    requires data { number_at (part (bytes_of (B.disk reader.old).now)
        indirect.now.address 4096) 0 ≡ 5 }
    ensures { OnOk result ⊥ }
{
    read_indirect(reader, frame, 7, indirect, payload)
}

// Nor is the block of record 591 taken for that of record 2 of object 7, whose number is 590.
fn a_block_of_another_record_is_not_taken<B: BlockReader>(
    reader: &mut B,
    frame: &Frame,
    pointer: &Pointer,
    into: &mut [u8],
) -> Result<(), PoolError>
    requires fits { block_address frame.now.blocks ≤ B.size reader.old }
    requires size { length into.old ≡ 4 }
    requires keeps { IsTrue B.keeps_model }
    requires empty { B.cached reader.old ≡ [] }
    requires there { pointer.now ≢ no_pointer }
    requires other { number_at (part (bytes_of (B.disk reader.old).now)
        pointer.now.address 4096) 24 ≡ 591 }
    ensures { OnOk result ⊥ }
{
    read_part(reader, frame, 7, 2, pointer, 20_000, 1, into)
}

// Of an object of three bytes, a block whose record has a byte after them is not taken, also if that byte is not read.
fn a_record_that_goes_on_past_the_end_is_not_taken<B: BlockReader>(
    reader: &mut B,
    frame: &Frame,
    pointer: &Pointer,
    into: &mut [u8],
) -> Result<(), PoolError>
    requires fits { block_address frame.now.blocks ≤ B.size reader.old }
    requires size { length into.old ≡ 2 }
    requires keeps { IsTrue B.keeps_model }
    requires empty { B.cached reader.old ≡ [] }
    requires there { pointer.now ≢ no_pointer }
    requires more { get_or (drop 64 (part (bytes_of (B.disk reader.old).now)
        pointer.now.address 4096)) 4000 0 ≡ 9 }
    ensures { OnOk result ⊥ }
{
    read_part(reader, frame, 7, 0, pointer, 3, 0, into)
}

// An object without an indirect block has zeros in the place of its payload.
fn no_indirect_block_is_zeros<B: BlockReader>(
    reader: &mut B,
    frame: &Frame,
    indirect: &Pointer,
    payload: &mut [u8],
) -> Result<(), PoolError>
    requires fits { block_address frame.now.blocks ≤ B.size reader.old }
    requires size { length payload.old ≡ payload_size }
    requires hole { indirect.now ≡ no_pointer }
    ensures { OnOk result (get_or payload.new 4031 0 ≡ 0) }
{
    read_indirect(reader, frame, 7, indirect, payload)
}

// And a record without a block is zeros.
fn no_record_is_zeros<B: BlockReader>(
    reader: &mut B,
    frame: &Frame,
    pointer: &Pointer,
    into: &mut [u8],
) -> Result<(), PoolError>
    requires fits { block_address frame.now.blocks ≤ B.size reader.old }
    requires size { length into.old ≡ 4 }
    requires hole { pointer.now ≡ no_pointer }
    ensures { OnOk result (get_or into.new 3 0 ≡ 0) }
{
    read_part(reader, frame, 7, 2, pointer, 20_000, 1, into)
}

// Zeros are no pointer to a record, and no damage.
fn zeros_are_no_pointer(frame: &Frame, payload: &[u8]) -> Result<Pointer, PoolError>
    requires size { length payload.now ≡ payload_size }
    requires zeros { pointer_in payload.now 3 ≡ no_pointer }
    ensures pointer { IfOk result (λ p. p ≡ no_pointer) }
    ensures undamaged { IfErr result (λ _. ⊥) }
{
    record_pointer(frame, payload, 7, 3, 20_000)
}

// At an object's end there is no record any more. A pointer to one is damage, told with the address that it names.
fn a_record_past_the_end_is_damage(frame: &Frame, payload: &[u8]) -> Result<Pointer, PoolError>
    requires size { length payload.now ≡ payload_size }
    requires there { pointer_in payload.now 3 ≢ no_pointer }
    ensures refused { IfOk result (λ _. ⊥) }
    ensures named { IfErr result
        (λ e. e ≡ error.Damaged 5 (pointer_in payload.now 3).address) }
{
    record_pointer(frame, payload, 7, 3, 3 * RECORD_SIZE)
}

// What the device has in place of a block is told with the block's kind and address.
fn a_damaged_block_is_named<B: BlockReader>(
    reader: &mut B,
    frame: &Frame,
    pointer: &Pointer,
    payload: &mut [u8],
) -> Result<(), PoolError>
    requires fits { block_address frame.now.blocks ≤ B.size reader.old }
    requires size { length payload.old ≡ payload_size }
    ensures { IfErr result
        (λ e. e ≢ error.Read → e ≡ error.Damaged 5 pointer.now.address) }
{
    let place = BlockPlace::Data(0, 9);
    reader.read_payload(frame, place, pointer, payload)
}

// An indirect block that is damaged is told with its own kind and address.
fn a_damaged_indirect_block_is_named<B: BlockReader>(
    reader: &mut B,
    frame: &Frame,
    indirect: &Pointer,
    payload: &mut [u8],
) -> Result<(), PoolError>
    requires fits { block_address frame.now.blocks ≤ B.size reader.old }
    requires size { length payload.old ≡ payload_size }
    ensures { IfErr result
        (λ e. e ≢ error.Read → e ≡ error.Damaged 4 indirect.now.address) }
{
    read_indirect(reader, frame, 7, indirect, payload)
}

// So is a record's block.
fn a_damaged_record_is_named<B: BlockReader>(
    reader: &mut B,
    frame: &Frame,
    pointer: &Pointer,
    into: &mut [u8],
) -> Result<(), PoolError>
    requires fits { block_address frame.now.blocks ≤ B.size reader.old }
    requires size { length into.old ≡ 4 }
    ensures { IfErr result
        (λ e. e ≢ error.Read → e ≡ error.Damaged 5 pointer.now.address) }
{
    read_part(reader, frame, 7, 2, pointer, 8067, 1, into)
}

// Record 2 begins at byte 8,064. Of an object of 8,067 bytes it has 3, and what is read after them is zeros, whatever
// the device has there.
fn bytes_past_the_end_are_zeros<B: BlockReader>(
    reader: &mut B,
    frame: &Frame,
    pointer: &Pointer,
    into: &mut [u8],
) -> Result<(), PoolError>
    requires fits { block_address frame.now.blocks ≤ B.size reader.old }
    requires size { length into.old ≡ 4 }
    ensures third { OnOk result (get_or into.new 2 0 ≡ 0) }
    ensures fourth { OnOk result (get_or into.new 3 0 ≡ 0) }
{
    read_part(reader, frame, 7, 2, pointer, 8067, 1, into)
}

// A read of a record begins at its offset, and has zeros after the object's end.
fn a_part_of_a_record_ends_with_zeros<B: BlockReader>(
    reader: &mut B,
    frame: &Frame,
    pointer: &Pointer,
    into: &mut [u8],
) -> Result<(), PoolError>
    requires fits { block_address frame.now.blocks ≤ B.size reader.old }
    requires size { length into.old ≡ 4 }
    requires keeps { IsTrue B.keeps_model }
    requires record { IsRecord (bytes_of (B.disk reader.old).now) frame.now 7 0 pointer.now
        (1 ∷ 2 ∷ 3 ∷ []) }
    ensures second { OnOk result (get_or into.new 0 0 ≡ 2) }
    ensures third { OnOk result (get_or into.new 1 0 ≡ 3) }
    ensures after { OnOk result (get_or into.new 2 0 ≡ 0) }
    ensures refused { IfErr result (λ e. e ≡ error.Read) }
{
    read_part(reader, frame, 7, 0, pointer, 3, 1, into)
}
