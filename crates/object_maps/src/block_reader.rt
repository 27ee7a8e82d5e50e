//! Reads of one object of a tree, block by block: its top if it has two levels, its indirect blocks, and parts of its
//! records. The entry of an object names its top, or the indirect block of its first strip.
//!
//! On a device that keeps the model, a payload is that of the block which its pointer names, as a load takes it, or one
//! that is in memory under the block's address (`taken`).

ghost use Rattle.std.specs.Prelude.{◌≡◌, ◌≢◌, ℕ, ◌+◌, ◌*◌, ◌<◌, ◌≤◌, List, IfErr, IfOk, IsTrue, OnOk, get_or, length};
ghost use Rattle.base.specs.declared.error.PoolError.TheVariants as error;
ghost use Rattle.base.specs.declared.pointer.Pointer.{Pointer};
ghost use Rattle.base.specs.disk.Disk.{bytes_of};
ghost use Rattle.base.specs.formats.Blocks.{Opens};
ghost use Rattle.base.specs.formats.Fields.{no_pointer, pointer_in};
ghost use Rattle.base.specs.formats.Geometry.{block_address};
ghost use Rattle.base.specs.formats.Limits.{object_count, indirect_count, payload_size, pointer_count, record_size};
ghost use Rattle.base.specs.kept.PlacedTrees.{IsPlaced};
ghost use Rattle.base.specs.tree.Places.{IsPlace, Place, kind_of, number_of_place, record_number, record_start, strip_number, strip_start};
ghost use Rattle.base.specs.tree.Places.Place.{Indirect, Data};
ghost use Rattle.base.specs.tree.Tree.{IsRecord};
ghost use Rattle.device_model.specs.Reading.{OnlyReads};
ghost use Rattle.object_maps.specs.Cached.{BeginsInside, HasNoneAt, HoldsStrip, HoldsTop, IsBlockRefusal, IsPointerInside, IsReadPart, IsReadPayload, OnlyLeft};
ghost use Rattle.object_maps.specs.Kinds.{kind_number};
ghost use Rattle.tree_blocks.specs.BlockPlaces.{place_of};
ghost use Rattle.tree_blocks.specs.Sources.{AreBytesFrom};

use crate::block_reads::damaged;
use base::{ObjectId, POINTER_COUNT, Pointer, PoolError, RECORD_SIZE, are_zeros};
use checked_blocks::{Block, Frame, Kind, PAYLOAD_SIZE};
use device_model::SectorDevice;
use tree_blocks::{BlockPlace, pointer_in, record_number};

/// A device whose tree blocks are read.
pub trait BlockReader: SectorDevice {
    /// The payloads that a read may take from memory, by the addresses of their blocks.
    ghost cached: { Self → List (ℕ × List ℕ) };

    /// Reads the payload of the block at a place, which this pointer names. It makes one device call at most.
    ///
    /// # Errors
    /// `Read` if the device refused the read, `Damaged` if the block is none of this place.
    fn read_payload(
        &mut self,
        frame: &Frame,
        place: BlockPlace,
        pointer: &Pointer,
        into: &mut [u8],
    ) -> Result<(), PoolError>
        requires fits { block_address frame.now.blocks ≤ Self.size self.old }
        requires place { IsPlace (place_of place) }
        requires size { length into.old ≡ payload_size }
        ensures reads { OnlyReads Self.SectorDevice result self.old self.new }
        ensures size { length into.new ≡ payload_size }
        ensures refused { IfErr result
            (IsBlockRefusal (kind_of (place_of place)) pointer.now.address) }
        ensures taken { IsTrue Self.keeps_model → OnOk result (IsReadPayload
            (Self.cached self.old) (bytes_of (Self.disk self.old).now) frame.now
            (kind_of (place_of place)) (number_of_place (place_of place)) pointer.now into.new) }
        ensures exact { IsTrue Self.keeps_model → (payload : List ℕ)
            → Opens (bytes_of (Self.disk self.old).now) frame.now (kind_of (place_of place))
            (number_of_place (place_of place)) pointer.now payload → OnOk result (into.new ≡ payload) }
        ensures sound { IsTrue Self.keeps_model → (payload : List ℕ)
            → Opens (bytes_of (Self.disk self.old).now) frame.now (kind_of (place_of place))
            (number_of_place (place_of place)) pointer.now payload → IfErr result (λ e. e ≡ error.Read) };

    /// Takes a sealed block that was written to an address. A read of it there may compare its bytes in place of making
    /// its check. It makes no device call, and without memory the block isn't kept.
    fn keep_sealed(&mut self, address: u64, block: Block)
        ensures size { Self.size self.new ≡ Self.size self.old }
        ensures disk { Self.disk self.new ≡ Self.disk self.old }
        ensures refused { Self.refused self.new ≡ Self.refused self.old }
        ensures cached { Self.cached self.new ≡ Self.cached self.old };

    /// No read takes the block at an address from memory any more. It makes no device call and takes no memory.
    fn forget(&mut self, address: u64)
        ensures size { Self.size self.new ≡ Self.size self.old }
        ensures disk { Self.disk self.new ≡ Self.disk self.old }
        ensures refused { Self.refused self.new ≡ Self.refused self.old }
        ensures gone { HasNoneAt address (Self.cached self.new) }
        ensures left { OnlyLeft (Self.cached self.old) (Self.cached self.new) };
}

// The payload of the block at a place, or zeros for no pointer.
fn read_pointers<B: BlockReader>(
    reader: &mut B,
    frame: &Frame,
    place: BlockPlace,
    pointer: &Pointer,
    payload: &mut [u8],
) -> Result<(), PoolError>
    requires fits { block_address frame.now.blocks ≤ B.size reader.old }
    requires place { IsPlace (place_of place) }
    requires size { length payload.old ≡ payload_size }
    ensures reads { OnlyReads B.SectorDevice result reader.old reader.new }
    ensures size { length payload.new ≡ payload_size }
    ensures refused { IfErr result
        (IsBlockRefusal (kind_of (place_of place)) pointer.now.address) }
    ensures hole { pointer.now ≡ no_pointer
        → OnOk result ((k : ℕ) → k < payload_size → get_or payload.new k 0 ≡ 0) }
    ensures whole { pointer.now ≡ no_pointer → IfErr result (λ _. ⊥) }
    ensures none { pointer.now ≡ no_pointer
        → OnOk result ((k : ℕ) → k < pointer_count → pointer_in payload.new k ≡ no_pointer) }
    ensures taken { IsTrue B.keeps_model → pointer.now ≢ no_pointer → OnOk result (IsReadPayload
        (B.cached reader.old) (bytes_of (B.disk reader.old).now) frame.now
        (kind_of (place_of place)) (number_of_place (place_of place)) pointer.now payload.new) }
    ensures exact { IsTrue B.keeps_model → pointer.now ≢ no_pointer → (held : List ℕ)
        → Opens (bytes_of (B.disk reader.old).now) frame.now (kind_of (place_of place))
        (number_of_place (place_of place)) pointer.now held → OnOk result (payload.new ≡ held) }
    ensures sound { IsTrue B.keeps_model → pointer.now ≢ no_pointer → (held : List ℕ)
        → Opens (bytes_of (B.disk reader.old).now) frame.now (kind_of (place_of place))
        (number_of_place (place_of place)) pointer.now held → IfErr result (λ e. e ≡ error.Read) }
{
    if pointer.is_none() {
        payload.fill(0);
        return Ok(());
    }
    reader.read_payload(frame, place, pointer, payload)
}

/// The payload of the top of an object of two levels, whose directory entry has this pointer. If it has no top, the
/// payload is zeros.
///
/// # Errors
/// `Read` if the device refused the read, `Damaged` if the block is none of this place.
pub fn read_top<B: BlockReader>(
    reader: &mut B,
    frame: &Frame,
    number: usize,
    top: &Pointer,
    payload: &mut [u8],
) -> Result<(), PoolError>
    requires fits { block_address frame.now.blocks ≤ B.size reader.old }
    requires number { number < object_count }
    requires size { length payload.old ≡ payload_size }
    ensures reads { OnlyReads B.SectorDevice result reader.old reader.new }
    ensures size { length payload.new ≡ payload_size }
    ensures refused { IfErr result (IsBlockRefusal (kind_number Kind.Top) top.now.address) }
    ensures hole { top.now ≡ no_pointer
        → OnOk result ((k : ℕ) → k < payload_size → get_or payload.new k 0 ≡ 0) }
    ensures taken { IsTrue B.keeps_model → top.now ≢ no_pointer → OnOk result (IsReadPayload
        (B.cached reader.old) (bytes_of (B.disk reader.old).now) frame.now
        (kind_number Kind.Top) number top.now payload.new) }
    ensures exact { IsTrue B.keeps_model → (pointers : Place → Pointer) (bytes : List ℕ)
        → HoldsTop (bytes_of (B.disk reader.old).now) frame.now number top.now pointers bytes
        → OnOk result ((j : ℕ) → j < pointer_count
        → pointer_in payload.new j ≡ pointers (Indirect (strip_number number j))) }
    ensures sound { IsTrue B.keeps_model → (pointers : Place → Pointer) (bytes : List ℕ)
        → HoldsTop (bytes_of (B.disk reader.old).now) frame.now number top.now pointers bytes
        → IfErr result (λ e. e ≡ error.Read) }
{
    let place = BlockPlace::Top(ObjectId(number as u32));
    read_pointers(reader, frame, place, top, payload)
}

/// The payload of the indirect block of the strip of this number, which its top or its object's directory entry names
/// by this pointer. If it has no such block, the payload is zeros.
///
/// # Errors
/// `Read` if the device refused the read, `Damaged` if the block is none of this place.
pub fn read_indirect<B: BlockReader>(
    reader: &mut B,
    frame: &Frame,
    number: usize,
    indirect: &Pointer,
    payload: &mut [u8],
) -> Result<(), PoolError>
    requires fits { block_address frame.now.blocks ≤ B.size reader.old }
    requires number { number < indirect_count }
    requires size { length payload.old ≡ payload_size }
    ensures reads { OnlyReads B.SectorDevice result reader.old reader.new }
    ensures size { length payload.new ≡ payload_size }
    ensures refused { IfErr result
        (IsBlockRefusal (kind_number Kind.Indirect) indirect.now.address) }
    ensures hole { indirect.now ≡ no_pointer
        → OnOk result ((k : ℕ) → k < payload_size → get_or payload.new k 0 ≡ 0) }
    ensures taken { IsTrue B.keeps_model → indirect.now ≢ no_pointer → OnOk result (IsReadPayload
        (B.cached reader.old) (bytes_of (B.disk reader.old).now) frame.now
        (kind_number Kind.Indirect) number indirect.now payload.new) }
    ensures exact { IsTrue B.keeps_model → (pointers : Place → Pointer) (bytes : List ℕ)
        → HoldsStrip (bytes_of (B.disk reader.old).now) frame.now number indirect.now pointers bytes
        → OnOk result ((k : ℕ) → k < pointer_count
        → pointer_in payload.new k ≡ pointers (Data number k)) }
    ensures sound { IsTrue B.keeps_model → (pointers : Place → Pointer) (bytes : List ℕ)
        → HoldsStrip (bytes_of (B.disk reader.old).now) frame.now number indirect.now pointers bytes
        → IfErr result (λ e. e ≡ error.Read) }
{
    let place = BlockPlace::Indirect(number);
    read_pointers(reader, frame, place, indirect, payload)
}

// A pointer of a payload to what begins at an offset of an object of this length.
fn pointer_inside(
    frame: &Frame,
    payload: &[u8],
    index: usize,
    kind: Kind,
    start: usize,
    size: usize,
) -> Result<Pointer, PoolError>
    requires size { length payload.now ≡ payload_size }
    requires index { index < pointer_count }
    ensures pointer { IfOk result (λ p. p ≡ pointer_in payload.now index) }
    ensures placed { IfOk result (IsPlaced frame.now.blocks) }
    ensures inside { IfOk result (BeginsInside size start) }
    ensures refused { IfErr result (λ e. e ≡ error.Damaged (kind_number kind)
        (pointer_in payload.now index).address) }
    ensures sound { IsPointerInside frame.now.blocks size start (pointer_in payload.now index)
        → IfErr result (λ _. ⊥) }
{
    let pointer = pointer_in(payload, index);
    if pointer.is_none() {
        return Ok(pointer);
    }
    if !frame.is_block_address(pointer.address) || size <= start {
        return Err(damaged(kind, &pointer));
    }
    Ok(pointer)
}

/// The pointer to the indirect block of a strip of an object of this length, in the payload of its top.
///
/// # Errors
/// `Damaged` if it is not none and names no block of the area, or if it names one of a strip from the object's end on.
pub fn strip_pointer(
    frame: &Frame,
    payload: &[u8],
    index: usize,
    size: usize,
) -> Result<Pointer, PoolError>
    requires size { length payload.now ≡ payload_size }
    requires index { index < pointer_count }
    ensures pointer { IfOk result (λ p. p ≡ pointer_in payload.now index) }
    ensures placed { IfOk result (IsPlaced frame.now.blocks) }
    ensures inside { IfOk result (BeginsInside size (strip_start index)) }
    ensures refused { IfErr result (λ e. e ≡ error.Damaged (kind_number Kind.Indirect)
        (pointer_in payload.now index).address) }
    ensures sound { IsPointerInside frame.now.blocks size (strip_start index)
        (pointer_in payload.now index) → IfErr result (λ _. ⊥) }
{
    let start = RECORD_SIZE * (POINTER_COUNT * index);
    pointer_inside(frame, payload, index, Kind::Indirect, start, size)
}

/// The pointer to a record of the strip of this number, in the payload of its indirect block. Its object has this
/// length.
///
/// # Errors
/// `Damaged` if it is not none and names no block of the area, or if it names one from the object's end on.
pub fn record_pointer(
    frame: &Frame,
    payload: &[u8],
    number: usize,
    index: usize,
    size: usize,
) -> Result<Pointer, PoolError>
    requires size { length payload.now ≡ payload_size }
    requires number { number < indirect_count }
    requires index { index < pointer_count }
    ensures pointer { IfOk result (λ p. p ≡ pointer_in payload.now index) }
    ensures placed { IfOk result (IsPlaced frame.now.blocks) }
    ensures inside { IfOk result (BeginsInside size (record_start number index)) }
    ensures refused { IfErr result (λ e. e ≡ error.Damaged (kind_number Kind.Data)
        (pointer_in payload.now index).address) }
    ensures sound { IsPointerInside frame.now.blocks size (record_start number index)
        (pointer_in payload.now index) → IfErr result (λ _. ⊥) }
{
    let start = RECORD_SIZE * record_number(number, index);
    pointer_inside(frame, payload, index, Kind::Data, start, size)
}

/// The bytes of a record of the strip of this number from the offset `start` in the record on, with zeros after the
/// object's end. The record has this pointer, and the object this length.
///
/// # Errors
/// `Read` if the device refused the read. `Damaged` if the block is none of this place, or if a byte of it past the
/// object's end isn't zero, also one that is not read.
pub fn read_part<B: BlockReader>(
    reader: &mut B,
    frame: &Frame,
    number: usize,
    index: usize,
    pointer: &Pointer,
    size: usize,
    start: usize,
    into: &mut [u8],
) -> Result<(), PoolError>
    requires fits { block_address frame.now.blocks ≤ B.size reader.old }
    requires number { number < indirect_count }
    requires index { index < pointer_count }
    requires within { start + length into.old ≤ record_size }
    ensures reads { OnlyReads B.SectorDevice result reader.old reader.new }
    ensures size { length into.new ≡ length into.old }
    ensures refused { IfErr result (IsBlockRefusal (kind_number Kind.Data) pointer.now.address) }
    ensures hole { pointer.now ≡ no_pointer
        → OnOk result ((k : ℕ) → k < length into.new → get_or into.new k 0 ≡ 0) }
    ensures taken { IsTrue B.keeps_model → pointer.now ≢ no_pointer → OnOk result (IsReadPart
        (B.cached reader.old) (bytes_of (B.disk reader.old).now) frame.now
        number index size pointer.now start into.new) }
    ensures zeros { OnOk result ((k : ℕ) → k < length into.new
        → size ≤ record_start number index + (start + k) → get_or into.new k 0 ≡ 0) }
    ensures exact { IsTrue B.keeps_model → (bytes : List ℕ)
        → IsRecord (bytes_of (B.disk reader.old).now) frame.now number index pointer.now bytes
        → OnOk result (AreBytesFrom (record_start number index + start) bytes into.new) }
    ensures sound { IsTrue B.keeps_model → (bytes : List ℕ) → length bytes ≡ size
        → IsRecord (bytes_of (B.disk reader.old).now) frame.now number index pointer.now bytes
        → IfErr result (λ e. e ≡ error.Read) }
{
    if pointer.is_none() {
        into.fill(0);
        return Ok(());
    }
    let mut payload = [0; PAYLOAD_SIZE];
    let place = BlockPlace::Data(number, index);
    reader.read_payload(frame, place, pointer, &mut payload)?;
    let end = RECORD_SIZE.min(size.saturating_sub(RECORD_SIZE * record_number(number, index)));
    if !are_zeros(&payload[end..]) {
        return Err(damaged(Kind::Data, pointer));
    }
    let count = into.len();
    into.copy_from_slice(&payload[start..start + count]);
    Ok(())
}
