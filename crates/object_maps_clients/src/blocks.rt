//! What callers rest on of the read of a block that a pointer names.

ghost use Rattle.std.specs.Prelude.{◌≡◌, ◌<◌, ◌≤◌, IsTrue, OnOk, false, get_or, length};
ghost use Rattle.base.specs.declared.error.PoolError.TheVariants as error;
ghost use Rattle.base.specs.disk.Disk.{bytes_of};
ghost use Rattle.base.specs.formats.Fields.{number_at, part};
ghost use Rattle.base.specs.formats.Geometry.{block_address};

use base::{Pointer, PoolError};
use checked_blocks::{Block, Expected, Frame, Kind};
use device_model::SectorDevice;
use object_maps::{can_read, damaged, expected, new_buffer, payload_of, read_block};
use tree_blocks::BlockPlace;

// A block whose head has another kind is not taken, also if the sealed block that was written there is at hand.
fn a_block_is_not_taken_for_a_sealed_one_with_other_bytes<D: SectorDevice>(
    device: &mut D,
    frame: &Frame,
    pointer: &Pointer,
    sealed: &Block,
    buffer: &mut [u8; 4096],
) -> Result<(), PoolError>
    requires fits { block_address frame.now.blocks ≤ D.size device.old }
    requires keeps { IsTrue D.keeps_model }
    requires indirect { number_at (part (bytes_of (D.disk device.old).now)
        pointer.now.address 4096) 0 ≡ 4 }
    ensures { OnOk result ⊥ }
{
    let place = BlockPlace::Data(0, 9);
    read_block(device, frame, place, pointer, Some(sealed), buffer)
}

// What is read into a new buffer is a whole block, whose payload has 4,032 bytes.
fn a_new_buffer_has_room_for_a_payload() -> usize
    ensures { result ≡ 4032 }
{
    payload_of(&new_buffer()).len()
}

// A block that was born after the newest group may not be read.
fn a_block_of_a_later_group_is_not_read(frame: &Frame, pointer: &Pointer) -> bool
    requires { frame.now.group < pointer.now.birth }
    ensures { result ≡ false }
{
    can_read(frame, pointer)
}

// A damaged indirect block is told by its kind, 4, and by the address that its pointer names.
fn a_damage_has_the_address_of_the_pointer(pointer: &Pointer) -> PoolError
    ensures { result ≡ error.Damaged 4 pointer.now.address }
{
    damaged(Kind::Indirect, pointer)
}

// The block of record 2 of object 7 is data block 590.
fn what_is_expected_has_the_number_of_the_block(frame: &Frame, pointer: &Pointer) -> Expected
    ensures kind { result.kind ≡ 5 }
    ensures number { result.number ≡ 590 }
{
    expected(frame, 5, 590, pointer)
}

// The first byte of a payload is byte 64 of its block.
fn a_payload_begins_at_byte_64(block: &[u8; 4096]) -> &[u8]
    ensures { get_or result.now 0 0 ≡ get_or block.now 64 0 }
{
    payload_of(block)
}
