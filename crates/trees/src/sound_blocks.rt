//! The one test of a tree's block: it is the one that its pointer names, and what it holds is well formed. Nothing below
//! a block is read before it has passed.

ghost use Rattle.std.specs.Prelude.{◌≡◌, ◌≤◌, ◌↔◌, ℕ, List, IfErr, IsOk, IsTrue, OnOk, drop, length};
ghost use Rattle.base.specs.declared.error.PoolError.TheVariants.{Damaged};
ghost use Rattle.base.specs.disk.Disk.{bytes_of};
ghost use Rattle.base.specs.formats.Geometry.{IsBlockAddress, block_address};
ghost use Rattle.base.specs.formats.Limits.{payload_size};
ghost use Rattle.base.specs.tree.Places.{IsPlace, kind_of};
ghost use Rattle.base.specs.tree.Tree.{OpensAt};
ghost use Rattle.device_model.specs.Reading.{OnlyReads};
ghost use Rattle.object_maps.specs.BlockReads.{OnImage};
ghost use Rattle.object_maps.specs.Cached.{IsReadRefusal};
ghost use Rattle.tree_blocks.specs.BlockPlaces.{place_of};
ghost use Rattle.trees.specs.SoundBlocks.{IsFormed, TellsUnsound};

use base::{BLOCK_SIZE, Pointer, PoolError, RECORD_SIZE, are_zeros};
use checked_blocks::Frame;
use device_model::SectorDevice;
use object_maps::{payload_of, read_block};
use tree_blocks::{BlockPlace, are_entries, are_records, are_strips, have_form, record_number};

// Reads the block that a pointer names into the buffer. The length is that of the object that the place is of, and 0 for
// the root and a directory. Refused `Damaged` if the block is none of this place, or isn't well formed; `Read` if the
// device refuses the read.
pub(crate) fn sound_block<D: SectorDevice>(
    device: &mut D,
    frame: &Frame,
    place: BlockPlace,
    pointer: &Pointer,
    size: usize,
    buffer: &mut [u8; BLOCK_SIZE],
) -> Result<(), PoolError>
    requires fits { block_address frame.now.blocks ≤ D.size device.old }
    requires place { IsPlace (place_of place) }
    ensures reads { OnlyReads D.SectorDevice result device.old device.new }
    ensures cause { IfErr result IsReadRefusal }
    ensures placed { OnOk result (IsBlockAddress frame.now.blocks pointer.now.address) }
    ensures formed { OnOk result (IsFormed frame.now size (place_of place) (drop 64 buffer.new)) }
    ensures opens { OnImage D.keeps_model (D.disk device.old) (λ image. OnOk result
        (IsTrue D.keeps_model
        → OpensAt image frame.now (place_of place) pointer.now (drop 64 buffer.new))) }
    ensures refused { IsTrue D.keeps_model → (image : List ℕ)
        → bytes_of (D.disk device.old).now ≡ image
        → IfErr result (TellsUnsound image frame.now size (place_of place) pointer.now) }
{
    read_block(device, frame, place, pointer, None, buffer)?;
    check_form(frame, place, pointer, size, buffer)
}

// Refuses a block as `Damaged` if what it holds isn't well formed.
pub(crate) fn check_form(
    frame: &Frame,
    place: BlockPlace,
    pointer: &Pointer,
    size: usize,
    block: &[u8; BLOCK_SIZE],
) -> Result<(), PoolError>
    requires { IsPlace (place_of place) }
    ensures ok { IsOk result ↔ IsFormed frame.now size (place_of place) (drop 64 block.now) }
    ensures refused { IfErr result
        (λ e. e ≡ Damaged (kind_of (place_of place)) pointer.now.address) }
{
    if is_formed(frame, place, size, payload_of(block)) {
        return Ok(());
    }
    Err(PoolError::Damaged {
        kind: place.kind(),
        address: pointer.address,
    })
}

// Whether what a block holds is well formed.
fn is_formed(frame: &Frame, place: BlockPlace, size: usize, payload: &[u8]) -> bool
    requires place { IsPlace (place_of place) }
    requires payload { length payload.now ≡ payload_size }
    ensures { IsTrue result ↔ IsFormed frame.now size (place_of place) payload.now }
{
    match place {
        BlockPlace::Root => have_form(payload),
        BlockPlace::Directory(_) => are_entries(frame, payload),
        BlockPlace::Top(_) => are_strips(payload, size),
        BlockPlace::Indirect(number) => are_records(payload, number, size),
        BlockPlace::Data(number, index) => {
            let own = size.saturating_sub(RECORD_SIZE * record_number(number, index));
            are_zeros(&payload[own.min(RECORD_SIZE)..])
        }
    }
}
