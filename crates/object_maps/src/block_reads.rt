//! The read of the block of a tree that a pointer names. It is taken only if it is the one of its place.

ghost use Rattle.std.specs.Prelude.{◌≡◌, ℕ, ◌≤◌, ◌↔◌, List, IfErr, IsOk, OnOk, IsTrue, drop, length};
ghost use Rattle.base.specs.disk.Disk.{bytes_of};
ghost use Rattle.base.specs.formats.Blocks.{Opens};
ghost use Rattle.base.specs.formats.Geometry.{IsBlockAddress, block_address};
ghost use Rattle.base.specs.formats.Limits.{payload_size};
ghost use Rattle.base.specs.tree.Places.{IsPlace, kind_of, number_of_place};
ghost use Rattle.checked_blocks.proofs.NamedBlocks.{IsNamed};
ghost use Rattle.checked_blocks.specs.Opening.{IsExpected, damage_of};
ghost use Rattle.device_model.specs.Reading.{OnlyReads};
ghost use Rattle.tree_blocks.specs.BlockPlaces.{place_of};
ghost use Rattle.object_maps.specs.BlockReads.{IsLoadRefusal, IsReadable, OnImage, TellsBlock};
ghost use Rattle.object_maps.specs.Cached.{IsBlockRefusal};
ghost use Rattle.object_maps.specs.Kinds.{kind_number};

use base::{BLOCK_SIZE, Group, Pointer, PoolError};
use checked_blocks::{Block, Expected, Frame, HEAD_SIZE, Kind, open};
use device_model::SectorDevice;
use tree_blocks::BlockPlace;

/// Room for the bytes of a block.
pub fn new_buffer() -> [u8; BLOCK_SIZE] {
    [0; BLOCK_SIZE]
}

/// The payload of a block.
pub fn payload_of(block: &[u8; BLOCK_SIZE]) -> &[u8]
    ensures payload { result.now ≡ drop 64 block.now }
    ensures length { length result.now ≡ payload_size }
{
    &block[HEAD_SIZE..]
}

/// What the block of this kind and number has to be that a pointer names.
pub fn expected(frame: &Frame, kind: u64, number: u64, pointer: &Pointer) -> Expected
    ensures named { IsNamed result frame.now kind number pointer.now }
    ensures address { result.address ≡ pointer.now.address }
{
    Expected {
        address: pointer.address,
        kind,
        guid: frame.guid(),
        number,
        group: Some(Group(pointer.birth)),
        check: Some(pointer.check),
    }
}

/// The refusal that tells a damaged block of this kind, which a pointer names.
pub fn damaged(kind: Kind, pointer: &Pointer) -> PoolError
    ensures { result ≡ PoolError.Damaged (kind_number kind) pointer.now.address }
{
    PoolError::Damaged {
        kind: kind as u64,
        address: pointer.address,
    }
}

/// Whether a block may be where a pointer says, and as old.
pub fn can_read(frame: &Frame, pointer: &Pointer) -> bool
    ensures { IsTrue result ↔ IsReadable frame.now pointer.now }
{
    frame.is_block_address(pointer.address) && pointer.birth <= frame.group().0
}

// Opens a block that was read. If it has the bytes of the sealed block, its check isn't made again.
fn open_read(
    block: &[u8; BLOCK_SIZE],
    expected: &Expected,
    sealed: Option<&Block>,
) -> Result<(), PoolError>
    ensures ok { IsOk result ↔ IsExpected block.now expected.now }
    ensures refused { IfErr result (λ e. e ≡ damage_of expected.now) }
{
    if let Some(sealed) = sealed
        && sealed.as_bytes() == block
    {
        sealed.open(expected)?;
        return Ok(());
    }
    open(block, expected)?;
    Ok(())
}

/// Reads the block that a pointer names into the buffer. If it has the bytes of the sealed block, its check isn't made
/// again.
///
/// # Errors
/// `Damaged` if the block is none of this place, `Read` if the device refuses the read.
pub fn read_block<D: SectorDevice>(
    device: &mut D,
    frame: &Frame,
    place: BlockPlace,
    pointer: &Pointer,
    sealed: Option<&Block>,
    buffer: &mut [u8; BLOCK_SIZE],
) -> Result<(), PoolError>
    requires fits { block_address frame.now.blocks ≤ D.size device.old }
    requires place { IsPlace (place_of place) }
    ensures reads { OnlyReads D.SectorDevice result device.old device.new }
    ensures cause { IfErr result IsLoadRefusal }
    ensures read { IfErr result
        (IsBlockRefusal (kind_of (place_of place)) pointer.now.address) }
    ensures placed { OnOk result (IsBlockAddress frame.now.blocks pointer.now.address) }
    ensures opens { OnImage D.keeps_model (D.disk device.old) (λ image. OnOk result
        (IsTrue D.keeps_model → Opens image frame.now
        (kind_of (place_of place)) (number_of_place (place_of place)) pointer.now (drop 64 buffer.new))) }
    ensures refused { IsTrue D.keeps_model → (image : List ℕ)
        → bytes_of (D.disk device.old).now ≡ image → IfErr result (TellsBlock image
        frame.now (kind_of (place_of place)) (number_of_place (place_of place)) pointer.now) }
{
    if !can_read(frame, pointer) {
        return Err(PoolError::Damaged {
            kind: place.kind(),
            address: pointer.address,
        });
    }
    device.read(pointer.address, &mut buffer[..])?;
    let wanted = expected(frame, place.kind(), place.number(), pointer);
    open_read(buffer, &wanted, sealed)?;
    Ok(())
}
