//! What a tree has of one object, by the blocks of the object's path: the root and one directory. No other block is
//! read, so no damage elsewhere is found.

ghost use Rattle.std.specs.Prelude.{◌≡◌, ◌≢◌, ◌<◌, ◌≤◌, ◌/◌, ℕ, List, IfErr, IfOk, IfSome, IsTrue};
ghost use Rattle.base.specs.disk.Disk.{bytes_of};
ghost use Rattle.base.specs.formats.Fields.{no_pointer};
ghost use Rattle.base.specs.formats.Geometry.{block_address};
ghost use Rattle.base.specs.formats.Limits.{entry_count, object_count, pointer_count};
ghost use Rattle.base.specs.tree.Damages.{IsSoundAt};
ghost use Rattle.base.specs.tree.Places.{pointer_of};
ghost use Rattle.base.specs.tree.Places.Place.{Directory, Root};
ghost use Rattle.device_model.specs.Reading.{OnlyReads};
ghost use Rattle.trees.specs.Loaders.{OnWalk};
ghost use Rattle.object_maps.specs.Cached.{IsReadRefusal};
ghost use Rattle.trees.specs.ObjectPaths.{IsEntryFound, IsSoundAbove, TellsAbove, TellsPlace};
ghost use Rattle.tree_blocks.specs.Forms.{IsEntryOf};

use crate::sound_blocks::sound_block;
use base::{ENTRY_COUNT, ObjectId, Pointer, PoolError};
use checked_blocks::Frame;
use device_model::SectorDevice;
use object_maps::{new_buffer, payload_of};
use tree_blocks::{BlockPlace, Entry, pointer_in, read_entry};

/// What the tree under a root pointer has of an object: its directory's entry, if there is one. At most two blocks are
/// read, the root and the directory. Whatever the other blocks hold, the entry is that of checked blocks.
///
/// # Errors
/// `Damaged` if the root or the directory is damaged; `Read` if the device refuses a read.
pub fn find_entry<D: SectorDevice>(
    device: &mut D,
    frame: &Frame,
    root: Pointer,
    object: ObjectId,
) -> Result<Option<Entry>, PoolError>
    requires fits { block_address frame.now.blocks ≤ D.size device.old }
    requires number { object.0 < object_count }
    ensures reads { OnlyReads D.SectorDevice result device.old device.new }
    ensures cause { IfErr result IsReadRefusal }
    ensures form { IfOk result (λ entry. IfSome entry (IsEntryOf frame.now)) }
    ensures found { IsTrue D.keeps_model → IfOk result
        (IsEntryFound (bytes_of (D.disk device.old).now) root object.0) }
    ensures sound { IsTrue D.keeps_model → IfOk result (λ _. IsSoundAbove
        (bytes_of (D.disk device.old).now) frame.now root object.0) }
    ensures damage { IsTrue D.keeps_model → IfErr result
        (TellsAbove (bytes_of (D.disk device.old).now) frame.now root object.0) }
{
    let number = object.0 as usize;
    let directory = find_directory(device, frame, &root, number / ENTRY_COUNT)?;
    if directory.is_none() {
        return Ok(None);
    }
    find_in_directory(device, frame, &directory, number)
}

// The pointer to a directory, by the root alone.
fn find_directory<D: SectorDevice>(
    device: &mut D,
    frame: &Frame,
    root: &Pointer,
    directory: usize,
) -> Result<Pointer, PoolError>
    requires fits { block_address frame.now.blocks ≤ D.size device.old }
    requires in_range { directory < pointer_count }
    ensures reads { OnlyReads D.SectorDevice result device.old device.new }
    ensures cause { IfErr result IsReadRefusal }
    ensures found { IsTrue D.keeps_model → (image : List ℕ)
        → bytes_of (D.disk device.old).now ≡ image
        → IfOk result (λ p. pointer_of image root.now (Directory directory) ≡ p) }
    ensures sound { IsTrue D.keeps_model → (image : List ℕ)
        → bytes_of (D.disk device.old).now ≡ image
        → IfOk result (λ _. IsSoundAt image frame.now root.now Root) }
    ensures damage { IsTrue D.keeps_model → (image : List ℕ)
        → bytes_of (D.disk device.old).now ≡ image
        → IfErr result (TellsPlace image frame.now root.now Root) }
{
    if root.is_none() {
        return Ok(Pointer::NONE);
    }
    let mut buffer = new_buffer();
    let place = BlockPlace::Root;
    sound_block(device, frame, place, root, 0, &mut buffer)?;
    Ok(pointer_in(payload_of(&buffer), directory))
}

// The entry of an object in its directory, which this pointer names.
fn find_in_directory<D: SectorDevice>(
    device: &mut D,
    frame: &Frame,
    pointer: &Pointer,
    number: usize,
) -> Result<Option<Entry>, PoolError>
    requires fits { block_address frame.now.blocks ≤ D.size device.old }
    requires number { number < object_count }
    ensures reads { OnlyReads D.SectorDevice result device.old device.new }
    ensures cause { IfErr result IsReadRefusal }
    ensures form { IfOk result (λ entry. IfSome entry (IsEntryOf frame.now)) }
    ensures found { OnWalk D.keeps_model (D.disk device.old) (λ image top.
        pointer_of image top (Directory (number / entry_count)) ≡ pointer.now
        → pointer.now ≢ no_pointer → IfOk result (IsEntryFound image top number)) }
    ensures sound { OnWalk D.keeps_model (D.disk device.old) (λ image top.
        pointer_of image top (Directory (number / entry_count)) ≡ pointer.now
        → pointer.now ≢ no_pointer → IfOk result
        (λ _. IsSoundAt image frame.now top (Directory (number / entry_count)))) }
    ensures damage { OnWalk D.keeps_model (D.disk device.old) (λ image top.
        pointer_of image top (Directory (number / entry_count)) ≡ pointer.now
        → pointer.now ≢ no_pointer
        → IfErr result (TellsPlace image frame.now top (Directory (number / entry_count)))) }
{
    let mut buffer = new_buffer();
    let place = BlockPlace::Directory(number / ENTRY_COUNT);
    sound_block(device, frame, place, pointer, 0, &mut buffer)?;
    let entry = read_entry(payload_of(&buffer), number % ENTRY_COUNT);
    if entry.present == 0 {
        return Ok(None);
    }
    Ok(Some(entry))
}
