//! The objects of a tree with their lengths, by the root and the directories alone. No other block is read, so no damage
//! below a directory is found.

ghost use Rattle.std.specs.Prelude.{◌≡◌, ◌≢◌, ◌<◌, ◌≤◌, ◌+◌, ◌*◌, [], ℕ, List, IfErr, IfOk, IsTrue, MatchResult, OnOk, length};
ghost use Rattle.std.specs.Ordering.{nat_cmp};
ghost use Rattle.std.specs.FinMap.{FinMap};
ghost use Rattle.base.specs.disk.Disk.{bytes_of};
ghost use Rattle.base.specs.formats.Blocks.{Frame as TreeFrame};
ghost use Rattle.base.specs.formats.Fields.{no_pointer};
ghost use Rattle.base.specs.formats.Geometry.{block_address};
ghost use Rattle.base.specs.formats.Limits.{entry_count, object_count, payload_size, pointer_count};
ghost use Rattle.base.specs.tree.Damages.{IsSoundAt};
ghost use Rattle.base.specs.tree.Places.{pointer_of};
ghost use Rattle.base.specs.tree.Places.Place.{Directory};
ghost use Rattle.base.specs.tree.Tree.{IsTree};
ghost use Rattle.base.specs.declared.pointer.Pointer.{Pointer as TreePointer};
ghost use Rattle.device_model.specs.Reading.{OnlyReads};
ghost use Rattle.object_maps.specs.BlockReads.{IsLoadRefusal};
ghost use Rattle.tree_blocks.specs.Forms.{IsEntryPayload};
ghost use Rattle.tree_blocks.specs.ListedObjects.{listed};
ghost use Rattle.trees.specs.EntryLists.{AreListed, AreRising, AreSoundAbove, ListsEntries, NamesDirectories, TellsDirectory, TellsFirstAbove, listed_to};
ghost use Rattle.trees.specs.Loaders.{OnWalk};
ghost use Rattle.trees.specs.ObjectPaths.{TellsPlace};
ghost use Rattle.trees.specs.Walking.{IsPayloadOf};

use crate::sound_blocks::sound_block;
use base::{ENTRY_COUNT, ObjectId, POINTER_COUNT, Pointer, PoolError};
use checked_blocks::Frame;
use device_model::SectorDevice;
use object_maps::{new_buffer, payload_of};
use std::alloc::{AllocError, Global};
use tree_blocks::{BlockPlace, pointer_in, read_entry};

/// The objects of the tree under a root pointer by rising number, each with its length in bytes: what the root and the
/// directories have. At most 85 blocks are read. Whatever the other blocks hold, each length is that of checked blocks.
///
/// # Errors
/// `Damaged` with the root if it is damaged, or else with the first directory that is; `Read` if the device refuses a
/// read; `NoMemory`.
pub fn list_entries<D: SectorDevice>(
    alloc: Global,
    device: &mut D,
    frame: &Frame,
    root: Pointer,
) -> Result<Vec<(ObjectId, u64)>, PoolError>
    requires fits { block_address frame.now.blocks ≤ D.size device.old }
    ensures reads { OnlyReads D.SectorDevice result device.old device.new }
    ensures cause { IfErr result IsLoadRefusal }

    // The numbers rise, and the lengths are within their limit, on every device.
    ensures form { IfOk result (λ l. AreRising 0 l.items object_count) }

    // Each object is what the directory of its number has, and none is left out.
    ensures listed { IsTrue D.keeps_model → IfOk result
        (λ l. ListsEntries (bytes_of (D.disk device.old).now) root l.items) }

    // Of a tree they are all objects with their lengths.
    ensures exact { IsTrue D.keeps_model → (objects : FinMap nat_cmp (List ℕ))
        → IsTree (bytes_of (D.disk device.old).now) frame.now root objects
        → IfOk result (λ l. l.items ≡ listed objects) }
    ensures sound { IsTrue D.keeps_model → IfOk result
        (λ _. AreSoundAbove (bytes_of (D.disk device.old).now) frame.now root) }
    ensures damage { IsTrue D.keeps_model → IfErr result
        (TellsFirstAbove (bytes_of (D.disk device.old).now) frame.now root) }
{
    let mut list = Vec::new(alloc);
    if root.is_none() {
        return Ok(list);
    }
    let mut buffer = new_buffer();
    let place = BlockPlace::Root;
    sound_block(device, frame, place, &root, 0, &mut buffer)?;
    list_directories(device, frame, payload_of(&buffer), &mut list)?;
    Ok(list)
}

// Lists the objects of the directories that the payload of the root names.
fn list_directories<D: SectorDevice>(
    device: &mut D,
    frame: &Frame,
    payload: &[u8],
    list: &mut Vec<(ObjectId, u64)>,
) -> Result<(), PoolError>
    requires fits { block_address frame.now.blocks ≤ D.size device.old }
    requires payload { length payload.now ≡ payload_size }
    requires none { list.old.items ≡ [] }
    ensures reads { OnlyReads D.SectorDevice result device.old device.new }
    ensures cause { IfErr result IsLoadRefusal }
    ensures form { OnOk result (AreRising 0 list.new.items object_count) }
    ensures listed { OnWalk D.keeps_model (D.disk device.old) (λ image top.
        NamesDirectories image top payload.now
        → OnOk result (AreListed image frame.now top pointer_count list.new.items)) }
    ensures damage { OnWalk D.keeps_model (D.disk device.old) (λ image top.
        NamesDirectories image top payload.now
        → IfErr result (TellsDirectory image frame.now top)) }
{
    for index in 0..POINTER_COUNT {
        let pointer = pointer_in(payload, index);
        if pointer.is_none() {
            continue;
        }
        list_directory(device, frame, index, &pointer, list)?;
    }
    Ok(())
}

// Lists the objects of a directory after those of the directories before it.
fn list_directory<D: SectorDevice>(
    device: &mut D,
    frame: &Frame,
    directory: usize,
    pointer: &Pointer,
    list: &mut Vec<(ObjectId, u64)>,
) -> Result<(), PoolError>
    requires fits { block_address frame.now.blocks ≤ D.size device.old }
    requires in_range { directory < pointer_count }
    requires rising { AreRising 0 list.old.items (entry_count * directory) }
    ensures reads { OnlyReads D.SectorDevice result device.old device.new }
    ensures cause { IfErr result IsLoadRefusal }
    ensures form { OnOk result (AreRising 0 list.new.items (entry_count * (directory + 1))) }
    ensures listed { OnWalk D.keeps_model (D.disk device.old) (λ image top.
        pointer_of image top (Directory directory) ≡ pointer.now
        → list.old.items ≡ listed_to image top (entry_count * directory)
        → OnOk result (list.new.items ≡ listed_to image top (entry_count * (directory + 1)))) }
    ensures sound { OnWalk D.keeps_model (D.disk device.old) (λ image top.
        pointer_of image top (Directory directory) ≡ pointer.now
        → OnOk result (IsSoundAt image frame.now top (Directory directory))) }
    ensures damage { OnWalk D.keeps_model (D.disk device.old) (λ image top.
        pointer_of image top (Directory directory) ≡ pointer.now → pointer.now ≢ no_pointer
        → IfErr result (TellsPlace image frame.now top (Directory directory))) }
{
    let mut buffer = new_buffer();
    let place = BlockPlace::Directory(directory);
    sound_block(device, frame, place, pointer, 0, &mut buffer)?;
    list_payload(directory, payload_of(&buffer), list)?;
    Ok(())
}

// Lists the objects that are there by the payload of a directory.
fn list_payload(
    directory: usize,
    payload: &[u8],
    list: &mut Vec<(ObjectId, u64)>,
) -> Result<(), AllocError>
    requires in_range { directory < pointer_count }
    requires payload { length payload.now ≡ payload_size }
    ensures form { (frame : TreeFrame) → IsEntryPayload frame payload.now
        → AreRising 0 list.old.items (entry_count * directory)
        → OnOk result (AreRising 0 list.new.items (entry_count * (directory + 1))) }
    ensures listed { (image : List ℕ) (frame : TreeFrame) (root : TreePointer)
        → IsPayloadOf image frame root directory payload.now
        → list.old.items ≡ listed_to image root (entry_count * directory)
        → OnOk result (list.new.items ≡ listed_to image root (entry_count * (directory + 1))) }
{
    for index in 0..ENTRY_COUNT {
        let entry = read_entry(payload, index);
        if entry.present != 0 {
            let number = ENTRY_COUNT * directory + index;
            list.push((ObjectId(number as u32), entry.length))?;
        }
    }
    Ok(())
}
