//! What callers rest on of loads: no tree with a damage is loaded, and what is loaded is what the image has.

ghost use Rattle.std.specs.Prelude.{◌≡◌, ◌≢◌, ◌<◌, ◌≤◌, ◌⊎◌, IfErr, IfOk, IfSome, IsTrue, None, Some, false, replicate};
ghost use Rattle.std.specs.FinMap as finite;
ghost use Rattle.base.specs.declared.error.PoolError.TheVariants as error;
ghost use Rattle.base.specs.disk.Disk.{bytes_of};
ghost use Rattle.base.specs.formats.Blocks.{payload_at};
ghost use Rattle.base.specs.formats.Fields.{entry_in, entry_length, entry_present, no_pointer};
ghost use Rattle.base.specs.formats.Geometry.{block_address};
ghost use Rattle.base.specs.tree.Damages.{IsSoundAt};
ghost use Rattle.base.specs.kept.PlacedTrees.{padded_record};
ghost use Rattle.base.specs.tree.Places.{directory_pointer, pointer_of};
ghost use Rattle.base.specs.tree.Places.Place.{Data, Directory};
ghost use Rattle.tree_blocks.specs.TreeObjects.{lengths_of, objects_of};
ghost use Rattle.object_maps.specs.BlockReads.{IsLoadRefusal};
ghost use Rattle.space.specs.FreeSets.{is_free};

use base::{Pointer, PoolError};
use checked_blocks::Frame;
use device_model::SectorDevice;
use std::alloc::Global;
use trees::{Loaded, load};

// A root that was born after the newest group is reported as damaged, by its address, unless memory or a read is
// refused.
fn a_root_of_a_later_group_is_told<D: SectorDevice>(
    alloc: Global,
    device: &mut D,
    frame: &Frame,
    root: Pointer,
) -> PoolError
    requires fits { block_address frame.now.blocks ≤ D.size device.old }
    requires keeps { IsTrue D.keeps_model }
    requires there { root.address ≢ 0 }
    requires born { frame.now.group < root.birth }
    ensures { (result ≡ error.NoMemory) ⊎ ((result ≡ error.Read)
        ⊎ (result ≡ error.Damaged 2 root.address)) }
{
    match load(alloc, device, frame, root) {
        Ok(_) => unreachable!(),
        Err(e) => e,
    }
}

// A tree with a directory that is damaged is not loaded.
fn a_damaged_directory_is_not_loaded<D: SectorDevice>(
    alloc: Global,
    device: &mut D,
    frame: &Frame,
    root: Pointer,
) -> PoolError
    requires fits { block_address frame.now.blocks ≤ D.size device.old }
    requires keeps { IsTrue D.keeps_model }
    requires damaged { IsSoundAt (bytes_of (D.disk device.old).now) frame.now root (Directory 5)
        → ⊥ }
    ensures { IsLoadRefusal result }
{
    match load(alloc, device, frame, root) {
        Ok(_) => unreachable!(),
        Err(e) => e,
    }
}

// An entry of zeros is that of no object.
fn an_absent_entry_has_no_object<D: SectorDevice>(
    alloc: Global,
    device: &mut D,
    frame: &Frame,
    root: Pointer,
) -> Result<Loaded, PoolError>
    requires fits { block_address frame.now.blocks ≤ D.size device.old }
    requires keeps { IsTrue D.keeps_model }
    requires entry { entry_in (payload_at (bytes_of (D.disk device.old).now)
        (directory_pointer (bytes_of (D.disk device.old).now) root 0).address) 7 ≡ replicate 64 0 }
    ensures { IfOk result (λ l. finite.get (objects_of l.tree) 7 ≡ None) }
{
    let loaded = load(alloc, device, frame, root)?;
    Ok(loaded)
}

// The bytes of a record are those of the block that its pointer names, and none of another's.
fn a_record_lands_in_its_place<D: SectorDevice>(
    alloc: Global,
    device: &mut D,
    frame: &Frame,
    root: Pointer,
) -> Result<Loaded, PoolError>
    requires fits { block_address frame.now.blocks ≤ D.size device.old }
    requires keeps { IsTrue D.keeps_model }
    requires there { pointer_of (bytes_of (D.disk device.old).now) root (Data 7 1) ≢ no_pointer }
    ensures { IfOk result (λ l. IfSome (finite.get (objects_of l.tree) 7) (λ bytes.
        padded_record 1 bytes ≡ payload_at (bytes_of (D.disk device.old).now)
        (pointer_of (bytes_of (D.disk device.old).now) root (Data 7 1)).address)) }
{
    let loaded = load(alloc, device, frame, root)?;
    Ok(loaded)
}

// A load that is refused for memory had no call refused by the device.
fn a_refused_read_is_told_as_one<D: SectorDevice>(
    alloc: Global,
    device: &mut D,
    frame: &Frame,
    root: Pointer,
) -> Result<Loaded, PoolError>
    requires { block_address frame.now.blocks ≤ D.size device.old }
    ensures { IfErr result (λ e. e ≡ error.NoMemory → D.refused device.new ≡ D.refused device.old) }
{
    load(alloc, device, frame, root)
}

// A tree that is loaded has the length that the entry of an object has.
fn a_load_has_the_lengths_of_entries<D: SectorDevice>(
    alloc: Global,
    device: &mut D,
    frame: &Frame,
    root: Pointer,
) -> Result<Loaded, PoolError>
    requires fits { block_address frame.now.blocks ≤ D.size device.old }
    requires keeps { IsTrue D.keeps_model }
    requires there { directory_pointer (bytes_of (D.disk device.old).now) root 0 ≢ no_pointer }
    requires present { entry_present (entry_in (payload_at (bytes_of (D.disk device.old).now)
        (directory_pointer (bytes_of (D.disk device.old).now) root 0).address) 7) ≡ 1 }
    requires length { entry_length (entry_in (payload_at (bytes_of (D.disk device.old).now)
        (directory_pointer (bytes_of (D.disk device.old).now) root 0).address) 7) ≡ 100 }
    ensures { IfOk result (λ l. lengths_of l.tree 7 ≡ Some 100) }
{
    let loaded = load(alloc, device, frame, root)?;
    Ok(loaded)
}

// The block of the root is not free once a tree is loaded.
fn the_block_of_the_root_is_not_free<D: SectorDevice>(
    alloc: Global,
    device: &mut D,
    frame: &Frame,
    root: Pointer,
) -> Result<Loaded, PoolError>
    requires fits { block_address frame.now.blocks ≤ D.size device.old }
    requires area { 0 < frame.now.blocks }
    requires root { root.address ≡ 4194304 }
    ensures { IfOk result (λ l. is_free 0 l.free ≡ false) }
{
    load(alloc, device, frame, root)
}
