//! What callers rest on of an object's path: the entry that is found is that of the tree, and no damage elsewhere is
//! told.

ghost use Rattle.std.specs.Prelude.{◌≡◌, ◌≤◌, List, ℕ, IfErr, IfOk, IsTrue, None, Some, length};
ghost use Rattle.std.specs.FinMap as finite;
ghost use Rattle.std.specs.FinMap.{FinMap};
ghost use Rattle.std.specs.Ordering.{nat_cmp};
ghost use Rattle.base.specs.declared.error.PoolError.TheVariants as error;
ghost use Rattle.base.specs.disk.Disk.{bytes_of};
ghost use Rattle.base.specs.formats.Geometry.{block_address};
ghost use Rattle.base.specs.tree.Damages.{IsSoundAt};
ghost use Rattle.base.specs.tree.Places.Place.{Directory, Root};
ghost use Rattle.base.specs.tree.Tree.{IsTree};
ghost use Rattle.tree_blocks.specs.declared.forms.Entry.{Entry};

use base::{ObjectId, Pointer, PoolError};
use checked_blocks::Frame;
use device_model::SectorDevice;
use tree_blocks::Entry;
use trees::{find_entry, trees_are_by_paths};

// In a tree an object has an entry with its length, and a number of no object has none.
fn an_object_is_found_by_its_path<D: SectorDevice>(
    device: &mut D,
    frame: &Frame,
    root: Pointer,
) -> Result<Option<Entry>, PoolError>
    requires fits { block_address frame.now.blocks ≤ D.size device.old }
    requires keeps { IsTrue D.keeps_model }
    ensures found { (objects : FinMap nat_cmp (List ℕ)) (bytes : List ℕ)
        → IsTree (bytes_of (D.disk device.old).now) frame.now root objects
        → finite.get objects 130 ≡ Some bytes
        → IfOk result (λ o. (e : Entry) × (o ≡ Some e) × (e.length ≡ length bytes)) }
    ensures none { (objects : FinMap nat_cmp (List ℕ))
        → IsTree (bytes_of (D.disk device.old).now) frame.now root objects
        → finite.get objects 130 ≡ None → IfOk result (λ o. o ≡ None) }
{
    trees_are_by_paths();
    find_entry(device, frame, root, ObjectId(130))
}

// If the root and the object's directory are sound, no damage is told, whatever the other blocks hold.
fn a_damage_beside_a_path_is_not_told<D: SectorDevice>(
    device: &mut D,
    frame: &Frame,
    root: Pointer,
) -> Result<Option<Entry>, PoolError>
    requires fits { block_address frame.now.blocks ≤ D.size device.old }
    requires keeps { IsTrue D.keeps_model }
    requires root { IsSoundAt (bytes_of (D.disk device.old).now) frame.now root Root }
    requires directory { IsSoundAt (bytes_of (D.disk device.old).now) frame.now root (Directory 2) }
    ensures { IfErr result (λ e. e ≡ error.Read) }
{
    find_entry(device, frame, root, ObjectId(130))
}

// If the object's directory is damaged, no entry is found.
fn no_entry_of_a_damaged_directory_is_found<D: SectorDevice>(
    device: &mut D,
    frame: &Frame,
    root: Pointer,
) -> PoolError
    requires fits { block_address frame.now.blocks ≤ D.size device.old }
    requires keeps { IsTrue D.keeps_model }
    requires damaged { IsSoundAt (bytes_of (D.disk device.old).now) frame.now root (Directory 2) → ⊥ }
{
    match find_entry(device, frame, root, ObjectId(130)) {
        Ok(_) => unreachable!(),
        Err(e) => e,
    }
}
