//! What callers rest on of the list of a tree's objects: each that is there is listed, and no other one. No damage below
//! the directories is told.

ghost use Rattle.std.specs.Prelude.{◌≡◌, ◌≢◌, ◌<◌, ◌≤◌, ◌⊎◌, ◌∷◌, ℕ, Contains, IfErr, IfOk, IsTrue, List, Some, length};
ghost use Rattle.std.specs.FinMap as finite;
ghost use Rattle.std.specs.FinMap.{FinMap};
ghost use Rattle.std.specs.Ordering.{nat_cmp};
ghost use Rattle.base.specs.declared.error.PoolError.TheVariants as error;
ghost use Rattle.base.specs.declared.names.ObjectId.{ObjectId as Id};
ghost use Rattle.base.specs.disk.Disk.{bytes_of};
ghost use Rattle.base.specs.formats.Geometry.{block_address};
ghost use Rattle.base.specs.formats.Limits.{pointer_count};
ghost use Rattle.base.specs.tree.Damages.{IsSoundAt, length_in};
ghost use Rattle.base.specs.tree.Places.{directory_pointer, levels_in};
ghost use Rattle.base.specs.tree.Places.Place.{Data, Directory, Root};
ghost use Rattle.base.specs.tree.Tree.{IsTree};

use base::{ObjectId, Pointer, PoolError};
use checked_blocks::Frame;
use device_model::SectorDevice;
use std::alloc::Global;
use trees::{list_entries, trees_are_by_paths};

// An object that is there is listed with the length of its entry, also if a data block of it is damaged.
fn a_damaged_data_block_hides_no_object<D: SectorDevice>(
    alloc: Global,
    device: &mut D,
    frame: &Frame,
    root: Pointer,
) -> Result<Vec<(ObjectId, u64)>, PoolError>
    requires fits { block_address frame.now.blocks ≤ D.size device.old }
    requires keeps { IsTrue D.keeps_model }
    requires damaged { IsSoundAt (bytes_of (D.disk device.old).now) frame.now root (Data 130 0)
        → ⊥ }
    requires there { levels_in (bytes_of (D.disk device.old).now) root 130 ≢ 0 }
    requires length { length_in (bytes_of (D.disk device.old).now) root 130 ≡ 100 }
    ensures { IfOk result (λ l. Contains l.items (record { 0 = 130 }, 100)) }
{
    list_entries(alloc, device, frame, root)
}

// If the root and all directories are sound, no damage is told, whatever the other blocks hold.
fn a_damage_below_the_directories_is_not_told<D: SectorDevice>(
    alloc: Global,
    device: &mut D,
    frame: &Frame,
    root: Pointer,
) -> Result<Vec<(ObjectId, u64)>, PoolError>
    requires fits { block_address frame.now.blocks ≤ D.size device.old }
    requires keeps { IsTrue D.keeps_model }
    requires root { IsSoundAt (bytes_of (D.disk device.old).now) frame.now root Root }
    requires directories { (d : ℕ) → d < pointer_count
        → IsSoundAt (bytes_of (D.disk device.old).now) frame.now root (Directory d) }
    ensures { IfErr result (λ e. (e ≡ error.NoMemory) ⊎ (e ≡ error.Read)) }
{
    list_entries(alloc, device, frame, root)
}

// An object that isn't there isn't listed.
fn an_object_that_is_not_there_is_not_listed<D: SectorDevice>(
    alloc: Global,
    device: &mut D,
    frame: &Frame,
    root: Pointer,
) -> Result<Vec<(ObjectId, u64)>, PoolError>
    requires fits { block_address frame.now.blocks ≤ D.size device.old }
    requires keeps { IsTrue D.keeps_model }
    requires absent { levels_in (bytes_of (D.disk device.old).now) root 130 ≡ 0 }
    ensures { IfOk result (λ l. (size : ℕ) → Contains l.items (record { 0 = 130 }, size) → ⊥) }
{
    list_entries(alloc, device, frame, root)
}

// If directory 5 is damaged, nothing is listed, and it is the one that is told if those before it are sound.
fn the_first_damaged_directory_is_told<D: SectorDevice>(
    alloc: Global,
    device: &mut D,
    frame: &Frame,
    root: Pointer,
) -> PoolError
    requires fits { block_address frame.now.blocks ≤ D.size device.old }
    requires keeps { IsTrue D.keeps_model }
    requires root { IsSoundAt (bytes_of (D.disk device.old).now) frame.now root Root }
    requires before { (d : ℕ) → d < 5
        → IsSoundAt (bytes_of (D.disk device.old).now) frame.now root (Directory d) }
    requires damaged { IsSoundAt (bytes_of (D.disk device.old).now) frame.now root (Directory 5)
        → ⊥ }
    ensures { (result ≡ error.NoMemory) ⊎ ((result ≡ error.Read) ⊎ (result
        ≡ error.Damaged 3 (directory_pointer (bytes_of (D.disk device.old).now) root 5).address)) }
{
    match list_entries(alloc, device, frame, root) {
        Ok(_) => unreachable!(),
        Err(e) => e,
    }
}

// All objects of a tree are listed with their lengths, and as many as there are.
fn all_objects_of_a_tree_are_listed<D: SectorDevice>(
    alloc: Global,
    device: &mut D,
    frame: &Frame,
    root: Pointer,
) -> Result<Vec<(ObjectId, u64)>, PoolError>
    requires fits { block_address frame.now.blocks ≤ D.size device.old }
    requires keeps { IsTrue D.keeps_model }
    ensures each { (objects : FinMap nat_cmp (List ℕ)) (bytes : List ℕ)
        → IsTree (bytes_of (D.disk device.old).now) frame.now root objects
        → finite.get objects 130 ≡ Some bytes
        → IfOk result (λ l. Contains l.items (record { 0 = 130 }, length bytes)) }
    ensures as_many { (objects : FinMap nat_cmp (List ℕ))
        → IsTree (bytes_of (D.disk device.old).now) frame.now root objects
        → IfOk result (λ l. length l.items ≡ finite.len objects) }
{
    trees_are_by_paths();
    list_entries(alloc, device, frame, root)
}

// On every device the numbers rise.
fn listed_numbers_rise<D: SectorDevice>(
    alloc: Global,
    device: &mut D,
    frame: &Frame,
    root: Pointer,
) -> Result<Vec<(ObjectId, u64)>, PoolError>
    requires fits { block_address frame.now.blocks ≤ D.size device.old }
    ensures { IfOk result (λ l. (a b : Id × ℕ) (others : List (Id × ℕ)) → l.items ≡ a ∷ b ∷ others
        → a.0.0 < b.0.0) }
{
    list_entries(alloc, device, frame, root)
}
