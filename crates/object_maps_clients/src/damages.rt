//! What callers rest on of the damages of a tree: each that is listed is one, and none is left out.

ghost use Rattle.std.specs.Prelude.{◌≡◌, ◌≢◌, ◌<◌, List, [], ◌∷◌, ◌≤◌, Contains, IfOk, IfSome, IsTrue, Some, false};
ghost use Rattle.base.specs.disk.Disk.{bytes_of};
ghost use Rattle.base.specs.formats.Blocks.{payload_at};
ghost use Rattle.base.specs.formats.Fields.{entry_in, entry_length, entry_present, no_pointer};
ghost use Rattle.base.specs.formats.Geometry.{block_address};
ghost use Rattle.base.specs.tree.Damages.{IsFirstDamage, IsSoundAt};
ghost use Rattle.base.specs.tree.Places.{IsPlace, Place, directory_pointer, kind_of, pointer_of};
ghost use Rattle.base.specs.tree.Places.Place.{Directory, Root};
ghost use Rattle.space.specs.FreeSets.{is_free};
ghost use Rattle.tree_blocks.specs.TreeObjects.{lengths_of};
ghost use Rattle.trees.specs.Examined.{damages_of};
ghost use Rattle.trees.specs.declared.damages.BlockDamage.{BlockDamage};

use base::{Pointer, PoolError};
use checked_blocks::Frame;
use device_model::SectorDevice;
use std::alloc::Global;
use trees::{BlockDamage, Examined, Loaded, examine};

// A damage that is listed is that of a place of the tree that isn't sound: its kind, and the address of its pointer.
fn a_listed_damage_is_one<D: SectorDevice>(
    alloc: Global,
    device: &mut D,
    frame: &Frame,
    root: Pointer,
) -> Result<Examined, PoolError>
    requires fits { block_address frame.now.blocks ≤ D.size device.old }
    requires keeps { IsTrue D.keeps_model }
    ensures { IfOk result (λ e. (d : BlockDamage) → Contains (damages_of e) d → (place : Place)
        × IsPlace place × (kind_of place ≡ d.kind)
        × ((pointer_of (bytes_of (D.disk device.old).now) root place).address ≡ d.address)
        × (IsSoundAt (bytes_of (D.disk device.old).now) frame.now root place → ⊥)) }
{
    examine(alloc, device, frame, root)
}

// A tree of which nothing is listed is sound at each place.
fn a_tree_with_nothing_listed_is_sound<D: SectorDevice>(
    alloc: Global,
    device: &mut D,
    frame: &Frame,
    root: Pointer,
) -> Result<Examined, PoolError>
    requires fits { block_address frame.now.blocks ≤ D.size device.old }
    requires keeps { IsTrue D.keeps_model }
    ensures { IfOk result (λ e. damages_of e ≡ [] → (place : Place) → IsPlace place
        → IsSoundAt (bytes_of (D.disk device.old).now) frame.now root place) }
{
    examine(alloc, device, frame, root)
}

// If the root is sound and directories 5 and 6 are damaged, both are listed.
fn two_damaged_directories_are_listed<D: SectorDevice>(
    alloc: Global,
    device: &mut D,
    frame: &Frame,
    root: Pointer,
) -> Result<Examined, PoolError>
    requires fits { block_address frame.now.blocks ≤ D.size device.old }
    requires keeps { IsTrue D.keeps_model }
    requires sound { IsSoundAt (bytes_of (D.disk device.old).now) frame.now root Root }
    requires fifth { IsSoundAt (bytes_of (D.disk device.old).now) frame.now root (Directory 5)
        → ⊥ }
    requires sixth { IsSoundAt (bytes_of (D.disk device.old).now) frame.now root (Directory 6)
        → ⊥ }
    ensures fifth { IfOk result (λ e. Contains (damages_of e) (record {
      kind = 3;
      address
          = (directory_pointer (bytes_of (D.disk device.old).now) root 5).address;
    })) }
    ensures sixth { IfOk result (λ e. Contains (damages_of e) (record {
      kind = 3;
      address
          = (directory_pointer (bytes_of (D.disk device.old).now) root 6).address;
    })) }
{
    examine(alloc, device, frame, root)
}

// The damage that is listed first is the first one of the walk.
fn the_first_damage_is_listed_first<D: SectorDevice>(
    alloc: Global,
    device: &mut D,
    frame: &Frame,
    root: Pointer,
) -> Result<Examined, PoolError>
    requires fits { block_address frame.now.blocks ≤ D.size device.old }
    requires keeps { IsTrue D.keeps_model }
    ensures { IfOk result (λ e. (d : BlockDamage) (others : List BlockDamage) → damages_of e ≡ d ∷ others
        → IsFirstDamage (bytes_of (D.disk device.old).now) frame.now root d.kind d.address) }
{
    examine(alloc, device, frame, root)
}

// A damaged root is listed alone.
fn a_damaged_root_is_listed_alone<D: SectorDevice>(
    alloc: Global,
    device: &mut D,
    frame: &Frame,
    root: Pointer,
) -> Result<Examined, PoolError>
    requires fits { block_address frame.now.blocks ≤ D.size device.old }
    requires keeps { IsTrue D.keeps_model }
    requires damaged { IsSoundAt (bytes_of (D.disk device.old).now) frame.now root Root → ⊥ }
    ensures { IfOk result (λ e. damages_of e ≡ record { kind = 2; address = root.address } ∷ []) }
{
    examine(alloc, device, frame, root)
}

// A tree with a damaged directory isn't found whole, and at least one damage is listed.
fn a_tree_with_a_damaged_directory_is_not_whole<D: SectorDevice>(
    alloc: Global,
    device: &mut D,
    frame: &Frame,
    root: Pointer,
) -> Result<Vec<BlockDamage>, PoolError>
    requires fits { block_address frame.now.blocks ≤ D.size device.old }
    requires keeps { IsTrue D.keeps_model }
    requires damaged { IsSoundAt (bytes_of (D.disk device.old).now) frame.now root (Directory 5)
        → ⊥ }
    ensures { IfOk result (λ l. l.items ≢ []) }
{
    let examined = examine(alloc, device, frame, root)?;
    match examined {
        Examined::Whole(_) => unreachable!(),
        Examined::Damaged(damages) => Ok(damages),
    }
}

// A tree that is sound at each place is found whole.
fn a_sound_tree_is_whole<D: SectorDevice>(
    alloc: Global,
    device: &mut D,
    frame: &Frame,
    root: Pointer,
) -> Result<Loaded, PoolError>
    requires fits { block_address frame.now.blocks ≤ D.size device.old }
    requires keeps { IsTrue D.keeps_model }
    requires sound { (place : Place) → IsPlace place
        → IsSoundAt (bytes_of (D.disk device.old).now) frame.now root place }
    ensures { IfOk result (λ l. l.tree.root ≡ root) }
{
    let examined = examine(alloc, device, frame, root)?;
    match examined {
        Examined::Whole(loaded) => Ok(loaded),
        Examined::Damaged(_) => unreachable!(),
    }
}

// The block of the root isn't free once a tree is found whole.
fn a_whole_tree_has_its_root<D: SectorDevice>(
    alloc: Global,
    device: &mut D,
    frame: &Frame,
    root: Pointer,
) -> Result<Option<Loaded>, PoolError>
    requires fits { block_address frame.now.blocks ≤ D.size device.old }
    requires area { 0 < frame.now.blocks }
    requires root { root.address ≡ 4194304 }
    ensures { IfOk result (λ o. IfSome o (λ l. is_free 0 l.free ≡ false)) }
{
    let examined = examine(alloc, device, frame, root)?;
    match examined {
        Examined::Whole(loaded) => Ok(Some(loaded)),
        Examined::Damaged(_) => Ok(None),
    }
}

// The lengths that a tree has which is found whole are those of the entries of its directories.
fn a_whole_tree_has_the_lengths_of_entries<D: SectorDevice>(
    alloc: Global,
    device: &mut D,
    frame: &Frame,
    root: Pointer,
) -> Result<Option<Loaded>, PoolError>
    requires fits { block_address frame.now.blocks ≤ D.size device.old }
    requires keeps { IsTrue D.keeps_model }
    requires there { directory_pointer (bytes_of (D.disk device.old).now) root 0 ≢ no_pointer }
    requires present { entry_present (entry_in (payload_at (bytes_of (D.disk device.old).now)
        (directory_pointer (bytes_of (D.disk device.old).now) root 0).address) 7) ≡ 1 }
    requires length { entry_length (entry_in (payload_at (bytes_of (D.disk device.old).now)
        (directory_pointer (bytes_of (D.disk device.old).now) root 0).address) 7) ≡ 100 }
    ensures { IfOk result (λ o. IfSome o (λ l. lengths_of l.tree 7 ≡ Some 100)) }
{
    let examined = examine(alloc, device, frame, root)?;
    match examined {
        Examined::Whole(loaded) => Ok(Some(loaded)),
        Examined::Damaged(_) => Ok(None),
    }
}
