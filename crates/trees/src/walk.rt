//! The load of a tree from its device, in the order of its walk (On-Disk Specification, chapter 2): the root, then each
//! directory, rising, and for each of its entries, rising, the top if the object has two levels, and then each indirect
//! block, rising, and after it its records, rising. The steps of the walk are in `one_walk.rt`.
//!
//! A block is taken only if it is the one that its pointer names, and what it holds is tested before anything below it
//! is read. So the block that a load is refused for is the first damage of the walk. While it walks it has less
//! than twenty blocks in memory: those of the root, a directory, a top and an indirect block, and copies of four
//! records, which are read ahead.

ghost use Rattle.std.specs.Prelude.{◌≡◌, ℕ, ◌≤◌, [], List, IfOk, IfErr, IsTrue, false, true};
ghost use Rattle.base.specs.disk.Disk.{bytes_of};
ghost use Rattle.base.specs.formats.Geometry.{block_address};
ghost use Rattle.base.specs.tree.Damages.{IsFirstDamage};
ghost use Rattle.base.specs.kept.PlacedTrees.{HoldsTree, ArePlaced};
ghost use Rattle.device_model.specs.Reading.{OnlyReads};
ghost use Rattle.tree_blocks.specs.Pointers.{pointers_of};
ghost use Rattle.tree_blocks.specs.TreeObjects.{objects_of};
ghost use Rattle.trees.specs.FreeBlocks.{AreUnnamed};
ghost use Rattle.object_maps.specs.BlockReads.{IsLoadRefusal};
ghost use Rattle.base.specs.declared.pointer.Pointer.{Pointer};
ghost use Rattle.trees.specs.DamageLists.{IsListRefusal, ListsDamages};
ghost use Rattle.trees.specs.Examined.{HasLimitedObjects, IsExamined, damages_of};

use crate::damages::Examined;
use crate::objects::{Loaded, Objects};
use crate::one_walk::Damages;
use base::{POINTER_COUNT, Pointer, PoolError, Told};
use checked_blocks::Frame;
use device_model::SectorDevice;
use space::FreeSet;
use std::alloc::Global;
use tree_blocks::{BytesView, StripsView};

// What a load is made with: memory, and the frame of the blocks that it reads.
#[derive(Clone, Copy)]
pub(crate) struct Loader<'a> {
    pub(crate) alloc: Global,
    pub(crate) frame: &'a Frame,
}

/// Loads the tree under a root pointer: the bytes of its objects are told, its pointers stay down to what its
/// directories name, and the blocks that it leaves are free. No object is whole in memory while it walks.
///
/// # Errors
/// `Damaged` with the first damage in the order of the walk: the root, then each directory, and for its entries the top
/// and each indirect block with its records, all rising. `Read` if the device refuses a read, `NoMemory`. Four records
/// that stand one after the other are read before the first of them is opened.
pub fn load<D: SectorDevice>(
    alloc: Global,
    device: &mut D,
    frame: &Frame,
    root: Pointer,
) -> Result<Loaded, PoolError>
    requires fits { block_address frame.now.blocks ≤ D.size device.old }
    ensures reads { OnlyReads D.SectorDevice result device.old device.new }
    ensures cause { IfErr result IsLoadRefusal }

    // The tree has the root and pointers to blocks of the area alone.
    ensures root { IfOk result (λ l. l.tree.root ≡ root) }
    ensures placed { IfOk result (λ l. ArePlaced (frame.now.blocks) (pointers_of l.tree)) }

    // The blocks that no pointer of it names are free.
    ensures free { IfOk result (λ l. AreUnnamed frame.now.blocks l.tree l.free) }

    // Its objects are within their limits, and it is the one that the image holds with them.
    ensures objects { IfOk result (λ l. HasLimitedObjects l.tree) }
    ensures tree { IsTrue D.keeps_model → IfOk result (λ l.
        HoldsTree (bytes_of (D.disk device.old).now)
        frame.now (pointers_of l.tree) (objects_of l.tree)) }

    // And the block that is reported as damaged is the first damage of the walk.
    ensures damage { IsTrue D.keeps_model → IfErr result (λ e.
        (kind address : ℕ) → e ≡ PoolError.Damaged kind address
        → IsFirstDamage (bytes_of (D.disk device.old).now) frame.now root kind address) }
{
    match walk_through(alloc, device, frame, root, Damages::first(alloc))? {
        Examined::Whole(loaded) => Ok(loaded),
        Examined::Damaged(_) => unreachable!(),
    }
}

// Walks the tree under a root pointer: it ends at the first damage, or goes on after each, as `damages` says.
pub(crate) fn walk_through<D: SectorDevice>(
    alloc: Global,
    device: &mut D,
    frame: &Frame,
    root: Pointer,
    mut damages: Damages,
) -> Result<Examined, PoolError>
    requires fits { block_address frame.now.blocks ≤ D.size device.old }
    requires none { damages.list.items ≡ [] }
    ensures reads { OnlyReads D.SectorDevice result device.old device.new }
    ensures cause { IfErr result IsLoadRefusal }
    ensures goes_on { damages.goes_on ≡ true → IfErr result IsListRefusal }
    ensures first { damages.goes_on ≡ false → IfOk result (λ e. damages_of e ≡ []) }
    ensures examined { IfOk result
        (IsExamined D.keeps_model (bytes_of (D.disk device.old).now) frame.now root) }
    ensures listed { IsTrue D.keeps_model → IfOk result (λ e.
        ListsDamages (bytes_of (D.disk device.old).now) frame.now root (damages_of e)) }
    ensures damage { IsTrue D.keeps_model → IfErr result (λ e.
        (kind address : ℕ) → e ≡ PoolError.Damaged kind address
        → IsFirstDamage (bytes_of (D.disk device.old).now) frame.now root kind address) }
{
    let loader = Loader { alloc, frame };
    let mut objects = Objects::new(alloc)?;
    let mut free = FreeSet::new(alloc, frame.blocks() as usize)?;
    let mut directories = vec![in alloc; Pointer::NONE; POINTER_COUNT]?;
    let whole = loader.walk_tree(
        device,
        &root,
        &mut directories,
        &mut objects,
        &mut free,
        &mut damages,
    )?;
    if !whole {
        return Ok(Examined::Damaged(damages.list));
    }
    Ok(Examined::Whole(objects.into_loaded(root, directories, free)))
}

// What is told of an object while it is loaded: its bytes, and its strips.
#[derive(Drop)]
pub(crate) struct ToldObject {
    pub(crate) bytes: Told<BytesView>,
    pub(crate) strips: Told<StripsView>,
}
