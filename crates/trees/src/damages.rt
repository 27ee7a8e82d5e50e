//! All damages of a tree, in the order of its walk (`one_walk.rt`). What lies below a damaged block isn't read,
//! everything else is.

ghost use Rattle.std.specs.Prelude.{◌≡◌, ◌<◌, ◌≤◌, IfOk, IfErr, IsTrue};
ghost use Rattle.base.specs.disk.Disk.{bytes_of};
ghost use Rattle.base.specs.formats.Geometry.{block_address};
ghost use Rattle.device_model.specs.Reading.{OnlyReads};
ghost use Rattle.trees.specs.DamageLists.{IsListRefusal, ListsDamages};
ghost use Rattle.trees.specs.Examined.{IsExamined, damages_of};

use crate::objects::Loaded;
use crate::one_walk::Damages;
use crate::walk::walk_through;
use base::{Pointer, PoolError};
use checked_blocks::Frame;
use device_model::SectorDevice;
use std::alloc::Global;

/// A block that is damaged, as `PoolError::Damaged` names it.
#[derive(Clone, Copy, Debug, PartialEq, Eq)]
pub struct BlockDamage {
    /// The kind of the block: 2 root, 3 directory, 4 indirect, 5 data, 6 log, 7 top.
    pub kind: u64,
    /// Its byte address on the device.
    pub address: u64,
}

/// What a walk of a tree finds.
#[derive(Drop)]
pub enum Examined {
    /// No block is damaged: this is what `load` gives.
    Whole(Loaded),
    /// These blocks are damaged, at least one, in the order of the walk.
    Damaged(Vec<BlockDamage>),
}

/// Walks the tree under a root pointer to its end, also after a damage. It gives what `load` does, or each damage in
/// the order of the walk: the root, then each directory, and for its entries the top and each indirect block with its
/// records, all rising. What lies below a damaged block isn't read, everything else is.
///
/// # Errors
/// `Read` if the device refuses a read, `NoMemory`.
pub fn examine<D: SectorDevice>(
    alloc: Global,
    device: &mut D,
    frame: &Frame,
    root: Pointer,
) -> Result<Examined, PoolError>
    requires fits { block_address frame.now.blocks ≤ D.size device.old }
    ensures reads { OnlyReads D.SectorDevice result device.old device.new }
    ensures cause { IfErr result IsListRefusal }

    // A tree that is whole is as `load` gives it.
    ensures examined { IfOk result
        (IsExamined D.keeps_model (bytes_of (D.disk device.old).now) frame.now root) }

    // The damages are those of damaged places, rising, and none below another. Each place is sound, or listed, or lies
    // below one that is listed. A tree that is whole has none.
    ensures listed { IsTrue D.keeps_model → IfOk result (λ e.
        ListsDamages (bytes_of (D.disk device.old).now) frame.now root (damages_of e)) }
{
    walk_through(alloc, device, frame, root, Damages::all(alloc))
}
