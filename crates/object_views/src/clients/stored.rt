//! What callers rest on of the bytes of one object.

ghost use Rattle.std.specs.Prelude.{◌≡◌, ◌≤◌, length, IsTrue, OnOk};
ghost use Rattle.base.specs.disk.Disk.{bytes_of};
ghost use Rattle.base.specs.formats.Geometry.{block_address};
ghost use Rattle.base.specs.tree.Damages.{IsSoundAt};
ghost use Rattle.base.specs.tree.Places.Place.{Top};
ghost use Rattle.base.specs.declared.pointer.Pointer.{Pointer};
ghost use Rattle.trees.specs.Walking.{IsObjectAt};

use crate::path_blocks::PathBlocks;
use crate::stored_object::StoredObject;
use base::PoolError;
use device_model::SectorDevice;

// The first bytes of an object are those of its first record, and its top is sound.
fn a_part_is_that_of_its_record<D: SectorDevice>(
    device: &mut D,
    object: &StoredObject,
    into: &mut [u8],
) -> Result<(), PoolError>
    requires fits { block_address object.now.frame.blocks ≤ D.size device.old }
    requires number { object.now.id.0 ≡ 7 }
    requires two { length into.old ≡ 2 }
    ensures top { IsTrue D.keeps_model → (root : Pointer)
        → IsObjectAt (bytes_of (D.disk device.old).now) root 7 object.now.entry
        → OnOk result (IsSoundAt (bytes_of (D.disk device.old).now) object.now.frame root (Top 7)) }
{
    object.read_part(device, &mut PathBlocks::new(), 0, 0, into)
}
