//! The objects of a source by their lengths, listed.

ghost use Rattle.std.specs.Prelude.{◌≡◌, IfOk};
ghost use Rattle.tree_blocks.specs.ListedObjects.{AreWithin, listed};

use base::{OBJECT_COUNT, ObjectId};
use std::alloc::{AllocError, Global};
use tree_blocks::ObjectSource;

/// The numbers of the objects of a source, rising, each with the object's length in bytes. It is refused if no memory is
/// left.
pub fn list_objects<O: ObjectSource>(
    alloc: Global,
    objects: &O,
) -> Result<Vec<(ObjectId, u64)>, AllocError>
    ensures { AreWithin (O.objects objects.now)
        → IfOk result (λ list. list.items ≡ listed (O.objects objects.now)) }
{
    let mut list = Vec::new(alloc);
    for number in 0..OBJECT_COUNT {
        if let Some(length) = objects.length(ObjectId(number)) {
            list.push((ObjectId(number), length))?;
        }
    }
    Ok(list)
}
