//! Bytes of an object in what an import of the pool on a device would mount. A command reads all of the pool for them, or
//! only the blocks that lead to them.

ghost use Rattle.std.specs.Prelude.{◌≡◌, IfErr, IfOk, IsTrue};
ghost use Rattle.base.specs.disk.Disk.{bytes_of};
ghost use Rattle.device_model.specs.Reading.{OnlyReads};
ghost use Rattle.read_commands.specs.Checks.{MountsWhole};
ghost use Rattle.read_commands.specs.PathReads.{IsCheckedRange, IsPathRefusal, IsUnseen};
ghost use Rattle.read_commands.specs.Reads.{IsAbsentIn, IsMountedRange, IsReadersRefusal};
ghost use Rattle.read_commands.specs.Scopes.{IsAssured};
ghost use Rattle.read_commands.specs.Undone.{IsGetRefused};

use base::{Bytes, ObjectId, PoolError, Range};
use block_cache::{BlockCache, CachedDevice};
use command_arguments::Scope;
use device_model::SectorDevice;
use inspections::view_pool;
use object_maps::BlockReader;
use object_views::view_object;
use std::alloc::Global;
use std::num::NonZeroUsize;

/// The bytes of a range of an object in what an import of the pool on a device would mount, and the device. It makes no
/// write and no flush, also if it is refused.
///
/// # Errors
/// Those of `view_pool` and of a read of its view. If the scope is a path, those of `view_object` and of a read of its
/// view.
pub fn read_object<D: SectorDevice>(
    alloc: Global,
    scope: Scope,
    device: D,
    object: ObjectId,
    range: Range,
) -> (Result<Bytes, PoolError>, D)
    ensures reads { OnlyReads D.SectorDevice result.0 device result.1 }

    // If this is assured, they are the bytes of what the image mounts, or it mounts no such object.
    ensures bytes { IsAssured scope (IsTrue D.keeps_model) (bytes_of (D.disk device).now)
        → IfOk result.0 (IsMountedRange (bytes_of (D.disk device).now) object.0 range) }
    ensures absent { IsAssured scope (IsTrue D.keeps_model) (bytes_of (D.disk device).now)
        → IfErr result.0 (λ e. e ≡ PoolError.NoObject
        → IsAbsentIn (bytes_of (D.disk device).now) object.0) }

    // What is read by path is checked, whatever the image mounts.
    ensures checked { scope ≡ Scope.Path → IsTrue D.keeps_model → IfOk result.0
        (IsCheckedRange (bytes_of (D.disk device).now) object.0 range) }
    ensures unseen { scope ≡ Scope.Path → IsTrue D.keeps_model → IfErr result.0
        (λ e. e ≡ PoolError.NoObject → IsUnseen (bytes_of (D.disk device).now) object.0) }
    ensures refused { IfErr result.0
        (IsGetRefused D.SectorDevice scope object.0 range device result.1) }
{
    match scope {
        Scope::Path => {
            let mut device = device;
            let read = read_by_path(alloc, &mut device, object, range);
            (read, device)
        }
        Scope::Whole => read_whole(alloc, device, object, range),
    }
}

// The bytes of a range of an object, by the blocks that lead to them.
fn read_by_path<D: SectorDevice>(
    alloc: Global,
    device: &mut D,
    object: ObjectId,
    range: Range,
) -> Result<Bytes, PoolError>
    ensures reads { OnlyReads D.SectorDevice result device.old device.new }
    ensures bytes { IsTrue D.keeps_model → MountsWhole (bytes_of (D.disk device.old).now)
        → IfOk result (IsMountedRange (bytes_of (D.disk device.old).now) object.0 range) }
    ensures absent { IsTrue D.keeps_model → MountsWhole (bytes_of (D.disk device.old).now)
        → IfErr result (λ e. e ≡ PoolError.NoObject
        → IsAbsentIn (bytes_of (D.disk device.old).now) object.0) }
    ensures checked { IsTrue D.keeps_model → IfOk result
        (IsCheckedRange (bytes_of (D.disk device.old).now) object.0 range) }
    ensures unseen { IsTrue D.keeps_model → IfErr result
        (λ e. e ≡ PoolError.NoObject → IsUnseen (bytes_of (D.disk device.old).now) object.0) }
    ensures refused { IfErr result (IsPathRefusal (IsTrue D.keeps_model)
        (bytes_of (D.disk device.old).now) object.0 range) }
{
    let view = view_object(alloc, device, object)?;
    view.read(device, alloc, range)
}

// The same once the whole pool was read.
fn read_whole<D: SectorDevice>(
    alloc: Global,
    device: D,
    object: ObjectId,
    range: Range,
) -> (Result<Bytes, PoolError>, D)
    ensures reads { OnlyReads D.SectorDevice result.0 device result.1 }
    ensures bytes { IsTrue D.keeps_model → IfOk result.0
        (IsMountedRange (bytes_of (D.disk device).now) object.0 range) }
    ensures absent { IsTrue D.keeps_model → IfErr result.0 (λ e. e ≡ PoolError.NoObject
        → IsAbsentIn (bytes_of (D.disk device).now) object.0) }
    ensures refused { IfErr result.0 IsReadersRefusal }
{
    let cache = BlockCache::new(alloc, NonZeroUsize::MIN);
    let mut reader = CachedDevice::new(device, cache);
    let read = read_viewed(alloc, &mut reader, object, range);
    let (device, _) = reader.into_parts();
    (read, device)
}

fn read_viewed<B: BlockReader>(
    alloc: Global,
    reader: &mut B,
    object: ObjectId,
    range: Range,
) -> Result<Bytes, PoolError>
    ensures reads { OnlyReads B.SectorDevice result reader.old reader.new }
    ensures bytes { IsTrue B.keeps_model → IfOk result
        (IsMountedRange (bytes_of (B.disk reader.old).now) object.0 range) }
    ensures absent { IsTrue B.keeps_model → IfErr result (λ e. e ≡ PoolError.NoObject
        → IsAbsentIn (bytes_of (B.disk reader.old).now) object.0) }
    ensures refused { IfErr result IsReadersRefusal }
{
    let view = view_pool(alloc, reader)?;
    view.read(reader, alloc, object, range)
}
