//! The objects of what an import of the pool on a device would mount, with their lengths. A command reads all of the pool
//! for them, or the root, the directories and the log alone.

ghost use Rattle.std.specs.Prelude.{◌≡◌, Err, IfErr, IfOk, IsTrue};
ghost use Rattle.base.specs.disk.Disk.{bytes_of};
ghost use Rattle.device_model.specs.Reading.{OnlyReads};
ghost use Rattle.inspections.specs.Refused.{IsInspectionRefused};
ghost use Rattle.object_views.specs.Listings.{IsListingRefused};
ghost use Rattle.read_commands.specs.Checks.{MountsWhole, StaysOpened};
ghost use Rattle.read_commands.specs.ReadScopes.{AreCheckedObjects, AreMountedObjects};
ghost use Rattle.read_commands.specs.Scopes.{IsAssured};
ghost use Rattle.read_commands.specs.Undone.{IsListRefused, IsLookFailure};

use crate::failure::{Failure, NotesRefusals};
use base::{ObjectId, PoolError};
use command_arguments::Scope;
use device_model::SectorDevice;
use file_devices::FileRefusal;
use inspections::inspect;
use object_views::list_pool;
use std::alloc::Global;

/// The objects of what an import of the pool on what was opened would mount, by rising number, each with its length in
/// bytes. It makes no write and no flush.
///
/// # Errors
/// Why the file was not opened, or what `list_objects` is refused for.
pub fn list_opened<D: SectorDevice + NotesRefusals>(
    alloc: Global,
    scope: Scope,
    opened: &mut Result<D, FileRefusal>,
) -> Result<Vec<(ObjectId, u64)>, Failure>
    ensures only_read { StaysOpened D.SectorDevice opened.old opened.new }
    ensures unusable { IfErr opened.old (λ cause. result ≡ Err (Failure.Unusable cause)) }
    ensures mounted { IfOk opened.old (λ device. IsAssured scope (IsTrue D.keeps_model)
        (bytes_of (D.disk device).now) → IfOk result
        (λ l. AreMountedObjects (bytes_of (D.disk device).now) l.items)) }
    ensures checked { IfOk opened.old (λ device. scope ≡ Scope.Path → IsTrue D.keeps_model
        → IfOk result (λ l. AreCheckedObjects (bytes_of (D.disk device).now) l.items)) }
    ensures failed { IfErr result
        (IsLookFailure (IsListRefused D.SectorDevice scope) opened.old opened.new) }
{
    let device = match opened {
        Ok(device) => device,
        Err(cause) => return Err(Failure::Unusable(*cause)),
    };
    match list_objects(alloc, scope, device) {
        Ok(objects) => Ok(objects),
        Err(refusal) => Err(Failure::of_pool(refusal, device)),
    }
}

/// The objects of what an import of the pool on a device would mount, by rising number, each with its length in bytes. It
/// makes no write and no flush, also if it is refused.
///
/// # Errors
/// Those of `inspect`. If the scope is a path, those of `list_pool`.
pub fn list_objects<D: SectorDevice>(
    alloc: Global,
    scope: Scope,
    device: &mut D,
) -> Result<Vec<(ObjectId, u64)>, PoolError>
    ensures reads { OnlyReads D.SectorDevice result device.old device.new }

    // If this is assured, they are the objects of what the image mounts.
    ensures mounted { IsAssured scope (IsTrue D.keeps_model) (bytes_of (D.disk device.old).now)
        → IfOk result (λ l. AreMountedObjects (bytes_of (D.disk device.old).now) l.items) }

    // What is read by path is checked, whatever the image mounts.
    ensures checked { scope ≡ Scope.Path → IsTrue D.keeps_model → IfOk result
        (λ l. AreCheckedObjects (bytes_of (D.disk device.old).now) l.items) }
    ensures refused { IfErr result
        (IsListRefused D.SectorDevice scope device.old device.new) }
{
    match scope {
        Scope::Path => list_by_path(alloc, device),
        Scope::Whole => list_whole(alloc, device),
    }
}

// The objects by the root, the directories and the log.
fn list_by_path<D: SectorDevice>(
    alloc: Global,
    device: &mut D,
) -> Result<Vec<(ObjectId, u64)>, PoolError>
    ensures reads { OnlyReads D.SectorDevice result device.old device.new }
    ensures mounted { IsTrue D.keeps_model → MountsWhole (bytes_of (D.disk device.old).now)
        → IfOk result (λ l. AreMountedObjects (bytes_of (D.disk device.old).now) l.items) }
    ensures checked { IsTrue D.keeps_model → IfOk result
        (λ l. AreCheckedObjects (bytes_of (D.disk device.old).now) l.items) }
    ensures refused { IfErr result (IsListingRefused D.SectorDevice device.old device.new) }
{
    let listed = list_pool(alloc, device)?;
    Ok(listed.objects)
}

// The same once the whole pool was read.
fn list_whole<D: SectorDevice>(
    alloc: Global,
    device: &mut D,
) -> Result<Vec<(ObjectId, u64)>, PoolError>
    ensures reads { OnlyReads D.SectorDevice result device.old device.new }
    ensures mounted { IsTrue D.keeps_model → IfOk result
        (λ l. AreMountedObjects (bytes_of (D.disk device.old).now) l.items) }
    ensures refused { IfErr result (IsInspectionRefused D.SectorDevice device.old device.new) }
{
    let inspected = inspect(alloc, device)?;
    Ok(inspected.objects)
}
