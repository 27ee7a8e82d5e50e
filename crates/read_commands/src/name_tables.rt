//! The table of names of a pool, as a read of object 0 gives it.
//!
//! One byte more is read than the longest table has. An object 0 with that byte is none.

ghost use Rattle.std.specs.Prelude.{◌≡◌, IfErr, IfOk, IsTrue};
ghost use Rattle.base.specs.disk.Disk.{bytes_of};
ghost use Rattle.device_model.specs.Reading.{OnlyReads};
ghost use Rattle.read_commands.specs.NamedTables.{IsTableChecked, IsTableIn, IsTableOf, IsTableRead, table_range};
ghost use Rattle.read_commands.specs.Scopes.{IsAssured};
ghost use Rattle.read_commands.specs.Undone.{IsGetRefused};

use crate::ranges::read_object;
use base::{Bytes, OBJECT_COUNT, ObjectId, PoolError, Range};
use command_arguments::Scope;
use device_model::SectorDevice;
use object_names::{NameTable, SLOT_SIZE};
use std::alloc::Global;

/// The bytes of object 0 that are read for its table of names: one more than the longest one has.
pub const TABLE_RANGE: Range = Range {
    low: 0,
    high: SLOT_SIZE as u64 * OBJECT_COUNT as u64 + 1,
};

/// The table of names, by what a read of [`TABLE_RANGE`] of object 0 gave: `None` if object 0 is of another use. One that
/// isn't there is a table without names. It takes no memory.
///
/// # Errors
/// Those of the read, but for `NoObject`.
pub fn table_of(
    alloc: Global,
    read: Result<Bytes, PoolError>,
) -> Result<Option<NameTable>, PoolError>
    ensures { IsTableRead read result }
{
    match read {
        Ok(bytes) => Ok(judge(bytes)),
        Err(PoolError::NoObject) => Ok(judge(Bytes::new(Vec::new(alloc)))),
        Err(refusal) => Err(refusal),
    }
}

// The table that these bytes are, if they are one.
fn judge(bytes: Bytes) -> Option<NameTable>
    ensures { IsTableOf bytes result }
{
    match NameTable::read(bytes) {
        Ok(table) => Some(table),
        Err(_) => None,
    }
}

/// The table of names in what an import of the pool on a device would mount, and the device: `None` if object 0 is of
/// another use. It makes no write and no flush, also if it is refused.
///
/// # Errors
/// Those of `read_object` for [`TABLE_RANGE`] of object 0, but for `NoObject`.
pub fn read_table<D: SectorDevice>(
    alloc: Global,
    scope: Scope,
    device: D,
) -> (Result<Option<NameTable>, PoolError>, D)
    ensures reads { OnlyReads D.SectorDevice result.0 device result.1 }
    ensures table { IsAssured scope (IsTrue D.keeps_model) (bytes_of (D.disk device).now)
        → IfOk result.0 (IsTableIn (bytes_of (D.disk device).now)) }
    ensures checked { scope ≡ Scope.Path → IsTrue D.keeps_model
        → IfOk result.0 (IsTableChecked (bytes_of (D.disk device).now)) }
    ensures refused { IfErr result.0
        (IsGetRefused D.SectorDevice scope 0 table_range device result.1) }
{
    let (read, device) = read_object(alloc, scope, device, ObjectId(0), TABLE_RANGE);
    (table_of(alloc, read), device)
}
