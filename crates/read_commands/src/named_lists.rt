//! The command `ls`: the objects of a pool with their names. It only reads.

ghost use Rattle.std.specs.Io.KnownBytes.{Appends};
ghost use Rattle.std.specs.Prelude.{◌≡◌, ◌≢◌, ◌≤◌, IfErr, IfNone, IfOk, IfSome, IsErr, IsTrue, None, OnOk, Some};
ghost use Rattle.base.specs.disk.Disk.{bytes_of};
ghost use Rattle.device_model.specs.Reading.{OnlyReads};
ghost use Rattle.read_commands.specs.Checks.{StaysOpened};
ghost use Rattle.read_commands.specs.NamedLines.{IsListedIn, WritesNames, list_lines, name_shown, named_line};
ghost use Rattle.object_names.specs.NameTables.{has_object};
ghost use Rattle.read_commands.specs.NamedUndone.{IsNamesRefused, NamesUndone};
ghost use Rattle.read_commands.specs.Reads.{IsReadersRefusal};

use crate::failure::{Failure, NotesRefusals, report_failure};
use crate::lists::list_objects;
use crate::name_tables::read_table;
use base::{ObjectId, PoolError};
use command_arguments::{Scope, Verbosity};
use device_model::SectorDevice;
use file_devices::FileRefusal;
use object_names::NameTable;
use std::alloc::Global;
use std::io::{self, Write};

/// The objects of a pool, and the table that names them.
#[derive(Drop)]
pub struct NamedList {
    /// The objects by rising number, each with its length in bytes.
    pub objects: Vec<(ObjectId, u64)>,
    /// The table of names. `None` if there is no object 0, or if it is of another use.
    pub table: Option<NameTable>,
}

impl NamedList {
    /// The name of an object, if it has one.
    pub fn name_of(&self, object: ObjectId) -> Option<&str>
        ensures name { IfSome result
            (λ name. name_shown self.now.table object.0 ≡ Some name.now) }
        ensures none { IfNone result (name_shown self.now.table object.0 ≡ None) }
    {
        match &self.table {
            Some(table) => text_of(table, object),
            None => None,
        }
    }
}

// The name of an object in a table, as text.
fn text_of(table: &NameTable, object: ObjectId) -> Option<&str>
    ensures name { IfSome result (λ name. name_shown (Some table.now) object.0 ≡ Some name.now) }
    ensures none { IfNone result (name_shown (Some table.now) object.0 ≡ None) }
{
    match table.named(object) {
        Some(name) => match str::from_utf8(name) {
            Ok(text) => Some(text),
            Err(_) => None,
        },
        None => None,
    }
}

/// Writes to `out` the objects of the pool in a file, a line each with number, length and name. Returns the exit status,
/// and what was opened. It only reads the file: it makes no write and no flush, whatever it returns. If the scope is a
/// path, it reads the root, the directories, the log and object 0 alone, and finds no damage of another block.
///
/// An object without a name has no third word. So has each if object 0 is no table of names. The status is 0 if all lines
/// were written. It is 1 if the engine refused it; then nothing is written. It is 3 if the file was not opened as a
/// device or `out` can't be written. A failure is reported on `errors`.
pub fn run_list_named<D: SectorDevice + NotesRefusals, W: Write, E: Write>(
    alloc: Global,
    file: &str,
    scope: Scope,
    verbosity: Verbosity,
    opened: Result<D, FileRefusal>,
    out: &mut W,
    errors: &mut E,
) -> (u8, Result<D, FileRefusal>)
    ensures only_read { StaysOpened D.SectorDevice opened result.1 }
    ensures unusable { IsErr opened → result.0 ≡ 3 }
    ensures listed { result.0 ≡ 0 → IfOk opened (λ device.
        WritesNames scope (IsTrue D.keeps_model) (bytes_of (D.disk device).now)
        (W.contents out.old) (W.contents out.new)) }
    ensures undone { result.0 ≢ 0 → NamesUndone D.SectorDevice scope opened result.1 result.0 }
    ensures unprinted { result.0 ≡ 1 → W.contents out.new ≡ W.contents out.old }
    ensures range { result.0 ≤ 3 }
    ensures no_usage { result.0 ≢ 2 }
{
    let device = match opened {
        Ok(device) => device,
        Err(cause) => {
            let failure = Failure::Unusable(cause);
            return (report_failure(failure, file, verbosity, errors), Err(cause));
        }
    };
    let (listed, device) = list_names(alloc, scope, device);
    let list = match listed {
        Ok(list) => list,
        Err(refusal) => {
            let failure = Failure::of_pool(refusal, &device);
            let status = report_failure(failure, file, verbosity, errors);
            return (status, Ok(device));
        }
    };
    match write_names(&list, out) {
        Ok(()) => (0, Ok(device)),
        Err(failure) => {
            let status = report_failure(failure, file, verbosity, errors);
            (status, Ok(device))
        }
    }
}

/// The objects of what an import of the pool on a device would mount, with their names, and the device. It makes no
/// write and no flush, also if it is refused.
///
/// # Errors
/// Those of `list_objects`, and those of `read_table` if there is an object 0.
pub fn list_names<D: SectorDevice>(
    alloc: Global,
    scope: Scope,
    device: D,
) -> (Result<NamedList, PoolError>, D)
    ensures reads { OnlyReads D.SectorDevice result.0 device result.1 }
    ensures listed { IfOk result.0
        (IsListedIn scope (IsTrue D.keeps_model) (bytes_of (D.disk device).now)) }
    ensures refused { IfErr result.0 IsReadersRefusal }
    ensures cause { IfErr result.0 (IsNamesRefused D.SectorDevice scope device result.1) }
{
    let mut device = device;
    let objects = match list_objects(alloc, scope, &mut device) {
        Ok(objects) => objects,
        Err(refusal) => return (Err(refusal), device),
    };
    if !has_first(&objects) {
        let list = NamedList {
            objects,
            table: None,
        };
        return (Ok(list), device);
    }
    let (table, device) = read_table(alloc, scope, device);
    match table {
        Ok(table) => (Ok(NamedList { objects, table }), device),
        Err(refusal) => (Err(refusal), device),
    }
}

// Whether object 0 is one of these.
fn has_first(objects: &[(ObjectId, u64)]) -> bool
    ensures { result ≡ has_object objects.now 0 }
{
    objects.iter().any(|object| object.0.0 == 0)
}

// Writes a line for each object.
fn write_names<W: Write>(list: &NamedList, out: &mut W) -> Result<(), Failure>
    ensures written { OnOk result (Appends (W.contents out.old) (W.contents out.new)
        (list_lines list.now)) }
    ensures failed { IfErr result (λ failure. failure ≡ Failure.Unwritten) }
{
    for object in &list.objects {
        let name = list.name_of(object.0);
        let Ok(()) = write_object(object.0, object.1, name, out) else {
            return Err(Failure::Unwritten);
        };
    }
    Ok(())
}

// Writes the line of an object.
fn write_object<W: Write>(
    object: ObjectId,
    length: u64,
    name: Option<&str>,
    out: &mut W,
) -> io::Result<()>
    ensures named { OnOk result (IfSome name.entry (λ name. Appends (W.contents out.old)
        (W.contents out.new) (named_line object length (Some name.now)))) }
    ensures unnamed { OnOk result (IfNone name.entry (Appends (W.contents out.old)
        (W.contents out.new) (named_line object length None))) }
{
    match name {
        Some(name) => writeln!(out, "{} {} {}", object.0, length, name),
        None => writeln!(out, "{} {}", object.0, length),
    }
}
