//! The command `get` of an object by its name. It only reads.

ghost use Rattle.std.specs.Prelude.{◌≡◌, ◌≢◌, ◌≤◌, Err, IfErr, IfOk, IsErr, IsOk, IsTrue, false};
ghost use Rattle.base.specs.disk.Disk.{bytes_of};
ghost use Rattle.read_commands.specs.NamedObjects.{IsCheckedName, IsMountedName, IsUnknown, WritesNamed, named_range};
ghost use Rattle.read_commands.specs.NamedUndone.{GetsNamedUndone, IsFindFailure};
ghost use Rattle.object_names.specs.NameTables.{IsNamed};
ghost use Rattle.object_names.specs.Names as names;
ghost use Rattle.read_commands.specs.Checks.{IsOnlyRead, StaysOpened};
ghost use Rattle.read_commands.specs.Scopes.{IsAssured};

use crate::failure::{Failure, NotesRefusals, report_failure};
use crate::name_causes::{NameCause, NameFailure, report_name_failure};
use crate::name_tables::read_table;
use crate::reads::run_get;
use base::ObjectId;
use command_arguments::{GetArguments, GetNamedArguments, Scope, Verbosity};
use device_model::SectorDevice;
use file_devices::FileRefusal;
use object_names::{NameTable, is_object_name};
use std::alloc::Global;
use std::io::Write;

/// Writes to `out` the bytes of the object of a name in the pool in a file, and nothing else. Returns the exit status,
/// and what was opened. It only reads the file: it makes no write and no flush, whatever it returns. If the scope is a
/// path, it reads the blocks that lead to the names and to these bytes alone, and finds no damage of another.
///
/// The status is that of [`run_get`](read_commands::run_get) for the object's number. It is 1 too if the name is none, if
/// object 0 is no table of names, or if no object has the name. A failure is reported on `errors`.
pub fn run_get_named<D: SectorDevice + NotesRefusals, W: Write, E: Write>(
    alloc: Global,
    arguments: GetNamedArguments<'_>,
    scope: Scope,
    verbosity: Verbosity,
    opened: Result<D, FileRefusal>,
    out: &mut W,
    errors: &mut E,
) -> (u8, Result<D, FileRefusal>)
    ensures only_read { StaysOpened D.SectorDevice opened result.1 }
    ensures unusable { IsErr opened → result.0 ≡ 3 }
    ensures no_name { names.is_name arguments.entry.name.now ≡ false
        → IfOk opened (λ _. result.0 ≡ 1) }
    ensures written { result.0 ≡ 0 → IfOk opened (λ device.
        WritesNamed scope (IsTrue D.keeps_model) (bytes_of (D.disk device).now)
        arguments.entry.name.now (named_range arguments.entry)
        (W.contents out.old) (W.contents out.new)) }
    ensures undone { result.0 ≢ 0 → GetsNamedUndone D.SectorDevice scope
        arguments.entry.name.now (named_range arguments.entry) opened result.1 result.0 }
    ensures unprinted { result.0 ≡ 1 → W.contents out.new ≡ W.contents out.old }
    ensures range { result.0 ≤ 3 }
    ensures no_usage { result.0 ≢ 2 }
{
    let GetNamedArguments {
        file,
        name,
        offset,
        length,
    } = arguments;
    let device = match opened {
        Ok(device) => device,
        Err(cause) => {
            let failure = Failure::Unusable(cause);
            return (report_failure(failure, file, verbosity, errors), Err(cause));
        }
    };
    let (found, device) = find_object(alloc, scope, name, device);
    match found {
        Ok(object) => {
            let arguments = GetArguments {
                file,
                object: object.0,
                offset,
                length,
            };
            run_get(alloc, arguments, scope, verbosity, Ok(device), out, errors)
        }
        Err(failure) => {
            let status = report_name_failure(failure, name, file, verbosity, errors);
            (status, Ok(device))
        }
    }
}

// The object of a name in what an import of the pool on a device would mount, and the device, which was only read.
fn find_object<D: SectorDevice + NotesRefusals>(
    alloc: Global,
    scope: Scope,
    name: &str,
    device: D,
) -> (Result<ObjectId, NameFailure>, D)
    ensures only_read { IsOnlyRead D.SectorDevice device result.1 }
    ensures unrefused { IsOk result.0 → D.refused result.1 ≡ D.refused device }
    ensures no_name { names.is_name name.now ≡ false
        → result.0 ≡ Err (NameFailure.Name NameCause.NoName) }
    ensures found { IsAssured scope (IsTrue D.keeps_model) (bytes_of (D.disk device).now)
        → IfOk result.0 (λ n. IsMountedName (bytes_of (D.disk device).now) name.now n.0) }
    ensures checked { scope ≡ Scope.Path → IsTrue D.keeps_model → IfOk result.0
        (λ n. IsCheckedName (bytes_of (D.disk device).now) name.now n.0) }
    ensures failed { IfErr result.0
        (IsFindFailure D.SectorDevice scope name.now device result.1) }
{
    if !is_object_name(name.as_bytes()) {
        return (Err(NameFailure::Name(NameCause::NoName)), device);
    }
    let (table, device) = read_table(alloc, scope, device);
    match table {
        Ok(Some(table)) => (find(&table, name), device),
        Ok(None) => (Err(NameFailure::Name(NameCause::NoTable)), device),
        Err(refusal) => {
            let failure = Failure::of_pool(refusal, &device);
            (Err(NameFailure::Plain(failure)), device)
        }
    }
}

// The object of a name in a table.
fn find(table: &NameTable, name: &str) -> Result<ObjectId, NameFailure>
    ensures found { IfOk result (λ n. IsNamed table.now n.0 name.now) }
    ensures unknown { IfErr result (λ why. (why ≡ NameFailure.Name NameCause.Unknown)
        × IsUnknown table.now name.now) }
{
    match table.find(name.as_bytes()) {
        Some(object) => Ok(object),
        None => Err(NameFailure::Name(NameCause::Unknown)),
    }
}
