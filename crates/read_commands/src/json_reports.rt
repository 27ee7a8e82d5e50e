//! The commands `show` and `ls` with `--json`: one object of JSON in one line, with the keys of `docs/COMMANDS.md`.
//!
//! No text in it needs an escape: a pool's name has letters, digits, `-`, `_` and `.` alone.

ghost use Rattle.std.specs.Io.KnownBytes.{Appends};
ghost use Rattle.std.specs.List.{flat_map};
ghost use Rattle.std.specs.Prelude.{◌≡◌, ◌≢◌, ◌≤◌, IfOk, IsErr, IsTrue, OnOk};
ghost use Rattle.base.specs.disk.Disk.{bytes_of};
ghost use Rattle.read_commands.specs.Checks.{StaysOpened};
ghost use Rattle.read_commands.specs.PoolLines.{WritesInspected};
ghost use Rattle.read_commands.specs.ReadScopes.{WritesObjects};
ghost use Rattle.read_commands.specs.Json.{json_listed, json_next, json_numbers, json_objects, json_shown};
ghost use Rattle.read_commands.specs.Undone.{InspectsUndone, ObjectsUndone};

use crate::failure::{Failure, NotesRefusals, report_failure};
use crate::lists::list_opened;
use crate::object_blocks::most_blocks;
use crate::show::inspect_opened;
use base::ObjectId;
use command_arguments::{Scope, Verbosity};
use device_model::SectorDevice;
use file_devices::FileRefusal;
use inspections::Inspected;
use std::alloc::Global;
use std::fmt;
use std::io::{self, Write};

/// Writes to `out` as JSON what `run_show` writes in lines, and returns the exit status. It only reads the file: it
/// makes no write and no flush, whatever it returns.
///
/// The status and what is reported on `errors` are those of `run_show`.
pub fn run_json_show<D: SectorDevice + NotesRefusals, W: Write, E: Write>(
    alloc: Global,
    file: &str,
    verbosity: Verbosity,
    opened: &mut Result<D, FileRefusal>,
    out: &mut W,
    errors: &mut E,
) -> u8
    ensures only_read { StaysOpened D.SectorDevice opened.old opened.new }
    ensures unusable { IsErr opened.old → result ≡ 3 }
    ensures shown { result ≡ 0 → IfOk opened.old (λ device.
        WritesInspected (IsTrue D.keeps_model) (bytes_of (D.disk device).now) json_shown
        (W.contents out.old) (W.contents out.new)) }
    ensures undone { result ≢ 0 → InspectsUndone D.SectorDevice opened.old opened.new result }
    ensures unprinted { result ≡ 1 → W.contents out.new ≡ W.contents out.old }
    ensures range { result ≤ 3 }
    ensures no_usage { result ≢ 2 }
{
    let inspected = match inspect_opened(alloc, opened) {
        Ok(inspected) => inspected,
        Err(failure) => return report_failure(failure, file, verbosity, errors),
    };
    match write_shown(&inspected, out) {
        Ok(()) => 0,
        Err(_) => report_failure(Failure::Unwritten, file, verbosity, errors),
    }
}

/// Writes to `out` as JSON the objects of the pool in a file, each with its number, its length and the most blocks that
/// it may have, and returns the exit status. It only reads the file: it makes no write and no flush, whatever it
/// returns. If the scope is a path, it reads the root, the directories and the log alone, and finds no damage of another
/// block. An image mounts one contents, so an import of it has the objects that were written.
///
/// The status and what is reported on `errors` are those of `run_show`.
pub fn run_json_list<D: SectorDevice + NotesRefusals, W: Write, E: Write>(
    alloc: Global,
    file: &str,
    scope: Scope,
    verbosity: Verbosity,
    opened: &mut Result<D, FileRefusal>,
    out: &mut W,
    errors: &mut E,
) -> u8
    ensures only_read { StaysOpened D.SectorDevice opened.old opened.new }
    ensures unusable { IsErr opened.old → result ≡ 3 }
    ensures listed { result ≡ 0 → IfOk opened.old (λ device.
        WritesObjects scope (IsTrue D.keeps_model) (bytes_of (D.disk device).now) json_listed
        (W.contents out.old) (W.contents out.new)) }
    ensures undone { result ≢ 0
        → ObjectsUndone D.SectorDevice scope opened.old opened.new result }
    ensures unprinted { result ≡ 1 → W.contents out.new ≡ W.contents out.old }
    ensures range { result ≤ 3 }
    ensures no_usage { result ≢ 2 }
{
    let objects = match list_opened(alloc, scope, opened) {
        Ok(objects) => objects,
        Err(failure) => return report_failure(failure, file, verbosity, errors),
    };
    match write_listed(&objects, out) {
        Ok(()) => 0,
        Err(_) => report_failure(Failure::Unwritten, file, verbosity, errors),
    }
}

fn write_shown<W: Write>(inspected: &Inspected, out: &mut W) -> io::Result<()>
    ensures { OnOk result (Appends (W.contents out.old) (W.contents out.new)
        (json_shown inspected.now)) }
{
    write_numbers(inspected, out)?;
    write_objects(&inspected.objects, out)
}

fn write_numbers<W: Write>(inspected: &Inspected, out: &mut W) -> io::Result<()>
    ensures { OnOk result (Appends (W.contents out.old) (W.contents out.new)
        (json_numbers inspected.now)) }
{
    write!(
        out,
        r#"{{"name":"{}","guid":"{}","group":{},"import":{},"blocks":{},"used":{},"records":{},"objects":"#,
        inspected.name.as_str(),
        inspected.guid,
        inspected.group.0,
        inspected.import_number,
        inspected.blocks,
        inspected.used,
        inspected.records
    )
}

fn write_listed<W: Write>(objects: &[(ObjectId, u64)], out: &mut W) -> io::Result<()>
    ensures { OnOk result (Appends (W.contents out.old) (W.contents out.new)
        (json_listed objects.now)) }
{
    write!(out, r#"{{"objects":"#)?;
    write_objects(objects, out)
}

// Writes the objects as a list, and closes the report.
fn write_objects<W: Write>(objects: &[(ObjectId, u64)], out: &mut W) -> io::Result<()>
    ensures { OnOk result (Appends (W.contents out.old) (W.contents out.new)
        (json_objects objects.now)) }
{
    let Some((first, rest)) = objects.split_first() else {
        return writeln!(out, "[]}}");
    };
    write!(out, "[{}", Object(*first))?;
    write_rest(rest, out)?;
    writeln!(out, "]}}")
}

// Writes the objects after the first one.
fn write_rest<W: Write>(objects: &[(ObjectId, u64)], out: &mut W) -> io::Result<()>
    ensures { OnOk result (Appends (W.contents out.old) (W.contents out.new)
        (flat_map json_next objects.now)) }
{
    for object in objects {
        write!(out, ",{}", Object(*object))?;
    }
    Ok(())
}

/// An object's number, its length and the most blocks that it may have, as JSON.
#[derive(Clone, Copy)]
struct Object((ObjectId, u64));

impl fmt::Display for Object {
    ghost use Rattle.std.specs.Prelude.{Some};
    ghost use Rattle.read_commands.specs.Json.{json_object};

    ghost output = { λ o. Some (json_object o.0) };

    fn fmt<W: fmt::Write>(&self, f: &mut fmt::Formatter<W>) -> fmt::Result {
        let (number, length) = (self.0.0.0, self.0.1);
        write!(
            f,
            r#"{{"object":{number},"length":{length},"blocks":{}}}"#,
            most_blocks(length)
        )
    }
}
