//! The command `ls` with `-l`: each object with the most blocks that it may have. It only reads.

ghost use Rattle.std.specs.Io.KnownBytes.{Appends};
ghost use Rattle.std.specs.Prelude.{◌≡◌, ◌≢◌, ◌≤◌, IfOk, IsErr, IsTrue, OnOk};
ghost use Rattle.base.specs.disk.Disk.{bytes_of};
ghost use Rattle.read_commands.specs.Checks.{StaysOpened};
ghost use Rattle.read_commands.specs.ReadScopes.{WritesObjects};
ghost use Rattle.read_commands.specs.ObjectBlocks.{long_lines};
ghost use Rattle.read_commands.specs.Undone.{ObjectsUndone};

use crate::failure::{Failure, NotesRefusals, report_failure};
use crate::lists::list_opened;
use crate::object_blocks::most_blocks;
use base::ObjectId;
use command_arguments::{Scope, Verbosity};
use device_model::SectorDevice;
use file_devices::FileRefusal;
use std::alloc::Global;
use std::fmt;
use std::io::{self, Write};

/// Writes to `out` the objects of the pool in a file, a line each with its number, its length and the most blocks that
/// it may have, and returns the exit status. It only reads the file: it makes no write and no flush, whatever it
/// returns. If the scope is a path, it reads the root, the directories and the log alone, and finds no damage of another
/// block. An image mounts one contents, so an import of it has the objects that were written.
///
/// The status and what is reported on `errors` are those of `run_show`.
pub fn run_long_list<D: SectorDevice + NotesRefusals, W: Write, E: Write>(
    alloc: Global,
    file: &str,
    scope: Scope,
    verbosity: Verbosity,
    opened: &mut Result<D, FileRefusal>,
    out: &mut W,
    errors: &mut E,
) -> u8
    ensures only_read { StaysOpened D.SectorDevice opened.old opened.new }
    ensures unusable { IsErr opened.old → result ≡ 3 }
    ensures listed { result ≡ 0 → IfOk opened.old (λ device.
        WritesObjects scope (IsTrue D.keeps_model) (bytes_of (D.disk device).now) long_lines
        (W.contents out.old) (W.contents out.new)) }
    ensures undone { result ≢ 0
        → ObjectsUndone D.SectorDevice scope opened.old opened.new result }
    ensures unprinted { result ≡ 1 → W.contents out.new ≡ W.contents out.old }
    ensures range { result ≤ 3 }
    ensures no_usage { result ≢ 2 }
{
    let objects = match list_opened(alloc, scope, opened) {
        Ok(objects) => objects,
        Err(failure) => return report_failure(failure, file, verbosity, errors),
    };
    match write_long_lines(&objects, out) {
        Ok(()) => 0,
        Err(_) => report_failure(Failure::Unwritten, file, verbosity, errors),
    }
}

// Writes a line for each object.
fn write_long_lines<W: Write>(objects: &[(ObjectId, u64)], out: &mut W) -> io::Result<()>
    ensures { OnOk result (Appends (W.contents out.old) (W.contents out.new)
        (long_lines objects.now)) }
{
    for object in objects {
        writeln!(out, "{}", Object(*object))?;
    }
    Ok(())
}

/// An object's number, its length, and the most blocks that it may have.
#[derive(Clone, Copy)]
struct Object((ObjectId, u64));

impl fmt::Display for Object {
    ghost use Rattle.std.specs.Prelude.{Some};
    ghost use Rattle.read_commands.specs.ObjectBlocks.{long_text};

    ghost output = { λ o. Some (long_text o.0) };

    fn fmt<W: fmt::Write>(&self, f: &mut fmt::Formatter<W>) -> fmt::Result {
        let (number, length) = (self.0.0.0, self.0.1);
        write!(f, "{number} {length} {}", most_blocks(length))
    }
}
