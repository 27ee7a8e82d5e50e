//! The command `show`: what an import of the pool in a file would mount, and its objects. It only reads.

ghost use Rattle.std.specs.Io.KnownBytes.{Appends};
ghost use Rattle.std.specs.Prelude.{◌≡◌, ◌≢◌, ◌≤◌, Err, IfErr, IfOk, IsErr, IsTrue, OnOk};
ghost use Rattle.base.specs.disk.Disk.{bytes_of};
ghost use Rattle.inspections.specs.Inspections.{AgreesWithImports, IsInspectionOf};
ghost use Rattle.inspections.specs.Refused.{IsInspectionRefused};
ghost use Rattle.read_commands.specs.Checks.{StaysOpened};
ghost use Rattle.base.specs.tree.Mount.{IsMounted, Mount};
ghost use Rattle.object_views.specs.Listings.{IsListingOf, IsListingOfMount, IsListingRefused};
ghost use Rattle.read_commands.specs.PoolLines.{WritesInspected, WritesListing, fast_lines, fast_number_lines, number_lines, object_lines, shown_lines};
ghost use Rattle.read_commands.specs.Undone.{InspectsUndone, IsLookFailure, ListsUndone};

use crate::failure::{Failure, NotesRefusals, report_failure};
use base::ObjectId;
use command_arguments::Verbosity;
use device_model::SectorDevice;
use file_devices::FileRefusal;
use inspections::{Inspected, inspect};
use object_views::{ListedPool, list_pool};
use std::alloc::Global;
use std::io::{self, Write};

/// Writes to `out` the name and the numbers of what an import of the pool in a file would mount, a line for each of its
/// objects, and returns the exit status. It only reads the file: it makes no write and no flush, whatever it returns.
///
/// The status is 0 if it was written. It is 1 if the engine refused it; then nothing is written. It is 3 if the file
/// was not opened as a device or `out` can't be written. A failure is reported on `errors`.
pub fn run_show<D: SectorDevice + NotesRefusals, W: Write, E: Write>(
    alloc: Global,
    file: &str,
    verbosity: Verbosity,
    opened: &mut Result<D, FileRefusal>,
    out: &mut W,
    errors: &mut E,
) -> u8
    ensures only_read { StaysOpened D.SectorDevice opened.old opened.new }
    ensures unusable { IsErr opened.old → result ≡ 3 }
    ensures shown { result ≡ 0 → IfOk opened.old (λ device.
        WritesInspected (IsTrue D.keeps_model) (bytes_of (D.disk device).now) shown_lines
        (W.contents out.old) (W.contents out.new)) }
    ensures undone { result ≢ 0 → InspectsUndone D.SectorDevice opened.old opened.new result }
    ensures unprinted { result ≡ 1 → W.contents out.new ≡ W.contents out.old }
    ensures range { result ≤ 3 }
    ensures no_usage { result ≢ 2 }
{
    let inspected = match inspect_opened(alloc, opened) {
        Ok(inspected) => inspected,
        Err(failure) => return report_failure(failure, file, verbosity, errors),
    };
    match write_inspected(&inspected, out) {
        Ok(()) => 0,
        Err(failure) => report_failure(failure, file, verbosity, errors),
    }
}

/// Writes to `out` what `run_show` writes but for the blocks in use, and returns the exit status. Of the tree it reads the
/// root and the directories alone, so it finds no damage below these. It only reads the file: it makes no write and no
/// flush, whatever it returns.
///
/// The status and what is reported on `errors` are those of `run_show`.
pub fn run_show_fast<D: SectorDevice + NotesRefusals, W: Write, E: Write>(
    alloc: Global,
    file: &str,
    verbosity: Verbosity,
    opened: &mut Result<D, FileRefusal>,
    out: &mut W,
    errors: &mut E,
) -> u8
    ensures only_read { StaysOpened D.SectorDevice opened.old opened.new }
    ensures unusable { IsErr opened.old → result ≡ 3 }
    ensures shown { result ≡ 0 → IfOk opened.old (λ device.
        WritesListing (IsTrue D.keeps_model) (bytes_of (D.disk device).now) fast_lines
        (W.contents out.old) (W.contents out.new)) }
    ensures undone { result ≢ 0 → ListsUndone D.SectorDevice opened.old opened.new result }
    ensures unprinted { result ≡ 1 → W.contents out.new ≡ W.contents out.old }
    ensures range { result ≤ 3 }
    ensures no_usage { result ≢ 2 }
{
    let listed = match read_listing(alloc, opened) {
        Ok(listed) => listed,
        Err(failure) => return report_failure(failure, file, verbosity, errors),
    };
    match write_listing(&listed, out) {
        Ok(()) => 0,
        Err(failure) => report_failure(failure, file, verbosity, errors),
    }
}

// What the root, the directories and the log say of the pool on what was opened.
fn read_listing<D: SectorDevice + NotesRefusals>(
    alloc: Global,
    opened: &mut Result<D, FileRefusal>,
) -> Result<ListedPool, Failure>
    ensures only_read { StaysOpened D.SectorDevice opened.old opened.new }
    ensures unusable { IfErr opened.old (λ cause. result ≡ Err (Failure.Unusable cause)) }
    ensures listed { IfOk opened.old (λ device. IsTrue D.keeps_model
        → IfOk result (IsListingOf (bytes_of (D.disk device).now))) }
    ensures mounted { IfOk opened.old (λ device. IsTrue D.keeps_model → IfOk result
        (λ l. (m : Mount) → IsMounted (bytes_of (D.disk device).now) m → IsListingOfMount m l)) }
    ensures failed { IfErr result
        (IsLookFailure (IsListingRefused D.SectorDevice) opened.old opened.new) }
{
    let device = match opened {
        Ok(device) => device,
        Err(cause) => return Err(Failure::Unusable(*cause)),
    };
    match list_pool(alloc, device) {
        Ok(listed) => Ok(listed),
        Err(refusal) => Err(Failure::of_pool(refusal, device)),
    }
}

/// What an import of the pool on what was opened would mount. It makes no write and no flush.
///
/// # Errors
/// Why the file was not opened, or what `inspect` is refused for.
pub fn inspect_opened<D: SectorDevice + NotesRefusals>(
    alloc: Global,
    opened: &mut Result<D, FileRefusal>,
) -> Result<Inspected, Failure>
    ensures only_read { StaysOpened D.SectorDevice opened.old opened.new }
    ensures unusable { IfErr opened.old (λ cause. result ≡ Err (Failure.Unusable cause)) }
    ensures mounted { IfOk opened.old (λ device. IsTrue D.keeps_model
        → IfOk result (IsInspectionOf (bytes_of (D.disk device).now))) }
    ensures agrees { IfOk opened.old (λ device. IsTrue D.keeps_model
        → IfOk result (AgreesWithImports (bytes_of (D.disk device).now))) }
    ensures failed { IfErr result
        (IsLookFailure (IsInspectionRefused D.SectorDevice) opened.old opened.new) }
{
    let device = match opened {
        Ok(device) => device,
        Err(cause) => return Err(Failure::Unusable(*cause)),
    };
    match inspect(alloc, device) {
        Ok(inspected) => Ok(inspected),
        Err(refusal) => Err(Failure::of_pool(refusal, device)),
    }
}

// Writes the name and the numbers of a pool, a line each, and then a line for each object that is there.
fn write_inspected<W: Write>(inspected: &Inspected, out: &mut W) -> Result<(), Failure>
    ensures written { OnOk result (Appends (W.contents out.old) (W.contents out.new)
        (shown_lines inspected.now)) }
    ensures failed { IfErr result (λ failure. failure ≡ Failure.Unwritten) }
{
    let Ok(()) = write_numbers(inspected, out) else {
        return Err(Failure::Unwritten);
    };
    write_objects(&inspected.objects, out)
}

fn write_numbers<W: Write>(inspected: &Inspected, out: &mut W) -> io::Result<()>
    ensures { OnOk result (Appends (W.contents out.old) (W.contents out.new)
        (number_lines inspected.now)) }
{
    writeln!(
        out,
        "name {}\nguid {}\ngroup {}\nimport {}\nblocks {} used {}\nrecords {}\nobjects {}",
        inspected.name.as_str(),
        inspected.guid,
        inspected.group.0,
        inspected.import_number,
        inspected.blocks,
        inspected.used,
        inspected.records,
        inspected.objects.len()
    )
}

// The same of a pool of which the blocks in use aren't known.
fn write_listing<W: Write>(listed: &ListedPool, out: &mut W) -> Result<(), Failure>
    ensures written { OnOk result (Appends (W.contents out.old) (W.contents out.new)
        (fast_lines listed.now)) }
    ensures failed { IfErr result (λ failure. failure ≡ Failure.Unwritten) }
{
    let Ok(()) = write_fast_numbers(listed, out) else {
        return Err(Failure::Unwritten);
    };
    write_objects(&listed.objects, out)
}

fn write_fast_numbers<W: Write>(listed: &ListedPool, out: &mut W) -> io::Result<()>
    ensures { OnOk result (Appends (W.contents out.old) (W.contents out.new)
        (fast_number_lines listed.now)) }
{
    writeln!(
        out,
        "name {}\nguid {}\ngroup {}\nimport {}\nblocks {}\nrecords {}\nobjects {}",
        listed.name.as_str(),
        listed.guid,
        listed.group.0,
        listed.import_number,
        listed.blocks,
        listed.records,
        listed.objects.len()
    )
}

// Writes a line for each object.
fn write_objects<W: Write>(objects: &[(ObjectId, u64)], out: &mut W) -> Result<(), Failure>
    ensures written { OnOk result (Appends (W.contents out.old) (W.contents out.new)
        (object_lines objects.now)) }
    ensures failed { IfErr result (λ failure. failure ≡ Failure.Unwritten) }
{
    for object in objects {
        let Ok(()) = writeln!(out, "{} {}", object.0.0, object.1) else {
            return Err(Failure::Unwritten);
        };
    }
    Ok(())
}
