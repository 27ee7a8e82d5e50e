//! The command `get`: the bytes of an object of the pool in a file, as an import would mount them. It only reads.

ghost use Rattle.std.specs.Io.KnownBytes.{Appends};
ghost use Rattle.std.specs.Prelude.{◌≡◌, ◌≢◌, ◌≤◌, Err, IfErr, IfOk, IsErr, IsOk, IsOkAnd, IsTrue, OnOk};
ghost use Rattle.base.specs.disk.Disk.{bytes_of};
ghost use Rattle.read_commands.specs.Checks.{StaysOpened};
ghost use Rattle.read_commands.specs.PathReads.{IsCheckedRange};
ghost use Rattle.read_commands.specs.ReadScopes.{WritesRange};
ghost use Rattle.read_commands.specs.Reads.{IsMountedRange, asked_range};
ghost use Rattle.read_commands.specs.Scopes.{IsAssured};
ghost use Rattle.read_commands.specs.Undone.{GetsUndone, IsGetRefused, IsLookFailure};

use crate::bad_number::BadNumber;
use crate::failure::{Failure, NotesRefusals, report_failure};
use crate::ranges::read_object;
use base::{Bytes, MAX_LENGTH, ObjectId, Range};
use command_arguments::{GetArguments, Scope, Verbosity};
use device_model::SectorDevice;
use file_devices::FileRefusal;
use std::alloc::Global;
use std::io::Write;

/// Writes to `out` the bytes of an object of the pool in a file, and nothing else. Returns the exit status, and what
/// was opened. It only reads the file: it makes no write and no flush, whatever it returns. If the scope is a path, it
/// reads the blocks that lead to these bytes alone, and finds no damage of another.
///
/// The status is 0 if all was written. It is 1 if the engine refused it, as it does if there is no such object, and 3
/// if the file was not opened as a device or `out` can't be written. A failure is reported on `errors`. Nothing is
/// written to `out` if a block can't be read.
pub fn run_get<D: SectorDevice + NotesRefusals, W: Write, E: Write>(
    alloc: Global,
    arguments: GetArguments<'_>,
    scope: Scope,
    verbosity: Verbosity,
    opened: Result<D, FileRefusal>,
    out: &mut W,
    errors: &mut E,
) -> (u8, Result<D, FileRefusal>)
    ensures only_read { StaysOpened D.SectorDevice opened result.1 }
    ensures unusable { IsErr opened → result.0 ≡ 3 }
    ensures written { result.0 ≡ 0 → IfOk opened (λ device.
        WritesRange scope (IsTrue D.keeps_model) (bytes_of (D.disk device).now)
        arguments.entry.object (asked_range arguments.entry)
        (W.contents out.old) (W.contents out.new)) }
    ensures undone { result.0 ≢ 0 → GetsUndone D.SectorDevice scope arguments.entry.object
        (asked_range arguments.entry) opened result.1 result.0 }
    ensures unprinted { result.0 ≡ 1 → W.contents out.new ≡ W.contents out.old }
    ensures range { result.0 ≤ 3 }
    ensures no_usage { result.0 ≢ 2 }
{
    let (read, opened) = get_bytes(alloc, arguments, scope, opened);
    match write_read(read, out) {
        Ok(()) => (0, opened),
        Err(failure) => (
            report_failure(failure, arguments.file, verbosity, errors),
            opened,
        ),
    }
}

// Writes the bytes that were read, if they were.
fn write_read<W: Write>(read: Result<Bytes, Failure>, out: &mut W) -> Result<(), Failure>
    ensures written { OnOk result
        (IsOkAnd read (Appends (W.contents out.old) (W.contents out.new))) }
    ensures failed { IfErr read (λ failure. result ≡ Err failure) }
    ensures unwritten { IsOk read → IfErr result (λ failure. failure ≡ Failure.Unwritten) }
    ensures unprinted { IsErr read → W.contents out.new ≡ W.contents out.old }
{
    let bytes = match read {
        Ok(bytes) => bytes,
        Err(failure) => return Err(failure),
    };
    match out.write_all(bytes.as_slice()) {
        Ok(()) => Ok(()),
        Err(_) => Err(Failure::Unwritten),
    }
}

fn get_bytes<D: SectorDevice + NotesRefusals>(
    alloc: Global,
    arguments: GetArguments<'_>,
    scope: Scope,
    opened: Result<D, FileRefusal>,
) -> (Result<Bytes, Failure>, Result<D, FileRefusal>)
    ensures only_read { StaysOpened D.SectorDevice opened result.1 }
    ensures unusable { IfErr opened (λ cause. result.0 ≡ Err (Failure.Unusable cause)) }
    ensures bytes { IfOk opened (λ device. IsAssured scope (IsTrue D.keeps_model)
        (bytes_of (D.disk device).now) → IfOk result.0
        (IsMountedRange (bytes_of (D.disk device).now) arguments.entry.object
        (asked_range arguments.entry))) }
    ensures checked { IfOk opened (λ device. scope ≡ Scope.Path → IsTrue D.keeps_model
        → IfOk result.0 (IsCheckedRange (bytes_of (D.disk device).now)
        arguments.entry.object (asked_range arguments.entry))) }
    ensures failed { IfErr result.0 (IsLookFailure (IsGetRefused D.SectorDevice scope
        arguments.entry.object (asked_range arguments.entry)) opened result.1) }
{
    let device = match opened {
        Ok(device) => device,
        Err(cause) => return (Err(Failure::Unusable(cause)), Err(cause)),
    };
    let object = ObjectId(arguments.object);
    let (read, device) = read_object(alloc, scope, device, object, range_of(&arguments));
    match read {
        Ok(bytes) => (Ok(bytes), Ok(device)),
        Err(refusal) => {
            let failure = Failure::of_pool(refusal, &device).for_number(bad_number(&arguments));
            (Err(failure), Ok(device))
        }
    }
}

// The first number of a read that is outside its limits.
fn bad_number(arguments: &GetArguments<'_>) -> Option<BadNumber> {
    let object = BadNumber::of_object(arguments.object);
    if object.is_some() {
        object
    } else if arguments.offset >= MAX_LENGTH {
        Some(BadNumber::Offset(arguments.offset))
    } else if arguments.length == Some(0) {
        Some(BadNumber::NoLength)
    } else {
        None
    }
}

// The range that is asked for, up to the last byte that an object may have. It has no byte if the offset is there or
// above it.
fn range_of(arguments: &GetArguments<'_>) -> Range
    ensures { result ≡ asked_range arguments.now }
{
    let high = match arguments.length {
        Some(length) => arguments.offset.saturating_add(length).min(MAX_LENGTH),
        None => MAX_LENGTH,
    };
    Range {
        low: arguments.offset,
        high,
    }
}
