//! The command `copy` on the files of the pools.
//!
//! 1. The new file is made once the old one has a pool, by a call of the system that refuses a file that is there.
//! 2. Unless the copy came to its end and its lines were written, the new file is removed.

ghost use Rattle.std.specs.Prelude.{◌≡◌, ◌≢◌, ◌≤◌, IfErr, IfOk, IfSome, IsErr, IsSome, IsTrue, false};
ghost use Rattle.base.specs.disk.Disk.{bytes_of};
ghost use Rattle.base.specs.formats.Geometry.{is_geometry};
ghost use Rattle.base.specs.history.Contents.{Contents};
ghost use Rattle.base.specs.tree.Mount.{MountsTo};
ghost use Rattle.object_views.specs.PoolNames.{name_of};
ghost use Rattle.object_views.specs.PoolPaths.{AreFoundOn, ArePathsOf};
ghost use Rattle.read_commands.specs.Checks.{IsOnlyRead, StaysOpened};
ghost use Rattle.read_commands.specs.Failures.{sector_bytes};
ghost use Rattle.copies.specs.NewPools.{IsCopy};
ghost use Rattle.copies.specs.Statuses.{CopiesOf, IsCopied, IsCopyFailure, IsPartlyCopied, IsFailureOf, IsStopFailure};

use crate::copying::{NewPool, copy_into};
use crate::stop::Stop;
use base::{PoolError, SECTOR_SIZE};
use command_arguments::{CopyArguments, Options};
use device_model::SectorDevice;
use file_devices::{FileRefusal, HeldFile};
use labels::{Geometry, LABEL_SIZE, MAX_SIZE, MIN_SIZE};
use object_views::{PoolPaths, find_paths};
use read_commands::{
    Failure, NewFile, NotesRefusals, ShownDevice, ShownWork, report_failure, report_refusal,
};
use script_lines::REFUSED;
use std::fmt;
use std::fs::{self, File};
use std::io::{self, Eprint, Write};
use std::os::unix::fs::FileExt;
use std::rt::{Clock, Files};
use std::sync::Wait;

/// Copies what can be read of the pool in a file into a new pool in a new file, and returns the exit status. The old
/// file was opened by the caller, and is only read: it makes no write and no flush, whatever is returned.
///
/// The status is 0 if all was copied. It is 1 if the engine refused it; then there is no new file. It is 1, too, if a
/// damage kept something from the copy that was to be passed over. Then `out` has a line for it. The status is 3 if the
/// old file was not opened as a device, if the new one is there already or can't be made, or if `out` can't be written;
/// then there is no new file of this call. A failure is reported on `errors`. What is read of the new file and written to
/// it is added to `work`.
pub fn run_copy<
    R: Files + Wait + Eprint + AllocGlobal + Clock,
    D: SectorDevice + NotesRefusals,
    W: Write,
    E: Write,
>(
    rt: &R,
    arguments: CopyArguments<'_>,
    options: Options,
    work: &ShownWork<'_, R>,
    opened: &mut Result<D, FileRefusal>,
    out: &mut W,
    errors: &mut E,
) -> u8
where
    R::File: FileExt + HeldFile,
    ensures only_read { StaysOpened D.SectorDevice opened.old opened.new }
    ensures unusable { IsErr opened.old → result ≡ 3 }
    ensures size { IfOk opened.old (λ _. IfSome arguments.entry.size
        (λ size. is_geometry (sector_bytes size) ≡ false → result ≡ 1)) }
    ensures copied { result ≡ 0 → IfOk opened.old (λ device. IsCopied D.SectorDevice device
        arguments.entry.skips_damaged (W.contents out.old) (W.contents out.new)) }
    ensures told { result ≡ 1 → IfOk opened.old (λ device. IsPartlyCopied D.SectorDevice device
        arguments.entry.skips_damaged (W.contents out.old) (W.contents out.new)) }
    ensures range { result ≤ 3 }
    ensures no_usage { result ≢ 2 }
{
    let verbosity = options.verbosity;
    let old = match opened {
        Ok(device) => device,
        Err(cause) => {
            return report_failure(Failure::Unusable(*cause), arguments.old, verbosity, errors);
        }
    };
    if let Some(size) = bad_size(arguments.size) {
        return report_refusal(PoolError::BadGeometry, &size, verbosity, errors);
    }
    match copy_found(rt, arguments, work, old, out) {
        Ok(true) => 0,
        Ok(false) => REFUSED,
        Err(failure) => report_failure(failure, arguments.new, verbosity, errors),
    }
}

/// A size that no pool may have. As text it is the size and its limits.
#[derive(Clone, Copy)]
struct BadSize(u64);

impl fmt::Display for BadSize {
    fn fmt<W: fmt::Write>(&self, f: &mut fmt::Formatter<W>) -> fmt::Result {
        write!(
            f,
            "size {}: {MIN_SIZE} to {MAX_SIZE} bytes in steps of {LABEL_SIZE}",
            self.0
        )
    }
}

// The size that was given, if no pool may have it.
fn bad_size(size: Option<u64>) -> Option<BadSize>
    ensures { IfSome size (λ bytes. is_geometry (sector_bytes bytes) ≡ false → IsSome result) }
{
    match size {
        Some(size) if Geometry::of(size / SECTOR_SIZE).is_err() => Some(BadSize(size)),
        _ => None,
    }
}

// Finds the pool on the old device, and copies what can be read of it. Returns whether that was all.
fn copy_found<
    R: Files + Wait + Eprint + AllocGlobal + Clock,
    D: SectorDevice + NotesRefusals,
    W: Write,
>(
    rt: &R,
    arguments: CopyArguments<'_>,
    work: &ShownWork<'_, R>,
    old: &mut D,
    out: &mut W,
) -> Result<bool, Failure>
where
    R::File: FileExt + HeldFile,
    ensures reads { IsOnlyRead D.SectorDevice old.old old.new }
    ensures copied { IfOk result (λ whole. CopiesOf D.SectorDevice old.old
        arguments.entry.skips_damaged whole (W.contents out.old) (W.contents out.new)) }
    ensures failed { IfErr result (IsCopyFailure D.keeps_model (D.disk old.old)
        arguments.entry.skips_damaged) }
{
    match find_paths(rt.alloc(), old) {
        Ok(paths) => copy_to_file(rt, arguments, work, &paths, old, out),
        Err(refusal) => Err(Failure::of_pool(refusal, old)),
    }
}

// Makes the new file, and copies into it what can be read. The file is removed unless that came to its end.
fn copy_to_file<
    R: Files + Wait + Eprint + AllocGlobal + Clock,
    D: SectorDevice + NotesRefusals,
    W: Write,
>(
    rt: &R,
    arguments: CopyArguments<'_>,
    work: &ShownWork<'_, R>,
    paths: &PoolPaths,
    old: &mut D,
    out: &mut W,
) -> Result<bool, Failure>
where
    R::File: FileExt + HeldFile,
    requires fits { AreFoundOn (D.size old.old) paths.now }
    requires paths { IsTrue D.keeps_model → ArePathsOf (bytes_of (D.disk old.old).now) paths.now }
    ensures reads { IsOnlyRead D.SectorDevice old.old old.new }
    ensures copied { IfOk result (λ whole. CopiesOf D.SectorDevice old.old
        arguments.entry.skips_damaged whole (W.contents out.old) (W.contents out.new)) }
    ensures failed { IfErr result (IsCopyFailure D.keeps_model (D.disk old.old)
        arguments.entry.skips_damaged) }
{
    match make_file(rt, arguments.new) {
        Ok(_) => {}
        Err(cause) => return Err(Failure::Unusable(FileRefusal::System(cause))),
    }
    let copied = copy_in_file(rt, arguments, work, paths, old, out);
    if copied.is_err() {
        let _ = fs::remove_file(rt, arguments.new);
    }
    copied
}

// Makes a file at a path where there is nothing.
fn make_file<R: Files>(files: &R, path: &str) -> io::Result<R::File> {
    let mut how = File::options();
    how.read(true).write(true).create_new(true);
    how.open(files, path)
}

// Copies what can be read into the new file, which has no byte yet. The file is closed then.
fn copy_in_file<
    R: Files + Wait + Eprint + AllocGlobal + Clock,
    D: SectorDevice + NotesRefusals,
    W: Write,
>(
    rt: &R,
    arguments: CopyArguments<'_>,
    work: &ShownWork<'_, R>,
    paths: &PoolPaths,
    old: &mut D,
    out: &mut W,
) -> Result<bool, Failure>
where
    R::File: FileExt + HeldFile,
    requires fits { AreFoundOn (D.size old.old) paths.now }
    requires paths { IsTrue D.keeps_model → ArePathsOf (bytes_of (D.disk old.old).now) paths.now }
    ensures reads { IsOnlyRead D.SectorDevice old.old old.new }
    ensures copied { IfOk result (λ whole. CopiesOf D.SectorDevice old.old
        arguments.entry.skips_damaged whole (W.contents out.old) (W.contents out.new)) }
    ensures failed { IfErr result (IsCopyFailure D.keeps_model (D.disk old.old)
        arguments.entry.skips_damaged) }
{
    let file = NewFile {
        path: arguments.new,
        size: arguments.size.unwrap_or(old.sectors() * SECTOR_SIZE),
        only_new: false,
    };
    let new = match file.create_within(rt, 0) {
        Ok(new) => ShownDevice::new(new, work),
        Err(cause) => return Err(Failure::Unusable(cause)),
    };
    let (copied, _) = copy_on(rt, arguments, paths, old, new, out);
    copied
}

/// Copies what can be read of the pool of these paths on the old device into a new pool on another one, with the name that
/// is mounted of the old one. Returns whether that was all, and the new device, with the pool closed.
pub(crate) fn copy_on<
    R: Wait + AllocGlobal,
    D: SectorDevice + NotesRefusals,
    N: SectorDevice + NotesRefusals + Drop,
    W: Write,
>(
    rt: &R,
    arguments: CopyArguments<'_>,
    paths: &PoolPaths,
    old: &mut D,
    new: N,
    out: &mut W,
) -> (Result<bool, Failure>, N)
    requires fits { AreFoundOn (D.size old.old) paths.now }
    requires paths { IsTrue D.keeps_model → ArePathsOf (bytes_of (D.disk old.old).now) paths.now }
    ensures reads { IsOnlyRead D.SectorDevice old.old old.new }
    ensures copied { IfOk result.0 (λ whole. IsCopy N.SectorDevice D.keeps_model (D.disk old.old)
        (name_of paths.now) arguments.entry.skips_damaged whole result.1
        (W.contents out.old) (W.contents out.new)) }
    ensures named { IsTrue D.keeps_model → (contents : Contents)
        → MountsTo (bytes_of (D.disk old.old).now) contents → name_of paths.now ≡ contents.name }
    ensures failed { IfErr result.0 (IsStopFailure D.keeps_model (D.disk old.old)
        arguments.entry.skips_damaged) }
{
    let pool = NewPool {
        name: paths.name(),
        guid: arguments.guid,
        moment: arguments.moment,
    };
    let (end, new) = copy_into(rt, paths, pool, arguments.skips_damaged, old, new, out);
    match end {
        Ok(is_whole) => (Ok(is_whole), new),
        Err(stop) => (Err(failure_of(stop, old, &new)), new),
    }
}

// The failure of a copy that ended before its end, with the call that a device refused, if it was for that.
fn failure_of<D: NotesRefusals, N: NotesRefusals>(stop: Stop, old: &D, new: &N) -> Failure
    ensures { IsFailureOf stop result }
{
    match stop {
        Stop::Old(refusal) => Failure::of_pool(refusal, old),
        Stop::New(refusal) => Failure::of_pool(refusal, new),
        Stop::Unwritten => Failure::Unwritten,
    }
}
