//! The command `create`: a new pool in a file.
//!
//! The size is tested first, then the name, and only then the file is opened. So the file is unchanged if either is
//! refused: a file is opened for a `NewPool`, which only these tests make.

ghost use Rattle.std.specs.Io.KnownBytes.{Appends};
ghost use Rattle.std.specs.Prelude.{◌≡◌, ◌≢◌, ◌≤◌, false, IfErr, IfOk, OnOk};
ghost use Rattle.base.specs.formats.Geometry.{block_count, is_geometry};
ghost use Rattle.base.specs.formats.Names.{is_name};
ghost use Rattle.commands.specs.NewPools.{CreatesOn};
ghost use Rattle.import_replay.specs.CreateRefusals.{CanCreate};
ghost use Rattle.read_commands.specs.Failures.{IsNewPoolRefusal, failure_status, sector_bytes};
ghost use Rattle.read_commands.specs.PoolLines.{created_line};

use base::{MAX_NAME, PoolError, PoolName};
use command_arguments::{CreateArguments, Options, Verbosity};
use device_model::SectorDevice;
use file_devices::HeldFile;
use import_replay::create;
use labels::{Geometry, LABEL_SIZE, MAX_SIZE, MIN_SIZE, SECTOR_SIZE};
use read_commands::{
    Failure, FileName, NewFile, NotesRefusals, Quoted, ShownDevice, ShownWork, report_failure,
    report_refusal,
};
use std::fmt;
use std::io::{Eprint, Write};
use std::os::unix::fs::FileExt;
use std::rt::{Clock, Files};
use std::sync::Wait;

/// Makes a pool in a file, writes a line with its name and the number of its blocks to `out`, and returns the exit
/// status.
///
/// The status is 0 if the pool was made. It is 1 if the engine refused it; then nothing is written. It is 3 if the file
/// can't be used or `out` can't be written. A failure is reported on `errors`. A file can't be used if it is neither a
/// regular file nor a block device of this size, can't be opened, made or resized, is open as a pool in this or another
/// process after the seconds of the options, or exists though only a new one will do. What is read and written is added
/// to `work`.
pub fn run_create<R: Files + Wait + Eprint + Clock, W: Write, E: Write>(
    rt: &R,
    arguments: CreateArguments<'_>,
    options: Options,
    work: &ShownWork<'_, R>,
    out: &mut W,
    errors: &mut E,
) -> u8
where
    R::File: FileExt + HeldFile,
    ensures size { is_geometry (sector_bytes arguments.entry.size) ≡ false → result ≡ 1 }
    ensures name { is_name arguments.entry.name.now ≡ false → result ≡ 1 }
    ensures created { result ≡ 0 → Appends (W.contents out.old) (W.contents out.new)
        (created_line arguments.entry.name.now (block_count (sector_bytes arguments.entry.size))) }
    ensures unprinted { result ≡ 1 → W.contents out.new ≡ W.contents out.old }
    ensures range { result ≤ 3 }
    ensures no_usage { result ≢ 2 }
{
    make_in_file(rt, arguments, options, Replaced::Nothing, work, out, errors)
}

/// What a new pool replaces in its file, if standard error is to be told of it.
#[derive(Clone, Copy)]
pub(crate) enum Replaced {
    /// Nothing that is told.
    Nothing,
    /// A pool.
    Pool,
}

/// Makes a pool in a file as `run_create` does. If it replaces a pool, `errors` has a line that says so, once the file is
/// open and has its size: a pool that can't be made replaces none.
pub(crate) fn make_in_file<R: Files + Wait + Eprint + Clock, W: Write, E: Write>(
    rt: &R,
    arguments: CreateArguments<'_>,
    options: Options,
    replaced: Replaced,
    work: &ShownWork<'_, R>,
    out: &mut W,
    errors: &mut E,
) -> u8
where
    R::File: FileExt + HeldFile,
    ensures size { is_geometry (sector_bytes arguments.entry.size) ≡ false → result ≡ 1 }
    ensures name { is_name arguments.entry.name.now ≡ false → result ≡ 1 }
    ensures created { result ≡ 0 → Appends (W.contents out.old) (W.contents out.new)
        (created_line arguments.entry.name.now (block_count (sector_bytes arguments.entry.size))) }
    ensures unprinted { result ≡ 1 → W.contents out.new ≡ W.contents out.old }
    ensures range { result ≤ 3 }
    ensures no_usage { result ≢ 2 }
{
    let pool = match NewPool::new(arguments) {
        Ok(pool) => pool,
        Err(refusal) => {
            let cause = RefusedPool { refusal, arguments };
            return report_refusal(refusal, &cause, options.verbosity, errors);
        }
    };
    match pool.file.create_within(rt, options.wait) {
        Ok(device) => {
            report_replaced(replaced, arguments.file, errors);
            let shown = ShownDevice::new(device, work);
            let (status, _) = create_on(&pool, arguments, options.verbosity, shown, out, errors);
            status
        }
        Err(cause) => {
            let failure = Failure::Unusable(cause);
            report_failure(failure, arguments.file, options.verbosity, errors)
        }
    }
}

// Says on `errors` that a file's pool is replaced, if it is.
fn report_replaced<E: Write>(replaced: Replaced, file: &str, errors: &mut E) {
    if matches!(replaced, Replaced::Pool) {
        let file = FileName(file);
        let _ = writeln!(errors, "ztxg: {file} has a pool, which is replaced");
    }
}

/// Makes a pool on the device of its file, writes its line, and returns the exit status and the device.
///
/// If the status is not 1, the pool is on the device, whatever a crash leaves of it then.
pub(crate) fn create_on<D: SectorDevice + NotesRefusals + Drop, W: Write, E: Write>(
    pool: &NewPool<'_>,
    arguments: CreateArguments<'_>,
    verbosity: Verbosity,
    device: D,
    out: &mut W,
    errors: &mut E,
) -> (u8, D)
    ensures created { result.0 ≡ 0 → Appends (W.contents out.old) (W.contents out.new)
        (created_line arguments.entry.name.now (block_count pool.now.geometry)) }
    ensures made { result.0 ≢ 1 → CreatesOn D.SectorDevice pool.now.name pool.now.guid
        pool.now.moment device result.1 }
    ensures unprinted { result.0 ≡ 1 → W.contents out.new ≡ W.contents out.old }
    ensures range { result.0 ≤ 3 }
    ensures no_usage { result.0 ≢ 2 }
{
    let device = match pool.make(device) {
        Ok(device) => device,
        Err((failure, device)) => {
            let status = report_failure(failure, arguments.file, verbosity, errors);
            return (status, device);
        }
    };
    let (name, blocks) = (arguments.name, pool.geometry.blocks());
    match writeln!(out, "created {name} {blocks} blocks") {
        Ok(()) => (0, device),
        Err(_) => {
            let status = report_failure(Failure::Unwritten, arguments.file, verbosity, errors);
            (status, device)
        }
    }
}

/// What was given for a new pool, and was refused so. As text it is what of it is outside its limits.
#[derive(Clone, Copy)]
struct RefusedPool<'a> {
    refusal: PoolError,
    arguments: CreateArguments<'a>,
}

impl fmt::Display for RefusedPool<'_> {
    fn fmt<W: fmt::Write>(&self, f: &mut fmt::Formatter<W>) -> fmt::Result {
        match self.refusal {
            PoolError::BadGeometry => write!(
                f,
                "size {}: {MIN_SIZE} to {MAX_SIZE} bytes in steps of {LABEL_SIZE}",
                self.arguments.size
            ),
            PoolError::BadRange => write!(
                f,
                "name {}: 1 to {MAX_NAME} bytes, first a letter, then letters, digits, - _ .",
                Quoted(self.arguments.name)
            ),
            other => write!(f, "{other}"),
        }
    }
}

/// A pool that is to be made, whose size and name were tested.
#[derive(Drop)]
pub(crate) struct NewPool<'a> {
    // its size may end with a part of a sector
    file: NewFile<'a>,
    geometry: Geometry,
    name: PoolName,
    guid: u64,
    moment: u64,
}

impl<'a> NewPool<'a> {
    /// What was given for it. The size is tested first, then the name.
    pub(crate) fn new(arguments: CreateArguments<'a>) -> Result<Self, PoolError>
        ensures tested { OnOk result
            (CanCreate (sector_bytes arguments.entry.size) arguments.entry.name.now) }
        ensures geometry { IfOk result
            (λ pool. pool.geometry ≡ sector_bytes arguments.entry.size) }
        ensures given { IfOk result (λ pool. (pool.name ≡ arguments.entry.name.now)
            × (pool.guid ≡ arguments.entry.guid) × (pool.moment ≡ arguments.entry.moment)) }
        ensures refused { IfErr result
            (IsNewPoolRefusal arguments.entry.size arguments.entry.name.now) }
    {
        let geometry = Geometry::of(arguments.size / SECTOR_SIZE)?;
        let Some(name) = PoolName::new(arguments.name.as_bytes()) else {
            return Err(PoolError::BadRange);
        };
        Ok(NewPool {
            file: NewFile {
                path: arguments.file,
                size: arguments.size,
                only_new: arguments.only_new,
            },
            geometry,
            name,
            guid: arguments.guid,
            moment: arguments.moment,
        })
    }

    // Makes the pool on the file's device.
    fn make<D: SectorDevice + NotesRefusals + Drop>(&self, device: D) -> Result<D, (Failure, D)>
        ensures made { IfOk result (CreatesOn D.SectorDevice self.now.name self.now.guid
            self.now.moment device) }
        ensures refused { IfErr result (λ e. failure_status e.0 ≡ 1) }
    {
        match create(device, self.name.as_slice(), self.guid, self.moment) {
            Ok(device) => Ok(device),
            Err((refusal, device)) => Err((Failure::of_pool(refusal, &device), device)),
        }
    }
}
