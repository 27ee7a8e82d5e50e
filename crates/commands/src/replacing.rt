//! The command `create` on a file that may have a pool already.
//!
//! 1. With `--size` a pool that is there is replaced with `--force` alone. With a name, a guid and a size it is
//!    replaced, and standard error says so once the file has its size, before the first write.
//! 2. A file has a pool if a check finds one or a damage, or if a label has a config. In a file of a size that no pool
//!    may have only the first label is looked at: a pool's file may have been cut or lengthened. If the file can't be
//!    read, nobody knows: with `--size` the command is refused so, and else nothing is said of a pool.
//! 3. The file's lock is released between this test and the making. A file that wasn't there is made as a new one, so
//!    none is replaced that came meanwhile.

ghost use Rattle.std.specs.Io.KnownBytes.{Appends};
ghost use Rattle.std.specs.Option.{option_copied};
ghost use Rattle.std.specs.Prelude.{ℕ, ◌≡◌, ◌≢◌, ◌≤◌, IfErr, IfOk, IsTrue, Ok, false, true};
ghost use Rattle.base.specs.disk.Disk.{bytes_of};
ghost use Rattle.base.specs.formats.Geometry.{IsGeometry, block_count, is_geometry};
ghost use Rattle.base.specs.formats.Labels.{Config};
ghost use Rattle.base.specs.formats.Names.{is_name};
ghost use Rattle.commands.specs.Replaced.{HasFirstConfig, HasNoConfigs, IsFree, IsLookRefusal, is_config, name_of_file, new_name, some_config};
ghost use Rattle.labels.specs.Configs.{IsConfigBlock};
ghost use Rattle.read_commands.specs.Checks.{IsCheckRefusal};
ghost use Rattle.read_commands.specs.Failures.{sector_bytes};
ghost use Rattle.read_commands.specs.PoolLines.{created_line};

use crate::pool_files::{Replaced, make_in_file, run_create};
use base::{BLOCK_SIZE, PoolError, PoolName, read_u64};
use command_arguments::{CreateArguments, Options, SizedArguments, Verbosity};
use device_model::SectorDevice;
use file_devices::{Access, FileRefusal, HeldFile};
use labels::{Geometry, LabelConfig, SECTOR_SIZE};
use read_commands::{
    ConfigState, Failure, FileName, Finding, LabelState, ShownDevice, ShownWork, check_pool,
    open_within, read_states, report_failure,
};
use std::alloc::Global;
use std::io::{Eprint, ErrorKind, Write};
use std::os::unix::fs::FileExt;
use std::path::Path;
use std::rt::{Clock, Files};
use std::sync::Wait;

/// The name of a pool whose file has a name that no pool may have.
const OTHER_NAME: &str = "pool";

/// Where the first label has its config, on a device of whatever size.
const FIRST_CONFIG_AT: u64 = 16_384;

/// How many sectors a device has at least that has it.
const FIRST_CONFIG_SECTORS: u64 = 40;

/// Where the block of a config has the size of its device.
const SIZE_AT: usize = 72;

/// Makes a pool in a file as `run_create` does. If the file has a pool that is replaced, `errors` has a line that says so
/// before, unless it is to be quiet. What is read and written is added to `work`. Returns the exit status.
pub fn run_create_over<R: Files + Wait + AllocGlobal + Eprint + Clock, W: Write, E: Write>(
    rt: &R,
    arguments: CreateArguments<'_>,
    options: Options,
    work: &ShownWork<'_, R>,
    out: &mut W,
    errors: &mut E,
) -> u8
where
    R::File: FileExt + HeldFile,
    ensures size { is_geometry (sector_bytes arguments.entry.size) ≡ false → result ≡ 1 }
    ensures name { is_name arguments.entry.name.now ≡ false → result ≡ 1 }
    ensures created { result ≡ 0 → Appends (W.contents out.old) (W.contents out.new)
        (created_line arguments.entry.name.now (block_count (sector_bytes arguments.entry.size))) }
    ensures unprinted { result ≡ 1 → W.contents out.new ≡ W.contents out.old }
    ensures range { result ≤ 3 }
    ensures no_usage { result ≢ 2 }
{
    if may_warn(&arguments, options.verbosity) {
        let (replaced, options) = look_for_pool(rt, arguments.file, options, work);
        make_in_file(rt, arguments, options, replaced, work, out, errors)
    } else {
        run_create(rt, arguments, options, work, out, errors)
    }
}

// Whether a pool may be replaced that standard error is to tell of.
fn may_warn(arguments: &CreateArguments<'_>, verbosity: Verbosity) -> bool {
    matches!(verbosity, Verbosity::WithCause)
        && !arguments.only_new
        && is_possible(arguments.size, arguments.name)
}

// Whether a file has a pool, and what is left of the options: it isn't waited for a file twice.
fn look_for_pool<R: Files + Wait + AllocGlobal + Eprint + Clock>(
    rt: &R,
    file: &str,
    options: Options,
    work: &ShownWork<'_, R>,
) -> (Replaced, Options)
where
    R::File: FileExt + HeldFile,
{
    match find_held(rt, file, options.wait, work) {
        Ok(Held::Pool) => (Replaced::Pool, options),
        Err(Failure::Unusable(FileRefusal::InUse)) => {
            let options = Options {
                verbosity: options.verbosity,
                wait: 0,
            };
            (Replaced::Nothing, options)
        }
        _ => (Replaced::Nothing, options),
    }
}

/// Makes a pool in a file as `run_create` does, unless the file has a pool: that is replaced with `force` alone. If no
/// name is given, the pool's is the file's own, without what follows its last point, or `pool` if that is none. Returns
/// the exit status.
///
/// Beside those of `run_create` the status is 3 if the file has a pool, be it damaged, and `force` isn't given; the
/// cause says so, and the file is unchanged. So it is if the device refuses to be read before, with the status 1. A file
/// that isn't there is made as a new one.
pub fn run_create_sized<R: Files + Wait + AllocGlobal + Eprint + Clock, W: Write, E: Write>(
    rt: &R,
    arguments: SizedArguments<'_>,
    options: Options,
    work: &ShownWork<'_, R>,
    out: &mut W,
    errors: &mut E,
) -> u8
where
    R::File: FileExt + HeldFile,
    ensures size { is_geometry (sector_bytes arguments.entry.size) ≡ false → result ≡ 1 }
    ensures name { is_name (new_name (option_copied arguments.entry.name)
        arguments.entry.file.now) ≡ false → result ≡ 1 }
    ensures created { result ≡ 0 → Appends (W.contents out.old) (W.contents out.new)
        (created_line (new_name (option_copied arguments.entry.name) arguments.entry.file.now)
        (block_count (sector_bytes arguments.entry.size))) }
    ensures unprinted { result ≡ 1 → W.contents out.new ≡ W.contents out.old }
    ensures range { result ≤ 3 }
    ensures no_usage { result ≢ 2 }
{
    let name = new_name(arguments.name, arguments.file);
    let create = CreateArguments {
        file: arguments.file,
        name,
        guid: arguments.guid,
        size: arguments.size,
        only_new: arguments.only_new,
        moment: arguments.moment,
    };
    if arguments.force || arguments.only_new || !is_possible(arguments.size, name) {
        return run_create(rt, create, options, work, out, errors);
    }
    match find_held(rt, arguments.file, options.wait, work) {
        Ok(Held::Pool) => report_pool(arguments.file, options.verbosity, errors),
        Ok(Held::NoPool) => run_create(rt, create, options, work, out, errors),
        Ok(Held::NoFile) => run_create(rt, only_as_new(create), options, work, out, errors),
        Err(failure) => report_failure(failure, arguments.file, options.verbosity, errors),
    }
}

// The same, but a file that exists by then is refused.
fn only_as_new(arguments: CreateArguments<'_>) -> CreateArguments<'_>
    ensures name { result.name ≡ arguments.entry.name }
    ensures size { result.size ≡ arguments.entry.size }
    ensures only_new { result.only_new ≡ true }
{
    CreateArguments {
        only_new: true,
        ..arguments
    }
}

/// Reports that a file has a pool, and how that is replaced. Returns the exit status.
pub(crate) fn report_pool<E: Write>(file: &str, verbosity: Verbosity, errors: &mut E) -> u8
    ensures { result ≡ 3 }
{
    let file = FileName(file);
    let _ = writeln!(errors, "ztxg: cannot use {file}");
    if matches!(verbosity, Verbosity::WithCause) {
        let _ = writeln!(
            errors,
            "ztxg: cause: it has a pool, which is replaced with --force alone"
        );
    }
    3
}

// Whether a pool may have this size and this name.
fn is_possible(size: u64, name: &str) -> bool
    ensures size { is_geometry (sector_bytes size) ≡ false → result ≡ false }
    ensures name { is_name name.now ≡ false → result ≡ false }
{
    Geometry::of(size / SECTOR_SIZE).is_ok() && is_name(name)
}

// Whether a pool may have this name.
fn is_name(name: &str) -> bool
    ensures { result ≡ is_name name.now }
{
    PoolName::new(name.as_bytes()).is_some()
}

// The name of a new pool: the one that is given, or that of its file.
fn new_name<'a>(name: Option<&'a str>, file: &'a str) -> &'a str
    ensures { result.now ≡ new_name (option_copied name.entry) file.now }
{
    match name {
        Some(name) => name,
        None => name_of_file(file),
    }
}

// The file's own name, without what follows its last point, if a pool may have it.
fn name_of_file(path: &str) -> &str
    ensures { result.now ≡ name_of_file path.now }
{
    match Path::new(path).file_stem() {
        Some(stem) if is_name(stem) => stem,
        _ => OTHER_NAME,
    }
}

// What is where a new pool is to be made.
#[derive(Clone, Copy)]
enum Held {
    NoFile,
    NoPool,
    Pool,
}

// What is at a path, or why that isn't known. The file is opened as for a new pool, so none is found that can't be
// replaced. Its lock is released before it returns.
fn find_held<R: Files + Wait + AllocGlobal + Eprint + Clock>(
    rt: &R,
    path: &str,
    wait: u32,
    work: &ShownWork<'_, R>,
) -> Result<Held, Failure>
where
    R::File: FileExt + HeldFile,
{
    match open_within(rt, path, Access::Write, wait) {
        Ok(device) => {
            let mut shown = ShownDevice::new(device, work);
            match has_pool(rt.alloc(), &mut shown) {
                Ok(true) => Ok(Held::Pool),
                Ok(false) => Ok(Held::NoPool),
                Err(refusal) => Err(Failure::of_pool(refusal, &shown)),
            }
        }
        Err(FileRefusal::System(error)) if error.kind() == ErrorKind::NotFound => Ok(Held::NoFile),
        Err(cause) => Err(Failure::Unusable(cause)),
    }
}

/// Whether a device has a pool, be it damaged. It makes no write and no flush.
///
/// # Errors
/// `NoMemory` and `Read` when they happen: then it isn't known.
pub(crate) fn has_pool<D: SectorDevice>(alloc: Global, device: &mut D) -> Result<bool, PoolError>
    ensures unchanged { IsTrue D.keeps_model → D.disk device.new ≡ D.disk device.old }
    ensures free { result ≡ Ok false → IsTrue D.keeps_model → IsGeometry (D.size device.old)
        → IsFree (bytes_of (D.disk device.old).now) }
    ensures no_label { result ≡ Ok false → IsTrue D.keeps_model
        → (IsGeometry (D.size device.old) → ⊥) → 20480 ≤ D.size device.old
        → HasFirstConfig (bytes_of (D.disk device.old).now) → ⊥ }
    ensures refused { IfErr result IsLookRefusal }
{
    match check_pool(alloc, device) {
        Ok(Finding::NoPool) => has_config(device),
        Ok(Finding::Clean { .. } | Finding::Damaged { .. }) => Ok(true),
        Err(PoolError::BadGeometry) => has_first_config(device),
        Err(refusal) => Err(refusal),
    }
}

// Whether the first label of a device has a config, be it for a device of another size.
fn has_first_config<D: SectorDevice>(device: &mut D) -> Result<bool, PoolError>
    ensures unchanged { IsTrue D.keeps_model → D.disk device.new ≡ D.disk device.old }
    ensures none { result ≡ Ok false → IsTrue D.keeps_model → 20480 ≤ D.size device.old
        → HasFirstConfig (bytes_of (D.disk device.old).now) → ⊥ }
    ensures refused { IfErr result IsLookRefusal }
{
    if device.sectors() < FIRST_CONFIG_SECTORS {
        return Ok(false);
    }
    let mut block = [0; BLOCK_SIZE];
    match device.read(FIRST_CONFIG_AT, &mut block[..]) {
        Ok(()) => Ok(is_config_block(&block)),
        Err(refusal) => Err(refusal),
    }
}

// Whether a block is a config, on a device of the size that it names.
fn is_config_block(block: &[u8; BLOCK_SIZE]) -> bool
    ensures { result ≡ false → (size : ℕ) (c : Config) → IsConfigBlock block.now size c → ⊥ }
{
    LabelConfig::decode(block, read_u64(block, SIZE_AT)).is_some()
}

// Whether a label of a device has a config, be it for a device of another size.
fn has_config<D: SectorDevice>(device: &mut D) -> Result<bool, PoolError>
    ensures unchanged { IsTrue D.keeps_model → D.disk device.new ≡ D.disk device.old }
    ensures none { result ≡ Ok false → IsTrue D.keeps_model
        → HasNoConfigs (bytes_of (D.disk device.old).now) }
    ensures refused { IfErr result (IsCheckRefusal (D.size device.old)) }
{
    match read_states(device) {
        Ok(states) => Ok(is_some_config(&states)),
        Err(refusal) => Err(refusal),
    }
}

fn is_some_config(states: &[LabelState; 4]) -> bool
    ensures { result ≡ some_config states.now }
{
    states.iter().any(|state| is_config(state))
}

fn is_config(state: &LabelState) -> bool
    ensures { result ≡ is_config state.now.config }
{
    matches!(state.config, ConfigState::Whole | ConfigState::OtherSize(_))
}
