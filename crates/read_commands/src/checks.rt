//! The command `check`: whether the pool in a file is whole. It only reads, and finds what an inspection finds.

ghost use Rattle.std.specs.Prelude.{◌≡◌, ◌≢◌, ◌≤◌, ◌⊎◌, Err, IfErr, IfOk, IsErr, IsTrue, OnOk};
ghost use Rattle.base.specs.disk.Disk.{bytes_of};
ghost use Rattle.base.specs.formats.Geometry.{IsGeometry};
ghost use Rattle.device_model.specs.Reading.{OnlyReads};
ghost use Rattle.read_commands.specs.Checks.{IsCheckRefusal, IsFoundIn, StaysOpened, finding_status, found_of};
ghost use Rattle.read_commands.specs.FoundDamages.{WritesOne};
ghost use Rattle.read_commands.specs.Undone.{ChecksUndone, IsCheckRefused, IsLookFailure};

use crate::failure::{Failure, NotesRefusals, report_failure};
use base::{Group, PoolError};
use command_arguments::Verbosity;
use device_model::SectorDevice;
use file_devices::FileRefusal;
use inspections::{Inspected, inspect};
use script_lines::REFUSED;
use std::alloc::Global;
use std::fmt;
use std::io::Write;

/// What a check found on a device.
#[derive(Clone, Copy)]
pub enum Finding {
    /// A pool that is whole.
    Clean {
        /// The group of the active uberblock.
        group: Group,
        /// How many log records an import would apply.
        records: u64,
    },
    /// A pool of which a block is damaged, so no import mounts it.
    Damaged {
        /// The kind of the block: 2 root, 3 directory, 4 indirect, 5 data, 6 log, 7 top.
        kind: u64,
        /// Its byte address on the device.
        address: u64,
    },
    /// No pool.
    NoPool,
}

impl Finding {
    /// The exit status of a check that found this: 0 if the pool is whole, else 1.
    pub fn status(&self) -> u8
        ensures { result ≡ finding_status self.now }
    {
        match self {
            Finding::Clean { .. } => 0,
            Finding::Damaged { .. } | Finding::NoPool => REFUSED,
        }
    }
}

impl fmt::Display for Finding {
    ghost use Rattle.std.specs.Prelude.{Some};
    ghost use Rattle.read_commands.specs.FoundDamages.{finding_text};

    ghost output = { λ f. Some (finding_text f) };

    fn fmt<W: fmt::Write>(&self, f: &mut fmt::Formatter<W>) -> fmt::Result {
        match self {
            Finding::Clean { group, records } => {
                write!(f, "clean group {} records {records}", group.0)
            }
            Finding::Damaged { kind, address } => write!(f, "damaged {kind} {address}"),
            Finding::NoPool => write!(f, "no pool"),
        }
    }
}

/// Checks the pool on a device, by the reads of an inspection. It makes no write and no flush.
///
/// # Errors
/// `BadGeometry`, before any device call. `NoMemory` and `Read` when they happen.
pub fn check_pool<D: SectorDevice>(alloc: Global, device: &mut D) -> Result<Finding, PoolError>
    // The disk is as it was, and the device refused no call but a read.
    ensures reads { OnlyReads D.SectorDevice result device.old device.new }

    ensures found { IsTrue D.keeps_model
        → IfOk result (IsFoundIn (bytes_of (D.disk device.old).now)) }
    ensures sized { OnOk result (IsGeometry (D.size device.old)) }
    ensures refused { IfErr result (IsCheckRefusal (D.size device.old)) }
{
    finding_of(inspect(alloc, device))
}

// What an inspection found.
fn finding_of(inspected: Result<Inspected, PoolError>) -> Result<Finding, PoolError>
    ensures { result ≡ found_of inspected }
{
    match inspected {
        Ok(inspected) => Ok(Finding::Clean {
            group: inspected.group,
            records: inspected.records,
        }),
        Err(PoolError::Damaged { kind, address }) => Ok(Finding::Damaged { kind, address }),
        Err(PoolError::NoPool) => Ok(Finding::NoPool),
        Err(refusal) => Err(refusal),
    }
}

/// Writes to `out` what a check of the pool in a file found, as a line, and returns the exit status. It only reads the
/// file: it makes no write and no flush, whatever it returns.
///
/// The status is 0 if the pool is whole. It is 1 if a block is damaged, if there is no pool, or if the engine refused
/// the check; then nothing is written. It is 3 if the file was not opened as a device or `out` can't be written. A
/// failure is reported on `errors`.
pub fn run_check<D: SectorDevice + NotesRefusals, W: Write, E: Write>(
    alloc: Global,
    file: &str,
    verbosity: Verbosity,
    opened: &mut Result<D, FileRefusal>,
    out: &mut W,
    errors: &mut E,
) -> u8
    ensures only_read { StaysOpened D.SectorDevice opened.old opened.new }
    ensures unusable { IsErr opened.old → result ≡ 3 }
    ensures size { IfOk opened.old (λ device. (IsGeometry (D.size device) → ⊥) → result ≡ 1) }
    ensures clean { result ≡ 0 → IfOk opened.old (λ device. WritesOne 0 (IsTrue D.keeps_model)
        (bytes_of (D.disk device).now) (W.contents out.old) (W.contents out.new)) }
    ensures damaged { result ≡ 1 → IfOk opened.old (λ device.
        (W.contents out.new ≡ W.contents out.old) ⊎ WritesOne 1 (IsTrue D.keeps_model)
        (bytes_of (D.disk device).now) (W.contents out.old) (W.contents out.new)) }
    ensures undone { result ≢ 0 → ChecksUndone D.SectorDevice opened.old opened.new result
        ⊎ IfOk opened.old (λ device. WritesOne result (IsTrue D.keeps_model)
        (bytes_of (D.disk device).now) (W.contents out.old) (W.contents out.new)) }
    ensures range { result ≤ 3 }
    ensures no_usage { result ≢ 2 }
{
    let finding = match check_opened(alloc, opened) {
        Ok(finding) => finding,
        Err(failure) => return report_failure(failure, file, verbosity, errors),
    };
    match writeln!(out, "{finding}") {
        Ok(()) => finding.status(),
        Err(_) => report_failure(Failure::Unwritten, file, verbosity, errors),
    }
}

/// What a check finds on what was opened. It makes no write and no flush.
///
/// # Errors
/// Why the file was not opened, or what `check_pool` is refused for.
pub fn check_opened<D: SectorDevice + NotesRefusals>(
    alloc: Global,
    opened: &mut Result<D, FileRefusal>,
) -> Result<Finding, Failure>
    ensures only_read { StaysOpened D.SectorDevice opened.old opened.new }
    ensures unusable { IfErr opened.old (λ cause. result ≡ Err (Failure.Unusable cause)) }
    ensures size { IfOk opened.old (λ device. (IsGeometry (D.size device) → ⊥)
        → result ≡ Err (Failure.Refused PoolError.BadGeometry)) }
    ensures sized { OnOk result (IfOk opened.old (λ device. IsGeometry (D.size device))) }
    ensures found { IfOk opened.old (λ device. IsTrue D.keeps_model
        → IfOk result (IsFoundIn (bytes_of (D.disk device).now))) }
    ensures failed { IfErr result
        (IsLookFailure (IsCheckRefused D.SectorDevice) opened.old opened.new) }
{
    let device = match opened {
        Ok(device) => device,
        Err(cause) => return Err(Failure::Unusable(*cause)),
    };
    match check_pool(alloc, device) {
        Ok(finding) => Ok(finding),
        Err(refusal) => Err(Failure::of_pool(refusal, device)),
    }
}
