//! The command `check` with `--all`: it goes on after a damage, and writes a line for each. Then it writes a line for
//! each label that has no valid config, if another one has. It only reads.

ghost use Rattle.std.specs.Prelude.{◌≡◌, ◌≢◌, ◌≤◌, ◌⊎◌, Err, IfErr, IfOk, IsErr, IsTrue, OnOk, map};
ghost use Rattle.std.specs.Io.KnownBytes.{Appends};
ghost use Rattle.base.specs.disk.Disk.{bytes_of};
ghost use Rattle.base.specs.formats.Geometry.{IsGeometry};
ghost use Rattle.device_model.specs.Reading.{OnlyReads};
ghost use Rattle.read_commands.specs.FoundDamages.{AreFoundIn, ListsFindings, WritesAll, all_status, damage_finding, finding_lines, found_lines};
ghost use Rattle.read_commands.specs.FoundLabels.{AreLabelStates};
ghost use Rattle.read_commands.specs.Checks.{IsCheckRefusal, StaysOpened};
ghost use Rattle.read_commands.specs.Undone.{ChecksUndone, IsCheckRefused, IsLookFailure};

use crate::checks::Finding;
use crate::failure::{Failure, NotesRefusals, report_failure};
use crate::label_states::{LabelState, read_states, write_states};
use base::PoolError;
use command_arguments::Verbosity;
use device_model::SectorDevice;
use file_devices::FileRefusal;
use inspections::{Soundness, find_damages};
use script_lines::REFUSED;
use std::alloc::{AllocError, Global};
use std::io::Write;
use trees::BlockDamage;

/// All that a check finds on a device: that its pool is whole, that there is none, or each damage of the tree, in the
/// order of its walk. What lies below a damaged block isn't read. If the tree is whole and the log isn't, it is the
/// damage of the log. It makes no write and no flush.
///
/// # Errors
/// `BadGeometry`, before any device call. `NoMemory` and `Read` when they happen.
pub fn check_to_end<D: SectorDevice>(
    alloc: Global,
    device: &mut D,
) -> Result<Vec<Finding>, PoolError>
    // The disk is as it was, and the device refused no call but a read.
    ensures reads { OnlyReads D.SectorDevice result device.old device.new }

    ensures found { IsTrue D.keeps_model
        → IfOk result (λ list. AreFoundIn (bytes_of (D.disk device.old).now) list.items) }
    ensures sized { OnOk result (IsGeometry (D.size device.old)) }
    ensures refused { IfErr result (IsCheckRefusal (D.size device.old)) }
{
    list_findings(alloc, find_damages(alloc, device))
}

// What was found, as a list.
fn list_findings(
    alloc: Global,
    found: Result<Soundness, PoolError>,
) -> Result<Vec<Finding>, PoolError>
    ensures { ListsFindings found result }
{
    match found {
        Ok(Soundness::Whole(inspected)) => Ok(vec![in alloc;
            Finding::Clean {
                group: inspected.group,
                records: inspected.records,
            },
        ]?),
        Ok(Soundness::Damaged(damages)) => Ok(damage_findings(alloc, &damages)?),
        Err(PoolError::NoPool) => Ok(vec![in alloc; Finding::NoPool]?),
        Err(refusal) => Err(refusal),
    }
}

fn damage_findings(alloc: Global, damages: &[BlockDamage]) -> Result<Vec<Finding>, AllocError>
    ensures { IfOk result (λ list. list.items ≡ map damage_finding damages.now) }
{
    damages
        .iter()
        .map(|damage| Finding::Damaged {
            kind: damage.kind,
            address: damage.address,
        })
        .collect(alloc)
}

/// Writes to `out` all that a check of the pool in a file found, a line each. Then it writes a line for each label that
/// has no valid config, if another one has, and returns the exit status. It only reads the file: it makes no write and
/// no flush, whatever it returns.
///
/// The status is 0 if the pool is whole, whatever its labels hold. It is 1 if a block is damaged, if there is no pool,
/// or if the engine refused the check; then nothing is written. It is 3 if the file was not opened as a device or `out`
/// can't be written. A failure is reported on `errors`.
pub fn run_check_all<D: SectorDevice + NotesRefusals, W: Write, E: Write>(
    alloc: Global,
    file: &str,
    verbosity: Verbosity,
    opened: &mut Result<D, FileRefusal>,
    out: &mut W,
    errors: &mut E,
) -> u8
    ensures only_read { StaysOpened D.SectorDevice opened.old opened.new }
    ensures unusable { IsErr opened.old → result ≡ 3 }
    ensures size { IfOk opened.old (λ device. (IsGeometry (D.size device) → ⊥) → result ≡ 1) }
    ensures clean { result ≡ 0 → IfOk opened.old (λ device. WritesAll 0 (IsTrue D.keeps_model)
        (bytes_of (D.disk device).now) (W.contents out.old) (W.contents out.new)) }
    ensures damaged { result ≡ 1 → IfOk opened.old (λ device.
        (W.contents out.new ≡ W.contents out.old) ⊎ WritesAll 1 (IsTrue D.keeps_model)
        (bytes_of (D.disk device).now) (W.contents out.old) (W.contents out.new)) }
    ensures undone { result ≢ 0 → ChecksUndone D.SectorDevice opened.old opened.new result
        ⊎ IfOk opened.old (λ device. WritesAll result (IsTrue D.keeps_model)
        (bytes_of (D.disk device).now) (W.contents out.old) (W.contents out.new)) }
    ensures range { result ≤ 3 }
    ensures no_usage { result ≢ 2 }
{
    let found = match find_opened(alloc, opened) {
        Ok(found) => found,
        Err(failure) => return report_failure(failure, file, verbosity, errors),
    };
    match write_found(&found, out) {
        Ok(()) => found.status(),
        Err(failure) => report_failure(failure, file, verbosity, errors),
    }
}

/// All that a check finds on a device: of its pool, and in its labels.
#[derive(Drop)]
pub struct Found {
    /// That the pool is whole, that there is none, or each damage.
    pub findings: Vec<Finding>,
    /// What stands in the places of the four configs.
    pub labels: [LabelState; 4],
}

impl Found {
    /// The exit status of a check that found this: that of its first finding. No finding of labels changes it.
    pub fn status(&self) -> u8
        ensures { result ≡ all_status self.now.findings.items }
    {
        status_of(&self.findings)
    }
}

/// All that a check finds on what was opened. It makes no write and no flush.
///
/// # Errors
/// Why the file was not opened, or what `check_to_end` is refused for.
pub fn find_opened<D: SectorDevice + NotesRefusals>(
    alloc: Global,
    opened: &mut Result<D, FileRefusal>,
) -> Result<Found, Failure>
    ensures only_read { StaysOpened D.SectorDevice opened.old opened.new }
    ensures unusable { IfErr opened.old (λ cause. result ≡ Err (Failure.Unusable cause)) }
    ensures size { IfOk opened.old (λ device. (IsGeometry (D.size device) → ⊥)
        → result ≡ Err (Failure.Refused PoolError.BadGeometry)) }
    ensures sized { OnOk result (IfOk opened.old (λ device. IsGeometry (D.size device))) }
    ensures found { IfOk opened.old (λ device. IsTrue D.keeps_model
        → IfOk result (λ f. AreFoundIn (bytes_of (D.disk device).now) f.findings.items)) }
    ensures labels { IfOk opened.old (λ device. IsTrue D.keeps_model
        → IfOk result (λ f. AreLabelStates (bytes_of (D.disk device).now) f.labels)) }
    ensures failed { IfErr result
        (IsLookFailure (IsCheckRefused D.SectorDevice) opened.old opened.new) }
{
    let device = match opened {
        Ok(device) => device,
        Err(cause) => return Err(Failure::Unusable(*cause)),
    };
    match find_all(alloc, device) {
        Ok(found) => Ok(found),
        Err(refusal) => Err(Failure::of_pool(refusal, device)),
    }
}

fn find_all<D: SectorDevice>(alloc: Global, device: &mut D) -> Result<Found, PoolError>
    ensures reads { OnlyReads D.SectorDevice result device.old device.new }
    ensures found { IsTrue D.keeps_model → IfOk result
        (λ f. AreFoundIn (bytes_of (D.disk device.old).now) f.findings.items) }
    ensures labels { IsTrue D.keeps_model → IfOk result
        (λ f. AreLabelStates (bytes_of (D.disk device.old).now) f.labels) }
    ensures sized { OnOk result (IsGeometry (D.size device.old)) }
    ensures refused { IfErr result (IsCheckRefusal (D.size device.old)) }
{
    let findings = check_to_end(alloc, device)?;
    let labels = read_states(device)?;
    Ok(Found { findings, labels })
}

// Writes a line for each finding, and then what is to be said of labels.
fn write_found<W: Write>(found: &Found, out: &mut W) -> Result<(), Failure>
    ensures written { OnOk result (Appends (W.contents out.old) (W.contents out.new)
        (found_lines found.now.findings.items found.now.labels)) }
    ensures failed { IfErr result (λ failure. failure ≡ Failure.Unwritten) }
{
    match write_findings(&found.findings, out) {
        Ok(()) => {}
        Err(failure) => return Err(failure),
    }
    write_states(&found.labels, out)
}

// Writes a line for each finding.
fn write_findings<W: Write>(findings: &[Finding], out: &mut W) -> Result<(), Failure>
    ensures written { OnOk result (Appends (W.contents out.old) (W.contents out.new)
        (finding_lines findings.now)) }
    ensures failed { IfErr result (λ failure. failure ≡ Failure.Unwritten) }
{
    for finding in findings {
        let Ok(()) = writeln!(out, "{finding}") else {
            return Err(Failure::Unwritten);
        };
    }
    Ok(())
}

// The exit status of a check that found this.
fn status_of(findings: &[Finding]) -> u8
    ensures { result ≡ all_status findings.now }
{
    match findings.first() {
        Some(finding) => finding.status(),
        None => REFUSED,
    }
}
