//! The command `check` with `--json`: one object of JSON in one line, with the keys of `docs/COMMANDS.md`. It only
//! reads.

ghost use Rattle.std.specs.Io.KnownBytes.{Appends};
ghost use Rattle.std.specs.List.{flat_map};
ghost use Rattle.std.specs.Prelude.{◌≡◌, ◌≢◌, ◌≤◌, ◌⊎◌, IfOk, IsErr, IsTrue, OnOk, true};
ghost use Rattle.base.specs.disk.Disk.{bytes_of};
ghost use Rattle.base.specs.formats.Geometry.{IsGeometry};
ghost use Rattle.read_commands.specs.Checks.{StaysOpened};
ghost use Rattle.read_commands.specs.Undone.{ChecksUndone};
ghost use Rattle.read_commands.specs.Json.{PrintsAll, PrintsOne, json_damages, json_findings, json_comma, json_found, json_labels, json_lost, json_more, json_reasons, json_state};

use crate::check_all::{Found, find_opened};
use crate::checks::{Finding, check_opened};
use crate::failure::{Failure, NotesRefusals, report_failure};
use crate::label_states::{ConfigState, LabelState, is_some_whole, is_whole};
use command_arguments::Verbosity;
use device_model::SectorDevice;
use file_devices::FileRefusal;
use std::alloc::Global;
use std::fmt;
use std::io::{self, Write};

/// Writes to `out` as JSON what `run_check` writes as a line, and returns the exit status. It only reads the file: it
/// makes no write and no flush, whatever it returns.
///
/// The status and what is reported on `errors` are those of `run_check`.
pub fn run_json_check<D: SectorDevice + NotesRefusals, W: Write, E: Write>(
    alloc: Global,
    file: &str,
    verbosity: Verbosity,
    opened: &mut Result<D, FileRefusal>,
    out: &mut W,
    errors: &mut E,
) -> u8
    ensures only_read { StaysOpened D.SectorDevice opened.old opened.new }
    ensures unusable { IsErr opened.old → result ≡ 3 }
    ensures size { IfOk opened.old (λ device. (IsGeometry (D.size device) → ⊥) → result ≡ 1) }
    ensures clean { result ≡ 0 → IfOk opened.old (λ device. PrintsOne 0 (IsTrue D.keeps_model)
        (bytes_of (D.disk device).now) (W.contents out.old) (W.contents out.new)) }
    ensures damaged { result ≡ 1 → IfOk opened.old (λ device.
        (W.contents out.new ≡ W.contents out.old) ⊎ PrintsOne 1 (IsTrue D.keeps_model)
        (bytes_of (D.disk device).now) (W.contents out.old) (W.contents out.new)) }
    ensures undone { result ≢ 0 → ChecksUndone D.SectorDevice opened.old opened.new result
        ⊎ IfOk opened.old (λ device. PrintsOne result (IsTrue D.keeps_model)
        (bytes_of (D.disk device).now) (W.contents out.old) (W.contents out.new)) }
    ensures range { result ≤ 3 }
    ensures no_usage { result ≢ 2 }
{
    let finding = match check_opened(alloc, opened) {
        Ok(finding) => finding,
        Err(failure) => return report_failure(failure, file, verbosity, errors),
    };
    match writeln!(out, "{}", JsonFinding(finding)) {
        Ok(()) => finding.status(),
        Err(_) => report_failure(Failure::Unwritten, file, verbosity, errors),
    }
}

/// Writes to `out` as JSON what `run_check_all` writes in lines, and returns the exit status. It only reads the file:
/// it makes no write and no flush, whatever it returns.
///
/// The status and what is reported on `errors` are those of `run_check_all`.
pub fn run_json_check_all<D: SectorDevice + NotesRefusals, W: Write, E: Write>(
    alloc: Global,
    file: &str,
    verbosity: Verbosity,
    opened: &mut Result<D, FileRefusal>,
    out: &mut W,
    errors: &mut E,
) -> u8
    ensures only_read { StaysOpened D.SectorDevice opened.old opened.new }
    ensures unusable { IsErr opened.old → result ≡ 3 }
    ensures size { IfOk opened.old (λ device. (IsGeometry (D.size device) → ⊥) → result ≡ 1) }
    ensures clean { result ≡ 0 → IfOk opened.old (λ device. PrintsAll 0 (IsTrue D.keeps_model)
        (bytes_of (D.disk device).now) (W.contents out.old) (W.contents out.new)) }
    ensures damaged { result ≡ 1 → IfOk opened.old (λ device.
        (W.contents out.new ≡ W.contents out.old) ⊎ PrintsAll 1 (IsTrue D.keeps_model)
        (bytes_of (D.disk device).now) (W.contents out.old) (W.contents out.new)) }
    ensures undone { result ≢ 0 → ChecksUndone D.SectorDevice opened.old opened.new result
        ⊎ IfOk opened.old (λ device. PrintsAll result (IsTrue D.keeps_model)
        (bytes_of (D.disk device).now) (W.contents out.old) (W.contents out.new)) }
    ensures range { result ≤ 3 }
    ensures no_usage { result ≢ 2 }
{
    let found = match find_opened(alloc, opened) {
        Ok(found) => found,
        Err(failure) => return report_failure(failure, file, verbosity, errors),
    };
    match write_found(&found, out) {
        Ok(()) => found.status(),
        Err(_) => report_failure(Failure::Unwritten, file, verbosity, errors),
    }
}

fn write_found<W: Write>(found: &Found, out: &mut W) -> io::Result<()>
    ensures { OnOk result (Appends (W.contents out.old) (W.contents out.new)
        (json_found found.now.findings.items found.now.labels)) }
{
    write_findings(&found.findings, out)?;
    write_labels(&found.labels, out)
}

// Writes what was found of the pool, up to the labels. A check has one finding at least.
fn write_findings<W: Write>(findings: &[Finding], out: &mut W) -> io::Result<()>
    ensures { OnOk result (Appends (W.contents out.old) (W.contents out.new)
        (json_findings findings.now)) }
{
    let Some((first, rest)) = findings.split_first() else {
        return write!(out, r#"{{"state":"damaged","damages":[]"#);
    };
    write_state(*first, rest, out)
}

// Writes what was found of the pool, by its first finding and the others.
fn write_state<W: Write>(first: Finding, rest: &[Finding], out: &mut W) -> io::Result<()>
    ensures { OnOk result (Appends (W.contents out.old) (W.contents out.new)
        (json_state first rest.now)) }
{
    match first {
        Finding::Clean { group, records } => write!(
            out,
            r#"{{"state":"clean","group":{},"records":{records}"#,
            group.0
        ),
        Finding::Damaged { kind, address } => write_damages(Damage { kind, address }, rest, out),
        Finding::NoPool => write!(out, r#"{{"state":"no pool""#),
    }
}

// Writes the damages as a list.
fn write_damages<W: Write>(first: Damage, rest: &[Finding], out: &mut W) -> io::Result<()>
    ensures { OnOk result (Appends (W.contents out.old) (W.contents out.new)
        (json_damages first.kind first.address rest.now)) }
{
    write!(out, r#"{{"state":"damaged","damages":[{first}"#)?;
    write_more(rest, out)?;
    write!(out, "]")
}

// Writes the damages after the first one.
fn write_more<W: Write>(findings: &[Finding], out: &mut W) -> io::Result<()>
    ensures { OnOk result (Appends (W.contents out.old) (W.contents out.new)
        (flat_map json_more findings.now)) }
{
    for finding in findings {
        write!(out, "{}", Further(*finding))?;
    }
    Ok(())
}

// Writes the labels that have no valid config, if another one has, and closes the report.
fn write_labels<W: Write>(labels: &[LabelState; 4], out: &mut W) -> io::Result<()>
    ensures { OnOk result (Appends (W.contents out.old) (W.contents out.new)
        (json_labels labels.now)) }
{
    write!(out, r#","labels":["#)?;
    write_lost(labels, out)?;
    writeln!(out, "]}}")
}

fn write_lost<W: Write>(labels: &[LabelState; 4], out: &mut W) -> io::Result<()>
    ensures { OnOk result (Appends (W.contents out.old) (W.contents out.new)
        (json_lost labels.now)) }
{
    if is_some_whole(labels) {
        write_reasons(labels, out)
    } else {
        Ok(())
    }
}

// Writes the labels that have no valid config, with commas between them.
fn write_reasons<W: Write>(labels: &[LabelState; 4], out: &mut W) -> io::Result<()>
    ensures { OnOk result (Appends (W.contents out.old) (W.contents out.new)
        (json_reasons true labels.now)) }
{
    let mut is_first = true;
    for state in labels {
        if is_whole(state) {
            continue;
        }
        write!(out, "{}{}", comma_before(is_first), Reason(*state))?;
        is_first = false;
    }
    Ok(())
}

// What stands before a label.
fn comma_before(is_first: bool) -> &'static str
    ensures { result.now ≡ json_comma is_first }
{
    if is_first { "" } else { "," }
}

/// The kind and the byte address of a damaged block, as JSON.
#[derive(Clone, Copy)]
struct Damage {
    kind: u64,
    address: u64,
}

impl fmt::Display for Damage {
    ghost use Rattle.std.specs.Prelude.{Some};
    ghost use Rattle.read_commands.specs.Json.{json_damage};

    ghost output = { λ d. Some (json_damage d.kind d.address) };

    fn fmt<W: fmt::Write>(&self, f: &mut fmt::Formatter<W>) -> fmt::Result {
        let (kind, address) = (self.kind, self.address);
        write!(f, r#"{{"kind":{kind},"address":{address}}}"#)
    }
}

/// A finding, as JSON.
#[derive(Clone, Copy)]
struct JsonFinding(Finding);

impl fmt::Display for JsonFinding {
    ghost use Rattle.std.specs.Prelude.{Some};
    ghost use Rattle.read_commands.specs.Json.{json_finding};

    ghost output = { λ f. Some (json_finding f.0) };

    fn fmt<W: fmt::Write>(&self, f: &mut fmt::Formatter<W>) -> fmt::Result {
        match self.0 {
            Finding::Clean { group, records } => write!(
                f,
                r#"{{"state":"clean","group":{},"records":{records}}}"#,
                group.0
            ),
            Finding::Damaged { kind, address } => write!(
                f,
                r#"{{"state":"damaged","damages":[{}]}}"#,
                Damage { kind, address }
            ),
            Finding::NoPool => write!(f, r#"{{"state":"no pool"}}"#),
        }
    }
}

/// A damage after another one, as JSON. Of another finding it has no text.
#[derive(Clone, Copy)]
struct Further(Finding);

impl fmt::Display for Further {
    ghost use Rattle.std.specs.Prelude.{Some};
    ghost use Rattle.read_commands.specs.Json.{json_more};

    ghost output = { λ f. Some (json_more f.0) };

    fn fmt<W: fmt::Write>(&self, f: &mut fmt::Formatter<W>) -> fmt::Result {
        match self.0 {
            Finding::Damaged { kind, address } => write!(f, ",{}", Damage { kind, address }),
            Finding::Clean { .. } | Finding::NoPool => f.write_str(""),
        }
    }
}

/// A label and why it has no valid config, as JSON. Of a label with one it has no text.
#[derive(Clone, Copy)]
struct Reason(LabelState);

impl fmt::Display for Reason {
    ghost use Rattle.std.specs.Prelude.{Some};
    ghost use Rattle.read_commands.specs.Json.{json_reason};

    ghost output = { λ r. Some (json_reason r.0) };

    fn fmt<W: fmt::Write>(&self, f: &mut fmt::Formatter<W>) -> fmt::Result {
        let label = self.0.label;
        match self.0.config {
            ConfigState::Whole => f.write_str(""),
            ConfigState::OtherSize(size) => write!(
                f,
                r#"{{"label":{label},"reason":"size","size":{size}}}"#
            ),
            ConfigState::Zeroed => write!(f, r#"{{"label":{label},"reason":"zeros"}}"#),
            ConfigState::Unchecked => write!(f, r#"{{"label":{label},"reason":"check"}}"#),
        }
    }
}
