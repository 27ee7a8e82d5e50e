//! The command `labels` with `--json`: one object of JSON in one line, with the keys of `docs/COMMANDS.md`. It only
//! reads.

ghost use Rattle.std.specs.Prelude.{◌≡◌, ◌≢◌, ◌≤◌, IfOk, IsErr, IsTrue, OnOk};
ghost use Rattle.base.specs.disk.Disk.{bytes_of};
ghost use Rattle.base.specs.formats.Geometry.{IsGeometry};
ghost use Rattle.read_commands.specs.Checks.{StaysOpened};
ghost use Rattle.read_commands.specs.JsonLabels.{PrintsLabels, PrintsRead};
ghost use Rattle.read_commands.specs.Undone.{ChecksUndone};

use crate::failure::{Failure, NotesRefusals, report_failure};
use crate::label_lines::{ConfigFound, read_opened_labels};
use crate::label_texts::{Active, Label, Ring, active_of, ring_of};
use crate::labels_read::Labels;
use command_arguments::Verbosity;
use device_model::SectorDevice;
use file_devices::FileRefusal;
use std::alloc::Global;
use std::fmt;
use std::io::{self, Write};

/// Writes to `out` as JSON what `run_labels` writes in lines, and returns the exit status. It only reads the file: it
/// makes no write and no flush, whatever it returns.
///
/// The status and what is reported on `errors` are those of `run_labels`.
pub fn run_json_labels<D: SectorDevice + NotesRefusals, W: Write, E: Write>(
    alloc: Global,
    file: &str,
    verbosity: Verbosity,
    opened: &mut Result<D, FileRefusal>,
    out: &mut W,
    errors: &mut E,
) -> u8
    ensures only_read { StaysOpened D.SectorDevice opened.old opened.new }
    ensures unusable { IsErr opened.old → result ≡ 3 }
    ensures size { IfOk opened.old (λ device. (IsGeometry (D.size device) → ⊥) → result ≡ 1) }
    ensures printed { result ≡ 0 → IfOk opened.old (λ device. PrintsLabels (IsTrue D.keeps_model)
        (bytes_of (D.disk device).now) (W.contents out.old) (W.contents out.new)) }
    ensures undone { result ≢ 0 → ChecksUndone D.SectorDevice opened.old opened.new result }
    ensures unprinted { result ≡ 1 → W.contents out.new ≡ W.contents out.old }
    ensures range { result ≤ 3 }
    ensures no_usage { result ≢ 2 }
{
    let labels = match read_opened_labels(alloc, opened) {
        Ok(labels) => labels,
        Err(failure) => return report_failure(failure, file, verbosity, errors),
    };
    match write_labels(&labels, out) {
        Ok(()) => 0,
        Err(_) => report_failure(Failure::Unwritten, file, verbosity, errors),
    }
}

fn write_labels<W: Write>(labels: &Labels, out: &mut W) -> io::Result<()>
    ensures { OnOk result (PrintsRead labels.now (W.contents out.old) (W.contents out.new)) }
{
    writeln!(
        out,
        r#"{{"labels":[{},{},{},{}],"active":{}}}"#,
        JsonLabel(Label {
            number: 0,
            config: &labels.configs[0],
            ring: ring_of(labels, 0)
        }),
        JsonLabel(Label {
            number: 1,
            config: &labels.configs[1],
            ring: ring_of(labels, 1)
        }),
        JsonLabel(Label {
            number: 2,
            config: &labels.configs[2],
            ring: ring_of(labels, 2)
        }),
        JsonLabel(Label {
            number: 3,
            config: &labels.configs[3],
            ring: ring_of(labels, 3)
        }),
        JsonActive(active_of(labels))
    )
}

/// A label, as JSON.
#[derive(Clone, Copy)]
struct JsonLabel<'a>(Label<'a>);

impl fmt::Display for JsonLabel<'_> {
    ghost use Rattle.std.specs.Prelude.{Some};
    ghost use Rattle.read_commands.specs.JsonLabels.{json_label};

    ghost output = { λ l. Some (json_label l.0.number l.0.config.now l.0.ring.count l.0.ring.highest.0) };

    fn fmt<W: fmt::Write>(&self, f: &mut fmt::Formatter<W>) -> fmt::Result {
        write!(
            f,
            r#"{{"label":{},"config":{},{}}}"#,
            self.0.number,
            JsonConfig(self.0.config),
            JsonRing(self.0.ring)
        )
    }
}

/// The config of a label as JSON, or `null` and why there is none.
#[derive(Clone, Copy)]
struct JsonConfig<'a>(&'a ConfigFound);

impl fmt::Display for JsonConfig<'_> {
    ghost use Rattle.std.specs.Prelude.{Some};
    ghost use Rattle.read_commands.specs.JsonLabels.{json_config};

    ghost output = { λ c. Some (json_config c.0.now) };

    fn fmt<W: fmt::Write>(&self, f: &mut fmt::Formatter<W>) -> fmt::Result {
        match self.0 {
            ConfigFound::Config(config) => write!(
                f,
                r#"{{"name":"{}","guid":"{}","group":{},"size":{}}}"#,
                config.name().as_str(),
                config.guid(),
                config.group().0,
                config.size()
            ),
            ConfigFound::OfSize(size) => write!(f, r#"null,"reason":"size","size":{size}"#),
            ConfigFound::Zeros => write!(f, r#"null,"reason":"zeros""#),
            ConfigFound::Unchecked => write!(f, r#"null,"reason":"check""#),
        }
    }
}

/// How many uberblocks a label has, and the highest group of these, as JSON.
#[derive(Clone, Copy)]
struct JsonRing(Ring);

impl fmt::Display for JsonRing {
    ghost use Rattle.std.specs.Prelude.{Some};
    ghost use Rattle.read_commands.specs.JsonLabels.{json_ring};

    ghost output = { λ r. Some (json_ring r.0.count r.0.highest.0) };

    fn fmt<W: fmt::Write>(&self, f: &mut fmt::Formatter<W>) -> fmt::Result {
        let count = self.0.count;
        if count == 0 {
            return write!(f, r#""uberblocks":0"#);
        }
        write!(f, r#""uberblocks":{count},"highest":{}"#, self.0.highest.0)
    }
}

/// The active uberblock, as JSON.
#[derive(Clone, Copy)]
struct JsonActive(Active);

impl fmt::Display for JsonActive {
    ghost use Rattle.std.specs.Prelude.{Some};
    ghost use Rattle.read_commands.specs.JsonLabels.{json_active};

    ghost output = { λ a. Some (json_active a.0) };

    fn fmt<W: fmt::Write>(&self, f: &mut fmt::Formatter<W>) -> fmt::Result {
        match self.0 {
            Active::Missing => write!(f, "null"),
            Active::Unplaced(group) => write!(f, r#"{{"group":{}}}"#, group.0),
            Active::Found(group, label) => {
                write!(f, r#"{{"group":{},"label":{label}}}"#, group.0)
            }
        }
    }
}
