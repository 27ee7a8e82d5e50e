//! The lines that a bench prints.

ghost use Rattle.std.specs.Io.KnownBytes.{Appends};
ghost use Rattle.std.specs.Prelude.{◌≡◌, OnOk};
ghost use Rattle.benchmarks.specs.Printed.{count_lines, measured_lines, rate_lines, time_lines};

use crate::measured::Measured;
use std::io::{self, Write};

/// Writes what was measured, a line each.
pub(crate) fn write_measured<W: Write>(measured: &Measured, out: &mut W) -> io::Result<()>
    ensures { OnOk result (Appends (W.contents out.old) (W.contents out.new)
        (measured_lines measured.now)) }
{
    let commits = measured.commits_per_second();
    let bytes = measured.bytes_per_second();
    let flushes = measured.flushes_per_second();
    write_counts(measured, out)?;
    write_rates(commits, bytes, flushes, out)?;
    write_times(measured, out)
}

fn write_counts<W: Write>(measured: &Measured, out: &mut W) -> io::Result<()>
    ensures { OnOk result (Appends (W.contents out.old) (W.contents out.new)
        (count_lines measured.now)) }
{
    writeln!(
        out,
        "commits {}\nbytes {}\nflushes {}\ntime {}",
        measured.commits, measured.bytes, measured.flushes, measured.time
    )
}

fn write_rates<W: Write>(commits: u64, bytes: u64, flushes: u64, out: &mut W) -> io::Result<()>
    ensures { OnOk result (Appends (W.contents out.old) (W.contents out.new)
        (rate_lines commits bytes flushes)) }
{
    writeln!(
        out,
        "commits_per_second {commits}\nbytes_per_second {bytes}\nflushes_per_second {flushes}"
    )
}

fn write_times<W: Write>(measured: &Measured, out: &mut W) -> io::Result<()>
    ensures { OnOk result (Appends (W.contents out.old) (W.contents out.new)
        (time_lines measured.now)) }
{
    writeln!(
        out,
        "middle {}\npercentile_99 {}\nlongest {}",
        measured.middle, measured.percentile_99, measured.longest
    )
}
