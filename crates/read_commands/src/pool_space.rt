//! The command `df`: how many bytes of the pool in a file are in use, free, and available. It only reads.
//!
//! Bytes that are put take blocks that are available. The last 16 free blocks are for removing and shortening alone
//! (`KEPT_BACK`).

ghost use Rattle.std.specs.Io.KnownBytes.{Appends};
ghost use Rattle.std.specs.Prelude.{◌≡◌, ◌≢◌, ◌≤◌, ◌<◌, IfOk, IsErr, IsTrue, OnOk};
ghost use Rattle.base.specs.disk.Disk.{bytes_of};
ghost use Rattle.read_commands.specs.Checks.{StaysOpened};
ghost use Rattle.read_commands.specs.PoolLines.{WritesInspected};
ghost use Rattle.read_commands.specs.Space.{block_bytes, letter_of, pool_space_lines, power_of, space_lines, space_of};
ghost use Rattle.read_commands.specs.Undone.{InspectsUndone};

use crate::failure::{Failure, NotesRefusals, report_failure};
use crate::show::inspect_opened;
use base::{BLOCK_SIZE, KEPT_BACK};
use command_arguments::{SpaceArguments, SpaceUnit, Verbosity};
use device_model::SectorDevice;
use file_devices::FileRefusal;
use inspections::Inspected;
use std::alloc::Global;
use std::fmt;
use std::io::{self, Write};

/// The space of a pool in bytes.
#[derive(Clone, Copy)]
pub(crate) struct Space {
    /// Those of all blocks.
    pub total: u64,
    /// Those of the tree and of the log chain.
    pub used: u64,
    /// Those of the others.
    pub free: u64,
    /// What bytes may take of these.
    pub available: u64,
}

/// Writes to `out` how many bytes the blocks of the pool in a file have: all of them, those in use, those that are
/// free, and those that bytes may take. Returns the exit status. It only reads the file: it makes no write and no
/// flush, whatever it returns.
///
/// The status and what is reported on `errors` are those of `run_show`.
pub fn run_space<D: SectorDevice + NotesRefusals, W: Write, E: Write>(
    alloc: Global,
    arguments: SpaceArguments<'_>,
    verbosity: Verbosity,
    opened: &mut Result<D, FileRefusal>,
    out: &mut W,
    errors: &mut E,
) -> u8
    ensures only_read { StaysOpened D.SectorDevice opened.old opened.new }
    ensures unusable { IsErr opened.old → result ≡ 3 }
    ensures measured { result ≡ 0 → IfOk opened.old (λ device.
        WritesInspected (IsTrue D.keeps_model) (bytes_of (D.disk device).now)
        (pool_space_lines arguments.entry.unit) (W.contents out.old) (W.contents out.new)) }
    ensures undone { result ≢ 0 → InspectsUndone D.SectorDevice opened.old opened.new result }
    ensures unprinted { result ≡ 1 → W.contents out.new ≡ W.contents out.old }
    ensures range { result ≤ 3 }
    ensures no_usage { result ≢ 2 }
{
    let inspected = match inspect_opened(alloc, opened) {
        Ok(inspected) => inspected,
        Err(failure) => return report_failure(failure, arguments.file, verbosity, errors),
    };
    match write_space(space_of(&inspected), arguments.unit, out) {
        Ok(()) => 0,
        Err(_) => report_failure(Failure::Unwritten, arguments.file, verbosity, errors),
    }
}

fn space_of(inspected: &Inspected) -> Space
    ensures { result ≡ space_of inspected.now }
{
    let free = inspected.blocks.saturating_sub(inspected.used);
    Space {
        total: block_bytes(inspected.blocks),
        used: block_bytes(inspected.used),
        free: block_bytes(free),
        available: block_bytes(free.saturating_sub(KEPT_BACK)),
    }
}

// The bytes of so many blocks.
fn block_bytes(blocks: u64) -> u64
    ensures { result ≡ block_bytes blocks }
{
    blocks.saturating_mul(BLOCK_SIZE as u64)
}

/// Writes a line for each number of bytes.
pub(crate) fn write_space<W: Write>(space: Space, unit: SpaceUnit, out: &mut W) -> io::Result<()>
    ensures { OnOk result (Appends (W.contents out.old) (W.contents out.new)
        (space_lines unit space)) }
{
    writeln!(
        out,
        "total {}\nused {}\nfree {}\navailable {}",
        Amount {
            count: space.total,
            unit
        },
        Amount {
            count: space.used,
            unit
        },
        Amount {
            count: space.free,
            unit
        },
        Amount {
            count: space.available,
            unit
        }
    )
}

/// A number of bytes, as it is printed.
#[derive(Clone, Copy)]
struct Amount {
    count: u64,
    unit: SpaceUnit,
}

impl fmt::Display for Amount {
    ghost use Rattle.std.specs.Prelude.{Some};
    ghost use Rattle.read_commands.specs.Space.{amount_text};

    ghost output = { λ a. Some (amount_text a.unit a.count) };

    fn fmt<W: fmt::Write>(&self, f: &mut fmt::Formatter<W>) -> fmt::Result {
        match self.unit {
            SpaceUnit::Bytes => write!(f, "{}", self.count),
            SpaceUnit::Powers => write!(f, "{}", InPowers(self.count)),
        }
    }
}

/// A number of bytes in the greatest power of 1,024 that isn't above it, with one decimal. What lies below it is cut.
#[derive(Clone, Copy)]
struct InPowers(u64);

impl fmt::Display for InPowers {
    ghost use Rattle.std.specs.Prelude.{Some};
    ghost use Rattle.read_commands.specs.Space.{powers_text};

    ghost output = { λ p. Some (powers_text p.0) };

    fn fmt<W: fmt::Write>(&self, f: &mut fmt::Formatter<W>) -> fmt::Result {
        let count = self.0;
        if count < 1 << 10 {
            return write!(f, "{count}");
        }
        let power = power_of(count);
        write!(
            f,
            "{}.{}{}",
            count / power,
            count % power * 10 / power,
            letter_of(count)
        )
    }
}

// The greatest power of 1,024 up to 4 that isn't above this number of at least 1,024 bytes.
fn power_of(count: u64) -> u64
    ensures value { result ≡ power_of count }
    ensures some { 0 < result }
    ensures few { result ≤ 1099511627776 }
{
    if count < 1 << 20 {
        1 << 10
    } else if count < 1 << 30 {
        1 << 20
    } else if count < 1 << 40 {
        1 << 30
    } else {
        1 << 40
    }
}

// The letter of that power.
fn letter_of(count: u64) -> &'static str
    ensures { result.now ≡ letter_of count }
{
    if count < 1 << 20 {
        "K"
    } else if count < 1 << 30 {
        "M"
    } else if count < 1 << 40 {
        "G"
    } else {
        "T"
    }
}
