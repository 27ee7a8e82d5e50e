//! What callers rely on of the progress that is shown on a terminal.

ghost use Rattle.std.specs.Io.KnownBytes.{Appends};
ghost use Rattle.std.specs.Prelude.{◌≡◌, ◌*◌, ◌+◌, ◌≤◌, ◌<◌, IsSome, IsTrue, None, OnOk, Some, codes, false, length, true};
ghost use Rattle.base.specs.disk.Calls.{Flushes, IsOnDevice, Writes};
ghost use Rattle.base.specs.disk.Disk.{bytes_of};
ghost use Rattle.base.specs.formats.Fields.{part};
ghost use Rattle.base.specs.formats.Geometry.{sector_size};

use crate::cleared_writer::ClearedWriter;
use crate::pace::stay_of;
use crate::progress_line::{ProgressLine, shows_progress};
use crate::shown_device::ShownDevice;
use crate::shown_work::{Done, ShownWork};
use base::PoolError;
use command_arguments::{Terminals, Verbosity};
use device_model::SectorDevice;
use file_devices::FileRefusal;
use std::io::{self, Eprint, Write};
use std::rt::Clock;

// Whatever else is a terminal.
fn a_log_file_gets_no_progress(input: bool, output: bool) -> bool
    ensures { result ≡ false }
{
    let terminals = Terminals {
        input,
        output,
        errors: false,
    };
    shows_progress(Verbosity::WithCause, terminals)
}

fn who_wants_no_cause_gets_no_progress(terminals: Terminals) -> bool
    ensures { result ≡ false }
{
    shows_progress(Verbosity::Quiet, terminals)
}

fn a_terminal_gets_progress(input: bool, output: bool) -> bool
    ensures { result ≡ true }
{
    let terminals = Terminals {
        input,
        output,
        errors: true,
    };
    shows_progress(Verbosity::WithCause, terminals)
}

fn a_line_that_is_not_to_be_shown_is_not_shown<R: Eprint>(rt: &R) -> bool
    ensures { result ≡ false }
{
    ProgressLine::new(rt, false).is_shown()
}

// However long the text before stays.
fn nothing_is_written_in_the_first_second(before: u64) -> Option<u64>
    ensures { result ≡ None }
{
    stay_of(999_999, before)
}

fn the_first_text_is_written_after_a_second() -> Option<u64>
    ensures { IsSome result }
{
    stay_of(1_000_000, 0)
}

// So there are four texts a second at most.
fn a_text_stays_for_a_quarter_of_a_second(time: u64, later: u64) -> Option<u64>
    requires first { 1000000 ≤ time }
    requires last { time < 1000000000000 }
    requires later { later < time + 250000 }
    ensures { result ≡ None }
{
    match stay_of(time, 0) {
        Some(stay) => stay_of(later, stay),
        None => None,
    }
}

// Eight million bytes in two seconds.
fn the_line_has_the_bytes_and_the_rate<W: Write>(out: &mut W) -> io::Result<()>
    ensures { OnOk result (Appends (W.contents out.old) (W.contents out.new)
        (codes "8000000 bytes done, 4000000 bytes in a second")) }
{
    write!(out, "{}", Done::of(8_000_000, 2_000_000))
}

fn the_device_that_is_shown_comes_back<D: SectorDevice, R: Eprint + Clock>(
    device: D,
    work: &ShownWork<'_, R>,
) -> D
    ensures { result ≡ device }
{
    ShownDevice::new(device, work).into_device()
}

fn a_file_that_was_not_opened_says_why<D: SectorDevice + Drop, R: Eprint + Clock>(
    cause: FileRefusal,
    work: &ShownWork<'_, R>,
) -> Option<FileRefusal>
    ensures { result ≡ Some cause }
{
    let opened: Result<D, FileRefusal> = Err(cause);
    ShownDevice::of_opened(opened, work).err()
}

// Showing changes no device: it has the sectors of the other one.
fn a_shown_device_has_the_sectors_of_the_device<D: SectorDevice + Drop, R: Eprint + Clock>(
    device: D,
    work: &ShownWork<'_, R>,
) -> u64
    ensures { sector_size * result ≡ D.size device }
{
    ShownDevice::new(device, work).sectors()
}

fn what_is_read_is_what_the_device_has<D: SectorDevice + Drop, R: Eprint + Clock>(
    device: D,
    work: &ShownWork<'_, R>,
    into: &mut [u8],
) -> Result<(), PoolError>
    requires { IsOnDevice (D.size device) 4096 (length into.old) }
    ensures { IsTrue D.keeps_model → OnOk result
        (into.new ≡ part (bytes_of (D.disk device).now) 4096 (length into.old)) }
{
    ShownDevice::new(device, work).read(4_096, into)
}

// Also if it is refused: the disk is what that write alone makes of it.
fn a_write_reaches_the_device_once<D: SectorDevice, R: Eprint + Clock>(
    device: D,
    work: &ShownWork<'_, R>,
    bytes: &[u8],
) -> (Result<(), PoolError>, D)
    requires { IsOnDevice (D.size device) 4096 (length bytes.now) }
    ensures { IsTrue D.keeps_model
        → Writes (D.disk device) 4096 bytes.now result.0 (D.disk result.1) }
{
    let mut shown = ShownDevice::new(device, work);
    let written = shown.write(4_096, bytes);
    (written, shown.into_device())
}

fn a_flush_reaches_the_device_once<D: SectorDevice, R: Eprint + Clock>(
    device: D,
    work: &ShownWork<'_, R>,
) -> (Result<(), PoolError>, D)
    ensures { IsTrue D.keeps_model → Flushes (D.disk device) result.0 (D.disk result.1) }
{
    let mut shown = ShownDevice::new(device, work);
    let flushed = shown.flush();
    (flushed, shown.into_device())
}

// Clearing the line writes nothing to the other writer.
fn a_text_is_all_that_the_writer_gets<W: Write, R: Eprint>(
    writer: W,
    line: &ProgressLine<'_, R>,
    text: &[u8],
) -> (io::Result<()>, W)
    ensures { OnOk result.0 (Appends (W.contents writer) (W.contents result.1) text.now) }
{
    let mut cleared = ClearedWriter::new(writer, line);
    let written = cleared.write_all(text);
    (written, cleared.into_writer())
}
