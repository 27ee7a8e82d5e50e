//! Whichever command was asked for that only reads the pool's file.

ghost use Rattle.std.specs.Prelude.{◌≡◌, ◌≢◌, ◌≤◌, IfOk, IsErr, IsTrue};
ghost use Rattle.base.specs.disk.Disk.{bytes_of};
ghost use Rattle.read_commands.specs.PoolLines.{WritesInspected};
ghost use Rattle.read_commands.specs.AskedUndone.{AskedUndone};
ghost use Rattle.read_commands.specs.Space.{pool_space_lines};
ghost use Rattle.read_commands.specs.Written.{WritesAsked, WritesChecked, WritesLabels, WritesList, WritesShown};

use crate::check_all::run_check_all;
use crate::checks::run_check;
use crate::cleared_writer::ClearedWriter;
use crate::failure::NotesRefusals;
use crate::json_checks::{run_json_check, run_json_check_all};
use crate::json_labels::run_json_labels;
use crate::json_reports::{run_json_list, run_json_show};
use crate::label_lines::run_labels;
use crate::long_list::run_long_list;
use crate::named_gets::run_get_named;
use crate::named_lists::run_list_named;
use crate::pool_space::run_space;
use crate::progress_line::{ProgressLine, shows_progress};
use crate::reads::run_get;
use crate::show::{run_show, run_show_fast};
use crate::shown_device::ShownDevice;
use crate::shown_work::ShownWork;
use crate::waiting::open_within;
use command_arguments::{
    CheckArguments, ListArguments, ListForm, Options, ReadCommand, ReportArguments, ReportForm,
    ShowArguments, ShowForm, SpaceArguments, Terminals, Verbosity,
};
use device_model::SectorDevice;
use file_devices::{Access, FileRefusal, HeldFile};
use std::alloc::Global;
use std::io::{self, Eprint, Write};
use std::os::unix::fs::FileExt;
use std::rt::{Clock, Files};
use std::sync::Wait;

/// Does a command that only reads the pool's file, and returns the exit status. A file that another process has is
/// waited for as long as the options say. Failures are reported on `errors`, which is standard error. If that is a
/// terminal, it shows how much was read after a second.
pub fn run_read<R: Files + Print + Eprint + AllocGlobal + Wait + Clock, E: Write>(
    rt: &R,
    command: ReadCommand<'_>,
    options: Options,
    terminals: Terminals,
    errors: &mut E,
) -> u8
where
    R::File: FileExt + HeldFile,
    ensures range { result ≤ 3 }
    ensures no_usage { result ≢ 2 }
{
    let Options { verbosity, wait } = options;
    let line = ProgressLine::new(rt, shows_progress(verbosity, terminals));
    let work = ShownWork::new(&line);
    let opened = open_within(rt, file_of(command), Access::Read, wait);
    let shown = ShownDevice::of_opened(opened, &work);
    let mut out = ClearedWriter::new(io::writer(rt), &line);
    let mut errors = ClearedWriter::new(errors, &line);
    run_opened(rt.alloc(), command, verbosity, shown, &mut out, &mut errors)
}

// The path of the pool's file.
fn file_of(command: ReadCommand<'_>) -> &str {
    match command {
        ReadCommand::Show(arguments) => arguments.file,
        ReadCommand::Check(arguments) => arguments.file,
        ReadCommand::List(arguments) => arguments.file,
        ReadCommand::Space(arguments) => arguments.file,
        ReadCommand::Labels(arguments) => arguments.file,
        ReadCommand::Get(arguments, _) => arguments.file,
        ReadCommand::GetNamed(arguments, _) => arguments.file,
    }
}

/// Does a command that only reads on what was opened for it, and returns the exit status. Writes to `out` what the
/// command prints, and reports a failure on `errors`. The status is 3 if the file was not opened as a device.
pub fn run_opened<D: SectorDevice + NotesRefusals + Drop, W: Write, E: Write>(
    alloc: Global,
    command: ReadCommand<'_>,
    verbosity: Verbosity,
    opened: Result<D, FileRefusal>,
    out: &mut W,
    errors: &mut E,
) -> u8
    ensures unusable { IsErr opened → result ≡ 3 }
    ensures written { result ≡ 0 → IfOk opened (λ device. WritesAsked command.entry
        (IsTrue D.keeps_model) (bytes_of (D.disk device).now)
        (W.contents out.old) (W.contents out.new)) }
    ensures undone { result ≢ 0 → AskedUndone D.SectorDevice command.entry opened result
        (W.contents out.old) (W.contents out.new) }
    ensures range { result ≤ 3 }
    ensures no_usage { result ≢ 2 }
{
    match command {
        ReadCommand::Show(arguments) => show(alloc, arguments, verbosity, opened, out, errors),
        ReadCommand::Check(arguments) => check(alloc, arguments, verbosity, opened, out, errors),
        ReadCommand::List(arguments) => list(alloc, arguments, verbosity, opened, out, errors),
        ReadCommand::Space(arguments) => measure(alloc, arguments, verbosity, opened, out, errors),
        ReadCommand::Labels(arguments) => {
            show_labels(alloc, arguments, verbosity, opened, out, errors)
        }
        ReadCommand::Get(arguments, scope) => {
            let (status, _) = run_get(alloc, arguments, scope, verbosity, opened, out, errors);
            status
        }
        ReadCommand::GetNamed(arguments, scope) => {
            let (status, _) = run_get_named(
                alloc, arguments, scope, verbosity, opened, out, errors,
            );
            status
        }
    }
}

// Shows a pool, in lines with or without the blocks in use, or as JSON.
fn show<D: SectorDevice + NotesRefusals + Drop, W: Write, E: Write>(
    alloc: Global,
    arguments: ShowArguments<'_>,
    verbosity: Verbosity,
    opened: Result<D, FileRefusal>,
    out: &mut W,
    errors: &mut E,
) -> u8
    ensures unusable { IsErr opened → result ≡ 3 }
    ensures shown { result ≡ 0 → IfOk opened (λ device. WritesShown arguments.entry.form
        (IsTrue D.keeps_model) (bytes_of (D.disk device).now)
        (W.contents out.old) (W.contents out.new)) }
    ensures undone { result ≢ 0 → AskedUndone D.SectorDevice (ReadCommand.Show arguments.entry)
        opened result (W.contents out.old) (W.contents out.new) }
    ensures range { result ≤ 3 }
    ensures no_usage { result ≢ 2 }
{
    let file = arguments.file;
    let mut opened = opened;
    match arguments.form {
        ShowForm::Fast => run_show_fast(alloc, file, verbosity, &mut opened, out, errors),
        ShowForm::Lines => run_show(alloc, file, verbosity, &mut opened, out, errors),
        ShowForm::Json => run_json_show(alloc, file, verbosity, &mut opened, out, errors),
    }
}

// Checks a pool, to its first damage or to the end, and reports it in lines or as JSON.
fn check<D: SectorDevice + NotesRefusals + Drop, W: Write, E: Write>(
    alloc: Global,
    arguments: CheckArguments<'_>,
    verbosity: Verbosity,
    opened: Result<D, FileRefusal>,
    out: &mut W,
    errors: &mut E,
) -> u8
    ensures unusable { IsErr opened → result ≡ 3 }
    ensures clean { result ≡ 0 → IfOk opened (λ device. WritesChecked arguments.entry.all
        arguments.entry.form 0 (IsTrue D.keeps_model) (bytes_of (D.disk device).now)
        (W.contents out.old) (W.contents out.new)) }
    ensures undone { result ≢ 0 → AskedUndone D.SectorDevice (ReadCommand.Check arguments.entry)
        opened result (W.contents out.old) (W.contents out.new) }
    ensures range { result ≤ 3 }
    ensures no_usage { result ≢ 2 }
{
    let file = arguments.file;
    let mut opened = opened;
    match (arguments.all, arguments.form) {
        (false, ReportForm::Lines) => run_check(alloc, file, verbosity, &mut opened, out, errors),
        (true, ReportForm::Lines) => {
            run_check_all(alloc, file, verbosity, &mut opened, out, errors)
        }
        (false, ReportForm::Json) => {
            run_json_check(alloc, file, verbosity, &mut opened, out, errors)
        }
        (true, ReportForm::Json) => {
            run_json_check_all(alloc, file, verbosity, &mut opened, out, errors)
        }
    }
}

// Lists the objects of a pool, in short lines with names, in long lines or as JSON.
fn list<D: SectorDevice + NotesRefusals + Drop, W: Write, E: Write>(
    alloc: Global,
    arguments: ListArguments<'_>,
    verbosity: Verbosity,
    opened: Result<D, FileRefusal>,
    out: &mut W,
    errors: &mut E,
) -> u8
    ensures unusable { IsErr opened → result ≡ 3 }
    ensures listed { result ≡ 0 → IfOk opened (λ device. WritesList arguments.entry.form
        arguments.entry.scope (IsTrue D.keeps_model) (bytes_of (D.disk device).now)
        (W.contents out.old) (W.contents out.new)) }
    ensures undone { result ≢ 0 → AskedUndone D.SectorDevice (ReadCommand.List arguments.entry)
        opened result (W.contents out.old) (W.contents out.new) }
    ensures range { result ≤ 3 }
    ensures no_usage { result ≢ 2 }
{
    let ListArguments { file, form, scope } = arguments;
    let mut opened = opened;
    match form {
        ListForm::Short => {
            let (status, _) = run_list_named(alloc, file, scope, verbosity, opened, out, errors);
            status
        }
        ListForm::Long => run_long_list(alloc, file, scope, verbosity, &mut opened, out, errors),
        ListForm::Json => run_json_list(alloc, file, scope, verbosity, &mut opened, out, errors),
    }
}

// Measures the space of a pool.
fn measure<D: SectorDevice + NotesRefusals + Drop, W: Write, E: Write>(
    alloc: Global,
    arguments: SpaceArguments<'_>,
    verbosity: Verbosity,
    opened: Result<D, FileRefusal>,
    out: &mut W,
    errors: &mut E,
) -> u8
    ensures unusable { IsErr opened → result ≡ 3 }
    ensures measured { result ≡ 0 → IfOk opened (λ device. WritesInspected
        (IsTrue D.keeps_model) (bytes_of (D.disk device).now)
        (pool_space_lines arguments.entry.unit) (W.contents out.old) (W.contents out.new)) }
    ensures undone { result ≢ 0 → AskedUndone D.SectorDevice (ReadCommand.Space arguments.entry)
        opened result (W.contents out.old) (W.contents out.new) }
    ensures range { result ≤ 3 }
    ensures no_usage { result ≢ 2 }
{
    let mut opened = opened;
    run_space(alloc, arguments, verbosity, &mut opened, out, errors)
}

// Shows what the labels of a file hold, in lines or as JSON.
fn show_labels<D: SectorDevice + NotesRefusals + Drop, W: Write, E: Write>(
    alloc: Global,
    arguments: ReportArguments<'_>,
    verbosity: Verbosity,
    opened: Result<D, FileRefusal>,
    out: &mut W,
    errors: &mut E,
) -> u8
    ensures unusable { IsErr opened → result ≡ 3 }
    ensures printed { result ≡ 0 → IfOk opened (λ device. WritesLabels arguments.entry.form
        (IsTrue D.keeps_model) (bytes_of (D.disk device).now)
        (W.contents out.old) (W.contents out.new)) }
    ensures undone { result ≢ 0 → AskedUndone D.SectorDevice (ReadCommand.Labels arguments.entry)
        opened result (W.contents out.old) (W.contents out.new) }
    ensures range { result ≤ 3 }
    ensures no_usage { result ≢ 2 }
{
    let file = arguments.file;
    let mut opened = opened;
    match arguments.form {
        ReportForm::Lines => run_labels(alloc, file, verbosity, &mut opened, out, errors),
        ReportForm::Json => run_json_labels(alloc, file, verbosity, &mut opened, out, errors),
    }
}
