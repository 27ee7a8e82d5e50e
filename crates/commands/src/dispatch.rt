//! Whichever command that makes or changes a pool was asked for.

ghost use Rattle.std.specs.Prelude.{◌≡◌, ◌≢◌, ◌≤◌};
ghost use Rattle.commands.specs.Asked.{MayBeDone};

use crate::changes::{read_input, run_put, run_remove};
use crate::named_puts::run_put_named;
use crate::named_removals::run_remove_named;
use crate::replacing::{run_create_over, run_create_sized};
use command_arguments::{ChangeCommand, Options, Terminals};
use file_devices::{Access, FileDevice, FileRefusal, HeldFile};
use read_commands::{
    ClearedWriter, ProgressLine, ShownDevice, ShownWork, open_within, shows_progress,
};
use std::io::{self, Eprint, Write};
use std::os::unix::fs::FileExt;
use std::rt::{Clock, Files};
use std::sync::Wait;

/// Does a command that makes or changes a pool, and returns the exit status. A file that another process has is waited
/// for as long as the options say. A put says on `errors` if it reads from a terminal, and its input is read before the
/// file is opened: so nobody waits for an input with the file's lock. Failures are reported on `errors`, which is standard
/// error. If that is a terminal, it shows how much was read and written after a second. The status is 0 only if what the
/// command was given is within its limits.
pub fn run_change<R: Files + Input + Print + Eprint + AllocGlobal + Wait + Clock, E: Write>(
    rt: &R,
    command: ChangeCommand<'_>,
    options: Options,
    terminals: Terminals,
    errors: &mut E,
) -> u8
where
    R::File: FileExt + HeldFile,
    ensures done { result ≡ 0 → MayBeDone command.entry }
    ensures range { result ≤ 3 }
    ensures no_usage { result ≢ 2 }
{
    let Options { verbosity, wait } = options;
    let line = ProgressLine::new(rt, shows_progress(verbosity, terminals));
    let work = ShownWork::new(&line);
    let mut out = ClearedWriter::new(io::writer(rt), &line);
    let mut errors = ClearedWriter::new(errors, &line);
    let (work, out, errors) = (&work, &mut out, &mut errors);
    match command {
        ChangeCommand::Create(arguments) => {
            run_create_over(rt, arguments, options, work, out, errors)
        }
        ChangeCommand::CreateSized(arguments) => {
            run_create_sized(rt, arguments, options, work, out, errors)
        }
        ChangeCommand::Put(arguments) => {
            let input = read_object(rt, terminals, errors);
            let opened = open_shown(rt, arguments.file, wait, work);
            run_put(rt, arguments, verbosity, input, opened, out, errors)
        }
        ChangeCommand::PutNamed(arguments) => {
            let input = read_object(rt, terminals, errors);
            let opened = open_shown(rt, arguments.file, wait, work);
            run_put_named(rt, arguments, verbosity, input, opened, out, errors)
        }
        ChangeCommand::Remove(arguments) => {
            let opened = open_shown(rt, arguments.file, wait, work);
            run_remove(rt, arguments, verbosity, opened, out, errors)
        }
        ChangeCommand::RemoveNamed(arguments) => {
            let opened = open_shown(rt, arguments.file, wait, work);
            run_remove_named(rt, arguments, verbosity, opened, out, errors)
        }
    }
}

// A device on the file of a pool that is changed. Its work is shown.
fn open_shown<'a, R: Files + Wait + Eprint + Clock>(
    rt: &R,
    file: &str,
    wait: u32,
    work: &'a ShownWork<'a, R>,
) -> Result<ShownDevice<'a, FileDevice<R::File>, R>, FileRefusal>
where
    R::File: FileExt + HeldFile,
{
    let opened = open_within(rt, file, Access::Write, wait);
    ShownDevice::of_opened(opened, work)
}

// The bytes that a put is given on standard input. If that is a terminal, it says so.
fn read_object<R: Input + AllocGlobal, E: Write>(
    rt: &R,
    terminals: Terminals,
    errors: &mut E,
) -> io::Result<Vec<u8>> {
    if terminals.input {
        let _ = writeln!(
            errors,
            "ztxg: reading the object from the terminal, end it with Ctrl-D"
        );
    }
    read_input(rt.alloc(), rt.reader())
}
