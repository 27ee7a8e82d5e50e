//! Whichever command of the program was asked for.

ghost use Rattle.std.specs.Prelude.{◌≤◌};

use benchmarks::run_bench;
use command_arguments::{Arguments, Options, Terminals};
use commands::run_change;
use copies::run_copy;
use file_devices::{Access, HeldFile};
use loads::run_load;
use read_commands::{
    ClearedWriter, ProgressLine, ShownDevice, ShownWork, open_within, run_read, shows_progress,
};
use script_sessions::run_named_script;
use serving::{report_terminal, run_serve};
use std::io::{self, Eprint, Write};
use std::os::unix::fs::FileExt;
use std::rt::{Clock, Files};
use std::sync::Wait;
use std::thread::Threads;

/// Does a command of the program, and returns the exit status. A file that another process has is waited for as long as
/// the options say, and a script may wait for its pool. A load, a serve and a bench have threads. A load, a copy and those
/// that read, make or change a pool show on a terminal how far they are. A put says if it reads from a terminal, and a
/// serve isn't done if it would answer to one. Failures are reported on `errors`, which is standard error.
pub(crate) fn run<
    R: Files + Input + Print + Eprint + AllocGlobal + Threads + Wait + Clock + Sync,
    E: Write,
>(rt: &R, arguments: Arguments<'_>, options: Options, terminals: Terminals, errors: &mut E) -> u8
where
    R::File: FileExt + HeldFile + Send,
    ensures { result ≤ 3 }
{
    let Options { verbosity, wait } = options;
    match arguments {
        Arguments::Read(command) => run_read(rt, command, options, terminals, errors),
        Arguments::Change(command) => run_change(rt, command, options, terminals, errors),
        Arguments::Bench(arguments) => {
            run_bench(rt, arguments, options, &mut io::writer(rt), errors)
        }
        Arguments::Copy(arguments) => {
            let line = ProgressLine::new(rt, shows_progress(verbosity, terminals));
            let work = ShownWork::new(&line);
            let opened = open_within(rt, arguments.old, Access::Read, wait);
            let mut shown = ShownDevice::of_opened(opened, &work);
            let out = &mut ClearedWriter::new(io::writer(rt), &line);
            let errors = &mut ClearedWriter::new(errors, &line);
            run_copy(rt, arguments, options, &work, &mut shown, out, errors)
        }
        Arguments::Script(arguments) => run_named_script(rt, arguments, options, errors),
        Arguments::Load(arguments) => run_load(
            rt,
            arguments,
            verbosity,
            open_within(rt, arguments.file, Access::Write, wait),
            shows_progress(verbosity, terminals),
            &mut io::writer(rt),
            errors,
        ),
        Arguments::Serve(_) if terminals.output => report_terminal(errors),
        Arguments::Serve(arguments) => {
            let opened = open_within(rt, arguments.file, Access::Write, wait);
            let (input, out) = (rt.reader(), io::writer(rt));
            let (status, _) = run_serve(rt, arguments, verbosity, opened, input, out, errors);
            status
        }
    }
}
