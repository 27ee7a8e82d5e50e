//! The command `script`. The script is read from a file or from standard input, and works on a device in memory or on
//! the pool in a file.

ghost use Rattle.std.specs.Prelude.{◌≡◌, ◌≢◌, ◌≤◌, ◌⊎◌, IsErr, IsTrue};

use crate::noted_session::NotedSession;
use crate::shared_pool::SharedSession;
use base::PoolError;
use command_arguments::{Options, ScriptArguments, ScriptDevice, Verbosity};
use file_devices::{Access, FileDevice, FileRefusal, HeldFile, SectorFile};
use read_commands::{Failure, open_within, report_failure};
use scripts::{AfterRefusal, FileSession, run_script_with};
use std::alloc::Global;
use std::fs::File;
use std::io::{self, Read, Write};
use std::os::unix::fs::FileExt;
use std::rt::Files;
use std::sync::Wait;

/// Runs a script that is named by its path, or read from standard input, and returns the exit status.
pub fn run_named_script<R: Files + Input + Print + AllocGlobal + Wait, E: Write>(
    rt: &R,
    arguments: ScriptArguments<'_>,
    options: Options,
    errors: &mut E,
) -> u8
where
    R::File: FileExt + HeldFile,
    ensures { result ≤ 3 }
{
    let out = io::writer(rt);
    if arguments.script == "-" {
        return run_opened(rt, arguments, options, Ok(rt.reader()), out, errors);
    }
    let opened = File::open(rt, arguments.script);
    run_opened(rt, arguments, options, opened, out, errors)
}

/// Runs a script that was opened, and returns the exit status. On a device in memory its pool is under a lock.
///
/// If it was not opened, or its device's file can't be used, `ztxg: cannot use FILE` is printed to `errors`, and the
/// status is 3. The status is 1 if the script stops at a refusal, or the sync at its end is refused. If commits on a
/// file aren't durable at the end, `errors` has their number.
pub fn run_opened<H: Files + Wait + AllocGlobal, R: Read + Drop, W: Write + Drop, E: Write>(
    rt: &H,
    arguments: ScriptArguments<'_>,
    options: Options,
    opened: io::Result<R>,
    out: W,
    errors: &mut E,
) -> u8
where
    H::File: FileExt + HeldFile,
    ensures failed { IsErr opened → result ≡ 3 }
    ensures range { result ≤ 3 }
    ensures no_refusal { IsTrue arguments.entry.stops ⊎ IsTrue arguments.entry.syncs
        ⊎ (result ≢ 1) }
{
    let verbosity = options.verbosity;
    let script = match opened {
        Ok(script) => script,
        Err(error) => {
            let failure = Failure::Unusable(FileRefusal::System(error));
            return report_failure(failure, arguments.script, verbosity, errors);
        }
    };
    match arguments.device {
        ScriptDevice::Memory(size) => {
            let mut session = SharedSession::new(rt, rt.alloc(), size, arguments.moment);
            run_script_with(
                rt.alloc(),
                &mut session,
                after_refusal(&arguments),
                script,
                out,
            )
        }
        ScriptDevice::File(path) => match open_within(rt, path, Access::Write, options.wait) {
            Ok(device) => {
                run_on_file(
                    rt.alloc(),
                    device,
                    arguments,
                    verbosity,
                    script,
                    out,
                    errors,
                )
            }
            Err(cause) => report_failure(Failure::Unusable(cause), path, verbosity, errors),
        },
    }
}

// What follows if the pool refuses a command of the script.
fn after_refusal(arguments: &ScriptArguments<'_>) -> AfterRefusal
    ensures { IsTrue arguments.now.stops ⊎ (result ≡ AfterRefusal.GoOn) }
{
    if arguments.stops {
        AfterRefusal::Stop
    } else {
        AfterRefusal::GoOn
    }
}

// Runs a script on a file's device, whose pool the session steps itself.
fn run_on_file<F: SectorFile + Drop, R: Read + Drop, W: Write + Drop, E: Write>(
    alloc: Global,
    device: FileDevice<F>,
    arguments: ScriptArguments<'_>,
    verbosity: Verbosity,
    script: R,
    out: W,
    errors: &mut E,
) -> u8
    ensures range { result ≤ 3 }
    ensures no_refusal { IsTrue arguments.entry.stops ⊎ IsTrue arguments.entry.syncs
        ⊎ (result ≢ 1) }
{
    let session: FileSession<'_, F> = FileSession::new(&(), alloc, device, arguments.moment);
    let mut session = NotedSession::new(alloc, session);
    let after = after_refusal(&arguments);
    let status = run_script_with(alloc, &mut session, after, script, out);
    let synced = if arguments.syncs {
        session.sync()
    } else {
        Ok(())
    };
    let lost = session.count_lost();
    if lost != 0 {
        let _ = writeln!(errors, "ztxg: {lost} commits are not durable");
    }
    let Err(refusal) = synced else {
        return status;
    };
    let refused = report_refusal(refusal, session.into_session(), verbosity, errors);
    if status == 0 { refused } else { status }
}

// Reports that the sync at a script's end was refused, with the call that its device refused, if it was for that.
fn report_refusal<F: SectorFile + Drop, E: Write>(
    refusal: PoolError,
    session: FileSession<'_, F>,
    verbosity: Verbosity,
    errors: &mut E,
) -> u8
    ensures { result ≤ 3 }
{
    let failure = match session.into_device() {
        Some(device) => Failure::of_pool(refusal, &device),
        None => Failure::Refused(refusal),
    };
    report_failure(failure, "", verbosity, errors)
}
