//! What the command `serve` says first, by a frame: that its pool is open, or why it isn't.

ghost use Rattle.std.specs.Prelude.{◌≡◌, ◌⊎◌, IfErr, OnErr, OnOk};
ghost use Rattle.std.specs.Io.KnownBytes.{Appends};
ghost use Rattle.read_commands.specs.Failures as failures;
ghost use Rattle.serving.specs.Serving.{SaysUnopened, opening_of};
ghost use Rattle.serving.specs.Written.{AppendsFront};
ghost use Rattle.frames.specs.Openings.{bytes_of_opening};
ghost use Rattle.pool_threads.specs.Handles.{opened_in};

use crate::inputs::Ending;
use crate::sink::write_frame;
use base::PoolError;
use device_model::SectorDevice;
use file_devices::{CallCause, FileRefusal};
use frames::{Opening, encode_opening, encode_unopened};
use pool_threads::Pool;
use read_commands::Failure;
use std::alloc::Global;
use std::fmt;
use std::io::{self, Write};

/// The system's number of the error that a file is in use, `EAGAIN`, as its lock is refused.
const IN_USE: u32 = 11;

/// Writes that the pool is open.
pub(crate) fn write_opening<D: SectorDevice, O: Write>(
    alloc: Global,
    pool: &Pool<D>,
    output: &mut O,
) -> Result<(), Ending>
    ensures written { OnOk result (Appends (O.contents output.old) (O.contents output.new)
        (bytes_of_opening (opening_of (opened_in pool.now)))) }
    ensures front { OnErr result (AppendsFront (O.contents output.old)
        (O.contents output.new) (bytes_of_opening (opening_of (opened_in pool.now)))) }
    ensures failed { IfErr result (λ e. (e ≡ Ending.WriteFailed) ⊎ (e ≡ Ending.NoMemory)) }
{
    let opened = pool.opened();
    let opening = Opening {
        guid: opened.guid,
        group: opened.group,
        records: opened.records,
    };
    let mut frame = Vec::new(alloc);
    match encode_opening(&mut frame, &opening) {
        Ok(()) => {}
        Err(_) => return Err(Ending::NoMemory),
    }
    match write_frame(output, frame.as_slice()) {
        Ok(()) => Ok(()),
        Err(_) => Err(Ending::WriteFailed),
    }
}

/// Writes why the pool isn't open, as far as there is memory for it and the output can be written.
pub(crate) fn write_unopened<O: Write>(alloc: Global, failure: &Failure, output: &mut O)
    ensures { SaysUnopened (failures.refusal_of failure.now) (O.contents output.old)
        (O.contents output.new) }
{
    let Ok(cause) = format!(in alloc; "{}", Cause(failure)) else {
        return;
    };
    let mut frame = Vec::new(alloc);
    let (refusal, system_error) = (refusal_of(failure), system_error_of(failure));
    match encode_unopened(&mut frame, refusal, system_error, cause.as_str()) {
        Ok(()) => {
            let _ = write_frame(output, frame.as_slice());
        }
        Err(_) => {}
    }
}

/// The refusal of a failure, if the engine refused the command.
fn refusal_of(failure: &Failure) -> Option<PoolError>
    ensures { result ≡ failures.refusal_of failure.now }
{
    match failure {
        Failure::Refused(refusal) | Failure::RefusedCall(refusal, _) => Some(*refusal),
        Failure::OutOfRange(_) => Some(PoolError::BadRange),
        Failure::Unusable(_) | Failure::Unwritten => None,
    }
}

/// The number of the system's error that a failure follows from, or 0 if there is none.
fn system_error_of(failure: &Failure) -> u32 {
    match failure {
        Failure::RefusedCall(_, call) => match &call.cause {
            CallCause::System(error) => number_of(error),
            CallCause::Shorter => 0,
        },
        Failure::Unusable(FileRefusal::System(error) | FileRefusal::Folder(error)) => {
            number_of(error)
        }
        Failure::Unusable(FileRefusal::InUse) => IN_USE,
        Failure::Refused(_) | Failure::OutOfRange(_) | Failure::Unusable(_) | Failure::Unwritten =>
            0,
    }
}

/// The number of a system's error, or 0 if it is none of the system.
fn number_of(error: &io::Error) -> u32 {
    match error.raw_os_error() {
        Some(code) => u32::try_from(code).unwrap_or(0),
        None => 0,
    }
}

/// The cause of a failure, as text.
#[derive(Clone, Copy)]
struct Cause<'a>(&'a Failure);

impl fmt::Display for Cause<'_> {
    fn fmt<W: fmt::Write>(&self, f: &mut fmt::Formatter<W>) -> fmt::Result {
        match self.0 {
            Failure::Refused(refusal) => write!(f, "{refusal}"),
            Failure::RefusedCall(_, call) => write!(f, "{call}"),
            Failure::OutOfRange(number) => write!(f, "{number}"),
            Failure::Unusable(cause) => write!(f, "{cause}"),
            Failure::Unwritten => write!(f, "the output can't be written"),
        }
    }
}
