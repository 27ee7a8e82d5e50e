//! Why a command on a pool in a file was not done, with its exit status and its text.

ghost use Rattle.std.specs.Prelude.{◌≡◌, ◌≢◌, ◌≤◌, false};
ghost use Rattle.base.specs.declared.error.PoolError as declared_error;
ghost use Rattle.read_commands.specs.Failures.{IsFailureFor, failure_status, is_of_device};

use crate::bad_number::BadNumber;
use crate::names::FileName;
use base::PoolError;
use command_arguments::Verbosity;
use device_model::MemDevice;
use file_devices::{FileDevice, FileRefusal, RefusedCall, SectorFile};
use script_lines::{Answer, FAILED, REFUSED};
use std::fmt;
use std::io::Write;

/// Why a command was not done.
#[derive(Clone, Copy)]
pub enum Failure {
    /// The engine refused it.
    Refused(PoolError),
    /// The engine refused it, since the device refused this call.
    RefusedCall(PoolError, RefusedCall),
    /// The engine refuses it `BadRange`, since this number was given for it.
    OutOfRange(BadNumber),
    /// The file can't be used, for this cause.
    Unusable(FileRefusal),
    /// The output can't be written.
    Unwritten,
}

impl From<PoolError> for Failure {
    ghost use Rattle.std.specs.Prelude.{◌≡◌};
    ghost use Rattle.read_commands.specs.declared.failure.Failure.TheVariants.{Refused};

    ghost from_gives = { λ refusal failure. failure ≡ Refused refusal };

    fn from(refusal: PoolError) -> Failure {
        Failure::Refused(refusal)
    }
}

/// A device that may note the last call that it refused.
pub trait NotesRefusals {
    /// The last call that it refused, if it notes one.
    fn last_refusal(&self) -> Option<RefusedCall>;
}

impl<F: SectorFile + Drop> NotesRefusals for FileDevice<F> {
    fn last_refusal(&self) -> Option<RefusedCall> {
        self.last_error()
    }
}

/// Its calls fail by a plan, so it notes none.
impl NotesRefusals for MemDevice {
    fn last_refusal(&self) -> Option<RefusedCall> {
        None
    }
}

impl Failure {
    ghost use Rattle.std.specs.Prelude.{IfSome, None};
    ghost use Rattle.base.specs.declared.error.PoolError.TheVariants.{BadRange};
    ghost use Rattle.read_commands.specs.declared.failure.Failure.TheVariants as failure;

    /// The failure of a command whose pool refused it, with the call that the device refused, if it was for that.
    pub fn of_pool<D: NotesRefusals>(refusal: PoolError, device: &D) -> Failure
        ensures status { failure_status result ≡ 1 }
        ensures other { is_of_device refusal ≡ false → result ≡ failure.Refused refusal }
        ensures cause { IsFailureFor refusal result }
    {
        match (refusal, device.last_refusal()) {
            (
                PoolError::Read | PoolError::Write | PoolError::Flush | PoolError::Suspended,
                Some(call),
            ) => Failure::RefusedCall(refusal, call),
            _ => Failure::Refused(refusal),
        }
    }

    /// The same failure. If it is a `BadRange`, this number that was given is its cause.
    pub fn for_number(self, number: Option<BadNumber>) -> Failure
        ensures status { failure_status result ≡ failure_status self }
        ensures cause { (e : declared_error.PoolError) → IsFailureFor e self
            → IsFailureFor e result }
        ensures named { self ≡ failure.Refused BadRange → IfSome number
            (λ given. result ≡ failure.OutOfRange given) }
        ensures unnamed { number ≡ None → result ≡ self }
    {
        match (self, number) {
            (Failure::Refused(PoolError::BadRange), Some(number)) => Failure::OutOfRange(number),
            _ => self,
        }
    }

    /// The failure of a command that a pool refused while it ran, if the pool was closed since, and gave its device
    /// back.
    pub fn of_closed<D: NotesRefusals>(refusal: PoolError, device: &Option<D>) -> Failure
        ensures status { failure_status result ≡ 1 }
        ensures cause { IsFailureFor refusal result }
    {
        match device {
            Some(device) => Failure::of_pool(refusal, device),
            None => Failure::Refused(refusal),
        }
    }
}

/// Reports on `errors` why a command on this file was not done, and returns the exit status. If the output can't be
/// written, nothing is reported. Unless it is to be quiet, a second line has the cause.
pub fn report_failure<E: Write>(
    failure: Failure,
    file: &str,
    verbosity: Verbosity,
    errors: &mut E,
) -> u8
    ensures status { result ≡ failure_status failure }
    ensures range { result ≤ 3 }
    ensures no_usage { result ≢ 2 }
{
    match failure {
        Failure::Refused(refusal) => report_refusal(refusal, &refusal, verbosity, errors),
        Failure::RefusedCall(refusal, call) => report_refusal(refusal, &call, verbosity, errors),
        Failure::OutOfRange(number) => {
            report_refusal(PoolError::BadRange, &number, verbosity, errors)
        }
        Failure::Unusable(cause) => {
            let _ = writeln!(errors, "ztxg: cannot use {}", FileName(file));
            report_cause(&cause, verbosity, errors);
            FAILED
        }
        Failure::Unwritten => FAILED,
    }
}

/// Reports on `errors` that the engine refused a command, and the cause unless it is to be quiet. Returns the exit
/// status.
pub fn report_refusal<C: fmt::Display, E: Write>(
    refusal: PoolError,
    cause: &C,
    verbosity: Verbosity,
    errors: &mut E,
) -> u8
    ensures { result ≡ 1 }
{
    let _ = writeln!(errors, "ztxg: {}", Answer::refused(refusal));
    report_cause(cause, verbosity, errors);
    REFUSED
}

fn report_cause<C: fmt::Display, E: Write>(cause: &C, verbosity: Verbosity, errors: &mut E) {
    if matches!(verbosity, Verbosity::WithCause) {
        let _ = writeln!(errors, "ztxg: cause: {cause}");
    }
}
