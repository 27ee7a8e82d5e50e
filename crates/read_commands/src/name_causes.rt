//! Why a command on an object by its name was not done, with its exit status and its text (`docs/FORMATS.md`, "Names of
//! objects").

ghost use Rattle.std.specs.Prelude.{◌≡◌, ◌≢◌, ◌≤◌};
ghost use Rattle.read_commands.specs.NameFailures.{name_failure_status};

use crate::failure::{Failure, report_failure, report_refusal};
use crate::names::Quoted;
use base::PoolError;
use command_arguments::Verbosity;
use object_names::MAX_OBJECT_NAME;
use std::fmt;
use std::io::Write;

/// Why a command on an object by its name is refused for that name, or for object 0.
#[derive(Clone, Copy)]
pub enum NameCause {
    /// The name is none.
    NoName,
    /// Object 0 is no table of names.
    NoTable,
    /// No object has the name.
    Unknown,
    /// A new name finds no number.
    NoNumber,
}

impl NameCause {
    // What the calls by name of the clients are refused for it.
    fn refusal(self) -> PoolError {
        match self {
            NameCause::NoName | NameCause::NoTable => PoolError::BadRange,
            NameCause::Unknown => PoolError::NoObject,
            NameCause::NoNumber => PoolError::TooMany,
        }
    }
}

/// Why a command on an object by its name was not done.
#[derive(Clone, Copy)]
pub enum NameFailure {
    /// It is refused for the name, or for object 0.
    Name(NameCause),
    /// It was not done, as one on an object by its number is not.
    Plain(Failure),
}

/// Reports on `errors` why a command on the object of this name in this file was not done, and returns the exit status,
/// which is 1 if it is for the name. Unless it is to be quiet, a second line has the cause.
pub fn report_name_failure<E: Write>(
    failure: NameFailure,
    name: &str,
    file: &str,
    verbosity: Verbosity,
    errors: &mut E,
) -> u8
    ensures status { result ≡ name_failure_status failure }
    ensures range { result ≤ 3 }
    ensures no_usage { result ≢ 2 }
{
    match failure {
        NameFailure::Name(cause) => {
            let named = NamedCause { cause, name };
            report_refusal(cause.refusal(), &named, verbosity, errors)
        }
        NameFailure::Plain(failure) => report_failure(failure, file, verbosity, errors),
    }
}

/// A cause with the name that was given, as text.
#[derive(Clone, Copy)]
struct NamedCause<'a> {
    cause: NameCause,
    name: &'a str,
}

impl fmt::Display for NamedCause<'_> {
    fn fmt<W: fmt::Write>(&self, f: &mut fmt::Formatter<W>) -> fmt::Result {
        let name = Quoted(self.name);
        match self.cause {
            NameCause::NoName => write!(
                f,
                "object name {name}: 1 to {MAX_OBJECT_NAME} bytes of UTF-8, no control characters, no /"
            ),
            NameCause::NoTable => write!(f, "object 0 is no table of names"),
            NameCause::Unknown => write!(f, "no object has the name {name}"),
            NameCause::NoNumber => write!(f, "no number is left for an object"),
        }
    }
}
