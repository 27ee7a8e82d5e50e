//! What the program's words ask for, or what is printed if they ask for no command.

ghost use Rattle.std.specs.Prelude.{◌≤◌};

use crate::bad_words::{BadWord, find_bad_word};
use crate::parse::parse_arguments;
use crate::read::{read_command, read_options};
use clap::{ArgMatches, Error};
use command_arguments::{Arguments, Options};
use std::alloc::Global;
use std::io::{self, Eprint};
use std::random::RandomSource;
use std::rt::Env;
use std::time::Clock;

/// The status of a fault of the command line.
const BAD_ARGUMENTS: u8 = 2;

/// The status of a help or a version that can't be written.
const UNWRITTEN: u8 = 3;

/// What stands for words that were not given.
#[derive(Clone, Copy)]
pub struct Defaults {
    /// The moment of a command that people type, in seconds.
    pub moment: u64,
    /// The guid of a pool, if one could be drawn.
    pub guid: Option<u64>,
}

impl Defaults {
    /// The clock's seconds since 1970, or 0 if it can't be read. And a guid that is drawn from the system's randomness.
    pub fn of_system<R: Clock + RandomSource>(rt: &R) -> Defaults {
        let moment = match rt.since_1970() {
            Ok(time) => time.as_secs(),
            Err(_) => 0,
        };
        let mut bytes = [0; 8];
        let guid = match rt.fill_bytes(&mut bytes) {
            Ok(()) => Some(u64::from_le_bytes(bytes)),
            Err(_) => None,
        };
        Defaults { moment, guid }
    }
}

/// What the program is asked to do.
#[derive(Clone, Copy)]
pub struct Request<'a> {
    /// The command, with its arguments.
    pub arguments: Arguments<'a>,
    /// What it is given whichever it is.
    pub options: Options,
}

/// What is printed if the words ask for no command.
#[derive(Drop)]
pub enum Notice<'a> {
    /// A word is no text.
    NoText,
    /// The help, the version, or a fault of the command line.
    Parsed(Error),
    /// A word has another form than its command takes.
    BadWord(BadWord<'a>),
    /// The pool's guid wasn't given, and none could be drawn.
    NoGuid,
}

impl Notice<'_> {
    /// Prints it and returns the exit status: 2 for a fault, which goes to standard error. For the help and the version
    /// it is 0, or 3 if they can't be written.
    pub fn print<R: Print + Eprint>(&self, rt: &R) -> u8
        ensures { result ≤ 3 }
    {
        match self {
            Notice::NoText => {
                let _ = eprintln!(rt; "error: invalid UTF-8 was detected in one or more arguments");
                BAD_ARGUMENTS
            }
            Notice::Parsed(error) => print_parsed(error, rt),
            Notice::BadWord(bad_word) => {
                let _ = eprint!(rt; "{bad_word}");
                BAD_ARGUMENTS
            }
            Notice::NoGuid => {
                let _ = eprintln!(rt; "error: no guid can be drawn: give one by --guid");
                BAD_ARGUMENTS
            }
        }
    }
}

fn print_parsed<R: Print + Eprint>(error: &Error, rt: &R) -> u8
    ensures { result ≤ 3 }
{
    let printed = error.print(rt);
    if error.use_stderr() {
        BAD_ARGUMENTS
    } else if printed.is_err() {
        UNWRITTEN
    } else {
        0
    }
}

/// The program's words, its name first.
///
/// # Errors
/// What is printed if a word is no text, or if there is no memory.
pub fn read_words<R: Env + AllocGlobal>(rt: &R) -> Result<Vec<String>, Notice<'static>> {
    match collect_words(rt) {
        Ok(words) => Ok(words),
        Err(_) => Err(Notice::NoText),
    }
}

fn collect_words<R: Env + AllocGlobal>(rt: &R) -> io::Result<Vec<String>> {
    let words = std::env::args(rt)?.collect(rt.alloc())?;
    Ok(words)
}

/// What the program's words ask for.
///
/// # Errors
/// What is printed if they ask for no command.
pub fn read_request<'a>(
    alloc: Global,
    words: &'a [String],
    defaults: &Defaults,
) -> Result<Request<'a>, Notice<'a>> {
    match parse_arguments(alloc, words) {
        Ok(matches) => request_of(&matches, defaults),
        Err(error) => Err(Notice::Parsed(error)),
    }
}

fn request_of<'a>(
    matches: &ArgMatches<'a>,
    defaults: &Defaults,
) -> Result<Request<'a>, Notice<'a>> {
    if let Some(bad_word) = find_bad_word(matches) {
        return Err(Notice::BadWord(bad_word));
    }
    match read_command(matches, defaults) {
        Some(arguments) => Ok(Request {
            arguments,
            options: read_options(matches),
        }),
        None => Err(Notice::NoGuid),
    }
}
