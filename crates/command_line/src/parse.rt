//! The program's words, matched against its command line.

use crate::commands::{COMMANDS, subcommand};
use crate::help;
use crate::options::{QUIET, VERBOSE, WAIT};
use crate::words::{Word, with_words};
use clap::{ArgMatches, Command, Error};
use std::alloc::{AllocError, Global};

/// The options of each command, which may stand before its name or after it.
const OPTIONS: [Word; 3] = [QUIET, VERBOSE, WAIT];

/// Matches the program's words, its name first, against the command line.
///
/// # Errors
/// A fault of the command line, or the help or the version, with the text to print and the exit status.
pub(crate) fn parse_arguments<'a>(
    alloc: Global,
    words: &'a [String],
) -> Result<ArgMatches<'a>, Error> {
    program(alloc)?.try_get_matches_from(words)
}

fn program<'a>(alloc: Global) -> Result<Command<'a>, AllocError> {
    let subcommands = subcommands(alloc)?;
    with_words(alloc, described_program(alloc), &OPTIONS, true)?.subcommands(subcommands)
}

fn subcommands<'a>(alloc: Global) -> Result<Vec<Command<'a>>, AllocError> {
    let mut subcommands = Vec::new(alloc);
    for command in &COMMANDS {
        subcommands.push(subcommand(alloc, command)?)?;
    }
    Ok(subcommands)
}

fn described_program<'a>(alloc: Global) -> Command<'a> {
    Command::new(alloc, "ztxg")
        .about("The write engine of a copy-on-write storage pool, in memory or in a file")
        .version(help::VERSION)
        .after_help(help::PROGRAM)
        .subcommand_required(true)
}
