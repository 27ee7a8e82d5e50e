//! The words that `clap` takes as any text, and that are read here: numbers of bytes, and objects.

use clap::ArgMatches;
use command_arguments::size_of;
use std::fmt;

/// The words that are numbers of bytes, each with its name in a text.
const SIZES: [(&str, &str); 6] = [
    ("SIZE", "<SIZE>"),
    ("size", "--size <SIZE>"),
    ("offset", "--offset <O>"),
    ("length", "--length <L>"),
    ("dirty", "--dirty <D>"),
    ("bytes", "--bytes <B>"),
];

/// What a number of bytes may be.
const WANTED_BYTES: &str =
    "bytes below 2^64 in digits, with K, M, G or T after them for powers of 1024";

/// What an object may be.
const WANTED_OBJECT: &str = "a number below 2^32, or a name after an @";

/// A word that has another form than its command takes. As text it is what the fault prints.
#[derive(Clone, Copy)]
pub struct BadWord<'a> {
    word: &'static str,
    text: &'a str,
    wanted: &'static str,
}

impl fmt::Display for BadWord<'_> {
    fn fmt<W: fmt::Write>(&self, f: &mut fmt::Formatter<W>) -> fmt::Result {
        f.write_str("error: invalid value '")?;
        for c in self.text.chars() {
            write_visible(c, f)?;
        }
        write!(
            f,
            "' for '{}': {}\n\nFor more information, try '--help'.\n",
            self.word, self.wanted
        )
    }
}

// A control character could change what a terminal shows.
fn write_visible<W: fmt::Write>(c: char, f: &mut fmt::Formatter<W>) -> fmt::Result {
    if c.is_control() {
        write!(f, "\\x{:02x}", c as u32)
    } else {
        write!(f, "{c}")
    }
}

/// An object, as the command line names it.
#[derive(Clone, Copy)]
pub(crate) enum Named<'a> {
    /// By its number.
    Number(u32),
    /// By its name, which stood after an `@`.
    Name(&'a str),
}

/// The first word of the command that has to be a number of bytes or an object, and isn't one.
pub(crate) fn find_bad_word<'a>(matches: &ArgMatches<'a>) -> Option<BadWord<'a>> {
    let (_, given) = matches.subcommand()?;
    for (name, word) in SIZES {
        if let Some(text) = given.get_str(name) {
            if size_of(text).is_none() {
                return Some(BadWord {
                    word,
                    text,
                    wanted: WANTED_BYTES,
                });
            }
        }
    }
    find_bad_object(given)
}

fn find_bad_object<'a>(given: &ArgMatches<'a>) -> Option<BadWord<'a>> {
    let text = given.get_str("OBJECT")?;
    match object_of(text) {
        Some(_) => None,
        None => Some(BadWord {
            word: "<OBJECT>",
            text,
            wanted: WANTED_OBJECT,
        }),
    }
}

/// The bytes that a word says, if it was given.
pub(crate) fn size(given: &ArgMatches<'_>, name: &str) -> Option<u64> {
    size_of(given.get_str(name)?)
}

/// The object that the command is about.
pub(crate) fn object<'a>(given: &ArgMatches<'a>) -> Option<Named<'a>> {
    object_of(given.get_str("OBJECT")?)
}

fn object_of(text: &str) -> Option<Named<'_>> {
    match text.strip_prefix('@') {
        Some(name) => Some(Named::Name(name)),
        None => Some(Named::Number(text.parse::<u32>().ok()?)),
    }
}
