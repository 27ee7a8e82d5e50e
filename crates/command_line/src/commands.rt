//! The commands, each with its words and its help.

use crate::help;
use crate::options::{
    ALL, BENCH_FILE, BENCH_SECONDS, BENCH_SIZE, BENCH_WORKERS, BYTES, CACHE, CLOCK_MOMENT,
    COPY_GUID, COPY_SIZE, CREATE_MOMENT, CREATED_FILE, DIRTY, DURABLE, FAST, FORCE, GET_OFFSET,
    GIVEN_GUID, GIVEN_NAME, GIVEN_SIZE, HELP, HUMAN_READABLE, JSON, LENGTH, LOAD_WORKERS,
    LOADED_DIRTY, LONG, MEMORY_SIZE, MOMENT, NEW, NEW_FILE, OBJECT, OLD_FILE, OPS, POOL_GUID,
    POOL_NAME, POOL_SIZE, PUT_OFFSET, READ_FILE, SCRIPT, SCRIPT_FILE, SEED, SKIP_DAMAGED, STOP,
    SYNC, WHOLE, WRITTEN_FILE,
};
use crate::words::{Word, with_words};
use clap::Command;
use std::alloc::{AllocError, Global};

/// A command with its words and its help.
#[derive(Clone, Copy)]
pub(crate) struct CommandWords {
    /// Its name.
    pub name: &'static str,
    /// What it does.
    pub about: &'static str,
    /// What stands after its help.
    pub after_help: &'static str,
    /// How its words are read.
    pub shape: Shape,
    /// Its words, in the order of its help.
    pub words: &'static [Word],
}

/// How the words of a command are read.
#[derive(Clone, Copy)]
pub(crate) enum Shape {
    /// As `clap` reads them.
    Plain,
    /// The first word in its place may be left out, though the last one may not.
    LastNeeded,
    /// The help is one of its words.
    OwnHelp,
}

/// The commands, in the order of the program's help.
pub(crate) const COMMANDS: [CommandWords; 14] = [
    CommandWords {
        name: "create",
        about: "Makes a new pool in a file, over what the file held, and prints its blocks",
        after_help: help::CREATE,
        shape: Shape::Plain,
        words: &[
            CREATED_FILE,
            POOL_NAME,
            POOL_GUID,
            POOL_SIZE,
            GIVEN_SIZE,
            GIVEN_NAME,
            GIVEN_GUID,
            NEW,
            FORCE,
            CREATE_MOMENT,
        ],
    },
    CommandWords {
        name: "show",
        about: "Reports what an import of the pool in a file would mount; it only reads the file",
        after_help: help::SHOW,
        shape: Shape::Plain,
        words: &[READ_FILE, JSON, FAST],
    },
    CommandWords {
        name: "check",
        about: "Checks whether the pool in a file is whole; it only reads the file",
        after_help: help::CHECK,
        shape: Shape::Plain,
        words: &[READ_FILE, ALL, JSON],
    },
    CommandWords {
        name: "ls",
        about: "Lists the objects of the pool in a file; it only reads the file",
        after_help: help::LIST,
        shape: Shape::Plain,
        words: &[READ_FILE, LONG, JSON, WHOLE],
    },
    CommandWords {
        name: "df",
        about: "Reports the space of the pool in a file in bytes; it only reads the file",
        after_help: help::SPACE,
        shape: Shape::OwnHelp,
        words: &[READ_FILE, HUMAN_READABLE, HELP],
    },
    CommandWords {
        name: "get",
        about: "Writes the bytes of an object to standard output; it only reads the file",
        after_help: help::GET,
        shape: Shape::Plain,
        words: &[READ_FILE, OBJECT, GET_OFFSET, LENGTH, WHOLE],
    },
    CommandWords {
        name: "put",
        about: "Writes standard input into an object, which is made if it isn't there",
        after_help: help::PUT,
        shape: Shape::Plain,
        words: &[WRITTEN_FILE, OBJECT, PUT_OFFSET, CLOCK_MOMENT],
    },
    CommandWords {
        name: "rm",
        about: "Removes an object",
        after_help: help::REMOVE,
        shape: Shape::Plain,
        words: &[WRITTEN_FILE, OBJECT, CLOCK_MOMENT],
    },
    CommandWords {
        name: "copy",
        about: "Copies what can be read of a pool into a new pool in a new file",
        after_help: help::COPY,
        shape: Shape::Plain,
        words: &[OLD_FILE, NEW_FILE, SKIP_DAMAGED, COPY_SIZE, COPY_GUID],
    },
    CommandWords {
        name: "labels",
        about: "Reports what the four labels of a file hold; it only reads the file",
        after_help: help::LABELS,
        shape: Shape::Plain,
        words: &[READ_FILE, JSON],
    },
    CommandWords {
        name: "load",
        about: "Empties the objects 0 to 16 of the pool in a file, makes many small writes, and syncs",
        after_help: help::LOAD,
        shape: Shape::Plain,
        words: &[
            WRITTEN_FILE,
            LOAD_WORKERS,
            OPS,
            SEED,
            LOADED_DIRTY,
            CACHE,
            MOMENT,
        ],
    },
    CommandWords {
        name: "serve",
        about: "Answers frames of requests to the pool in a file, for programs in other languages",
        after_help: help::SERVE,
        shape: Shape::Plain,
        words: &[WRITTEN_FILE, DIRTY, CACHE, CLOCK_MOMENT],
    },
    CommandWords {
        name: "bench",
        about: "Times commits on a pool of its own in a new file, which it removes at its end",
        after_help: help::BENCH,
        shape: Shape::Plain,
        words: &[
            BENCH_FILE,
            BENCH_SIZE,
            BENCH_WORKERS,
            BYTES,
            BENCH_SECONDS,
            DIRTY,
            DURABLE,
        ],
    },
    CommandWords {
        name: "script",
        about: "Runs a script on a pool, and prints a line for each of its commands",
        after_help: help::SCRIPT,
        shape: Shape::LastNeeded,
        words: &[MEMORY_SIZE, SCRIPT, SCRIPT_FILE, STOP, SYNC, MOMENT],
    },
];

/// The command as `clap` has it.
pub(crate) fn subcommand<'a>(
    alloc: Global,
    command: &CommandWords,
) -> Result<Command<'a>, AllocError> {
    let described = Command::new(alloc, command.name)
        .about(command.about)
        .after_help(command.after_help);
    with_words(
        alloc,
        shaped(described, command.shape),
        command.words,
        false,
    )
}

fn shaped<'a>(command: Command<'a>, shape: Shape) -> Command<'a> {
    match shape {
        Shape::Plain => command,
        Shape::LastNeeded => command.allow_missing_positional(true),
        Shape::OwnHelp => command.disable_help_flag(true),
    }
}
