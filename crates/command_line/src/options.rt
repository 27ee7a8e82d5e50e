//! The words of the commands, each with its help.

use crate::words::{Form, Rule, Word};
use clap::builder::ValueParser;
use command_arguments::{MAX_WORKERS, MAX_WRITES};

/// A number below 2^64.
const NUMBER: ValueParser<'static> = ValueParser::Unsigned(0, u64::MAX);

/// What the help says of a size.
const SIZE_HELP: &str =
    "The bytes of the device, in whole sectors of 512 bytes (a rest is ignored):{n}\
    6291456 to 1073741824, a multiple of 262144; 64M is 67108864";

/// What the help says of a limit.
const DIRTY_HELP: &str =
    "The most bytes that unsynced transactions may be charged:{n}4096 to 2^40, as 4M";

// The files of the commands.

/// The file of a pool that the command only reads.
pub(crate) const READ_FILE: Word = Word {
    name: "FILE",
    form: Form::Place(ValueParser::String),
    rule: Rule::Needed,
    help: "The path of the file or block device, which no process has open as a pool to write",
};

/// The file of a pool that the command changes.
pub(crate) const WRITTEN_FILE: Word = Word {
    name: "FILE",
    form: Form::Place(ValueParser::String),
    rule: Rule::Needed,
    help: "The path of the file or block device, which no process has open as a pool",
};

/// The file of a new pool.
pub(crate) const CREATED_FILE: Word = Word {
    name: "FILE",
    form: Form::Place(ValueParser::String),
    rule: Rule::Needed,
    help: "The path of the file, which is made, or resized to SIZE bytes",
};

/// The file of a bench.
pub(crate) const BENCH_FILE: Word = Word {
    name: "FILE",
    form: Form::Place(ValueParser::String),
    rule: Rule::Default("ztxg-bench.pool"),
    help: "The path of the file, which must not exist",
};

/// The files of a copy.
pub(crate) const OLD_FILE: Word = Word {
    name: "OLD",
    form: Form::Place(ValueParser::String),
    rule: Rule::Needed,
    help: "The path of the file, a regular file that no process has open as a pool to write",
};

pub(crate) const NEW_FILE: Word = Word {
    name: "NEW",
    form: Form::Place(ValueParser::String),
    rule: Rule::Needed,
    help: "The path of the new pool's file, which must not exist",
};

// What several commands have.

/// The object that the command is about.
pub(crate) const OBJECT: Word = Word {
    name: "OBJECT",
    form: Form::Place(ValueParser::String),
    rule: Rule::Needed,
    help: "The object's number, 0 to 5291; or its name, after an @",
};

/// Whether a report is printed as JSON.
pub(crate) const JSON: Word = Word {
    name: "json",
    form: Form::Flag,
    rule: Rule::Free,
    help: "Prints one object of JSON in one line",
};

/// The moment of a command that programs give.
pub(crate) const MOMENT: Word = Word {
    name: "moment",
    form: Form::Valued("M", NUMBER),
    rule: Rule::Default("0"),
    help: "The moment in seconds that each written uberblock gets: below 2^64",
};

/// The moment of a command that people type, which is the clock's if none is given.
pub(crate) const CLOCK_MOMENT: Word = Word {
    name: "moment",
    form: Form::Valued("M", NUMBER),
    rule: Rule::Free,
    help: "The moment in seconds that each written uberblock gets: below 2^64;{n}now if not given",
};

/// How many tree blocks of a pool that runs stay in memory.
pub(crate) const CACHE: Word = Word {
    name: "cache",
    form: Form::Valued("C", NUMBER),
    rule: Rule::Default("256"),
    help: "The most tree blocks of 4096 bytes kept in memory: 1 to 262144",
};

/// The dirty limit of `serve` and `bench`, that of the library: `DEFAULT_DIRTY_MAX` of `base`.
pub(crate) const DIRTY: Word = Word {
    name: "dirty",
    form: Form::Valued("D", ValueParser::String),
    rule: Rule::Default("4194304"),
    help: DIRTY_HELP,
};

/// The dirty limit of `load`, at which loads were always made.
pub(crate) const LOADED_DIRTY: Word = Word {
    name: "dirty",
    form: Form::Valued("D", ValueParser::String),
    rule: Rule::Default("1048576"),
    help: DIRTY_HELP,
};

// `create`. Its three words NAME, GUID and SIZE are given together, or --size is.

pub(crate) const POOL_NAME: Word = Word {
    name: "NAME",
    form: Form::Place(ValueParser::String),
    rule: Rule::Unless("size"),
    help: "The pool's name: 1 to 64 bytes, first a letter, then letters, digits, '-', '_', '.'",
};

pub(crate) const POOL_GUID: Word = Word {
    name: "GUID",
    form: Form::Place(NUMBER),
    rule: Rule::Unless("size"),
    help: "The pool's guid: a number below 2^64",
};

pub(crate) const POOL_SIZE: Word = Word {
    name: "SIZE",
    form: Form::Place(ValueParser::String),
    rule: Rule::Unless("size"),
    help: SIZE_HELP,
};

pub(crate) const GIVEN_SIZE: Word = Word {
    name: "size",
    form: Form::Valued("SIZE", ValueParser::String),
    rule: Rule::Without("NAME"),
    help: "The bytes of the file, as 64M",
};

pub(crate) const GIVEN_NAME: Word = Word {
    name: "name",
    form: Form::Valued("NAME", ValueParser::String),
    rule: Rule::With("size"),
    help: "The pool's name, if it isn't FILE's",
};

pub(crate) const GIVEN_GUID: Word = Word {
    name: "guid",
    form: Form::Valued("GUID", NUMBER),
    rule: Rule::Without("NAME"),
    help: "The pool's guid, if none is to be drawn",
};

pub(crate) const NEW: Word = Word {
    name: "new",
    form: Form::Flag,
    rule: Rule::Free,
    help: "Refuses a FILE that exists already, which is left as it is",
};

pub(crate) const FORCE: Word = Word {
    name: "force",
    form: Form::Flag,
    rule: Rule::Without("NAME"),
    help: "Replaces a pool that FILE has",
};

pub(crate) const CREATE_MOMENT: Word = Word {
    name: "moment",
    form: Form::Valued("M", NUMBER),
    rule: Rule::Free,
    help: "The moment in seconds that each written uberblock gets: below 2^64; if not{n}\
        given, now with --size, and else 0",
};

// `copy`.

pub(crate) const SKIP_DAMAGED: Word = Word {
    name: "skip-damaged",
    form: Form::Flag,
    rule: Rule::Free,
    help: "Leaves out what can't be read, and prints a line for it, with status 1",
};

pub(crate) const COPY_SIZE: Word = Word {
    name: "size",
    form: Form::Valued("SIZE", ValueParser::String),
    rule: Rule::Free,
    help: "The bytes of NEW, as 64M, if not those of OLD",
};

pub(crate) const COPY_GUID: Word = Word {
    name: "guid",
    form: Form::Valued("GUID", NUMBER),
    rule: Rule::Free,
    help: "The new pool's guid, if none is to be drawn",
};

// Reports.

pub(crate) const ALL: Word = Word {
    name: "all",
    form: Form::Flag,
    rule: Rule::Free,
    help: "Goes on after a damage, and prints each, and each damaged label",
};

pub(crate) const LONG: Word = Word {
    name: "long",
    form: Form::Letter('l'),
    rule: Rule::Free,
    help: "Prints the most blocks of each object, and no names",
};

/// Whether a command that reads by path reads the whole pool first.
pub(crate) const WHOLE: Word = Word {
    name: "whole",
    form: Form::Flag,
    rule: Rule::Free,
    help: "Reads and checks the whole pool first, and is refused for any damage of it",
};

/// Whether a pool is shown without the blocks in use.
pub(crate) const FAST: Word = Word {
    name: "fast",
    form: Form::Flag,
    rule: Rule::Without("json"),
    help: "Leaves out the blocks in use, so that no block below the directories is read",
};

pub(crate) const HUMAN_READABLE: Word = Word {
    name: "human-readable",
    form: Form::Letter('h'),
    rule: Rule::Free,
    help: "Prints powers of 1024 with one decimal: 3.5M",
};

/// The help of `df`, whose `-h` is another option.
pub(crate) const HELP: Word = Word {
    name: "help",
    form: Form::Help,
    rule: Rule::Free,
    help: "Print help",
};

// `get` and `put`.

pub(crate) const GET_OFFSET: Word = Word {
    name: "offset",
    form: Form::Valued("O", ValueParser::String),
    rule: Rule::Default("0"),
    help: "The first byte, as 4096 or 4K",
};

pub(crate) const LENGTH: Word = Word {
    name: "length",
    form: Form::Valued("L", ValueParser::String),
    rule: Rule::Free,
    help: "The most bytes, if not all up to the object's end",
};

pub(crate) const PUT_OFFSET: Word = Word {
    name: "offset",
    form: Form::Valued("O", ValueParser::String),
    rule: Rule::Free,
    help: "Where the bytes go; without it they replace all that the object has",
};

// `load`.

pub(crate) const LOAD_WORKERS: Word = Word {
    name: "workers",
    form: Form::Valued("W", ValueParser::Unsigned(1, MAX_WORKERS as u64)),
    rule: Rule::Needed,
    help: "The threads that make the writes: 1 to 16",
};

pub(crate) const OPS: Word = Word {
    name: "ops",
    form: Form::Valued("N", ValueParser::Unsigned(0, MAX_WRITES as u64)),
    rule: Rule::Needed,
    help: "The writes of each of the 16 streams: 0 to 1000000",
};

pub(crate) const SEED: Word = Word {
    name: "seed",
    form: Form::Valued("S", NUMBER),
    rule: Rule::Needed,
    help: "The number from which the writes are drawn: below 2^64",
};

// `bench`. Its numbers have limits that the command tests.

pub(crate) const BENCH_SIZE: Word = Word {
    name: "size",
    form: Form::Valued("SIZE", ValueParser::String),
    rule: Rule::Default("64M"),
    help: "The bytes of FILE, as 64M: 6M to 1G, a multiple of 256K",
};

pub(crate) const BENCH_WORKERS: Word = Word {
    name: "workers",
    form: Form::Valued("W", NUMBER),
    rule: Rule::Default("4"),
    help: "The threads that commit: 1 to 64",
};

pub(crate) const BYTES: Word = Word {
    name: "bytes",
    form: Form::Valued("B", ValueParser::String),
    rule: Rule::Default("4096"),
    help: "The bytes of each write: 1 to 64512",
};

pub(crate) const BENCH_SECONDS: Word = Word {
    name: "seconds",
    form: Form::Valued("T", NUMBER),
    rule: Rule::Default("5"),
    help: "How long it takes: 1 to 86400",
};

pub(crate) const DURABLE: Word = Word {
    name: "durable",
    form: Form::Flag,
    rule: Rule::Free,
    help: "Has each call wait until its commit is durable",
};

// `script`.

/// The size of a device in memory.
pub(crate) const MEMORY_SIZE: Word = Word {
    name: "SIZE",
    form: Form::Place(ValueParser::String),
    rule: Rule::InPlaceOf("file"),
    help: SIZE_HELP,
};

pub(crate) const SCRIPT: Word = Word {
    name: "SCRIPT",
    form: Form::Place(ValueParser::String),
    rule: Rule::Needed,
    help: "The path of the script, or - for standard input",
};

pub(crate) const SCRIPT_FILE: Word = Word {
    name: "file",
    form: Form::Valued("FILE", ValueParser::String),
    rule: Rule::Free,
    help: "The path of a file to work on, in place of a device in memory of SIZE bytes",
};

pub(crate) const STOP: Word = Word {
    name: "stop",
    form: Form::Flag,
    rule: Rule::Free,
    help: "Ends the script after the first line that is refused, with status 1",
};

pub(crate) const SYNC: Word = Word {
    name: "sync",
    form: Form::Flag,
    rule: Rule::Without("SIZE"),
    help: "Syncs the pool in FILE at the end; refused with SIZE",
};

// The options of all commands.

pub(crate) const QUIET: Word = Word {
    name: "quiet",
    form: Form::Letter('q'),
    rule: Rule::Free,
    help: "If the command is not done, leaves out the cause; shows no progress",
};

/// Programs give it since the cause was not reported without it.
pub(crate) const VERBOSE: Word = Word {
    name: "verbose",
    form: Form::Letter('v'),
    rule: Rule::Free,
    help: "Changes nothing: the cause is reported without it",
};

pub(crate) const WAIT: Word = Word {
    name: "wait",
    form: Form::Valued("S", ValueParser::Unsigned(0, 86_400)),
    rule: Rule::Free,
    help: "Waits up to S seconds for a FILE that another process has: 0 to 86400",
};
