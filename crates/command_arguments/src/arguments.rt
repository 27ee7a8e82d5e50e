//! The arguments of the program: which command, and what it works on.

use crate::bench::BenchOrder;
use crate::order::Order;
use crate::reports::{
    ListArguments, ReportArguments, ReportForm, Scope, ShowArguments, SpaceArguments,
};

/// How much is reported of a command that was not done.
#[derive(Clone, Copy)]
pub enum Verbosity {
    /// That it was not done, in one line.
    Quiet,
    /// Also the cause, in a second line.
    WithCause,
}

/// What a command is given whichever it is.
#[derive(Clone, Copy)]
pub struct Options {
    /// How much is reported if it was not done.
    pub verbosity: Verbosity,
    /// For how many seconds it tries to open a file that another process has.
    pub wait: u32,
}

/// Which of the process's standard streams are terminals.
#[derive(Clone, Copy)]
pub struct Terminals {
    /// Standard input.
    pub input: bool,
    /// Standard output.
    pub output: bool,
    /// Standard error.
    pub errors: bool,
}

/// A command of the program, with its arguments.
#[derive(Clone, Copy)]
pub enum Arguments<'a> {
    /// One that only reads the pool's file.
    Read(ReadCommand<'a>),
    /// One that makes or changes a pool by one transaction after the other.
    Change(ChangeCommand<'a>),
    /// `ztxg copy`.
    Copy(CopyArguments<'a>),
    /// `ztxg load`.
    Load(LoadArguments<'a>),
    /// `ztxg script`.
    Script(ScriptArguments<'a>),
    /// `ztxg serve`.
    Serve(ServeArguments<'a>),
    /// `ztxg bench`.
    Bench(BenchArguments<'a>),
}

/// A command that only reads the pool's file.
#[derive(Clone, Copy)]
pub enum ReadCommand<'a> {
    /// `ztxg show`.
    Show(ShowArguments<'a>),
    /// `ztxg check`.
    Check(CheckArguments<'a>),
    /// `ztxg ls`.
    List(ListArguments<'a>),
    /// `ztxg df`.
    Space(SpaceArguments<'a>),
    /// `ztxg labels`.
    Labels(ReportArguments<'a>),
    /// `ztxg get` of an object by its number.
    Get(GetArguments<'a>, Scope),
    /// `ztxg get` of an object by its name.
    GetNamed(GetNamedArguments<'a>, Scope),
}

/// A command that makes or changes a pool by one transaction after the other.
#[derive(Clone, Copy)]
pub enum ChangeCommand<'a> {
    /// `ztxg create` with a name, a guid and a size.
    Create(CreateArguments<'a>),
    /// `ztxg create` with `--size`.
    CreateSized(SizedArguments<'a>),
    /// `ztxg put` of an object by its number.
    Put(PutArguments<'a>),
    /// `ztxg put` of an object by its name.
    PutNamed(PutNamedArguments<'a>),
    /// `ztxg rm` of an object by its number.
    Remove(RemoveArguments<'a>),
    /// `ztxg rm` of an object by its name.
    RemoveNamed(RemoveNamedArguments<'a>),
}

/// The device that a script works on.
#[derive(Clone, Copy)]
pub enum ScriptDevice<'a> {
    /// A device in memory, of this many bytes.
    Memory(u64),
    /// The file at this path, which has to exist.
    File(&'a str),
}

/// The arguments of `ztxg script`.
#[derive(Clone, Copy)]
pub struct ScriptArguments<'a> {
    /// The device that the script works on.
    pub device: ScriptDevice<'a>,
    /// The path of the script, or `-` for standard input.
    pub script: &'a str,
    /// The moment, in seconds, of each uberblock that the run writes.
    pub moment: u64,
    /// Whether the first refused line ends the script.
    pub stops: bool,
    /// Whether a pool in a file is synced at the end.
    pub syncs: bool,
}

/// The arguments of `ztxg create`.
#[derive(Clone, Copy)]
pub struct CreateArguments<'a> {
    /// The path of the pool's file.
    pub file: &'a str,
    /// The pool's name.
    pub name: &'a str,
    /// The pool's guid.
    pub guid: u64,
    /// The bytes of the file.
    pub size: u64,
    /// Whether a file that exists already is refused.
    pub only_new: bool,
    /// The moment, in seconds, of the new pool's uberblocks.
    pub moment: u64,
}

/// The arguments of `ztxg create` with `--size`.
#[derive(Clone, Copy)]
pub struct SizedArguments<'a> {
    /// The path of the pool's file.
    pub file: &'a str,
    /// The pool's name, if it isn't the file's.
    pub name: Option<&'a str>,
    /// The pool's guid.
    pub guid: u64,
    /// The bytes of the file.
    pub size: u64,
    /// Whether a file that exists already is refused.
    pub only_new: bool,
    /// Whether a pool that the file has is replaced.
    pub force: bool,
    /// The moment, in seconds, of the new pool's uberblocks.
    pub moment: u64,
}

/// The arguments of `ztxg copy`.
#[derive(Clone, Copy)]
pub struct CopyArguments<'a> {
    /// The path of the old pool's file.
    pub old: &'a str,
    /// The path of the new pool's file, which is made.
    pub new: &'a str,
    /// The bytes of the new file, if they aren't those of the old one.
    pub size: Option<u64>,
    /// The new pool's guid.
    pub guid: u64,
    /// Whether what can't be read is passed over.
    pub skips_damaged: bool,
    /// The moment, in seconds, of the new pool's uberblocks.
    pub moment: u64,
}

/// The arguments of `ztxg check`.
#[derive(Clone, Copy)]
pub struct CheckArguments<'a> {
    /// The path of the pool's file.
    pub file: &'a str,
    /// Whether it goes on after a damage.
    pub all: bool,
    /// How the report is printed.
    pub form: ReportForm,
}

/// The arguments of `ztxg load`.
#[derive(Clone, Copy)]
pub struct LoadArguments<'a> {
    /// The path of the pool's file.
    pub file: &'a str,
    /// The workers, and the writes of each stream.
    pub order: Order,
    /// The most bytes that unsynced transactions may be charged.
    pub dirty_max: u64,
    /// The most tree blocks that stay in memory once they were read.
    pub cache_blocks: u64,
    /// The moment, in seconds, of each uberblock that the run writes.
    pub moment: u64,
}

/// The arguments of `ztxg get`.
#[derive(Clone, Copy)]
pub struct GetArguments<'a> {
    /// The path of the pool's file.
    pub file: &'a str,
    /// The object's number.
    pub object: u32,
    /// The first byte that is read.
    pub offset: u64,
    /// The most bytes that are read, if it isn't all of them.
    pub length: Option<u64>,
}

/// The arguments of `ztxg put`.
#[derive(Clone, Copy)]
pub struct PutArguments<'a> {
    /// The path of the pool's file.
    pub file: &'a str,
    /// The object's number.
    pub object: u32,
    /// Where the bytes go in the object, if they don't replace all of it.
    pub offset: Option<u64>,
    /// The moment, in seconds, of each uberblock that the run writes.
    pub moment: u64,
}

/// The arguments of `ztxg rm`.
#[derive(Clone, Copy)]
pub struct RemoveArguments<'a> {
    /// The path of the pool's file.
    pub file: &'a str,
    /// The object's number.
    pub object: u32,
    /// The moment, in seconds, of each uberblock that the run writes.
    pub moment: u64,
}

/// The arguments of `ztxg get FILE @NAME`.
#[derive(Clone, Copy)]
pub struct GetNamedArguments<'a> {
    /// The path of the pool's file.
    pub file: &'a str,
    /// The object's name.
    pub name: &'a str,
    /// The first byte that is read.
    pub offset: u64,
    /// The most bytes that are read, if it isn't all of them.
    pub length: Option<u64>,
}

/// The arguments of `ztxg put FILE @NAME`.
#[derive(Clone, Copy)]
pub struct PutNamedArguments<'a> {
    /// The path of the pool's file.
    pub file: &'a str,
    /// The object's name.
    pub name: &'a str,
    /// Where the bytes go in the object, if they don't replace all of it.
    pub offset: Option<u64>,
    /// The moment, in seconds, of each uberblock that the run writes.
    pub moment: u64,
}

/// The arguments of `ztxg rm FILE @NAME`.
#[derive(Clone, Copy)]
pub struct RemoveNamedArguments<'a> {
    /// The path of the pool's file.
    pub file: &'a str,
    /// The object's name.
    pub name: &'a str,
    /// The moment, in seconds, of each uberblock that the run writes.
    pub moment: u64,
}

/// The arguments of `ztxg serve`.
#[derive(Clone, Copy)]
pub struct ServeArguments<'a> {
    /// The path of the pool's file.
    pub file: &'a str,
    /// The most bytes that unsynced transactions may be charged.
    pub dirty_max: u64,
    /// The most tree blocks that stay in memory once they were read.
    pub cache_blocks: u64,
    /// The moment, in seconds, of each uberblock that it writes.
    pub moment: u64,
}

/// The arguments of `ztxg bench`.
#[derive(Clone, Copy)]
pub struct BenchArguments<'a> {
    /// The path of the file, which is made new, and removed at the end.
    pub file: &'a str,
    /// The bytes of the file.
    pub size: u64,
    /// What is timed.
    pub order: BenchOrder,
    /// The most bytes that unsynced transactions may be charged.
    pub dirty_max: u64,
}
