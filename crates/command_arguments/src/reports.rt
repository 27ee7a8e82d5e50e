//! The arguments of the commands that report on a pool.

/// How a report is printed.
#[derive(Clone, Copy)]
pub enum ReportForm {
    /// In lines, for people and for scripts.
    Lines,
    /// As one object of JSON, in one line.
    Json,
}

/// How much of a pool a command reads and checks.
#[derive(Clone, Copy)]
pub enum Scope {
    /// The blocks alone that lead to what is asked for.
    Path,
    /// Each block of the pool, as an import does.
    Whole,
}

/// How a pool is shown.
#[derive(Clone, Copy)]
pub enum ShowForm {
    /// In lines, without the blocks in use: no block below the directories is read.
    Fast,
    /// In lines, for people and for scripts.
    Lines,
    /// As one object of JSON, in one line.
    Json,
}

/// The arguments of `ztxg show`.
#[derive(Clone, Copy)]
pub struct ShowArguments<'a> {
    /// The path of the pool's file.
    pub file: &'a str,
    /// How the pool is shown.
    pub form: ShowForm,
}

/// The arguments of `ztxg labels`.
#[derive(Clone, Copy)]
pub struct ReportArguments<'a> {
    /// The path of the pool's file.
    pub file: &'a str,
    /// How the report is printed.
    pub form: ReportForm,
}

/// How a list of objects is printed.
#[derive(Clone, Copy)]
pub enum ListForm {
    /// A line for each object: its number and its length.
    Short,
    /// Also the most blocks that it may have.
    Long,
    /// As one object of JSON, in one line.
    Json,
}

/// The arguments of `ztxg ls`.
#[derive(Clone, Copy)]
pub struct ListArguments<'a> {
    /// The path of the pool's file.
    pub file: &'a str,
    /// How the list is printed.
    pub form: ListForm,
    /// How much of the pool is read.
    pub scope: Scope,
}

/// The unit of a number of bytes that is printed.
#[derive(Clone, Copy)]
pub enum SpaceUnit {
    /// Single bytes.
    Bytes,
    /// The greatest power of 1,024 that isn't above the number, with one decimal.
    Powers,
}

/// The arguments of `ztxg df`.
#[derive(Clone, Copy)]
pub struct SpaceArguments<'a> {
    /// The path of the pool's file.
    pub file: &'a str,
    /// The unit of the numbers.
    pub unit: SpaceUnit,
}
