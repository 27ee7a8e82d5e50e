//! The commands of the program `ztxg` that only read the pool in a file: it is shown, checked, its objects, labels and
//! space are listed, or the bytes of an object read. They print lines, or JSON. And what each command needs, also one that
//! changes a pool: why it was not done, and how far it is, on a terminal.
//!
//! Names of objects stand in object 0 (`docs/FORMATS.md`, "Names of objects"). What changes them is in `commands`.
//!
//! The line that says how far a command is stands on standard error. It is written again in place, and is gone at the end.
//!
//! 1. There is none if standard error is no terminal, or if the command is to be quiet (`shows_progress`).
//! 2. A [`ShownDevice`] counts the bytes that a command reads and writes, into the command's [`ShownWork`]. The line has
//!    them after a second, and is written again at most four times a second (`pace.rt`).
//! 3. A [`ClearedWriter`] clears the line before each text that a command writes. So no text stands beside it.
//! 4. Whoever makes the [`ProgressLine`] drops it at the end, and that clears it.
//!
//! The crate knows no command line: each command is given its arguments by a type of `command_arguments`.
#![tactic(auto)]

mod bad_number;
mod check_all;
mod checks;
mod cleared_writer;
mod clients;
mod dispatch;
mod failure;
mod json_checks;
mod json_labels;
mod json_reports;
mod label_lines;
mod label_states;
mod label_texts;
mod labels_read;
mod lists;
mod long_list;
mod name_causes;
mod name_tables;
mod named_gets;
mod named_lists;
mod names;
mod object_blocks;
mod pace;
mod pool_space;
mod progress_line;
mod ranges;
mod reads;
mod show;
mod shown_device;
mod shown_work;
mod waiting;

pub use bad_number::BadNumber;
pub use check_all::{Found, check_to_end, find_opened, run_check_all};
pub use checks::{Finding, check_opened, check_pool, run_check};
pub use cleared_writer::ClearedWriter;
pub use dispatch::{run_opened, run_read};
pub use failure::{Failure, NotesRefusals, report_failure, report_refusal};
pub use json_checks::{run_json_check, run_json_check_all};
pub use json_labels::run_json_labels;
pub use json_reports::{run_json_list, run_json_show};
pub use label_lines::{ConfigFound, read_labels, read_opened_labels, run_labels};
pub use label_states::{ConfigState, LabelState, is_some_whole, is_whole, read_states};
pub use labels_read::Labels;
pub use lists::{list_objects, list_opened};
pub use long_list::run_long_list;
pub use name_causes::{NameCause, NameFailure, report_name_failure};
pub use name_tables::{TABLE_RANGE, read_table, table_of};
pub use named_gets::run_get_named;
pub use named_lists::{NamedList, list_names, run_list_named};
pub use names::{FileName, Quoted};
pub use pool_space::run_space;
pub use progress_line::{ProgressLine, shows_progress};
pub use ranges::read_object;
pub use reads::run_get;
pub use show::{inspect_opened, run_show, run_show_fast};
pub use shown_device::ShownDevice;
pub use shown_work::ShownWork;
pub use waiting::{NewFile, open_within};
