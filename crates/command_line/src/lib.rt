//! The command line of the program `ztxg`: its words, their help, and what they ask for.
//!
//! `read_request` matches the words against the commands (`commands.rt`, of the words in `options.rt`), and reads what
//! they matched as the `Arguments` of `command_arguments`.
#![tactic(auto)]

mod bad_words;
mod commands;
mod help;
mod options;
mod parse;
mod read;
mod request;
mod words;

pub use bad_words::BadWord;
pub use help::VERSION;
pub use request::{Defaults, Notice, Request, read_request, read_words};
