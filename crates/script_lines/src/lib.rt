//! The lines of a script and its answers: a line is read as the command that it asks for, and an answer is printed as
//! a line.
#![tactic(auto)]

mod answer;
mod clients;
mod command;
mod number;
mod status;

pub use answer::Answer;
pub use command::{Command, LineError, PoolCommand, parse_command};
pub use status::{FAILED, REFUSED};
