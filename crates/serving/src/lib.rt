//! The command `serve` of the program `ztxg`: a pool in a file answers the frames of a program in another language. What
//! the program asks by a frame is made on a handle of the pool, and answered by a frame.
//!
//! [`answer_frame`] answers one frame, and [`serve`] all frames of an input. Its answers go to an [`AnswerSink`].
#![tactic(auto)]

mod answering;
mod calls;
mod clients;
mod inputs;
mod listing;
mod serving;
mod sink;
mod unopened;

pub use answering::answer_frame;
pub use inputs::{Ending, serve};
pub use serving::{report_terminal, run_serve, serve_on};
pub use sink::{AnswerSink, AnswerWriter, write_frame};
