//! Frames: what a program that isn't written in Rattle asks of a pool, and what it is answered, as bytes.
//!
//! A frame is a list of requests or a list of answers. `docs/FORMATS.md`, "Frames", has the bytes. [`decode_frame`]
//! reads the requests of a frame, whatever bytes it is given; [`encode_answers`] writes the answers, and
//! [`encode_refusal`] the refusal of a frame. [`encode_opening`] and [`encode_unopened`] write the first frame of a
//! program that serves a pool. [`encode_requests`] is what a program does that asks.
#![tactic(auto)]

mod answer;
mod clients;
mod decode;
mod encode;
mod error;
mod laws;
mod limits;
mod listing;
mod opening;
mod reading;
mod request;
mod writing;

pub use answer::{Answer, Outcome};
pub use decode::{answers_room, decode_frame};
pub use encode::{encode_answers, encode_refusal, encode_requests};
pub use error::FrameError;
pub use laws::{frames_agree, frames_read_back};
pub use limits::{FRAME_HEAD, FRAME_VERSION, MAX_FRAME};
pub use listing::{Listed, Listing};
pub use opening::{Opening, encode_opening, encode_unopened};
pub use request::{Call, Request};
