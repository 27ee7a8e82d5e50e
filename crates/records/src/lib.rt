//! The record of a transaction in the intent log (`zil.c`): its bytes, its size and its limits.
#![tactic(auto)]

mod laws;
mod reading;
mod record;
mod shapes;
mod writing;

pub use laws::{records_agree, records_read_back};
pub use record::{Record, decode_record, encode_into, encode_record, is_one_level};
pub use shapes::{is_shape_allowed, is_too_large, record_size};
