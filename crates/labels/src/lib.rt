//! Where the parts of a pool lie on its device, and the config that each of its four labels holds.
#![tactic(auto)]

mod choice;
mod clients;
mod config;
mod geometry;
mod laws;
mod stage;

pub use base::SECTOR_SIZE;
pub use choice::{choose, is_kept_in_odd};
pub use config::LabelConfig;
pub use geometry::{ARRAY_AT, Geometry, LABEL_SIZE, MAX_SIZE, MIN_SIZE};
pub use laws::{choices_are_chosen, configs_are_told_apart, configs_read_back};
pub use stage::Stage;
