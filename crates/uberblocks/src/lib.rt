//! Uberblocks: the record that names the state of a pool, and the choice of the active one
//! (ZFS On-Disk Specification, chapter 1).
//!
//! Each of the four labels has an array of 128 slots of 1,024 bytes. An uberblock lies in the slot of
//! its group and carries a SHA-256 check (FIPS 180-4). Of the valid ones the active one has the
//! highest group.
#![tactic(auto)]

mod clients;
mod laws;
mod ring;
mod uberblock;

pub use laws::{
    actives_agree, readings_agree, rings_show_images, slots_are_spelled_once, slots_differ,
    slots_read_back,
};
pub use ring::{ARRAY_SIZE, LABEL_COUNT, SLOT_COUNT, active, slot};
pub use uberblock::{MAGIC, SLOT_SIZE, Uberblock};
