//! Objects by name: a table of names in object 0 of a pool (`docs/FORMATS.md`, "Names of objects").
//!
//! The crate knows the bytes alone. What reads and writes object 0 is above it.
#![tactic(auto)]

mod clients;
mod laws;
mod name;
mod name_table;
mod slot;

pub use laws::slots_change_one_name;
pub use name::{MAX_OBJECT_NAME, is_object_name};
pub use name_table::{NameTable, NoNameTable};
pub use slot::{HEADER_SLOT, SLOT_SIZE, empty_slot, header_slot, slot_of, slot_place};
