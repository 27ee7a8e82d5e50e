//! A disk that is read and written in whole sectors, and what a crash may leave of it.
//!
//! `SectorDevice` says what each call does to the disk over time. `MemDevice` is such a disk in memory: it fails as a
//! plan says, and crashes on demand. Devices on files are in the crate `file_devices`.
#![tactic(auto)]

mod clients;
mod device;
mod fault;
mod memory;
mod noted_bytes;
mod notes;

pub use device::SectorDevice;
pub use fault::Fault;
pub use memory::MemDevice;
