//! Devices on files: a pool on one outlives the process.
//!
//! A [`FileDevice`] is a `SectorDevice` of `device_model` on a regular file or a block device, whose lock it holds. It
//! keeps the model of a disk if its [`SectorFile`] does; of the bytes of a file of the system nothing is claimed. It
//! has the last call that it refused, with the cause ([`RefusedCall`]). Opening a file for it may be refused
//! ([`FileRefusal`]).
#![tactic(auto)]

mod clients;
mod file;
mod held_file;
mod refused_call;
mod sector_file;

pub use file::FileDevice;
pub use held_file::{Access, FileRefusal, HeldFile};
pub use refused_call::{CallCause, FileCall, RefusedCall};
pub use sector_file::SectorFile;
