//! How the durable transactions of a frame become durable, before their answers go out.
//!
//! [`make_durable`] makes one flush of the log for all of them.
#![tactic(auto)]

mod durability;

pub use durability::make_durable;
