//! The map of free blocks that a pool of a large device has on its disk.
#![tactic(auto)]

mod bits;
mod clients;
mod entry;
mod laws;
mod node;
mod reading;
mod regions;

pub use bits::{BIT_COUNT, bit_in, clear_bit, count_bits, no_bits, set_bit};
pub use entry::{FAN, entries_payload, entry_in};
pub use laws::{firm_maps_stand, maps_follow, other_sides_are_spare};
pub use node::{NodeBlock, NodeKind, open_node, seal_node};
pub use reading::{is_entry_of, read_node, take_used, test_bits, test_entries};
pub use regions::bits_after;
