//! Pools with a map of their free blocks: where their parts lie on a device, what a map says of a node, and their
//! uberblocks.
#![tactic(auto)]

mod clients;
mod geometry;
mod laws;
mod map_entry;
mod ring;
mod side;
mod uberblock;

pub use geometry::{MAX_MAPPED_SIZE, MappedGeometry};
pub use laws::{
    actives_agree, mapped_is_not_plain, readings_agree, rings_show_images, slots_differ,
    slots_read_back,
};
pub use map_entry::{MAP_ENTRY_SIZE, MapEntry, read_map_entry, write_map_entry};
pub use ring::{SLOT_COUNT, active, slot};
pub use side::Side;
pub use uberblock::{MAPPED_VERSION, MappedUberblock, SLOT_SIZE};
