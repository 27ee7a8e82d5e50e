//! What was read of the four labels of a device.

ghost use Rattle.std.specs.Prelude.{◌≡◌, vec_len};
ghost use Rattle.uberblocks.specs.Rings.{ring_size};

use crate::label_lines::ConfigFound;

/// What the four labels of a device hold.
#[derive(Drop)]
pub struct Labels {
    /// What stands in the places of the four configs.
    pub configs: [ConfigFound; 4],
    /// The uberblock arrays, which follow one another.
    pub(crate) ring: Vec<u8>,
    ghost size: { vec_len ring ≡ ring_size },
}
