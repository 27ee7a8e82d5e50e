//! The blocks with the pointers of an object, as a read goes down to them: the top of an object of two levels, and the
//! indirect block of one strip after the other.
//!
//! Each block is read from the device. What is in memory under a block's address is taken by no read: in a damaged tree
//! it may be the block of another place.

ghost use Rattle.std.specs.Prelude.{◌≡◌, None, false, length};
ghost use Rattle.base.specs.formats.Limits.{payload_size};

use checked_blocks::PAYLOAD_SIZE;

/// The payloads of the blocks with the pointers of an object, once they are read: that of its top, and that of the
/// indirect block of the strip that was read last.
#[derive(Drop)]
pub struct PathBlocks {
    pub(crate) top: [u8; PAYLOAD_SIZE],
    pub(crate) is_top_read: bool,
    pub(crate) indirect: [u8; PAYLOAD_SIZE],
    // The index of that strip.
    pub(crate) strip: Option<usize>,
    ghost top_sized: { length top ≡ payload_size },
    ghost indirect_sized: { length indirect ≡ payload_size },
}

impl PathBlocks {
    /// No block is read yet.
    pub fn new() -> Self
        ensures top { result.is_top_read ≡ false }
        ensures strip { result.strip ≡ None }
    {
        PathBlocks {
            top: [0; PAYLOAD_SIZE],
            is_top_read: false,
            indirect: [0; PAYLOAD_SIZE],
            strip: None,
        }
    }
}
