//! Entries of a map of free blocks: what a node says of each node below it, and what an uberblock says of the highest
//! node.

ghost use Rattle.std.specs.Prelude.{◌≡◌, ◌≤◌, ◌+◌, length};
ghost use Rattle.base.specs.disk.Disk.{put};
ghost use Rattle.mapped_labels.specs.Entries.{map_entry_at, map_entry_bytes};

use base::{POINTER_SIZE, Pointer, read_pointer, read_u64, write_pointer, write_u64};

/// The bytes of an entry: 48 of a pointer, 8 of a count.
pub const MAP_ENTRY_SIZE: usize = 56;

/// What a map says of a node.
#[derive(Clone, Copy, PartialEq, Eq)]
pub struct MapEntry {
    /// The pointer to the node's live side. None if all blocks below the node are free.
    pub pointer: Pointer,
    /// How many blocks below it are free.
    pub count: u64,
}

/// The entry of 56 bytes at a place.
pub fn read_map_entry(bytes: &[u8], at: usize) -> MapEntry
    requires { at + 56 ≤ length bytes.now }
    ensures { result ≡ map_entry_at bytes.now at }
{
    MapEntry {
        pointer: read_pointer(bytes, at),
        count: read_u64(bytes, at + POINTER_SIZE),
    }
}

/// Writes an entry's 56 bytes at a place.
pub fn write_map_entry(bytes: &mut [u8], at: usize, entry: MapEntry)
    requires { at + 56 ≤ length bytes.old }
    ensures { bytes.new ≡ put at (map_entry_bytes entry) bytes.old }
{
    write_pointer(bytes, at, &entry.pointer);
    write_u64(bytes, at + POINTER_SIZE, entry.count);
}
