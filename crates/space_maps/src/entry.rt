//! The entries of a map's node: what it says of each node below it.

ghost use Rattle.std.specs.Prelude.{◌≡◌, ◌≢◌, ◌≤◌, ◌<◌, ◌+◌, ◌*◌, ℕ, get_or, length};
ghost use Rattle.base.specs.formats.Limits.{payload_size};
ghost use Rattle.checked_blocks.specs.Sealing.{zeros};
ghost use Rattle.mapped_labels.specs.Shapes.{fan};
ghost use Rattle.mapped_labels.specs.Entries.{no_entry};
ghost use Rattle.space_maps.specs.Nodes.{map_entry_in};

use checked_blocks::PAYLOAD_SIZE;
use mapped_labels::{MAP_ENTRY_SIZE, MapEntry, read_map_entry, write_map_entry};

/// The entries of a map node.
pub const FAN: usize = 72;

/// The entry of this index in the payload of a map node.
pub fn entry_in(payload: &[u8], index: usize) -> MapEntry
    requires size { length payload.now ≡ payload_size }
    requires index { index < fan }
    ensures { result ≡ map_entry_in payload.now index }
{
    read_map_entry(payload, MAP_ENTRY_SIZE * index)
}

// Writes the entry of this index.
fn put_entry(payload: &mut [u8], index: usize, entry: MapEntry)
    requires size { length payload.old ≡ payload_size }
    requires index { index < fan }
    ensures size { length payload.new ≡ payload_size }
    ensures here { map_entry_in payload.new index ≡ entry }
    ensures others { (e : ℕ) → e ≢ index
        → map_entry_in payload.new e ≡ map_entry_in payload.old e }
{
    write_map_entry(payload, MAP_ENTRY_SIZE * index, entry);
}

/// A payload of zeros.
pub(crate) fn zero_payload() -> [u8; PAYLOAD_SIZE]
    ensures { result ≡ zeros payload_size }
{
    [0; PAYLOAD_SIZE]
}

// The payload of a map node without entries.
fn empty_payload() -> [u8; PAYLOAD_SIZE]
    ensures size { length result ≡ payload_size }
    ensures none { (e : ℕ) → e < fan → map_entry_in result e ≡ no_entry }
{
    zero_payload()
}

/// The payload of a map node with these entries, at most 72, and zeros after them.
pub fn entries_payload(entries: &[MapEntry]) -> [u8; PAYLOAD_SIZE]
    requires { length entries.now ≤ fan }
    ensures size { length result ≡ payload_size }
    ensures entries { (e : ℕ) → e < fan → map_entry_in result e ≡ get_or entries.now e no_entry }
{
    let mut payload = empty_payload();
    for index in 0..entries.len() {
        put_entry(&mut payload, index, entries[index]);
    }
    payload
}
