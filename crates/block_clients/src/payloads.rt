//! What callers rest on of payloads: what is written into one is read from it, in its place.

ghost use Rattle.std.specs.Prelude.{◌≡◌, false, length, slice_index_or};
ghost use Rattle.base.specs.formats.Fields.{no_pointer, pointer_in};
ghost use Rattle.base.specs.formats.Limits.{payload_size, pointer_count};
ghost use Rattle.tree_blocks.specs.Pointers.{pointer_of_list};

use base::Pointer;
use tree_blocks::{
    Entry, ObjectMap, are_strips, empty_payload, pointer_in, pointer_payload, put_entry,
    read_entry, read_pointers,
};

// A pointer that is written is read from its place, the last one included.
fn a_written_pointer_is_read(pointers: &[Pointer]) -> Pointer
    requires { length pointers.now ≡ pointer_count }
    ensures { result ≡ slice_index_or pointers.now 83 no_pointer }
{
    pointer_in(&pointer_payload(pointers), 83)
}

// And so are all of them.
fn all_pointers_are_read_from_their_places(payload: &[u8], pointers: &mut [Pointer])
    requires payload { length payload.now ≡ payload_size }
    requires pointers { length pointers.old ≡ pointer_count }
    ensures { pointer_of_list pointers.new 83 ≡ pointer_in payload.now 83 }
{
    read_pointers(payload, pointers)
}

// A top has no pointer to a strip that begins at the end of its object: the first strip has 338,688 bytes.
fn a_top_names_no_strip_past_the_length(payload: &[u8]) -> bool
    requires size { length payload.now ≡ payload_size }
    requires second { (pointer_in payload.now 1).address ≡ 4202496 }
    ensures { result ≡ false }
{
    are_strips(payload, 338_688)
}

// The entry of an object of five bytes is read as it was written. The object has one level.
fn a_written_entry_is_read(pointer: Pointer) -> Entry
    ensures present { result.present ≡ 1 }
    ensures length { result.length ≡ 5 }
    ensures pointer { result.pointer ≡ pointer }
{
    let mut payload = empty_payload();
    put_entry(&mut payload, 62, Some(5), pointer);
    read_entry(&payload, 62)
}

// A strip of which the indirect block was read comes before the end of those that were read.
fn a_read_strip_comes_before_the_end(map: &ObjectMap) {
    if map.has_read(5) {
        prove!(map.read_end() > 5);
    }
}
