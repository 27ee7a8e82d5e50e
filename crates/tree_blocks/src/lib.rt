//! The blocks of a tree: their places, what they hold, and the form that a tree has in memory.
#![tactic(auto)]

mod forms;
mod object_map;
mod payload;
mod place;
mod set_entries;
mod source;
mod strips;
mod told_bytes;
mod told_objects;
mod told_strips;
mod tree;

pub use forms::{
    Entry, are_entries, are_records, are_strips, have_form, pointer_in, read_entry, read_pointers,
};
pub use object_map::{ObjectMap, pointer_of_list};
pub use payload::{empty_payload, pointer_payload, put_entry};
pub use place::{BlockPlace, RecordPlace};
pub use source::ObjectSource;
pub use strips::{record_number, strip_number, strip_of};
pub use told_bytes::{BytesView, no_bytes, with_bytes, zero_bytes};
pub use told_objects::{ObjectsView, no_objects, with_object};
pub use told_strips::{StripsView, no_strips, with_strip};
pub use tree::{ObjectEntry, RECORD_COUNT, Tree, empty_entries, is_long};
