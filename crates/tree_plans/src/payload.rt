//! The payloads of directories after a plan.

ghost use Rattle.std.specs.Prelude.{◌≡◌, ◌<◌, length};
ghost use Rattle.std.specs.List.{list_any};
ghost use Rattle.base.specs.formats.Limits.{entry_count, object_count, payload_size, pointer_count};
ghost use Rattle.tree_plans.specs.Changes.{has_address};
ghost use Rattle.tree_plans.specs.Pointers.{entry_pointer_of, planned_pointer};
ghost use Rattle.tree_plans.specs.Walks.{AreEntriesWritten};

use crate::plan_source::PlanSource;
use base::{ENTRY_COUNT, ObjectId, Pointer};
use checked_blocks::PAYLOAD_SIZE;
use std::collections::BTreeMap;
use tree_blocks::{ObjectEntry, ObjectSource, empty_payload, put_entry};

/// Whether one of these pointers names a block.
pub fn has_block(pointers: &[Pointer]) -> bool
    ensures { result ≡ list_any has_address pointers.now }
{
    pointers.iter().any(|pointer| pointer.address != 0)
}

/// The payload of a directory: an entry for each of its objects that is there, and zeros for the others.
pub fn directory_payload<O: ObjectSource>(
    after: &O,
    source: &PlanSource<'_>,
    entries: &BTreeMap<ObjectId, ObjectEntry>,
    directory: usize,
) -> [u8; PAYLOAD_SIZE]
    requires { directory < pointer_count }
    ensures size { length result ≡ payload_size }
    ensures entries { AreEntriesWritten (entry_pointer_of source.now.tree.now.entries.items)
        entries.now.entries (O.objects after.now) directory entry_count result }
{
    let mut payload = empty_payload();
    for index in 0..ENTRY_COUNT {
        let id = ObjectId((ENTRY_COUNT * directory + index) as u32);
        let pointer = planned_pointer(source, entries, id);
        put_entry(&mut payload, index, after.length(id), pointer);
    }
    payload
}

// The pointer in the entry of an object after the plan.
fn planned_pointer(
    source: &PlanSource<'_>,
    entries: &BTreeMap<ObjectId, ObjectEntry>,
    id: ObjectId,
) -> Pointer
    requires { id.0 < object_count }
    ensures { result ≡ planned_pointer (entry_pointer_of source.now.tree.now.entries.items)
        entries.now.entries id.0 }
{
    match entries.get(&id) {
        Some(entry) => entry.pointer,
        None => source.tree.entries[id.0 as usize].pointer,
    }
}
