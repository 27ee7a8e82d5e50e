//! Which objects are there, and their lengths, as a frame lists them.

ghost use Rattle.std.specs.Prelude.{◌≡◌, ◌+◌, ◌≤◌, [], List, Result, vec_capacity, vec_len};
ghost use Rattle.base.specs.declared.error.PoolError as error;
ghost use Rattle.serving.specs.Calls.{ListsObjects, listed_below, outcome_of};
ghost use Rattle.frames.specs.declared.answer.Outcome.TheVariants as outcome;
ghost use Rattle.frames.specs.declared.listing.Listed as objects;

use base::{OBJECT_COUNT, ObjectId, PoolError};
use device_model::SectorDevice;
use frames::{Listed, Listing, Outcome};
use pool_threads::Handle;
use std::alloc::Global;
use std::sync::Wait;

/// Lists the objects from the first number on, below the other, as they are at one moment.
pub(crate) fn list_objects<'a, 'b, 'p, D: SectorDevice, W: Wait>(
    handle: &'a mut Handle<'p, D>,
    rt: &'b W,
    alloc: Global,
    first: ObjectId,
    past: ObjectId,
) -> Outcome
    ensures { (listed : Result (List objects.Listed) error.PoolError)
        × ListsObjects first.0 past.0 listed handle.old handle.new
        × (result ≡ outcome_of outcome.Objects listed) }
{
    let most = past.0.saturating_sub(first.0) as usize;
    let Ok(room) = Vec::with_capacity(alloc, most.min(OBJECT_COUNT as usize)) else {
        return Outcome::Refused(PoolError::NoMemory);
    };
    match handle.objects(rt, first, most) {
        Ok(objects) => Outcome::Objects(Listing::new(below(objects, past, room))),
        Err(error) => Outcome::Refused(error),
    }
}

/// The objects of a list that lie below a number. The other list has room for them.
fn below(objects: Vec<(ObjectId, u64)>, past: ObjectId, room: Vec<Listed>) -> Vec<Listed>
    requires room { vec_len room + vec_len objects ≤ vec_capacity room }
    requires empty { room.items ≡ [] }
    ensures { result.items ≡ listed_below past.0 objects.items }
{
    let mut listed = room;
    for (object, length) in objects {
        if object.0 < past.0 {
            listed.push_reserved(Listed { object, length });
        }
    }
    listed
}
