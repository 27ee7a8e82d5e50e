//! The uberblock arrays of the four labels, and the active uberblock in them.
//!
//! The rule is that of chapter 1 of the On-Disk Specification, which `vdev_uberblock_load` in OpenZFS's
//! `vdev_label.c` carries out: of all valid uberblocks of all labels the active one has the highest transaction
//! group. An uberblock is written to each label, so up to four have that group. They are the same, unless a crash
//! came between their writes. OpenZFS goes on to compare their times; here the lowest label wins, since the times
//! come from the caller.
//!
//! An uberblock counts in the slot of its group alone, which is the group modulo 128. So 128 groups pass before a
//! slot is written again, and the uberblock of the group before stands untouched while the next is written. A valid
//! one elsewhere was never written there, and is passed over.
//!
//! The search keeps the best uberblock so far and looks at 512 slots, label by label. In a label the last slot comes
//! first, as groups rise from slot to slot: then most others are below the best. Fields cost little and the check
//! much, so a slot's check is made only if its fields say that it would be better. What is found does not depend
//! on it:
//!
//! 1. after each slot the best is the active uberblock of the slots that were looked at (`IsBetterAt` says it of one);
//! 2. a slot that is not above the best changes nothing, so of equal groups the first label's stays;
//! 3. two slots of one label never count with the same group, so the order within a label decides nothing.

ghost use Rattle.std.specs.Prelude.{◌≡◌, ◌+◌, ◌*◌, ◌%◌, ◌<◌, IfNone, IfSome, length};
ghost use Rattle.base.specs.formats.Geometry.{slot_of};
ghost use Rattle.uberblocks.specs.Slots.{fields_of};
ghost use Rattle.uberblocks.specs.Rings as above;
ghost use Rattle.uberblocks.specs.Rings.{HasNoneInRing, IsActiveInRing, IsBetterAt, position_count, position_of, ring_size};

use crate::uberblock::{SLOT_SIZE, Uberblock, read_slot};
use base::{Group, read_u64};

/// The labels of a device.
pub const LABEL_COUNT: usize = 4;

/// The slots of a label's uberblock array.
pub const SLOT_COUNT: usize = 128;

/// The bytes of a label's uberblock array.
pub const ARRAY_SIZE: usize = 131_072;

/// The slot of a group's uberblock: the group modulo 128 (On-Disk Specification, chapter 1).
pub fn slot(group: Group) -> usize
    ensures { result ≡ slot_of group.0 }
{
    (group.0 % SLOT_COUNT as u64) as usize
}

/// The active uberblock of the arrays of labels 0 to 3, which follow one another, 131,072 bytes each.
///
/// It is the one of the highest group among the valid uberblocks that lie in the slot of their group. If several labels
/// have that group, it is the lowest label's (On-Disk Specification, chapter 1). It is `None` if no valid one lies in
/// the slot of its group. In a ring that syncs wrote few checks are made.
pub fn active(ring: &[u8]) -> Option<Uberblock>
    requires { length ring.now ≡ ring_size }
    ensures active { IfSome result (λ u. IsActiveInRing ring.now (fields_of u)) }
    ensures none { IfNone result (HasNoneInRing ring.now) }
{
    let mut best = None;
    for count in 0..LABEL_COUNT * SLOT_COUNT {
        best = better(ring, position(count), best);
    }
    best
}

/// The position that is looked at after so many others. The slots of label 0 have the positions 0 to 127, those of
/// label 1 have 128 to 255, and so on.
///
/// In a label groups mostly rise from slot to slot. So the last slot is looked at first: then most of the others are
/// not above it.
fn position(count: usize) -> usize
    requires { count < position_count }
    ensures position { result ≡ position_of count }
    ensures in_range { result < position_count }
{
    SLOT_COUNT * (count / SLOT_COUNT) + (SLOT_COUNT - 1 - count % SLOT_COUNT)
}

/// The uberblock that stands at a position if its group is above that of the best so far, and otherwise the best.
///
/// A slot's check costs more than all its fields, and is made only if these say that it would be better.
fn better(ring: &[u8], position: usize, best: Option<Uberblock>) -> Option<Uberblock>
    requires size { length ring.now ≡ ring_size }
    requires in_range { position < position_count }
    ensures { IsBetterAt ring.now position best result }
{
    let place = SLOT_SIZE * position;
    let bytes = &ring[place..place + SLOT_SIZE];
    let group = Group(read_u64(bytes, 16));
    if slot(group) != position % SLOT_COUNT || !is_above(group, best) {
        return best;
    }
    match read_slot(bytes) {
        Some(found) => Some(found),
        None => best,
    }
}

/// Whether a group is above that of the best so far, if there is one.
fn is_above(group: Group, best: Option<Uberblock>) -> bool
    ensures { result ≡ above.is_above group.0 best }
{
    match best {
        Some(best) => group.0 > best.group.0,
        None => true,
    }
}
