//! The uberblock arrays of the four labels of a pool with a map, and the active uberblock in them.
//!
//! The rule is that of `uberblocks/src/ring.rt`, with 32 slots of 4,096 bytes in place of 128 of 1,024: of all valid
//! uberblocks of all labels the active one has the highest group, and of equal groups the lowest label's wins. One
//! counts in the slot of its group alone, which is the group modulo 32. So on a disk with sectors of 4,096 bytes no
//! write of a slot touches another uberblock.
//!
//! The search is the same too: label by label, in a label the last slot first, and a check is made only if the fields
//! say that the uberblock would be better than the best so far.

ghost use Rattle.std.specs.Prelude.{◌≡◌, ◌+◌, ◌*◌, ◌%◌, ◌<◌, IfNone, IfSome, length};
ghost use Rattle.uberblocks.specs.Rings.{ring_size};
ghost use Rattle.mapped_labels.specs.Shapes.{mapped_slot_count, mapped_slot_of};
ghost use Rattle.mapped_labels.specs.MappedSlots.{fields_of};
ghost use Rattle.mapped_labels.specs.MappedRings as above;
ghost use Rattle.mapped_labels.specs.MappedRings.{HasNoneInRing, IsActiveInRing, IsBetterAt, position_count, position_of};

use crate::uberblock::{MappedUberblock, SLOT_SIZE, read_slot};
use base::{Group, read_u64};
use uberblocks::LABEL_COUNT;

/// The slots of a label's uberblock array.
pub const SLOT_COUNT: usize = 32;

/// The slot of a group's uberblock: the group modulo 32.
pub fn slot(group: Group) -> usize
    ensures slot { result ≡ mapped_slot_of group.0 }
    ensures in_array { result < mapped_slot_count }
{
    (group.0 % SLOT_COUNT as u64) as usize
}

/// The active uberblock of the arrays of labels 0 to 3, which follow one another, 131,072 bytes each.
///
/// It is the one of the highest group among the valid uberblocks that lie in the slot of their group. If several labels
/// have that group, it is the lowest label's. It is `None` if no valid one lies in the slot of its group. In a ring that
/// syncs wrote few checks are made.
pub fn active(ring: &[u8]) -> Option<MappedUberblock>
    requires { length ring.now ≡ ring_size }
    ensures active { IfSome result (λ u. IsActiveInRing ring.now (fields_of u)) }
    ensures none { IfNone result (HasNoneInRing ring.now) }
{
    let mut best = None;
    for count in 0..LABEL_COUNT * SLOT_COUNT {
        best = better(ring, position(count), best);
    }
    best
}

/// The position that is looked at after so many others. The slots of label 0 have the positions 0 to 31, those of
/// label 1 have 32 to 63, and so on. In a label the last slot is looked at first.
fn position(count: usize) -> usize
    requires { count < position_count }
    ensures position { result ≡ position_of count }
    ensures in_range { result < position_count }
{
    SLOT_COUNT * (count / SLOT_COUNT) + (SLOT_COUNT - 1 - count % SLOT_COUNT)
}

/// The uberblock that stands at a position if its group is above that of the best so far, and otherwise the best.
fn better(ring: &[u8], position: usize, best: Option<MappedUberblock>) -> Option<MappedUberblock>
    requires size { length ring.now ≡ ring_size }
    requires in_range { position < position_count }
    ensures { IsBetterAt ring.now position best result }
{
    let place = SLOT_SIZE * position;
    let bytes = &ring[place..place + SLOT_SIZE];
    let group = Group(read_u64(bytes, 16));
    if slot(group) != position % SLOT_COUNT || !is_above(group, best) {
        return best;
    }
    match read_slot(bytes) {
        Some(found) => Some(found),
        None => best,
    }
}

/// Whether a group is above that of the best so far, if there is one.
fn is_above(group: Group, best: Option<MappedUberblock>) -> bool
    ensures { result ≡ above.is_above group.0 best }
{
    match best {
        Some(best) => group.0 > best.state.group.0,
        None => true,
    }
}
