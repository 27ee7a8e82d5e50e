//! The slots by which times are counted, so that the times of any number of calls take a fixed memory.
//!
//! 1. A time below 32 microseconds has a slot of its own.
//! 2. From there on the times up to each doubling are parted into 16 slots. So the longest time of a slot is above its
//!    shortest one by less than a sixteenth of it.

ghost use Rattle.std.specs.Prelude.{◌≡◌, ◌+◌, ◌<◌};
ghost use Rattle.benchmarks.specs.Slots.{IsInSlot, IsNear, end_of, least_of};

/// How many slots there are: each time below 2^64 microseconds has one.
pub(crate) const SLOTS: usize = 976;

/// The most halvings that leave less than 32 of a time.
const MOST_HALVINGS: usize = 60;

/// The slot of a time, in microseconds.
pub(crate) fn slot_of(time: u64) -> usize
    ensures has { IsInSlot time result }
    ensures within { result < 976 }
{
    let mut rest = time;
    for halvings in 0..MOST_HALVINGS {
        if rest < 32 {
            return 16 * halvings + rest as usize;
        }
        rest /= 2;
    }
    unreachable!()
}

/// The longest time of a slot, in microseconds.
pub(crate) fn longest_of(slot: usize) -> u64
    requires { slot < 976 }
    ensures last { result + 1 ≡ end_of slot }
    ensures near { IsNear (least_of slot) result }
{
    let doublings = (slot / 16).saturating_sub(1);
    let mut longest = (slot - 16 * doublings) as u64;
    for _ in 0..doublings {
        longest = 2 * longest + 1;
    }
    longest
}
