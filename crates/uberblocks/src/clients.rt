//! What callers rest on: one function for each promise of this crate's calls, proved from the contract of the call
//! alone. So it is refused as soon as that contract says less.

ghost use Rattle.std.specs.Prelude.{◌≡◌, ◌∷◌, ◌≤◌, [], IfSome, IsNone, IsSome, Some, length, take};
ghost use Rattle.base.specs.formats.Uberblocks.{IsSealedSlot};
ghost use Rattle.uberblocks.specs.Rings.{HasNoneInRing, StandsInRing, ring_size};
ghost use Rattle.uberblocks.specs.Slots.{fields_of};

use crate::ring::{active, slot};
use crate::uberblock::{SLOT_SIZE, Uberblock};
use base::{Group, Pointer, Version};

fn an_uberblock_that_is_written_reads_back(uberblock: &Uberblock) -> Option<Uberblock>
    requires group { uberblock.now.group.0 ≡ 5 }
    requires import { uberblock.now.import_number ≡ 2 }
    requires log { uberblock.now.log_number ≡ 0 }
    ensures { result ≡ Some uberblock.now }
{
    let bytes = uberblock.encode();
    Uberblock::decode(&bytes)
}

// The magic and version 1, low byte first.
#[tactic(auto, unfolding(crate::specs::Slots::field_bytes, base::specs::formats::Fields::number_bytes))]
fn an_uberblock_begins_with_its_magic_and_version() -> [u8; SLOT_SIZE]
    ensures { take 9 result ≡ 12 ∷ 177 ∷ 186 ∷ 0 ∷ 0 ∷ 0 ∷ 0 ∷ 0 ∷ 1 ∷ [] }
{
    let uberblock = Uberblock {
        version: Version::One,
        group: Group(5),
        guid: 77,
        moment: 1_000,
        root: Pointer::NONE,
        import_number: 0,
        log_address: 0,
        log_number: 0,
    };
    uberblock.encode()
}

fn bytes_with_another_check_are_no_uberblock(bytes: &[u8; SLOT_SIZE]) -> Option<Uberblock>
    requires { IsSealedSlot bytes.now → ⊥ }
    ensures { IsNone result }
{
    Uberblock::decode(bytes)
}

fn group_130_has_slot_2() {
    let place = slot(Group(130));
    prove!(place == 2);
}

fn one_in_the_last_label_is_found(ring: &[u8], only: &Uberblock) -> Option<Uberblock>
    requires size { length ring.now ≡ ring_size }
    requires stands { StandsInRing ring.now 3 (fields_of only.now) }
    ensures { IsSome result }
{
    active(ring)
}

fn a_higher_group_wins(ring: &[u8], higher: &Uberblock) -> Option<Uberblock>
    requires size { length ring.now ≡ ring_size }
    requires stands { StandsInRing ring.now 2 (fields_of higher.now) }
    requires group { higher.now.group.0 ≡ 6 }
    ensures { IfSome result (λ u. 6 ≤ u.group.0) }
{
    active(ring)
}

// If the group of label 0 is the highest, its uberblock is found and none of another label.
fn the_lowest_label_wins_ties(ring: &[u8], lowest: &Uberblock) -> Option<Uberblock>
    requires size { length ring.now ≡ ring_size }
    requires stands { StandsInRing ring.now 0 (fields_of lowest.now) }
    requires group { lowest.now.group.0 ≡ 6 }
    ensures { IfSome result (λ u. u.group.0 ≡ 6 → StandsInRing ring.now 0 (fields_of u)) }
{
    active(ring)
}

fn one_in_another_slot_is_passed_over(ring: &[u8]) -> Option<Uberblock>
    requires size { length ring.now ≡ ring_size }
    requires none { HasNoneInRing ring.now }
    ensures { IsNone result }
{
    active(ring)
}
