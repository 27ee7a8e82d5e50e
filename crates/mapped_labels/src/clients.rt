//! What callers rest on: one function for each promise of this crate's calls, proved from the contract of the call
//! alone. So it is refused as soon as that contract says less.
//!
//! The numbers of devices and addresses are those of images that another program made.

ghost use Rattle.std.specs.Prelude.{◌≡◌, ◌≤◌, ◌∷◌, [], IfSome, IsErrOf, IsNone, IsOk, IsSome, Some, length, take};
ghost use Rattle.uberblocks.specs.Rings.{ring_size};
ghost use Rattle.mapped_labels.specs.MappedRings.{HasNoneInRing, StandsInRing};
ghost use Rattle.mapped_labels.specs.MappedSlots.{fields_of};
ghost use Rattle.mapped_labels.specs.MappedUberblocks.{IsSealedMappedSlot};

use crate::geometry::MappedGeometry;
use crate::map_entry::{MapEntry, read_map_entry, write_map_entry};
use crate::ring::{active, slot};
use crate::side::Side;
use crate::uberblock::{MappedUberblock, SLOT_SIZE};
use base::{Group, Pointer, PoolError, Version};
use uberblocks::Uberblock;

fn a_device_of_8_mib_and_4_kib_has_a_map() -> Result<MappedGeometry, PoolError>
    ensures { IsOk result }
{
    MappedGeometry::of(16_392)
}

fn a_plain_pool_has_no_map() -> Result<MappedGeometry, PoolError>
    ensures { IsErrOf result PoolError.BadGeometry }
{
    MappedGeometry::of(16_384)
}

fn one_sector_more_is_no_size() -> Result<MappedGeometry, PoolError>
    ensures { IsErrOf result PoolError.BadGeometry }
{
    MappedGeometry::of(16_393)
}

fn a_device_of_more_than_16_tib_is_refused() -> Result<MappedGeometry, PoolError>
    ensures { IsErrOf result PoolError.BadGeometry }
{
    MappedGeometry::of(34_359_738_376)
}

fn a_map_of_one_node_leaves_895_blocks_of_897(geometry: MappedGeometry) -> (u64, u64)
    requires { geometry ≡ 8392704 }
    ensures all { result.0 ≡ 897 }
    ensures area { result.1 ≡ 895 }
{
    (geometry.total_blocks(), geometry.blocks())
}

fn the_first_side_of_the_only_node_is_the_block_after_the_area(geometry: MappedGeometry) -> u64
    requires { geometry ≡ 8392704 }
    ensures { result ≡ 7860224 }
{
    geometry.side_address(0, Side::First)
}

fn a_map_of_32257_blocks_has_two_levels(geometry: MappedGeometry) -> usize
    requires { geometry ≡ 136843264 }
    ensures { result ≡ 2 }
{
    geometry.levels()
}

fn the_highest_of_three_nodes_stands_in_the_last_two_blocks(geometry: MappedGeometry) -> u64
    requires { geometry ≡ 136843264 }
    ensures { result ≡ 136310784 }
{
    geometry.side_address(2, Side::First)
}

fn slot_1_of_label_2_begins_4096_bytes_behind_its_array(geometry: MappedGeometry) -> u64
    requires { geometry ≡ 8392704 }
    ensures { result ≡ 8003584 }
{
    geometry.slot_place(2, 1)
}

fn a_node_is_not_written_to_its_live_side() -> (Side, Side)
    ensures first { result.0 ≡ Side.Second }
    ensures second { result.1 ≡ Side.First }
{
    (Side::First.other(), Side::Second.other())
}

fn a_written_map_entry_reads_back(bytes: &mut [u8], entry: MapEntry) -> MapEntry
    requires { length bytes.old ≡ 64 }
    ensures { result ≡ entry }
{
    write_map_entry(bytes, 8, entry);
    read_map_entry(bytes, 8)
}

fn an_uberblock_that_is_written_reads_back(uberblock: &MappedUberblock) -> Option<MappedUberblock>
    requires rules { uberblock.now.state.version ≡ Version.Two }
    requires group { uberblock.now.state.group.0 ≡ 5 }
    requires import { uberblock.now.state.import_number ≡ 2 }
    requires log { uberblock.now.state.log_number ≡ 0 }
    ensures { result ≡ Some uberblock.now }
{
    let bytes = uberblock.encode();
    MappedUberblock::decode(&bytes)
}

// The magic and version 3, low byte first.
#[tactic(auto, unfolding(uberblocks::specs::Slots::field_bytes, base::specs::formats::Fields::number_bytes))]
fn an_uberblock_begins_with_its_magic_and_version_3() -> [u8; SLOT_SIZE]
    ensures { take 9 result ≡ 12 ∷ 177 ∷ 186 ∷ 0 ∷ 0 ∷ 0 ∷ 0 ∷ 0 ∷ 3 ∷ [] }
{
    let state = Uberblock {
        version: Version::Two,
        group: Group(5),
        guid: 77,
        moment: 1_000,
        root: Pointer::NONE,
        import_number: 0,
        log_address: 0,
        log_number: 0,
    };
    let map = MapEntry {
        pointer: Pointer::NONE,
        count: 895,
    };
    MappedUberblock { state, map }.encode()
}

fn bytes_with_another_check_are_no_uberblock(bytes: &[u8; SLOT_SIZE]) -> Option<MappedUberblock>
    requires { IsSealedMappedSlot bytes.now → ⊥ }
    ensures { IsNone result }
{
    MappedUberblock::decode(bytes)
}

fn group_33_has_slot_1() {
    let place = slot(Group(33));
    prove!(place == 1);
}

fn one_in_the_last_label_is_found(ring: &[u8], only: &MappedUberblock) -> Option<MappedUberblock>
    requires size { length ring.now ≡ ring_size }
    requires stands { StandsInRing ring.now 3 (fields_of only.now) }
    ensures { IsSome result }
{
    active(ring)
}

fn a_higher_group_wins(ring: &[u8], higher: &MappedUberblock) -> Option<MappedUberblock>
    requires size { length ring.now ≡ ring_size }
    requires stands { StandsInRing ring.now 2 (fields_of higher.now) }
    requires group { higher.now.state.group.0 ≡ 6 }
    ensures { IfSome result (λ u. 6 ≤ u.state.group.0) }
{
    active(ring)
}

fn one_in_another_slot_is_passed_over(ring: &[u8]) -> Option<MappedUberblock>
    requires size { length ring.now ≡ ring_size }
    requires none { HasNoneInRing ring.now }
    ensures { IsNone result }
{
    active(ring)
}
