//! What callers rest on: one function for each promise of this crate's calls, proved from the contract of the call
//! alone. So it is refused as soon as that contract says less.

ghost use Rattle.std.specs.Prelude.{◌≡◌, IfSome, false, length, true};
ghost use Rattle.base.specs.formats.Limits.{payload_size};
ghost use Rattle.space.specs.FreeSets.{is_free};
ghost use Rattle.mapped_labels.specs.Shapes.{bit_count};
ghost use Rattle.space_maps.specs.Nodes.{bit_in, count_true};
ghost use Rattle.space_maps.specs.Opening.{count_sum};

use crate::bits::{bit_in, clear_bit, set_bit};
use crate::reading::{test_bits, test_entries};
use crate::regions::bits_after;
use mapped_labels::{MapEntry, MappedGeometry};
use space::FreeSet;

fn a_wrong_count_of_ones_is_refused(shape: MappedGeometry, entry: &MapEntry, payload: &[u8]) -> bool
    requires size { length payload.now ≡ payload_size }
    requires ones { count_true (bit_in payload.now) bit_count ≡ 891 }
    requires count { entry.now.count ≡ 892 }
    ensures { result ≡ true }
{
    match test_bits(shape, 0, entry, 0, payload) {
        Ok(()) => false,
        Err(_) => true,
    }
}

fn a_wrong_sum_of_counts_is_refused(shape: MappedGeometry, entry: &MapEntry, payload: &[u8]) -> bool
    requires size { length payload.now ≡ payload_size }
    requires sum { count_sum payload.now 72 ≡ 32247 }
    requires count { entry.now.count ≡ 32248 }
    ensures { result ≡ true }
{
    match test_entries(shape, 0, 0, entry, 0, payload) {
        Ok(()) => false,
        Err(_) => true,
    }
}

fn a_bit_past_the_area_is_refused(shape: MappedGeometry, entry: &MapEntry, payload: &[u8]) -> bool
    requires shape { shape ≡ 8392704 }
    requires size { length payload.now ≡ payload_size }
    requires past { bit_in payload.now 895 ≡ true }
    ensures { result ≡ true }
{
    match test_bits(shape, 0, entry, 0, payload) {
        Ok(()) => false,
        Err(_) => true,
    }
}

fn a_bit_that_is_set_is_1_and_the_one_after_it_stays(payload: &mut [u8]) -> (bool, bool)
    requires size { length payload.old ≡ payload_size }
    requires after { bit_in payload.old 9 ≡ false }
    ensures set { result.0 ≡ true }
    ensures stays { result.1 ≡ false }
{
    set_bit(payload, 8);
    (bit_in(payload, 8), bit_in(payload, 9))
}

fn a_bit_that_is_cleared_is_0(payload: &mut [u8]) -> bool
    requires { length payload.old ≡ payload_size }
    ensures { result ≡ false }
{
    clear_bit(payload, 8);
    bit_in(payload, 8)
}

fn a_freed_block_is_free_after_the_sync(free: &FreeSet) -> bool
    ensures { result ≡ true }
{
    let bits = bits_after(free, &[], &[], &[4_198_400], 0);
    bit_in(&bits, 1)
}

fn a_block_that_a_later_group_frees_stays_used(free: &FreeSet) -> bool
    requires { is_free 1 free.now ≡ false }
    ensures { result ≡ false }
{
    let bits = bits_after(free, &[], &[], &[], 0);
    bit_in(&bits, 1)
}

fn a_block_of_the_log_is_free_in_the_map(free: &FreeSet) -> bool
    ensures { result ≡ true }
{
    let bits = bits_after(free, &[4_198_400], &[], &[], 0);
    bit_in(&bits, 1)
}

fn a_taken_block_is_used_after_the_sync(free: &FreeSet) -> bool
    ensures { result ≡ false }
{
    let bits = bits_after(free, &[], &[4_198_400], &[], 0);
    bit_in(&bits, 1)
}
