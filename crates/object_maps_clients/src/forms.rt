//! What callers rest on of the forms of a tree's payloads, and of the lengths that need two levels.

ghost use Rattle.std.specs.Prelude.{◌≡◌, ◌<◌, Some, ℕ, false, length, replicate, true};
ghost use Rattle.base.specs.formats.Fields.{entry_in, entry_length, entry_pointer, entry_present, no_pointer, pointer_in};
ghost use Rattle.base.specs.formats.Limits.{payload_size};

use checked_blocks::Frame;
use tree_blocks::{ObjectEntry, are_entries, are_records, have_form, is_long};

// A pointer without an address that was born in group 6 has no form, also if it is the last one.
fn a_pointer_without_an_address_is_all_zeros(payload: &[u8]) -> bool
    requires size { length payload.now ≡ payload_size }
    requires address { (pointer_in payload.now 83).address ≡ 0 }
    requires birth { (pointer_in payload.now 83).birth ≡ 6 }
    ensures { result ≡ false }
{
    have_form(payload)
}

// A payload has its form if each pointer names the block at 4,202,496.
fn pointers_with_addresses_have_their_form(payload: &[u8]) -> bool
    requires size { length payload.now ≡ payload_size }
    requires named { (d : ℕ) → d < 84 → (pointer_in payload.now d).address ≡ 4202496 }
    ensures { result ≡ true }
{
    have_form(payload)
}

// A directory of version 1 has no entry of two levels, whatever its length and pointer are.
fn a_directory_of_version_1_has_no_entry_of_two_levels(frame: &Frame, payload: &[u8]) -> bool
    requires version { frame.now.version ≡ 1 }
    requires size { length payload.now ≡ payload_size }
    requires levels { entry_present (entry_in payload.now 62) ≡ 2 }
    ensures { result ≡ false }
{
    are_entries(frame, payload)
}

// One of version 2 may have it: 338,689 bytes need two levels.
fn a_directory_of_version_2_may_have_an_entry_of_two_levels(frame: &Frame, payload: &[u8]) -> bool
    requires version { frame.now.version ≡ 2 }
    requires size { length payload.now ≡ payload_size }
    requires levels { entry_present (entry_in payload.now 62) ≡ 2 }
    requires length { entry_length (entry_in payload.now 62) ≡ 338689 }
    requires pointer { (entry_pointer (entry_in payload.now 62)).address ≡ 4202496 }
    requires others { (k : ℕ) → k < 62 → entry_in payload.now k ≡ replicate 64 0 }
    ensures { result ≡ true }
{
    are_entries(frame, payload)
}

// In both versions an entry of one level has at most 338,688 bytes.
fn an_entry_of_one_level_is_not_longer_than_one_level_holds(frame: &Frame, payload: &[u8]) -> bool
    requires size { length payload.now ≡ payload_size }
    requires levels { entry_present (entry_in payload.now 62) ≡ 1 }
    requires length { entry_length (entry_in payload.now 62) ≡ 338689 }
    ensures { result ≡ false }
{
    are_entries(frame, payload)
}

// Of an object of 342,720 bytes the second strip has one record. Its block has no pointer to a second one.
fn a_strip_names_no_record_past_the_length(payload: &[u8]) -> bool
    requires size { length payload.now ≡ payload_size }
    requires second { (pointer_in payload.now 1).address ≡ 4202496 }
    ensures { result ≡ false }
{
    are_records(payload, 5_299, 342_720)
}

// It may have one to the first.
fn a_strip_may_name_each_record_before_the_end(payload: &[u8]) -> bool
    requires size { length payload.now ≡ payload_size }
    requires first { (pointer_in payload.now 0).address ≡ 4202496 }
    requires others { (k : ℕ) → 0 < k → k < 84 → pointer_in payload.now k ≡ no_pointer }
    ensures { result ≡ true }
{
    are_records(payload, 5_299, 342_720)
}

// One level holds 338,688 bytes, and one byte more needs two.
fn one_byte_more_than_one_level_holds_needs_two() -> (bool, bool)
    ensures held { result.0 ≡ false }
    ensures more { result.1 ≡ true }
{
    (is_long(Some(338_688)), is_long(Some(338_689)))
}

// And so says the entry of an object.
fn an_object_of_one_byte_more_has_two_levels(entry: &ObjectEntry) -> bool
    requires { entry.now.length ≡ Some 338689 }
    ensures { result ≡ true }
{
    entry.is_long()
}
