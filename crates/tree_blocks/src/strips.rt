//! Strips of objects by their numbers: strip `j` of object `n` has the number `n` + 5,292 `j`, and 84 records. An
//! indirect block has the number of its strip.

ghost use Rattle.std.specs.Prelude.{◌≡◌, ◌<◌, ◌*◌};
ghost use Rattle.base.specs.formats.Limits.{indirect_count, object_count, pointer_count};
ghost use Rattle.base.specs.tree.Places.{record_number, strip_number, strip_of};

use base::{OBJECT_COUNT, POINTER_COUNT};

/// The number of a strip of an object.
pub fn strip_number(object: usize, index: usize) -> usize
    requires object { object < object_count }
    requires index { index < pointer_count }
    ensures number { result ≡ strip_number object index }
    ensures in_range { result < indirect_count }
{
    object + OBJECT_COUNT as usize * index
}

/// Which strip of its object the strip of this number is.
pub fn strip_of(number: usize) -> usize
    requires { number < indirect_count }
    ensures index { result ≡ strip_of number }
    ensures in_range { result < pointer_count }
{
    number / OBJECT_COUNT as usize
}

/// The number in its object of a record of the strip of this number.
pub fn record_number(number: usize, index: usize) -> usize
    requires strip { number < indirect_count }
    requires index { index < pointer_count }
    ensures record { result ≡ record_number number index }
    ensures in_range { result < pointer_count * pointer_count }
{
    POINTER_COUNT * strip_of(number) + index
}
