//! What callers rest on of strips: their numbers, and what is told of them.

ghost use Rattle.std.specs.Prelude.{◌≡◌};
ghost use Rattle.tree_blocks.specs.Pointers.{strip_in};

use base::{Pointer, Told};
use tree_blocks::{StripsView, no_strips, record_number, strip_number, strip_of, with_strip};

// The second strip of object 7 has the number 5,299.
fn a_later_strip_has_its_own_number() -> usize
    ensures { result ≡ 5299 }
{
    strip_number(7, 1)
}

// By that number it is found, and so is the number of its fourth record.
fn a_number_tells_the_strip() -> usize
    ensures { result ≡ 1 }
{
    strip_of(5299)
}

fn a_record_of_a_later_strip_has_its_own_number() -> usize
    ensures { result ≡ 87 }
{
    record_number(5299, 3)
}

// A strip that is told has its pointer.
fn a_told_strip_has_its_pointer(indirect: Pointer) -> Told<StripsView>
    ensures { (strip_in result.value 4).0 ≡ indirect }
{
    with_strip(&no_strips(), 4, indirect, &[])
}
