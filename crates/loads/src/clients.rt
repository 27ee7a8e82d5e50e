//! What callers rest on: one function for each promise of this crate's calls, proved from the contract of the call
//! alone. So it is refused as soon as that contract says less. And what this crate rests on of the places that streams
//! write.

mod command;
mod streams;

ghost use Rattle.std.specs.Prelude.{◌≢◌, ◌<◌};

use crate::words::Word;

// The greatest number of the last stream writes 64 bytes into its part of the shared object.
fn the_greatest_word_is_in_the_last_part() {
    let word = Word::of(15, 4_294_967_295);
    prove!(word.place.object.0 == 16);
    prove!(word.place.range.low == 15_615);
    prove!(word.place.range.high == 15_679);
    prove!(word.byte == 255);
}

// Two streams write no byte in common.
fn streams_write_apart(one: u32, other: u32, drawn: u32, also_drawn: u32)
    requires one { one < 16 }
    requires other { other < 16 }
    requires apart { one ≢ other }
{
    let first = Word::of(one, drawn).place;
    let second = Word::of(other, also_drawn).place;
    let overlap = first.overlaps(&second);
    prove!(!overlap);
}
