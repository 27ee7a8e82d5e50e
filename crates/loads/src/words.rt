//! The writes of a stream, drawn word by word.
//!
//! Of the word w of stream j, a number below 2^32:
//!
//! 1. Its length is 1 + (w div 1,024) mod 64, and each of its bytes is (w div 65,536) mod 256.
//! 2. If w is at least 2^31, it writes object 16 at 1,024j + (w mod 960); else object j at w mod 8,192.
//!
//! So the streams write no byte in common: a write to object 16 stays in the 1,024 bytes of its stream.

ghost use Rattle.std.specs.Prelude.{◌≡◌, ◌+◌, ◌<◌};
ghost use Rattle.loads.specs.Words.{IsOwnPlace, byte_drawn, length_drawn, low_drawn, object_drawn};

use base::{ObjectId, ObjectRange, Range};
use command_arguments::STREAMS;
use rand_pcg::Lcg64Xsh32;
use rand_pcg::rand_core::Rng;

/// The object that all streams write, each to its own part. It is the last object of a load.
pub(crate) const SHARED: ObjectId = ObjectId(STREAMS);

/// The bytes of each stream's part of the shared object.
pub(crate) const PART: u64 = 1_024;

/// A write of a stream: these bytes get this value.
#[derive(Clone, Copy)]
pub(crate) struct Word {
    pub(crate) place: ObjectRange,
    pub(crate) length: usize,
    pub(crate) byte: u8,
}

impl Word {
    /// The write that a drawn number stands for in a stream.
    pub(crate) fn of(stream: u32, drawn: u32) -> Self
        ensures object { result.place.object.0 ≡ object_drawn stream drawn }
        ensures low { result.place.range.low ≡ low_drawn stream drawn }
        ensures high { result.place.range.high ≡ result.place.range.low + result.length }
        ensures length { result.length ≡ length_drawn drawn }
        ensures byte { result.byte ≡ byte_drawn drawn }
        ensures own { IsOwnPlace stream result.place }
    {
        let (object, low) = if drawn < 1 << 31 {
            (ObjectId(stream), u64::from(drawn % 8_192))
        } else {
            (SHARED, PART * u64::from(stream) + u64::from(drawn % 960))
        };
        let length = 1 + drawn / 1_024 % 64;
        let range = Range {
            low,
            high: low + u64::from(length),
        };
        Word {
            place: ObjectRange { object, range },
            length: length as usize,
            byte: (drawn / 65_536 % 256) as u8,
        }
    }
}

/// The writes of a stream, one after another.
#[derive(Drop)]
pub(crate) struct Words {
    stream: u32,
    numbers: Lcg64Xsh32,
}

impl Words {
    /// Those of a stream, from the first on.
    pub(crate) fn new(seed: u64, stream: u32) -> Self {
        Words {
            stream,
            numbers: Lcg64Xsh32::new(seed, u64::from(stream)),
        }
    }

    /// The next one.
    pub(crate) fn draw(&mut self) -> Word {
        Word::of(self.stream, self.numbers.next_u32())
    }
}
