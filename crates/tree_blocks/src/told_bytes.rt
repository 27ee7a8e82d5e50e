//! Bytes that contracts see and that don't stand in memory.

ghost use Rattle.std.specs.Prelude.{◌≡◌, [], replicate};
ghost use Rattle.base.specs.disk.Disk.{put};
ghost use Rattle.tree_blocks.specs.Bytes.{AreBytes};

use base::Told;
use std::marker::{Model, PhantomData};

/// The bytes of an object. No value of it is made.
pub struct BytesView {
    of: PhantomData<u8>,
}

impl Model for BytesView {
    ghost use Rattle.std.specs.Prelude.{List, ℕ, []};
    ghost use Rattle.std.specs.Coded.{coded_ℕ, coded_list};

    ghost Value = { List ℕ };

    ghost coded = { coded_list coded_ℕ };

    ghost view = { λ _. [] };
}

/// No bytes.
pub fn no_bytes() -> Told<BytesView>
    ensures { result.value ≡ [] }
{
    Told::of(&0u8)
}

/// So many bytes, all zero.
pub fn zero_bytes(count: u64) -> Told<BytesView>
    ensures { result.value ≡ replicate count 0 }
{
    Told::of(&count)
}

/// The bytes with these at a place.
pub fn with_bytes(bytes: &Told<BytesView>, at: usize, content: &[u8]) -> Told<BytesView>
    ensures put { result.value ≡ put at content.now bytes.now.value }
    ensures are { AreBytes bytes.now.value → AreBytes result.value }
{
    Told::of(&(bytes, at, content))
}
