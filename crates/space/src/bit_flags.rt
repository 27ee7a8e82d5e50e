//! Flags that stand as bits in words, 64 in each, the lowest bit first. A search for a set flag looks at whole words.

ghost use Rattle.std.specs.Prelude.{◌≡◌, ◌≤◌, ◌<◌, ◌^◌, ℕ, false, true, IfNone, IfOk, IfSome, get_or, length, replicate, slice_set};
ghost use Rattle.std.specs.Int.{bit_at};
ghost use Rattle.space.specs.SetFlags.{AreClear, IsFirstSet};
ghost use Rattle.space.specs.BitFlags.{IsLowestOne};

use std::alloc::{AllocError, Global};
use std::marker::Model;

// The flags of a word.
const WORD: usize = 64;

// There are fewer flags than this, as of any list.
const MOST: usize = 1 << 63;

/// Flags, a bit each.
#[derive(Drop)]
pub(crate) struct BitFlags {
    // flag k is bit k % 64 of word k / 64; bits after the last flag say nothing
    words: Vec<u64>,
    // how many flags there are
    count: usize,
}

/// The flags in their order.
impl Model for BitFlags {
    ghost use Rattle.std.specs.Prelude.{Bool, List};
    ghost use Rattle.space.specs.BitFlags.{HasBits, flags_of};

    ghost Value = { List Bool };

    ghost view = { λ a. flags_of a.count a.words.items };

    ghost invariant = { HasBits };
}

impl BitFlags {
    /// So many flags, all of them set. It is refused if no memory is left, and for 2^63 flags or more.
    pub(crate) fn all_set(alloc: Global, count: usize) -> Result<Self, AllocError>
        ensures set { IfOk result (λ flags. flags ≡ replicate count true) }
        ensures small { IfOk result (λ flags. length flags < 2 ^ 63) }
    {
        if count >= MOST {
            return Err(AllocError);
        }
        Ok(BitFlags {
            words: vec![in alloc; u64::MAX; count.div_ceil(WORD)]?,
            count,
        })
    }

    /// A copy of the flags. It is refused if no memory is left.
    pub(crate) fn copy(&self, alloc: Global) -> Result<Self, AllocError>
        ensures { IfOk result (λ copy. copy ≡ self.now) }
    {
        Ok(BitFlags {
            words: Vec::from_slice(alloc, &self.words)?,
            count: self.count,
        })
    }

    /// How many flags there are.
    pub(crate) fn len(&self) -> usize
        ensures { result ≡ length self.now }
    {
        self.count
    }

    /// Whether the flag of an index is set. One that isn't there is not.
    pub(crate) fn get(&self, index: usize) -> bool
        ensures { result ≡ get_or self.now index false }
    {
        index < self.count && (self.words[index / WORD] >> (index % WORD)) & 1 == 1
    }

    /// Sets the flag. It takes no memory.
    pub(crate) fn set(&mut self, index: usize)
        requires { index < length self.old }
        ensures { self.new ≡ slice_set self.old index true }
    {
        self.words[index / WORD] |= 1 << (index % WORD);
    }

    /// Clears the flag. It takes no memory.
    pub(crate) fn clear(&mut self, index: usize)
        requires { index < length self.old }
        ensures { self.new ≡ slice_set self.old index false }
    {
        self.words[index / WORD] &= !(1 << (index % WORD));
    }

    /// The first set flag from index `first` on and before index `last`. `None` if there is none.
    pub(crate) fn first_set(&self, first: usize, last: usize) -> Option<usize>
        ensures found { IfSome result (IsFirstSet first last self.now) }
        ensures none { IfNone result (AreClear first last self.now) }
    {
        let end = last.min(self.count);
        for index in first / WORD..end.div_ceil(WORD) {
            let start = index * WORD;
            if let Some(bit) = lowest_one(self.words[index], first.saturating_sub(start)) {
                let found = start + bit;
                return (found < end).then_some(found);
            }
        }
        None
    }
}

// The lowest bit of a word, from this place on, that is 1.
fn lowest_one(word: u64, first: usize) -> Option<usize>
    requires { first < 64 }
    ensures found { IfSome result (IsLowestOne first word) }
    ensures none { IfNone result ((i : ℕ) → first ≤ i → i < 64 → bit_at word i ≡ 0) }
{
    let left = word & (u64::MAX << first);
    if left == 0 {
        return None;
    }
    Some(left.trailing_zeros() as usize)
}
