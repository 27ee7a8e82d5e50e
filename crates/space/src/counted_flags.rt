//! Flags with a count of the set ones for each region, so that a search passes over a region without any.
//!
//! A region has 504 words. So it costs one count to pass over it, and at most 504 words to look through it.

ghost use Rattle.std.specs.Prelude.{◌≡◌, ◌+◌, ◌*◌, ◌^◌, ◌<◌, false, true, max, IfNone, IfOk, IfSome, get_or, length, replicate, slice_set};
ghost use Rattle.space.specs.SetFlags.{AreClear, IsFirstSet};
ghost use Rattle.space.specs.Regions.{region_size};

use crate::bit_flags::BitFlags;
use std::alloc::{AllocError, Global};
use std::marker::Model;

// The flags of a region.
const REGION: usize = 32_256;

/// Flags, and how many of each region are set.
#[derive(Drop)]
pub(crate) struct CountedFlags {
    flags: BitFlags,
    // how many flags of each region are set; the last region may have no flag
    counts: Vec<u16>,
}

/// The flags in their order.
impl Model for CountedFlags {
    ghost use Rattle.std.specs.Prelude.{Bool, List};
    ghost use Rattle.space.specs.Regions.{HasRegionCounts};

    ghost Value = { List Bool };

    ghost view = { λ a. a.flags };

    ghost invariant = { HasRegionCounts };
}

impl CountedFlags {
    /// So many flags, all of them set. It is refused if no memory is left, and for 2^63 flags or more.
    pub(crate) fn all_set(alloc: Global, count: usize) -> Result<Self, AllocError>
        ensures set { IfOk result (λ flags. flags ≡ replicate count true) }
        ensures small { IfOk result (λ flags. length flags < 2 ^ 63) }
    {
        let flags = BitFlags::all_set(alloc, count)?;
        let mut counts = vec![in alloc; REGION as u16; count / REGION + 1]?;
        counts[count / REGION] = (count % REGION) as u16;
        Ok(CountedFlags { flags, counts })
    }

    /// A copy of the flags. It is refused if no memory is left.
    pub(crate) fn copy(&self, alloc: Global) -> Result<Self, AllocError>
        ensures { IfOk result (λ copy. copy ≡ self.now) }
    {
        Ok(CountedFlags {
            flags: self.flags.copy(alloc)?,
            counts: Vec::from_slice(alloc, &self.counts)?,
        })
    }

    /// How many flags there are.
    pub(crate) fn len(&self) -> usize
        ensures { result ≡ length self.now }
    {
        self.flags.len()
    }

    /// Whether the flag of an index is set. One that isn't there is not.
    pub(crate) fn get(&self, index: usize) -> bool
        ensures { result ≡ get_or self.now index false }
    {
        self.flags.get(index)
    }

    /// Sets a flag that is clear. It takes no memory.
    pub(crate) fn set(&mut self, index: usize)
        requires within { index < length self.old }
        requires clear { get_or self.old index false ≡ false }
        ensures { self.new ≡ slice_set self.old index true }
    {
        self.flags.set(index);
        self.counts[index / REGION] += 1;
    }

    /// Clears a flag that is set. It takes no memory.
    pub(crate) fn clear(&mut self, index: usize)
        requires { get_or self.old index false ≡ true }
        ensures { self.new ≡ slice_set self.old index false }
    {
        self.flags.clear(index);
        self.counts[index / REGION] -= 1;
    }

    /// The first set flag from this index on. `None` if there is none.
    pub(crate) fn first_set(&self, first: usize) -> Option<usize>
        ensures found { IfSome result (IsFirstSet first (length self.now) self.now) }
        ensures none { IfNone result (AreClear first (length self.now) self.now) }
    {
        for region in first / REGION..self.len().div_ceil(REGION) {
            if let Some(found) = self.first_in(region, first) {
                return Some(found);
            }
        }
        None
    }

    // The first set flag of a region, from this index on. A region without a set flag is passed over by its count.
    fn first_in(&self, region: usize, first: usize) -> Option<usize>
        requires { region * region_size < length self.now }
        ensures found { IfSome result (IsFirstSet (max first (region * region_size))
            (region * region_size + region_size) self.now) }
        ensures none { IfNone result (AreClear (max first (region * region_size))
            (region * region_size + region_size) self.now) }
    {
        if self.counts[region] == 0 {
            return None;
        }
        let start = region * REGION;
        self.flags.first_set(first.max(start), start + REGION)
    }
}
