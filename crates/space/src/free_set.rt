//! The free blocks of a pool, and what is reserved of them (`metaslab.c`, `dsl_dir.c`).
//!
//! A flag for each block says whether it is free. The flags are bits, with a count for each region of them
//! (`counted_flags`). Beside them stand counts that are kept with each change, and a hint: the lowest free block.
//! Taking that block moves it up to the next free one, and giving a lower one moves it down. So the lowest free block
//! is found at once, and a count is a look at a field.
//!
//! A transaction reserves the blocks that its sync may take, before it begins. They stay reserved until its group is
//! synced. What the syncing group has taken is counted apart, for it is in its own reservation: the blocks that are
//! available are those that are free, except what is reserved and not yet taken.

ghost use Rattle.std.specs.Prelude.{◌≡◌, ◌+◌, ◌<◌, ◌≤◌, ◌⊎◌, ◌∷◌, [], ◌↔◌, All, IsErr, IsTrue, IfErr, IfNone, IfOk, IfSome, OnErr, OnOk, length, map, take, vec_len};
ghost use Rattle.std.specs.FinSet as set;
ghost use Rattle.base.specs.common.Rising.{rising};
ghost use Rattle.base.specs.formats.Geometry.{block_address};
ghost use Rattle.space.specs.FreeSets.{AreBlockAddresses, AreNotFree, HasAllOf, IsIdle, IsLowestFree, after_give, after_reserve, after_sync_end, after_sync_take, after_take, after_unreserve, available_in, free_from, is_free, is_short, most_taken};
ghost use Rattle.space.specs.SetFlags.{AreClear};
ghost use Rattle.space.specs.Flags.{IsHint};

use crate::counted_flags::CountedFlags;
use base::PoolError;
use std::alloc::{AllocError, Global};
use std::marker::Model;

/// Which blocks are free, by their index in the block area, how many are reserved, and how many the syncing group has
/// taken.
#[derive(Drop)]
pub struct FreeSet {
    // whether the block of each index is free
    flags: CountedFlags,
    // the lowest free block, or the number of blocks if none is free
    hint: usize,
    // how many blocks are free
    free: u64,
    reserved: u64,
    taken: u64,
}

impl Model for FreeSet {
    ghost use Rattle.space.specs.FreeSets.{FreeSpace, space_code};

    ghost Value = { FreeSpace };

    ghost coded = { space_code };

    ghost use Rattle.space.specs.Flags.{HasRightCounts, space_of};

    ghost view = { space_of };

    ghost invariant = { HasRightCounts };
}

impl FreeSet {
    /// All of so many blocks are free, and nothing is reserved. It is refused if no memory is left.
    pub fn new(alloc: Global, blocks: usize) -> Result<Self, AllocError>
        ensures blocks { IfOk result (λ set. set.blocks ≡ blocks) }
        ensures all { IfOk result (λ set. HasAllOf blocks set.free) }
        ensures idle { IfOk result IsIdle }
    {
        Ok(FreeSet {
            flags: CountedFlags::all_set(alloc, blocks)?,
            hint: 0,
            free: blocks as u64,
            reserved: 0,
            taken: 0,
        })
    }

    /// A copy of the set. It is refused if no memory is left.
    pub fn copy(&self, alloc: Global) -> Result<Self, AllocError>
        ensures { IfOk result (λ copy. copy ≡ self.now) }
    {
        Ok(FreeSet {
            flags: self.flags.copy(alloc)?,
            hint: self.hint,
            free: self.free,
            reserved: self.reserved,
            taken: self.taken,
        })
    }

    /// How many blocks the area has.
    pub fn blocks(&self) -> usize
        ensures blocks { result ≡ self.now.blocks }
        ensures placed { AreBlockAddresses self.now }
    {
        self.flags.len()
    }

    /// How many blocks are free.
    pub fn free(&self) -> u64
        ensures count { result ≡ set.len self.now.free }
        ensures within { result ≤ self.now.blocks }
    {
        self.free
    }

    /// How many of the free blocks no unsynced transaction may still ask for: all but those that are reserved and that
    /// the syncing group has not taken.
    pub fn available(&self) -> u64
        ensures count { result ≡ available_in self.now }
        ensures within { result ≤ set.len self.now.free }
    {
        let wanted = self.reserved.saturating_sub(self.taken);
        self.free.saturating_sub(wanted)
    }

    /// Whether a block is free. A block that the set does not have is not.
    pub fn is_free(&self, block: usize) -> bool
        ensures { result ≡ is_free block self.now }
    {
        self.flags.get(block)
    }

    /// The lowest free block from this one on. `None` if there is none, or if the set has no such block.
    pub fn next_from(&self, first: usize) -> Option<usize>
        ensures within { IfSome result (λ block. block < self.now.blocks) }
        ensures from { IfSome result (λ block. first ≤ block) }
        ensures free { IfSome result (λ block. IsTrue (is_free block self.now)) }
        ensures skipped { IfSome result (λ block. AreNotFree first block self.now) }
        ensures lowest { IfSome result (λ block. free_from first self.now.free
            ≡ block_address block ∷ free_from (block + 1) self.now.free) }
        ensures none { IfNone result (free_from first self.now.free ≡ []) }
    {
        self.flags.first_set(first.max(self.hint))
    }

    /// The block is taken. One that is not free, or that the set does not have, changes nothing. It takes no memory.
    pub fn take(&mut self, block: usize)
        ensures { self.new ≡ after_take block self.old }
    {
        if !self.flags.get(block) {
            return;
        }
        self.flags.clear(block);
        self.free -= 1;
        self.hint = raised(&self.flags, self.hint);
    }

    /// The block comes back. One that is free, or that the set does not have, changes nothing. It takes no memory.
    pub fn give(&mut self, block: usize)
        ensures given { block < self.old.blocks → self.new ≡ after_give block self.old }
        ensures unchanged { self.old.blocks ≤ block → self.new ≡ self.old }
    {
        if block < self.flags.len() && !self.flags.get(block) {
            self.flags.set(block);
            self.free += 1;
            self.hint = self.hint.min(block);
        }
    }

    /// The lowest free block is taken, and answered. It takes no memory.
    ///
    /// # Errors
    /// `NoSpace` exactly if no block is free. Then nothing has changed.
    pub fn take_lowest(&mut self) -> Result<usize, PoolError>
        ensures lowest { IfOk result (IsLowestFree self.old) }
        ensures taken { IfOk result (λ block. self.new ≡ after_take block self.old) }
        ensures refused { IsErr result ↔ set.len self.old.free ≡ 0 }
        ensures error { IfErr result (λ e. e ≡ PoolError.NoSpace) }
        ensures unchanged { OnErr result (self.new ≡ self.old) }
    {
        match self.next_from(0) {
            Some(block) => {
                self.take(block);
                Ok(block)
            }
            None => Err(PoolError::NoSpace),
        }
    }

    /// The lowest so many free blocks, rising. Nothing is taken.
    ///
    /// # Errors
    /// `NoSpace` only if fewer are free. `NoMemory`.
    pub fn lowest(&self, alloc: Global, count: usize) -> Result<Vec<usize>, PoolError>
        ensures count { IfOk result (λ blocks. vec_len blocks ≡ count) }
        ensures lowest { IfOk result (λ blocks.
            map block_address blocks.items ≡ take count (rising self.now.free)) }
        ensures within { IfOk result (λ blocks.
            All (λ block. block < self.now.blocks) blocks.items) }
        ensures full { IfErr result
            (λ e. e ≡ PoolError.NoSpace → length (rising self.now.free) < count) }
        ensures refused { IfErr result
            (λ e. (e ≡ PoolError.NoSpace) ⊎ (e ≡ PoolError.NoMemory)) }
    {
        let mut blocks = Vec::with_capacity(alloc, count)?;
        let mut next = 0;
        let end = self.blocks();
        'places: for i in 0..count {
            match self.next_from(next) {
                Some(block) => {
                    let there = block < end;
                    prove!(there);
                    blocks.push_reserved(block);
                    next = block + 1;
                }
                None => return Err(PoolError::NoSpace),
            }
        }
        Ok(blocks)
    }

    /// So many blocks more are reserved. So many of those that are available are kept back: they are not given to this
    /// reservation, and stay available. It takes no memory.
    ///
    /// # Errors
    /// `NoSpace` exactly if both together are more than are available. Then nothing has changed.
    pub fn reserve(&mut self, count: u64, kept_back: u64) -> Result<(), PoolError>
        ensures refused { IsErr result ↔ IsTrue (is_short count kept_back self.old) }
        ensures error { IfErr result (λ e. e ≡ PoolError.NoSpace) }
        ensures unchanged { OnErr result (self.new ≡ self.old) }
        ensures reserved { OnOk result (self.new ≡ after_reserve count self.old) }
    {
        let available = self.available();
        if count > available || kept_back > available - count {
            return Err(PoolError::NoSpace);
        }
        self.reserved += count;
        Ok(())
    }

    /// So many of the reserved blocks are reserved no more: their transaction was given up. It takes no memory.
    pub fn unreserve(&mut self, count: u64)
        requires { count ≤ self.old.reserved }
        ensures { self.new ≡ after_unreserve count self.old }
    {
        self.reserved -= count;
    }

    /// The syncing group takes the block. It is counted as taken until the sync has ended. It takes no memory.
    pub fn take_for_sync(&mut self, block: usize)
        requires room { self.old.taken < most_taken }
        ensures { self.new ≡ after_sync_take block self.old }
    {
        self.take(block);
        self.taken += 1;
    }

    /// The syncing group is synced: what it had reserved is reserved no more, and it counts no block as taken. The
    /// blocks stay taken. It takes no memory.
    pub fn end_sync(&mut self, reserved: u64)
        requires { reserved ≤ self.old.reserved }
        ensures { self.new ≡ after_sync_end reserved self.old }
    {
        self.reserved -= reserved;
        self.taken = 0;
    }
}

// The hint at the lowest free block, or after the last block if none is free. No block below the given hint is free.
fn raised(flags: &CountedFlags, hint: usize) -> usize
    requires { AreClear 0 hint flags.now }
    ensures { IsHint flags.now result }
{
    match flags.first_set(hint) {
        Some(block) => block,
        None => flags.len(),
    }
}
