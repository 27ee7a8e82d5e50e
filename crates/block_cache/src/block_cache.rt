//! Payloads of tree blocks that were read from a device, by their addresses. The least recently used one goes first.

ghost use Rattle.std.specs.Prelude.{◌≡◌, ◌≢◌, ◌⊎◌, [], IfOk, IfSome, IsTrue, Some, false, length, nat_eq};
ghost use Rattle.std.specs.NonZero.{non_zero_usize_get};
ghost use Rattle.std.specs.List.{IsDistinct};
ghost use Rattle.std.specs.Map.{keys_of, lookup, remove_entry};
ghost use Rattle.lru.specs.LruCache.{lru_cache, promoted, put_entries};

use base::Bytes;
use lru::LruCache;
use std::alloc::{AllocError, Global};
use std::marker::Model;
use std::num::NonZeroUsize;

/// Payloads of tree blocks by their addresses. Contracts see the pairs, the most recently used first, and how many
/// there may be.
#[derive(Drop)]
pub struct BlockCache {
    alloc: Global,
    count: NonZeroUsize,
    // made for the first block that is put
    blocks: Option<LruCache<u64, Bytes>>,
    // the payload that went last, whose memory is for the next one
    spare: Option<Bytes>,
}

impl Model for BlockCache {
    ghost use Rattle.std.specs.Prelude.{List, [], ℕ};
    ghost use Rattle.std.specs.NonZero.{non_zero_usize_get};
    ghost use Rattle.std.specs.Coded.{coded_ℕ, coded_list};
    ghost use Rattle.std.specs.Option.{option_map_or};
    ghost use Rattle.lru.specs.LruCache.{LruCache as Entries, lru_cache, lru_cache_code};

    ghost Value = { Entries ℕ (List ℕ) };

    ghost coded = { lru_cache_code coded_ℕ (coded_list coded_ℕ) };

    ghost view = { λ c. option_map_or (λ b. b) c.blocks (lru_cache [] (non_zero_usize_get c.count)) };
}

impl BlockCache {
    /// A cache of at most so many blocks, with none. It takes no memory before a block is put.
    pub fn new(alloc: Global, count: NonZeroUsize) -> Self
        ensures { result ≡ lru_cache [] (non_zero_usize_get count) }
    {
        BlockCache {
            alloc,
            count,
            blocks: None,
            spare: None,
        }
    }

    /// The allocator of its blocks.
    pub fn alloc(&self) -> Global {
        self.alloc
    }

    /// How many blocks there may be.
    pub fn count(&self) -> NonZeroUsize
        ensures { non_zero_usize_get result ≡ self.now.cap }
    {
        match &self.blocks {
            Some(blocks) => blocks.cap(),
            None => self.count,
        }
    }

    /// Copies the payload of the block at an address, if it is there with the length of `into`. It is then the most
    /// recently used one. It takes no memory.
    pub fn copy(&mut self, address: u64, into: &mut [u8]) -> bool
        ensures hit { IsTrue result → lookup (nat_eq address)
            (promoted (nat_eq address) self.old.entries) ≡ Some into.new }
        ensures miss { result ≡ false → IfSome (lookup (nat_eq address)
            (promoted (nat_eq address) self.old.entries))
            (λ payload. length payload ≢ length into.old) }
        ensures entries { self.new
            ≡ lru_cache (promoted (nat_eq address) self.old.entries) self.old.cap }
        ensures size { length into.new ≡ length into.old }
    {
        let Some(blocks) = &mut self.blocks else {
            return false;
        };
        blocks.promote(&address);
        match blocks.peek(&address) {
            Some(payload) => {
                if payload.len() != into.len() {
                    return false;
                }
                into.copy_from_slice(payload.as_slice());
                true
            }
            None => false,
        }
    }

    /// Puts the payload of the block at an address. If there is no memory for it, all stays.
    pub fn put(&mut self, address: u64, payload: &[u8])
        ensures { (self.new ≡ self.old) ⊎ (self.new
            ≡ lru_cache (put_entries nat_eq self.old address payload.now) self.old.cap) }
    {
        let Ok(payload) = filled(self.alloc, self.spare.take(), payload) else {
            return;
        };
        if let Some(blocks) = &mut self.blocks {
            if let Ok(Some((_, room))) = blocks.push(address, payload) {
                self.spare = Some(room);
            }
            return;
        }
        let Ok(mut blocks) = LruCache::new(self.alloc, self.count) else {
            return;
        };
        let _ = blocks.put(address, payload);
        self.blocks = Some(blocks);
    }

    /// Drops the block at an address. It takes no memory.
    pub fn drop_block(&mut self, address: u64)
        ensures removed { self.new
            ≡ lru_cache (remove_entry (nat_eq address) self.old.entries) self.old.cap }
        ensures distinct { IsDistinct nat_eq (keys_of self.old.entries) }
    {
        let Some(blocks) = &mut self.blocks else {
            return;
        };
        let _count = blocks.len();
        let _dropped = blocks.pop(&address);
    }

    /// Drops all blocks. It takes no memory.
    pub fn clear(&mut self)
        ensures { self.new ≡ lru_cache [] self.old.cap }
    {
        if let Some(blocks) = &mut self.blocks {
            blocks.clear();
        }
    }
}

// The bytes of a payload, in the memory of these ones if there are some.
fn filled(alloc: Global, spare: Option<Bytes>, payload: &[u8]) -> Result<Bytes, AllocError>
    ensures { IfOk result (λ bytes. bytes ≡ payload.now) }
{
    let Some(spare) = spare else {
        return Bytes::from_slice(alloc, payload);
    };
    let mut room = spare.into_vec();
    room.clear();
    room.extend_from_slice(payload)?;
    Ok(Bytes::new(room))
}
