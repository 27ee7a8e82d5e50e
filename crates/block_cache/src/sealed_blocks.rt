//! Blocks that syncs wrote last, by their addresses. The one that was put first goes first.
//!
//! What is found at an address need not be what the device has there: whoever uses it compares the bytes.

use checked_blocks::Block;
use lru::LruCache;
use std::alloc::Global;
use std::num::NonZeroUsize;

/// Sealed blocks by their addresses.
#[derive(Drop)]
pub struct SealedBlocks {
    alloc: Global,
    count: NonZeroUsize,
    // made for the first block that is put; in boxes, so that it moves pointers, and not blocks
    blocks: Option<LruCache<u64, Box<Block>>>,
    // the box of the block that went last, for the next one
    spare: Option<Box<Block>>,
}

impl SealedBlocks {
    /// At most so many blocks, with none. It takes no memory before a block is put.
    pub fn new(alloc: Global, count: NonZeroUsize) -> Self {
        SealedBlocks {
            alloc,
            count,
            blocks: None,
            spare: None,
        }
    }

    /// Puts the block at an address. If there is no memory for it, it isn't kept.
    pub fn put(&mut self, address: u64, block: Block) {
        if self.blocks.is_none() {
            self.blocks = LruCache::new(self.alloc, self.count).ok();
        }
        let Some(blocks) = &mut self.blocks else {
            return;
        };
        let Some(block) = boxed(self.alloc, self.spare.take(), block) else {
            return;
        };
        if let Ok(Some((_, room))) = blocks.push(address, block) {
            self.spare = Some(room);
        }
    }

    /// The block that was put last at an address, if it is kept.
    pub fn block_at(&self, address: u64) -> Option<&Block> {
        match &self.blocks {
            Some(blocks) => match blocks.peek(&address) {
                Some(block) => Some(&**block),
                None => None,
            },
            None => None,
        }
    }
}

// The block in a box, in this one if there is one.
fn boxed(alloc: Global, spare: Option<Box<Block>>, block: Block) -> Option<Box<Block>> {
    match spare {
        Some(mut room) => {
            *room = block;
            Some(room)
        }
        None => Box::new(alloc, block).ok(),
    }
}
