//! A device of which tree blocks stay in memory once they were read.
//!
//! What the cache has of a block is what the device has at its address: a write drops what lies in its range. So
//! whoever reads and writes through it needs no rule of its own. What a sync wrote is not put into the cache. It stays
//! beside it, so that a read of it compares its bytes in place of making its check.

ghost use Rattle.std.specs.Prelude.{◌≡◌, [], IsTrue};
ghost use Rattle.base.specs.declared.error.PoolError.TheVariants as error;
ghost use Rattle.base.specs.disk.Disk.{bytes_of};
ghost use Rattle.block_cache.specs.CachedEntries.{AgreesWith, DropsIn};

use crate::block_cache::BlockCache;
use crate::sealed_blocks::SealedBlocks;
use base::{BLOCK_SIZE, Pointer, PoolError};
use checked_blocks::{Block, Frame};
use device_model::{Fault, MemDevice, SectorDevice};
use object_maps::{BlockReader, new_buffer, payload_of, read_block};
use tree_blocks::BlockPlace;

/// A device, a cache of its tree blocks, and the blocks that syncs wrote last.
#[derive(Drop)]
pub struct CachedDevice<D: SectorDevice> {
    device: D,
    cache: BlockCache,
    sealed: SealedBlocks,
    ghost agrees: { ∥ (IsTrue D.keeps_model
        → AgreesWith (bytes_of (D.disk device).now) cache.entries) ∥₁ },
}

impl<D: SectorDevice> CachedDevice<D> {
    ghost use Rattle.block_cache.specs.CachedDevices.{cache_of, device_in};

    /// The device with a cache of no blocks. At most as many sealed blocks stay beside it as it has room for. It takes
    /// no memory.
    pub fn new(device: D, cache: BlockCache) -> Self
        requires { cache.entries ≡ [] }
        ensures device { device_in result ≡ device }
        ensures cache { cache_of result ≡ cache }
    {
        let sealed = SealedBlocks::new(cache.alloc(), cache.count());
        CachedDevice {
            device,
            cache,
            sealed,
        }
    }

    /// The device and the cache, whose blocks are dropped. It takes no memory.
    pub fn into_parts(self) -> (D, BlockCache)
        ensures device { result.0 ≡ device_in self }
        ensures cache { result.1.entries ≡ [] }
    {
        let CachedDevice {
            device,
            mut cache,
            sealed: _,
        } = self;
        cache.clear();
        (device, cache)
    }
}

// Drops the blocks of which a part lies in a range.
fn drop_in(cache: &mut BlockCache, at: u64, count: usize)
    ensures { DropsIn at count cache.old.entries cache.new.entries }
{
    let start = at % BLOCK_SIZE as u64;
    if count <= BLOCK_SIZE && start + count as u64 <= BLOCK_SIZE as u64 {
        cache.drop_block(at - start);
    } else {
        cache.clear();
    }
}

impl<D: SectorDevice> SectorDevice for CachedDevice<D> {
    ghost keeps_model = { D.keeps_model };

    ghost size = { λ c. D.size c.device };

    ghost refused = { λ c. D.refused c.device };

    ghost disk = { λ c. D.disk c.device };

    ghost sized = { λ keeps c. D.sized keeps c.device };

    fn sectors(&self) -> u64 {
        self.device.sectors()
    }

    fn read(&mut self, at: u64, into: &mut [u8]) -> Result<(), PoolError> {
        self.device.read(at, into)
    }

    fn write(&mut self, at: u64, bytes: &[u8]) -> Result<(), PoolError> {
        drop_in(&mut self.cache, at, bytes.len());
        self.device.write(at, bytes)
    }

    fn flush(&mut self) -> Result<(), PoolError> {
        self.device.flush()
    }
}

impl<D: SectorDevice> BlockReader for CachedDevice<D> {
    ghost cached = { λ c. c.cache.entries };

    fn read_payload(
        &mut self,
        frame: &Frame,
        place: BlockPlace,
        pointer: &Pointer,
        into: &mut [u8],
    ) -> Result<(), PoolError> {
        if self.cache.copy(pointer.address, into) {
            return Ok(());
        }
        let mut buffer = new_buffer();
        let sealed = self.sealed.block_at(pointer.address);
        read_block(&mut self.device, frame, place, pointer, sealed, &mut buffer)?;
        let payload = payload_of(&buffer);
        into.copy_from_slice(payload);
        self.cache.put(pointer.address, payload);
        Ok(())
    }

    fn keep_sealed(&mut self, address: u64, block: Block) {
        self.sealed.put(address, block);
    }

    fn forget(&mut self, address: u64) {
        self.cache.drop_block(address);
    }
}

impl CachedDevice<MemDevice> {
    ghost use Rattle.device_model.specs.Plans.{with_plan};
    ghost use Rattle.block_cache.specs.CachedDevices.{device_in};

    /// Makes the n-th such call of the device from now fail, once, as `MemDevice::fail` does.
    pub fn fail(&mut self, fault: Fault, n: u64)
        ensures { device_in self.new ≡ with_plan fault n (device_in self.old) }
    {
        self.device.fail(fault, n);
    }
}
