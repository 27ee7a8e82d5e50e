//! What an import returns: what it mounted, on its device.

ghost use Rattle.std.specs.Prelude.{◌≡◌, ◌<◌, ◌≤◌, [], IsTrue};
ghost use Rattle.std.specs.NonZero.{non_zero_usize_get};
ghost use Rattle.base.specs.disk.Disk.{bytes_of};
ghost use Rattle.base.specs.formats.Limits.{first_group, last_number};
ghost use Rattle.import_replay.specs.Mounts.{IsExplainedAnew, StandsOnDevice};
ghost use Rattle.import_replay.specs.ShownMounts.{LabelsShow};

use base::Group;
use block_cache::BlockCache;
use device_model::SectorDevice;
use mounted::Mounted;
use std::fmt;
use std::num::NonZeroUsize;

/// An imported pool, with the device that it lies on.
#[derive(Drop)]
pub struct Imported<D: SectorDevice> {
    /// The device, whose labels the import has written.
    pub device: D,
    /// The cache of its tree blocks, which has none yet.
    pub cache: BlockCache,
    /// What was mounted and written.
    pub mounted: Mounted,
    ghost empty: { cache.entries ≡ [] },
    ghost sized: { D.size device ≡ mounted.geometry },
    ghost stands: { ∥ (IsTrue D.keeps_model → StandsOnDevice (bytes_of (D.disk device).now) mounted) ∥₁ },
    ghost labels: { ∥ (IsTrue D.keeps_model → LabelsShow (bytes_of (D.disk device).now) mounted) ∥₁ },
    ghost explained: { ∥ IsExplainedAnew mounted ∥₁ },
}

impl<D: SectorDevice> Imported<D> {
    /// Returns the group that the import synced. The next one is open.
    pub fn group(&self) -> Group
        ensures group { result ≡ self.now.mounted.group }
        ensures fits { (first_group ≤ result.0) × (result.0 < last_number) }
    {
        self.mounted.group
    }

    /// Returns the import with a cache of so many blocks, with none, in the place of its own. It takes no memory.
    pub fn with_cache(self, count: NonZeroUsize) -> Self
        ensures device { result.device ≡ self.device }
        ensures mounted { result.mounted ≡ self.mounted }
        ensures cache { result.cache.cap ≡ non_zero_usize_get count }
    {
        let Imported {
            device,
            cache,
            mounted,
        } = self;
        let cache = BlockCache::new(cache.alloc(), count);
        Imported {
            device,
            cache,
            mounted,
        }
    }

    /// Returns how many log records were replayed.
    pub fn records(&self) -> u64
        ensures { result ≡ self.now.mounted.records }
    {
        self.mounted.records
    }
}

/// The type's name alone.
impl<D: SectorDevice> fmt::Debug for Imported<D> {
    fn fmt<W: fmt::Write>(&self, f: &mut fmt::Formatter<W>) -> fmt::Result {
        f.debug_struct("Imported").finish_non_exhaustive()
    }
}
