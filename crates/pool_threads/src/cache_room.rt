//! The room of the cache of a pool that threads share. It may be larger than that of an import.
ghost use Rattle.std.specs.Prelude.{◌≡◌, true};
ghost use Rattle.base.specs.kept.Imports.{are_limits_allowed, is_cache_allowed};
ghost use Rattle.pool_threads.specs.Handles.{are_shared_limits_allowed, is_shared_cache_allowed};

use base::GREATEST_CACHE_BLOCKS;
use device_model::SectorDevice;
use import_replay::{GREATEST_SHARED_CACHE_BLOCKS, Imported, Limits};
use std::num::NonZeroUsize;

/// The limits of the import of a pool with these. A number that no pool may have stays, so that the import refuses it.
pub(crate) fn limits_of_import(limits: Limits) -> Limits
    ensures dirty_max { result.dirty_max ≡ limits.dirty_max }
    ensures cache { is_cache_allowed result.cache_blocks
        ≡ is_shared_cache_allowed limits.cache_blocks }
    ensures allowed { are_limits_allowed result.dirty_max result.cache_blocks
        ≡ are_shared_limits_allowed limits.dirty_max limits.cache_blocks }
{
    let Limits {
        dirty_max,
        cache_blocks,
    } = limits;
    let is_larger = GREATEST_CACHE_BLOCKS < cache_blocks
        && cache_blocks <= GREATEST_SHARED_CACHE_BLOCKS;
    Limits {
        dirty_max,
        cache_blocks: if is_larger {
            GREATEST_CACHE_BLOCKS
        } else {
            cache_blocks
        },
    }
}

/// An import with a cache of so many blocks, if a pool may have that.
pub(crate) fn with_room<D: SectorDevice>(imported: Imported<D>, cache_blocks: u64) -> Imported<D>
    ensures device { result.device ≡ imported.device }
    ensures mounted { result.mounted ≡ imported.mounted }
    ensures room { is_shared_cache_allowed cache_blocks ≡ true → result.cache.cap ≡ cache_blocks }
{
    match NonZeroUsize::new(cache_blocks as usize) {
        Some(count) => imported.with_cache(count),
        None => imported,
    }
}
