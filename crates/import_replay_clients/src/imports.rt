//! What callers rest on of an import: the uberblock that it leaves, what it mounts, and when it is refused.

ghost use Rattle.std.specs.Prelude.{◌≡◌, ◌<◌, [], ℕ, IfErr, IfOk, IsErr, IsTrue, true};
ghost use Rattle.std.specs.FinSet as set;
ghost use Rattle.base.specs.disk.Disk.{bytes_of};
ghost use Rattle.base.specs.formats.Uberblocks as image;
ghost use Rattle.base.specs.formats.Uberblocks.{IsActive};
ghost use Rattle.base.specs.tree.Places.{IsInTree};

use base::{Group, PoolError};
use device_model::SectorDevice;
use import_replay::{Imported, Limits, import};
use std::alloc::Global;

// A dirty limit of 1 MiB, and 256 blocks.
const LIMITS: Limits = Limits {
    dirty_max: 1_048_576,
    cache_blocks: 256,
};

// If group 9 and import 3 are active, an import makes an uberblock of group 13 and import 4 the active one.
fn the_next_uberblock_is_active<D: SectorDevice>(
    alloc: Global,
    device: D,
) -> Result<Imported<D>, (PoolError, D)>
    ensures { IsTrue D.keeps_model → IfOk result (λ i. (u : image.Uberblock)
        → IsActive (bytes_of (D.disk device).now) u → u.group ≡ 9 → u.import_number ≡ 3
        → (v : image.Uberblock) × IsActive (bytes_of (D.disk i.device).now) v
        × (v.group ≡ 13) × (v.import_number ≡ 4)) }
{
    import(alloc, device, LIMITS, 0)
}

// The moment that an import is told is that of the active uberblock then.
fn an_import_stores_its_moment<D: SectorDevice>(
    alloc: Global,
    device: D,
) -> Result<Imported<D>, (PoolError, D)>
    ensures { IsTrue D.keeps_model → IfOk result (λ i. (v : image.Uberblock)
        × IsActive (bytes_of (D.disk i.device).now) v × (v.moment ≡ 1234)) }
{
    import(alloc, device, LIMITS, 1_234)
}

// If group 2^60 - 4 is active, no import of the pool succeeds: its open group would pass the last number.
fn no_import_passes_the_last_group<D: SectorDevice>(
    alloc: Global,
    device: D,
) -> Result<Imported<D>, (PoolError, D)>
    ensures { IsTrue D.keeps_model → IfOk result (λ i. (u : image.Uberblock)
        → IsActive (bytes_of (D.disk device).now) u → u.group ≡ 1152921504606846972 → ⊥) }
{
    import(alloc, device, LIMITS, 0)
}

// No block of the tree is free after an import.
fn no_block_of_the_tree_is_free<D: SectorDevice>(
    alloc: Global,
    device: D,
) -> Result<Imported<D>, (PoolError, D)>
    ensures { IsTrue D.keeps_model → IfOk result (λ i. (address : ℕ)
        → set.contains i.mounted.free.free address ≡ true
        → IsInTree (bytes_of (D.disk i.device).now) i.mounted.contents.tree.root address → ⊥) }
{
    import(alloc, device, LIMITS, 0)
}

// An import that is refused for memory has written nothing: a disk with nothing unflushed stays as it was.
fn memory_lacks_before_the_first_write<D: SectorDevice>(
    alloc: Global,
    device: D,
) -> Result<Imported<D>, (PoolError, D)>
    ensures { IsTrue D.keeps_model → IfErr result (λ e. e.0 ≡ PoolError.NoMemory
        → (D.disk device).now.unflushed ≡ [] → D.disk e.1 ≡ D.disk device) }
{
    import(alloc, device, LIMITS, 0)
}

// A limit of 4,095 dirty bytes is refused, and the device comes back as it was.
fn a_limit_below_a_block_leaves_the_device<D: SectorDevice>(
    alloc: Global,
    device: D,
) -> Result<Imported<D>, (PoolError, D)>
    ensures refused { IsErr result }
    ensures unchanged { IfErr result (λ e. e.1 ≡ device) }
{
    let limits = Limits {
        dirty_max: 4_095,
        ..LIMITS
    };
    import(alloc, device, limits, 0)
}

// A cache of no blocks is refused, and the device comes back as it was.
fn a_cache_of_no_blocks_leaves_the_device<D: SectorDevice>(
    alloc: Global,
    device: D,
) -> Result<Imported<D>, (PoolError, D)>
    ensures refused { IsErr result }
    ensures unchanged { IfErr result (λ e. e.1 ≡ device) }
{
    let limits = Limits {
        cache_blocks: 0,
        ..LIMITS
    };
    import(alloc, device, limits, 0)
}

// An import with a cache of two blocks has one, and none is in it.
fn a_cache_has_its_size<D: SectorDevice>(
    alloc: Global,
    device: D,
) -> Result<Imported<D>, (PoolError, D)>
    ensures size { IfOk result (λ i. i.cache.cap ≡ 2) }
    ensures empty { IfOk result (λ i. i.cache.entries ≡ []) }
{
    let limits = Limits {
        cache_blocks: 2,
        ..LIMITS
    };
    import(alloc, device, limits, 0)
}

// An import that is told no number of cache blocks lets 256 stay in memory.
fn an_import_lets_256_blocks_stay<D: SectorDevice>(
    alloc: Global,
    device: D,
) -> Result<Imported<D>, (PoolError, D)>
    ensures { IfOk result (λ i. i.cache.cap ≡ 256) }
{
    import(alloc, device, LIMITS, 0)
}

// If an import synced group 9 and replayed 3 records, `group` returns 9 and `records` returns 3.
fn an_import_has_its_group<D: SectorDevice>(imported: &Imported<D>) -> Group
    requires group { imported.now.mounted.group.0 ≡ 9 }
    requires replayed { imported.now.mounted.records ≡ 3 }
    ensures { result.0 ≡ 9 }
{
    let records = imported.records();
    prove!(records == 3);
    imported.group()
}
