//! What callers rest on of a create.

ghost use Rattle.std.specs.Prelude.{◌≡◌, ◌≢◌, ◌<◌, ◌∷◌, [], IfErr, IfOk, IsErr, IsTrue, MatchResult, slice_index};
ghost use Rattle.base.specs.disk.Disk.{bytes_of, moments};
ghost use Rattle.base.specs.history.Past.{Past};
ghost use Rattle.base.specs.kept.LeftDisks.{IsLeft};

use base::PoolError;
use device_model::SectorDevice;
use import_replay::{Imported, Limits, create, import};
use std::alloc::Global;

// A dirty limit of 1 MiB, and 256 blocks.
const LIMITS: Limits = Limits {
    dirty_max: 1_048_576,
    cache_blocks: 256,
};

// A pool that was just made is found and imported by its name, as group 8 and import 1.
fn a_new_pool_is_imported<D: SectorDevice>(
    alloc: Global,
    device: D,
) -> Result<Imported<D>, (PoolError, D)>
    ensures mounted { IsTrue D.keeps_model → IfOk result (λ i.
        (i.mounted.contents.name ≡ 116 ∷ 97 ∷ 110 ∷ 107 ∷ []) × (i.mounted.guid ≡ 77)
        × (i.mounted.group.0 ≡ 8) × (i.mounted.import_number ≡ 1)) }
    ensures found { IsTrue D.keeps_model → IfErr result (λ e. e.0 ≢ PoolError.NoPool) }
{
    match create(device, b"tank", 77, 0) {
        Ok(device) => import(alloc, device, LIMITS, 0),
        Err(refused) => Err(refused),
    }
}

// A create returns the kind of call that the device refused: a refused flush counts as one, and no write was refused.
fn a_refused_flush_is_no_refused_write<D: SectorDevice>(device: D) -> Result<D, (PoolError, D)>
    requires { D.refused device ≡ record { reads = 0; writes = 0; flushes = 0 } }
    ensures flush { IfErr result (λ e. e.0 ≡ PoolError.Flush
        → D.refused e.1 ≡ record { reads = 0; writes = 0; flushes = 1 }) }
    ensures write { IfErr result (λ e. e.0 ≡ PoolError.Write
        → D.refused e.1 ≡ record { reads = 0; writes = 1; flushes = 0 }) }
{
    create(device, b"tank", 77, 0)
}

// A create does not change the first byte after the first two labels, whatever it returns.
fn a_create_leaves_what_lies_behind_the_labels<D: SectorDevice>(
    device: D,
) -> Result<D, (PoolError, D)>
    requires { D.size device ≡ 8388608 }
    ensures { IsTrue D.keeps_model → MatchResult result
        (λ d. slice_index (bytes_of (D.disk d).now) 524288
        ≡ slice_index (bytes_of (D.disk device).now) 524288)
        (λ e. slice_index (bytes_of (D.disk e.1).now) 524288
        ≡ slice_index (bytes_of (D.disk device).now) 524288) }
{
    create(device, b"tank", 77, 0)
}

// A run of the pool that was just made has left it, and no transaction was committed in that: so an import goes on from
// no objects, whatever the device held before the create.
fn a_new_pool_has_no_history<D: SectorDevice>(device: D) -> Result<D, (PoolError, D)>
    ensures { IsTrue D.keeps_model → IfOk result (λ d. (past : Past)
        × (past.created ≡ moments (D.disk device)) × (past.base.name ≡ 116 ∷ 97 ∷ 110 ∷ 107 ∷ [])
        × (past.entries ≡ []) × IsLeft past (D.disk d)) }
{
    create(device, b"tank", 77, 0)
}

// A create without a name is refused, and the device comes back as it was.
fn a_pool_has_a_name<D: SectorDevice>(device: D) -> Result<D, (PoolError, D)>
    requires { D.size device ≡ 8388608 }
    ensures refused { IsErr result }
    ensures reason { IfErr result (λ e. e.0 ≡ PoolError.BadRange) }
    ensures unchanged { IfErr result (λ e. e.1 ≡ device) }
{
    create(device, b"", 77, 0)
}
