//! What callers rest on of an inspection, and of a search for damages.

ghost use Rattle.std.specs.Prelude.{◌≡◌, ◌≢◌, ◌<◌, ℕ, Contains, IfErr, IfOk, IfSome, IsErr, IsTrue, List, false, length, true};
ghost use Rattle.base.specs.disk.Disk.{bytes_of};
ghost use Rattle.base.specs.formats.Uberblocks as image;
ghost use Rattle.base.specs.formats.Uberblocks.{IsActive};
ghost use Rattle.base.specs.tree.Mount.{IsChainDamaged, Mounts, MountsTo, frame_of, records_above};
ghost use Rattle.base.specs.formats.Chain.{LogPiece};
ghost use Rattle.base.specs.history.Contents.{Contents};
ghost use Rattle.base.specs.tree.Damages.{IsSoundAt};
ghost use Rattle.base.specs.tree.Places.{Place, kind_of, pointer_of};
ghost use Rattle.tree_blocks.specs.ListedObjects.{listed};
ghost use Rattle.trees.specs.declared.damages.BlockDamage.{BlockDamage};

use base::PoolError;
use device_model::SectorDevice;
use inspections::{Inspected, Soundness, find_damages, inspect};
use std::alloc::Global;
use trees::BlockDamage;

// If an image mounts contents, an inspection finds the pool, and reports their name and objects, and how many records
// of its chain are of groups above the active one.
fn an_inspection_reports_what_is_mounted<D: SectorDevice>(
    alloc: Global,
    device: &mut D,
) -> Result<Inspected, PoolError>
    ensures reported { IsTrue D.keeps_model → IfOk result (λ i. (u : image.Uberblock)
        → (chain : List LogPiece) → (contents : Contents)
        → Mounts (bytes_of (D.disk device.old).now) u chain contents
        → (i.name ≡ contents.name) × (i.objects.items ≡ listed contents.objects)
        × (i.group.0 ≡ u.group) × (i.import_number ≡ u.import_number)
        × (i.records ≡ length (records_above u.group chain))) }
    ensures found { IsTrue D.keeps_model → IfErr result (λ e. (u : image.Uberblock)
        → (chain : List LogPiece) → (contents : Contents)
        → Mounts (bytes_of (D.disk device.old).now) u chain contents → e ≢ PoolError.NoPool) }
{
    inspect(alloc, device)
}

// If a record of the chain can't take place, an inspection is refused. If it is refused with kind 6, it names the block
// of such a record.
fn a_record_that_cannot_take_place_is_refused<D: SectorDevice>(
    alloc: Global,
    device: &mut D,
) -> Result<Inspected, PoolError>
    ensures sound { IsTrue D.keeps_model → IfOk result (λ _. (address : ℕ)
        → IsChainDamaged (bytes_of (D.disk device.old).now) address → ⊥) }
    ensures damaged { IsTrue D.keeps_model → IfErr result (λ e. (address : ℕ)
        → e ≡ PoolError.Damaged 6 address
        → IsChainDamaged (bytes_of (D.disk device.old).now) address) }
{
    inspect(alloc, device)
}

// A damage that is found is of kind 6, and names the block of a log record that can't take place, or it is that of a
// place in the tree of the active uberblock, which isn't sound.
fn a_damage_that_is_found_is_one<D: SectorDevice>(
    alloc: Global,
    device: &mut D,
) -> Result<Vec<BlockDamage>, PoolError>
    ensures log { IsTrue D.keeps_model → IfOk result (λ l. (d : BlockDamage) → Contains l.items d
        → d.kind ≡ 6 → IsChainDamaged (bytes_of (D.disk device.old).now) d.address) }
    ensures tree { IsTrue D.keeps_model → IfOk result (λ l. (d : BlockDamage) → Contains l.items d
        → d.kind ≢ 6 → (u : image.Uberblock) × IsActive (bytes_of (D.disk device.old).now) u
        × (place : Place) × (kind_of place ≡ d.kind)
        × ((pointer_of (bytes_of (D.disk device.old).now) u.root place).address ≡ d.address)
        × (IsSoundAt (bytes_of (D.disk device.old).now)
        (frame_of (bytes_of (D.disk device.old).now) u) u.root place → ⊥)) }
{
    match find_damages(alloc, device)? {
        Soundness::Damaged(damages) => Ok(damages),
        Soundness::Whole(_) => Ok(Vec::new(alloc)),
    }
}

// A pool that is found whole is what the image mounts, by its name.
fn a_pool_that_is_found_whole_is_mounted<D: SectorDevice>(
    alloc: Global,
    device: &mut D,
) -> Result<Option<Inspected>, PoolError>
    ensures { IsTrue D.keeps_model → IfOk result (λ o. IfSome o (λ i. (contents : Contents)
        × MountsTo (bytes_of (D.disk device.old).now) contents × (i.name ≡ contents.name))) }
{
    match find_damages(alloc, device)? {
        Soundness::Whole(inspected) => Ok(Some(inspected)),
        Soundness::Damaged(_) => Ok(None),
    }
}

// If an image mounts contents, its pool is found whole.
fn a_mounted_pool_is_found_whole<D: SectorDevice>(
    alloc: Global,
    device: &mut D,
) -> Result<bool, PoolError>
    ensures { IsTrue D.keeps_model → (contents : Contents)
        → MountsTo (bytes_of (D.disk device.old).now) contents → IfOk result IsTrue }
{
    match find_damages(alloc, device)? {
        Soundness::Whole(_) => Ok(true),
        Soundness::Damaged(_) => Ok(false),
    }
}

// No search for damages is refused with one of them.
fn no_damage_refuses_the_search<D: SectorDevice>(
    alloc: Global,
    device: &mut D,
) -> Result<Soundness, PoolError>
    ensures { IfErr result (λ e. e ≢ PoolError.Damaged 3 4194304) }
{
    find_damages(alloc, device)
}

// A device of 512 bytes is too small for a pool, and a refused inspection leaves it as it was.
fn an_inspection_needs_a_size<D: SectorDevice>(
    alloc: Global,
    device: &mut D,
) -> Result<Inspected, PoolError>
    requires { D.size device.old ≡ 512 }
    ensures refused { IsErr result }
    ensures reason { IfErr result (λ e. e ≡ PoolError.BadGeometry) }
    ensures unchanged { device.new ≡ device.old }
{
    inspect(alloc, device)
}
