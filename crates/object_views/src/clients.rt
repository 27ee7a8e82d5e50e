//! What callers rest on: one function for each promise of this crate's calls, proved from the contract of the call
//! alone. So it is refused as soon as that contract says less.

mod stored;

ghost use Rattle.std.specs.Prelude.{◌≡◌, ◌≢◌, ◌∷◌, [], ℕ, List, Some, codes, false, IfErr, IfOk, IsTrue};
ghost use Rattle.std.specs.FinMap as finite;
ghost use Rattle.base.specs.declared.error.PoolError.TheVariants.{Damaged};
ghost use Rattle.base.specs.disk.Disk.{bytes_of};
ghost use Rattle.base.specs.formats.Uberblocks.{Uberblock};
ghost use Rattle.base.specs.history.Contents.{Contents};
ghost use Rattle.base.specs.tree.Damages.{IsSoundAt};
ghost use Rattle.base.specs.tree.Mount.{HasPool, IsMounted, Mount, MountsTo, frame_of};
ghost use Rattle.base.specs.tree.Places.{pointer_of};
ghost use Rattle.base.specs.tree.Places.Place.{Directory, Root};
ghost use Rattle.tree_blocks.specs.ListedObjects.{listed};
ghost use Rattle.inspections.specs.PoolDamages.{IsOfNoDamage};
ghost use Rattle.object_views.specs.ReadPaths.{IsSoundRecord};
ghost use Rattle.object_views.specs.ObjectViews.{FitsOn, IsObjectViewOf, is_own, object_of};

use crate::listing::{ListedPool, list_pool};
use crate::paths::find_paths;
use crate::view::{ObjectView, view_object};
use base::{Bytes, ObjectId, PoolError, PoolName, Range};
use device_model::SectorDevice;
use std::alloc::Global;

// A view reads what the image mounts, and finds no damage in it.
fn a_view_of_an_object_reads_what_the_image_mounts<D: SectorDevice>(
    alloc: Global,
    device: &mut D,
) -> Result<Bytes, PoolError>
    ensures bytes { IsTrue D.keeps_model → (contents : Contents)
        → MountsTo (bytes_of (D.disk device.old).now) contents
        → finite.get contents.objects 7 ≡ Some (10 ∷ 11 ∷ 12 ∷ 13 ∷ [])
        → IfOk result (λ bytes. bytes ≡ 11 ∷ 12 ∷ []) }
    ensures sound { IsTrue D.keeps_model → (contents : Contents)
        → MountsTo (bytes_of (D.disk device.old).now) contents → IfErr result IsOfNoDamage }
{
    let view = view_object(alloc, device, ObjectId(7))?;
    view.read(device, alloc, Range { low: 1, high: 3 })
}

// A read sees no damage of another object, nor one of another record.
fn a_damage_beside_the_range_is_not_seen<D: SectorDevice>(
    view: &ObjectView,
    device: &mut D,
    alloc: Global,
) -> Result<Bytes, PoolError>
    requires { FitsOn (D.size device.old) view.now }
    ensures { IsTrue D.keeps_model
        → (seen : IsObjectViewOf (bytes_of (D.disk device.old).now) view.now)
        → IsSoundRecord (bytes_of (D.disk device.old).now) view.now.frame seen.u.root (object_of view.now) 0
        → IfErr result IsOfNoDamage }
{
    view.read(device, alloc, Range { low: 0, high: 2 })
}

// A record whose places aren't all sound gives no byte, unless the object's own log records have it.
fn a_record_that_is_not_sound_gives_no_byte<D: SectorDevice>(
    view: &ObjectView,
    device: &mut D,
    alloc: Global,
) -> Result<Bytes, PoolError>
    requires { FitsOn (D.size device.old) view.now }
    ensures { IsTrue D.keeps_model
        → (seen : IsObjectViewOf (bytes_of (D.disk device.old).now) view.now)
        → (IsSoundRecord (bytes_of (D.disk device.old).now) view.now.frame seen.u.root (object_of view.now) 0 → ⊥)
        → is_own view.now 0 ≡ false → IfOk result (λ bytes. bytes ≡ []) }
{
    view.read(device, alloc, Range { low: 0, high: 2 })
}

// Paths that are found once show an object as it is shown when they are found anew.
fn paths_show_what_the_image_mounts<D: SectorDevice>(
    alloc: Global,
    device: &mut D,
) -> Result<Bytes, PoolError>
    ensures bytes { IsTrue D.keeps_model → (contents : Contents)
        → MountsTo (bytes_of (D.disk device.old).now) contents
        → finite.get contents.objects 7 ≡ Some (10 ∷ 11 ∷ 12 ∷ 13 ∷ [])
        → IfOk result (λ bytes. bytes ≡ 11 ∷ 12 ∷ []) }
    ensures sound { IsTrue D.keeps_model → (contents : Contents)
        → MountsTo (bytes_of (D.disk device.old).now) contents → IfErr result IsOfNoDamage }
{
    let paths = find_paths(alloc, device)?;
    let view = paths.view(alloc, device, ObjectId(7))?;
    view.read(device, alloc, Range { low: 1, high: 3 })
}

// A pool that is mounted has the name that its paths say.
fn paths_have_the_name_that_the_image_mounts<D: SectorDevice>(
    alloc: Global,
    device: &mut D,
) -> Result<PoolName, PoolError>
    ensures { IsTrue D.keeps_model → (contents : Contents)
        → MountsTo (bytes_of (D.disk device.old).now) contents → contents.name ≡ codes "tank"
        → IfOk result (λ name. name ≡ codes "tank") }
{
    let paths = find_paths(alloc, device)?;
    Ok(paths.name())
}

// A list has the objects of what the image mounts, each with its length.
fn a_list_has_the_lengths_of_what_the_image_mounts<D: SectorDevice>(
    alloc: Global,
    device: &mut D,
) -> Result<ListedPool, PoolError>
    ensures { IsTrue D.keeps_model → (m : Mount)
        → IsMounted (bytes_of (D.disk device.old).now) m
        → listed m.contents.objects ≡ (record { 0 = 7 }, 4) ∷ []
        → IfOk result (λ l. l.objects.items ≡ (record { 0 = 7 }, 4) ∷ []) }
{
    list_pool(alloc, device)
}

// Whatever the image is, no damage of a data block is told, which has kind 5.
fn a_list_sees_no_damage_of_a_data_block<D: SectorDevice>(
    alloc: Global,
    device: &mut D,
) -> Result<ListedPool, PoolError>
    ensures { IsTrue D.keeps_model → IfErr result (λ e. (address : ℕ) → e ≢ Damaged 5 address) }
{
    list_pool(alloc, device)
}

// A directory that isn't sound ends a list. The first directory is told as kind 3, with the address in the root.
fn a_list_tells_the_first_bad_directory<D: SectorDevice>(
    alloc: Global,
    device: &mut D,
) -> Result<ListedPool, PoolError>
    ensures no_list { IsTrue D.keeps_model → (image : List ℕ) (u : Uberblock) (name : List ℕ)
        → bytes_of (D.disk device.old).now ≡ image → HasPool image u name
        → (IsSoundAt image (frame_of image u) u.root (Directory 0) → ⊥) → IfOk result (λ _. ⊥) }
    ensures told { IsTrue D.keeps_model → (image : List ℕ) (u : Uberblock) (name : List ℕ)
        → bytes_of (D.disk device.old).now ≡ image → HasPool image u name
        → IsSoundAt image (frame_of image u) u.root Root
        → (IsSoundAt image (frame_of image u) u.root (Directory 0) → ⊥)
        → IfErr result (λ e. (kind address : ℕ) → e ≡ Damaged kind address
        → (kind ≡ 3) × ((pointer_of image u.root (Directory 0)).address ≡ address)) }
{
    list_pool(alloc, device)
}
