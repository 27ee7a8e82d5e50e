//! What callers rely on of a check that goes on after a damage.

ghost use Rattle.std.specs.Prelude.{ℕ, ◌≡◌, ◌≢◌, ◌<◌, ◌++◌, [], ◌∷◌, IfOk, IsOk, IsTrue, List, Some, codes};
ghost use Rattle.std.specs.Fmt.{decimal};
ghost use Rattle.base.specs.tree.Mount.{IsTreeDamaged, MountsTo};
ghost use Rattle.base.specs.declared.names.Group.{Group};
ghost use Rattle.base.specs.disk.Disk.{bytes_of};
ghost use Rattle.base.specs.history.Contents.{Contents};
ghost use Rattle.read_commands.specs.FoundLabels.{HasConfig};
ghost use Rattle.read_commands.specs.declared.checks.Finding.TheVariants.{Clean};

use super::BRIEF;
use crate::check_all::{check_to_end, run_check_all};
use crate::checks::Finding;
use crate::failure::NotesRefusals;
use base::PoolError;
use device_model::SectorDevice;
use file_devices::FileRefusal;
use std::alloc::Global;
use std::io::Write;

// Each label has a valid config, and the output had no bytes before.
fn a_whole_pool_has_one_line<D: SectorDevice + NotesRefusals + Drop, W: Write, E: Write>(
    alloc: Global,
    device: D,
    out: &mut W,
    errors: &mut E,
) -> u8
    ensures { result ≡ 0 → IsTrue D.keeps_model
        → ((label : ℕ) → label < 4 → HasConfig (bytes_of (D.disk device).now) label)
        → W.contents out.old ≡ Some []
        → (group : ℕ) × (records : ℕ) × (W.contents out.new ≡ Some (codes "clean group "
        ++ (decimal group ++ (codes " records " ++ (decimal records ++ codes "\n"))))) }
{
    run_check_all(alloc, "tank.pool", BRIEF, &mut Ok(device), out, errors)
}

// Label 1 alone has no valid config, and the output had no bytes before.
fn a_label_without_a_config_is_named<D: SectorDevice + NotesRefusals + Drop, W: Write, E: Write>(
    alloc: Global,
    device: D,
    out: &mut W,
    errors: &mut E,
) -> u8
    ensures { result ≡ 0 → IsTrue D.keeps_model
        → HasConfig (bytes_of (D.disk device).now) 0
        → (HasConfig (bytes_of (D.disk device).now) 1 → ⊥)
        → HasConfig (bytes_of (D.disk device).now) 2
        → HasConfig (bytes_of (D.disk device).now) 3
        → W.contents out.old ≡ Some [] → (front reason : List ℕ)
        × (W.contents out.new ≡ Some (front ++ (codes "label 1 config none " ++ reason))) }
{
    run_check_all(alloc, "tank.pool", BRIEF, &mut Ok(device), out, errors)
}

// If a block of the tree is damaged, the status is not 0.
fn a_damaged_pool_is_not_found_clean<D: SectorDevice + NotesRefusals + Drop, W: Write, E: Write>(
    alloc: Global,
    device: D,
    out: &mut W,
    errors: &mut E,
) -> u8
    ensures { IsTrue D.keeps_model → (kind address : ℕ)
        → IsTreeDamaged (bytes_of (D.disk device).now) kind address → result ≢ 0 }
{
    run_check_all(alloc, "tank.pool", BRIEF, &mut Ok(device), out, errors)
}

// If an image mounts contents, that it is clean is all that is found of it.
fn a_whole_pool_has_no_damage<D: SectorDevice>(
    alloc: Global,
    device: &mut D,
) -> Result<Vec<Finding>, PoolError>
    ensures clean { IsTrue D.keeps_model → IfOk result (λ found. (contents : Contents)
        → MountsTo (bytes_of (D.disk device.old).now) contents
        → (group : Group) × (records : ℕ) × (found.items ≡ Clean group records ∷ [])) }
    ensures unchanged { IsTrue D.keeps_model → D.disk device.new ≡ D.disk device.old }
{
    check_to_end(alloc, device)
}

// Whatever it finds, it leaves the disk as it was, and the device refused no write and no flush.
fn a_check_of_all_writes_nothing<D: SectorDevice + NotesRefusals, W: Write, E: Write>(
    alloc: Global,
    device: D,
    out: &mut W,
    errors: &mut E,
) -> Result<D, FileRefusal>
    ensures there { IsOk result }
    ensures disk { IsTrue D.keeps_model → IfOk result (λ after. D.disk after ≡ D.disk device) }
    ensures writes { IfOk result (λ after. (D.refused after).writes ≡ (D.refused device).writes) }
    ensures flushes { IfOk result
        (λ after. (D.refused after).flushes ≡ (D.refused device).flushes) }
{
    let mut opened = Ok(device);
    run_check_all(alloc, "tank.pool", BRIEF, &mut opened, out, errors);
    opened
}
