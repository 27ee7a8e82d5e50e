//! What callers rely on: one function for each promise of this crate's calls, proved from the contract of the call
//! alone. So it is refused as soon as that contract promises less.

mod all_checks;
mod named;
mod objects;
mod progress;
mod report_checks;
mod reports;
mod undone;

ghost use Rattle.std.specs.Prelude.{◌≡◌, ◌≢◌, ◌⊎◌, ◌++◌, ℕ, List, [], IfErr, IfOk, IsOk, IsTrue, Some, codes};
ghost use Rattle.base.specs.tree.Mount.{IsMounted, IsTreeDamaged, Mount, MountsTo};
ghost use Rattle.base.specs.disk.Disk.{bytes_of};
ghost use Rattle.base.specs.formats.Geometry.{IsGeometry};
ghost use Rattle.base.specs.history.Contents.{Contents};
ghost use Rattle.read_commands.specs.Checks.{IsFoundIn, finding_status};
ghost use Rattle.read_commands.specs.Failures.{refusal_of};
ghost use Rattle.read_commands.specs.declared.checks.Finding.{Finding as ShownFinding};
ghost use Rattle.read_commands.specs.declared.checks.Finding.TheVariants.{Damaged};

use crate::checks::{Finding, check_opened, check_pool, run_check};
use crate::failure::{Failure, NotesRefusals, report_failure};
use crate::show::{run_show, run_show_fast};
use base::PoolError;
use command_arguments::Verbosity;
use device_model::SectorDevice;
use file_devices::FileRefusal;
use std::alloc::Global;
use std::io::Write;

const BRIEF: Verbosity = Verbosity::Quiet;

// A refusal of the engine has status 1.
fn a_refusal_has_status_1<E: Write>(errors: &mut E) -> u8
    ensures { result ≡ 1 }
{
    let failure = Failure::Refused(PoolError::NoMemory);
    report_failure(failure, "tank.pool", BRIEF, errors)
}

fn a_file_that_cannot_be_used_has_status_3<E: Write>(errors: &mut E) -> u8
    ensures { result ≡ 3 }
{
    let failure = Failure::Unusable(FileRefusal::InUse);
    report_failure(failure, "tank.pool", Verbosity::WithCause, errors)
}

fn an_output_that_is_not_written_has_status_3<E: Write>(errors: &mut E) -> u8
    ensures { result ≡ 3 }
{
    report_failure(Failure::Unwritten, "tank.pool", BRIEF, errors)
}

// No call of the device leads to this refusal, so none is named as its cause.
fn a_bad_range_names_no_call_of_the_device<D: NotesRefusals>(device: &D) -> Failure
    ensures { result ≡ Failure.Refused PoolError.BadRange }
{
    Failure::of_pool(PoolError::BadRange, device)
}

fn a_pool_that_is_not_opened_shows_status_3<
    D: SectorDevice + NotesRefusals + Drop,
    W: Write,
    E: Write,
>(alloc: Global, out: &mut W, errors: &mut E) -> u8
    ensures { result ≡ 3 }
{
    let mut opened: Result<D, FileRefusal> = Err(FileRefusal::InUse);
    run_show(alloc, "tank.pool", BRIEF, &mut opened, out, errors)
}

// If the image mounts nothing, a show is neither done nor fails to write.
fn a_pool_that_is_not_mounted_is_shown_with_status_1<
    D: SectorDevice + NotesRefusals + Drop,
    W: Write,
    E: Write,
>(alloc: Global, device: D, out: &mut W, errors: &mut E) -> u8
    ensures { IsTrue D.keeps_model → ((contents : Contents)
        → MountsTo (bytes_of (D.disk device).now) contents → ⊥) → result ≡ 1 }
{
    run_show(alloc, "tank.pool", BRIEF, &mut Ok(device), out, errors)
}

// The output had no bytes before.
fn a_show_begins_with_the_name<D: SectorDevice + NotesRefusals + Drop, W: Write, E: Write>(
    alloc: Global,
    device: D,
    out: &mut W,
    errors: &mut E,
) -> u8
    ensures { result ≡ 0 → IsTrue D.keeps_model → (contents : Contents)
        → MountsTo (bytes_of (D.disk device).now) contents → contents.name ≡ codes "tank"
        → W.contents out.old ≡ Some []
        → (rest : List ℕ) × (W.contents out.new ≡ Some (codes "name tank\nguid " ++ rest)) }
{
    run_show(alloc, "tank.pool", BRIEF, &mut Ok(device), out, errors)
}

// The output had no bytes before.
fn a_fast_show_begins_with_the_name<D: SectorDevice + NotesRefusals + Drop, W: Write, E: Write>(
    alloc: Global,
    device: D,
    out: &mut W,
    errors: &mut E,
) -> u8
    ensures { result ≡ 0 → IsTrue D.keeps_model → (m : Mount)
        → IsMounted (bytes_of (D.disk device).now) m → m.contents.name ≡ codes "tank"
        → W.contents out.old ≡ Some []
        → (rest : List ℕ) × (W.contents out.new ≡ Some (codes "name tank\nguid " ++ rest)) }
{
    run_show_fast(alloc, "tank.pool", BRIEF, &mut Ok(device), out, errors)
}

// Whatever a show finds, it leaves the disk as it was, and the device refused no write and no flush.
fn a_show_writes_nothing<D: SectorDevice + NotesRefusals, W: Write, E: Write>(
    alloc: Global,
    device: D,
    out: &mut W,
    errors: &mut E,
) -> Result<D, FileRefusal>
    ensures there { IsOk result }
    ensures disk { IsTrue D.keeps_model → IfOk result (λ after. D.disk after ≡ D.disk device) }
    ensures writes { IfOk result (λ after. (D.refused after).writes ≡ (D.refused device).writes) }
    ensures flushes { IfOk result
        (λ after. (D.refused after).flushes ≡ (D.refused device).flushes) }
{
    let mut opened = Ok(device);
    run_show(alloc, "tank.pool", BRIEF, &mut opened, out, errors);
    opened
}

// A pool may have a device of this size. Then a check is refused only so.
fn a_check_is_refused_for_memory_or_a_read<D: SectorDevice + NotesRefusals + Drop>(
    alloc: Global,
    device: D,
) -> Result<Finding, Failure>
    requires { IsGeometry (D.size device) }
    ensures { IfErr result (λ why. (refusal_of why ≡ Some PoolError.NoMemory)
        ⊎ (refusal_of why ≡ Some PoolError.Read)) }
{
    check_opened(alloc, &mut Ok(device))
}

fn a_pool_that_is_not_opened_is_checked_with_status_3<
    D: SectorDevice + NotesRefusals + Drop,
    W: Write,
    E: Write,
>(alloc: Global, out: &mut W, errors: &mut E) -> u8
    ensures { result ≡ 3 }
{
    let mut opened: Result<D, FileRefusal> = Err(FileRefusal::InUse);
    run_check(alloc, "tank.pool", BRIEF, &mut opened, out, errors)
}

// If a block of the tree is damaged, the status is not 0.
fn a_damaged_pool_is_not_clean<D: SectorDevice + NotesRefusals + Drop, W: Write, E: Write>(
    alloc: Global,
    device: D,
    out: &mut W,
    errors: &mut E,
) -> u8
    ensures { IsTrue D.keeps_model → (kind address : ℕ)
        → IsTreeDamaged (bytes_of (D.disk device).now) kind address → result ≢ 0 }
{
    run_check(alloc, "tank.pool", BRIEF, &mut Ok(device), out, errors)
}

// A damaged data block is printed if a check can find nothing else, or nothing is if the check is refused.
fn a_check_prints_the_damage<D: SectorDevice + NotesRefusals + Drop, W: Write, E: Write>(
    alloc: Global,
    device: D,
    out: &mut W,
    errors: &mut E,
) -> u8
    ensures { result ≡ 1 → IsTrue D.keeps_model → ((found : ShownFinding)
        → IsFoundIn (bytes_of (D.disk device).now) found → found ≡ Damaged 5 4194304)
        → W.contents out.old ≡ Some [] → (W.contents out.new ≡ Some [])
        ⊎ (W.contents out.new ≡ Some (codes "damaged 5 4194304\n")) }
{
    run_check(alloc, "tank.pool", BRIEF, &mut Ok(device), out, errors)
}

// A file of 512 bytes can hold no pool.
fn a_check_of_a_small_file_has_status_1<D: SectorDevice + NotesRefusals + Drop, W: Write, E: Write>(
    alloc: Global,
    device: D,
    out: &mut W,
    errors: &mut E,
) -> u8
    requires { D.size device ≡ 512 }
    ensures { result ≡ 1 }
{
    run_check(alloc, "tank.pool", BRIEF, &mut Ok(device), out, errors)
}

// Whatever a check finds, it leaves the disk as it was, and the device refused no write and no flush.
fn a_check_writes_nothing<D: SectorDevice + NotesRefusals, W: Write, E: Write>(
    alloc: Global,
    device: D,
    out: &mut W,
    errors: &mut E,
) -> Result<D, FileRefusal>
    ensures there { IsOk result }
    ensures disk { IsTrue D.keeps_model → IfOk result (λ after. D.disk after ≡ D.disk device) }
    ensures writes { IfOk result (λ after. (D.refused after).writes ≡ (D.refused device).writes) }
    ensures flushes { IfOk result
        (λ after. (D.refused after).flushes ≡ (D.refused device).flushes) }
{
    let mut opened = Ok(device);
    run_check(alloc, "tank.pool", BRIEF, &mut opened, out, errors);
    opened
}

// If an image mounts contents, a check that isn't refused finds it clean, and changes nothing.
fn a_whole_pool_is_found_clean<D: SectorDevice>(
    alloc: Global,
    device: &mut D,
) -> Result<Finding, PoolError>
    ensures clean { IsTrue D.keeps_model → IfOk result (λ finding. (contents : Contents)
        → MountsTo (bytes_of (D.disk device.old).now) contents → finding_status finding ≡ 0) }
    ensures unchanged { IsTrue D.keeps_model → D.disk device.new ≡ D.disk device.old }
{
    check_pool(alloc, device)
}
