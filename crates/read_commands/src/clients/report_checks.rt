//! What callers rely on of checks that are printed as JSON.

ghost use Rattle.std.specs.Prelude.{ℕ, ◌≡◌, ◌<◌, ◌++◌, ◌⊎◌, [], IsTrue, List, Some, codes};
ghost use Rattle.std.specs.Fmt.{decimal};
ghost use Rattle.base.specs.disk.Disk.{bytes_of};
ghost use Rattle.read_commands.specs.Checks.{IsFoundIn};
ghost use Rattle.read_commands.specs.FoundLabels.{HasConfig};
ghost use Rattle.read_commands.specs.declared.checks.Finding.{Finding as ShownFinding};
ghost use Rattle.read_commands.specs.declared.checks.Finding.TheVariants.{Damaged};

use super::BRIEF;
use crate::failure::NotesRefusals;
use crate::json_checks::{run_json_check, run_json_check_all};
use device_model::SectorDevice;
use file_devices::FileRefusal;
use std::alloc::Global;
use std::io::Write;

// A damaged data block is printed if a check can find nothing else, or nothing is if the check is refused.
fn a_check_prints_the_damage<D: SectorDevice + NotesRefusals + Drop, W: Write, E: Write>(
    alloc: Global,
    device: D,
    out: &mut W,
    errors: &mut E,
) -> u8
    ensures { result ≡ 1 → IsTrue D.keeps_model → ((found : ShownFinding)
        → IsFoundIn (bytes_of (D.disk device).now) found → found ≡ Damaged 5 4194304)
        → W.contents out.old ≡ Some [] → (W.contents out.new ≡ Some [])
        ⊎ (W.contents out.new ≡ Some (codes
        "{\"state\":\"damaged\",\"damages\":[{\"kind\":5,\"address\":4194304}]}\n")) }
{
    run_json_check(alloc, "tank.pool", BRIEF, &mut Ok(device), out, errors)
}

// Each label has a valid config, and the output had no bytes before.
fn a_whole_pool_has_no_label_to_name<D: SectorDevice + NotesRefusals + Drop, W: Write, E: Write>(
    alloc: Global,
    device: D,
    out: &mut W,
    errors: &mut E,
) -> u8
    ensures { result ≡ 0 → IsTrue D.keeps_model
        → ((label : ℕ) → label < 4 → HasConfig (bytes_of (D.disk device).now) label)
        → W.contents out.old ≡ Some [] → (group : ℕ) × (records : ℕ)
        × (W.contents out.new ≡ Some (codes "{\"state\":\"clean\",\"group\":"
        ++ (decimal group ++ (codes ",\"records\":"
        ++ (decimal records ++ codes ",\"labels\":[]}\n"))))) }
{
    run_json_check_all(alloc, "tank.pool", BRIEF, &mut Ok(device), out, errors)
}

fn a_file_that_is_not_opened_is_checked_with_status_3<
    D: SectorDevice + NotesRefusals + Drop,
    W: Write,
    E: Write,
>(alloc: Global, out: &mut W, errors: &mut E) -> (u8, u8)
    ensures first { result.0 ≡ 3 }
    ensures all { result.1 ≡ 3 }
{
    let mut opened: Result<D, FileRefusal> = Err(FileRefusal::InUse);
    let first = run_json_check(alloc, "tank.pool", BRIEF, &mut opened, out, errors);
    let mut opened: Result<D, FileRefusal> = Err(FileRefusal::InUse);
    let all = run_json_check_all(alloc, "tank.pool", BRIEF, &mut opened, out, errors);
    (first, all)
}
