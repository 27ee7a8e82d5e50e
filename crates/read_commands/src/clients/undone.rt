//! What callers rely on of a report that is not written: why it has its status.

ghost use Rattle.std.specs.Prelude.{◌≡◌, IsTrue};
ghost use Rattle.base.specs.disk.Disk.{bytes_of};
ghost use Rattle.base.specs.formats.Geometry.{IsGeometry};
ghost use Rattle.base.specs.history.Contents.{Contents};
ghost use Rattle.base.specs.tree.Mount.{MountsTo};
ghost use Rattle.object_views.specs.Listings.{IsListingOf};
ghost use Rattle.object_views.specs.declared.listing.ListedPool.{ListedPool};

use super::BRIEF;
use crate::dispatch::run_opened;
use crate::failure::NotesRefusals;
use crate::json_labels::run_json_labels;
use crate::json_reports::{run_json_list, run_json_show};
use crate::label_lines::run_labels;
use crate::long_list::run_long_list;
use crate::pool_space::run_space;
use crate::show::run_show_fast;
use command_arguments::{ReadCommand, Scope, SpaceArguments, SpaceUnit};
use device_model::SectorDevice;
use std::alloc::Global;
use std::io::Write;

// If the image mounts nothing, its space is neither told nor fails to be written.
fn the_space_of_a_pool_that_is_not_mounted_has_status_1<
    D: SectorDevice + NotesRefusals + Drop,
    W: Write,
    E: Write,
>(alloc: Global, device: D, out: &mut W, errors: &mut E) -> u8
    ensures { IsTrue D.keeps_model → ((contents : Contents)
        → MountsTo (bytes_of (D.disk device).now) contents → ⊥) → result ≡ 1 }
{
    let arguments = SpaceArguments {
        file: "tank.pool",
        unit: SpaceUnit::Bytes,
    };
    run_space(alloc, arguments, BRIEF, &mut Ok(device), out, errors)
}

fn a_pool_that_is_not_mounted_is_shown_as_json_with_status_1<
    D: SectorDevice + NotesRefusals + Drop,
    W: Write,
    E: Write,
>(alloc: Global, device: D, out: &mut W, errors: &mut E) -> u8
    ensures { IsTrue D.keeps_model → ((contents : Contents)
        → MountsTo (bytes_of (D.disk device).now) contents → ⊥) → result ≡ 1 }
{
    run_json_show(alloc, "tank.pool", BRIEF, &mut Ok(device), out, errors)
}

fn the_long_list_of_a_pool_that_is_not_mounted_has_status_1<
    D: SectorDevice + NotesRefusals + Drop,
    W: Write,
    E: Write,
>(alloc: Global, device: D, out: &mut W, errors: &mut E) -> u8
    ensures { IsTrue D.keeps_model → ((contents : Contents)
        → MountsTo (bytes_of (D.disk device).now) contents → ⊥) → result ≡ 1 }
{
    let scope = Scope::Whole;
    run_long_list(
        alloc,
        "tank.pool",
        scope,
        BRIEF,
        &mut Ok(device),
        out,
        errors,
    )
}

fn the_json_list_of_a_pool_that_is_not_mounted_has_status_1<
    D: SectorDevice + NotesRefusals + Drop,
    W: Write,
    E: Write,
>(alloc: Global, device: D, out: &mut W, errors: &mut E) -> u8
    ensures { IsTrue D.keeps_model → ((contents : Contents)
        → MountsTo (bytes_of (D.disk device).now) contents → ⊥) → result ≡ 1 }
{
    let scope = Scope::Whole;
    run_json_list(
        alloc,
        "tank.pool",
        scope,
        BRIEF,
        &mut Ok(device),
        out,
        errors,
    )
}

// So has whichever command asks for it.
fn the_space_that_was_asked_for_of_a_pool_that_is_not_mounted_has_status_1<
    D: SectorDevice + NotesRefusals + Drop,
    W: Write,
    E: Write,
>(alloc: Global, device: D, out: &mut W, errors: &mut E) -> u8
    ensures { IsTrue D.keeps_model → ((contents : Contents)
        → MountsTo (bytes_of (D.disk device).now) contents → ⊥) → result ≡ 1 }
{
    let command = ReadCommand::Space(SpaceArguments {
        file: "tank.pool",
        unit: SpaceUnit::Bytes,
    });
    run_opened(alloc, command, BRIEF, Ok(device), out, errors)
}

// The root, the directories or the log say nothing of the image.
fn a_fast_show_of_what_is_no_pool_has_status_1<
    D: SectorDevice + NotesRefusals + Drop,
    W: Write,
    E: Write,
>(alloc: Global, device: D, out: &mut W, errors: &mut E) -> u8
    ensures { IsTrue D.keeps_model → ((l : ListedPool)
        → IsListingOf (bytes_of (D.disk device).now) l → ⊥) → result ≡ 1 }
{
    run_show_fast(alloc, "tank.pool", BRIEF, &mut Ok(device), out, errors)
}

// Only what can be said of labels can fail to be written.
fn labels_that_are_not_written_are_of_a_device_of_a_pools_size<
    D: SectorDevice + NotesRefusals + Drop,
    W: Write,
    E: Write,
>(alloc: Global, device: D, out: &mut W, errors: &mut E) -> u8
    ensures { result ≡ 3 → IsGeometry (D.size device) }
{
    run_labels(alloc, "tank.pool", BRIEF, &mut Ok(device), out, errors)
}

fn labels_that_are_not_written_as_json_are_of_a_device_of_a_pools_size<
    D: SectorDevice + NotesRefusals + Drop,
    W: Write,
    E: Write,
>(alloc: Global, device: D, out: &mut W, errors: &mut E) -> u8
    ensures { result ≡ 3 → IsGeometry (D.size device) }
{
    run_json_labels(alloc, "tank.pool", BRIEF, &mut Ok(device), out, errors)
}
