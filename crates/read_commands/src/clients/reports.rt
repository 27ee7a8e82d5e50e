//! What callers rely on of reports: as JSON, as a long list, and of space.

ghost use Rattle.std.specs.Prelude.{ℕ, ◌≡◌, ◌<◌, ◌++◌, [], ◌∷◌, IfOk, IfSome, IsOk, IsTrue, List, OnOk, Some, codes, length};
ghost use Rattle.std.specs.FinMap as finite;
ghost use Rattle.base.specs.tree.Mount.{MountsTo};
ghost use Rattle.base.specs.disk.Disk.{bytes_of};
ghost use Rattle.base.specs.formats.Uberblocks.{HasNoUberblock};
ghost use Rattle.base.specs.history.Contents.{Contents};
ghost use Rattle.read_commands.specs.ReadLabels.{arrays_of, slots_read};
ghost use Rattle.uberblocks.specs.Slots.{HoldsNoUberblock};

use super::BRIEF;
use crate::dispatch::run_opened;
use crate::failure::NotesRefusals;
use crate::json_labels::run_json_labels;
use crate::json_reports::{run_json_list, run_json_show};
use crate::label_lines::run_labels;
use crate::labels_read::Labels;
use crate::long_list::run_long_list;
use crate::pool_space::{Space, run_space, write_space};
use base::Group;
use command_arguments::{ListArguments, ListForm, ReadCommand, Scope, SpaceArguments, SpaceUnit};
use device_model::SectorDevice;
use file_devices::FileRefusal;
use std::alloc::Global;
use std::io::{self, Write};

// The space of a pool, as people read it.
const IN_POWERS: SpaceArguments<'static> = SpaceArguments {
    file: "tank.pool",
    unit: SpaceUnit::Powers,
};

// Its two bytes need a data block and an indirect block. The output had no bytes before.
fn a_long_list_has_the_blocks<D: SectorDevice + NotesRefusals + Drop, W: Write, E: Write>(
    alloc: Global,
    scope: Scope,
    device: D,
    out: &mut W,
    errors: &mut E,
) -> u8
    ensures { result ≡ 0 → IsTrue D.keeps_model → (contents : Contents)
        → MountsTo (bytes_of (D.disk device).now) contents
        → finite.entries contents.objects ≡ (7, 10 ∷ 11 ∷ []) ∷ []
        → W.contents out.old ≡ Some [] → W.contents out.new ≡ Some (codes "7 2 2\n") }
{
    let mut opened = Ok(device);
    run_long_list(alloc, "tank.pool", scope, BRIEF, &mut opened, out, errors)
}

fn a_list_is_one_object_of_json<D: SectorDevice + NotesRefusals + Drop, W: Write, E: Write>(
    alloc: Global,
    scope: Scope,
    device: D,
    out: &mut W,
    errors: &mut E,
) -> u8
    ensures { result ≡ 0 → IsTrue D.keeps_model → (contents : Contents)
        → MountsTo (bytes_of (D.disk device).now) contents
        → finite.entries contents.objects ≡ (7, 10 ∷ 11 ∷ []) ∷ []
        → W.contents out.old ≡ Some [] → W.contents out.new
        ≡ Some (codes "{\"objects\":[{\"object\":7,\"length\":2,\"blocks\":2}]}\n") }
{
    let mut opened = Ok(device);
    run_json_list(alloc, "tank.pool", scope, BRIEF, &mut opened, out, errors)
}

fn a_report_of_a_pool_begins_with_its_name<
    D: SectorDevice + NotesRefusals + Drop,
    W: Write,
    E: Write,
>(alloc: Global, device: D, out: &mut W, errors: &mut E) -> u8
    ensures { result ≡ 0 → IsTrue D.keeps_model → (contents : Contents)
        → MountsTo (bytes_of (D.disk device).now) contents → contents.name ≡ codes "tank"
        → W.contents out.old ≡ Some [] → (rest : List ℕ)
        × (W.contents out.new ≡ Some (codes "{\"name\":\"tank\",\"guid\":\"" ++ rest)) }
{
    run_json_show(alloc, "tank.pool", BRIEF, &mut Ok(device), out, errors)
}

// The labels take 512 KiB of a pool's 8 MiB, and the boot area 4 MiB. The output had no bytes before.
fn the_blocks_of_8_mebibytes_have_3_and_a_half<
    D: SectorDevice + NotesRefusals + Drop,
    W: Write,
    E: Write,
>(alloc: Global, device: D, out: &mut W, errors: &mut E) -> u8
    ensures { result ≡ 0 → IsTrue D.keeps_model
        → length (bytes_of (D.disk device).now) ≡ 8388608
        → W.contents out.old ≡ Some [] → (rest : List ℕ)
        × (W.contents out.new ≡ Some (codes "total 3.5M\nused " ++ rest)) }
{
    run_space(alloc, IN_POWERS, BRIEF, &mut Ok(device), out, errors)
}

// A new pool of 8 MiB. The output had no bytes before.
fn the_space_of_a_new_pool_is_3_megabytes_and_a_half<W: Write>(out: &mut W) -> io::Result<()>
    ensures { OnOk result (W.contents out.old ≡ Some [] → W.contents out.new
        ≡ Some (codes "total 3.5M\nused 0\nfree 3.5M\navailable 3.4M\n")) }
{
    let space = Space {
        total: 3_670_016,
        used: 0,
        free: 3_670_016,
        available: 3_604_480,
    };
    write_space(space, SpaceUnit::Powers, out)
}

// Whatever a look at the labels finds, it leaves the disk as it was, and the device refused no write and no flush.
fn a_look_at_the_labels_writes_nothing_to_the_device<
    D: SectorDevice + NotesRefusals,
    W: Write,
    E: Write,
>(alloc: Global, device: D, out: &mut W, errors: &mut E) -> Result<D, FileRefusal>
    ensures there { IsOk result }
    ensures disk { IsTrue D.keeps_model → IfOk result (λ after. D.disk after ≡ D.disk device) }
    ensures writes { IfOk result (λ after. (D.refused after).writes ≡ (D.refused device).writes) }
    ensures flushes { IfOk result
        (λ after. (D.refused after).flushes ≡ (D.refused device).flushes) }
{
    let mut opened = Ok(device);
    run_json_labels(alloc, "tank.pool", BRIEF, &mut opened, out, errors);
    opened
}

// The output had no bytes before.
fn a_look_at_the_labels_begins_with_label_0<
    D: SectorDevice + NotesRefusals + Drop,
    W: Write,
    E: Write,
>(alloc: Global, device: D, out: &mut W, errors: &mut E) -> u8
    ensures { result ≡ 0 → W.contents out.old ≡ Some [] → (rest : List ℕ)
        × (W.contents out.new ≡ Some (codes "{\"labels\":[{\"label\":0,\"config\":" ++ rest)) }
{
    run_json_labels(alloc, "tank.pool", BRIEF, &mut Ok(device), out, errors)
}

// So it is in lines.
fn the_lines_of_the_labels_begin_with_label_0<
    D: SectorDevice + NotesRefusals + Drop,
    W: Write,
    E: Write,
>(alloc: Global, device: D, out: &mut W, errors: &mut E) -> u8
    ensures { result ≡ 0 → W.contents out.old ≡ Some [] → (rest : List ℕ)
        × (W.contents out.new ≡ Some (codes "label 0 config " ++ rest)) }
{
    run_labels(alloc, "tank.pool", BRIEF, &mut Ok(device), out, errors)
}

// A file of 512 bytes can hold no label. Nothing is written then.
fn a_look_at_the_labels_of_a_small_file_prints_nothing<
    D: SectorDevice + NotesRefusals + Drop,
    W: Write,
    E: Write,
>(alloc: Global, device: D, out: &mut W, errors: &mut E)
    requires { D.size device ≡ 512 }
    ensures { W.contents out.new ≡ W.contents out.old }
{
    run_json_labels(alloc, "tank.pool", BRIEF, &mut Ok(device), out, errors);
}

// The output had no bytes before.
fn no_uberblock_is_active_if_no_label_has_one<
    D: SectorDevice + NotesRefusals + Drop,
    W: Write,
    E: Write,
>(alloc: Global, device: D, out: &mut W, errors: &mut E) -> u8
    ensures { result ≡ 0 → IsTrue D.keeps_model
        → HasNoUberblock (bytes_of (D.disk device).now) → W.contents out.old ≡ Some []
        → (front : List ℕ) × (W.contents out.new ≡ Some (front ++ codes "active none\n")) }
{
    run_labels(alloc, "tank.pool", BRIEF, &mut Ok(device), out, errors)
}

fn a_label_whose_slots_hold_nothing_has_no_uberblock(labels: &Labels) -> (usize, Group)
    requires { (slot : ℕ) → slot < 128
        → HoldsNoUberblock (slots_read (arrays_of labels.now) 0 slot) }
    ensures { result.0 ≡ 0 }
{
    labels.count_uberblocks(0)
}

fn a_label_that_has_an_uberblock_is_one_of_four(labels: &Labels, group: Group) -> Option<usize>
    ensures { IfSome result (λ label. label < 4) }
{
    labels.label_of(group)
}

fn whatever_is_asked_of_a_file_that_is_not_opened_has_status_3<
    D: SectorDevice + NotesRefusals + Drop,
    W: Write,
    E: Write,
>(alloc: Global, command: ReadCommand<'_>, out: &mut W, errors: &mut E) -> u8
    ensures { result ≡ 3 }
{
    let opened: Result<D, FileRefusal> = Err(FileRefusal::InUse);
    run_opened(alloc, command, BRIEF, opened, out, errors)
}

// A long list was asked for, so that is written. The output had no bytes before.
fn the_list_that_was_asked_for_is_written<
    D: SectorDevice + NotesRefusals + Drop,
    W: Write,
    E: Write,
>(alloc: Global, scope: Scope, device: D, out: &mut W, errors: &mut E) -> u8
    ensures { result ≡ 0 → IsTrue D.keeps_model → (contents : Contents)
        → MountsTo (bytes_of (D.disk device).now) contents
        → finite.entries contents.objects ≡ (7, 10 ∷ 11 ∷ []) ∷ []
        → W.contents out.old ≡ Some [] → W.contents out.new ≡ Some (codes "7 2 2\n") }
{
    let list = ListArguments {
        file: "tank.pool",
        form: ListForm::Long,
        scope,
    };
    run_opened(
        alloc,
        ReadCommand::List(list),
        BRIEF,
        Ok(device),
        out,
        errors,
    )
}
