//! What callers rely on of the commands that read objects by name.

ghost use Rattle.std.specs.Prelude.{ℕ, ◌≡◌, [], ◌∷◌, IfOk, IsNone, IsOk, IsTrue, None, Ok, Some, codes, length};
ghost use Rattle.std.specs.FinMap as finite;
ghost use Rattle.base.specs.disk.Disk.{bytes_of};
ghost use Rattle.base.specs.history.Contents.{Contents};
ghost use Rattle.base.specs.tree.Mount.{MountsTo};
ghost use Rattle.read_commands.specs.NamedObjects.{HasName};
ghost use Rattle.tree_blocks.specs.Sources.{object_bytes};

use super::BRIEF;
use crate::failure::{Failure, NotesRefusals};
use crate::name_causes::{NameCause, NameFailure, report_name_failure};
use crate::name_tables::{read_table, table_of};
use crate::named_gets::run_get_named;
use crate::named_lists::{NamedList, list_names, run_list_named};
use base::{Bytes, ObjectId, PoolError};
use command_arguments::{GetNamedArguments, Scope};
use device_model::SectorDevice;
use file_devices::FileRefusal;
use object_names::NameTable;
use std::alloc::Global;
use std::io::Write;

// Two bytes of the object with the name `a`, from byte 1 on.
const TWO_BYTES_OF_A: GetNamedArguments<'static> = GetNamedArguments {
    file: "tank.pool",
    name: "a",
    offset: 1,
    length: Some(2),
};

fn a_name_that_is_none_is_reported_with_status_1<E: Write>(errors: &mut E) -> u8
    ensures { result ≡ 1 }
{
    let failure = NameFailure::Name(NameCause::NoName);
    report_name_failure(failure, "a/b", "tank.pool", BRIEF, errors)
}

fn an_output_that_is_not_written_is_reported_with_status_3<E: Write>(errors: &mut E) -> u8
    ensures { result ≡ 3 }
{
    let failure = NameFailure::Plain(Failure::Unwritten);
    report_name_failure(failure, "a", "tank.pool", BRIEF, errors)
}

// Object 0 names object 7 `a`, and the output had no bytes before.
fn a_get_writes_the_bytes_of_the_object_with_the_name<
    D: SectorDevice + NotesRefusals + Drop,
    W: Write,
    E: Write,
>(alloc: Global, scope: Scope, device: D, out: &mut W, errors: &mut E) -> u8
    ensures { result ≡ 0 → IsTrue D.keeps_model → (contents : Contents)
        → MountsTo (bytes_of (D.disk device).now) contents → HasName contents (codes "a") 7
        → finite.get contents.objects 7 ≡ Some (10 ∷ 11 ∷ 12 ∷ 13 ∷ [])
        → W.contents out.old ≡ Some [] → W.contents out.new ≡ Some (11 ∷ 12 ∷ []) }
{
    let (status, _) = run_get_named(alloc, TWO_BYTES_OF_A, scope, BRIEF, Ok(device), out, errors);
    status
}

// If no object has the name `a`, a get is neither done nor fails to write.
fn a_name_that_no_object_has_is_got_with_status_1<
    D: SectorDevice + NotesRefusals + Drop,
    W: Write,
    E: Write,
>(alloc: Global, scope: Scope, device: D, out: &mut W, errors: &mut E) -> u8
    ensures { IsTrue D.keeps_model → (contents : Contents)
        → MountsTo (bytes_of (D.disk device).now) contents
        → ((n : ℕ) → HasName contents (codes "a") n → ⊥) → result ≡ 1 }
{
    let (status, _) = run_get_named(alloc, TWO_BYTES_OF_A, scope, BRIEF, Ok(device), out, errors);
    status
}

// Whatever the pool has, there is no name without bytes.
fn no_object_is_got_by_a_name_without_bytes<
    D: SectorDevice + NotesRefusals + Drop,
    W: Write,
    E: Write,
>(alloc: Global, scope: Scope, device: D, out: &mut W, errors: &mut E) -> u8
    ensures { result ≡ 1 }
{
    let arguments = GetNamedArguments {
        file: "tank.pool",
        name: "",
        offset: 0,
        length: None,
    };
    let (status, _) = run_get_named(alloc, arguments, scope, BRIEF, Ok(device), out, errors);
    status
}

// Whatever a get by name finds, it leaves the disk as it was, and the device refused no write and no flush.
fn a_get_by_name_writes_nothing_to_the_device<D: SectorDevice + NotesRefusals, W: Write, E: Write>(
    alloc: Global,
    scope: Scope,
    device: D,
    out: &mut W,
    errors: &mut E,
) -> Result<D, FileRefusal>
    ensures there { IsOk result }
    ensures disk { IsTrue D.keeps_model → IfOk result (λ after. D.disk after ≡ D.disk device) }
    ensures writes { IfOk result (λ after. (D.refused after).writes ≡ (D.refused device).writes) }
    ensures flushes { IfOk result
        (λ after. (D.refused after).flushes ≡ (D.refused device).flushes) }
{
    let (_, opened) = run_get_named(alloc, TWO_BYTES_OF_A, scope, BRIEF, Ok(device), out, errors);
    opened
}

fn nothing_is_got_from_a_pool_that_is_not_opened<
    D: SectorDevice + NotesRefusals + Drop,
    W: Write,
    E: Write,
>(alloc: Global, scope: Scope, out: &mut W, errors: &mut E) -> u8
    ensures { result ≡ 3 }
{
    let opened: Result<D, FileRefusal> = Err(FileRefusal::InUse);
    let (status, _) = run_get_named(alloc, TWO_BYTES_OF_A, scope, BRIEF, opened, out, errors);
    status
}

// There are the objects 0 and 1. Object 0 has 512 bytes and names object 1 `a`. The output had no bytes before.
fn a_list_has_the_name_after_the_length<D: SectorDevice + NotesRefusals + Drop, W: Write, E: Write>(
    alloc: Global,
    scope: Scope,
    device: D,
    out: &mut W,
    errors: &mut E,
) -> u8
    ensures { result ≡ 0 → IsTrue D.keeps_model → (contents : Contents)
        → MountsTo (bytes_of (D.disk device).now) contents
        → finite.entries contents.objects
        ≡ (0, object_bytes contents.objects 0) ∷ (1, 10 ∷ 11 ∷ []) ∷ []
        → length (object_bytes contents.objects 0) ≡ 512 → HasName contents (codes "a") 1
        → W.contents out.old ≡ Some [] → W.contents out.new ≡ Some (codes "0 512\n1 2 a\n") }
{
    let opened = Ok(device);
    let (status, _) = run_list_named(alloc, "tank.pool", scope, BRIEF, opened, out, errors);
    status
}

// Object 7 is the only one, so there are no names. The output had no bytes before.
fn a_list_without_names_has_numbers_and_lengths<
    D: SectorDevice + NotesRefusals + Drop,
    W: Write,
    E: Write,
>(alloc: Global, scope: Scope, device: D, out: &mut W, errors: &mut E) -> u8
    ensures { result ≡ 0 → IsTrue D.keeps_model → (contents : Contents)
        → MountsTo (bytes_of (D.disk device).now) contents
        → finite.entries contents.objects ≡ (7, 10 ∷ 11 ∷ []) ∷ []
        → W.contents out.old ≡ Some [] → W.contents out.new ≡ Some (codes "7 2\n") }
{
    let opened = Ok(device);
    let (status, _) = run_list_named(alloc, "tank.pool", scope, BRIEF, opened, out, errors);
    status
}

// If the image mounts nothing, a list of the whole pool is neither done nor fails to write.
fn a_pool_that_is_not_mounted_is_listed_with_status_1<
    D: SectorDevice + NotesRefusals + Drop,
    W: Write,
    E: Write,
>(alloc: Global, device: D, out: &mut W, errors: &mut E) -> u8
    ensures { IsTrue D.keeps_model → ((contents : Contents)
        → MountsTo (bytes_of (D.disk device).now) contents → ⊥) → result ≡ 1 }
{
    let (scope, opened) = (Scope::Whole, Ok(device));
    let (status, _) = run_list_named(alloc, "tank.pool", scope, BRIEF, opened, out, errors);
    status
}

fn a_pool_that_is_not_opened_is_listed_with_status_3<
    D: SectorDevice + NotesRefusals + Drop,
    W: Write,
    E: Write,
>(alloc: Global, scope: Scope, out: &mut W, errors: &mut E) -> u8
    ensures { result ≡ 3 }
{
    let opened: Result<D, FileRefusal> = Err(FileRefusal::InUse);
    let (status, _) = run_list_named(alloc, "tank.pool", scope, BRIEF, opened, out, errors);
    status
}

// Whatever a list finds, it leaves the disk as it was, and the device refused no write and no flush.
fn a_list_of_names_writes_nothing_to_the_device<D: SectorDevice>(
    alloc: Global,
    scope: Scope,
    device: D,
) -> (Result<NamedList, PoolError>, D)
    ensures disk { IsTrue D.keeps_model → D.disk result.1 ≡ D.disk device }
    ensures writes { (D.refused result.1).writes ≡ (D.refused device).writes }
    ensures flushes { (D.refused result.1).flushes ≡ (D.refused device).flushes }
{
    list_names(alloc, scope, device)
}

// The first slot of a table is its header.
fn object_0_has_no_name(list: &NamedList) -> Option<&str>
    ensures { IsNone result }
{
    list.name_of(ObjectId(0))
}

// The pool may have no object 0, or one without bytes.
fn a_pool_without_an_object_0_has_a_table_without_names<D: SectorDevice>(
    alloc: Global,
    scope: Scope,
    device: D,
) -> (Result<Option<NameTable>, PoolError>, D)
    ensures { IsTrue D.keeps_model → (contents : Contents)
        → MountsTo (bytes_of (D.disk device).now) contents → object_bytes contents.objects 0 ≡ []
        → IfOk result.0 (λ table. table ≡ Some []) }
{
    read_table(alloc, scope, device)
}

// A table has whole slots.
fn five_bytes_are_no_table(alloc: Global, bytes: Bytes) -> Result<Option<NameTable>, PoolError>
    requires { length bytes ≡ 5 }
    ensures { result ≡ Ok None }
{
    table_of(alloc, Ok(bytes))
}
