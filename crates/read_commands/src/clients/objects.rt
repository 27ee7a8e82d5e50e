//! What callers rely on of the commands that read objects and labels.

ghost use Rattle.std.specs.Prelude.{◌≡◌, ◌≢◌, [], ◌∷◌, ℕ, IfErr, IfOk, IsOk, IsTrue, List, None, Ok, Some, codes, false, length};
ghost use Rattle.std.specs.FinMap as finite;
ghost use Rattle.base.specs.tree.Mount.{MountsTo};
ghost use Rattle.base.specs.disk.Disk.{bytes_of};
ghost use Rattle.base.specs.history.Contents.{Contents};
ghost use Rattle.object_views.specs.ReadPaths.{IsSoundRecord};
ghost use Rattle.object_views.specs.ObjectViews.{IsObjectViewOf, is_own, object_of};
ghost use Rattle.object_views.specs.declared.view.ObjectView.{ObjectView};

use super::BRIEF;
use crate::bad_number::BadNumber;
use crate::failure::{Failure, NotesRefusals};
use crate::label_lines::run_labels;
use crate::lists::{list_objects, list_opened};
use crate::ranges::read_object;
use crate::reads::run_get;
use base::{Bytes, ObjectId, PoolError, Range};
use command_arguments::{GetArguments, Scope};
use device_model::SectorDevice;
use file_devices::FileRefusal;
use std::alloc::Global;
use std::io::{self, Write};

// Two bytes of object 7, from byte 1 on.
const TWO_BYTES: GetArguments<'static> = GetArguments {
    file: "tank.pool",
    object: 7,
    offset: 1,
    length: Some(2),
};

// The output had no bytes before.
fn a_get_writes_the_bytes_that_the_image_mounts<
    D: SectorDevice + NotesRefusals + Drop,
    W: Write,
    E: Write,
>(alloc: Global, scope: Scope, device: D, out: &mut W, errors: &mut E) -> u8
    ensures { result ≡ 0 → IsTrue D.keeps_model → (contents : Contents)
        → MountsTo (bytes_of (D.disk device).now) contents
        → finite.get contents.objects 7 ≡ Some (10 ∷ 11 ∷ 12 ∷ 13 ∷ [])
        → W.contents out.old ≡ Some [] → W.contents out.new ≡ Some (11 ∷ 12 ∷ []) }
{
    let (status, _) = run_get(alloc, TWO_BYTES, scope, BRIEF, Ok(device), out, errors);
    status
}

// If object 7 isn't in the contents that the image mounts, a get is neither done nor fails to write.
fn an_object_that_is_missing_is_got_with_status_1<
    D: SectorDevice + NotesRefusals + Drop,
    W: Write,
    E: Write,
>(alloc: Global, scope: Scope, device: D, out: &mut W, errors: &mut E) -> u8
    ensures { IsTrue D.keeps_model → (contents : Contents)
        → MountsTo (bytes_of (D.disk device).now) contents
        → finite.get contents.objects 7 ≡ None → result ≡ 1 }
{
    let (status, _) = run_get(alloc, TWO_BYTES, scope, BRIEF, Ok(device), out, errors);
    status
}

// Whatever a get finds, it leaves the disk as it was, and the device refused no write and no flush.
fn a_get_writes_nothing_to_the_device<D: SectorDevice + NotesRefusals, W: Write, E: Write>(
    alloc: Global,
    scope: Scope,
    device: D,
    out: &mut W,
    errors: &mut E,
) -> Result<D, FileRefusal>
    ensures there { IsOk result }
    ensures disk { IsTrue D.keeps_model → IfOk result (λ after. D.disk after ≡ D.disk device) }
    ensures writes { IfOk result (λ after. (D.refused after).writes ≡ (D.refused device).writes) }
    ensures flushes { IfOk result
        (λ after. (D.refused after).flushes ≡ (D.refused device).flushes) }
{
    let (_, opened) = run_get(alloc, TWO_BYTES, scope, BRIEF, Ok(device), out, errors);
    opened
}

// The first record of object 7 isn't sound, and none of its log records has the bytes. The output had no bytes before.
fn a_get_by_path_writes_no_byte_of_a_record_that_is_not_sound<
    D: SectorDevice + NotesRefusals + Drop,
    W: Write,
    E: Write,
>(alloc: Global, device: D, out: &mut W, errors: &mut E) -> u8
    ensures { result ≡ 0 → IsTrue D.keeps_model → ((v : ObjectView)
        → (seen : IsObjectViewOf (bytes_of (D.disk device).now) v) → object_of v ≡ 7
        → (is_own v 1 ≡ false) × (IsSoundRecord (bytes_of (D.disk device).now)
        v.frame seen.u.root 7 0 → ⊥))
        → W.contents out.old ≡ Some [] → W.contents out.new ≡ Some [] }
{
    let scope = Scope::Path;
    let (status, _) = run_get(alloc, TWO_BYTES, scope, BRIEF, Ok(device), out, errors);
    status
}

fn a_read_by_path_of_what_the_image_mounts_finds_no_damage<D: SectorDevice>(
    alloc: Global,
    device: D,
    range: Range,
) -> (Result<Bytes, PoolError>, D)
    ensures { IsTrue D.keeps_model → (contents : Contents)
        → MountsTo (bytes_of (D.disk device).now) contents
        → IfErr result.0 (λ e. (kind address : ℕ) → e ≢ PoolError.Damaged kind address) }
{
    read_object(alloc, Scope::Path, device, ObjectId(7), range)
}

// Object 7 is the only one.
fn a_list_has_the_number_and_the_length<D: SectorDevice>(
    alloc: Global,
    scope: Scope,
    device: &mut D,
) -> Result<Vec<(ObjectId, u64)>, PoolError>
    ensures { IsTrue D.keeps_model → (contents : Contents)
        → MountsTo (bytes_of (D.disk device.old).now) contents
        → finite.entries contents.objects ≡ (7, 10 ∷ 11 ∷ []) ∷ []
        → IfOk result (λ l. l.items ≡ (record { 0 = 7 }, 2) ∷ []) }
{
    list_objects(alloc, scope, device)
}

fn a_list_writes_nothing_to_the_device<D: SectorDevice + NotesRefusals>(
    alloc: Global,
    scope: Scope,
    device: D,
) -> Result<D, FileRefusal>
    ensures there { IsOk result }
    ensures disk { IsTrue D.keeps_model → IfOk result (λ after. D.disk after ≡ D.disk device) }
    ensures writes { IfOk result (λ after. (D.refused after).writes ≡ (D.refused device).writes) }
    ensures flushes { IfOk result
        (λ after. (D.refused after).flushes ≡ (D.refused device).flushes) }
{
    let mut opened = Ok(device);
    let _ = list_opened(alloc, scope, &mut opened);
    opened
}

fn a_look_at_the_labels_writes_nothing_to_the_device<
    D: SectorDevice + NotesRefusals,
    W: Write,
    E: Write,
>(alloc: Global, device: D, out: &mut W, errors: &mut E) -> Result<D, FileRefusal>
    ensures there { IsOk result }
    ensures disk { IsTrue D.keeps_model → IfOk result (λ after. D.disk after ≡ D.disk device) }
    ensures writes { IfOk result (λ after. (D.refused after).writes ≡ (D.refused device).writes) }
    ensures flushes { IfOk result
        (λ after. (D.refused after).flushes ≡ (D.refused device).flushes) }
{
    let mut opened = Ok(device);
    run_labels(alloc, "tank.pool", BRIEF, &mut opened, out, errors);
    opened
}

// The first number that no object has is the cause of its refusal.
fn an_object_of_number_5292_is_the_cause_of_a_bad_range() -> Failure
    ensures { result ≡ Failure.OutOfRange (BadNumber.Object 5292) }
{
    Failure::Refused(PoolError::BadRange).for_number(BadNumber::of_object(5_292))
}

// The dirty limit comes before the cache, of which no block is too few.
fn a_cache_without_a_block_is_outside_its_limits() -> Option<BadNumber>
    ensures { result ≡ Some (BadNumber.CacheBlocks 0) }
{
    BadNumber::of_limits(4_096, 0)
}
