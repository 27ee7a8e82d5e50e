//! What callers rely on of the commands that change objects.

ghost use Rattle.std.specs.Prelude.{ℕ, ◌≡◌, ◌≤◌, ◌⊎◌, [], ◌∷◌, List, None, Ok, Some, codes, length, slice_get};
ghost use Rattle.std.specs.FinMap as finite;
ghost use Rattle.base.specs.declared.operation.Op.TheVariants.{Create, Remove, SetLength, Write};
ghost use Rattle.base.specs.history.Contents.{Contents};
ghost use Rattle.base.specs.history.History.{Entry, apply_all};
ghost use Rattle.base.specs.history.Sequences.{in_turn};
ghost use Rattle.base.specs.steps.Seen.{IsKnownDurable};
ghost use Rattle.commands.specs.Committed.{HappensOn};
ghost use Rattle.commands.specs.Puts.{put_transactions};
ghost use Rattle.commands.specs.declared.changes.Start.TheVariants.{Empties};

use super::BRIEF;
use crate::changes::{run_put, run_remove};
use crate::laws::puts_leave_bytes;
use command_arguments::{PutArguments, RemoveArguments};
use device_model::SectorDevice;
use file_devices::FileRefusal;
use read_commands::NotesRefusals;
use std::io::{self, ErrorKind, Write};
use std::sync::Wait;

// All bytes of object 7.
pub(super) const ALL_OF_7: PutArguments<'static> = PutArguments {
    file: "tank.pool",
    object: 7,
    offset: None,
    moment: 0,
};

pub(super) const OBJECT_7: RemoveArguments<'static> = RemoveArguments {
    file: "tank.pool",
    object: 7,
    moment: 0,
};

// Whatever object 7 had, it has the bytes of the put and no others then, and object 8 stays as it was.
fn a_put_without_an_offset_leaves_only_its_bytes()
    ensures { (bytes : List ℕ) (before after : Contents)
        → in_turn apply_all (put_transactions Empties (record { 0 = 7 }) None bytes) before
        ≡ Ok after → (finite.get after.objects 7 ≡ Some bytes)
        × (finite.get after.objects 8 ≡ finite.get before.objects 8) }
{
    puts_leave_bytes();
}

// Object 7 is made or emptied, and gets both bytes, in one entry that was not there before and that no crash loses.
fn a_put_of_two_bytes_is_one_durable_entry<
    R: Wait + AllocGlobal,
    D: SectorDevice + NotesRefusals + Drop,
    W: Write,
    E: Write,
>(rt: &R, input: Vec<u8>, device: D, out: &mut W, errors: &mut E) -> u8
    requires { input.items ≡ 1 ∷ 2 ∷ [] }
    ensures { result ≡ 0 → HappensOn D.SectorDevice device
        (λ before after. (ordinal : ℕ) × (e : Entry)
        × (length before.past.entries ≤ ordinal)
        × (slice_get after.past.entries ordinal ≡ Some e)
        × ((e.ops ≡ Create (record { 0 = 7 }) ∷ Write (record { 0 = 7 }) 0 (1 ∷ 2 ∷ []) ∷ [])
        ⊎ (e.ops ≡ SetLength (record { 0 = 7 }) 0 ∷ Write (record { 0 = 7 }) 0 (1 ∷ 2 ∷ []) ∷ []))
        × IsKnownDurable ordinal e.group after) }
{
    run_put(rt, ALL_OF_7, BRIEF, Ok(input), Ok(device), out, errors)
}

// Where object 7 has three bytes, the one entry writes over the second alone.
fn a_byte_that_is_put_at_an_offset_leaves_the_others<
    R: Wait + AllocGlobal,
    D: SectorDevice + NotesRefusals + Drop,
    W: Write,
    E: Write,
>(rt: &R, input: Vec<u8>, device: D, out: &mut W, errors: &mut E) -> u8
    requires { input.items ≡ 5 ∷ [] }
    ensures { result ≡ 0 → HappensOn D.SectorDevice device
        (λ before after. (ordinal : ℕ) × (e : Entry)
        × (length before.past.entries ≤ ordinal)
        × (slice_get after.past.entries ordinal ≡ Some e)
        × ((c d : Contents) → finite.get c.objects 7 ≡ Some (10 ∷ 11 ∷ 12 ∷ [])
        → apply_all e.ops c ≡ Ok d → finite.get d.objects 7 ≡ Some (10 ∷ 5 ∷ 12 ∷ []))
        × IsKnownDurable ordinal e.group after) }
{
    let arguments = PutArguments {
        file: "tank.pool",
        object: 7,
        offset: Some(1),
        moment: 0,
    };
    run_put(rt, arguments, BRIEF, Ok(input), Ok(device), out, errors)
}

// The output had no bytes before.
fn a_put_prints_how_many_bytes_it_committed<
    R: Wait + AllocGlobal,
    D: SectorDevice + NotesRefusals + Drop,
    W: Write,
    E: Write,
>(rt: &R, input: Vec<u8>, device: D, out: &mut W, errors: &mut E) -> u8
    requires { input.items ≡ 1 ∷ 2 ∷ [] }
    ensures { result ≡ 0 → W.contents out.old ≡ Some []
        → W.contents out.new ≡ Some (codes "put 2 bytes in 1 transactions\n") }
{
    run_put(rt, ALL_OF_7, BRIEF, Ok(input), Ok(device), out, errors)
}

// Object 7 is removed in one entry that was not there before and that no crash loses.
fn a_removed_object_is_one_durable_entry<
    R: Wait + AllocGlobal,
    D: SectorDevice + NotesRefusals + Drop,
    W: Write,
    E: Write,
>(rt: &R, device: D, out: &mut W, errors: &mut E) -> u8
    ensures { result ≡ 0 → HappensOn D.SectorDevice device
        (λ before after. (ordinal : ℕ) × (e : Entry)
        × (length before.past.entries ≤ ordinal)
        × (slice_get after.past.entries ordinal ≡ Some e)
        × (e.ops ≡ Remove (record { 0 = 7 }) ∷ [])
        × IsKnownDurable ordinal e.group after) }
{
    run_remove(rt, OBJECT_7, BRIEF, Ok(device), out, errors)
}

// There is no object 5,292.
fn no_bytes_are_put_into_the_object_after_the_last<
    R: Wait + AllocGlobal,
    D: SectorDevice + NotesRefusals + Drop,
    W: Write,
    E: Write,
>(rt: &R, input: Vec<u8>, device: D, out: &mut W, errors: &mut E) -> u8
    ensures { result ≡ 1 }
{
    let arguments = PutArguments {
        file: "tank.pool",
        object: 5_292,
        offset: None,
        moment: 0,
    };
    run_put(rt, arguments, BRIEF, Ok(input), Ok(device), out, errors)
}

fn an_input_that_is_not_read_is_put_with_status_3<
    R: Wait + AllocGlobal,
    D: SectorDevice + NotesRefusals + Drop,
    W: Write,
    E: Write,
>(rt: &R, opened: Result<D, FileRefusal>, out: &mut W, errors: &mut E) -> u8
    ensures { result ≡ 3 }
{
    let input = Err(io::Error::from(ErrorKind::NotFound));
    run_put(rt, ALL_OF_7, BRIEF, input, opened, out, errors)
}

fn an_object_of_a_pool_that_is_not_opened_is_removed_with_status_3<
    R: Wait + AllocGlobal,
    D: SectorDevice + NotesRefusals + Drop,
    W: Write,
    E: Write,
>(rt: &R, out: &mut W, errors: &mut E) -> u8
    ensures { result ≡ 3 }
{
    let opened: Result<D, FileRefusal> = Err(FileRefusal::InUse);
    run_remove(rt, OBJECT_7, BRIEF, opened, out, errors)
}
