//! What callers rely on of the commands that change objects by name.

ghost use Rattle.std.specs.Prelude.{ℕ, ◌≡◌, ◌≤◌, ◌⊎◌, ◌++◌, ◌*◌, [], ◌∷◌, List, Some, codes, length, slice_get};
ghost use Rattle.base.specs.declared.names.ObjectId as object;
ghost use Rattle.base.specs.declared.operation.Op as operation;
ghost use Rattle.base.specs.declared.operation.Op.TheVariants.{Create, Remove, SetLength, Write};
ghost use Rattle.base.specs.history.History.{Entry};
ghost use Rattle.base.specs.steps.Seen.{IsKnownDurable};
ghost use Rattle.commands.specs.NewHandles.{HappensByNew};
ghost use Rattle.object_names.specs.Slots.{slot_bytes};

use super::BRIEF;
use crate::named_puts::run_put_named;
use crate::named_removals::run_remove_named;
use command_arguments::{PutNamedArguments, RemoveNamedArguments};
use device_model::SectorDevice;
use read_commands::NotesRefusals;
use std::io::Write;
use std::sync::Wait;

// All bytes of the object with the name `a`.
pub(super) const ALL_OF_A: PutNamedArguments<'static> = PutNamedArguments {
    file: "tank.pool",
    name: "a",
    offset: None,
    moment: 0,
};

pub(super) const OBJECT_A: RemoveNamedArguments<'static> = RemoveNamedArguments {
    file: "tank.pool",
    name: "a",
    moment: 0,
};

// An object gets both bytes in one entry that was not there before and that no crash loses. Either it had the name, and
// is made or emptied, or that entry makes it and writes its name.
fn a_put_of_a_name_is_one_durable_entry<
    R: Wait + AllocGlobal,
    D: SectorDevice + NotesRefusals + Drop,
    W: Write,
    E: Write,
>(rt: &R, input: Vec<u8>, device: D, out: &mut W, errors: &mut E) -> u8
    requires { input.items ≡ 1 ∷ 2 ∷ [] }
    ensures { result ≡ 0 → HappensByNew D.SectorDevice device
        (λ before after. (ordinal : ℕ) × (e : Entry) × (n : object.ObjectId)
        × (length before.past.entries ≤ ordinal)
        × (slice_get after.past.entries ordinal ≡ Some e)
        × ((e.ops ≡ Create n ∷ Write n 0 (1 ∷ 2 ∷ []) ∷ [])
        ⊎ ((e.ops ≡ SetLength n 0 ∷ Write n 0 (1 ∷ 2 ∷ []) ∷ [])
        ⊎ ((front : List operation.Op) × (e.ops ≡ front
        ++ (Write (record { 0 = 0 }) (256 * n.0) (slot_bytes (codes "a")) ∷ Create n
        ∷ Write n 0 (1 ∷ 2 ∷ []) ∷ [])))))
        × IsKnownDurable ordinal e.group after) }
{
    run_put_named(rt, ALL_OF_A, BRIEF, Ok(input), Ok(device), out, errors)
}

// An object is removed with its name in one such entry. If it was gone before, its name goes alone.
fn a_removal_of_a_name_is_one_durable_entry<
    R: Wait + AllocGlobal,
    D: SectorDevice + NotesRefusals + Drop,
    W: Write,
    E: Write,
>(rt: &R, device: D, out: &mut W, errors: &mut E) -> u8
    ensures { result ≡ 0 → HappensByNew D.SectorDevice device
        (λ before after. (ordinal : ℕ) × (e : Entry) × (n : object.ObjectId)
        × (length before.past.entries ≤ ordinal)
        × (slice_get after.past.entries ordinal ≡ Some e)
        × ((e.ops ≡ Remove n ∷ Write (record { 0 = 0 }) (256 * n.0) (slot_bytes []) ∷ [])
        ⊎ (e.ops ≡ Write (record { 0 = 0 }) (256 * n.0) (slot_bytes []) ∷ []))
        × IsKnownDurable ordinal e.group after) }
{
    run_remove_named(rt, OBJECT_A, BRIEF, Ok(device), out, errors)
}
