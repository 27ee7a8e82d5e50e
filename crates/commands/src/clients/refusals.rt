//! What callers rely on of a put and a removal that did not end well.

ghost use Rattle.std.specs.Prelude.{ℕ, ◌≡◌, ◌≤◌, ◌<◌, ◌⊎◌, [], ◌∷◌, Err, IsTrue, List, Ok, Some, length, slice_get, true};
ghost use Rattle.base.specs.declared.error.PoolError as refusal;
ghost use Rattle.base.specs.declared.error.PoolError.TheVariants.{NoSpace};
ghost use Rattle.base.specs.declared.names.Receipt as receipt;
ghost use Rattle.base.specs.declared.operation.Op as operation;
ghost use Rattle.base.specs.declared.status.Status as status;
ghost use Rattle.base.specs.declared.operation.Op.TheVariants.{Create, Remove, SetLength, Write};
ghost use Rattle.base.specs.declared.step.Reply.TheVariants as reply;
ghost use Rattle.base.specs.declared.step.Step.TheVariants as step;
ghost use Rattle.base.specs.disk.Calls.{with_refusal};
ghost use Rattle.base.specs.history.History.{Entry};
ghost use Rattle.base.specs.steps.Seen.{IsKnownDurable};
ghost use Rattle.running_pools.specs.LeftDevices.{IsOnlyHandle};
ghost use Rattle.commands.specs.Committed.{HappensOn, IsOpenedOn};
ghost use Rattle.import_replay.specs.ImportRefusals.{IsImportRefusal};
ghost use Rattle.pool_threads.specs.Answers.{Makes};
ghost use Rattle.pool_threads.specs.Handles.{LeavesSame};
ghost use Rattle.pool_threads.specs.Transacts.{TransactsOrLacks};
ghost use Rattle.pool_threads.specs.Waits.{SyncsPool};
ghost use Rattle.pool_threads.specs.declared.handle.Handle as handles;

use super::BRIEF;
use super::objects::{ALL_OF_7, OBJECT_7};
use crate::changes::{run_put, run_remove};
use device_model::SectorDevice;
use read_commands::NotesRefusals;
use std::io::Write;
use std::sync::Wait;

// Only the line was not written: both bytes are in one entry that was not there before and that no crash loses.
fn a_put_of_status_3_is_one_durable_entry<
    R: Wait + AllocGlobal,
    D: SectorDevice + NotesRefusals + Drop,
    W: Write,
    E: Write,
>(rt: &R, input: Vec<u8>, device: D, out: &mut W, errors: &mut E) -> u8
    requires { input.items ≡ 1 ∷ 2 ∷ [] }
    ensures { result ≡ 3 → HappensOn D.SectorDevice device
        (λ before after. (ordinal : ℕ) × (e : Entry)
        × (length before.past.entries ≤ ordinal)
        × (slice_get after.past.entries ordinal ≡ Some e)
        × ((e.ops ≡ Create (record { 0 = 7 }) ∷ Write (record { 0 = 7 }) 0 (1 ∷ 2 ∷ []) ∷ [])
        ⊎ (e.ops ≡ SetLength (record { 0 = 7 }) 0 ∷ Write (record { 0 = 7 }) 0 (1 ∷ 2 ∷ []) ∷ []))
        × IsKnownDurable ordinal e.group after) }
{
    run_put(rt, ALL_OF_7, BRIEF, Ok(input), Ok(device), out, errors)
}

// Only the line was not written: object 7 is removed in one such entry.
fn a_removal_of_status_3_is_one_durable_entry<
    R: Wait + AllocGlobal,
    D: SectorDevice + NotesRefusals + Drop,
    W: Write,
    E: Write,
>(rt: &R, device: D, out: &mut W, errors: &mut E) -> u8
    ensures { result ≡ 3 → HappensOn D.SectorDevice device
        (λ before after. (ordinal : ℕ) × (e : Entry)
        × (length before.past.entries ≤ ordinal)
        × (slice_get after.past.entries ordinal ≡ Some e)
        × (e.ops ≡ Remove (record { 0 = 7 }) ∷ [])
        × IsKnownDurable ordinal e.group after) }
{
    run_remove(rt, OBJECT_7, BRIEF, Ok(device), out, errors)
}

// The import was refused, for what the device is or for a call of it, and the device still holds what was left on it.
// Or the only handle of the opened pool was refused the length of object 7, the one transaction with both bytes, or the
// sync. Or it was told that fewer than four blocks are available: both bytes need a data block, an indirect block, a
// directory and the root.
fn a_put_of_status_1_was_refused_by_the_engine<
    R: Wait + AllocGlobal,
    D: SectorDevice + NotesRefusals + Drop,
    W: Write,
    E: Write,
>(rt: &R, input: Vec<u8>, device: D, out: &mut W, errors: &mut E) -> u8
    requires { input.items ≡ 1 ∷ 2 ∷ [] }
    ensures { result ≡ 1 → (e : refusal.PoolError)
        × (((after : _) × IsImportRefusal (D.size device) true e
        × (D.refused after ≡ with_refusal e (D.refused device))
        × (IsTrue D.keeps_model → LeavesSame (D.disk device) (D.disk after)))
        ⊎ IsOpenedOn D.SectorDevice device (λ p. (first looked done last : handles.Handle _ _)
        × IsOnlyHandle p first
        × (Makes (step.Length (record { 0 = 7 })) (reply.Refused e) first looked
        ⊎ (((ops : List operation.Op) × TransactsOrLacks (record { 0 = 0 }) ops (Err e) looked done
        × ((ops ≡ Create (record { 0 = 7 }) ∷ Write (record { 0 = 7 }) 0 (1 ∷ 2 ∷ []) ∷ [])
        ⊎ (ops ≡ SetLength (record { 0 = 7 }) 0 ∷ Write (record { 0 = 7 }) 0 (1 ∷ 2 ∷ []) ∷ [])))
        ⊎ (SyncsPool (Err e) done last
        ⊎ ((s : status.Status) × Makes step.Status (reply.Status s) looked done
        × (s.available < 4) × (e ≡ NoSpace))))))) }
{
    run_put(rt, ALL_OF_7, BRIEF, Ok(input), Ok(device), out, errors)
}

// The import was refused so. Or the only handle of the opened pool was refused the one transaction, or the sync after
// it.
fn a_removal_of_status_1_was_refused_by_the_engine<
    R: Wait + AllocGlobal,
    D: SectorDevice + NotesRefusals + Drop,
    W: Write,
    E: Write,
>(rt: &R, device: D, out: &mut W, errors: &mut E) -> u8
    ensures { result ≡ 1 → (e : refusal.PoolError)
        × (((after : _) × IsImportRefusal (D.size device) true e
        × (D.refused after ≡ with_refusal e (D.refused device))
        × (IsTrue D.keeps_model → LeavesSame (D.disk device) (D.disk after)))
        ⊎ IsOpenedOn D.SectorDevice device (λ p. (first done last : handles.Handle _ _)
        × IsOnlyHandle p first
        × (TransactsOrLacks (record { 0 = 0 }) (Remove (record { 0 = 7 }) ∷ []) (Err e) first done
        ⊎ ((r : receipt.Receipt)
        × TransactsOrLacks (record { 0 = 0 }) (Remove (record { 0 = 7 }) ∷ []) (Ok r) first done
        × SyncsPool (Err e) done last)))) }
{
    run_remove(rt, OBJECT_7, BRIEF, Ok(device), out, errors)
}
