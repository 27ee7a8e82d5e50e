//! What callers rely on of the device that a command gives back: what an import finds then, whatever a crash leaves.

ghost use Rattle.std.specs.Prelude.{ℕ, ◌≡◌, ◌≢◌, ◌∷◌, [], IfSome, IsTrue, None, Some, codes};
ghost use Rattle.std.specs.FinMap as finite;
ghost use Rattle.base.specs.disk.Disk.{moments};
ghost use Rattle.base.specs.disk.Fairness.{LeavesFairNow};
ghost use Rattle.base.specs.history.Contents.{Contents};
ghost use Rattle.base.specs.history.Past.{Past};
ghost use Rattle.base.specs.kept.LeftDisks.{IsLeft};
ghost use Rattle.base.specs.steps.Explains.{IsLeftBy};
ghost use Rattle.base.specs.tree.Mount.{MountsTo};

use super::BRIEF;
use super::named_objects::{ALL_OF_A, OBJECT_A};
use super::objects::{ALL_OF_7, OBJECT_7};
use crate::changes::{put_on, remove_on};
use crate::named_puts::put_named_on;
use crate::named_removals::remove_named_on;
use crate::pool_files::{NewPool, create_on};
use command_arguments::{CreateArguments, PutArguments};
use device_model::SectorDevice;
use read_commands::NotesRefusals;
use std::io::Write;
use std::sync::Wait;

// Whichever run left the device: in whatever a crash leaves of it now object 7 has these two bytes alone, and each other
// object has what an import would have found before.
fn two_bytes_that_were_put_are_found_after_a_crash<
    R: Wait + AllocGlobal,
    D: SectorDevice + NotesRefusals + Drop,
    W: Write,
    E: Write,
>(rt: &R, bytes: &[u8], device: D, out: &mut W, errors: &mut E) -> (u8, D)
    requires { bytes.now ≡ 1 ∷ 2 ∷ [] }
    ensures { result.0 ≡ 0 → IsTrue D.keeps_model → (past : Past) → IsLeft past (D.disk device)
        → ∥ ((base : Contents) × IsLeftBy past base × LeavesFairNow (D.disk result.1) past.created
        (λ image. (c : Contents) × MountsTo image c
        × ((finite.get c.objects 7 ≡ Some (1 ∷ 2 ∷ [])) × ((other : ℕ) → other ≢ 7
        → finite.get c.objects other ≡ finite.get base.objects other)))) ∥₁ }
{
    put_on(rt, ALL_OF_7, BRIEF, bytes, device, out, errors)
}

// If object 7 had three bytes, the second is the one that was put, and the others are still there.
fn a_byte_that_was_put_at_an_offset_is_found_after_a_crash<
    R: Wait + AllocGlobal,
    D: SectorDevice + NotesRefusals + Drop,
    W: Write,
    E: Write,
>(rt: &R, bytes: &[u8], device: D, out: &mut W, errors: &mut E) -> (u8, D)
    requires { bytes.now ≡ 5 ∷ [] }
    ensures { result.0 ≡ 0 → IsTrue D.keeps_model → (past : Past) → IsLeft past (D.disk device)
        → ∥ ((base : Contents) × IsLeftBy past base × LeavesFairNow (D.disk result.1) past.created
        (λ image. (c : Contents) × MountsTo image c
        × (finite.get base.objects 7 ≡ Some (10 ∷ 11 ∷ 12 ∷ [])
        → finite.get c.objects 7 ≡ Some (10 ∷ 5 ∷ 12 ∷ [])))) ∥₁ }
{
    let arguments = PutArguments {
        file: "tank.pool",
        object: 7,
        offset: Some(1),
        moment: 0,
    };
    put_on(rt, arguments, BRIEF, bytes, device, out, errors)
}

// Object 7 isn't there, and the name and each other object are what an import would have found before.
fn an_object_that_was_removed_is_gone_after_a_crash<
    R: Wait + AllocGlobal,
    D: SectorDevice + NotesRefusals + Drop,
    W: Write,
    E: Write,
>(rt: &R, device: D, out: &mut W, errors: &mut E) -> (u8, D)
    ensures { result.0 ≡ 0 → IsTrue D.keeps_model → (past : Past) → IsLeft past (D.disk device)
        → ∥ ((base : Contents) × IsLeftBy past base × LeavesFairNow (D.disk result.1) past.created
        (λ image. (c : Contents) × MountsTo image c × ((finite.get c.objects 7 ≡ None)
        × ((other : ℕ) → other ≢ 7
        → finite.get c.objects other ≡ finite.get base.objects other)
        × (c.name ≡ base.name)))) ∥₁ }
{
    remove_on(rt, OBJECT_7, BRIEF, device, out, errors)
}

// Object 8 is in whatever an import finds then as an import would have found it before.
fn a_refused_put_leaves_each_other_object<
    R: Wait + AllocGlobal,
    D: SectorDevice + NotesRefusals + Drop,
    W: Write,
    E: Write,
>(rt: &R, bytes: &[u8], device: D, out: &mut W, errors: &mut E) -> (u8, D)
    ensures { result.0 ≡ 1 → IsTrue D.keeps_model → (past : Past) → IsLeft past (D.disk device)
        → ∥ ((later : Past) × IsLeft later (D.disk result.1)
        × ((c : Contents) → IsLeftBy later c → (base : Contents) × IsLeftBy past base
        × (finite.get c.objects 8 ≡ finite.get base.objects 8))) ∥₁ }
{
    put_on(rt, ALL_OF_7, BRIEF, bytes, device, out, errors)
}

// Whichever run left the device, and whatever came of the put: what an import finds then is of a pool that goes on from
// what one would have found before.
fn a_put_by_name_loses_nothing<
    R: Wait + AllocGlobal,
    D: SectorDevice + NotesRefusals + Drop,
    W: Write,
    E: Write,
>(rt: &R, bytes: &[u8], device: D, out: &mut W, errors: &mut E) -> (u8, Option<D>)
    ensures { IfSome result.1 (λ after. IsTrue D.keeps_model → (past : Past)
        → IsLeft past (D.disk device) → ∥ ((later : Past) × IsLeft later (D.disk after)
        × ((c : Contents) → IsLeftBy later c → (base : Contents) × IsLeftBy past base)) ∥₁) }
{
    put_named_on(rt, ALL_OF_A, BRIEF, bytes, device, out, errors)
}

fn a_removal_by_name_loses_nothing<
    R: Wait + AllocGlobal,
    D: SectorDevice + NotesRefusals + Drop,
    W: Write,
    E: Write,
>(rt: &R, device: D, out: &mut W, errors: &mut E) -> (u8, Option<D>)
    ensures { IfSome result.1 (λ after. IsTrue D.keeps_model → (past : Past)
        → IsLeft past (D.disk device) → ∥ ((later : Past) × IsLeft later (D.disk after)
        × ((c : Contents) → IsLeftBy later c → (base : Contents) × IsLeftBy past base)) ∥₁) }
{
    remove_named_on(rt, OBJECT_A, BRIEF, device, out, errors)
}

// It has its name and no object.
fn a_new_pool_is_found_after_a_crash<D: SectorDevice + NotesRefusals + Drop, W: Write, E: Write>(
    device: D,
    out: &mut W,
    errors: &mut E,
) -> Option<(u8, D)>
    ensures { IfSome result (λ made. made.0 ≡ 0 → IsTrue D.keeps_model
        → LeavesFairNow (D.disk made.1) (moments (D.disk device))
        (λ image. (c : Contents) × MountsTo image c × ((c.name ≡ codes "tank")
        × (c.objects ≡ finite.empty)))) }
{
    let arguments = CreateArguments {
        file: "tank.pool",
        name: "tank",
        guid: 77,
        size: 8_388_608,
        only_new: false,
        moment: 0,
    };
    match NewPool::new(arguments) {
        Ok(pool) => Some(create_on(&pool, arguments, BRIEF, device, out, errors)),
        Err(_) => None,
    }
}
