//! What callers rely on of whichever command changes a pool, and of the laws of puts and removals by name.

ghost use Rattle.std.specs.Prelude.{◌≡◌, ◌≢◌, ◌≤◌, ◌<◌, ℕ, List, [], ◌∷◌, None, Ok, Some, codes, is_some};
ghost use Rattle.std.specs.FinMap as finite;
ghost use Rattle.base.specs.history.Contents.{Contents};
ghost use Rattle.base.specs.history.History.{apply_all};
ghost use Rattle.commands.specs.NamedOps.{naming_ops, removal_ops};
ghost use Rattle.read_commands.specs.NamedObjects.{HasName};
ghost use Rattle.object_names.specs.Laws.{IsUnused};
ghost use Rattle.object_names.specs.NameTables.{IsNameTable};
ghost use Rattle.object_names.specs.Names.{IsName};
ghost use Rattle.tree_blocks.specs.Sources.{object_bytes};

use super::OPTIONS;
use crate::dispatch::run_change;
use crate::laws::{new_names_are_written, removed_names_are_gone};
use command_arguments::{ChangeCommand, Terminals};
use file_devices::HeldFile;
use std::io::{Eprint, Write};
use std::os::unix::fs::FileExt;
use std::rt::{Clock, Files};
use std::sync::Wait;

// Each status is one of the program's.
fn no_change_has_status_4<R: Files + Input + Print + Eprint + AllocGlobal + Wait + Clock, E: Write>(
    rt: &R,
    command: ChangeCommand<'_>,
    terminals: Terminals,
    errors: &mut E,
) -> u8
where
    R::File: FileExt + HeldFile,
    ensures { result ≢ 4 }
{
    run_change(rt, command, OPTIONS, terminals, errors)
}

// Object 7 is made with two bytes and a name that no object had. Then it has that name and these bytes. Object 8 is as it
// was.
fn a_new_object_has_its_name_and_its_bytes()
    ensures { (name : List ℕ) (before after : Contents) → IsName name
        → IsNameTable (object_bytes before.objects 0)
        → IsUnused (object_bytes before.objects 0) 7 name
        → apply_all (naming_ops (is_some (finite.get before.objects 0))
        (object_bytes before.objects 0) (record { 0 = 7 }) name 0 (1 ∷ 2 ∷ [])) before ≡ Ok after
        → HasName after name 7 × (finite.get after.objects 7 ≡ Some (1 ∷ 2 ∷ []))
        × (finite.get after.objects 8 ≡ finite.get before.objects 8) }
{
    new_names_are_written();
}

// Object 7 is removed with its name. Then no object has that name.
fn a_removed_object_has_no_name()
    ensures { (name : List ℕ) (before after : Contents) → HasName before name 7
        → apply_all (removal_ops (is_some (finite.get before.objects 7)) (record { 0 = 7 }))
        before ≡ Ok after → (finite.get after.objects 7 ≡ None)
        × ((n : ℕ) → HasName after name n → ⊥) }
{
    removed_names_are_gone();
}
