//! What the records of a chain change of objects, by their lengths. The pieces of the chain stay.
//!
//! Whether an operation can take place depends only on whether its object is there. So whoever knows no bytes of the
//! objects finds the first record that can't, and the lengths that the others leave.

ghost use Rattle.std.specs.Prelude.{ℕ, ◌≡◌, ◌∷◌, [], List, IfErr, IfOk};
ghost use Rattle.base.specs.tree.Mount.{records_above};
ghost use Rattle.base.specs.formats.Records.{IsAllowed};
ghost use Rattle.contents.specs.Judging.{with_name};
ghost use Rattle.extents.specs.Patches.{AreNumbered};
ghost use Rattle.records.specs.Records.{record_fields};
ghost use Rattle.log_replay.specs.AddedRecords.{AddsRecords, AreChangesOf};
ghost use Rattle.log_replay.specs.Replays.{IsChainAllowed, IsPieceAllowed, IsReplayRefusal};
ghost use Rattle.log_replay.specs.Walked.{above_at};

use crate::judging::judge_record;
use base::{Group, PoolError};
use extents::{Extents, Laid};
use intent_log::LoggedPiece;
use records::Record;
use std::alloc::Global;
use tree_blocks::ObjectSource;

/// Returns what the records of a chain change of objects, and how many they are: those of groups above the active one, in
/// order. `replay` makes the same changes.
///
/// # Errors
/// `Damaged` with kind 6 and the address of its first block for the first record that can't take place; `NoMemory`.
pub fn changes_of<O: ObjectSource + Copy>(
    alloc: Global,
    group: Group,
    objects: O,
    pieces: &[LoggedPiece],
) -> Result<(Extents, u64), PoolError>
    requires allowed { IsChainAllowed pieces.now }
    requires numbered { AreNumbered (O.objects objects) }

    // Whatever the name of their pool is.
    ensures changes { (name : List ℕ) → IfOk result
        (AreChangesOf (records_above group.0 pieces.now) (with_name (O.objects objects) name)) }
    ensures refused { (name : List ℕ) → IfErr result
        (IsReplayRefusal (records_above group.0 pieces.now) (with_name (O.objects objects) name)) }
{
    let mut changes = Extents::new(alloc);
    let mut count = 0u64;
    for piece in pieces {
        count = count.saturating_add(add_piece(&mut changes, objects, group, piece)?);
    }
    Ok((changes, count))
}

// Adds the records of a piece, and returns how many they are.
fn add_piece<O: ObjectSource + Copy>(
    changes: &mut Extents,
    objects: O,
    group: Group,
    piece: &LoggedPiece,
) -> Result<u64, PoolError>
    requires { IsPieceAllowed piece.now }
    ensures { (name : List ℕ) → AddsRecords (with_name (O.objects objects) name)
        (records_above group.0 (piece.now ∷ [])) changes.old result changes.new }
{
    let address = piece.address();
    let records = piece.records();
    let mut count = 0u64;
    for logged in records {
        count = count.saturating_add(add_record(changes, objects, group, address, logged)?);
    }
    Ok(count)
}

// Adds a record of the piece at this address, if it is of a group above this one.
fn add_record<O: ObjectSource + Copy>(
    changes: &mut Extents,
    objects: O,
    group: Group,
    address: u64,
    logged: &Record,
) -> Result<u64, PoolError>
    requires { IsAllowed (record_fields logged.now) }
    ensures { (name : List ℕ) → AddsRecords (with_name (O.objects objects) name)
        (above_at group.0 address (logged.now ∷ [])) changes.old result changes.new }
{
    if logged.group.0 <= group.0 {
        return Ok(0);
    }
    judge_record(&Laid::new(changes, objects), address, logged.ops.as_slice())?;
    changes.add(logged.ops.as_slice())?;
    Ok(1)
}
