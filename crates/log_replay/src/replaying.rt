//! The records of a chain, applied to the contents that the tree of the active group holds.

ghost use Rattle.std.specs.Prelude.{ℕ, ◌≡◌, ◌≤◌, ◌++◌, ◌∷◌, [], List, IfErr, IfOk, IsErr, OnOk};
ghost use Rattle.base.specs.tree.Mount.{Placed, records_above};
ghost use Rattle.base.specs.formats.Limits.{last_number};
ghost use Rattle.extents.specs.Patches.{laid_over};
ghost use Rattle.extents.specs.Tables.{AppliesOps, patches_of};
ghost use Rattle.contents.specs.ContentsShown.{contents_of};
ghost use Rattle.contents.specs.Judging.{ApplyTo};
ghost use Rattle.contents.specs.Ops.{AreOpsAllowed};
ghost use Rattle.log_replay.specs.Judged.{IsRecordRefusal};
ghost use Rattle.log_replay.specs.Walked.{HasReplayedTo};
ghost use Rattle.log_replay.specs.Replays.{IsPieceAllowed, IsChainAllowed, IsReplay, IsReplayCause, IsReplayOf, IsReplayRefusal, IsRecordRefused};

use crate::judging::judge_record;
use base::{Group, PoolError};
use contents::SyncedTree;
use extents::{Extents, Laid};
use intent_log::LoggedPiece;
use records::Record;
use std::alloc::Global;

/// What the records of a chain make of the contents that a tree holds.
#[derive(Drop)]
pub struct Replayed {
    /// What they change of its objects and of its name.
    pub extents: Extents,
    /// The records that were applied, in order, each as one of the group that the import syncs.
    pub records: Vec<Record>,
}

/// Applies the records of a chain to the contents of the tree: those of groups above the active one, in order. Those of
/// groups up to it are passed over. The operations are moved out of the pieces, and their bytes are copied once.
///
/// # Errors
/// `Damaged` with kind 6 and the address of its first block for the first record that can't take place; `NoMemory`.
pub fn replay(
    alloc: Global,
    group: Group,
    synced: &SyncedTree,
    pieces: Vec<LoggedPiece>,
) -> Result<Replayed, PoolError>
    requires group { group.0 ≤ last_number }
    requires allowed { IsChainAllowed pieces.items }
    ensures replayed { IfOk result (IsReplay group.0 (contents_of synced.now) pieces.items) }
    ensures refused { IfErr result
        (IsReplayRefusal (records_above group.0 pieces.items) (contents_of synced.now)) }
    ensures found { (address : ℕ) → IsRecordRefused (records_above group.0 pieces.items)
        (contents_of synced.now) address → IsErr result }
    ensures cause { IfErr result IsReplayCause }
{
    let mut replayed = Replayed::new(alloc);
    for piece in pieces {
        replayed.apply_piece(synced, group, piece)?;
    }
    Ok(replayed)
}

impl Replayed {
    // No records. It takes no memory.
    fn new(alloc: Global) -> Self
        ensures { (group : ℕ) (synced : SyncedTree)
            → IsReplayOf group (contents_of synced) [] result }
    {
        Replayed {
            extents: Extents::new(alloc),
            records: Vec::new(alloc),
        }
    }

    // Applies the records of a piece, after those of the pieces before it.
    fn apply_piece(
        &mut self,
        synced: &SyncedTree,
        group: Group,
        piece: LoggedPiece,
    ) -> Result<(), PoolError>
        requires group { group.0 ≤ last_number }
        requires allowed { IsPieceAllowed piece }
        ensures applied { (records rest : List Placed)
            → HasReplayedTo group.0 (contents_of synced.now)
            records (records_above group.0 (piece ∷ []) ++ rest) self.old
            → OnOk result (HasReplayedTo group.0 (contents_of synced.now) records rest self.new) }
        ensures refused { (records rest : List Placed)
            → HasReplayedTo group.0 (contents_of synced.now)
            records (records_above group.0 (piece ∷ []) ++ rest) self.old
            → IfErr result (IsReplayRefusal records (contents_of synced.now)) }
        ensures cause { IfErr result IsReplayCause }
    {
        let address = piece.address();
        let next = Group(group.0 + 4);
        for record in piece.into_records() {
            if record.group.0 > group.0 {
                self.apply(
                    synced,
                    address,
                    Record {
                        group: next,
                        ordinal: record.ordinal,
                        ops: record.ops,
                    },
                )?;
            }
        }
        Ok(())
    }

    // Applies a record of the piece at an address.
    fn apply(&mut self, synced: &SyncedTree, address: u64, logged: Record) -> Result<(), PoolError>
        requires { AreOpsAllowed logged.ops }
        ensures applies { OnOk result (ApplyTo logged.ops
            (laid_over (patches_of self.old.extents) (contents_of synced.now).objects)) }
        ensures extents { OnOk result (AppliesOps logged.ops self.old.extents self.new.extents) }
        ensures records { OnOk result (self.new.records.items
            ≡ self.old.records.items ++ logged ∷ []) }
        ensures refused { IfErr result (IsRecordRefusal logged.ops address
            (laid_over (patches_of self.old.extents) (contents_of synced.now).objects)) }
    {
        judge_record(
            &Laid::new(&self.extents, &synced.tree),
            address,
            logged.ops.as_slice(),
        )?;
        self.extents.add(logged.ops.as_slice())?;
        self.records.push(logged)?;
        Ok(())
    }
}
