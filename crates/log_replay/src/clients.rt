//! What callers rest on: one function for each promise of this crate's calls, proved from the contract of the call
//! alone. So it is refused as soon as that contract says less.

ghost use Rattle.std.specs.Prelude.{◌≡◌, ◌⊎◌, ◌∷◌, [], IfErr, IfOk, IsErr, None, Some, map, unwrap_or};
ghost use Rattle.std.specs.FinMap as finite;
ghost use Rattle.extents.specs.Patches.{laid_over};
ghost use Rattle.extents.specs.Tables.{name_of, patches_of};
ghost use Rattle.contents.specs.ContentsShown.{contents_of};
ghost use Rattle.tree_blocks.specs.Sources.{object_length};
ghost use Rattle.records.specs.Records.{record_fields};
ghost use Rattle.log_replay.specs.SmallChains.{creation, creation_chain, growing_chain, naming_chain};
ghost use Rattle.log_replay.specs.Replays.{IsChainAllowed};

use crate::changes::changes_of;
use crate::replaying::{Replayed, replay};
use base::{Group, PoolError};
use contents::SyncedTree;
use extents::Extents;
use intent_log::LoggedPiece;
use std::alloc::Global;

fn an_empty_chain_has_no_record(
    alloc: Global,
    synced: &SyncedTree,
    pieces: Vec<LoggedPiece>,
) -> Result<Replayed, PoolError>
    requires { pieces.items ≡ [] }
    ensures records { IfOk result (λ r. r.records.items ≡ []) }
    ensures objects { IfOk result (λ r.
        laid_over (patches_of r.extents) (contents_of synced.now).objects
        ≡ (contents_of synced.now).objects) }
{
    replay(alloc, Group(9), synced, pieces)
}

// The tree of the active group has it.
fn a_record_of_the_active_group_is_passed_over(
    alloc: Global,
    synced: &SyncedTree,
    pieces: Vec<LoggedPiece>,
) -> Result<Replayed, PoolError>
    requires chain { pieces.items ≡ creation_chain 9 }
    requires allowed { IsChainAllowed pieces.items }
    ensures records { IfOk result (λ r. r.records.items ≡ []) }
    ensures objects { IfOk result (λ r.
        laid_over (patches_of r.extents) (contents_of synced.now).objects
        ≡ (contents_of synced.now).objects) }
{
    replay(alloc, Group(9), synced, pieces)
}

fn a_record_of_a_group_above_takes_place_four_groups_later(
    alloc: Global,
    synced: &SyncedTree,
    pieces: Vec<LoggedPiece>,
) -> Result<Replayed, PoolError>
    requires chain { pieces.items ≡ creation_chain 10 }
    requires allowed { IsChainAllowed pieces.items }
    requires absent { finite.get (contents_of synced.now).objects 7 ≡ None }
    ensures record { IfOk result (λ r. map record_fields r.records.items ≡ creation 13 ∷ []) }
    ensures object { IfOk result (λ r. finite.get
        (laid_over (patches_of r.extents) (contents_of synced.now).objects) 7 ≡ Some []) }
{
    replay(alloc, Group(9), synced, pieces)
}

// A record may name the pool: what it leaves has that name.
fn a_record_names_the_pool(
    alloc: Global,
    synced: &SyncedTree,
    pieces: Vec<LoggedPiece>,
) -> Result<Replayed, PoolError>
    requires chain { pieces.items ≡ naming_chain 10 }
    requires allowed { IsChainAllowed pieces.items }
    ensures { IfOk result (λ r. unwrap_or (name_of r.extents) (contents_of synced.now).name
        ≡ 112 ∷ 111 ∷ 110 ∷ 100 ∷ []) }
{
    replay(alloc, Group(9), synced, pieces)
}

// The only other refusal is for memory.
fn a_record_that_is_refused_is_a_damage_of_its_piece(
    alloc: Global,
    synced: &SyncedTree,
    pieces: Vec<LoggedPiece>,
) -> Result<Replayed, PoolError>
    requires chain { pieces.items ≡ creation_chain 10 }
    requires allowed { IsChainAllowed pieces.items }
    requires there { finite.get (contents_of synced.now).objects 7 ≡ Some [] }
    ensures refused { IsErr result }
    ensures address { IfErr result
        (λ e. (e ≡ PoolError.NoMemory) ⊎ (e ≡ PoolError.Damaged 6 4194304)) }
{
    replay(alloc, Group(9), synced, pieces)
}

// It is refused so if nothing but the changes is asked for.
fn a_record_that_is_refused_changes_nothing(
    alloc: Global,
    synced: &SyncedTree,
    pieces: &[LoggedPiece],
) -> Result<(Extents, u64), PoolError>
    requires chain { pieces.now ≡ creation_chain 10 }
    requires allowed { IsChainAllowed pieces.now }
    requires there { finite.get (contents_of synced.now).objects 7 ≡ Some [] }
    ensures refused { IsErr result }
    ensures address { IfErr result
        (λ e. (e ≡ PoolError.NoMemory) ⊎ (e ≡ PoolError.Damaged 6 4194304)) }
{
    changes_of(alloc, Group(9), &synced.tree, pieces)
}

// Object 7 is created by one record, and the next one writes 5 bytes at 3.
fn lengths_follow_the_records(
    alloc: Global,
    synced: &SyncedTree,
    pieces: &[LoggedPiece],
) -> Result<(Extents, u64), PoolError>
    requires chain { pieces.now ≡ growing_chain 10 }
    requires allowed { IsChainAllowed pieces.now }
    requires absent { finite.get (contents_of synced.now).objects 7 ≡ None }
    ensures count { IfOk result (λ r. r.1 ≡ 2) }
    ensures length { IfOk result (λ r. object_length
        (laid_over (patches_of r.0) (contents_of synced.now).objects) 7 ≡ Some 8) }
{
    changes_of(alloc, Group(9), &synced.tree, pieces)
}
