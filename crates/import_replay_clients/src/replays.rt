//! What callers rest on of the records of a chain: which an import replays, and which blocks it writes for them.

ghost use Rattle.std.specs.Prelude.{◌≡◌, ◌≢◌, ◌<◌, ◌≤◌, [], ℕ, IfErr, IfOk, IsTrue, List, false, length};
ghost use Rattle.std.specs.List.{list_any};
ghost use Rattle.base.specs.disk.Disk.{bytes_of};
ghost use Rattle.base.specs.formats.Uberblocks as image;
ghost use Rattle.base.specs.tree.Mount.{IsUsed, Mounts, records_above};
ghost use Rattle.base.specs.formats.Chain.{LogPiece};
ghost use Rattle.base.specs.formats.Geometry.{IsBlockAddress, block_address, block_count};
ghost use Rattle.base.specs.history.Contents.{Contents};
ghost use Rattle.base.specs.tree.Places.{IsInTree, data_pointer, indirect_pointer};
ghost use Rattle.base.specs.tree.Syncs.{is_on};
ghost use Rattle.contents.specs.ContentsShown.{contents_of};
ghost use Rattle.import_replay.specs.PlacedRecords.{ops_of_placed};
ghost use Rattle.import_replay_clients.specs.ChangedBlocks.{ChangesBlock, KeepsBlock};

use base::PoolError;
use device_model::SectorDevice;
use import_replay::{Imported, Limits, import};
use std::alloc::Global;

// A dirty limit of 1 MiB, and 256 blocks.
const LIMITS: Limits = Limits {
    dirty_max: 1_048_576,
    cache_blocks: 256,
};

// If no record of the chain is above the active group, and a block is neither in the tree nor in the chain, an import
// has room.
fn one_spare_block_is_room_without_records<D: SectorDevice>(
    alloc: Global,
    device: D,
) -> Result<Imported<D>, (PoolError, D)>
    ensures { IsTrue D.keeps_model → IfErr result (λ e. (u : image.Uberblock)
        → (chain : List LogPiece) → (contents : Contents) → (address : ℕ)
        → Mounts (bytes_of (D.disk device).now) u chain contents → records_above u.group chain ≡ []
        → IsBlockAddress (block_count (length (bytes_of (D.disk device).now))) address
        → (IsUsed (bytes_of (D.disk device).now) u.root chain address → ⊥)
        → e.0 ≢ PoolError.NoSpace) }
{
    import(alloc, device, LIMITS, 0)
}

// An import replays each record of the chain that is above the active group. What it gives has the contents that the
// image mounts, these records applied.
fn the_records_of_a_chain_are_replayed<D: SectorDevice>(
    alloc: Global,
    device: D,
) -> Result<Imported<D>, (PoolError, D)>
    ensures { IsTrue D.keeps_model → IfOk result (λ i. (u : image.Uberblock)
        → (chain : List LogPiece) → (contents : Contents)
        → Mounts (bytes_of (D.disk device).now) u chain contents
        → (contents_of i.mounted.contents ≡ contents)
        × (i.mounted.records ≡ length (records_above u.group chain))) }
{
    import(alloc, device, LIMITS, 0)
}

// If no record of the chain is above the active group, an import writes no block: each block stays as it was.
fn an_import_without_records_writes_no_block<D: SectorDevice>(
    alloc: Global,
    device: D,
) -> Result<Imported<D>, (PoolError, D)>
    ensures { IsTrue D.keeps_model → IfOk result (λ i. (u : image.Uberblock)
        → (chain : List LogPiece) → (contents : Contents)
        → Mounts (bytes_of (D.disk device).now) u chain contents → records_above u.group chain ≡ []
        → (k : ℕ) → k < block_count i.mounted.geometry
        → KeepsBlock (D.disk device) (D.disk i.device) k) }
{
    import(alloc, device, LIMITS, 0)
}

// An import takes the lowest blocks. If it changed block k, the new tree has that block, and each lower one that
// neither the old tree nor its chain had.
fn an_import_leaves_out_no_lower_block<D: SectorDevice>(
    alloc: Global,
    device: D,
) -> Result<Imported<D>, (PoolError, D)>
    ensures there { IsTrue D.keeps_model → IfOk result (λ i. (k : ℕ)
        → k < block_count i.mounted.geometry
        → ChangesBlock (D.disk device) (D.disk i.device) k
        → IsInTree (bytes_of (D.disk i.device).now) i.mounted.contents.tree.root (block_address k)) }
    ensures lower { IsTrue D.keeps_model → IfOk result (λ i. (u : image.Uberblock)
        → (chain : List LogPiece) → (contents : Contents)
        → Mounts (bytes_of (D.disk device).now) u chain contents
        → (j k : ℕ) → k < block_count i.mounted.geometry
        → ChangesBlock (D.disk device) (D.disk i.device) k → j < k
        → (IsUsed (bytes_of (D.disk device).now) u.root chain (block_address j) → ⊥)
        → IsInTree (bytes_of (D.disk i.device).now) i.mounted.contents.tree.root (block_address j)) }
{
    import(alloc, device, LIMITS, 0)
}

// The new root lies above all other blocks that an import changed.
fn the_new_root_is_the_highest_block<D: SectorDevice>(
    alloc: Global,
    device: D,
) -> Result<Imported<D>, (PoolError, D)>
    ensures { IsTrue D.keeps_model → IfOk result (λ i. (k root : ℕ)
        → k < block_count i.mounted.geometry → root < block_count i.mounted.geometry
        → i.mounted.contents.tree.root.address ≡ block_address root
        → ChangesBlock (D.disk device) (D.disk i.device) k
        → ChangesBlock (D.disk device) (D.disk i.device) root → k ≤ root) }
{
    import(alloc, device, LIMITS, 0)
}

// If no record of the chain is on object 7, an import doesn't write it: the blocks of its record 2 and of the pointers
// to its records are as they were.
fn an_object_without_records_is_not_written<D: SectorDevice>(
    alloc: Global,
    device: D,
) -> Result<Imported<D>, (PoolError, D)>
    ensures data { IsTrue D.keeps_model → IfOk result (λ i. (u : image.Uberblock)
        → (chain : List LogPiece) → (contents : Contents)
        → Mounts (bytes_of (D.disk device).now) u chain contents
        → list_any (is_on 7) (ops_of_placed (records_above u.group chain)) ≡ false
        → (k : ℕ) → k < block_count i.mounted.geometry
        → (data_pointer (bytes_of (D.disk i.device).now) i.mounted.contents.tree.root 7 2).address
        ≡ block_address k
        → KeepsBlock (D.disk device) (D.disk i.device) k) }
    ensures pointers { IsTrue D.keeps_model → IfOk result (λ i. (u : image.Uberblock)
        → (chain : List LogPiece) → (contents : Contents)
        → Mounts (bytes_of (D.disk device).now) u chain contents
        → list_any (is_on 7) (ops_of_placed (records_above u.group chain)) ≡ false
        → (k : ℕ) → k < block_count i.mounted.geometry
        → (indirect_pointer (bytes_of (D.disk i.device).now) i.mounted.contents.tree.root 7).address
        ≡ block_address k
        → KeepsBlock (D.disk device) (D.disk i.device) k) }
{
    import(alloc, device, LIMITS, 0)
}
