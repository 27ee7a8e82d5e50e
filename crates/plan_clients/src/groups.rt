//! What callers rest on of the plan of a group.

ghost use Rattle.std.specs.Prelude.{ℕ, ◌≡◌, ◌≢◌, ◌≤◌, ◌∷◌, [], IfErr, IfOk, IsTrue, None, Some, length, map, slice_get};
ghost use Rattle.base.specs.declared.error.PoolError.TheVariants as error;
ghost use Rattle.base.specs.common.Rising.{rising};
ghost use Rattle.base.specs.formats.Geometry.{block_address, block_count};
ghost use Rattle.base.specs.disk.Disk.{bytes_of};
ghost use Rattle.base.specs.kept.PlacedTrees.{ArePlaced};
ghost use Rattle.tree_blocks.specs.Pointers.{pointers_of};
ghost use Rattle.tree_plans.specs.Plans.{AreApart, address_of};
ghost use Rattle.tree_plans.specs.Pointers.{entry_of};
ghost use Rattle.group_plans.specs.OldMaps.{HoldsOwn};

use base::PoolError;
use checked_blocks::Frame;
use extents::Extents;
use group_plans::{GroupSource, plan_group};
use object_maps::BlockReader;
use records::Record;
use tree_plans::TreePlan;

// Blocks 0, 1 and 4 are free: a plan of two blocks takes blocks 0 and 1.
fn a_group_takes_the_lowest_free_blocks<B: BlockReader>(
    reader: &mut B,
    before: &Frame,
    source: &GroupSource<'_>,
    records: &[Record],
    extents: &Extents,
) -> Result<TreePlan, PoolError>
    requires room { block_address before.now.blocks ≤ B.size reader.old }
    requires area { before.now.blocks ≡ block_count source.now.geometry }
    requires sized { source.now.free.now.blocks ≡ block_count source.now.geometry }
    requires placed { ∥ ArePlaced (block_count source.now.geometry)
        (pointers_of source.now.tree.now) ∥₁ }
    requires free { rising source.now.free.now.free ≡ 4194304 ∷ 4198400 ∷ 4210688 ∷ [] }
    ensures { IfOk result (λ p. length p.blocks.items ≡ 2
        → map address_of p.blocks.items ≡ 4194304 ∷ 4198400 ∷ []) }
{
    plan_group(reader, before, source, records, extents)
}

// The blocks of a tree that the device holds are whole: a plan finds none that is damaged.
fn a_plan_over_a_tree_that_is_held_finds_no_damage<B: BlockReader>(
    reader: &mut B,
    before: &Frame,
    source: &GroupSource<'_>,
    records: &[Record],
    extents: &Extents,
) -> Result<TreePlan, PoolError>
    requires room { block_address before.now.blocks ≤ B.size reader.old }
    requires area { before.now.blocks ≡ block_count source.now.geometry }
    requires sized { source.now.free.now.blocks ≡ block_count source.now.geometry }
    requires placed { ∥ ArePlaced (block_count source.now.geometry)
        (pointers_of source.now.tree.now) ∥₁ }
    requires keeps { IsTrue B.keeps_model }
    requires held { HoldsOwn (bytes_of (B.disk reader.old).now) before.now source.now.tree.now }
    ensures { IfErr result (λ e. (kind address : ℕ) → e ≢ error.Damaged kind address) }
{
    plan_group(reader, before, source, records, extents)
}

// A group without records leaves the root and writes nothing, whatever the device holds.
fn a_group_without_records_leaves_the_root<B: BlockReader>(
    reader: &mut B,
    before: &Frame,
    source: &GroupSource<'_>,
    records: &[Record],
    extents: &Extents,
) -> Result<TreePlan, PoolError>
    requires room { block_address before.now.blocks ≤ B.size reader.old }
    requires area { before.now.blocks ≡ block_count source.now.geometry }
    requires sized { source.now.free.now.blocks ≡ block_count source.now.geometry }
    requires placed { ∥ ArePlaced (block_count source.now.geometry)
        (pointers_of source.now.tree.now) ∥₁ }
    requires none { records.now ≡ [] }
    ensures { IfOk result (λ p. (p.root ≡ source.now.tree.now.root)
        × (length p.blocks.items ≡ 0)) }
{
    plan_group(reader, before, source, records, extents)
}

// A plan writes nothing: the disk is as it was.
fn a_plan_leaves_the_disk<B: BlockReader>(
    reader: &mut B,
    before: &Frame,
    source: &GroupSource<'_>,
    records: &[Record],
    extents: &Extents,
) -> Result<TreePlan, PoolError>
    requires room { block_address before.now.blocks ≤ B.size reader.old }
    requires area { before.now.blocks ≡ block_count source.now.geometry }
    requires sized { source.now.free.now.blocks ≡ block_count source.now.geometry }
    requires placed { ∥ ArePlaced (block_count source.now.geometry)
        (pointers_of source.now.tree.now) ∥₁ }
    requires keeps { IsTrue B.keeps_model }
    ensures { B.disk reader.new ≡ B.disk reader.old }
{
    plan_group(reader, before, source, records, extents)
}

// A tree has no object 5,292: a plan has no entry for it.
fn a_plan_has_entries_of_objects_alone<B: BlockReader>(
    reader: &mut B,
    before: &Frame,
    source: &GroupSource<'_>,
    records: &[Record],
    extents: &Extents,
) -> Result<TreePlan, PoolError>
    requires room { block_address before.now.blocks ≤ B.size reader.old }
    requires area { before.now.blocks ≡ block_count source.now.geometry }
    requires sized { source.now.free.now.blocks ≡ block_count source.now.geometry }
    requires placed { ∥ ArePlaced (block_count source.now.geometry)
        (pointers_of source.now.tree.now) ∥₁ }
    ensures { IfOk result (λ p. entry_of p.entries.entries 5292 ≡ None) }
{
    plan_group(reader, before, source, records, extents)
}

// If no two places of a tree that the device holds have blocks at one address, none comes back first and second.
fn a_group_gives_no_block_back_twice<B: BlockReader>(
    reader: &mut B,
    before: &Frame,
    source: &GroupSource<'_>,
    records: &[Record],
    extents: &Extents,
) -> Result<TreePlan, PoolError>
    requires room { block_address before.now.blocks ≤ B.size reader.old }
    requires area { before.now.blocks ≡ block_count source.now.geometry }
    requires sized { source.now.free.now.blocks ≡ block_count source.now.geometry }
    requires placed { ∥ ArePlaced (block_count source.now.geometry)
        (pointers_of source.now.tree.now) ∥₁ }
    requires keeps { IsTrue B.keeps_model }
    requires held { HoldsOwn (bytes_of (B.disk reader.old).now) before.now source.now.tree.now }
    requires apart { AreApart (pointers_of source.now.tree.now) }
    ensures { IfOk result (λ p. slice_get p.freed.items 0 ≡ Some 4194304
        → slice_get p.freed.items 1 ≢ Some 4194304) }
{
    plan_group(reader, before, source, records, extents)
}
