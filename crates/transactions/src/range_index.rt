//! An index of the ranges of a plan. It answers by halves whether a range overlaps one of them, and whether one of them
//! lies in a range.
//!
//! The ranges are in order of object and low end. Those that begin before the end of a range come first. Of these the
//! last one has the highest end up to it, which is after the start of the range if one of them overlaps it. In the same
//! way the first one that doesn't begin before a range has the least end from it on.

ghost use Rattle.std.specs.Prelude.{◌≡◌, ◌≤◌, IfOk, false, length, map, true};
ghost use Rattle.std.specs.List.{list_any};
ghost use Rattle.std.specs.List.Sorted.{IsPermutation, IsPartitionPoint};
ghost use Rattle.base.specs.history.Plans.{lies_in, number_range, overlaps};
ghost use Rattle.transactions.specs.LockRanges.{shape_range};
ghost use Rattle.transactions.specs.Ranges.{kept_range_of};
ghost use Rattle.transactions.specs.RangeIndexes as words;
ghost use Rattle.transactions.specs.RangeIndexes.{AreHighest, AreInOrder, AreLeast, high_of};

use crate::plan::range_of;
use base::{ObjectId, ObjectRange, Shape};
use std::alloc::{AllocError, Global};
use std::marker::Model;

/// The ranges of a plan, for searches by halves. Contracts see the ranges, in some order.
#[derive(Drop)]
pub(crate) struct RangeIndex {
    /// In order of object, and then of low end.
    ranges: Vec<ObjectRange>,
    /// For each range the highest end of the ranges of its object up to it.
    highest: Vec<u64>,
    /// For each range the least end of the ranges of its object from it on.
    least: Vec<u64>,
}

impl Model for RangeIndex {
    ghost use Rattle.std.specs.Prelude.{List};
    ghost use Rattle.base.specs.declared.range.ObjectRange.{ObjectRange};
    ghost use Rattle.transactions.specs.RangeIndexes.{IsIndex};

    ghost Value = { List ObjectRange };

    ghost view = { λ i. i.ranges.items };

    ghost invariant = { λ i. IsIndex i.ranges.items i.highest.items i.least.items };
}

impl RangeIndex {
    /// The index of a plan's ranges. It costs a sort of them.
    ///
    /// # Errors
    /// `AllocError` if there is no memory for it.
    pub(crate) fn new(alloc: Global, plan: &[Shape]) -> Result<Self, AllocError>
        ensures { IfOk result (λ index. IsPermutation (map shape_range plan.now) index) }
    {
        let ranges = sorted_ranges(alloc, plan)?;
        let highest = highest_ends(alloc, &ranges)?;
        let least = least_ends(alloc, &ranges)?;
        Ok(RangeIndex {
            ranges,
            highest,
            least,
        })
    }

    /// Whether a range overlaps one of the plan's.
    fn overlaps(&self, range: &ObjectRange) -> bool
        ensures { result
            ≡ list_any (λ x. overlaps (number_range range.now) (number_range x)) self.now }
    {
        let begun = count_before(&self.ranges, range.object, range.range.high);
        match begun.checked_sub(1) {
            Some(last) => self.ranges[last].object.0 == range.object.0
                && range.range.low < self.highest[last],
            None => false,
        }
    }

    /// Whether a range of another plan overlaps one of the plan's.
    pub(crate) fn overlaps_any(&self, other: &[Shape]) -> bool
        ensures { result ≡ list_any
            (λ s. list_any (λ x. overlaps (kept_range_of s) (number_range x)) self.now) other.now }
    {
        other.iter().any(|shape| self.overlaps(&range_of(shape)))
    }

    /// Whether one of the plan's ranges lies in this one.
    pub(crate) fn has_within(&self, range: &ObjectRange) -> bool
        ensures { result
            ≡ list_any (λ x. lies_in (number_range x) (number_range range.now)) self.now }
    {
        let first = count_before(&self.ranges, range.object, range.range.low);
        first < self.ranges.len()
            && (self.ranges[first].object.0 == range.object.0
                && self.least[first] <= range.range.high)
    }
}

/// The ranges of a plan, in order of object and low end.
pub(crate) fn sorted_ranges(alloc: Global, plan: &[Shape]) -> Result<Vec<ObjectRange>, AllocError>
    ensures order { IfOk result (λ ranges. AreInOrder ranges.items) }
    ensures ranges { IfOk result
        (λ ranges. IsPermutation (map shape_range plan.now) ranges.items) }
{
    let mut ranges = ranges_of(alloc, plan)?;
    ranges.sort_unstable_by_key(|range| (range.object.0, range.range.low));
    Ok(ranges)
}

/// The ranges of a plan, one for each shape.
fn ranges_of(alloc: Global, plan: &[Shape]) -> Result<Vec<ObjectRange>, AllocError>
    ensures { IfOk result (λ ranges. ranges.items ≡ map shape_range plan.now) }
{
    plan.iter().map(|shape| range_of(shape)).collect(alloc)
}

/// For each range the highest end of the ranges of its object up to it.
fn highest_ends(alloc: Global, ranges: &[ObjectRange]) -> Result<Vec<u64>, AllocError>
    requires { AreInOrder ranges.now }
    ensures { IfOk result (λ ends. AreHighest ranges.now ends.items) }
{
    let mut ends = ends_of(alloc, ranges)?;
    raise_ends(ranges, ends.as_mut_slice());
    Ok(ends)
}

/// For each range the least end of the ranges of its object from it on.
fn least_ends(alloc: Global, ranges: &[ObjectRange]) -> Result<Vec<u64>, AllocError>
    requires { AreInOrder ranges.now }
    ensures { IfOk result (λ ends. AreLeast ranges.now ends.items) }
{
    let mut ends = ends_of(alloc, ranges)?;
    lower_ends(ranges, ends.as_mut_slice());
    Ok(ends)
}

/// The ends of the ranges.
fn ends_of(alloc: Global, ranges: &[ObjectRange]) -> Result<Vec<u64>, AllocError>
    ensures { IfOk result (λ ends. ends.items ≡ map high_of ranges.now) }
{
    ranges.iter().map(|range| range.range.high).collect(alloc)
}

/// Raises each end to the highest of those of its object before it.
fn raise_ends(ranges: &[ObjectRange], ends: &mut [u64])
    requires order { AreInOrder ranges.now }
    requires ends { ends.old ≡ map high_of ranges.now }
    ensures { AreHighest ranges.now ends.new }
{
    for index in 1..ranges.len() {
        if ranges[index - 1].object.0 == ranges[index].object.0 {
            ends[index] = ends[index].max(ends[index - 1]);
        }
    }
}

/// Lowers each end to the least of those of its object after it.
fn lower_ends(ranges: &[ObjectRange], ends: &mut [u64])
    requires order { AreInOrder ranges.now }
    requires ends { ends.old ≡ map high_of ranges.now }
    ensures { AreLeast ranges.now ends.new }
{
    for index in (1..ranges.len()).rev() {
        if ranges[index - 1].object.0 == ranges[index].object.0 {
            ends[index - 1] = ends[index - 1].min(ends[index]);
        }
    }
}

/// How many of the ranges begin before a place of an object, by object and then by low end.
fn count_before(ranges: &[ObjectRange], object: ObjectId, place: u64) -> usize
    requires { AreInOrder ranges.now }
    ensures within { result ≤ length ranges.now }
    ensures point { IsPartitionPoint
        (λ x. words.begins_before object.0 place x ≡ true)
        (λ x. words.begins_before object.0 place x ≡ false) ranges.now result }
{
    ranges.partition_point(|range| begins_before(range, object, place))
}

fn begins_before(range: &ObjectRange, object: ObjectId, place: u64) -> bool
    ensures { result ≡ words.begins_before object.0 place range.now }
{
    range.object.0 < object.0 || (range.object.0 == object.0 && range.range.low < place)
}
