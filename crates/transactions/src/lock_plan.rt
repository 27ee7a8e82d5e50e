//! The ranges that a transaction has to lock.
//!
//! If each range of a plan has a byte, as in allowed plans, the order in which they are joined makes no difference. So
//! many of them are sorted, and each is joined with the next ones. Else they are joined one by one in the plan's order.

ghost use Rattle.std.specs.Prelude.{◌≡◌, ◌<◌, ◌+◌, ◌≤◌, IfOk, count_by, filter, length, not, vec_capacity, vec_len};
ghost use Rattle.std.specs.List.{list_all};
ghost use Rattle.transactions.specs.LockRanges as words;
ghost use Rattle.transactions.specs.LockRanges.{is_shared, joined, shape_range, with_range, with_shared};

use crate::plan::range_of;
use crate::range_index::sorted_ranges;
use base::{ObjectRange, Range, Shape};
use std::alloc::{AllocError, Global};

// Fewer ranges are joined one by one: a sort would take more memory and time.
const SORTED_FROM: usize = 16;

/// The ranges that a plan has to lock: those of its shapes, each joined with those that it overlaps, and put after
/// those that begin before it, by object and then by low end.
///
/// # Errors
/// `AllocError` if there is no memory for them.
pub fn lock_ranges(alloc: Global, plan: &[Shape]) -> Result<Vec<ObjectRange>, AllocError>
    ensures { IfOk result (λ ranges. ranges.items ≡ words.lock_ranges plan.now) }
{
    if plan.len() < SORTED_FROM || !have_bytes(plan) {
        return joined_in_turn(alloc, plan);
    }
    let sorted = sorted_ranges(alloc, plan)?;
    joined_neighbours(alloc, &sorted)
}

// Whether each range of a plan has a byte, as those of allowed plans do.
fn have_bytes(plan: &[Shape]) -> bool
    ensures { result ≡ list_all (λ s. words.has_byte (shape_range s)) plan.now }
{
    plan.iter().all(|shape| has_byte(&range_of(shape)))
}

fn has_byte(range: &ObjectRange) -> bool
    ensures { result ≡ words.has_byte range.now }
{
    range.range.low < range.range.high
}

// Ranges in order, each joined with the next ones as long as it overlaps them.
fn joined_neighbours(alloc: Global, sorted: &[ObjectRange]) -> Result<Vec<ObjectRange>, AllocError>
    ensures { IfOk result (λ ranges. ranges.items ≡ words.joined_neighbours sorted.now) }
{
    let mut ranges = Vec::with_capacity(alloc, sorted.len())?;
    let Some((first, rest)) = sorted.split_first() else {
        return Ok(ranges);
    };
    let mut whole = *first;
    for range in rest {
        if range.overlaps(&whole) {
            whole = hull(whole, range);
        } else {
            ranges.push_reserved(whole);
            whole = *range;
        }
    }
    ranges.push_reserved(whole);
    Ok(ranges)
}

// The ranges of a plan, each joined with those before it.
fn joined_in_turn(alloc: Global, plan: &[Shape]) -> Result<Vec<ObjectRange>, AllocError>
    ensures { IfOk result (λ ranges. ranges.items ≡ words.lock_ranges plan.now) }
{
    let mut ranges = Vec::with_capacity(alloc, plan.len())?;
    for shape in plan {
        add_range(&mut ranges, range_of(shape));
    }
    Ok(ranges)
}

// Adds a range to ranges of which no two overlap. It takes no memory.
fn add_range(ranges: &mut Vec<ObjectRange>, range: ObjectRange)
    requires { vec_len ranges.old < vec_capacity ranges.old }
    ensures added { ranges.new.items ≡ with_range ranges.old.items range }
    ensures length { vec_len ranges.new ≤ vec_len ranges.old + 1 }
    ensures capacity { vec_capacity ranges.old ≤ vec_capacity ranges.new }
{
    let whole = joined(ranges, range);
    drop_overlapped(ranges, &range);
    let place = count_before(ranges, &whole);
    ranges.insert(place, whole).unwrap();
}

// Drops the ranges that this one overlaps.
fn drop_overlapped(ranges: &mut Vec<ObjectRange>, range: &ObjectRange)
    ensures apart { ranges.new.items ≡ filter (λ x. not (is_shared x range.now)) ranges.old.items }
    ensures length { vec_len ranges.new ≤ vec_len ranges.old }
    ensures capacity { vec_capacity ranges.new ≡ vec_capacity ranges.old }
{
    ranges.retain(|other| is_apart(other, range));
}

fn is_apart(range: &ObjectRange, other: &ObjectRange) -> bool
    ensures { result ≡ not (is_shared range.now other.now) }
{
    !range.overlaps(other)
}

// How many of the ranges begin before this one.
fn count_before(ranges: &[ObjectRange], range: &ObjectRange) -> usize
    ensures count { result ≡ count_by (λ x. words.is_before x range.now) ranges.now }
    ensures within { result ≤ length ranges.now }
{
    ranges
        .iter()
        .filter(|other| is_before(other, range))
        .count()
}

// Whether a range begins before another, by object and then by low end.
fn is_before(range: &ObjectRange, other: &ObjectRange) -> bool
    ensures { result ≡ words.is_before range.now other.now }
{
    range.object.0 < other.object.0
        || (range.object.0 == other.object.0 && range.range.low < other.range.low)
}

// A range with each of these that it overlaps.
fn joined(ranges: &[ObjectRange], range: ObjectRange) -> ObjectRange
    ensures { result ≡ words.joined range ranges.now }
{
    ranges
        .iter()
        .fold(range, |whole, other| with_shared(&range, whole, other))
}

// A range with this other one, if that overlaps the first.
fn with_shared(range: &ObjectRange, whole: ObjectRange, other: &ObjectRange) -> ObjectRange
    ensures { result ≡ words.with_shared range.now whole other.now }
{
    if other.overlaps(range) {
        hull(whole, other)
    } else {
        whole
    }
}

// The least range of the first one's object that has the bytes of both.
fn hull(whole: ObjectRange, other: &ObjectRange) -> ObjectRange
    ensures { result ≡ words.hull whole other.now }
{
    ObjectRange {
        object: whole.object,
        range: Range {
            low: whole.range.low.min(other.range.low),
            high: whole.range.high.max(other.range.high),
        },
    }
}
