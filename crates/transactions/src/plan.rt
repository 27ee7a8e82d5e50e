//! Plans of transactions: their limits, what they touch, and what they are charged (`dmu_tx.c`).

ghost use Rattle.std.specs.Prelude.{◌≡◌, ◌↔◌, ◌+◌, ◌<◌, ◌≤◌, IsTrue, map, true};
ghost use Rattle.std.specs.List.{list_all};
ghost use Rattle.base.specs.formats.Limits.{max_length, max_log_record};
ghost use Rattle.base.specs.history.Contents.{Contents};
ghost use Rattle.base.specs.history.Plans as plans;
ghost use Rattle.base.specs.history.Plans.{number_range, shape_of};
ghost use Rattle.base.specs.steps.Refusals.{is_same_plan};
ghost use Rattle.transactions.specs.Ranges.{has_kept_in, kept_range_of, kept_ranges_overlap, overlaps_kept};
ghost use Rattle.transactions.specs.Lengths.{TellsLengths};

use base::{
    BLOCK_SIZE, MAX_LENGTH, OBJECT_COUNT, ONE_LEVEL_LENGTH, ObjectId, ObjectRange, Op, RECORD_SIZE,
    Range, Shape,
};
use records::is_shape_allowed;

/// Whether a plan has a shape, and each is within its limits: an object below 5,292, bytes that end at 28,449,792 at
/// most (of a write at least one), a name of 1 to 64 bytes.
pub fn is_plan_allowed(plan: &[Shape]) -> bool
    ensures { result ≡ plans.is_plan_allowed plan.now }
{
    !plan.is_empty() && are_allowed(plan)
}

fn are_allowed(plan: &[Shape]) -> bool
    ensures { result ≡ list_all plans.is_shape_allowed plan.now }
{
    plan.iter().all(|shape| is_shape_allowed(shape))
}

/// The range that a shape touches: of a write its bytes, of every other the whole object, or of a name the whole range
/// of the number after the last object. The end of a write stays within 64 bits, which that of one within its limits
/// does.
pub fn range_of(shape: &Shape) -> ObjectRange
    ensures range { plans.is_shape_allowed shape.now ≡ true
        → number_range result ≡ plans.range_of shape.now }
    ensures kept { number_range result ≡ kept_range_of shape.now }
{
    match shape {
        Shape::Create(object) | Shape::Remove(object) | Shape::SetLength(object, _) => whole(
            *object,
        ),
        Shape::SetName(_) => whole(ObjectId(OBJECT_COUNT)),
        Shape::Write(object, offset, count) => ObjectRange {
            object: *object,
            range: Range {
                low: *offset,
                high: offset.saturating_add(*count),
            },
        },
    }
}

/// The whole range of an object, or of the name.
fn whole(object: ObjectId) -> ObjectRange
    ensures { number_range result ≡ plans.whole_range object.0 }
{
    ObjectRange {
        object,
        range: Range {
            low: 0,
            high: MAX_LENGTH,
        },
    }
}

/// Whether a range of a plan overlaps one of the other. Both plans should be allowed: else the ranges are those of
/// `range_of`. It takes no memory, and compares each shape of the one plan with each of the other. Where open
/// transactions are asked, `OpenTransactions::is_blocked` searches by halves.
pub fn plans_overlap(plan: &[Shape], other: &[Shape]) -> bool
    ensures overlap { plans.is_plan_allowed plan.now ≡ true
        → plans.is_plan_allowed other.now ≡ true
        → result ≡ plans.plans_overlap plan.now other.now }
    ensures kept { result ≡ kept_ranges_overlap plan.now other.now }
{
    ranges_overlap(plan, other)
}

/// Whether a range of a plan overlaps one of the other.
pub(crate) fn ranges_overlap(plan: &[Shape], other: &[Shape]) -> bool
    ensures { result ≡ kept_ranges_overlap plan.now other.now }
{
    plan.iter()
        .any(|shape| overlaps_any(&range_of(shape), other))
}

fn overlaps_any(range: &ObjectRange, plan: &[Shape]) -> bool
    ensures { result ≡ overlaps_kept (number_range range.now) plan.now }
{
    plan.iter().any(|shape| range.overlaps(&range_of(shape)))
}

/// Whether a range of a plan lies in this one.
pub(crate) fn has_range_in(plan: &[Shape], range: &ObjectRange) -> bool
    ensures { result ≡ has_kept_in (number_range range.now) plan.now }
{
    plan.iter().any(|shape| range_of(shape).lies_in(range))
}

/// Whether operations have a plan's shapes, one for one.
pub fn is_in_plan(ops: &[Op], plan: &[Shape]) -> bool
    ensures same { result ≡ is_same_plan (map shape_of ops.now) plan.now }
    ensures equal { IsTrue result ↔ (map shape_of ops.now ≡ plan.now) }
{
    have_shapes(ops, plan)
}

fn have_shapes(ops: &[Op], plan: &[Shape]) -> bool
    ensures { IsTrue result ↔ (map shape_of ops.now ≡ plan.now) }
{
    if ops.len() != plan.len() {
        return false;
    }
    for (index, op) in ops.iter().enumerate() {
        if op.shape() != plan[index] {
            return false;
        }
    }
    true
}

/// The most blocks that a sync takes for a plan: 2 for a create or a remove, 5 for a new length, 1 for a new name, and
/// for a write 3, the records that it touches and the indirect blocks above them.
pub fn estimate(plan: &[Shape]) -> u64
    requires allowed { plans.is_plan_allowed plan.now ≡ true }
    requires small { plans.log_record_size plan.now ≤ max_log_record }
    ensures { result ≡ plans.estimate_of plan.now }
{
    let mut blocks = 0;
    for shape in plan {
        blocks += estimate_of_shape(shape);
    }
    blocks
}

#[tactic(auto, unfolding(base::specs::formats::Limits::one_level_length))]
fn estimate_of_shape(shape: &Shape) -> u64
    requires { plans.is_shape_allowed shape.now ≡ true }
    ensures { result ≡ plans.estimate_of_shape shape.now }
{
    match shape {
        Shape::Create(_) | Shape::Remove(_) => 2,
        Shape::Write(_, offset, count) => records_touched(*offset, *count)
            + strips_touched(*offset, *count)
            + 3,
        Shape::SetLength(_, _) => 5,
        Shape::SetName(_) => 1,
    }
}

/// How many records of an object so many bytes at an offset touch.
fn records_touched(offset: u64, count: u64) -> u64
    requires some { 0 < count }
    requires within { offset + count ≤ max_length }
    ensures { result ≡ plans.records_touched offset count }
{
    let size = RECORD_SIZE as u64;
    (offset + count - 1) / size - offset / size + 1
}

/// How many indirect blocks lie above these records, in an object of two levels.
#[tactic(auto, unfolding(base::specs::formats::Limits::one_level_length))]
fn strips_touched(offset: u64, count: u64) -> u64
    requires some { 0 < count }
    requires within { offset + count ≤ max_length }
    ensures { result ≡ plans.strips_touched offset count }
{
    (offset + count - 1) / ONE_LEVEL_LENGTH - offset / ONE_LEVEL_LENGTH + 1
}

/// The bytes that a plan is charged: those of its estimate's blocks.
pub fn charge(plan: &[Shape]) -> u64
    requires allowed { plans.is_plan_allowed plan.now ≡ true }
    requires small { plans.log_record_size plan.now ≤ max_log_record }
    ensures { result ≡ plans.charge_of plan.now }
{
    BLOCK_SIZE as u64 * estimate(plan)
}

/// Whether a plan only removes objects and sets the lengths of present ones to no more than they have. The caller gives
/// the length of each object, and `None` for one that is absent.
pub fn is_shrinking<F: Fn(ObjectId) -> Option<u64>>(plan: &[Shape], lengths: &F) -> bool
    requires { F.IsAlwaysCallable lengths.now }
    ensures { (c : Contents) → TellsLengths (F.post lengths.now) c
        → result ≡ plans.is_shrinking c plan.now }
{
    for shape in plan {
        if !is_shape_shrinking(shape, lengths) {
            return false;
        }
    }
    true
}

fn is_shape_shrinking<F: Fn(ObjectId) -> Option<u64>>(shape: &Shape, lengths: &F) -> bool
    requires { F.IsAlwaysCallable lengths.now }
    ensures { (c : Contents) → TellsLengths (F.post lengths.now) c
        → result ≡ plans.is_shape_shrinking c shape.now }
{
    match shape {
        Shape::Remove(_) => true,
        Shape::SetLength(object, new) => match lengths(*object) {
            Some(old) => *new <= old,
            None => false,
        },
        Shape::Create(_) | Shape::Write(_, _, _) | Shape::SetName(_) => false,
    }
}
