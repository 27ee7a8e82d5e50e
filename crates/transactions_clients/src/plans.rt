//! What callers rest on of plans: their limits, what they touch and what they are charged.

ghost use Rattle.std.specs.Prelude.{◌≡◌, ◌∷◌, [], IfOk, None, Some, false, true};
ghost use Rattle.base.specs.history.Contents.{Contents, length_of};
ghost use Rattle.transactions.specs.Lengths.{TellsLengths};

use base::{ObjectId, ObjectRange, Op, Shape};
use records::{is_shape_allowed, is_too_large, record_size};
use std::alloc::{AllocError, Global};
use transactions::{
    charge, estimate, is_in_plan, is_plan_allowed, is_shrinking, lock_ranges, plans_overlap,
    range_of,
};

// A plan has a shape, and its writes end at the greatest length at most.
fn a_write_ends_at_the_greatest_length() {
    prove!(!is_plan_allowed(&[]));
    prove!(is_plan_allowed(&[Shape::Write(ObjectId(0), 28_449_784, 8)]));
    prove!(!is_plan_allowed(&[Shape::Write(ObjectId(0), 28_449_785, 8)]));
}

// A write of no byte is outside its limits, as an object is whose number is that of the name.
fn a_write_has_a_byte_of_an_object() {
    prove!(is_shape_allowed(&Shape::Write(ObjectId(5_291), 0, 1)));
    prove!(!is_shape_allowed(&Shape::Write(ObjectId(5_291), 0, 0)));
    prove!(!is_shape_allowed(&Shape::Write(ObjectId(5_292), 0, 1)));
}

// A record of 64 KiB is not too large, and one byte more is.
fn a_record_of_65537_bytes_is_too_large() {
    prove!(!is_too_large(&[Shape::Write(ObjectId(0), 0, 65_497)]));
    prove!(is_too_large(&[Shape::Write(ObjectId(0), 0, 65_498)]));
}

// The record of a create has 27 bytes, and a plan whose record is too large has no size.
fn a_record_of_a_create_has_27_bytes() -> Option<u64>
    ensures { result ≡ Some 27 }
{
    record_size(&[Shape::Create(ObjectId(1))])
}

fn a_record_of_65537_bytes_has_no_size() -> Option<u64>
    ensures { result ≡ None }
{
    record_size(&[Shape::Write(ObjectId(0), 0, 65_498)])
}

// A write touches its bytes and none after them.
fn a_write_touches_its_bytes() {
    let touched = range_of(&Shape::Write(ObjectId(7), 100, 20));
    prove!(touched.object.0 == 7);
    prove!(touched.range.low == 100);
    prove!(touched.range.high == 120);
}

// Two writes overlap if they have a byte in common.
fn writes_overlap_in_a_common_byte() {
    let plan = [Shape::Write(ObjectId(7), 0, 10)];
    prove!(plans_overlap(&plan, &[Shape::Write(ObjectId(7), 9, 1)]));
    prove!(!plans_overlap(&plan, &[Shape::Write(ObjectId(7), 10, 1)]));
    prove!(!plans_overlap(&plan, &[Shape::Write(ObjectId(8), 9, 1)]));
}

// Operations have to have each shape of the plan.
fn no_shape_of_a_plan_may_be_missing() {
    let ops = [Op::Create(ObjectId(7))];
    prove!(is_in_plan(&ops, &[Shape::Create(ObjectId(7))]));
    prove!(!is_in_plan(
        &ops,
        &[Shape::Create(ObjectId(7)), Shape::Create(ObjectId(8))]
    ));
}

// A write that touches two records below one indirect block is estimated at six blocks, and one whose two records lie
// below two indirect blocks at seven.
#[tactic(auto, unfolding(base::specs::formats::Limits::one_level_length))]
fn a_write_over_two_records_takes_six_blocks() {
    prove!(estimate(&[Shape::Write(ObjectId(0), 4_000, 64)]) == 6);
    prove!(charge(&[Shape::Write(ObjectId(0), 4_000, 64)]) == 24_576);
    prove!(estimate(&[Shape::Write(ObjectId(0), 338_684, 8)]) == 7);
}

// A new length is estimated at five blocks.
fn a_new_length_takes_five_blocks() {
    prove!(estimate(&[Shape::SetLength(ObjectId(0), 100)]) == 5);
}

// A plan that sets an object to a greater length does not shrink.
fn a_longer_object_does_not_shrink<F: Fn(ObjectId) -> Option<u64>>(lengths: &F) -> bool
    requires { F.IsAlwaysCallable lengths.now }
    ensures { (c : Contents) → TellsLengths (F.post lengths.now) c
        → length_of c 5 ≡ Some 100 → result ≡ false }
{
    is_shrinking(&[Shape::SetLength(ObjectId(5), 101)], lengths)
}

// One that cuts it shrinks.
fn a_cut_object_shrinks<F: Fn(ObjectId) -> Option<u64>>(lengths: &F) -> bool
    requires { F.IsAlwaysCallable lengths.now }
    ensures { (c : Contents) → TellsLengths (F.post lengths.now) c
        → length_of c 5 ≡ Some 100 → result ≡ true }
{
    is_shrinking(&[Shape::SetLength(ObjectId(5), 99)], lengths)
}

// Two writes that overlap are locked by one range, from the lower begin to the higher end.
fn writes_that_overlap_have_one_lock(alloc: Global) -> Result<Vec<ObjectRange>, AllocError>
    ensures { IfOk result (λ ranges. ranges.items ≡ record {
      object = record { 0 = 7 };
      range = record { low = 0; high = 30 };
    } ∷ []) }
{
    lock_ranges(
        alloc,
        &[
            Shape::Write(ObjectId(7), 10, 20),
            Shape::Write(ObjectId(7), 0, 15),
        ],
    )
}
