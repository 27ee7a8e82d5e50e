//! What callers rest on: one function for each promise of this crate's calls, proved from the contract of the call
//! alone. So it is refused as soon as that contract says less.

ghost use Rattle.std.specs.Prelude.{◌≡◌, ◌∷◌, [], IfOk, IfSome, IsErrOf, IsTrue, codes, length, vec_len};
ghost use Rattle.base.specs.declared.operation.Op.TheVariants as op;
ghost use Rattle.base.specs.declared.operation.Shape.TheVariants as shape;

use crate::bytes::Bytes;
use crate::error::PoolError;
use crate::field_laws::pointers_read_back;
use crate::fields::{
    are_all, are_zeros, read_pointer, read_u64, write_bytes, write_pointer, write_u64,
};
use crate::levels::has_two_levels;
use crate::limits::{
    DEFAULT_CACHE_BLOCKS, DEFAULT_DIRTY_MAX, GREATEST_CACHE_BLOCKS, GREATEST_DIRTY_MAX,
    LEAST_DIRTY_MAX,
};
use crate::lists::{Ops, Plan};
use crate::names::ObjectId;
use crate::operation::{Op, Shape};
use crate::pointer::Pointer;
use crate::pool_name::{PoolName, is_name};
use crate::range::{Mode, ObjectRange, Range};
use crate::refused::RefusedCalls;
use crate::version::Version;
use std::alloc::{AllocError, AllocFailed, Global};

// The low byte of a number stands first.
#[tactic(auto, unfolding(crate::specs::formats::Fields::number_bytes))]
fn a_number_is_written_low_byte_first_at_its_place() -> [u8; 12]
    ensures { result
        ≡ 9 ∷ 9 ∷ 1 ∷ 2 ∷ 0 ∷ 0 ∷ 0 ∷ 0 ∷ 0 ∷ 0 ∷ 9 ∷ 9 ∷ [] }
{
    let mut bytes = [9; 12];
    write_u64(&mut bytes, 2, 513);
    bytes
}

#[tactic(auto, unfolding(crate::specs::formats::Fields::number_at))]
fn a_number_is_read_low_byte_first_from_its_place() -> u64
    ensures { result ≡ 513 }
{
    let bytes = [9, 9, 1, 2, 0, 0, 0, 0, 0, 0, 9, 9];
    read_u64(&bytes, 2)
}

// Only the bytes at the place change.
fn bytes_are_written_at_their_place_alone() -> [u8; 4]
    ensures { result ≡ 0 ∷ 1 ∷ 2 ∷ 0 ∷ [] }
{
    let mut bytes = [0; 4];
    write_bytes(&mut bytes, 1, &[1, 2]);
    bytes
}

fn a_written_pointer_reads_back(bytes: &mut [u8], pointer: Pointer) -> Pointer
    requires { length bytes.old ≡ 64 }
    ensures { result ≡ pointer }
{
    pointers_read_back();
    write_pointer(bytes, 16, &pointer);
    read_pointer(bytes, 16)
}

fn only_zeros_are_zeros() {
    let zeros = are_zeros(&[0, 0, 0]);
    let one = are_zeros(&[0, 1, 0]);
    prove!(zeros && !one);
    let nines = are_all(&[9, 9], 9);
    let another = are_all(&[9, 8], 9);
    prove!(nines && !another);
}

fn a_pointer_with_a_birth_is_no_empty_one() {
    let pointer = Pointer {
        address: 0,
        birth: 4,
        check: [0; 32],
    };
    let is_none = pointer.is_none();
    let none = Pointer::NONE.is_none();
    prove!(none && !is_none);
}

fn a_name_is_shown_as_it_was_made() -> Option<PoolName>
    ensures { IfSome result (λ name. name ≡ 116 ∷ 97 ∷ 110 ∷ 107 ∷ []) }
{
    PoolName::new(b"tank")
}

fn no_name_begins_with_a_digit() {
    let digit = is_name(b"1tank");
    let letter = is_name(b"tank1");
    let name = PoolName::new(b"1tank");
    prove!(!digit && letter);
    prove!(name.is_none());
}

fn tank_is_a_name() {
    let name = PoolName::new(b"tank");
    prove!(name.is_some());
}

// The bytes that are shown end with the name.
fn a_name_of_four_bytes_shows_four(name: &PoolName) -> usize
    requires { length name.now ≡ 4 }
    ensures { result ≡ 4 }
{
    let copy = name.copy();
    copy.as_slice().len()
}

fn the_text_of_tank_is_its_four_letters() -> bool
    ensures { IsTrue result }
{
    PoolName::new(b"tank").map_or(true, |name| name.as_str() == "tank")
}

fn not_ready_has_number_20() -> u8
    ensures { result ≡ 20 }
{
    PoolError::NotReady.number()
}

fn not_ready_is_named_so() -> &'static str
    ensures { result.now ≡ codes "NotReady" }
{
    PoolError::NotReady.name()
}

fn want_of_memory_is_no_memory(error: AllocError) {
    let refusal = PoolError::from(error);
    prove!(refusal == PoolError::NoMemory);
}

fn a_value_that_is_handed_back_is_no_memory(failed: AllocFailed<u64>) {
    let refusal = PoolError::from(failed);
    prove!(refusal == PoolError::NoMemory);
}

// A call that gives back what it took, refused.
fn taken(device: u64) -> Result<u64, (PoolError, u64)>
    ensures { IsErrOf result (PoolError.NoPool, device) }
{
    Err((PoolError::NoPool, device))
}

fn a_refusal_beside_what_is_given_back_is_passed_on(device: u64) -> Result<u64, PoolError>
    ensures { IsErrOf result PoolError.NoPool }
{
    let device = taken(device)?;
    Ok(device)
}

fn a_refused_write_counts_as_a_write_alone() {
    let mut calls = RefusedCalls::NONE;
    calls.count(PoolError::Write);
    prove!(calls.writes == 1);
    prove!(calls.reads == 0 && calls.flushes == 0);
}

fn no_version_has_number_7() {
    let version = Version::from_number(7);
    prove!(version.is_none());
}

fn version_one_has_number_1() {
    let version = Version::from_number(1);
    prove!(version == Some(Version::One));
    let number = Version::One.number();
    prove!(number == 1);
}

// The shape of a write has the number of its bytes.
fn a_shape_of_a_write_has_its_length(bytes: Bytes) -> Shape
    requires { length bytes ≡ 5 }
    ensures { result ≡ shape.Write (record { 0 = 3 }) 10 5 }
{
    let op = Op::Write(ObjectId(3), 10, bytes);
    op.shape()
}

fn a_plan_of_operations_has_the_shape_of_each(alloc: Global, ops: &Ops) -> Result<Plan, AllocError>
    requires { ops.now ≡ op.Create (record { 0 = 3 }) ∷ op.Remove (record { 0 = 4 }) ∷ [] }
    ensures { IfOk result
        (λ plan. plan ≡ shape.Create (record { 0 = 3 }) ∷ shape.Remove (record { 0 = 4 }) ∷ []) }
{
    Plan::of(alloc, ops)
}

fn a_plan_shows_its_shapes_and_gives_them_back(shapes: Vec<Shape>) -> Vec<Shape>
    requires { vec_len shapes ≡ 2 }
    ensures { result.items ≡ shapes.items }
{
    let plan = Plan::new(shapes);
    let count = plan.as_slice().len();
    prove!(count == 2);
    plan.into_vec()
}

fn a_copy_of_a_plan_has_its_shapes(alloc: Global, plan: &Plan) -> Result<Plan, AllocError>
    requires { plan.now ≡ shape.Create (record { 0 = 3 }) ∷ [] }
    ensures { IfOk result (λ copy. copy ≡ shape.Create (record { 0 = 3 }) ∷ []) }
{
    plan.try_clone(alloc)
}

fn operations_are_shown_and_given_back(items: Vec<Op>) -> Vec<Op>
    requires { vec_len items ≡ 2 }
    ensures { result.items ≡ items.items }
{
    let ops = Ops::new(items);
    let count = ops.as_slice().len();
    prove!(count == 2);
    ops.into_vec()
}

fn ranges_that_meet_do_not_overlap() {
    let low = ObjectRange {
        object: ObjectId(3),
        range: Range { low: 0, high: 10 },
    };
    let high = ObjectRange {
        object: ObjectId(3),
        range: Range { low: 10, high: 20 },
    };
    let over = ObjectRange {
        object: ObjectId(3),
        range: Range { low: 9, high: 20 },
    };
    let meeting = low.overlaps(&high);
    let common = low.overlaps(&over);
    let inside = high.lies_in(&over);
    let outside = over.lies_in(&high);
    prove!(common && !meeting);
    prove!(inside && !outside);
}

fn a_range_is_not_empty_and_ends_by_28449792() {
    let empty = Range { low: 5, high: 5 }.is_allowed();
    let last = Range {
        low: 0,
        high: 28_449_792,
    }
    .is_allowed();
    let past = Range {
        low: 0,
        high: 28_449_793,
    }
    .is_allowed();
    prove!(last && !empty && !past);
}

#[tactic(auto, unfolding(crate::specs::formats::Limits::one_level_length))]
fn an_object_of_338689_bytes_has_two_levels() {
    let longest = has_two_levels(338_688);
    let longer = has_two_levels(338_689);
    prove!(longer && !longest);
}

// As Rust's ranges: the end is the first byte that isn't in it.
fn a_range_has_the_bytes_from_its_first_up_to_its_end() {
    let range = Range::new(3, 10);
    prove!(range.low == 3 && range.high == 10);
    prove!(range.len() == 7 && !range.is_empty());
    let backwards = Range::new(5, 4);
    prove!(backwards.len() == 0 && backwards.is_empty());
    let converted = Range::from(3..10);
    prove!(converted.low == 3 && converted.high == 10);
}

fn the_whole_of_an_object_is_an_allowed_range() {
    let allowed = Range::WHOLE.is_allowed();
    prove!(allowed);
}

fn the_default_limits_are_within_the_limits() {
    prove!(LEAST_DIRTY_MAX <= DEFAULT_DIRTY_MAX);
    prove!(DEFAULT_DIRTY_MAX <= GREATEST_DIRTY_MAX);
    prove!(DEFAULT_CACHE_BLOCKS <= GREATEST_CACHE_BLOCKS);
}

fn a_writer_is_no_reader() {
    let reader = Mode::Reader.is_reader();
    let writer = Mode::Writer.is_reader();
    prove!(reader && !writer);
}

fn bytes_are_given_back_as_they_were(items: Vec<u8>) -> Vec<u8>
    requires { vec_len items ≡ 3 }
    ensures { result.items ≡ items.items }
{
    let bytes = Bytes::new(items);
    let count = bytes.len();
    let empty = bytes.is_empty();
    let shown = bytes.as_slice().len();
    prove!(count == 3 && shown == 3 && !empty);
    bytes.into_vec()
}

fn bytes_are_those_of_the_slice(alloc: Global) -> Result<Bytes, AllocError>
    ensures { IfOk result (λ bytes. bytes ≡ 7 ∷ 8 ∷ []) }
{
    Bytes::from_slice(alloc, &[7, 8])
}
