//! What the shape of an operation says of its record: whether it is within its limits, and how many bytes it takes.

ghost use Rattle.std.specs.Prelude.{◌≡◌, ◌+◌, ◌-◌, ◌^◌, ◌<◌, ◌≤◌, IfNone, IfSome, min, nat_le, nat_lt};
ghost use Rattle.base.specs.formats.Limits.{max_log_record};
ghost use Rattle.base.specs.formats.Records as records;
ghost use Rattle.base.specs.history.Plans as plans;

use base::{MAX_LENGTH, MAX_LOG_RECORD, MAX_NAME, OBJECT_COUNT, ONE_LEVEL_LENGTH, Shape};

/// The bytes of a log record before its operations: its length, group, ordinal and number of operations.
pub(crate) const RECORD_HEAD: u64 = 22;

/// Whether a shape is within its limits.
pub fn is_shape_allowed(shape: &Shape) -> bool
    ensures { result ≡ plans.is_shape_allowed shape.now }
{
    match shape {
        Shape::Create(object) | Shape::Remove(object) => object.0 < OBJECT_COUNT,
        Shape::Write(object, offset, count) => object.0 < OBJECT_COUNT
            && 0 < *count
            && ends_by(*offset, *count, MAX_LENGTH),
        Shape::SetLength(object, length) => object.0 < OBJECT_COUNT && *length <= MAX_LENGTH,
        Shape::SetName(count) => 0 < *count && *count <= MAX_NAME as u64,
    }
}

/// Whether a shape ends within the bytes that one level of indirect blocks holds.
#[tactic(auto, unfolding(base::specs::formats::Limits::one_level_length))]
pub(crate) fn is_one_level_shape(shape: &Shape) -> bool
    ensures { result ≡ records.is_one_level_shape shape.now }
{
    match shape {
        Shape::Write(_, offset, count) => ends_by(*offset, *count, ONE_LEVEL_LENGTH),
        Shape::SetLength(_, length) => *length <= ONE_LEVEL_LENGTH,
        Shape::Create(_) | Shape::Remove(_) | Shape::SetName(_) => true,
    }
}

/// Whether so many bytes at an offset end by this length.
fn ends_by(offset: u64, count: u64, length: u64) -> bool
    ensures { result ≡ nat_le (offset + count) length }
{
    count <= length && offset <= length - count
}

/// How many bytes the log record of a plan has: 22, and for each operation 5 (a create, a remove), 13 (a new length),
/// 17 and its bytes (a write), or 5 and its bytes (a name). `None` if these are above 65,536.
pub fn record_size(plan: &[Shape]) -> Option<u64>
    ensures size { IfSome result (λ size. size ≡ plans.log_record_size plan.now) }
    ensures small { IfSome result (λ size. size ≤ max_log_record) }
    ensures large { IfNone result (max_log_record < plans.log_record_size plan.now) }
{
    let mut size = RECORD_HEAD;
    for shape in plan {
        size = with_shape(size, shape)?;
    }
    Some(size)
}

/// Whether the log record of a plan would be longer than 65,536 bytes.
pub fn is_too_large(plan: &[Shape]) -> bool
    ensures { result ≡ nat_lt max_log_record (plans.log_record_size plan.now) }
{
    record_size(plan).is_none()
}

/// How many bytes a log record of so many bytes has with an operation of this shape more. `None` if these
/// are above 65,536.
pub(crate) fn with_shape(size: u64, shape: &Shape) -> Option<u64>
    ensures size { IfSome result (λ larger. larger ≡ size + plans.size_of_shape shape.now) }
    ensures small { IfSome result (λ larger. larger ≤ max_log_record) }
    ensures large { IfNone result (max_log_record < size + plans.size_of_shape shape.now) }
{
    let larger = size.saturating_add(size_of(shape));
    (larger <= MAX_LOG_RECORD).then_some(larger)
}

/// How many bytes a log record has for an operation of this shape. It stays within 64 bits.
fn size_of(shape: &Shape) -> u64
    ensures { result ≡ min (plans.size_of_shape shape.now) (2 ^ 64 - 1) }
{
    match shape {
        Shape::Create(_) | Shape::Remove(_) => 5,
        Shape::Write(_, _, count) => count.saturating_add(17),
        Shape::SetLength(_, _) => 13,
        Shape::SetName(count) => count.saturating_add(5),
    }
}
