//! What callers rest on of records: their bytes, and what is read of them.

ghost use Rattle.std.specs.Prelude.{◌≡◌, ◌++◌, ◌∷◌, [], IfOk, IfSome, IsOk, true};
ghost use Rattle.base.specs.declared.operation.Op.TheVariants as op;
ghost use Rattle.records.specs.Records.{Decodes};
ghost use Rattle.records.specs.Writing.{HasRoomFor};

use base::PoolError;
use records::{Record, decode_record, encode_into, encode_record, is_one_level};
use std::alloc::Global;

// A record has its length, its group, its ordinal and the number of its operations, and then these.
fn a_record_of_a_create_has_27_bytes(
    alloc: Global,
    committed: &Record,
) -> Result<Vec<u8>, PoolError>
    requires group { committed.now.group.0 ≡ 9 }
    requires ordinal { committed.now.ordinal.0 ≡ 5 }
    requires ops { committed.now.ops ≡ op.Create (record { 0 = 7 }) ∷ [] }
    ensures { IfOk result (λ bytes. bytes.items
        ≡ 27 ∷ 0 ∷ 0 ∷ 0
        ∷ 9 ∷ 0 ∷ 0 ∷ 0 ∷ 0 ∷ 0 ∷ 0 ∷ 0
        ∷ 5 ∷ 0 ∷ 0 ∷ 0 ∷ 0 ∷ 0 ∷ 0 ∷ 0
        ∷ 1 ∷ 0 ∷ 1 ∷ 7 ∷ 0 ∷ 0 ∷ 0 ∷ []) }
{
    encode_record(alloc, committed)
}

// If there is room for its 27 bytes, the record is appended without memory.
fn a_record_with_its_room_is_appended(
    out: &mut Vec<u8>,
    committed: &Record,
) -> Result<(), PoolError>
    requires group { committed.now.group.0 ≡ 9 }
    requires ordinal { committed.now.ordinal.0 ≡ 5 }
    requires ops { committed.now.ops ≡ op.Create (record { 0 = 7 }) ∷ [] }
    requires room { HasRoomFor out.old 27 }
    ensures { IsOk result }
{
    encode_into(out, committed)
}

// A new length of 338,688 bytes lies within one level, and one byte more does not.
#[tactic(auto, unfolding(base::specs::formats::Limits::one_level_length))]
fn a_length_of_338689_bytes_is_not_of_one_level(longest: &Record, longer: &Record) -> bool
    requires longest { longest.now.ops ≡ op.SetLength (record { 0 = 7 }) 338688 ∷ [] }
    requires longer { longer.now.ops ≡ op.SetLength (record { 0 = 7 }) 338689 ∷ [] }
    ensures { result ≡ true }
{
    is_one_level(longest) && !is_one_level(longer)
}

// These bytes are read as that record, and the byte after them comes back, unless memory runs out.
fn a_record_of_a_create_is_read(
    alloc: Global,
    bytes: &[u8],
) -> Result<Option<(Record, &[u8])>, PoolError>
    requires { bytes.now
        ≡ 27 ∷ 0 ∷ 0 ∷ 0
        ∷ 9 ∷ 0 ∷ 0 ∷ 0 ∷ 0 ∷ 0 ∷ 0 ∷ 0
        ∷ 5 ∷ 0 ∷ 0 ∷ 0 ∷ 0 ∷ 0 ∷ 0 ∷ 0
        ∷ 1 ∷ 0 ∷ 1 ∷ 7 ∷ 0 ∷ 0 ∷ 0 ∷ 99 ∷ [] }
    ensures { Decodes result (record {
      group = 9;
      ordinal = 5;
      ops = op.Create (record { 0 = 7 }) ∷ [];
    }) (99 ∷ []) }
{
    decode_record(alloc, bytes)
}

// A record that is read has one spelling: encoded again it has the same bytes.
fn a_record_read_has_these_bytes(
    alloc: Global,
    bytes: &[u8],
) -> Result<Option<(Vec<u8>, &[u8])>, PoolError>
    ensures { IfOk result (λ read. IfSome read
        (λ (again, rest). bytes.now ≡ again.items ++ rest.now)) }
{
    match decode_record(alloc, bytes)? {
        Some((committed, rest)) => Ok(Some((encode_record(alloc, &committed)?, rest))),
        None => Ok(None),
    }
}
