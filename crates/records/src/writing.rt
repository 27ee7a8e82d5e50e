//! The fields of a record as bytes, after those that a list of bytes has. The caller has taken their room.

ghost use Rattle.std.specs.Prelude.{◌≡◌, ◌+◌, ◌≤◌, ◌++◌, ◌∷◌, length, map, sum_by};
ghost use Rattle.std.specs.List.{flat_map};
ghost use Rattle.std.specs.Int.{to_le_bytes, w32};
ghost use Rattle.base.specs.formats.Limits.{max_log_record};
ghost use Rattle.base.specs.formats.Records.{bytes_of_record, op_bytes, size_of};
ghost use Rattle.base.specs.history.Plans.{shape_of, size_of_shape};
ghost use Rattle.records.specs.Records.{record_fields};
ghost use Rattle.records.specs.Writing.{AppendsBytes, HasRoomFor};

use crate::record::Record;
use base::{ObjectId, Op};

/// AppendsBytes a record of so many bytes.
pub(crate) fn write_record(out: &mut Vec<u8>, committed: &Record, size: u32)
    requires size { size ≡ size_of (record_fields committed.now) }
    requires small { size ≤ max_log_record }
    requires room { HasRoomFor out.old size }
    ensures { AppendsBytes out.old out.new (bytes_of_record (record_fields committed.now)) }
{
    let ops = committed.ops.as_slice();
    write_bytes(out, &size.to_le_bytes());
    write_bytes(out, &committed.group.0.to_le_bytes());
    write_bytes(out, &committed.ordinal.0.to_le_bytes());
    write_bytes(out, &(ops.len() as u16).to_le_bytes());
    write_ops(out, ops);
}

/// AppendsBytes operations.
fn write_ops(out: &mut Vec<u8>, ops: &[Op])
    requires small { sum_by size_of_shape (map shape_of ops.now) ≤ max_log_record }
    requires room { HasRoomFor out.old (sum_by size_of_shape (map shape_of ops.now)) }
    ensures { AppendsBytes out.old out.new (flat_map op_bytes ops.now) }
{
    for op in ops {
        write_op(out, op);
    }
}

/// AppendsBytes an operation.
fn write_op(out: &mut Vec<u8>, op: &Op)
    requires small { size_of_shape (shape_of op.now) ≤ max_log_record }
    requires room { HasRoomFor out.old (size_of_shape (shape_of op.now)) }
    ensures { AppendsBytes out.old out.new (op_bytes op.now) }
{
    match op {
        Op::Create(object) => write_object(out, 1, *object),
        Op::Remove(object) => write_object(out, 2, *object),
        Op::Write(object, offset, content) => {
            write_object(out, 3, *object);
            write_bytes(out, &offset.to_le_bytes());
            write_string(out, content.as_slice());
        }
        Op::SetLength(object, length) => {
            write_object(out, 4, *object);
            write_bytes(out, &length.to_le_bytes());
        }
        Op::SetName(name) => {
            write_bytes(out, &[5]);
            write_string(out, name.as_slice());
        }
    }
}

/// AppendsBytes the tag of an operation and the object's number.
fn write_object(out: &mut Vec<u8>, tag: u8, object: ObjectId)
    requires { HasRoomFor out.old 5 }
    ensures { AppendsBytes out.old out.new (tag ∷ to_le_bytes w32 object.0) }
{
    write_bytes(out, &[tag]);
    write_bytes(out, &object.0.to_le_bytes());
}

/// Appends bytes after their number.
fn write_string(out: &mut Vec<u8>, content: &[u8])
    requires small { length content.now ≤ max_log_record }
    requires room { HasRoomFor out.old (4 + length content.now) }
    ensures { AppendsBytes out.old out.new (to_le_bytes w32 (length content.now) ++ content.now) }
{
    write_bytes(out, &(content.len() as u32).to_le_bytes());
    write_bytes(out, content);
}

/// AppendsBytes these bytes.
fn write_bytes(out: &mut Vec<u8>, bytes: &[u8])
    requires { HasRoomFor out.old (length bytes.now) }
    ensures { AppendsBytes out.old out.new bytes.now }
{
    out.extend_from_slice(bytes).unwrap();
}
