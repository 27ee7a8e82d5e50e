//! What this crate's own calls rest on of bytes that a group wrote. The callers' promises are in
//! `object_maps_clients`.

ghost use Rattle.std.specs.Prelude.{◌≡◌, Some, true};
ghost use Rattle.extents.specs.Objects.{written_in};
ghost use Rattle.extents.specs.Records.{bytes_written};

use crate::object::ObjectPatch;
use crate::record::RecordPatch;

// A byte that was written into a record is covered.
fn a_written_byte_is_covered(record: &RecordPatch) -> bool
    requires { bytes_written record.now 5 ≡ Some 9 }
    ensures { result ≡ true }
{
    record.covers(5, 1)
}

// A byte that the group wrote into record 1 hides the one below.
fn a_written_byte_hides_the_one_below(object: &ObjectPatch) -> bool
    requires { written_in object.now 4037 ≡ Some 9 }
    ensures { result ≡ true }
{
    object.hides(1, 5, 1)
}
