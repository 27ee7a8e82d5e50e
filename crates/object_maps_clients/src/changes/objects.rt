//! What callers rest on of one object's changes: what stays of the object below, and which bytes are written.

ghost use Rattle.std.specs.Prelude.{◌≡◌, None, OnOk, Some};
ghost use Rattle.extents.specs.Objects.{written_in};

use extents::{Basis, ObjectPatch};
use std::alloc::{AllocError, Global};

// A second cut keeps no more of the object below than the first one did.
fn a_second_cut_keeps_no_more() {
    let basis = Basis::Cut {
        kept: 10,
        length: 50,
    };
    prove!(
        basis.after_cut(20)
            == Basis::Cut {
                kept: 10,
                length: 20
            }
    );
    prove!(basis.after_cut(5) == Basis::Cut { kept: 5, length: 5 });
}

// A write makes an object longer and never shorter.
fn a_write_makes_no_object_shorter() {
    prove!(Basis::Made(50).after_write(60) == Basis::Made(60));
    prove!(Basis::Made(50).after_write(40) == Basis::Made(50));
}

// An object has the length that the group set, and an absent one has none.
fn a_cut_object_has_its_own_length() {
    let cut = Basis::Cut { kept: 1, length: 3 };
    prove!(cut.length_over(Some(10)) == Some(3));
    prove!(cut.length_over(None).is_none());
    prove!(Basis::Grown(10).length_over(Some(4)) == Some(10));
    prove!(Basis::Gone.length_over(Some(4)).is_none());
}

// An object that the group has not changed has the bytes of the one below.
fn an_unchanged_object_has_no_written_byte(alloc: Global) -> ObjectPatch
    ensures { written_in result 5 ≡ None }
{
    let patch = ObjectPatch::new(alloc);
    prove!(patch.basis == Basis::Grown(0));
    patch
}

// An object that is created is empty, whatever was written before.
fn a_created_object_is_empty(patch: &mut ObjectPatch)
    ensures { written_in patch.new 0 ≡ None }
{
    patch.create();
    prove!(patch.basis == Basis::Made(0));
}

// One that is removed is gone.
fn a_removed_object_is_gone(patch: &mut ObjectPatch) {
    patch.remove();
    prove!(patch.basis == Basis::Gone);
}

// A cut forgets what was written after it, and keeps what was written before.
fn a_cut_forgets_the_bytes_after_it(patch: &mut ObjectPatch)
    ensures after { written_in patch.new 100 ≡ None }
    ensures before { written_in patch.new 99 ≡ written_in patch.old 99 }
{
    patch.set_length(100);
}

// A byte that is written is kept, and no other byte changes.
fn a_written_byte_is_kept(patch: &mut ObjectPatch) -> Result<(), AllocError>
    ensures here { OnOk result (written_in patch.new 5 ≡ Some 9) }
    ensures others { OnOk result (written_in patch.new 6 ≡ written_in patch.old 6) }
{
    patch.reserve_write(5, 1)?;
    patch.write(5, &[9]);
    Ok(())
}
