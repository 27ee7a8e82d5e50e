//! The objects of a tree, which contracts see and which don't stand in memory.

ghost use Rattle.std.specs.Prelude.{◌≡◌};
ghost use Rattle.std.specs.FinMap as finite;

use crate::told_bytes::BytesView;
use base::Told;
use std::marker::{Model, PhantomData};

/// The bytes of the objects of a tree, by their numbers. No value of it is made.
pub struct ObjectsView {
    of: PhantomData<u8>,
}

impl Model for ObjectsView {
    ghost use Rattle.std.specs.Prelude.{List, ℕ};
    ghost use Rattle.std.specs.Coded.{coded_list, coded_ℕ};
    ghost use Rattle.std.specs.Ordering.{nat_cmp};
    ghost use Rattle.std.specs.FinMap as finite;
    ghost use Rattle.std.specs.FinMap.{FinMap};

    ghost Value = { FinMap nat_cmp (List ℕ) };

    ghost coded = { finite.code coded_ℕ (coded_list coded_ℕ) };

    ghost view = { λ _. finite.empty };
}

/// No objects.
pub fn no_objects() -> Told<ObjectsView>
    ensures { result.value ≡ finite.empty }
{
    Told::of(&0u8)
}

/// The objects with these bytes as the one of this number.
pub fn with_object(
    objects: &Told<ObjectsView>,
    number: usize,
    bytes: &Told<BytesView>,
) -> Told<ObjectsView>
    ensures { result.value ≡ finite.insert objects.now.value number bytes.now.value }
{
    Told::of(&(objects, number, bytes))
}
