//! The pointers of an object's strips, which contracts see and which don't stand in memory.

ghost use Rattle.std.specs.Prelude.{◌≡◌, ◌∷◌, []};
ghost use Rattle.tree_blocks.specs.Pointers.{payload_pointers};

use base::{Pointer, Told};
use std::marker::{Model, PhantomData};

/// What is told of strips of an object, by their indexes: of each the pointer to its indirect block, and the pointers
/// in that block. Of two of one strip the first counts. No value of it is made.
pub struct StripsView {
    of: PhantomData<u8>,
}

impl Model for StripsView {
    ghost use Rattle.std.specs.Prelude.{List, ℕ, []};
    ghost use Rattle.std.specs.Coded.{codes};
    ghost use Rattle.base.specs.declared.pointer.Pointer.{Pointer};

    ghost Value = { List (ℕ × (Pointer × List Pointer)) };

    ghost coded = { Prim.hlevel codes };

    ghost view = { λ _. [] };
}

/// No strips.
pub fn no_strips() -> Told<StripsView>
    ensures { result.value ≡ [] }
{
    Told::of(&0u8)
}

/// The strips, of which the one of this index has this pointer to its indirect block, and the pointers in this payload.
pub fn with_strip(
    strips: &Told<StripsView>,
    index: usize,
    indirect: Pointer,
    payload: &[u8],
) -> Told<StripsView>
    ensures { result.value ≡ (index, (indirect, payload_pointers payload.now)) ∷ strips.now.value }
{
    Told::of(&(strips, index, indirect, payload))
}
