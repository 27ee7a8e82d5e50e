//! What callers rest on of strips: their numbers, what is told of them, and the reads of a top.

ghost use Rattle.std.specs.Prelude.{◌≡◌, ◌∷◌, ◌≢◌, ◌≤◌, ℕ, List, [], IfErr, IfOk, IsTrue, OnOk, length};
ghost use Rattle.base.specs.declared.error.PoolError.TheVariants as error;
ghost use Rattle.base.specs.declared.pointer.Pointer.{Pointer};
ghost use Rattle.base.specs.disk.Disk.{bytes_of};
ghost use Rattle.base.specs.formats.Fields.{no_pointer, pointer_in};
ghost use Rattle.base.specs.formats.Geometry.{block_address};
ghost use Rattle.base.specs.formats.Limits.{payload_size};
ghost use Rattle.base.specs.tree.Places.{Place};
ghost use Rattle.base.specs.tree.Places.Place.{Indirect};
ghost use Rattle.object_maps.specs.Cached.{HoldsTop};
ghost use Rattle.tree_blocks.specs.Pointers.{strip_in};

use base::{Pointer, PoolError, Told};
use checked_blocks::Frame;
use object_maps::{BlockReader, read_top, strip_pointer};
use tree_blocks::{BytesView, no_bytes, with_bytes, zero_bytes};

// Bytes that are told at a place stand there.
fn a_byte_is_told_in_its_place() -> Told<BytesView>
    ensures { result.value ≡ 0 ∷ 5 ∷ 0 ∷ [] }
{
    with_bytes(&zero_bytes(3), 1, &[5])
}

// Bytes that are told where there were none are all that there are.
fn no_byte_is_told_before_the_first() -> Told<BytesView>
    ensures { result.value ≡ 5 ∷ [] }
{
    with_bytes(&no_bytes(), 0, &[5])
}

// The payload of a top has the pointer of each strip.
fn a_top_has_the_pointer_of_a_strip<B: BlockReader>(
    reader: &mut B,
    frame: &Frame,
    top: &Pointer,
    payload: &mut [u8],
) -> Result<(), PoolError>
    requires fits { block_address frame.now.blocks ≤ B.size reader.old }
    requires size { length payload.old ≡ payload_size }
    ensures { IsTrue B.keeps_model → (pointers : Place → Pointer) (bytes : List ℕ)
        → HoldsTop (bytes_of (B.disk reader.old).now) frame.now 7 top.now pointers bytes
        → OnOk result (pointer_in payload.new 1 ≡ pointers (Indirect 5299)) }
{
    read_top(reader, frame, 7, top, payload)
}

// An object of 338,689 bytes has two strips. A pointer to a third one is damage, told with the address that it names.
fn a_strip_past_the_end_is_damage(frame: &Frame, payload: &[u8]) -> Result<Pointer, PoolError>
    requires size { length payload.now ≡ payload_size }
    requires there { pointer_in payload.now 2 ≢ no_pointer }
    ensures refused { IfOk result (λ _. ⊥) }
    ensures named { IfErr result
        (λ e. e ≡ error.Damaged 4 (pointer_in payload.now 2).address) }
{
    strip_pointer(frame, payload, 2, 338_689)
}
