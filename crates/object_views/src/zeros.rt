//! Objects of zeros, of the lengths that the directories of a pool have. The records of a log are replayed on these if
//! no bytes of the objects are known.

ghost use Rattle.std.specs.Prelude.{◌≡◌, ℕ, None, get_or, vec_len};
ghost use Rattle.base.specs.formats.Limits.{object_count};
ghost use Rattle.tree_blocks.specs.Sources.{object_length};

use base::{OBJECT_COUNT, ObjectId, Told};
use std::alloc::{AllocError, Global};
use tree_blocks::{ObjectSource, ObjectsView, no_objects, with_object, zero_bytes};

// The length of each object, by the object's number. The objects are told.
#[derive(Drop)]
pub(crate) struct ZeroObjects {
    lengths: Vec<Option<u64>>,
    told: Told<ObjectsView>,
    ghost all_objects: { vec_len lengths ≡ object_count },
    ghost sized: { (n : ℕ) → get_or lengths.items n None ≡ object_length told.value n },
}

impl ZeroObjects {
    ghost use Rattle.std.specs.Prelude.{◌≡◌, ◌≢◌, ◌<◌, ℕ, IfOk, None, Some};
    ghost use Rattle.base.specs.formats.Limits.{object_count};
    ghost use Rattle.trees.specs.EntryLists.{AreRising};
    ghost use Rattle.object_views.specs.Zeros.{HasListedLengths, length_at};

    // The objects of these lengths, and no others.
    pub(crate) fn of(alloc: Global, objects: &[(ObjectId, u64)]) -> Result<Self, AllocError>
        requires { AreRising 0 objects.now object_count }
        ensures { IfOk result (HasListedLengths objects.now) }
    {
        let mut zeros = ZeroObjects::new(alloc)?;
        for object in objects {
            zeros.set(object.0, object.1);
        }
        Ok(zeros)
    }

    fn new(alloc: Global) -> Result<Self, AllocError>
        ensures { IfOk result (λ z. (n : ℕ) → length_at z n ≡ None) }
    {
        Ok(ZeroObjects {
            lengths: vec![in alloc; None; OBJECT_COUNT as usize]?,
            told: no_objects(),
        })
    }

    fn set(&mut self, object: ObjectId, length: u64)
        requires { object.0 < object_count }
        ensures length { length_at self.new object.0 ≡ Some length }
        ensures others { (n : ℕ) → n ≢ object.0 → length_at self.new n ≡ length_at self.old n }
    {
        let number = object.0 as usize;
        self.told = with_object(&self.told, number, &zero_bytes(length));
        self.lengths[number] = Some(length);
    }
}

impl ObjectSource for &ZeroObjects {
    ghost objects = { λ z. z.now.told.value };

    fn length(&self, id: ObjectId) -> Option<u64> {
        self.lengths.get(id.0 as usize).copied().unwrap_or(None)
    }
}
