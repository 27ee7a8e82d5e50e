//! The objects after a group, with the blocks of the records that its sync writes.
//!
//! A plan seals no data block itself, so its caller may seal them side by side before it.

ghost use Rattle.std.specs.Prelude.{◌≡◌, ◌<◌, ℕ, IfErr, IfOk};
ghost use Rattle.base.specs.declared.error.PoolError.TheVariants as error;
ghost use Rattle.base.specs.formats.Blocks.{IsBlock};
ghost use Rattle.base.specs.formats.Limits.{object_count, pointer_count};
ghost use Rattle.base.specs.tree.Places.{kind_of, number_of_place, record_of_strip, strip_number};
ghost use Rattle.base.specs.tree.Places.Place.{Data};
ghost use Rattle.tree_blocks.specs.Sources.{object_record};

use base::{Group, PoolError};
use checked_blocks::Block;
use tree_blocks::{ObjectSource, RecordPlace};

/// Objects of which the records that a plan writes are at hand, as blocks.
pub trait SealedSource: ObjectSource {
    /// That a record of an object is at hand.
    ghost has_record: { Self → ℕ → ℕ → Type 0 };

    /// The sealed data block of a record of an object, for a pool of this guid and for this group. The record has zeros
    /// after the object's end.
    ///
    /// # Errors
    /// `NoMemory`.
    fn sealed_record(&self, guid: u64, group: Group, place: RecordPlace) -> Result<Block, PoolError>
        requires id { place.id.0 < object_count }
        requires strip { place.strip < pointer_count }
        requires index { place.index < pointer_count }
        requires ready { has_record self.now place.id.0
            (record_of_strip place.strip place.index) }
        ensures block { IfOk result (λ block. IsBlock block
            (kind_of (Data (strip_number place.id.0 place.strip) place.index)) guid group.0
            (number_of_place (Data (strip_number place.id.0 place.strip) place.index))
            (object_record (Self.objects self.now) place.id.0
            (record_of_strip place.strip place.index))) }
        ensures refused { IfErr result (λ e. e ≡ error.NoMemory) };

    /// The check of that block, if it was sealed. A plan that knows the checks may seal what is above the records side
    /// by side too; what it makes doesn't depend on them.
    fn record_check(&self, guid: u64, group: Group, place: RecordPlace) -> Option<[u8; 32]>
        requires id { place.id.0 < object_count }
        requires strip { place.strip < pointer_count }
        requires index { place.index < pointer_count };
}
