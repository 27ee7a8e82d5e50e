//! How many levels of indirect blocks an object has, by its length alone.

ghost use Rattle.std.specs.Prelude.{◌≡◌, nat_lt};
ghost use Rattle.base.specs.formats.Limits.{one_level_length};

use crate::limits::ONE_LEVEL_LENGTH;

/// Whether an object of this length has two levels: it is longer than the records below one indirect block hold.
#[tactic(auto, unfolding(crate::specs::formats::Limits::one_level_length))]
pub fn has_two_levels(length: u64) -> bool
    ensures { result ≡ nat_lt one_level_length length }
{
    length > ONE_LEVEL_LENGTH
}
