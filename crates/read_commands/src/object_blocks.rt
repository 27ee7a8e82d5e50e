//! How many blocks an object may have, by its length. A part that was never written has none.

ghost use Rattle.std.specs.Prelude.{◌≡◌};
ghost use Rattle.read_commands.specs.ObjectBlocks.{most_blocks};

use base::{ONE_LEVEL_LENGTH, RECORD_SIZE, has_two_levels};

/// The most blocks that an object of so many bytes has: one for each 4,032 bytes of data, one for each 84 of these, and
/// a top if that makes more than one.
#[tactic(auto, unfolding(base::specs::formats::Limits::one_level_length))]
pub(crate) fn most_blocks(length: u64) -> u64
    ensures { result ≡ most_blocks length }
{
    let tops = if has_two_levels(length) { 1 } else { 0 };
    length.div_ceil(RECORD_SIZE as u64) + length.div_ceil(ONE_LEVEL_LENGTH) + tops
}
