//! What holds of sealed blocks: each function's contract is a law, and its body does nothing.

ghost use Rattle.checked_blocks.specs.Laws.{OpenedBlocksAreSealed, SealedBlocksOpen};

/// A block that is sealed opens if its own fields are expected, and gives its group and payload back.
pub fn sealed_blocks_open()
    ensures { SealedBlocksOpen }
{}

/// Bytes that open as expected are those of the sealed block of their fields: no others are accepted.
pub fn opened_blocks_are_sealed()
    ensures { OpenedBlocksAreSealed }
{}
