//! Whether a pool has room for a put, before its first byte is written.
//!
//! 1. A put needs a data block for each record of 4,032 bytes that it writes, an indirect block for each 84 of them, a
//!    top if the object has two levels then, a directory and the root. Its last sync takes all that is new while the
//!    directory and the root before it are still in use.
//! 2. It may use the blocks that are available as it begins, and those of its object that it replaces or frees: a sync
//!    gives them back. Nothing else gives blocks back meanwhile.
//! 3. So a put that needs more is refused at last in any case. It is refused before it has changed anything. One that
//!    needs no more may still be refused, as a transaction has to leave 16 blocks.

ghost use Rattle.std.specs.Prelude.{◌≡◌, ◌≤◌, ◌<◌, ◌+◌, ◌^◌, length};
ghost use Rattle.base.specs.formats.Limits.{max_length};
ghost use Rattle.commands.specs.PutRoom.{blocks_between, changed_blocks, freed_blocks, is_short, lacks_room, length_after, length_found, needed_blocks, parts_between, tops};
ghost use Rattle.commands.specs.Puts.{first_byte};

use crate::changes::{Start, first_byte};
use base::{MAX_LENGTH, ONE_LEVEL_LENGTH, PoolError, RECORD_SIZE};

/// The directory and the root.
const CHANGED_BLOCKS: u64 = 2;

/// Whether a put that starts so lacks room for these bytes: it needs more blocks than are available, and than the
/// object gives back that was found with this length, if it was.
pub(crate) fn lacks_room(
    start: Start,
    offset: Option<u64>,
    bytes: &[u8],
    found: Result<u64, PoolError>,
    available: u64,
) -> bool
    requires { first_byte offset + length bytes.now ≤ max_length }
    ensures { result ≡ lacks_room start offset bytes.now found available }
{
    let (at, size) = (first_byte(offset), bytes.len() as u64);
    is_short(start, at, size, length_found(found), available)
}

fn is_short(start: Start, at: u64, size: u64, found: u64, available: u64) -> bool
    requires end { at + size ≤ max_length }
    requires found { found ≤ max_length }
    ensures { result ≡ is_short start at size found available }
{
    let needed = needed_blocks(start, at, size, found);
    freed_blocks(start, at, at + size, found) < needed.saturating_sub(available)
}

// The length that an object was found to have, if it is there.
fn length_found(found: Result<u64, PoolError>) -> u64
    ensures value { result ≡ length_found found }
    ensures within { result ≤ max_length }
{
    match found {
        Ok(length) => length.min(MAX_LENGTH),
        Err(_) => 0,
    }
}

// The blocks that a put writes at least.
fn needed_blocks(start: Start, at: u64, size: u64, found: u64) -> u64
    requires end { at + size ≤ max_length }
    requires found { found ≤ max_length }
    ensures { result ≡ needed_blocks start at size found }
{
    if size == 0 {
        return changed_blocks(start);
    }
    let end = at + size;
    blocks_between(at, end) + tops(length_after(start, end, found)) + CHANGED_BLOCKS
}

// The blocks of its object that a put replaces or frees at most.
fn freed_blocks(start: Start, at: u64, end: u64, found: u64) -> u64
    requires end { end ≤ max_length }
    requires found { found ≤ max_length }
    ensures { result ≡ freed_blocks start at end found }
{
    match start {
        Start::Creates => 0,
        Start::Empties => blocks_between(0, found) + tops(found),
        Start::Keeps => blocks_between(at, end.min(found)) + tops(found),
    }
}

// The directory and the root, unless a put without bytes changes nothing.
fn changed_blocks(start: Start) -> u64
    ensures { result ≡ changed_blocks start }
{
    match start {
        Start::Creates | Start::Empties => CHANGED_BLOCKS,
        Start::Keeps => 0,
    }
}

// The length of the object once the bytes up to this end are put.
fn length_after(start: Start, end: u64, found: u64) -> u64
    ensures { result ≡ length_after start end found }
{
    match start {
        Start::Creates | Start::Empties => end,
        Start::Keeps => found.max(end),
    }
}

// The data blocks of the bytes from one place to another, and the indirect blocks above them.
#[tactic(auto, unfolding(base::specs::formats::Limits::one_level_length))]
fn blocks_between(low: u64, high: u64) -> u64
    requires { high ≤ max_length }
    ensures value { result ≡ blocks_between low high }
    ensures few { result < 2 ^ 32 }
{
    parts_between(RECORD_SIZE as u64, low, high) + parts_between(ONE_LEVEL_LENGTH, low, high)
}

// How many parts of this size hold bytes from one place on, below another.
fn parts_between(size: u64, low: u64, high: u64) -> u64
    requires some { 0 < size }
    requires small { size < 2 ^ 32 }
    requires within { high ≤ max_length }
    ensures value { result ≡ parts_between size low high }
    ensures few { result ≤ max_length + size }
{
    ((high + size - 1) / size).saturating_sub(low / size)
}

// The top of an object of two levels.
#[tactic(auto, unfolding(base::specs::formats::Limits::one_level_length))]
fn tops(length: u64) -> u64
    ensures value { result ≡ tops length }
    ensures few { result ≤ 1 }
{
    if length > ONE_LEVEL_LENGTH { 1 } else { 0 }
}
