//! A number that a command was given outside its limits.

use base::{GREATEST_DIRTY_MAX, LEAST_DIRTY_MAX, MAX_LENGTH, OBJECT_COUNT};
use import_replay::GREATEST_SHARED_CACHE_BLOCKS;
use std::fmt;

/// A number that a command was given outside its limits. As text it is the number and its limits.
#[derive(Clone, Copy)]
pub enum BadNumber {
    /// The number of an object.
    Object(u32),
    /// The first byte of an object that is read or written.
    Offset(u64),
    /// A length of no byte.
    NoLength,
    /// The end of the bytes that are written.
    End(u64),
    /// More bytes of an input than an object may have.
    LongInput,
    /// A dirty limit.
    DirtyLimit(u64),
    /// The most tree blocks that stay in memory.
    CacheBlocks(u64),
}

impl BadNumber {
    ghost use Rattle.std.specs.Prelude.{◌≡◌, ◌≤◌, ◌<◌, None, Some, false, true};
    ghost use Rattle.base.specs.formats.Limits.{object_count};
    ghost use Rattle.base.specs.kept.Imports.{is_dirty_max_allowed};
    ghost use Rattle.read_commands.specs.declared.bad_number.BadNumber.TheVariants as number;

    /// The number of an object, if there is none of it.
    pub fn of_object(object: u32) -> Option<BadNumber>
        ensures outside { object_count ≤ object → result ≡ Some (number.Object object) }
        ensures within { object < object_count → result ≡ None }
    {
        if object >= OBJECT_COUNT {
            Some(BadNumber::Object(object))
        } else {
            None
        }
    }

    /// Of the limits with which a pool is opened the first that no pool may have.
    pub fn of_limits(dirty_max: u64, cache_blocks: u64) -> Option<BadNumber>
        ensures dirty { is_dirty_max_allowed dirty_max ≡ false
            → result ≡ Some (number.DirtyLimit dirty_max) }
        ensures none { is_dirty_max_allowed dirty_max ≡ true → cache_blocks ≡ 0
            → result ≡ Some (number.CacheBlocks cache_blocks) }
        ensures many { is_dirty_max_allowed dirty_max ≡ true → 262144 < cache_blocks
            → result ≡ Some (number.CacheBlocks cache_blocks) }
        ensures allowed { is_dirty_max_allowed dirty_max ≡ true → 0 < cache_blocks
            → cache_blocks ≤ 262144 → result ≡ None }
    {
        if dirty_max < LEAST_DIRTY_MAX || GREATEST_DIRTY_MAX < dirty_max {
            Some(BadNumber::DirtyLimit(dirty_max))
        } else if cache_blocks == 0 || GREATEST_SHARED_CACHE_BLOCKS < cache_blocks {
            Some(BadNumber::CacheBlocks(cache_blocks))
        } else {
            None
        }
    }
}

impl fmt::Display for BadNumber {
    fn fmt<W: fmt::Write>(&self, f: &mut fmt::Formatter<W>) -> fmt::Result {
        match self {
            BadNumber::Object(object) => {
                write!(f, "object {object}: numbers go to {}", OBJECT_COUNT - 1)
            }
            BadNumber::Offset(offset) => {
                write!(f, "offset {offset}: offsets go to {}", MAX_LENGTH - 1)
            }
            BadNumber::NoLength => write!(f, "length 0: 1 byte at least"),
            BadNumber::End(end) => {
                write!(
                    f,
                    "the bytes end at {end}: an object has at most {MAX_LENGTH}"
                )
            }
            BadNumber::LongInput => {
                write!(
                    f,
                    "the input has more bytes than an object may have: {MAX_LENGTH}"
                )
            }
            BadNumber::DirtyLimit(limit) => write!(
                f,
                "dirty limit {limit}: {LEAST_DIRTY_MAX} to {GREATEST_DIRTY_MAX} bytes"
            ),
            BadNumber::CacheBlocks(blocks) => {
                write!(
                    f,
                    "cache {blocks}: 1 to {GREATEST_SHARED_CACHE_BLOCKS} blocks"
                )
            }
        }
    }
}
