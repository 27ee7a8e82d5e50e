//! The fixed numbers of a pool.

use crate::version::Version;

/// The version whose rules each write follows.
pub const WRITTEN_VERSION: Version = Version::Two;

/// Objects have the numbers below this one. As the object of a lock it stands for the pool's name.
pub const OBJECT_COUNT: u32 = 5292;

/// The greatest length of an object in bytes, and the greatest end of a range.
pub const MAX_LENGTH: u64 = 28_449_792;

/// The greatest length of an object with one level of indirect blocks. The 84 records of one such block hold it.
pub const ONE_LEVEL_LENGTH: u64 = 338_688;

/// The bytes of a sector, the unit of each read and write of a device.
pub const SECTOR_SIZE: u64 = 512;

/// The bytes of a block: its header of 64, and 4,032 of payload.
pub const BLOCK_SIZE: usize = 4096;

/// The bytes of an object that one data block holds.
pub const RECORD_SIZE: usize = 4032;

/// The pointers of a block of pointers: to the records of a strip, to the indirect blocks of an object, or to the
/// directories of a root.
pub const POINTER_COUNT: usize = 84;

/// The objects of a directory.
pub const ENTRY_COUNT: usize = 63;

/// The bytes of a directory's entry.
pub const ENTRY_SIZE: usize = 64;

/// The greatest number of a group, an ordinal, an import, a log block, a transaction and a lock.
pub const LAST_NUMBER: u64 = 1 << 60;

/// The synced group of a pool that was just created.
pub const FIRST_GROUP: u64 = 4;

/// The most bytes of the log record of one transaction: 22, and for each operation 5 for a create or a remove, 13 for a
/// new length, 17 and its bytes for a write, 5 and its bytes for a name.
pub const MAX_LOG_RECORD: u64 = 65_536;

/// The most locks that may be held.
pub const MAX_LOCKS: usize = 256;

/// The most transactions that may be open.
pub const MAX_TRANSACTIONS: usize = 64;

/// The blocks that are kept back for plans that shrink: each other plan has to leave them.
pub const KEPT_BACK: u64 = 16;

/// The least limit of a pool's unsynced bytes that an import accepts.
pub const LEAST_DIRTY_MAX: u64 = 4096;

/// The greatest limit of a pool's unsynced bytes that an import accepts.
pub const GREATEST_DIRTY_MAX: u64 = 1_099_511_627_776;

/// A dirty limit that serves most pools: the most bytes that the transactions of unsynced groups may be charged, 4 MiB.
///
/// A create is charged 8,192 bytes. A write is charged 12,288, and 4,096 more for each piece of 4,032 bytes, and of
/// 338,688 bytes, that it touches. So 146 transactions with a create and a short write are admitted. Further ones are
/// refused `Throttled`, and those of a handle wait, until a group is synced.
///
/// A pool of less than some 16 MiB may have no free blocks left before this limit is reached. Then a `begin` is refused
/// `NoSpace` until a group is synced.
pub const DEFAULT_DIRTY_MAX: u64 = 4_194_304;

/// The greatest number of tree blocks that an import lets a pool keep in memory once they were read, and of those that
/// syncs wrote. The least is one.
pub const GREATEST_CACHE_BLOCKS: u64 = 4096;

/// How many tree blocks that were read a pool keeps in memory if no number is given, and how many that syncs wrote:
/// 1 MiB of each.
pub const DEFAULT_CACHE_BLOCKS: u64 = 256;
