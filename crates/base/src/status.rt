//! The groups of a pool, and what is charged and free.

use crate::names::Group;

/// The groups of a pool, and what is charged and free.
#[derive(Clone, Copy, Debug, PartialEq, Eq)]
pub struct Status {
    /// The last synced group.
    pub synced: Group,
    /// The group that is being synced, if one is.
    pub syncing: Option<Group>,
    /// The group that quiesces, or is quiesced and waits for its sync.
    pub middle: Option<Group>,
    /// The group of transactions that begin now.
    pub open_group: Group,
    /// The bytes charged to the transactions of all unsynced groups.
    pub dirty: u64,
    /// How many blocks are free.
    pub free: u64,
    /// How many free blocks are reserved for no unsynced transaction.
    pub available: u64,
}
