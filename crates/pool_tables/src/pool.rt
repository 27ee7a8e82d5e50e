//! A pool without its device: its tables, its locks and what it reads.
//!
//! Up to four groups are told apart at any moment (`txg.c`): the synced one, whose tree is on the device; the syncing
//! one; the closed one in the middle, which quiesces or waits; and the open one, which new transactions enter. The
//! tables keep these rules, and the comments below cite them by number.
//!
//! 1. A group goes one way: open, quiescing, quiesced, syncing, synced. One is always open, at most one is in the
//!    middle, and at most one is syncing.
//! 2. A transaction holds its group from `begin` to `commit` or `abort`, so a group quiesces only after its last
//!    transaction (`txg_hold_open`, `txg_rele_to_sync`). It commits in its own group, also after that group was closed.
//! 3. A transaction's ranges lie in writer locks of its owner as long as it is open, and no range overlaps that of
//!    another open transaction (`zfs_rlock.c`). So open transactions commute, and a later group may commit before an
//!    earlier one.
//! 4. The contents are the synced objects, and over them what each unsynced group changed, the oldest group first. A
//!    read sees all of them, a sync only the oldest.
//! 5. A plan is charged and its blocks are reserved at `begin`. Both stay until its group is synced or it is aborted,
//!    so the sync of a group finds the blocks that it needs.
//! 6. A sync writes no block of the synced tree: it takes free blocks, and the blocks that it replaces come back after
//!    its last flush.
//! 7. After the device refused a write or a flush, no step changes the pool any more: what the disk holds is not
//!    certain.
//! 8. A call makes its tests, takes its memory and reads what it needs before it changes a table. So a call that is
//!    refused by a test, for memory or a read changes nothing.
//! 9. The log has the records of the transactions of the unsynced groups, in order of commit. A sync fixes its log
//!    header at its start, and the log blocks before it come back with its last step (`zil.c`).
//! 10. A log write takes as many whole records from the front of the others as fit a block, or the first part of one
//!     that a block can't hold. While such a record is begun, it takes the next part of that, also after the record's
//!     group is synced. It also takes the lowest free block, for the log block after it (`zil_lwb_write_issue`). All is
//!     noted before the block is written, so a refused write has taken it. It leaves the 16 blocks that are kept for
//!     plans that free blocks.
//! 11. After a log flush each log block that was written is certain, and its transactions are durable.
//!
//! The full contract of each call stands at `PoolState` of `pool_core`, which adds the device.

ghost use Rattle.std.specs.Prelude.{◌≡◌, ◌≢◌, ◌+◌, ◌≤◌, All, IfErr, IfOk, IsTrue, None, false, length, map, option_map, true, vec_len};
ghost use Rattle.std.proofs.Props.{props};
ghost use Rattle.std.specs.Option.{ForSome, option_map_or};
ghost use Rattle.base.specs.formats.Geometry.{AreBlocksOf, IsGeometry, block_count, is_block_of};
ghost use Rattle.base.specs.formats.Limits.{last_number, max_length, pointer_count};
ghost use Rattle.base.specs.history.Contents.{length_of};
ghost use Rattle.base.specs.kept.PlacedTrees.{ArePlaced};
ghost use Rattle.base.specs.steps.Exact.{log_addresses};
ghost use Rattle.base.specs.declared.range.Mode.TheVariants.{Writer};
ghost use Rattle.base.specs.history.Plans.{number_range};
ghost use Rattle.base.specs.steps.Refusals.{append_range, is_lock_in_use};
ghost use Rattle.base.specs.steps.Shown as show;
ghost use Rattle.unsynced_extents.specs.Unsynced.{changes_at, name_at};
ghost use Rattle.contents.specs.ContentsShown.{contents_of};
ghost use Rattle.extents.specs.Synced.{HaveLengthsAfter};
ghost use Rattle.tree_blocks.specs.ListedObjects.{AreWithin};
ghost use Rattle.tree_blocks.specs.Pointers.{pointers_of};
ghost use Rattle.intent_log.specs.Kept.{header_fields, log_shown};
ghost use Rattle.intent_log.specs.RunLogs.{IsLogOf, KeepsHeader};
ghost use Rattle.throttle.specs.DirtyBytes.{total_of};
ghost use Rattle.tree_blocks.specs.SyncedTrees.{pointers_after};
ghost use Rattle.mounted.specs.Ranges.{is_readable};
ghost use Rattle.pool_tables.specs.Accounts.{AreAccounted, IsFreeSetOf};
ghost use Rattle.pool_tables.specs.Unsynced.{KeepsUnsynced};
ghost use Rattle.pool_tables.specs.Running.{IsRunning};
ghost use Rattle.pool_tables.specs.RunningUberblocks.{uberblock_with};

mod commits;
mod duties;
mod logs;
mod syncs;

use base::{
    Bytes, Group, LockId, MAX_LENGTH, Mode, OBJECT_COUNT, ObjectId, ObjectRange, Owner, Pointer,
    PoolError, PoolName, Range, Receipt, Status, WRITTEN_VERSION,
};
use checked_blocks::Frame;
use contents::SyncedTree;
use extents::Laid;
use groups::Groups;
use intent_log::{Log, LogHeader};
use labels::Geometry;
use mounted::Mounted;
use object_maps::BlockReader;
use object_reads::ShownTree;
use range_locks::{HeldLock, HeldLocks, HeldPiece, RangeLocks};
use space::FreeSet;
use std::alloc::Global;
use std::collections::BTreeMap;
use sync::SyncRun;
use throttle::Dirty;
use transactions::OpenTransactions;
use tree_blocks::{ObjectEntry, ObjectSource, Tree};
use unsynced_extents::UnsyncedExtents;

/// What a step of a sync answers.
#[derive(Clone, Copy, Debug, PartialEq, Eq)]
pub enum Progress {
    /// There are more device calls to make.
    More,
    /// The group is synced.
    Synced(Group),
}

// A sync that runs, and what it makes of the tree.
#[derive(Drop)]
struct RunningSync {
    group: Group,
    // what its uberblocks carry: the moment, and where the log goes on that is kept after it
    moment: u64,
    header: LogHeader,
    run: SyncRun,
    // the entries of the objects that the group changes, which the tree gets once it is synced
    entries: BTreeMap<ObjectId, ObjectEntry>,
    directories: Vec<Pointer>,
    root: Pointer,
    // the addresses of the blocks that come back
    freed: Vec<u64>,
    ghost all_directories: { vec_len directories ≡ pointer_count },
    ghost sized: { IsGeometry run.geometry },
    ghost coded: { length run.uberblock ≡ 1024 },
    ghost freed_placed: { All (λ address. is_block_of (block_count run.geometry) address ≡ true) freed.items },
}

/// What a running pool keeps in memory: all but its device. Each call changes it, or leaves it as it was.
pub struct PoolTables {
    alloc: Global,
    geometry: Geometry,
    guid: u64,
    import_number: u64,
    suspended: bool,
    locks: RangeLocks,
    groups: Groups,
    transactions: OpenTransactions,
    // the bytes charged to the unsynced groups; their blocks are reserved
    dirty: Dirty,
    // the name and the synced tree: the lengths of its objects, and its pointers down to what its directories name.
    // Those below are read from these
    synced: SyncedTree,
    // what the unsynced groups made of them and of the name
    changes: UnsyncedExtents,
    next_ordinal: u64,
    free: FreeSet,
    // with the records of the transactions of unsynced groups
    log: Log,
    sync: Option<RunningSync>,
    ghost sized: { IsGeometry geometry },
    ghost free_counted: { IsFreeSetOf (block_count geometry)
        (option_map_or (λ r. length r.run.blocks.items) sync 0)
        (total_of dirty)
        free } by { Prim.hlevel props },
    ghost import_fits: { import_number ≤ last_number },
    ghost next_ordinal_fits: { next_ordinal ≤ last_number + 1 },
    ghost accounted: { AreAccounted transactions.transactions groups dirty } by { Prim.hlevel props },
    ghost running: { ForSome sync (λ r. IsRunning geometry
        (uberblock_with guid import_number (header_fields r.header) r.group.0 r.moment r.root)
        (pointers_after r.root r.directories.items r.entries synced.tree)
        (name_at changes 0) r.run) } by { Prim.hlevel props },
    ghost sync_line: { option_map (λ r. r.group.0) sync ≡ groups.line.syncing } by { Prim.hlevel props },
    ghost tree_placed: { ∥ ArePlaced (block_count geometry) (pointers_of synced.tree) ∥₁ },
    ghost unsynced_kept: { KeepsUnsynced groups.line log.records synced changes } by { Prim.hlevel props },
    ghost logged: { IsLogOf groups.line.synced (log_shown log) } by { Prim.hlevel props },
    ghost log_placed: { AreBlocksOf (block_count geometry) (log_addresses (log_shown log)) },
    ghost sync_lengths: { ForSome sync (λ r. HaveLengthsAfter (changes_at changes 0) r.entries
        synced.tree) } by { Prim.hlevel props },
    ghost sync_header: { ForSome sync (λ r. KeepsHeader r.group.0 (header_fields r.header)
        (log_shown log)) } by { Prim.hlevel props },
}

impl Drop for PoolTables {
    // One function drops all tables, for each place where a pool is released.
    fn drop(self) {
        let PoolTables {
            alloc: _,
            geometry: _,
            guid: _,
            import_number: _,
            suspended: _,
            locks: _,
            groups: _,
            transactions: _,
            dirty: _,
            synced: _,
            changes: _,
            next_ordinal: _,
            free: _,
            log: _,
            sync: _,
        } = self;
    }
}

// The objects of the synced tree, with what the unsynced groups made of them.
type Objects<'a> = Laid<'a, Laid<'a, Laid<'a, &'a Tree>>>;

impl PoolTables {
    ghost use Rattle.std.specs.Map.Iter.{ShowsInOrder, deref_pair};
    ghost use Rattle.mounted.specs.ShownMounted.{shown_of_import};
    ghost use Rattle.base.specs.formats.Limits.{max_locks};
    ghost use Rattle.base.specs.steps.Locks.{AreLocksSound};
    ghost use Rattle.range_locks.specs.Locks.{grant_of, is_blocked_by_own};
    ghost use Rattle.range_locks.specs.Pieces.{pieces_of};
    ghost use Rattle.pool_tables.specs.Meets.{FindsLength, RefusesIf};
    ghost use Rattle.pool_tables.specs.Shows.{geometry_of, pool_objects, pool_shown, pool_tree, sync_of};
    ghost use Rattle.pool_tables.specs.KeptTrees.{KeepsTree};
    ghost use Rattle.pool_tables.specs.StepAnswers.{Locks, LocksAppend, Reads, TellsDigest, TellsLength, Unlocks};
    ghost use Rattle.base.specs.disk.Disk.{bytes_of};
    ghost use Rattle.base.specs.kept.Stored.{frame_at};
    ghost use Rattle.device_model.specs.Reading.{OnlyReads};
    ghost use Rattle.pool_tables.specs.HeldReads.{DigestHeld, ReadsHeld};
    ghost use Rattle.pool_tables.specs.Told.{pool_told};

    /// The pool that an import mounted. No transaction is open and no sync runs. It takes no memory.
    pub fn new(mounted: Mounted) -> Self
        requires { AreWithin (contents_of mounted.contents).objects }
        ensures geometry { geometry_of result ≡ mounted.geometry }
        ensures shown { pool_shown result ≡ shown_of_import mounted }
        ensures tree { pool_tree result ≡ mounted.contents.tree }
        ensures idle { sync_of result ≡ None }
    {
        let Mounted {
            alloc,
            geometry,
            guid,
            group,
            import_number,
            contents,
            free,
            log_address,
            records: _,
            dirty_max,
        } = mounted;
        PoolTables {
            alloc,
            geometry,
            guid,
            import_number,
            suspended: false,
            locks: RangeLocks::new(alloc),
            groups: Groups::new(group),
            transactions: OpenTransactions::new(alloc),
            dirty: Dirty::new(dirty_max, group),
            synced: contents,
            changes: UnsyncedExtents::new(alloc),
            next_ordinal: 0,
            free,
            log: Log::new(alloc, log_address),
            sync: None,
        }
    }

    /// The allocator of its collections.
    pub fn alloc(&self) -> Global {
        self.alloc
    }

    fn check_running(&self) -> Result<(), PoolError>
        ensures { RefusesIf self.now.suspended PoolError.Suspended result }
    {
        if self.suspended {
            return Err(PoolError::Suspended);
        }
        Ok(())
    }

    // The objects as the last commit left them.
    fn objects<'a>(&'a self) -> Objects<'a>
        ensures { ⟦<Objects<'a> as ObjectSource>⟧.objects result ≡ pool_objects self.now }
    {
        self.changes.over(&self.synced.tree)
    }

    /// Locks a range of an object, in bytes. Refused, in this order, `Suspended`, `BadRange`, `Busy`, `TooMany` or
    /// `NoMemory`.
    pub fn lock(
        &mut self,
        owner: Owner,
        object: ObjectId,
        range: Range,
        mode: Mode,
    ) -> Result<LockId, PoolError>
        ensures step { Locks owner object range mode result
            (pool_shown self.old) (pool_shown self.new) }
        ensures tree { KeepsTree self.old self.new }
    {
        self.check_running()?;
        self.locks.lock(owner, ObjectRange { object, range }, mode)
    }

    /// Locks an object as a writer from its end to the greatest length, and returns that range too. Refused, in this
    /// order, `Suspended`, `BadRange`, `NoObject`, `BadRange` at the greatest length, `Busy`, `TooMany` or `NoMemory`.
    pub fn lock_append(
        &mut self,
        owner: Owner,
        object: ObjectId,
    ) -> Result<(LockId, Range), PoolError>
        ensures step { LocksAppend owner object result (pool_shown self.old) (pool_shown self.new) }
        ensures tree { KeepsTree self.old self.new }
    {
        self.check_running()?;
        let length = self.shown_length(object);
        self.locks.lock_append(owner, object, length)
    }

    /// Releases a lock. Refused, in this order, `Suspended`, `NoSuchLock`, or `LockInUse` for a writer lock in which a
    /// range of an open transaction lies.
    pub fn unlock(&mut self, owner: Owner, id: LockId) -> Result<(), PoolError>
        ensures step { Unlocks owner id result (pool_shown self.old) (pool_shown self.new) }
        ensures tree { KeepsTree self.old self.new }
    {
        self.check_running()?;
        let Some(held) = self.locks.find(owner, id) else {
            return Err(PoolError::NoSuchLock);
        };
        if self.is_in_use(held) {
            return Err(PoolError::LockInUse);
        }
        self.locks.unlock(owner, id)
    }

    fn is_in_use(&self, held: &HeldLock) -> bool
        ensures { (id : LockId)
            → result ≡ is_lock_in_use (grant_of (id, held.now)) (pool_shown self.now) }
    {
        !held.mode.is_reader() && self.transactions.is_lock_in_use(&held.range)
    }

    /// The held locks in order of grant, each with its name. It is never refused, and takes no memory.
    pub fn held(&self) -> HeldLocks<'_>
        ensures locks { map grant_of result ≡ (pool_shown self.now).locks }
        ensures sound { AreLocksSound (pool_shown self.now).locks }
        ensures count { length result ≤ max_locks }
        ensures runs { ShowsInOrder (deref_pair {K = LockId} {X = HeldLock}) }
    {
        self.locks.held()
    }

    /// The pieces of an object that some lock covers, rising, each with its readers and whether a writer covers it.
    /// Refused `NoMemory`.
    pub fn pieces(&self, number: ObjectId) -> Result<Vec<HeldPiece>, PoolError>
        ensures pieces { IfOk result
            (λ pieces. pieces.items ≡ pieces_of number.0 (pool_shown self.now).locks) }
        ensures refused { IfErr result (λ e. e ≡ PoolError.NoMemory) }
    {
        self.locks.pieces(number)
    }

    // The frame of the synced tree's blocks.
    fn synced_frame(&self) -> Frame
        ensures { result ≡ frame_at (pool_shown self.now) (pool_shown self.now).line.synced }
    {
        Frame::new(
            WRITTEN_VERSION,
            self.guid,
            self.geometry.blocks(),
            self.groups.synced(),
        )
    }

    // What reads need of the objects that are shown.
    fn shown_tree(&self) -> ShownTree<'_>
        ensures frame { result.frame
            ≡ frame_at (pool_shown self.now) (pool_shown self.now).line.synced }
        ensures tree { result.tree.now ≡ self.now.synced.tree }
        ensures changes { result.changes.now ≡ self.now.changes }
    {
        ShownTree {
            frame: self.synced_frame(),
            tree: &self.synced.tree,
            changes: &self.changes,
        }
    }

    /// The bytes of a range that lie below the length of the object. Refused, in this order, `Suspended`, `BadRange`,
    /// `NotLocked`, `NoObject` or `NoMemory`, or `Read` or `Damaged` as the blocks are read.
    pub fn read<B: BlockReader>(
        &self,
        reader: &mut B,
        owner: Owner,
        object: ObjectId,
        range: Range,
    ) -> Result<Bytes, PoolError>
        requires sized { B.size reader.old ≡ geometry_of self.now }
        ensures step { Reads owner object range result (pool_shown self.now) }
        ensures held { IsTrue B.keeps_model → ReadsHeld owner object range result
            (pool_told self.now (bytes_of (B.disk reader.old).now)) }
        ensures reads { OnlyReads B.SectorDevice result reader.old reader.new }
    {
        self.check_running()?;
        if !is_readable(object, range) {
            return Err(PoolError::BadRange);
        }
        if !self.locks.covers(owner, &ObjectRange { object, range }) {
            return Err(PoolError::NotLocked);
        }
        let Some(length) = self.shown_length(object) else {
            return Err(PoolError::NoObject);
        };
        self.shown_tree()
            .read_range(reader, self.alloc, object, range, length)
    }

    /// The length of an object in bytes. Refused, in this order, `Suspended`, `BadRange` or `NoObject`.
    pub fn length(&self, object: ObjectId) -> Result<u64, PoolError>
        ensures { TellsLength object result (pool_shown self.now) }
    {
        self.check_running()?;
        self.object_length(object)
    }

    // The length of an object. Refused BadRange if the number is no object's, NoObject.
    fn object_length(&self, object: ObjectId) -> Result<u64, PoolError>
        ensures { FindsLength object.0 result (pool_shown self.now) }
    {
        if object.0 >= OBJECT_COUNT {
            return Err(PoolError::BadRange);
        }
        self.shown_length(object).ok_or(PoolError::NoObject)
    }

    /// Whether a lock that the owner holds itself overlaps a range, and not both are of readers.
    pub fn is_blocked_by_own(&self, owner: Owner, range: &ObjectRange, mode: Mode) -> bool
        ensures { result ≡ is_blocked_by_own owner.0 (number_range range.now) mode
            (pool_shown self.now).locks }
    {
        self.locks.is_blocked_by_own(owner, range, mode)
    }

    /// Whether a lock that the owner holds itself overlaps an object's range from its end on.
    pub fn is_append_blocked_by_own(&self, owner: Owner, object: ObjectId) -> bool
        ensures { result ≡ is_blocked_by_own owner.0 (append_range object.0 (pool_shown self.now))
            Writer (pool_shown self.now).locks }
    {
        let range = Range {
            low: self.end_of(object),
            high: MAX_LENGTH,
        };
        self.is_blocked_by_own(owner, &ObjectRange { object, range }, Mode::Writer)
    }

    // The length of an object, 0 if there is none of this number.
    fn end_of(&self, object: ObjectId) -> u64
        ensures { result ≡ (append_range object.0 (pool_shown self.now)).low }
    {
        match self.shown_length(object) {
            Some(length) => length,
            None => 0,
        }
    }

    // The length of an object, `None` if there is none of this number.
    fn shown_length(&self, object: ObjectId) -> Option<u64>
        ensures { result ≡ length_of (pool_shown self.now).contents object.0 }
    {
        self.objects().length(object)
    }

    /// The SHA-256 digest of the contents, the changes of unsynced groups included. It needs no memory. Refused
    /// `Suspended`, or `Read` or `Damaged` as the blocks are read.
    pub fn digest<B: BlockReader>(&self, reader: &mut B) -> Result<[u8; 32], PoolError>
        requires sized { B.size reader.old ≡ geometry_of self.now }
        ensures step { TellsDigest result (pool_shown self.now) }
        ensures no_memory { IfErr result (λ e. e ≢ PoolError.NoMemory) }
        ensures held { IsTrue B.keeps_model → DigestHeld result
            (pool_told self.now (bytes_of (B.disk reader.old).now)) }
        ensures reads { OnlyReads B.SectorDevice result reader.old reader.new }
    {
        self.check_running()?;
        self.shown_tree().digest(reader, self.shown_name())
    }

    /// The name of the pool. It is never refused.
    pub fn name(&self) -> PoolName
        ensures { result ≡ (pool_shown self.now).contents.name }
    {
        self.shown_name().copy()
    }

    // The name as the last commit left it: that of the newest unsynced group that gives one, else the synced one.
    fn shown_name(&self) -> &PoolName
        ensures { result.now ≡ (pool_shown self.now).contents.name }
    {
        self.changes.name_over(&self.synced.name)
    }

    /// Whether a committed transaction survives a crash. It is never refused.
    pub fn durable(&self, receipt: Receipt) -> bool
        ensures { result
            ≡ show.is_durable (pool_shown self.now) receipt.ordinal.0 receipt.group.0 }
    {
        receipt.group <= self.groups.synced() || self.log.has_flushed(receipt)
    }

    /// The groups, the charged bytes, and the counts of free and of available blocks. It is never refused.
    pub fn status(&self) -> Status
        ensures { result ≡ show.status_of (pool_shown self.now) }
    {
        Status {
            synced: self.groups.synced(),
            syncing: self.groups.syncing(),
            middle: self.groups.middle(),
            open_group: self.groups.open_group(),
            dirty: self.dirty.total(),
            free: self.free_count(),
            available: self.available(),
        }
    }

    // How many blocks are free.
    fn free_count(&self) -> u64
        ensures { result ≡ show.free_count (pool_shown self.now) }
    {
        self.free.free()
    }

    // How many of them no unsynced transaction may still ask for.
    fn available(&self) -> u64
        ensures { result ≡ show.available (pool_shown self.now) }
    {
        self.free.available()
    }
}

// Whether this range of an object may be read.
fn is_readable(object: ObjectId, range: Range) -> bool
    ensures allowed { result ≡ is_readable object.0 range }
    ensures ordered { IsTrue result → range.low ≤ range.high }
    ensures within { IsTrue result → range.high ≤ max_length }
{
    object.0 < OBJECT_COUNT && range.is_allowed()
}
