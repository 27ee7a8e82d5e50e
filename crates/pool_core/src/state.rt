//! A running pool on its device, and each of its steps.

ghost use Rattle.std.specs.Prelude.{◌≡◌, ◌≢◌, ◌≤◌, IfErr, IfOk, IsTrue, OnErr, length, map, option_map};
ghost use Rattle.base.specs.steps.Groups.{Admission};
ghost use Rattle.base.specs.declared.range.Mode.TheVariants.{Writer};
ghost use Rattle.base.specs.history.Plans.{number_range};
ghost use Rattle.base.specs.steps.Refusals.{append_range, transaction_of};
ghost use Rattle.base.specs.steps.Shown.{is_durable, status_of};
ghost use Rattle.block_cache.specs.CachedDevices.{device_in};
ghost use Rattle.pool_tables.specs.Shows.{geometry_of};

use base::{
    Bytes, Group, LockId, Mode, ObjectId, ObjectRange, Ops, Owner, Plan, PoolError, PoolName,
    Range, Receipt, Status, Step, TxId,
};
use block_cache::CachedDevice;
use device_model::{Fault, MemDevice, SectorDevice};
use import_replay::Imported;
use pool_tables::{Duty, PoolTables, Progress};
use range_locks::{HeldLock, HeldLocks, HeldPiece};
use std::alloc::Global;
use std::fmt;

/// A pool that runs on a device, which it owns. One step at a time changes it.
///
/// After the device refused a write or a flush the pool is suspended. It still returns its name, its status and
/// whether a commit is durable, and each other later step is refused `Suspended`. A step that is refused for another
/// reason leaves the pool unchanged.
#[derive(Drop)]
pub struct PoolState<D: SectorDevice> {
    // with the tree blocks that were read last
    device: CachedDevice<D>,
    pool: PoolTables,
    ghost sized: { D.size (device_in device) ≡ geometry_of pool },
}

impl<D: SectorDevice> PoolState<D> {
    ghost use Rattle.std.specs.Map.Iter.{ShowsInOrder, deref_pair};
    ghost use Rattle.base.specs.formats.Limits.{max_locks};
    ghost use Rattle.base.specs.steps.Locks.{AreLocksSound};
    ghost use Rattle.range_locks.specs.Locks.{grant_of, is_blocked_by_own};
    ghost use Rattle.range_locks.specs.Pieces.{pieces_of};
    ghost use Rattle.mounted.specs.ShownMounted.{shown_of_import};
    ghost use Rattle.sync.specs.Calls.{plain_answer};
    ghost use Rattle.pool_tables.specs.BeginTests.{is_above_limit};
    ghost use Rattle.pool_tables.specs.Duties.{due_step, keeps_whole_log};
    ghost use Rattle.transactions.specs.Open.{has_one_open};
    ghost use Rattle.pool_tables.specs.Receipts.{ChecksReceipt};
    ghost use Rattle.pool_core.specs.Calls.{CallsNext};
    ghost use Rattle.pool_tables.specs.Told.{Leads, start_reply, sync_step_reply};
    ghost use Rattle.pool_tables.specs.SyncPhases.{StepsPhases};
    ghost use Rattle.pool_core.specs.KeptSafe.{BeginsSafe, disk_of, run_of};
    ghost use Rattle.pool_core.specs.NewStates.{IsExplainedAtFirst, IsHeldAtFirst};
    ghost use Rattle.pool_core.specs.States.{CountsRefused, KeepsTreeOf, MakesNoCall, MovesNothing, OnlyReadsOf, cache_room_of, device_of, shown, tables_of, told};
    ghost use Rattle.pool_tables.specs.HeldReads.{DigestHeld, ReadsHeld};
    ghost use Rattle.pool_tables.specs.StepAnswers.{Aborts, Begins, ClosesGroup, Commits, FlushesLog, Locks, LocksAppend, MarksQuiesced, Reads, StartsSync, StepsSync, TellsDigest, TellsLength, Unlocks, WritesLog};
    ghost use Rattle.base.specs.disk.Calls.{Flushes};
    ghost use Rattle.pool_tables.specs.LogBlocks.{WritesLogBlock};
    ghost use Rattle.pool_core.specs.Starts.{StartsInOrder};
    ghost use Rattle.pool_tables.specs.SyncStarts.{StartsHeldOver};

    /// The pool that an import gave. Its cache has room for as many tree blocks as the import's. It takes no memory.
    pub fn new(imported: Imported<D>) -> Self
        ensures shown { shown result ≡ shown_of_import imported.mounted }
        ensures device { device_of result ≡ imported.device }
        ensures cache { cache_room_of result ≡ imported.cache.cap }
        ensures explained { ∥ IsExplainedAtFirst (shown result) ∥₁ }
        ensures held { ∥ (IsTrue D.keeps_model → IsHeldAtFirst (told result)) ∥₁ }
        ensures safe { BeginsSafe result }
    {
        let Imported {
            device,
            cache,
            mounted,
        } = imported;
        let device = CachedDevice::new(device, cache);
        PoolState {
            device,
            pool: PoolTables::new(mounted),
        }
    }

    /// The device as it is, with what is unflushed, also of a suspended pool. It takes no memory.
    pub fn into_device(self) -> D
        ensures { result ≡ device_of self }
    {
        let PoolState { device, pool: _ } = self;
        let (device, _) = device.into_parts();
        device
    }

    /// The allocator of its collections.
    pub fn alloc(&self) -> Global {
        self.pool.alloc()
    }

    /// Locks a range of an object (`zfs_rlock.c`). The number after the last object stands for the pool's name.
    ///
    /// # Errors
    /// In this order:
    /// - `Suspended`.
    /// - `BadRange` if the number or the range is outside its limits.
    /// - `Busy` exactly if the range overlaps a held one and not both are readers.
    /// - `TooMany` if 256 locks are held, or the next name would pass 2^60.
    /// - `NoMemory`.
    pub fn lock(
        &mut self,
        owner: Owner,
        object: ObjectId,
        range: Range,
        mode: Mode,
    ) -> Result<LockId, PoolError>
        ensures step { Locks owner object range mode result (shown self.old) (shown self.new) }
        ensures unmoved { MovesNothing result self.old self.new }
    {
        self.pool.lock(owner, object, range, mode)
    }

    /// Locks an object as a writer from its end to the greatest length, 28,449,792, and returns that range too.
    ///
    /// # Errors
    /// In this order:
    /// - `Suspended`.
    /// - `BadRange` if the number is no object's.
    /// - `NoObject`.
    /// - `BadRange` if the object has the greatest length.
    /// - `Busy` exactly if the range overlaps a held one.
    /// - `TooMany` if 256 locks are held, or the next name would pass 2^60.
    /// - `NoMemory`.
    pub fn lock_append(
        &mut self,
        owner: Owner,
        object: ObjectId,
    ) -> Result<(LockId, Range), PoolError>
        ensures step { LocksAppend owner object result (shown self.old) (shown self.new) }
        ensures unmoved { MovesNothing result self.old self.new }
    {
        self.pool.lock_append(owner, object)
    }

    /// Releases a lock. It takes no memory.
    ///
    /// # Errors
    /// In this order:
    /// - `Suspended`.
    /// - `NoSuchLock` if the owner holds none of this name.
    /// - `LockInUse` exactly if it is a writer lock in which a range of an open transaction lies.
    pub fn unlock(&mut self, owner: Owner, id: LockId) -> Result<(), PoolError>
        ensures step { Unlocks owner id result (shown self.old) (shown self.new) }
        ensures unmoved { MovesNothing result self.old self.new }
    {
        self.pool.unlock(owner, id)
    }

    /// The held locks in order of grant, each with its name. It is no step, so a suspended pool returns them too. It
    /// takes no memory.
    pub fn held(&self) -> HeldLocks<'_>
        ensures locks { map grant_of result ≡ (shown self.now).locks }
        ensures sound { AreLocksSound (shown self.now).locks }
        ensures count { length result ≤ max_locks }
        ensures runs { ShowsInOrder (deref_pair {K = LockId} {X = HeldLock}) }
    {
        self.pool.held()
    }

    /// The pieces of an object, rising (`zfs_rlock.c`). The number after the last object stands for the pool's name.
    ///
    /// A piece lies between neighbouring ends of held locks, and some lock covers it. It has its number of readers, and
    /// whether a writer covers it. It is no step, so a suspended pool returns them too.
    ///
    /// # Errors
    /// `NoMemory`.
    pub fn pieces(&self, number: ObjectId) -> Result<Vec<HeldPiece>, PoolError>
        ensures pieces { IfOk result
            (λ pieces. pieces.items ≡ pieces_of number.0 (shown self.now).locks) }
        ensures refused { IfErr result (λ e. e ≡ PoolError.NoMemory) }
    {
        self.pool.pieces(number)
    }

    /// Opens a transaction of the open group that keeps to a plan, of which it takes a copy.
    ///
    /// The plan is estimated in blocks: 2 for a create or a remove, 5 for a new length, 1 for a new name. A write is
    /// estimated at 3, and one more for each piece of 4,032 bytes and for each of 338,688 bytes that it touches. The
    /// group is charged 4,096 bytes for each of these blocks, and as many blocks are reserved. Both last until the
    /// group is synced, or the transaction is aborted. At the dirty limit `begin` is refused `Throttled` until a group
    /// is synced, or a transaction is aborted.
    ///
    /// # Errors
    /// In this order:
    /// - `Suspended`.
    /// - `BadRange` if the plan has no shape, or one that is outside its limits.
    /// - `TooLarge` if its log record would have more than 65,536 bytes.
    /// - `NotLocked` if a range of it does not lie in one writer lock of the owner.
    /// - `Busy` if one overlaps a range of an open transaction.
    /// - `TooMany` if 64 transactions are open, or the next name would pass 2^60.
    /// - `Throttled` if the charges of all unsynced groups would pass the import's dirty limit.
    /// - `NoSpace` if fewer blocks are available than the plan is estimated at. 16 more have to be available, unless it
    ///   only removes objects and sets lengths to no more than they are.
    /// - `NoMemory`.
    pub fn begin(&mut self, owner: Owner, plan: &Plan) -> Result<(TxId, Group), PoolError>
        ensures step { Begins owner plan.now result (shown self.old) (shown self.new) }
        ensures unmoved { MovesNothing result self.old self.new }
    {
        self.pool.begin(owner, plan)
    }

    /// Whether the charge of this plan alone is above the import's dirty limit, for a plan that a transaction may have.
    /// Then each `begin` of it is refused, `Throttled` at the latest. It takes no memory, and is no step.
    pub fn is_above_limit(&self, plan: &Plan) -> bool
        ensures { result ≡ is_above_limit plan.now (shown self.now) }
    {
        self.pool.is_above_limit(plan.as_slice())
    }

    /// Whether the owner has an open transaction. It takes no memory, and is no step.
    pub fn has_one_open(&self, owner: Owner) -> bool
        ensures { result ≡ has_one_open owner.0 (shown self.now).transactions }
    {
        self.pool.has_one_open(owner)
    }

    /// Whether a log block is kept, and no record is begun. Then a sync of all unsynced groups gives every kept block
    /// back. It takes no memory, and is no step.
    pub fn keeps_whole_log(&self) -> bool
        ensures { result ≡ keeps_whole_log (shown self.now) }
    {
        self.pool.keeps_whole_log()
    }

    /// Whether a lock that the owner holds itself overlaps a range, and not both are of readers. Then only the owner
    /// can make way for a lock of that range. It takes no memory, and is no step.
    pub fn is_blocked_by_own(&self, owner: Owner, range: &ObjectRange, mode: Mode) -> bool
        ensures { result ≡ is_blocked_by_own owner.0 (number_range range.now) mode
            (shown self.now).locks }
    {
        self.pool.is_blocked_by_own(owner, range, mode)
    }

    /// Whether a lock that the owner holds itself overlaps an object's range from its end on, as `is_blocked_by_own`.
    pub fn is_append_blocked_by_own(&self, owner: Owner, object: ObjectId) -> bool
        ensures { result ≡ is_blocked_by_own owner.0 (append_range object.0 (shown self.now)) Writer
            (shown self.now).locks }
    {
        self.pool.is_append_blocked_by_own(owner, object)
    }

    /// The plan of an open transaction. It takes no memory.
    pub fn open_plan(&self, tx: TxId) -> Option<&Plan>
        ensures { option_map (λ p. p.now) result
            ≡ option_map (λ (a : Admission). a.plan) (transaction_of tx.0 (shown self.now)) }
    {
        self.pool.open_plan(tx)
    }

    /// Commits a transaction whole, in its own group. After a refusal the transaction is still open.
    ///
    /// # Errors
    /// In this order:
    /// - `Suspended`.
    /// - `NoSuchTransaction` if none of this name is open.
    /// - `OutOfPlan` if the operations don't have the plan's shapes, one for one.
    /// - `BadRange` if one gives a name that no pool may have.
    /// - `NoObject` or `Exists`, that of the first operation that can't take place on the contents after those before
    ///   it.
    /// - `TooMany` if the next ordinal would pass 2^60.
    /// - `NoMemory`.
    pub fn commit(&mut self, tx: TxId, ops: Ops) -> Result<Receipt, PoolError>
        ensures step { Commits tx ops result (shown self.old) (shown self.new) }
        ensures unmoved { MovesNothing result self.old self.new }
    {
        self.pool.commit(tx, ops)
    }

    /// Gives a transaction up, in the open or in the quiescing group. It no longer holds its group, and its charge and
    /// its reserved blocks are given back. It takes no memory.
    ///
    /// # Errors
    /// In this order:
    /// - `Suspended`.
    /// - `NoSuchTransaction` if none of this name is open.
    pub fn abort(&mut self, tx: TxId) -> Result<(), PoolError>
        ensures step { Aborts tx result (shown self.old) (shown self.new) }
        ensures unmoved { MovesNothing result self.old self.new }
    {
        self.pool.abort(tx)
    }

    /// The bytes of a range that lie below the object's length.
    ///
    /// Of the synced tree it reads the top of an object of two levels, and then of each strip, rising, the indirect
    /// block and the records, rising. No block is read for a part that the changes of one group hide. A block that
    /// was read stays in a cache, and a block that the cache has is not read.
    ///
    /// # Errors
    /// In this order:
    /// - `Suspended`.
    /// - `BadRange` if the number or the range is outside its limits.
    /// - `NotLocked` if no one lock of the owner covers the range.
    /// - `NoObject`.
    /// - `NoMemory`.
    /// - `Read` if the device refused a read, and `Damaged` if what it gave is not the block of the tree.
    pub fn read(&mut self, owner: Owner, object: ObjectId, range: Range) -> Result<Bytes, PoolError>
        ensures step { Reads owner object range result (shown self.old) }
        ensures held { IsTrue D.keeps_model → ReadsHeld owner object range result (told self.old) }
        ensures tables { tables_of self.new ≡ tables_of self.old }
        ensures reads { OnlyReadsOf result self.old self.new }
    {
        self.pool.read(&mut self.device, owner, object, range)
    }

    /// The length of an object in bytes. It takes no memory.
    ///
    /// # Errors
    /// In this order:
    /// - `Suspended`.
    /// - `BadRange` if the number is no object's.
    /// - `NoObject`.
    pub fn length(&self, object: ObjectId) -> Result<u64, PoolError>
        ensures step { TellsLength object result (shown self.now) }
        ensures no_call { MakesNoCall result self.now self.now }
    {
        self.pool.length(object)
    }

    /// The digest of the current contents. It is SHA-256 of the name, the number of objects, and each object by rising
    /// number with its number, its length and its bytes. The blocks of an object are read as `read` reads them. It
    /// needs no memory.
    ///
    /// # Errors
    /// In this order:
    /// - `Suspended`.
    /// - `Read` if the device refused a read, and `Damaged` if what it gave is not the block of the tree.
    pub fn digest(&mut self) -> Result<[u8; 32], PoolError>
        ensures step { TellsDigest result (shown self.old) }
        ensures no_memory { IfErr result (λ e. e ≢ PoolError.NoMemory) }
        ensures held { IsTrue D.keeps_model → DigestHeld result (told self.old) }
        ensures tables { tables_of self.new ≡ tables_of self.old }
        ensures reads { OnlyReadsOf result self.old self.new }
    {
        self.pool.digest(&mut self.device)
    }

    /// The pool's name. It is never refused, also of a suspended pool, and takes no memory.
    pub fn name(&self) -> PoolName
        ensures { result ≡ (shown self.now).contents.name }
    {
        self.pool.name()
    }

    /// Whether a committed transaction survives a crash: its group is synced, or its record lies in a log block that
    /// was written before a good `log_flush`. It is never refused, also of a suspended pool, and takes no memory. Of a
    /// receipt that this run of the pool did not give, it says nothing.
    pub fn durable(&self, receipt: Receipt) -> bool
        ensures { result ≡ is_durable (shown self.now) receipt.ordinal.0 receipt.group.0 }
    {
        self.pool.durable(receipt)
    }

    /// Whether a committed transaction survives a crash, for a caller that waits until it does.
    ///
    /// # Errors
    /// If it does not survive a crash, in this order:
    /// - `Suspended`.
    /// - `BadRange` if no such transaction was committed.
    pub fn check_receipt(&self, receipt: Receipt) -> Result<bool, PoolError>
        ensures { ChecksReceipt receipt result (shown self.now) }
    {
        self.pool.check_receipt(receipt)
    }

    /// The step that is due next for a duty, or `None` if nothing has to be done now. It is a look, and no step.
    ///
    /// Of a suspended pool it is a step that is refused `Suspended`, unless the group that is asked for is synced.
    pub fn due_step(&self, duty: Duty) -> Option<Step>
        ensures { result ≡ due_step duty (shown self.now) }
    {
        self.pool.due_step(duty)
    }

    /// The groups of the pool, and its sums: the bytes that are charged, the free blocks, and how many of them no
    /// unsynced transaction may still take. It is never refused, also of a suspended pool, and takes no memory.
    pub fn status(&self) -> Status
        ensures { result ≡ status_of (shown self.now) }
    {
        self.pool.status()
    }

    /// Closes the open group, which then quiesces, and opens the next one (`txg.c`). It takes no memory.
    ///
    /// # Errors
    /// In this order:
    /// - `Suspended`.
    /// - `NotReady` if a group is closed and its sync was not started, or the open group is 2^60.
    pub fn close_group(&mut self) -> Result<Group, PoolError>
        ensures step { ClosesGroup result (shown self.old) (shown self.new) }
        ensures unmoved { MovesNothing result self.old self.new }
    {
        self.pool.close_group()
    }

    /// Marks the closed group as quiesced: no transaction of it is open. It takes no memory.
    ///
    /// # Errors
    /// In this order:
    /// - `Suspended`.
    /// - `NotReady` if no group quiesces, or a transaction of it is open.
    pub fn mark_quiesced(&mut self) -> Result<Group, PoolError>
        ensures step { MarksQuiesced result (shown self.old) (shown self.new) }
        ensures unmoved { MovesNothing result self.old self.new }
    {
        self.pool.mark_quiesced()
    }

    /// Starts the sync of the quiesced group. It plans its blocks, one for each place of the tree that it writes, and
    /// takes the memory for all its steps. The moment, in seconds, is stored in its uberblocks. If the group gives a
    /// name, six more steps write it into the configs of the labels.
    ///
    /// Of each changed object, rising, it reads the top, if the synced object has two levels, and then the indirect
    /// blocks that the plan looks at. Then it reads each record that the group changes in part, for rising objects and
    /// in each for rising records. A block that the cache has is not read. If the start is refused, the group is still
    /// quiesced, and the same call goes on with what the cache has.
    ///
    /// # Errors
    /// In this order:
    /// - `Suspended`.
    /// - `NotReady` if no group is quiesced, or one is syncing.
    /// - `NoMemory`, `Read` if the device refused a read, or `Damaged` if what it gave is not the block of the tree, as
    ///   they come.
    ///
    /// It is never refused `NoSpace`: what its transactions reserved suffices. Over a device that this pool alone
    /// writes it is never refused `Damaged` (`held`).
    pub fn start_sync(&mut self, moment: u64) -> Result<Group, PoolError>
        ensures step { StartsSync moment result (shown self.old) (shown self.new) }
        ensures held { IsTrue D.keeps_model
            → StartsHeldOver moment result (told self.old) (told self.new) }
        ensures order { IsTrue D.keeps_model
            → StartsInOrder result (told self.old) (told self.new) }
        ensures leads { IsTrue D.keeps_model
            → Leads (start_reply result) (told self.old) (told self.new) }
        ensures unchanged { OnErr result (tables_of self.new ≡ tables_of self.old) }
        ensures reads { OnlyReadsOf result self.old self.new }
    {
        self.pool.start_sync(&mut self.device, moment)
    }

    /// Makes the next device call of the running sync. It is never refused memory. With the last call its group is
    /// synced: the blocks that it replaced come back, and its charges and reservations end. Those that it wrote stay in
    /// memory, as many as the cache may have, so that a read of them needs no hash.
    ///
    /// # Errors
    /// In this order:
    /// - `Suspended`.
    /// - `NotReady` if no group is syncing.
    /// - `Write` or `Flush` if the device refused. Then the pool is suspended.
    pub fn sync_step(&mut self) -> Result<Progress, PoolError>
        ensures step { StepsSync result (shown self.old) (shown self.new) }
        ensures leads { IsTrue D.keeps_model
            → Leads (sync_step_reply result) (told self.old) (told self.new) }
        ensures phases { IsTrue D.keeps_model → StepsPhases result (shown self.old).suspended
            (run_of self.old) (run_of self.new) (disk_of self.old) (disk_of self.new) }
        ensures called { CallsNext (plain_answer result) self.old self.new }
        ensures count { CountsRefused result self.old self.new }
    {
        self.pool.sync_step(&mut self.device)
    }

    /// Writes the next log block, with as many whole pending records from the front as fit (`zil_lwb_write_issue` of
    /// `zil.c`). Pending are the commits of unsynced groups that no log block has. A record of more than 4,008 bytes
    /// begins a block of its own and has 4,008 bytes in each block but its last one, which holds nothing else. While
    /// such a record is begun, its next part is written. Returns how many records end in the block: 0 if a record goes
    /// on. They are durable after a flush (`log_flush`). The cost is that of the block and of the records that it
    /// encodes, whatever else is pending.
    ///
    /// # Errors
    /// In this order:
    /// - `Suspended`.
    /// - `NotReady` if none is pending and none begun.
    /// - `NoLogSpace` if fewer than 17 blocks are available, or the next log number would pass 2^60.
    /// - `NoMemory`.
    /// - `Write` if the device refused. Then the pool is suspended.
    pub fn log_write(&mut self) -> Result<u64, PoolError>
        ensures step { WritesLog result (shown self.old) (shown self.new) }
        ensures tree { KeepsTreeOf self.old self.new }
        ensures wrote { IsTrue D.keeps_model → WritesLogBlock result
            (shown self.old) (shown self.new) (disk_of self.old) (disk_of self.new) }
        ensures count { CountsRefused result self.old self.new }
    {
        self.pool.log_write(&mut self.device)
    }

    /// Flushes the log blocks that were written, so that all commits in them are durable (`zil_lwb_flush_vdevs_done` of
    /// `zil.c`). It takes no memory.
    ///
    /// # Errors
    /// In this order:
    /// - `Suspended`.
    /// - `NotReady` if no written log block awaits a flush.
    /// - `Flush` if the device refused. Then the pool is suspended.
    pub fn log_flush(&mut self) -> Result<(), PoolError>
        ensures step { FlushesLog result (shown self.old) (shown self.new) }
        ensures tree { KeepsTreeOf self.old self.new }
        ensures flushed { IsTrue D.keeps_model
            → Flushes (disk_of self.old) result (disk_of self.new) }
        ensures count { CountsRefused result self.old self.new }
    {
        self.pool.log_flush(&mut self.device)
    }
}

impl PoolState<MemDevice> {
    ghost use Rattle.device_model.specs.Plans.{with_plan};
    ghost use Rattle.pool_core.specs.KeptSafe.{on_disk};
    ghost use Rattle.pool_core.specs.States.{device_of, told};

    /// Makes the n-th such call of its device from now fail, once, as `MemDevice::fail` does, and changes nothing else.
    /// It is no step.
    pub fn fail(&mut self, fault: Fault, n: u64)
        ensures device { device_of self.new ≡ with_plan fault n (device_of self.old) }
        ensures told { told self.new ≡ told self.old }
        ensures disk { on_disk self.new ≡ on_disk self.old }
    {
        self.device.fail(fault, n);
    }
}

/// The type's name alone.
impl<D: SectorDevice> fmt::Debug for PoolState<D> {
    fn fmt<W: fmt::Write>(&self, f: &mut fmt::Formatter<W>) -> fmt::Result {
        f.debug_struct("PoolState").finish_non_exhaustive()
    }
}
