//! Copies a pool into a new one on another device.

ghost use Rattle.std.specs.Prelude.{◌≡◌, IfErr, IfOk, IsTrue, OnOk};
ghost use Rattle.base.specs.disk.Disk.{bytes_of};
ghost use Rattle.base.specs.formats.Limits.{object_count};
ghost use Rattle.base.specs.kept.Imports.{is_dirty_max_allowed};
ghost use Rattle.object_views.specs.PoolPaths.{AreFoundOn, ArePathsOf};
ghost use Rattle.pool_threads.specs.Handles.{IsFirstSeen, owned_of};
ghost use Rattle.read_commands.specs.Checks.{IsOnlyRead};
ghost use Rattle.copies.specs.Copies.{CopiesObjects};
ghost use Rattle.copies.specs.NewPools.{CopiesAndLeaves, CopiesAndSyncs, IsCopy};
ghost use Rattle.copies.specs.Stops.{IsStopOf, StaysAlone};

use crate::pools::copy_objects;
use crate::stop::Stop;
use base::PoolName;
use device_model::SectorDevice;
use import_replay::create;
use object_views::PoolPaths;
use pool_threads::{Handle, LastSeen, OwnedPool};
use running_pools::{close_alone, open_alone};
use std::alloc::Global;
use std::io::Write;
use std::sync::Wait;

/// The dirty limit of the new pool, 16 MiB: some 4 MiB of records are in memory until a sync.
const DIRTY_MAX: u64 = 16_777_216;

/// What a new pool is made with.
#[derive(Drop)]
pub struct NewPool {
    /// Its name.
    pub name: PoolName,
    /// Its guid.
    pub guid: u64,
    /// The moment, in seconds, of its uberblocks.
    pub moment: u64,
}

/// Makes a new pool on a device, and copies into it what can be read of the pool of these paths on the old device, which
/// is only read. It syncs the new pool and returns its device, with the pool closed, and whether all was copied. If a
/// damage may be passed over (`skips`), `out` has a line for what it keeps from the copy.
///
/// # Errors
/// Why the copy ended before its end: `Old` with what the old pool's reads were refused for, and with `Damaged` only if
/// damages are not to be passed over. `New` with what the new pool refused: a `create`, an import, a transaction or a
/// sync. `Unwritten` if `out` can't be written.
pub fn copy_into<R: Wait + AllocGlobal, D: SectorDevice, N: SectorDevice + Drop, W: Write>(
    rt: &R,
    paths: &PoolPaths,
    pool: NewPool,
    skips: bool,
    old: &mut D,
    new: N,
    out: &mut W,
) -> (Result<bool, Stop>, N)
    requires fits { AreFoundOn (D.size old.old) paths.now }
    requires paths { IsTrue D.keeps_model → ArePathsOf (bytes_of (D.disk old.old).now) paths.now }
    ensures reads { IsOnlyRead D.SectorDevice old.old old.new }
    ensures answered { OnOk result.0 (D.refused old.new ≡ D.refused old.old) }
    ensures copied { IfOk result.0 (λ whole. IsCopy N.SectorDevice D.keeps_model (D.disk old.old)
        pool.name skips whole result.1 (W.contents out.old) (W.contents out.new)) }
    ensures stopped { IfErr result.0 (IsStopOf D.keeps_model (D.disk old.old) skips) }
{
    let alloc = rt.alloc();
    let created = match create(new, pool.name.as_slice(), pool.guid, pool.moment) {
        Ok(created) => created,
        Err((refusal, new)) => return (Err(Stop::New(refusal)), new),
    };
    let (opened, first) = match open_alone(alloc, created, DIRTY_MAX, pool.moment) {
        Ok(opened) => opened,
        Err((refusal, new)) => return (Err(Stop::New(refusal)), new),
    };
    let (end, last) = copy_and_leave(rt, alloc, paths, skips, old, &opened, first, out);
    let closed = close_alone(opened, last);
    (end, closed)
}

// Copies what can be read by the new pool's first handle, and syncs it. What the handle has seen comes back.
fn copy_and_leave<R: Wait, D: SectorDevice, N: SectorDevice, W: Write>(
    rt: &R,
    alloc: Global,
    paths: &PoolPaths,
    skips: bool,
    old: &mut D,
    pool: &OwnedPool<N>,
    first: LastSeen<N>,
    out: &mut W,
) -> (Result<bool, Stop>, LastSeen<N>)
    requires fits { AreFoundOn (D.size old.old) paths.now }
    requires paths { IsTrue D.keeps_model → ArePathsOf (bytes_of (D.disk old.old).now) paths.now }
    requires first { IsFirstSeen (owned_of pool.now) first }
    ensures reads { IsOnlyRead D.SectorDevice old.old old.new }
    ensures answered { OnOk result.0 (D.refused old.new ≡ D.refused old.old) }
    ensures copied { CopiesAndLeaves D.keeps_model (D.disk old.old) skips (owned_of pool.entry.now)
        result.0 result.1 (W.contents out.old) (W.contents out.new) }
    ensures stopped { IfErr result.0 (IsStopOf D.keeps_model (D.disk old.old) skips) }
{
    let mut handle = pool.handle_after(first);
    let end = copy_and_sync(rt, alloc, paths, skips, old, &mut handle, out);
    (end, handle.leave())
}

// Copies what can be read by a handle of the new pool, and syncs it.
fn copy_and_sync<R: Wait, D: SectorDevice, N: SectorDevice, W: Write>(
    rt: &R,
    alloc: Global,
    paths: &PoolPaths,
    skips: bool,
    old: &mut D,
    new: &mut Handle<'_, N>,
    out: &mut W,
) -> Result<bool, Stop>
    requires fits { AreFoundOn (D.size old.old) paths.now }
    requires paths { IsTrue D.keeps_model → ArePathsOf (bytes_of (D.disk old.old).now) paths.now }
    ensures reads { IsOnlyRead D.SectorDevice old.old old.new }
    ensures answered { OnOk result (D.refused old.new ≡ D.refused old.old) }
    ensures copied { IfOk result (λ whole. CopiesAndSyncs D.keeps_model (D.disk old.old) skips whole
        new.old new.new (W.contents out.old) (W.contents out.new)) }
    ensures stopped { IfErr result (IsStopOf D.keeps_model (D.disk old.old) skips) }
    ensures stays { StaysAlone new.old new.new }
{
    let is_whole = copy_objects(rt, alloc, paths, skips, old, new, out)?;
    match new.sync_pool(rt) {
        Ok(_) => Ok(is_whole),
        Err(refusal) => Err(Stop::New(refusal)),
    }
}
