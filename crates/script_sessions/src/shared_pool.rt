//! A pool that a session has under a lock, with the plans of the transactions that it began.
//!
//! The session is the pool's one owner: a command's handle continues from the handle of the command before, and none
//! is split. So nothing changes the pool between two commands.

ghost use Rattle.std.specs.Prelude.{◌≡◌, IfErr, IfOk, IsTrue, true};
ghost use Rattle.base.specs.declared.error.PoolError.TheVariants.{NoMemory};
ghost use Rattle.mounted.specs.ShownMounted.{shown_of_import};
ghost use Rattle.pool_core.specs.States.{device_of};
ghost use Rattle.pool_threads.specs.Handles.{IsFirstSeen, OpensBehind, ShowsMounted, StartsBehind, WasOf, kin_left, moment_in, opening_view, owned_of};
ghost use Rattle.script_sessions.specs.Plans.{ArePlansOf};
ghost use Rattle.word_lock.specs.Seats.{seen};

use crate::begun_plans::BegunPlans;
use crate::pool_caller::{ask_behind, fail_behind};
use base::{PoolError, Reply};
use device_model::{Fault, MemDevice};
use import_replay::Imported;
use pool_core::PoolState;
use pool_threads::{LastSeen, OwnedPool};
use script_lines::{Answer, PoolCommand};
use scripts::{FaultyPool, MountedPool, Session, import_for_mount};
use std::alloc::Global;
use std::fmt;
use std::snapshot::Snapshot;
use std::sync::Wait;

/// A pool under a lock, whose only handle makes each step of its session's commands.
#[derive(Drop)]
pub struct SharedPool {
    pool: OwnedPool<MemDevice>,
    last: LastSeen<MemDevice>,
    plans: BegunPlans,
    ghost own: { WasOf (owned_of pool) last },
    ghost only: { kin_left last ≡ 0 },
    ghost plans_are: { ArePlansOf plans.plans.items (seen last.seat) },
}

/// A session on a device in memory, whose pool is under a lock. Each step is made by the pool's only handle, which may
/// wait.
pub type SharedSession<'r, W> = Session<'r, W, MemDevice, SharedPool>;

/// A pool with what its first handle has seen.
type Opened = (OwnedPool<MemDevice>, LastSeen<MemDevice>);

impl<W: Wait> MountedPool<MemDevice, W> for SharedPool {
    ghost use Rattle.base.specs.disk.Disk.{Disk};
    ghost use Rattle.base.specs.history.Past.{Past};
    ghost use Rattle.base.specs.kept.LeftDisks.{IsLeft};
    ghost use Rattle.script_sessions.specs.SharedPools.{AsksShared, IsDeviceIn, IsMountShared};
    ghost use Rattle.script_sessions.specs.SharedRuns.{BeginsShared, GoesSafely, IsRunOf};
    ghost use Rattle.std.proofs.Math.Logic.{∥∥₁_map};

    ghost mounts = { λ before device mounted cache_blocks moment pool.
        IsMountShared before.disk device.disk mounted cache_blocks moment pool };

    ghost refuses = { λ e. e ≡ NoMemory };

    ghost gives = { IsDeviceIn };

    ghost asks = { AsksShared W };

    ghost left = { λ past disk. ∥ IsLeft past disk ∥₁ };

    ghost runs = { IsRunOf };

    ghost begins = { BeginsShared };

    ghost goes_on = { λ past old new. ∥ GoesSafely past old new ∥₁ };

    ghost carries = { λ past old new leaves was. ∥∥₁_map was leaves };

    /// No transaction began. If there is no memory for the pool's lock at first, it is asked for once more.
    ///
    /// # Errors
    /// Those of the import; `NoMemory` if there is none for the lock then either.
    fn import(
        alloc: Global,
        device: MemDevice,
        dirty_max: u64,
        cache_blocks: u64,
        moment: u64,
    ) -> Result<(Self, Answer), (PoolError, MemDevice)> {
        let before = Snapshot::of(&device);
        let (imported, answer) = match import_for_mount(
            alloc,
            device,
            dirty_max,
            cache_blocks,
            moment,
        ) {
            Ok(found) => found,
            Err(refused) => return Err(refused),
        };
        match open(imported, moment, &before) {
            Ok((pool, last)) => {
                let plans = BegunPlans::new(alloc);
                Ok((SharedPool { pool, last, plans }, answer))
            }
            Err((error, state)) => Err((error, state.into_device())),
        }
    }

    fn unmount(self) -> MemDevice {
        let SharedPool {
            pool,
            last,
            plans: _,
        } = self;
        let state = pool.close_after(last).unwrap();
        state.into_device()
    }

    /// By a handle that continues from the command before. If there is no memory for the copy of a plan, it makes no
    /// step.
    fn run_command(
        self,
        rt: &W,
        alloc: Global,
        moment: u64,
        command: PoolCommand,
    ) -> (Self, Reply) {
        let SharedPool {
            pool,
            last,
            mut plans,
        } = self;
        let change = match plans.change_of(alloc, &command) {
            Ok(change) => change,
            Err(_) => {
                let shared = SharedPool { pool, last, plans };
                return (shared, Reply::Refused(PoolError::NoMemory));
            }
        };
        let (last, reply) = ask_behind(rt, alloc, &pool, last, &plans, moment, command);
        plans.change(change, &reply);
        (SharedPool { pool, last, plans }, reply)
    }
}

impl<W: Wait> FaultyPool<W> for SharedPool {
    ghost use Rattle.device_model.specs.declared.fault.Fault.{Fault};
    ghost use Rattle.script_sessions.specs.SharedPools.{LooksAt};

    ghost plans = { λ fault n old new. LooksAt old new };

    /// In one turn of the handle.
    fn fail(self, rt: &W, fault: Fault, n: u64) -> Self {
        let SharedPool { pool, last, plans } = self;
        let last = fail_behind(rt, &pool, last, fault, n);
        SharedPool { pool, last, plans }
    }
}

impl fmt::Debug for SharedPool {
    fn fmt<W: fmt::Write>(&self, f: &mut fmt::Formatter<W>) -> fmt::Result {
        f.debug_struct("SharedPool").finish_non_exhaustive()
    }
}

// The pool that an import gave, under a lock that is asked for once more if there is no memory for it at first.
fn open(
    imported: Imported<MemDevice>,
    moment: u64,
    before: &Snapshot<MemDevice>,
) -> Result<Opened, (PoolError, PoolState<MemDevice>)>
    requires { StartsBehind before.now.value.disk imported.mounted imported.device.disk }
    ensures opened { IfOk result (λ p. OpensBehind (IsTrue true) before.now.value.disk
        (shown_of_import imported.mounted).dirty_max (opening_view (owned_of p.0))) }
    ensures shown { IfOk result (λ p. ShowsMounted imported.mounted imported.cache.cap
        imported.device.disk (opening_view (owned_of p.0))) }
    ensures first { IfOk result (λ p. IsFirstSeen (owned_of p.0) p.1) }
    ensures moment { IfOk result (λ p. moment_in (owned_of p.0) ≡ moment) }
    ensures refused { IfErr result
        (λ e. (e.0 ≡ NoMemory) × (device_of e.1 ≡ imported.device)) }
{
    match OwnedPool::of_import(imported, moment, before) {
        Ok(opened) => Ok(opened),
        Err((_, state)) => OwnedPool::of_state(state, moment, before),
    }
}
