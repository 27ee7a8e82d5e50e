//! A pool of one owner as a command has it: called by its only handle.

ghost use Rattle.std.specs.Prelude.{◌≡◌};
ghost use Rattle.pool_threads.specs.Handles.{WasOf, kin_left, moment_in, owned_of};
ghost use Rattle.script_sessions.specs.Callers.{AsksByHandle, AsksNext, LooksBehind};
ghost use Rattle.script_sessions.specs.Plans.{ArePlansOf};
ghost use Rattle.word_lock.specs.Seats.{seen};

use crate::begun_plans::BegunPlans;
use base::{Plan, Reply, Step, TxId};
use device_model::{Fault, MemDevice};
use pool_threads::{Handle, LastSeen, OwnedPool};
use script_lines::PoolCommand;
use scripts::{SteppedPool, run_pool_command};
use std::alloc::Global;
use std::sync::Wait;

/// A handle, with what its calls wait by and the plans of the transactions that began.
#[derive(Drop)]
pub(crate) struct PoolCaller<'p, 'r, W: Wait> {
    pub(crate) rt: &'r W,
    pub(crate) handle: Handle<'p, MemDevice>,
    pub(crate) plans: &'p BegunPlans,
}

impl<'p, 'r, W: Wait> SteppedPool for PoolCaller<'p, 'r, W> {
    ghost use Rattle.script_sessions.specs.Callers.{CallsStep, plan_begun};

    ghost makes = { CallsStep };

    ghost plan_in = { plan_begun };

    fn step(&mut self, step: Step) -> Reply {
        self.handle.step(self.rt, step)
    }

    fn open_plan(&self, tx: TxId) -> Option<&Plan> {
        self.plans.plan(tx)
    }
}

/// Has a command's steps made by the only handle of a pool, which continues from the last one, and leaves it. The
/// first step is made on what the last command left.
pub(crate) fn ask_behind<'p, W: Wait>(
    rt: &W,
    alloc: Global,
    pool: &'p OwnedPool<MemDevice>,
    last: LastSeen<MemDevice>,
    plans: &'p BegunPlans,
    moment: u64,
    command: PoolCommand,
) -> (LastSeen<MemDevice>, Reply)
    requires own { WasOf (owned_of pool.now) last }
    requires only { kin_left last ≡ 0 }
    requires plans { ArePlansOf plans.now.plans.items (seen last.seat) }
    ensures own { WasOf (owned_of pool.now) result.0 }
    ensures only { kin_left result.0 ≡ 0 }
    ensures next { AsksNext (moment_in (owned_of pool.now)) command moment result.1
        (seen last.seat) (seen result.0.seat) }
    ensures asked { AsksByHandle W command moment plans.now.plans.items pool.now last
        result.1 result.0 }
{
    let mut caller = PoolCaller {
        rt,
        handle: pool.handle_after(last),
        plans,
    };
    let reply = run_pool_command(alloc, &mut caller, moment, command);
    let PoolCaller {
        rt: _,
        handle,
        plans: _,
    } = caller;
    (handle.leave(), reply)
}

/// Plans a fault by the only handle of a pool, which continues from the last one, and leaves it.
pub(crate) fn fail_behind<W: Wait>(
    rt: &W,
    pool: &OwnedPool<MemDevice>,
    last: LastSeen<MemDevice>,
    fault: Fault,
    n: u64,
) -> LastSeen<MemDevice>
    requires own { WasOf (owned_of pool.now) last }
    requires only { kin_left last ≡ 0 }
    ensures own { WasOf (owned_of pool.now) result }
    ensures only { kin_left result ≡ 0 }
    ensures same_view { seen result.seat ≡ seen last.seat }
    ensures looked { LooksBehind pool.now last result }
{
    let mut handle = pool.handle_after(last);
    handle.fail(rt, fault, n);
    handle.leave()
}
