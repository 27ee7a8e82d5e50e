//! A pool whose steps a command makes.

ghost use Rattle.std.specs.Prelude.{◌≡◌, List, Option};
ghost use Rattle.std.specs.Option.{option_map};
ghost use Rattle.base.specs.declared.names.TxId.{TxId};
ghost use Rattle.base.specs.declared.operation.Shape.{Shape};
ghost use Rattle.base.specs.declared.step.Reply.{Reply};
ghost use Rattle.base.specs.declared.step.Step.{Step};

use base::{Plan, Reply, Step, TxId};
use device_model::SectorDevice;
use pool_core::PoolState;

/// A pool of which a command makes steps, one at a time: one that a session owns, or one that it calls.
pub trait SteppedPool {
    /// What a step with its reply makes of the pool.
    ghost makes: { Step → Reply → Self → Self → Type 0 };

    /// The plan of an open transaction.
    ghost plan_in: { TxId → Self → Option (List Shape) };

    /// Makes one step.
    fn step(&mut self, step: Step) -> Reply
        ensures { makes step result self.old self.new };

    /// The plan of an open transaction.
    fn open_plan(&self, tx: TxId) -> Option<&Plan>
        ensures { option_map (λ p. p.now) result ≡ plan_in tx self.now };
}

impl<D: SectorDevice> SteppedPool for PoolState<D> {
    ghost use Rattle.scripts.specs.OwnPools.{IsStepOf, open_plan};

    ghost makes = { IsStepOf };

    ghost plan_in = { open_plan };

    fn step(&mut self, step: Step) -> Reply {
        PoolState::step(self, step)
    }

    fn open_plan(&self, tx: TxId) -> Option<&Plan> {
        PoolState::open_plan(self, tx)
    }
}
