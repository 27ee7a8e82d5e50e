//! The plans of the transactions that a session began.
//!
//! The words of a commit are bytes alone, so whoever makes its operations has to have the plan. A handle returns none:
//! the session keeps a copy of the plan that each transaction began with, until the transaction has ended.

ghost use Rattle.std.specs.Prelude.{◌≡◌, ◌<◌, [], true, IfOk, IsErr, OnOk, vec_capacity, vec_len};
ghost use Rattle.std.specs.Option.{option_map};
ghost use Rattle.script_sessions.specs.Plans.{HasRoomForPlan, change_of, is_begin, plan_named, plans_after, plans_without};

use base::{Plan, Reply, Step, TxId};
use script_lines::PoolCommand;
use std::alloc::{AllocError, Global};

/// A transaction that began, with its plan.
#[derive(Drop)]
pub(crate) struct BegunPlan {
    pub(crate) tx: TxId,
    pub(crate) plan: Plan,
}

/// What a command may change of the plans, if the pool does what it asks for.
#[derive(Drop)]
pub(crate) enum PlanChange {
    Nothing,
    Begins(Plan),
    Ends(TxId),
}

/// The plans of the transactions that began and have not ended.
#[derive(Drop)]
pub(crate) struct BegunPlans {
    plans: Vec<BegunPlan>,
}

impl BegunPlans {
    pub(crate) fn new(alloc: Global) -> Self
        ensures none { result.plans.items ≡ [] }
    {
        BegunPlans {
            plans: Vec::new(alloc),
        }
    }

    /// The plan of a transaction. `None` if none of this name began, or if it has ended.
    pub(crate) fn plan(&self, tx: TxId) -> Option<&Plan>
        ensures { option_map (λ p. p.now) result ≡ plan_named tx self.now.plans.items }
    {
        self.plans
            .iter()
            .find(|begun| begun.tx.0 == tx.0)
            .map(|begun| &begun.plan)
    }

    /// What a command may change, with room for it.
    ///
    /// # Errors
    /// `AllocError` if there is no memory for a plan's copy.
    pub(crate) fn change_of(
        &mut self,
        alloc: Global,
        command: &PoolCommand,
    ) -> Result<PlanChange, AllocError>
        ensures change { IfOk result (λ change. change ≡ change_of command.now) }
        ensures room { IfOk result (λ change. HasRoomForPlan change self.new.plans) }
        ensures refused { IsErr result → is_begin command.now ≡ true }
        ensures unchanged { self.new.plans.items ≡ self.old.plans.items }
    {
        match command {
            PoolCommand::Commit(tx, _) => Ok(PlanChange::Ends(*tx)),
            PoolCommand::Step(Step::Commit(tx, _) | Step::Abort(tx)) => Ok(PlanChange::Ends(*tx)),
            PoolCommand::Step(Step::Begin(_, plan)) => self.copy_plan(alloc, plan),
            _ => Ok(PlanChange::Nothing),
        }
    }

    fn copy_plan(&mut self, alloc: Global, plan: &Plan) -> Result<PlanChange, AllocError>
        ensures change { IfOk result (λ change. change ≡ PlanChange.Begins plan.now) }
        ensures room { OnOk result (vec_len self.new.plans < vec_capacity self.new.plans) }
        ensures unchanged { self.new.plans.items ≡ self.old.plans.items }
    {
        self.plans.reserve(1)?;
        Ok(PlanChange::Begins(plan.try_clone(alloc)?))
    }

    /// Keeps the plan of a transaction that began, and drops that of one that ended, as the pool replied.
    pub(crate) fn change(&mut self, change: PlanChange, reply: &Reply)
        requires room { HasRoomForPlan change self.old.plans }
        ensures { self.new.plans.items ≡ plans_after change reply.now self.old.plans.items }
    {
        match (change, reply) {
            (PlanChange::Begins(plan), Reply::Began(tx, _)) => self
                .plans
                .push_reserved(BegunPlan { tx: *tx, plan }),
            (PlanChange::Ends(tx), Reply::Committed(_)) => self.end(tx),
            (PlanChange::Ends(tx), Reply::Done) => self.end(tx),
            _ => {}
        }
    }

    fn end(&mut self, tx: TxId)
        ensures { self.new.plans.items ≡ plans_without tx self.old.plans.items }
    {
        self.plans.retain(|begun| begun.tx.0 != tx.0);
    }
}
