//! Plans of syncs: which blocks the tree of a group has, and where they lie.
#![tactic(auto)]

mod ahead;
mod changed_object;
mod changes;
mod clients;
mod freed;
mod new_entry;
mod payload;
mod plan_source;
mod planner;
mod sealed_source;
mod walk;

pub use changes::{ObjectChanges, changed_objects};
pub use plan_source::PlanSource;
pub use planner::{PlannedBlock, TreePlan};
pub use sealed_source::SealedSource;
pub use walk::plan;
