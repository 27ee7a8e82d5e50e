//! The plan of a group's sync: from the transactions of the group, the blocks that its tree takes.
#![tactic(auto)]

mod clients;
mod laws;
mod old_maps;
mod planning;
mod prepared;
mod preparing;
mod sealed_objects;

pub use laws::{
    allowed_ops_take_place, estimates_add, groups_leave_objects, plans_fit_estimates,
    plans_make_trees, short_plans_lack_blocks,
};
pub use planning::{GroupSource, plan_group};
