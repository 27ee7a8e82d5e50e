//! Transactions: the plans that they keep to, and which of them are open.
#![tactic(auto)]

mod indexed;
mod laws;
mod lock_plan;
mod open;
mod plan;
mod range_index;

pub use laws::lock_ranges_rise;
pub use lock_plan::lock_ranges;
pub use open::{OpenTransaction, OpenTransactions};
pub use plan::{
    charge, estimate, is_in_plan, is_plan_allowed, is_shrinking, plans_overlap, range_of,
};
