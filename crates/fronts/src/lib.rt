//! What a crash leaves of a pool whose groups rise with the ordinals: the first commits, in their order.
#![tactic(auto)]

mod clients;
mod histories;
mod pools;
mod shared;

pub use histories::{
    cuts_are_fronts, fronts_are_cuts, fronts_need_rising, marked_fronts_are_first,
    rounds_lead_by_fronts, safe_disks_leave_fronts, steps_keep_rising, turns_keep_rising,
};
pub use pools::{
    calls_go_on_rising, durable_entries_have_all_before, durable_transacts_have_all_before,
    first_handles_rise, other_calls_go_on_rising, pool_steps_keep_rising,
    stepped_pools_leave_fronts, transactions_keep_rising, transacts_are_explained,
    transacts_go_on_rising, waits_stay_explained,
};
pub use shared::{
    opened_pools_are_in_order, orderly_turns_stay_in_order, other_calls_take_orderly_turns,
    shared_pools_leave_fronts, transacts_take_orderly_turns,
};
