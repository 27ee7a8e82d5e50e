//! The dirty bytes of the unsynced groups, and the limit at which a transaction has to wait.
#![tactic(auto)]

mod clients;
mod dirty;
mod laws;

pub use dirty::Dirty;
pub use laws::{
    aborts_are_shown, admissions_are_shown, admits_are_entered, blocks_follow_sums,
    cancels_undo_admits, holding_groups_are_charged, new_sums_are_on_lines, new_sums_are_shown,
    open_ones_stay_charged, plans_ask_for_blocks, shown_totals_agree, sums_stay_on_lines,
    syncs_are_shown, totals_agree,
};
