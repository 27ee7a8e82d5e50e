//! The line of transaction groups, and how many open transactions hold each.
#![tactic(auto)]

mod clients;
mod laws;
mod line;

pub use laws::{
    begins_are_held, ends_are_released, holds_count_transactions, moves_keep_holds,
    new_lines_have_no_hold, open_ones_are_named_apart,
};
pub use line::Groups;
