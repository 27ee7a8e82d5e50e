//! What a power failure leaves of the commands `put` and `rm`: the first of their transactions, in order.
#![tactic(auto)]

mod laws;

pub use laws::{
    puts_follow_commands, puts_survive_in_order, removals_follow_commands,
    removals_survive_in_order,
};
