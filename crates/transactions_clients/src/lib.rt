//! What callers of `transactions` and `records` rest on: one function for each promise of their calls, proved from the
//! contract of the call alone. So it is refused as soon as that contract says less.
#![tactic(auto)]

mod admitted;
mod log_records;
mod plans;
