//! What callers of `pool_core` rest on: one function for each promise of its calls, proved from the contract of the call
//! alone. So it is refused as soon as that contract says less.
#![tactic(auto)]

mod steps;
