//! What callers of `checked_blocks` and `tree_blocks` rest on: one function for each promise of their calls, proved from
//! the contract of the call alone. So it is refused as soon as that contract says less.
#![tactic(auto)]

mod blocks;
mod maps;
mod payloads;
mod places;
mod strips;
