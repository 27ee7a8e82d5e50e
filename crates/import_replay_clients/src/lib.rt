//! What callers of `import_replay` and `inspections` rest on: one function for each promise of their calls, proved from
//! the contract of the call alone. So it is refused as soon as that contract says less.
#![tactic(auto)]

mod creates;
mod imports;
mod replays;
mod reports;
