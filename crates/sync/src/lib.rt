//! Syncs, one device call at a time.
#![tactic(auto)]

mod call;
mod clients;
mod laws;
mod run;

pub use laws::{
    blocks_are_written, calls_are_writable, configs_are_staged, syncs_begin_at_rest,
    syncs_begin_with_nothing, syncs_end_at_rest, syncs_have_phases, syncs_hold_logs,
    syncs_keep_phases, syncs_take_log_blocks, syncs_take_log_flushes,
};
pub use run::{LabelStages, SyncCall, SyncRun};
