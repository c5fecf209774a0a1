//! One machine for commit and recovery.
#![tactic(auto)]

mod laws;
mod names;
mod safety;

pub use laws::{
    alone_goes, crash_safe, decisions_apply, decisions_are_told, edits_are_changes, front_is_run,
    no_record_stands, no_refused_is_decided, nothing_after_a_fault, nothing_left, only_decisions,
    recovery_settles, right_is_given_up, row_is_safe, row_moments, row_stops, row_stops_between,
    stop_safe, stretches_join, troubled_runs, worked_runs,
};
pub use names::{is_record_name, new_name, record_name, right_name, staged_name};
pub use safety::{events_have_rows, runs_are_safe};
