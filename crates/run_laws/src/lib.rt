//! What holds of whole runs, in words that aren't the code's: laws alone.
#![tactic(auto)]

mod laws;

pub use laws::{
    commits_add_up, deliveries_are_programs, deliveries_show_steps, done_have_places,
    edits_keep_messages, filings_keep_messages, plays_are_programs, plays_show_steps,
    promises_stand, quits_keep_messages, run_promises_stand, runs_are_lawful, runs_are_programs,
    runs_in_a_row, runs_interleave, runs_show_steps, stopped_are_programs, worked_run,
};
