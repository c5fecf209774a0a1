//! What many actors leave on one disk, whatever the order of their calls: the files of the start with the changes of the
//! commits that passed their commit place, in the order of these places.
#![tactic(auto)]

mod laws;

pub use laws::{
    added_texts_stay, calls_can_be_told, each_step_settles, every_interleaving, messages_stay,
    places_are_folded, programs_interleave, programs_settle, refusals_are_these, runs_are_steps,
    traces_are_runs,
};
