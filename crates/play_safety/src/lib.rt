//! What the traces of plays leave, whatever others lawfully do meanwhile and wherever a run stops.
#![tactic(auto)]

mod laws;

pub use laws::{
    appended_follows, decided_fit, done_is_decided, plays_are_safe, replies_follow, traces_are_read,
};
