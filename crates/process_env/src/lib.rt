//! What a program is handed as it starts: the words of its command line, and variables of its environment.
#![tactic(auto)]

mod handed;

pub use handed::{variables, waiting_time, words};
