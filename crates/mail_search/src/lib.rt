//! Search criteria of message lists, in parentheses, with keys after RFC 3501, section 6.4.4: which words are criteria,
//! and which messages meet them.
#![tactic(auto)]

mod argument;
mod criterion;
mod day;
mod error;
mod laws;
mod matching;
mod message;
mod names;
mod needle;
mod read;
mod reader;
mod stack;
mod token;

pub use criterion::{Criterion, Facts};
pub use error::SearchError;
pub use laws::{criteria_are_found, one_criterion};
pub use matching::matches;
pub use read::read_criterion;
