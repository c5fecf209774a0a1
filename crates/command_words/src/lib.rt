//! The words of the command line: which mode they ask for, and with which options.
#![tactic(auto)]

mod error;
mod mode;
mod names;
mod options;
mod parse;
mod reading;
mod refused;
mod texts;

pub use error::WordsError;
pub use mode::Mode;
pub use names::names_in;
pub use options::Options;
pub use reading::{Wanted, read_words};
