//! Conditions of start-up files and macros: `if`, `else` and `endif`, and whether the lines between them are
//! carried out.
#![tactic(auto)]

mod conditions;
mod error;
mod laws;

pub use conditions::{Condition, Conditions, Mode};
pub use error::CondError;
pub use laws::conditions_nest;
