//! Variables with their values in order of first setting, the places that a run takes from its environment, and what a
//! file name stands for.
#![tactic(auto)]

mod environment;
mod error;
mod expand;
mod laws;
mod names;
mod settings;

pub use environment::{Places, knows_user};
pub use error::{NameError, VarError};
pub use expand::expand_name;
pub use laws::variables_are_kept;
pub use names::{is_short_name, is_user_name, is_variable_name};
pub use settings::{Setting, Vars};
