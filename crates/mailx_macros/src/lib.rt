//! Macros: lines of commands by name, and the definition that is under way.
#![tactic(auto)]

mod error;
mod laws;
mod macros;

pub use error::MacroError;
pub use laws::macros_are_kept;
pub use macros::Macros;
