//! Recovery: a commit that was stopped is carried out, if it was decided, and else undone.
#![tactic(auto)]

mod error;
mod recovery;

pub use commit_driver::Recovered;
pub use error::RecoverError;
pub use recovery::recover;
