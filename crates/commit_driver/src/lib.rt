//! The driver of commit and recovery: the machine's next call by how far a job has come, and how far it
//! has come after an answer.
#![tactic(auto)]

mod answers;
mod beginning;
pub mod calls;
mod decision;
mod driving;
mod judge;
mod making;
mod next;
mod place;
mod step;

pub use answers::{Reply, after, staged_names};
pub use beginning::{Begun, begin};
pub use driving::{drive, perform};
pub use next::{Call, Name, named, next_call};
pub use place::{Place, Plan};
pub use step::{End, Passed, Recovered, Step, Then};
