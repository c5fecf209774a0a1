//! What many actors do on one disk, step by step: the changes that they commit, the calls that they make, and the files
//! that their commits leave once all is settled.
#![tactic(auto)]

mod actor;
mod change;
mod laws;
mod step;

pub use actor::{Actor, Doing, Member, Past, Task};
pub use change::CoreChange;
pub use laws::brackets_are_steps;
pub use step::{CoreStep, StepKind};
