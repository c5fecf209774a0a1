//! Many actors on one disk, step by step: who may begin, what each step makes of the disk, and what recovery by all of
//! them would leave.
#![tactic(auto)]

mod error;
mod many;
mod taking;
mod turning;

pub use core_steps::{Actor, CoreChange, CoreStep, Doing, Member, Past, StepKind, Task};
pub use error::CoreError;
pub use many::Core;
