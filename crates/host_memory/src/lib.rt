//! A host in memory that tells its trace: its files, its input and what happens to it are given, its calls fail and
//! others step in as planned, and what a stop at any of its calls leaves can be looked at.
#![tactic(auto)]

mod calls;
mod children;
mod disk_calls;
mod editors;
mod ending;
mod filling;
mod images;
mod memory;
mod plan;
mod tape;

pub use memory::MemHost;
pub use plan::Plan;
