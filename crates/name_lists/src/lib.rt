//! Names in order, each once, ASCII case ignored.
#![tactic(auto)]

mod names;

pub use names::Names;
