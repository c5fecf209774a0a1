//! The helper's call `run` over a folder in memory, which tells its calls.
#![tactic(auto)]

#[cfg(test)]
mod folder;
#[cfg(test)]
mod tests;
