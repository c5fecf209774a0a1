//! Tests of the host of the real machine, over real files and programs.
#![tactic(auto)]

#[cfg(test)]
mod child_tests;
#[cfg(test)]
mod disk_tests;
#[cfg(test)]
mod edit_tests;
