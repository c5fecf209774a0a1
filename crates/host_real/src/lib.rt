//! The outside of the real machine: its standard input and output, its files, locks and rights made of files, the
//! programs that it runs, and its clock.
#![tactic(auto)]

mod children;
mod deliveries;
mod disk;
mod editors;
mod files;
mod folders;
mod kinds;
mod leases;
mod locks;
mod paths;
mod reading;
mod real;
mod reasons;
mod rights;
mod spool;
mod standing;
mod streams;
mod tails;
mod waiting;

pub use real::RealHost;
