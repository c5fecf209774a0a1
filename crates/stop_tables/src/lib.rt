//! Whole runs of a program over a host in memory, and tables of what is left of them: each run is stopped inside every
//! event, and so is each recovery of what that leaves; each call of a run and of recoveries fails; and another does a
//! step before each call. For the crates of tests.
//!
//! The lines of a script are those of `case_blocks`, and these:
//!
//! | Line | Meaning |
//! |---|---|
//! | `words WORD..` | the words of the command line, each between blanks |
//! | `env NAME=VALUE` | a variable of the environment; HOME is `/h` |
//! | `step STEP` | a step of another, in the words of a line `other` |
//! | `back STEP` | what the other does before the next call |
//! | `after TURN..` | what has become of the disk after these turns, in lines as `put_changes` puts them, to the next such line |
//!
//! The turns of a run are what decides how its disk is left. Before the first one the disk is as at the start.
//!
//! | Turn | It is |
//! |---|---|
//! | `commit` | the publication that decides a commit |
//! | `early` | a step of another that changes a file which wasn't loaded before |
//! | `other` | a step of another that changes one which was |
//! | `busy` | a lock or a right that the run doesn't get |
//! | `held` | a load outside a commit that sees a lock |
//! | `unread` | the user's start-up file can't be read; if nothing is wanted after turns with it, that without it is |
#![tactic(auto)]

mod carrying;
mod faults;
mod judging;
mod others;
mod scripts;
mod stops;
mod tally;
mod told;
mod turning;

pub use carrying::{Decided, Ending, Program};
pub use faults::{put_faults, put_faulty_recoveries};
pub use others::put_others;
pub use scripts::{Script, read_script};
pub use stops::put_stops;
pub use told::put_told;
