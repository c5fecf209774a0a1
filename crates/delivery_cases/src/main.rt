//! Deliveries over a host in memory. Standard input has the cases, each with what is wanted of it below a line `want`:
//! its status, what became of the files, and what its stops leave. The program prints the title
//! of each whose delivery differs, and how; and last how many cases there were.
//!
//! The lines of a case are those of `case_blocks`, and these:
//!
//! | Line | Meaning |
//! |---|---|
//! | `words WORD..` | the words of the command line, each between blanks |
//! | `env NAME=VALUE` | a variable of the environment |
//! | `token N` | the word that no other run has; without it 1 |
//! | `stops` | the delivery is stopped inside each event, with nothing, all or other bytes of it done, and recovered |
//!
//! A delivery is a line `status N` and what became of the disk (`file NAME` with its bytes, `gone NAME`, `lock NAME
//! TOKEN`), with `lost` if memory was refused. With `stops` a line `stops N: none A, all B` follows: after how many stops
//! the files are as before, and after how many as the whole delivery leaves them. Each other stop has a line `torn N PART`
//! with what it leaves.
#![tactic(auto)]

mod run;
mod stops;

use case_blocks::told;
use run::Deliveries;
use std::io;
use std::process::ExitCode;

fn main(rt: HostRuntime) -> ExitCode {
    match io::read_to_string(rt.alloc(), rt.reader()) {
        Ok(blocks) => ExitCode::from(told(rt.alloc(), &Deliveries, blocks.as_str()).write(&rt)),
        Err(_) => ExitCode::from(3),
    }
}
