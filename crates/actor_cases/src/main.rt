//! Cases of many actors on one disk. Standard input has the cases, each with what its lines answer below a line `want`.
//! The program prints the title of each whose answers differ, and how; and last how many cases there were.
//!
//! The lines of a case are those of `case_blocks` that tell the disk at the start, and these, which are carried out in
//! their order. Actors go by their numbers, from 1, in the order of their lines.
//!
//! | Line | What is printed |
//! |---|---|
//! | `actor NAME TOKEN` | nothing |
//! | `begin` | `yes`, or why these actors can't begin |
//! | `step N commit CHANGE ; CHANGE..` | `yes`, or `no` if the step of actor N isn't allowed |
//! | `step N recover`, `step N refuse` | the same |
//! | `step N fail PART`, `step N stop PART` | the same; a part is `before`, `after`, `nothing` or `bytes TEXT` |
//! | `step N call COUNT` | the same of so many calls; `no` if one of them isn't allowed |
//! | `places` | the token of each commit place, in order |
//! | `doing` | what each actor is doing |
//! | `files`, `locks` | each file that stands, with its bytes; each lock with its token |
//! | `settled` | the files and the locks that recovery by all would leave |
//! | `all N..` | what all orders come to of the calls of those that are at work, each followed by a recovery by each actor N |
//! | `cuts K N..` | the same of orders in which one call is cut: its actor stops inside it, or it fails, or memory is wanted |
//!
//! A change is `KIND NAME TEXT|TEXT.. BASE`. The kinds are `add`, `front`, `raw`, and `keep` and `drop`, which are
//! rewrites, whose base are the texts in BASE. A minus alone is no text.
//!
//! `all` goes through the states that the orders come to, each once, and counts the orders. In each state what recovery
//! by all would leave is compared with the files of the start and the changes of the commit places, in order, which a
//! fold of its own makes; behind the recoveries these files stand, and nothing else. It prints how many states there
//! were, how many of them were wrong, with the steps that come to the first; and how many orders end with which commit
//! places. `cuts` cuts each call, in each way and with each part of it done, in each Kth of these states, and goes on
//! from there in all orders; it prints in how many states it did, and of the orders with a cut the same.
#![tactic(auto)]

mod changes;
mod files;
mod folding;
mod scripts;
mod states;
mod tables;

use case_blocks::told;
use scripts::Scripts;
use std::io;
use std::process::ExitCode;

fn main(rt: HostRuntime) -> ExitCode {
    match io::read_to_string(rt.alloc(), rt.reader()) {
        Ok(blocks) => ExitCode::from(told(rt.alloc(), &Scripts, blocks.as_str()).write(&rt)),
        Err(_) => ExitCode::from(3),
    }
}
