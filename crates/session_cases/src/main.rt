//! Whole runs of the program over a host in memory. Standard input has the cases, each with what is wanted of its run
//! below a line `want`: what it prints, its status, and what became of the files; or what tables of its stops and faults
//! come to. The program prints the title of each whose run differs, and how; and last how many cases there were.
//!
//! The lines of a case are those of `case_blocks`, and these:
//!
//! | Line | Meaning |
//! |---|---|
//! | `words WORD..` | the words of the command line, each between blanks |
//! | `env NAME=VALUE` | a variable of the environment |
//! | `folder NAME` | the working folder; without it that isn't known |
//! | `terminal` | the input is a terminal |
//! | `token N` | the word that no other run has; without it 1 |
//! | `trial N` | the run is a trial on N messages; the disk counts as changed from that of the case |
//! | `children` | what each child that ran was given is told |
//! | `edits` | what each editor that ran was given is told |
//! | `tables` | the case is a script of `stop_tables`, of whose runs tables are made; most stand in a block `always` |
//!
//! A run is its output in lines `|TEXT` (the last `:TEXT` if it has no line feed), with `children` a line `ran <PROGRAM>
//! <ARGUMENT>..` for each child and below it the input in such lines, with `edits` a line `edited <NAME> <SHELL> <COMMAND>`
//! for each editor and below it the text, `status N`, what became of the disk (`file NAME` with its bytes, `gone NAME`,
//! `lock NAME TOKEN`), and `lost` if memory was refused.
//!
//! The lines below `want` are what the tables of a script come to:
//!
//! | Line | The tables |
//! |---|---|
//! | none of these | `stops`, `stopped recoveries`, `faults`, `faulty recoveries` |
//! | `step STEP` | `steps of another`: a step of another before each call in turn |
//! | `commit` | what a commit says of whether it was decided; its words are names of files, each with what is put at its end |
//!
//! | Table | Its entries |
//! |---|---|
//! | stops | a stop inside an event, with nothing, all or other bytes of it done, and a run of `-e` that recovers it |
//! | stopped recoveries | stops inside such a run that leave something new, and a second one that recovers it |
//! | faults | a call that fails, with nothing, all or other bytes of it done: what the run does, and what recovery leaves |
//! | faulty recoveries | the same of each call of a recovery just before a decision and just after it |
//! | steps of another | what the run prints, its status and its disk, if the step is lawful there |
#![tactic(auto)]

mod committing;
mod run;
mod running;
mod tables;

use case_blocks::told;
use std::io;
use std::process::ExitCode;
use tables::Cases;

fn main(rt: HostRuntime) -> ExitCode {
    match io::read_to_string(rt.alloc(), rt.reader()) {
        Ok(blocks) => ExitCode::from(told(rt.alloc(), &Cases, blocks.as_str()).write(&rt)),
        Err(_) => ExitCode::from(3),
    }
}
