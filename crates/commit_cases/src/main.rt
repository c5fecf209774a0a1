//! Cases of the host in memory, of changes, records, commits and recoveries, and of mail that is sent. Standard input
//! has the cases, each with what its lines answer below a line `want`. The program prints the
//! title of each whose answers differ, and how; and last how many cases there were.
//!
//! The lines of a case are those of `case_blocks`, and these, which are carried out in their order. A line `do` is a
//! call of the host or of a library over it; the actor of recoveries and commits is `/h/m`, and their token 1.
//!
//! | Line | What is printed |
//! |---|---|
//! | `do fill` | the bytes of the input that come, of 8 at most |
//! | `do say TEXT`, `do stage NAME TEXT`, `do erase NAME` | `done` or `fault` |
//! | `do extend NAME N TEXT` | the same, of a file of which N bytes stay |
//! | `do unlock NAME TOKEN`, `do release NAME` | `done` or `fault` |
//! | `do publish FROM TO`, `do lock NAME TOKEN`, `do seize NAME` | `yes`, `no` or `fault` |
//! | `do load NAME` | what was seen |
//! | `do child PROGRAM INPUT ARGUMENT..` | the child's status and output, or the length of a long one; `, cut` |
//! | `do now` | the time |
//! | `do send SENDER MESSAGE NAME..` | how the sending ended; SENDER is `sendmail`, and `-` if that is unset |
//! | `do recover`, `do add NAME TEXT` | how the recovery, or the commit that adds the text to the file, ended |
//! | `do empty NAME TEXT` | how the commit ended that leaves a file without a message, read before as the text |
//! | `do commit CHANGE ; CHANGE.. / BASE` | how the commit of these changes ended, an error in its words |
//! | `do many LINE` | the same, of a line that is written with escapes as a whole |
//! | `letters` | a letter for each event so far |
//! | `children` | of each child so far its program, its arguments and its input, each in `<>` |
//! | `sendable NAME..` | `yes`, or why mail can't be sent to these names |
//! | `stop N PART` | what a stop inside the event of this number leaves, of which this part was done |
//! | `stops` | what a recovery leaves after a stop inside each event, with each part of it done |
//! | `change KIND / CURRENT / BASE / TEXT\|TEXT..` | what a change makes of a file; `-` is no file |
//! | `write PHASE TOKEN NAME\|NAME..` | whether such a record is valid, its text, and whether it is read back |
//! | `read` | whether the text below the line `record` is one |
//! | `swap OLD => NEW` | the same of this text if the first OLD is replaced |
//! | `lawful NAME`, `own NAME` | whether a record may have the name; whether a commit of the actor may change it |
//! | `names ACTOR TOKEN NAME` | the names of the record, of the new one, of the right and of a staged file |
//! | `taken ACTOR NAME` | whether the name is that of the actor's record |
//! | `large` | what comes of files past a limit |
//! | `settled NAME` | the file and the lock of a name on the disk before the case, once the actor's recovery is done |
//! | `sound`, `stands` | whether that disk is sound for the actor; the phase of its record there |
//!
//! Of `write` a NAME with `!` before it is removed, and one with `+N:` before it extended behind N bytes; a TOKEN with
//! `@SECONDS` behind it is that of a record with this moment. Of `recover` the moment of the record that was found comes
//! after ` of `, if it has one.
//!
//! A change of `do commit` is `KIND NAME TEXT|TEXT..`, and BASE, which may be left out with its slash, the text
//! that the rewrites were made for. The kinds are `keep` and `drop`, which are rewrites, `add`, `front` and `raw`.
//! Of `stops` a stop is left out that leaves what the one before it does (the first, if it leaves what was there). There
//! comes a line if another stop inside a recovery, recovered again, leaves something else.
//!
//! Of a case with calls there come last how many events there are, and what became of the disk.
#![tactic(auto)]

mod calls;
mod changes;
mod commits;
mod large;
mod laws;
mod names;
mod pure;
mod records;
mod script;
mod sending;
mod settled;
mod stops;

use case_blocks::told;
use script::Script;
use std::io;
use std::process::ExitCode;

fn main(rt: HostRuntime) -> ExitCode {
    laws::call();
    match io::read_to_string(rt.alloc(), rt.reader()) {
        Ok(blocks) => ExitCode::from(told(rt.alloc(), &Script, blocks.as_str()).write(&rt)),
        Err(_) => ExitCode::from(3),
    }
}
