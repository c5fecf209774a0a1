//! The program `mail_spool`: it takes the words and the caller's number, calls `run` over the real folder, and ends with the
//! status' number.
#![tactic(auto)]

mod folder;
mod holding;
mod reasons;
mod way;
mod words;

use folder::RealSpool;
use mail_text::Memory;
use spool_rules::run;
use std::process::ExitCode;

/// The status of a call that memory was too short for.
const NO_MEMORY: u8 = 8;

fn start(rt: HostRuntime) -> Result<u8, Memory> {
    let alloc = rt.alloc();
    let words = words::words(&rt, alloc)?;
    let user = libc::geteuid();
    let mut folder = RealSpool::new(rt, alloc, user);
    Ok(run(alloc, user, &words, &mut folder).number())
}

fn main(rt: HostRuntime) -> ExitCode {
    match start(rt) {
        Ok(status) => ExitCode::from(status),
        Err(_) => ExitCode::from(NO_MEMORY),
    }
}
