//! The program `mailx`: it makes the real host and the environment, calls `run`, and ends with the status' number.
#![tactic(auto)]

mod outside;

use host_real::RealHost;
use mail_text::{Items, Memory};
use mailx_top::{Environment, run};
use process_env::{variables, waiting_time, words};
use std::process::ExitCode;
use std::random::RandomSource;

fn start(rt: HostRuntime) -> Result<u8, Memory> {
    let alloc = rt.alloc();
    let words = words(&rt, alloc)?;
    let pairs = variables(&rt, alloc, &outside::NAMES)?;
    let mut token = [0u8; 8];
    if rt.fill_bytes(&mut token).is_err() {
        let _ = rt.write_all(b"mailx: input fault\n");
        return Ok(3);
    }
    let token = u64::from_le_bytes(token);
    let scratch = outside::scratch_name(alloc, &pairs, token)?;
    let env = Environment {
        pairs: Items::of(pairs),
        folder: outside::working_folder(&rt, alloc)?,
        terminal: outside::is_terminal(&rt, alloc)?,
        token,
    };
    let wait = waiting_time(&rt, alloc)?;
    let mut host = RealHost::new(rt, alloc, scratch.bytes(), wait)?;
    Ok(run(alloc, &words, &env, &mut host).number())
}

fn main(rt: HostRuntime) -> ExitCode {
    match start(rt) {
        Ok(status) => ExitCode::from(status),
        Err(_) => ExitCode::from(8),
    }
}
