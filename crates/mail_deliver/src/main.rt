//! The program `mail_deliver`: it makes the real host and the environment, calls `deliver`, and ends with the status'
//! number. Of words that are refused it prints the usage on the standard error.
#![tactic(auto)]

use host_real::RealHost;
use mail_delivery::{DeliverStatus, Environment, deliver};
use mail_text::{Items, Memory};
use process_env::{variables, waiting_time, words};
use std::io::Eprint;
use std::process::ExitCode;
use std::random::RandomSource;

/// The variables that a delivery looks at.
const NAMES: [&str; 2] = ["LOGNAME", "TZ"];

/// What the words are to be.
const USAGE: &str = "usage: mail_deliver [-r SENDER] USER ..";

// Says the usage, where the words were refused. Nothing is said if the standard error takes nothing.
fn say_usage<R: Eprint>(rt: &R, status: &DeliverStatus) {
    match status {
        DeliverStatus::Usage => {
            let _ = rt.eprintln(format_args!("{USAGE}"));
        }
        _ => {}
    }
}

fn start(rt: HostRuntime) -> Result<u8, Memory> {
    let alloc = rt.alloc();
    let words = words(&rt, alloc)?;
    let pairs = variables(&rt, alloc, &NAMES)?;
    let mut token = [0u8; 8];
    if rt.fill_bytes(&mut token).is_err() {
        return Ok(3);
    }
    let env = Environment {
        pairs: Items::of(pairs),
        token: u64::from_le_bytes(token),
    };
    let wait = waiting_time(&rt, alloc)?;
    let mut host = RealHost::new(rt, alloc, b"", wait)?;
    host.deliver();
    let status = deliver(alloc, &words, &env, &mut host);
    say_usage(&rt, &status);
    Ok(status.number())
}

fn main(rt: HostRuntime) -> ExitCode {
    match start(rt) {
        Ok(status) => ExitCode::from(status),
        Err(_) => ExitCode::from(8),
    }
}
