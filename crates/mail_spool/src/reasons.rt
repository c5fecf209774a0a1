// Why a call failed, in words for the standard error.
use crate::way::FOLDER;
use spool_rules::Stop;
use std::io::{Eprint, Error, ErrorKind};

/// Prints why a call failed: what it was about, and what the system says.
pub fn tell<R: Eprint>(rt: &R, about: &str, error: &Error) {
    let _ = rt.eprintln(format_args!("mail_spool: {about}: {error}"));
}

/// What a failed call comes to, whose reason is printed.
pub fn stop_of<R: Eprint>(rt: &R, about: &str, error: Error) -> Stop {
    if error.kind() == ErrorKind::OutOfMemory {
        return Stop::Memory;
    }
    tell(rt, about, &error);
    Stop::Disk
}

/// The same of a call on a name in the folder. It is refused where another run has what stands there.
pub fn stop_at<R: Eprint>(rt: &R, name: &str, error: Error) -> Stop {
    let folder = FOLDER;
    match error.kind() {
        ErrorKind::OutOfMemory => return Stop::Memory,
        _ => {
            let _ = rt.eprintln(format_args!("mail_spool: {folder}/{name}: {error}"));
        }
    }
    if error.kind() == ErrorKind::WouldBlock {
        Stop::Refused
    } else {
        Stop::Disk
    }
}
