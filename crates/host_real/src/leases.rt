// Leases: by one the user of a file holds up, for the better part of a minute, whoever opens it.
use crate::kinds::{look, user};
use std::alloc::{AllocError, Global};
use std::fs::{File, Files, Metadata};
use std::io::{Error, Read};
use std::os::unix::fs::MetadataExt;

/// The system's list of locks and leases.
const LIST: &str = "/proc/locks";

/// The most bytes of the list that are looked at.
const MOST: u64 = 4_194_304;

/// The bits of a device's number that have its second half.
const LOW_BITS: u64 = 0xff;

// The list of locks and leases.
fn read_list<R: Files>(rt: &R, alloc: Global) -> Result<Vec<u8>, Error> {
    let mut bytes = Vec::new(alloc);
    let mut file = File::open(rt, LIST)?;
    (&mut file).take(MOST).read_to_end(&mut bytes)?;
    Ok(bytes)
}

// What a line of the list has for a file: the two halves of its device's number, and its own.
fn word_of(alloc: Global, found: &Metadata) -> Result<String, AllocError> {
    let device = found.dev();
    let major = (device >> 8) & 0xfff;
    let minor = (device & LOW_BITS) | ((device >> 12) & 0xfff_ff00);
    let number = found.ino();
    format!(in alloc; "{major:02x}:{minor:02x}:{number}")
}

// Whether a list has a lease on a file.
fn has_lease(list: &str, word: &str) -> bool {
    let is_of_file = |line: &str| line.split(' ').any(|part| part == word);
    list.split('\n')
        .any(|line| line.contains(" LEASE ") && is_of_file(line))
}

/// Whether another user, to whom the system's administrator delivers, has a lease on his file. As far as the system tells.
pub fn is_leased<R: Files>(rt: &R, alloc: Global, path: &str) -> bool {
    if user() != 0 {
        return false;
    }
    let found = match look(rt, path) {
        Ok(Some(found)) if found.uid() != 0 => found,
        _ => return false,
    };
    let (Ok(list), Ok(word)) = (read_list(rt, alloc), word_of(alloc, &found)) else {
        return false;
    };
    match str::from_utf8(list.as_slice()) {
        Ok(list) => has_lease(list, word.as_str()),
        Err(_) => false,
    }
}
