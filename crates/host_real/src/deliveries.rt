// What becomes of a delivery where another has changed a mailbox under the administrator's lock, or has taken it or the lock
// away. That is his own change: all others' deliveries would wait for the end of a fault.
use crate::files::{rename_file, write_new};
use crate::kinds::{is_absence, look, open_both};
use crate::locks::lock_again;
use crate::paths::{beside_name, folder_of};
use crate::reasons::FileError;
use crate::tails::{append_anyhow, undivided};
use std::alloc::Global;
use std::fs::{File, Files};
use std::io::{Error, Read};
use std::time::{Clock, Duration};

/// How often a mailbox is looked at which another changes each time.
const TRIES: usize = 64;

/// What is to be put into a mailbox: the digits of its lock, where the text was to stand, and the text.
#[derive(Clone, Copy)]
pub struct Part<'a> {
    pub digits: &'a str,
    pub at: u64,
    pub text: &'a [u8],
}

// Takes away what is no file. A folder may hold something, so it gets another name.
fn move_aside<R: Files>(
    rt: &R,
    alloc: Global,
    path: &str,
    digits: &str,
    is_folder: bool,
) -> Result<(), FileError> {
    if !is_folder {
        return Ok(rt.remove_file(path)?);
    }
    let aside = format!(in alloc; "{path}.lock.mx{digits}.aside")?;
    rename_file(rt, path, aside.as_str())?;
    Ok(())
}

// Puts a text into a mailbox, as it stands or anew. False if it has to be looked at again.
fn put_once<R: Files<File = File>>(
    rt: &R,
    alloc: Global,
    path: &str,
    part: Part<'_>,
) -> Result<bool, FileError> {
    let digits = part.digits;
    match look(rt, path)? {
        None => {
            let beside = beside_name(alloc, path, digits)?;
            write_new(rt, path, beside.as_str(), undivided(part.text))
        }
        Some(found) if found.is_file() => {
            append_anyhow(rt, alloc, path, digits, part.at, part.text)?;
            Ok(true)
        }
        Some(found) => {
            move_aside(rt, alloc, path, digits, found.is_dir())?;
            Ok(false)
        }
    }
}

// Whether the folder of a path is gone, with all that was in it.
fn is_folder_gone<R: Files>(rt: &R, path: &str) -> bool {
    match rt.metadata(folder_of(path)) {
        Ok(found) => !found.is_dir(),
        Err(error) => is_absence(&error),
    }
}

/// Puts a text into a mailbox, whatever stands there, under the lock, which is put again if it is gone. If the folder is
/// gone too, so is what was to be put there.
pub fn put_anyhow<R: Files<File = File> + Clock>(
    rt: &R,
    alloc: Global,
    path: &str,
    part: Part<'_>,
    wait: Duration,
) -> Result<(), FileError> {
    match lock_again(rt, alloc, path, part.digits, wait) {
        Err(FileError::System(error)) if !is_absence(&error) => {
            return Err(FileError::System(error));
        }
        _ => {}
    }
    for _ in 0..TRIES {
        match put_once(rt, alloc, path, part) {
            Ok(true) => return Ok(()),
            Ok(false) => {}
            Err(error) if error.is_of_others() => {}
            Err(error) => return Err(error),
        }
    }
    if is_folder_gone(rt, path) {
        Ok(())
    } else {
        Err(FileError::Changed)
    }
}

/// The bytes of what was staged, if it is a file still.
pub fn staged_bytes<R: Files<File = File>>(
    rt: &R,
    alloc: Global,
    staged: &str,
) -> Result<Option<Vec<u8>>, Error> {
    let mut file = match open_both(rt, staged) {
        Ok(file) => file,
        Err(error) if is_absence(&error) => return Ok(None),
        Err(error) => return Err(error),
    };
    if !file.metadata()?.is_file() {
        return Ok(None);
    }
    let mut bytes = Vec::new(alloc);
    file.read_to_end(&mut bytes)?;
    Ok(Some(bytes))
}
