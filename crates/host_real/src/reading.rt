// Reading a whole file, as it stood at one moment.
ghost use Rattle.std.specs.Prelude.{IfOk};
ghost use Rattle.host_port.specs.Calls.{FitsLoad};

use crate::folders::{led_to, refuse_opened};
use crate::kinds::{
    Stamp, is_absence, is_named_pipe, is_out_of_reach, open_both, open_to_read, stands_at,
};
use crate::locks::{Hold, Marks, hold_of, is_held};
use crate::paths::{Place, lock_path};
use crate::reasons::FileError;
use crate::waiting::{LockWait, Waits};
use host_port::LoadAnswer;
use mail_text::Text;
use std::alloc::Global;
use std::fs::{File, Files, OpenFile};
use std::io::{Eprint, Error, ErrorKind, Read};
use std::time::Clock;

/// The most bytes of a file that a load takes.
pub const LOAD_LIMIT: u64 = 268_435_456;

/// The shortest pause, in microseconds, between two looks at a lock.
const PAUSE: u64 = 20_000;

/// A file that was read, or its absence, and whether it stayed as it was meanwhile.
#[derive(Drop)]
struct Reading {
    bytes: Option<Text>,
    is_steady: bool,
}

// The bytes of an open file.
fn read_open<F: Read>(alloc: Global, file: &mut F, length: u64) -> Result<Vec<u8>, FileError> {
    if length > LOAD_LIMIT {
        return Err(FileError::TooLarge { length });
    }
    let mut bytes = Vec::with_capacity(alloc, length as usize + 1)?;
    file.take(LOAD_LIMIT + 1).read_to_end(&mut bytes)?;
    Ok(bytes)
}

// Whether an open file that was read is as it was before, and still the one that the path leads to.
fn is_as_before<R: Files>(rt: &R, path: &str, file: &R::File, before: &Stamp) -> bool {
    match (file.metadata(), led_to(rt, path)) {
        (Ok(after), Ok(named)) => {
            Stamp::of(&after) == *before && Stamp::of(&named).is_file_of(before)
        }
        _ => false,
    }
}

// Reads a file that can be opened. What is no regular file is read to its end, once. A pipe that nobody writes to is none
// that can be read.
fn read_found<R: Files>(
    rt: &R,
    alloc: Global,
    path: &str,
    mut file: R::File,
) -> Result<Reading, FileError>
    ensures { IfOk result (λ r. FitsLoad r.bytes) }
{
    let found = file.metadata()?;
    let before = Stamp::of(&found);
    let bytes = read_open(alloc, &mut file, found.len())?;
    let length = bytes.len() as u64;
    if length > LOAD_LIMIT {
        return Err(FileError::TooLarge { length });
    }
    if length == 0 && !found.is_file() && is_named_pipe(rt, path) {
        return Err(FileError::NotRegular);
    }
    let is_steady = !found.is_file() || is_as_before(rt, path, &file, &before);
    Ok(Reading {
        bytes: Some(Text::of(bytes)),
        is_steady,
    })
}

// Whether an error of opening says that the file is absent. Of a file that only mailx makes it says so too if no
// file can be, or if it is out of reach.
fn says_absent<R: Files>(rt: &R, place: &Place, error: &Error) -> bool {
    if place.is_made_here() {
        is_absence(error) || is_out_of_reach(rt, place.path())
    } else {
        error.kind() == ErrorKind::NotFound
    }
}

// Refuses what another has put in the place of a staged file, as a link, or of one of the run's own, since it would be
// read in the run's name.
fn refuse_other<R: Files>(rt: &R, place: &Place, file: &R::File) -> Result<(), FileError> {
    match place {
        Place::Staged { path, .. } if !stands_at(rt, path.as_str(), &file.metadata()?)? => {
            Err(FileError::NotRegular)
        }
        Place::Own(path) => refuse_opened(rt, path.as_str(), &file.metadata()?),
        _ => Ok(()),
    }
}

// Whether a file is the run's to change: it has locked it, or it makes it alone.
fn is_to_change(place: &Place, hold: Hold) -> bool {
    hold == Hold::Own || place.is_made_here()
}

// Opens a file to be read. Where it is the run's to change, nobody is waited for who puts a pipe in its place.
fn open_for<R: Files>(rt: &R, place: &Place, hold: Hold) -> Result<R::File, Error> {
    let path = place.path();
    if !is_to_change(place, hold) {
        return open_to_read(rt, path);
    }
    match open_both(rt, path) {
        Err(error) if is_only_read(&error) => File::open(rt, path),
        answer => answer,
    }
}

// Whether an error of opening a file says that it may not be written, here or by this user.
fn is_only_read(error: &Error) -> bool {
    let kind = error.kind();
    kind == ErrorKind::PermissionDenied || kind == ErrorKind::ReadOnlyFilesystem
}

// Refuses what another has put in the place of a file that is the run's to change.
fn refuse_pipe<F: OpenFile>(place: &Place, file: &F, hold: Hold) -> Result<(), FileError> {
    if is_to_change(place, hold) && !file.metadata()?.is_file() {
        return Err(FileError::NotRegular);
    }
    Ok(())
}

// Reads a file once.
fn read_once<R: Files>(
    rt: &R,
    alloc: Global,
    place: &Place,
    hold: Hold,
) -> Result<Reading, FileError>
    ensures { IfOk result (λ r. FitsLoad r.bytes) }
{
    let path = place.path();
    match open_for(rt, place, hold) {
        Ok(file) => {
            refuse_other(rt, place, &file)?;
            refuse_pipe(place, &file, hold)?;
            read_found(rt, alloc, path, file)
        }
        Err(error) if says_absent(rt, place, &error) => Ok(Reading {
            bytes: None,
            is_steady: true,
        }),
        Err(error) => Err(FileError::from(error)),
    }
}

// Reads a file whose lock is as it is told. If the file changed meanwhile, or a lock was put, it is read again; if
// it changed again it counts as held.
fn read_held<R: Files>(
    rt: &R,
    alloc: Global,
    place: &Place,
    lock: &str,
    hold: Hold,
) -> Result<LoadAnswer, FileError>
    ensures { IfOk result (λ a. FitsLoad a.bytes) }
{
    let is_free = hold == Hold::Free;
    let first = read_once(rt, alloc, place, hold)?;
    if first.is_steady && !(is_free && is_held(rt, lock)?) {
        return Ok(LoadAnswer {
            bytes: first.bytes,
            held: !is_free,
        });
    }
    drop(first);
    let second = read_once(rt, alloc, place, hold)?;
    let held = !is_free || !second.is_steady || is_held(rt, lock)?;
    Ok(LoadAnswer {
        bytes: second.bytes,
        held,
    })
}

// Refuses what is no regular file, if a file is locked by this run or is one of its own.
fn refuse_irregular<R: Files>(rt: &R, place: &Place, hold: Hold) -> Result<(), FileError> {
    if !is_to_change(place, hold) {
        return Ok(());
    }
    match rt.metadata(place.path()) {
        Ok(found) if !found.is_file() => Err(FileError::NotRegular),
        _ => Ok(()),
    }
}

/// What a load answers. A file that another has locked is waited for.
pub fn load<R: Files + Clock + Eprint>(
    rt: &R,
    alloc: Global,
    marks: &Marks,
    place: &Place,
    waits: Waits,
) -> Result<LoadAnswer, FileError>
    ensures { IfOk result (λ a. FitsLoad a.bytes) }
{
    let lock = lock_path(alloc, place.path())?;
    let lock = lock.as_str();
    let mut waiting = LockWait::new(rt, lock, waits, PAUSE);
    for _ in 0..u64::MAX {
        let hold = hold_of(rt, alloc, marks, lock)?;
        if hold == Hold::Other && waiting.again(rt, alloc) {
            continue;
        }
        refuse_irregular(rt, place, hold)?;
        let answer = read_held(rt, alloc, place, lock, hold)?;
        if hold != Hold::Free || !answer.held || !waiting.again(rt, alloc) {
            return Ok(answer);
        }
    }
    Err(FileError::from(Error::from(ErrorKind::TimedOut)))
}
