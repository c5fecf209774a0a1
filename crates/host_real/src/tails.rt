// The tail of a file, written behind the bytes that stay of it, durably.
use crate::files::{create_private, give_as, rename_file};
use crate::kinds::{look, refuse_kind, stands_at, user};
use crate::locks::{Marks, is_as_locked, locker_of};
use crate::paths::beside_name;
use crate::reasons::FileError;
use std::alloc::Global;
use std::fs::{File, Files, OpenOptions};
use std::io::{Error, ErrorKind, Read, Seek, SeekFrom, Write, copy};
use std::os::unix::fs::MetadataExt;

/// An open file that is to be extended; whether that is done in it: its user may write it, and it has one name; and
/// whether it is another user's, to whom the system's administrator delivers.
#[derive(Drop)]
struct Opened {
    file: File,
    in_place: bool,
    is_anothers: bool,
}

// Whether an error of opening a file for writing says that nobody may write it, by its mode or since it is a program that
// runs. It can be replaced.
fn is_of_file(error: &Error) -> bool {
    let kind = error.kind();
    kind == ErrorKind::PermissionDenied || kind == ErrorKind::ExecutableFileBusy
}

// Opens what stands at a path for an extension.
fn open_standing<R: Files<File = File>>(rt: &R, path: &str) -> Result<Opened, FileError> {
    match look(rt, path)? {
        Some(found) => refuse_kind(&found)?,
        None => return Err(FileError::Changed),
    }
    match OpenOptions::new().read(true).append(true).open(rt, path) {
        Ok(file) => {
            let found = file.metadata()?;
            refuse_kind(&found)?;
            if !stands_at(rt, path, &found)? {
                return Err(FileError::Changed);
            }
            Ok(Opened {
                file,
                in_place: found.nlink() == 1,
                is_anothers: user() == 0 && found.uid() != 0,
            })
        }
        Err(error) if is_of_file(&error) => Ok(Opened {
            file: File::open(rt, path)?,
            in_place: false,
            is_anothers: false,
        }),
        Err(error) => Err(FileError::from(error)),
    }
}

// Whether bytes are a part of a tail. What didn't reach the device before the machine stopped is zero.
fn is_part(bytes: &[u8], tail: &[u8]) -> bool {
    bytes.len() <= tail.len()
        && bytes
            .iter()
            .zip(tail.iter())
            .all(|(have, want)| have == want || *have == 0)
}

// Whether a whole tail stands behind the bytes that stay of a file: at most one byte more than it has is looked at.
// Bytes of another are refused, unless the file is as it was locked.
fn stands_whole(
    alloc: Global,
    file: &mut File,
    at: u64,
    tail: &[u8],
    as_locked: bool,
) -> Result<bool, FileError> {
    if file.metadata()?.len() < at {
        return Err(FileError::Changed);
    }
    let mut behind = Vec::new(alloc);
    file.seek(SeekFrom::Start(at))?;
    let most = (tail.len() as u64).saturating_add(1);
    file.take(most).read_to_end(&mut behind)?;
    let behind = behind.as_slice();
    if behind.starts_with(tail) {
        Ok(true)
    } else if as_locked || is_part(behind, tail) {
        Ok(false)
    } else {
        Err(FileError::Changed)
    }
}

// Writes a tail of which a part may stand.
fn write_tail(file: &mut File, at: u64, tail: &[u8]) -> Result<(), Error> {
    if file.metadata()?.len() > at {
        file.set_len(at)?;
    }
    file.write_all(tail)?;
    file.sync_all()
}

// Writes a tail that stands again: of what an earlier sync failed to bring to the device, a later one says nothing. The tail
// is cut off before, since a file system may not bring bytes to the device that are only written over, where it gave them
// no place at the first time. If others put something behind it, or the file isn't extended in its place, a copy of all that
// stands takes its place.
fn write_again<R: Files<File = File>>(
    rt: &R,
    alloc: Global,
    path: &str,
    digits: &str,
    opened: &mut Opened,
    at: u64,
    tail: &[u8],
) -> Result<(), FileError> {
    let length = opened.file.metadata()?.len();
    if opened.in_place && length == at.saturating_add(tail.len() as u64) {
        return Ok(write_tail(&mut opened.file, at, tail)?);
    }
    let copied = Copied::of(length, b"");
    replace_by_copy(rt, alloc, path, digits, &mut opened.file, copied)
}

/// What a copy of a file has: so many bytes of the file, and behind them line feeds and a tail. Of a file that another
/// makes shorter meanwhile there may be less.
#[derive(Clone, Copy)]
struct Copied<'a> {
    at: u64,
    gap: &'a [u8],
    tail: &'a [u8],
    may_lack: bool,
}

impl<'a> Copied<'a> {
    fn of(at: u64, tail: &'a [u8]) -> Copied<'a> {
        Copied {
            at,
            gap: b"",
            tail,
            may_lack: false,
        }
    }
}

// Writes a copy under another name.
fn write_copy<R: Files<File = File>>(
    rt: &R,
    path: &str,
    beside: &str,
    file: &mut File,
    copied: Copied<'_>,
) -> Result<(), Error> {
    let mut anew = create_private(rt, beside)?;
    file.seek(SeekFrom::Start(0))?;
    if copy(&mut file.take(copied.at), &mut anew)? < copied.at && !copied.may_lack {
        return Err(Error::from(ErrorKind::UnexpectedEof));
    }
    anew.write_all(copied.gap)?;
    anew.write_all(copied.tail)?;
    give_as(rt, &anew, path)?;
    anew.sync_all()
}

// Puts a copy in the place of a file: that may not be written, that has another name too, or that its user has changed.
fn replace_by_copy<R: Files<File = File>>(
    rt: &R,
    alloc: Global,
    path: &str,
    digits: &str,
    file: &mut File,
    copied: Copied<'_>,
) -> Result<(), FileError> {
    let beside = beside_name(alloc, path, digits)?;
    let beside = beside.as_str();
    let made = match write_copy(rt, path, beside, file, copied) {
        Ok(()) => rename_file(rt, beside, path),
        Err(error) => Err(FileError::from(error)),
    };
    match made {
        Ok(true) => Ok(()),
        Ok(false) => Err(FileError::LockGone),
        Err(error) => {
            let _ = rt.remove_file(beside);
            Err(error)
        }
    }
}

// Up to so many bytes of a file, from a place on.
fn piece(alloc: Global, file: &mut File, start: u64, length: u64) -> Result<Vec<u8>, FileError> {
    let mut bytes = Vec::new(alloc);
    file.seek(SeekFrom::Start(start))?;
    file.take(length).read_to_end(&mut bytes)?;
    Ok(bytes)
}

// Whether a file has these bytes at a place.
fn has_at(alloc: Global, file: &mut File, start: u64, bytes: &[u8]) -> Result<bool, FileError> {
    Ok(piece(alloc, file, start, bytes.len() as u64)?.as_slice() == bytes)
}

/// A text without the line feeds in front that divide it from the one before.
pub fn undivided(tail: &[u8]) -> &[u8] {
    let feeds = tail.iter().take_while(|b| **b == b'\n').count();
    tail.get(feeds..).unwrap_or(tail)
}

// The line feeds that a file of this length lacks to be empty or to end with an empty line.
fn gap_of(alloc: Global, file: &mut File, length: u64) -> Result<&'static [u8], FileError> {
    let end = piece(alloc, file, length.saturating_sub(2), 2)?;
    let end = end.as_slice();
    let gap: &[u8] = if end.is_empty() || end.ends_with(b"\n\n") {
        b""
    } else if end.ends_with(b"\n") {
        b"\n"
    } else {
        b"\n\n"
    };
    Ok(gap)
}

// Puts a tail behind all that stands in a file, unless it stands there, where it was to stand or at the end. That is one
// step, so it can be made again.
fn put_behind<R: Files<File = File>>(
    rt: &R,
    alloc: Global,
    path: &str,
    digits: &str,
    opened: &mut Opened,
    at: u64,
    tail: &[u8],
) -> Result<(), FileError> {
    if has_at(alloc, &mut opened.file, at, tail)? {
        return write_again(rt, alloc, path, digits, opened, at, tail);
    }
    let length = opened.file.metadata()?.len();
    let text = undivided(tail);
    let end = length.saturating_sub(text.len() as u64);
    if has_at(alloc, &mut opened.file, end, text)? {
        return write_again(rt, alloc, path, digits, opened, end, text);
    }
    let copied = Copied {
        at: length,
        gap: gap_of(alloc, &mut opened.file, length)?,
        tail: text,
        may_lack: true,
    };
    replace_by_copy(rt, alloc, path, digits, &mut opened.file, copied)
}

/// Puts a tail behind all that stands at a path, unless it stands there.
pub fn append_anyhow<R: Files<File = File>>(
    rt: &R,
    alloc: Global,
    path: &str,
    digits: &str,
    at: u64,
    tail: &[u8],
) -> Result<(), FileError> {
    let mut opened = open_standing(rt, path)?;
    put_behind(rt, alloc, path, digits, &mut opened, at, tail)
}

/// Gives a locked file another tail. Its name has reached the device with that of its lock. If its user has changed it
/// under the administrator's lock, the tail goes behind what stands there, since a fault would hold up all others. If the
/// digits of the lock are known, a lock of others is refused.
pub fn extend<R: Files<File = File>>(
    rt: &R,
    alloc: Global,
    marks: &Marks,
    known: Option<&str>,
    path: &str,
    at: u64,
    tail: &[u8],
) -> Result<(), FileError> {
    let digits = locker_of(rt, alloc, path)?;
    let digits = digits.as_str();
    if let Some(known) = known
        && known != digits
    {
        return Err(FileError::LockGone);
    }
    let as_locked = is_as_locked(rt, alloc, marks, path, digits)?;
    let mut opened = open_standing(rt, path)?;
    let is_there = match stands_whole(alloc, &mut opened.file, at, tail, as_locked) {
        Err(FileError::Changed) if opened.is_anothers => {
            return put_behind(rt, alloc, path, digits, &mut opened, at, tail);
        }
        answer => answer?,
    };
    if is_there {
        return write_again(rt, alloc, path, digits, &mut opened, at, tail);
    }
    if opened.in_place {
        return Ok(write_tail(&mut opened.file, at, tail)?);
    }
    let copied = Copied::of(at, tail);
    replace_by_copy(rt, alloc, path, digits, &mut opened.file, copied)
}
