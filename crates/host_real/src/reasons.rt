// Why a call failed, in words for the standard error.
use crate::kinds::{is_absence, is_denied};
use mail_text::Memory;
use std::alloc::{AllocError, AllocFailed, Global};
use std::io::{Eprint, Error, ErrorKind};

/// Which program says why a call failed.
#[derive(Clone, Copy)]
pub enum Speaker {
    Session,
    Delivery,
}

impl Speaker {
    fn name(self) -> &'static str {
        match self {
            Speaker::Session => "mailx",
            Speaker::Delivery => "mail_deliver",
        }
    }
}

/// Why a file was not read or changed.
#[derive(Drop, Debug)]
pub enum FileError {
    /// What the system answered.
    System(Error),
    /// The input of a program could not be written.
    Input(Error),
    /// The helper that has the right of the folder could not be run.
    Helper(Error),
    /// What the system answered, where there is no helper that would have the right.
    NoHelper(Error),
    /// The helper found another's file there, or not the lock.
    HelperRefused,
    /// The helper ended without having done it, and has told why.
    HelperFailed,
    /// What stands there is a folder, a device, a pipe, a socket, or a link where no link may be.
    NotRegular,
    /// On the way to it is a link that another user has put, or could have put, and that isn't followed.
    AnothersLink,
    /// Others may put something in the place of one of the run's own three files, where nothing stands yet or something
    /// does.
    SharedFolder { is_empty: bool },
    /// It isn't in the folder of mailboxes, and a delivery changes nothing else.
    Outside,
    /// The file is another user's.
    NotOwn,
    /// The lock, by which a file may be replaced or removed, isn't there any more.
    LockGone,
    /// The file was changed by another who didn't heed the lock.
    Changed,
    /// The name stands for one of the run's own three files.
    OwnFile,
    /// The name isn't UTF-8, so it can't be given to the system.
    NotText,
    /// The file has more bytes than a load takes.
    TooLarge { length: u64 },
    Memory,
}

impl FileError {
    /// Whether the system refused the call, since the permission is lacking.
    pub fn is_denial(&self) -> bool {
        match self {
            FileError::System(error) => is_denied(error),
            _ => false,
        }
    }

    /// Whether another has changed what stands there, or taken away the lock or the file.
    pub fn is_of_others(&self) -> bool {
        match self {
            FileError::System(error) => is_absence(error),
            FileError::Changed
            | FileError::LockGone
            | FileError::NotRegular
            | FileError::AnothersLink => true,
            _ => false,
        }
    }
}

impl From<Error> for FileError {
    fn from(error: Error) -> Self {
        if error.kind() == ErrorKind::OutOfMemory {
            FileError::Memory
        } else {
            FileError::System(error)
        }
    }
}

impl From<AllocError> for FileError {
    fn from(_: AllocError) -> Self {
        FileError::Memory
    }
}

impl<T: Drop> From<AllocFailed<T>> for FileError {
    fn from(_: AllocFailed<T>) -> Self {
        FileError::Memory
    }
}

impl From<Memory> for FileError {
    fn from(_: Memory) -> Self {
        FileError::Memory
    }
}

// The system's words for an error, without its number.
fn words_of(alloc: Global, error: &Error) -> Result<String, AllocError> {
    let words = format!(in alloc; "{error}")?;
    match words.as_str().split_once(" (os error ") {
        Some((front, _)) => String::from_str(alloc, front),
        None => Ok(words),
    }
}

fn reason_of(alloc: Global, error: &FileError) -> Result<String, AllocError> {
    let words = match error {
        FileError::System(error) => return words_of(alloc, error),
        FileError::Input(error) => {
            let words = words_of(alloc, error)?;
            return format!(in alloc; "its input can't be written: {words}");
        }
        FileError::Helper(error) => {
            let words = words_of(alloc, error)?;
            return format!(in alloc; "mail_spool can't be run: {words}");
        }
        FileError::NoHelper(error) => {
            let words = words_of(alloc, error)?;
            return format!(in alloc; "{words}; the helper mail_spool isn't installed");
        }
        FileError::HelperRefused =>
            "mail_spool refuses it: another's file is there, or the lock is gone",
        FileError::HelperFailed => "mail_spool has not done it",
        FileError::NotRegular => "not a regular file",
        FileError::AnothersLink => "a link that may be another user's leads there",
        FileError::SharedFolder { .. } => "another user may write a folder above it",
        FileError::Outside => "not in the folder of mailboxes",
        FileError::NotOwn => "belongs to another user",
        FileError::LockGone => "the lock is gone: see libexec/mailx/settle",
        FileError::Changed => "changed while it was locked: see libexec/mailx/settle",
        FileError::OwnFile => "one of mailx's own files",
        FileError::NotText => "not UTF-8",
        FileError::TooLarge { .. } => "too large",
        FileError::Memory => "out of memory",
    };
    String::from_str(alloc, words)
}

// A name as it may be shown on a terminal: a question mark for each byte or character that controls it, or isn't
// UTF-8.
fn shown(alloc: Global, name: &[u8]) -> Result<String, AllocError> {
    let mut text = String::new(alloc);
    match str::from_utf8(name) {
        Ok(name) => {
            for c in name.chars() {
                text.push(if c.is_control() { '?' } else { c })?;
            }
        }
        Err(_) => {
            for byte in name {
                let is_shown = byte.is_ascii_graphic() || *byte == b' ';
                text.push(if is_shown { char::from(*byte) } else { '?' })?;
            }
        }
    }
    Ok(text)
}

/// Prints why a call failed: the name of what it was about, and the reason. If memory is short, or the standard error
/// takes nothing, nothing is printed.
pub fn tell<R: Eprint>(rt: &R, alloc: Global, speaker: Speaker, name: &[u8], error: &FileError) {
    if let Ok(reason) = reason_of(alloc, error) {
        tell_words(rt, alloc, speaker, name, reason.as_str());
    }
}

/// Prints words about a name.
pub fn tell_words<R: Eprint>(rt: &R, alloc: Global, speaker: Speaker, name: &[u8], words: &str) {
    if let Ok(name) = shown(alloc, name) {
        let speaker = speaker.name();
        let _ = rt.eprintln(format_args!("{speaker}: {name}: {words}"));
    }
}

/// A time in words, by its largest unit.
pub fn time_words(alloc: Global, seconds: u64) -> Result<String, AllocError> {
    let (count, unit) = if seconds < 120 {
        (seconds, "second")
    } else if seconds < 7200 {
        (seconds / 60, "minute")
    } else if seconds < 172_800 {
        (seconds / 3600, "hour")
    } else {
        (seconds / 86_400, "day")
    };
    let end = if count == 1 { "" } else { "s" };
    format!(in alloc; "{count} {unit}{end}")
}
