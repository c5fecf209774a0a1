// What stands at a path: whether anything can, what it is, whose it is, and whether it changed.
use crate::paths::{folder_of, last_part, own_paths};
use crate::reasons::FileError;
use std::alloc::Global;
use std::fs::{File, Files, Metadata, OpenOptions};
use std::io::{Error, ErrorKind};
use std::os::unix::fs::{FileTypeExt, MetadataExt};
use std::time::SystemTime;

/// The mode bits of a folder in which each may make files and none may remove those of another.
const SHARED_FOLDER: u32 = 0o1002;

/// The system's number of an error: what is asked isn't permitted.
const NOT_PERMITTED: i32 = 1;

/// The system's number of an error: the permission is lacking.
const DENIED: i32 = 13;

/// A file as it was at a moment: which one it is, its length, and when its contents and what is known of it changed.
#[derive(Clone, Copy, PartialEq)]
pub struct Stamp {
    device: u64,
    inode: u64,
    length: u64,
    modified: i64,
    modified_nanos: i64,
    changed: i64,
    changed_nanos: i64,
    born: Option<SystemTime>,
}

impl Stamp {
    pub fn of(found: &Metadata) -> Stamp {
        Stamp {
            device: found.dev(),
            inode: found.ino(),
            length: found.len(),
            modified: found.mtime(),
            modified_nanos: found.mtime_nsec(),
            changed: found.ctime(),
            changed_nanos: found.ctime_nsec(),
            born: found.created().ok(),
        }
    }

    /// Whether the file changed later than the other one.
    pub fn is_later(&self, other: &Stamp) -> bool {
        self.changed > other.changed
            || (self.changed == other.changed && self.changed_nanos > other.changed_nanos)
    }

    /// Whether the file was there before the other one was made, and was last written before the other changed, whatever
    /// has become of its names, its mode and what else is known of it. Only its owner can set these times back.
    pub fn was_written_before(&self, other: &Stamp) -> bool {
        let is_older = match (self.born, other.born) {
            (Some(one), Some(other)) => one <= other,
            _ => false,
        };
        let is_written_later = self.modified > other.changed
            || (self.modified == other.changed && self.modified_nanos > other.changed_nanos);
        is_older && !is_written_later
    }

    /// Whether it is the same file, of the same length and written last at the same moment.
    pub fn has_bytes_of(&self, other: &Stamp) -> bool {
        self.is_file_of(other)
            && self.length == other.length
            && self.modified == other.modified
            && self.modified_nanos == other.modified_nanos
    }

    /// Whether it is the same file, changed or not.
    pub fn is_file_of(&self, other: &Stamp) -> bool {
        self.device == other.device && self.inode == other.inode
    }
}

/// The user whose files the run may change.
pub fn user() -> u32 {
    libc::geteuid()
}

/// Whether an error says that the permission is lacking, as of a folder that may not be written.
pub fn is_denied(error: &Error) -> bool {
    error.raw_os_error() == Some(DENIED)
}

/// That error.
pub fn denial() -> Error {
    Error::from_raw_os_error(DENIED)
}

/// Whether an error says that nothing stands at the path, since nothing is there or none can be.
pub fn is_absence(error: &Error) -> bool {
    let kind = error.kind();
    kind == ErrorKind::NotFound
        || kind == ErrorKind::NotADirectory
        || kind == ErrorKind::InvalidFilename
        || kind == ErrorKind::FilesystemLoop
}

/// Whether an error says that nothing can be made in a folder: it isn't there, or may not be written.
pub fn is_closed_folder(error: &Error) -> bool {
    let kind = error.kind();
    is_absence(error)
        || kind == ErrorKind::PermissionDenied
        || kind == ErrorKind::ReadOnlyFilesystem
}

/// What stands at a path, a link itself and not what it stands for.
pub fn look<R: Files>(rt: &R, path: &str) -> Result<Option<Metadata>, Error> {
    match rt.symlink_metadata(path) {
        Ok(found) => Ok(Some(found)),
        Err(error) if is_absence(&error) => Ok(None),
        Err(error) => Err(error),
    }
}

/// The stamp of what stands at a path, as it is at this moment.
pub fn stamp_at<R: Files>(rt: &R, path: &str) -> Result<Option<Stamp>, Error> {
    Ok(look(rt, path)?.map(|found| Stamp::of(&found)))
}

/// Whether a look at the path shows that nothing stands there.
pub fn is_empty_place<R: Files>(rt: &R, path: &str) -> bool {
    match look(rt, path) {
        Ok(found) => found.is_none(),
        Err(_) => false,
    }
}

/// Whether a folder stands at a path, itself and not behind a link.
pub fn is_folder<R: Files>(rt: &R, path: &str) -> bool {
    match rt.symlink_metadata(path) {
        Ok(found) => found.is_dir(),
        Err(_) => false,
    }
}

// The nearest folder around a path that can be looked at is another user's.
fn stands_behind_another<R: Files>(rt: &R, path: &str) -> bool {
    let mut folder = folder_of(path);
    for _ in 0..path.len() {
        match rt.metadata(folder) {
            Ok(found) => return found.uid() != user(),
            Err(error) if error.kind() == ErrorKind::PermissionDenied => folder = folder_of(folder),
            Err(_) => return false,
        }
    }
    false
}

/// Whether a path is out of reach inside a folder of another user, so that no file there is ours.
pub fn is_out_of_reach<R: Files>(rt: &R, path: &str) -> bool {
    match rt.symlink_metadata(path) {
        Err(error) if error.kind() == ErrorKind::PermissionDenied => stands_behind_another(
            rt, path,
        ),
        _ => false,
    }
}

/// Whether a link is another user's, and stands where each may put one.
pub fn is_anothers_link<R: Files>(rt: &R, path: &str, link: &Metadata) -> bool {
    if link.uid() == user() {
        return false;
    }
    match rt.metadata(folder_of(path)) {
        Ok(folder) => folder.mode() & SHARED_FOLDER == SHARED_FOLDER,
        Err(_) => false,
    }
}

/// Whether an open file is the one that stands at a path, so that no link that was put there meanwhile has led to it.
pub fn stands_at<R: Files>(rt: &R, path: &str, open: &Metadata) -> Result<bool, Error> {
    match look(rt, path)? {
        Some(found) => Ok(Stamp::of(&found).is_file_of(&Stamp::of(open))),
        None => Ok(false),
    }
}

/// Whether a link is one of the system's own, in the folder of its processes.
pub fn is_systems_link<R: Files>(rt: &R, link: &Metadata) -> bool {
    match rt.symlink_metadata("/proc/self") {
        Ok(found) => found.dev() == link.dev(),
        Err(_) => false,
    }
}

/// Refuses what may not be changed: what is no regular file of this user. The system's administrator may change the
/// file of any user.
pub fn refuse_kind(found: &Metadata) -> Result<(), FileError> {
    if !found.is_file() {
        Err(FileError::NotRegular)
    } else if user() != 0 && found.uid() != user() {
        Err(FileError::NotOwn)
    } else {
        Ok(())
    }
}

// Whether an error of opening a file for writing says that only its mode is against it, so that another may take its
// place. Of a file that is immutable, or only added to, the system answers otherwise.
fn is_of_mode(error: &Error) -> bool {
    error.kind() == ErrorKind::PermissionDenied && error.raw_os_error() != Some(NOT_PERMITTED)
}

/// Opens a file for reading and writing. So a pipe that is put in its place is open at once, and waits for nobody.
pub fn open_both<R: Files>(rt: &R, path: &str) -> Result<R::File, Error> {
    OpenOptions::new().read(true).write(true).open(rt, path)
}

/// Whether what stands at a path may be extended, replaced or removed: nothing, or a regular file of this user that
/// the system lets him change. That is asked by opening it for writing, once it is known to be no device or pipe. The
/// open file, if there is one.
pub fn may_be_changed<R: Files<File = File>>(
    rt: &R,
    path: &str,
) -> Result<Option<File>, FileError> {
    match look(rt, path)? {
        None => return Ok(None),
        Some(found) => refuse_kind(&found)?,
    }
    match open_both(rt, path) {
        Ok(file) => Ok(Some(file)),
        Err(error) if is_of_mode(&error) => Ok(None),
        Err(error) => Err(FileError::from(error)),
    }
}

/// Whether a pipe stands at a path by its own name, so that whoever opens it to read waits for a writer.
pub fn is_named_pipe<R: Files>(rt: &R, path: &str) -> bool {
    match rt.symlink_metadata(path) {
        Ok(found) => found.file_type().is_fifo(),
        Err(_) => false,
    }
}

/// Opens what is only read. No writer of a pipe is waited for: it is open at once, and holds nothing.
pub fn open_to_read<R: Files>(rt: &R, path: &str) -> Result<R::File, Error> {
    if !is_named_pipe(rt, path) {
        return File::open(rt, path);
    }
    // as long as it is open for writing too, nobody waits for a writer
    let both = open_both(rt, path)?;
    let file = File::open(rt, path);
    drop(both);
    file
}

/// Whether two paths lead to one file that is there.
pub fn is_one_file<R: Files>(rt: &R, one: &str, other: &str) -> bool {
    match (rt.metadata(one), rt.metadata(other)) {
        (Ok(one), Ok(other)) => Stamp::of(&one).is_file_of(&Stamp::of(&other)),
        _ => false,
    }
}

/// Refuses a path that stands for one of the own three files of an actor, however it is spelled.
pub fn refuse_own<R: Files>(
    rt: &R,
    alloc: Global,
    actor: Option<&String>,
    path: &str,
) -> Result<(), FileError> {
    let Some(actor) = actor else {
        return Ok(());
    };
    let own_paths = own_paths(alloc, actor.as_str())?;
    for own in own_paths.iter() {
        let own = own.as_str();
        let is_same_name = last_part(path) == last_part(own)
            && is_one_file(rt, folder_of(path), folder_of(own));
        if is_same_name || is_one_file(rt, path, own) {
            return Err(FileError::OwnFile);
        }
    }
    Ok(())
}
