// Files that are held: the system's lock on an open file, which ends with the run.
use crate::way::is_one_file;
use mail_text::{Memory, Text};
use spool_rules::{Found, Seen};
use std::alloc::Global;
use std::fs::{File, Files, Metadata, OpenOptions, TryLockError};
use std::io::{Error, ErrorKind};
use std::os::unix::fs::{MetadataExt, PermissionsExt};

/// The bits of a file's mode that are kept: who may read, write and run it.
const MODE_BITS: u32 = 0o777;

/// What is held: a name, and the caller's regular file that stands there, if one does.
#[derive(Drop)]
pub struct Hold {
    name: Text,
    file: Option<File>,
    found: Seen,
}

/// What a look has shown.
pub fn seen_of(metadata: &Metadata) -> Seen {
    if metadata.is_file() {
        Seen::File(Found {
            owner: metadata.uid(),
            mode: metadata.mode() & MODE_BITS,
            device: metadata.dev(),
            inode: metadata.ino(),
        })
    } else {
        Seen::Other
    }
}

/// Whether one regular file was seen twice.
pub fn is_one(one: Seen, other: Seen) -> bool {
    match (one, other) {
        (Seen::File(f), Seen::File(g)) => f.device == g.device && f.inode == g.inode,
        _ => false,
    }
}

/// What is refused while another run has it.
pub fn busy() -> Error {
    Error::new(ErrorKind::WouldBlock, "another call has it")
}

/// Takes the lock of an open file, if it still stands at its name then: who has the lock of a file takes its name away.
pub fn keep<R: Files<File = File>>(rt: &R, name: &str, file: &File) -> Result<Seen, Error> {
    match file.try_lock() {
        Ok(()) => {}
        Err(TryLockError::WouldBlock) => return Err(busy()),
        Err(TryLockError::Error(error)) => return Err(error),
    }
    let kept = file.metadata()?;
    match rt.symlink_metadata(name) {
        Ok(there) if is_one_file(&there, &kept) => Ok(seen_of(&kept)),
        Ok(_) => Err(busy()),
        Err(error) if error.kind() == ErrorKind::NotFound => Err(busy()),
        Err(error) => Err(error),
    }
}

/// Opens a file for that. Some systems lock no file that can't be written.
pub fn open<R: Files<File = File>>(rt: &R, name: &str) -> Result<File, Error> {
    match OpenOptions::new().read(true).write(true).open(rt, name) {
        Err(error) if error.kind() == ErrorKind::NotFound => Err(busy()),
        answer => answer,
    }
}

impl Hold {
    /// An open file whose lock is had, at a name.
    pub fn of_file(alloc: Global, name: &str, file: File, found: Seen) -> Result<Hold, Memory> {
        let name = Text::copy(alloc, name.as_bytes())?;
        Ok(Hold {
            name,
            file: Some(file),
            found,
        })
    }

    /// A name at which no regular file of the caller's stands.
    pub fn of_name(alloc: Global, name: &str) -> Result<Hold, Memory> {
        let name = Text::copy(alloc, name.as_bytes())?;
        Ok(Hold {
            name,
            file: None,
            found: Seen::Nothing,
        })
    }

    /// Whether what a look has shown at a name agrees with what is held: at the name that is held it is no regular file of
    /// this user's but the one that is held.
    pub fn fits(&self, user: u32, name: &str, seen: Seen) -> bool {
        match seen {
            Seen::File(found) if found.owner == user => {
                self.name.bytes() != name.as_bytes() || is_one(self.found, seen)
            }
            _ => true,
        }
    }
}
