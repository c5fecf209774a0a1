// Rights. The right of a name is the system's lock on the open file of that name, which ends with its holder.
ghost use Rattle.std.specs.Prelude.{◌<◌, vec_len, IfSome};

use crate::files::PRIVATE;
use crate::folders::refuse_opened;
use crate::kinds::is_closed_folder;
use crate::paths::Place;
use crate::reasons::FileError;
use crate::waiting::Patience;
use mail_text::Text;
use std::alloc::Global;
use std::fs::{File, Files, OpenOptions, TryLockError};
use std::io::{Error, ErrorKind};
use std::os::unix::fs::OpenOptionsExt;
use std::time::{Clock, Duration};

/// The shortest pause, in microseconds, between two tries to take a right. A run has its right for a short time.
const PAUSE: u64 = 1000;

/// A right that is had: its name, and its open file, or none if no file can be made there.
#[derive(Drop)]
struct Right {
    name: Text,
    file: Option<File>,
}

/// The rights that a host has.
#[derive(Drop)]
pub struct Rights {
    rights: Vec<Right>,
}

impl Rights {
    pub fn new(alloc: Global) -> Rights {
        Rights {
            rights: Vec::new(alloc),
        }
    }

    // The place of a right among those that are had.
    fn place_of(&self, name: &[u8]) -> Option<usize>
        ensures { IfSome result (λ k. k < vec_len self.now.rights) }
    {
        self.rights
            .iter()
            .position(|right| right.name.bytes() == name)
    }

    pub fn has(&self, name: &[u8]) -> bool {
        self.place_of(name).is_some()
    }

    pub fn give_up(&mut self, name: &[u8]) {
        if let Some(k) = self.place_of(name) {
            self.rights.swap_remove(k);
        }
    }

    /// The open file of a right, opened once more: the right ends when both are closed. None if no right has a file.
    pub fn share(&self) -> Result<Option<File>, FileError> {
        match self.rights.iter().find_map(|right| right.file.as_ref()) {
            Some(file) => Ok(Some(file.try_clone()?)),
            None => Ok(None),
        }
    }

    /// Takes a right that isn't had yet. False if another has it, who is waited for. Where nothing can be made it has
    /// no place, and no file.
    pub fn take<R: Files<File = File> + Clock>(
        &mut self,
        rt: &R,
        alloc: Global,
        name: &[u8],
        place: Option<&Place>,
        wait: Duration,
    ) -> Result<bool, FileError> {
        let name = Text::copy(alloc, name)?;
        let file = match place {
            Some(place) => open_right(rt, place.path())?,
            None => None,
        };
        if let Some(file) = &file
            && !is_taken(rt, file, wait)?
        {
            return Ok(false);
        }
        self.rights.push(Right { name, file })?;
        Ok(true)
    }
}

// The file of a right, opened.
fn open_file<R: Files<File = File>>(rt: &R, path: &str) -> Result<File, Error> {
    OpenOptions::new().read(true).write(true).open(rt, path)
}

// The file of a right, opened or made. Nothing is made through a link that was put there meanwhile.
fn open_or_make<R: Files<File = File>>(rt: &R, path: &str) -> Result<File, Error> {
    match open_file(rt, path) {
        Err(error) if error.kind() == ErrorKind::NotFound => {}
        answer => return answer,
    }
    let made = OpenOptions::new()
        .read(true)
        .write(true)
        .create_new(true)
        .mode(PRIVATE)
        .open(rt, path);
    match made {
        // another has made it meanwhile
        Err(error) if error.kind() == ErrorKind::AlreadyExists => match open_file(rt, path) {
            Ok(file) => Ok(file),
            Err(_) => Err(error),
        },
        answer => answer,
    }
}

// The open file of a right, if it is the user's. It is made if it isn't there. None if it can't be made, since its
// folder isn't there or may not be written: then nobody has the right, and no record of a change can be put beside it.
fn open_right<R: Files<File = File>>(rt: &R, path: &str) -> Result<Option<File>, FileError> {
    let opened = match open_or_make(rt, path) {
        Ok(file) => Some(file),
        Err(error) if is_closed_folder(&error) => open_standing(rt, path, error)?,
        Err(error) => return Err(FileError::from(error)),
    };
    if let Some(file) = &opened {
        refuse_opened(rt, path, &file.metadata()?)?;
    }
    Ok(opened)
}

// The open file of a right that may not be written, as on a disk that is only read; none if it isn't there.
fn open_standing<R: Files<File = File>>(
    rt: &R,
    path: &str,
    why: Error,
) -> Result<Option<File>, FileError> {
    match rt.symlink_metadata(path) {
        Err(error) if is_closed_folder(&error) => Ok(None),
        Ok(_) if why.kind() == ErrorKind::ReadOnlyFilesystem => Ok(Some(File::open(rt, path)?)),
        _ => Err(FileError::from(why)),
    }
}

// Takes the system's lock on an open file. False if another has it until the time is over.
fn is_taken<C: Clock>(clock: &C, file: &File, wait: Duration) -> Result<bool, FileError> {
    let patience = Patience::new(clock, wait, PAUSE);
    for _ in 0..u64::MAX {
        match file.try_lock() {
            Ok(()) => return Ok(true),
            Err(TryLockError::WouldBlock) => {
                if !patience.again(clock) {
                    return Ok(false);
                }
            }
            Err(TryLockError::Error(error)) => return Err(FileError::from(error)),
        }
    }
    Ok(false)
}
