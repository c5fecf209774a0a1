// Whole files, each written, renamed and removed durably: what was done is there after the machine stops.
use crate::kinds::{
    is_absence, is_closed_folder, is_denied, is_empty_place, is_out_of_reach, look, open_both,
    stands_at, user,
};
use crate::paths::{Place, folder_of};
use crate::reasons::FileError;
use std::fs::{File, Files, Metadata, OpenFile, OpenOptions, Permissions};
use std::io::{Error, ErrorKind, Write};
use std::os::unix::fs::{MetadataExt, OpenOptionsExt, PermissionsExt, fchown};

/// The permissions of each file that is made here: its user alone may read and write it, whatever the umask.
pub const PRIVATE: u32 = 0o600;

/// The bits of a file's mode that say who may do what with it.
const MODE_BITS: u32 = 0o7777;

// Waits until the names in the folder of a path have reached the device. What is no folder isn't opened: it may be a pipe.
fn sync_folder<R: Files>(rt: &R, path: &str) -> Result<(), Error> {
    let folder = folder_of(path);
    if !rt.metadata(folder)?.is_dir() {
        return Err(Error::from(ErrorKind::NotADirectory));
    }
    let folder = File::open(rt, folder)?;
    folder.sync_all()
}

/// Makes a private file, open for reading and writing. What stood there is taken away first and not written over: it
/// may be another's, be open to others, or have another name too, as a lock that a stopped run has linked already. If
/// the folder lets nothing be taken away, that is the error.
pub fn create_private<R: Files>(rt: &R, path: &str) -> Result<R::File, Error> {
    if let Err(error) = rt.remove_file(path)
        && is_denied(&error)
    {
        return Err(error);
    }
    OpenOptions::new()
        .read(true)
        .write(true)
        .create_new(true)
        .mode(PRIVATE)
        .open(rt, path)
}

// Gives a file the owner, the group and the mode of another.
fn give(file: &File, of: &Metadata) -> Result<(), Error> {
    fchown(file, Some(of.uid()), Some(of.gid()))?;
    file.set_permissions(Permissions::from_mode(of.mode() & MODE_BITS))
}

// What stands at a path, if the run is the system's administrator's and it is a file of another user.
fn anothers_file<R: Files>(rt: &R, path: &str) -> Result<Option<Metadata>, Error> {
    if user() != 0 {
        return Ok(None);
    }
    match look(rt, path)? {
        Some(found) if found.is_file() && found.uid() != 0 => Ok(Some(found)),
        _ => Ok(None),
    }
}

/// What the system's administrator writes in the place of another user's file stays that user's: it gets the owner,
/// the group and the mode of what stands there.
pub fn give_as<R: Files>(rt: &R, file: &File, path: &str) -> Result<(), Error> {
    match anothers_file(rt, path)? {
        Some(found) => give(file, &found),
        None => Ok(()),
    }
}

/// Gives what was staged to the user whose file it is to replace. Until then it is the administrator's own, so that
/// nobody else takes it away.
pub fn give_staged<R: Files<File = File>>(
    rt: &R,
    staged: &str,
    replaced: &str,
) -> Result<(), FileError> {
    let Some(found) = anothers_file(rt, replaced)? else {
        return Ok(());
    };
    let file = match open_both(rt, staged) {
        Ok(file) => file,
        Err(error) if error.kind() == ErrorKind::NotFound => return Ok(()),
        Err(error) => return Err(FileError::from(error)),
    };
    if !stands_at(rt, staged, &file.metadata()?)? {
        return Err(FileError::Changed);
    }
    give(&file, &found)?;
    Ok(file.sync_all()?)
}

/// Writes a whole file, private to its user, and waits until it has reached the device. Its name may not have yet.
pub fn write_unnamed<R: Files<File = File>>(
    rt: &R,
    path: &str,
    bytes: &[u8],
) -> Result<(), FileError> {
    let mut file = create_private(rt, path)?;
    file.write_all(bytes)?;
    Ok(file.sync_all()?)
}

/// Writes a whole file, private to its user, and waits until it, and its name, have reached the device.
pub fn write_file<R: Files<File = File>>(
    rt: &R,
    path: &str,
    bytes: &[u8],
) -> Result<(), FileError> {
    write_unnamed(rt, path, bytes)?;
    Ok(sync_folder(rt, path)?)
}

/// Makes a private file that isn't there yet, whole from its first moment: it is written under another name and then
/// linked into place. False if one is there, or if another takes the other name away, and then nothing changes. The other
/// name is taken away again. What is made has reached the device, but its name may not have yet.
pub fn make_new<R: Files>(
    rt: &R,
    path: &str,
    beside: &str,
    bytes: &[u8],
) -> Result<bool, FileError> {
    let mut file = create_private(rt, beside)?;
    let made = linked(rt, &mut file, beside, path, bytes);
    let _ = rt.remove_file(beside);
    Ok(made?)
}

/// Makes a private file so, and waits until its name has reached the device too.
pub fn write_new<R: Files>(
    rt: &R,
    path: &str,
    beside: &str,
    bytes: &[u8],
) -> Result<bool, FileError> {
    let made = make_new(rt, path, beside, bytes)?;
    if made {
        sync_folder(rt, path)?;
    }
    Ok(made)
}

// Writes a new file, and gives it another name too. False if another file of that name is there: a link that was done may
// be answered so, over a network. False too if another has taken its first name away meanwhile.
fn linked<R: Files, F: Write + OpenFile>(
    rt: &R,
    file: &mut F,
    beside: &str,
    path: &str,
    bytes: &[u8],
) -> Result<bool, Error> {
    file.write_all(bytes)?;
    file.sync_all()?;
    match rt.hard_link(beside, path) {
        Ok(()) => Ok(true),
        Err(error) if error.kind() == ErrorKind::AlreadyExists => stands_at(
            rt,
            path,
            &file.metadata()?,
        ),
        Err(error) if error.kind() == ErrorKind::NotFound => Ok(false),
        Err(error) => Err(error),
    }
}

/// Gives a file another name, in the place of what stood there. False if the file is absent.
pub fn rename_file<R: Files>(rt: &R, from: &str, to: &str) -> Result<bool, FileError> {
    if let Err(error) = rt.rename(from, to) {
        return if is_empty_place(rt, from) {
            Ok(false)
        } else {
            Err(FileError::from(error))
        };
    }
    sync_folder(rt, to)?;
    if folder_of(from) != folder_of(to) {
        sync_folder(rt, from)?;
    }
    Ok(true)
}

// Whether an error of making the names in a folder last says that no file of ours was ever there: the folder can't be
// opened, or nothing in it lasts, as in that of the system's processes.
fn keeps_nothing(error: &Error) -> bool {
    is_closed_folder(error) || error.kind() == ErrorKind::InvalidInput
}

/// Makes it last that a name stands in its folder, or that none does, as far as names of the folder last.
pub fn sync_name<R: Files>(rt: &R, path: &str) -> Result<(), FileError> {
    match sync_folder(rt, path) {
        Err(error) if !keeps_nothing(&error) => Err(FileError::from(error)),
        _ => Ok(()),
    }
}

// Whether a file that could not be removed isn't there: a look shows it, or no file of ours can be there.
fn is_gone<R: Files>(rt: &R, place: &Place, error: &Error) -> bool {
    let path = place.path();
    is_absence(error)
        || (is_closed_folder(error) && is_empty_place(rt, path))
        || (place.is_made_here() && is_out_of_reach(rt, path))
}

/// Takes a file away. If it is absent, its absence is made to last.
pub fn remove_file<R: Files>(rt: &R, place: &Place) -> Result<(), FileError> {
    let path = place.path();
    match rt.remove_file(path) {
        Ok(()) => Ok(sync_folder(rt, path)?),
        Err(error) if error.kind() == ErrorKind::NotFound => sync_name(rt, path),
        Err(error) if is_gone(rt, place, &error) => Ok(()),
        Err(error) => Err(FileError::from(error)),
    }
}
