// Names, and the files that they stand for.
use crate::folders::{Folders, LOOP, MOST_LINKS, refuse_shared};
use crate::kinds::{is_anothers_link, is_systems_link, user};
use crate::reasons::FileError;
use std::alloc::{AllocError, Global};
use std::fs::{File, Files};
use std::io::Error;

/// The actor of deliveries, who changes mailboxes alone.
const DELIVERY: &str = "/var/mail/.mail_deliver";

/// What the name of a run's record adds to the name of its actor.
pub const RECORD_END: &str = ".commit";

/// What the names of a run's own three files add to the name of its actor.
const OWN_ENDS: [&str; 3] = [RECORD_END, ".commit.new", ".right"];

/// What a name is to a host, and the path that it stands for.
#[derive(Drop)]
pub enum Place {
    /// One of the run's own three files.
    Own(String),
    /// What is to take the place of a file.
    Staged {
        path: String,
        file: String,
        digits: String,
    },
    /// Any other file.
    File(String),
}

impl Place {
    pub fn path(&self) -> &str {
        match self {
            Place::Own(path) => path.as_str(),
            Place::Staged { path, .. } => path.as_str(),
            Place::File(path) => path.as_str(),
        }
    }

    /// Whether it is a file of the run's own making alone: one of the three, or a staged one.
    pub fn is_made_here(&self) -> bool {
        match self {
            Place::File(_) => false,
            Place::Own(_) | Place::Staged { .. } => true,
        }
    }
}

/// A name as the library takes it. A name that isn't UTF-8 can't be given to the system.
pub fn path_of(name: &[u8]) -> Result<&str, FileError> {
    match str::from_utf8(name) {
        Ok(path) => Ok(path),
        Err(_) => Err(FileError::NotText),
    }
}

/// The folder that a name stands in.
pub fn folder_of(path: &str) -> &str {
    match path.rsplit_once('/') {
        None => ".",
        Some(("", _)) => "/",
        Some((folder, _)) => folder,
    }
}

/// What follows the folder in a name.
pub fn last_part(path: &str) -> &str {
    match path.rsplit_once('/') {
        None => path,
        Some((_, last)) => last,
    }
}

/// The lock of a file.
pub fn lock_path(alloc: Global, path: &str) -> Result<String, AllocError> {
    format!(in alloc; "{path}.lock")
}

/// The name under which a lock is written before it is linked into place, and a copy before it takes the place of its
/// file, by the digits of a token. No mailbox has such a name.
pub fn beside_name(alloc: Global, path: &str, digits: &str) -> Result<String, AllocError> {
    format!(in alloc; "{path}.lock.mx{digits}")
}

/// The digits of a token.
pub fn token_text(alloc: Global, token: u64) -> Result<String, AllocError> {
    format!(in alloc; "{token:016x}")
}

/// The staged name that has these digits.
pub fn staged_path(alloc: Global, file: &str, digits: &str) -> Result<String, AllocError> {
    format!(in alloc; "{file}.mx{digits}")
}

/// Whether these are the digits of a token: 16 lower case hexadecimal digits.
pub fn is_token(digits: &str) -> bool {
    let is_digit = |b: &u8| b.is_ascii_digit() || (b'a' <= *b && *b <= b'f');
    digits.len() == 16 && digits.as_bytes().iter().all(is_digit)
}

// The file that a name is staged for, and the digits of its token.
fn staged_parts(path: &str) -> Option<(&str, &str)> {
    match path.rsplit_once(".mx") {
        Some((file, digits)) if is_token(digits) => Some((file, digits)),
        _ => None,
    }
}

/// Whether a name is that of a staged file.
pub fn is_staged(name: &[u8]) -> bool {
    match str::from_utf8(name) {
        Ok(path) => staged_parts(path).is_some(),
        Err(_) => false,
    }
}

/// The actor whose right has this name.
pub fn actor_of(right: &str) -> Option<&str> {
    right.strip_suffix(".right")
}

/// The path of one of the own three files of an actor.
pub fn own_paths(alloc: Global, actor: &str) -> Result<Vec<String>, FileError> {
    let mut paths = Vec::new(alloc);
    for end in OWN_ENDS {
        paths.push(format!(in alloc; "{actor}{end}")?)?;
    }
    Ok(paths)
}

// Whether a path is that of one of the own three files of an actor.
fn is_own(actor: Option<&String>, path: &str) -> bool {
    match actor {
        None => false,
        Some(actor) => match path.strip_prefix(actor.as_str()) {
            None => false,
            Some(end) => OWN_ENDS.iter().any(|own| *own == end),
        },
    }
}

// What a link's text names, seen from the folder that the link stands in.
fn from_folder(alloc: Global, link: &str, target: &str) -> Result<String, AllocError> {
    if target.starts_with('/') {
        return String::from_str(alloc, target);
    }
    let folder = folder_of(link);
    format!(in alloc; "{folder}/{target}")
}

// What a symbolic link stands for, or None if the path is no link, or one of the system's own, which tells what a
// process has open.
fn target_of<R: Files>(rt: &R, alloc: Global, path: &str) -> Result<Option<String>, FileError> {
    let link = match rt.symlink_metadata(path) {
        Ok(link) => link,
        Err(_) => return Ok(None),
    };
    if !link.is_symlink() || is_systems_link(rt, &link) {
        return Ok(None);
    }
    if is_anothers_link(rt, path, &link) {
        return Err(FileError::AnothersLink);
    }
    let text = rt.read_link(alloc, path)?.into_string();
    Ok(Some(from_folder(alloc, path, text.as_str())?))
}

// The file that a name stands for: if its last part is a symbolic link, what the link stands for.
fn followed<R: Files>(rt: &R, alloc: Global, path: &str) -> Result<String, FileError> {
    let mut file = String::from_str(alloc, path)?;
    for _ in 0..MOST_LINKS {
        match target_of(rt, alloc, file.as_str())? {
            None => return Ok(file),
            Some(target) => file = target,
        }
    }
    Err(FileError::System(Error::from_raw_os_error(LOOP)))
}

// The path of the file that a name stands for. The system's administrator goes there folder by folder.
fn path_to<R: Files<File = File>>(
    rt: &R,
    alloc: Global,
    folders: &mut Folders,
    path: &str,
) -> Result<String, FileError> {
    if user() == 0 {
        folders.path_to(rt, alloc, path)
    } else {
        followed(rt, alloc, path)
    }
}

// Refuses what a delivery has no business with: a name outside the folder of its record.
fn refuse_outside(actor: Option<&String>, path: &str) -> Result<(), FileError> {
    match actor {
        Some(actor) if actor.as_str() == DELIVERY && folder_of(path) != folder_of(DELIVERY) => {
            Err(FileError::Outside)
        }
        _ => Ok(()),
    }
}

/// What a name stands for.
pub fn place_of<R: Files<File = File>>(
    rt: &R,
    alloc: Global,
    folders: &mut Folders,
    actor: Option<&String>,
    name: &[u8],
) -> Result<Place, FileError> {
    let path = path_of(name)?;
    if is_own(actor, path) {
        refuse_shared(rt, alloc, path)?;
        return Ok(Place::Own(String::from_str(alloc, path)?));
    }
    refuse_outside(actor, path)?;
    match staged_parts(path) {
        None => Ok(Place::File(path_to(rt, alloc, folders, path)?)),
        Some((file, digits)) => staged_place(alloc, path_to(rt, alloc, folders, file)?, digits),
    }
}

// The place of what is staged for a file.
fn staged_place(alloc: Global, file: String, digits: &str) -> Result<Place, FileError> {
    Ok(Place::Staged {
        path: staged_path(alloc, file.as_str(), digits)?,
        file,
        digits: String::from_str(alloc, digits)?,
    })
}

/// The place of a name where another has put a link in the place of the file: that link stands there.
pub fn place_before_link<R: Files<File = File>>(
    rt: &R,
    alloc: Global,
    folders: &mut Folders,
    name: &[u8],
) -> Result<Place, FileError> {
    let path = path_of(name)?;
    match staged_parts(path) {
        None => Ok(Place::File(folders.path_before_link(rt, alloc, path)?)),
        Some((file, digits)) => staged_place(
            alloc,
            folders.path_before_link(rt, alloc, file)?,
            digits,
        ),
    }
}
