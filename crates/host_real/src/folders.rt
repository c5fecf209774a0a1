// The folders on the way to a file: whose each is, and who may put another thing into its place.
use crate::kinds::{Stamp, is_closed_folder, is_systems_link, look, stands_at, user};
use crate::paths::folder_of;
use crate::reasons::FileError;
use crate::spool::FOLDER;
use std::alloc::{AllocError, Global};
use std::fs::{File, Files, Metadata};
use std::io::Error;
use std::os::fd::AsRawFd;
use std::os::unix::fs::MetadataExt;

/// The most symbolic links that are followed on one way, as the system has it.
pub const MOST_LINKS: usize = 40;

/// The system's number of an error: nothing stands there.
const NOTHING: i32 = 2;

/// The system's number of an error: what has names below it is no folder.
const NO_FOLDER: i32 = 20;

/// The system's number of an error: too many levels of symbolic links.
pub const LOOP: i32 = 40;

/// The bits of a folder's mode: its group may write it, all others may, and what stands in it is taken away by its
/// owner alone.
const GROUP_WRITES: u32 = 0o020;

const OTHERS_WRITE: u32 = 0o002;

const STICKY: u32 = 0o1000;

/// A folder that a way has come to: what stands before a name in it, what it is, its open file if the names below it go
/// through that, and whether no other user can put another folder into its place.
#[derive(Drop)]
struct Here {
    before: String,
    found: Metadata,
    open: Option<File>,
    is_fixed: bool,
}

/// What a part of a way comes to: a folder, a link with this text, or the end.
#[derive(Drop)]
enum Turn {
    Into(Here),
    Along(String),
    End,
}

/// Whose ways are gone: one that is refused where another user could lead it elsewhere, or one of the system's
/// administrator, which goes on below open folders then. It may end at another's link, which stands for itself.
#[derive(Clone, Copy, PartialEq)]
enum Gait {
    Fixed,
    Open,
    UpToLink,
}

/// A folder that is kept open, so that a path below it stays the same for as long as the run.
#[derive(Drop)]
struct Kept {
    stamp: Stamp,
    file: File,
}

/// A path of a name, and the one below an open folder that it has led to.
#[derive(Drop)]
struct Way {
    path: String,
    to: String,
}

/// The folders that the system's administrator has opened on the way to files, each once, and the ways that he doesn't
/// go again.
#[derive(Drop)]
pub struct Folders {
    kept: Vec<Kept>,
    ways: Vec<Way>,
}

// Whether something is the user's or the system's administrator's.
fn is_trusted(found: &Metadata) -> bool {
    found.uid() == 0 || found.uid() == user()
}

// Whether this is the folder of mailboxes. Programs of its group may write it; they are trusted with everybody's mail.
fn is_mail_folder<R: Files>(rt: &R, folder: &Metadata) -> bool {
    match rt.metadata(FOLDER) {
        Ok(found) => Stamp::of(&found).is_file_of(&Stamp::of(folder)),
        Err(_) => false,
    }
}

// Whether the user and the system's administrator alone may write a folder.
fn is_closed<R: Files>(rt: &R, folder: &Metadata) -> bool {
    is_trusted(folder)
        && match folder.mode() & (GROUP_WRITES | OTHERS_WRITE) {
            0 => true,
            GROUP_WRITES => is_mail_folder(rt, folder),
            _ => false,
        }
}

// Whether what others put into a folder takes the place of nothing that is the user's.
fn is_sticky(folder: &Metadata) -> bool {
    is_trusted(folder) && folder.mode() & STICKY != 0
}

// Whether no other user can put another thing into the place of what stands in a folder.
fn keeps<R: Files>(rt: &R, folder: &Metadata, entry: &Metadata) -> bool {
    is_closed(rt, folder) || (is_sticky(folder) && is_trusted(entry))
}

fn system_error<T: Drop>(number: i32) -> Result<T, FileError> {
    Err(FileError::System(Error::from_raw_os_error(number)))
}

// Puts the parts of a path before those that are still to go: the last of the list is gone next.
fn put_parts(alloc: Global, parts: &mut Vec<String>, path: &str) -> Result<(), FileError> {
    let mut rest = path;
    for _ in 0..u64::MAX {
        match rest.rsplit_once('/') {
            Some((front, part)) => {
                parts.push(String::from_str(alloc, part)?)?;
                rest = front;
            }
            None => break,
        }
    }
    Ok(parts.push(String::from_str(alloc, rest)?)?)
}

// Where a path begins. Nobody can put another folder in the place of the one that a process works in.
fn start<R: Files>(rt: &R, alloc: Global, path: &str) -> Result<Here, FileError> {
    let (before, folder) = if path.starts_with('/') {
        ("/", "/")
    } else {
        ("", ".")
    };
    Ok(Here {
        before: String::from_str(alloc, before)?,
        found: rt.metadata(folder)?,
        open: None,
        is_fixed: true,
    })
}

// A folder whose names are reached by its path.
fn by_path(alloc: Global, path: &str, found: Metadata, is_fixed: bool) -> Result<Here, FileError> {
    Ok(Here {
        before: format!(in alloc; "{path}/")?,
        found,
        open: None,
        is_fixed,
    })
}

// What stands before a name in an open folder, if the system shows it.
fn before_names<R: Files>(
    rt: &R,
    alloc: Global,
    folder: &File,
    found: &Metadata,
) -> Result<Option<String>, FileError> {
    let before = below(alloc, folder.as_raw_fd())?;
    match rt.metadata(before.as_str()) {
        Ok(shown) if Stamp::of(&shown).is_file_of(&Stamp::of(found)) => Ok(Some(before)),
        _ => Ok(None),
    }
}

fn joined(alloc: Global, before: &str, name: &str) -> Result<String, FileError> {
    Ok(format!(in alloc; "{before}{name}")?)
}

fn below(alloc: Global, descriptor: i32) -> Result<String, AllocError> {
    format!(in alloc; "/proc/self/fd/{descriptor}/")
}

// Opens a folder for whose place others may have another one, and sees that it is what stands there: no link led to it.
fn opened<R: Files<File = File>>(rt: &R, alloc: Global, path: &str) -> Result<Here, FileError> {
    let inside = format!(in alloc; "{path}/.")?;
    let file = File::open(rt, inside.as_str())?;
    let found = file.metadata()?;
    if !stands_at(rt, path, &found)? {
        return Err(FileError::AnothersLink);
    }
    match before_names(rt, alloc, &file, &found)? {
        Some(before) => Ok(Here {
            before,
            found,
            open: Some(file),
            is_fixed: false,
        }),
        None => by_path(alloc, path, found, false),
    }
}

// Goes on into a folder.
fn enter<R: Files<File = File>>(
    rt: &R,
    alloc: Global,
    here: &Here,
    path: &str,
    found: Metadata,
    gait: Gait,
) -> Result<Here, FileError> {
    if here.is_fixed && keeps(rt, &here.found, &found) {
        by_path(alloc, path, found, true)
    } else if gait == Gait::Fixed {
        Err(FileError::SharedFolder { is_empty: false })
    } else {
        opened(rt, alloc, path)
    }
}

// What a part of a way comes to. A link is followed only where no other user can have put it.
fn step<R: Files<File = File>>(
    rt: &R,
    alloc: Global,
    here: &Here,
    part: &str,
    is_last: bool,
    gait: Gait,
) -> Result<Turn, FileError> {
    let child = joined(alloc, here.before.as_str(), part)?;
    let path = child.as_str();
    let found = match rt.symlink_metadata(path) {
        Err(_) if is_last => return Ok(Turn::End),
        answer => answer?,
    };
    if found.is_symlink() {
        if is_last && is_systems_link(rt, &found) {
            return Ok(Turn::End);
        }
        if !keeps(rt, &here.found, &found) {
            return if is_last && gait == Gait::UpToLink {
                Ok(Turn::End)
            } else {
                Err(FileError::AnothersLink)
            };
        }
        return Ok(Turn::Along(rt.read_link(alloc, path)?.into_string()));
    }
    if is_last {
        Ok(Turn::End)
    } else if found.is_dir() {
        Ok(Turn::Into(enter(rt, alloc, here, path, found, gait)?))
    } else {
        system_error(NO_FOLDER)
    }
}

// Goes the way of a path: the folder that it comes to, and the name in it.
fn go<R: Files<File = File>>(
    rt: &R,
    alloc: Global,
    path: &str,
    gait: Gait,
) -> Result<(Here, String), FileError> {
    let mut here = start(rt, alloc, path)?;
    let mut parts = Vec::new(alloc);
    put_parts(alloc, &mut parts, path)?;
    let mut links = 0usize;
    for _ in 0..u64::MAX {
        let Some(part) = parts.pop() else { break };
        let is_last = parts.is_empty();
        if part.is_empty() || part.as_str() == "." {
            if is_last {
                return Ok((here, String::from_str(alloc, ".")?));
            }
            continue;
        }
        match step(rt, alloc, &here, part.as_str(), is_last, gait)? {
            Turn::End => return Ok((here, part)),
            Turn::Into(folder) => here = folder,
            Turn::Along(text) => {
                links = links.saturating_add(1);
                if links > MOST_LINKS {
                    break;
                }
                if text.starts_with('/') {
                    here = start(rt, alloc, "/")?;
                }
                put_parts(alloc, &mut parts, text.as_str())?;
            }
        }
    }
    system_error(LOOP)
}

impl Folders {
    pub fn new(alloc: Global) -> Folders {
        Folders {
            kept: Vec::new(alloc),
            ways: Vec::new(alloc),
        }
    }

    /// Has each way gone anew. Until then a name leads to the same open folder, whatever others put there meanwhile.
    pub fn forget_ways(&mut self) {
        self.ways.clear();
    }

    // Keeps a folder open. Its number among the open files.
    fn keep(&mut self, file: File, stamp: Stamp) -> Result<i32, FileError> {
        if let Some(kept) = self.kept.iter().find(|kept| kept.stamp.is_file_of(&stamp)) {
            return Ok(kept.file.as_raw_fd());
        }
        let descriptor = file.as_raw_fd();
        self.kept.push(Kept { stamp, file })?;
        Ok(descriptor)
    }

    /// The path by which the system's administrator has the file of a name: with no link in it, and below an open
    /// folder if another user could put another thing in the place of a folder on the way. Where the system doesn't
    /// show what is open, each part was looked at.
    pub fn path_to<R: Files<File = File>>(
        &mut self,
        rt: &R,
        alloc: Global,
        path: &str,
    ) -> Result<String, FileError> {
        if let Some(way) = self.ways.iter().find(|way| way.path.as_str() == path) {
            return Ok(String::from_str(alloc, way.to.as_str())?);
        }
        let (to, is_open) = self.way(rt, alloc, path, Gait::Open)?;
        if is_open {
            self.ways.push(Way {
                path: String::from_str(alloc, path)?,
                to: String::from_str(alloc, to.as_str())?,
            })?;
        }
        Ok(to)
    }

    /// The same, where another's link may stand in the place of the file: the path is that of the link. Where it stands in
    /// the place of a folder, nothing is there.
    pub fn path_before_link<R: Files<File = File>>(
        &mut self,
        rt: &R,
        alloc: Global,
        path: &str,
    ) -> Result<String, FileError> {
        match self.way(rt, alloc, path, Gait::UpToLink) {
            Ok((to, _is_open)) => Ok(to),
            Err(FileError::AnothersLink) => system_error(NOTHING),
            Err(error) => Err(error),
        }
    }

    // Where a way leads to, and whether that is below an open folder.
    fn way<R: Files<File = File>>(
        &mut self,
        rt: &R,
        alloc: Global,
        path: &str,
        gait: Gait,
    ) -> Result<(String, bool), FileError> {
        let (here, name) = go(rt, alloc, path, gait)?;
        let Some(file) = here.open else {
            return Ok((joined(alloc, here.before.as_str(), name.as_str())?, false));
        };
        let before = below(alloc, self.keep(file, Stamp::of(&here.found))?)?;
        Ok((joined(alloc, before.as_str(), name.as_str())?, true))
    }
}

/// What a path leads to. The system's administrator is led on by the system's own links alone: another may have been put
/// there meanwhile.
pub fn led_to<R: Files>(rt: &R, path: &str) -> Result<Metadata, Error> {
    let found = rt.symlink_metadata(path)?;
    if found.is_symlink() && (user() != 0 || is_systems_link(rt, &found)) {
        rt.metadata(path)
    } else {
        Ok(found)
    }
}

// Refuses what is no regular file of the user's, in the place of one of a run's own three files.
fn refuse_planted(found: &Metadata) -> Result<(), FileError> {
    if !found.is_file() {
        Err(FileError::NotRegular)
    } else if found.uid() != user() {
        Err(FileError::NotOwn)
    } else {
        Ok(())
    }
}

/// Refuses what was opened as one of a run's own three files, if it is another's, or a link that was put there
/// meanwhile has led to it.
pub fn refuse_opened<R: Files>(rt: &R, path: &str, open: &Metadata) -> Result<(), FileError> {
    refuse_planted(open)?;
    if stands_at(rt, path, open)? {
        Ok(())
    } else {
        Err(FileError::NotRegular)
    }
}

// Whether the reason why a way wasn't gone is that another user could lead it elsewhere.
fn is_of_another(error: &FileError) -> bool {
    matches!(
        error,
        FileError::AnothersLink | FileError::SharedFolder { .. }
    )
}

// Whether it is that a folder on the way isn't there, or is out of reach.
fn is_closed_way(error: &FileError) -> bool {
    match error {
        FileError::System(error) => is_closed_folder(error),
        _ => false,
    }
}

// Whether none but its user and the system's administrator can put something else in the place of a file in the folder
// that a path leads to.
fn is_private<R: Files<File = File>>(
    rt: &R,
    alloc: Global,
    folder: &str,
) -> Result<bool, FileError> {
    let inside = format!(in alloc; "{folder}/.")?;
    match go(rt, alloc, inside.as_str(), Gait::Fixed) {
        Ok(end) => Ok(is_closed(rt, &end.0.found) || is_sticky(&end.0.found)),
        Err(error) if is_of_another(&error) => Ok(false),
        Err(error) if is_closed_way(&error) => Ok(true),
        Err(error) => Err(error),
    }
}

/// Refuses a path of one of a run's own three files if what stands there isn't the user's, or if others can put
/// something into its place.
pub fn refuse_shared<R: Files<File = File>>(
    rt: &R,
    alloc: Global,
    path: &str,
) -> Result<(), FileError> {
    let found = look(rt, path);
    if let Ok(Some(found)) = &found {
        refuse_planted(found)?;
    }
    if is_private(rt, alloc, folder_of(path))? {
        Ok(())
    } else {
        Err(FileError::SharedFolder {
            is_empty: !matches!(found, Ok(Some(_))),
        })
    }
}
