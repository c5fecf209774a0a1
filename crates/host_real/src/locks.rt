// Locks made of files. The lock on F is the file F.lock, which holds its owner's token.
use crate::files::{make_new, remove_file, sync_name, write_new};
use crate::kinds::{
    Stamp, is_absence, is_empty_place, is_out_of_reach, look, may_be_changed, open_both, stamp_at,
    user,
};
use crate::leases::is_leased;
use crate::paths::{Place, beside_name, is_token, lock_path, staged_path, token_text};
use crate::reasons::FileError;
use crate::spool::{Errand, Helper, Operation};
use crate::waiting::{LockWait, Patience, Waits};
use std::alloc::Global;
use std::fs::{File, Files, OpenFile};
use std::io::{Eprint, Error, ErrorKind, Read};
use std::os::unix::fs::MetadataExt;
use std::process::Processes;
use std::time::{Clock, Duration};

/// The shortest pause, in microseconds, between two looks at a lock.
const PAUSE: u64 = 20_000;

/// How many seconds another is waited for at least who has broken a lock.
const LEAST_WAIT: u64 = 1;

/// More bytes than a lock of ours has.
const LOCK_ROOM: u64 = 17;

/// Who has locked a file.
#[derive(Clone, Copy, PartialEq, Eq)]
pub enum Hold {
    Free,
    Own,
    Other,
}

/// A lock that this host has put, and what stood at the file's place then. The system's administrator keeps that open, so
/// that no lease of its user comes between the lock and the end.
#[derive(Drop)]
struct Mark {
    file: String,
    digits: String,
    found: Option<Stamp>,
    _open: Option<File>,
}

/// The locks that this host has put.
#[derive(Drop)]
pub struct Marks {
    marks: Vec<Mark>,
}

impl Marks {
    pub fn new(alloc: Global) -> Marks {
        Marks {
            marks: Vec::new(alloc),
        }
    }

    fn find(&self, file: &str, digits: &str) -> Option<&Mark> {
        let is_of = |mark: &&Mark| mark.file.as_str() == file && mark.digits.as_str() == digits;
        self.marks.iter().find(is_of)
    }

    fn has_token(&self, digits: &str) -> bool {
        self.marks.iter().any(|mark| mark.digits.as_str() == digits)
    }

    fn forget(&mut self, file: &str) {
        self.marks.retain(|mark| mark.file.as_str() != file);
    }

    fn put(&mut self, mark: Mark) -> Result<(), FileError> {
        self.forget(mark.file.as_str());
        Ok(self.marks.push(mark)?)
    }

    /// The digits of the token by which this host has locked a file.
    pub fn digits_of(&self, file: &str) -> Option<&str> {
        let mark = self.marks.iter().find(|mark| mark.file.as_str() == file)?;
        Some(mark.digits.as_str())
    }
}

/// Whether a lock stands: anything that has its name. If none can stand, there is none.
pub fn is_held<R: Files>(rt: &R, lock: &str) -> Result<bool, FileError> {
    match look(rt, lock) {
        Ok(found) => Ok(found.is_some()),
        Err(_) if is_out_of_reach(rt, lock) => Ok(false),
        Err(error) => Err(FileError::from(error)),
    }
}

// What a lock that can be opened holds, as far as it may be a token. The administrator opens his own alone, and so that no
// pipe in its place holds him up.
fn read_lock<R: Files>(rt: &R, alloc: Global, lock: &str) -> Result<Vec<u8>, Error> {
    let mut bytes = Vec::new(alloc);
    let mut file = if user() == 0 {
        open_both(rt, lock)?
    } else {
        File::open(rt, lock)?
    };
    if !file.metadata()?.is_file() {
        return Ok(bytes);
    }
    (&mut file).take(LOCK_ROOM).read_to_end(&mut bytes)?;
    Ok(bytes)
}

// The token of a lock, as its digits: none if no lock stands, if it may not be read, or if it holds no token.
fn owner_of<R: Files>(rt: &R, alloc: Global, lock: &str) -> Result<Option<String>, FileError> {
    match look(rt, lock)? {
        Some(found) if found.is_file() && (user() != 0 || found.uid() == 0) => {}
        _ => return Ok(None),
    }
    let bytes = match read_lock(rt, alloc, lock) {
        Ok(bytes) => bytes,
        Err(error) if is_absence(&error) || error.kind() == ErrorKind::PermissionDenied => {
            return Ok(None);
        }
        Err(error) => return Err(FileError::from(error)),
    };
    match str::from_utf8(bytes.as_slice()) {
        Ok(digits) if is_token(digits) => Ok(Some(String::from_str(alloc, digits)?)),
        _ => Ok(None),
    }
}

/// Who has put a lock.
pub fn hold_of<R: Files>(
    rt: &R,
    alloc: Global,
    marks: &Marks,
    lock: &str,
) -> Result<Hold, FileError> {
    if !is_held(rt, lock)? {
        return Ok(Hold::Free);
    }
    match owner_of(rt, alloc, lock)? {
        Some(digits) if marks.has_token(digits.as_str()) => Ok(Hold::Own),
        _ => Ok(Hold::Other),
    }
}

// Puts a lock if none stands. False if one stands. Its name reaches the device with that of what is staged beside the
// file, before a change is decided.
fn put_lock<R: Files<File = File> + Processes>(
    rt: &R,
    helper: &Helper<'_>,
    path: &str,
    lock: &str,
    digits: &str,
) -> Result<bool, FileError> {
    if is_held(rt, lock)? {
        return Ok(false);
    }
    let beside = beside_name(helper.alloc, path, digits)?;
    match make_new(rt, lock, beside.as_str(), digits.as_bytes()) {
        Err(refusal) => helper.ask(rt, &Errand::of(Operation::Lock, path, digits), refusal),
        answer => answer,
    }
}

/// Puts a lock on a file that may be changed. False if one stands, or if the file's user has a lease on it, against whom
/// the system's administrator delivers: another's is waited for.
pub fn lock<R: Files<File = File> + Clock + Processes + Eprint>(
    rt: &R,
    helper: &Helper<'_>,
    marks: &mut Marks,
    path: &str,
    token: u64,
    waits: Waits,
) -> Result<bool, FileError> {
    let alloc = helper.alloc;
    let lock = lock_path(alloc, path)?;
    let lock = lock.as_str();
    let digits = token_text(alloc, token)?;
    let mut waiting = LockWait::new(rt, lock, waits, PAUSE);
    for _ in 0..u64::MAX {
        if !is_leased(rt, alloc, path) {
            let open = may_be_changed(rt, path)?;
            if put_lock(rt, helper, path, lock, digits.as_str())? {
                marks.put(Mark {
                    file: String::from_str(alloc, path)?,
                    digits,
                    found: stamp_at(rt, path)?,
                    _open: if user() == 0 { open } else { None },
                })?;
                return Ok(true);
            }
        }
        if hold_of(rt, alloc, marks, lock)? == Hold::Own || !waiting.again(rt, alloc) {
            return Ok(false);
        }
    }
    Ok(false)
}

/// Puts a lock again that was taken away after the decision. Another's is waited for, and then heeded no more: who broke
/// the lock would hold up all others.
pub fn lock_again<R: Files + Clock>(
    rt: &R,
    alloc: Global,
    path: &str,
    digits: &str,
    wait: Duration,
) -> Result<(), FileError> {
    let lock = lock_path(alloc, path)?;
    let lock = lock.as_str();
    let beside = beside_name(alloc, path, digits)?;
    let patience = Patience::new(rt, wait.max(Duration::from_secs(LEAST_WAIT)), PAUSE);
    for _ in 0..u64::MAX {
        if is_of_token(rt, alloc, lock, digits)?
            || write_new(rt, lock, beside.as_str(), digits.as_bytes())?
            || !patience.again(rt)
        {
            return Ok(());
        }
    }
    Ok(())
}

// Whether a lock stands that holds this token.
fn is_of_token<R: Files>(
    rt: &R,
    alloc: Global,
    lock: &str,
    digits: &str,
) -> Result<bool, FileError> {
    if !is_held(rt, lock)? {
        return Ok(false);
    }
    match owner_of(rt, alloc, lock)? {
        Some(owner) => Ok(owner.as_str() == digits),
        None => Ok(false),
    }
}

// Takes a lock file away. It may be gone already.
fn remove_lock<R: Files>(rt: &R, alloc: Global, lock: &str) -> Result<(), FileError> {
    remove_file(rt, &Place::File(String::from_str(alloc, lock)?))
}

// Takes the lock with this token away. The helper takes only such away as it has put.
fn take_away<R: Files + Processes>(
    rt: &R,
    helper: &Helper<'_>,
    path: &str,
    lock: &str,
    digits: &str,
) -> Result<(), FileError> {
    let Err(refusal) = remove_lock(rt, helper.alloc, lock) else {
        return Ok(());
    };
    let errand = Errand::of(Operation::Unlock, path, digits);
    helper.have_done(rt, &errand, refusal)?;
    if is_of_token(rt, helper.alloc, lock, digits)? {
        return Err(FileError::HelperRefused);
    }
    Ok(())
}

/// Takes the lock on a file away if it holds this token, and what is left of the making of that lock: by a stopped run,
/// or by the helper, if another has broken the lock.
pub fn unlock<R: Files + Processes>(
    rt: &R,
    helper: &Helper<'_>,
    marks: &mut Marks,
    path: &str,
    token: u64,
) -> Result<(), FileError> {
    let lock = lock_path(helper.alloc, path)?;
    let lock = lock.as_str();
    let digits = token_text(helper.alloc, token)?;
    let digits = digits.as_str();
    let beside = beside_name(helper.alloc, path, digits)?;
    let left = rt.remove_file(beside.as_str());
    if is_of_token(rt, helper.alloc, lock, digits)? {
        take_away(rt, helper, path, lock, digits)?;
        marks.forget(path);
        return Ok(());
    }
    if let Err(refusal) = left {
        let errand = Errand::of(Operation::Unlock, path, digits);
        let _ = helper.have_done(rt, &errand, FileError::from(refusal));
    }
    // a run that was stopped may have taken it away, and its absence not have reached the device
    sync_name(rt, lock)
}

// Whether a file is as it was when its lock was put: this host has seen it then. Of a lock that another run has put
// it is known that the file may not have changed later than the lock.
fn is_untouched(now: Option<Stamp>, mark: Option<&Mark>, lock: &Stamp) -> bool {
    match (mark, now) {
        (Some(mark), _) => mark.found == now,
        (None, Some(now)) => !now.is_later(lock),
        (None, None) => true,
    }
}

// Whether a file that was changed since its lock was put was not written: it got another name or another mode, say.
fn is_unwritten(now: Option<Stamp>, mark: Option<&Mark>, lock: &Stamp) -> bool {
    match (mark, now) {
        (Some(mark), Some(now)) => match mark.found {
            Some(found) => now.has_bytes_of(&found),
            None => false,
        },
        (None, Some(now)) => now.was_written_before(lock),
        (_, None) => false,
    }
}

// The stamp of a lock that holds a token. A lock that was broken is an error.
fn standing_lock<R: Files>(
    rt: &R,
    alloc: Global,
    file: &str,
    digits: &str,
) -> Result<Stamp, FileError> {
    let lock = lock_path(alloc, file)?;
    let Some(standing) = stamp_at(rt, lock.as_str())? else {
        return Err(FileError::LockGone);
    };
    match owner_of(rt, alloc, lock.as_str())? {
        Some(owner) if owner.as_str() == digits => Ok(standing),
        _ => Err(FileError::LockGone),
    }
}

/// Whether a file is as it was locked with this token. A lock that was broken is an error.
pub fn is_as_locked<R: Files>(
    rt: &R,
    alloc: Global,
    marks: &Marks,
    file: &str,
    digits: &str,
) -> Result<bool, FileError> {
    let standing = standing_lock(rt, alloc, file, digits)?;
    let now = stamp_at(rt, file)?;
    Ok(is_untouched(now, marks.find(file, digits), &standing))
}

/// Refuses to replace or remove a file whose lock with this token was broken, or that was written under it.
pub fn refuse_broken<R: Files>(
    rt: &R,
    alloc: Global,
    marks: &Marks,
    file: &str,
    digits: &str,
) -> Result<(), FileError> {
    let standing = standing_lock(rt, alloc, file, digits)?;
    let now = stamp_at(rt, file)?;
    let mark = marks.find(file, digits);
    if is_untouched(now, mark, &standing) || is_unwritten(now, mark, &standing) {
        Ok(())
    } else {
        Err(FileError::Changed)
    }
}

/// The token of the lock on a file by a run that has staged what is to become of it.
pub fn locker_of<R: Files>(rt: &R, alloc: Global, file: &str) -> Result<String, FileError> {
    let lock = lock_path(alloc, file)?;
    let Some(digits) = owner_of(rt, alloc, lock.as_str())? else {
        return Err(FileError::LockGone);
    };
    let staged = staged_path(alloc, file, digits.as_str())?;
    if is_empty_place(rt, staged.as_str()) {
        return Err(FileError::LockGone);
    }
    Ok(digits)
}

/// Refuses to remove a file that isn't locked by a run which has staged its removal, or that was changed meanwhile.
pub fn refuse_unlocked<R: Files>(
    rt: &R,
    alloc: Global,
    marks: &Marks,
    file: &str,
) -> Result<(), FileError> {
    let digits = locker_of(rt, alloc, file)?;
    refuse_broken(rt, alloc, marks, file, digits.as_str())
}
