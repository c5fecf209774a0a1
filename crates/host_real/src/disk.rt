// The disk of the real machine, as one run sees it.
ghost use Rattle.std.specs.Prelude.{IfOk};
ghost use Rattle.host_port.specs.Calls.{FitsLoad};

use crate::deliveries::{Part, put_anyhow, staged_bytes};
use crate::files::{give_staged, remove_file, rename_file, sync_name, write_file, write_unnamed};
use crate::folders::Folders;
use crate::kinds::{is_absence, is_empty_place, is_folder, refuse_own, user};
use crate::locks::{Marks, lock, locker_of, refuse_broken, refuse_unlocked, unlock};
use crate::paths::{Place, RECORD_END, actor_of, is_staged, path_of, place_before_link, place_of};
use crate::reading::load;
use crate::reasons::{FileError, Speaker};
use crate::rights::Rights;
use crate::spool::{Errand, Helper, Operation};
use crate::tails::extend;
use crate::waiting::Waits;
use host_port::LoadAnswer;
use std::alloc::Global;
use std::fs::{File, Files};
use std::io::{Eprint, ErrorKind};
use std::process::Processes;
use std::time::{Clock, Duration};

/// The files of a run: the rights and the locks that it has, and the actor whose three files are its own, which the
/// first right that is asked for tells. Others that have a right or a lock are waited for so long.
#[derive(Drop)]
pub struct Disk {
    alloc: Global,
    waits: Waits,
    actor: Option<String>,
    folders: Folders,
    rights: Rights,
    marks: Marks,
    delivers: bool,
    found: Option<Found>,
}

/// A staged file that was found: the file that it is staged for, and the digits of its token.
#[derive(Drop)]
struct Found {
    file: String,
    digits: String,
}

fn found_of(place: Place) -> Option<Found> {
    match place {
        Place::Staged {
            path: _path,
            file,
            digits,
        } => Some(Found { file, digits }),
        Place::Own(_path) => None,
        Place::File(_path) => None,
    }
}

// Whether a name stands for no file, and can stand for none: the reason why it has no place. None of a run's own files
// is made where another user could put something in its place.
fn names_nothing(error: &FileError) -> bool {
    match error {
        FileError::NotText => true,
        FileError::System(error) => is_absence(error),
        FileError::SharedFolder { is_empty } => *is_empty,
        _ => false,
    }
}

// Whether the reason why a name has no place says that its file is absent. Of a staged file it says so too if no file
// can be there.
fn is_nowhere(name: &[u8], error: &FileError) -> bool {
    match error {
        FileError::System(error) => {
            error.kind() == ErrorKind::NotFound || (is_staged(name) && is_absence(error))
        }
        FileError::SharedFolder { is_empty } => *is_empty,
        _ => false,
    }
}

// No file, and no lock on it.
fn absent() -> LoadAnswer
    ensures { FitsLoad result.bytes }
{
    LoadAnswer {
        bytes: None,
        held: false,
    }
}

impl Disk {
    pub fn new(alloc: Global, wait: Duration) -> Disk {
        Disk {
            alloc,
            waits: Waits {
                span: wait,
                speaker: Speaker::Session,
            },
            actor: None,
            folders: Folders::new(alloc),
            rights: Rights::new(alloc),
            marks: Marks::new(alloc),
            delivers: false,
            found: None,
        }
    }

    /// The run delivers: its commits only add to mailboxes. Run by the system's administrator it goes on whatever others
    /// do to theirs under its locks.
    pub fn deliver(&mut self) {
        self.waits.speaker = Speaker::Delivery;
        self.delivers = user() == 0;
    }

    /// Which program the run is of.
    pub fn speaker(&self) -> Speaker {
        self.waits.speaker
    }

    /// The name of the run's record, if its actor is known.
    pub fn record(&self) -> Option<String> {
        let actor = self.actor.as_ref()?.as_str();
        format!(in self.alloc; "{actor}{RECORD_END}").ok()
    }

    /// Whether a name is that of the run's record.
    pub fn is_record(&self, name: &[u8]) -> bool {
        match &self.actor {
            Some(actor) => name.strip_prefix(actor.as_bytes()) == Some(RECORD_END.as_bytes()),
            None => false,
        }
    }

    fn place<R: Files<File = File>>(&mut self, rt: &R, name: &[u8]) -> Result<Place, FileError> {
        place_of(rt, self.alloc, &mut self.folders, self.actor.as_ref(), name)
    }

    fn helper(&self) -> Helper<'_> {
        Helper::new(self.alloc, &self.rights)
    }

    // The place of a name that a record may have: a link that another has put there since is what stands in its place.
    fn place_after<R: Files<File = File>>(
        &mut self,
        rt: &R,
        name: &[u8],
    ) -> Result<Place, FileError> {
        match self.place(rt, name) {
            Err(FileError::AnothersLink) if self.delivers => place_before_link(
                rt,
                self.alloc,
                &mut self.folders,
                name,
            ),
            answer => answer,
        }
    }

    // The place of a name, or None if no file can have it.
    fn place_if_any<R: Files<File = File>>(
        &mut self,
        rt: &R,
        name: &[u8],
    ) -> Result<Option<Place>, FileError> {
        match self.place_after(rt, name) {
            Ok(place) => Ok(Some(place)),
            Err(error) if names_nothing(&error) => Ok(None),
            Err(error) => Err(error),
        }
    }

    pub fn load<R: Files<File = File> + Clock + Eprint>(
        &mut self,
        rt: &R,
        alloc: Global,
        name: &[u8],
    ) -> Result<LoadAnswer, FileError>
        ensures { IfOk result (λ a. FitsLoad a.bytes) }
    {
        if is_staged(name) {
            return self.load_staged(rt, alloc, name);
        }
        let place = match self.place(rt, name) {
            Err(error) if is_nowhere(name, &error) => return Ok(absent()),
            answer => answer?,
        };
        let answer = load(rt, alloc, &self.marks, &place, self.waits)?;
        if let Place::Own(path) = &place
            && answer.bytes.is_some()
        {
            // a run that was stopped may have put it in place, and its name not have reached the device
            sync_name(rt, path.as_str())?;
        }
        Ok(answer)
    }

    // Loads what was staged. In a delivery what another has put in its place is none.
    fn load_staged<R: Files<File = File> + Clock + Eprint>(
        &mut self,
        rt: &R,
        alloc: Global,
        name: &[u8],
    ) -> Result<LoadAnswer, FileError>
        ensures { IfOk result (λ a. FitsLoad a.bytes) }
    {
        let place = match self.place_after(rt, name) {
            Err(error) if is_nowhere(name, &error) => return Ok(absent()),
            answer => answer?,
        };
        let answer = match load(rt, alloc, &self.marks, &place, self.waits) {
            Ok(answer) => answer,
            Err(FileError::NotRegular) if self.delivers => absent(),
            Err(error) => return Err(error),
        };
        self.found = found_of(place);
        Ok(answer)
    }

    // The digits of the lock on a file, as far as this run has put it, or has found what is staged for the file.
    fn digits_of(&self, path: &str) -> Option<&str> {
        match (self.marks.digits_of(path), &self.found) {
            (Some(digits), _) => Some(digits),
            (None, Some(found)) if found.file.as_str() == path => Some(found.digits.as_str()),
            _ => None,
        }
    }

    /// Writes a whole file. The name of one where a record is made needn't last, as it is renamed next.
    pub fn stage<R: Files<File = File> + Processes>(
        &mut self,
        rt: &R,
        name: &[u8],
        bytes: &[u8],
    ) -> Result<(), FileError> {
        let place = self.place(rt, name)?;
        let written = match &place {
            Place::Own(path) => write_unnamed(rt, path.as_str(), bytes),
            _ => write_file(rt, place.path(), bytes),
        };
        match (written, &place) {
            (Err(refusal), Place::Staged { file, digits, .. }) => {
                let errand = Errand {
                    operation: Operation::Stage,
                    file: file.as_str(),
                    digits: digits.as_str(),
                    input: bytes,
                };
                self.helper().have_done(rt, &errand, refusal)
            }
            (answer, _) => answer,
        }
    }

    /// Puts a staged file into its place, if the lock of that file stands and the file is as it was locked.
    pub fn publish<R: Files<File = File> + Processes + Clock>(
        &mut self,
        rt: &R,
        from: &[u8],
        to: &[u8],
    ) -> Result<bool, FileError> {
        let Some(from) = self.place_if_any(rt, from)? else {
            return Ok(false);
        };
        if is_empty_place(rt, from.path()) {
            // a run that was stopped may have put it in place, and that not have reached the device
            sync_name(rt, from.path())?;
            return Ok(false);
        }
        let to = self.place_after(rt, to)?;
        match &from {
            Place::Staged { path, file, digits } if file.as_str() == to.path() => {
                let (path, file, digits) = (path.as_str(), file.as_str(), digits.as_str());
                match self.put_in_place(rt, path, file, digits) {
                    Err(error) if self.delivers && error.is_of_others() => self.put_behind(
                        rt, path, file, digits,
                    ),
                    answer => answer,
                }
            }
            _ => rename_file(rt, from.path(), to.path()),
        }
    }

    // Puts what was staged for a mailbox that wasn't there behind what another has put there since.
    fn put_behind<R: Files<File = File> + Clock>(
        &self,
        rt: &R,
        staged: &str,
        file: &str,
        digits: &str,
    ) -> Result<bool, FileError> {
        let Some(text) = staged_bytes(rt, self.alloc, staged)? else {
            return Ok(false);
        };
        let part = Part {
            digits,
            at: 0,
            text: text.as_slice(),
        };
        put_anyhow(rt, self.alloc, file, part, self.waits.span)?;
        let _ = rt.remove_file(staged);
        sync_name(rt, staged)?;
        Ok(true)
    }

    // Puts what was staged by the token with these digits in the place of its file.
    fn put_in_place<R: Files<File = File> + Processes>(
        &self,
        rt: &R,
        staged: &str,
        file: &str,
        digits: &str,
    ) -> Result<bool, FileError> {
        refuse_broken(rt, self.alloc, &self.marks, file, digits)?;
        give_staged(rt, staged, file)?;
        match rename_file(rt, staged, file) {
            Err(refusal) => {
                let errand = Errand::of(Operation::Publish, file, digits);
                self.helper().ask(rt, &errand, refusal)
            }
            answer => answer,
        }
    }

    /// Gives a file another tail, if the lock of a run that has staged that tail stands, and nobody else has added to
    /// the file. In a delivery others may have done so, or have taken the file or the lock away.
    pub fn extend<R: Files<File = File> + Clock>(
        &mut self,
        rt: &R,
        name: &[u8],
        at: u64,
        tail: &[u8],
    ) -> Result<(), FileError> {
        let place = match self.place_after(rt, name) {
            // the folder is gone, and what was to be put there with it
            Err(error) if self.delivers && names_nothing(&error) => return Ok(()),
            answer => answer?,
        };
        let path = place.path();
        let known = self.digits_of(path);
        match (
            extend(rt, self.alloc, &self.marks, known, path, at, tail),
            known,
        ) {
            (Err(error), Some(digits)) if self.delivers && error.is_of_others() => {
                let part = Part {
                    digits,
                    at,
                    text: tail,
                };
                put_anyhow(rt, self.alloc, path, part, self.waits.span)
            }
            (answer, _) => answer,
        }
    }

    /// Takes a file away: one of mailx's own making, or one whose lock stands and that is as it was locked.
    pub fn erase<R: Files<File = File> + Processes>(
        &mut self,
        rt: &R,
        name: &[u8],
    ) -> Result<(), FileError> {
        let place = match self.place_if_any(rt, name) {
            Ok(Some(place)) => place,
            Ok(None) => return Ok(()),
            Err(FileError::AnothersLink) if is_staged(name) => return Ok(()),
            Err(error) => return Err(error),
        };
        if let Place::File(path) = &place {
            let path = path.as_str();
            if !path.ends_with(".lock") && !is_empty_place(rt, path) {
                refuse_unlocked(rt, self.alloc, &self.marks, path)?;
            }
        }
        match remove_file(rt, &place) {
            Err(_) if self.delivers && is_staged(name) && is_folder(rt, place.path()) => Ok(()),
            Err(refusal) => self.have_erased(rt, &place, refusal),
            answer => answer,
        }
    }

    // Has the helper take away what was staged, or a file that is locked by a run which has staged its removal.
    fn have_erased<R: Files + Processes>(
        &self,
        rt: &R,
        place: &Place,
        refusal: FileError,
    ) -> Result<(), FileError> {
        match place {
            Place::Staged { file, digits, .. } => {
                let helper = self.helper();
                helper.have_discarded(rt, file.as_str(), digits.as_str(), refusal)
            }
            Place::File(path) if !path.ends_with(".lock") => {
                let digits = locker_of(rt, self.alloc, path.as_str())?;
                let errand = Errand::of(Operation::Erase, path.as_str(), digits.as_str());
                self.helper().have_done(rt, &errand, refusal)
            }
            _ => Err(refusal),
        }
    }

    pub fn lock<R: Files<File = File> + Clock + Processes + Eprint>(
        &mut self,
        rt: &R,
        name: &[u8],
        token: u64,
    ) -> Result<bool, FileError> {
        let place = self.place(rt, name)?;
        let path = place.path();
        refuse_own(rt, self.alloc, self.actor.as_ref(), path)?;
        let helper = Helper::new(self.alloc, &self.rights);
        lock(rt, &helper, &mut self.marks, path, token, self.waits)
    }

    pub fn unlock<R: Files<File = File> + Processes>(
        &mut self,
        rt: &R,
        name: &[u8],
        token: u64,
    ) -> Result<(), FileError> {
        match self.place_if_any(rt, name) {
            Ok(Some(place)) => {
                let helper = Helper::new(self.alloc, &self.rights);
                unlock(rt, &helper, &mut self.marks, place.path(), token)
            }
            Ok(None) | Err(FileError::AnothersLink) => Ok(()),
            Err(error) => Err(error),
        }
    }

    // The first right that is asked for tells the actor of the run.
    fn know_actor(&mut self, name: &[u8]) -> Result<(), FileError> {
        if self.actor.is_none()
            && let Some(actor) = actor_of(path_of(name)?)
        {
            self.actor = Some(String::from_str(self.alloc, actor)?);
        }
        Ok(())
    }

    pub fn seize<R: Files<File = File> + Clock>(
        &mut self,
        rt: &R,
        name: &[u8],
    ) -> Result<bool, FileError> {
        if self.rights.has(name) {
            return Ok(true);
        }
        self.folders.forget_ways();
        self.know_actor(name)?;
        let place = match self.place(rt, name) {
            Err(FileError::SharedFolder { is_empty: true }) => None,
            answer => Some(answer?),
        };
        self.rights
            .take(rt, self.alloc, name, place.as_ref(), self.waits.span)
    }

    pub fn release(&mut self, name: &[u8]) {
        self.rights.give_up(name);
        self.folders.forget_ways();
    }
}
