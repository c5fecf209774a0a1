// The real folder of mailboxes, and the real list of users. It tells no calls.
ghost use Rattle.std.specs.Prelude.{None};

use crate::holding::{Hold, busy, is_one, keep, open, seen_of};
use crate::reasons::{stop_at, stop_of, tell};
use crate::way::{FOLDER, enter};
use mail_text::{Memory, Text};
use spool_rules::{Seen, Spool, Stop};
use std::alloc::Global;
use std::fs::{File, Files, OpenOptions, Permissions};
use std::io::{Eprint, Error, ErrorKind, Input, Read, Write};
use std::os::fd::AsRawFd;
use std::os::unix::fs::{OpenOptionsExt, PermissionsExt};
use std::rt::Env;

/// The list of users.
const USERS: &str = "/etc/passwd";

/// The most bytes of a list of users. Of a longer one the last line would be cut, and its number might be another's.
const MOST_BYTES: u64 = 16_777_216;

/// The mode of a file while it is written, and of a lock.
const PRIVATE: u32 = 0o600;

/// The number of the first open file that isn't a standard stream.
const FIRST_FILE: i32 = 3;

/// The bytes that are handed on at once.
const ROOM: usize = 8192;

/// The folder of mailboxes on the real machine, for a user. It is the working folder once a name in it is held.
#[derive(Drop)]
pub struct RealSpool<R> {
    rt: R,
    alloc: Global,
    user: u32,
    held: Option<Hold>,
}

// A name in the folder.
fn name_of(name: &[u8]) -> Result<&str, Stop> {
    match str::from_utf8(name) {
        Ok(name) => Ok(name),
        Err(_) => Err(Stop::Refused),
    }
}

// The open list of users. It is the first file that is opened: if it stands in the place of a standard stream, that stream is
// closed, and what is written would go into a file that is made later.
fn open_users<R: Files<File = File>>(rt: &R) -> Result<File, Error> {
    let file = File::open(rt, USERS)?;
    if file.as_raw_fd() < FIRST_FILE {
        return Err(Error::from(ErrorKind::BrokenPipe));
    }
    Ok(file)
}

fn read_users<R: Files<File = File>>(rt: &R, alloc: Global) -> Result<Vec<u8>, Error> {
    let mut file = open_users(rt)?;
    let mut bytes = Vec::new(alloc);
    (&mut file).take(MOST_BYTES + 1).read_to_end(&mut bytes)?;
    if bytes.len() as u64 > MOST_BYTES {
        return Err(Error::from(ErrorKind::FileTooLarge));
    }
    Ok(bytes)
}

// Makes a file where nothing stands, which also is no link, for its user alone until it is whole.
fn create<R: Files<File = File>>(rt: &R, name: &str) -> Result<File, Error> {
    OpenOptions::new()
        .write(true)
        .create_new(true)
        .mode(PRIVATE)
        .open(rt, name)
}

// Gives a file that is whole its mode, and waits until it has reached the device.
fn finish(file: &File, mode: u32) -> Result<(), Error> {
    file.set_permissions(Permissions::from_mode(mode))?;
    file.sync_all()
}

// A new file of these bytes, which is held before anything is in it.
fn make<R: Files<File = File>>(rt: &R, name: &str, bytes: &[u8]) -> Result<(File, Seen), Error> {
    let mut file = create(rt, name)?;
    let found = keep(rt, name, &file)?;
    file.write_all(bytes)?;
    finish(&file, PRIVATE)?;
    Ok((file, found))
}

// Hands the input on to a file, to its end.
fn pour<R: Input + Eprint, W: Write>(rt: &R, to: &mut W, name: &str) -> Result<(), Stop> {
    let mut input = rt.reader();
    let mut buf = [0u8; ROOM];
    for _ in 0..u64::MAX {
        match input.read(&mut buf) {
            Ok(0) => return Ok(()),
            Ok(n) => {
                if let Err(error) = to.write_all(&buf[..n]) {
                    return Err(stop_at(rt, name, error));
                }
            }
            Err(error) if error.kind() == ErrorKind::Interrupted => {}
            Err(error) => {
                tell(rt, "standard input", &error);
                return Err(Stop::Input);
            }
        }
    }
    Err(Stop::Input)
}

fn take<R: Files<File = File> + Input + Eprint>(rt: &R, name: &str, mode: u32) -> Result<(), Stop> {
    let mut file = match create(rt, name) {
        Ok(file) => file,
        Err(error) => return Err(stop_at(rt, name, error)),
    };
    pour(rt, &mut file, name)?;
    match finish(&file, mode) {
        Ok(()) => Ok(()),
        Err(error) => Err(stop_at(rt, name, error)),
    }
}

// What stands at a name.
fn seen_at<R: Files>(rt: &R, name: &str) -> Result<Seen, Error> {
    match rt.symlink_metadata(name) {
        Ok(metadata) => Ok(seen_of(&metadata)),
        Err(error) if error.kind() == ErrorKind::NotFound => Ok(Seen::Nothing),
        Err(error) => Err(error),
    }
}

// Gives a file another name. False if something else has that name: a call that was done may say, over a network, that
// something has it.
fn link<R: Files>(rt: &R, from: &str, to: &str) -> Result<bool, Error> {
    match rt.hard_link(from, to) {
        Ok(()) => Ok(true),
        Err(error) if error.kind() == ErrorKind::AlreadyExists => {
            Ok(is_one(seen_at(rt, from)?, seen_at(rt, to)?))
        }
        Err(error) => Err(error),
    }
}

impl<R: Files<File = File> + Input + Eprint + Env> RealSpool<R> {
    /// The folder over a runtime, for this user.
    pub fn new(rt: R, alloc: Global, user: u32) -> RealSpool<R> {
        RealSpool {
            rt,
            alloc,
            user,
            held: None,
        }
    }

    // What a call on a name comes to; its reason is printed if it failed.
    fn answered<T: Drop>(&self, name: &str, answer: Result<T, Error>) -> Result<T, Stop> {
        match answer {
            Ok(value) => Ok(value),
            Err(error) => Err(stop_at(&self.rt, name, error)),
        }
    }

    // The same of a call on what isn't a name in the folder.
    fn answered_about<T: Drop>(&self, about: &str, answer: Result<T, Error>) -> Result<T, Stop> {
        match answer {
            Ok(value) => Ok(value),
            Err(error) => Err(stop_of(&self.rt, about, error)),
        }
    }

    // The lock of the user's own file at a name.
    fn kept(&self, name: &str) -> Result<Hold, Stop> {
        let opened = open(&self.rt, name);
        let file = self.answered(name, opened)?;
        let kept = keep(&self.rt, name, &file);
        let found = self.answered(name, kept)?;
        held(Hold::of_file(self.alloc, name, file, found))
    }
}

fn held(hold: Result<Hold, Memory>) -> Result<Hold, Stop> {
    match hold {
        Ok(hold) => Ok(hold),
        Err(_) => Err(Stop::Memory),
    }
}

impl<R: Files<File = File> + Input + Eprint + Env> Spool for RealSpool<R> {
    ghost told = { λ _. None };

    fn users(&mut self, alloc: Global) -> Result<Text, Stop> {
        let read = read_users(&self.rt, alloc);
        Ok(Text::of(self.answered_about(USERS, read)?))
    }

    fn hold(&mut self, name: &[u8]) -> Result<(), Stop> {
        let name = name_of(name)?;
        let entered = enter(&self.rt);
        self.answered_about(FOLDER, entered)?;
        let seen = seen_at(&self.rt, name);
        let hold = match self.answered(name, seen)? {
            Seen::File(found) if found.owner == self.user => self.kept(name)?,
            _ => held(Hold::of_name(self.alloc, name))?,
        };
        self.held = Some(hold);
        Ok(())
    }

    fn look(&mut self, name: &[u8]) -> Result<Seen, Stop> {
        let name = name_of(name)?;
        let seen = seen_at(&self.rt, name);
        let seen = self.answered(name, seen)?;
        match &self.held {
            Some(hold) if !hold.fits(self.user, name, seen) => {
                Err(stop_at(&self.rt, name, busy()))
            }
            _ => Ok(seen),
        }
    }

    fn make(&mut self, name: &[u8], bytes: &[u8]) -> Result<(), Stop> {
        let name = name_of(name)?;
        let made = make(&self.rt, name, bytes);
        let (file, found) = self.answered(name, made)?;
        let hold = held(Hold::of_file(self.alloc, name, file, found))?;
        self.held = Some(hold);
        Ok(())
    }

    fn take(&mut self, name: &[u8], mode: u32) -> Result<(), Stop> {
        take(&self.rt, name_of(name)?, mode)
    }

    fn link(&mut self, from: &[u8], to: &[u8]) -> Result<bool, Stop> {
        let to = name_of(to)?;
        let linked = link(&self.rt, name_of(from)?, to);
        self.answered(to, linked)
    }

    fn rename(&mut self, from: &[u8], to: &[u8]) -> Result<(), Stop> {
        let to = name_of(to)?;
        let renamed = self.rt.rename(name_of(from)?, to);
        self.answered(to, renamed)
    }

    fn remove(&mut self, name: &[u8]) -> Result<(), Stop> {
        let name = name_of(name)?;
        let removed = self.rt.remove_file(name);
        self.answered(name, removed)
    }

    fn sync(&mut self) -> Result<(), Stop> {
        let synced = match File::open(&self.rt, ".") {
            Ok(folder) => folder.sync_all(),
            Err(error) => Err(error),
        };
        self.answered_about(FOLDER, synced)
    }
}
