// The way into the folder of mailboxes.
use std::fs::{Files, Metadata};
use std::io::{Error, ErrorKind};
use std::os::unix::fs::MetadataExt;
use std::rt::Env;

/// The folder of mailboxes. It is fixed when the program is built.
pub const FOLDER: &str = "/var/mail";

/// The parts of its path.
const PARTS: [&str; 3] = ["/", "var", "mail"];

/// The number of the system's administrator.
const ROOT: u32 = 0;

/// Whether two looks were at one file.
pub fn is_one_file(one: &Metadata, other: &Metadata) -> bool {
    one.dev() == other.dev() && one.ino() == other.ino()
}

// Makes a part of the path the working folder, through no link but the administrator's. It is the folder that was looked
// at, also if another is put in its place meanwhile.
fn go_into<R: Files + Env>(rt: &R, part: &str) -> Result<(), Error> {
    let seen = rt.symlink_metadata(part)?;
    let is_link = seen.is_symlink();
    if is_link && seen.uid() != ROOT {
        return Err(Error::new(ErrorKind::PermissionDenied, "another's link"));
    }
    rt.set_current_dir(part)?;
    let here = rt.symlink_metadata(".")?;
    if is_link || is_one_file(&seen, &here) {
        Ok(())
    } else {
        Err(Error::new(ErrorKind::PermissionDenied, "another folder"))
    }
}

/// Makes the folder of mailboxes the working folder. It stays open so to the end of the run, and each name is one in it.
pub fn enter<R: Files + Env>(rt: &R) -> Result<(), Error> {
    for part in PARTS {
        go_into(rt, part)?;
    }
    Ok(())
}
