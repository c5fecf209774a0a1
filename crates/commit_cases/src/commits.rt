// Recoveries and commits.
ghost use Rattle.std.specs.Prelude.{◌≡◌, codes};
ghost use Rattle.std.specs.List.{list_all};
ghost use Rattle.folder_change.specs.Changes.{name_of};
ghost use Rattle.folder_commit.specs.Names.{is_file_name};

use crate::changes::{change, changes};
use case_blocks::{Answer, cut};
use folder_change::{Change, change_name};
use folder_commit::{CommitError, Passed, commit, is_file_name};
use folder_recovery::{RecoverError, Recovered, recover};
use host_memory::MemHost;
use mail_text::{Items, Text};
use mbox_scan::Folder;
use std::str;

const ACTOR: &[u8] = b"/h/m";

// Puts what a recovery found, and the moment of its record if it has one.
fn put_found(found: Recovered, out: &mut Answer) {
    let (words, moment) = match found {
        Recovered::Nothing => (b"nothing".as_slice(), None),
        Recovered::RolledBack { moment } => (b"rolled back".as_slice(), moment),
        Recovered::Finished { moment } => (b"finished".as_slice(), moment),
    };
    out.put_plain(words);
    if let Some(moment) = moment {
        out.put_plain(b" of ");
        out.put_shown(&moment);
    }
}

// Why a recovery wasn't done, in short.
fn refusal(error: &RecoverError) -> &'static [u8] {
    match error {
        RecoverError::Busy { .. } => b"busy",
        RecoverError::NotARecord => b"not a record",
        RecoverError::TooLarge { .. } => b"too large",
        RecoverError::Disk => b"fault",
        RecoverError::Memory => b"out of memory",
    }
}

/// Recovers what the actor has left, and puts how it ended.
pub fn put_recovered(host: &mut MemHost, out: &mut Answer) {
    match recover(out.alloc(), ACTOR, host) {
        Ok(found) => put_found(found, out),
        Err(error) => {
            out.put_plain(refusal(&error));
            drop(error);
        }
    }
}

// An error in short.
fn word(error: &CommitError) -> &'static [u8] {
    match error {
        CommitError::TooManyNames { .. } => b"too many names",
        CommitError::Busy { .. } => b"busy",
        CommitError::Record => b"not a record",
        CommitError::Changed { .. } => b"changed",
        CommitError::TooLarge { .. } => b"too large",
        CommitError::Disk { passed } => match passed {
            Passed::Before => b"fault before",
            Passed::After => b"fault after",
            Passed::Unknown => b"fault, not known",
        },
        CommitError::Memory => b"out of memory",
    }
}

/// Whether a commit of the actor may change a file of this name.
pub fn may_change(name: &[u8]) -> bool
    ensures { result ≡ is_file_name (codes "/h/m") name.now }
{
    is_file_name(ACTOR, name)
}

fn may_change_all(changes: &[Change]) -> bool
    ensures { result ≡ list_all (λ c. is_file_name (codes "/h/m") (name_of c)) changes.now }
{
    changes.iter().all(|change| may_change(change_name(change)))
}

// Commits changes, and puts how that ended, an error in its words or in short.
fn put_committed(
    host: &mut MemHost,
    changes: &[Change],
    base: &Folder,
    short: bool,
    out: &mut Answer,
) {
    if !may_change_all(changes) {
        return out.put_plain(b"no name");
    }
    match commit(out.alloc(), ACTOR, 1, changes, Some(base), host) {
        Ok(()) => out.put_plain(b"done"),
        Err(error) => {
            if short {
                out.put_plain(word(&error));
            } else {
                out.put_shown(&error);
            }
            drop(error);
        }
    }
}

// Commits changes, whose rewrites were made for a folder of this text, and puts how that ended.
fn put_committed_over(
    host: &mut MemHost,
    changes: &[Change],
    base: Text,
    short: bool,
    out: &mut Answer,
) {
    match Folder::open(out.alloc(), base) {
        Ok(base) => {
            put_committed(host, changes, &base, short, out);
            drop(base);
        }
        Err(_) => out.put_plain(b"no folder"),
    }
}

/// Adds the bytes `times` times to the file of this name: how the commit ended.
pub fn put_additions(host: &mut MemHost, name: &str, bytes: &str, times: u32, out: &mut Answer) {
    let mut list = Items::new(out.alloc());
    for _ in 0..times {
        let change = change("raw", name, bytes, out);
        out.note(list.push(change));
    }
    put_committed_over(host, list.items(), Text::new(out.alloc()), true, out);
    drop(list);
}

/// Adds a text to a file.
pub fn put_added(host: &mut MemHost, rest: &str, out: &mut Answer) {
    let (name, bytes) = cut(rest);
    put_additions(host, name, bytes, 1, out);
}

// One change.
fn changes_of(change: Change, out: &mut Answer) -> Items<Change> {
    let mut list = Items::new(out.alloc());
    out.note(list.push(change));
    list
}

/// Leaves a file without a message, which was read before as this text.
pub fn put_emptied(host: &mut MemHost, rest: &str, out: &mut Answer) {
    let (name, base) = cut(rest);
    let list = changes_of(change("keep", name, "", out), out);
    let base = out.decoded(base);
    put_committed_over(host, list.items(), base, true, out);
    drop(list);
}

/// Commits the changes of a line; after a slash stands the text that the folder of rewrites was read from.
pub fn put_commit(host: &mut MemHost, line: &str, out: &mut Answer) {
    let (line, base) = line.split_once(" / ").unwrap_or((line, ""));
    let list = changes(line, out);
    let base = out.decoded(base);
    put_committed_over(host, list.items(), base, false, out);
    drop(list);
}

/// Commits the changes of a line that is written with escapes as a whole.
pub fn put_many(host: &mut MemHost, escaped: &str, out: &mut Answer) {
    let text = out.decoded(escaped);
    match str::from_utf8(text.bytes()) {
        Ok(line) => put_commit(host, line, out),
        Err(_) => out.put_plain(b"no text"),
    }
}

/// The words of an error.
pub fn put_words(out: &mut Answer) {
    let name = out.decoded("/h/a");
    out.put_error(CommitError::TooLarge { name, length: 5 });
}
