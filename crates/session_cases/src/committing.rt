// Commits of their own.
ghost use Rattle.std.specs.Prelude.{◌≡◌, codes};
ghost use Rattle.std.specs.List.{list_all};
ghost use Rattle.folder_change.specs.Changes.{name_of};
ghost use Rattle.folder_commit.specs.Names.{is_file_name};

use folder_change::{Change, change_name};
use folder_commit::{CommitError, Passed, commit, is_file_name};
use host_memory::MemHost;
use mail_text::{Items, Memory, Text};
use mbox_scan::Folder;
use std::alloc::Global;
use stop_tables::{Decided, Ending, Program};

const ACTOR: &[u8] = b"/h/.mailx";

/// A commit that puts bytes at the ends of files: its words are their names, each followed by the bytes.
pub struct Commits;

fn ending(status: u8, decided: Option<Decided>) -> Ending {
    Ending {
        status,
        sender: None,
        decided,
    }
}

fn decided(passed: Passed) -> Decided {
    match passed {
        Passed::Before => Decided::No,
        Passed::After => Decided::Yes,
        Passed::Unknown => Decided::Unknown,
    }
}

fn ended(done: Result<(), CommitError>) -> Ending {
    match done {
        Ok(()) => ending(0, None),
        Err(CommitError::Disk { passed }) => ending(5, Some(decided(passed))),
        Err(_) => ending(7, None),
    }
}

// Puts the changes of words at the end.
fn put_changes(alloc: Global, words: &[Text], changes: &mut Items<Change>) -> Result<(), Memory> {
    match words {
        [name, bytes, rest @ ..] => {
            let name = Text::copy(alloc, name.bytes())?;
            let bytes = Text::copy(alloc, bytes.bytes())?;
            changes.push(Change::AddRaw { name, bytes })?;
            put_changes(alloc, rest, changes)
        }
        _ => Ok(()),
    }
}

fn may_change_all(changes: &[Change]) -> bool
    ensures { result ≡ list_all (λ c. is_file_name (codes "/h/.mailx") (name_of c)) changes.now }
{
    changes
        .iter()
        .all(|change| is_file_name(ACTOR, change_name(change)))
}

// Commits changes. None of them is a rewrite, so nothing is made of the folder.
fn committed(
    alloc: Global,
    token: u64,
    changes: &[Change],
    base: &Folder,
    host: &mut MemHost,
) -> Ending {
    if may_change_all(changes) {
        ended(commit(alloc, ACTOR, token, changes, Some(base), host))
    } else {
        ending(2, None)
    }
}

fn committed_all(alloc: Global, token: u64, changes: &[Change], host: &mut MemHost) -> Ending {
    match Folder::open(alloc, Text::new(alloc)) {
        Ok(base) => {
            let ending = committed(alloc, token, changes, &base, host);
            drop(base);
            ending
        }
        Err(_) => ending(8, None),
    }
}

impl Program for Commits {
    fn run(
        &self,
        alloc: Global,
        words: &[Text],
        _: Items<(Text, Text)>,
        token: u64,
        host: &mut MemHost,
    ) -> Ending {
        let mut changes = Items::new(alloc);
        match put_changes(alloc, words, &mut changes) {
            Ok(()) => committed_all(alloc, token, changes.items(), host),
            Err(Memory) => ending(8, None),
        }
    }
}
