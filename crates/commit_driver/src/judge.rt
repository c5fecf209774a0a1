// What changes make of files.
ghost use Rattle.std.specs.Prelude.{◌≡◌, ◌<◌, ◌≤◌, ℕ, List, Option, None, true, length, map, get_or, All, IsTrue, IsSome, is_some, option_copied};
ghost use Rattle.folder_change.specs.Changes.{name_of, is_rewrite};
ghost use Rattle.folder_change.specs.Outcomes.{base_list};
ghost use Rattle.commit_machine.specs.Records.{has};
ghost use Rattle.commit_machine.specs.Edits.{is_added};
ghost use Rattle.commit_driver.specs.Holding.{IsHeldOf, AreHeldOf};
ghost use Rattle.commit_driver.specs.Judging.{JudgesHeld, JudgesParts, AddsTo, excess_of, number_in};

use crate::decision::own_tail;
use crate::making::change_file;
use commit_record::Entry;
use folder_change::{Change, ChangeError, change_name};
use mail_text::{Items, Text};
use mbox_scan::Folder;
use std::alloc::Global;

/// The most bytes that a file may have.
const MOST_BYTES: u64 = 268_435_456;

/// Why changes can't be made. Files go by their numbers, from 0.
#[derive(Clone, Copy)]
pub enum Trouble {
    /// The file has changed at this message.
    Changed { file: usize, at: u64 },
    /// The file would have `length` bytes.
    TooLarge { file: usize, length: u64 },
    /// Memory ran out.
    Memory,
}

// How long a file is that is too long, of which so much is held.
fn excess(stay: Option<u64>, held: &Option<Text>) -> Option<u64>
    ensures { (end : List ℕ) → (whole : Option (List ℕ)) → IsHeldOf stay end whole held.now → result ≡ excess_of whole }
{
    match held {
        Some(text) => {
            let length = stay.unwrap_or(0).saturating_add(text.bytes().len() as u64);
            if length > MOST_BYTES {
                Some(length)
            } else {
                None
            }
        }
        None => None,
    }
}

// The number of the entry of this name; if there is none, how many there are.
fn number_of(entries: &[Entry], name: &[u8]) -> usize
    ensures number { result ≡ number_in (map (λ e. e.name) entries.now) name.now }
    ensures bound { result ≤ length entries.now }
{
    match entries {
        [] => 0,
        [first, rest @ ..] => {
            if name == first.name.bytes() {
                0
            } else {
                number_of(rest, name) + 1
            }
        }
    }
}

// What a change makes of the file with this number, of which so many bytes stay, that end so.
fn judge_one(
    alloc: Global,
    change: &Change,
    base: Option<&Folder>,
    stay: Option<u64>,
    end: &[u8],
    at: usize,
    files: &mut Items<Option<Text>>,
) -> Result<(), Trouble>
    requires based { IsTrue (is_rewrite change.now) → IsSome base }
    requires added { IsTrue (is_some stay) → is_added change.now ≡ true }
    requires at { at < length files.old }
    ensures one { (wholes : List (Option (List ℕ))) → length wholes ≡ length files.old
        → IsHeldOf stay end.now (get_or wholes at None) (get_or files.old at None)
        → JudgesHeld change.now (base_list (option_copied base.entry)) stay end.now at wholes files.old result files.new }
    ensures long { length files.new ≡ length files.old }
{
    match change_file(alloc, change, base, stay, end, files.get_mut(at)) {
        Ok(()) => match excess(stay, &files.items()[at]) {
            None => Ok(()),
            Some(length) => Err(Trouble::TooLarge { file: at, length }),
        },
        Err(ChangeError::Changed { at: message }) => Err(Trouble::Changed {
            file: at,
            at: message,
        }),
        Err(ChangeError::Memory) => Err(Trouble::Memory),
    }
}

/// What changes, in order, make of the files of these entries, of which so many bytes stay, that end so: what is held of
/// them. It takes as much time as there are bytes held and in the changes. If it can't be done, the files are no longer of
/// use.
pub fn judge(
    alloc: Global,
    changes: &[Change],
    base: Option<&Folder>,
    entries: &[Entry],
    stays: &[Option<u64>],
    ends: &[Text],
    files: &mut Items<Option<Text>>,
) -> Result<(), Trouble>
    requires named { All (λ c. has (map (λ e. e.name) entries.now) (name_of c) ≡ true) changes.now }
    requires based { All (λ c. IsTrue (is_rewrite c) → IsSome base) changes.now }
    requires long { length files.old ≡ length entries.now }
    requires ends { length ends.now ≡ length entries.now }
    requires added { All (AddsTo (map (λ e. e.name) entries.now) stays.now) changes.now }
    ensures judged { (wholes : List (Option (List ℕ))) → AreHeldOf stays.now ends.now wholes files.old
        → JudgesParts changes.now (base_list (option_copied base.entry)) (map (λ e. e.name) entries.now) stays.now ends.now
        wholes result files.new }
    ensures long { length files.new ≡ length files.old }
{
    for change in changes {
        let at = number_of(entries, change_name(change));
        let end = ends[at].bytes();
        judge_one(alloc, change, base, own_tail(stays, at), end, at, files)?;
    }
    Ok(())
}
