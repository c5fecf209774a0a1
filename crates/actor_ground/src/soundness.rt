// Whether a disk is sound for an actor.
ghost use Rattle.std.specs.Prelude.{◌≡◌, IfOk};
ghost use Rattle.std.specs.Bool.{Decides};
ghost use Rattle.std.specs.List.{list_all};
ghost use Rattle.std.specs.Option.{option_copied};
ghost use Rattle.memory_disk.specs.Lists.{named};
ghost use Rattle.commit_machine.specs.Settled.{IsSoundAt, owned_by};
ghost use Rattle.actor_ground.specs.Soundness.{is_sound_entry, is_long};

use crate::records::{is_go, standing};
use commit_machine::{is_record_name, staged_name};
use commit_record::{Entry, Way, way_of};
use mail_text::{Memory, Text};
use memory_disk::Named;
use std::alloc::Global;

// Whether the lock on a name is this token's.
fn is_locked(locks: &Named<u64>, name: &[u8], token: u64) -> bool
    ensures { result ≡ owned_by token (named locks.now name.now) }
{
    match locks.get(name) {
        Some(owner) => token == *owner,
        None => false,
    }
}

// Whether a file is long enough for what becomes of it.
fn is_long(way: Way, file: Option<&Text>) -> bool
    ensures { result ≡ is_long way (option_copied file.entry) }
{
    match way {
        Way::Replace | Way::Remove => true,
        Way::Extend(at) => match file {
            Some(text) => at <= text.bytes().len() as u64,
            None => false,
        },
    }
}

// Whether a disk is sound as to an entry of a decided record of this token.
fn is_sound_entry(
    alloc: Global,
    actor: &[u8],
    files: &Named<Text>,
    locks: &Named<u64>,
    token: u64,
    entry: &Entry,
) -> Result<bool, Memory>
    ensures { IfOk result
        (λ b. b ≡ is_sound_entry actor.now (named files.now) (named locks.now) token entry.now) }
{
    let name = entry.name.bytes();
    if is_record_name(actor, name) {
        return Ok(false);
    }
    let staged = staged_name(alloc, token, name)?;
    if !files.has(staged.bytes()) {
        return Ok(true);
    }
    Ok(is_locked(locks, name, token) && is_long(way_of(entry), files.get(name)))
}

// The same of each of these entries.
fn are_sound(
    alloc: Global,
    actor: &[u8],
    files: &Named<Text>,
    locks: &Named<u64>,
    token: u64,
    entries: &[Entry],
) -> Result<bool, Memory>
    ensures { IfOk result
        (λ b. b ≡ list_all (is_sound_entry actor.now (named files.now) (named locks.now) token) entries.now) }
{
    match entries {
        [] => Ok(true),
        [first, rest @ ..] => {
            if is_sound_entry(alloc, actor, files, locks, token, first)? {
                are_sound(alloc, actor, files, locks, token, rest)
            } else {
                Ok(false)
            }
        }
    }
}

/// Whether a disk with these files and locks is sound for an actor: if its record that stands was decided, none of the
/// record's names is a record name, and each staged file that stands has its lock and, if the file is extended, a file
/// with as many bytes at least as stay.
pub fn is_sound(
    alloc: Global,
    actor: &[u8],
    files: &Named<Text>,
    locks: &Named<u64>,
) -> Result<bool, Memory>
    ensures { IfOk result (λ b. Decides b (IsSoundAt actor.now (named files.now) (named locks.now))) }
{
    match standing(alloc, actor, files)? {
        Some(value) if is_go(&value) => are_sound(
            alloc,
            actor,
            files,
            locks,
            value.token,
            value.entries.items(),
        ),
        _ => Ok(true),
    }
}
