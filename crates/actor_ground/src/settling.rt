// What recovery by an actor makes of a disk, name by name.
ghost use Rattle.std.specs.Prelude.{◌≡◌, ◌++◌, false, true, map, take, IfOk, MatchOption, if◌then◌else◌};
ghost use Rattle.std.specs.List.{list_any};
ghost use Rattle.std.specs.Option.{option_copied};
ghost use Rattle.std.specs.Str.{bytes_eq};
ghost use Rattle.folder_change.specs.Outcomes.{bytes_of};
ghost use Rattle.memory_disk.specs.Lists.{named};
ghost use Rattle.commit_machine.specs.Names.{staged_name};
ghost use Rattle.commit_machine.specs.Records.{has, way_in};
ghost use Rattle.commit_machine.specs.Settled.{hides, placed, put_in, settled, settled_lock, unlocked};

use crate::records::{is_go, standing};
use commit_machine::{is_record_name, staged_name};
use commit_record::{Entry, Record, Way, way_of};
use mail_text::{Memory, Text};
use memory_disk::{Named, copy_found};
use std::alloc::Global;

// Whether a name is a staged name of one of these entries.
fn is_staged(alloc: Global, token: u64, entries: &[Entry], name: &[u8]) -> Result<bool, Memory>
    ensures { IfOk result
        (λ b. b ≡ list_any (λ n. bytes_eq name.now (staged_name token n)) (map (λ e. e.name) entries.now)) }
{
    match entries {
        [] => Ok(false),
        [first, rest @ ..] => {
            let staged = staged_name(alloc, token, first.name.bytes())?;
            if name == staged.bytes() {
                Ok(true)
            } else {
                is_staged(alloc, token, rest, name)
            }
        }
    }
}

/// Whether a name is left out once the record of an actor is done with.
pub fn hides(
    alloc: Global,
    actor: &[u8],
    found: Option<&Record>,
    name: &[u8],
) -> Result<bool, Memory>
    ensures { IfOk result (λ b. b ≡ hides actor.now (option_copied found.entry) name.now) }
{
    if is_record_name(actor, name) {
        return Ok(true);
    }
    match found {
        None => Ok(false),
        Some(value) => is_staged(alloc, value.token, value.entries.items(), name),
    }
}

// How the file of a name comes to be, if it is among these entries.
fn way_for(entries: &[Entry], name: &[u8]) -> Option<Way>
    ensures { MatchOption result (has (map (λ e. e.name) entries.now) name.now ≡ false)
        (λ way. (has (map (λ e. e.name) entries.now) name.now ≡ true) × (way ≡ way_in entries.now name.now)) }
{
    match entries {
        [] => None,
        [first, rest @ ..] => if name == first.name.bytes() {
            Some(way_of(first))
        } else {
            way_for(rest, name)
        },
    }
}

// The bytes of a file; an absent one has none.
fn bytes_of<'a>(file: Option<&'a Text>) -> &'a [u8]
    ensures { result.now ≡ bytes_of (option_copied file.entry) }
{
    match file {
        None => &[],
        Some(text) => text.bytes(),
    }
}

// The first bytes of a file, as many as stay of it, and others behind them.
fn extended(alloc: Global, old: &[u8], at: u64, tail: &[u8]) -> Result<Text, Memory>
    ensures { IfOk result (λ text. text ≡ take at old.now ++ tail.now) }
{
    let kept = if (old.len() as u64) < at {
        old
    } else {
        &old[..at as usize]
    };
    let mut text = Text::copy(alloc, kept)?;
    text.push(tail)?;
    Ok(text)
}

// A file with its staged file put in place, if that one stands.
fn put_in(
    alloc: Global,
    way: Way,
    file: Option<&Text>,
    staged: Option<&Text>,
) -> Result<Option<Text>, Memory>
    ensures { IfOk result (λ made. made ≡ put_in way (option_copied file.entry) (option_copied staged.entry)) }
{
    let Some(bytes) = staged else {
        return copy_found(alloc, file);
    };
    match way {
        Way::Replace => copy_found(alloc, staged),
        Way::Remove => Ok(None),
        Way::Extend(at) => {
            let text = extended(alloc, bytes_of(file), at, bytes.bytes())?;
            Ok(Some(text))
        }
    }
}

// The file of a name, with its staged file put in place if the commit of this record was decided.
fn placed(
    alloc: Global,
    found: Option<&Record>,
    files: &Named<Text>,
    name: &[u8],
) -> Result<Option<Text>, Memory>
    ensures { IfOk result (λ file. file ≡ placed (option_copied found.entry) (named files.now) name.now) }
{
    let file = files.get(name);
    match found {
        Some(value) if is_go(value) => match way_for(value.entries.items(), name) {
            Some(way) => {
                let staged = staged_name(alloc, value.token, name)?;
                put_in(alloc, way, file, files.get(staged.bytes()))
            }
            None => copy_found(alloc, file),
        },
        _ => copy_found(alloc, file),
    }
}

// The same, or none if the name is left out.
fn settled_by(
    alloc: Global,
    actor: &[u8],
    found: Option<&Record>,
    files: &Named<Text>,
    name: &[u8],
) -> Result<Option<Text>, Memory>
    ensures { IfOk result
        (λ file. file
        ≡ (if hides actor.now (option_copied found.entry) name.now then None
        else placed (option_copied found.entry) (named files.now) name.now)) }
{
    if hides(alloc, actor, found, name)? {
        return Ok(None);
    }
    placed(alloc, found, files, name)
}

/// The file of a name, once recovery by this actor is done.
pub fn settled(
    alloc: Global,
    actor: &[u8],
    files: &Named<Text>,
    name: &[u8],
) -> Result<Option<Text>, Memory>
    ensures { IfOk result (λ file. file ≡ settled actor.now (named files.now) name.now) }
{
    let found = standing(alloc, actor, files)?;
    settled_by(alloc, actor, found.as_ref(), files, name)
}

// The lock on a name, if it isn't this record's.
fn unlocked(found: Option<&Record>, name: &[u8], lock: Option<u64>) -> Option<u64>
    ensures { result ≡ unlocked (option_copied found.entry) name.now lock }
{
    let Some(value) = found else {
        return lock;
    };
    let owner = lock?;
    if owner == value.token && way_for(value.entries.items(), name).is_some() {
        None
    } else {
        Some(owner)
    }
}

// The owner of the lock on a name.
fn owner_of(locks: &Named<u64>, name: &[u8]) -> Option<u64>
    ensures { result ≡ named locks.now name.now }
{
    match locks.get(name) {
        Some(owner) => Some(*owner),
        None => None,
    }
}

/// The owner of the lock on a name, once recovery by this actor is done.
pub fn settled_lock(
    alloc: Global,
    actor: &[u8],
    files: &Named<Text>,
    locks: &Named<u64>,
    name: &[u8],
) -> Result<Option<u64>, Memory>
    ensures { IfOk result (λ lock. lock ≡ settled_lock actor.now (named files.now) (named locks.now) name.now) }
{
    let found = standing(alloc, actor, files)?;
    Ok(unlocked(found.as_ref(), name, owner_of(locks, name)))
}
