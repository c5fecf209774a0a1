// What stands on a disk in memory, and what events make of it.
ghost use Rattle.std.specs.Prelude.{◌≡◌, List, ℕ, OnOk, OnErr, IfOk};
ghost use Rattle.std.specs.Option.{option_copied};
ghost use Rattle.host_port.specs.Disk.{with_at, extended, locked, unlocked, taken, without_other, without_own, after, after_step};
ghost use Rattle.memory_disk.specs.Standings.{disk_now};
ghost use Rattle.host_port.specs.Disk.{SameDisk};
ghost use Rattle.memory_disk.specs.Lists.{named};

use crate::named::Named;
use host_port::{Event, ForeignStep, Holder};
use mail_text::{Memory, Text};
use std::alloc::Global;

/// The files, the owners of locks and the holders of rights, by name.
#[derive(Drop)]
pub struct Standing {
    pub files: Named<Text>,
    pub locks: Named<u64>,
    pub rights: Named<Holder>,
}

/// A copy of what was found.
pub fn copy_found(alloc: Global, found: Option<&Text>) -> Result<Option<Text>, Memory>
    ensures { IfOk result (λ r. r ≡ option_copied found.entry) }
{
    match found {
        None => Ok(None),
        Some(text) => Ok(Some(Text::copy(alloc, text.bytes())?)),
    }
}

/// Makes these bytes, or none, what stands at a name.
pub(crate) fn write(
    alloc: Global,
    files: &mut Named<Text>,
    name: &[u8],
    bytes: Option<&Text>,
) -> Result<(), Memory>
    ensures ok { OnOk result
        ((q : List ℕ) → named files.new q ≡ with_at (named files.old) name.now (option_copied bytes.entry) q) }
    ensures err { OnErr result (files.new ≡ files.old) }
{
    match bytes {
        None => files.put(alloc, name, None),
        Some(text) => {
            let copy = Text::copy(alloc, text.bytes())?;
            files.put(alloc, name, Some(copy))
        }
    }
}

/// Gives a file another name.
pub(crate) fn rename(
    alloc: Global,
    files: &mut Named<Text>,
    from: &[u8],
    to: &[u8],
) -> Result<(), Memory>
    ensures ok { OnOk result
        ((q : List ℕ)
        → named files.new q
        ≡ with_at (with_at (named files.old) from.now None) to.now (named files.old from.now) q) }
    ensures err { OnErr result (files.new ≡ files.old) }
{
    if from == to {
        return Ok(());
    }
    match files.get(from) {
        None => files.put(alloc, to, None)?,
        Some(text) => {
            let copy = Text::copy(alloc, text.bytes())?;
            files.put(alloc, to, Some(copy))?;
        }
    }
    files.clear(from);
    Ok(())
}

// A file with another tail behind so many bytes. An absent or shorter one is as it was.
fn extended(
    alloc: Global,
    file: Option<&Text>,
    at: u64,
    tail: &[u8],
) -> Result<Option<Text>, Memory>
    ensures { IfOk result (λ r. r ≡ extended (option_copied file.entry) at tail.now) }
{
    let Some(text) = file else {
        return Ok(None);
    };
    let bytes = text.bytes();
    if (bytes.len() as u64) < at {
        return Ok(Some(Text::copy(alloc, bytes)?));
    }
    let (front, _) = bytes.split_at(at as usize);
    let mut made = Text::copy(alloc, front)?;
    made.push(tail)?;
    Ok(Some(made))
}

/// Gives a file another tail behind so many bytes. An absent or shorter one stays as it was.
pub(crate) fn extend(
    alloc: Global,
    files: &mut Named<Text>,
    name: &[u8],
    at: u64,
    tail: &[u8],
) -> Result<(), Memory>
    ensures ok { OnOk result
        ((q : List ℕ)
        → named files.new q
        ≡ with_at (named files.old) name.now (extended (named files.old name.now) at tail.now) q) }
    ensures err { OnErr result (files.new ≡ files.old) }
{
    let made = extended(alloc, files.get(name), at, tail)?;
    files.put(alloc, name, made)
}

// Puts a lock if none stands.
fn lock(alloc: Global, locks: &mut Named<u64>, name: &[u8], token: u64) -> Result<(), Memory>
    ensures ok { OnOk result
        ((q : List ℕ)
        → named locks.new q ≡ with_at (named locks.old) name.now (locked (named locks.old name.now) token) q) }
    ensures err { OnErr result (locks.new ≡ locks.old) }
{
    if locks.has(name) {
        return Ok(());
    }
    locks.put(alloc, name, Some(token))
}

// Takes a lock away if it is this owner's.
fn unlock(alloc: Global, locks: &mut Named<u64>, name: &[u8], token: u64) -> Result<(), Memory>
    ensures ok { OnOk result
        ((q : List ℕ)
        → named locks.new q ≡ with_at (named locks.old) name.now (unlocked (named locks.old name.now) token) q) }
    ensures err { OnErr result (locks.new ≡ locks.old) }
{
    match locks.get(name) {
        Some(owner) if *owner == token => locks.put(alloc, name, None),
        _ => Ok(()),
    }
}

// Gives another a right that nobody has.
fn take(alloc: Global, rights: &mut Named<Holder>, name: &[u8]) -> Result<(), Memory>
    ensures ok { OnOk result
        ((q : List ℕ)
        → named rights.new q ≡ with_at (named rights.old) name.now (taken (named rights.old name.now)) q) }
    ensures err { OnErr result (rights.new ≡ rights.old) }
{
    if rights.has(name) {
        return Ok(());
    }
    rights.put(alloc, name, Some(Holder::Other))
}

// Takes another's right away.
fn take_from_other(alloc: Global, rights: &mut Named<Holder>, name: &[u8]) -> Result<(), Memory>
    ensures ok { OnOk result
        ((q : List ℕ)
        → named rights.new q
        ≡ with_at (named rights.old) name.now (without_other (named rights.old name.now)) q) }
    ensures err { OnErr result (rights.new ≡ rights.old) }
{
    match rights.get(name) {
        Some(Holder::Other) => rights.put(alloc, name, None),
        _ => Ok(()),
    }
}

// Takes this run's right away.
fn take_from_own(alloc: Global, rights: &mut Named<Holder>, name: &[u8]) -> Result<(), Memory>
    ensures ok { OnOk result
        ((q : List ℕ)
        → named rights.new q
        ≡ with_at (named rights.old) name.now (without_own (named rights.old name.now)) q) }
    ensures err { OnErr result (rights.new ≡ rights.old) }
{
    match rights.get(name) {
        Some(Holder::Own) => rights.put(alloc, name, None),
        _ => Ok(()),
    }
}

/// Carries out a step of another. If memory runs out, all is as before.
pub(crate) fn effect_of_step(
    alloc: Global,
    disk: &mut Standing,
    step: &ForeignStep,
) -> Result<(), Memory>
    ensures ok { OnOk result (SameDisk (disk_now disk.new) (after_step (disk_now disk.old) step.now)) }
    ensures err { OnErr result (disk.new ≡ disk.old) }
{
    match step {
        ForeignStep::Write { name, bytes } => {
            write(alloc, &mut disk.files, name.bytes(), Some(bytes))
        }
        ForeignStep::Remove { name } => disk.files.put(alloc, name.bytes(), None),
        ForeignStep::Lock { name, token } => { lock(alloc, &mut disk.locks, name.bytes(), *token) }
        ForeignStep::Unlock { name, token } => {
            unlock(alloc, &mut disk.locks, name.bytes(), *token)
        }
        ForeignStep::Seize { name } => take(alloc, &mut disk.rights, name.bytes()),
        ForeignStep::Release { name } => take_from_other(alloc, &mut disk.rights, name.bytes()),
    }
}

/// Carries out what an event says. If memory runs out, all is as before.
pub fn effect(alloc: Global, disk: &mut Standing, event: &Event) -> Result<(), Memory>
    ensures ok { OnOk result (SameDisk (disk_now disk.new) (after (disk_now disk.old) event.now)) }
    ensures err { OnErr result (disk.new ≡ disk.old) }
{
    match event {
        Event::Stage { name, bytes, .. } => {
            write(alloc, &mut disk.files, name.bytes(), bytes.as_ref())
        }
        Event::Publish {
            from,
            to,
            done: true,
            ..
        } => rename(alloc, &mut disk.files, from.bytes(), to.bytes()),
        Event::Extend { name, at, tail, .. } => extend(
            alloc,
            &mut disk.files,
            name.bytes(),
            *at,
            tail.bytes(),
        ),
        Event::Erase {
            name,
            done: true,
            ..
        } => disk.files.put(alloc, name.bytes(), None),
        Event::Lock {
            name,
            token,
            got: true,
            ..
        } => disk.locks.put(alloc, name.bytes(), Some(*token)),
        Event::Unlock {
            name,
            done: true,
            ..
        } => disk.locks.put(alloc, name.bytes(), None),
        Event::Seize {
            name,
            got: true,
            ..
        } => disk.rights.put(alloc, name.bytes(), Some(Holder::Own)),
        Event::Release { name } => take_from_own(alloc, &mut disk.rights, name.bytes()),
        Event::Foreign { step } => effect_of_step(alloc, disk, step),
        _ => Ok(()),
    }
}
