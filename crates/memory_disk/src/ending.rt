// How a call on a disk in memory ends.
ghost use Rattle.std.specs.Prelude.{◌≡◌, OnOk, IfOk, drop};
ghost use Rattle.std.specs.Option.{option_copied};
ghost use Rattle.host_port.specs.Ends.{carried_out, cut_short, left, left_tail, tail_of, is_after, is_owner, is_open};
ghost use Rattle.host_port.specs.Disk.{reaches};
ghost use Rattle.memory_disk.specs.Standings.{disk_now};
ghost use Rattle.memory_disk.specs.Lists.{named};

use crate::standing::{Standing, copy_found};
use host_port::{Event, Holder, Part};
use mail_text::{Memory, Text};
use std::alloc::Global;

/// Whether all of a call was done.
pub(crate) fn is_whole(part: &Part) -> bool
    ensures { result ≡ is_after part.now }
{
    match part {
        Part::Before => false,
        Part::After => true,
        Part::Bytes(_) => false,
        Part::Nothing => false,
    }
}

/// Whether the lock on a name is this owner's.
pub(crate) fn owns(disk: &Standing, name: &[u8], token: u64) -> bool
    ensures { result ≡ is_owner token (named disk.now.locks name.now) }
{
    match disk.locks.get(name) {
        None => false,
        Some(owner) => *owner == token,
    }
}

fn may_seize(disk: &Standing, name: &[u8]) -> bool
    ensures { result ≡ is_open (named disk.now.rights name.now) }
{
    match disk.rights.get(name) {
        None => true,
        Some(Holder::Own) => true,
        Some(Holder::Other) => false,
    }
}

// Whether a file stands that has so many bytes at least.
fn reaches(disk: &Standing, name: &[u8], at: u64) -> bool
    ensures { result ≡ reaches at (named disk.now.files name.now) }
{
    match disk.files.get(name) {
        None => false,
        Some(text) => at <= text.bytes().len() as u64,
    }
}

// Marks a call as done or not, and as failed or not.
fn mark(done: &mut bool, failed: &mut bool, is_done: bool, is_failed: bool)
    ensures done { done.new ≡ is_done }
    ensures failed { failed.new ≡ is_failed }
{
    *done = is_done;
    *failed = is_failed;
}

/// Makes an event of a call what it is if the call is carried out on this disk.
pub fn carry_out(disk: &Standing, event: &mut Event)
    ensures { event.new ≡ carried_out (disk_now disk.now) event.old }
{
    match event {
        Event::Stage { failed, .. } => *failed = false,
        Event::Publish {
            from,
            done,
            failed,
            ..
        } => mark(done, failed, disk.files.has(from.bytes()), false),
        Event::Extend {
            name,
            at,
            failed,
            ..
        } => *failed = !reaches(disk, name.bytes(), *at),
        Event::Erase { done, failed, .. } => mark(done, failed, true, false),
        Event::Lock {
            name,
            got,
            failed,
            ..
        } => mark(got, failed, !disk.locks.has(name.bytes()), false),
        Event::Unlock {
            name,
            token,
            done,
            failed,
        } => mark(done, failed, owns(disk, name.bytes(), *token), false),
        Event::Seize { name, got, failed } => {
            mark(got, failed, may_seize(disk, name.bytes()), false)
        }
        _ => {}
    }
}

/// What a failing call leaves of a file that it would write whole, where this stood.
pub(crate) fn left_of(
    alloc: Global,
    old: Option<&Text>,
    whole: Option<&Text>,
    part: &Part,
) -> Result<Option<Text>, Memory>
    ensures { IfOk result (λ r. r ≡ left (option_copied old.entry) (option_copied whole.entry) part.now) }
{
    match part {
        Part::Before => copy_found(alloc, old),
        Part::After => copy_found(alloc, whole),
        Part::Bytes(text) => copy_found(alloc, Some(text)),
        Part::Nothing => Ok(None),
    }
}

// Makes what would be written whole what a failing call leaves.
fn leave(
    alloc: Global,
    disk: &Standing,
    name: &[u8],
    bytes: &mut Option<Text>,
    part: &Part,
) -> Result<(), Memory>
    ensures { OnOk result (bytes.new ≡ left (named disk.now.files name.now) bytes.old part.now) }
{
    let left = left_of(alloc, disk.files.get(name), bytes.as_ref(), part)?;
    *bytes = left;
    Ok(())
}

// What follows so many bytes.
fn behind(bytes: &[u8], count: u64) -> &[u8]
    ensures { result.now ≡ drop count bytes.now }
{
    if (bytes.len() as u64) < count {
        return b"";
    }
    let (_, rest) = bytes.split_at(count as usize);
    rest
}

// What stands behind so many bytes of a file.
fn tail_there(alloc: Global, file: Option<&Text>, at: u64) -> Result<Text, Memory>
    ensures { IfOk result (λ t. t ≡ tail_of at (option_copied file.entry)) }
{
    match file {
        None => Ok(Text::new(alloc)),
        Some(text) => Text::copy(alloc, behind(text.bytes(), at)),
    }
}

/// What a failing call leaves behind so many bytes of a file that it would give another tail, where this stood.
pub(crate) fn left_tail_of(
    alloc: Global,
    old: Option<&Text>,
    at: u64,
    tail: &[u8],
    part: &Part,
) -> Result<Text, Memory>
    ensures { IfOk result (λ t. t ≡ left_tail (tail_of at (option_copied old.entry)) tail.now part.now) }
{
    match part {
        Part::Before => tail_there(alloc, old, at),
        Part::After => Text::copy(alloc, tail),
        Part::Bytes(text) => Text::copy(alloc, text.bytes()),
        Part::Nothing => tail_there(alloc, old, at),
    }
}

// Makes the tail that would be written what a failing call leaves.
fn leave_tail(
    alloc: Global,
    disk: &Standing,
    name: &[u8],
    at: u64,
    tail: &mut Text,
    part: &Part,
) -> Result<(), Memory>
    ensures { OnOk result (tail.new ≡ left_tail (tail_of at (named disk.now.files name.now)) tail.old part.now) }
{
    let left = left_tail_of(alloc, disk.files.get(name), at, tail.bytes(), part)?;
    *tail = left;
    Ok(())
}

/// Makes an event of a call its failing form on this disk, with the part of the call that was done.
pub fn cut(alloc: Global, disk: &Standing, event: &mut Event, part: &Part) -> Result<(), Memory>
    ensures { OnOk result (event.new ≡ cut_short (disk_now disk.now) event.old part.now) }
{
    let whole = is_whole(part);
    match event {
        Event::Stage {
            name,
            bytes,
            failed,
        } => {
            *failed = true;
            return leave(alloc, disk, name.bytes(), bytes, part);
        }
        Event::Publish {
            from,
            done,
            failed,
            ..
        } => mark(done, failed, whole && disk.files.has(from.bytes()), true),
        Event::Extend {
            name,
            at,
            tail,
            failed,
        } => {
            *failed = true;
            return leave_tail(alloc, disk, name.bytes(), *at, tail, part);
        }
        Event::Erase { done, failed, .. } => mark(done, failed, whole, true),
        Event::Lock {
            name,
            got,
            failed,
            ..
        } => mark(got, failed, whole && !disk.locks.has(name.bytes()), true),
        Event::Unlock {
            name,
            token,
            done,
            failed,
        } => mark(
            done,
            failed,
            whole && owns(disk, name.bytes(), *token),
            true,
        ),
        Event::Seize { name, got, failed } => {
            mark(got, failed, whole && may_seize(disk, name.bytes()), true)
        }
        _ => {}
    }
    Ok(())
}
