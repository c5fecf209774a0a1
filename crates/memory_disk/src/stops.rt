// What a run leaves of a disk if it stops.
ghost use Rattle.std.specs.Prelude.{◌≡◌, true, false, IfOk, OnOk};
ghost use Rattle.std.specs.Option.{option_copied};
ghost use Rattle.host_port.specs.Disk.{disk, SameDisk};
ghost use Rattle.host_port.specs.Ends.{stopped};
ghost use Rattle.memory_disk.specs.Lists.{disk_of};
ghost use Rattle.memory_disk.specs.Standings.{disk_now, ShowsSame};
ghost use Rattle.host_port.specs.declared.event.Event.TheVariants as event;

use crate::ending::{is_whole, left_of, left_tail_of, owns};
use crate::lists::{copy_files, copy_locks};
use crate::named::Named;
use crate::standing::{Standing, effect, effect_of_step, extend, rename};
use host_port::{Event, ForeignStep, Part};
use mail_text::{Memory, Text};
use std::alloc::Global;

/// What stands on the disk that lists of files and locks show. Nobody has a right there.
pub fn standing_of(
    alloc: Global,
    files: &[(Text, Text)],
    locks: &[(Text, u64)],
) -> Result<Standing, Memory>
    ensures { IfOk result (λ s. SameDisk (disk_now s) (disk_of files.now locks.now)) }
{
    let files = copy_files(alloc, files)?;
    match copy_locks(alloc, locks) {
        Ok(locks) => {
            let rights = Named::new(alloc);
            Ok(Standing {
                files,
                locks,
                rights,
            })
        }
        Err(memory) => {
            drop(files);
            Err(memory)
        }
    }
}

// Carries out what events say. If memory runs out, some may be carried out.
fn effects(alloc: Global, standing: &mut Standing, events: &[Event]) -> Result<(), Memory>
    ensures { OnOk result (SameDisk (disk_now standing.new) (disk (disk_now standing.old) events.now)) }
{
    for event in events {
        effect(alloc, standing, event)?;
    }
    Ok(())
}

/// The disk that these events make of one that lists show.
pub fn replayed(
    alloc: Global,
    files: &[(Text, Text)],
    locks: &[(Text, u64)],
    events: &[Event],
) -> Result<Standing, Memory>
    ensures { IfOk result (λ s. SameDisk (disk_now s) (disk (disk_of files.now locks.now) events.now)) }
{
    let mut disk = standing_of(alloc, files, locks)?;
    match effects(alloc, &mut disk, events) {
        Ok(()) => Ok(disk),
        Err(memory) => {
            drop(disk);
            Err(memory)
        }
    }
}

// A stop inside a write of a whole file.
fn stop_stage(
    alloc: Global,
    disk: &mut Standing,
    name: &[u8],
    bytes: Option<&Text>,
    part: &Part,
) -> Result<(), Memory>
    ensures { OnOk result
        (ShowsSame (disk_now disk.new)
        (stopped (disk_now disk.old) (event.Stage name.now (option_copied bytes.entry) false) part.now)) }
{
    let left = left_of(alloc, disk.files.get(name), bytes, part)?;
    disk.files.put(alloc, name, left)
}

// A stop inside a rename.
fn stop_publish(
    alloc: Global,
    disk: &mut Standing,
    from: &[u8],
    to: &[u8],
    part: &Part,
) -> Result<(), Memory>
    ensures { OnOk result
        (ShowsSame (disk_now disk.new)
        (stopped (disk_now disk.old) (event.Publish from.now to.now true false) part.now)) }
{
    if is_whole(part) && disk.files.has(from) {
        return rename(alloc, &mut disk.files, from, to);
    }
    Ok(())
}

// A stop inside an extension.
fn stop_extend(
    alloc: Global,
    disk: &mut Standing,
    name: &[u8],
    at: u64,
    tail: &[u8],
    part: &Part,
) -> Result<(), Memory>
    ensures { OnOk result
        (ShowsSame (disk_now disk.new)
        (stopped (disk_now disk.old) (event.Extend name.now at tail.now false) part.now)) }
{
    let left = left_tail_of(alloc, disk.files.get(name), at, tail, part)?;
    extend(alloc, &mut disk.files, name, at, left.bytes())
}

// A stop inside an erasure.
fn stop_erase(alloc: Global, disk: &mut Standing, name: &[u8], part: &Part) -> Result<(), Memory>
    ensures { OnOk result
        (ShowsSame (disk_now disk.new) (stopped (disk_now disk.old) (event.Erase name.now true false) part.now)) }
{
    if is_whole(part) {
        return disk.files.put(alloc, name, None);
    }
    Ok(())
}

// A stop inside the putting of a lock.
fn stop_lock(
    alloc: Global,
    disk: &mut Standing,
    name: &[u8],
    token: u64,
    part: &Part,
) -> Result<(), Memory>
    ensures { OnOk result
        (ShowsSame (disk_now disk.new) (stopped (disk_now disk.old) (event.Lock name.now token true false) part.now)) }
{
    if is_whole(part) && !disk.locks.has(name) {
        return disk.locks.put(alloc, name, Some(token));
    }
    Ok(())
}

// A stop inside the taking away of a lock.
fn stop_unlock(
    alloc: Global,
    disk: &mut Standing,
    name: &[u8],
    token: u64,
    part: &Part,
) -> Result<(), Memory>
    ensures { OnOk result
        (ShowsSame (disk_now disk.new) (stopped (disk_now disk.old) (event.Unlock name.now token true false) part.now)) }
{
    if is_whole(part) && owns(disk, name, token) {
        return disk.locks.put(alloc, name, None);
    }
    Ok(())
}

// A stop inside a step of another.
fn stop_step(
    alloc: Global,
    disk: &mut Standing,
    step: &ForeignStep,
    part: &Part,
) -> Result<(), Memory>
    ensures { OnOk result
        (ShowsSame (disk_now disk.new) (stopped (disk_now disk.old) (event.Foreign step.now) part.now)) }
{
    if is_whole(part) {
        return effect_of_step(alloc, disk, step);
    }
    Ok(())
}

/// A stop inside an event, of which this part was done. Rights aren't looked at.
pub fn stop(alloc: Global, disk: &mut Standing, event: &Event, part: &Part) -> Result<(), Memory>
    ensures { OnOk result (ShowsSame (disk_now disk.new) (stopped (disk_now disk.old) event.now part.now)) }
{
    match event {
        Event::Stage { name, bytes, .. } => {
            stop_stage(alloc, disk, name.bytes(), bytes.as_ref(), part)
        }
        Event::Publish { from, to, .. } => {
            stop_publish(alloc, disk, from.bytes(), to.bytes(), part)
        }
        Event::Extend { name, at, tail, .. } => {
            stop_extend(alloc, disk, name.bytes(), *at, tail.bytes(), part)
        }
        Event::Erase { name, .. } => stop_erase(alloc, disk, name.bytes(), part),
        Event::Lock { name, token, .. } => stop_lock(alloc, disk, name.bytes(), *token, part),
        Event::Unlock { name, token, .. } => stop_unlock(alloc, disk, name.bytes(), *token, part),
        Event::Foreign { step } => stop_step(alloc, disk, step, part),
        _ => Ok(()),
    }
}
