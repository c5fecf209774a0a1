// The disk as an actor sees it, and who has rights after its calls.
ghost use Rattle.std.specs.Prelude.{◌≡◌, Some, None, false, List, ℕ, IfOk, OnOk};
ghost use Rattle.host_port.specs.declared.event.Event.TheVariants as event;
ghost use Rattle.host_port.specs.declared.event.ForeignStep.TheVariants as foreign;
ghost use Rattle.host_port.specs.declared.event.Holder.TheVariants.{Other};
ghost use Rattle.host_port.specs.Disk.{SameDisk, after, with_at};
ghost use Rattle.host_port.specs.Ends.{ended};
ghost use Rattle.memory_disk.specs.Lists.{NamesOnce, lookup, named};
ghost use Rattle.memory_disk.specs.Standings.{disk_now};
ghost use Rattle.commit_machine.specs.Laws.{is_foreign};
ghost use Rattle.core_steps.specs.Cores.{CoreDisk, disk_then, holder_for, seen_by};
ghost use Rattle.actor_disk.specs.Seeing.{SameDisks, failed_as, given_up, held_after, may_fail, shown_disk};

use host_port::{Event, ForeignStep, Part, Seen};
use mail_text::{Items, Memory, Text};
use memory_disk::{Standing, cut, effect, show_files, show_locks, standing_of};
use std::alloc::Global;

/// What stands on a disk: files, owners of locks, and holders of rights by their numbers.
#[derive(Drop)]
pub struct Lists {
    pub files: Items<(Text, Text)>,
    pub locks: Items<(Text, u64)>,
    pub holders: Items<(Text, u64)>,
}

// The right is given up, if it is the own one.
fn release(alloc: Global, disk: &mut Standing, name: &[u8]) -> Result<(), Memory>
    ensures { OnOk result (SameDisk (disk_now disk.new) (after (disk_now disk.old) (event.Release name.now))) }
{
    let name = Text::copy(alloc, name)?;
    let event = Event::Release { name };
    effect(alloc, disk, &event)
}

// Another takes the right, if nobody has it.
fn other_seizes(alloc: Global, disk: &mut Standing, name: &[u8]) -> Result<(), Memory>
    ensures { OnOk result (SameDisk (disk_now disk.new)
        (after (disk_now disk.old) (event.Foreign (foreign.Seize name.now)))) }
{
    let name = Text::copy(alloc, name)?;
    let step = ForeignStep::Seize { name };
    let event = Event::Foreign { step };
    effect(alloc, disk, &event)
}

// Makes another have a right, whoever has it.
fn give_other(alloc: Global, disk: &mut Standing, name: &[u8]) -> Result<(), Memory>
    ensures { OnOk result (SameDisk (disk_now disk.new) (record (disk_now disk.old) {
      rights = with_at (named disk.old.rights) name.now (Some Other);
    })) }
{
    release(alloc, disk, name)?;
    other_seizes(alloc, disk, name)?;
    Ok(())
}

// Makes the actor of this number see who has a right.
fn give(
    alloc: Global,
    disk: &mut Standing,
    name: &[u8],
    holder: u64,
    number: u64,
) -> Result<(), Memory>
    ensures { OnOk result (SameDisk (disk_now disk.new) (record (disk_now disk.old) {
      rights = with_at (named disk.old.rights) name.now (holder_for number (Some holder));
    })) }
{
    if holder == number {
        let event = Event::Seize {
            name: Text::copy(alloc, name)?,
            got: true,
            failed: false,
        };
        effect(alloc, disk, &event)
    } else {
        give_other(alloc, disk, name)
    }
}

// The disk as the actor of this number sees it.
fn see(
    alloc: Global,
    files: &[(Text, Text)],
    locks: &[(Text, u64)],
    holders: &[(Text, u64)],
    number: u64,
) -> Result<Standing, Memory>
    ensures { let d : CoreDisk = record {
      files = lookup files.now;
      locks = lookup locks.now;
      holders = lookup holders.now;
    } in IfOk result (λ disk. SameDisk (disk_now disk) (seen_by number d)) }
{
    match holders {
        [] => {
            let disk = standing_of(alloc, files, locks)?;
            Ok(disk)
        }
        [first, rest @ ..] => {
            let mut disk = see(alloc, files, locks, rest, number)?;
            give(alloc, &mut disk, first.0.bytes(), first.1, number)?;
            Ok(disk)
        }
    }
}

/// The disk as the actor of this number sees it.
pub fn seen_by(alloc: Global, lists: &Lists, number: u64) -> Result<Standing, Memory>
    ensures { IfOk result (λ disk. disk_now disk ≡ seen_by number (shown_disk lists.now)) }
{
    let files = lists.files.items();
    let locks = lists.locks.items();
    let disk = see(alloc, files, locks, lists.holders.items(), number)?;
    Ok(disk)
}

// Who has rights, by name, with this holder put.
fn put_holder(alloc: Global, held: &mut Standing, name: &[u8], holder: u64) -> Result<(), Memory>
    ensures { OnOk result
        ((q : List ℕ) → named held.new.locks q ≡ with_at (named held.old.locks) name.now (Some holder) q) }
{
    let event = Event::Lock {
        name: Text::copy(alloc, name)?,
        token: holder,
        got: true,
        failed: false,
    };
    effect(alloc, held, &event)
}

// Nobody has this right.
fn take_holder(alloc: Global, held: &mut Standing, name: &[u8]) -> Result<(), Memory>
    ensures { OnOk result
        ((q : List ℕ) → named held.new.locks q ≡ with_at (named held.old.locks) name.now None q) }
{
    let event = Event::Unlock {
        name: Text::copy(alloc, name)?,
        token: 0,
        done: true,
        failed: false,
    };
    effect(alloc, held, &event)
}

// The actor of this number gives up a right, if it has it.
fn give_up(alloc: Global, held: &mut Standing, name: &[u8], number: u64) -> Result<(), Memory>
    ensures { OnOk result ((q : List ℕ) → named held.new.locks q
        ≡ with_at (named held.old.locks) name.now (given_up number (named held.old.locks name.now)) q) }
{
    match held.locks.get(name) {
        Some(holder) if *holder == number => take_holder(alloc, held, name),
        _ => Ok(()),
    }
}

// What an event of the actor of this number makes of who has rights.
fn hold(alloc: Global, held: &mut Standing, event: &Event, number: u64) -> Result<(), Memory>
    ensures { OnOk result
        ((q : List ℕ) → named held.new.locks q ≡ held_after number event.now (named held.old.locks) q) }
{
    match event {
        Event::Seize {
            name,
            got: true,
            ..
        } => put_holder(alloc, held, name.bytes(), number),
        Event::Release { name } => give_up(alloc, held, name.bytes(), number),
        _ => Ok(()),
    }
}

// Who has rights after an event of the actor of this number.
fn held_after(
    alloc: Global,
    holders: &[(Text, u64)],
    event: &Event,
    number: u64,
) -> Result<Items<(Text, u64)>, Memory>
    ensures { IfOk result
        (λ hs. (q : List ℕ) → lookup hs q ≡ held_after number event.now (lookup holders.now) q) }
{
    let mut held = standing_of(alloc, &[], holders)?;
    hold(alloc, &mut held, event, number)?;
    let shown = show_locks(alloc, &held.locks)?;
    Ok(shown)
}

// Makes a right be that of this holder, but for the actor of this number.
fn put_other(
    alloc: Global,
    held: &mut Standing,
    name: &[u8],
    holder: u64,
    number: u64,
) -> Result<(), Memory>
    ensures { OnOk result ((q : List ℕ) → named held.new.locks q
        ≡ with_at (named held.old.locks) name.now (given_up number (Some holder)) q) }
{
    if holder == number {
        take_holder(alloc, held, name)
    } else {
        put_holder(alloc, held, name, holder)
    }
}

// Who has rights, once the actor of this number has none.
fn held_by_others(alloc: Global, holders: &[(Text, u64)], number: u64) -> Result<Standing, Memory>
    ensures { IfOk result
        (λ s. (q : List ℕ) → named s.locks q ≡ given_up number (lookup holders.now q)) }
{
    match holders {
        [] => standing_of(alloc, &[], &[]),
        [first, rest @ ..] => {
            let mut held = held_by_others(alloc, rest, number)?;
            put_other(alloc, &mut held, first.0.bytes(), first.1, number)?;
            Ok(held)
        }
    }
}

// Who has rights, once the actor of this number has stopped.
fn held_once_stopped(
    alloc: Global,
    holders: &[(Text, u64)],
    number: u64,
) -> Result<Items<(Text, u64)>, Memory>
    ensures { IfOk result (λ hs. (q : List ℕ) → lookup hs q ≡ given_up number (lookup holders.now q)) }
{
    let held = held_by_others(alloc, holders, number)?;
    show_locks(alloc, &held.locks)
}

/// Makes an own event of the actor of this number happen: what stands then.
pub fn happen(
    alloc: Global,
    lists: &Lists,
    disk: &mut Standing,
    event: &Event,
    number: u64,
) -> Result<Lists, Memory>
    requires seen { disk_now disk.old ≡ seen_by number (shown_disk lists.now) }
    requires own { is_foreign event.now ≡ false }
    ensures disk { IfOk result (λ l. SameDisks (shown_disk l)
        (disk_then number (shown_disk lists.now) (after (seen_by number (shown_disk lists.now)) event.now))) }
    ensures once { IfOk result (λ l. NamesOnce l.files × NamesOnce l.locks) }
{
    effect(alloc, disk, event)?;
    let files = show_files(alloc, &disk.files)?;
    let locks = show_locks(alloc, &disk.locks)?;
    let holders = held_after(alloc, lists.holders.items(), event, number)?;
    Ok(Lists {
        files,
        locks,
        holders,
    })
}

/// Makes the last event of an actor of this number happen, inside which it stops.
pub fn happen_last(
    alloc: Global,
    lists: &Lists,
    disk: &mut Standing,
    event: &Event,
    number: u64,
) -> Result<Lists, Memory>
    requires seen { disk_now disk.old ≡ seen_by number (shown_disk lists.now) }
    requires own { is_foreign event.now ≡ false }
    ensures disk { IfOk result (λ l. SameDisks (shown_disk l)
        (disk_then number (shown_disk lists.now) (ended (after (seen_by number (shown_disk lists.now)) event.now)))) }
    ensures once { IfOk result (λ l. NamesOnce l.files × NamesOnce l.locks) }
{
    let there = happen(alloc, lists, disk, event, number)?;
    let holders = held_once_stopped(alloc, there.holders.items(), number)?;
    Ok(Lists {
        files: there.files,
        locks: there.locks,
        holders,
    })
}

/// Whether a call that was to be this event may fail.
pub fn may_fail(event: &Event) -> bool
    ensures { result ≡ may_fail event.now }
{
    match event {
        Event::Now { .. } | Event::Release { .. } => false,
        _ => true,
    }
}

/// Makes an event fail that a call was to be, with this part of it done. A load does nothing.
pub fn fail(alloc: Global, disk: &Standing, event: &mut Event, part: &Part) -> Result<(), Memory>
    ensures { OnOk result (event.new ≡ failed_as (disk_now disk.now) event.old part.now) }
{
    match event {
        Event::Load { seen, .. } => {
            *seen = Seen::Failed;
            Ok(())
        }
        event => cut(alloc, disk, event, part),
    }
}
