// What the next call of a bracket asks of the disk, as an event.
ghost use Rattle.std.specs.Prelude.{◌≡◌, true, false, Some, IfOk};
ghost use Rattle.std.specs.Option.{option_copied, option_map};
ghost use Rattle.commit_record.specs.Format.{is_valid, written};
ghost use Rattle.folder_change.specs.Outcomes.{bytes_of};
ghost use Rattle.host_port.specs.declared.event.Event.TheVariants as event;
ghost use Rattle.memory_disk.specs.Standings.{disk_now};
ghost use Rattle.commit_machine.specs.Edits.{recovery_for};
ghost use Rattle.commit_machine.specs.Jobs.{go_of, prepare_of};
ghost use Rattle.commit_machine.specs.Names.{new_name, record_name, right_name, staged_name};
ghost use Rattle.commit_machine.specs.Machine as machine;
ghost use Rattle.actor_ground.specs.CallEnds.{asked, seen_of};
ghost use Rattle.core_steps.specs.Tasks.{job_of};
ghost use Rattle.actor_bracket.specs.Stands.{Writes, changes_of, closing_as, mades_as, state_as};

use crate::editing::MOST_BYTES;
use crate::planning::{go_of, prepare_of};
use crate::rewriting::bytes_of;
use crate::stand::{Closing, Item, Made, Stand};
use commit_machine::{new_name, record_name, right_name, staged_name};
use commit_record::{Record, Way, write};
use core_steps::{Actor, Task};
use host_port::{Event, Seen};
use mail_text::{Memory, Text};
use memory_disk::{Standing, copy_found};
use std::alloc::Global;

// What a load of this file sees, on whose name a lock stands or not.
fn seen_of(alloc: Global, found: Option<&Text>, held: bool) -> Result<Seen, Memory>
    ensures { IfOk result (λ s. s ≡ seen_of (option_copied found.entry) held) }
{
    match found {
        Some(text) if text.bytes().len() > MOST_BYTES => Ok(Seen::TooLarge {
            length: text.bytes().len() as u64,
        }),
        found => Ok(Seen::Bytes {
            bytes: copy_found(alloc, found)?,
            held,
        }),
    }
}

fn load(alloc: Global, disk: &Standing, name: &[u8]) -> Result<Event, Memory>
    ensures { IfOk result (λ e. e ≡ asked (disk_now disk.now) (machine.ToLoad name.now)) }
{
    let seen = seen_of(alloc, disk.files.get(name), disk.locks.has(name))?;
    let name = Text::copy(alloc, name)?;
    Ok(Event::Load { name, seen })
}

fn stage(alloc: Global, name: &[u8], bytes: &[u8]) -> Result<Event, Memory>
    ensures { IfOk result (λ e. e ≡ event.Stage name.now (Some bytes.now) false) }
{
    let name = Text::copy(alloc, name)?;
    let bytes = Text::copy(alloc, bytes)?;
    Ok(Event::Stage {
        name,
        bytes: Some(bytes),
        failed: false,
    })
}

fn publish(alloc: Global, from: &[u8], to: &[u8]) -> Result<Event, Memory>
    ensures { IfOk result (λ e. e ≡ event.Publish from.now to.now true false) }
{
    let from = Text::copy(alloc, from)?;
    let to = Text::copy(alloc, to)?;
    Ok(Event::Publish {
        from,
        to,
        done: true,
        failed: false,
    })
}

fn extend(alloc: Global, name: &[u8], at: u64, tail: &[u8]) -> Result<Event, Memory>
    ensures { IfOk result (λ e. e ≡ event.Extend name.now at tail.now false) }
{
    let name = Text::copy(alloc, name)?;
    let tail = Text::copy(alloc, tail)?;
    Ok(Event::Extend {
        name,
        at,
        tail,
        failed: false,
    })
}

fn erase(alloc: Global, name: &[u8]) -> Result<Event, Memory>
    ensures { IfOk result (λ e. e ≡ event.Erase name.now true false) }
{
    let name = Text::copy(alloc, name)?;
    Ok(Event::Erase {
        name,
        done: true,
        failed: false,
    })
}

fn lock(alloc: Global, name: &[u8], token: u64) -> Result<Event, Memory>
    ensures { IfOk result (λ e. e ≡ event.Lock name.now token true false) }
{
    let name = Text::copy(alloc, name)?;
    Ok(Event::Lock {
        name,
        token,
        got: true,
        failed: false,
    })
}

fn unlock(alloc: Global, name: &[u8], token: u64) -> Result<Event, Memory>
    ensures { IfOk result (λ e. e ≡ event.Unlock name.now token true false) }
{
    let name = Text::copy(alloc, name)?;
    Ok(Event::Unlock {
        name,
        token,
        done: true,
        failed: false,
    })
}

fn seize(alloc: Global, actor: &[u8]) -> Result<Event, Memory>
    ensures { IfOk result (λ e. e ≡ event.Seize (right_name actor.now) true false) }
{
    let name = right_name(alloc, actor)?;
    Ok(Event::Seize {
        name,
        got: true,
        failed: false,
    })
}

fn release(alloc: Global, actor: &[u8]) -> Result<Event, Memory>
    ensures { IfOk result (λ e. e ≡ event.Release (right_name actor.now)) }
{
    let name = right_name(alloc, actor)?;
    Ok(Event::Release { name })
}

// What stands as the record is loaded.
fn load_record(alloc: Global, disk: &Standing, actor: &[u8]) -> Result<Event, Memory>
    ensures { IfOk result (λ e. e ≡ asked (disk_now disk.now) (machine.ToLoad (record_name actor.now))) }
{
    let name = record_name(alloc, actor)?;
    let event = load(alloc, disk, name.bytes())?;
    Ok(event)
}

// What was written as a record takes its place.
fn publish_record(alloc: Global, actor: &[u8]) -> Result<Event, Memory>
    ensures { IfOk result
        (λ e. e ≡ event.Publish (new_name actor.now) (record_name actor.now) true false) }
{
    let from = new_name(alloc, actor)?;
    let to = record_name(alloc, actor)?;
    let event = publish(alloc, from.bytes(), to.bytes())?;
    Ok(event)
}

// A record is written.
fn stage_record(alloc: Global, actor: &[u8], value: &Record) -> Result<Event, Memory>
    requires { is_valid value.now ≡ true }
    ensures { IfOk result
        (λ e. e ≡ event.Stage (new_name actor.now) (Some (written value.now)) false) }
{
    let name = new_name(alloc, actor)?;
    let text = write(alloc, value)?;
    let event = stage(alloc, name.bytes(), text.bytes())?;
    Ok(event)
}

// The staged file of a name is taken away.
fn erase_staged(alloc: Global, token: u64, name: &[u8]) -> Result<Event, Memory>
    ensures { IfOk result (λ e. e ≡ event.Erase (staged_name token name.now) true false) }
{
    let staged = staged_name(alloc, token, name)?;
    let event = erase(alloc, staged.bytes())?;
    Ok(event)
}

// It takes its place.
fn publish_staged(alloc: Global, token: u64, name: &[u8]) -> Result<Event, Memory>
    ensures { IfOk result
        (λ e. e ≡ event.Publish (staged_name token name.now) name.now true false) }
{
    let staged = staged_name(alloc, token, name)?;
    let event = publish(alloc, staged.bytes(), name)?;
    Ok(event)
}

// It is loaded.
fn load_staged(alloc: Global, disk: &Standing, token: u64, name: &[u8]) -> Result<Event, Memory>
    ensures { IfOk result
        (λ e. e ≡ asked (disk_now disk.now) (machine.ToLoad (staged_name token name.now))) }
{
    let staged = staged_name(alloc, token, name)?;
    let event = load(alloc, disk, staged.bytes())?;
    Ok(event)
}

// It is made.
fn stage_made(alloc: Global, token: u64, made: &Made) -> Result<Event, Memory>
    ensures { IfOk result
        (λ e. e ≡ event.Stage (staged_name token made.now.name) (Some made.now.content) false) }
{
    let staged = staged_name(alloc, token, made.name.bytes())?;
    let event = stage(alloc, staged.bytes(), made.content.bytes())?;
    Ok(event)
}

// How many bytes of a file stay.
fn stay(way: Way) -> u64
    ensures { result ≡ machine.stay way }
{
    match way {
        Way::Extend(at) => at,
        Way::Replace | Way::Remove => 0,
    }
}

fn extend_item(alloc: Global, item: &Item) -> Result<Event, Memory>
    ensures { IfOk result (λ e. e
        ≡ event.Extend item.now.name (machine.stay item.now.way) (bytes_of item.now.staged) false) }
{
    let tail = bytes_of(item.staged.as_ref());
    let event = extend(alloc, item.name.bytes(), stay(item.way), tail)?;
    Ok(event)
}

// The next call for a record that is being done with.
fn closing_asked(
    alloc: Global,
    actor: &[u8],
    value: &Record,
    closing: &Closing,
    disk: &Standing,
) -> Result<Event, Memory>
    ensures { IfOk result (λ e. Some e ≡ option_map (asked (disk_now disk.now))
        (machine.next (recovery_for actor.now 0) (closing_as value.now closing.now machine.GoOn))) }
{
    let token = value.token;
    match closing {
        Closing::Undoing(name, _, _) => Ok(erase_staged(alloc, token, name.bytes())?),
        Closing::Placing(item, _, _) => Ok(publish_staged(alloc, token, item.name.bytes())?),
        Closing::Testing(item, _, _) => Ok(load_staged(alloc, disk, token, item.name.bytes())?),
        Closing::Removing(item, _, _) => Ok(erase(alloc, item.name.bytes())?),
        Closing::Extending(item, _, _) => Ok(extend_item(alloc, item)?),
        Closing::Discarding(item, _, _) => Ok(erase_staged(alloc, token, item.name.bytes())?),
        Closing::Unlocking(name, _) => Ok(unlock(alloc, name.bytes(), token)?),
        Closing::Erasing => Ok(erase_record(alloc, actor)?),
    }
}

// The record of an actor is taken away.
fn erase_record(alloc: Global, actor: &[u8]) -> Result<Event, Memory>
    ensures { IfOk result (λ e. e ≡ event.Erase (record_name actor.now) true false) }
{
    let name = record_name(alloc, actor)?;
    let event = erase(alloc, name.bytes())?;
    Ok(event)
}

// The record before the decision is written.
fn stage_prepare(alloc: Global, actor: &Actor, task: &Task) -> Result<Event, Memory>
    requires { Writes (job_of actor.now task.now) machine.Preparing }
    ensures { IfOk result (λ e. e
        ≡ event.Stage (new_name actor.now.name) (Some (written (prepare_of (job_of actor.now task.now)))) false) }
{
    let value = prepare_of(alloc, actor, task)?;
    let event = stage_record(alloc, actor.name.bytes(), &value)?;
    Ok(event)
}

// The record of the decision is written.
fn stage_go(alloc: Global, actor: &Actor, task: &Task, made: &[Made]) -> Result<Event, Memory>
    requires { Writes (job_of actor.now task.now) (machine.Deciding (mades_as (changes_of task.now) made.now)) }
    ensures { IfOk result (λ e. e ≡ event.Stage (new_name actor.now.name)
        (Some (written (go_of (job_of actor.now task.now) (mades_as (changes_of task.now) made.now)))) false) }
{
    let value = go_of(alloc, actor, task, made)?;
    let event = stage_record(alloc, actor.name.bytes(), &value)?;
    Ok(event)
}

// The new record of an actor is taken away.
fn erase_new(alloc: Global, actor: &[u8]) -> Result<Event, Memory>
    ensures { IfOk result (λ e. e ≡ event.Erase (new_name actor.now) true false) }
{
    let name = new_name(alloc, actor)?;
    let event = erase(alloc, name.bytes())?;
    Ok(event)
}

/// What the next call of a bracket asks of the disk; none once it is through. A load asks for what stands.
pub(crate) fn next_asked(
    alloc: Global,
    actor: &Actor,
    task: &Task,
    stand: &Stand,
    disk: &Standing,
) -> Result<Option<Event>, Memory>
    requires { Writes (job_of actor.now task.now) (state_as (changes_of task.now) stand.now) }
    ensures { IfOk result (λ e. e ≡ option_map (asked (disk_now disk.now))
        (machine.next (job_of actor.now task.now) (state_as (changes_of task.now) stand.now))) }
{
    let name = actor.name.bytes();
    match stand {
        Stand::Seizing => Ok(Some(seize(alloc, name)?)),
        Stand::Timing(seconds) => Ok(Some(Event::Now { seconds: *seconds })),
        Stand::Looking | Stand::Checking => Ok(Some(load_record(alloc, disk, name)?)),
        Stand::Closing(value, closing, _) => {
            Ok(Some(closing_asked(alloc, name, value, closing, disk)?))
        }
        Stand::Clearing(_) => Ok(Some(erase_new(alloc, name)?)),
        Stand::Preparing => Ok(Some(stage_prepare(alloc, actor, task)?)),
        Stand::Publishing | Stand::Committing(_) => Ok(Some(publish_record(alloc, name)?)),
        Stand::Locking(_, file, _) => Ok(Some(lock(alloc, file.bytes(), actor.token)?)),
        Stand::Loading(_, file, _) => Ok(Some(load(alloc, disk, file.bytes())?)),
        Stand::Staging(_, _, one, _) => Ok(Some(stage_made(alloc, actor.token, one)?)),
        Stand::Deciding(made) => Ok(Some(stage_go(alloc, actor, task, made.items())?)),
        Stand::Releasing(_) => Ok(Some(release(alloc, name)?)),
        Stand::Ended(_) => Ok(None),
    }
}
