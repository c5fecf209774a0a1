// What the changes of a bracket make of its files, one by one, and why they can't be made.
ghost use Rattle.std.specs.Prelude.{◌≡◌, List, ℕ, IfOk, OnOk};
ghost use Rattle.std.specs.Option.{option_copied, option_map};
ghost use Rattle.host_port.specs.Disk.{with_at};
ghost use Rattle.memory_disk.specs.Lists.{named};
ghost use Rattle.folder_change.specs.Apply.{outcome_on};
ghost use Rattle.commit_machine.specs.Refusals.{refusal_of};
ghost use Rattle.commit_machine.specs.Jobs.{Puts, seen_files};
ghost use Rattle.commit_machine.specs.Edits.{cause_of, is_added, only_adds, outcome_for, tail_for};
ghost use Rattle.core_steps.specs.declared.change.CoreChange.{CoreChange};
ghost use Rattle.core_steps.specs.declared.actor.Actor.{Actor};
ghost use Rattle.core_steps.specs.Changes.{after_one, apply_each, base_of, change_of, edit_of, file_of, first_refusal_each, plain};
ghost use Rattle.core_steps.specs.Tasks.{job_of};
ghost use Rattle.actor_bracket.specs.Stands.{changes_of, mades_as, refusal_as};

use crate::copies::change_file;
use crate::rewriting::{bytes_of, outcome};
use crate::stand::{Made, Refusal};
use commit_record::Way;
use core_steps::{CoreChange, Task};
use host_port::Event;
use mail_text::{Memory, Text};
use memory_disk::{Standing, copy_found, effect, standing_of};
use std::alloc::Global;

/// The most bytes that a file may have.
pub(crate) const MOST_BYTES: usize = 268_435_456;

/// The changes of a bracket.
pub(crate) fn changes_in(task: &Task) -> &[CoreChange]
    ensures { result.now ≡ changes_of task.now }
{
    match task {
        Task::Commit { changes, .. } => changes.items(),
        Task::Recover => &[],
    }
}

// The file after a change of it; one that has changed stays as it is.
fn made_of(alloc: Global, change: &CoreChange, file: Option<Text>) -> Result<Option<Text>, Memory>
    ensures { IfOk result (λ made. made ≡ after_one (λ n. file) change.now (file_of change.now)) }
{
    match outcome(alloc, file.as_ref(), change)? {
        Ok(made) => Ok(made),
        Err(_) => Ok(file),
    }
}

// What a change makes of the file of this name.
fn change_one(
    alloc: Global,
    change: &CoreChange,
    name: &[u8],
    file: Option<Text>,
) -> Result<Option<Text>, Memory>
    ensures { IfOk result (λ made. made ≡ after_one (λ n. file) change.now name.now) }
{
    if name == change_file(change) {
        made_of(alloc, change, file)
    } else {
        Ok(file)
    }
}

// What changes, in order, make of the file of this name.
fn change_all(
    alloc: Global,
    changes: &[CoreChange],
    name: &[u8],
    file: Option<Text>,
) -> Result<Option<Text>, Memory>
    ensures { IfOk result (λ made. made ≡ apply_each changes.now (λ n. file) name.now) }
{
    match changes {
        [] => Ok(file),
        [first, rest @ ..] => {
            let made = change_one(alloc, first, name, file)?;
            let last = change_all(alloc, rest, name, made)?;
            Ok(last)
        }
    }
}

// Whether a change puts its bytes behind those of the file.
fn is_added(change: &CoreChange) -> bool
    ensures { result ≡ is_added (change_of change.now) }
{
    match change {
        CoreChange::Add { .. } | CoreChange::AddRaw { .. } => true,
        CoreChange::Rewrite { .. } | CoreChange::Front { .. } => false,
    }
}

// Whether all changes of this name do.
fn only_adds(changes: &[CoreChange], name: &[u8]) -> bool
    ensures { result ≡ only_adds (plain changes.now) name.now }
{
    match changes {
        [] => true,
        [first, rest @ ..] => {
            (name != change_file(first) || is_added(first)) && only_adds(rest, name)
        }
    }
}

// How a file that stands and is only added to comes to be, and what is staged for it.
fn tail_for(alloc: Global, old: &[u8], bytes: &[u8]) -> Result<(Way, Text), Memory>
    ensures { IfOk result (λ p. tail_for old.now bytes.now ≡ Puts p.0 p.1) }
{
    if old.len() <= MOST_BYTES {
        let (_, tail) = bytes.split_at(old.len().min(bytes.len()));
        let tail = Text::copy(alloc, tail)?;
        Ok((Way::Extend(old.len() as u64), tail))
    } else {
        let bytes = Text::copy(alloc, bytes)?;
        Ok((Way::Replace, bytes))
    }
}

// How a file comes to be that is to be so, and what is staged for it.
fn outcome_for(
    alloc: Global,
    adds: bool,
    seen: Option<&Text>,
    file: Option<&Text>,
) -> Result<(Way, Text), Memory>
    ensures { IfOk result
        (λ p. outcome_for adds (option_copied seen.entry) (option_copied file.entry) ≡ Puts p.0 p.1) }
{
    match (file, seen) {
        (None, _) => Ok((Way::Remove, Text::new(alloc))),
        (Some(bytes), Some(old)) if adds => tail_for(alloc, old.bytes(), bytes.bytes()),
        (Some(bytes), _) => {
            let bytes = Text::copy(alloc, bytes.bytes())?;
            Ok((Way::Replace, bytes))
        }
    }
}

/// How the file of this name, if it was loaded so, comes to be, and what is staged for it.
pub(crate) fn edit(
    alloc: Global,
    changes: &[CoreChange],
    name: &[u8],
    seen: Option<&Text>,
) -> Result<(Way, Text), Memory>
    ensures { IfOk result
        (λ p. (edit_of changes.now name.now).by (option_copied seen.entry) ≡ Puts p.0 p.1) }
{
    let file = copy_found(alloc, seen)?;
    let made = change_all(alloc, changes, name, file)?;
    outcome_for(alloc, only_adds(changes, name), seen, made.as_ref())
}

// Makes this what stands at a name.
fn put(alloc: Global, disk: &mut Standing, name: &[u8], bytes: Option<Text>) -> Result<(), Memory>
    ensures { OnOk result
        ((q : List ℕ) → named disk.new.files q ≡ with_at (named disk.old.files) name.now bytes q) }
{
    let name = Text::copy(alloc, name)?;
    let event = Event::Stage {
        name,
        bytes,
        failed: false,
    };
    effect(alloc, disk, &event)
}

// The files as they were loaded.
fn files_of(alloc: Global, made: &[Made]) -> Result<Standing, Memory>
    ensures { IfOk result
        (λ d. (cs : List CoreChange) (q : List ℕ) → named d.files q ≡ seen_files (mades_as cs made.now) q) }
{
    match made {
        [] => standing_of(alloc, &[], &[]),
        [first, rest @ ..] => {
            let mut disk = files_of(alloc, rest)?;
            let seen = copy_found(alloc, first.seen.as_ref())?;
            put(alloc, &mut disk, first.name.bytes(), seen)?;
            Ok(disk)
        }
    }
}

// Why this outcome can't be had for the file of this name, if it can't.
fn refusal_of(
    alloc: Global,
    name: &[u8],
    made: &Result<Option<Text>, u64>,
) -> Result<Option<Refusal>, Memory>
    ensures { IfOk result (λ why. option_map refusal_as why ≡ option_map cause_of (refusal_of name.now made.now)) }
{
    match made {
        Ok(None) => Ok(None),
        Ok(Some(file)) => {
            let length = file.bytes().len();
            if length <= MOST_BYTES {
                return Ok(None);
            }
            let name = Text::copy(alloc, name)?;
            Ok(Some(Refusal::TooLarge(name, length as u64)))
        }
        Err(at) => {
            let name = Text::copy(alloc, name)?;
            Ok(Some(Refusal::Changed(name, *at)))
        }
    }
}

// Makes a change of files, of which this is the outcome.
fn put_made(
    alloc: Global,
    change: &CoreChange,
    made: Result<Option<Text>, u64>,
    disk: &mut Standing,
) -> Result<(), Memory>
    requires { made ≡ outcome_on (named disk.old.files) (change_of change.now) (base_of change.now) }
    ensures { OnOk result ((q : List ℕ) → named disk.new.files q ≡ after_one (named disk.old.files) change.now q) }
{
    match made {
        Ok(file) => put(alloc, disk, change_file(change), file),
        Err(_) => Ok(()),
    }
}

// The first of changes, in order, that can't be made on these files, and why; none if all can.
fn first_refusal(
    alloc: Global,
    changes: &[CoreChange],
    disk: &mut Standing,
) -> Result<Option<Refusal>, Memory>
    ensures { IfOk result (λ why. option_map refusal_as why
        ≡ option_map cause_of (first_refusal_each changes.now (named disk.old.files))) }
{
    match changes {
        [] => Ok(None),
        [first, rest @ ..] => {
            let name = change_file(first);
            let made = outcome(alloc, disk.files.get(name), first)?;
            let why = refusal_of(alloc, name, &made)?;
            if why.is_some() {
                return Ok(why);
            }
            put_made(alloc, first, made, disk)?;
            let later = first_refusal(alloc, rest, disk)?;
            Ok(later)
        }
    }
}

/// Why a bracket is refused, whose files were loaded so; none if it isn't.
pub(crate) fn refusal(alloc: Global, task: &Task, made: &[Made]) -> Result<Option<Refusal>, Memory>
    ensures { IfOk result (λ why. (a : Actor) → option_map refusal_as why
        ≡ (job_of a task.now).refusal (seen_files (mades_as (changes_of task.now) made.now))) }
{
    match task {
        Task::Recover => Ok(None),
        Task::Commit { changes, .. } => {
            let mut disk = files_of(alloc, made)?;
            let why = first_refusal(alloc, changes.items(), &mut disk)?;
            Ok(why)
        }
    }
}
