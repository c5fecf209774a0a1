// The names and the records of a bracket.
ghost use Rattle.std.specs.Prelude.{◌≡◌, ◌∷◌, ◌++◌, [], List, IfOk, OnOk};
ghost use Rattle.commit_record.specs.Format.{version_line};
ghost use Rattle.commit_record.specs.declared.way.Way.TheVariants.{Replace};
ghost use Rattle.commit_machine.specs.Edits.{without};
ghost use Rattle.commit_machine.specs.Items.{made_item, made_items};
ghost use Rattle.commit_machine.specs.Jobs.{all_of, edits_of, entries_for, go_of, made_at, moment_of, prepare_of, way_made};
ghost use Rattle.commit_machine.specs.Machine.{go_front};
ghost use Rattle.core_steps.specs.declared.change.CoreChange.{CoreChange};
ghost use Rattle.core_steps.specs.declared.actor.Actor.{Actor};
ghost use Rattle.core_steps.specs.Changes.{files_named};
ghost use Rattle.core_steps.specs.Tasks.{job_of};
ghost use Rattle.actor_bracket.specs.Stands.{changes_of, edits_as, item_as, items_as, mades_as};

use crate::copies::change_file;
use crate::editing::changes_in;
use crate::stand::{Item, Made};
use commit_record::{Entry, Phase, Record, Way, entry_for, nearest_moment};
use core_steps::{Actor, CoreChange, Task};
use mail_text::{Items, Memory, Text};
use std::alloc::Global;

// Puts a name at the end, if it isn't this one.
fn put_other(alloc: Global, name: &[u8], other: &[u8], left: &mut Items<Text>) -> Result<(), Memory>
    ensures { OnOk result (left.new ≡ left.old ++ without name.now (other.now ∷ [])) }
{
    if other == name {
        return Ok(());
    }
    let copy = Text::copy(alloc, other)?;
    left.push(copy)
}

// Puts names but this one at the end.
fn without(alloc: Global, name: &[u8], names: &[Text], left: &mut Items<Text>) -> Result<(), Memory>
    ensures { OnOk result (left.new ≡ left.old ++ without name.now names.now) }
{
    for other in names {
        put_other(alloc, name, other.bytes(), left)?;
    }
    Ok(())
}

/// The names of the files of changes, each once, in order of first naming.
pub fn files_named(alloc: Global, changes: &[CoreChange]) -> Result<Items<Text>, Memory>
    ensures { IfOk result (λ names. names ≡ files_named changes.now) }
{
    match changes {
        [] => Ok(Items::new(alloc)),
        [first, rest @ ..] => {
            let name = change_file(first);
            let later = files_named(alloc, rest)?;
            let mut names = Items::new(alloc);
            names.push(Text::copy(alloc, name)?)?;
            without(alloc, name, later.items(), &mut names)?;
            Ok(names)
        }
    }
}

/// The names of the files of a bracket, in order.
pub(crate) fn names_of(alloc: Global, task: &Task) -> Result<Items<Text>, Memory>
    ensures names { IfOk result (λ names. (a : Actor) → names ≡ all_of (job_of a task.now)) }
    ensures edits { IfOk result (λ names. (a : Actor)
        → edits_as (changes_of task.now) names ≡ edits_of (job_of a task.now)) }
{
    let names = files_named(alloc, changes_in(task))?;
    Ok(names)
}

// The moment of the records of a bracket.
fn moment_of(task: &Task) -> Option<i64>
    ensures { (a : Actor) → result ≡ moment_of (job_of a task.now) }
{
    match task {
        Task::Commit { moment, .. } => Some(nearest_moment(*moment)),
        Task::Recover => None,
    }
}

// An entry of each of these names, as if all were replaced.
fn replaced(alloc: Global, names: &[Text]) -> Result<Items<Entry>, Memory>
    ensures { IfOk result (λ entries. entries ≡ entries_for (λ n. Replace) names.now) }
{
    let mut entries = Items::new(alloc);
    for name in names {
        let name = Text::copy(alloc, name.bytes())?;
        entries.push(entry_for(Way::Replace, name))?;
    }
    Ok(entries)
}

/// The record of a bracket before the decision.
pub(crate) fn prepare_of(alloc: Global, actor: &Actor, task: &Task) -> Result<Record, Memory>
    ensures { IfOk result (λ r. r ≡ prepare_of (job_of actor.now task.now)) }
{
    let names = names_of(alloc, task)?;
    let entries = replaced(alloc, names.items())?;
    Ok(Record {
        phase: Phase::Prepare,
        token: actor.token,
        moment: moment_of(task),
        entries,
    })
}

// How the file of this name comes to be.
fn way_at(made: &[Made], name: &[u8]) -> Way
    ensures { (cs : List CoreChange) → result ≡ way_made (made_at (mades_as cs made.now) name.now) }
{
    match made {
        [] => Way::Replace,
        [first, rest @ ..] => {
            if name == first.name.bytes() {
                first.way
            } else {
                way_at(rest, name)
            }
        }
    }
}

// An entry of each of these names, as it was made.
fn decided(alloc: Global, names: &[Text], made: &[Made]) -> Result<Items<Entry>, Memory>
    ensures { IfOk result (λ entries. (cs : List CoreChange)
        → entries ≡ entries_for (λ n. way_made (made_at (mades_as cs made.now) n)) names.now) }
{
    let mut entries = Items::new(alloc);
    for name in names {
        let way = way_at(made, name.bytes());
        let name = Text::copy(alloc, name.bytes())?;
        entries.push(entry_for(way, name))?;
    }
    Ok(entries)
}

/// The record of the decision of a bracket.
pub(crate) fn go_of(
    alloc: Global,
    actor: &Actor,
    task: &Task,
    made: &[Made],
) -> Result<Record, Memory>
    ensures { IfOk result
        (λ r. r ≡ go_of (job_of actor.now task.now) (mades_as (changes_of task.now) made.now)) }
{
    let names = names_of(alloc, task)?;
    let entries = decided(alloc, names.items(), made)?;
    Ok(Record {
        phase: Phase::Go,
        token: actor.token,
        moment: moment_of(task),
        entries,
    })
}

// The file of this name, with what was made for it.
fn made_item(alloc: Global, made: &[Made], name: &[u8]) -> Result<Item, Memory>
    ensures { IfOk result (λ x. (cs : List CoreChange)
        → item_as x ≡ made_item (mades_as cs made.now) name.now) }
{
    match made {
        [] => Ok(Item {
            name: Text::copy(alloc, name)?,
            way: Way::Replace,
            staged: None,
        }),
        [first, rest @ ..] => {
            if name == first.name.bytes() {
                Ok(Item {
                    name: Text::copy(alloc, name)?,
                    way: first.way,
                    staged: Some(Text::copy(alloc, first.content.bytes())?),
                })
            } else {
                made_item(alloc, rest, name)
            }
        }
    }
}

/// The files of a bracket, with what was made for them.
pub(crate) fn made_items(alloc: Global, task: &Task, made: &[Made]) -> Result<Items<Item>, Memory>
    ensures { IfOk result (λ xs. (a : Actor)
        → items_as xs ≡ made_items (job_of a task.now) (mades_as (changes_of task.now) made.now)) }
{
    let names = names_of(alloc, task)?;
    let mut list = Items::new(alloc);
    for name in names.items() {
        let item = made_item(alloc, made, name.bytes())?;
        list.push(item)?;
    }
    Ok(list)
}

// The line of a version.
fn version_line(moment: Option<i64>) -> &'static [u8]
    ensures { result.now ≡ version_line moment }
{
    match moment {
        None => b"mailx-commit 1\n",
        Some(_) => b"mailx-commit 2\n",
    }
}

/// The first three lines of the decision's text.
#[tactic(auto, unfolding(commit_machine::specs::Machine::go_front))]
pub(crate) fn go_front(alloc: Global, actor: &Actor, task: &Task) -> Result<Text, Memory>
    ensures { IfOk result
        (λ text. text ≡ go_front (moment_of (job_of actor.now task.now)) actor.now.token) }
{
    let digits = hex::encode(alloc, actor.token.to_be_bytes())?;
    let mut text = Text::copy(alloc, version_line(moment_of(task)))?;
    text.push(b"phase go\ntoken ")?;
    text.push(digits.as_bytes())?;
    text.push(b"\n")?;
    Ok(text)
}
