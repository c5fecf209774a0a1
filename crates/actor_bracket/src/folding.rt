// How far a bracket has come after an answer, and by all that happened.
ghost use Rattle.std.specs.Prelude.{◌≡◌, ◌∷◌, ◌++◌, [], false, List, IfOk, map};
ghost use Rattle.std.specs.Option.{option_copied};
ghost use Rattle.commit_machine.specs.Goes.{reply, seen_reply, went};
ghost use Rattle.commit_machine.specs.Items.{found_item};
ghost use Rattle.commit_machine.specs.Records.{record_of};
ghost use Rattle.core_steps.specs.declared.actor.Actor.{Actor};
ghost use Rattle.commit_machine.specs.Jobs.{Done, Failed, Job, seen_files};
ghost use Rattle.commit_machine.specs.Machine as machine;
ghost use Rattle.core_steps.specs.declared.change.CoreChange.{CoreChange};
ghost use Rattle.core_steps.specs.Changes.{edit_of};
ghost use Rattle.core_steps.specs.Tasks.{is_found, is_recovered, job_of, may_want, on_time, state_from, state_of};
ghost use Rattle.actor_bracket.specs.Stands.{changes_of, closing_as, edits_as, ending_as, found_as, items_as, lets_go, mades_as, passed_as, reply_as, state_as, then_as};

use crate::closing::{first_of, passed_at, placing, tested, undoing, went as closing_went};
use crate::editing::{changes_in, edit, refusal};
use crate::planning::{go_front, go_of, made_items, names_of, prepare_of};
use crate::stand::{Closing, Ending, Found, Item, Made, Passed, Refusal, Reply, Stand, Then};
use actor_ground::is_go;
use commit_machine::{record_name, right_name, staged_name};
use commit_record::{Entry, Record, RecordError, read, way_of};
use core_steps::{Actor, Past, Task};
use host_port::{Event, Seen};
use mail_text::{Items, Memory, Text};
use memory_disk::copy_found;
use std::alloc::Global;

fn failing(stand: &Stand) -> Stand
    ensures { (cs : List CoreChange) → state_as cs result
        ≡ machine.Releasing (Failed (machine.passed_at (state_as cs stand.now))) }
{
    Stand::Releasing(Ending::Failed(passed_at(stand)))
}

// The clean-up of the own record before a refusal.
fn refusing(
    alloc: Global,
    actor: &Actor,
    task: &Task,
    names: Items<Text>,
    locks: Items<Text>,
    why: Ending,
) -> Result<Stand, Memory>
    ensures { IfOk result (λ s. (cs : List CoreChange) → state_as cs s
        ≡ machine.refusing (job_of actor.now task.now) names locks (ending_as why)) }
{
    let value = prepare_of(alloc, actor, task)?;
    Ok(undoing(value, names, locks, Then::Answer(why)))
}

fn copy_made(alloc: Global, made: &Made) -> Result<Made, Memory>
    ensures { IfOk result (λ m. m ≡ made.now) }
{
    let name = Text::copy(alloc, made.name.bytes())?;
    let seen = copy_found(alloc, made.seen.as_ref())?;
    let content = Text::copy(alloc, made.content.bytes())?;
    Ok(Made {
        name,
        seen,
        way: made.way,
        content,
    })
}

fn copy_mades(alloc: Global, made: &[Made]) -> Result<Items<Made>, Memory>
    ensures { IfOk result (λ ms. ms ≡ made.now) }
{
    let mut copies = Items::new(alloc);
    for one in made {
        let copy = copy_made(alloc, one)?;
        copies.push(copy)?;
    }
    Ok(copies)
}

fn staging(names: Items<Text>, done: Items<Made>, left: Items<Made>) -> Stand
    ensures { (cs : List CoreChange) → state_as cs result
        ≡ machine.staging names (mades_as cs done) (mades_as cs left) }
{
    match first_of(left) {
        None => Stand::Deciding(done),
        Some((one, rest)) => Stand::Staging(names, done, one, rest),
    }
}

// Once all files are loaded.
fn judged(alloc: Global, actor: &Actor, task: &Task, done: Items<Made>) -> Result<Stand, Memory>
    ensures { IfOk result (λ s. state_as (changes_of task.now) s
        ≡ machine.judged (job_of actor.now task.now) (mades_as (changes_of task.now) done)
        ((job_of actor.now task.now).refusal (seen_files (mades_as (changes_of task.now) done)))) }
{
    match refusal(alloc, task, done.items())? {
        None => {
            let left = copy_mades(alloc, done.items())?;
            Ok(staging(Items::new(alloc), done, left))
        }
        Some(why) => {
            let locks = names_of(alloc, task)?;
            refusing(
                alloc,
                actor,
                task,
                Items::new(alloc),
                locks,
                Ending::Refused(why),
            )
        }
    }
}

fn loading(
    alloc: Global,
    actor: &Actor,
    task: &Task,
    done: Items<Made>,
    left: Items<Text>,
) -> Result<Stand, Memory>
    ensures { IfOk result (λ s. state_as (changes_of task.now) s
        ≡ machine.loading (job_of actor.now task.now) (mades_as (changes_of task.now) done)
        (edits_as (changes_of task.now) left)) }
{
    match first_of(left) {
        None => judged(alloc, actor, task, done),
        Some((name, rest)) => Ok(Stand::Loading(done, name, rest)),
    }
}

fn locking(
    alloc: Global,
    actor: &Actor,
    task: &Task,
    locks: Items<Text>,
    left: Items<Text>,
) -> Result<Stand, Memory>
    ensures { IfOk result (λ s. state_as (changes_of task.now) s
        ≡ machine.locking (job_of actor.now task.now) locks (edits_as (changes_of task.now) left)) }
{
    match first_of(left) {
        None => {
            let names = names_of(alloc, task)?;
            loading(alloc, actor, task, Items::new(alloc), names)
        }
        Some((name, rest)) => Ok(Stand::Locking(locks, name, rest)),
    }
}

// A file was loaded.
fn loaded(
    alloc: Global,
    actor: &Actor,
    task: &Task,
    done: Items<Made>,
    name: Text,
    left: Items<Text>,
    seen: Option<Text>,
) -> Result<Stand, Memory>
    ensures { let cs = changes_of task.now in IfOk result (λ s. state_as cs s
        ≡ machine.loaded (job_of actor.now task.now) (mades_as cs done) (edit_of cs name) (edits_as cs left) seen
        ((edit_of cs name).by seen)) }
{
    let mut done = done;
    let (way, content) = edit(alloc, changes_in(task), name.bytes(), seen.as_ref())?;
    done.push(Made {
        name,
        seen,
        way,
        content,
    })?;
    loading(alloc, actor, task, done, left)
}

// The entries of a record that was found, as they are put in place.
fn found_items(alloc: Global, entries: &[Entry]) -> Result<Items<Item>, Memory>
    ensures { IfOk result (λ xs. items_as xs ≡ map found_item entries.now) }
{
    let mut list = Items::new(alloc);
    for entry in entries {
        let name = Text::copy(alloc, entry.name.bytes())?;
        list.push(Item {
            name,
            way: way_of(entry),
            staged: None,
        })?;
    }
    Ok(list)
}

fn entry_names(alloc: Global, entries: &[Entry]) -> Result<Items<Text>, Memory>
    ensures { IfOk result (λ names. names ≡ map (λ e. e.name) entries.now) }
{
    let mut names = Items::new(alloc);
    for entry in entries {
        let name = Text::copy(alloc, entry.name.bytes())?;
        names.push(name)?;
    }
    Ok(names)
}

// A record stands.
fn mending(alloc: Global, value: Record) -> Result<Stand, Memory>
    ensures { IfOk result (λ s. (cs : List CoreChange) → state_as cs s ≡ machine.mending value) }
{
    let locks = entry_names(alloc, value.entries.items())?;
    if is_go(&value) {
        let list = found_items(alloc, value.entries.items())?;
        Ok(placing(value, list, locks, Then::GoOn))
    } else {
        let names = entry_names(alloc, value.entries.items())?;
        Ok(undoing(value, names, locks, Then::GoOn))
    }
}

/// The record that bytes are the text of, if they are that of one.
pub fn record_of(alloc: Global, bytes: &[u8]) -> Result<Option<Record>, Memory>
    ensures { IfOk result (λ found. found ≡ record_of bytes.now) }
{
    match read(alloc, bytes) {
        Ok(value) => Ok(Some(value)),
        Err(RecordError::NotARecord) => Ok(None),
        Err(RecordError::Memory) => Err(Memory),
    }
}

fn record_seen(alloc: Global, found: Option<Record>) -> Result<Stand, Memory>
    ensures { IfOk result (λ s. (cs : List CoreChange) → state_as cs s ≡ machine.record_seen found) }
{
    match found {
        None => Ok(Stand::Releasing(Ending::Refused(Refusal::NotARecord))),
        Some(value) => mending(alloc, value),
    }
}

fn none_stands(task: &Task) -> Stand
    ensures { (cs : List CoreChange) (a : Actor) → state_as cs result
        ≡ machine.none_stands (job_of a task.now).edits }
{
    match task {
        Task::Commit { .. } => Stand::Preparing,
        Task::Recover => Stand::Clearing(Found::Nothing),
    }
}

// What stands as the record was loaded.
fn looked(alloc: Global, task: &Task, file: Option<Text>) -> Result<Stand, Memory>
    ensures { IfOk result (λ s. (cs : List CoreChange) (a : Actor) → state_as cs s
        ≡ machine.looked (job_of a task.now) file) }
{
    match file {
        None => Ok(none_stands(task)),
        Some(text) => {
            let found = record_of(alloc, text.bytes())?;
            record_seen(alloc, found)
        }
    }
}

fn asking(task: &Task) -> Stand
    ensures { (cs : List CoreChange) (a : Actor) → state_as cs result
        ≡ machine.asking (job_of a task.now).time }
{
    match task {
        Task::Commit { moment, .. } => Stand::Timing(*moment),
        Task::Recover => Stand::Looking,
    }
}

// Once the right was tried for.
fn seized(alloc: Global, actor: &Actor, task: &Task, did: bool) -> Result<Stand, Memory>
    ensures { IfOk result (λ s. (cs : List CoreChange) → state_as cs s
        ≡ machine.went_on (job_of actor.now task.now) machine.Seizing did) }
{
    if did {
        Ok(asking(task))
    } else {
        let name = right_name(alloc, actor.name.bytes())?;
        Ok(Stand::Ended(Ending::Refused(Refusal::Busy(name))))
    }
}

fn cleared(task: &Task, found: Found) -> Stand
    ensures { (cs : List CoreChange) (a : Actor) → state_as cs result
        ≡ machine.mended (job_of a task.now).edits (found_as found) }
{
    match task {
        Task::Commit { .. } => Stand::Preparing,
        Task::Recover => Stand::Releasing(Ending::Recovered(found)),
    }
}

// Once the own record was to take its place.
fn published(alloc: Global, actor: &Actor, task: &Task, did: bool) -> Result<Stand, Memory>
    ensures { IfOk result (λ s. state_as (changes_of task.now) s
        ≡ machine.went_on (job_of actor.now task.now) machine.Publishing did) }
{
    if did {
        let names = names_of(alloc, task)?;
        locking(alloc, actor, task, Items::new(alloc), names)
    } else {
        Ok(Stand::Releasing(Ending::Refused(Refusal::NotARecord)))
    }
}

// Once a lock was tried for.
fn locked(
    alloc: Global,
    actor: &Actor,
    task: &Task,
    locks: Items<Text>,
    name: Text,
    left: Items<Text>,
    did: bool,
) -> Result<Stand, Memory>
    ensures { let cs = changes_of task.now in IfOk result (λ s. state_as cs s
        ≡ machine.went_on (job_of actor.now task.now) (machine.Locking locks (edit_of cs name) (edits_as cs left)) did) }
{
    if did {
        let mut locks = locks;
        locks.push(name)?;
        locking(alloc, actor, task, locks, left)
    } else {
        let why = Ending::Refused(Refusal::Busy(name));
        refusing(alloc, actor, task, Items::new(alloc), locks, why)
    }
}

// Once a file was staged.
fn staged(
    alloc: Global,
    names: Items<Text>,
    done: Items<Made>,
    one: Made,
    left: Items<Made>,
) -> Result<Stand, Memory>
    ensures { IfOk result (λ s. (cs : List CoreChange) → state_as cs s
        ≡ machine.staging (names ++ one.name ∷ []) (mades_as cs done) (mades_as cs left)) }
{
    let mut names = names;
    let name = Text::copy(alloc, one.name.bytes())?;
    names.push(name)?;
    Ok(staging(names, done, left))
}

// Once the record of the decision was to take its place.
fn committed(
    alloc: Global,
    actor: &Actor,
    task: &Task,
    done: Items<Made>,
    did: bool,
) -> Result<Stand, Memory>
    ensures { let cs = changes_of task.now in IfOk result (λ s. state_as cs s
        ≡ machine.went_on (job_of actor.now task.now) (machine.Committing (mades_as cs done)) did) }
{
    if did {
        let value = go_of(alloc, actor, task, done.items())?;
        let list = made_items(alloc, task, done.items())?;
        let locks = names_of(alloc, task)?;
        Ok(placing(value, list, locks, Then::Answer(Ending::Done)))
    } else {
        Ok(Stand::Releasing(Ending::Refused(Refusal::NotARecord)))
    }
}

// After a call that was answered `did`.
fn went(alloc: Global, actor: &Actor, task: &Task, stand: Stand, did: bool) -> Result<Stand, Memory>
    ensures { IfOk result (λ s. state_as (changes_of task.now) s
        ≡ machine.went_on (job_of actor.now task.now) (state_as (changes_of task.now) stand) did) }
{
    match stand {
        Stand::Seizing => seized(alloc, actor, task, did),
        Stand::Timing(_) => Ok(Stand::Looking),
        Stand::Closing(value, closing, then) => Ok(closing_went(value, closing, then)),
        Stand::Clearing(found) => Ok(cleared(task, found)),
        Stand::Preparing => Ok(Stand::Publishing),
        Stand::Publishing => published(alloc, actor, task, did),
        Stand::Locking(locks, name, left) => { locked(alloc, actor, task, locks, name, left, did) }
        Stand::Staging(names, done, one, left) => staged(alloc, names, done, one, left),
        Stand::Deciding(done) => Ok(Stand::Committing(done)),
        Stand::Committing(done) => committed(alloc, actor, task, done, did),
        Stand::Releasing(end) => Ok(Stand::Ended(end)),
        stand => Ok(failing(&stand)),
    }
}

// Whether what was loaded as the record is that of the own decision.
fn passed_by(
    alloc: Global,
    actor: &Actor,
    task: &Task,
    file: Option<&Text>,
) -> Result<Passed, Memory>
    ensures { IfOk result (λ p. passed_as p
        ≡ machine.passed_by (job_of actor.now task.now) (option_copied file.entry)) }
{
    let Some(text) = file else {
        return Ok(Passed::Before);
    };
    let front = go_front(alloc, actor, task)?;
    if text.bytes().starts_with(front.bytes()) {
        Ok(Passed::After)
    } else {
        Ok(Passed::Before)
    }
}

// After a load for a record that is being done with, which saw this.
fn closing_saw(value: Record, closing: Closing, then: Then, file: Option<Text>) -> Stand
    ensures { (cs : List CoreChange) (j : Job) → state_as cs result
        ≡ machine.saw j (closing_as value closing (then_as then)) file }
{
    match closing {
        Closing::Testing(item, rest, locks) => tested(value, item, rest, locks, file),
        closing => failing(&Stand::Closing(value, closing, then)),
    }
}

// After a load that saw this.
fn saw(
    alloc: Global,
    actor: &Actor,
    task: &Task,
    stand: Stand,
    file: Option<Text>,
) -> Result<Stand, Memory>
    ensures { IfOk result (λ s. state_as (changes_of task.now) s
        ≡ machine.saw (job_of actor.now task.now) (state_as (changes_of task.now) stand) file) }
{
    match stand {
        Stand::Looking => looked(alloc, task, file),
        Stand::Closing(value, closing, then) => Ok(closing_saw(value, closing, then, file)),
        Stand::Loading(done, name, left) => { loaded(alloc, actor, task, done, name, left, file) }
        Stand::Checking => {
            let passed = passed_by(alloc, actor, task, file.as_ref())?;
            Ok(Stand::Releasing(Ending::Failed(passed)))
        }
        stand => Ok(failing(&stand)),
    }
}

// After a load for a record that is being done with, which met so many bytes.
fn closing_long(
    alloc: Global,
    value: Record,
    closing: Closing,
    then: Then,
    length: u64,
) -> Result<Stand, Memory>
    ensures { IfOk result (λ s. (cs : List CoreChange) (j : Job) → state_as cs s
        ≡ machine.too_long j (closing_as value closing (then_as then)) length) }
{
    match closing {
        Closing::Testing(item, _, _) => {
            let name = staged_name(alloc, value.token, item.name.bytes())?;
            Ok(Stand::Releasing(Ending::Refused(Refusal::TooLarge(name, length))))
        }
        closing => Ok(failing(&Stand::Closing(value, closing, then))),
    }
}

// After a load that met so many bytes.
fn long(
    alloc: Global,
    actor: &Actor,
    task: &Task,
    stand: Stand,
    length: u64,
) -> Result<Stand, Memory>
    ensures { IfOk result (λ s. state_as (changes_of task.now) s
        ≡ machine.too_long (job_of actor.now task.now) (state_as (changes_of task.now) stand) length) }
{
    match stand {
        Stand::Looking => {
            let name = record_name(alloc, actor.name.bytes())?;
            Ok(Stand::Releasing(Ending::Refused(Refusal::TooLarge(name, length))))
        }
        Stand::Closing(value, closing, then) => closing_long(alloc, value, closing, then, length),
        Stand::Loading(_, name, _) => {
            let why = Ending::Refused(Refusal::TooLarge(name, length));
            let locks = names_of(alloc, task)?;
            refusing(alloc, actor, task, Items::new(alloc), locks, why)
        }
        stand => Ok(failing(&stand)),
    }
}

// Whether nothing has been locked or staged for the bracket at this step, and it isn't about to take its right.
fn lets_go(stand: &Stand) -> bool
    ensures { (cs : List CoreChange) → result ≡ lets_go (state_as cs stand.now) }
{
    match stand {
        Stand::Closing(_, Closing::Testing(..), _) => true,
        Stand::Closing(_, _, then) => is_found(then),
        Stand::Timing(_)
        | Stand::Looking
        | Stand::Clearing(_)
        | Stand::Preparing
        | Stand::Publishing => true,
        _ => false,
    }
}

fn is_found(then: &Then) -> bool
    ensures { result ≡ is_found (then_as then.now) }
{
    match then {
        Then::GoOn => true,
        Then::Answer(_) => false,
    }
}

// Memory runs out once something may be locked or staged for the bracket.
fn refused_late(alloc: Global, actor: &Actor, task: &Task, stand: Stand) -> Result<Stand, Memory>
    requires { lets_go (state_as (changes_of task.now) stand) ≡ false }
    ensures { IfOk result (λ s. state_as (changes_of task.now) s
        ≡ machine.refused (job_of actor.now task.now) (state_as (changes_of task.now) stand)) }
{
    match stand {
        Stand::Seizing => Ok(Stand::Ended(Ending::NoMemory)),
        Stand::Locking(locks, _, _) => {
            refusing(
                alloc,
                actor,
                task,
                Items::new(alloc),
                locks,
                Ending::NoMemory,
            )
        }
        Stand::Loading(_, _, _) => {
            let locks = names_of(alloc, task)?;
            refusing(
                alloc,
                actor,
                task,
                Items::new(alloc),
                locks,
                Ending::NoMemory,
            )
        }
        Stand::Staging(names, _, _, _) => {
            let locks = names_of(alloc, task)?;
            refusing(alloc, actor, task, names, locks, Ending::NoMemory)
        }
        Stand::Deciding(_) | Stand::Committing(_) => {
            let names = names_of(alloc, task)?;
            let locks = names_of(alloc, task)?;
            refusing(alloc, actor, task, names, locks, Ending::NoMemory)
        }
        stand => Ok(stand),
    }
}

/// How far a bracket has come, once it wanted memory.
pub(crate) fn refused(
    alloc: Global,
    actor: &Actor,
    task: &Task,
    stand: Stand,
) -> Result<Stand, Memory>
    ensures { IfOk result (λ s. state_as (changes_of task.now) s
        ≡ machine.refused (job_of actor.now task.now) (state_as (changes_of task.now) stand)) }
{
    if lets_go(&stand) {
        Ok(Stand::Releasing(Ending::NoMemory))
    } else {
        refused_late(alloc, actor, task, stand)
    }
}

// After a load for which memory ran out.
fn short(alloc: Global, actor: &Actor, task: &Task, stand: Stand) -> Result<Stand, Memory>
    ensures { IfOk result (λ s. state_as (changes_of task.now) s
        ≡ machine.wanted (job_of actor.now task.now) (state_as (changes_of task.now) stand)) }
{
    match stand {
        Stand::Checking => Ok(Stand::Releasing(Ending::Failed(Passed::Unknown))),
        stand => {
            let stand = refused(alloc, actor, task, stand)?;
            Ok(stand)
        }
    }
}

// After a call that failed.
fn fault(stand: Stand) -> Stand
    ensures { (cs : List CoreChange) → state_as cs result ≡ machine.faulted (state_as cs stand) }
{
    match stand {
        Stand::Committing(_) => Stand::Checking,
        stand => failing(&stand),
    }
}

// The answer of a call that was done or not, and failed or not.
fn went_reply(done: bool, failed: bool) -> Reply
    ensures { reply_as result ≡ went done failed }
{
    if failed {
        Reply::Fault
    } else {
        Reply::Went(done)
    }
}

// What a load answers.
fn seen_reply(alloc: Global, seen: &Seen) -> Result<Reply, Memory>
    ensures { IfOk result (λ r. reply_as r ≡ seen_reply seen.now) }
{
    match seen {
        Seen::Bytes { bytes, .. } => Ok(Reply::Saw(copy_found(alloc, bytes.as_ref())?)),
        Seen::TooLarge { length } => Ok(Reply::Long(*length)),
        Seen::Failed => Ok(Reply::Fault),
        Seen::Memory => Ok(Reply::Short),
    }
}

// What an event answers.
fn reply_of(alloc: Global, event: &Event) -> Result<Reply, Memory>
    ensures { IfOk result (λ r. reply_as r ≡ reply event.now) }
{
    match event {
        Event::Load { seen, .. } => seen_reply(alloc, seen),
        Event::Stage { failed, .. } | Event::Extend { failed, .. } => Ok(went_reply(true, *failed)),
        Event::Publish { done, failed, .. }
        | Event::Erase { done, failed, .. }
        | Event::Unlock { done, failed, .. } => Ok(went_reply(*done, *failed)),
        Event::Lock { got, failed, .. } | Event::Seize { got, failed, .. } => {
            Ok(went_reply(*got, *failed))
        }
        _ => Ok(Reply::Went(true)),
    }
}

// After an answer.
fn after_reply(
    alloc: Global,
    actor: &Actor,
    task: &Task,
    stand: Stand,
    reply: Reply,
) -> Result<Stand, Memory>
    ensures { IfOk result (λ s. state_as (changes_of task.now) s
        ≡ machine.after_reply (job_of actor.now task.now) (state_as (changes_of task.now) stand) (reply_as reply)) }
{
    match reply {
        Reply::Went(did) => went(alloc, actor, task, stand, did),
        Reply::Saw(file) => saw(alloc, actor, task, stand, file),
        Reply::Long(length) => long(alloc, actor, task, stand, length),
        Reply::Short => short(alloc, actor, task, stand),
        Reply::Fault => Ok(fault(stand)),
    }
}

// The time is known from the start, so it isn't asked for.
fn on_time(stand: Stand) -> Stand
    ensures { (cs : List CoreChange) → state_as cs result ≡ on_time (state_as cs stand) }
{
    match stand {
        Stand::Timing(_) => Stand::Looking,
        stand => stand,
    }
}

/// How far a bracket has come, once its call was this event.
pub(crate) fn after_event(
    alloc: Global,
    actor: &Actor,
    task: &Task,
    stand: Stand,
    event: &Event,
) -> Result<Stand, Memory>
    ensures { IfOk result (λ s. state_as (changes_of task.now) s
        ≡ on_time (machine.after_reply (job_of actor.now task.now) (state_as (changes_of task.now) stand) (reply event.now))) }
{
    let reply = reply_of(alloc, event)?;
    let stand = after_reply(alloc, actor, task, stand, reply)?;
    Ok(on_time(stand))
}

// How far it has come, once this happened.
fn after_past(
    alloc: Global,
    actor: &Actor,
    task: &Task,
    stand: Stand,
    one: &Past,
) -> Result<Stand, Memory>
    ensures { IfOk result (λ s. state_as (changes_of task.now) s
        ≡ state_from (job_of actor.now task.now) (state_as (changes_of task.now) stand) (one.now ∷ [])) }
{
    match one {
        Past::Shown(event) => after_event(alloc, actor, task, stand, event),
        Past::Wanted => refused(alloc, actor, task, stand),
    }
}

/// How far a bracket has come, by all that happened in it.
pub(crate) fn replayed(
    alloc: Global,
    actor: &Actor,
    task: &Task,
    past: &[Past],
) -> Result<Stand, Memory>
    ensures { IfOk result (λ s. state_as (changes_of task.now) s ≡ state_of actor.now task.now past.now) }
{
    let mut stand = Stand::Seizing;
    for one in past {
        stand = after_past(alloc, actor, task, stand, one)?;
    }
    Ok(stand)
}

// Whether a bracket ends as a recovery that is done.
fn is_recovered(end: &Ending) -> bool
    ensures { result ≡ is_recovered (ending_as end.now) }
{
    match end {
        Ending::Recovered(_) => true,
        Ending::Done | Ending::Refused(_) | Ending::Failed(_) | Ending::NoMemory => false,
    }
}

/// Whether memory may be wanted in place of the next call.
pub(crate) fn may_want(stand: &Stand) -> bool
    ensures { (cs : List CoreChange) → result ≡ may_want (state_as cs stand.now) }
{
    match stand {
        Stand::Closing(_, Closing::Testing(..), _) => true,
        Stand::Closing(_, _, then) => is_found(then),
        Stand::Releasing(end) => is_recovered(end),
        Stand::Checking | Stand::Ended(_) => false,
        _ => true,
    }
}
