// A step of one actor: what it does next, what stands then, and the commit place that it passes.
ghost use Rattle.std.specs.Prelude.{◌≡◌, ◌<◌, ◌&&◌, [], true, false, not, Bool, ℕ, List, Some, IfOk, OnOk, length, map, nat_le, nat_lt, slice_get};
ghost use Rattle.std.specs.List.{list_all};
ghost use Rattle.commit_record.specs.Format.{file_limit};
ghost use Rattle.host_port.specs.declared.event.Event.TheVariants.{Publish};
ghost use Rattle.host_port.specs.Disk.{after};
ghost use Rattle.host_port.specs.Ends.{ended};
ghost use Rattle.memory_disk.specs.Lists.{named};
ghost use Rattle.memory_disk.specs.Standings.{disk_now};
ghost use Rattle.commit_machine.specs.Due.{is_decision};
ghost use Rattle.commit_machine.specs.Jobs.{Job};
ghost use Rattle.commit_machine.specs.Laws.{is_foreign};
ghost use Rattle.commit_machine.specs.Machine as machine;
ghost use Rattle.commit_machine.specs.Names.{right_name};
ghost use Rattle.commit_machine.specs.Records.{record_in};
ghost use Rattle.core_steps.specs.declared.actor.Doing.{Doing};
ghost use Rattle.core_steps.specs.declared.actor.Doing.TheVariants.{Bracket, Nothing, Stopped};
ghost use Rattle.core_steps.specs.declared.actor.Member.{Member};
ghost use Rattle.core_steps.specs.declared.actor.Past.{Past};
ghost use Rattle.core_steps.specs.declared.actor.Past.TheVariants.{Shown, Wanted};
ghost use Rattle.core_steps.specs.declared.actor.Task.{Task};
ghost use Rattle.core_steps.specs.declared.actor.Task.TheVariants.{Commit};
ghost use Rattle.core_steps.specs.declared.change.CoreChange.{CoreChange};
ghost use Rattle.core_steps.specs.declared.step.StepKind.TheVariants as kind;
ghost use Rattle.core_steps.specs.Cores.{CoreDisk, seen_by};
ghost use Rattle.core_steps.specs.Names.{is_file_name};
ghost use Rattle.core_steps.specs.Tasks.{job_of, state_of};
ghost use Rattle.core_steps.specs.Turns.{is_any_record_name, may_commit, passed_at, shown, staying, turn_of, turn_outside, wanting};
ghost use Rattle.actor_disk.specs.Seeing.{shown_disk};
ghost use Rattle.actor_bracket.specs.Going.{doing_goes};
ghost use Rattle.actor_bracket.specs.Stands.{Writes};
ghost use Rattle.actor_core.specs.Turning.{Asks, Tells, Turns, TurnsTo, allowed, asked_turn, doing_next, ended_as, is_allowed, passed_there, told_turn};

use actor_bracket::{
    Goes, copy_changes, files_named, goes_after, goes_wanting, next_call, record_of,
};
use actor_disk::{Lists, fail, happen, happen_last, may_fail, seen_by};
use actor_ground::is_go;
use commit_machine::{is_record_name, new_name, record_name, right_name};
use commit_record::{FILE_LIMIT, is_lawful};
use core_steps::{Actor, CoreChange, CoreStep, Doing, Member, Past, StepKind, Task};
use host_port::Event;
use mail_text::{Items, Memory, Text};
use memory_disk::{Named, Standing, carry_out, cut};
use std::alloc::Global;

/// What an actor does after a step.
#[derive(Drop)]
pub(crate) enum Next {
    /// It begins.
    Begins(Task),
    /// It goes on, and this happened.
    GoesOn(Past),
    /// It is through.
    Through,
    /// It has stopped.
    Stops,
}

/// What a step leaves: what the actor does next, what stands then if it made a call, and the commit place that it passed.
#[derive(Drop)]
pub(crate) struct Turn {
    pub doing: Next,
    pub there: Option<Lists>,
    pub passed: Option<(u64, Items<CoreChange>)>,
}

/// What stands after an event, the commit place that it was, if it was one, and how the bracket goes on.
#[derive(Drop)]
pub(crate) struct Told {
    pub there: Lists,
    pub passed: Option<(u64, Items<CoreChange>)>,
    pub goes: Goes,
}

// Whether a file is the decided record of this token.
fn is_own_go(alloc: Global, files: &Named<Text>, name: &[u8], token: u64) -> Result<bool, Memory>
    ensures { IfOk result
        (λ b. (j : Job) → j.token ≡ token → b ≡ machine.is_own_go j (record_in (named files.now name.now))) }
{
    let Some(text) = files.get(name) else {
        return Ok(false);
    };
    match record_of(alloc, text.bytes())? {
        None => Ok(false),
        Some(value) => Ok(is_go(&value) && value.token == token),
    }
}

// Whether a publication of an actor, which was done or not, is the decision.
fn decides(
    alloc: Global,
    actor: &Actor,
    from: &[u8],
    to: &[u8],
    done: bool,
    disk: &Standing,
) -> Result<bool, Memory>
    ensures { IfOk result (λ b. (j : Job) (failed : Bool) → j.actor ≡ actor.now.name → j.token ≡ actor.now.token
        → b ≡ is_decision j (Publish from.now to.now done failed) (disk_now disk.now)) }
{
    if !done {
        return Ok(false);
    }
    let new = new_name(alloc, actor.name.bytes())?;
    let record = record_name(alloc, actor.name.bytes())?;
    if from == new.bytes() && to == record.bytes() {
        is_own_go(alloc, &disk.files, new.bytes(), actor.token)
    } else {
        Ok(false)
    }
}

// Whether an event of an actor is.
fn is_decision(alloc: Global, actor: &Actor, event: &Event, disk: &Standing) -> Result<bool, Memory>
    ensures { IfOk result (λ b. (j : Job) → j.actor ≡ actor.now.name → j.token ≡ actor.now.token
        → b ≡ is_decision j event.now (disk_now disk.now)) }
{
    match event {
        Event::Publish { from, to, done, .. } => {
            let decides = decides(alloc, actor, from.bytes(), to.bytes(), *done, disk)?;
            Ok(decides)
        }
        _ => Ok(false),
    }
}

// The commit place that an event is on this disk, if it is one.
fn passed_at(
    alloc: Global,
    actor: &Actor,
    task: &Task,
    event: &Event,
    disk: &Standing,
) -> Result<Option<(u64, Items<CoreChange>)>, Memory>
    ensures { IfOk result
        (λ p. passed_there p ≡ passed_at actor.now task.now event.now (disk_now disk.now)) }
{
    match task {
        Task::Recover => Ok(None),
        Task::Commit { changes, .. } => {
            if is_decision(alloc, actor, event, disk)? {
                let changes = copy_changes(alloc, changes.items())?;
                Ok(Some((actor.token, changes)))
            } else {
                Ok(None)
            }
        }
    }
}

// What an actor does next whose bracket goes on so, in which this happened.
fn next_of(goes: Goes, past: Past) -> Next
    ensures { (old : Doing) → doing_next old result ≡ doing_goes old past goes }
{
    match goes {
        Goes::On => Next::GoesOn(past),
        Goes::Through => Next::Through,
        Goes::Stops => Next::Stops,
    }
}

// A call that was this event.
fn tell_call(
    alloc: Global,
    lists: &Lists,
    number: u64,
    actor: &Actor,
    task: &Task,
    past: &[Past],
    disk: &mut Standing,
    event: &Event,
) -> Result<Told, Memory>
    requires seen { disk_now disk.old ≡ seen_by number (shown_disk lists.now) }
    requires own { is_foreign event.now ≡ false }
    ensures { IfOk result (λ h. Tells number (shown_disk lists.now) (Bracket task.now past.now) (Shown event.now) h
        (shown actor.now task.now past.now (seen_by number (shown_disk lists.now)) event.now)) }
{
    let goes = goes_after(alloc, actor, task, past, event)?;
    let passed = passed_at(alloc, actor, task, event, disk)?;
    let there = happen(alloc, lists, disk, event, number)?;
    Ok(Told {
        there,
        passed,
        goes,
    })
}

// A stop inside a call, which is cut short to this event.
fn tell_stop(
    alloc: Global,
    lists: &Lists,
    number: u64,
    actor: &Actor,
    task: &Task,
    disk: &mut Standing,
    event: &Event,
) -> Result<Told, Memory>
    requires seen { disk_now disk.old ≡ seen_by number (shown_disk lists.now) }
    requires own { is_foreign event.now ≡ false }
    ensures { IfOk result (λ h. (old : Doing) → let s = seen_by number (shown_disk lists.now) in
        Tells number (shown_disk lists.now) old (Shown event.now) h
        (record { doing = Stopped; disk = ended (after s event.now); passed = passed_at actor.now task.now event.now s })) }
{
    let passed = passed_at(alloc, actor, task, event, disk)?;
    let there = happen_last(alloc, lists, disk, event, number)?;
    Ok(Told {
        there,
        passed,
        goes: Goes::Stops,
    })
}

// Makes an event of what was asked: carried out, failing, or cut short, as a step has it.
fn end(alloc: Global, disk: &Standing, event: &mut Event, kind: &StepKind) -> Result<(), Memory>
    ensures { OnOk result (event.new ≡ ended_as (disk_now disk.now) kind.now event.old) }
{
    match kind {
        StepKind::Fail(part) => fail(alloc, disk, event, part),
        StepKind::Stop(part) => cut(alloc, disk, event, part),
        _ => {
            carry_out(disk, event);
            Ok(())
        }
    }
}

// A step in which a call was this event.
fn tell(
    alloc: Global,
    lists: &Lists,
    number: u64,
    actor: &Actor,
    task: &Task,
    past: &[Past],
    disk: &mut Standing,
    event: &Event,
    kind: &StepKind,
) -> Result<Told, Memory>
    requires seen { disk_now disk.old ≡ seen_by number (shown_disk lists.now) }
    requires own { is_foreign event.now ≡ false }
    ensures { IfOk result (λ h. Tells number (shown_disk lists.now) (Bracket task.now past.now) (Shown event.now) h
        (told_turn actor.now task.now past.now kind.now (seen_by number (shown_disk lists.now)) event.now)) }
{
    match kind {
        StepKind::Stop(_) => {
            let told = tell_stop(alloc, lists, number, actor, task, disk, event)?;
            Ok(told)
        }
        _ => {
            let told = tell_call(alloc, lists, number, actor, task, past, disk, event)?;
            Ok(told)
        }
    }
}

// Whether a step is allowed in a bracket, if memory may be wanted or not, and the call may fail or not.
fn is_allowed(kind: &StepKind, may_want: bool, may_fail: bool) -> bool
    ensures { result ≡ is_allowed kind.now may_want may_fail }
{
    match kind {
        StepKind::Commit { .. } | StepKind::Recover => false,
        StepKind::Call | StepKind::Stop(_) => true,
        StepKind::Refuse => may_want,
        StepKind::Fail(_) => may_fail,
    }
}

// What is asked, if a step of this kind is allowed then.
fn allowed(asked: Option<Event>, kind: &StepKind, may_want: bool) -> Option<Event>
    ensures { result ≡ allowed kind.now may_want asked }
{
    match asked {
        None => None,
        Some(event) => {
            if is_allowed(kind, may_want, may_fail(&event)) {
                Some(event)
            } else {
                None
            }
        }
    }
}

// What is asked of the disk by the call in a bracket that a step of this kind is about; none if it isn't allowed.
fn ask(
    alloc: Global,
    actor: &Actor,
    task: &Task,
    past: &[Past],
    disk: &Standing,
    kind: &StepKind,
) -> Result<Option<Event>, Memory>
    requires { Writes (job_of actor.now task.now) (state_of actor.now task.now past.now) }
    ensures { IfOk result (λ o. Asks (disk_now disk.now) actor.now task.now past.now kind.now o) }
{
    let next = next_call(alloc, actor, task, past, disk)?;
    Ok(allowed(next.event, kind, next.may_want))
}

// A want of memory.
fn want(alloc: Global, actor: &Actor, task: &Task, past: &[Past]) -> Result<Turn, Memory>
    ensures { IfOk result (λ t. (k : ℕ) (d : CoreDisk)
        → Turns k d (Bracket task.now past.now) t (wanting actor.now task.now past.now (seen_by k d))) }
{
    let goes = goes_wanting(alloc, actor, task, past)?;
    Ok(Turn {
        doing: next_of(goes, Past::Wanted),
        there: None,
        passed: None,
    })
}

// A call in a bracket that was asked so, and ends as the step has it.
fn call(
    alloc: Global,
    lists: &Lists,
    number: u64,
    actor: &Actor,
    task: &Task,
    past: &[Past],
    disk: &mut Standing,
    mut event: Event,
    kind: &StepKind,
) -> Result<Turn, Memory>
    requires seen { disk_now disk.old ≡ seen_by number (shown_disk lists.now) }
    requires own { is_foreign event ≡ false }
    ensures { let s = seen_by number (shown_disk lists.now) in
        IfOk result (λ t. Turns number (shown_disk lists.now) (Bracket task.now past.now) t
        (told_turn actor.now task.now past.now kind.now s (ended_as s kind.now event))) }
{
    end(alloc, disk, &mut event, kind)?;
    let told = tell(alloc, lists, number, actor, task, past, disk, &event, kind)?;
    Ok(Turn {
        doing: next_of(told.goes, Past::Shown(event)),
        there: Some(told.there),
        passed: told.passed,
    })
}

// A step in a bracket that is allowed, whose call asks this of the disk.
fn turn_asked(
    alloc: Global,
    lists: &Lists,
    number: u64,
    actor: &Actor,
    task: &Task,
    past: &[Past],
    disk: &mut Standing,
    event: Event,
    kind: &StepKind,
) -> Result<Turn, Memory>
    requires seen { disk_now disk.old ≡ seen_by number (shown_disk lists.now) }
    requires own { is_foreign event ≡ false }
    ensures { let s = seen_by number (shown_disk lists.now) in
        IfOk result (λ t. Turns number (shown_disk lists.now) (Bracket task.now past.now) t
        (asked_turn actor.now task.now past.now kind.now s event)) }
{
    match kind {
        StepKind::Refuse => {
            let turn = want(alloc, actor, task, past)?;
            Ok(turn)
        }
        _ => {
            let turn = call(alloc, lists, number, actor, task, past, disk, event, kind)?;
            Ok(turn)
        }
    }
}

/// A step in a bracket; none if it isn't allowed.
pub(crate) fn turn_inside(
    alloc: Global,
    lists: &Lists,
    number: u64,
    actor: &Actor,
    task: &Task,
    past: &[Past],
    kind: &StepKind,
) -> Result<Option<Turn>, Memory>
    requires { Writes (job_of actor.now task.now) (state_of actor.now task.now past.now) }
    ensures { IfOk result (λ t. TurnsTo number (shown_disk lists.now) (Bracket task.now past.now) t
        (turn_of [] actor.now (Bracket task.now past.now) kind.now (seen_by number (shown_disk lists.now)))) }
{
    let mut disk = seen_by(alloc, lists, number)?;
    match ask(alloc, actor, task, past, &disk, kind)? {
        None => Ok(None),
        Some(event) => {
            let turn = turn_asked(
                alloc, lists, number, actor, task, past, &mut disk, event, kind,
            )?;
            Ok(Some(turn))
        }
    }
}

// Whether a name is a record name of one of these actors.
fn names_a_record(members: &[Member], name: &[u8]) -> bool
    ensures { result ≡ is_any_record_name (map (λ m. m.actor) members.now) name.now }
{
    match members {
        [] => false,
        [first, rest @ ..] => {
            is_record_name(first.actor.name.bytes(), name) || names_a_record(rest, name)
        }
    }
}

// Whether a commit of an actor may change a file of this name.
fn is_free(members: &[Member], actor: &[u8], right: &[u8], name: &[u8]) -> bool
    requires { right.now ≡ right_name actor.now }
    ensures { result ≡ (is_file_name actor.now name.now
        && not (is_any_record_name (map (λ m. m.actor) members.now) name.now)) }
{
    is_lawful(name)
        && !is_record_name(actor, name)
        && name != right
        && !names_a_record(members, name)
}

// Whether it may change files of these names.
fn are_free(members: &[Member], actor: &[u8], right: &[u8], names: &[Text]) -> bool
    requires { right.now ≡ right_name actor.now }
    ensures { result ≡ list_all (λ n. is_file_name actor.now n
        && not (is_any_record_name (map (λ m. m.actor) members.now) n)) names.now }
{
    match names {
        [] => true,
        [first, rest @ ..] => {
            is_free(members, actor, right, first.bytes()) && are_free(members, actor, right, rest)
        }
    }
}

// Whether there are changes, and not too many files.
fn are_some(changes: usize, files: usize) -> bool
    ensures { result ≡ (nat_lt 0 changes && nat_le files file_limit) }
{
    0 < changes && files <= FILE_LIMIT
}

// Whether an actor may commit these changes.
fn may_commit(
    alloc: Global,
    members: &[Member],
    actor: &Actor,
    changes: &[CoreChange],
) -> Result<bool, Memory>
    ensures { IfOk result (λ b. b ≡ may_commit (map (λ m. m.actor) members.now) actor.now changes.now) }
{
    let names = files_named(alloc, changes)?;
    let right = right_name(alloc, actor.name.bytes())?;
    let some = are_some(changes.len(), names.items().len());
    let free = are_free(members, actor.name.bytes(), right.bytes(), names.items());
    Ok(some && free)
}

// A step without a call.
fn only(doing: Next) -> Turn
    ensures { (k : ℕ) (d : CoreDisk) (old next : Doing) → doing_next old doing ≡ next
        → Turns k d old result (staying (seen_by k d) next) }
{
    Turn {
        doing,
        there: None,
        passed: None,
    }
}

// A commit of these changes.
fn commit_of(changes: Items<CoreChange>, moment: &i64) -> Task
    ensures { result ≡ Commit changes moment.now }
{
    Task::Commit {
        changes,
        moment: *moment,
    }
}

// The begin of a commit; none if it isn't allowed.
fn begin(
    alloc: Global,
    members: &[Member],
    actor: &Actor,
    changes: &[CoreChange],
    moment: &i64,
) -> Result<Option<Turn>, Memory>
    ensures { IfOk result (λ t. (k : ℕ) (d : CoreDisk) → TurnsTo k d Nothing t
        (turn_outside (map (λ m. m.actor) members.now) actor.now (kind.Commit changes.now moment.now) (seen_by k d))) }
{
    if !may_commit(alloc, members, actor, changes)? {
        return Ok(None);
    }
    let changes = copy_changes(alloc, changes)?;
    let task = commit_of(changes, moment);
    Ok(Some(only(Next::Begins(task))))
}

/// A step outside a bracket; none if it isn't allowed.
pub(crate) fn turn_outside(
    alloc: Global,
    members: &[Member],
    actor: &Actor,
    kind: &StepKind,
) -> Result<Option<Turn>, Memory>
    ensures { IfOk result (λ t. (k : ℕ) (d : CoreDisk) → TurnsTo k d Nothing t
        (turn_outside (map (λ m. m.actor) members.now) actor.now kind.now (seen_by k d))) }
{
    match kind {
        StepKind::Commit { changes, moment } => {
            let turn = begin(alloc, members, actor, changes.items(), moment)?;
            Ok(turn)
        }
        StepKind::Recover => Ok(Some(only(Next::Begins(Task::Recover)))),
        StepKind::Stop(_) => Ok(Some(only(Next::Stops))),
        StepKind::Call | StepKind::Refuse | StepKind::Fail(_) => Ok(None),
    }
}

/// What a step makes of the actor with this number, from 0; none if it isn't allowed.
pub(crate) fn turn_of(
    alloc: Global,
    lists: &Lists,
    members: &[Member],
    at: usize,
    step: &CoreStep,
) -> Result<Option<Turn>, Memory>
    requires at { at < length members.now }
    requires writes { (m : Member) (t : Task) (past : List Past) → slice_get members.now at ≡ Some m
        → m.doing ≡ Bracket t past → Writes (job_of m.actor t) (state_of m.actor t past) }
    ensures { IfOk result (λ t. (m : Member) → slice_get members.now at ≡ Some m
        → TurnsTo step.now.actor (shown_disk lists.now) m.doing t
        (turn_of (map (λ x. x.actor) members.now) m.actor m.doing step.now.kind
        (seen_by step.now.actor (shown_disk lists.now)))) }
{
    let member = &members[at];
    let number = u64::from(step.actor);
    match &member.doing {
        Doing::Stopped => Ok(None),
        Doing::Nothing => {
            let turn = turn_outside(alloc, members, &member.actor, &step.kind)?;
            Ok(turn)
        }
        Doing::Bracket { task, past } => {
            let past = past.items();
            let turn = turn_inside(alloc, lists, number, &member.actor, task, past, &step.kind)?;
            Ok(turn)
        }
    }
}
