// A turn that is taken: what an actor does then, what stands, and the commit place.
ghost use Rattle.std.specs.Prelude.{◌≡◌, ◌⊎◌, ◌<◌, ◌+◌, ◌++◌, None, Some, IfOk, IfSome, OnOk, OnErr, length, slice_get, slice_set};
ghost use Rattle.core_steps.specs.declared.actor.Member.{Member};
ghost use Rattle.actor_core.specs.Answers.{Steps};
ghost use Rattle.actor_core.specs.Shown.{IsCore};
ghost use Rattle.actor_bracket.specs.Going.{with_past};
ghost use Rattle.actor_core.specs.Turning.{doing_next, held_of, lists_there, passed_there};

use crate::turning::{Next, Turn, turn_of};
use actor_disk::Lists;
use core_steps::{CoreChange, CoreStep, Doing, Member, Past};
use mail_text::{Items, Memory, Reserved};
use std::alloc::Global;

// One thing more happened to an actor, if it is in a bracket.
fn put_past(doing: &mut Doing, past: Past) -> Result<(), Memory>
    ensures ok { OnOk result (doing.new ≡ with_past doing.old past) }
    ensures err { OnErr result (doing.new ≡ doing.old) }
{
    match doing {
        Doing::Bracket { past: old, .. } => old.push(past),
        Doing::Nothing | Doing::Stopped => Ok(()),
    }
}

// What an actor does next.
fn put_next(alloc: Global, doing: &mut Doing, next: Next) -> Result<(), Memory>
    ensures ok { OnOk result (doing.new ≡ doing_next doing.old next) }
    ensures err { OnErr result (doing.new ≡ doing.old) }
{
    match next {
        Next::GoesOn(past) => put_past(doing, past),
        Next::Begins(task) => {
            let past = Items::new(alloc);
            *doing = Doing::Bracket { task, past };
            Ok(())
        }
        Next::Through => {
            *doing = Doing::Nothing;
            Ok(())
        }
        Next::Stops => {
            *doing = Doing::Stopped;
            Ok(())
        }
    }
}

// What the actor with this number, from 0, does next.
fn put_doing(
    alloc: Global,
    members: &mut Items<Member>,
    at: usize,
    next: Next,
) -> Result<(), Memory>
    requires { at < length members.old }
    ensures ok { OnOk result ((m : Member) → slice_get members.old at ≡ Some m
        → members.new ≡ slice_set members.old at (record { actor = m.actor; doing = doing_next m.doing next })) }
    ensures err { OnErr result (members.new ≡ members.old) }
{
    let member = members.get_mut(at);
    put_next(alloc, &mut member.doing, next)
}

fn put_lists(lists: &mut Lists, there: Option<Lists>)
    ensures { lists.new ≡ lists_there lists.old there }
{
    if let Some(now) = there {
        *lists = now;
    }
}

fn put_place(
    room: &mut Reserved<(u64, Items<CoreChange>)>,
    passed: Option<(u64, Items<CoreChange>)>,
)
    requires { 0 < room.old.spare }
    ensures { room.new.items ≡ room.old.items ++ passed_there passed }
{
    if let Some(place) = passed {
        room.put(place);
    }
}

/// Takes a turn of the actor with this number, from 0. If memory runs out, all is as before.
pub(crate) fn take(
    alloc: Global,
    lists: &mut Lists,
    members: &mut Items<Member>,
    places: &mut Items<(u64, Items<CoreChange>)>,
    at: usize,
    turn: Turn,
) -> Result<(), Memory>
    requires { at < length members.old }
    ensures lists { OnOk result (lists.new ≡ lists_there lists.old turn.there) }
    ensures members { OnOk result ((m : Member) → slice_get members.old at ≡ Some m
        → members.new ≡ slice_set members.old at (record { actor = m.actor; doing = doing_next m.doing turn.doing })) }
    ensures places { OnOk result (places.new ≡ places.old ++ passed_there turn.passed) }
    ensures memory { OnErr result ((lists.new ≡ lists.old) × (members.new ≡ members.old) × (places.new ≡ places.old)) }
{
    let room = places.reserved();
    room.reserve()?;
    put_doing(alloc, members, at, turn.doing)?;
    put_lists(lists, turn.there);
    put_place(room, turn.passed);
    Ok(())
}

// The place, from 0, of the actor with this number, from 1, of so many; none if there is no such actor.
fn place_of(count: usize, number: u32) -> Option<usize>
    ensures none { result ≡ None → (number ≡ 0) ⊎ (count < number) }
    ensures some { IfSome result (λ at. (number ≡ at + 1) × (at < count)) }
{
    let number = number as usize;
    if number == 0 || count < number {
        None
    } else {
        Some(number - 1)
    }
}

// Takes a step of the actor with this number, from 0, if it is allowed.
fn take_at(
    alloc: Global,
    lists: &mut Lists,
    members: &mut Items<Member>,
    places: &mut Items<(u64, Items<CoreChange>)>,
    at: usize,
    step: &CoreStep,
) -> Result<bool, Memory>
    requires number { step.now.actor ≡ at + 1 }
    requires at { at < length members.old }
    requires core { IsCore (held_of lists.old members.old places.old) }
    ensures steps { IfOk result (λ done. Steps (held_of lists.old members.old places.old) step.now done
        (held_of lists.new members.new places.new)) }
    ensures memory { OnErr result
        (held_of lists.new members.new places.new ≡ held_of lists.old members.old places.old) }
    ensures core { IsCore (held_of lists.new members.new places.new) }
{
    match turn_of(alloc, lists, members.items(), at, step)? {
        None => Ok(false),
        Some(turn) => {
            take(alloc, lists, members, places, at, turn)?;
            Ok(true)
        }
    }
}

/// Takes a step, if it is allowed. If it isn't, and if memory runs out, all is as before.
pub(crate) fn take_step(
    alloc: Global,
    lists: &mut Lists,
    members: &mut Items<Member>,
    places: &mut Items<(u64, Items<CoreChange>)>,
    step: &CoreStep,
) -> Result<bool, Memory>
    requires { IsCore (held_of lists.old members.old places.old) }
    ensures steps { IfOk result (λ done. Steps (held_of lists.old members.old places.old) step.now done
        (held_of lists.new members.new places.new)) }
    ensures memory { OnErr result
        (held_of lists.new members.new places.new ≡ held_of lists.old members.old places.old) }
    ensures core { IsCore (held_of lists.new members.new places.new) }
{
    match place_of(members.items().len(), step.actor) {
        None => Ok(false),
        Some(at) => take_at(alloc, lists, members, places, at, step),
    }
}
