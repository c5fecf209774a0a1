// The next call of a bracket, and how it goes on, by all that happened in it.
ghost use Rattle.std.specs.Prelude.{◌≡◌, ◌∷◌, ◌++◌, [], List, IfOk};
ghost use Rattle.std.specs.Option.{option_map};
ghost use Rattle.memory_disk.specs.Standings.{disk_now};
ghost use Rattle.commit_machine.specs.Machine.{next};
ghost use Rattle.actor_ground.specs.CallEnds.{asked};
ghost use Rattle.core_steps.specs.declared.actor.Doing.TheVariants.{Bracket};
ghost use Rattle.core_steps.specs.declared.actor.Past.{Past};
ghost use Rattle.core_steps.specs.declared.actor.Past.TheVariants.{Shown, Wanted};
ghost use Rattle.core_steps.specs.declared.actor.Task.{Task};
ghost use Rattle.core_steps.specs.declared.change.CoreChange.{CoreChange};
ghost use Rattle.core_steps.specs.Tasks.{job_of, may_want, state_of};
ghost use Rattle.core_steps.specs.Turns.{doing_at, doing_then};
ghost use Rattle.actor_bracket.specs.Going.{doing_goes};
ghost use Rattle.actor_bracket.specs.Stands.{Writes, state_as};

use crate::asking::next_asked;
use crate::folding::{after_event, may_want, refused, replayed};
use crate::stand::{Ending, Stand};
use core_steps::{Actor, Past, Task};
use host_port::Event;
use mail_text::Memory;
use memory_disk::Standing;
use std::alloc::Global;

/// How a bracket goes on.
#[derive(Clone, Copy)]
pub enum Goes {
    /// It isn't through.
    On,
    /// It is through.
    Through,
    /// A call failed, so its actor stops.
    Stops,
}

/// What the next call of a bracket asks of the disk, none once it is through; and whether memory may be wanted in its place.
#[derive(Drop)]
pub struct Asked {
    pub event: Option<Event>,
    pub may_want: bool,
}

// How a bracket goes on that has come so far.
fn goes_of(stand: &Stand) -> Goes
    ensures { (cs : List CoreChange) (t : Task) (ps : List Past) (p : Past)
        → doing_goes (Bracket t ps) p result ≡ doing_at t (ps ++ p ∷ []) (state_as cs stand.now) }
{
    match stand {
        Stand::Ended(Ending::Failed(_)) => Goes::Stops,
        Stand::Ended(_) => Goes::Through,
        _ => Goes::On,
    }
}

/// How a bracket goes on once its call was this event.
pub fn goes_after(
    alloc: Global,
    actor: &Actor,
    task: &Task,
    past: &[Past],
    event: &Event,
) -> Result<Goes, Memory>
    ensures { IfOk result (λ g. doing_goes (Bracket task.now past.now) (Shown event.now) g
        ≡ doing_then actor.now task.now past.now (Shown event.now)) }
{
    let before = replayed(alloc, actor, task, past)?;
    let stand = after_event(alloc, actor, task, before, event)?;
    Ok(goes_of(&stand))
}

/// How it goes on once it wanted memory.
pub fn goes_wanting(
    alloc: Global,
    actor: &Actor,
    task: &Task,
    past: &[Past],
) -> Result<Goes, Memory>
    ensures { IfOk result (λ g. doing_goes (Bracket task.now past.now) Wanted g
        ≡ doing_then actor.now task.now past.now Wanted) }
{
    let before = replayed(alloc, actor, task, past)?;
    let stand = refused(alloc, actor, task, before)?;
    Ok(goes_of(&stand))
}

/// The next call of a bracket in which this happened.
pub fn next_call(
    alloc: Global,
    actor: &Actor,
    task: &Task,
    past: &[Past],
    disk: &Standing,
) -> Result<Asked, Memory>
    requires { Writes (job_of actor.now task.now) (state_of actor.now task.now past.now) }
    ensures event { IfOk result (λ x. x.event ≡ option_map (asked (disk_now disk.now))
        (next (job_of actor.now task.now) (state_of actor.now task.now past.now))) }
    ensures want { IfOk result (λ x. x.may_want ≡ may_want (state_of actor.now task.now past.now)) }
{
    let stand = replayed(alloc, actor, task, past)?;
    let event = next_asked(alloc, actor, task, &stand, disk)?;
    Ok(Asked {
        event,
        may_want: may_want(&stand),
    })
}
