// What the calls on the disk of a host in memory add to its tape.
ghost use Rattle.std.specs.Prelude.{◌≡◌, ◌++◌, ◌∷◌, [], IfOk, is_err};
ghost use Rattle.host_port.specs.Disk.{disk};
ghost use Rattle.host_memory.specs.Asks.{event_of};
ghost use Rattle.std.specs.Option.{option_copied};
ghost use Rattle.host_memory.specs.Plans.{Ended, TapeAddsCall, TapeAddsPlanned, answer_of, as_planned};
ghost use Rattle.memory_disk.specs.Standings.{disk_now};
ghost use Rattle.host_memory.specs.Views.{steps_before, part_at};

use crate::Plan;
use crate::calls::{copy_two, failing};
use crate::ending::{answer, settle};
use crate::tape::{Tape, add_others};
use host_port::{DiskFault, Event, Part};
use mail_text::{Memory, Text};
use std::alloc::Global;

/// What is asked of a disk.
#[derive(Clone, Copy)]
pub enum Asked<'a> {
    Stage {
        name: &'a [u8],
        bytes: &'a [u8],
    },
    Publish {
        from: &'a [u8],
        to: &'a [u8],
    },
    Extend {
        name: &'a [u8],
        at: u64,
        tail: &'a [u8],
    },
    Erase {
        name: &'a [u8],
    },
    Lock {
        name: &'a [u8],
        token: u64,
    },
    Unlock {
        name: &'a [u8],
        token: u64,
    },
    Seize {
        name: &'a [u8],
    },
}

// The event of a call that does all that is asked.
fn event_of(alloc: Global, asked: Asked<'_>) -> Result<Event, Memory>
    ensures { IfOk result (λ e. e ≡ event_of asked.entry) }
{
    match asked {
        Asked::Stage { name, bytes } => {
            let (name, bytes) = copy_two(alloc, name, bytes)?;
            Ok(Event::Stage {
                name,
                bytes: Some(bytes),
                failed: false,
            })
        }
        Asked::Publish { from, to } => {
            let (from, to) = copy_two(alloc, from, to)?;
            Ok(Event::Publish {
                from,
                to,
                done: true,
                failed: false,
            })
        }
        Asked::Extend { name, at, tail } => {
            let (name, tail) = copy_two(alloc, name, tail)?;
            Ok(Event::Extend {
                name,
                at,
                tail,
                failed: false,
            })
        }
        Asked::Erase { name } => Ok(Event::Erase {
            name: Text::copy(alloc, name)?,
            done: true,
            failed: false,
        }),
        Asked::Lock { name, token } => Ok(Event::Lock {
            name: Text::copy(alloc, name)?,
            token,
            got: true,
            failed: false,
        }),
        Asked::Unlock { name, token } => Ok(Event::Unlock {
            name: Text::copy(alloc, name)?,
            token,
            done: true,
            failed: false,
        }),
        Asked::Seize { name } => Ok(Event::Seize {
            name: Text::copy(alloc, name)?,
            got: true,
            failed: false,
        }),
    }
}

// Tells an event as a plan has it, and gives its answer.
fn tell_planned(
    alloc: Global,
    tape: &mut Tape,
    event: Event,
    part: Option<&Part>,
) -> Result<Result<bool, DiskFault>, Memory>
    ensures told { IfOk result
        (λ _. tape.new.trace.items
        ≡ tape.old.trace.items ++ as_planned (disk_now tape.old.standing) event (option_copied part.entry) ∷ []) }
    ensures answer { IfOk result
        (λ r. r ≡ answer_of (as_planned (disk_now tape.old.standing) event (option_copied part.entry))) }
    ensures start { tape.new.start ≡ tape.old.start }
{
    let mut own = event;
    match settle(alloc, &tape.standing, &mut own, part) {
        Ok(()) => {
            let answer = answer(&own);
            match tape.add(alloc, own) {
                Ok(()) => Ok(answer),
                Err(memory) => Err(memory),
            }
        }
        Err(memory) => {
            drop(own);
            Err(memory)
        }
    }
}

// The steps of others before a call on the disk, and its own event as the plan has it.
fn tell_disk(
    alloc: Global,
    plan: &Plan,
    call: u64,
    tape: &mut Tape,
    event: Event,
) -> Result<Result<bool, DiskFault>, Memory>
    ensures ok { IfOk result
        (λ r. TapeAddsCall tape.old tape.new (steps_before plan.entry.now.foreign call) (Ended event r)) }
    ensures planned { IfOk result
        (λ r. TapeAddsPlanned tape.old tape.new (steps_before plan.entry.now.foreign call) event
        (part_at plan.entry.now.fails call) (is_err r)) }
    ensures start { tape.new.start ≡ tape.old.start }
{
    match add_others(alloc, plan.foreign.items(), call, tape) {
        Ok(()) => {
            let part = failing(plan.fails.items(), call);
            let answer = tell_planned(alloc, tape, event, part)?;
            match part {
                None => Ok(answer),
                Some(_) => Ok(Err(DiskFault)),
            }
        }
        Err(memory) => {
            drop(event);
            Err(memory)
        }
    }
}

/// The steps of others before a call on the disk, and what the plan makes of what is asked.
pub fn tell_asked(
    alloc: Global,
    plan: &Plan,
    call: u64,
    tape: &mut Tape,
    asked: Asked<'_>,
) -> Result<Result<bool, DiskFault>, Memory>
    ensures ok { IfOk result
        (λ r. TapeAddsCall tape.old tape.new (steps_before plan.entry.now.foreign call)
        (Ended (event_of asked.entry) r)) }
    ensures planned { IfOk result
        (λ r. TapeAddsPlanned tape.old tape.new (steps_before plan.entry.now.foreign call) (event_of asked.entry)
        (part_at plan.entry.now.fails call) (is_err r)) }
    ensures start { tape.new.start ≡ tape.old.start }
{
    let event = event_of(alloc, asked)?;
    tell_disk(alloc, plan, call, tape, event)
}
