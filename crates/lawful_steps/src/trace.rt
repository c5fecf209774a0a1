// Whether the steps of others in a trace are lawful.
ghost use Rattle.std.specs.Prelude.{◌≡◌, ◌++◌, ◌∷◌, List, None, Some, IfOk};
ghost use Rattle.std.specs.Bool.{Decides};
ghost use Rattle.host_port.specs.Disk.{Disk, disk};
ghost use Rattle.host_port.specs.declared.event.Event.{Event};
ghost use Rattle.host_port.specs.declared.event.Event.TheVariants as event;
ghost use Rattle.host_memory.specs.MemHosts.{host_start, host_told};
ghost use Rattle.host_port.specs.declared.event.Holder.TheVariants.{Own};
ghost use Rattle.commit_machine.specs.Lawful.{HasRight, IsLawful};
ghost use Rattle.commit_machine.specs.Names.{right_name};
ghost use Rattle.lawful_steps.specs.Steps.{AreLawful, IsLawfulAt, IsLawfulEvent};

use crate::lawful::is_lawful;
use crate::rights::holder;
use commit_machine::right_name;
use host_memory::MemHost;
use host_port::{Event, ForeignStep, Holder, Part};
use mail_text::Memory;
use std::alloc::Global;

// Whether this run has a right.
fn is_own(holder: Option<Holder>) -> bool
    ensures { Decides result (holder ≡ Some Own) }
{
    match holder {
        Some(Holder::Own) => true,
        Some(Holder::Other) => false,
        None => false,
    }
}

// Whether a run that began without the actor's right has it after these events.
fn has_right(alloc: Global, actor: &[u8], events: &[Event]) -> Result<bool, Memory>
    ensures { IfOk result (λ b. (d : Disk) → d.rights (right_name actor.now) ≡ None
        → Decides b (HasRight actor.now (disk d events.now))) }
{
    let name = right_name(alloc, actor)?;
    Ok(is_own(holder(None, events, name.bytes())))
}

// Whether a step of another that stands in a host's trace behind these events is lawful there.
fn is_lawful_there(
    alloc: Global,
    actor: &[u8],
    token: u64,
    host: &MemHost,
    before: &[Event],
    step: &ForeignStep,
) -> Result<bool, Memory>
    ensures { IfOk result (λ b. (rest : List Event)
        → host_told host.now ≡ Some (before.now ++ event.Foreign step.now ∷ rest)
        → Decides b (IsLawful actor.now token (disk (host_start host.now) before.now) step.now)) }
{
    let right = has_right(alloc, actor, before)?;
    let shown = host.stop_at(before.len() + 1, &Part::Before)?;
    is_lawful(alloc, actor, token, &shown, right, step)
}

// Whether an event that stands in a host's trace behind these is lawful there, if it is a step of another.
fn is_lawful_event(
    alloc: Global,
    actor: &[u8],
    token: u64,
    host: &MemHost,
    before: &[Event],
    event: &Event,
) -> Result<bool, Memory>
    ensures { IfOk result (λ b. (rest : List Event) → host_told host.now ≡ Some (before.now ++ event.now ∷ rest)
        → Decides b (IsLawfulEvent actor.now token (disk (host_start host.now) before.now) event.now)) }
{
    match event {
        Event::Foreign { step } => is_lawful_there(alloc, actor, token, host, before, step),
        _ => Ok(true),
    }
}

// Whether the event at a place of a host's trace is lawful there, if it is a step of another.
fn is_lawful_at(
    alloc: Global,
    actor: &[u8],
    token: u64,
    host: &MemHost,
    events: &[Event],
    at: usize,
) -> Result<bool, Memory>
    ensures { IfOk result (λ b. host_told host.now ≡ Some events.now
        → Decides b (IsLawfulAt actor.now token (host_start host.now) events.now at)) }
{
    match events.get(at) {
        Some(event) => is_lawful_event(alloc, actor, token, host, &events[..at], event),
        None => Ok(true),
    }
}

/// Whether each step of another in the trace of a host is lawful where it stands, beside the run of this actor and this
/// token. What it answers for a lost host is open.
pub fn are_lawful(alloc: Global, actor: &[u8], token: u64, host: &MemHost) -> Result<bool, Memory>
    ensures { IfOk result (λ b. (trace : List Event) → host_told host.now ≡ Some trace
        → Decides b (AreLawful actor.now token (host_start host.now) trace)) }
{
    let events = host.trace();
    for k in 0..events.len() {
        let good = is_lawful_at(alloc, actor, token, host, events, k)?;
        if !good {
            return Ok(false);
        }
    }
    Ok(true)
}
