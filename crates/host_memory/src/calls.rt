// What the calls of a host in memory add to its tape.
ghost use Rattle.std.specs.Prelude.{◌≡◌, ◌++◌, ◌∷◌, [], false, Option, Some, None, OnOk, IfOk, IfSome};
ghost use Rattle.std.specs.Option.{option_copied};
ghost use Rattle.host_port.specs.Disk.{disk};
ghost use Rattle.host_port.specs.Calls.{Loaded, LoadCause, FitsLoad, IsTooLarge};
ghost use Rattle.host_memory.specs.MemHosts.{wants_memory};
ghost use Rattle.host_memory.specs.Plans.{TapeAdds, TapeAddsCall};
ghost use Rattle.host_memory.specs.Views.{disk_of, steps_before, part_at};
ghost use Rattle.host_port.specs.declared.event.Event.TheVariants as event;

use crate::tape::{Tape, add_others};
use host_port::{Event, ForeignStep, LoadAnswer, LoadError, Part, Seen};
use mail_text::{Memory, Text};
use memory_disk::copy_found;
use std::alloc::Global;

/// The most bytes of a file that a load takes.
const LOAD_LIMIT: usize = 268_435_456;

/// What a failing call of this number leaves, or None if it doesn't fail.
pub fn failing(plan: &[(u64, Part)], call: u64) -> Option<&Part>
    ensures { option_copied result ≡ part_at plan.now call }
{
    for (at, part) in plan {
        if *at == call {
            return Some(part);
        }
    }
    None
}

/// Copies of two runs of bytes.
pub fn copy_two(alloc: Global, first: &[u8], second: &[u8]) -> Result<(Text, Text), Memory>
    ensures first { IfOk result (λ t. t.0 ≡ first.now) }
    ensures second { IfOk result (λ t. t.1 ≡ second.now) }
{
    let first = Text::copy(alloc, first)?;
    match Text::copy(alloc, second) {
        Ok(second) => Ok((first, second)),
        Err(memory) => {
            drop(first);
            Err(memory)
        }
    }
}

/// The steps of others before the call of this number, and its own event.
pub fn tell(
    alloc: Global,
    plan: &[(u64, ForeignStep)],
    call: u64,
    tape: &mut Tape,
    event: Event,
) -> Result<(), Memory>
    ensures ok { OnOk result (TapeAdds tape.old tape.new (steps_before plan.now call) event) }
    ensures start { tape.new.start ≡ tape.old.start }
{
    match add_others(alloc, plan, call, tape) {
        Ok(()) => tape.add(alloc, event),
        Err(memory) => {
            drop(event);
            Err(memory)
        }
    }
}

/// Tells that input was taken.
pub fn tell_in(
    alloc: Global,
    plan: &[(u64, ForeignStep)],
    call: u64,
    tape: &mut Tape,
    bytes: &[u8],
    failed: bool,
) -> Result<(), Memory>
    ensures ok { OnOk result (TapeAdds tape.old tape.new (steps_before plan.now call) (event.In bytes.now failed)) }
    ensures start { tape.new.start ≡ tape.old.start }
{
    let bytes = Text::copy(alloc, bytes)?;
    tell(alloc, plan, call, tape, Event::In { bytes, failed })
}

/// Tells that output went out.
pub fn tell_out(
    alloc: Global,
    plan: &[(u64, ForeignStep)],
    call: u64,
    tape: &mut Tape,
    bytes: &[u8],
    failed: bool,
) -> Result<(), Memory>
    ensures ok { OnOk result (TapeAdds tape.old tape.new (steps_before plan.now call) (event.Out bytes.now failed)) }
    ensures start { tape.new.start ≡ tape.old.start }
{
    let bytes = Text::copy(alloc, bytes)?;
    tell(alloc, plan, call, tape, Event::Out { bytes, failed })
}

// The length of what was found, if it is more than a load takes.
fn past_limit(found: Option<&Text>) -> Option<u64>
    ensures over { IfSome result (λ n. IsTooLarge (option_copied found.entry) n) }
    ensures within { result ≡ None → FitsLoad (option_copied found.entry) }
{
    let length = found?.bytes().len();
    if length > LOAD_LIMIT {
        Some(length as u64)
    } else {
        None
    }
}

// The answer of a load and what it sees, by the disk that the tape shows.
fn look(
    alloc: Global,
    tape: &Tape,
    name: &[u8],
) -> Result<(Result<LoadAnswer, LoadError>, Seen), Memory>
    ensures loaded { IfOk result
        (λ r. Loaded name.now r.0
        (disk (disk_of tape.now.start.files tape.now.start.locks) tape.now.trace.items)
        (event.Load name.now r.1)) }
    ensures cause { IfOk result (λ r. LoadCause 0 0 r.0) }
    ensures known { IfOk result (λ r. wants_memory r.0 ≡ false) }
{
    let held = tape.standing.locks.has(name);
    let found = tape.standing.files.get(name);
    match past_limit(found) {
        Some(length) => Ok((
            Err(LoadError::TooLarge { length }),
            Seen::TooLarge { length },
        )),
        None => {
            let bytes = copy_found(alloc, found)?;
            let shown = copy_found(alloc, found)?;
            Ok((
                Ok(LoadAnswer { bytes, held }),
                Seen::Bytes { bytes: shown, held },
            ))
        }
    }
}

// Adds a load that saw this.
fn add_load(alloc: Global, tape: &mut Tape, name: &[u8], seen: Seen) -> Result<(), Memory>
    ensures ok { OnOk result (tape.new.trace.items ≡ tape.old.trace.items ++ event.Load name.now seen ∷ []) }
    ensures start { tape.new.start ≡ tape.old.start }
{
    match Text::copy(alloc, name) {
        Ok(name) => tape.add(alloc, Event::Load { name, seen }),
        Err(memory) => {
            drop(seen);
            Err(memory)
        }
    }
}

/// Tells a load, and gives its answer.
pub fn tell_load(
    alloc: Global,
    plan: &[(u64, ForeignStep)],
    call: u64,
    tape: &mut Tape,
    name: &[u8],
) -> Result<Result<LoadAnswer, LoadError>, Memory>
    ensures ok { IfOk result (λ r. TapeAddsCall tape.old tape.new (steps_before plan.now call) (Loaded name.now r)) }
    ensures cause { IfOk result (λ r. LoadCause 0 0 r) }
    ensures known { IfOk result (λ r. wants_memory r ≡ false) }
    ensures start { tape.new.start ≡ tape.old.start }
{
    add_others(alloc, plan, call, tape)?;
    let (answer, seen) = look(alloc, tape, name)?;
    add_load(alloc, tape, name, seen)?;
    Ok(answer)
}

/// Tells a load that failed.
pub fn tell_failed_load(
    alloc: Global,
    plan: &[(u64, ForeignStep)],
    call: u64,
    tape: &mut Tape,
    name: &[u8],
) -> Result<(), Memory>
    ensures ok { OnOk result
        (TapeAddsCall tape.old tape.new (steps_before plan.now call) (Loaded name.now (Err LoadError.Failed))) }
    ensures start { tape.new.start ≡ tape.old.start }
{
    let name = Text::copy(alloc, name)?;
    let seen = Seen::Failed;
    tell(alloc, plan, call, tape, Event::Load { name, seen })
}

/// Tells that a right was given up.
pub fn tell_release(
    alloc: Global,
    plan: &[(u64, ForeignStep)],
    call: u64,
    tape: &mut Tape,
    name: &[u8],
) -> Result<(), Memory>
    ensures ok { OnOk result (TapeAdds tape.old tape.new (steps_before plan.now call) (event.Release name.now)) }
    ensures start { tape.new.start ≡ tape.old.start }
{
    let name = Text::copy(alloc, name)?;
    tell(alloc, plan, call, tape, Event::Release { name })
}

/// Tells that the time was looked at.
pub fn tell_now(
    alloc: Global,
    plan: &[(u64, ForeignStep)],
    call: u64,
    tape: &mut Tape,
    seconds: i64,
) -> Result<(), Memory>
    ensures ok { OnOk result (TapeAdds tape.old tape.new (steps_before plan.now call) (event.Now seconds)) }
    ensures start { tape.new.start ≡ tape.old.start }
{
    tell(alloc, plan, call, tape, Event::Now { seconds })
}
