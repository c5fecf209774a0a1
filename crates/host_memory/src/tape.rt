// The trace of a host in memory, and the disk that it makes.
ghost use Rattle.std.specs.Prelude.{◌≡◌, ◌++◌, [], ◌∷◌, OnOk, OnErr, IfOk, map};
ghost use Rattle.host_port.specs.Disk.{disk};
ghost use Rattle.memory_disk.specs.Standings.{disk_now};
ghost use Rattle.host_memory.specs.Steps.{name_in};
ghost use Rattle.host_port.specs.Disk.{SameDisk};
ghost use Rattle.host_memory.specs.Views.{disk_of, steps_before};
ghost use Rattle.host_port.specs.declared.event.Event.TheVariants as event;

use host_port::{DiskView, Event, ForeignStep};
use mail_text::{Memory, Text};
use memory_disk::{Standing, effect};
use std::alloc::Global;

/// The events so far, with the disk that they make of the disk that stood at the start.
#[derive(Drop)]
pub struct Tape {
    pub start: DiskView,
    pub standing: Standing,
    pub trace: Vec<Event>,
    ghost shows: { SameDisk (disk_now standing) (disk (disk_of start.files start.locks) trace.items) },
}

impl Tape {
    /// Adds an event with its effect. If memory runs out, all is as before.
    pub fn add(&mut self, alloc: Global, event: Event) -> Result<(), Memory>
        ensures ok { OnOk result (self.new.trace.items ≡ self.old.trace.items ++ event ∷ []) }
        ensures err { OnErr result (self.new.trace.items ≡ self.old.trace.items) }
        ensures start { self.new.start ≡ self.old.start }
    {
        match self.trace.reserve(1) {
            Ok(()) => match effect(alloc, &mut self.standing, &event) {
                Ok(()) => {
                    self.trace.push_reserved(event);
                    Ok(())
                }
                Err(memory) => {
                    drop(event);
                    Err(memory)
                }
            },
            Err(_) => {
                drop(event);
                Err(Memory)
            }
        }
    }
}

// The name that a step is about.
fn name_in(step: &ForeignStep) -> &[u8]
    ensures { result.now ≡ name_in step.now }
{
    match step {
        ForeignStep::Write { name, .. } => name.bytes(),
        ForeignStep::Remove { name } => name.bytes(),
        ForeignStep::Lock { name, .. } => name.bytes(),
        ForeignStep::Unlock { name, .. } => name.bytes(),
        ForeignStep::Seize { name } => name.bytes(),
        ForeignStep::Release { name } => name.bytes(),
    }
}

fn copy_step(alloc: Global, step: &ForeignStep) -> Result<ForeignStep, Memory>
    ensures { IfOk result (λ s. s ≡ step.now) }
{
    let name = Text::copy(alloc, name_in(step))?;
    match step {
        ForeignStep::Write { bytes, .. } => match Text::copy(alloc, bytes.bytes()) {
            Ok(bytes) => Ok(ForeignStep::Write { name, bytes }),
            Err(memory) => {
                drop(name);
                Err(memory)
            }
        },
        ForeignStep::Remove { .. } => Ok(ForeignStep::Remove { name }),
        ForeignStep::Lock { token, .. } => {
            let token = *token;
            Ok(ForeignStep::Lock { name, token })
        }
        ForeignStep::Unlock { token, .. } => {
            let token = *token;
            Ok(ForeignStep::Unlock { name, token })
        }
        ForeignStep::Seize { .. } => Ok(ForeignStep::Seize { name }),
        ForeignStep::Release { .. } => Ok(ForeignStep::Release { name }),
    }
}

fn add_step(alloc: Global, step: &ForeignStep, tape: &mut Tape) -> Result<(), Memory>
    ensures ok { OnOk result (tape.new.trace.items ≡ tape.old.trace.items ++ event.Foreign step.now ∷ []) }
    ensures start { tape.new.start ≡ tape.old.start }
{
    let step = copy_step(alloc, step)?;
    tape.add(alloc, Event::Foreign { step })
}

/// Adds the steps of others that a plan has before the call of this number.
pub fn add_others(
    alloc: Global,
    plan: &[(u64, ForeignStep)],
    call: u64,
    tape: &mut Tape,
) -> Result<(), Memory>
    ensures ok { OnOk result
        (tape.new.trace.items ≡ tape.old.trace.items ++ map event.Foreign (steps_before plan.now call)) }
    ensures start { tape.new.start ≡ tape.old.start }
{
    for (at, step) in plan {
        if *at == call {
            add_step(alloc, step, tape)?;
        }
    }
    Ok(())
}
