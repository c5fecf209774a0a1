// How a call on the disk of a host in memory ends.
ghost use Rattle.std.specs.Prelude.{◌≡◌, OnOk};
ghost use Rattle.std.specs.Option.{option_copied};
ghost use Rattle.host_memory.specs.Plans.{as_planned, answer_of};
ghost use Rattle.memory_disk.specs.Standings.{disk_now};

use host_port::{DiskFault, Event, Part};
use mail_text::Memory;
use memory_disk::{Standing, carry_out, cut};
use std::alloc::Global;

/// Makes an event of a call what a plan has for it: carried out, or failing with this part done.
pub fn settle(
    alloc: Global,
    disk: &Standing,
    event: &mut Event,
    part: Option<&Part>,
) -> Result<(), Memory>
    ensures { OnOk result (event.new ≡ as_planned (disk_now disk.now) event.old (option_copied part.entry)) }
{
    match part {
        None => {
            carry_out(disk, event);
            Ok(())
        }
        Some(part) => cut(alloc, disk, event, part),
    }
}

/// What a call answers that is carried out: a fault if the disk refuses it, and else a truth, if it can answer false.
pub fn answer(event: &Event) -> Result<bool, DiskFault>
    ensures { result ≡ answer_of event.now }
{
    match event {
        Event::Publish { done, .. } => Ok(*done),
        Event::Extend { failed: true, .. } => Err(DiskFault),
        Event::Extend { .. } => Ok(true),
        Event::Lock { got, .. } => Ok(*got),
        Event::Seize { got, .. } => Ok(*got),
        Event::In { .. } => Ok(true),
        Event::Out { .. } => Ok(true),
        Event::Load { .. } => Ok(true),
        Event::Stage { .. } => Ok(true),
        Event::Erase { .. } => Ok(true),
        Event::Unlock { .. } => Ok(true),
        Event::Release { .. } => Ok(true),
        Event::Child { .. } => Ok(true),
        Event::Edit { .. } => Ok(true),
        Event::Now { .. } => Ok(true),
        Event::Foreign { .. } => Ok(true),
    }
}
