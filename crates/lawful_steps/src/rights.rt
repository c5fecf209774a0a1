// Who has a right.
ghost use Rattle.std.specs.Prelude.{◌≡◌};
ghost use Rattle.host_port.specs.Disk.{Disk, after, after_step, disk, taken, without_other, without_own};

use host_port::{Event, ForeignStep, Holder};

// Another takes a right that nobody has.
fn taken(holder: Option<Holder>) -> Option<Holder>
    ensures { result ≡ taken holder }
{
    match holder {
        None => Some(Holder::Other),
        Some(holder) => Some(holder),
    }
}

// Another gives up a right.
fn without_other(holder: Option<Holder>) -> Option<Holder>
    ensures { result ≡ without_other holder }
{
    match holder {
        Some(Holder::Own) => Some(Holder::Own),
        _ => None,
    }
}

// The run gives up a right.
fn without_own(holder: Option<Holder>) -> Option<Holder>
    ensures { result ≡ without_own holder }
{
    match holder {
        Some(Holder::Other) => Some(Holder::Other),
        _ => None,
    }
}

// Who has the right of a name after a step of another.
fn after_step(holder: Option<Holder>, step: &ForeignStep, name: &[u8]) -> Option<Holder>
    ensures { (d : Disk) → d.rights name.now ≡ holder → (after_step d step.now).rights name.now ≡ result }
{
    match step {
        ForeignStep::Seize { name: other } if name == other.bytes() => taken(holder),
        ForeignStep::Release { name: other } if name == other.bytes() => without_other(holder),
        _ => holder,
    }
}

// Who has the right of a name after an event.
fn after(holder: Option<Holder>, event: &Event, name: &[u8]) -> Option<Holder>
    ensures { (d : Disk) → d.rights name.now ≡ holder → (after d event.now).rights name.now ≡ result }
{
    match event {
        Event::Seize {
            name: other,
            got: true,
            ..
        } if name == other.bytes() => Some(Holder::Own),
        Event::Release { name: other } if name == other.bytes() => without_own(holder),
        Event::Foreign { step } => after_step(holder, step, name),
        _ => holder,
    }
}

/// Who has the right of a name after these events, if this one had it before.
pub fn holder(before: Option<Holder>, events: &[Event], name: &[u8]) -> Option<Holder>
    ensures { (d : Disk) → d.rights name.now ≡ before → (disk d events.now).rights name.now ≡ result }
{
    match events {
        [] => before,
        [first, rest @ ..] => holder(after(before, first, name), rest, name),
    }
}
