//! The outside as the program sees it: a trait whose calls tell a trace of events, and the disk that such a trace
//! makes.
#![tactic(auto)]

mod event;
mod host;
mod view;

ghost use Rattle.std.specs.Prelude.{◌≡◌, true, List};
ghost use Rattle.host_port.specs.Disk.{Disk, SameDisk, after, disk};
ghost use Rattle.host_port.specs.Ends.{carried_out, cut_short, ended, stopped};
ghost use Rattle.host_port.specs.Own.{own, may_change, of_others, OnlyLooks};
ghost use Rattle.host_port.specs.Ran.{Agrees};
ghost use Rattle.host_port.specs.declared.event.Part.{Part};
ghost use Rattle.host_port.specs.declared.event.Event.{Event};

pub use event::{ChildAnswer, EditAnswer, Event, ForeignStep, Holder, LoadAnswer, Part, Seen};
pub use host::{ChildError, DiskFault, Host, InFault, LoadError, OutFault};
pub use view::DiskView;

/// A law: own events that may change no disk leave the disk that the steps of others make of the start.
pub fn others_alone()
    ensures { (start : Disk) (p : List Event) → OnlyLooks (own p) → disk start p ≡ disk start (of_others p) }
{}

/// A law: if the run stops before an event, the disk is as a stop inside the event leaves it that did nothing of it.
pub fn stop_before_an_event()
    ensures { (d : Disk) (e : Event) → SameDisk (stopped d e Part.Before) (ended d) }
{}

/// A law: a call that is carried out leaves what a stop inside it leaves that did all of it, but for the rights of this
/// run, which end there.
pub fn stop_after_an_event()
    ensures { (d : Disk) (e : Event) → SameDisk (stopped d e Part.After) (ended (after d (carried_out d e))) }
{}

/// A law: what the event of a call on the disk says of the disk before it is so, whether the call was carried out
/// or failed with a part of it done.
pub fn ends_are_honest()
    ensures carried { (d : Disk) (e : Event) → may_change e ≡ true → Agrees d (carried_out d e) }
    ensures cut { (d : Disk) (e : Event) (part : Part) → may_change e ≡ true → Agrees d (cut_short d e part) }
{}
