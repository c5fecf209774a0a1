// The next call of a job.
ghost use Rattle.std.specs.Prelude.{◌≡◌, IfSome};
ghost use Rattle.host_port.specs.Names.{IsFileName};
ghost use Rattle.commit_driver.specs.Steps.{call_at, file_at, staged_at, NameFits, CallFits};
ghost use Rattle.commit_driver.specs.Places.{name_in, IsSafe, IsPlace, NextOf, files_of, entries_of};

use crate::{Place, Plan, Step, Then};

/// A name that a call speaks of. Numbers are those of a file of the plan, or of an entry of the record that
/// was found, from 0.
#[derive(Clone, Copy)]
pub enum Name {
    /// The actor's record.
    Record,
    /// Where a record is made.
    New,
    /// The actor's right.
    Right,
    /// A file.
    File(usize),
    /// Where it is made.
    Staged(usize),
    /// An entry's file.
    Found(usize),
    /// Where it is made.
    FoundStaged(usize),
}

/// A call on the disk.
#[derive(Clone, Copy)]
pub enum Call {
    Load(Name),
    /// The record before the decision is made.
    StagePrepare,
    /// The record of the decision is made.
    StageGo,
    /// What is to stand in a file is made.
    StageFile(usize),
    Publish(Name, Name),
    /// A file of the plan gets its tail.
    Extend(usize),
    /// An entry's file gets its tail.
    ExtendFound(usize),
    Erase(Name),
    /// A file is locked.
    Lock(usize),
    /// The lock of a file of the plan is taken away.
    Unlock(usize),
    /// The lock of an entry's file is taken away.
    UnlockFound(usize),
    Release,
}

// The file with this number.
fn file_at(then: Then, at: usize) -> Name
    ensures { result ≡ file_at then at }
{
    match then {
        Then::GoOn => Name::Found(at),
        Then::Answer(_) => Name::File(at),
    }
}

// Where it is made.
fn staged_at(then: Then, at: usize) -> Name
    ensures { result ≡ staged_at then at }
{
    match then {
        Then::GoOn => Name::FoundStaged(at),
        Then::Answer(_) => Name::Staged(at),
    }
}

// The call that a step is for.
fn call_at(step: Step) -> Option<Call>
    ensures { result ≡ call_at step }
{
    match step {
        Step::Looking | Step::Checking => Some(Call::Load(Name::Record)),
        Step::Undoing(at, _, _, then) => Some(Call::Erase(staged_at(then, at))),
        Step::Placing(at, then) => Some(Call::Publish(staged_at(then, at), file_at(then, at))),
        Step::Testing(at) => Some(Call::Load(Name::FoundStaged(at))),
        Step::Removing(at, then) => Some(Call::Erase(file_at(then, at))),
        Step::Extending(at, Then::GoOn) => Some(Call::ExtendFound(at)),
        Step::Extending(at, Then::Answer(_)) => Some(Call::Extend(at)),
        Step::Discarding(at, then) => Some(Call::Erase(staged_at(then, at))),
        Step::Unlocking(at, _, Then::GoOn) => Some(Call::UnlockFound(at)),
        Step::Unlocking(at, _, Then::Answer(_)) => Some(Call::Unlock(at)),
        Step::Erasing(_) => Some(Call::Erase(Name::Record)),
        Step::Clearing(_) => Some(Call::Erase(Name::New)),
        Step::Preparing => Some(Call::StagePrepare),
        Step::Publishing | Step::Committing => Some(Call::Publish(Name::New, Name::Record)),
        Step::Locking(at) => Some(Call::Lock(at)),
        Step::Loading(at) => Some(Call::Load(Name::File(at))),
        Step::Staging(at) => Some(Call::StageFile(at)),
        Step::Deciding => Some(Call::StageGo),
        Step::Releasing(_) => Some(Call::Release),
        Step::Ended(_) => None,
    }
}

/// The next call, none at the end.
pub fn next_call(plan: &Plan, place: &Place) -> Option<Call>
    requires { IsPlace plan.now place.now }
    ensures at { result ≡ call_at place.now.step }
    ensures next { NextOf plan.now place.now result }
    ensures fits { IfSome result (λ c. CallFits (files_of plan.now) (entries_of place.now) c) }
{
    call_at(place.step)
}

/// A name that a call speaks of.
pub fn named<'a>(plan: &'a Plan, place: &'a Place, name: Name) -> &'a [u8]
    requires safe { IsSafe plan.now }
    requires place { IsPlace plan.now place.now }
    requires fits { NameFits (files_of plan.now) (entries_of place.now) name }
    ensures name { result.now ≡ name_in plan.now place.now name }
    ensures file { IsFileName result.now }
{
    match name {
        Name::Record => plan.record.bytes(),
        Name::New => plan.new.bytes(),
        Name::Right => plan.right.bytes(),
        Name::File(at) => plan.value.entries.items()[at].name.bytes(),
        Name::Staged(at) => plan.staged.items()[at].bytes(),
        Name::Found(at) => place.found.entries.items()[at].name.bytes(),
        Name::FoundStaged(at) => place.found_staged.items()[at].bytes(),
    }
}
