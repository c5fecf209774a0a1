// A job is driven over a host.
ghost use Rattle.std.specs.Prelude.{◌≡◌, ◌<◌, Some, true, length, All, IsTrue, IsSome, option_copied};
ghost use Rattle.host_port.specs.Ran.{Ran};
ghost use Rattle.folder_change.specs.Changes.{name_of, is_rewrite};
ghost use Rattle.folder_change.specs.Outcomes.{base_list, bytes_of};
ghost use Rattle.commit_machine.specs.Records.{has, names_of};
ghost use Rattle.commit_machine.specs.Jobs.{Job};
ghost use Rattle.commit_machine.specs.Machine.{stay};
ghost use Rattle.commit_driver.specs.declared.step.Step.TheVariants as Step;
ghost use Rattle.commit_driver.specs.declared.step.End.{End};
ghost use Rattle.commit_driver.specs.Did.{load_reply, told_reply, done_reply};
ghost use Rattle.commit_driver.specs.Steps.{CallFits, EndFits};
ghost use Rattle.commit_driver.specs.Places.{files_of, entries_of, content_at, call_in, begun, IsPlan, IsPlace, IsSafe};
ghost use Rattle.commit_driver.specs.Answers.{IsAnswer, ReplyCaused, EndCaused, reply_as};
ghost use Rattle.commit_driver.specs.Drives.{Performed, IsFor, Drives};

use crate::calls::{erase, extend, load, lock, publish, release, stage, unlock};
use crate::decision::own_way;
use crate::{Call, End, Name, Place, Plan, Reply, Step, after, named, next_call};
use commit_record::{Way, way_of};
use folder_change::Change;
use host_port::{DiskFault, Host, LoadAnswer, LoadError};
use mail_text::Text;
use mbox_scan::Folder;
use std::alloc::Global;

fn loaded(answer: Result<LoadAnswer, LoadError>) -> Reply
    ensures { reply_as result ≡ load_reply answer }
{
    match answer {
        Ok(answer) => Reply::Loaded(answer.bytes),
        Err(LoadError::TooLarge { length }) => Reply::TooLarge(length),
        Err(LoadError::Failed) => Reply::Fault,
        Err(LoadError::Memory) => Reply::NoMemory,
    }
}

fn told(answer: Result<bool, DiskFault>) -> Reply
    ensures { reply_as result ≡ told_reply answer }
{
    match answer {
        Ok(did) => Reply::Done(did),
        Err(DiskFault) => Reply::Fault,
    }
}

fn done(answer: Result<(), DiskFault>) -> Reply
    ensures { reply_as result ≡ done_reply answer }
{
    match answer {
        Ok(()) => Reply::Done(true),
        Err(DiskFault) => Reply::Fault,
    }
}

// The bytes of a file; an absent one has none.
fn bytes_of(file: &Option<Text>) -> &[u8]
    ensures { result.now ≡ bytes_of file.now }
{
    match file {
        Some(text) => text.bytes(),
        None => b"",
    }
}

// How many bytes of a file that comes to be so stay.
fn stay(way: Way) -> u64
    ensures { result ≡ stay way }
{
    match way {
        Way::Extend(at) => at,
        Way::Replace | Way::Remove => 0,
    }
}

// What is staged for the file with this number.
fn content_at(place: &Place, at: usize) -> &[u8]
    requires { at < length place.now.files }
    ensures { result.now ≡ content_at place.now.files at }
{
    bytes_of(&place.files.items()[at])
}

/// Makes a call on the host.
pub fn perform<H: Host>(
    alloc: Global,
    plan: &Plan,
    place: &Place,
    call: Call,
    host: &mut H,
) -> Reply
    requires safe { IsSafe plan.now }
    requires place { IsPlace plan.now place.now }
    requires fits { CallFits (files_of plan.now) (entries_of place.now) call }
    ensures ran { Ran H.world host.old host.new (Performed (call_in plan.now place.now call) (reply_as result)) }
    ensures answer { IsAnswer (Some call) result }
    ensures cause { ReplyCaused (H.world.counts host.old).disks (H.world.counts host.new).disks result }
{
    match call {
        Call::Load(name) => loaded(load(alloc, host, named(plan, place, name))),
        Call::StagePrepare => done(stage(host, plan.new.bytes(), plan.prepare.bytes())),
        Call::StageGo => done(stage(host, plan.new.bytes(), place.go.bytes())),
        Call::StageFile(at) => {
            let content = content_at(place, at);
            done(stage(host, named(plan, place, Name::Staged(at)), content))
        }
        Call::Extend(at) => {
            let name = named(plan, place, Name::File(at));
            let stays = stay(own_way(place.ways.items(), at));
            done(extend(host, name, stays, content_at(place, at)))
        }
        Call::ExtendFound(at) => {
            let name = named(plan, place, Name::Found(at));
            let stays = stay(way_of(&place.found.entries.items()[at]));
            done(extend(host, name, stays, bytes_of(&place.seen)))
        }
        Call::Publish(from, to) => {
            told(publish(host, named(plan, place, from), named(plan, place, to)))
        }
        Call::Erase(name) => done(erase(host, named(plan, place, name))),
        Call::Lock(at) => { told(lock(host, named(plan, place, Name::File(at)), plan.value.token)) }
        Call::Unlock(at) => {
            done(unlock(host, named(plan, place, Name::File(at)), plan.value.token))
        }
        Call::UnlockFound(at) => {
            done(unlock(host, named(plan, place, Name::Found(at)), place.found.token))
        }
        Call::Release => {
            release(host, plan.right.bytes());
            Reply::Done(true)
        }
    }
}

// The end of a job that is done.
fn end_at(step: Step) -> End
    ensures { (e : End) → step ≡ Step.Ended e → result ≡ e }
{
    match step {
        Step::Ended(end) => end,
        _ => End::NoMemory,
    }
}

/// Drives a job over the host, from where its right was taken to its end, and gives the end with the last place. Its own
/// events are, one by one, the machine's next calls.
pub fn drive<H: Host>(
    alloc: Global,
    plan: &Plan,
    start: Place,
    changes: &[Change],
    base: Option<&Folder>,
    host: &mut H,
) -> (End, Place)
    requires safe { IsSafe plan.now }
    requires begun { start ≡ begun start.files }
    requires room { length start.files ≡ files_of plan.now }
    requires named { All (λ c. has (names_of plan.now.value) (name_of c) ≡ true) changes.now }
    requires based { All (λ c. IsTrue (is_rewrite c) → IsSome base) changes.now }
    ensures ran { (j : Job) → IsPlan j plan.now → IsFor j changes.now (base_list (option_copied base.entry))
        → Ran H.world host.old host.new (λ es. Drives j result.1.found es result.0) }
    ensures place { IsPlace plan.now result.1 }
    ensures fits { EndFits (files_of plan.now) (entries_of result.1) result.0 }
    ensures cause { EndCaused (H.world.counts host.old).disks (H.world.counts host.new).disks result.0 }
{
    let mut place = start;
    while let Some(call) = next_call(plan, &place) {
        let reply = perform(alloc, plan, &place, call, host);
        after(alloc, plan, &mut place, reply, changes, base);
    }
    (end_at(place.step), place)
}
