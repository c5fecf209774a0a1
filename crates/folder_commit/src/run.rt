// A commit, with its right.
ghost use Rattle.std.specs.Prelude.{◌≡◌, ◌≤◌, ◌<◌, true, length, All, IsTrue, IsSome, IfOk, option_copied};
ghost use Rattle.host_port.specs.Names.{has_no_zero};
ghost use Rattle.host_port.specs.Ran.{Ran};
ghost use Rattle.host_port.specs.Own.{own};
ghost use Rattle.folder_change.specs.Changes.{is_rewrite};
ghost use Rattle.folder_change.specs.Outcomes.{base_list};
ghost use Rattle.commit_machine.specs.Names.{actor_limit};
ghost use Rattle.commit_machine.specs.Records.{names_of};
ghost use Rattle.commit_driver.specs.Steps.{EndFits};
ghost use Rattle.commit_driver.specs.Places.{nth, files_of};
ghost use Rattle.core_steps.specs.Commits.{IsActorOf};
ghost use Rattle.folder_recovery.specs.Safe.{WhereTold};
ghost use Rattle.folder_commit.specs.Ends.{CommitCause};
ghost use Rattle.folder_commit.specs.Plans.{AreFiles};
ghost use Rattle.folder_commit.specs.Told.{IsTold};
ghost use Rattle.folder_commit.specs.Safe.{MayCommit, IsSafe, IsComplete};
ghost use Rattle.folder_commit.specs.Commits.{IsCommit, IsNamed, answer_of};

use crate::CommitError;
use crate::plan::{date, plan_for};
use commit_driver::calls::{ask, release};
use commit_driver::{Begun, End, Passed, Place, Plan, begin, drive};
use commit_record::nearest_moment;
use folder_change::Change;
use host_port::Host;
use mail_text::{Items, Memory, Text};
use mbox_scan::Folder;
use std::alloc::Global;

// Room for `count` files.
fn room(alloc: Global, count: usize) -> Result<Items<Option<Text>>, Memory>
    ensures { IfOk result (λ files. length files ≡ count) }
{
    let mut files = Items::new(alloc);
    for at in 0..count {
        prove!(at < count);
        files.push(None)?;
    }
    Ok(files)
}

// The name of the file with this number.
fn file_name(plan: Plan, at: usize) -> Text
    requires { at < files_of plan }
    ensures { result ≡ nth (names_of plan.value) at }
{
    let mut entries = plan.value.entries.into_vec();
    entries.remove(at).name
}

// Where the file of this entry of the record that was found is made.
fn staged_file(place: Place, at: usize) -> Text
    requires { at < length place.found_staged }
    ensures { result ≡ nth place.found_staged at }
{
    let mut staged = place.found_staged.into_vec();
    staged.remove(at)
}

// The answer of a commit that took its right and ended so.
fn answer(end: End, plan: Plan, place: Place) -> Result<(), CommitError>
    requires { EndFits (files_of plan) (length place.found_staged) end }
    ensures { result ≡ answer_of end plan place }
{
    match end {
        End::Done => Ok(()),
        End::Busy(at) => Err(CommitError::Busy {
            name: file_name(plan, at),
        }),
        End::RecordTooLarge(length) => Err(CommitError::TooLarge {
            name: plan.record,
            length,
        }),
        End::StagedTooLarge(at, length) => Err(CommitError::TooLarge {
            name: staged_file(place, at),
            length,
        }),
        End::TooLarge(at, length) => Err(CommitError::TooLarge {
            name: file_name(plan, at),
            length,
        }),
        End::Changed(at, message) => Err(CommitError::Changed {
            name: file_name(plan, at),
            at: message,
        }),
        End::Failed(passed) => Err(CommitError::Disk { passed }),
        End::NoMemory => Err(CommitError::Memory),
        End::NotARecord | End::Recovered(_) => Err(CommitError::Record),
    }
}

// A commit of one change at least, as a run of the machine.
fn some_changes<H: Host>(
    alloc: Global,
    actor: &[u8],
    token: u64,
    changes: &[Change],
    base: Option<&Folder>,
    host: &mut H,
) -> Result<(), CommitError>
    requires short { length actor.now ≤ actor_limit }
    requires no_zero { has_no_zero actor.now ≡ true }
    requires files { AreFiles actor.now changes.now }
    requires some { 1 ≤ length changes.now }
    requires based { All (λ c. IsTrue (is_rewrite c) → IsSome base) changes.now }
    ensures ran { Ran H.world host.old host.new
        (λ es. IsCommit actor.now token changes.now (base_list (option_copied base.entry)) es result) }
    ensures cause { CommitCause (H.world.counts host.old) (H.world.counts host.new) result }
    ensures named { IsNamed actor.now changes.now result }
{
    let mut plan = plan_for(alloc, actor, token, changes)?;
    let files = room(alloc, plan.value.entries.items().len())?;
    match begin(host, plan.right.bytes()) {
        Begun::Taken => {}
        Begun::Busy => return Err(CommitError::Busy { name: plan.right }),
        Begun::Failed => {
            return Err(CommitError::Disk {
                passed: Passed::Before,
            });
        }
    }
    let moment = nearest_moment(ask(host));
    match date(alloc, &mut plan, moment) {
        Ok(()) => {}
        Err(Memory) => {
            release(host, plan.right.bytes());
            return Err(CommitError::Memory);
        }
    }
    let place = Place::new(alloc, files);
    let (end, place) = drive(alloc, &plan, place, changes, base, host);
    answer(end, plan, place)
}

// The whole of it.
fn whole<H: Host>(
    alloc: Global,
    actor: &[u8],
    token: u64,
    changes: &[Change],
    base: Option<&Folder>,
    host: &mut H,
) -> Result<(), CommitError>
    requires short { length actor.now ≤ actor_limit }
    requires no_zero { has_no_zero actor.now ≡ true }
    requires files { AreFiles actor.now changes.now }
    requires based { All (λ c. IsTrue (is_rewrite c) → IsSome base) changes.now }
    ensures ran { Ran H.world host.old host.new
        (λ es. IsCommit actor.now token changes.now (base_list (option_copied base.entry)) es result) }
    ensures cause { CommitCause (H.world.counts host.old) (H.world.counts host.new) result }
    ensures named { IsNamed actor.now changes.now result }
{
    match changes {
        [] => Ok(()),
        [_, ..] => some_changes(alloc, actor, token, changes, base, host),
    }
}

/// Makes changes of up to 256 files as one commit: stopped at any moment, a recovery leaves all of them or none. The
/// actor's right is taken first and given up at the end, and a commit that was stopped before is recovered. Once the
/// right is taken the time is asked for, and the records of the commit have the nearest moment that they may. `token` is
/// a number that no other run has. `base` is the folder for which a rewrite among the changes was made. Without a
/// change nothing is done.
///
/// `TooManyNames` comes if the changes name more than 256 files; then nothing is done. `Busy` comes if another has
/// the right or a file's lock, `Record` if what stands as the record is none, `Changed` if the file's messages
/// don't begin with those of `base`, and `TooLarge` if a file that is loaded or would be staged is too large. A file
/// that the changes leave absent is removed. Then, as when memory runs out, nothing is changed and nothing of this
/// commit is left. `Disk` comes if a call failed; then nothing more is done but that the right is given up, and
/// `passed` says whether the commit was decided.
pub fn commit<H: Host>(
    alloc: Global,
    actor: &[u8],
    token: u64,
    changes: &[Change],
    base: Option<&Folder>,
    host: &mut H,
) -> Result<(), CommitError>
    requires short { length actor.now ≤ actor_limit }
    requires no_zero { has_no_zero actor.now ≡ true }
    requires files { AreFiles actor.now changes.now }
    requires based { All (λ c. IsTrue (is_rewrite c) → IsSome base) changes.now }
    ensures ran { Ran H.world host.old host.new
        (λ es. IsCommit actor.now token changes.now (base_list (option_copied base.entry)) es result) }
    ensures told { Ran H.world host.old host.new
        (λ es. IsTold actor.now changes.now (base_list (option_copied base.entry)) es result) }
    ensures safe { WhereTold H.world host.old host.new (λ d es. MayCommit actor.now token d es
        → IsSafe actor.now token changes.now (base_list (option_copied base.entry)) d es result) }
    ensures complete { WhereTold H.world host.old host.new (λ d es. MayCommit actor.now token d es
        → IsComplete actor.now changes.now (base_list (option_copied base.entry)) (own es)
        (H.world.counts host.old) (H.world.counts host.new) result) }
    ensures steps { WhereTold H.world host.old host.new
        (λ d es. IsActorOf actor.now token changes.now (base_list (option_copied base.entry)) d es) }
    ensures cause { CommitCause (H.world.counts host.old) (H.world.counts host.new) result }
    ensures named { IsNamed actor.now changes.now result }
{
    whole(alloc, actor, token, changes, base, host)
}
