// Changes of files, by a commit.
ghost use Rattle.std.specs.Prelude.{◌≡◌, ◌≤◌, true, length, All, IsTrue, IsSome, IfErr, IfOk, option_copied};
ghost use Rattle.host_port.specs.Names.{has_no_zero};
ghost use Rattle.host_port.specs.Ran.{Ran};
ghost use Rattle.folder_change.specs.Changes.{is_rewrite};
ghost use Rattle.folder_change.specs.Outcomes.{base_list};
ghost use Rattle.commit_machine.specs.Names.{actor_limit};
ghost use Rattle.session_play.specs.Committing.{wanted_of, first_target_fault, taken};
ghost use Rattle.session_play.specs.Cuts.{IsLoadCut};
ghost use Rattle.session_play.specs.Play.{Play, Ask, Ret, Changes, Goes, Caused};

use crate::{NameFault, Stop, target_fault};
use folder_change::{Change, change_name};
use folder_commit::{CommitError, commit};
use host_port::Host;
use mail_text::{Memory, Text};
use mbox_scan::Folder;
use std::alloc::Global;

/// What a commit is answered, faults and running out of memory aside.
#[derive(Drop, Debug)]
pub enum Committed {
    /// All was done, or there was nothing to do.
    Done,
    /// Another has the right or the lock of this name.
    Busy { name: Text },
    /// The file of the record is no record.
    NotARecord,
    /// The file of this name has changed at this message.
    Changed { name: Text, at: u64 },
    /// The file of this name has or would have `length` bytes.
    TooLarge { name: Text, length: u64 },
    /// The changes name `count` files, more than one commit takes.
    TooManyNames { count: u64 },
}

/// What came of changes of files.
#[derive(Drop, Debug)]
pub enum Attempt {
    /// They were committed, or that was refused.
    Made { answer: Committed },
    /// Nothing was done, since the name of one of the files is at fault.
    Misnamed { name: Text, fault: NameFault },
}

// What a run makes of a commit's answer.
fn taken(answer: Result<(), CommitError>) -> Result<Attempt, Stop>
    ensures { result ≡ taken answer }
{
    let answer = match answer {
        Ok(()) => Committed::Done,
        Err(CommitError::Busy { name }) => Committed::Busy { name },
        Err(CommitError::Record) => Committed::NotARecord,
        Err(CommitError::Changed { name, at }) => Committed::Changed { name, at },
        Err(CommitError::TooLarge { name, length }) => Committed::TooLarge { name, length },
        Err(CommitError::TooManyNames { count }) => Committed::TooManyNames { count },
        Err(CommitError::Disk { passed: _ }) => return Err(Stop::Disk),
        Err(CommitError::Memory) => return Err(Stop::Memory),
    };
    Ok(Attempt::Made { answer })
}

// The first of these changes' files whose name is at fault.
fn first_target_fault(
    alloc: Global,
    actor: &[u8],
    changes: &[Change],
) -> Result<Option<(Text, NameFault)>, Memory>
    ensures { IfOk result (λ found. found ≡ first_target_fault actor.now changes.now) }
{
    for change in changes {
        let name = change_name(change);
        if let Some(fault) = target_fault(actor, name) {
            return Ok(Some((Text::copy(alloc, name)?, fault)));
        }
    }
    Ok(None)
}

/// Makes changes of up to 256 files as one commit of this actor, under a token that no other run has, unless the name
/// of a file is at fault. `base` is the folder that a rewrite among them was made for. A fault of the disk and running
/// out of memory cut the run off; all else is an answer.
pub fn change<H: Host>(
    alloc: Global,
    host: &mut H,
    actor: &[u8],
    token: u64,
    changes: &[Change],
    base: Option<&Folder>,
) -> Result<Attempt, Stop>
    requires short { length actor.now ≤ actor_limit }
    requires no_zero { has_no_zero actor.now ≡ true }
    requires based { All (λ c. IsTrue (is_rewrite c) → IsSome base) changes.now }
    ensures ran { let wanted = wanted_of actor.now token changes.now (base_list (option_copied base.entry)) in
        Ran H.world host.old host.new (λ es. Goes (Ask (Changes wanted) Ret) es result) }
    ensures cause { Caused (H.world.counts host.old) (H.world.counts host.new) result }
    ensures only_disk { IfErr result IsLoadCut }
{
    match first_target_fault(alloc, actor, changes) {
        Ok(Some((name, fault))) => Ok(Attempt::Misnamed { name, fault }),
        Ok(None) => taken(commit(alloc, actor, token, changes, base, host)),
        Err(Memory) => Err(Stop::Memory),
    }
}
