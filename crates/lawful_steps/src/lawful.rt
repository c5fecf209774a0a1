// Whether a step of another is lawful.
ghost use Rattle.std.specs.Prelude.{◌≡◌, ◌≢◌, false, Some, None, IfOk};
ghost use Rattle.std.specs.Bool.{Decides};
ghost use Rattle.std.specs.Option.{option_copied};
ghost use Rattle.commit_record.specs.declared.record.Record.{Record};
ghost use Rattle.host_port.specs.Disk.{Disk};
ghost use Rattle.commit_machine.specs.Lawful.{HasRight, IsLawful, IsLawfulWrite, standing};
ghost use Rattle.commit_machine.specs.Records.{record_in};
ghost use Rattle.lawful_steps.specs.Steps.{Shows, holds, token_of};

use crate::guarding::{Tokens, guarded, is_guarded, is_staged, owner, token_in};
use commit_machine::is_record_name;
use host_port::{DiskView, ForeignStep};
use mail_text::{Memory, Text};
use std::alloc::Global;

// Whether the owner of a lock is one of these tokens.
fn is_held(guarded: Tokens, owner: Option<u64>) -> bool
    ensures { result ≡ holds guarded.token guarded.standing owner }
{
    match owner {
        None => false,
        Some(token) => is_guarded(guarded, token),
    }
}

// Whether another may make these bytes, or none, what stands at a record name.
fn may_be_record(
    alloc: Global,
    guarded: Tokens,
    right: bool,
    bytes: Option<&Text>,
) -> Result<bool, Memory>
    ensures { IfOk result (λ b. Decides b ((right ≡ false) × (guarded.standing ≡ None)
        × ((r : Record) → record_in (option_copied bytes.entry) ≡ Some r → r.token ≢ guarded.token))) }
{
    if right || guarded.standing.is_some() {
        return Ok(false);
    }
    match token_in(alloc, bytes)? {
        Some(token) => Ok(token != guarded.token),
        None => Ok(true),
    }
}

// Whether another may make these bytes, or none, what stands at a name whose lock has this owner.
fn may_write(
    alloc: Global,
    actor: &[u8],
    guarded: Tokens,
    right: bool,
    owner: Option<u64>,
    name: &[u8],
    bytes: Option<&Text>,
) -> Result<bool, Memory>
    ensures { IfOk result (λ b. (d : Disk) → token_of (standing actor.now d) ≡ guarded.standing
        → Decides right (HasRight actor.now d) → d.locks name.now ≡ owner
        → Decides b (IsLawfulWrite actor.now guarded.token d name.now (option_copied bytes.entry))) }
{
    if is_held(guarded, owner) {
        return Ok(false);
    }
    if is_staged(alloc, guarded, name)? {
        return Ok(false);
    }
    if !is_record_name(actor, name) {
        return Ok(true);
    }
    may_be_record(alloc, guarded, right, bytes)
}

/// Whether a step of another is lawful beside the run of this actor and this token, on a disk that is shown by its files
/// and locks and by whether the run has the actor's right.
pub fn is_lawful(
    alloc: Global,
    actor: &[u8],
    token: u64,
    disk: &DiskView,
    right: bool,
    step: &ForeignStep,
) -> Result<bool, Memory>
    ensures { IfOk result (λ b. (d : Disk) → Shows actor.now disk.now.files disk.now.locks right d
        → Decides b (IsLawful actor.now token d step.now)) }
{
    let guarded = guarded(alloc, actor, token, disk.files.items())?;
    match step {
        ForeignStep::Write { name, bytes } => {
            let owner = owner(disk.locks.items(), name.bytes());
            may_write(
                alloc,
                actor,
                guarded,
                right,
                owner,
                name.bytes(),
                Some(bytes),
            )
        }
        ForeignStep::Remove { name } => {
            let owner = owner(disk.locks.items(), name.bytes());
            may_write(alloc, actor, guarded, right, owner, name.bytes(), None)
        }
        ForeignStep::Lock { token, .. } => Ok(!is_guarded(guarded, *token)),
        ForeignStep::Unlock { token, .. } => Ok(!is_guarded(guarded, *token)),
        ForeignStep::Seize { .. } => Ok(true),
        ForeignStep::Release { .. } => Ok(true),
    }
}
