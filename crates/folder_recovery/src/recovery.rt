// Recovery.
ghost use Rattle.std.specs.Prelude.{◌≡◌, ◌≤◌, ◌<◌, ℕ, true, length, IfOk};
ghost use Rattle.host_port.specs.Names.{has_no_zero};
ghost use Rattle.host_port.specs.Ran.{Ran};
ghost use Rattle.commit_machine.specs.Names.{actor_limit};
ghost use Rattle.commit_machine.specs.Edits.{recovery_for};
ghost use Rattle.commit_driver.specs.Did.{LoadsFit};
ghost use Rattle.commit_driver.specs.Steps.{EndFits};
ghost use Rattle.commit_driver.specs.Places.{nth};
ghost use Rattle.folder_recovery.specs.Told.{IsTold};
ghost use Rattle.folder_recovery.specs.Safe.{WhereTold, MayRecover, RecoversSafely, IsComplete};
ghost use Rattle.folder_recovery.specs.Recovering.{Recovers, RecoverCause, IsNamed, recovery_plan, answer_of};

use crate::RecoverError;
use commit_driver::{Begun, End, Place, Plan, Recovered, begin, drive};
use commit_machine::{new_name, record_name, right_name};
use commit_record::{Phase, Record};
use host_port::Host;
use mail_text::{Items, Memory, Text};
use std::alloc::Global;

// The plan of a recovery, which has no files.
fn plan_for(alloc: Global, actor: &[u8]) -> Result<Plan, Memory>
    ensures { IfOk result (λ p. p ≡ recovery_plan actor.now) }
{
    let record = record_name(alloc, actor)?;
    let new = new_name(alloc, actor)?;
    let right = right_name(alloc, actor)?;
    Ok(Plan {
        record,
        new,
        right,
        commits: false,
        value: Record {
            phase: Phase::Go,
            token: 0,
            moment: None,
            entries: Items::new(alloc),
        },
        staged: Items::new(alloc),
        prepare: Text::new(alloc),
    })
}

// Where the file of this entry of the record that was found is made.
fn staged_file(place: Place, at: usize) -> Text
    requires { at < length place.found_staged }
    ensures { result ≡ nth place.found_staged at }
{
    let mut staged = place.found_staged.into_vec();
    staged.remove(at)
}

// The answer of a recovery that took its right and ended so. Since it has no files and isn't decided, what is left
// is that the record is none.
fn answer(end: End, plan: Plan, place: Place) -> Result<Recovered, RecoverError>
    requires { EndFits 0 (length place.found_staged) end }
    ensures { result ≡ answer_of end plan place }
{
    match end {
        End::Recovered(found) => Ok(found),
        End::RecordTooLarge(length) => Err(RecoverError::TooLarge {
            name: plan.record,
            length,
        }),
        End::StagedTooLarge(at, length) => Err(RecoverError::TooLarge {
            name: staged_file(place, at),
            length,
        }),
        End::Failed(_) => Err(RecoverError::Disk),
        End::NoMemory => Err(RecoverError::Memory),
        _ => Err(RecoverError::NotARecord),
    }
}

// The whole of it, as a run of the machine.
fn run<H: Host>(alloc: Global, actor: &[u8], host: &mut H) -> Result<Recovered, RecoverError>
    requires short { length actor.now ≤ actor_limit }
    requires no_zero { has_no_zero actor.now ≡ true }
    ensures ran { (token : ℕ)
        → Ran H.world host.old host.new (λ es. Recovers (recovery_for actor.now token) es result) }
    ensures within { Ran H.world host.old host.new LoadsFit }
    ensures named { IsNamed actor.now result }
    ensures cause { RecoverCause (H.world.counts host.old) (H.world.counts host.new) result }
{
    let plan = plan_for(alloc, actor)?;
    match begin(host, plan.right.bytes()) {
        Begun::Taken => {}
        Begun::Busy => return Err(RecoverError::Busy { name: plan.right }),
        Begun::Failed => return Err(RecoverError::Disk),
    }
    let place = Place::new(alloc, Items::new(alloc));
    let (end, place) = drive(alloc, &plan, place, &[], None, host);
    answer(end, plan, place)
}

/// Recovers what a stopped commit of the actor has left. A commit that was decided is carried out: its staged files
/// are put in place, its locks are taken away, and its record is erased. One that wasn't decided is undone. It takes
/// the actor's right first and gives it up at the end. The answer says what was found, with the moment that its record
/// has.
///
/// `Busy` comes if another has the right, `NotARecord` if what stands as the record is none, `TooLarge` if it,
/// or the staged file of a removal, is too large to load, and `Disk` if a call failed; then nothing more is done but
/// that the right is given up.
pub fn recover<H: Host>(
    alloc: Global,
    actor: &[u8],
    host: &mut H,
) -> Result<Recovered, RecoverError>
    requires short { length actor.now ≤ actor_limit }
    requires no_zero { has_no_zero actor.now ≡ true }
    ensures ran { (token : ℕ)
        → Ran H.world host.old host.new (λ es. Recovers (recovery_for actor.now token) es result) }
    ensures within { Ran H.world host.old host.new LoadsFit }
    ensures told { Ran H.world host.old host.new (λ es. IsTold actor.now es result) }
    ensures safe { (token : ℕ) → WhereTold H.world host.old host.new
        (λ d es. MayRecover actor.now token d es → RecoversSafely actor.now token d es result) }
    ensures complete { Ran H.world host.old host.new
        (λ es. IsComplete actor.now es (H.world.counts host.old) (H.world.counts host.new) result) }
    ensures named { IsNamed actor.now result }
    ensures cause { RecoverCause (H.world.counts host.old) (H.world.counts host.new) result }
{
    run(alloc, actor, host)
}
