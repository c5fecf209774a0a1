// The recovery of what a stopped commit has left.
ghost use Rattle.std.specs.Prelude.{◌≡◌, ◌≤◌, ℕ, true, length, IfErr};
ghost use Rattle.host_port.specs.Names.{has_no_zero};
ghost use Rattle.host_port.specs.Ran.{Ran};
ghost use Rattle.commit_machine.specs.Names.{actor_limit};
ghost use Rattle.session_play.specs.Cuts.{IsLoadCut};
ghost use Rattle.session_play.specs.Play.{Play, Ask, Ret, Recover, Goes, Caused};
ghost use Rattle.session_play.specs.Recovering.{recovered};

use crate::Stop;
use folder_recovery::{RecoverError, Recovered, recover};
use host_port::Host;
use mail_text::Text;
use std::alloc::Global;

/// What a recovery is answered, faults and running out of memory aside.
#[derive(Drop, Debug)]
pub enum RecoveryAnswer {
    /// No record stands any more: there was none, or its commit was carried out or undone.
    Done(Recovered),
    /// Another has the right of this name.
    Busy { name: Text },
    /// The file of the record is no record.
    NotARecord,
    /// The file of this name, the record or a staged one, has `length` bytes, more than a load takes.
    TooLarge { name: Text, length: u64 },
}

// What a run makes of a recovery's answer.
fn recovered(answer: Result<Recovered, RecoverError>) -> Result<RecoveryAnswer, Stop>
    ensures { result ≡ recovered answer }
{
    match answer {
        Ok(found) => Ok(RecoveryAnswer::Done(found)),
        Err(RecoverError::Busy { name }) => Ok(RecoveryAnswer::Busy { name }),
        Err(RecoverError::NotARecord) => Ok(RecoveryAnswer::NotARecord),
        Err(RecoverError::TooLarge { name, length }) => Ok(RecoveryAnswer::TooLarge {
            name,
            length,
        }),
        Err(RecoverError::Disk) => Err(Stop::Disk),
        Err(RecoverError::Memory) => Err(Stop::Memory),
    }
}

/// Recovers what a stopped commit of this actor has left: a commit that was decided is carried out, one that wasn't is
/// undone. A fault of the disk and running out of memory cut the run off; all else is an answer.
pub fn recovery<H: Host>(alloc: Global, host: &mut H, actor: &[u8]) -> Result<RecoveryAnswer, Stop>
    requires short { length actor.now ≤ actor_limit }
    requires no_zero { has_no_zero actor.now ≡ true }
    ensures ran { (token : ℕ) → Ran H.world host.old host.new
        (λ es. Goes (Ask (Recover actor.now token) Ret) es result) }
    ensures cause { Caused (H.world.counts host.old) (H.world.counts host.new) result }
    ensures only_disk { IfErr result IsLoadCut }
{
    recovered(recover(alloc, actor, host))
}
