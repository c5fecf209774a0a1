ghost use Rattle.std.specs.Prelude.{◌≡◌, [], Some, IfOk};
ghost use Rattle.trial_host.specs.Scripts.{scripted_world};
ghost use Rattle.trial_host.specs.Trials.{trial_start};

use crate::scripted::Scripted;
use crate::texts::{trial_lines, trial_plan, trial_view};
use host_memory::MemHost;
use mail_text::Memory;
use std::alloc::Global;

/// A host with the mailbox of this many messages and the lines of a trial, with no event so far.
pub fn first_host(alloc: Global, count: u64) -> Result<Scripted, Memory>
    ensures start { IfOk result (λ host. scripted_world.start host ≡ trial_start count) }
    ensures told { IfOk result (λ host. scripted_world.told host ≡ Some []) }
{
    let view = trial_view(alloc, count)?;
    let lines = trial_lines(alloc)?;
    match MemHost::new(alloc, view, lines, trial_plan(alloc)) {
        Ok(memory) => Ok(Scripted::of(memory)),
        Err(memory) => Err(memory),
    }
}
