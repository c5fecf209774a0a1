// What stands in the way of a change that a command gathers.
ghost use Rattle.std.specs.Prelude.{◌≡◌, IfErr, IfOk};
ghost use Rattle.session_asks.specs.Gathering.{gather_fault, gathers};
ghost use Rattle.session_state.specs.Answers.{after_asks, EndsNoRun};

use command_desk::line_of;
use mail_text::{Memory, Text};
use session_state::{AskResult, RunError, SessionState, name_fault};
use std::alloc::Global;

// What stands in the way: what is wrong with the name of the file, or else as many others as may be.
fn gather_fault(alloc: Global, state: &SessionState, name: &[u8]) -> Result<Option<Text>, Memory>
    ensures { IfOk result (λ fault. fault ≡ gather_fault state.now name.now) }
{
    if let Some(line) = name_fault(alloc, state, name)? {
        return Ok(Some(line));
    }
    if state.desk.gathered.lacks_place(name) {
        Ok(Some(line_of(alloc, b"too many files", b"")?))
    } else {
        Ok(None)
    }
}

/// Refuses what is to be gathered, if something stands in its way; running out of memory ends the run.
pub(crate) fn gather(
    alloc: Global,
    state: &SessionState,
    name: &[u8],
) -> Result<AskResult, RunError>
    ensures means { IfOk result
        (λ asked. after_asks state.now asked ≡ gathers state.now (gather_fault state.now name.now)) }
    ensures memory { IfErr result (λ e. e ≡ RunError.Memory) }
    ensures goes_on { IfOk result EndsNoRun }
{
    match gather_fault(alloc, state, name)? {
        Some(line) => Ok(AskResult::Refused { line }),
        None => Ok(AskResult::On),
    }
}
