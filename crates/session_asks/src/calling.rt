// A macro whose lines a command brings.
ghost use Rattle.std.specs.Prelude.{◌≡◌, IfErr, IfOk};
ghost use Rattle.session_state.specs.Bringing.{OnlyBrings};
ghost use Rattle.session_asks.specs.Calling.{called};
ghost use Rattle.session_state.specs.States.{OnlyFrames};
ghost use Rattle.session_state.specs.Answers.{after_asks, EndsNoRun};

use crate::bringing::push_lines;
use mail_text::{Memory, Text};
use session_state::{AskResult, FrameKind, RunError, SessionState, refused};
use std::alloc::Global;

/// The most calls that are open at once.
const CALL_LIMIT: usize = 32;

// Brings the lines of a macro, unless as many calls are open as may be.
fn call_lines(alloc: Global, state: &mut SessionState, text: &Text) -> Result<AskResult, Memory>
    ensures means { IfOk result (λ asked. after_asks state.new asked ≡ called state.old text.now) }
    ensures brings { OnlyBrings state.old state.new }
    ensures desk { OnlyFrames state.old state.new }
    ensures goes_on { IfOk result EndsNoRun }
{
    if state.frames.calls() < CALL_LIMIT {
        let text = Text::copy(alloc, text.bytes())?;
        push_lines(state, FrameKind::Call, text)
    } else {
        refused(alloc, b"calls nest too deep", b"")
    }
}

/// Brings the lines of a macro; running out of memory ends the run.
pub(crate) fn call(
    alloc: Global,
    state: &mut SessionState,
    text: &Text,
) -> Result<AskResult, RunError>
    ensures means { IfOk result (λ asked. after_asks state.new asked ≡ called state.old text.now) }
    ensures memory { IfErr result (λ e. e ≡ RunError.Memory) }
    ensures brings { OnlyBrings state.old state.new }
    ensures desk { OnlyFrames state.old state.new }
    ensures goes_on { IfOk result EndsNoRun }
{
    Ok(call_lines(alloc, state, text)?)
}
