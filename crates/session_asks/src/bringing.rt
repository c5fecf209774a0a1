// Lines that a command brings.
ghost use Rattle.std.specs.Prelude.{◌≡◌, ◌<◌, ◌^◌, length, IfOk, OnErr};
ghost use Rattle.session_state.specs.Bringing.{HasPlace, with_lines, OnlyBrings};
ghost use Rattle.session_state.specs.States.{OnlyFrames};

use mail_text::{Memory, Text};
use session_state::{AskResult, Frame, FrameKind, SessionState};

// How many bytes a text has: a number of 64 bits.
fn size_of(text: &Text) -> usize
    ensures size { result ≡ length text.now }
    ensures small { length text.now < 2 ^ 64 }
{
    text.bytes().len()
}

/// Puts the lines of a text in front of those that wait.
pub(crate) fn push_lines(
    state: &mut SessionState,
    kind: FrameKind,
    text: Text,
) -> Result<AskResult, Memory>
    requires { HasPlace kind state.old.frames }
    ensures on { IfOk result (λ asked. asked ≡ AskResult.On) }
    ensures ok { IfOk result (λ asked. state.new ≡ with_lines kind state.old text) }
    ensures brings { OnlyBrings state.old state.new }
    ensures desk { OnlyFrames state.old state.new }
    ensures err { OnErr result (state.new ≡ state.old) }
{
    // the clause `brings` speaks of how many lines a text can have
    let _size = size_of(&text);
    let nested = state.desk.conditions.depth();
    let frame = Frame::new(state.frames.origin(), kind, nested, text);
    match state.frames.push(frame) {
        Ok(()) => Ok(AskResult::On),
        Err(Memory) => Err(Memory),
    }
}
