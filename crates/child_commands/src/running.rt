// A command that is run.
ghost use Rattle.std.specs.Prelude.{◌≡◌, IfOk};
ghost use Rattle.command_desk.specs.Answers.{Means};
ghost use Rattle.command_desk.specs.Desks.{IsWithin};
ghost use Rattle.child_commands.specs.Running.{runs, shell};

use command_desk::{Ask, Desk, Effects, Refusal, Steps, unchanged};
use mail_text::{Items, Text};
use std::alloc::Global;

/// A command is run with this input, and then this is changed.
pub(crate) fn runs(
    alloc: Global,
    command: Text,
    input: Text,
    effects: Effects,
) -> Result<Steps, Refusal>
    ensures means { Means result (runs command input effects) }
    ensures effects { IfOk result (λ steps. steps.effects ≡ effects) }
{
    let mut asks = Items::new(alloc);
    asks.push(Ask::Child { command, input })?;
    Ok(Steps { asks, effects })
}

/// `!`: what follows it in the line is the command, as it stands there; it has no input, and nothing is changed.
pub fn shell(alloc: Global, desk: &Desk, rest: &[u8]) -> Result<Steps, Refusal>
    ensures means { Means result (shell rest.now) }
    ensures within { IsWithin desk.now result }
{
    let command = Text::copy(alloc, rest)?;
    runs(alloc, command, Text::new(alloc), unchanged(alloc))
}
