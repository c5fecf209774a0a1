// A message that is edited.
ghost use Rattle.std.specs.Prelude.{◌≡◌, IfOk, codes};
ghost use Rattle.command_desk.specs.Answers.{Means};
ghost use Rattle.command_desk.specs.Desks.{IsDesk, IsWithin};
ghost use Rattle.child_commands.specs.Editing.{edits, edited_by, edit, visual};

use command_desk::{Ask, Desk, Refusal, Steps, chosen, single, unchanged};
use mail_text::{Items, Memory, Text};
use message_list::Purpose;
use std::alloc::Global;

// A message is edited by this command.
fn edits(alloc: Global, number: u32, command: &[u8]) -> Result<Steps, Memory>
    ensures { IfOk result (λ steps. steps ≡ edits number command.now) }
{
    let command = Text::copy(alloc, command)?;
    let mut asks = Items::new(alloc);
    asks.push(Ask::Edit { number, command })?;
    Ok(Steps {
        asks,
        effects: unchanged(alloc),
    })
}

// The one message that is selected is edited by this command, for the command of this name.
fn edited_by(
    alloc: Global,
    name: &[u8],
    command: &[u8],
    desk: &Desk,
    words: &[Text],
) -> Result<Steps, Refusal>
    requires { IsDesk desk.now }
    ensures means { Means result (edited_by name.now command.now desk.now words.now) }
    ensures within { IsWithin desk.now result }
{
    let numbers = chosen(alloc, words, desk, Purpose::Live)?;
    let number = single(alloc, name, numbers.items())?;
    Ok(edits(alloc, number, command)?)
}

/// `edit`: one message is edited by the editor of the places. Refused is what `chosen` refuses, and more than one message.
pub fn edit(alloc: Global, desk: &Desk, words: &[Text]) -> Result<Steps, Refusal>
    requires { IsDesk desk.now }
    ensures means { Means result (edit desk.now words.now) }
    ensures within { IsWithin desk.now result }
{
    edited_by(alloc, b"edit", desk.places.editor.bytes(), desk, words)
}

/// `visual`: the same, by the visual editor of the places.
pub fn visual(alloc: Global, desk: &Desk, words: &[Text]) -> Result<Steps, Refusal>
    requires { IsDesk desk.now }
    ensures means { Means result (visual desk.now words.now) }
    ensures within { IsWithin desk.now result }
{
    edited_by(alloc, b"visual", desk.places.visual.bytes(), desk, words)
}
