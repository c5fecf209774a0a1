// The command that opens another file.
ghost use Rattle.std.specs.Prelude.{◌≡◌, ◌∷◌, [], IfOk};
ghost use Rattle.std.specs.List.{count_by};
ghost use Rattle.command_desk.specs.Answers.{Means};
ghost use Rattle.command_desk.specs.Desks.{IsDesk, IsWithin};
ghost use Rattle.folder_commands.specs.Opening.{is_in, opening_line, opens, file};

use crate::leaving::{changes_of, left_reply};
use command_desk::{Ask, Desk, Refusal, Steps, expanded, fault, says, unchanged};
use itoa::Buffer;
use mail_text::{Items, Memory, Text};
use message_state::{Row, State};
use std::alloc::Global;

// How many messages are in a state.
fn count_in(rows: &[Row], state: State) -> usize
    ensures { result ≡ count_by (is_in state) rows.now }
{
    rows.iter().filter(|row| row.mark.state == state).count()
}

/// The folder's name, how many messages it has, and how many are new and unread.
pub fn opening_line(alloc: Global, desk: &Desk) -> Result<Text, Memory>
    ensures { IfOk result (λ line. line ≡ opening_line desk.now) }
{
    let rows = desk.shown.rows.items();
    let mut buffer = Buffer::new();
    let mut line = Text::copy(alloc, b"\"")?;
    line.push(desk.folder.name.bytes())?;
    line.push(b"\": ")?;
    line.push(buffer.format(rows.len()).as_bytes())?;
    line.push(b" messages, ")?;
    line.push(buffer.format(count_in(rows, State::New)).as_bytes())?;
    line.push(b" new, ")?;
    line.push(buffer.format(count_in(rows, State::Unread)).as_bytes())?;
    line.push(b" unread\n")?;
    Ok(line)
}

// The file of this name is opened once the folder was left.
fn opens(alloc: Global, desk: &Desk, name: Text) -> Result<Steps, Memory>
    requires { IsDesk desk.now }
    ensures { IfOk result (λ steps. steps ≡ opens desk.now name) }
{
    let changes = changes_of(alloc, desk)?;
    let reply = left_reply(alloc, desk)?;
    let mut asks = Items::new(alloc);
    asks.push(Ask::Open {
        name,
        changes: Items::of(changes),
        reply,
    })?;
    Ok(Steps {
        asks,
        effects: unchanged(alloc),
    })
}

// The file that a word stands for is opened once the folder was left.
fn open_word(alloc: Global, command: &[u8], desk: &Desk, word: &[u8]) -> Result<Steps, Refusal>
    requires { IsDesk desk.now }
    ensures means { Means result (file command.now desk.now (word.now ∷ [])) }
    ensures within { IsWithin desk.now result }
{
    let name = expanded(alloc, desk, word)?;
    Ok(opens(alloc, desk, name)?)
}

/// `file`, `folder`, of which `command` is the one that was given: without a word the opening line is printed; with one
/// the folder is left as by `quit`, and the file that the word stands for is opened. Refused are more words, and a word
/// that stands for no file.
pub fn file(alloc: Global, command: &[u8], desk: &Desk, words: &[Text]) -> Result<Steps, Refusal>
    requires { IsDesk desk.now }
    ensures means { Means result (file command.now desk.now words.now) }
    ensures within { IsWithin desk.now result }
{
    match words {
        [] => {
            let line = opening_line(alloc, desk)?;
            says(alloc, line, unchanged(alloc))
        }
        [word] => open_word(alloc, command, desk, word.bytes()),
        _ => Err(fault(alloc, command, b": bad arguments")),
    }
}
