// Messages that a command is given.
ghost use Rattle.std.specs.Prelude.{◌≡◌, ◌++◌, All, IfOk, OnOk};
ghost use Rattle.std.specs.List.{flat_map};
ghost use Rattle.command_desk.specs.Answers.{Means};
ghost use Rattle.command_desk.specs.Desks.{IsDesk, IsMessageOf, IsWithin};
ghost use Rattle.child_commands.specs.Piping.{text_line, into_command, into_variable, pipe};

use crate::running::runs;
use command_desk::{Desk, Refusal, Steps, chosen, fault, last_word, list_words, marked, message};
use mail_text::{Memory, Text};
use message_list::Purpose;
use message_state::Act;
use std::alloc::Global;

// Puts the text of a message and a line feed.
fn put_text(out: &mut Text, desk: &Desk, n: u32) -> Result<(), Memory>
    requires desk { IsDesk desk.now }
    requires message { IsMessageOf desk.now.shown n }
    ensures { OnOk result (out.new ≡ out.old ++ text_line desk.now n) }
{
    out.push(message(desk, n).text())?;
    out.push(b"\n")
}

// The texts of messages, each with a line feed.
fn texts_of(alloc: Global, desk: &Desk, numbers: &[u32]) -> Result<Text, Memory>
    requires desk { IsDesk desk.now }
    requires messages { All (IsMessageOf desk.now.shown) numbers.now }
    ensures { IfOk result (λ t. t ≡ flat_map (text_line desk.now) numbers.now) }
{
    let mut out = Text::new(alloc);
    for n in numbers {
        put_text(&mut out, desk, *n)?;
    }
    Ok(out)
}

// Gives the texts of the selected messages to a command.
fn into_command(alloc: Global, desk: &Desk, list: &[Text], command: &[u8]) -> Result<Steps, Refusal>
    requires { IsDesk desk.now }
    ensures means { Means result (into_command desk.now list.now command.now) }
    ensures within { IsWithin desk.now result }
{
    let numbers = chosen(alloc, list, desk, Purpose::Live)?;
    let command = Text::copy(alloc, command)?;
    let input = texts_of(alloc, desk, numbers.items())?;
    let effects = marked(alloc, desk, Act::Look, numbers.items())?;
    runs(alloc, command, input, effects)
}

// Gives the text of the current message to the command that the variable `cmd` is.
fn into_variable(alloc: Global, name: &[u8], desk: &Desk) -> Result<Steps, Refusal>
    requires { IsDesk desk.now }
    ensures means { Means result (into_variable name.now desk.now) }
    ensures within { IsWithin desk.now result }
{
    match desk.vars.get(b"cmd") {
        Some(command) => into_command(alloc, desk, &[], command),
        None => Err(fault(alloc, name, b": bad arguments")),
    }
}

/// `pipe` and `|`, by the name of the one that is given: the last word is the command, or if there is no word the
/// variable `cmd`. It is given the texts of the selected messages, each with a line feed after it; then they are looked
/// at, and the last of them is current. Refused is first the lack of a command, and then what `chosen` refuses.
pub fn pipe(alloc: Global, name: &[u8], desk: &Desk, words: &[Text]) -> Result<Steps, Refusal>
    requires { IsDesk desk.now }
    ensures means { Means result (pipe name.now desk.now words.now) }
    ensures within { IsWithin desk.now result }
{
    if words.is_empty() {
        into_variable(alloc, name, desk)
    } else {
        into_command(alloc, desk, list_words(words), last_word(words))
    }
}
