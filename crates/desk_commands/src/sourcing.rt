// The command that brings the lines of a file.
ghost use Rattle.std.specs.Prelude.{◌≡◌, ◌∷◌, [], IfOk};
ghost use Rattle.command_desk.specs.Answers.{Means};
ghost use Rattle.command_desk.specs.Desks.{IsWithin};
ghost use Rattle.desk_commands.specs.Sourcing.{bringing, source};

use command_desk::{Ask, Desk, Refusal, Steps, expanded, fault, unchanged};
use mail_text::{Items, Memory, Text};
use std::alloc::Global;

// The lines of the file of this name are asked for, and nothing is changed.
fn bringing(alloc: Global, name: Text) -> Result<Steps, Memory>
    ensures { IfOk result (λ steps. steps ≡ bringing name) }
{
    let mut asks = Items::new(alloc);
    asks.push(Ask::Source { name })?;
    Ok(Steps {
        asks,
        effects: unchanged(alloc),
    })
}

// The lines of the file that a word stands for are asked for, and nothing is changed.
fn source_word(alloc: Global, desk: &Desk, word: &[u8]) -> Result<Steps, Refusal>
    ensures means { Means result (source desk.now (word.now ∷ [])) }
    ensures within { IsWithin desk.now result }
{
    let name = expanded(alloc, desk, word)?;
    Ok(bringing(alloc, name)?)
}

/// `source`: the lines of the file that its one word stands for are carried out next. Refused are another number of
/// words, and a word that stands for no file.
pub fn source(alloc: Global, desk: &Desk, words: &[Text]) -> Result<Steps, Refusal>
    ensures means { Means result (source desk.now words.now) }
    ensures within { IsWithin desk.now result }
{
    match words {
        [word] => source_word(alloc, desk, word.bytes()),
        _ => Err(fault(alloc, b"source", b": bad arguments")),
    }
}
