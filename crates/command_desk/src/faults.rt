// The lines that refuse a command.
ghost use Rattle.std.specs.Prelude.{◌≡◌, ◌++◌, IfOk};
ghost use Rattle.mail_text.specs.Lines.{with_feed};
ghost use Rattle.command_desk.specs.Answers.{IsRefusal};

use crate::Refusal;
use mail_text::{Memory, Text};
use std::alloc::Global;

/// A word and what is wrong with it, as a line. It fails only if memory runs out.
pub fn line_of(alloc: Global, word: &[u8], fault: &[u8]) -> Result<Text, Memory>
    ensures { IfOk result (λ line. line ≡ with_feed (word.now ++ fault.now)) }
{
    let mut line = Text::copy(alloc, word)?;
    line.push(fault)?;
    line.push(b"\n")?;
    Ok(line)
}

/// The refusal by a word and what is wrong with it.
pub fn fault(alloc: Global, word: &[u8], fault: &[u8]) -> Refusal
    ensures { IsRefusal result (with_feed (word.now ++ fault.now)) }
{
    match line_of(alloc, word, fault) {
        Ok(line) => Refusal::Fault { line },
        Err(Memory) => Refusal::Memory,
    }
}
