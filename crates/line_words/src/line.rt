ghost use Rattle.std.specs.Prelude.{◌≡◌, ◌⊎◌, ◌<◌, ◌≤◌, ℕ, List, length};
ghost use Rattle.std.specs.List.{prefix_len};
ghost use Rattle.std.specs.Char.{is_ascii_alphabetic};
ghost use Rattle.mail_text.specs.Ascii.{is_blank};
ghost use Rattle.line_words.specs.Line.{is_mark, word_length, command_named, command_in, takes_rest, takes_list, read_as, reading, IsUnknown, IsOpen, OrMemory, ComesWhere};

use crate::Command;
use crate::cut::words_by;
use crate::table::command_of;
use mail_text::{Items, Memory, Text, is_blank};
use std::alloc::Global;
use thiserror::Error;

/// A command line has at most this many bytes.
const LONGEST: usize = 65_536;

/// A line of a command.
#[derive(Drop)]
pub struct CommandLine {
    /// The command that the word names; without a word `Next` if the line is empty, and otherwise `Print`.
    pub command: Command,
    /// The command word as it stands in the line, or empty.
    pub word: Text,
    /// The words after the command word, without their quotes.
    pub words: Items<Text>,
    /// What follows `!` or `#`, as it stands in the line; empty for other commands.
    pub rest: Text,
}

/// Why a line isn't read.
#[derive(Debug, Drop, Error)]
pub enum LineError {
    /// The line has more than 65,536 bytes.
    #[error("line too long")]
    TooLong,
    /// The command word names no command.
    #[error("{word}: unknown command")]
    Unknown { word: Text },
    /// A quote isn't closed.
    #[error("open quote")]
    OpenQuote,
    /// Memory ran out.
    #[error("out of memory")]
    Memory,
}

impl From<Memory> for LineError {
    ghost use Rattle.std.specs.Prelude.{◌≡◌};
    ghost use Rattle.line_words.specs.declared.line.LineError.TheVariants.{Memory};

    ghost from_gives = { λ _ e. e ≡ Memory };

    fn from(_: Memory) -> LineError {
        LineError::Memory
    }
}

/// The command that a line names, as `read_line` reads its word: nothing if the word names no command. It is the same
/// whatever stands behind the word, also where `read_line` refuses the line.
pub fn command_in(line: &[u8]) -> Option<Command>
    ensures { result ≡ command_in line.now }
{
    let (_, text) = line.split_at(blank_length(line));
    let (word, after) = text.split_at(word_length(text));
    command_named(word, after)
}

/// Reads the line of a command: the command word and the words after it, or for `!` and `#` the rest as it stands.
/// Blanks, which are spaces and tabs, are passed over at the front. The command word is the first byte if it is
/// `!`, `|`, `#`, `=` or `?`, else `z+` or `z-` if the line begins so, else the longest run of ASCII letters. An
/// empty line is `next`, and one without a command word `print` with the line as words.
///
/// Words are separated by blanks. In a word `"` to `"` and `'` to `'` stand for the bytes inside; outside quotes a
/// backslash takes the next byte, and at the line's end it stands for itself. In a line whose words may have a list or a
/// message, a word that begins with `(` has what follows up to the `)` that closes it, or up to the end of the line, as it
/// stands; strings in it, from `"` to `"`, are passed over.
///
/// `TooLong` comes exactly if the line has more than 65,536 bytes, `Unknown` exactly if its command word
/// names no command, `OpenQuote` exactly if a quote isn't closed after a command that takes words. They are
/// looked for in this order.
pub fn read_line(alloc: Global, line: &[u8]) -> Result<CommandLine, LineError>
    ensures reads { OrMemory result (reading line.now) }
    ensures too_long { ComesWhere result LineError.TooLong (65536 < length line.now) }
    ensures unknown { (word : List ℕ) → ComesWhere result (LineError.Unknown word) (IsUnknown line.now word) }
    ensures open_quote { ComesWhere result LineError.OpenQuote (IsOpen line.now) }
{
    if line.len() > LONGEST {
        return Err(LineError::TooLong);
    }
    let (_, text) = line.split_at(blank_length(line));
    let (word, after) = text.split_at(word_length(text));
    match command_named(word, after) {
        Some(command) => read_as(alloc, command, word, after),
        None => Err(unknown(alloc, word)),
    }
}

// Reads a line of this command, from its word and what follows it.
fn read_as(
    alloc: Global,
    command: Command,
    word: &[u8],
    after: &[u8],
) -> Result<CommandLine, LineError>
    ensures { OrMemory result (read_as command word.now after.now) }
{
    let word = Text::copy(alloc, word)?;
    if takes_rest(command) {
        let rest = Text::copy(alloc, after)?;
        return Ok(CommandLine {
            command,
            word,
            words: Items::new(alloc),
            rest,
        });
    }
    let words = words_by(alloc, takes_list(command), after)?;
    match words {
        Some(words) => Ok(CommandLine {
            command,
            word,
            words,
            rest: Text::new(alloc),
        }),
        None => Err(LineError::OpenQuote),
    }
}

// The error of a word that names no command.
fn unknown(alloc: Global, word: &[u8]) -> LineError
    ensures { (result ≡ LineError.Unknown word.now) ⊎ (result ≡ LineError.Memory) }
{
    match Text::copy(alloc, word) {
        Ok(word) => LineError::Unknown { word },
        Err(Memory) => LineError::Memory,
    }
}

// How many blanks stand at the front.
fn blank_length(line: &[u8]) -> usize
    ensures value { result ≡ prefix_len is_blank line.now }
    ensures within { result ≤ length line.now }
{
    line.iter()
        .position(|byte| !is_blank(*byte))
        .unwrap_or(line.len())
}

// Whether the byte is a command word by itself.
fn is_mark(byte: u8) -> bool
    ensures { result ≡ is_mark byte }
{
    matches!(byte, b'!' | b'|' | b'#' | b'=' | b'?')
}

// How many letters stand at the front.
fn letters(text: &[u8]) -> usize
    ensures value { result ≡ prefix_len is_ascii_alphabetic text.now }
    ensures within { result ≤ length text.now }
{
    text.iter()
        .position(|byte| !byte.is_ascii_alphabetic())
        .unwrap_or(text.len())
}

// How many bytes of the text the command word has.
fn word_length(text: &[u8]) -> usize
    ensures value { result ≡ word_length text.now }
    ensures within { result ≤ length text.now }
{
    match text {
        [b, ..] if is_mark(*b) => 1,
        [b'z', b'+' | b'-', ..] => 2,
        _ => letters(text),
    }
}

// The command that the word names before what follows it.
fn command_named(word: &[u8], after: &[u8]) -> Option<Command>
    ensures { result ≡ command_named word.now after.now }
{
    match (word, after) {
        ([], []) => Some(Command::Next),
        ([], _) => Some(Command::Print),
        _ => command_of(word),
    }
}

// Whether the command takes the rest of the line as it stands.
fn takes_rest(command: Command) -> bool
    ensures { result ≡ takes_rest command }
{
    matches!(command, Command::Shell | Command::Comment)
}

// Whether the words of the command may have a list or a message.
fn takes_list(command: Command) -> bool
    ensures { result ≡ takes_list command }
{
    matches!(
        command,
        Command::Answered
            | Command::Copy
            | Command::CopyByAuthor
            | Command::Delete
            | Command::DeleteAndPrint
            | Command::Draft
            | Command::Edit
            | Command::Flag
            | Command::Followup
            | Command::FollowupAuthors
            | Command::From
            | Command::Headers
            | Command::Hold
            | Command::Mbox
            | Command::Next
            | Command::Pipe
            | Command::Print
            | Command::PrintAll
            | Command::Reply
            | Command::ReplyAuthors
            | Command::Save
            | Command::SaveByAuthor
            | Command::Size
            | Command::Top
            | Command::Touch
            | Command::Unanswered
            | Command::Undelete
            | Command::Undraft
            | Command::Unflag
            | Command::Visual
            | Command::Write
    )
}
