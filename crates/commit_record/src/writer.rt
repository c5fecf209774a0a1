// A record as a text.
ghost use Rattle.std.specs.Prelude.{◌≡◌, ◌++◌, [], true, length, codes, decimal, unsigned_abs, IfOk, OnOk};
ghost use Rattle.std.specs.List.{flat_map};
ghost use Rattle.commit_record.specs.Format.{at_word, entry_line, is_valid, kind_word, moment_line, phase_word, token_digits, version_line, written};

use crate::{Entry, EntryKind, Phase, Record};
use itoa::Buffer;
use mail_text::{Memory, Text};
use std::alloc::Global;

// The word of a phase.
fn phase_word(phase: Phase) -> &'static [u8]
    ensures { result.now ≡ phase_word phase }
{
    match phase {
        Phase::Prepare => b"prepare",
        Phase::Go => b"go",
    }
}

// The word of a kind.
fn kind_word(kind: EntryKind) -> &'static [u8]
    ensures { result.now ≡ kind_word kind }
{
    match kind {
        EntryKind::Replace => b"replace",
        EntryKind::Remove => b"remove",
        EntryKind::Extend => b"extend",
    }
}

// Puts a number in decimal digits at the end.
fn push_number(text: &mut Text, number: u64) -> Result<(), Memory>
    ensures { OnOk result (text.new ≡ text.old ++ decimal number) }
{
    let mut buffer = Buffer::new();
    text.push(buffer.format(number).as_bytes())
}

// Puts a token at the end, as 16 lower case hexadecimal digits.
fn push_token(alloc: Global, text: &mut Text, token: u64) -> Result<(), Memory>
    ensures { OnOk result (text.new ≡ text.old ++ token_digits token) }
{
    let digits = hex::encode(alloc, token.to_be_bytes())?;
    text.push(digits.as_bytes())
}

// The first line, which tells the version.
fn version_line(moment: Option<i64>) -> &'static [u8]
    ensures { result.now ≡ version_line moment }
{
    match moment {
        None => b"mailx-commit 1\n",
        Some(_) => b"mailx-commit 2\n",
    }
}

// The seconds of a moment.
fn seconds_of(moment: i64) -> u64
    ensures { result ≡ unsigned_abs moment }
{
    moment.unsigned_abs()
}

// Puts the line of the moment at the end, if there is one.
fn push_moment(text: &mut Text, moment: Option<i64>) -> Result<(), Memory>
    ensures { OnOk result (text.new ≡ text.old ++ moment_line moment) }
{
    match moment {
        None => Ok(()),
        Some(moment) => {
            text.push(b"moment ")?;
            push_number(text, seconds_of(moment))?;
            text.push(b"\n")
        }
    }
}

// Puts the number of bytes that stay at the end, if the file is extended.
fn push_at(text: &mut Text, entry: &Entry) -> Result<(), Memory>
    ensures { OnOk result (text.new ≡ text.old ++ at_word entry.now.kind entry.now.at) }
{
    match entry.kind {
        EntryKind::Replace | EntryKind::Remove => Ok(()),
        EntryKind::Extend => {
            push_number(text, entry.at)?;
            text.push(b" ")
        }
    }
}

// Puts the line of an entry at the end.
#[tactic(auto, unfolding(crate::specs::Format::entry_line))]
fn push_entry(text: &mut Text, entry: &Entry) -> Result<(), Memory>
    ensures { OnOk result (text.new ≡ text.old ++ entry_line entry.now) }
{
    let name = entry.name.bytes();
    text.push(kind_word(entry.kind))?;
    text.push(b" ")?;
    push_at(text, entry)?;
    push_number(text, name.len() as u64)?;
    text.push(b" ")?;
    text.push(name)?;
    text.push(b"\n")
}

// Puts the lines of entries at the end.
fn push_entries(text: &mut Text, entries: &[Entry]) -> Result<(), Memory>
    ensures { OnOk result (text.new ≡ text.old ++ flat_map entry_line entries.now) }
{
    for entry in entries {
        push_entry(text, entry)?;
    }
    Ok(())
}

/// The text of a record: `mailx-commit 2`, or `mailx-commit 1` if it has no moment, the phase, the token in 16 lower case
/// hexadecimal digits, the moment, the number of entries, a line for each entry with its kind, the bytes that stay of a
/// file that is extended, the number of bytes of its name and the name, and `end`; a line feed ends each line. The record
/// has to be valid.
pub fn write(alloc: Global, value: &Record) -> Result<Text, Memory>
    requires { is_valid value.now ≡ true }
    ensures { IfOk result (λ text. text ≡ written value.now) }
{
    let entries = value.entries.items();
    let mut text = Text::copy(alloc, version_line(value.moment))?;
    text.push(b"phase ")?;
    text.push(phase_word(value.phase))?;
    text.push(b"\ntoken ")?;
    push_token(alloc, &mut text, value.token)?;
    text.push(b"\n")?;
    push_moment(&mut text, value.moment)?;
    text.push(b"entries ")?;
    push_number(&mut text, entries.len() as u64)?;
    text.push(b"\n")?;
    push_entries(&mut text, entries)?;
    text.push(b"end\n")?;
    Ok(text)
}
