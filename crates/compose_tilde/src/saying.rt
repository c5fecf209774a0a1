// What is printed of a draft.
ghost use Rattle.std.specs.Prelude.{◌≡◌, ◌++◌, IfOk, OnOk};
ghost use Rattle.draft_text.specs.Texts.{joined};
ghost use Rattle.compose_tilde.specs.Escapes.{letter_lines};
ghost use Rattle.compose_tilde.specs.Values.{field_name, value_line, names_line, printed, part_after};
ghost use Rattle.compose_tilde.specs.Meanings.{prompt};

use crate::escape::rows;
use crate::machine::{Names, Part};
use crate::need::Need;
use draft_text::{Draft, joined};
use mail_text::{Items, Memory, Text};
use std::alloc::Global;

// The letters of all escapes, each on a line.
pub(crate) fn letter_lines(alloc: Global) -> Result<Text, Memory>
    ensures { IfOk result (λ t. t ≡ letter_lines) }
{
    let mut out = Text::new(alloc);
    for row in rows() {
        out.push(&[row.letter, b'\n'])?;
    }
    Ok(out)
}

// The name of a value.
fn field_name(part: Part) -> &'static [u8]
    ensures { result.now ≡ field_name part }
{
    match part {
        Part::Names(Names::To) => b"To",
        Part::Subject => b"Subject",
        Part::Names(Names::Cc) => b"Cc",
        Part::Names(Names::Bcc) => b"Bcc",
    }
}

// The value that `~h` asks for after this one, if there is one.
pub(crate) fn part_after(part: Part) -> Option<Part>
    ensures { result ≡ part_after part }
{
    match part {
        Part::Names(Names::To) => Some(Part::Subject),
        Part::Subject => Some(Part::Names(Names::Cc)),
        Part::Names(Names::Cc) => Some(Part::Names(Names::Bcc)),
        Part::Names(Names::Bcc) => None,
    }
}

// What is needed to ask for a value.
pub(crate) fn prompt(alloc: Global, part: Option<Part>) -> Result<Need, Memory>
    ensures { IfOk result (λ need. need ≡ prompt part) }
{
    match part {
        Some(part) => {
            let mut out = Text::copy(alloc, field_name(part))?;
            out.push(b": ")?;
            Ok(Need::Say(out))
        }
        None => Ok(Need::More),
    }
}

// Puts a value on a line with its name. An empty one isn't put.
fn put_value_line(out: &mut Text, part: Part, value: &[u8]) -> Result<(), Memory>
    ensures { OnOk result (out.new ≡ out.old ++ value_line part value.now) }
{
    if value.is_empty() {
        return Ok(());
    }
    out.push(field_name(part))?;
    out.push(b": ")?;
    out.push(value)?;
    out.push(b"\n")
}

// Puts a list of names on a line with its name. An empty one isn't put.
fn put_names_line(
    alloc: Global,
    out: &mut Text,
    names: Names,
    values: &Items<Text>,
) -> Result<(), Memory>
    ensures { OnOk result (out.new ≡ out.old ++ names_line names values.now) }
{
    let value = joined(alloc, b", ", values.items())?;
    put_value_line(out, Part::Names(names), value.bytes())
}

// A draft as `~p` prints it.
pub(crate) fn printed(alloc: Global, draft: &Draft) -> Result<Text, Memory>
    ensures { IfOk result (λ t. t ≡ printed draft.now) }
{
    let mut out = Text::new(alloc);
    put_names_line(alloc, &mut out, Names::To, &draft.to)?;
    put_names_line(alloc, &mut out, Names::Cc, &draft.cc)?;
    put_names_line(alloc, &mut out, Names::Bcc, &draft.bcc)?;
    put_value_line(&mut out, Part::Subject, draft.subject.bytes())?;
    out.push(b"\n")?;
    out.push(draft.body.bytes())?;
    Ok(out)
}
