ghost use Rattle.std.specs.Prelude.{◌≡◌, ◌++◌, codes, IfOk, OnOk};
ghost use Rattle.std.specs.List.{flat_map};
ghost use Rattle.mail_dates.specs.Clock.{IsPrintable};
ghost use Rattle.mail_dates.specs.Printed.{date_text};
ghost use Rattle.draft_text.specs.Texts.{joined, filled, draft_fields, field_lines};

use crate::Draft;
use mail_dates::{Moment, print_date};
use mail_text::{Memory, Text};
use std::alloc::Global;

// Puts texts at the end, each after the separator.
fn push_behind(text: &mut Text, separator: &[u8], later: &[Text]) -> Result<(), Memory>
    ensures { OnOk result (text.new ≡ text.old ++ flat_map (λ t. separator.now ++ t) later.now) }
{
    for part in later {
        text.push(separator)?;
        text.push(part.bytes())?;
    }
    Ok(())
}

/// Texts with the separator between them. Fails only if memory runs out.
pub fn joined(alloc: Global, separator: &[u8], texts: &[Text]) -> Result<Text, Memory>
    ensures { IfOk result (λ t. t ≡ joined separator.now texts.now) }
{
    match texts.split_first() {
        Some((first, later)) => {
            let mut text = Text::copy(alloc, first.bytes())?;
            push_behind(&mut text, separator, later)?;
            Ok(text)
        }
        None => Ok(Text::new(alloc)),
    }
}

// Puts a field on a line of its own at the end. An empty value makes no field.
fn push_field(text: &mut Vec<u8>, name: &[u8], value: &[u8]) -> Result<(), Memory>
    ensures { OnOk result (text.new.items ≡ text.old.items ++ field_lines (filled name.now value.now)) }
{
    if value.is_empty() {
        return Ok(());
    }
    text.extend_from_slice(name)?;
    text.extend_from_slice(b": ")?;
    text.extend_from_slice(value)?;
    text.extend_from_slice(b"\n")?;
    Ok(())
}

// Puts a field at the end whose value is a list of texts. An empty list makes no field.
fn push_list(
    alloc: Global,
    text: &mut Vec<u8>,
    name: &[u8],
    separator: &[u8],
    texts: &[Text],
) -> Result<(), Memory>
    ensures { OnOk result
        (text.new.items ≡ text.old.items ++ field_lines (filled name.now (joined separator.now texts.now))) }
{
    let value = joined(alloc, separator, texts)?;
    push_field(text, name, value.bytes())
}

// Puts the field of the date on a line of its own at the end.
fn push_date(alloc: Global, text: &mut Vec<u8>, m: Moment) -> Result<(), Memory>
    requires { IsPrintable m }
    ensures { OnOk result
        (text.new.items ≡ text.old.items ++ field_lines (filled (codes "Date") (date_text m))) }
{
    let date = print_date(alloc, m)?;
    push_field(text, b"Date", date.bytes())
}

// Puts the fields of a draft at the end, each on a line of its own.
pub(crate) fn push_fields(
    alloc: Global,
    text: &mut Vec<u8>,
    draft: &Draft,
    m: Moment,
) -> Result<(), Memory>
    requires { IsPrintable m }
    ensures { OnOk result (text.new.items ≡ text.old.items ++ field_lines (draft_fields draft.now m)) }
{
    push_date(alloc, text, m)?;
    push_field(text, b"From", draft.from.bytes())?;
    push_list(alloc, text, b"To", b", ", draft.to.items())?;
    push_list(alloc, text, b"Cc", b", ", draft.cc.items())?;
    push_field(text, b"Subject", draft.subject.bytes())?;
    push_field(text, b"In-Reply-To", draft.reply.bytes())?;
    push_list(alloc, text, b"References", b" ", draft.references.items())?;
    Ok(())
}
