ghost use Rattle.std.specs.Prelude.{◌≡◌, [], IfOk, IfSome};
ghost use Rattle.std.specs.Option.{option_map, unwrap_or};
ghost use Rattle.mail_headers.specs.Field.{unfolded};
ghost use Rattle.mail_dates.specs.Clock.{IsInYears};
ghost use Rattle.mail_dates.specs.FromLines.{sender_of};
ghost use Rattle.message_state.specs.Ids.{ids_of};
ghost use Rattle.message_state.specs.Rows.{value_or_empty, IsFirstIn, AreTextsIn, spec_or, display_name, name_or, IsRow};

use crate::Mark;
use crate::fields::row_fields;
use crate::ids::{first_id, ids_of};
use crate::row_texts::RowTexts;
use crate::status::mark_of_fields;
use mail_addresses::{FoundAddress, first_address};
use mail_dates::{Moment, after_from, moment_of, read_from_line};
use mail_headers::{FieldRef, UnfoldedValue, unfold_value};
use mail_text::{Items, Memory, Text};
use std::alloc::Global;

/// What is known of a message without reading it again.
#[derive(Drop)]
pub struct Row {
    /// Its state, whether it was seen, and its flags.
    pub mark: Mark,
    /// Its subject, its author, its addressee and its own identifier.
    pub texts: RowTexts,
    /// The identifiers of `References` (RFC 5322, section 3.6.4), each with its angle brackets.
    pub references: Items<Text>,
    /// Those of `In-Reply-To`.
    pub reply: Items<Text>,
    /// When it was written, by `Date`, else when it came, by the From line.
    pub moment: Option<Moment>,
    /// How many bytes its text has, and one.
    pub size: u64,
}

/// What is known of a message of this text, which is read once. A value is taken as it is unfolded. Fails only if
/// memory runs out.
pub fn row_of(alloc: Global, text: &[u8]) -> Result<Row, Memory>
    ensures row { IfOk result (IsRow text.now) }
    ensures years { IfOk result (λ row. IfSome row.moment IsInYears) }
{
    let (line, fields) = row_fields(text);
    let line = after_from(line);
    let mark = mark_of_fields(&fields.status, &fields.x_status);
    let moment = moment_of(alloc, fields.date, line)?;
    let references = ids_in(alloc, fields.references)?;
    let reply = ids_in(alloc, fields.reply)?;
    let texts = texts_of(
        alloc,
        fields.subject,
        fields.from,
        fields.to,
        fields.message_id,
        line,
    )?;
    Ok(Row {
        mark,
        texts,
        references,
        reply,
        moment,
        size: text.len() as u64 + 1,
    })
}

// The texts of a row, from fields and from what the From line has after `From `.
fn texts_of(
    alloc: Global,
    subject: Option<FieldRef<'_>>,
    from: Option<FieldRef<'_>>,
    to: Option<FieldRef<'_>>,
    message_id: Option<FieldRef<'_>>,
    line: &[u8],
) -> Result<RowTexts, Memory>
    ensures { IfOk result (AreTextsIn subject.entry from.entry to.entry message_id.entry line.now) }
{
    let subject = value_of(alloc, subject)?;
    let from = value_of(alloc, from)?;
    let to = value_of(alloc, to)?;
    let message_id = value_of(alloc, message_id)?;
    let author = first_in(alloc, &from)?;
    let addressee = first_in(alloc, &to)?;
    let (spec, shown) = author_of(&author, line);
    RowTexts::of(
        alloc,
        bytes_of(&subject),
        spec,
        shown,
        spec_of(&addressee),
        first_id(bytes_of(&message_id)),
    )
}

// The unfolded value of a field, if there is one.
fn value_of<'a>(
    alloc: Global,
    field: Option<FieldRef<'a>>,
) -> Result<Option<UnfoldedValue<'a>>, Memory>
    ensures { IfOk result (λ value. value ≡ option_map unfolded field.entry) }
{
    match field {
        Some(field) => Ok(Some(unfold_value(alloc, field)?)),
        None => Ok(None),
    }
}

// The bytes of a value, none if there is no value.
fn bytes_of<'v>(value: &'v Option<UnfoldedValue<'_>>) -> &'v [u8]
    ensures { result.now ≡ unwrap_or value.now [] }
{
    match value {
        Some(value) => value.bytes(),
        None => &[],
    }
}

// The first address of a value, if there is a value.
fn first_in<'v>(
    alloc: Global,
    value: &'v Option<UnfoldedValue<'_>>,
) -> Result<Option<FoundAddress<'v>>, Memory>
    ensures { IfOk result (IsFirstIn value.now) }
{
    match value {
        Some(value) => first_address(alloc, value.bytes()),
        None => Ok(None),
    }
}

// The author's bare address and the name to be shown, for the first address of `From` and what the From line has after
// `From `, which is read only if there is no address.
fn author_of<'v>(found: &'v Option<FoundAddress<'_>>, line: &'v [u8]) -> (&'v [u8], &'v [u8])
    ensures author { result.0.now ≡ spec_or (sender_of line.now) found.now }
    ensures shown { result.1.now ≡ name_or (sender_of line.now) found.now }
{
    match found {
        Some(address) => (address.spec(), name_or_spec(address)),
        None => {
            let arrival = read_from_line(line);
            (arrival.sender, arrival.sender)
        }
    }
}

// The name if it isn't empty, else the bare address.
fn name_or_spec<'v>(address: &'v FoundAddress<'_>) -> &'v [u8]
    ensures { result.now ≡ display_name address.now }
{
    let name = address.name();
    if name.is_empty() {
        address.spec()
    } else {
        name
    }
}

// The bare address, or nothing.
fn spec_of<'v>(found: &'v Option<FoundAddress<'_>>) -> &'v [u8]
    ensures { result.now ≡ spec_or [] found.now }
{
    match found {
        Some(address) => address.spec(),
        None => &[],
    }
}

// The ids of a field.
fn ids_in(alloc: Global, field: Option<FieldRef<'_>>) -> Result<Items<Text>, Memory>
    ensures { IfOk result (λ ids. ids ≡ ids_of (value_or_empty field.entry)) }
{
    match field {
        Some(field) => {
            let value = unfold_value(alloc, field)?;
            ids_of(alloc, value.bytes())
        }
        None => Ok(Items::new(alloc)),
    }
}
