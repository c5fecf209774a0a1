ghost use Rattle.std.specs.Prelude.{◌≡◌, IfOk};
ghost use Rattle.mail_headers.specs.Field.{unfolded, without_feeds, trim_start, trim_end};
ghost use Rattle.mail_headers.specs.Cutting.{IsFlat, is_space};

use crate::FieldRef;
use mail_text::{Memory, Text, is_blank, lines};
use std::alloc::Global;
use std::marker::Model;

/// Where the bytes of an unfolded value stand.
#[derive(Drop)]
pub(crate) enum ValuePlace<'a> {
    /// In the header.
    Part(&'a [u8]),
    /// In a text of their own.
    Joined(Text),
}

/// The unfolded value of a field: a part of the header if it has no line feed, else a text of its own. Contracts see
/// its bytes.
#[derive(Drop)]
pub struct UnfoldedValue<'a> {
    place: ValuePlace<'a>,
}

impl<'a> Model for UnfoldedValue<'a> {
    ghost use Rattle.std.specs.Prelude.{List, ℕ};
    ghost use Rattle.mail_headers.specs.Unfolding.{bytes_at};

    ghost Value = { List ℕ };

    ghost view = { λ u. bytes_at u.place };
}

impl<'a> UnfoldedValue<'a> {
    /// The bytes.
    pub fn bytes(&self) -> &[u8]
        ensures { result.now ≡ self.now }
    {
        match &self.place {
            ValuePlace::Part(part) => part,
            ValuePlace::Joined(text) => text.bytes(),
        }
    }
}

/// The value of a field without its line feeds and without blanks, spaces and tabs, at either end (RFC 5322, section
/// 2.2.3). It takes memory only if the field is folded. Fails only if memory runs out.
pub fn unfold_value<'a>(alloc: Global, field: FieldRef<'a>) -> Result<UnfoldedValue<'a>, Memory>
    ensures { IfOk result (λ value. value ≡ unfolded field.entry) }
{
    let flat = field.is_flat();
    let value = trimmed(field);
    if flat {
        Ok(UnfoldedValue {
            place: ValuePlace::Part(value),
        })
    } else {
        Ok(UnfoldedValue {
            place: ValuePlace::Joined(joined(alloc, value)?),
        })
    }
}

/// The value that `unfold_value` gives, as a text of its own. Fails only if memory runs out.
pub fn unfolded(alloc: Global, field: FieldRef<'_>) -> Result<Text, Memory>
    ensures { IfOk result (λ text. text ≡ unfolded field.entry) }
{
    joined(alloc, trimmed(field))
}

// The value of a field without the blanks and line feeds at its ends.
fn trimmed(field: FieldRef<'_>) -> &[u8]
    ensures value { without_feeds result.now ≡ unfolded field.entry }
    ensures flat { IsFlat field.entry.value → IsFlat result.now }
{
    without_last_spaces(without_first_spaces(field.value()))
}

// The bytes without their line feeds.
fn joined(alloc: Global, bytes: &[u8]) -> Result<Text, Memory>
    ensures { IfOk result (λ text. text ≡ without_feeds bytes.now) }
{
    let mut text = Text::of(Vec::with_capacity(alloc, bytes.len())?);
    for line in lines(bytes) {
        text.push(line)?;
    }
    Ok(text)
}

// A blank or a line feed.
fn is_space(byte: u8) -> bool
    ensures { result ≡ is_space byte }
{
    is_blank(byte) || byte == b'\n'
}

// The bytes without the blanks and line feeds at their front.
fn without_first_spaces(bytes: &[u8]) -> &[u8]
    ensures value { without_feeds result.now ≡ trim_start (without_feeds bytes.now) }
    ensures flat { IsFlat bytes.now → IsFlat result.now }
{
    let mut rest = bytes;
    while let Some((first, after)) = rest.split_first() {
        if !is_space(*first) {
            return rest;
        }
        rest = after;
    }
    rest
}

// The bytes without the blanks and line feeds at their end.
fn without_last_spaces(bytes: &[u8]) -> &[u8]
    ensures value { without_feeds result.now ≡ trim_end (without_feeds bytes.now) }
    ensures flat { IsFlat bytes.now → IsFlat result.now }
{
    let mut rest = bytes;
    while let Some((last, before)) = rest.split_last() {
        if !is_space(*last) {
            return rest;
        }
        rest = before;
    }
    rest
}
