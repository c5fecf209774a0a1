ghost use Rattle.std.specs.Prelude.{◌≡◌, ◌∷◌, ◌++◌, [], codes, flat_map, IfOk, OnOk, if◌then◌else◌};
ghost use Rattle.mail_headers.specs.Header.{body_of};
ghost use Rattle.message_state.specs.Rows.{value_or_empty};
ghost use Rattle.message_state.specs.Status.{x_status_of, flags_of};
ghost use Rattle.message_state.specs.Stamp.{is_named, field_lines, with_value, body_part, letters_of, has_letters, with_letters, same, same_flags, flag_letters, is_flag_letter, other_bytes, flags_value, with_flags, stamped, is_stamped};

use crate::fields::row_fields;
use crate::status::{flags_in, raw_value};
use crate::{Flags, Mark};
use mail_headers::{EntryRef, FieldRef, Header, unfold_value};
use mail_text::{Memory, Text, same_ascii};
use std::alloc::Global;

/// The text of a message with the mark stamped on it. If the value of its first `Status` field isn't `RO` for a
/// message that was seen, and `O` for another, it is without its `Status` fields, with a new one last in the header.
/// If the flags in its first `X-Status` field aren't those of the mark, it is without its `X-Status` fields. A new
/// one, with `A`, `F` and `T` for the flags and then the other bytes of the old value, is last in the header; there
/// is none if that has no bytes. Else the text is as it is. Fails only if memory runs out.
pub fn stamped(alloc: Global, text: &[u8], mark: Mark) -> Result<Text, Memory>
    ensures { IfOk result (λ t. t ≡ stamped text.now mark) }
{
    let text = with_letters(alloc, text, mark)?;
    with_flags(alloc, text, mark.flags)
}

/// Whether the text has the letters and the flags of the mark, so that `stamped` leaves it as it is. The header is read
/// once. Fails only if memory runs out.
pub fn is_stamped(alloc: Global, text: &[u8], mark: Mark) -> Result<bool, Memory>
    ensures { IfOk result (λ is. is ≡ is_stamped text.now mark) }
{
    let (_, fields) = row_fields(text);
    let flags = flags_in(raw_value(&fields.x_status));
    let has = has_letters(alloc, letters_of(mark), fields.status)?;
    Ok(has && same_flags(flags, mark.flags))
}

// The letters of a mark.
fn letters_of(mark: Mark) -> &'static [u8]
    ensures { result.now ≡ letters_of mark }
{
    if mark.seen { b"RO" } else { b"O" }
}

// Whether the field has these letters.
fn has_letters(alloc: Global, letters: &[u8], status: Option<FieldRef<'_>>) -> Result<bool, Memory>
    ensures { IfOk result (λ has. has ≡ has_letters letters.now status.entry) }
{
    match status {
        Some(field) => {
            let value = unfold_value(alloc, field)?;
            Ok(value.bytes() == letters)
        }
        None => Ok(false),
    }
}

// The text with the letters of the mark in its field `Status`.
fn with_letters(alloc: Global, text: &[u8], mark: Mark) -> Result<Text, Memory>
    ensures { IfOk result (λ t. t ≡ with_letters mark text.now) }
{
    let letters = letters_of(mark);
    let header = Header::read(alloc, text)?;
    if has_letters(alloc, letters, header.field(b"Status"))? {
        Text::copy(alloc, text)
    } else {
        with_value(alloc, b"Status", letters, &header)
    }
}

// Both or neither.
fn same(a: bool, b: bool) -> bool
    ensures { result ≡ same a b }
{
    if a { b } else { !b }
}

fn same_flags(a: Flags, b: Flags) -> bool
    ensures { result ≡ same_flags a b }
{
    same(a.answered, b.answered) && same(a.flagged, b.flagged) && same(a.draft, b.draft)
}

// The text with these flags in its field `X-Status`.
fn with_flags(alloc: Global, text: Text, flags: Flags) -> Result<Text, Memory>
    ensures { IfOk result (λ t. t ≡ with_flags flags text) }
{
    if same_flags(flags_of(text.bytes()), flags) {
        Ok(text)
    } else {
        with_new_flags(alloc, text.bytes(), flags)
    }
}

// The flags of a text.
fn flags_of(text: &[u8]) -> Flags
    ensures { result ≡ flags_of text.now }
{
    let (_, fields) = row_fields(text);
    flags_in(raw_value(&fields.x_status))
}

// The text with a new value of these flags in its only `X-Status` field.
fn with_new_flags(alloc: Global, text: &[u8], flags: Flags) -> Result<Text, Memory>
    ensures { IfOk result (λ t. t ≡ with_value (codes "X-Status") (flags_value flags (x_status_of text.now)) text.now) }
{
    let header = Header::read(alloc, text)?;
    let value = flags_value(alloc, flags, header.field(b"X-Status"))?;
    with_value(alloc, b"X-Status", value.bytes(), &header)
}

// The value for flags: their letters, and the other bytes of the value that the field had.
fn flags_value(alloc: Global, flags: Flags, field: Option<FieldRef<'_>>) -> Result<Text, Memory>
    ensures { IfOk result (λ value. value ≡ flags_value flags field.entry) }
{
    let mut value = flag_letters(alloc, flags)?;
    push_old(alloc, field, &mut value)?;
    Ok(value)
}

// Puts the other bytes of the value that the field had at the end.
fn push_old(alloc: Global, field: Option<FieldRef<'_>>, value: &mut Text) -> Result<(), Memory>
    ensures { OnOk result (value.new ≡ value.old ++ other_bytes (value_or_empty field.entry)) }
{
    if let Some(field) = field {
        let old = unfold_value(alloc, field)?;
        push_others(old.bytes(), value)?;
    }
    Ok(())
}

// The letters of flags.
fn flag_letters(alloc: Global, flags: Flags) -> Result<Text, Memory>
    ensures { IfOk result (λ letters. letters ≡ flag_letters flags) }
{
    let mut letters = Text::new(alloc);
    push_if(flags.answered, b"A", &mut letters)?;
    push_if(flags.flagged, b"F", &mut letters)?;
    push_if(flags.draft, b"T", &mut letters)?;
    Ok(letters)
}

// Puts the letter at the end, if it is wanted.
fn push_if(wanted: bool, letter: &[u8], letters: &mut Text) -> Result<(), Memory>
    ensures { OnOk result (letters.new ≡ letters.old ++ (if wanted then letter.now else [])) }
{
    if wanted {
        letters.push(letter)?;
    }
    Ok(())
}

fn is_flag_letter(byte: u8) -> bool
    ensures { result ≡ is_flag_letter byte }
{
    byte == b'A' || byte == b'F' || byte == b'T'
}

// Puts the bytes at the end that are letters of no flag.
fn push_others(old: &[u8], value: &mut Text) -> Result<(), Memory>
    ensures { OnOk result (value.new ≡ value.old ++ other_bytes old.now) }
{
    for byte in old {
        if !is_flag_letter(*byte) {
            value.push(&[*byte])?;
        }
    }
    Ok(())
}

// Whether the entry is a field of this name.
fn is_named(name: &[u8], entry: &EntryRef<'_>) -> bool
    ensures { result ≡ is_named name.now entry.now }
{
    match entry.field() {
        Some(field) => same_ascii(field.name(), name),
        None => false,
    }
}

// The text without the fields of this name and, if the value isn't empty, with one that has it last in the header.
fn with_value(alloc: Global, name: &[u8], value: &[u8], header: &Header<'_>) -> Result<Text, Memory>
    ensures { IfOk result (λ t. t ≡ with_value name.now value.now header.now) }
{
    let mut text = Text::copy(alloc, header.from_line())?;
    for entry in header.entries() {
        if !is_named(name, &entry) {
            text.push(b"\n")?;
            text.push(entry.raw())?;
        }
    }
    push_field(&mut text, name, value)?;
    push_body(&mut text, header)?;
    Ok(text)
}

// Puts a line with the field at the end, if the value isn't empty.
fn push_field(text: &mut Text, name: &[u8], value: &[u8]) -> Result<(), Memory>
    ensures { OnOk result (text.new ≡ text.old ++ flat_map (λ l. 10 ∷ l) (field_lines name.now value.now)) }
{
    if !value.is_empty() {
        text.push(b"\n")?;
        text.push(name)?;
        text.push(b": ")?;
        text.push(value)?;
    }
    Ok(())
}

// Puts the body at the end, after an empty line, if there is one.
fn push_body(text: &mut Text, header: &Header<'_>) -> Result<(), Memory>
    ensures { OnOk result (text.new ≡ text.old ++ body_part (body_of header.now)) }
{
    if header.has_body() {
        text.push(b"\n\n")?;
        text.push(header.body())?;
    }
    Ok(())
}
