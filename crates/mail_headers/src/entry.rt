ghost use Rattle.std.specs.Prelude.{◌≡◌, ◌+◌, ◌<◌, true, length, take, drop, slice_index};

use std::marker::Model;

/// A field of a header: name, colon and value, with the folded lines that belong to it. Contracts see its name and its
/// value.
#[derive(Drop)]
pub struct FieldRef<'a> {
    bytes: &'a [u8],
    colon: usize,
    // whether it is known to have no line feed
    flat: bool,
}

impl<'a> Model for FieldRef<'a> {
    ghost use Rattle.std.specs.Prelude.{◌≡◌, ◌+◌, ◌<◌, true, take, drop, length, slice_index};
    ghost use Rattle.mail_headers.specs.Field.{Field};
    ghost use Rattle.mail_headers.specs.Cutting.{IsFlat};

    ghost Value = { Field };

    ghost view = { λ f. record { name = take f.colon f.bytes.now; value = drop (f.colon + 1) f.bytes.now } };

    ghost invariant = { λ f. (f.colon < length f.bytes.now) × (slice_index f.bytes.now f.colon ≡ 58)
        × (f.flat ≡ true → IsFlat f.bytes.now) };
}

impl<'a> FieldRef<'a> {
    ghost use Rattle.mail_headers.specs.Field.{field_bytes};
    ghost use Rattle.mail_headers.specs.Cutting.{IsFlat};

    /// The name, as it is spelled in the header.
    pub fn name(&self) -> &'a [u8]
        ensures { result.now ≡ self.now.name }
    {
        &self.bytes[..self.colon]
    }

    /// The field as it stands in the header, without the line feed at its end: name, colon and value, and the line
    /// feeds between folded lines.
    pub fn raw(&self) -> &'a [u8]
        ensures { result.now ≡ field_bytes self.now }
    {
        self.bytes
    }

    /// What follows the colon, with the line feeds between folded lines and with the blanks at its ends.
    pub fn value(&self) -> &'a [u8]
        ensures { result.now ≡ self.now.value }
    {
        &self.bytes[self.colon + 1..]
    }

    // Whether it is known that the value has no line feed.
    pub(crate) fn is_flat(&self) -> bool
        ensures { result ≡ true → IsFlat self.now.value }
    {
        self.flat
    }
}

/// A part of a header: a field with its folded lines, or a line that is no field.
#[derive(Drop)]
pub struct EntryRef<'a> {
    bytes: &'a [u8],
    colon: Option<usize>,
    // whether it is known to have no line feed
    flat: bool,
}

impl<'a> Model for EntryRef<'a> {
    ghost use Rattle.mail_headers.specs.Header.{Entry};

    ghost Value = { Entry };

    ghost use Rattle.std.specs.Prelude.{◌≡◌, true};
    ghost use Rattle.mail_headers.specs.Cutting.{entry_at, HasColon, IsFlat};

    ghost view = { λ e. entry_at e.bytes.now e.colon };

    ghost invariant = { λ e. HasColon e.bytes.now e.colon × (e.flat ≡ true → IsFlat e.bytes.now) };
}

impl<'a> EntryRef<'a> {
    ghost use Rattle.mail_headers.specs.Header.{field, other, entry_bytes, field_in};
    ghost use Rattle.mail_headers.specs.Cutting.{IsFlat};

    // The field of these bytes, with its colon at this place; `flat` if it is known to have no line feed.
    pub(crate) fn of_field(bytes: &'a [u8], colon: usize, flat: bool) -> EntryRef<'a>
        requires within { colon < length bytes.now }
        requires colon { slice_index bytes.now colon ≡ 58 }
        requires flat { flat ≡ true → IsFlat bytes.now }
        ensures { result ≡ field (record { name = take colon bytes.now; value = drop (colon + 1) bytes.now }) }
    {
        EntryRef {
            bytes,
            colon: Some(colon),
            flat,
        }
    }

    // A line that is no field.
    pub(crate) fn of_other(line: &'a [u8]) -> EntryRef<'a>
        ensures { result ≡ other line.now }
    {
        EntryRef {
            bytes: line,
            colon: None,
            flat: false,
        }
    }

    /// The field, if the entry is one.
    pub fn field(&self) -> Option<FieldRef<'a>>
        ensures { result ≡ field_in self.now }
    {
        match self.colon {
            Some(colon) => Some(FieldRef {
                bytes: self.bytes,
                colon,
                flat: self.flat,
            }),
            None => None,
        }
    }

    /// The entry as it stands in the header, without the line feed at its end.
    pub fn raw(&self) -> &'a [u8]
        ensures { result.now ≡ entry_bytes self.now }
    {
        self.bytes
    }
}
