ghost use Rattle.std.specs.Prelude.{◌≡◌};
ghost use Rattle.mail_text.specs.Ascii.{same_ascii};
ghost use Rattle.mail_headers.specs.Header.{from_line};
ghost use Rattle.message_state.specs.Fields.{name_length, or_entry, AreFieldsOf, AreWithEntry};

use mail_headers::{EntryRef, FieldRef, cut_from_line};
use mail_text::same_ascii;

// The fields that a mark and a row are made from: the first of each name.
#[derive(Drop)]
pub(crate) struct RowFields<'a> {
    pub(crate) status: Option<FieldRef<'a>>,
    pub(crate) x_status: Option<FieldRef<'a>>,
    pub(crate) subject: Option<FieldRef<'a>>,
    pub(crate) from: Option<FieldRef<'a>>,
    pub(crate) to: Option<FieldRef<'a>>,
    pub(crate) date: Option<FieldRef<'a>>,
    pub(crate) message_id: Option<FieldRef<'a>>,
    pub(crate) references: Option<FieldRef<'a>>,
    pub(crate) reply: Option<FieldRef<'a>>,
}

// The From line of a text, and the fields of its header that a mark and a row are made from, in one walk over it.
pub(crate) fn row_fields(text: &[u8]) -> (&[u8], RowFields<'_>)
    ensures line { result.0.now ≡ from_line text.now }
    ensures fields { AreFieldsOf text.now result.1 }
{
    let (line, entries) = cut_from_line(text);
    let mut fields = RowFields {
        status: None,
        x_status: None,
        subject: None,
        from: None,
        to: None,
        date: None,
        message_id: None,
        references: None,
        reply: None,
    };
    for entry in entries {
        take_entry(&mut fields, &entry);
    }
    (line, fields)
}

// Takes an entry in, if it is the first field of one of these names. Names are told apart by their length first.
fn take_entry<'a>(fields: &mut RowFields<'a>, entry: &EntryRef<'a>)
    ensures { AreWithEntry fields.old entry.now fields.new }
{
    match name_length(entry) {
        2 => take_field(&mut fields.to, entry, b"To"),
        4 => {
            take_field(&mut fields.from, entry, b"From");
            take_field(&mut fields.date, entry, b"Date");
        }
        6 => take_field(&mut fields.status, entry, b"Status"),
        7 => take_field(&mut fields.subject, entry, b"Subject"),
        8 => take_field(&mut fields.x_status, entry, b"X-Status"),
        10 => {
            take_field(&mut fields.message_id, entry, b"Message-ID");
            take_field(&mut fields.references, entry, b"References");
        }
        11 => take_field(&mut fields.reply, entry, b"In-Reply-To"),
        _ => {}
    }
}

// How many bytes the entry's name has, 0 if it is no field.
fn name_length(entry: &EntryRef<'_>) -> usize
    ensures { result ≡ name_length entry.now }
{
    match entry.field() {
        Some(field) => field.name().len(),
        None => 0,
    }
}

// Puts the entry into the place, if that is empty and the entry is a field of this name.
fn take_field<'a>(place: &mut Option<FieldRef<'a>>, entry: &EntryRef<'a>, name: &[u8])
    ensures { place.new ≡ or_entry name.now place.old entry.now }
{
    if place.is_none() {
        if let Some(field) = entry.field() {
            if is_named(&field, name) {
                *place = Some(field);
            }
        }
    }
}

// Whether the field has this name, which most have as it is spelled here.
fn is_named(field: &FieldRef<'_>, name: &[u8]) -> bool
    ensures { result ≡ same_ascii field.now.name name.now }
{
    field.name() == name || same_ascii(field.name(), name)
}
