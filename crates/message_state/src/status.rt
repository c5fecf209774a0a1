ghost use Rattle.std.specs.Prelude.{◌≡◌};
ghost use Rattle.message_state.specs.Status.{raw_value, has_letter, flags_in, mark_by, mark_of_fields, mark_of};

use crate::{Flags, Mark, State};
use mail_headers::{FieldRef, Header};

/// The mark of a message by its first `Status` and its first `X-Status` field. With an `R` in the former it is read and
/// seen, with an `O` and no `R` unread, else new; with an `A` in the latter it is answered, with an `F` flagged, with a
/// `T` a draft. It takes no memory.
pub fn mark_of(header: &Header<'_>) -> Mark
    ensures { result ≡ mark_of header.now }
{
    mark_of_fields(&header.field(b"Status"), &header.field(b"X-Status"))
}

// The mark of a `Status` and an `X-Status` field, each if there is one.
pub(crate) fn mark_of_fields(status: &Option<FieldRef<'_>>, x_status: &Option<FieldRef<'_>>) -> Mark
    ensures { result ≡ mark_of_fields status.now x_status.now }
{
    mark_by(raw_value(status), flags_in(raw_value(x_status)))
}

// The value of a field as it stands, empty if there is no field.
pub(crate) fn raw_value<'a>(field: &Option<FieldRef<'a>>) -> &'a [u8]
    ensures { result.now ≡ raw_value field.now }
{
    match field {
        Some(field) => field.value(),
        None => &[],
    }
}

// The mark of a value and flags.
fn mark_by(value: &[u8], flags: Flags) -> Mark
    ensures { result ≡ mark_by value.now flags }
{
    if has_letter(value, b'R') {
        Mark {
            state: State::Read,
            seen: true,
            flags,
        }
    } else if has_letter(value, b'O') {
        Mark {
            state: State::Unread,
            seen: false,
            flags,
        }
    } else {
        Mark {
            state: State::New,
            seen: false,
            flags,
        }
    }
}

// The flags of a value.
pub(crate) fn flags_in(value: &[u8]) -> Flags
    ensures { result ≡ flags_in value.now }
{
    Flags {
        answered: has_letter(value, b'A'),
        flagged: has_letter(value, b'F'),
        draft: has_letter(value, b'T'),
    }
}

// Whether the letter stands in a value.
fn has_letter(value: &[u8], letter: u8) -> bool
    ensures { result ≡ has_letter letter value.now }
{
    value.iter().any(|b| *b == letter)
}
