ghost use Rattle.std.specs.Prelude.{◌≡◌, ◌+◌, ◌≤◌, true, Ok, length, drop};
ghost use Rattle.mail_headers.specs.Header.{from_line, entries_of, has_two_feeds};
ghost use Rattle.mail_headers.specs.Parts.{IsBodyPlace};

use crate::cut::{after_line, line_length};
use crate::{Entries, FieldRef, Fields};
use mail_text::{Memory, same_ascii};
use std::alloc::Global;
use std::marker::Model;

/// A message's text, cut into its From line, the lines of its header and its body (RFC 5322, section 2.1).
/// Contracts see the text.
#[derive(Drop)]
pub struct Header<'a> {
    text: &'a [u8],
    // where the body starts, if there is one
    body: Option<usize>,
}

impl<'a> Model for Header<'a> {
    ghost use Rattle.std.specs.Prelude.{List, ℕ};
    ghost use Rattle.mail_headers.specs.Parts.{IsBodyPlace};

    ghost Value = { List ℕ };

    ghost view = { λ h. h.text.now };

    ghost invariant = { λ h. IsBodyPlace h.text.now h.body };
}

impl<'a> Header<'a> {
    ghost use Rattle.std.specs.Option.{is_some, unwrap_or};
    ghost use Rattle.std.specs.Prelude.{[]};
    ghost use Rattle.mail_headers.specs.Header.{from_line, body_of, entries_of, fields_of, field_named};

    /// The header of a message's text. It takes no memory: fields are looked for when they are asked for.
    pub fn read(_alloc: Global, text: &'a [u8]) -> Result<Header<'a>, Memory>
        ensures { result ≡ Ok text.now }
    {
        Ok(Header {
            text,
            body: body_place(text),
        })
    }

    /// The From line, the first line of the text, without its line feed.
    pub fn from_line(&self) -> &'a [u8]
        ensures { result.now ≡ from_line self.now }
    {
        from_line_in(self.text)
    }

    /// The entries of the header in order: each field with its folded lines, and each line that is no field.
    pub fn entries(&self) -> Entries<'a>
        ensures { result ≡ entries_of self.now }
    {
        entries_in(self.text)
    }

    /// The fields of the header in order.
    pub fn fields(&self) -> Fields<'a>
        ensures { result ≡ fields_of self.now }
    {
        Fields::of(self.entries())
    }

    /// The first field of this name, ASCII case ignored.
    pub fn field(&self, name: &[u8]) -> Option<FieldRef<'a>>
        ensures { result ≡ field_named name.now self.now }
    {
        self.fields().find(|field| same_ascii(field.name(), name))
    }

    /// Whether an empty line ends the header, so that there is a body.
    pub fn has_body(&self) -> bool
        ensures { result ≡ is_some (body_of self.now) }
    {
        self.body.is_some()
    }

    /// The body, what follows the first empty line after the From line; empty if there is none.
    pub fn body(&self) -> &'a [u8]
        ensures { result.now ≡ unwrap_or (body_of self.now) [] }
    {
        match self.body {
            Some(place) => {
                let (_, body) = self.text.split_at(place);
                body
            }
            None => &[],
        }
    }
}

/// The From line of a text, its first line, without its line feed. It takes no memory.
pub fn from_line_in(text: &[u8]) -> &[u8]
    ensures { result.now ≡ from_line text.now }
{
    let (line, _) = text.split_at(line_length(text));
    line
}

/// The entries of a text's header in order, without a look for its body. It takes no memory.
pub fn entries_in(text: &[u8]) -> Entries<'_>
    ensures { result ≡ entries_of text.now }
{
    Entries::of(after_line(text, line_length(text)))
}

/// The From line of a text and the entries of its header in order, in one look for the line's end. It takes no memory.
pub fn cut_from_line(text: &[u8]) -> (&[u8], Entries<'_>)
    ensures line { result.0.now ≡ from_line text.now }
    ensures entries { result.1 ≡ entries_of text.now }
{
    let end = line_length(text);
    let (line, _) = text.split_at(end);
    (line, Entries::of(after_line(text, end)))
}

// What follows the first two line feeds in a row starts at this place, if there are any.
fn body_place(text: &[u8]) -> Option<usize>
    ensures { IsBodyPlace text.now result }
{
    let mut start = 0;
    while start < text.len() {
        let (_, rest) = text.split_at(start);
        let feed = start + line_length(rest);
        if has_two_feeds_at(text, feed) {
            return Some(feed + 2);
        }
        start = feed + 1;
    }
    None
}

// Whether two line feeds stand there.
fn has_two_feeds_at(text: &[u8], at: usize) -> bool
    requires { at ≤ length text.now }
    ensures two { result ≡ has_two_feeds (drop at text.now) }
    ensures within { result ≡ true → at + 2 ≤ length text.now }
{
    let (_, rest) = text.split_at(at);
    match rest {
        [first, second, ..] => *first == b'\n' && *second == b'\n',
        _ => false,
    }
}
