ghost use Rattle.std.specs.Prelude.{◌≡◌, IfOk};
ghost use Rattle.mail_headers.specs.Header.{entries_of};

use mail_headers::{EntryRef, entries_in};
use mail_text::{Items, Memory};
use std::alloc::Global;
use std::marker::Model;

/// A message's text, and the entries of its header if they are kept for several keys. Contracts see the text.
#[derive(Drop)]
pub(crate) struct Message<'a> {
    text: &'a [u8],
    entries: Option<Items<EntryRef<'a>>>,
}

impl<'a> Model for Message<'a> {
    ghost use Rattle.std.specs.Prelude.{◌≡◌, List, ℕ};
    ghost use Rattle.std.specs.Option.{ForSome};
    ghost use Rattle.mail_headers.specs.Header.{entries_of};

    ghost Value = { List ℕ };

    ghost view = { λ m. m.text.now };

    ghost invariant = { λ m. ForSome m.entries (λ es. es ≡ entries_of m.text.now) };
}

impl<'a> Message<'a> {
    ghost use Rattle.std.specs.Prelude.{◌≡◌, IfOk, IfSome};
    ghost use Rattle.mail_headers.specs.Header.{entries_of};

    /// The message of this text. Its entries are kept if that is wanted. Fails only if memory runs out.
    pub(crate) fn read(alloc: Global, text: &'a [u8], keeps: bool) -> Result<Message<'a>, Memory>
        ensures { IfOk result (λ message. message ≡ text.now) }
    {
        let entries = if keeps {
            Some(kept(alloc, text)?)
        } else {
            None
        };
        Ok(Message { text, entries })
    }

    /// The text.
    pub(crate) fn text(&self) -> &'a [u8]
        ensures { result.now ≡ self.now }
    {
        self.text
    }

    /// The entries of the header, if they are kept.
    pub(crate) fn entries(&self) -> Option<&[EntryRef<'a>]>
        ensures { IfSome result (λ es. es.now ≡ entries_of self.now) }
    {
        match &self.entries {
            Some(entries) => Some(entries.items()),
            None => None,
        }
    }
}

// How many entries there is room for at first.
const ROOM: usize = 16;

// The entries of the text's header.
fn kept(alloc: Global, text: &[u8]) -> Result<Items<EntryRef<'_>>, Memory>
    ensures { IfOk result (λ es. es ≡ entries_of text.now) }
{
    let mut kept = Items::of(Vec::with_capacity(alloc, ROOM)?);
    for entry in entries_in(text) {
        kept.push(entry)?;
    }
    Ok(kept)
}
