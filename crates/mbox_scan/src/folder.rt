ghost use Rattle.std.specs.Prelude.{◌≡◌, ◌+◌, ◌<◌, ◌≤◌, ◌↔◌, [], ◌∷◌, ◌++◌, ℕ, Some, None, Err, IfOk, OnOk, OnErr, length, take, slice_get};
ghost use Rattle.mbox_scan.specs.Mailbox.{starts, texts_of, list_of, message_limit, Adds, HasMore};

use crate::growth::add_tail;
use crate::scan::is_mailbox;
use crate::span::{Span, push_spans};
use crate::{GrowError, ScanError};
use mail_text::Text;
use std::alloc::Global;
use std::marker::Model;

/// The most messages that a folder may have.
pub const MOST_MESSAGES: usize = 1_000_000;

/// The most bytes that a folder may have, so that each place in them has 32 bits. No host loads so many.
pub(crate) const MOST_BYTES: usize = u32::MAX as usize;

/// The bytes of a mailbox with the places of its messages, at most 1,000,000. Contracts see the
/// bytes; `texts_of` of them is the list of the messages' texts.
#[derive(Drop)]
pub struct Folder {
    bytes: Text,
    spans: Vec<Span>,
}

impl Model for Folder {
    ghost use Rattle.std.specs.Prelude.{List, ℕ};
    ghost use Rattle.mbox_scan.specs.Spans.{IsScanned};

    ghost Value = { List ℕ };

    ghost view = { λ f. f.bytes };

    ghost invariant = { λ f. IsScanned f.bytes f.spans.items };
}

impl Folder {
    /// Opens the bytes of a mailbox. `NotAMailbox` if there are bytes and no message starts at
    /// the first of them; else `TooMany`, with their number, if more than 1,000,000 messages
    /// start; or `Memory`, for 4 GiB of bytes too.
    pub fn open(alloc: Global, bytes: Text) -> Result<Folder, ScanError>
        ensures ok { IfOk result (λ f. f ≡ bytes) }
        ensures listed { OnOk result (list_of bytes ≡ Some (texts_of bytes)) }
        ensures few { OnOk result (length (texts_of bytes) ≤ message_limit) }
        ensures not_a_mailbox { (result ≡ Err ScanError.NotAMailbox) ↔ (list_of bytes ≡ None) }
        ensures too_many { (count : ℕ) → result ≡ Err (ScanError.TooMany count)
            → (count ≡ length (starts bytes)) × (message_limit < count) }
    {
        if !is_mailbox(bytes.bytes()) {
            return Err(ScanError::NotAMailbox);
        }
        if bytes.bytes().len() > MOST_BYTES {
            return Err(ScanError::Memory);
        }
        let mut spans = Vec::new(alloc);
        push_spans(bytes.bytes(), 0, &mut spans)?;
        Ok(Folder { bytes, spans })
    }

    /// The bytes. It takes no memory.
    pub fn bytes(&self) -> &[u8]
        ensures { result.now ≡ self.now }
    {
        self.bytes.bytes()
    }

    /// How many messages there are. It takes no memory.
    pub fn count(&self) -> usize
        ensures count { result ≡ length (texts_of self.now) }
        ensures listed { list_of self.now ≡ Some (texts_of self.now) }
        ensures few { result ≤ message_limit }
    {
        self.spans.len()
    }

    /// The message at place `k`, counted from 0. It takes no memory.
    pub fn message(&self, k: usize) -> MessageRef<'_>
        requires { k < length (texts_of self.now) }
        ensures text { slice_get (texts_of self.now) k ≡ Some result }
        ensures front { take (k + 1) (texts_of self.now) ≡ take k (texts_of self.now) ++ result ∷ [] }
    {
        let span = self.spans[k];
        let start = span.start as usize;
        let bytes = self.bytes.bytes();
        MessageRef {
            text: &bytes[start..start + span.len as usize],
        }
    }

    /// Puts bytes that came after the folder's own at the end, and tells how many messages they bring. The messages
    /// before them stay as they are. `NotAMessage` if the bytes don't only add messages; else `TooMany`, with the number
    /// of all, if more than 1,000,000 would start; or `Memory`. After a refusal the folder is as before.
    pub fn grow(&mut self, tail: &[u8]) -> Result<usize, GrowError>
        ensures ok { OnOk result (self.new ≡ self.old ++ tail.now) }
        ensures more { IfOk result (HasMore self.old self.new) }
        ensures listed { list_of self.new ≡ Some (texts_of self.new) }
        ensures few { length (texts_of self.new) ≤ message_limit }
        ensures refused { OnErr result (self.new ≡ self.old) }
        ensures not_a_message { (result ≡ Err GrowError.NotAMessage) ↔ ¬ (Adds self.old tail.now) }
        ensures too_many { (count : ℕ) → result ≡ Err (GrowError.TooMany count)
            → (count ≡ length (starts (self.old ++ tail.now))) × (message_limit < count) }
    {
        add_tail(&mut self.bytes, &mut self.spans, tail)
    }
}

/// A message of a folder. Contracts see the bytes of its text.
#[derive(Drop)]
pub struct MessageRef<'a> {
    text: &'a [u8],
}

impl<'a> Model for MessageRef<'a> {
    ghost use Rattle.std.specs.Prelude.{List, ℕ};

    ghost Value = { List ℕ };

    ghost view = { λ m. m.text.now };
}

impl<'a> MessageRef<'a> {
    /// The text: a slice of the folder's bytes, without the line feeds at its end.
    pub fn text(&self) -> &'a [u8]
        ensures { result.now ≡ self.now }
    {
        self.text
    }
}
