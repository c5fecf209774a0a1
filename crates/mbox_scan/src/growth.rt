ghost use Rattle.std.specs.Prelude.{◌≡◌, ◌+◌, ◌<◌, ◌≤◌, ◌++◌, ◌↔◌, ℕ, None, Err, IsTrue, IfSome, IfOk, OnOk, OnErr, length, vec_capacity};
ghost use Rattle.std.specs.List.{prefix_len};
ghost use Rattle.mbox_scan.specs.Mailbox.{Adds, HasMore, is_mailbox, is_feed, starts, message_limit};
ghost use Rattle.mbox_scan.specs.Spans.{IsScanned, IsAddedFrom};

use crate::GrowError;
use crate::folder::{MOST_BYTES, MOST_MESSAGES};
use crate::scan::{BREAK, count_messages, is_mailbox, trimmed_len};
use crate::span::{Span, push_spans};
use mail_text::Text;
use memchr::memmem::Finder;

// How many line feeds stand in front.
fn leading_feeds(bytes: &[u8]) -> usize
    ensures value { result ≡ prefix_len is_feed bytes.now }
    ensures within { result ≤ length bytes.now }
{
    bytes
        .iter()
        .position(|byte| *byte != b'\n')
        .unwrap_or(bytes.len())
}

// Where the texts start that a tail adds to a mailbox. None if it doesn't only add texts.
fn added_from(bytes: &[u8], tail: &[u8]) -> Option<usize>
    requires { IsTrue (is_mailbox bytes.now) }
    ensures some { IfSome result (IsAddedFrom bytes.now tail.now) }
    ensures none { result ≡ None → ¬ (Adds bytes.now tail.now) }
{
    if bytes.is_empty() {
        return if is_mailbox(tail) { Some(0) } else { None };
    }
    let feeds = leading_feeds(tail);
    let (_, rest) = tail.split_at(feeds);
    if rest.is_empty() {
        return Some(feeds);
    }
    let before = bytes.len() - trimmed_len(bytes) + feeds;
    if before >= 2 && is_mailbox(rest) {
        Some(feeds)
    } else {
        None
    }
}

// Makes room for so many more spans, if there may be so many.
fn make_room(spans: &mut Vec<Span>, more: usize) -> Result<(), GrowError>
    requires { length spans.old.items + more ≤ usize.MAX }
    ensures items { spans.new.items ≡ spans.old.items }
    ensures room { OnOk result (length spans.old.items + more ≤ vec_capacity spans.new) }
    ensures few { OnOk result (length spans.old.items + more ≤ message_limit) }
    ensures too_many { (count : ℕ) → result ≡ Err (GrowError.TooMany count)
        → (count ≡ length spans.old.items + more) × (message_limit < count) }
    ensures defined { result ≡ Err GrowError.NotAMessage → ⊥ }
{
    let count = spans.len() + more;
    if count > MOST_MESSAGES {
        return Err(GrowError::TooMany {
            count: count as u64,
        });
    }
    spans.try_reserve(more)?;
    Ok(())
}

// Adds a tail to the bytes of a mailbox, and the spans of the texts that it brings to those that there are. How many
// it brings; it takes its memory before it changes anything.
pub(crate) fn add_tail(
    bytes: &mut Text,
    spans: &mut Vec<Span>,
    tail: &[u8],
) -> Result<usize, GrowError>
    requires { IsScanned bytes.old spans.old.items }
    ensures scanned { IsScanned bytes.new spans.new.items }
    ensures ok { OnOk result (bytes.new ≡ bytes.old ++ tail.now) }
    ensures more { IfOk result (HasMore bytes.old bytes.new) }
    ensures err { OnErr result (bytes.new ≡ bytes.old) }
    ensures not_a_message { (result ≡ Err GrowError.NotAMessage) ↔ ¬ (Adds bytes.old tail.now) }
    ensures too_many { (count : ℕ) → result ≡ Err (GrowError.TooMany count)
        → (count ≡ length (starts (bytes.old ++ tail.now))) × (message_limit < count) }
{
    let Some(start) = added_from(bytes.bytes(), tail) else {
        return Err(GrowError::NotAMessage);
    };
    let (_, added) = tail.split_at(start);
    let more = count_messages(&Finder::new(BREAK), added);
    make_room(spans, more)?;
    let from = bytes.bytes().len();
    if tail.len() > MOST_BYTES || from > MOST_BYTES - tail.len() {
        return Err(GrowError::Memory);
    }
    bytes.push(tail)?;
    match push_spans(bytes.bytes(), from + start, spans) {
        Ok(()) => Ok(more),
        Err(_) => unreachable!(),
    }
}
