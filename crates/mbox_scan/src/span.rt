ghost use Rattle.std.specs.Prelude.{◌≡◌, ◌<◌, ◌≤◌, ℕ, Err, IsTrue, IsOk, OnOk, length, vec_capacity};
ghost use Rattle.mbox_scan.specs.Mailbox.{is_mailbox, starts, texts_of, message_limit};
ghost use Rattle.mbox_scan.specs.Spans.{IsScanned, IsScannedTo};

use crate::ScanError;
use crate::folder::MOST_MESSAGES;
use crate::scan::{BREAK, count_messages, first_message};
use memchr::memmem::Finder;

/// Where a text stands in the bytes of its folder.
#[derive(Clone, Copy)]
pub(crate) struct Span {
    pub start: u32,
    pub len: u32,
}

/// Puts the spans of a mailbox's texts from a place on at the end of those before it. It takes no memory if there is
/// room for all.
pub(crate) fn push_spans(bytes: &[u8], from: usize, spans: &mut Vec<Span>) -> Result<(), ScanError>
    requires fits { length bytes.now ≤ u32.MAX }
    requires mailbox { IsTrue (is_mailbox bytes.now) }
    requires scanned { IsScannedTo bytes.now spans.old.items from }
    ensures ok { OnOk result (IsScanned bytes.now spans.new.items) }
    ensures too_many { (count : ℕ) → result ≡ Err (ScanError.TooMany count)
        → (count ≡ length (starts bytes.now)) × (message_limit < count) }
    ensures defined { result ≡ Err ScanError.NotAMailbox → ⊥ }
    ensures enough { length (texts_of bytes.now) ≤ vec_capacity spans.old → length (texts_of bytes.now) ≤ message_limit
        → IsOk result }
{
    let finder = Finder::new(BREAK);
    let mut start = from;
    while start < bytes.len() {
        let (_, rest) = bytes.split_at(start);
        if spans.len() >= MOST_MESSAGES {
            let count = spans.len() + count_messages(&finder, rest);
            return Err(ScanError::TooMany {
                count: count as u64,
            });
        }
        let first = first_message(&finder, rest);
        spans.push(Span {
            start: start as u32,
            len: first.end as u32,
        })?;
        start += first.next;
    }
    Ok(())
}
