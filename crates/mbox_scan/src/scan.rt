ghost use Rattle.std.specs.Prelude.{◌≡◌, ◌∷◌, ◌<◌, ◌≤◌, IsTrue, length, take, drop};
ghost use Rattle.mbox_scan.specs.Mailbox.{break_mark, is_mailbox, trimmed, texts_of};

use memchr::memmem::Finder;

/// What stands between two messages, and the mark of the second.
pub(crate) const BREAK: &[u8; 7] = b"\n\nFrom ";

/// The first message of bytes, by places counted from their start.
#[derive(Clone, Copy)]
pub(crate) struct First {
    /// Where its text ends.
    pub end: usize,
    /// Where the next message starts; if there is none, the length of the bytes.
    pub next: usize,
}

/// How many bytes are left without the line feeds at the end.
pub fn trimmed_len(piece: &[u8]) -> usize
    ensures cut { take result piece.now ≡ trimmed piece.now }
    ensures bound { result ≤ length piece.now }
{
    let mut n = piece.len();
    while n > 0 && piece[n - 1] == b'\n' {
        n -= 1;
    }
    n
}

/// The first message of a mailbox that has one. The finder looks for the break between two messages.
pub(crate) fn first_message(finder: &Finder<'_>, bytes: &[u8]) -> First
    requires mark { finder.now ≡ break_mark }
    requires mailbox { IsTrue (is_mailbox bytes.now) }
    requires some { 0 < length bytes.now }
    ensures texts { texts_of bytes.now ≡ take result.end bytes.now ∷ texts_of (drop result.next bytes.now) }
    ensures rest { IsTrue (is_mailbox (drop result.next bytes.now)) }
    ensures order { result.end ≤ result.next }
    ensures some { 0 < result.next }
    ensures within { result.next ≤ length bytes.now }
{
    match finder.find(bytes) {
        Some(at) => {
            let (piece, _) = bytes.split_at(at);
            First {
                end: trimmed_len(piece),
                next: at + 2,
            }
        }
        None => First {
            end: trimmed_len(bytes),
            next: bytes.len(),
        },
    }
}

/// How many messages a mailbox has.
pub(crate) fn count_messages(finder: &Finder<'_>, bytes: &[u8]) -> usize
    requires mark { finder.now ≡ break_mark }
    requires mailbox { IsTrue (is_mailbox bytes.now) }
    ensures count { result ≡ length (texts_of bytes.now) }
    ensures bound { result ≤ length bytes.now }
{
    let mut count = 0;
    let mut start = 0;
    while start < bytes.len() {
        let (_, rest) = bytes.split_at(start);
        start += first_message(finder, rest).next;
        count += 1;
    }
    count
}

/// Whether these bytes are a mailbox: there are none, or they begin with `From `.
#[tactic(auto, using(crate::proofs::MailboxLemmas::is_mailbox_read))]
pub fn is_mailbox(bytes: &[u8]) -> bool
    ensures { result ≡ is_mailbox bytes.now }
{
    bytes.is_empty() || bytes.starts_with(b"From ")
}
