ghost use Rattle.std.specs.Prelude.{◌≡◌, ◌∷◌, [], Some, IsTrue, MatchOption};
ghost use Rattle.mbox_scan.specs.Mailbox.{is_mailbox, is_alone, is_message, texts_of};

use crate::scan::{BREAK, first_message, is_mailbox};
use memchr::memmem::Finder;
use std::marker::Model;

/// The texts of a mailbox's bytes, first to last, however many there are. Contracts see the list of
/// those that are left.
#[derive(Drop)]
pub struct Texts<'a> {
    rest: &'a [u8],
    finder: Finder<'static>,
}

impl<'a> Model for Texts<'a> {
    ghost use Rattle.std.specs.Prelude.{◌≡◌, IsTrue, List, ℕ};
    ghost use Rattle.mbox_scan.specs.Mailbox.{is_mailbox, texts_of, break_mark};

    ghost Value = { List (List ℕ) };

    ghost view = { λ t. texts_of t.rest.now };

    ghost invariant = { λ t. IsTrue (is_mailbox t.rest.now) × (t.finder ≡ break_mark) };
}

impl<'a> Texts<'a> {
    /// All texts of a mailbox's bytes. It takes no memory.
    pub fn of(bytes: &'a [u8]) -> Texts<'a>
        requires { IsTrue (is_mailbox bytes.now) }
        ensures { result ≡ texts_of bytes.now }
    {
        Texts {
            rest: bytes,
            finder: Finder::new(BREAK),
        }
    }

    /// The next text, a slice of the bytes, or None if none is left.
    pub fn next_text(&mut self) -> Option<&'a [u8]>
        ensures { MatchOption result ((self.old ≡ []) × (self.new ≡ []))
            (λ text. self.old ≡ text.now ∷ self.new) }
    {
        if self.rest.is_empty() {
            return None;
        }
        let first = first_message(&self.finder, self.rest);
        let (text, _) = self.rest.split_at(first.end);
        let (_, rest) = self.rest.split_at(first.next);
        self.rest = rest;
        Some(text)
    }
}

// Whether one text is left alone, and is this one.
fn is_alone(mut texts: Texts<'_>, bytes: &[u8]) -> bool
    ensures { result ≡ is_alone bytes.now (Some texts.entry) }
{
    match texts.next_text() {
        Some(text) => match texts.next_text() {
            Some(_) => false,
            None => text == bytes,
        },
        None => false,
    }
}

/// Whether the bytes are one message, and nothing else. It takes no memory.
#[tactic(auto, unfolding(crate::specs::Mailbox::list_of))]
pub fn is_message(bytes: &[u8]) -> bool
    ensures { result ≡ is_message bytes.now }
{
    if is_mailbox(bytes) {
        is_alone(Texts::of(bytes), bytes)
    } else {
        false
    }
}
