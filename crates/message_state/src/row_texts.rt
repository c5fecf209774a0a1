ghost use Rattle.std.specs.Prelude.{◌≡◌, ◌++◌, length, IfOk, OnOk};

use mail_text::{Memory, Text};
use std::alloc::Global;
use std::marker::Model;

/// The texts of a row, which stand one after the other in one piece of memory. Contracts see each.
#[derive(Drop)]
pub struct RowTexts {
    bytes: Text,
    // where the first four end; the own id stands after them
    subject_end: usize,
    author_end: usize,
    shown_author_end: usize,
    to_end: usize,
}

impl Model for RowTexts {
    ghost use Rattle.message_state.specs.RowTexts.{Texts, texts_in, AreEnds};

    ghost Value = { Texts };

    ghost view = { λ t. texts_in t.bytes t.subject_end t.author_end t.shown_author_end t.to_end };

    ghost invariant = { λ t. AreEnds t.bytes t.subject_end t.author_end t.shown_author_end t.to_end };
}

impl RowTexts {
    /// These texts. Fails only if memory runs out.
    pub(crate) fn of(
        alloc: Global,
        subject: &[u8],
        author: &[u8],
        shown_author: &[u8],
        to: &[u8],
        own_id: &[u8],
    ) -> Result<RowTexts, Memory>
        ensures { IfOk result
            (λ texts. texts ≡ record {
              subject = subject.now;
              author = author.now;
              shown_author = shown_author.now;
              to = to.now;
              own_id = own_id.now;
            }) }
    {
        let room = subject
            .len()
            .saturating_add(author.len())
            .saturating_add(shown_author.len())
            .saturating_add(to.len())
            .saturating_add(own_id.len());
        let mut bytes = Text::of(Vec::with_capacity(alloc, room)?);
        let subject_end = pushed(subject, &mut bytes)?;
        let author_end = pushed(author, &mut bytes)?;
        let shown_author_end = pushed(shown_author, &mut bytes)?;
        let to_end = pushed(to, &mut bytes)?;
        bytes.push(own_id)?;
        Ok(RowTexts {
            bytes,
            subject_end,
            author_end,
            shown_author_end,
            to_end,
        })
    }

    /// The unfolded value of `Subject`, or empty.
    pub fn subject(&self) -> &[u8]
        ensures { result.now ≡ self.now.subject }
    {
        &self.bytes.bytes()[..self.subject_end]
    }

    /// The bare address of the author: the first of `From`, else the sender of the From line, else empty.
    pub fn author(&self) -> &[u8]
        ensures { result.now ≡ self.now.author }
    {
        &self.bytes.bytes()[self.subject_end..self.author_end]
    }

    /// The author's display name, or the bare address.
    pub fn shown_author(&self) -> &[u8]
        ensures { result.now ≡ self.now.shown_author }
    {
        &self.bytes.bytes()[self.author_end..self.shown_author_end]
    }

    /// The first bare address of `To`, or empty.
    pub fn to(&self) -> &[u8]
        ensures { result.now ≡ self.now.to }
    {
        &self.bytes.bytes()[self.shown_author_end..self.to_end]
    }

    /// The message's own identifier, the first of `Message-ID` (RFC 5322, section 3.6.4), with its angle brackets,
    /// or empty.
    pub fn own_id(&self) -> &[u8]
        ensures { result.now ≡ self.now.own_id }
    {
        &self.bytes.bytes()[self.to_end..]
    }
}

// Puts a text at the end, and gives the place at which it ends.
fn pushed(text: &[u8], bytes: &mut Text) -> Result<usize, Memory>
    ensures bytes { OnOk result (bytes.new ≡ bytes.old ++ text.now) }
    ensures end { IfOk result (λ end. end ≡ length bytes.new) }
{
    bytes.push(text)?;
    Ok(bytes.bytes().len())
}
