ghost use Rattle.std.specs.Prelude.{◌≡◌, ◌++◌, IfOk, OnOk};
ghost use Rattle.mail_headers.specs.Header.{body_of};
ghost use Rattle.message_state.specs.Stamp.{body_part};
ghost use Rattle.message_show.specs.ShownText.{is_kept, is_shown, shown_text, top_text};

use crate::FieldSets;
use mail_headers::{EntryRef, Header};
use mail_text::{Memory, Text, lines};
use mbox_scan::MessageRef;
use std::alloc::Global;

/// Which fields of a message are shown.
#[derive(Clone, Copy, Debug, PartialEq, Eq)]
pub enum How {
    /// Those that the sets of names keep.
    Kept,
    /// All.
    All,
}

/// The text of a message as it is shown: the From line, the lines of the header that are no field and the fields
/// that are shown, in their order in the header, and, if there is a body, an empty line and the body. No line
/// feed is put at its end. Fails only if memory runs out.
pub fn shown_text(
    alloc: Global,
    m: &MessageRef<'_>,
    sets: &FieldSets,
    how: How,
) -> Result<Text, Memory>
    ensures { IfOk result (λ t. t ≡ shown_text m.now sets.now how) }
{
    let header = Header::read(alloc, m.text())?;
    let mut text = Text::copy(alloc, header.from_line())?;
    for entry in header.entries() {
        if is_shown(sets, how, &entry) {
            text.push(b"\n")?;
            text.push(entry.raw())?;
        }
    }
    push_body(&mut text, &header)?;
    Ok(text)
}

/// The first `count` lines of what is shown of a message with its kept fields, each ended by one line feed; all
/// lines if there are fewer. Fails only if memory runs out.
pub fn top(alloc: Global, m: &MessageRef<'_>, sets: &FieldSets, count: u64) -> Result<Text, Memory>
    ensures { IfOk result (λ t. t ≡ top_text m.now sets.now count) }
{
    let shown = shown_text(alloc, m, sets, How::Kept)?;
    let mut top = Text::new(alloc);
    for line in lines(shown.bytes()).take(count as usize) {
        top.push(line)?;
        top.push(b"\n")?;
    }
    Ok(top)
}

// Whether the entry is shown.
fn is_shown(sets: &FieldSets, how: How, entry: &EntryRef<'_>) -> bool
    ensures { result ≡ is_shown sets.now how entry.now }
{
    match how {
        How::Kept => is_kept(sets, entry),
        How::All => true,
    }
}

// Whether the entry is a kept field, or a line that is no field.
fn is_kept(sets: &FieldSets, entry: &EntryRef<'_>) -> bool
    ensures { result ≡ is_kept sets.now entry.now }
{
    match entry.field() {
        Some(field) => sets.keeps(field.name()),
        None => true,
    }
}

// Puts the body at the end, after an empty line, if there is one.
fn push_body(text: &mut Text, header: &Header<'_>) -> Result<(), Memory>
    ensures { OnOk result (text.new ≡ text.old ++ body_part (body_of header.now)) }
{
    if header.has_body() {
        text.push(b"\n\n")?;
        text.push(header.body())?;
    }
    Ok(())
}
