// A draft whose parts but the body hold no line feed.
ghost use Rattle.std.specs.Prelude.{◌≡◌, map, IfOk};
ghost use Rattle.draft_text.specs.Texts.{flat_byte, flat, flattened};
ghost use Rattle.draft_text.specs.DraftLaws.{HasFlatParts};

use crate::Draft;
use mail_text::{Items, Memory, Text};
use std::alloc::Global;

// A space for a line feed, and any other byte as it is.
fn flat_byte(byte: u8) -> u8
    ensures { result ≡ flat_byte byte }
{
    if byte == b'\n' { b' ' } else { byte }
}

/// The bytes with a space for each line feed. Fails only if memory runs out.
pub fn flat(alloc: Global, bytes: &[u8]) -> Result<Text, Memory>
    ensures { IfOk result (λ t. t ≡ flat bytes.now) }
{
    let mut text = Vec::with_capacity(alloc, bytes.len())?;
    for byte in bytes {
        text.push_reserved(flat_byte(*byte));
    }
    Ok(Text::of(text))
}

// Each text of a list with a space for each line feed.
fn all_flat(alloc: Global, texts: &[Text]) -> Result<Items<Text>, Memory>
    ensures { IfOk result (λ items. items ≡ map flat texts.now) }
{
    let mut items = Items::new(alloc);
    for text in texts {
        items.push(flat(alloc, text.bytes())?)?;
    }
    Ok(items)
}

// Two texts with a space for each line feed.
fn both(alloc: Global, first: &[u8], second: &[u8]) -> Result<(Text, Text), Memory>
    ensures { IfOk result (λ made. made ≡ (flat first.now, flat second.now)) }
{
    let first = flat(alloc, first)?;
    let second = flat(alloc, second)?;
    Ok((first, second))
}

// Two lists of texts with a space for each line feed.
fn both_lists(
    alloc: Global,
    first: &[Text],
    second: &[Text],
) -> Result<(Items<Text>, Items<Text>), Memory>
    ensures { IfOk result (λ made. made ≡ (map flat first.now, map flat second.now)) }
{
    let first = all_flat(alloc, first)?;
    let second = all_flat(alloc, second)?;
    Ok((first, second))
}

/// The draft with a space for each line feed of its parts but the body, which stays as it is: so none of those parts
/// holds a line feed, and the texts of the draft read back, by `a_stored_draft_reads_back` and
/// `a_sent_draft_reads_back`. Fails only if memory runs out.
pub fn flattened(alloc: Global, draft: &Draft) -> Result<Draft, Memory>
    ensures draft { IfOk result (λ d. d ≡ flattened draft.now) }
    ensures parts { IfOk result (λ d. HasFlatParts d) }
{
    let named = both_lists(alloc, draft.to.items(), draft.cc.items())?;
    let unseen = both_lists(alloc, draft.bcc.items(), draft.references.items())?;
    let lines = both(alloc, draft.subject.bytes(), draft.from.bytes())?;
    let reply = flat(alloc, draft.reply.bytes())?;
    let body = Text::copy(alloc, draft.body.bytes())?;
    Ok(Draft {
        to: named.0,
        cc: named.1,
        bcc: unseen.0,
        subject: lines.0,
        from: lines.1,
        reply,
        references: unseen.1,
        body,
    })
}
