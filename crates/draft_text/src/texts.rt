ghost use Rattle.std.specs.Prelude.{◌≡◌, ◌++◌, IfOk, OnOk};
ghost use Rattle.mail_text.specs.Lines.{with_feed};
ghost use Rattle.mail_dates.specs.Clock.{IsPrintable};
ghost use Rattle.draft_text.specs.Texts.{opening_line, message_text, mbox_text};

use crate::Draft;
use crate::body::{push_fed, push_quoted};
use crate::fields::push_fields;
use mail_dates::{Moment, print_from_date};
use mail_text::{Memory, Text};
use mbox_scan::trimmed_len;
use std::alloc::Global;

/// The message that the sender gets (RFC 5322, section 2.1): the fields of the draft, with the moment as its date, an
/// empty line, and the body, with a line feed at its end if it has bytes and lacks one. Who gets a copy of which the
/// text says nothing isn't in it. No part but the body is to hold a line feed: then the fields and the body read back,
/// by `a_sent_draft_reads_back`. Fails only if memory runs out.
pub fn message_text(alloc: Global, draft: &Draft, m: Moment) -> Result<Text, Memory>
    requires { IsPrintable m }
    ensures { IfOk result (λ t. t ≡ message_text draft.now m) }
{
    let mut text = Vec::new(alloc);
    push_fields(alloc, &mut text, draft, m)?;
    text.extend_from_slice(b"\n")?;
    push_fed(&mut text, draft.body.bytes())?;
    Ok(Text::of(text))
}

// Puts the line that begins a message in a mailbox at the end: the user and the moment.
fn push_opening(alloc: Global, text: &mut Vec<u8>, user: &[u8], m: Moment) -> Result<(), Memory>
    requires { IsPrintable m }
    ensures { OnOk result (text.new.items ≡ text.old.items ++ with_feed (opening_line user.now m)) }
{
    let date = print_from_date(alloc, m)?;
    text.extend_from_slice(b"From ")?;
    text.extend_from_slice(user)?;
    text.extend_from_slice(b" ")?;
    text.extend_from_slice(date.bytes())?;
    text.extend_from_slice(b"\n")?;
    Ok(())
}

/// The text of the draft in a mailbox: a From line of the user and the moment, and after it the message, with `>`
/// before each line of its body that begins with `From `, and with no line feeds at its end. Neither the user's name
/// nor a part but the body is to hold a line feed: then the text can be put into a mailbox and read back, by
/// `a_draft_can_be_put_into_a_mailbox` and `a_stored_draft_reads_back`. Fails only if memory runs out.
pub fn mbox_text(alloc: Global, draft: &Draft, user: &[u8], m: Moment) -> Result<Text, Memory>
    requires { IsPrintable m }
    ensures { IfOk result (λ t. t ≡ mbox_text draft.now user.now m) }
{
    let mut text = Vec::new(alloc);
    push_opening(alloc, &mut text, user, m)?;
    push_fields(alloc, &mut text, draft, m)?;
    text.extend_from_slice(b"\n")?;
    push_quoted(&mut text, draft.body.bytes())?;
    let end = trimmed_len(&text);
    text.truncate(end);
    Ok(Text::of(text))
}
