// The text that a delivery puts into each mailbox.
ghost use Rattle.std.specs.Prelude.{◌≡◌, ◌++◌, IfOk, OnOk};
ghost use Rattle.mail_text.specs.Lines.{with_feed};
ghost use Rattle.mail_dates.specs.Clock.{IsPrintable};
ghost use Rattle.mbox_scan.specs.Mailbox.{trimmed};
ghost use Rattle.draft_text.specs.Texts.{quote, quoted_line, opening_line};

use mail_dates::{Moment, print_from_date};
use mail_text::{Memory, Text};
use mbox_scan::trimmed_len;
use std::alloc::Global;

// What stands before a line: `>` if it begins with `From `.
fn quote(line: &[u8]) -> &'static [u8]
    ensures { result.now ≡ quote line.now }
{
    if line.starts_with(b"From ") {
        b">"
    } else {
        b""
    }
}

/// Puts a line behind others as a mailbox has it.
pub(crate) fn push_line(body: &mut Vec<u8>, line: &[u8]) -> Result<(), Memory>
    ensures { OnOk result (body.new.items ≡ body.old.items ++ with_feed (quoted_line line.now)) }
{
    body.extend_from_slice(quote(line))?;
    body.extend_from_slice(line)?;
    body.extend_from_slice(b"\n")?;
    Ok(())
}

// Puts the From line of the sender and the moment at the end.
fn push_opening(alloc: Global, text: &mut Vec<u8>, sender: &[u8], m: Moment) -> Result<(), Memory>
    requires { IsPrintable m }
    ensures { OnOk result (text.new.items ≡ text.old.items ++ with_feed (opening_line sender.now m)) }
{
    let date = print_from_date(alloc, m)?;
    text.extend_from_slice(b"From ")?;
    text.extend_from_slice(sender)?;
    text.extend_from_slice(b" ")?;
    text.extend_from_slice(date.bytes())?;
    text.extend_from_slice(b"\n")?;
    Ok(())
}

/// The From line of the sender and the moment, and then a body as `push_line` makes it, without line feeds at the end.
pub(crate) fn message(alloc: Global, sender: &[u8], body: Text, m: Moment) -> Result<Text, Memory>
    requires { IsPrintable m }
    ensures { IfOk result (λ t. t ≡ trimmed (with_feed (opening_line sender.now m) ++ body)) }
{
    let mut text = Vec::new(alloc);
    push_opening(alloc, &mut text, sender, m)?;
    text.extend_from_slice(body.bytes())?;
    let end = trimmed_len(&text);
    text.truncate(end);
    Ok(Text::of(text))
}
