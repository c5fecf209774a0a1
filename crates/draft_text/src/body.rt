ghost use Rattle.std.specs.Prelude.{◌≡◌, ◌++◌, OnOk};
ghost use Rattle.mail_text.specs.Lines.{with_feed, fed};
ghost use Rattle.draft_text.specs.Texts.{quote, quoted_line, quoted};

use mail_text::{Memory, lines};

// The line feed that a body lacks at its end: nothing if it has one, or has no bytes.
fn missing_feed(body: &[u8]) -> &'static [u8]
    ensures { fed body.now ≡ body.now ++ result.now }
{
    match body.last() {
        Some(last) => { if *last == b'\n' { b"" } else { b"\n" } }
        None => b"",
    }
}

// Puts a body at the end, with a line feed after it if it has bytes and lacks one.
pub(crate) fn push_fed(text: &mut Vec<u8>, body: &[u8]) -> Result<(), Memory>
    ensures { OnOk result (text.new.items ≡ text.old.items ++ fed body.now) }
{
    text.extend_from_slice(body)?;
    text.extend_from_slice(missing_feed(body))?;
    Ok(())
}

// What stands in a mailbox before a line of a body.
fn quote(line: &[u8]) -> &'static [u8]
    ensures { result.now ≡ quote line.now }
{
    if line.starts_with(b"From ") {
        b">"
    } else {
        b""
    }
}

// Puts a line of a body at the end as a mailbox has it.
fn push_line(text: &mut Vec<u8>, line: &[u8]) -> Result<(), Memory>
    ensures { OnOk result (text.new.items ≡ text.old.items ++ with_feed (quoted_line line.now)) }
{
    text.extend_from_slice(quote(line))?;
    text.extend_from_slice(line)?;
    text.extend_from_slice(b"\n")?;
    Ok(())
}

// Puts a body at the end as a mailbox has it.
pub(crate) fn push_quoted(text: &mut Vec<u8>, body: &[u8]) -> Result<(), Memory>
    ensures { OnOk result (text.new.items ≡ text.old.items ++ quoted body.now) }
{
    for line in lines(body) {
        push_line(text, line)?;
    }
    Ok(())
}
