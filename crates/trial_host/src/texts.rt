// The mailbox of a trial, and the lines that are carried out on it.
ghost use Rattle.std.specs.Prelude.{◌≡◌, ◌++◌, ◌∷◌, [], IfOk, OnOk, codes};
ghost use Rattle.trial_host.specs.Texts.{mailbox_of, message_of, numbered, references_of, trial_lines};
ghost use Rattle.trial_host.specs.Trials.{trial_plan};

use host_memory::Plan;
use host_port::DiskView;
use itoa::Buffer;
use mail_text::{Items, Memory, Text};
use std::alloc::Global;

/// Puts a line with a number.
pub fn put_numbered(out: &mut Text, front: &[u8], n: u64, behind: &[u8]) -> Result<(), Memory>
    ensures { OnOk result (out.new ≡ out.old ++ numbered front.now n behind.now) }
{
    let mut buffer = Buffer::new();
    out.push(front)?;
    out.push(buffer.format(n).as_bytes())?;
    out.push(behind)?;
    out.push(b"\n")
}

// Puts what message k is an answer to, if it is one.
fn put_references(out: &mut Text, k: u64) -> Result<(), Memory>
    ensures { OnOk result (out.new ≡ out.old ++ references_of k) }
{
    if 1 < k {
        put_numbered(out, b"References: <m", k / 2, b"@x>")
    } else {
        Ok(())
    }
}

// Puts message k.
fn put_message(out: &mut Text, k: u64) -> Result<(), Memory>
    ensures { OnOk result (out.new ≡ out.old ++ message_of k) }
{
    put_numbered(out, b"From u", k % 7, b"@x Mon Jan  1 10:00:00 2024")?;
    put_numbered(out, b"From: u", k % 7, b"@x")?;
    put_numbered(out, b"Subject: s", k % 5, b"")?;
    put_numbered(out, b"Message-ID: <m", k, b"@x>")?;
    put_references(out, k)?;
    out.push(b"\n")?;
    put_numbered(out, b"body ", k, b"")?;
    out.push(b"\n")
}

// The mailbox of this many messages.
fn mailbox(alloc: Global, count: u64) -> Result<Text, Memory>
    ensures { IfOk result (λ text. text ≡ mailbox_of count) }
{
    let mut text = Text::new(alloc);
    for k in 0..count {
        put_message(&mut text, k + 1)?;
    }
    Ok(text)
}

/// The disk that a trial begins with.
pub(crate) fn trial_view(alloc: Global, count: u64) -> Result<DiskView, Memory>
    ensures files { IfOk result (λ view. view.files ≡ (codes "box", mailbox_of count) ∷ []) }
    ensures locks { IfOk result (λ view. view.locks ≡ []) }
{
    let mut files = Items::new(alloc);
    let name = Text::copy(alloc, b"box")?;
    let bytes = mailbox(alloc, count)?;
    files.push((name, bytes))?;
    let locks = Items::new(alloc);
    Ok(DiskView { files, locks })
}

/// The lines of a trial.
pub(crate) fn trial_lines(alloc: Global) -> Result<Text, Memory>
    ensures { IfOk result (λ lines. lines ≡ trial_lines) }
{
    Text::copy(alloc, b"thread\nd /s3\ns u2@x saved\nq\n")
}

/// The plan of a trial.
pub(crate) fn trial_plan(alloc: Global) -> Plan
    ensures { result ≡ trial_plan }
{
    Plan {
        now: 0,
        chunk: 65_536,
        foreign: Items::new(alloc),
        fails: Items::new(alloc),
        children: Items::new(alloc),
        edits: Items::new(alloc),
    }
}
