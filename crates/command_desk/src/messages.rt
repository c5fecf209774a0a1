// A message of the folder, and how it is printed.
ghost use Rattle.std.specs.Prelude.{◌≡◌, ◌++◌, IfOk, OnOk};
ghost use Rattle.command_desk.specs.Desks.{IsDesk, IsMessageOf, message_text};
ghost use Rattle.command_desk.specs.Messages.{heading, printed};

use crate::Desk;
use itoa::Buffer;
use mail_text::{Memory, Text};
use mbox_scan::MessageRef;
use message_show::{How, shown_text};
use std::alloc::Global;

/// Message n of the folder, numbered from 1.
pub fn message<'a>(desk: &'a Desk, n: u32) -> MessageRef<'a>
    requires desk { IsDesk desk.now }
    requires message { IsMessageOf desk.now.shown n }
    ensures { result ≡ message_text desk.now n }
{
    desk.folder.folder.message(n as usize - 1)
}

/// Puts the line above a printed message.
pub fn put_heading(out: &mut Text, n: u32) -> Result<(), Memory>
    ensures { OnOk result (out.new ≡ out.old ++ heading n) }
{
    let mut buffer = Buffer::new();
    out.push(b"Message ")?;
    out.push(buffer.format(n).as_bytes())?;
    out.push(b":\n")
}

/// Puts a message as it is printed.
pub fn put_printed(
    alloc: Global,
    out: &mut Text,
    desk: &Desk,
    how: How,
    n: u32,
) -> Result<(), Memory>
    requires desk { IsDesk desk.now }
    requires message { IsMessageOf desk.now.shown n }
    ensures { OnOk result (out.new ≡ out.old ++ printed desk.now how n) }
{
    put_heading(out, n)?;
    let shown = shown_text(alloc, &message(desk, n), &desk.sets, how)?;
    out.push(shown.bytes())?;
    out.push(b"\n")
}

/// A message as it is printed.
pub fn printed(alloc: Global, desk: &Desk, how: How, n: u32) -> Result<Text, Memory>
    requires desk { IsDesk desk.now }
    requires message { IsMessageOf desk.now.shown n }
    ensures { IfOk result (λ t. t ≡ printed desk.now how n) }
{
    let mut out = Text::new(alloc);
    put_printed(alloc, &mut out, desk, how, n)?;
    Ok(out)
}
