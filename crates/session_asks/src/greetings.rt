// What is printed of a folder that was opened.
ghost use Rattle.std.specs.Prelude.{◌≡◌, ◌++◌, [], codes, IfOk, OnOk, if◌then◌else◌};
ghost use Rattle.mailx_vars.specs.Settings.{is_set};
ghost use Rattle.command_desk.specs.Desks.{IsDesk};
ghost use Rattle.show_commands.specs.Paging.{current_page};
ghost use Rattle.session_asks.specs.Openings.{page_or_none, greeting};
ghost use Rattle.session_asks.specs.Switching.{announcement};

use folder_commands::opening_line;
use mail_text::{Memory, Text};
use read_commands::{Desk, Refusal, current_page};
use std::alloc::Global;

// Puts the page of the current message, if there is one.
fn put_page(alloc: Global, out: &mut Text, desk: &Desk) -> Result<(), Memory>
    requires { IsDesk desk.now }
    ensures { OnOk result (out.new ≡ out.old ++ page_or_none (current_page desk.now)) }
{
    match current_page(alloc, desk) {
        Ok(page) => out.push(page.bytes()),
        Err(Refusal::Fault { .. }) => Ok(()),
        Err(Refusal::Memory) => Err(Memory),
    }
}

/// With `header` set the opening line and the page of the current message.
pub fn greeting(alloc: Global, desk: &Desk) -> Result<Text, Memory>
    requires { IsDesk desk.now }
    ensures { IfOk result (λ text. text ≡ greeting desk.now) }
{
    if !desk.vars.flag(b"header") {
        return Ok(Text::new(alloc));
    }
    let mut out = opening_line(alloc, desk)?;
    put_page(alloc, &mut out, desk)?;
    Ok(out)
}

// Puts the page of the current message if `header` is set.
fn put_page_by_header(alloc: Global, out: &mut Text, desk: &Desk) -> Result<(), Memory>
    requires { IsDesk desk.now }
    ensures { OnOk result (out.new ≡ out.old ++
        (if is_set desk.now.vars (codes "header") then page_or_none (current_page desk.now) else [])) }
{
    if desk.vars.flag(b"header") {
        put_page(alloc, out, desk)
    } else {
        Ok(())
    }
}

/// The opening line, and with `header` set the page of the current message, after a reply.
pub(crate) fn announcement(alloc: Global, desk: &Desk, reply: &[u8]) -> Result<Text, Memory>
    requires { IsDesk desk.now }
    ensures { IfOk result (λ text. text ≡ reply.now ++ announcement desk.now) }
{
    let line = opening_line(alloc, desk)?;
    let mut out = Text::copy(alloc, reply)?;
    out.push(line.bytes())?;
    put_page_by_header(alloc, &mut out, desk)?;
    Ok(out)
}
