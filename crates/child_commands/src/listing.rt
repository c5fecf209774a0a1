// The files of the folder that the variable `folder` names.
ghost use Rattle.std.specs.Prelude.{◌≡◌, ◌++◌, IfOk, OnOk};
ghost use Rattle.std.specs.List.{flat_map};
ghost use Rattle.mailx_vars.specs.Expansion.{folder_at, folder_value};
ghost use Rattle.command_desk.specs.Answers.{Means};
ghost use Rattle.command_desk.specs.Desks.{IsWithin};
ghost use Rattle.child_commands.specs.Listing.{quoted_byte, quoted, listing, folders};

use crate::running::runs;
use command_desk::{Desk, Refusal, Steps, fault, unchanged};
use mail_text::{Memory, Text};
use std::alloc::Global;

// The value of the variable `folder`; one that is unset counts as empty.
fn folder_value(desk: &Desk) -> &[u8]
    ensures { result.now ≡ folder_value desk.now.vars }
{
    desk.vars.get(b"folder").unwrap_or(&[])
}

// The folder of a value: a value without a leading `/` is taken in the home folder.
fn folder_at(alloc: Global, home: &[u8], value: &[u8]) -> Result<Text, Memory>
    ensures { IfOk result (λ t. t ≡ folder_at home.now value.now) }
{
    if value.starts_with(b"/") {
        return Text::copy(alloc, value);
    }
    let mut folder = Text::copy(alloc, home)?;
    folder.push(b"/")?;
    folder.push(value)?;
    Ok(folder)
}

// Puts a byte as it stands between quotes.
fn put_quoted_byte(out: &mut Text, byte: u8) -> Result<(), Memory>
    ensures { OnOk result (out.new ≡ out.old ++ quoted_byte byte) }
{
    if byte == b'\'' {
        out.push(b"'\\''")
    } else {
        out.push(&[byte])
    }
}

// Puts bytes as one word of the shell.
fn put_quoted(out: &mut Text, bytes: &[u8]) -> Result<(), Memory>
    ensures { OnOk result (out.new ≡ out.old ++ quoted bytes.now) }
{
    out.push(b"'")?;
    for byte in bytes {
        put_quoted_byte(out, *byte)?;
    }
    out.push(b"'")
}

// The command that lists the folder of a value.
fn listing(alloc: Global, desk: &Desk, value: &[u8]) -> Result<Text, Memory>
    ensures { IfOk result (λ t. t ≡ listing desk.now value.now) }
{
    let folder = folder_at(alloc, desk.places.home.bytes(), value)?;
    let mut command = Text::copy(alloc, desk.places.lister.bytes())?;
    command.push(b" ")?;
    put_quoted(&mut command, folder.bytes())?;
    Ok(command)
}

/// `folders`: the files in the folder that the variable `folder` names are listed by the command of the places, which
/// is given the folder's name as one word. Refused is a variable that is unset or empty.
pub fn folders(alloc: Global, desk: &Desk) -> Result<Steps, Refusal>
    ensures means { Means result (folders desk.now) }
    ensures within { IsWithin desk.now result }
{
    let value = folder_value(desk);
    if value.is_empty() {
        return Err(fault(alloc, b"", b"folder is not set"));
    }
    let command = listing(alloc, desk, value)?;
    runs(alloc, command, Text::new(alloc), unchanged(alloc))
}
