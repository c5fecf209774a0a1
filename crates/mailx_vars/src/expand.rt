ghost use Rattle.std.specs.Prelude.{◌≡◌, ◌++◌, IfOk};
ghost use Rattle.mailx_vars.specs.Expansion.{IsUnlessMemory, expansion, front_expansion, in_folder, previous_file};

use crate::environment::Places;
use crate::error::NameError;
use crate::settings::Vars;
use mail_text::{Memory, Text};
use std::alloc::Global;

// A text of three parts.
fn joined(alloc: Global, front: &[u8], middle: &[u8], back: &[u8]) -> Result<Text, Memory>
    ensures { IfOk result (λ t. t ≡ (front.now ++ middle.now) ++ back.now) }
{
    let mut text = Text::copy(alloc, front)?;
    text.push(middle)?;
    text.push(back)?;
    Ok(text)
}

// The previous file.
fn previous_file(alloc: Global, previous: &[u8]) -> Result<Text, NameError>
    ensures { IsUnlessMemory result (previous_file previous.now) }
{
    if previous.is_empty() {
        return Err(NameError::NoPrevious);
    }
    let name = Text::copy(alloc, previous)?;
    Ok(name)
}

// The name of a file in the folder that the variable `folder` names.
fn in_folder(alloc: Global, places: &Places, vars: &Vars, file: &[u8]) -> Result<Text, NameError>
    ensures { IsUnlessMemory result (in_folder places.now vars.now file.now) }
{
    let folder = vars.get(b"folder").unwrap_or(&[]);
    if folder.is_empty() {
        return Err(NameError::NoFolder);
    }
    let mut name = if folder.starts_with(b"/") {
        Text::copy(alloc, folder)?
    } else {
        joined(alloc, places.home.bytes(), b"/", folder)?
    };
    name.push(b"/")?;
    name.push(file)?;
    Ok(name)
}

// What a name stands for that is none of `%`, `#` and `&` alone.
fn expand_front(alloc: Global, name: &[u8], places: &Places, vars: &Vars) -> Result<Text, NameError>
    ensures { IsUnlessMemory result (front_expansion places.now vars.now name.now) }
{
    if let Some(user) = name.strip_prefix(b"%") {
        return Ok(joined(alloc, b"/var/mail", b"/", user)?);
    }
    if let Some(file) = name.strip_prefix(b"+") {
        return in_folder(alloc, places, vars, file);
    }
    if let Some(file) = name.strip_prefix(b"~/") {
        return Ok(joined(alloc, places.home.bytes(), b"/", file)?);
    }
    Ok(Text::copy(alloc, name)?)
}

/// What a file name stands for: `%` the system mailbox, `%user` that user's file in `/var/mail`, `#` the previous
/// file, `&` mbox, `+file` a file in the folder that the variable `folder` names, `~/file` a file in the home
/// folder. Any other name stands for itself. A value of `folder` without a leading `/` is taken in the home folder.
/// `NoPrevious` comes exactly for `#` if `previous` is empty, `NoFolder` exactly for a name that begins with `+`
/// if `folder` is unset or empty.
pub fn expand_name(
    alloc: Global,
    name: &[u8],
    places: &Places,
    vars: &Vars,
    previous: &[u8],
) -> Result<Text, NameError>
    ensures { IsUnlessMemory result (expansion places.now vars.now previous.now name.now) }
{
    match name {
        b"%" => Ok(Text::copy(alloc, places.mail.bytes())?),
        b"#" => previous_file(alloc, previous),
        b"&" => Ok(Text::copy(alloc, places.mbox.bytes())?),
        _ => expand_front(alloc, name, places, vars),
    }
}
