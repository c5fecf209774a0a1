//! Where a message is kept by its sender: the change that puts it into the record, and the one that puts it into the
//! dead letter.
#![tactic(auto)]

ghost use Rattle.std.specs.Prelude.{◌≡◌, option_map, IfOk};
ghost use Rattle.dead_letter.specs.Keeping.{added_to, record_file, record_change, dead_change};

use folder_change::Change;
use mail_text::{Items, Memory, Text};
use mailx_vars::Vars;
use std::alloc::Global;

// The change that adds one text to a file.
fn added_to(alloc: Global, text: &[u8], name: &[u8]) -> Result<Change, Memory>
    ensures { IfOk result (λ change. change ≡ added_to text.now name.now) }
{
    let mut texts = Items::new(alloc);
    texts.push(Text::copy(alloc, text)?)?;
    Ok(Change::Add {
        name: Text::copy(alloc, name)?,
        texts,
    })
}

// The name of the file that a message is recorded in, if it is recorded.
fn record_file<'a>(first: &'a [u8], named: bool, vars: &'a Vars) -> Option<&'a [u8]>
    ensures { option_map (λ name. name.now) result ≡ record_file first.now named vars.now }
{
    if named {
        Some(first)
    } else {
        vars.get(b"record")
    }
}

/// The change that puts a message into its record: the file `first` if `named`, else the file that the variable
/// `record` names, as it stands there, be it to nothing. None exactly if that variable is asked and unset.
pub fn record_change(
    alloc: Global,
    text: &[u8],
    first: &[u8],
    named: bool,
    vars: &Vars,
) -> Result<Option<Change>, Memory>
    ensures { IfOk result (λ change. change ≡ record_change text.now first.now named vars.now) }
{
    match record_file(first, named, vars) {
        Some(name) => Ok(Some(added_to(alloc, text, name)?)),
        None => Ok(None),
    }
}

/// The change that puts a message that wasn't sent into the dead letter, the file `dead`. None exactly if the
/// variable `save` is unset.
pub fn dead_change(
    alloc: Global,
    text: &[u8],
    dead: &[u8],
    vars: &Vars,
) -> Result<Option<Change>, Memory>
    ensures { IfOk result (λ change. change ≡ dead_change text.now dead.now vars.now) }
{
    if vars.flag(b"save") {
        Ok(Some(added_to(alloc, text, dead)?))
    } else {
        Ok(None)
    }
}
