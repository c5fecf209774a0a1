ghost use Rattle.std.specs.Prelude.{◌≡◌, All, IfOk, List, ℕ, None};
ghost use Rattle.std.specs.List.{list_all};
ghost use Rattle.std.specs.Option.{option_copied};
ghost use Rattle.mailx_vars.specs.Names.{is_graphic};
ghost use Rattle.sender_port.specs.Names.{is_address, first_bad, names_fault, IsPlainName};

use crate::NamesFault;
use mail_text::{Memory, Text};
use std::alloc::Global;

// Whether no byte is below 33 or 127.
fn has_graphic_bytes(name: &[u8]) -> bool
    ensures { result ≡ list_all is_graphic name.now }
{
    name.iter().all(|b| *b >= 33 && *b != 127)
}

// Whether mail can be sent to the name.
fn is_address(name: &[u8]) -> bool
    ensures { result ≡ is_address name.now }
{
    match name {
        [] => false,
        [first, ..] => *first != b'-' && has_graphic_bytes(name),
    }
}

// The first name that mail can't be sent to.
fn first_bad(names: &[Text]) -> Option<&Text>
    ensures { option_copied result ≡ first_bad names.now }
{
    names.iter().find(|name| !is_address(name.bytes()))
}

/// Why mail can't be sent to these names, if it can't: there is none, or the first bad one, which is empty, begins
/// with `-`, or holds a byte below 33 or the byte 127.
pub fn names_fault(alloc: Global, names: &[Text]) -> Result<Option<NamesFault>, Memory>
    ensures { IfOk result (λ fault. fault ≡ names_fault names.now) }
{
    if names.is_empty() {
        return Ok(Some(NamesFault::NoRecipients));
    }
    match first_bad(names) {
        Some(name) => {
            let name = Text::copy(alloc, name.bytes())?;
            Ok(Some(NamesFault::NotAnAddress { name }))
        }
        None => Ok(None),
    }
}

/// A law: if mail can be sent to names, none of them begins with `-`, so that the sender takes none for a flag; none
/// is empty, and none holds a blank, a line feed or a zero byte.
pub fn names_are_plain()
    ensures { (names : List (List ℕ)) → names_fault names ≡ None → All IsPlainName names }
{}
