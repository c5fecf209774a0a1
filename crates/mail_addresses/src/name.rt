ghost use Rattle.std.specs.Prelude.{◌≡◌, ◌++◌, IfOk, OnOk};
ghost use Rattle.mail_addresses.specs.Forms.{part_text, spaced, IsDisplayName, Finds};
ghost use Rattle.mail_addresses.specs.Tokens.{tokens_in};

use crate::scan::first_token;
use crate::token::Token;
use mail_text::{Memory, Text};
use std::alloc::Global;

/// How many bytes most names have at most.
const SHORT_NAME: usize = 32;

/// The display name that the tokens give, if they give one.
pub(crate) fn display_name(alloc: Global, bytes: &[u8]) -> Result<Option<Text>, Memory>
    ensures { IfOk result (Finds (IsDisplayName (tokens_in bytes.now))) }
{
    let mut name = Text::of(Vec::with_capacity(alloc, SHORT_NAME)?);
    let mut begun = false;
    let mut apart = false;
    let mut rest = bytes;
    while let Some((token, after)) = first_token(rest) {
        if token.is_gap() {
            apart = begun;
        } else if token.is_part() {
            push_next(&token, apart, &mut name)?;
            begun = true;
            apart = false;
        } else {
            return Ok(None);
        }
        rest = after;
    }
    Ok(Some(name))
}

/// Puts a part at the end, with a space before it if it stands apart.
fn push_next(token: &Token, apart: bool, name: &mut Text) -> Result<(), Memory>
    ensures { OnOk result (name.new ≡ name.old ++ spaced apart (part_text token.now)) }
{
    if apart {
        name.push(b" ")?;
    }
    token.push_part(name)
}
