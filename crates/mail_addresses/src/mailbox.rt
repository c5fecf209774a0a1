ghost use Rattle.std.specs.Prelude.{◌≡◌, IfOk, MatchOption};
ghost use Rattle.mail_addresses.specs.declared.address.Address.{Address};
ghost use Rattle.mail_addresses.specs.Forms.{GivesSpec, IsAngled, IsMailbox, Finds};
ghost use Rattle.mail_addresses.specs.Tokens.{tokens_in};

use crate::address::Address;
use crate::name::display_name;
use crate::parts::{are_gaps, local_length, split_after_gaps, split_at_gap, split_at_mark};
use mail_text::{Memory, Text};
use std::alloc::Global;

/// The address of this name whose spec the bytes are, if they are one.
fn spec_address(alloc: Global, name: Text, bytes: &[u8]) -> Result<Option<Address>, Memory>
    ensures { IfOk result (λ address. MatchOption address
        ((a : Address) → GivesSpec (tokens_in bytes.now) a → ⊥)
        (λ a. GivesSpec (tokens_in bytes.now) a × (a.name ≡ name))) }
{
    let (_, rest) = split_after_gaps(bytes);
    let (run, after) = split_at_gap(rest);
    if !are_gaps(after) {
        return Ok(None);
    }
    let local = local_length(run);
    match local {
        None => Ok(None),
        Some(local) => {
            let spec = Text::copy(alloc, run)?;
            Ok(Some(Address { name, spec, local }))
        }
    }
}

/// The address that the bytes spell, if they spell one.
pub(crate) fn mailbox(alloc: Global, bytes: &[u8]) -> Result<Option<Address>, Memory>
    ensures { IfOk result (Finds (IsMailbox (tokens_in bytes.now))) }
{
    let parts = split_at_mark(bytes, b'<');
    match parts {
        None => spec_address(alloc, Text::new(alloc), bytes),
        Some((front, back)) => name_address(alloc, front, back),
    }
}

/// The address that a name and what follows its `<` spell, if they spell one.
fn name_address(alloc: Global, front: &[u8], back: &[u8]) -> Result<Option<Address>, Memory>
    ensures { IfOk result (Finds (IsAngled (tokens_in front.now) (tokens_in back.now))) }
{
    let parts = split_at_mark(back, b'>');
    match parts {
        None => Ok(None),
        Some((inside, after)) => {
            if !are_gaps(after) {
                return Ok(None);
            }
            let name = display_name(alloc, front)?;
            match name {
                None => Ok(None),
                Some(name) => spec_address(alloc, name, inside),
            }
        }
    }
}
