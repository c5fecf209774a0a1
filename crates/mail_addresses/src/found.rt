ghost use Rattle.std.specs.Prelude.{◌≡◌};

use crate::address::Address;
use crate::plain::Plain;
use std::marker::Model;

/// Where the parts of a found address stand.
#[derive(Drop)]
pub(crate) enum Found<'a> {
    /// In the value that was read.
    InPlace(Plain<'a>),
    /// In texts of their own.
    Own(Address),
}

/// An address that was found in a value. Contracts see the address.
#[derive(Drop)]
pub struct FoundAddress<'a> {
    found: Found<'a>,
}

impl<'a> Model for FoundAddress<'a> {
    ghost use Rattle.mail_addresses.specs.declared.address.Address.{Address};
    ghost use Rattle.mail_addresses.specs.Found.{address_in};

    ghost Value = { Address };

    ghost view = { λ f. address_in f.found };
}

impl<'a> FoundAddress<'a> {
    ghost use Rattle.mail_addresses.specs.Found.{address_in};

    /// The address of what was found.
    pub(crate) fn of(found: Found<'a>) -> FoundAddress<'a>
        ensures { result ≡ address_in found.entry }
    {
        FoundAddress { found }
    }

    /// The display name without quotes, or empty.
    pub fn name(&self) -> &[u8]
        ensures { result.now ≡ self.now.name }
    {
        match &self.found {
            Found::InPlace(plain) => plain.name(),
            Found::Own(address) => address.name.bytes(),
        }
    }

    /// The address without the name.
    pub fn spec(&self) -> &[u8]
        ensures { result.now ≡ self.now.spec }
    {
        match &self.found {
            Found::InPlace(plain) => plain.spec(),
            Found::Own(address) => address.spec.bytes(),
        }
    }

    /// How many bytes of the address without the name are the local part.
    pub fn local(&self) -> usize
        ensures { result ≡ self.now.local }
    {
        match &self.found {
            Found::InPlace(plain) => plain.local(),
            Found::Own(address) => address.local,
        }
    }
}
