ghost use Rattle.std.specs.Prelude.{◌≡◌, ◌≤◌, length, take};
ghost use Rattle.mail_text.specs.Ascii.{same_ascii};

use mail_text::{Memory, Text, same_ascii};
use thiserror::Error;

/// An address of a list.
#[derive(Debug, Drop)]
pub struct Address {
    /// The display name without quotes, or empty.
    pub name: Text,
    /// The local part, or the local part, `@` and the domain. A quoted local part keeps its quotes.
    pub spec: Text,
    /// How many bytes of `spec` are the local part.
    pub local: usize,
}

/// Why a value gives no list of addresses.
#[derive(Debug, Drop, Error)]
pub enum AddressError {
    /// A piece that isn't empty spells neither an address nor a group. `at` is the number of the first such piece,
    /// from 0; empty pieces count.
    #[error("piece {at} is neither an address nor a group")]
    Syntax { at: u64 },
    /// Memory ran out.
    #[error("out of memory")]
    Memory,
}

impl From<Memory> for AddressError {
    ghost use Rattle.std.specs.Prelude.{◌≡◌};
    ghost use Rattle.mail_addresses.specs.declared.address.AddressError.TheVariants.{Memory};

    ghost from_gives = { λ _ e. e ≡ Memory };

    fn from(_: Memory) -> AddressError {
        AddressError::Memory
    }
}

/// The address without the name.
pub fn bare(a: &Address) -> &[u8]
    ensures { result.now ≡ a.now.spec }
{
    a.spec.bytes()
}

/// The local part of the address.
pub fn local_part(a: &Address) -> &[u8]
    requires { a.now.local ≤ length a.now.spec }
    ensures { result.now ≡ take a.now.local a.now.spec }
{
    &a.spec.bytes()[..a.local]
}

/// Whether two bare addresses are the same, the case of ASCII letters aside.
pub fn same_address(a: &[u8], b: &[u8]) -> bool
    ensures { result ≡ same_ascii a.now b.now }
{
    same_ascii(a, b)
}
