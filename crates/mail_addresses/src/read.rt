ghost use Rattle.std.specs.Prelude.{◌≡◌, ◌≤◌, ◌⊎◌, [], ◌∷◌, ℕ, List, length, slice_get, IfOk, OnOk, IfErr, IsErrAnd, All, Err, MatchOption, MatchBool, ◌≢◌};
ghost use Rattle.mail_addresses.specs.declared.address.Address.{Address};
ghost use Rattle.mail_addresses.specs.Forms.{IsDisplayName};
ghost use Rattle.mail_addresses.specs.Listing.{pieces, Gives, Lists, SpellsMailbox, IsGrouped, SpellsGroup, Spells, IsBad, IsFirstBad, Reads, IsFault, IsFirstAddress};
ghost use Rattle.mail_addresses.specs.Keeping.{kept, Adds, AddsIf};
ghost use Rattle.mail_addresses.specs.Tokens.{tokens_in};

use crate::address::{Address, AddressError};
use crate::found::{Found, FoundAddress};
use crate::mailbox::mailbox;
use crate::name::display_name;
use crate::parts::{are_gaps, split_at_mark};
use crate::pieces::first_piece;
use crate::plain::plain_address;
use mail_text::Memory;
use std::alloc::Global;

/// Which of the addresses that are read are kept.
#[derive(Clone, Copy)]
pub(crate) enum Keep {
    /// Each of them.
    Each,
    /// The first alone.
    First,
}

/// Reads a list of addresses (RFC 5322, section 3.4). The answer is what the value's pieces spell, in order: a
/// piece is a spec, an optional name and a spec in angle brackets, or a group, which gives the addresses in it; an
/// empty piece gives nothing. `Syntax` comes exactly if a piece is neither empty nor one of these. It takes time
/// in proportion to the value's length, however deep its comments are.
pub fn read_list(alloc: Global, value: &[u8]) -> Result<Vec<Address>, AddressError>
    ensures ok { IfOk result (λ list. Reads value.now list.items) }
    ensures syntax { (at : ℕ) → result ≡ Err (AddressError.Syntax at)
        → IsFault value.now at }
    ensures accepted { (list : List Address) → Reads value.now list
        → IfErr result (λ e. e ≡ AddressError.Memory) }
    ensures refused { (at : ℕ) → IsFault value.now at
        → IsErrAnd result (λ e. (e ≡ AddressError.Syntax at) ⊎ (e ≡ AddressError.Memory)) }
    ensures local { IfOk result (λ list. All (λ a. a.local ≤ length a.spec) list.items) }
{
    let mut list = Vec::new(alloc);
    let bad = read_pieces(alloc, value, Keep::Each, &mut list)?;
    match bad {
        None => Ok(list),
        Some(at) => Err(AddressError::Syntax { at }),
    }
}

/// The first address of the list that a value gives; none if it gives no list, or an empty one. Fails only if
/// memory runs out. For a value that is one address as most are written it takes no memory.
pub fn first_address(alloc: Global, value: &[u8]) -> Result<Option<FoundAddress<'_>>, Memory>
    ensures { IfOk result (IsFirstAddress value.now) }
{
    match plain_address(value) {
        Some(plain) => Ok(Some(FoundAddress::of(Found::InPlace(plain)))),
        None => {
            let first = first_read(alloc, value)?;
            match first {
                Some(address) => Ok(Some(FoundAddress::of(Found::Own(address)))),
                None => Ok(None),
            }
        }
    }
}

/// The first address of the list that a value gives, with texts of its own. No other address stands in memory.
fn first_read(alloc: Global, value: &[u8]) -> Result<Option<Address>, Memory>
    ensures { IfOk result (IsFirstAddress value.now) }
{
    let mut list = Vec::new(alloc);
    let bad = read_pieces(alloc, value, Keep::First, &mut list)?;
    match bad {
        None => Ok(first_of(list)),
        Some(_) => Ok(None),
    }
}

/// The first address of a list.
fn first_of(list: Vec<Address>) -> Option<Address>
    ensures { result ≡ slice_get list.items 0 }
{
    let mut list = list;
    if list.is_empty() {
        None
    } else {
        Some(list.swap_remove(0))
    }
}

/// Puts an address at the end, if it is kept.
fn put(address: Address, keep: Keep, list: &mut Vec<Address>) -> Result<(), Memory>
    ensures { OnOk result (list.new.items ≡ kept keep list.old.items (address ∷ [])) }
{
    match keep {
        Keep::Each => Ok(list.push(address)?),
        Keep::First => {
            if list.is_empty() {
                list.push(address)?;
            }
            Ok(())
        }
    }
}

/// Puts the addresses of all pieces of a value at the end, or answers the number of the first bad piece. No
/// tokens stand in memory.
fn read_pieces(
    alloc: Global,
    value: &[u8],
    keep: Keep,
    list: &mut Vec<Address>,
) -> Result<Option<u64>, Memory>
    ensures { IfOk result (λ bad. MatchOption bad
        (Adds keep (Reads value.now) list.old.items list.new.items)
        (IsFault value.now)) }
{
    let mut rest = value;
    let mut number = 0;
    loop {
        let (piece, after) = first_piece(rest);
        let good = read_piece(alloc, piece, keep, list)?;
        if !good {
            return Ok(Some(number));
        }
        match after {
            Some(after) => rest = after,
            None => return Ok(None),
        }
        number += 1;
    }
}

/// Puts the addresses of a piece at the end, or answers that the piece is bad.
fn read_piece(
    alloc: Global,
    piece: &[u8],
    keep: Keep,
    list: &mut Vec<Address>,
) -> Result<bool, Memory>
    ensures { IfOk result (λ good. MatchBool good
        (Adds keep (Gives Spells (tokens_in piece.now)) list.old.items list.new.items)
        (IsBad (tokens_in piece.now))) }
{
    if are_gaps(piece) {
        return Ok(true);
    }
    let address = mailbox(alloc, piece)?;
    match address {
        Some(address) => {
            put(address, keep, list)?;
            Ok(true)
        }
        None => read_group(alloc, piece, keep, list),
    }
}

/// Puts the addresses of a group at the end, or answers that the piece is none.
fn read_group(
    alloc: Global,
    piece: &[u8],
    keep: Keep,
    list: &mut Vec<Address>,
) -> Result<bool, Memory>
    ensures { IfOk result (AddsIf keep (SpellsGroup (tokens_in piece.now)) list.old.items list.new.items) }
{
    let parts = split_at_mark(piece, b':');
    match parts {
        None => Ok(false),
        Some((front, back)) => read_grouped(alloc, front, back, keep, list),
    }
}

/// Puts the addresses of a group with this name at the end, or answers that what follows its `:` doesn't make one.
fn read_grouped(
    alloc: Global,
    front: &[u8],
    back: &[u8],
    keep: Keep,
    list: &mut Vec<Address>,
) -> Result<bool, Memory>
    ensures { IfOk result
        (AddsIf keep (IsGrouped (tokens_in front.now) (tokens_in back.now)) list.old.items list.new.items) }
{
    let parts = split_at_mark(back, b';');
    match parts {
        None => Ok(false),
        Some((inside, after)) => {
            if !are_gaps(after) {
                return Ok(false);
            }
            let named = has_name(alloc, front)?;
            if !named {
                return Ok(false);
            }
            read_members(alloc, inside, keep, list)
        }
    }
}

/// Whether the bytes give a name that isn't empty.
fn has_name(alloc: Global, bytes: &[u8]) -> Result<bool, Memory>
    ensures { IfOk result (λ has. MatchBool has
        ((name : List ℕ) × IsDisplayName (tokens_in bytes.now) name × (name ≢ []))
        ((name : List ℕ) → IsDisplayName (tokens_in bytes.now) name → name ≡ [])) }
{
    let name = display_name(alloc, bytes)?;
    match name {
        None => Ok(false),
        Some(name) => Ok(!name.bytes().is_empty()),
    }
}

/// Puts the addresses of the list in a group at the end, or answers that it isn't one.
fn read_members(
    alloc: Global,
    bytes: &[u8],
    keep: Keep,
    list: &mut Vec<Address>,
) -> Result<bool, Memory>
    ensures { IfOk result
        (AddsIf keep (Lists SpellsMailbox (pieces (tokens_in bytes.now))) list.old.items list.new.items) }
{
    let mut rest = bytes;
    loop {
        let (piece, after) = first_piece(rest);
        let good = read_member(alloc, piece, keep, list)?;
        if !good {
            return Ok(false);
        }
        match after {
            Some(after) => rest = after,
            None => return Ok(true),
        }
    }
}

/// Puts the address of a piece in a group at the end, or answers that the piece is bad.
fn read_member(
    alloc: Global,
    piece: &[u8],
    keep: Keep,
    list: &mut Vec<Address>,
) -> Result<bool, Memory>
    ensures { IfOk result (AddsIf keep (Gives SpellsMailbox (tokens_in piece.now)) list.old.items list.new.items) }
{
    if are_gaps(piece) {
        return Ok(true);
    }
    let address = mailbox(alloc, piece)?;
    match address {
        None => Ok(false),
        Some(address) => {
            put(address, keep, list)?;
            Ok(true)
        }
    }
}
