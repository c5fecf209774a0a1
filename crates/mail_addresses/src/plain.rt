// Addresses as most are written, read without tokens in memory.
ghost use Rattle.std.specs.Prelude.{◌≡◌, ◌∷◌, [], ◌≤◌, length, take, IfSome};
ghost use Rattle.mail_addresses.specs.Listing.{Reads};
ghost use Rattle.mail_addresses.specs.Plain.{IsAtomFront, HasDots, HasSpec, HasGaps, HasName};

use crate::scan::{atom_length, quote_end};
use memchr::memchr;
use std::marker::Model;

/// An address whose name and spec are parts of the value. Contracts see the address.
#[derive(Drop)]
pub(crate) struct Plain<'a> {
    name: &'a [u8],
    spec: &'a [u8],
    local: usize,
}

impl<'a> Model for Plain<'a> {
    ghost use Rattle.mail_addresses.specs.declared.address.Address.{Address};

    ghost Value = { Address };

    ghost view = { λ p. record { name = p.name.now; spec = p.spec.now; local = p.local } };
}

impl<'a> Plain<'a> {
    /// The name.
    pub(crate) fn name(&self) -> &'a [u8]
        ensures { result.now ≡ self.now.name }
    {
        self.name
    }

    /// The spec.
    pub(crate) fn spec(&self) -> &'a [u8]
        ensures { result.now ≡ self.now.spec }
    {
        self.spec
    }

    /// How many bytes of the spec are the local part.
    pub(crate) fn local(&self) -> usize
        ensures { result ≡ self.now.local }
    {
        self.local
    }
}

/// The one address of the value, if it is plain: a spec alone or after a name, of atoms and dots; the
/// name is words with a space between or a quoted string without backslashes, and no blanks stand but after the
/// name. A `>` at the end tells the two apart.
pub(crate) fn plain_address(value: &[u8]) -> Option<Plain<'_>>
    ensures { IfSome result (λ a. Reads value.now (a ∷ [])) }
{
    match value.last() {
        Some(b'>') => plain_angled(value),
        _ => plain_spec(value),
    }
}

// The value as a spec.
fn plain_spec(value: &[u8]) -> Option<Plain<'_>>
    ensures { IfSome result (λ a. Reads value.now (a ∷ [])) }
{
    match spec_front(value) {
        Some((local, after)) => {
            if !after.is_empty() {
                return None;
            }
            Some(Plain {
                name: &[],
                spec: value,
                local,
            })
        }
        None => None,
    }
}

// The value as a name and a spec in angle brackets.
fn plain_angled(value: &[u8]) -> Option<Plain<'_>>
    ensures { IfSome result (λ a. Reads value.now (a ∷ [])) }
{
    match name_front(value) {
        Some((name, back)) => match spec_front(back) {
            Some((local, last)) => match behind(b'>', last) {
                Some(after) => {
                    if !after.is_empty() {
                        return None;
                    }
                    let (spec, _) = back.split_at(back.len() - last.len());
                    Some(Plain { name, spec, local })
                }
                None => None,
            },
            None => None,
        },
        None => None,
    }
}

// What stands after this byte, if the bytes begin with it.
fn behind(byte: u8, bytes: &[u8]) -> Option<&[u8]>
    ensures { IfSome result (λ later. bytes.now ≡ byte ∷ later.now) }
{
    match bytes.split_first() {
        Some((first, later)) => { if *first == byte { Some(later) } else { None } }
        None => None,
    }
}

// The atom at the front, and what follows it.
fn atom_front(bytes: &[u8]) -> Option<(&[u8], &[u8])>
    ensures { IfSome result (λ cut. IsAtomFront bytes.now cut.0.now cut.1.now) }
{
    let (run, after) = bytes.split_at(atom_length(bytes));
    if run.is_empty() {
        None
    } else {
        Some((run, after))
    }
}

// What follows the atoms at the front that are joined by single dots.
fn after_dots(bytes: &[u8]) -> Option<&[u8]>
    ensures { IfSome result (λ after. HasDots bytes.now after.now) }
{
    let mut rest = bytes;
    loop {
        match atom_front(rest) {
            Some((_, after)) => match behind(b'.', after) {
                Some(later) => rest = later,
                None => return Some(after),
            },
            None => return None,
        }
    }
}

// How many bytes the local part of the spec at the front has, and what follows the spec.
fn spec_front(bytes: &[u8]) -> Option<(usize, &[u8])>
    ensures { IfSome result (λ found. HasSpec bytes.now found.0 found.1.now) }
{
    match after_dots(bytes) {
        Some(after) => match behind(b'@', after) {
            Some(domain) => match after_dots(domain) {
                Some(last) => Some((bytes.len() - after.len(), last)),
                None => None,
            },
            None => Some((bytes.len() - after.len(), after)),
        },
        None => None,
    }
}

// The name at the front, and what follows the `<` after it.
fn name_front(bytes: &[u8]) -> Option<(&[u8], &[u8])>
    ensures { IfSome result (λ found. HasName bytes.now found.0.now found.1.now) }
{
    match behind(b'<', bytes) {
        Some(back) => Some((&[], back)),
        None => match behind(b'"', bytes) {
            Some(inside) => quoted_front(inside),
            None => words_front(bytes),
        },
    }
}

// What follows the `<` that the bytes begin with, or a space and a `<`.
fn behind_bracket(bytes: &[u8]) -> Option<&[u8]>
    ensures { IfSome result (λ back. HasGaps bytes.now back.now) }
{
    match behind(b' ', bytes) {
        Some(later) => behind(b'<', later),
        None => behind(b'<', bytes),
    }
}

// The name after a quote, up to the next one and without backslashes, and what follows the `<` after it.
fn quoted_front(bytes: &[u8]) -> Option<(&[u8], &[u8])>
    ensures { IfSome result (λ found. HasName (34 ∷ bytes.now) found.0.now found.1.now) }
{
    match quote_end(bytes) {
        Some(end) => {
            let (name, _) = bytes.split_at(end);
            let (_, after) = bytes.split_at(end + 1);
            match memchr(b'\\', name) {
                Some(_) => None,
                None => match behind_bracket(after) {
                    Some(back) => Some((name, back)),
                    None => None,
                },
            }
        }
        None => None,
    }
}

// The name at the front, if it is words, each a space from the next, and what follows the `<` after it.
fn words_front(bytes: &[u8]) -> Option<(&[u8], &[u8])>
    ensures { IfSome result (λ found. HasName bytes.now found.0.now found.1.now) }
{
    let mut rest = bytes;
    loop {
        match atom_front(rest) {
            Some((_, after)) => match behind_bracket(after) {
                Some(back) => {
                    let (words, _) = bytes.split_at(bytes.len() - after.len());
                    return Some((words, back));
                }
                None => match behind(b' ', after) {
                    Some(later) => rest = later,
                    None => return None,
                },
            },
            None => return None,
        }
    }
}
