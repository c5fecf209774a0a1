ghost use Rattle.std.specs.Prelude.{◌≡◌, MatchOption};
ghost use Rattle.mail_addresses.specs.Listing.{place_after, is_cut};
ghost use Rattle.mail_addresses.specs.Pieces.{IsLastPiece, IsPieceBefore};
ghost use Rattle.mail_addresses.specs.Tokens.{tokens_in};

use crate::parts::before;
use crate::scan::first_token;
use crate::token::Token;

/// Where a token stands.
#[derive(Clone, Copy)]
pub(crate) enum Place {
    /// Outside of brackets and groups.
    Outside,
    /// In angle brackets.
    Brackets,
    /// In a group.
    Group,
    /// In angle brackets in a group.
    GroupBrackets,
}

fn is_cut(place: Place, token: &Token) -> bool
    ensures { result ≡ is_cut place token.now }
{
    match place {
        Place::Outside => token.is_mark(b','),
        Place::Brackets | Place::Group | Place::GroupBrackets => false,
    }
}

fn place_after(place: Place, token: &Token) -> Place
    ensures { result ≡ place_after place token.now }
{
    match place {
        Place::Outside => {
            if token.is_mark(b'<') {
                Place::Brackets
            } else if token.is_mark(b':') {
                Place::Group
            } else {
                Place::Outside
            }
        }
        Place::Brackets => {
            if token.is_mark(b'>') {
                Place::Outside
            } else {
                Place::Brackets
            }
        }
        Place::Group => {
            if token.is_mark(b'<') {
                Place::GroupBrackets
            } else if token.is_mark(b';') {
                Place::Outside
            } else {
                Place::Group
            }
        }
        Place::GroupBrackets => {
            if token.is_mark(b'>') {
                Place::Group
            } else {
                Place::GroupBrackets
            }
        }
    }
}

/// The first piece of a value, and what follows the comma that cuts it off, if one does.
pub(crate) fn first_piece(value: &[u8]) -> (&[u8], Option<&[u8]>)
    ensures { MatchOption result.1
        (IsLastPiece value.now (tokens_in result.0.now))
        (λ after. IsPieceBefore value.now (tokens_in result.0.now) after.now) }
{
    let mut place = Place::Outside;
    let mut rest = value;
    while let Some((token, after)) = first_token(rest) {
        if is_cut(place, &token) {
            return (before(value, rest), Some(after));
        }
        place = place_after(place, &token);
        rest = after;
    }
    (value, None)
}
