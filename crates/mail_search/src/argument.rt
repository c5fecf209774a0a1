ghost use Rattle.std.specs.Prelude.{◌≡◌, IfOk};
ghost use Rattle.std.specs.Option.{option_copied};
ghost use Rattle.mail_search.specs.Grammar.{string_in, number_in, day_in};
ghost use Rattle.mail_search.specs.Reading.{made};
ghost use Rattle.mail_search.specs.Tokens.{token_of};

use crate::criterion::{Clock, Order, Test};
use crate::day::day_written;
use crate::needle::Needle;
use crate::token::Token;
use mail_text::{Memory, Text, read_number};
use std::alloc::Global;

/// What a key still lacks to be whole.
#[derive(Drop)]
pub(crate) enum Argument {
    /// The name of a field, and then a string.
    Name,
    /// The string that a field of this name is to hold.
    Field(Text),
    /// The string that the body is to hold.
    Body,
    /// The string that the text after its first line is to hold.
    Text,
    /// A size.
    Larger,
    /// A size.
    Smaller,
    /// A day.
    Day(Clock, Order),
}

/// The string that the token is, if it is one. Fails only if memory runs out.
pub(crate) fn string_in(alloc: Global, token: Token<'_>) -> Result<Option<Text>, Memory>
    ensures { IfOk result (λ string. string ≡ string_in (token_of token.entry)) }
{
    match token {
        Token::Run(bytes) => Ok(Some(Text::copy(alloc, bytes)?)),
        Token::Quoted(string) => Ok(Some(string)),
        _ => Ok(None),
    }
}

// The same as a needle.
fn needle_in(alloc: Global, token: Token<'_>) -> Result<Option<Needle>, Memory>
    ensures { IfOk result (λ needle. needle ≡ string_in (token_of token.entry)) }
{
    match string_in(alloc, token)? {
        Some(string) => Ok(Some(Needle::of(alloc, string)?)),
        None => Ok(None),
    }
}

// The number that the token is, if it is one.
fn number_in(token: Token<'_>) -> Option<u64>
    ensures { result ≡ number_in (token_of token.entry) }
{
    match token {
        Token::Run(bytes) => read_number(bytes),
        _ => None,
    }
}

// The day that the token is, if it is one.
fn day_in(token: Token<'_>) -> Option<i32>
    ensures { result ≡ day_in (token_of token.entry) }
{
    match token {
        Token::Run(bytes) => day_written(bytes),
        _ => None,
    }
}

/// The test that is whole with this argument, if the argument is what it lacks. Fails only if memory runs out.
pub(crate) fn made(
    alloc: Global,
    argument: Argument,
    token: Token<'_>,
) -> Result<Option<Test>, Memory>
    ensures { IfOk result (λ test. test ≡ made argument (token_of token.entry)) }
{
    match argument {
        Argument::Name => Ok(None),
        Argument::Field(name) => {
            let needle = needle_in(alloc, token)?;
            match needle {
                Some(needle) => Ok(Some(Test::Field(name, needle))),
                None => Ok(None),
            }
        }
        Argument::Body => Ok(needle_in(alloc, token)?.map(Test::Body)),
        Argument::Text => Ok(needle_in(alloc, token)?.map(Test::Text)),
        Argument::Larger => Ok(number_in(token).map(Test::Larger)),
        Argument::Smaller => Ok(number_in(token).map(Test::Smaller)),
        Argument::Day(clock, order) => Ok(day_in(token).map(|day| Test::Day(clock, order, day))),
    }
}
