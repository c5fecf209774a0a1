ghost use Rattle.std.specs.Prelude.{◌≡◌, ◌++◌, ◌∷◌, [], OnOk};
ghost use Rattle.mail_addresses.specs.Lexical.{text_of};
ghost use Rattle.mail_addresses.specs.Lexeme.{lexeme};
ghost use Rattle.mail_addresses.specs.Forms.{is_gap, is_mark, is_atom, is_quoted, is_domain_literal, is_part, part_text};

use crate::scan::{has_blank, push_unescaped};
use mail_text::{Memory, Text};
use std::marker::Model;

/// What a token is.
#[derive(Clone, Copy)]
pub(crate) enum Kind {
    /// A run of spaces and tabs.
    Blanks,
    Comment,
    Atom,
    Quoted,
    /// What stands in square brackets.
    Literal,
    /// One byte that belongs to none of the others.
    Mark(u8),
    /// A comment, quoted string or literal that runs to the end of the value.
    Unclosed,
}

/// A token of an address list. Contracts see what it is and its bytes.
#[derive(Drop)]
pub(crate) struct Token<'a> {
    kind: Kind,
    // without the delimiters of a comment, a quoted string and a literal
    text: &'a [u8],
}

impl<'a> Model for Token<'a> {
    ghost use Rattle.mail_addresses.specs.Lexical.{Lexeme};

    ghost Value = { Lexeme };

    ghost use Rattle.mail_addresses.specs.Lexeme.{lexeme};

    ghost view = { λ t. lexeme t.kind t.text.now };
}

impl<'a> Token<'a> {
    pub(crate) fn new(kind: Kind, text: &'a [u8]) -> Token<'a>
        ensures { result ≡ lexeme kind text.now }
    {
        Token { kind, text }
    }

    /// Whether it is blanks, or a comment, which counts as blanks.
    pub(crate) fn is_gap(&self) -> bool
        ensures { result ≡ is_gap self.now }
    {
        match self.kind {
            Kind::Blanks | Kind::Comment => true,
            _ => false,
        }
    }

    /// Whether it is the mark of this byte.
    pub(crate) fn is_mark(&self, byte: u8) -> bool
        ensures { result ≡ is_mark byte self.now }
    {
        match self.kind {
            Kind::Mark(b) => b == byte,
            _ => false,
        }
    }

    pub(crate) fn is_atom(&self) -> bool
        ensures { result ≡ is_atom self.now }
    {
        match self.kind {
            Kind::Atom => true,
            _ => false,
        }
    }

    pub(crate) fn is_quoted(&self) -> bool
        ensures { result ≡ is_quoted self.now }
    {
        match self.kind {
            Kind::Quoted => true,
            _ => false,
        }
    }

    /// Whether it is a literal without blanks.
    pub(crate) fn is_domain_literal(&self) -> bool
        ensures { result ≡ is_domain_literal self.now }
    {
        match self.kind {
            Kind::Literal => !has_blank(self.text),
            _ => false,
        }
    }

    /// Whether it may be part of a name.
    pub(crate) fn is_part(&self) -> bool
        ensures { result ≡ is_part self.now }
    {
        match self.kind {
            Kind::Atom | Kind::Quoted => true,
            Kind::Mark(b) => b == b'.',
            _ => false,
        }
    }

    /// Puts the bytes of the token at the end.
    pub(crate) fn push_text(&self, out: &mut Text) -> Result<(), Memory>
        ensures { OnOk result (out.new ≡ out.old ++ text_of self.now) }
    {
        match self.kind {
            Kind::Blanks | Kind::Atom | Kind::Unclosed => out.push(self.text),
            Kind::Comment => push_enclosed(b'(', self.text, b')', out),
            Kind::Quoted => push_enclosed(b'"', self.text, b'"', out),
            Kind::Literal => push_enclosed(b'[', self.text, b']', out),
            Kind::Mark(b) => out.push(&[b]),
        }
    }

    /// Puts what the token stands for in a name at the end.
    pub(crate) fn push_part(&self, out: &mut Text) -> Result<(), Memory>
        ensures { OnOk result (out.new ≡ out.old ++ part_text self.now) }
    {
        match self.kind {
            Kind::Quoted => push_unescaped(self.text, out),
            _ => self.push_text(out),
        }
    }
}

fn push_enclosed(first: u8, text: &[u8], last: u8, out: &mut Text) -> Result<(), Memory>
    ensures { OnOk result (out.new ≡ out.old ++ first ∷ (text.now ++ last ∷ [])) }
{
    out.push(&[first])?;
    out.push(text)?;
    out.push(&[last])
}
