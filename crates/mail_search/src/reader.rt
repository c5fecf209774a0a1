ghost use Rattle.std.specs.Prelude.{◌≡◌, ◌∷◌, OnOk, IfErr, Some, None};
ghost use Rattle.mail_search.specs.Keys.{test};
ghost use Rattle.mail_search.specs.Steps.{with_step, keys_of};
ghost use Rattle.mail_search.specs.Reading.{Reading, reading, start, reading_of, settled, opened, closed, begun, argued, keyed, by_want, after_token, whole_key};
ghost use Rattle.mail_search.specs.Tokens.{token_of};
ghost use Rattle.mail_search.specs.declared.error.SearchError.TheVariants.{Syntax};
ghost use Rattle.mail_search.specs.declared.reader.Want.TheVariants as wanted;

use crate::argument::{Argument, made, string_in};
use crate::criterion::{Criterion, Step, Test};
use crate::error::SearchError;
use crate::names::{Opening, opening_of};
use crate::stack::Stack;
use crate::token::Token;
use mail_text::{Items, Memory, Text};
use std::alloc::Global;
use std::mem;

/// How many parentheses, `not` and `or` may be open at one place.
pub(crate) const DEEPEST: usize = 64;

/// What is open around the keys that come next.
#[derive(Clone, Copy)]
pub(crate) enum Frame {
    /// `not`.
    Negation,
    /// `or`, before its first key.
    First,
    /// `or`, after its first key.
    Second,
    /// `(`, before the first key.
    Group,
    /// `(`, after a key.
    More,
}

/// What comes next.
#[derive(Drop)]
pub(crate) enum Want {
    /// A key, or, in parentheses after a key, their end.
    Key,
    /// An argument of a key.
    Argument(Argument),
    /// Nothing: the criterion is whole.
    Nothing,
}

/// A criterion that is being read, token by token.
#[derive(Drop)]
pub(crate) struct Reader {
    // what is open, the innermost on top
    frames: Stack<Frame>,
    // the keys so far
    steps: Items<Step>,
    want: Want,
}

impl Reader {
    /// Nothing was read. It takes no memory.
    pub(crate) fn new(alloc: Global) -> Reader
        ensures { reading_of result ≡ start }
    {
        Reader {
            frames: Stack::new(alloc),
            steps: Items::new(alloc),
            want: Want::Key,
        }
    }

    /// The criterion that was read, if it is whole.
    pub(crate) fn criterion(self) -> Option<Criterion>
        ensures { result ≡ whole_key (reading_of self) }
    {
        match self.want {
            Want::Nothing => Some(Criterion::of(self.steps)),
            _ => None,
        }
    }

    // The last key is whole: what it is the last part of is whole too, and then the next comes.
    fn settle(&mut self) -> Result<(), Memory>
        ensures { OnOk result (reading_of self.new ≡ settled self.old.frames (keys_of self.old.steps)) }
    {
        while let Some(frame) = self.frames.pop() {
            match frame {
                Frame::Negation => self.steps.push(Step::Not)?,
                Frame::Second => self.steps.push(Step::Or)?,
                Frame::First => return self.go_on(Frame::Second),
                Frame::Group => return self.go_on(Frame::More),
                Frame::More => {
                    self.steps.push(Step::Both)?;
                    return self.go_on(Frame::More);
                }
            }
        }
        self.want = Want::Nothing;
        Ok(())
    }

    // Puts a frame on top; a key comes next.
    fn go_on(&mut self, frame: Frame) -> Result<(), Memory>
        ensures { OnOk result (reading_of self.new
            ≡ reading (frame ∷ self.old.frames) (keys_of self.old.steps) wanted.Key) }
    {
        self.frames.push(frame)?;
        self.want = Want::Key;
        Ok(())
    }

    // The test is a whole key.
    fn put(&mut self, whole: Test) -> Result<(), Memory>
        ensures { OnOk result (reading_of self.new
            ≡ settled self.old.frames (test whole ∷ keys_of self.old.steps)) }
    {
        self.steps.push(Step::Test(whole))?;
        self.settle()
    }

    // A frame begins.
    fn open(&mut self, frame: Frame) -> Result<(), SearchError>
        ensures ok { OnOk result (Some (reading_of self.new)
            ≡ opened self.old.frames (keys_of self.old.steps) frame) }
        ensures err { IfErr result (λ e. e ≡ Syntax
            → opened self.old.frames (keys_of self.old.steps) frame ≡ None) }
    {
        if self.frames.len() >= DEEPEST {
            return Err(SearchError::Syntax);
        }
        self.go_on(frame)?;
        Ok(())
    }

    // A parenthesis closes.
    fn close(&mut self) -> Result<(), SearchError>
        ensures ok { OnOk result (Some (reading_of self.new) ≡ closed self.old.frames (keys_of self.old.steps)) }
        ensures err { IfErr result (λ e. e ≡ Syntax → closed self.old.frames (keys_of self.old.steps) ≡ None) }
    {
        match self.frames.pop() {
            Some(Frame::More) => {
                self.settle()?;
                Ok(())
            }
            _ => Err(SearchError::Syntax),
        }
    }

    // An argument comes next.
    fn need(&mut self, argument: Argument)
        ensures { reading_of self.new ≡ reading self.old.frames (keys_of self.old.steps) (wanted.Argument argument) }
    {
        self.want = Want::Argument(argument);
    }

    // A key begins with its name.
    fn begin(&mut self, alloc: Global, name: &[u8], opening: Opening) -> Result<(), SearchError>
        ensures ok { OnOk result (Some (reading_of self.new)
            ≡ begun self.old.frames (keys_of self.old.steps) name.now opening) }
        ensures err { IfErr result (λ e. e ≡ Syntax
            → begun self.old.frames (keys_of self.old.steps) name.now opening ≡ None) }
    {
        match opening {
            Opening::All => self.put(Test::All)?,
            Opening::Is(fact, wanted) => self.put(Test::Is(fact, wanted))?,
            Opening::Field => {
                let name = Text::copy(alloc, name)?;
                self.need(Argument::Field(name));
            }
            Opening::Header => self.need(Argument::Name),
            Opening::Body => self.need(Argument::Body),
            Opening::Text => self.need(Argument::Text),
            Opening::Larger => self.need(Argument::Larger),
            Opening::Smaller => self.need(Argument::Smaller),
            Opening::Day(clock, order) => self.need(Argument::Day(clock, order)),
            Opening::Not => return self.open(Frame::Negation),
            Opening::Or => return self.open(Frame::First),
        }
        Ok(())
    }

    // A token comes that is to begin a key or to close a parenthesis.
    fn take_key(&mut self, alloc: Global, token: Token<'_>) -> Result<(), SearchError>
        ensures ok { OnOk result (Some (reading_of self.new)
            ≡ keyed self.old.frames (keys_of self.old.steps) (token_of token.entry)) }
        ensures err { IfErr result (λ e. e ≡ Syntax
            → keyed self.old.frames (keys_of self.old.steps) (token_of token.entry) ≡ None) }
    {
        match token {
            Token::Open => self.open(Frame::Group),
            Token::Close => self.close(),
            Token::Run(name) => match opening_of(name) {
                Some(opening) => self.begin(alloc, name, opening),
                None => Err(SearchError::Syntax),
            },
            _ => Err(SearchError::Syntax),
        }
    }

    // A token comes that is to be an argument.
    fn take_argument(
        &mut self,
        alloc: Global,
        argument: Argument,
        token: Token<'_>,
    ) -> Result<(), SearchError>
        ensures ok { OnOk result (Some (reading_of self.new)
            ≡ argued self.old.frames (keys_of self.old.steps) argument (token_of token.entry)) }
        ensures err { IfErr result (λ e. e ≡ Syntax
            → argued self.old.frames (keys_of self.old.steps) argument (token_of token.entry) ≡ None) }
    {
        match argument {
            Argument::Name => match string_in(alloc, token)? {
                Some(name) => {
                    self.need(Argument::Field(name));
                    Ok(())
                }
                None => Err(SearchError::Syntax),
            },
            argument => match made(alloc, argument, token)? {
                Some(test) => {
                    self.put(test)?;
                    Ok(())
                }
                None => Err(SearchError::Syntax),
            },
        }
    }

    /// Reads the next token, which is no gap. `Syntax` comes exactly if it can't stand here; the reader is then of no
    /// further use, nor is it if memory runs out.
    pub(crate) fn take(&mut self, alloc: Global, token: Token<'_>) -> Result<(), SearchError>
        ensures ok { OnOk result (Some (reading_of self.new) ≡ after_token (reading_of self.old) (token_of token.entry)) }
        ensures err { IfErr result (λ e. e ≡ Syntax → after_token (reading_of self.old) (token_of token.entry) ≡ None) }
    {
        match mem::replace(&mut self.want, Want::Nothing) {
            Want::Key => self.take_key(alloc, token),
            Want::Argument(argument) => self.take_argument(alloc, argument, token),
            Want::Nothing => Err(SearchError::Syntax),
        }
    }
}
