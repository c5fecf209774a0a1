// The words of the command line.
ghost use Rattle.std.specs.Prelude.{◌≡◌, IfOk, IfSome, Some, true};
ghost use Rattle.std.specs.Option.{option_and_then};
ghost use Rattle.command_words.specs.Readings.{reading};
ghost use Rattle.mailx_vars.specs.Environment.{knows_user};
ghost use Rattle.mailx_top.specs.Wants.{may_start, start_from};
ghost use Rattle.mailx_top.specs.Words.{first_or, folder_word, manner_of, may_say, options_of, start_by, start_of};

use crate::Environment;
use command_words::{Mode, Options, Wanted, WordsError, read_words};
use mail_text::{Memory, Text};
use mailx_vars::knows_user;
use std::alloc::Global;

/// What is printed once the folder is open.
#[derive(Clone, Copy, Debug, PartialEq, Eq)]
pub(crate) enum Manner {
    /// Nothing; the run is done.
    Silent,
    /// The summary lines of all messages; the run is done.
    Rows,
    /// Nothing.
    Quiet,
    /// A greeting.
    Greeting,
}

/// How to start, with the options of the words.
#[derive(Clone, Copy)]
pub(crate) enum Start<'a> {
    /// A folder is opened.
    Opens(&'a Options),
    /// A draft is sent.
    Sends(&'a Options),
}

impl<'a> Start<'a> {
    /// The options with which a run starts.
    pub(crate) fn options(self) -> &'a Options
        ensures { result.now ≡ options_of (start_from self.entry) }
    {
        match self {
            Start::Opens(options) | Start::Sends(options) => options,
        }
    }
}

// The first of these words, or another if there is none.
fn first_or<'a>(other: &'a [u8], words: &'a [Text]) -> &'a [u8]
    ensures { result.now ≡ first_or other.now words.now }
{
    match words {
        [word, ..] => word.bytes(),
        [] => other,
    }
}

/// The word of the folder.
pub(crate) fn folder_word(options: &Options) -> &[u8]
    ensures { result.now ≡ folder_word options.now }
{
    if options.folder {
        first_or(b"&", options.operands.items())
    } else {
        b"%"
    }
}

/// What is printed once the folder is open.
pub(crate) fn manner_of(options: &Options) -> Manner
    ensures { result ≡ manner_of options.now }
{
    if options.exists {
        Manner::Silent
    } else if options.headers {
        Manner::Rows
    } else if options.quiet {
        Manner::Quiet
    } else {
        Manner::Greeting
    }
}

// How to start in a mode. A run that tries itself starts none here.
fn start_by(wanted: &Wanted) -> Option<Start<'_>>
    ensures { may_start result ≡ start_by wanted.now }
{
    match wanted.mode {
        Mode::Exists | Mode::Receive => Some(Start::Opens(&wanted.options)),
        Mode::Send => Some(Start::Sends(&wanted.options)),
        Mode::Try { .. } => None,
    }
}

/// What the words ask for. None if they are refused.
pub(crate) fn asked_by(wanted: &Option<Wanted>) -> Option<Start<'_>>
    ensures { may_start result ≡ option_and_then start_by wanted.now }
{
    match wanted {
        Some(wanted) => start_by(wanted),
        None => None,
    }
}

/// Reads the words. None if they are refused.
pub(crate) fn wanted(alloc: Global, words: &[Text]) -> Result<Option<Wanted>, Memory>
    ensures { IfOk result (λ wanted. wanted ≡ reading words.now) }
{
    match read_words(alloc, words) {
        Ok(wanted) => Ok(Some(wanted)),
        Err(WordsError::Usage) => Ok(None),
        Err(WordsError::Memory) => Err(Memory),
    }
}

/// Whether a last line may be printed.
pub(crate) fn may_say(asked: Option<Start<'_>>) -> bool
    ensures { result ≡ may_say (may_start asked.entry) }
{
    match asked {
        Some(start) => !start.options().exists,
        None => false,
    }
}

/// How to start, or None if the words are refused or home folder and user aren't known.
pub(crate) fn start_of<'a>(asked: Option<Start<'a>>, env: &Environment) -> Option<Start<'a>>
    ensures wanted { may_start result ≡ start_of (may_start asked.entry) env.now.pairs }
    ensures known { IfSome result (λ a. knows_user env.now.pairs ≡ true) }
{
    if knows_user(env.pairs.items()) {
        asked
    } else {
        None
    }
}
