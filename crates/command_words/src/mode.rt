ghost use Rattle.std.specs.Prelude.{◌≡◌};
ghost use Rattle.command_words.specs.Modes.{has_values, is_alone, mode_of, mode_without_tries, try_mode};

use crate::options::Options;
use mail_text::read_number;

/// The most messages that are tried.
const MOST_TRIES: u64 = 100_000;

/// What the program is to do.
#[derive(Clone, Copy, Debug, PartialEq, Eq)]
pub enum Mode {
    /// To try itself on `count` messages, 1 to 100,000.
    Try { count: u64 },
    /// To show by its status whether there is mail.
    Exists,
    /// To read a folder.
    Receive,
    /// To send a draft.
    Send,
}

// Whether there is an option of a draft.
fn has_values(options: &Options) -> bool
    ensures { result ≡ has_values options.now }
{
    options.subject.is_some() || options.blind.is_some() || options.copies.is_some()
}

// Whether no flag but `-i` and `-n` is given, nor a value or an operand.
fn is_alone(options: &Options) -> bool
    ensures { result ≡ is_alone options.now }
{
    !options.headers
        && !options.quiet
        && !options.named
        && !options.folder
        && options.user.is_none()
        && !has_values(options)
        && options.operands.items().is_empty()
}

// To try itself on `count` messages.
fn try_mode(count: &[u8]) -> Option<Mode>
    ensures { result ≡ try_mode count.now }
{
    match count {
        [] | [b'0', ..] => None,
        _ => match read_number(count) {
            Some(count) if count <= MOST_TRIES => Some(Mode::Try { count }),
            _ => None,
        },
    }
}

// The mode that options without `--try` ask for.
fn mode_without_tries(options: &Options) -> Option<Mode>
    ensures { result ≡ mode_without_tries options.now }
{
    if options.exists {
        return if is_alone(options) {
            Some(Mode::Exists)
        } else {
            None
        };
    }
    if options.folder {
        let fits = options.operands.items().len() <= 1 && options.user.is_none();
        return if fits && !has_values(options) {
            Some(Mode::Receive)
        } else {
            None
        };
    }
    if options.operands.items().is_empty() {
        return if has_values(options) {
            None
        } else {
            Some(Mode::Receive)
        };
    }
    if options.headers || options.quiet || options.user.is_some() {
        None
    } else {
        Some(Mode::Send)
    }
}

// The mode that options ask for, if they go together.
pub(crate) fn mode_of(options: &Options) -> Option<Mode>
    ensures { result ≡ mode_of options.now }
{
    match &options.tries {
        Some(count) => {
            if options.exists || options.ignores || options.no_system_file || !is_alone(options) {
                None
            } else {
                try_mode(count.bytes())
            }
        }
        None => mode_without_tries(options),
    }
}
