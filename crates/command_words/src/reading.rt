ghost use Rattle.std.specs.Prelude.{◌≡◌, ◌↔◌, map, true, false, IfOk, IsTrue, Err, None, Some};
ghost use Rattle.clap.specs.Values.{kind_of};
ghost use Rattle.clap.specs.Words.{matches_of};
ghost use Rattle.command_words.specs.Options.{options_of};
ghost use Rattle.command_words.specs.Readings.{reading};
ghost use Rattle.command_words.specs.Words.{mailx, reads};

use crate::error::WordsError;
use crate::mode::{Mode, mode_of};
use crate::options::{Options, has_empty, options_in};
use crate::parse::read;
use crate::refused::is_refused_list;
use crate::texts::texts;
use clap::Error;
use clap::error::ErrorKind;
use mail_text::Text;
use std::alloc::Global;

/// What the words ask for.
#[derive(Drop)]
pub struct Wanted {
    /// What the program is to do.
    pub mode: Mode,
    /// The options with which it is to do so.
    pub options: Options,
}

// Whether a parse failed because memory ran out.
fn is_memory(e: &Error) -> bool
    ensures { IsTrue result ↔ (kind_of e.now ≡ ErrorKind.OutOfMemory) }
{
    match e.kind() {
        ErrorKind::OutOfMemory => true,
        _ => false,
    }
}

// The flags, options and operands that the words have.
fn parsed(alloc: Global, words: &[&str]) -> Result<Options, WordsError>
    ensures ok { IfOk result (λ options. options ≡ options_of (matches_of mailx (map (λ word. word.now) words.now))) }
    ensures reads { IfOk result (λ _. reads (map (λ word. word.now) words.now) ≡ true) }
    ensures usage { result ≡ Err WordsError.Usage → reads (map (λ word. word.now) words.now) ≡ false }
{
    if is_refused_list(words) {
        return Err(WordsError::Usage);
    }
    let matches = match read(alloc, words) {
        Ok(matches) => matches,
        Err(e) => {
            if is_memory(&e) {
                return Err(WordsError::Memory);
            }
            return Err(WordsError::Usage);
        }
    };
    let given = options_in(alloc, &matches)?;
    if has_empty(&given) {
        return Err(WordsError::Usage);
    }
    Ok(given)
}

/// What the words of the command line ask for; they leave the program's own name out. Flags are `-e -H -i -N -n -F
/// -f`, options with a value `-u -s -b -c` and `--try`. Flags may be grouped; a value is the rest of its word or the
/// next word, and `--try=N` is `--try N`; options may stand after operands, and `--` ends them.
///
/// `Usage` comes exactly if a word isn't UTF-8, an option is unknown or given twice, a value is missing, a next
/// word as value begins with `-`, a word is `-` alone, a short option's value begins with `=` in its word, or an
/// operand is empty; and if they don't go together: `--try`, with a number from 1 to 100,000 without a zero in
/// front, goes with nothing else; `-e` with `-i` and `-n` alone; `-f` with at most one operand, and without `-u -s -b
/// -c`; without `-f`, operands go without `-H -N -u`, and `-s -b -c` with operands alone.
pub fn read_words(alloc: Global, words: &[Text]) -> Result<Wanted, WordsError>
    ensures wanted { IfOk result (λ wanted. reading words.now ≡ Some wanted) }
    ensures usage { result ≡ Err WordsError.Usage → reading words.now ≡ None }
{
    let given = texts(alloc, words)?;
    let options = parsed(alloc, &given)?;
    match mode_of(&options) {
        Some(mode) => Ok(Wanted { mode, options }),
        None => Err(WordsError::Usage),
    }
}
