// A line cut into words.
ghost use Rattle.std.specs.Prelude.{◌≡◌, ◌<◌, [], ◌∷◌, ◌++◌, IfOk};
ghost use Rattle.line_words.specs.Words.{words_by, words_of, list_words_of};
ghost use Rattle.mail_text.specs.Ascii.{is_blank};
ghost use Rattle.line_words.specs.Cutting.{step_of, first_step, unquoted_step, enclosed_after, string_after, depth_of, gives, IsReady};

use mail_text::{Items, Memory, Text, is_blank};
use std::alloc::Global;
use std::mem;

/// Where a byte of a line stands.
#[derive(Clone, Copy)]
pub(crate) enum Place {
    /// Between two words, or before the first.
    Between,
    /// In a word, outside quotes.
    Word,
    /// After a backslash.
    Escaped,
    /// Between two of these quotes.
    Quoted(u8),
    /// In parentheses, of which so many but one are open.
    Enclosed(usize),
    /// In a string there.
    InString(usize),
    /// After a backslash in that string.
    Taken(usize),
}

/// What becomes of a byte.
#[derive(Clone, Copy)]
pub(crate) enum Act {
    /// It is passed over.
    Pass,
    /// It belongs to the word.
    Keep,
    /// It ends the word.
    End,
}

/// What becomes of a byte, and where the next one stands.
#[derive(Clone, Copy)]
pub(crate) struct Step {
    place: Place,
    act: Act,
}

// The step at a byte in a word, outside quotes, that is no blank.
fn unquoted_step(byte: u8) -> Step
    ensures { result ≡ unquoted_step byte }
{
    let (place, act) = match byte {
        b'"' | b'\'' => (Place::Quoted(byte), Act::Pass),
        b'\\' => (Place::Escaped, Act::Pass),
        _ => (Place::Word, Act::Keep),
    };
    Step { place, act }
}

// The step at a byte at the front of a word that is no blank.
fn first_step(lists: bool, byte: u8) -> Step
    ensures { result ≡ first_step lists byte }
{
    if byte == b'(' && lists {
        Step {
            place: Place::Enclosed(0),
            act: Act::Keep,
        }
    } else {
        unquoted_step(byte)
    }
}

// Where the byte stands after one in parentheses.
fn enclosed_after(more: usize, byte: u8) -> Place
    requires { more < 18_446_744_073_709_551_615 }
    ensures { result ≡ enclosed_after more byte }
{
    match byte {
        b'"' => Place::InString(more),
        b'(' => Place::Enclosed(more + 1),
        b')' if more == 0 => Place::Word,
        b')' => Place::Enclosed(more - 1),
        _ => Place::Enclosed(more),
    }
}

// Where the byte stands after one in a string there.
fn string_after(more: usize, byte: u8) -> Place
    ensures { result ≡ string_after more byte }
{
    match byte {
        b'"' => Place::Enclosed(more),
        b'\\' => Place::Taken(more),
        _ => Place::InString(more),
    }
}

// The step at a byte that stands there.
fn step_of(lists: bool, place: Place, byte: u8) -> Step
    requires { depth_of place < 18_446_744_073_709_551_615 }
    ensures { result ≡ step_of lists place byte }
{
    let (place, act) = match place {
        Place::Between if is_blank(byte) => (Place::Between, Act::Pass),
        Place::Between => return first_step(lists, byte),
        Place::Word if is_blank(byte) => (Place::Between, Act::End),
        Place::Word => return unquoted_step(byte),
        Place::Escaped => (Place::Word, Act::Keep),
        Place::Quoted(quote) if byte == quote => (Place::Word, Act::Pass),
        Place::Quoted(quote) => (Place::Quoted(quote), Act::Keep),
        Place::Enclosed(more) => (enclosed_after(more, byte), Act::Keep),
        Place::InString(more) => (string_after(more, byte), Act::Keep),
        Place::Taken(more) => (Place::InString(more), Act::Keep),
    };
    Step { place, act }
}

/// The words of a line: what blanks, spaces and tabs, separate, without its quotes. In a word `"` to `"` and `'` to `'`
/// stand for the bytes inside; outside quotes a backslash takes the next byte, and at the line's end it stands for
/// itself. `None` exactly if a quote isn't closed.
pub fn words_of(alloc: Global, bytes: &[u8]) -> Result<Option<Items<Text>>, Memory>
    ensures { IfOk result (λ words. words ≡ words_of bytes.now) }
{
    words_by(alloc, false, bytes)
}

/// The same for a line that may have a message list. A word that begins with `(` has what follows up to the `)` that closes
/// it, or up to the end of the line if none does, as it stands: blanks, quotes and backslashes too. Only a string in it,
/// which has `"` at both ends and in which a backslash takes the next byte, is passed over.
pub fn list_words_of(alloc: Global, bytes: &[u8]) -> Result<Option<Items<Text>>, Memory>
    ensures { IfOk result (λ words. words ≡ list_words_of bytes.now) }
{
    words_by(alloc, true, bytes)
}

// The words of a line; `lists` says whether it may have a message list.
pub(crate) fn words_by(
    alloc: Global,
    lists: bool,
    bytes: &[u8],
) -> Result<Option<Items<Text>>, Memory>
    ensures { IfOk result (λ words. words ≡ words_by lists bytes.now) }
{
    let mut words = Items::new(alloc);
    let mut word = Text::new(alloc);
    let mut place = Place::Between;
    for byte in bytes {
        let step = step_of(lists, place, *byte);
        match step.act {
            Act::Pass => {}
            Act::Keep => word.push(&[*byte])?,
            Act::End => words.push(mem::replace(&mut word, Text::new(alloc)))?,
        }
        place = step.place;
    }
    finish(lists, place, words, word)
}

// The words at the end of a line, of which these are whole and this is the front of the last one.
#[tactic(auto, unfolding(crate::specs::Cutting::words_from))]
fn finish(
    lists: bool,
    place: Place,
    words: Items<Text>,
    word: Text,
) -> Result<Option<Items<Text>>, Memory>
    ensures { IfOk result (λ all. all ≡ gives lists place words word []) }
{
    match place {
        Place::Between => Ok(Some(words)),
        Place::Word | Place::Enclosed(_) => with_last(words, word),
        Place::Escaped => {
            let mut word = word;
            word.push(b"\\")?;
            with_last(words, word)
        }
        Place::Quoted(_) | Place::InString(_) | Place::Taken(_) => Ok(None),
    }
}

// These words and this one.
fn with_last(words: Items<Text>, word: Text) -> Result<Option<Items<Text>>, Memory>
    ensures { IfOk result (λ all. all ≡ Some (words ++ word ∷ [])) }
{
    let mut words = words;
    words.push(word)?;
    Ok(Some(words))
}
