//! Byte texts and lists of values, which contracts see as lists; a text by lines; numbers in digits; comparison and
//! search without ASCII case; blanks.
#![tactic(auto)]

mod ascii;
mod holding;
mod items;
mod memory;
mod number;
mod pieces;
mod reserved;
mod text;

ghost use Rattle.std.specs.Prelude.{◌≡◌, ◌≤◌, ℕ, List, length, All};
ghost use Rattle.std.specs.List.{flat_map};
ghost use Rattle.mail_text.specs.Lines.{lines_of, with_feed, fed, HasNoFeed};

pub use ascii::{is_blank, same_ascii};
pub use holding::holds_ascii;
pub use items::Items;
pub use memory::Memory;
pub use number::read_number;
pub use pieces::Lines;
pub use reserved::Reserved;
pub use text::Text;

/// The lines of a text, in order and without their line feeds. A line feed at the end makes no further line, and a
/// carriage return is a byte like any other.
pub fn lines(bytes: &[u8]) -> Lines<'_>
    ensures lines { result ≡ lines_of bytes.now }
    ensures few { length result ≤ length bytes.now }
{
    Lines::of(bytes)
}

/// A law: the lines of any text, each with a line feed, make the text again, with a line feed at its end if it had
/// none; and no line has a line feed in it.
pub fn lines_make_the_text()
    ensures whole { (text : List ℕ) → flat_map with_feed (lines_of text) ≡ fed text }
    ensures apart { (text : List ℕ) → All HasNoFeed (lines_of text) }
{}
