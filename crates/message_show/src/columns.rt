// The columns of a summary line.
ghost use Rattle.std.specs.Prelude.{◌≡◌, ◌≤◌, ◌-◌, ◌++◌, length, take, codes, decimal, OnOk, IfOk, IfSome, if◌then◌else◌, ◌==◌};
ghost use Rattle.mail_dates.specs.Clock.{IsInYears};
ghost use Rattle.message_show.specs.Summary.{spaces, left_in, right_in, flag_letter_or, mark_letter, date_column, steps_column, columns};

use itoa::Buffer;
use mail_dates::{Moment, print_short_date};
use mail_text::{Memory, Text};
use message_state::{Flags, Mark, Row, State};
use std::alloc::Global;

const SPACES: [u8; 20] = [b' '; 20];

// The columns before the subject.
pub(crate) fn columns(
    alloc: Global,
    current: u32,
    number: u32,
    depth: u32,
    row: &Row,
) -> Result<Text, Memory>
    requires { IfSome row.now.moment IsInYears }
    ensures { IfOk result (λ line. line ≡ columns current number depth row.now) }
{
    let mut line = Text::copy(alloc, current_mark(number, current))?;
    line.push(mark_letter(row.mark))?;
    push_right(&mut line, 4, u64::from(number))?;
    line.push(b" ")?;
    push_author(&mut line, row.texts.shown_author())?;
    line.push(b" ")?;
    push_date(alloc, &mut line, row.moment)?;
    line.push(b" ")?;
    push_right(&mut line, 6, row.size)?;
    line.push(b" ")?;
    push_spaces(&mut line, 2 * depth.min(10) as usize)?;
    Ok(line)
}

// The mark of the current message.
fn current_mark(number: u32, current: u32) -> &'static [u8]
    ensures { result.now ≡ (if number == current then codes ">" else codes " ") }
{
    if number == current { b">" } else { b" " }
}

// The letter of flags, or this one if none is set.
fn flag_letter_or(letter: &'static [u8], flags: Flags) -> &'static [u8]
    ensures { result.now ≡ flag_letter_or letter.now flags }
{
    if flags.flagged {
        b"F"
    } else if flags.answered {
        b"A"
    } else if flags.draft {
        b"T"
    } else {
        letter
    }
}

// The letter of a mark: that of a flag goes before that of the state if the message is new, unread or read.
fn mark_letter(mark: Mark) -> &'static [u8]
    ensures { result.now ≡ mark_letter mark }
{
    match mark.state {
        State::New => flag_letter_or(b"N", mark.flags),
        State::Unread => flag_letter_or(b"U", mark.flags),
        State::Read => flag_letter_or(b"R", mark.flags),
        State::Deleted => b"D",
        State::Preserved => b"P",
        State::Saved => b"S",
        State::Mboxed => b"M",
    }
}

// Puts `count` spaces at the end.
#[tactic(auto, using(std::proofs::lemmas::Grind::common_steps, crate::proofs::SummaryLemmas::spaces_taken))]
fn push_spaces(line: &mut Text, count: usize) -> Result<(), Memory>
    requires { count ≤ 20 }
    ensures { OnOk result (line.new ≡ line.old ++ spaces count) }
{
    line.push(&SPACES[..count])
}

// Puts a number at the end, at the right of `places` places.
fn push_right(line: &mut Text, places: usize, number: u64) -> Result<(), Memory>
    requires { places ≤ 20 }
    ensures { OnOk result (line.new ≡ line.old ++ right_in places (decimal number)) }
{
    let mut buffer = Buffer::new();
    let digits = buffer.format(number).as_bytes();
    push_spaces(line, places.saturating_sub(digits.len()))?;
    line.push(digits)
}

// Puts the author at the end, cut to 18 bytes and left in 18 places.
fn push_author(line: &mut Text, author: &[u8]) -> Result<(), Memory>
    ensures { OnOk result (line.new ≡ line.old ++ left_in 18 (take 18 author.now)) }
{
    let (shown, _) = author.split_at(author.len().min(18));
    line.push(shown)?;
    push_spaces(line, 18 - shown.len())
}

// Puts the date at the end, or as many spaces.
fn push_date(alloc: Global, line: &mut Text, moment: Option<Moment>) -> Result<(), Memory>
    requires { IfSome moment IsInYears }
    ensures { OnOk result (line.new ≡ line.old ++ date_column moment) }
{
    match moment {
        Some(moment) => {
            let date = print_short_date(alloc, moment)?;
            line.push(date.bytes())
        }
        None => push_spaces(line, 16),
    }
}
