ghost use Rattle.std.specs.Prelude.{◌≡◌, ◌<◌, ◌≤◌, ◌==◌, [], ◌∷◌, length, not, IfSome, MatchOption};
ghost use Rattle.std.specs.Char.{is_ascii_alphabetic};
ghost use Rattle.std.specs.List.{list_all, position_from, prefix_len, slice_split};
ghost use Rattle.mail_dates.specs.Clock.{IsDayInYears, IsInYears};
ghost use Rattle.mail_dates.specs.Values.{month_value, day_value};
ghost use Rattle.mail_dates.specs.FromLines.{words_of, clock_value, is_zone, is_zone_number, year_in, day_number_of, arrival, sender_of, arrival_of};
ghost use Rattle.mail_text.specs.Ascii.{is_blank};

use crate::Moment;
use crate::parts::{first_byte, is_sign};
use crate::values::{date_value, day_value, digits, is_day_name, moment, month_value, time_value};
use mail_text::is_blank;

/// What a From line says: who sent the message, and when it came.
#[derive(Clone, Copy, Debug)]
pub struct FromLine<'a> {
    /// The first word of the line, empty if it has none.
    pub sender: &'a [u8],
    /// When the message came, if the line has a date. Its offset is 0.
    pub moment: Option<Moment>,
}

fn blanks_len(text: &[u8]) -> usize
    ensures value { result ≡ prefix_len is_blank text.now }
    ensures within { result ≤ length text.now }
{
    for (i, b) in text.iter().enumerate() {
        if !is_blank(*b) {
            return i;
        }
    }
    text.len()
}

fn word_len(text: &[u8]) -> usize
    ensures value { result ≡ prefix_len (λ b. not (is_blank b)) text.now }
    ensures within { result ≤ length text.now }
{
    for (i, b) in text.iter().enumerate() {
        if is_blank(*b) {
            return i;
        }
    }
    text.len()
}

// The first word of a text, and the text after it.
fn next_word(text: &[u8]) -> Option<(&[u8], &[u8])>
    ensures { MatchOption result (words_of text.now ≡ [])
        (λ p. words_of text.now ≡ p.0.now ∷ words_of p.1.now) }
{
    let (_, text) = text.split_at(blanks_len(text));
    let count = word_len(text);
    if count == 0 {
        return None;
    }
    Some(text.split_at(count))
}

fn colon_place(text: &[u8]) -> Option<usize>
    ensures value { result ≡ position_from (λ b. b == 58) 0 text.now }
    ensures within { IfSome result (λ n. n < length text.now) }
{
    text.iter().position(|b| *b == b':')
}

// What stands before the first colon, and what stands after it.
fn cut_at_colon(text: &[u8]) -> Option<(&[u8], &[u8])>
    ensures { MatchOption result (slice_split (λ b. b == 58) text.now ≡ text.now ∷ [])
        (λ p. slice_split (λ b. b == 58) text.now ≡ p.0.now ∷ slice_split (λ b. b == 58) p.1.now) }
{
    let place = colon_place(text)?;
    let (front, _) = text.split_at(place);
    let (_, back) = text.split_at(place + 1);
    Some((front, back))
}

// The seconds since midnight of `hh:mm` or `hh:mm:ss`.
#[tactic(auto, unfolding(crate::specs::FromLines::clock_value))]
fn clock_value(word: &[u8]) -> Option<u32>
    ensures value { result ≡ clock_value word.now }
    ensures bound { IfSome result (λ n. n < 86_400) }
{
    let (hour, rest) = cut_at_colon(word)?;
    let Some((minute, second)) = cut_at_colon(rest) else {
        return time_value(hour, rest, b"00");
    };
    match cut_at_colon(second) {
        None => time_value(hour, minute, second),
        Some(_) => None,
    }
}

fn is_letters(word: &[u8]) -> bool
    ensures { result ≡ list_all is_ascii_alphabetic word.now }
{
    word.iter().all(|b| b.is_ascii_alphabetic())
}

// A sign and four digits.
fn is_zone_number(word: &[u8]) -> bool
    ensures { result ≡ is_zone_number word.now }
{
    match first_byte(word) {
        Some((sign, rest)) => is_sign(sign) && digits(4, rest).is_some(),
        None => false,
    }
}

// A zone of a From line.
fn is_zone(word: &[u8]) -> bool
    ensures { result ≡ is_zone word.now }
{
    !word.is_empty() && is_letters(word) || is_zone_number(word)
}

// The year at the front of a text, perhaps after a zone.
fn year_in(text: &[u8]) -> Option<u16>
    ensures value { result ≡ year_in (words_of text.now) }
    ensures bound { IfSome result (λ n. n < 10_000) }
{
    let (word, rest) = next_word(text)?;
    if !is_zone(word) {
        return digits(4, word);
    }
    let (year, _) = next_word(rest)?;
    digits(4, year)
}

// The day number of a month, a day, and the year at the front of a text.
#[tactic(auto, unfolding(crate::specs::FromLines::day_number_of))]
fn day_number(month: &[u8], day: &[u8], text: &[u8]) -> Option<i32>
    ensures value { result
        ≡ day_number_of (year_in (words_of text.now)) (month_value month.now) (day_value day.now) }
    ensures bound { IfSome result IsDayInYears }
{
    let year = year_in(text)?;
    let month = month_value(month)?;
    let day = day_value(day)?;
    date_value(year, month, day)
}

// The moment of the words after the sender.
fn arrival(text: &[u8]) -> Option<Moment>
    ensures value { result ≡ arrival (words_of text.now) }
    ensures years { IfSome result IsInYears }
{
    let (name, rest) = next_word(text)?;
    let (month, rest) = next_word(rest)?;
    let (day, rest) = next_word(rest)?;
    let (time, rest) = next_word(rest)?;
    if !is_day_name(name) {
        return None;
    }
    let date = day_number(month, day, rest)?;
    let time = clock_value(time)?;
    Some(moment(date, time, 0))
}

/// Reads the line after `From ` that begins a message: the sender, and the date in the form
/// `Wed Jan  3 00:00:00 2024`; the seconds may be left out and a zone may stand before the year.
/// The zone isn't used: the time counts as that of UTC. There is no moment if the words are no date
/// or the calendar has no such day.
pub fn read_from_line(line: &[u8]) -> FromLine<'_>
    ensures sender { result.sender.now ≡ sender_of line.now }
    ensures moment { result.moment ≡ arrival_of line.now }
    ensures years { IfSome result.moment IsInYears }
{
    match next_word(line) {
        Some((sender, rest)) => FromLine {
            sender,
            moment: arrival(rest),
        },
        None => FromLine {
            sender: &line[..0],
            moment: None,
        },
    }
}
