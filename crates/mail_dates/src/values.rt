ghost use Rattle.std.specs.Prelude.{◌≡◌, ◌<◌, ◌≤◌, ◌^◌, ◌↔◌, IfSome, Some};
ghost use Rattle.jiff_core.specs.Calendar.{IsWithin};
ghost use Rattle.std.specs.List.{position_from};
ghost use Rattle.mail_text.specs.Ascii.{same_ascii};
ghost use Rattle.mail_dates.specs.Clock.{IsDayInYears, IsInYears};
ghost use Rattle.mail_dates.specs.Names.{month_names};
ghost use Rattle.mail_dates.specs.Values.{digits, day_value, month_value, is_day_name, year_value, date_value, time_value, hours_behind, zone_words, zone_word_value, zone_number_value, zone_digits_value, moment_of};

use crate::Moment;
use crate::names::{DAY_NAMES, MONTH_NAMES};
use jiff_core::civil::Date;
use mail_text::same_ascii;

const ZONE_WORDS: [([u8; 3], u8); 8] = [
    ([b'E', b'S', b'T'], 5),
    ([b'E', b'D', b'T'], 4),
    ([b'C', b'S', b'T'], 6),
    ([b'C', b'D', b'T'], 5),
    ([b'M', b'S', b'T'], 7),
    ([b'M', b'D', b'T'], 6),
    ([b'P', b'S', b'T'], 8),
    ([b'P', b'D', b'T'], 7),
];

/// The number that a text of that many decimal digits writes.
#[tactic(auto, unfolding(crate::specs::Values::digits))]
pub fn digits(count: usize, text: &[u8]) -> Option<u16>
    requires { count ≤ 4 }
    ensures value { result ≡ digits count text.now }
    ensures bound { IfSome result (λ n. n < 10 ^ count) }
{
    if text.len() != count {
        return None;
    }
    let mut number = 0;
    for b in text {
        if !b.is_ascii_digit() {
            return None;
        }
        number = number * 10 + u16::from(*b - b'0');
    }
    Some(number)
}

/// The day of a month, of one or two digits.
#[tactic(auto, unfolding(crate::specs::Values::day_value))]
pub fn day_value(text: &[u8]) -> Option<u8>
    ensures value { result ≡ day_value text.now }
    ensures bound { IfSome result (λ n. n < 100) }
{
    let count = if text.len() == 1 { 1 } else { 2 };
    let day = digits(count, text)?;
    Some(day as u8)
}

// The place of a month's name, from 0.
fn month_place(text: &[u8]) -> Option<usize>
    ensures value { result ≡ position_from (λ name. same_ascii name text.now) 0 month_names }
    ensures bound { IfSome result (λ n. n < 12) }
{
    MONTH_NAMES.iter().position(|name| same_ascii(name, text))
}

/// The number of a month, from 1, by its name.
#[tactic(auto, unfolding(crate::specs::Values::month_value))]
pub fn month_value(text: &[u8]) -> Option<u8>
    ensures value { result ≡ month_value text.now }
    ensures low { IfSome result (λ n. 1 ≤ n) }
    ensures high { IfSome result (λ n. n ≤ 12) }
{
    let place = month_place(text)?;
    Some(place as u8 + 1)
}

/// Whether the text is the name of a day of the week.
#[tactic(auto, unfolding(crate::specs::Values::is_day_name))]
pub fn is_day_name(text: &[u8]) -> bool
    ensures { result ≡ is_day_name text.now }
{
    DAY_NAMES.iter().any(|name| same_ascii(name, text))
}

/// A year of two to four digits.
#[tactic(auto, unfolding(crate::specs::Values::year_value))]
pub fn year_value(text: &[u8]) -> Option<u16>
    ensures value { result ≡ year_value text.now }
    ensures bound { IfSome result (λ n. n < 10_000) }
{
    match text.len() {
        2 => {
            let n = digits(2, text)?;
            Some(if n < 50 { 2000 + n } else { 1900 + n })
        }
        3 => Some(1900 + digits(3, text)?),
        _ => match digits(4, text)? {
            0 => None,
            n => Some(n),
        },
    }
}

/// The day number of a date that the calendar has.
#[tactic(auto, unfolding(crate::specs::Values::date_value))]
pub fn date_value(year: u16, month: u8, day: u8) -> Option<i32>
    requires year_in { year < 10_000 }
    requires month_low { 1 ≤ month }
    requires month_high { month ≤ 12 }
    requires day_in { day < 100 }
    ensures value { result ≡ date_value year month day }
    ensures bound { IfSome result IsDayInYears }
{
    match Date::new(year as i16, month as i8, day as i8) {
        Ok(date) => Some(date.to_unix_epoch_day()),
        Err(_) => None,
    }
}

/// The seconds since midnight. Second 60 counts as 59.
#[tactic(auto, unfolding(crate::specs::Values::time_value))]
pub fn time_value(hour: &[u8], minute: &[u8], second: &[u8]) -> Option<u32>
    ensures value { result ≡ time_value hour.now minute.now second.now }
    ensures bound { IfSome result (λ n. n < 86_400) }
{
    let hour = u32::from(digits(2, hour)?);
    let minute = u32::from(digits(2, minute)?);
    let second = u32::from(digits(2, second)?);
    if hour < 24 && minute < 60 && second <= 60 {
        Some(hour * 3600 + minute * 60 + second.min(59))
    } else {
        None
    }
}

fn hours_behind(word: &[u8]) -> u8
    ensures value { result ≡ hours_behind zone_words word.now }
    ensures bound { result ≤ 8 }
{
    for (name, hours) in &ZONE_WORDS {
        if name.as_slice() == word {
            return *hours;
        }
    }
    0
}

/// The seconds to the east that a zone's word stands for.
#[tactic(auto, unfolding(crate::specs::Values::zone_word_value))]
pub fn zone_word_value(word: &[u8]) -> i32
    ensures value { result ≡ zone_word_value word.now }
    ensures bound { IsWithin 86_399 result }
{
    -(i32::from(hours_behind(word)) * 3600)
}

#[tactic(auto, unfolding(crate::specs::Values::zone_digits_value))]
fn zone_digits_value(text: &[u8]) -> Option<u32>
    ensures value { result ≡ zone_digits_value text.now }
    ensures bound { IfSome result (λ n. n < 86_400) }
{
    let n = u32::from(digits(4, text)?);
    let (hours, minutes) = (n / 100, n % 100);
    if hours < 24 && minutes < 60 {
        Some(hours * 3600 + minutes * 60)
    } else {
        None
    }
}

/// The seconds to the east of a zone's sign and digits.
#[tactic(auto, unfolding(crate::specs::Values::zone_number_value))]
pub fn zone_number_value(sign: u8, text: &[u8]) -> Option<i32>
    ensures value { result ≡ zone_number_value sign text.now }
    ensures bound { IfSome result (IsWithin 86_399) }
{
    let seconds = zone_digits_value(text)? as i32;
    Some(if sign == b'-' { -seconds } else { seconds })
}

/// The moment at which a clock at the offset shows that time of that day.
pub fn moment(day: i32, time: u32, offset: i32) -> Moment
    requires day_in { IsDayInYears day }
    requires time_in { time < 86_400 }
    requires offset_in { IsWithin 86_399 offset }
    ensures value { result ≡ moment_of day time offset }
    ensures years { IsInYears result }
{
    let shown = i64::from(day) * 86_400 + i64::from(time);
    Moment {
        seconds: shown - i64::from(offset),
        offset,
    }
}
