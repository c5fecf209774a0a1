// Dates as most are written: a blank or a mark between two parts, and no comments.
ghost use Rattle.std.specs.Prelude.{◌≡◌, ◌∷◌, ◌++◌, ◌<◌, length, IfSome, Some, ℤ};
ghost use Rattle.jiff_core.specs.Calendar.{IsWithin};
ghost use Rattle.mail_dates.specs.Clock.{IsDayInYears, IsInYears};
ghost use Rattle.mail_dates.specs.Parts.{date_parts};
ghost use Rattle.mail_dates.specs.DateFields.{time, date_of};
ghost use Rattle.mail_dates.specs.Values.{moment_of};

use crate::Moment;
use crate::date_field::written_date;
use crate::parts::{first_byte, is_sign};
use crate::values::{is_day_name, moment, time_value, zone_number_value};

/// The moment of a date as most are written, such as `Tue, 5 Mar 2024 09:15:00 +0100`. None of any other text.
pub(crate) fn plain_date(value: &[u8]) -> Option<Moment>
    ensures value { IfSome result (λ m. date_of value.now ≡ Some m) }
    ensures years { IfSome result IsInYears }
{
    let (day, rest) = plain_day(value)?;
    let (seconds, offset) = plain_time(rest)?;
    Some(moment(day, seconds, offset))
}

// The day number of `Tue, 5 Mar 2024 `, and what follows it.
fn plain_day(text: &[u8]) -> Option<(i32, &[u8])>
    ensures value { IfSome result (λ p. date_of text.now ≡ time (Some p.0) (date_parts p.1.now)) }
    ensures bound { IfSome result (λ p. IsDayInYears p.0) }
{
    let (name, rest) = cut_at(text, 3, b',')?;
    let (space, rest) = first_byte(rest)?;
    let (day, rest) = cut_day(rest)?;
    let (month, rest) = cut_at(rest, 3, b' ')?;
    let (year, rest) = cut_at(rest, 4, b' ')?;
    if space != b' ' || !is_day_name(name) {
        return None;
    }
    let date = written_date(year, month, day)?;
    Some((date, rest))
}

// The seconds since midnight and the offset of `09:15:00 +0100`.
fn plain_time(text: &[u8]) -> Option<(u32, i32)>
    ensures value { IfSome result (λ p. (day : ℤ) → time (Some day) (date_parts text.now) ≡ Some (moment_of day p.0 p.1)) }
    ensures time { IfSome result (λ p. p.0 < 86_400) }
    ensures offset { IfSome result (λ p. IsWithin 86_399 p.1) }
{
    let (hour, rest) = cut_at(text, 2, b':')?;
    let (minute, rest) = cut_at(rest, 2, b':')?;
    let (second, rest) = cut_at(rest, 2, b' ')?;
    let (sign, zone) = first_byte(rest)?;
    if !is_sign(sign) {
        return None;
    }
    let seconds = time_value(hour, minute, second)?;
    let offset = zone_number_value(sign, zone)?;
    Some((seconds, offset))
}

// A day of one or two bytes before a space, and what follows the space.
fn cut_day(text: &[u8]) -> Option<(&[u8], &[u8])>
    ensures { IfSome result (λ cut. text.now ≡ cut.0.now ++ 32 ∷ cut.1.now) }
{
    match cut_at(text, 1, b' ') {
        Some((day, rest)) => Some((day, rest)),
        None => cut_at(text, 2, b' '),
    }
}

// That many bytes at the front, if this byte follows them, and what follows it.
fn cut_at(text: &[u8], count: usize, mark: u8) -> Option<(&[u8], &[u8])>
    ensures whole { IfSome result (λ cut. text.now ≡ cut.0.now ++ mark ∷ cut.1.now) }
    ensures front { IfSome result (λ cut. length cut.0.now ≡ count) }
{
    if text.len() < count {
        return None;
    }
    let (front, back) = text.split_at(count);
    let (first, rest) = first_byte(back)?;
    if first != mark {
        return None;
    }
    Some((front, rest))
}
