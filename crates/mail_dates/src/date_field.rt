ghost use Rattle.std.specs.Prelude.{◌≡◌, ◌<◌, IfSome};
ghost use Rattle.jiff_core.specs.Calendar.{IsWithin};
ghost use Rattle.mail_dates.specs.Clock.{IsDayInYears, IsInYears};
ghost use Rattle.mail_dates.specs.Parts.{date_parts};
ghost use Rattle.mail_dates.specs.Reading.{after_day_name, calendar_first, clock_first, zone_last, rest_view, value_view};
ghost use Rattle.mail_dates.specs.DateFields.{written_date, date_of};

use crate::Moment;
use crate::parts::{is_at_end, read_colon, read_comma, read_number, read_signed, read_word};
use crate::plain_date::plain_date;
use crate::values::{
    date_value, day_value, is_day_name, moment, month_value, time_value, year_value,
    zone_number_value, zone_word_value,
};

// The text after a day's name and its comma, or the whole text if it has no such beginning.
fn skip_day_name(text: &[u8]) -> Option<&[u8]>
    ensures { rest_view result ≡ after_day_name (date_parts text.now) }
{
    let Some((name, rest)) = read_word(text) else {
        return Some(text);
    };
    let Some(rest) = read_comma(rest) else {
        return Some(text);
    };
    if !is_day_name(name) {
        return None;
    }
    Some(rest)
}

/// The day number, 0 for 1 January 1970, of a year of two to four digits, a month's name and a day of one or two digits,
/// as a `Date` field has them (RFC 5322, sections 3.3 and 4.3); the case of ASCII letters is ignored. None if one of them
/// isn't written so, or the calendar has no such day in the years 1 to 9999.
pub fn written_date(year: &[u8], month: &[u8], day: &[u8]) -> Option<i32>
    ensures value { result ≡ written_date year.now month.now day.now }
    ensures bound { IfSome result IsDayInYears }
{
    let year = year_value(year)?;
    let month = month_value(month)?;
    let day = day_value(day)?;
    date_value(year, month, day)
}

// The day number of a day, a month and a year, and the text after them.
#[tactic(auto, unfolding(crate::specs::Reading::calendar_first))]
fn read_calendar(text: &[u8]) -> Option<(i32, &[u8])>
    ensures value { value_view result ≡ calendar_first (date_parts text.now) }
    ensures bound { IfSome result (λ p. IsDayInYears p.0) }
{
    let (day, rest) = read_number(text)?;
    let (month, rest) = read_word(rest)?;
    let (year, rest) = read_number(rest)?;
    let date = written_date(year, month, day)?;
    Some((date, rest))
}

// The seconds since midnight of an hour, a minute and perhaps a second, and the text after them.
#[tactic(auto, unfolding(crate::specs::Reading::clock_first))]
fn read_clock(text: &[u8]) -> Option<(u32, &[u8])>
    ensures value { value_view result ≡ clock_first (date_parts text.now) }
    ensures bound { IfSome result (λ p. p.0 < 86_400) }
{
    let (hour, rest) = read_number(text)?;
    let rest = read_colon(rest)?;
    let (minute, rest) = read_number(rest)?;
    let Some(seconds) = read_colon(rest) else {
        let time = time_value(hour, minute, b"00")?;
        return Some((time, rest));
    };
    let (second, rest) = read_number(seconds)?;
    let time = time_value(hour, minute, second)?;
    Some((time, rest))
}

// The offset of the zone that is the last part.
fn read_zone(text: &[u8]) -> Option<i32>
    ensures value { result ≡ zone_last (date_parts text.now) }
    ensures bound { IfSome result (IsWithin 86_399) }
{
    if let Some((word, rest)) = read_word(text) {
        return is_at_end(rest).then_some(zone_word_value(word));
    }
    let (sign, digits, rest) = read_signed(text)?;
    if !is_at_end(rest) {
        return None;
    }
    zone_number_value(sign, digits)
}

/// The moment of a `Date` field's value, such as `Tue, 5 Mar 2024 09:15:00 +0100` (RFC 5322, sections 3.3
/// and 4.3). None if the value is no date, or the calendar has no such day, hour, minute or second.
pub fn read_date(value: &[u8]) -> Option<Moment>
    ensures value { result ≡ date_of value.now }
    ensures years { IfSome result IsInYears }
{
    match plain_date(value) {
        Some(moment) => Some(moment),
        None => any_date(value),
    }
}

// The moment of a date, read part by part.
fn any_date(value: &[u8]) -> Option<Moment>
    ensures value { result ≡ date_of value.now }
    ensures years { IfSome result IsInYears }
{
    let rest = skip_day_name(value)?;
    let (day, rest) = read_calendar(rest)?;
    let (time, rest) = read_clock(rest)?;
    let offset = read_zone(rest)?;
    Some(moment(day, time, offset))
}
