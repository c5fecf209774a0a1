ghost use Rattle.std.specs.Prelude.{◌≡◌, ◌+◌, ◌<◌, pos, neg_ℤ, ◌≤ℤ◌, int_div, unsigned_abs, IfOk};
ghost use Rattle.jiff_core.specs.Calendar.{IsBetween, IsWithin};
ghost use Rattle.jiff_core.specs.Date.{epoch_day, weekday_of};
ghost use Rattle.jiff_core.specs.Time.{time_seconds};
ghost use Rattle.mail_dates.specs.Clock.{IsInYears, IsPrintable, clock_seconds, day_number, second_of_day};
ghost use Rattle.mail_dates.specs.Printed.{two, two_places, four, clock_text, zone_text, calendar_form, date_text, from_date_text, short_date_text};

use crate::Moment;
use crate::names::{day_name, month_name};
use jiff_core::civil::{Date, DateTime, Time};
use mail_text::{Memory, Text};
use std::alloc::Global;

// The decimal digit.
fn digit(n: u8) -> u8
    requires { n < 10 }
    ensures { result ≡ 48 + n }
{
    b'0' + n
}

fn two_digits(n: u8) -> [u8; 2]
    requires { n < 100 }
    ensures { result ≡ two n }
{
    [digit(n / 10), digit(n % 10)]
}

fn two_places(n: u8) -> [u8; 2]
    requires { n < 100 }
    ensures { result ≡ two_places n }
{
    if n < 10 {
        [b' ', digit(n)]
    } else {
        two_digits(n)
    }
}

fn four_digits(n: u16) -> [u8; 4]
    requires { n < 10_000 }
    ensures { result ≡ four n }
{
    let [thousands, hundreds] = two_digits((n / 100) as u8);
    let [tens, ones] = two_digits((n % 100) as u8);
    [thousands, hundreds, tens, ones]
}

fn clock(time: Time) -> [u8; 8]
    ensures { result ≡ clock_text (time_seconds time) }
{
    let [h1, h2] = two_digits(time.hour);
    let [m1, m2] = two_digits(time.minute);
    let [s1, s2] = two_digits(time.second);
    [h1, h2, b':', m1, m2, b':', s1, s2]
}

fn zone(minutes: i32) -> [u8; 5]
    requires { IsWithin 1559 minutes }
    ensures { result ≡ zone_text minutes }
{
    let sign = if minutes < 0 { b'-' } else { b'+' };
    let total = minutes.unsigned_abs();
    let [h1, h2] = two_digits((total / 60) as u8);
    let [m1, m2] = two_digits((total % 60) as u8);
    [sign, h1, h2, m1, m2]
}

// The offset in whole minutes, its seconds cut toward zero.
fn whole_minutes(offset: i32) -> i32
    requires { IsWithin 93_599 offset }
    ensures value { result ≡ int_div offset (pos 60) }
    ensures bound { IsWithin 1559 result }
{
    offset / 60
}

// The year of a date that isn't before the year 0.
fn year_of(date: Date) -> u16
    requires { pos 0 ≤ℤ date.year }
    ensures value { result ≡ unsigned_abs date.year }
    ensures bound { result < 10_000 }
{
    date.year.unsigned_abs()
}

// What a clock shows that many seconds after it showed 1970-01-01 00:00:00.
fn civil(seconds: i64) -> DateTime
    requires { IsBetween (neg_ℤ (pos 62_167_219_200)) (pos 253_402_300_799) seconds }
    ensures day { epoch_day result.date ≡ day_number seconds }
    ensures time { time_seconds result.time ≡ second_of_day seconds }
    ensures year { pos 0 ≤ℤ result.date.year }
{
    DateTime::from_nanosecond_in_range(i128::from(seconds) * 1_000_000_000)
}

// What a clock at the moment's offset shows, in whole minutes of the offset.
fn shown(m: Moment) -> DateTime
    requires { IsPrintable m }
    ensures day { epoch_day result.date ≡ day_number (clock_seconds m) }
    ensures time { time_seconds result.time ≡ second_of_day (clock_seconds m) }
    ensures year { pos 0 ≤ℤ result.date.year }
{
    let offset = i64::from(whole_minutes(m.offset)) * 60;
    civil(m.seconds + offset)
}

// `Wed, 03 Jan 2024`.
fn calendar_text(alloc: Global, date: Date) -> Result<Text, Memory>
    requires { pos 0 ≤ℤ date.year }
    ensures { IfOk result
        (λ t. t ≡ calendar_form (weekday_of date) date.day date.month (unsigned_abs date.year)) }
{
    let mut text = Text::new(alloc);
    text.push(&day_name(date.weekday().index()))?;
    text.push(b", ")?;
    text.push(&two_digits(date.day))?;
    text.push(b" ")?;
    text.push(&month_name(date.month))?;
    text.push(b" ")?;
    text.push(&four_digits(year_of(date)))?;
    Ok(text)
}

/// The moment as a `Date` field has it, `Wed, 03 Jan 2024 00:00:00 +0000` (RFC 5322, section 3.3): the
/// time that a clock at the moment's offset shows, and the offset in whole minutes, its seconds cut
/// toward zero.
pub fn print_date(alloc: Global, m: Moment) -> Result<Text, Memory>
    requires { IsPrintable m }
    ensures { IfOk result (λ t. t ≡ date_text m) }
{
    let shown = shown(m);
    let mut text = calendar_text(alloc, shown.date)?;
    text.push(b" ")?;
    text.push(&clock(shown.time))?;
    text.push(b" ")?;
    text.push(&zone(whole_minutes(m.offset)))?;
    Ok(text)
}

/// The moment as a From line has it, `Wed Jan  3 00:00:00 2024`: the time that a clock at the moment's
/// offset shows, the offset in whole minutes, its seconds cut toward zero.
pub fn print_from_date(alloc: Global, m: Moment) -> Result<Text, Memory>
    requires { IsPrintable m }
    ensures { IfOk result (λ t. t ≡ from_date_text m) }
{
    let shown = shown(m);
    let date = shown.date;
    let mut text = Text::new(alloc);
    text.push(&day_name(date.weekday().index()))?;
    text.push(b" ")?;
    text.push(&month_name(date.month))?;
    text.push(b" ")?;
    text.push(&two_places(date.day))?;
    text.push(b" ")?;
    text.push(&clock(shown.time))?;
    text.push(b" ")?;
    text.push(&four_digits(year_of(date)))?;
    Ok(text)
}

/// The moment as a list of messages has it, `Wed Jan  3 00:00`: the time that a clock at the moment's offset
/// shows.
pub fn print_short_date(alloc: Global, m: Moment) -> Result<Text, Memory>
    requires { IsInYears m }
    ensures { IfOk result (λ t. t ≡ short_date_text m) }
{
    let shown = civil(m.seconds + i64::from(m.offset));
    let date = shown.date;
    let mut text = Text::new(alloc);
    text.push(&day_name(date.weekday().index()))?;
    text.push(b" ")?;
    text.push(&month_name(date.month))?;
    text.push(b" ")?;
    text.push(&two_places(date.day))?;
    text.push(b" ")?;
    text.push(&clock(shown.time)[..5])?;
    Ok(text)
}
