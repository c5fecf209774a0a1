ghost use Rattle.std.specs.Prelude.{◌≡◌, IfSome};
ghost use Rattle.mail_dates.specs.Clock.{IsDayInYears};
ghost use Rattle.mail_search.specs.Days.{has_dashes, day_written};

use mail_dates::written_date;

/// The day number, 0 for 1 January 1970, of `day-month-year`, as `2-Jan-2024`: a day of one or two digits, a month by
/// three letters in either case, a year of four digits. None if the text isn't written so, or the calendar has no such
/// day in the years 1 to 9999.
pub(crate) fn day_written(text: &[u8]) -> Option<i32>
    ensures value { result ≡ day_written text.now }
    ensures bound { IfSome result IsDayInYears }
{
    let (day, end) = text.split_at(text.len().saturating_sub(9));
    if !has_dashes(end) {
        return None;
    }
    let (_, year) = end.split_at(5);
    written_date(year, &end[1..4], day)
}

// Whether they are nine bytes, with a dash before a month and one before a year.
fn has_dashes(end: &[u8]) -> bool
    ensures { result ≡ has_dashes end.now }
{
    end.len() == 9 && end[0] == b'-' && end[4] == b'-'
}
