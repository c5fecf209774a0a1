//! Laws of the definitions. Each function does nothing: its contract is the law.
ghost use Rattle.jiff_core.specs.Calendar.{IsWithin};
ghost use Rattle.mail_dates.specs.Clock.{IsDayInYears, IsInYears, IsPrintable};
ghost use Rattle.mail_dates.specs.Laws.{HasDate, IsPlainDate, IsPlainFromDate, IsPlainShortDate, IsWord, ReadsBack, ArrivalReadsBack};

use crate::Moment;

/// The year, month and day that the printed forms show are the date that has that day number.
pub fn day_has_date(day: i32)
    requires { IsDayInYears day }
    ensures { HasDate day }
{}

/// The text that `print_date` gives reads as the moment, its offset in whole minutes. A date that reads has
/// an offset below 24 hours, so the moment's has to be.
pub fn printed_date_reads(m: Moment)
    requires range { IsPrintable m }
    requires day { IsWithin 86_399 m.offset }
    ensures { ReadsBack m }
{}

/// A sender, a space and the text that `print_from_date` gives read as the sender and the moment at which
/// a clock in UTC shows that text.
pub fn printed_from_date_reads(sender: &[u8], m: Moment)
    requires sender { IsWord sender.now }
    requires range { IsPrintable m }
    ensures { ArrivalReadsBack sender.now m }
{}

/// The printed forms are 31 and 24 bytes of printable ASCII, so each stands in one line.
pub fn printed_dates_are_plain(m: Moment)
    requires { IsPrintable m }
    ensures date { IsPlainDate m }
    ensures from_date { IsPlainFromDate m }
{}

/// The short form is 16 bytes of printable ASCII.
pub fn short_date_is_plain(m: Moment)
    requires { IsInYears m }
    ensures { IsPlainShortDate m }
{}
