ghost use Rattle.std.specs.Prelude.{◌≡◌, ◌+ℤ◌};
ghost use Rattle.mail_dates.specs.Clock.{IsInYears, day_number};

/// An instant, and the offset of the clock that showed it.
#[derive(Clone, Copy, Debug, PartialEq, Eq)]
pub struct Moment {
    /// Seconds since 1970 in UTC.
    pub seconds: i64,
    /// The offset in seconds to the east.
    pub offset: i32,
}

/// The day number, 0 for 1 January 1970, of the day that a clock at the moment's offset shows.
pub fn day_of(m: Moment) -> i64
    requires { IsInYears m }
    ensures { result ≡ day_number (m.seconds +ℤ m.offset) }
{
    (m.seconds + i64::from(m.offset)).div_euclid(86_400)
}
