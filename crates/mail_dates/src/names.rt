ghost use Rattle.std.specs.Prelude.{◌≡◌, ◌<◌, ◌≤◌};
ghost use Rattle.mail_dates.specs.Names.{day_name, month_name};

pub const DAY_NAMES: [[u8; 3]; 7] = [
    [b'M', b'o', b'n'],
    [b'T', b'u', b'e'],
    [b'W', b'e', b'd'],
    [b'T', b'h', b'u'],
    [b'F', b'r', b'i'],
    [b'S', b'a', b't'],
    [b'S', b'u', b'n'],
];

pub const MONTH_NAMES: [[u8; 3]; 12] = [
    [b'J', b'a', b'n'],
    [b'F', b'e', b'b'],
    [b'M', b'a', b'r'],
    [b'A', b'p', b'r'],
    [b'M', b'a', b'y'],
    [b'J', b'u', b'n'],
    [b'J', b'u', b'l'],
    [b'A', b'u', b'g'],
    [b'S', b'e', b'p'],
    [b'O', b'c', b't'],
    [b'N', b'o', b'v'],
    [b'D', b'e', b'c'],
];

/// The name of a day of the week, from 0 for Monday.
pub fn day_name(weekday: u8) -> [u8; 3]
    requires { weekday < 7 }
    ensures { result ≡ day_name weekday }
{
    DAY_NAMES[usize::from(weekday)]
}

/// The name of a month, from 1 for January.
pub fn month_name(month: u8) -> [u8; 3]
    requires low { 1 ≤ month }
    requires high { month ≤ 12 }
    ensures { result ≡ month_name month }
{
    MONTH_NAMES[usize::from(month - 1)]
}
