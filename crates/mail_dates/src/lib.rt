//! Moments of messages: dates of header fields and of From lines, read and printed, and zones by POSIX
//! rules.
#![tactic(auto)]

mod date_field;
mod from_line;
mod law;
mod message;
mod moment;
mod names;
mod parts;
mod plain_date;
mod print;
mod values;
mod zone;

pub use date_field::{read_date, written_date};
pub use from_line::{FromLine, read_from_line};
pub use law::{
    day_has_date, printed_date_reads, printed_dates_are_plain, printed_from_date_reads,
    short_date_is_plain,
};
pub use message::{after_from, moment_of};
pub use moment::{Moment, day_of};
pub use print::{print_date, print_from_date, print_short_date};
pub use zone::{Zone, ZoneError, moment_at, utc, zone_of};
