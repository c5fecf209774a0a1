ghost use Rattle.std.specs.Prelude.{◌≡◌, drop, IfOk, IfSome};
ghost use Rattle.std.specs.Option.{option_or};
ghost use Rattle.mail_dates.specs.Clock.{IsInYears};
ghost use Rattle.mail_dates.specs.FromLines.{arrival_of};
ghost use Rattle.mail_dates.specs.Messages.{date_in};

use crate::{Moment, read_date, read_from_line};
use mail_headers::{FieldRef, unfold_value};
use mail_text::Memory;
use std::alloc::Global;

/// The From line without the `From ` in front. It takes no memory.
pub fn after_from(line: &[u8]) -> &[u8]
    ensures { result.now ≡ drop 5 line.now }
{
    if line.len() < 5 {
        let (_, rest) = line.split_at(line.len());
        rest
    } else {
        let (_, rest) = line.split_at(5);
        rest
    }
}

/// The moment of a message whose first field `Date` and whose From line, after `From `, are these: the date of the field
/// if it reads, else when the message came. The From line is read only then. Fails only if memory runs out.
pub fn moment_of(
    alloc: Global,
    date: Option<FieldRef<'_>>,
    line: &[u8],
) -> Result<Option<Moment>, Memory>
    ensures moment { IfOk result (λ moment. moment ≡ option_or (date_in date.entry) (arrival_of line.now)) }
    ensures years { IfOk result (λ moment. IfSome moment IsInYears) }
{
    let written = match date {
        Some(field) => {
            let value = unfold_value(alloc, field)?;
            read_date(value.bytes())
        }
        None => None,
    };
    match written {
        Some(moment) => Ok(Some(moment)),
        None => Ok(read_from_line(line).moment),
    }
}
