// What is said of the recovery at the start of a run.
ghost use Rattle.std.specs.Prelude.{◌≡◌, ◌++◌, Some, IfOk};
ghost use Rattle.mail_text.specs.Lines.{with_feed};
ghost use Rattle.mail_dates.specs.Clock.{IsPrintable};
ghost use Rattle.mailx_top.specs.RecoveryLines.{heard_recovery, in_utc, of_moment, recovery_line};

use command_desk::line_of;
use command_words::Options;
use folder_recovery::Recovered;
use mail_dates::{Moment, moment_at, print_from_date, utc};
use mail_text::{Memory, Text};
use std::alloc::Global;

// The moment at a second since 1970, for clocks that show UTC.
fn in_utc(seconds: i64) -> Moment
    ensures value { result ≡ in_utc seconds }
    ensures range { IsPrintable result }
{
    moment_at(&utc(), seconds)
}

// ` of ` and the moment of a record, if it has one.
fn of_moment(alloc: Global, moment: Option<i64>) -> Result<Text, Memory>
    ensures { IfOk result (λ text. text ≡ of_moment moment) }
{
    match moment {
        Some(seconds) => {
            let date = print_from_date(alloc, in_utc(seconds))?;
            let mut text = Text::copy(alloc, b" of ")?;
            text.push(date.bytes())?;
            Ok(text)
        }
        None => Ok(Text::new(alloc)),
    }
}

// A line of what was done to a commit, whose record has this moment.
fn line_with(alloc: Global, done: &[u8], moment: Option<i64>) -> Result<Option<Text>, Memory>
    ensures { IfOk result (λ line. line ≡ Some (with_feed (done.now ++ of_moment moment))) }
{
    let of = of_moment(alloc, moment)?;
    let line = line_of(alloc, done, of.bytes())?;
    Ok(Some(line))
}

// The line that says what a recovery did; none if no record stood.
fn recovery_line(alloc: Global, found: Recovered) -> Result<Option<Text>, Memory>
    ensures { IfOk result (λ line. line ≡ recovery_line found) }
{
    match found {
        Recovered::Nothing => Ok(None),
        Recovered::RolledBack { moment } => line_with(alloc, b"rolled back commit", moment),
        Recovered::Finished { moment } => line_with(alloc, b"finished commit", moment),
    }
}

/// The line that is printed of a recovery, if any is: with `-e` none is.
pub(crate) fn heard_recovery(
    alloc: Global,
    options: &Options,
    found: Recovered,
) -> Result<Option<Text>, Memory>
    ensures { IfOk result (λ line. line ≡ heard_recovery options.now.exists found) }
{
    if options.exists {
        Ok(None)
    } else {
        recovery_line(alloc, found)
    }
}
