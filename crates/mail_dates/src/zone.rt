ghost use Rattle.std.specs.Prelude.{◌≡◌, ◌↔◌, ℤ, pos, None, Err, IsOk, IfOk, codes};
ghost use Rattle.jiff_tz.specs.Abbreviation.{abbreviation_text};
ghost use Rattle.mail_dates.specs.Clock.{IsPrintable};
ghost use Rattle.mail_dates.specs.Zones.{IsRule, HasRule, zone_offset, within_years};

use crate::Moment;
use jiff_core::{Offset, Timestamp};
use jiff_tz::Abbreviation;
use jiff_tz::posix::TimeZone;
use mail_text::Memory;
use std::alloc::Global;
use thiserror::Error;

/// A time zone by a POSIX rule.
#[derive(Clone, Copy, Debug)]
pub struct Zone {
    /// The rule.
    pub rule: TimeZone,
}

/// Why there is no zone.
#[derive(Clone, Copy, Debug, PartialEq, Eq, Error)]
pub enum ZoneError {
    /// The text is no POSIX rule.
    #[error("not a time zone rule")]
    NotARule,
    /// Memory ran out.
    #[error("out of memory")]
    Memory,
}

impl From<Memory> for ZoneError {
    ghost use Rattle.std.specs.Prelude.{◌≡◌};
    ghost use Rattle.mail_dates.specs.declared.zone.ZoneError.TheVariants.{Memory};

    ghost from_gives = { λ _ e. e ≡ Memory };

    fn from(_: Memory) -> Self {
        ZoneError::Memory
    }
}

/// The zone of a TZ text that is a POSIX rule, such as `CET-1CEST,M3.5.0,M10.5.0/3` (POSIX.1-2017, Base
/// Definitions, 8.3). A text that is none, as a zone's name, is refused. It takes no memory.
pub fn zone_of(_alloc: Global, tz: &[u8]) -> Result<Zone, ZoneError>
    ensures rule { IsOk result ↔ IsRule tz.now }
    ensures zone { IfOk result (HasRule tz.now) }
    ensures refused { (¬ IsRule tz.now) → result ≡ Err ZoneError.NotARule }
{
    match TimeZone::parse(tz) {
        Ok(rule) => Ok(Zone { rule }),
        Err(_) => Err(ZoneError::NotARule),
    }
}

/// The zone whose clocks show UTC, and which goes by that name.
pub fn utc() -> Zone
    ensures offset { (seconds : ℤ) → zone_offset result seconds ≡ pos 0 }
    ensures name { abbreviation_text result.rule.std_abbrev ≡ codes "UTC" }
    ensures summer { result.rule.dst ≡ None }
{
    Zone {
        rule: TimeZone {
            std_abbrev: Abbreviation::utc(),
            std_offset: Offset::UTC,
            dst: None,
        },
    }
}

/// The moment at a second since 1970 in UTC, with the offset that the zone has then. A second before
/// 86,400 or after 253,402,128,000 is replaced by the nearer of the two.
pub fn moment_at(zone: &Zone, seconds: i64) -> Moment
    ensures seconds { result.seconds ≡ within_years seconds }
    ensures offset { result.offset ≡ zone_offset zone.now (within_years seconds) }
    ensures range { IsPrintable result }
{
    let seconds = seconds.clamp(86_400, 253_402_128_000);
    let instant = Timestamp {
        nanosecond: i128::from(seconds) * 1_000_000_000,
    };
    Moment {
        seconds,
        offset: zone.rule.to_offset(instant).seconds,
    }
}
