// Cases of moments and zones.
use crate::case::{field, signed, words};
use case_blocks::Answer;
use mail_dates::{
    Moment, ZoneError, moment_at, print_date, print_from_date, print_short_date, read_date,
    read_from_line, utc, zone_of,
};
use mail_text::{Memory, Text};

pub fn put(case: &[Text], out: &mut Answer) {
    match words(case, 1) {
        "print" => put_printed(case, out),
        "short" => put_short(field(case, 2), out),
        "seconds" => put_at(case, false, out),
        "offset" => put_at(case, true, out),
        "utc" => match signed(case, 2) {
            Some(seconds) => out.put_shown(&moment_at(&utc(), seconds).offset),
            None => out.put_bad(),
        },
        "memory" => out.put_shown(&ZoneError::from(Memory)),
        "read" => put_moment(read_date(field(case, 2)), out),
        "from line" => put_from_line(field(case, 2), out),
        _ => out.put_bad(),
    }
}

/// Seconds and offset of a moment.
pub fn put_moment(moment: Option<Moment>, out: &mut Answer) {
    match moment {
        Some(moment) => {
            out.put_shown(&moment.seconds);
            out.put(b" ");
            out.put_shown(&moment.offset);
        }
        None => out.put(b"none"),
    }
}

// The moment of these seconds and this offset, if it can be printed.
fn moment_of(case: &[Text]) -> Option<Moment> {
    let seconds = signed(case, 2)?;
    let offset = i32::try_from(signed(case, 3)?).ok()?;
    Some(Moment { seconds, offset })
}

// A moment as a field has it and as a From line has it.
fn put_printed(case: &[Text], out: &mut Answer) {
    let Some(moment) = moment_of(case) else {
        return out.put_bad();
    };
    if moment.seconds < 86_400 || moment.seconds > 253_402_128_000 {
        return out.put_bad();
    }
    if moment.offset < -93_599 || moment.offset > 93_599 {
        return out.put_bad();
    }
    out.put_made(print_date(out.alloc(), moment));
    out.put(b";");
    out.put_made(print_from_date(out.alloc(), moment));
}

// The short form of the moment that a value reads as.
fn put_short(value: &[u8], out: &mut Answer) {
    match read_date(value) {
        Some(moment) => out.put_made(print_short_date(out.alloc(), moment)),
        None => out.put_bad(),
    }
}

// The seconds, or the offset, of a moment in a zone; or why there is no such zone.
fn put_at(case: &[Text], offset: bool, out: &mut Answer) {
    match zone_of(out.alloc(), field(case, 2)) {
        Ok(zone) => {
            let moment = moment_at(&zone, signed(case, 3).unwrap_or(0));
            out.put_shown(&if offset {
                i64::from(moment.offset)
            } else {
                moment.seconds
            });
        }
        Err(error) => out.put_error(error),
    }
}

// The sender and the moment of a From line.
fn put_from_line(line: &[u8], out: &mut Answer) {
    let from = read_from_line(line);
    out.put_in_angles(from.sender);
    out.put(b" ");
    put_moment(from.moment, out);
}
