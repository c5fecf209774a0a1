// Bytes in an escaped form.
use mail_text::{Memory, Text};
use std::alloc::Global;

// Where in an escape a byte stands.
#[derive(Clone, Copy)]
enum Place {
    Plain,
    Escaped,
    High,
    Low(u8),
    Count(How, u32),
}

// How a piece is repeated: as it is, or each time with its number at its end.
#[derive(Clone, Copy)]
enum How {
    Same,
    Numbered,
}

// What a byte of the escaped form means.
#[derive(Clone, Copy)]
enum Meant {
    Nothing,
    Byte(u8),
    Times(How, u32),
}

// The value of a digit to the base 16.
fn digit(byte: u8) -> u8 {
    match byte {
        b'0'..=b'9' => byte - b'0',
        b'a'..=b'f' => byte - b'a' + 10,
        _ => 0,
    }
}

// The place after a byte that stands after a backslash, and what the byte means.
fn escaped(byte: u8) -> (Place, Meant) {
    match byte {
        b'n' => (Place::Plain, Meant::Byte(b'\n')),
        b't' => (Place::Plain, Meant::Byte(b'\t')),
        b'e' => (Place::Plain, Meant::Nothing),
        b'x' => (Place::High, Meant::Nothing),
        b'*' => (Place::Count(How::Same, 0), Meant::Nothing),
        b'+' => (Place::Count(How::Numbered, 0), Meant::Nothing),
        _ => (Place::Plain, Meant::Byte(byte)),
    }
}

// The place after a byte, and what the byte means.
fn turn(place: Place, byte: u8) -> (Place, Meant) {
    match place {
        Place::Plain if byte == b'\\' => (Place::Escaped, Meant::Nothing),
        Place::Plain => (Place::Plain, Meant::Byte(byte)),
        Place::Escaped => escaped(byte),
        Place::High => (Place::Low(digit(byte)), Meant::Nothing),
        Place::Low(high) => {
            let whole = high.wrapping_mul(16) | digit(byte);
            (Place::Plain, Meant::Byte(whole))
        }
        Place::Count(how, n) if byte.is_ascii_digit() => {
            let more = n.wrapping_mul(10).wrapping_add(u32::from(digit(byte)));
            (Place::Count(how, more), Meant::Nothing)
        }
        Place::Count(how, n) => (Place::Plain, Meant::Times(how, n)),
    }
}

// Puts a number at the end of a text.
fn push_number(alloc: Global, text: &mut Text, n: u32) -> Result<(), Memory> {
    match format!(in alloc; "{n}") {
        Ok(digits) => text.push(digits.as_bytes()),
        Err(_) => Err(Memory),
    }
}

// Repeats what stands after a place, so that it is there `count` times.
fn repeat(alloc: Global, text: &mut Text, mark: usize, how: How, count: u32) -> Result<(), Memory> {
    let (_, back) = text.bytes().split_at(mark.min(text.bytes().len()));
    let piece = Text::copy(alloc, back)?;
    for k in 1..count {
        if matches!(how, How::Numbered) {
            push_number(alloc, text, k)?;
        }
        text.push(piece.bytes())?;
    }
    match how {
        How::Same => Ok(()),
        How::Numbered => push_number(alloc, text, count),
    }
}

/// Puts the bytes that an escaped text means at the end of a text.
pub fn push_decoded(alloc: Global, text: &mut Text, escaped: &str) -> Result<(), Memory> {
    let mut mark = text.bytes().len();
    let mut last = mark;
    let mut place = Place::Plain;
    for byte in escaped.bytes() {
        let (next, meant) = turn(place, byte);
        place = next;
        match meant {
            Meant::Nothing => {}
            Meant::Byte(byte) => text.push(&[byte])?,
            Meant::Times(how, count) => {
                if mark != text.bytes().len() {
                    last = mark;
                }
                repeat(alloc, text, last, how, count)?;
                mark = text.bytes().len();
            }
        }
    }
    Ok(())
}
