// The entries of a header, cut one by one from the front of its lines.
ghost use Rattle.std.specs.Prelude.{◌≡◌, ◌+◌, ◌<◌, ◌≤◌, false, ◌∷◌, length, drop, slice_index, Some, None, if◌then◌else◌};
ghost use Rattle.mail_headers.specs.Cutting.{IsLineLength, IsFieldEnd, head_lines, is_over};
ghost use Rattle.mail_headers.specs.Field.{is_name_byte, name_length, begins_field};
ghost use Rattle.mail_text.specs.Ascii.{is_blank};
ghost use Rattle.mail_headers.specs.Header.{entries_from};

use crate::EntryRef;
use mail_text::is_blank;
use memchr::memchr;

fn is_name_byte(byte: u8) -> bool
    ensures { result ≡ is_name_byte byte }
{
    byte.is_ascii_graphic() && byte != b':'
}

// How many bytes the first line has, its line feed aside.
pub(crate) fn line_length(text: &[u8]) -> usize
    ensures { IsLineLength text.now result }
{
    match memchr(b'\n', text) {
        Some(end) => end,
        None => text.len(),
    }
}

// What follows the line that ends at this place.
pub(crate) fn after_line(text: &[u8], end: usize) -> &[u8]
    requires { end ≤ length text.now }
    ensures { result.now ≡ drop (end + 1) text.now }
{
    if end < text.len() {
        let (_, after) = text.split_at(end + 1);
        after
    } else {
        let (_, after) = text.split_at(end);
        after
    }
}

// How many bytes of a name the line has at its front.
fn name_length(line: &[u8]) -> usize
    ensures value { result ≡ name_length line.now }
    ensures within { result ≤ length line.now }
{
    line.iter()
        .position(|byte| !is_name_byte(*byte))
        .unwrap_or(line.len())
}

// Where the colon of a line stands that begins a field.
fn colon_of(line: &[u8]) -> Option<usize>
    ensures { result ≡ (if begins_field line.now then Some (name_length line.now) else None) }
{
    let length = name_length(line);
    if length > 0 && length < line.len() && line[length] == b':' {
        Some(length)
    } else {
        None
    }
}

// Where the field ends whose first line ends at this place: the folded lines after it belong to it.
fn field_end(text: &[u8], first_line_end: usize) -> usize
    requires within { first_line_end ≤ length text.now }
    requires feed { first_line_end < length text.now → slice_index text.now first_line_end ≡ 10 }
    ensures { IsFieldEnd text.now first_line_end result }
{
    let mut end = first_line_end;
    while end + 1 < text.len() && is_blank(text[end + 1]) {
        let (_, after) = text.split_at(end + 1);
        end += 1 + line_length(after);
    }
    end
}

// Whether no line is left, or an empty one comes next.
pub(crate) fn is_over(lines: &[u8]) -> bool
    ensures { result ≡ is_over lines.now }
{
    match lines {
        [] => true,
        [first, ..] => *first == b'\n',
    }
}

// The first entry of the lines up to an empty one, and the lines after it.
pub(crate) fn cut_entry(lines: &[u8]) -> (EntryRef<'_>, &[u8])
    requires { is_over lines.now ≡ false }
    ensures { entries_from false (head_lines lines.now) ≡ result.0 ∷ entries_from false (head_lines result.1.now) }
{
    let end = line_length(lines);
    let (line, _) = lines.split_at(end);
    match colon_of(line) {
        Some(colon) => {
            let last = field_end(lines, end);
            let (field, _) = lines.split_at(last);
            let flat = last == end;
            (
                EntryRef::of_field(field, colon, flat),
                after_line(lines, last),
            )
        }
        None => (EntryRef::of_other(line), after_line(lines, end)),
    }
}
