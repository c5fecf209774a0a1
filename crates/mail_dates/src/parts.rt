//! The parts of a date's text. Each `read_` function reads the part at the front of a text, and gives it
//! with the text after it.
ghost use Rattle.std.specs.Prelude.{◌≡◌, ◌==◌, ◌||◌, ◌≤◌, ◌↔◌, [], ◌∷◌, length, IsTrue, MatchOption, IfSome};
ghost use Rattle.std.specs.Char.{is_ascii_digit, is_ascii_alphabetic};
ghost use Rattle.std.specs.List.{prefix_len};
ghost use Rattle.mail_dates.specs.Parts.{Outside, Inside, Other, without_comments, date_parts};
ghost use Rattle.mail_dates.specs.Reading.{IsAtPart, number_first, word_first, signed_first, comma_first, colon_first, part_view, signed_view, rest_view};

/// The first byte of a text, and the text after it.
pub fn first_byte(text: &[u8]) -> Option<(u8, &[u8])>
    ensures { MatchOption result (text.now ≡ []) (λ p. text.now ≡ p.0 ∷ p.1.now) }
{
    match text {
        [b, rest @ ..] => Some((*b, rest)),
        [] => None,
    }
}

// The text after a comment, from after the parenthesis that opens it.
#[tactic(auto, unfolding(crate::specs::Parts::without_comments))]
fn after_comment(text: &[u8]) -> Option<&[u8]>
    ensures comment { MatchOption result (without_comments (Inside 0) text.now ≡ 40 ∷ [])
        (λ rest. without_comments (Inside 0) text.now ≡ without_comments Outside rest.now) }
    ensures shorter { IfSome result (λ rest. length rest.now ≤ length text.now) }
{
    let mut depth = 0_usize;
    let mut rest = text;
    while let Some((b, tail)) = first_byte(rest) {
        rest = tail;
        match b {
            b'\\' => {
                let (_, tail) = first_byte(rest)?;
                rest = tail;
            }
            b'(' => depth += 1,
            b')' => {
                if depth == 0 {
                    return Some(rest);
                }
                depth -= 1;
            }
            _ => {}
        }
    }
    None
}

// The text from its first part on, after blanks and comments; none if a comment isn't closed.
fn at_part(text: &[u8]) -> Option<&[u8]>
    ensures { MatchOption result (date_parts text.now ≡ Other 40 ∷ [])
        (λ rest. (date_parts text.now ≡ date_parts rest.now) × IsAtPart rest.now) }
{
    let mut rest = text;
    while let Some((b, tail)) = first_byte(rest) {
        match b {
            b' ' | b'\t' => rest = tail,
            b'(' => rest = after_comment(tail)?,
            _ => return Some(rest),
        }
    }
    Some(rest)
}

fn digits_len(text: &[u8]) -> usize
    ensures value { result ≡ prefix_len is_ascii_digit text.now }
    ensures within { result ≤ length text.now }
{
    for (i, b) in text.iter().enumerate() {
        if !b.is_ascii_digit() {
            return i;
        }
    }
    text.len()
}

fn letters_len(text: &[u8]) -> usize
    ensures value { result ≡ prefix_len is_ascii_alphabetic text.now }
    ensures within { result ≤ length text.now }
{
    for (i, b) in text.iter().enumerate() {
        if !b.is_ascii_alphabetic() {
            return i;
        }
    }
    text.len()
}

/// Whether the byte is `+` or `-`.
pub fn is_sign(b: u8) -> bool
    ensures { result ≡ ((b == 43) || (b == 45)) }
{
    b == b'+' || b == b'-'
}

/// A number, and the text after it.
pub fn read_number(text: &[u8]) -> Option<(&[u8], &[u8])>
    ensures { part_view result ≡ number_first (date_parts text.now) }
{
    let text = at_part(text)?;
    let count = digits_len(text);
    if count == 0 {
        return None;
    }
    Some(text.split_at(count))
}

/// A word, and the text after it.
pub fn read_word(text: &[u8]) -> Option<(&[u8], &[u8])>
    ensures { part_view result ≡ word_first (date_parts text.now) }
{
    let text = at_part(text)?;
    let count = letters_len(text);
    if count == 0 {
        return None;
    }
    Some(text.split_at(count))
}

/// A sign, the digits that follow it at once, and the text after them.
pub fn read_signed(text: &[u8]) -> Option<(u8, &[u8], &[u8])>
    ensures { signed_view result ≡ signed_first (date_parts text.now) }
{
    let text = at_part(text)?;
    let (sign, tail) = first_byte(text)?;
    if !is_sign(sign) {
        return None;
    }
    let count = digits_len(tail);
    if count == 0 {
        return None;
    }
    let (digits, rest) = tail.split_at(count);
    Some((sign, digits, rest))
}

/// The text after a comma.
pub fn read_comma(text: &[u8]) -> Option<&[u8]>
    ensures { rest_view result ≡ comma_first (date_parts text.now) }
{
    let (b, rest) = first_byte(at_part(text)?)?;
    if b != b',' {
        return None;
    }
    Some(rest)
}

/// The text after a colon.
pub fn read_colon(text: &[u8]) -> Option<&[u8]>
    ensures { rest_view result ≡ colon_first (date_parts text.now) }
{
    let (b, rest) = first_byte(at_part(text)?)?;
    if b != b':' {
        return None;
    }
    Some(rest)
}

/// Whether no part is left.
pub fn is_at_end(text: &[u8]) -> bool
    ensures { IsTrue result ↔ (date_parts text.now ≡ []) }
{
    match at_part(text) {
        Some(rest) => rest.is_empty(),
        None => false,
    }
}
