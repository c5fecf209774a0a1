// Cases of byte texts, lists of values and numbers.
ghost use Rattle.std.specs.Prelude.{◌≡◌, ◌<◌, ◌++◌, [], ◌∷◌, length, slice_set, OnOk, OnErr};

use crate::case::{field, number, numbers, place, words};
use case_blocks::Answer;
use mail_text::{Items, Memory, Reserved, Text, is_blank, lines, read_number, same_ascii};

pub fn put(case: &[Text], out: &mut Answer) {
    let text = field(case, 2);
    match words(case, 1) {
        "lines" => put_lines(text, out),
        "number" => out.put_found(read_number(text)),
        "same" => out.put_flag(same_ascii(text, field(case, 3))),
        "new" => out.put_in_angles(Text::new(out.alloc()).bytes()),
        "memory" => out.put_shown(&Memory),
        "blanks" => put_blanks(text, out),
        _ => {
            let done = put_made(case, out);
            out.note(done);
        }
    }
}

fn put_made(case: &[Text], out: &mut Answer) -> Result<(), Memory> {
    match words(case, 1) {
        "grown" => put_grown(field(case, 2), field(case, 3), out),
        "of" => put_of(field(case, 2), out),
        "items" => put_items(case, out),
        "reserved" => put_reserved(case, out),
        _ => {
            out.put_bad();
            Ok(())
        }
    }
}

// Each line of a text.
fn put_lines(text: &[u8], out: &mut Answer) {
    for line in lines(text) {
        out.put_in_angles(line);
    }
}

// A copy of bytes, others pushed to it, as bytes and as it is displayed.
fn put_grown(first: &[u8], more: &[u8], out: &mut Answer) -> Result<(), Memory> {
    let mut text = Text::copy(out.alloc(), first)?;
    text.push(more)?;
    out.put_in_angles(text.bytes());
    out.put_shown(&text);
    out.put_debug(&text);
    Ok(())
}

// The text of a vector.
fn put_of(bytes: &[u8], out: &mut Answer) -> Result<(), Memory> {
    let text = Text::of(bytes.to_vec(out.alloc())?);
    out.put_in_angles(text.bytes());
    Ok(())
}

// Puts a value into each of two lists, or into none.
fn put_both(first: &mut Items<u32>, second: &mut Items<u32>, x: u32) -> Result<(), Memory>
    ensures first { OnOk result (first.new ≡ first.old ++ x ∷ []) }
    ensures second { OnOk result (second.new ≡ second.old ++ x ∷ []) }
    ensures err { OnErr result ((first.new ≡ first.old) × (second.new ≡ second.old)) }
{
    let first = first.reserved();
    let second = second.reserved();
    first.reserve()?;
    second.reserve()?;
    first.put(x);
    second.put(x);
    Ok(())
}

// Sets the value at a place.
fn set_at(list: &mut Items<u32>, k: usize, x: u32)
    requires { k < length list.old }
    ensures { list.new ≡ slice_set list.old k x }
{
    *list.get_mut(k) = x;
}

// A list of numbers with one pushed, one put into it and into another, and one set; after each step.
fn put_items(case: &[Text], out: &mut Answer) -> Result<(), Memory> {
    let mut list = Items::of(numbers(words(case, 2), out).into_vec());
    list.push(number(case, 3))?;
    put_in_both(&mut list, number(case, 4), out)?;
    let k = place(case, 5);
    if k < list.items().len() {
        set_at(&mut list, k, number(case, 6));
    }
    out.put_numbers(list.into_vec().as_slice());
    Ok(())
}

// Puts a number into a list and into a new one, and puts both.
fn put_in_both(list: &mut Items<u32>, x: u32, out: &mut Answer) -> Result<(), Memory> {
    let mut other = Items::new(out.alloc());
    put_both(list, &mut other, x)?;
    out.put_numbers(list.items());
    out.put(b";");
    out.put_numbers(other.items());
    out.put(b";");
    out.put_numbers(list.reserved().items());
    out.put(b";");
    Ok(())
}

// A list with room, one number pushed to it, and a list of none.
fn put_reserved(case: &[Text], out: &mut Answer) -> Result<(), Memory> {
    let mut list = Reserved::of(numbers(words(case, 2), out).into_vec());
    list.push(number(case, 3))?;
    out.put_numbers(list.into_vec().as_slice());
    let none: Reserved<u32> = Reserved::new(out.alloc());
    out.put(b";");
    out.put_numbers(none.items());
    Ok(())
}

// For each byte whether it is a blank.
fn put_blanks(text: &[u8], out: &mut Answer) {
    for byte in text.iter().copied() {
        out.put_flag(is_blank(byte));
        out.put(b" ");
    }
}
