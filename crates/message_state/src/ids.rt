ghost use Rattle.std.specs.Prelude.{◌≡◌, ◌<◌, ◌≤◌, ◌++◌, [], length, drop, slice_index, IfOk, OnOk};
ghost use Rattle.std.specs.Option.{option_copied};
ghost use Rattle.message_state.specs.Ids.{is_inside, inside_length, id_behind, id_first, ids_of, first_id};

use mail_text::{Items, Memory, Text};
use memchr::memchr;
use std::alloc::Global;

// The ids of a value in order: the parts from a `<` to the next `>` with no blank and no `<` between them.
pub(crate) fn ids_of(alloc: Global, value: &[u8]) -> Result<Items<Text>, Memory>
    ensures { IfOk result (λ ids. ids ≡ ids_of value.now) }
{
    let mut ids = Items::new(alloc);
    let mut rest = value;
    while let Some(at) = memchr(b'<', rest) {
        let (_, tail) = rest.split_at(at);
        let (id, after) = cut_id(tail);
        push_id(alloc, id, &mut ids)?;
        rest = after;
    }
    Ok(ids)
}

// Puts the id at the end, if there is one.
fn push_id(alloc: Global, id: Option<&[u8]>, ids: &mut Items<Text>) -> Result<(), Memory>
    ensures { OnOk result (ids.new ≡ ids.old ++ id_first (option_copied id.entry) []) }
{
    if let Some(id) = id {
        ids.push(Text::copy(alloc, id)?)?;
    }
    Ok(())
}

// The first id of a value, or nothing.
pub(crate) fn first_id(value: &[u8]) -> &[u8]
    ensures { result.now ≡ first_id (ids_of value.now) }
{
    let mut rest = value;
    while let Some(at) = memchr(b'<', rest) {
        let (_, tail) = rest.split_at(at);
        let (id, after) = cut_id(tail);
        if let Some(id) = id {
            return id;
        }
        rest = after;
    }
    &[]
}

// The id that the text begins with, if it begins one, and what follows the bytes that may stand inside of it.
fn cut_id(tail: &[u8]) -> (Option<&[u8]>, &[u8])
    requires begins { slice_index tail.now 0 ≡ 60 }
    requires some { 0 < length tail.now }
    ensures id { option_copied result.0 ≡ id_behind (drop 1 tail.now) }
    ensures after { result.1.now ≡ drop (inside_length (drop 1 tail.now)) (drop 1 tail.now) }
{
    let (_, inside) = tail.split_at(1);
    let end = inside_length(inside);
    let (_, after) = inside.split_at(end);
    if after.first() == Some(&b'>') {
        let (id, _) = tail.split_at(end + 2);
        (Some(id), after)
    } else {
        (None, after)
    }
}

// How many bytes stand in front that may stand inside an id.
fn inside_length(bytes: &[u8]) -> usize
    ensures value { result ≡ inside_length bytes.now }
    ensures within { result ≤ length bytes.now }
{
    bytes
        .iter()
        .position(|byte| !is_inside(*byte))
        .unwrap_or(bytes.len())
}

// Neither a blank nor an angle bracket.
fn is_inside(byte: u8) -> bool
    ensures { result ≡ is_inside byte }
{
    byte != b' ' && byte != b'\t' && byte != b'<' && byte != b'>'
}
