// The list of users.
ghost use Rattle.std.specs.Prelude.{◌≡◌, ◌≤◌, length, is_none};
ghost use Rattle.std.specs.List.{prefix_len};
ghost use Rattle.std.specs.Option.{option_copied};
ghost use Rattle.spool_rules.specs.Users.{is_no_colon, front, rest, is_entry_of, entry_of, number_in, has_number, is_callers};

use crate::words::Request;
use mail_text::{lines, read_number};

fn is_no_colon(byte: u8) -> bool
    ensures { result ≡ is_no_colon byte }
{
    byte != b':'
}

// How many bytes stand in front of the first colon.
fn front_length(line: &[u8]) -> usize
    ensures value { result ≡ prefix_len is_no_colon line.now }
    ensures within { result ≤ length line.now }
{
    line.iter()
        .position(|byte| !is_no_colon(*byte))
        .unwrap_or(line.len())
}

fn front(line: &[u8]) -> &[u8]
    ensures { result.now ≡ front line.now }
{
    let (front, _) = line.split_at(front_length(line));
    front
}

fn rest(line: &[u8]) -> &[u8]
    ensures { result.now ≡ rest line.now }
{
    let end = front_length(line);
    if end < line.len() {
        let (_, rest) = line.split_at(end + 1);
        rest
    } else {
        let (_, rest) = line.split_at(end);
        rest
    }
}

fn is_entry_of(name: &[u8], line: &[u8]) -> bool
    ensures { result ≡ is_entry_of name.now line.now }
{
    front(line) == name
}

// The first entry of a name.
fn entry_of<'a>(list: &'a [u8], name: &[u8]) -> Option<&'a [u8]>
    ensures { option_copied result ≡ entry_of list.now name.now }
{
    for line in lines(list) {
        if is_entry_of(name, line) {
            return Some(line);
        }
    }
    None
}

fn has_no_entry(list: &[u8], name: &[u8]) -> bool
    ensures { result ≡ is_none (entry_of list.now name.now) }
{
    entry_of(list, name).is_none()
}

fn number_in(line: &[u8]) -> Option<u64>
    ensures { result ≡ number_in line.now }
{
    read_number(front(rest(rest(line))))
}

fn has_number(number: u32, list: &[u8], name: &[u8]) -> bool
    ensures { result ≡ has_number number (entry_of list.now name.now) }
{
    match entry_of(list, name) {
        Some(line) => match number_in(line) {
            Some(n) => n == u64::from(number),
            None => false,
        },
        None => false,
    }
}

/// Whether a request is about the mailbox of the user of this number, and about no other user's.
pub(crate) fn is_callers(list: &[u8], number: u32, request: &Request) -> bool
    ensures { result ≡ is_callers list.now number request.now }
{
    has_number(number, list, request.mailbox.bytes())
        && has_no_entry(list, request.lock.bytes())
        && has_no_entry(list, request.beside.bytes())
        && has_no_entry(list, request.staged.bytes())
}
