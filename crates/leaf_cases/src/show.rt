// Cases of what is shown of messages: summaries, each over the messages that are kept, names of fields, and texts.
ghost use Rattle.std.specs.Prelude.{◌≡◌, ◌≤◌, ℕ, true, All, length};
ghost use Rattle.message_state.specs.ShownRows.{IsShown};

use crate::case::{field, number, numbers, parts, place, words};
use crate::mailboxes::folder_of;
use crate::view::shown_of;
use case_blocks::Answer;
use mail_text::{Memory, Text, lines};
use mbox_scan::{Folder, MessageRef};
use message_show::{
    FieldSets, How, page, page_with_current, shown_text, summary_line, summary_lines, top,
};
use message_state::Shown;

pub fn put(messages: &[Text], case: &[Text], out: &mut Answer) {
    match words(case, 1) {
        "told" => put_told(case, true, out),
        "keeps" => put_told(case, false, out),
        "text" => put_folder(case, out),
        _ => put_in_view(messages, case, out),
    }
}

// A case over a view: the pairs of places that turn it, its depths, its current message, the width, and what the kind
// takes.
fn put_in_view(messages: &[Text], case: &[Text], out: &mut Answer) {
    let turns = numbers(words(case, 2), out);
    let depths = numbers(words(case, 3), out);
    match shown_of(
        messages,
        turns.items(),
        depths.items(),
        number(case, 4),
        out,
    ) {
        Ok(Some(shown)) => {
            put_of(&shown, place(case, 5), case, out);
            drop(shown);
        }
        Ok(None) => out.put_bad(),
        Err(Memory) => out.lack(),
    }
}

fn put_of(shown: &Shown, width: usize, case: &[Text], out: &mut Answer)
    requires { IsShown shown.now }
{
    if width < 2 {
        return out.put_bad();
    }
    let (start, count) = (place(case, 6), place(case, 7));
    match words(case, 1) {
        "line" => put_line(shown, number(case, 6), width, out),
        "lines" => {
            let numbers = numbers(words(case, 6), out);
            put_lines(shown, numbers.items(), width, out);
        }
        "page" => out.put_made(page(out.alloc(), shown, start, count, width)),
        "page as" => {
            let current = number(case, 8);
            out.put_made(page_with_current(out.alloc(), shown, current, start, count, width));
        }
        _ => out.put_bad(),
    }
}

// The summary line of a message.
fn put_line(shown: &Shown, k: u32, width: usize, out: &mut Answer)
    requires valid { IsShown shown.now }
    requires width { 2 ≤ width }
{
    if k == 0 || k as usize > shown.rows.items().len() {
        return out.put_bad();
    }
    out.put_made(summary_line(out.alloc(), shown, k, width));
}

// The summary lines of messages.
fn put_lines(shown: &Shown, numbers: &[u32], width: usize, out: &mut Answer)
    requires valid { IsShown shown.now }
    requires width { 2 ≤ width }
{
    if !are_messages(numbers, shown.rows.items().len()) {
        return out.put_bad();
    }
    out.put_made(summary_lines(out.alloc(), shown, numbers, width));
}

// Whether all of these are numbers of messages.
fn are_messages(numbers: &[u32], count: usize) -> bool
    ensures { result ≡ true → All (λ k. (1 ≤ k) × (k ≤ count)) numbers.now }
{
    numbers.iter().all(|k| 1 <= *k && *k as usize <= count)
}

// Ignores the fields of these names, or retains them.
fn name_fields(sets: &mut FieldSets, names: &str, retained: bool, out: &mut Answer) {
    let names = parts(names, '\n', out);
    out.note(if retained {
        sets.retain(names.items())
    } else {
        sets.ignore(names.items())
    });
}

// Names, each ended by a line feed, and a dot.
fn put_names(out: &mut Answer, names: &[Text]) {
    out.put_texts(b"", names, b"\n");
    out.put(b".");
}

// The ignored and the retained names, if they are asked for; and for each name of the last field whether its fields
// are kept. Names are ignored in two calls.
fn put_told(case: &[Text], names: bool, out: &mut Answer) {
    let mut sets = FieldSets::new(out.alloc());
    name_fields(&mut sets, words(case, 2), false, out);
    name_fields(&mut sets, words(case, 3), false, out);
    name_fields(&mut sets, words(case, 4), true, out);
    if names {
        put_names(out, sets.ignored());
        put_names(out, sets.retained());
    }
    for name in lines(field(case, 5)) {
        out.put(if sets.keeps(name) { b"+" } else { b"-" });
    }
    drop(sets);
}

// What is shown of each message of a folder, if these names are ignored and these retained.
fn put_folder(case: &[Text], out: &mut Answer) {
    let mut sets = FieldSets::new(out.alloc());
    name_fields(&mut sets, words(case, 3), false, out);
    name_fields(&mut sets, words(case, 4), true, out);
    match folder_of(out.alloc(), field(case, 2)) {
        Ok(folder) => {
            put_each_message(&folder, &sets, out);
            drop(folder);
        }
        Err(_) => out.put_bad(),
    }
    drop(sets);
}

fn put_each_message(folder: &Folder, sets: &FieldSets, out: &mut Answer) {
    for k in 0..folder.count() {
        put_message(&folder.message(k), sets, out);
    }
}

// The shown text of a message, its first four lines and its first none, and its whole text, with a bar after each.
fn put_message(message: &MessageRef<'_>, sets: &FieldSets, out: &mut Answer) {
    out.put_made(shown_text(out.alloc(), message, sets, How::Kept));
    out.put(b"|");
    out.put_made(top(out.alloc(), message, sets, 4));
    out.put_made(top(out.alloc(), message, sets, 0));
    out.put(b"|");
    out.put_made(shown_text(out.alloc(), message, sets, How::All));
    out.put(b"|");
}
