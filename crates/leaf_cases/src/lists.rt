// Cases of message lists, each over the messages that are kept and with the pairs of places that turn the view. In those
// of criteria the words are cut as those of a line.
ghost use Rattle.message_state.specs.ShownRows.{IsShown};

use crate::case::{field, number, numbers, parts, words};
use crate::composing::folder_bytes;
use crate::states::mark_in;
use crate::view::shown_of;
use case_blocks::Answer;
use line_words::list_words_of;
use mail_text::{Memory, Text};
use mbox_scan::Folder;
use message_list::{
    Purpose, author_local_part, before_at, first_live, in_base, is_live, next_live, place_of,
    previous_live, read_list, select,
};
use message_state::Shown;

pub fn put(messages: &[Text], case: &[Text], out: &mut Answer) {
    match words(case, 1) {
        "local part" => out.put(author_local_part(field(case, 2))),
        "before at" => out.put(before_at(field(case, 2))),
        "is live" => out.put_flag(is_live(mark_in(field(case, 2)))),
        _ => put_in_view(messages, case, out),
    }
}

fn put_in_view(messages: &[Text], case: &[Text], out: &mut Answer) {
    let turns = numbers(words(case, 2), out);
    match shown_of(messages, turns.items(), &[], number(case, 3), out) {
        Ok(Some(shown)) => {
            put_of(&shown, messages, case, out);
            drop(shown);
        }
        Ok(None) => out.put_bad(),
        Err(Memory) => out.lack(),
    }
}

fn put_of(shown: &Shown, messages: &[Text], case: &[Text], out: &mut Answer)
    requires { IsShown shown.now }
{
    let purpose = purpose_of(field(case, 4));
    match words(case, 1) {
        "order" => out.put_numbers(shown.order.items()),
        "first" => out.put_found(first_live(shown)),
        "near" => put_near(shown, number(case, 4), out),
        "in base" => out.put_flag(in_base(shown, purpose, number(case, 5))),
        "select" => {
            let list = parts(words(case, 5), ' ', out);
            put_in_folder(shown, messages, purpose, list.items(), out);
        }
        "criteria" => match list_words_of(out.alloc(), field(case, 5)) {
            Ok(Some(list)) => put_in_folder(shown, messages, purpose, list.items(), out),
            Ok(None) => out.put(b"open quote"),
            Err(Memory) => out.lack(),
        },
        _ => out.put_bad(),
    }
}

fn purpose_of(letter: &[u8]) -> Purpose {
    match letter {
        [b'L', ..] => Purpose::Live,
        [b'D', ..] => Purpose::Dead,
        _ => Purpose::Any,
    }
}

// The place of a message in the view, and the nearest after it and before it that aren't deleted.
fn put_near(shown: &Shown, k: u32, out: &mut Answer)
    requires { IsShown shown.now }
{
    out.put_found(place_of(shown, k));
    out.put(b" ");
    out.put_found(next_live(shown, k));
    out.put(b" ");
    out.put_found(previous_live(shown, k));
}

// What words select in the folder of these messages; in an empty one, if they make no mailbox.
fn put_in_folder(
    shown: &Shown,
    messages: &[Text],
    purpose: Purpose,
    words: &[Text],
    out: &mut Answer,
)
    requires { IsShown shown.now }
{
    let bytes = folder_bytes(messages, out);
    let alloc = out.alloc();
    match Folder::open(alloc, bytes) {
        Ok(folder) => {
            put_selected(shown, &folder, purpose, words, out);
            drop(folder);
        }
        Err(_) => match Folder::open(alloc, Text::new(alloc)) {
            Ok(folder) => {
                put_selected(shown, &folder, purpose, words, out);
                drop(folder);
            }
            Err(_) => out.put_bad(),
        },
    }
}

// What words select, or why they select nothing.
fn put_selected(shown: &Shown, folder: &Folder, purpose: Purpose, words: &[Text], out: &mut Answer)
    requires { IsShown shown.now }
{
    let list = match read_list(out.alloc(), words) {
        Ok(list) => list,
        Err(error) => return out.put_error(error),
    };
    match select(out.alloc(), &list, shown, folder, purpose) {
        Ok(found) => out.put_numbers(found.as_slice()),
        Err(error) => out.put_error(error),
    }
    drop(list);
}
