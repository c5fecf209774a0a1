// Cases of views, each over the messages that are kept.
ghost use Rattle.std.specs.Prelude.{◌≤◌, length};

use crate::case::{number, words};
use crate::view::rows_of;
use case_blocks::Answer;
use mail_text::{Memory, Text};
use message_state::Row;
use std::alloc::Global;
use thread_view::{Key, View};

pub fn put(messages: &[Text], case: &[Text], out: &mut Answer) {
    match rows_of(out.alloc(), messages) {
        Ok(rows) => {
            put_of(rows.items(), case, out);
            drop(rows);
        }
        Err(Memory) => out.lack(),
    }
}

fn put_of(rows: &[Row], case: &[Text], out: &mut Answer) {
    if rows.len() > 100 {
        return out.put_bad();
    }
    if words(case, 1) == "grow" {
        return put_grown(rows, case, out);
    }
    match view_of(out.alloc(), rows, words(case, 2)) {
        Ok(view) => {
            put_view(&view, case, out);
            drop(view);
        }
        Err(Memory) => out.lack(),
    }
}

// The view of this name; that by number if there is no such name.
fn view_of(alloc: Global, rows: &[Row], name: &str) -> Result<View, Memory>
    requires { length rows.now ≤ 100 }
{
    match name {
        "threads" => View::threads(alloc, rows),
        "date" => View::sorted(alloc, rows, Key::Date),
        "from" => View::sorted(alloc, rows, Key::From),
        "size" => View::sorted(alloc, rows, Key::Size),
        "status" => View::sorted(alloc, rows, Key::Status),
        "subject" => View::sorted(alloc, rows, Key::Subject),
        "to" => View::sorted(alloc, rows, Key::To),
        _ => View::plain(alloc, rows.len() as u32),
    }
}

// The view of the first messages, so many, made anew for all.
fn put_grown(rows: &[Row], case: &[Text], out: &mut Answer)
    requires { length rows.now ≤ 100 }
{
    let count = (number(case, 3) as usize).min(rows.len());
    let (front, _) = rows.split_at(count);
    match view_of(out.alloc(), front, words(case, 2)) {
        Ok(view) => put_anew(view, rows, out),
        Err(Memory) => out.lack(),
    }
}

fn put_anew(view: View, rows: &[Row], out: &mut Answer)
    requires { length rows.now ≤ 100 }
{
    let mut view = view;
    match view.grow(out.alloc(), rows) {
        Ok(()) => put_order(&view, out),
        Err(Memory) => out.lack(),
    }
    drop(view);
}

fn put_order(view: &View, out: &mut Answer) {
    out.put_numbers(view.order.items());
    out.put(b" / ");
    out.put_numbers(view.depth.items());
}

// The order with the depths, or what stands beside a message.
fn put_view(view: &View, case: &[Text], out: &mut Answer) {
    match words(case, 1) {
        "order" => put_order(view, out),
        "kind" => out.put_debug(&view.kind),
        "near" => put_near(view, number(case, 3), out),
        _ => out.put_bad(),
    }
}

// The message before and after, and how many it stands under.
fn put_near(view: &View, k: u32, out: &mut Answer) {
    out.put_found(view.previous(k));
    out.put(b" ");
    out.put_found(view.next(k));
    out.put(b" ");
    out.put_found(view.depth(k));
}
