// Cases of marks, stamps, rows and orders.
use crate::case::{field, number, numbers, place, words};
use crate::dates::put_moment;
use case_blocks::Answer;
use mail_headers::Header;
use mail_text::{Items, Memory, Text};
use message_state::{
    Act, Flags, Mark, Order, Row, RowList, Standing, State, after, mark_of, row_of, stamped,
};
use std::alloc::Global;

const ACTS: [Act; 7] = [
    Act::Look,
    Act::Delete,
    Act::Undelete,
    Act::Hold,
    Act::Mbox,
    Act::Touch,
    Act::Save,
];

const FLAGGING: [Act; 6] = [
    Act::Flag,
    Act::Unflag,
    Act::Answered,
    Act::Unanswered,
    Act::Draft,
    Act::Undraft,
];

pub fn put(case: &[Text], out: &mut Answer) {
    let text = field(case, 2);
    match words(case, 1) {
        "acts" => put_acts(state_of(text), out),
        "flagging" => put_after(&FLAGGING, &[mark_in(text)], out),
        "no rows" => out.put_found(RowList::new(out.alloc()).next(Standing::Live, 0)),
        "new order" => out.put_numbers(Order::new(out.alloc()).items()),
        _ => {
            let done = put_made(case, out);
            out.note(done);
        }
    }
}

fn put_made(case: &[Text], out: &mut Answer) -> Result<(), Memory> {
    let text = field(case, 2);
    match words(case, 1) {
        "stamp" => put_stamped(text, flags_in(field(case, 3)), out),
        "row" => put_row(text, out),
        "live" => put_live(case, out),
        "dead" => put_dead(case, out),
        "order" => {
            put_order(&Order::by_number(out.alloc(), number(case, 2))?, out);
            Ok(())
        }
        "order of" => {
            put_order(&Order::of(numbers(words(case, 2), out)), out);
            Ok(())
        }
        _ => {
            out.put_bad();
            Ok(())
        }
    }
}

/// The state of a letter; any other is `New`.
pub fn state_of(letter: &[u8]) -> State {
    match letter {
        [b'U', ..] => State::Unread,
        [b'R', ..] => State::Read,
        [b'D', ..] => State::Deleted,
        [b'P', ..] => State::Preserved,
        [b'S', ..] => State::Saved,
        [b'M', ..] => State::Mboxed,
        _ => State::New,
    }
}

/// The flags of these letters.
pub fn flags_in(letters: &[u8]) -> Flags {
    Flags {
        answered: letters.contains(&b'A'),
        flagged: letters.contains(&b'F'),
        draft: letters.contains(&b'T'),
    }
}

/// The mark of a word: the letter of its state, `+` if the message was seen, and the letters of its flags.
pub fn mark_in(word: &[u8]) -> Mark {
    Mark {
        state: state_of(word),
        seen: word.contains(&b'+'),
        flags: flags_in(word),
    }
}

// The letter of a state, `+` if the message was seen, and the letters of flags.
fn put_mark(out: &mut Answer, mark: Mark) {
    out.put(match mark.state {
        State::New => b"N",
        State::Unread => b"U",
        State::Read => b"R",
        State::Deleted => b"D",
        State::Preserved => b"P",
        State::Saved => b"S",
        State::Mboxed => b"M",
    });
    out.put(if mark.seen { b"+" } else { b"-" });
    put_flags(out, mark.flags);
}

fn put_flags(out: &mut Answer, flags: Flags) {
    out.put(if flags.answered { b"A" } else { b"" });
    out.put(if flags.flagged { b"F" } else { b"" });
    out.put(if flags.draft { b"T" } else { b"" });
}

// What each act makes of each mark.
fn put_after(acts: &[Act], marks: &[Mark], out: &mut Answer) {
    for act in acts {
        for mark in marks {
            put_mark(out, after(*mark, *act));
        }
        out.put(b" ");
    }
}

// A mark without flags.
fn plain_mark(state: State, seen: bool) -> Mark {
    Mark {
        state,
        seen,
        flags: flags_in(b""),
    }
}

// What each act makes of a message of a state that wasn't seen, and of one that was.
fn put_acts(state: State, out: &mut Answer) {
    let marks = [plain_mark(state, false), plain_mark(state, true)];
    put_after(&ACTS, &marks, out);
}

// The mark of a text, and the text stamped as read and as new with these flags.
fn put_stamped(text: &[u8], flags: Flags, out: &mut Answer) -> Result<(), Memory> {
    put_mark(out, mark_of(&Header::read(out.alloc(), text)?));
    let (state, seen) = (State::Read, true);
    put_stamp(text, Mark { state, seen, flags }, out);
    let (state, seen) = (State::New, false);
    put_stamp(text, Mark { state, seen, flags }, out);
    Ok(())
}

// A text stamped with a mark.
fn put_stamp(text: &[u8], mark: Mark, out: &mut Answer) {
    out.put(b"<");
    out.put_made(stamped(out.alloc(), text, mark));
    out.put(b">");
}

// The row of a text, and whether its mark is the text's.
fn put_row(text: &[u8], out: &mut Answer) -> Result<(), Memory> {
    let mark = mark_of(&Header::read(out.alloc(), text)?);
    let row = row_of(out.alloc(), text)?;
    put_row_texts(&row, out);
    put_moment(row.moment, out);
    out.put(b" ");
    out.put_shown(&row.size);
    out.put(b" ");
    out.put_flag(row.mark == mark);
    drop(row);
    Ok(())
}

// The texts and the ids of a row, each with a line feed after it.
fn put_row_texts(row: &Row, out: &mut Answer) {
    put_line(row.texts.subject(), out);
    put_line(row.texts.author(), out);
    put_line(row.texts.shown_author(), out);
    put_line(row.texts.to(), out);
    put_line(row.texts.own_id(), out);
    out.put_texts(b"", row.references.items(), b"");
    out.put(b"\n");
    out.put_texts(b"", row.reply.items(), b"");
    out.put(b"\n");
}

fn put_line(text: &[u8], out: &mut Answer) {
    out.put(text);
    out.put(b"\n");
}

// The rows of `count` messages.
fn rows(alloc: Global, count: u32) -> Result<Items<Row>, Memory> {
    let mut rows = Items::new(alloc);
    for _ in 0..count {
        rows.push(row_of(alloc, b"From a@x")?)?;
    }
    Ok(rows)
}

// Whether a place is one of these.
fn has(places: &[u32], k: usize) -> bool {
    match u32::try_from(k) {
        Ok(k) => places.contains(&k),
        Err(_) => false,
    }
}

// Gives all rows but these a state.
fn set_others(list: &mut RowList, these: &[u32], state: State) {
    for k in 0..list.items().len() {
        if !has(these, k) {
            list.set_mark(k, plain_mark(state, false));
        }
    }
}

// Deletes all rows but these.
fn delete_others(list: &mut RowList, live: &[u32]) {
    set_others(list, live, State::Deleted);
}

// Gives all rows back but these.
fn give_back_others(list: &mut RowList, dead: &[u32]) {
    set_others(list, dead, State::Read);
}

// The nearest rows that stand so at or after a place, and before it.
fn put_near(list: &RowList, standing: Standing, k: usize, out: &mut Answer) {
    out.put_found(list.next(standing, k));
    out.put(b" ");
    out.put_found(list.previous(standing, k));
}

// The nearest rows that aren't deleted at or after a place, and before it, where all but some are deleted.
fn put_live(case: &[Text], out: &mut Answer) -> Result<(), Memory> {
    let mut list = RowList::of(out.alloc(), rows(out.alloc(), number(case, 2))?)?;
    delete_others(&mut list, numbers(words(case, 3), out).items());
    put_near(&list, Standing::Live, place(case, 4), out);
    drop(list);
    Ok(())
}

// The nearest deleted rows at or after a place, and before it, where all were deleted and all but some given back.
fn put_dead(case: &[Text], out: &mut Answer) -> Result<(), Memory> {
    let mut list = RowList::of(out.alloc(), rows(out.alloc(), number(case, 2))?)?;
    delete_others(&mut list, &[]);
    give_back_others(&mut list, numbers(words(case, 3), out).items());
    put_near(&list, Standing::Dead, place(case, 4), out);
    drop(list);
    Ok(())
}

// An order, and whether it is known to be one by number.
fn put_order(order: &Order, out: &mut Answer) {
    out.put_numbers(order.items());
    out.put(b";");
    out.put_flag(order.is_by_number());
}
