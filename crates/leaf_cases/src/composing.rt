// Cases of drafts that are written line by line, each from an empty draft, with the variables and the messages that are
// kept, of which the field `subject` is left out. The kind is `receive`, `send` or `terminal`. Then come the current
// message and the steps, by their first byte: `=` and a line, `<` and the bytes of a file, `!` and what a command
// answered, its status, a space and its output, `?` and the same of an output that was cut, `%` and `~` the same of an
// editor and its text, `,` for what was carried out, `-` for a refusal, `*` for whether the next line is the subject,
// and `@` for the draft.
ghost use Rattle.std.specs.Prelude.{◌≡◌, true};
ghost use Rattle.message_state.specs.ShownRows.{IsShown};
ghost use Rattle.draft_text.specs.DraftLaws.{HasFlatParts};
ghost use Rattle.compose_tilde.specs.Views.{view_of, IsView};

use crate::case::{number, parts, words};
use crate::view::shown_of;
use case_blocks::Answer as Out;
use compose_tilde::{Answer, Compose, ComposeError, ComposeView, Need};
use draft_text::Draft;
use host_port::{ChildAnswer, EditAnswer};
use mail_text::{Items, Memory, Text};
use mailx_vars::{Places, Vars};
use mbox_scan::Folder;
use memchr::memchr;
use message_show::FieldSets;
use message_state::Shown;
use rc_conditionals::Mode;
use std::alloc::Global;
use std::str;

pub fn put(vars: &Vars, messages: &[Text], case: &[Text], out: &mut Out) {
    match shown_of(messages, &[], &[], number(case, 2), out) {
        Ok(Some(shown)) => {
            put_of(vars, &shown, messages, case, out);
            drop(shown);
        }
        Ok(None) => out.put_bad(),
        Err(Memory) => out.lack(),
    }
}

// The bytes of a folder with the texts of these messages.
pub fn folder_bytes(messages: &[Text], out: &mut Out) -> Text {
    let mut bytes = Text::new(out.alloc());
    for message in messages {
        let text = match memchr(b' ', message.bytes()) {
            Some(at) => &message.bytes()[at + 1..],
            None => b"",
        };
        out.note(bytes.push(text));
        out.note(bytes.push(b"\n\n"));
    }
    bytes
}

fn put_of(vars: &Vars, shown: &Shown, messages: &[Text], case: &[Text], out: &mut Out)
    requires { IsShown shown.now }
{
    let bytes = folder_bytes(messages, out);
    match Folder::open(out.alloc(), bytes) {
        Ok(folder) => {
            put_with(vars, shown, &folder, case, out);
            drop(folder);
        }
        Err(_) => out.put_bad(),
    }
}

// The places of an environment without editors.
fn places(out: &mut Out) -> Option<Places> {
    let mut pairs = Items::new(out.alloc());
    let home = (out.copied(b"HOME"), out.copied(b"/h"));
    out.note(pairs.push(home));
    let user = (out.copied(b"LOGNAME"), out.copied(b"u"));
    out.note(pairs.push(user));
    match Places::read(out.alloc(), pairs.items()) {
        Ok(places) => places,
        Err(Memory) => {
            out.lack();
            None
        }
    }
}

fn put_with(vars: &Vars, shown: &Shown, folder: &Folder, case: &[Text], out: &mut Out)
    requires { IsShown shown.now }
{
    match places(out) {
        Some(places) => {
            put_in(vars, &places, shown, folder, case, out);
            drop(places);
        }
        None => out.put_bad(),
    }
}

fn put_in(
    vars: &Vars,
    places: &Places,
    shown: &Shown,
    folder: &Folder,
    case: &[Text],
    out: &mut Out,
)
    requires { IsShown shown.now }
{
    let mut sets = FieldSets::new(out.alloc());
    let names = parts("subject", ';', out);
    out.note(sets.ignore(names.items()));
    let count = folder.count();
    let view = ComposeView {
        vars,
        places,
        shown,
        folder: if count == 0 { None } else { Some(folder) },
        sets: &sets,
        mode: if words(case, 1) == "send" {
            Mode::Send
        } else {
            Mode::Receive
        },
        terminal: words(case, 1) == "terminal",
    };
    if is_view(&view) {
        put_steps(&view, case, out);
    } else {
        out.put_bad();
    }
}

// Whether the view is valid, what is shown aside.
fn is_view(view: &ComposeView<'_>) -> bool
    requires { IsShown view.now.shown.now }
    ensures { result ≡ true → IsView (view_of view.now) }
{
    match view.folder {
        Some(folder) => folder.count() == view.shown.rows.items().len(),
        None => view.shown.rows.items().is_empty(),
    }
}

// An empty draft.
fn no_draft(alloc: Global) -> Draft
    ensures { HasFlatParts result }
{
    Draft {
        to: Items::new(alloc),
        cc: Items::new(alloc),
        bcc: Items::new(alloc),
        subject: Text::new(alloc),
        from: Text::new(alloc),
        reply: Text::new(alloc),
        references: Items::new(alloc),
        body: Text::new(alloc),
    }
}

fn put_steps(view: &ComposeView<'_>, case: &[Text], out: &mut Out)
    requires { IsView (view_of view.now) }
{
    let mut compose = Compose::new(out.alloc(), no_draft(out.alloc()));
    for step in case.iter().skip(3) {
        put_step(&mut compose, view, step.bytes(), out);
        out.put(b";");
    }
    drop(compose);
}

fn put_step(compose: &mut Compose, view: &ComposeView<'_>, step: &[u8], out: &mut Out)
    requires { IsView (view_of view.now) }
{
    match step {
        [b'=', line @ ..] => put_line(compose, view, line, out),
        [b'<', bytes @ ..] => {
            let bytes = out.copied(bytes);
            put_answer(compose, view, Answer::Loaded(bytes), out);
        }
        [b'!', answer @ ..] => put_child(compose, view, answer, false, out),
        [b'?', answer @ ..] => put_child(compose, view, answer, true, out),
        [b'%', answer @ ..] => put_edit(compose, view, answer, false, out),
        [b'~', answer @ ..] => put_edit(compose, view, answer, true, out),
        [b',', ..] => put_answer(compose, view, Answer::Carried, out),
        [b'-', ..] => compose.refuse(),
        [b'*', ..] => out.put_flag(compose.asks_subject(view)),
        [b'@', ..] => put_draft(compose.draft(), out),
        _ => out.put_bad(),
    }
}

fn put_line(compose: &mut Compose, view: &ComposeView<'_>, line: &[u8], out: &mut Out)
    requires { IsView (view_of view.now) }
{
    if compose.waiting() {
        return out.put(b"waits");
    }
    let need = compose.line(line, view);
    put_need(need, out);
}

fn put_answer(compose: &mut Compose, view: &ComposeView<'_>, answer: Answer, out: &mut Out) {
    if compose.waits_for(&answer) {
        let need = compose.answer(answer, view);
        put_need(need, out);
    } else {
        drop(answer);
        out.put(b"waits not");
    }
}

// The number in front of a blank, and what follows it.
fn status_and_rest(answer: &[u8]) -> (i32, &[u8]) {
    let (status, rest) = match memchr(b' ', answer) {
        Some(at) => (&answer[..at], &answer[at + 1..]),
        None => (answer, b"".as_slice()),
    };
    let status = str::from_utf8(status).unwrap_or("").parse().unwrap_or(0);
    (status, rest)
}

// The status and the text that an editor answers.
fn put_edit(
    compose: &mut Compose,
    view: &ComposeView<'_>,
    answer: &[u8],
    cut: bool,
    out: &mut Out,
) {
    let (status, left) = status_and_rest(answer);
    let edit = EditAnswer {
        status,
        text: out.copied(left),
        cut,
    };
    put_answer(compose, view, Answer::Edited(edit), out);
}

// The status and the output that a command answers.
fn put_child(
    compose: &mut Compose,
    view: &ComposeView<'_>,
    answer: &[u8],
    cut: bool,
    out: &mut Out,
) {
    let (status, output) = status_and_rest(answer);
    let child = ChildAnswer {
        status,
        output: out.copied(output),
        cut,
    };
    put_answer(compose, view, Answer::Ran(child), out);
}

fn put_need(need: Result<Need, ComposeError>, out: &mut Out) {
    match need {
        Ok(need) => {
            put_needed(&need, out);
            drop(need);
        }
        Err(error) => {
            put_error(&error, out);
            drop(error);
        }
    }
}

fn put_needed(need: &Need, out: &mut Out) {
    match need {
        Need::More => out.put(b"More"),
        Need::Say(bytes) => put_named(b"Say", bytes, out),
        Need::Load(name) => put_named(b"Load", name, out),
        Need::Dead => out.put(b"Dead"),
        Need::Child { command, input } => put_two(b"Child", command, input, out),
        Need::Edit { command, text } => put_two(b"Edit", command, text, out),
        Need::Command(line) => put_named(b"Command", line, out),
        Need::Put { name, bytes } => put_two(b"Put", name, bytes, out),
        Need::Done => out.put(b"Done"),
        Need::Quit => out.put(b"Quit"),
        Need::Drop => out.put(b"Drop"),
    }
}

fn put_two(name: &[u8], first: &Text, second: &Text, out: &mut Out) {
    put_named(name, first, out);
    out.put_in_angles(second.bytes());
}

fn put_named(name: &[u8], bytes: &Text, out: &mut Out) {
    out.put(name);
    out.put(b" ");
    out.put_in_angles(bytes.bytes());
}

fn put_error(error: &ComposeError, out: &mut Out) {
    match error {
        ComposeError::Memory => out.lack(),
        ComposeError::Unknown {
            letter: Some(letter),
        }
        | ComposeError::BadArguments { letter } => {
            out.put(&[*letter]);
            out.put(b": ");
        }
        _ => {}
    }
    out.put_shown(error);
}

// A draft: its names with `,` after each, its subject and its body.
fn put_draft(draft: &Draft, out: &mut Out) {
    put_names(b"To ", draft.to.items(), out);
    put_names(b"Cc ", draft.cc.items(), out);
    put_names(b"Bcc ", draft.bcc.items(), out);
    out.put_in_angles(draft.subject.bytes());
    out.put_in_angles(draft.body.bytes());
}

fn put_names(list: &[u8], names: &[Text], out: &mut Out) {
    out.put(list);
    out.put_texts(b"", names, b",");
    out.put(b" ");
}
