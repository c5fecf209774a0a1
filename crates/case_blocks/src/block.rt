// What a block says.
use crate::Answer;
use crate::escape::push_decoded;
use mail_text::{Text, read_number};
use std::alloc::Global;

/// A case: its own block, and the block that holds always.
#[derive(Clone, Copy)]
pub struct Case<'a> {
    pub own: &'a str,
    pub always: &'a str,
}

/// The heads of lines of a title, of the disk and of the plan.
const HEADS: [&str; 16] = [
    "always", "case ", "bare", "holds ", "file ", "lock ", "input", "pieces ", "fails ", "other ",
    "child ", "edit ", "now ", "|", ":", "#",
];

/// Whether a line begins with one of these heads.
pub fn begins_with_any(line: &str, heads: &[&str]) -> bool {
    for head in heads {
        if line.starts_with(*head) {
            return true;
        }
    }
    false
}

/// Whether a line tells a title, something of the disk or of the plan, or nothing.
pub fn is_plain(line: &str) -> bool {
    begins_with_any(line, &HEADS) || line.is_empty()
}

/// The first word, and what stands after the blank that follows it.
pub fn cut(text: &str) -> (&str, &str) {
    text.split_once(' ').unwrap_or((text, ""))
}

/// A number, 0 if the text is none.
pub fn number(text: &str) -> u64 {
    read_number(text.as_bytes()).unwrap_or(0)
}

// What stands after this head on the first line that begins with it.
fn value_in<'a>(block: &'a str, head: &str) -> Option<&'a str> {
    for line in block.lines() {
        if let Some(value) = line.strip_prefix(head) {
            return Some(value);
        }
    }
    None
}

/// What stands after this head on the first line that begins with it, in the case's own block or else in the other.
pub fn value<'a>(case: Case<'a>, head: &str) -> Option<&'a str> {
    match value_in(case.own, head) {
        Some(value) => Some(value),
        None => value_in(case.always, head),
    }
}

/// Whether a block is a case.
pub fn is_case(case: Case<'_>) -> bool {
    has_line(case.own, "case ")
}

/// Whether a line of a block begins so.
pub fn has_line(block: &str, head: &str) -> bool {
    value_in(block, head).is_some()
}

// The case of a block. A block with a line `bare` stands alone.
fn first<'a>(own: &'a str, always: &'a str) -> Case<'a> {
    Case {
        own,
        always: if has_line(own, "bare") { "" } else { always },
    }
}

/// What answers cases.
pub trait Tells {
    /// Puts what a block tells at the end of the answers.
    fn tell(&self, case: Case<'_>, out: &mut Answer);
}

// Puts how what a block tells differs from the lines below its line `want`, with its title, if it does.
fn put_block<T: Tells>(program: &T, block: &str, always: &str, out: &mut Answer) {
    let (own, wanted) = block.split_once("\nwant\n").unwrap_or((block, ""));
    let case = first(own, always);
    let mut found = Answer::new(out.alloc());
    program.tell(case, &mut found);
    let title = value_in(own, "case ").unwrap_or("always");
    out.put_difference(title, wanted.as_bytes(), &found);
}

/// How what each block of a text tells differs from what it wants, with its title, and how many cases there were.
pub fn told<T: Tells>(alloc: Global, program: &T, blocks: &str) -> Answer {
    let mut out = Answer::new(alloc);
    let mut always = "";
    let mut cases = 0u64;
    for block in blocks.split("\n\n") {
        if has_line(block, "always") {
            always = block;
        }
        if has_line(block, "case ") {
            cases = cases.saturating_add(1);
        }
        put_block(program, block, always, &mut out);
    }
    out.put_count(cases);
    out
}

// One line of text, at the end of a text.
fn push_line(text: &mut Text, line: &str, out: &mut Answer) {
    let (escaped, end) = match line.strip_prefix('|') {
        Some(escaped) => (escaped, "\n"),
        None => (line.strip_prefix(':').unwrap_or(""), ""),
    };
    out.note(push_decoded(out.alloc(), text, escaped));
    out.note(text.push(end.as_bytes()));
}

fn is_text(line: &str) -> bool {
    line.starts_with('|') || line.starts_with(':')
}

/// The bytes below this line of a block.
pub fn text_under(block: &str, head: &str, out: &mut Answer) -> Text {
    let mut text = Text::new(out.alloc());
    let mut inside = false;
    for line in block.lines() {
        if !is_text(line) {
            inside = line == head;
        } else if inside {
            push_line(&mut text, line, out);
        }
    }
    text
}
