//! The cases of the leaf crates, each a line `CASE => ANSWER` of the input. The output has each case whose answer isn't the
//! one that is wanted, below it both, and last how many cases there were. A case without an answer wants none.
//!
//! A case is fields with `|` between them: its topic, its kind, and what the kind takes. In a field and in an answer
//! `\n` is a line feed, `\t` a tab, `\\` a backslash and `\x` with two digits any byte. In a field `\*N;` repeats what
//! stands before it, back to the last such mark, so that it stands there N times. An empty line and one that begins
//! with `#` are passed over.
#![tactic(auto)]

mod addresses;
mod aliases;
mod asked;
mod case;
mod commands;
mod composing;
mod conditions;
mod dates;
mod drafts;
mod headers;
mod keeping;
mod kept;
mod laws;
mod lists;
mod macros;
mod mailboxes;
mod quits;
mod searches;
mod show;
mod states;
mod texts;
mod vars;
mod view;
mod views;

use case::{fields_of, words};
use case_blocks::Answer;
use kept::Kept;
use mail_text::{Memory, Text};
use std::alloc::Global;
use std::io;
use std::process::ExitCode;

// Puts the answer to a case at the end.
fn put_answer(kept: &mut Kept, case: &[Text], out: &mut Answer) {
    match words(case, 0) {
        "text" => texts::put(case, out),
        "mailbox" => mailboxes::put(case, out),
        "header" => headers::put(case, out),
        "address" => addresses::put(case, out),
        "date" => dates::put(case, out),
        "state" => states::put(case, out),
        "command" => commands::put(case, out),
        "vars" => vars::put(&mut kept.vars, case, out),
        "messages" => kept.keep_messages(case, out),
        "search" => searches::put(case, out),
        "list" => lists::put(kept.messages.items(), case, out),
        "show" => show::put(kept.messages.items(), case, out),
        "view" => views::put(kept.messages.items(), case, out),
        "words" => asked::put(case, out),
        "condition" => conditions::put(case, out),
        "alias" => aliases::put(case, out),
        "macro" => macros::put(case, out),
        "quit" => quits::put(&kept.vars, case, out),
        "draft" => drafts::put(case, out),
        "keep" => keeping::put(&kept.vars, case, out),
        "compose" => composing::put(&kept.vars, kept.messages.items(), case, out),
        "laws" => laws::put(out),
        _ => out.put_bad(),
    }
}

// Puts the case of a line with its answer, if that isn't the one that the line wants.
fn put_case(kept: &mut Kept, line: &str, out: &mut Answer) {
    let (asked, wanted) = line.split_once(" => ").unwrap_or((line, ""));
    let mut found = Answer::new(out.alloc());
    let case = fields_of(asked, &mut found);
    put_answer(kept, case.items(), &mut found);
    out.put_difference(asked, wanted.as_bytes(), &found);
}

// Puts what differs in the cases among the lines of a text, and how many they are.
fn put_lines(kept: &mut Kept, text: &str, out: &mut Answer) {
    let mut cases = 0u64;
    for line in text.lines() {
        if !line.is_empty() && !line.starts_with('#') {
            cases = cases.saturating_add(1);
            put_case(kept, line, out);
        }
    }
    out.put_count(cases);
}

// What is written of a text.
fn answers(alloc: Global, text: &str) -> Answer {
    let mut out = Answer::new(alloc);
    match Kept::new(alloc) {
        Ok(mut kept) => {
            put_lines(&mut kept, text, &mut out);
            drop(kept);
        }
        Err(Memory) => out.lack(),
    }
    out
}

fn main(rt: HostRuntime) -> ExitCode {
    match io::read_to_string(rt.alloc(), rt.reader()) {
        Ok(text) => ExitCode::from(answers(rt.alloc(), text.as_str()).write(&rt)),
        Err(_) => ExitCode::from(3),
    }
}
