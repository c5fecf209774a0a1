// What a block says of its host: the disk at its start, and what happens on it.
use crate::Answer;
use crate::block::{Case, cut, number, text_under};
use crate::planned::{part, step};
use host_port::{ChildAnswer, DiskView, EditAnswer, ForeignStep, Part};
use mail_text::{Items, Text};

/// What the lines of blocks say.
#[derive(Drop)]
pub struct Setting {
    pub files: Items<(Text, Text)>,
    pub locks: Items<(Text, u64)>,
    pub foreign: Items<(u64, ForeignStep)>,
    pub fails: Items<(u64, Part)>,
    pub children: Items<ChildAnswer>,
    pub edits: Items<EditAnswer>,
}

// Puts what a line says of a name and bytes, which stand behind it, or below it in the block, to the files.
fn put_file(name: &str, bytes: Text, setting: &mut Setting, out: &mut Answer) {
    let name = out.decoded(name);
    out.note(setting.files.push((name, bytes)));
}

// Puts what a line says of what happens at a call of a number.
fn put_call(head: &str, rest: &str, setting: &mut Setting, out: &mut Answer) {
    let (at, text) = cut(rest);
    let at = number(at);
    if head == "fails" {
        let part = part(text, out);
        out.note(setting.fails.push((at, part)));
    } else {
        let step = step(text, out);
        out.note(setting.foreign.push((at, step)));
    }
}

// Puts what a line says of a child or of an editor: its status, and the text that it leaves.
fn put_run(head: &str, rest: &str, setting: &mut Setting, out: &mut Answer) {
    let (status, text) = cut(rest);
    let status = status.parse().unwrap_or(0);
    let cut = false;
    let text = out.decoded(text);
    out.note(if head == "child" {
        let output = text;
        setting.children.push(ChildAnswer {
            status,
            output,
            cut,
        })
    } else {
        setting.edits.push(EditAnswer { status, text, cut })
    });
}

// Puts what a line says.
fn put_line(block: &str, line: &str, setting: &mut Setting, out: &mut Answer) {
    let (head, rest) = cut(line);
    let (first, last) = cut(rest);
    match head {
        "file" => {
            let bytes = text_under(block, line, out);
            put_file(rest, bytes, setting, out);
        }
        "holds" => {
            let bytes = out.decoded(last);
            put_file(first, bytes, setting, out);
        }
        "lock" => {
            let name = out.decoded(first);
            out.note(setting.locks.push((name, number(last))));
        }
        "other" | "fails" => put_call(head, rest, setting, out),
        "child" | "edit" => put_run(head, rest, setting, out),
        _ => {}
    }
}

fn put_block(block: &str, setting: &mut Setting, out: &mut Answer) {
    for line in block.lines() {
        put_line(block, line, setting, out);
    }
}

/// What a case says of its host.
pub fn setting_of(case: Case<'_>, out: &mut Answer) -> Setting {
    let mut setting = Setting {
        files: Items::new(out.alloc()),
        locks: Items::new(out.alloc()),
        foreign: Items::new(out.alloc()),
        fails: Items::new(out.alloc()),
        children: Items::new(out.alloc()),
        edits: Items::new(out.alloc()),
    };
    put_block(case.own, &mut setting, out);
    put_block(case.always, &mut setting, out);
    setting
}

/// The disk before a case.
pub fn view(case: Case<'_>, out: &mut Answer) -> DiskView {
    let Setting {
        files,
        locks,
        foreign,
        fails,
        children,
        edits,
    } = setting_of(case, out);
    drop(foreign);
    drop(fails);
    drop(children);
    drop(edits);
    DiskView { files, locks }
}
