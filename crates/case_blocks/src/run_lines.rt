// What the lines of a case say of a run.
use crate::Answer;
use crate::block::{Case, begins_with_any, is_plain};
use mail_text::{Items, Text};

/// The words of a line, each between blanks.
pub fn words_of(line: &str, out: &mut Answer) -> Items<Text> {
    let mut words = Items::new(out.alloc());
    for word in line.split(' ') {
        if !word.is_empty() {
            let word = out.decoded(word);
            out.note(words.push(word));
        }
    }
    words
}

fn put_pairs(block: &str, pairs: &mut Items<(Text, Text)>, out: &mut Answer) {
    for line in block.lines() {
        if let Some(pair) = line.strip_prefix("env ") {
            let (name, bytes) = pair.split_once('=').unwrap_or((pair, ""));
            let name = out.decoded(name);
            let bytes = out.decoded(bytes);
            out.note(pairs.push((name, bytes)));
        }
    }
}

/// The variables of the environment of a case, by its lines `env NAME=VALUE`.
pub fn pairs_of(case: Case<'_>, out: &mut Answer) -> Items<(Text, Text)> {
    let mut pairs = Items::new(out.alloc());
    put_pairs(case.own, &mut pairs, out);
    put_pairs(case.always, &mut pairs, out);
    pairs
}

/// Puts each line of a block that says nothing of a title, of the disk or of the plan, and doesn't begin with one of
/// these heads.
pub fn put_unknown(block: &str, heads: &[&str], out: &mut Answer) {
    for line in block.lines() {
        if !is_plain(line) && !begins_with_any(line, heads) {
            out.put_plain(b"unknown: ");
            out.put_plain(line.as_bytes());
            out.put_plain(b"\n");
        }
    }
}
