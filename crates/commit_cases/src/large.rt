// Files past a limit, long names and many changes.
use crate::changes::change;
use crate::commits::put_additions;
use case_blocks::{Answer, Case, host};
use commit_machine::staged_name;
use commit_record::is_lawful;
use folder_change::{Change, outcome};
use host_memory::MemHost;
use host_port::{Host, LoadError};
use mail_text::{Memory, Text};
use mbox_scan::Folder;
use std::alloc::Global;

// A file of one byte past the limit of a load is told as too large, and the host is not lost.
fn is_too_large(alloc: Global, host: &mut MemHost) -> bool {
    match host.load(alloc, b"/h/a") {
        Err(LoadError::TooLarge { length }) => length == 268_435_457 && !host.lost(),
        _ => false,
    }
}

// Whether a file that this line of a case writes is too large.
fn writes_too_large(line: &str, out: &mut Answer) -> bool {
    let case = Case {
        own: line,
        always: "",
    };
    match host(case, out) {
        Ok(mut host) => {
            let is = is_too_large(out.alloc(), &mut host);
            drop(host);
            is
        }
        Err(Memory) => false,
    }
}

// Twenty changes of a file with a long name are one commit.
fn adds_often(out: &mut Answer) -> bool {
    let mut said = Answer::new(out.alloc());
    let case = Case {
        own: "",
        always: "",
    };
    if let Ok(mut host) = host(case, out) {
        put_additions(&mut host, "a\\*3900;", "x", 20, &mut said);
        drop(host);
    }
    said.bytes() == b"done".as_slice()
}

fn is_kept(alloc: Global, bytes: &[u8], change: &Change, base: &Folder) -> bool {
    match outcome(alloc, Some(bytes), change, Some(base)) {
        Ok(Some(file)) => file.bytes() == bytes,
        _ => false,
    }
}

// A rewrite keeps more messages than a folder has that others added.
fn keeps_many(out: &mut Answer) -> bool {
    let bytes = out.decoded("From \\n\\n\\*1000001;");
    let change = change("drop", "box", "", out);
    let is = match Folder::open(out.alloc(), Text::new(out.alloc())) {
        Ok(base) => {
            let is = is_kept(out.alloc(), bytes.bytes(), &change, &base);
            drop(base);
            is
        }
        Err(_) => false,
    };
    drop(change);
    is
}

// A name of 4,000 bytes is lawful, and one of 4,001 is not; the name of a staged file is 19 bytes longer.
fn knows_long_names(out: &mut Answer) -> bool {
    let longest = out.decoded("a\\*4000;");
    let longer = out.decoded("a\\*4001;");
    match staged_name(out.alloc(), 1, longest.bytes()) {
        Ok(staged) => {
            is_lawful(longest.bytes())
                && !is_lawful(longer.bytes())
                && staged.bytes().len() == 4_019
        }
        Err(Memory) => false,
    }
}

fn put_is(words: &[u8], is: bool, out: &mut Answer) {
    out.put_plain(words);
    out.put_plain(b": ");
    out.put_flag(is);
}

/// Puts what comes of files past a limit, long names and many changes.
pub fn put_large(out: &mut Answer) {
    let is = writes_too_large("holds /h/a xxxxxxxxxxxxxxxx\\*16777216;x", out);
    put_is(b"a file past the limit is too large", is, out);
    out.put_plain(b"\n");
    let is = keeps_many(out);
    put_is(b"a rewrite keeps a million messages and one", is, out);
    out.put_plain(b"\n");
    let is = knows_long_names(out);
    put_is(b"names of 4,000 bytes are known", is, out);
    out.put_plain(b"\n");
    let is = adds_often(out);
    put_is(b"twenty changes of a long name are one", is, out);
}
