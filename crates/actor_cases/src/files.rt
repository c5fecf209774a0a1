// Files with their bytes and locks with their tokens, each name once.
use case_blocks::Answer;
use mail_text::{Items, Text};

/// The bytes of the file of this name.
pub fn found<'a>(files: &'a [(Text, Text)], name: &[u8]) -> Option<&'a [u8]> {
    for (other, bytes) in files {
        if other.bytes() == name {
            return Some(bytes.bytes());
        }
    }
    None
}

// A copy of a file, at the end.
fn push_copy(files: &mut Items<(Text, Text)>, name: &[u8], bytes: &[u8], out: &mut Answer) {
    let name = out.copied(name);
    let bytes = out.copied(bytes);
    out.note(files.push((name, bytes)));
}

/// Copies of files, without the one of this name.
pub fn others(files: &[(Text, Text)], without: &[u8], out: &mut Answer) -> Items<(Text, Text)> {
    let mut copies = Items::new(out.alloc());
    for (name, bytes) in files {
        if name.bytes() != without {
            push_copy(&mut copies, name.bytes(), bytes.bytes(), out);
        }
    }
    copies
}

/// Whether two lists have the same files.
pub fn are_same(first: &[(Text, Text)], second: &[(Text, Text)]) -> bool {
    for (name, bytes) in first {
        if found(second, name.bytes()) != Some(bytes.bytes()) {
            return false;
        }
    }
    first.len() == second.len()
}

// Whether a lock stands.
fn is_locked(locks: &[(Text, u64)], name: &[u8], token: u64) -> bool {
    for (other, owner) in locks {
        if other.bytes() == name && *owner == token {
            return true;
        }
    }
    false
}

/// Whether two lists have the same locks.
pub fn are_same_locks(first: &[(Text, u64)], second: &[(Text, u64)]) -> bool {
    for (name, token) in first {
        if !is_locked(second, name.bytes(), *token) {
            return false;
        }
    }
    first.len() == second.len()
}

/// Puts each file, in the order of the list.
pub fn put_files(files: &[(Text, Text)], out: &mut Answer) {
    for (name, bytes) in files {
        out.put_plain(b"file ");
        out.put(name.bytes());
        out.put_plain(b"\n");
        out.put_lines(bytes.bytes());
    }
}

/// Puts each lock with its token.
pub fn put_locks(locks: &[(Text, u64)], out: &mut Answer) {
    for (name, token) in locks {
        out.put_plain(b"lock ");
        out.put(name.bytes());
        out.put_plain(b" ");
        out.put_shown(token);
        out.put_plain(b"\n");
    }
}
