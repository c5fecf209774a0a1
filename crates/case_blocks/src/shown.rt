// What became of a disk.
use crate::Answer;
use host_memory::MemHost;
use host_port::DiskView;
use mail_text::{Memory, Text};

fn found<'a>(files: &'a [(Text, Text)], name: &[u8]) -> Option<&'a [u8]> {
    for (other, bytes) in files {
        if other.bytes() == name {
            return Some(bytes.bytes());
        }
    }
    None
}

fn put_name(head: &[u8], name: &[u8], out: &mut Answer) {
    out.put_plain(head);
    out.put(name);
    out.put_plain(b"\n");
}

// The files that are new or have other bytes.
fn put_written(before: &[(Text, Text)], after: &[(Text, Text)], out: &mut Answer) {
    for (name, bytes) in after {
        if found(before, name.bytes()) != Some(bytes.bytes()) {
            put_name(b"file ", name.bytes(), out);
            out.put_lines(bytes.bytes());
        }
    }
}

// The files that are gone, each once.
fn put_gone(before: &[(Text, Text)], after: &[(Text, Text)], out: &mut Answer) {
    for (k, (name, _)) in before.iter().enumerate() {
        if found(after, name.bytes()).is_none() && found(&before[..k], name.bytes()).is_none() {
            put_name(b"gone ", name.bytes(), out);
        }
    }
}

// The locks, each with the last digit of its token.
fn put_locks(locks: &[(Text, u64)], out: &mut Answer) {
    for (name, token) in locks {
        out.put_plain(b"lock ");
        out.put(name.bytes());
        out.put_plain(b" ");
        out.put_shown(&(*token % 10));
        out.put_plain(b"\n");
    }
}

/// Puts what became of a disk: a line `file NAME` with its bytes for each file that is new or has other bytes, a line
/// `gone NAME` for each that is gone, and a line `lock NAME TOKEN` for each lock that stands, with the last digit of
/// its token.
pub fn put_changes(before: &DiskView, after: &DiskView, out: &mut Answer) {
    put_written(before.files.items(), after.files.items(), out);
    put_gone(before.files.items(), after.files.items(), out);
    put_locks(after.locks.items(), out);
}

/// Puts what became of the disk of a host, and `lost` if memory was refused to it.
pub fn put_disk(before: &DiskView, host: &MemHost, out: &mut Answer) {
    match host.view() {
        Ok(after) => {
            put_changes(before, &after, out);
            drop(after);
        }
        Err(Memory) => out.lack(),
    }
    if host.lost() {
        out.put_plain(b"lost\n");
    }
}
