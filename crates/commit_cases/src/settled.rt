// What recovery would make of the disk before a case.
use actor_ground::{is_sound, settled, settled_lock, standing};
use case_blocks::Answer;
use commit_record::Phase;
use host_port::DiskView;
use mail_text::{Memory, Text};
use memory_disk::{Standing, standing_of};

const ACTOR: &[u8] = b"/h/m";

fn put_file(file: Result<Option<Text>, Memory>, out: &mut Answer) {
    match file {
        Ok(Some(text)) => {
            out.put_plain(b"bytes ");
            out.put(text.bytes());
        }
        Ok(None) => out.put_plain(b"no file"),
        Err(Memory) => out.lack(),
    }
}

fn put_lock(lock: Result<Option<u64>, Memory>, out: &mut Answer) {
    match lock {
        Ok(Some(owner)) => {
            out.put_plain(b", lock ");
            out.put_shown(&owner);
        }
        Ok(None) => {}
        Err(Memory) => out.lack(),
    }
}

// The file and the lock of a name.
fn put_name(disk: &Standing, name: &str, out: &mut Answer) {
    let name = out.decoded(name);
    put_file(settled(out.alloc(), ACTOR, &disk.files, name.bytes()), out);
    put_lock(
        settled_lock(out.alloc(), ACTOR, &disk.files, &disk.locks, name.bytes()),
        out,
    );
}

fn put_sound(disk: &Standing, out: &mut Answer) {
    match is_sound(out.alloc(), ACTOR, &disk.files, &disk.locks) {
        Ok(sound) => out.put_flag(sound),
        Err(Memory) => out.lack(),
    }
}

// How far the record that stands has come.
fn put_phase(disk: &Standing, out: &mut Answer) {
    match standing(out.alloc(), ACTOR, &disk.files) {
        Ok(Some(found)) => out.put_plain(match found.phase {
            Phase::Go => b"go".as_slice(),
            Phase::Prepare => b"prepare",
        }),
        Ok(None) => out.put_plain(b"none"),
        Err(Memory) => out.lack(),
    }
}

/// Puts what a line asks of the disk.
pub fn put_settled(start: &DiskView, kind: &str, rest: &str, out: &mut Answer) {
    match standing_of(out.alloc(), start.files.items(), start.locks.items()) {
        Ok(disk) => {
            match kind {
                "settled" => put_name(&disk, rest, out),
                "sound" => put_sound(&disk, out),
                _ => put_phase(&disk, out),
            }
            drop(disk);
        }
        Err(Memory) => out.lack(),
    }
}
