// Scripts: runs of a program, and what is wanted of the disks that they leave.
use crate::turning::UNREAD;
use case_blocks::Case;

/// A run of a program, and the lines that say what is wanted.
#[derive(Clone, Copy)]
pub struct Script<'a> {
    pub case: Case<'a>,
    ends: &'a str,
}

/// The script of a case.
pub fn read_script<'a>(case: Case<'a>) -> Script<'a> {
    let (own, ends) = case.own.split_once("\nafter ").unwrap_or((case.own, ""));
    Script {
        case: Case {
            own,
            always: case.always,
        },
        ends,
    }
}

// The lines below the line that begins with these turns.
fn wanted<'a>(ends: &'a str, turns: &[u8]) -> Option<&'a str> {
    for part in ends.split("\nafter ") {
        let (head, lines) = part.split_once('\n').unwrap_or((part, ""));
        if head.as_bytes() == turns {
            return Some(lines);
        }
    }
    None
}

// Whether a text is these lines, of which the last may lack its line feed.
fn is_same(found: &[u8], lines: &[u8]) -> bool {
    found == lines || found.strip_suffix(b"\n") == Some(lines)
}

// Whether a disk is shown as it is wanted after turns without that of a start-up file.
fn is_end(ends: &str, turns: &[u8], found: &[u8]) -> bool {
    match wanted(ends, turns) {
        Some(lines) => is_same(found, lines.as_bytes()),
        None => turns.is_empty() && found.is_empty(),
    }
}

/// Whether a disk is shown as it is wanted after these turns.
pub fn is_wanted(script: Script<'_>, turns: &[u8], found: &[u8]) -> bool {
    if let Some(lines) = wanted(script.ends, turns) {
        return is_same(found, lines.as_bytes());
    }
    match turns.strip_prefix(UNREAD) {
        Some(rest) => is_end(script.ends, rest.strip_prefix(b" ").unwrap_or(rest), found),
        None => is_end(script.ends, turns, found),
    }
}
