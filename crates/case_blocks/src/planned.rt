// The host of a case, and what is planned for it.
ghost use Rattle.std.specs.Prelude.{◌≤◌};

use crate::Answer;
use crate::block::{Case, cut, has_line, number, text_under, value};
use crate::disks::{Setting, setting_of};
use host_memory::{MemHost, Plan};
use host_port::{DiskView, ForeignStep, Part};
use mail_text::{Items, Memory};
use std::alloc::Global;

/// A step of another.
pub fn step(text: &str, out: &mut Answer) -> ForeignStep {
    let (kind, rest) = cut(text);
    let (name, last) = cut(rest);
    let name = out.decoded(name);
    let token = number(last);
    match kind {
        "write" => ForeignStep::Write {
            name,
            bytes: out.decoded(last),
        },
        "lock" => ForeignStep::Lock { name, token },
        "unlock" => ForeignStep::Unlock { name, token },
        "seize" => ForeignStep::Seize { name },
        "release" => ForeignStep::Release { name },
        _ => ForeignStep::Remove { name },
    }
}

/// What a failing call leaves: `before`, `after`, `nothing` or `bytes TEXT`.
pub fn part(text: &str, out: &mut Answer) -> Part {
    let (kind, bytes) = cut(text);
    match kind {
        "after" => Part::After,
        "nothing" => Part::Nothing,
        "bytes" => Part::Bytes(out.decoded(bytes)),
        _ => Part::Before,
    }
}

fn seconds(case: Case<'_>) -> i64 {
    value(case, "now ").unwrap_or("0").parse().unwrap_or(0)
}

fn pieces(case: Case<'_>) -> usize
    ensures { 1 ≤ result }
{
    match value(case, "pieces ") {
        Some(text) => (number(text).min(65_536) as usize).max(1),
        None => 3,
    }
}

/// The plan of a host to which nothing happens but that these calls fail.
pub fn failing(alloc: Global, fails: Items<(u64, Part)>) -> Plan
    ensures { 1 ≤ result.chunk }
{
    Plan {
        now: 0,
        chunk: 1,
        foreign: Items::new(alloc),
        fails,
        children: Items::new(alloc),
        edits: Items::new(alloc),
    }
}

/// The host of a case, as it is before it.
pub fn host(case: Case<'_>, out: &mut Answer) -> Result<MemHost, Memory> {
    let with_input = if has_line(case.own, "input") {
        case.own
    } else {
        case.always
    };
    let input = text_under(with_input, "input", out);
    let Setting {
        files,
        locks,
        foreign,
        fails,
        children,
        edits,
    } = setting_of(case, out);
    let disk = DiskView { files, locks };
    let plan = Plan {
        now: seconds(case),
        chunk: pieces(case),
        foreign,
        fails,
        children,
        edits,
    };
    MemHost::new(out.alloc(), disk, input, plan)
}
