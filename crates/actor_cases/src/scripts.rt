// One case, line by line.
use crate::changes::changes;
use crate::files::{put_files, put_locks};
use crate::tables::put_orders;
use actor_core::{Actor, Core, CoreError, CoreStep, Doing, StepKind, Task};
use case_blocks::{Answer, Case, Tells, cut, is_case, number, part, view};
use mail_text::{Items, Memory};

/// The moment of all commits.
const MOMENT: i64 = 1_704_240_000;

/// Actors on a disk, and how many lines of the case came before.
#[derive(Drop)]
pub struct Script<'a> {
    pub case: Case<'a>,
    pub actors: Items<Actor>,
    pub until: usize,
}

// The actors of a case.
fn actors(case: Case<'_>, out: &mut Answer) -> Items<Actor> {
    let mut actors = Items::new(out.alloc());
    for line in case.own.lines() {
        if let Some(rest) = line.strip_prefix("actor ") {
            let (name, token) = cut(rest);
            let name = out.decoded(name);
            let token = number(token);
            out.note(actors.push(Actor { name, token }));
        }
    }
    actors
}

// The number of an actor.
fn actor_number(text: &str) -> u32 {
    number(text).min(99) as u32
}

/// A step of an actor: whether it is allowed.
pub fn take(core: &mut Core, actor: u32, kind: StepKind, out: &mut Answer) -> bool {
    match core.step(&CoreStep { actor, kind }) {
        Ok(done) => done,
        Err(Memory) => {
            out.lack();
            false
        }
    }
}

// So many calls of an actor: whether each is allowed.
fn take_calls(core: &mut Core, actor: u32, count: u64, out: &mut Answer) -> bool {
    for _ in 0..count {
        if !take(core, actor, StepKind::Call, out) {
            return false;
        }
    }
    true
}

// The step of these words, which isn't that of calls.
fn step_kind(kind: &str, rest: &str, out: &mut Answer) -> StepKind {
    match kind {
        "commit" => StepKind::Commit {
            changes: changes(rest, out),
            moment: MOMENT,
        },
        "recover" => StepKind::Recover,
        "fail" => StepKind::Fail(part(rest, out)),
        "stop" => StepKind::Stop(part(rest, out)),
        "refuse" => StepKind::Refuse,
        _ => StepKind::Call,
    }
}

/// The steps of a line: whether each is allowed.
pub fn take_line(core: &mut Core, line: &str, out: &mut Answer) -> bool {
    let (actor, rest) = cut(line);
    let (kind, rest) = cut(rest);
    if kind == "call" {
        return take_calls(core, actor_number(actor), number(rest), out);
    }
    let kind = step_kind(kind, rest, out);
    take(core, actor_number(actor), kind, out)
}

// The actors at the start of a case, or why they can't begin.
fn begun(script: &Script<'_>, out: &mut Answer) -> Result<Core, CoreError> {
    let view = view(script.case, out);
    Core::new(out.alloc(), view, script.actors.items())
}

// The steps of the lines so far.
fn take_lines(core: &mut Core, script: &Script<'_>, out: &mut Answer) {
    for (k, line) in script.case.own.lines().enumerate() {
        if let Some(rest) = line.strip_prefix("step ") {
            if k < script.until {
                take_line(core, rest, out);
            }
        }
    }
}

/// The actors where the lines so far leave them; none if they can't begin.
pub fn stand(script: &Script<'_>, out: &mut Answer) -> Option<Core> {
    match begun(script, out) {
        Ok(mut core) => {
            take_lines(&mut core, script, out);
            Some(core)
        }
        Err(why) => {
            drop(why);
            None
        }
    }
}

/// The changes of the commit of the actor with this token, as they are written.
pub fn commit_line<'a>(script: &Script<'a>, token: u64) -> &'a str {
    for line in script.case.own.lines() {
        if let Some(rest) = line.strip_prefix("step ") {
            let (actor, rest) = cut(rest);
            if let Some(changes) = rest.strip_prefix("commit ") {
                if token_of(script.actors.items(), actor) == token {
                    return changes;
                }
            }
        }
    }
    ""
}

// The token of the actor of this number, 0 if there is none.
fn token_of(actors: &[Actor], text: &str) -> u64 {
    let at = (number(text).min(99) as usize).saturating_sub(1);
    match actors.get(at) {
        Some(actor) => actor.token,
        None => 0,
    }
}

fn put_begun(script: &Script<'_>, out: &mut Answer) {
    match begun(script, out) {
        Ok(core) => {
            drop(core);
            out.put_plain(b"yes");
        }
        Err(why) => out.put_shown(&why),
    }
}

/// Puts the token of each commit place, in order.
pub fn put_places(core: &Core, out: &mut Answer) {
    for (token, _) in core.places() {
        out.put_plain(b" ");
        out.put_shown(token);
    }
}

// What an actor is doing.
fn doing(doing: &Doing) -> &'static str {
    match doing {
        Doing::Nothing => " nothing",
        Doing::Bracket {
            task: Task::Recover,
            ..
        } => " recover",
        Doing::Bracket { .. } => " commit",
        Doing::Stopped => " stopped",
    }
}

fn put_doing(core: &Core, out: &mut Answer) {
    for member in core.members() {
        out.put_plain(doing(&member.doing).as_bytes());
    }
}

fn put_settled(core: &Core, out: &mut Answer) {
    match core.settled() {
        Ok(view) => {
            put_files(view.files.items(), out);
            put_locks(view.locks.items(), out);
        }
        Err(Memory) => out.lack(),
    }
}

// What a line asks of the actors where the lines before it leave them.
fn put_standing(core: &mut Core, kind: &str, rest: &str, out: &mut Answer) {
    match kind {
        "step" => {
            let done = take_line(core, rest, out);
            out.put_flag(done);
        }
        "places" => put_places(core, out),
        "doing" => put_doing(core, out),
        "files" => {
            out.put_plain(b"\n");
            put_files(core.files(), out);
        }
        "locks" => {
            out.put_plain(b"\n");
            put_locks(core.locks(), out);
        }
        _ => {
            out.put_plain(b"\n");
            put_settled(core, out);
        }
    }
}

fn put_asked(script: &Script<'_>, kind: &str, rest: &str, out: &mut Answer) {
    match stand(script, out) {
        Some(mut core) => {
            put_standing(&mut core, kind, rest, out);
            drop(core);
        }
        None => out.put_bad(),
    }
}

fn put_line(script: &Script<'_>, line: &str, out: &mut Answer) {
    let (kind, rest) = cut(line);
    out.put_plain(line.as_bytes());
    out.put_plain(b":");
    if matches!(kind, "begin" | "step" | "all" | "cuts") {
        out.put_plain(b" ");
    }
    match kind {
        "begin" => put_begun(script, out),
        "all" => put_orders(script, rest, false, out),
        "cuts" => put_orders(script, rest, true, out),
        _ => put_asked(script, kind, rest, out),
    }
    if !matches!(kind, "files" | "locks" | "settled") {
        out.put_plain(b"\n");
    }
}

// Whether a line is to be answered.
fn is_asked(line: &str) -> bool {
    let (kind, _) = cut(line);
    matches!(
        kind,
        "begin" | "step" | "places" | "doing" | "files" | "locks" | "settled" | "all" | "cuts"
    )
}

/// Cases as scripts: the answers of their lines.
pub struct Scripts;

impl Tells for Scripts {
    fn tell(&self, case: Case<'_>, out: &mut Answer) {
        if is_case(case) {
            for (until, line) in case.own.lines().enumerate() {
                if is_asked(line) {
                    let actors = actors(case, out);
                    let script = Script {
                        case,
                        actors,
                        until,
                    };
                    put_line(&script, line, out);
                    drop(script);
                }
            }
        }
    }
}
