// All orders of the calls of actors, by the states that they come to.
use crate::files::{are_same, are_same_locks};
use crate::folding::fold;
use crate::scripts::{Script, commit_line, put_places, stand, take, take_line};
use crate::states::key_of;
use actor_core::{Core, Doing, StepKind};
use case_blocks::{Answer, cut, number, view};
use host_port::DiskView;
use mail_text::{Items, Memory, Text};

/// The most calls of an order.
const MOST_CALLS: usize = 200;

/// How a call is cut: its actor stops inside it, or it fails, with each part of it done; or memory is wanted in its place.
const CUTS: [&str; 9] = [
    "stop before",
    "stop after",
    "stop nothing",
    "stop bytes o",
    "fail before",
    "fail after",
    "fail nothing",
    "fail bytes o",
    "refuse",
];

// How a state was come to: by how many orders, and by the steps of the first of them, a line each; whether a call was cut on
// the way, and whether those from here are.
#[derive(Drop)]
struct Came {
    orders: u64,
    steps: String,
    was_cut: bool,
    cuts: bool,
}

// A state that was come to, and what tells it from others beside what stands.
#[derive(Drop)]
struct State {
    core: Core,
    key: Text,
    came: Came,
}

// A table: who recovers last, and what came of it so far. Each `every`th of the states without a cut has its calls cut, if
// that isn't 0. The orders that count are then those with a cut, and else those without one.
#[derive(Drop)]
struct Table<'a> {
    script: &'a Script<'a>,
    heirs: &'a str,
    every: u64,
    states: u64,
    cut_at: u64,
    wrong: u64,
    first: Answer,
    ends: Items<(Text, u64)>,
}

// The state that steps come to; none if one of them isn't allowed.
fn reached(script: &Script<'_>, steps: &str, out: &mut Answer) -> Option<Core> {
    let mut core = stand(script, out)?;
    let mut good = true;
    for line in steps.lines() {
        good = take_line(&mut core, line, out) && good;
    }
    if good {
        Some(core)
    } else {
        drop(core);
        None
    }
}

// Steps, with what becomes of the next call of an actor.
fn steps_with(steps: &str, actor: u32, way: &str, out: &mut Answer) -> String {
    match format!(in out.alloc(); "{steps}{actor} {way}\n") {
        Ok(steps) => steps,
        Err(_) => {
            out.lack();
            String::new(out.alloc())
        }
    }
}

// The files of the start with the changes of the commit places, in order.
fn folded(script: &Script<'_>, core: &Core, out: &mut Answer) -> Items<(Text, Text)> {
    let DiskView { files, locks } = view(script.case, out);
    drop(locks);
    let mut files = files;
    for (token, _) in core.places() {
        files = fold(files.items(), commit_line(script, *token), out);
    }
    files
}

// Whether recovery by all would leave these files, and no lock.
fn settles(core: &Core, wanted: &[(Text, Text)], out: &mut Answer) -> bool {
    match core.settled() {
        Ok(view) => are_same(view.files.items(), wanted) && view.locks.items().is_empty(),
        Err(Memory) => {
            out.lack();
            false
        }
    }
}

fn is_good(script: &Script<'_>, core: &Core, out: &mut Answer) -> bool {
    let wanted = folded(script, core, out);
    settles(core, wanted.items(), out)
}

// Notes whether all is as it should be behind these steps.
fn note(table: &mut Table<'_>, steps: &str, good: bool) {
    if !good {
        if table.wrong == 0 {
            table.first.put(steps.as_bytes());
        }
        table.wrong = table.wrong.saturating_add(1);
    }
}

// Whether the same stands in two states. Who has a right follows from what each actor is doing.
fn stands_same(first: &Core, second: &Core) -> bool {
    are_same(first.files(), second.files()) && are_same_locks(first.locks(), second.locks())
}

// Where a state stands in a list.
fn place_of(states: &[State], core: &Core, key: &[u8], was_cut: bool) -> Option<usize> {
    for (k, state) in states.iter().enumerate() {
        if state.came.was_cut == was_cut
            && state.key.bytes() == key
            && stands_same(&state.core, core)
        {
            return Some(k);
        }
    }
    None
}

// Counts a new state, if no call was cut before it: whether the calls from there are cut.
fn count(table: &mut Table<'_>, was_cut: bool) -> bool {
    if was_cut {
        return false;
    }
    table.states = table.states.saturating_add(1);
    let cuts = table.every > 0 && table.states % table.every.max(1) == 0;
    if cuts {
        table.cut_at = table.cut_at.saturating_add(1);
    }
    cuts
}

// A state that wasn't come to before.
fn new_state(
    table: &mut Table<'_>,
    core: Core,
    key: Text,
    steps: String,
    orders: u64,
    was_cut: bool,
    out: &mut Answer,
) -> State {
    let good = is_good(table.script, &core, out);
    note(table, steps.as_str(), good);
    let cuts = count(table, was_cut);
    let came = Came {
        orders,
        steps,
        was_cut,
        cuts,
    };
    State { core, key, came }
}

// Puts a state that so many orders came to, or more orders to one that stands.
fn put_state(
    table: &mut Table<'_>,
    core: Core,
    steps: String,
    orders: u64,
    was_cut: bool,
    next: &mut Items<State>,
    out: &mut Answer,
) {
    let key = key_of(&core, out);
    match place_of(next.items(), &core, key.bytes(), was_cut) {
        Some(at) => {
            drop(core);
            drop(steps);
            if at < next.items().len() {
                let state = next.get_mut(at);
                state.came.orders = state.came.orders.saturating_add(orders);
            }
        }
        None => {
            let state = new_state(table, core, key, steps, orders, was_cut, out);
            out.note(next.push(state));
        }
    }
}

// What becomes of the next call of an actor, in one way.
fn go(
    table: &mut Table<'_>,
    from: &Came,
    actor: u32,
    way: &str,
    was_cut: bool,
    next: &mut Items<State>,
    out: &mut Answer,
) {
    let steps = steps_with(from.steps.as_str(), actor, way, out);
    if let Some(core) = reached(table.script, steps.as_str(), out) {
        put_state(table, core, steps, from.orders, was_cut, next, out);
    }
}

// Its next call, in a state that isn't wanted any more.
fn go_last(
    table: &mut Table<'_>,
    from: &Came,
    core: Core,
    actor: u32,
    next: &mut Items<State>,
    out: &mut Answer,
) {
    let mut core = core;
    if take(&mut core, actor, StepKind::Call, out) {
        let steps = steps_with(from.steps.as_str(), actor, "call 1", out);
        put_state(table, core, steps, from.orders, from.was_cut, next, out);
    } else {
        drop(core);
    }
}

// Its next call, cut in each way.
fn go_cut(
    table: &mut Table<'_>,
    from: &Came,
    actor: u32,
    next: &mut Items<State>,
    out: &mut Answer,
) {
    if from.cuts {
        for way in CUTS {
            go(table, from, actor, way, true, next, out);
        }
    }
}

// The calls of an actor to the end of its recovery: whether each left all as it should be.
fn recover_by(script: &Script<'_>, core: &mut Core, heir: u32, out: &mut Answer) -> bool {
    let mut good = take(core, heir, StepKind::Recover, out);
    for _ in 0..MOST_CALLS {
        if !take(core, heir, StepKind::Call, out) {
            return good;
        }
        good = is_good(script, core, out) && good;
    }
    false
}

// Recoveries by the heirs: whether what should stand does then, and nothing else.
fn recover(table: &Table<'_>, core: &mut Core, out: &mut Answer) -> bool {
    let mut good = true;
    for heir in table.heirs.split(' ') {
        good = recover_by(table.script, core, number(heir).min(99) as u32, out) && good;
    }
    let wanted = folded(table.script, core, out);
    good && core.locks().is_empty() && are_same(core.files(), wanted.items())
}

// Adds to the orders that end with these commit places, if some do: whether they do.
fn add_orders(ends: &mut Items<(Text, u64)>, places: &[u8], orders: u64) -> bool {
    for k in 0..ends.items().len() {
        if k < ends.items().len() {
            let end = ends.get_mut(k);
            if end.0.bytes() == places {
                end.1 = end.1.saturating_add(orders);
                return true;
            }
        }
    }
    false
}

// Notes with which commit places so many orders end.
fn note_end(table: &mut Table<'_>, core: &Core, orders: u64, out: &mut Answer) {
    let mut places = Answer::new(out.alloc());
    put_places(core, &mut places);
    if !add_orders(&mut table.ends, places.bytes(), orders) {
        let places = out.copied(places.bytes());
        out.note(table.ends.push((places, orders)));
    }
}

// The end of orders: the recoveries.
fn end(table: &mut Table<'_>, from: &Came, core: Core, out: &mut Answer) {
    if from.was_cut == (table.every > 0) {
        note_end(table, &core, from.orders, out);
    }
    let mut core = core;
    let good = recover(table, &mut core, out);
    note(table, from.steps.as_str(), good);
    drop(core);
}

// All that may come next in a state. The last that may call does so there, and any other where its steps are taken again.
fn go_from(table: &mut Table<'_>, from: State, next: &mut Items<State>, out: &mut Answer) {
    let State { core, key, came } = from;
    drop(key);
    let mut actor = 0u32;
    let mut last = 0u32;
    for member in core.members() {
        actor = actor.saturating_add(1);
        if matches!(&member.doing, Doing::Bracket { .. }) {
            if last > 0 {
                go(table, &came, last, "call 1", came.was_cut, next, out);
            }
            go_cut(table, &came, actor, next, out);
            last = actor;
        }
    }
    if last > 0 {
        go_last(table, &came, core, last, next, out);
    } else {
        end(table, &came, core, out);
    }
    drop(came);
}

// The states one call on.
fn next_states(table: &mut Table<'_>, states: Items<State>, out: &mut Answer) -> Items<State> {
    let mut next = Items::new(out.alloc());
    for state in states.into_vec() {
        go_from(table, state, &mut next, out);
    }
    next
}

// Goes through all states, by how many calls come before them.
fn go_through(table: &mut Table<'_>, out: &mut Answer) {
    let mut states = Items::new(out.alloc());
    if let Some(core) = stand(table.script, out) {
        let steps = String::new(out.alloc());
        put_state(table, core, steps, 1, false, &mut states, out);
    }
    for _ in 0..MOST_CALLS {
        states = next_states(table, states, out);
    }
    if !states.items().is_empty() {
        out.lack();
    }
}

// Puts what a table came to.
fn put_table(table: &Table<'_>, out: &mut Answer) {
    if table.every > 0 {
        out.put_shown(&table.cut_at);
        out.put_plain(b" of ");
    }
    out.put_shown(&table.states);
    out.put_plain(b" states");
    if table.wrong > 0 {
        out.put_plain(b", ");
        out.put_shown(&table.wrong);
        out.put_plain(b" wrong, first ");
        out.put_plain(table.first.bytes());
    }
    for (places, orders) in table.ends.items() {
        out.put_plain(b"\n");
        out.put_shown(orders);
        out.put_plain(b" orders:");
        out.put_plain(places.bytes());
    }
}

/// Puts what all orders come to, which are followed by recoveries by these actors; if `cuts`, with each call cut in turn
/// in each state of which the first number says so.
pub fn put_orders(script: &Script<'_>, rest: &str, cuts: bool, out: &mut Answer) {
    let (every, heirs) = if cuts { cut(rest) } else { ("0", rest) };
    let mut table = Table {
        script,
        heirs,
        every: number(every),
        states: 0,
        cut_at: 0,
        wrong: 0,
        first: Answer::new(out.alloc()),
        ends: Items::new(out.alloc()),
    };
    go_through(&mut table, out);
    put_table(&table, out);
    drop(table);
}
