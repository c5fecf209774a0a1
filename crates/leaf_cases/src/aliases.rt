// Cases of aliases.
use crate::case::{field, number, parts, words};
use alias_groups::{Aliases, ExpandError, Own, each_once};
use case_blocks::{Answer, cut};
use mail_text::{Items, Memory, Text};

pub fn put(case: &[Text], out: &mut Answer) {
    if words(case, 1) == "once" {
        return put_once(words(case, 2), out);
    }
    match Aliases::new(out.alloc()) {
        Ok(mut aliases) => {
            put_with(&mut aliases, case, out);
            drop(aliases);
        }
        Err(Memory) => out.put_bad(),
    }
}

// A case that begins without aliases.
fn put_with(aliases: &mut Aliases, case: &[Text], out: &mut Answer) {
    match words(case, 1) {
        "done" => put_done(aliases, words(case, 2), out),
        "expand" => put_expanded(aliases, case, out),
        "chain" => put_chain(aliases, number(case, 2), false, out),
        "cycle" => put_chain(aliases, number(case, 2), true, out),
        "group" => put_group(aliases, number(case, 2), out),
        _ => out.put_bad(),
    }
}

// What each step answers, with `;` after it. Each step is the words of a definition if `defines` is set.
fn put_steps(aliases: &mut Aliases, steps: &str, defines: bool, out: &mut Answer) {
    for step in steps.split(';') {
        if defines {
            put_definition(aliases, step, out);
        } else {
            put_step(aliases, step, out);
            out.put(b";");
        }
    }
}

// What each step answers, and then the aliases that they leave, as they are listed.
fn put_done(aliases: &mut Aliases, steps: &str, out: &mut Answer) {
    put_steps(aliases, steps, false, out);
    put_text(aliases.lines(out.alloc()), out);
}

// A text, if there was memory for it.
fn put_text(text: Result<Text, Memory>, out: &mut Answer) {
    match text {
        Ok(text) => out.put(text.bytes()),
        Err(Memory) => out.put_bad(),
    }
}

// Does a step: its word, and then the words that it takes.
fn put_step(aliases: &mut Aliases, step: &str, out: &mut Answer) {
    let (word, rest) = cut(step);
    let taken = parts(rest, ' ', out);
    match (word, taken.items()) {
        ("define", [name, to @ ..]) => put_defined(aliases, name, to, out),
        ("give", [name, to @ ..]) => out.note(aliases.give(name.bytes(), to)),
        ("remove", [name]) => out.put_flag(aliases.remove(name.bytes())),
        ("remove-all", names) => aliases.remove_all(names),
        ("line", [name]) => put_text(aliases.line(out.alloc(), name.bytes()), out),
        ("members", [name]) => match aliases.members(name.bytes()) {
            Some(members) => out.put_texts(b" ", members, b""),
            None => out.put(b"none"),
        },
        ("refuses", to) => out.put_found(aliases.refuses(to)),
        _ => out.put_bad(),
    }
}

fn put_defined(aliases: &mut Aliases, name: &Text, to: &[Text], out: &mut Answer) {
    match aliases.define(name.bytes(), to) {
        Ok(()) => out.put(b"ok"),
        Err(error) => out.put_error(error),
    }
}

// Defines an alias, if there is a name.
fn put_definition(aliases: &mut Aliases, words: &str, out: &mut Answer) {
    if let [name, to @ ..] = parts(words, ' ', out).items() {
        put_defined(aliases, name, to, out);
        out.put(b";");
    }
}

// What names stand for, of a user with other names.
fn put_expanded(aliases: &mut Aliases, case: &[Text], out: &mut Answer) {
    let own = Own {
        user: out.copied(field(case, 2)),
        alternates: parts(words(case, 3), ' ', out),
    };
    put_steps(aliases, words(case, 5), true, out);
    let names = parts(words(case, 6), ' ', out);
    put_expansion(
        aliases.expand(names.items(), &own, words(case, 4) == "metoo"),
        out,
    );
}

fn put_expansion(expansion: Result<Vec<Text>, ExpandError>, out: &mut Answer) {
    match expansion {
        Ok(names) => {
            out.put_shown(&names.len());
            if names.len() < 10 {
                out.put_texts(b" ", &names, b"");
            }
        }
        Err(error) => out.put_error(error),
    }
}

// `count` aliases, each with the next as its member and the last with the first if `closes`, and what the first stands
// for.
fn put_chain(aliases: &mut Aliases, count: u32, closes: bool, out: &mut Answer) {
    for n in 0..count {
        let next = n.saturating_add(1);
        let last = closes && next == count;
        let name = numbered(n, out);
        let to = numbered(if last { 0 } else { next }, out);
        if let Err(error) = aliases.define(name.bytes(), &[to]) {
            out.put_error(error);
        }
    }
    put_first(aliases, out);
}

// An alias of `count` names, and what it stands for.
fn put_group(aliases: &mut Aliases, count: u32, out: &mut Answer) {
    let mut names = Items::new(out.alloc());
    for n in 0..count {
        let name = numbered(n.saturating_add(1), out);
        out.note(names.push(name));
    }
    let name = numbered(0, out);
    put_defined(aliases, &name, names.items(), out);
    out.put(b";");
    put_first(aliases, out);
}

// What the name of number 0 stands for.
fn put_first(aliases: &Aliases, out: &mut Answer) {
    let own = Own {
        user: Text::new(out.alloc()),
        alternates: Items::new(out.alloc()),
    };
    let first = numbered(0, out);
    put_expansion(aliases.expand(&[first], &own, false), out);
}

// A name with this number.
fn numbered(n: u32, out: &mut Answer) -> Text {
    match format!(in out.alloc(); "n{n}") {
        Ok(name) => out.copied(name.as_bytes()),
        Err(_) => {
            out.lack();
            Text::new(out.alloc())
        }
    }
}

fn put_once(names: &str, out: &mut Answer) {
    let names = parts(names, ' ', out);
    match each_once(out.alloc(), names.items()) {
        Ok(once) => out.put_texts(b" ", once.items(), b""),
        Err(Memory) => out.lack(),
    }
}
