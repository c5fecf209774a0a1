// Cases of variables, of the environment and of file names.
use crate::case::{field, number, place, words};
use case_blocks::Answer;
use mail_text::{Items, Memory, Text};
use mailx_vars::{
    Places, Vars, expand_name, is_short_name, is_user_name, is_variable_name, knows_user,
};
use std::alloc::Global;

pub fn put(vars: &mut Vars, case: &[Text], out: &mut Answer) {
    let text = field(case, 2);
    match words(case, 1) {
        "new" => put_new(vars, out),
        "set" => put_set(vars, text, field(case, 3), out),
        "unset" => out.put_flag(vars.unset(text)),
        "copied" => put_copied(vars, text, out),
        "fill" => put_filled(vars, number(case, 2), out),
        _ => put_asked(vars, case, out),
    }
}

// What is asked of the variables.
fn put_asked(vars: &Vars, case: &[Text], out: &mut Answer) {
    let text = field(case, 2);
    match words(case, 1) {
        "number" => match vars.number(text) {
            Ok(n) => out.put_shown(&n),
            Err(error) => out.put_error(error),
        },
        "get" => out.put(vars.get(text).unwrap_or(b"unset")),
        "flag" => out.put_flag(vars.flag(text)),
        "all" => put_all(vars, out),
        "count" => out.put_shown(&vars.count()),
        "name at" => out.put(vars.name(place(case, 2)).unwrap_or(b"none")),
        "value at" => out.put(vars.value(place(case, 2)).unwrap_or(b"none")),
        "short name" => out.put_flag(is_short_name(text)),
        "user name" => out.put_flag(is_user_name(text)),
        "variable name" => out.put_flag(is_variable_name(text)),
        _ => put_environment(case, out),
    }
}

// Variables as at the start of a run.
fn put_new(vars: &mut Vars, out: &mut Answer) {
    match Vars::new(out.alloc()) {
        Ok(new) => *vars = new,
        Err(Memory) => out.lack(),
    }
    put_all(vars, out);
}

fn put_set(vars: &mut Vars, name: &[u8], value: &[u8], out: &mut Answer) {
    match vars.set(name, value) {
        Ok(()) => out.put(b"ok"),
        Err(error) => out.put_error(error),
    }
}

// Each variable in order, as `NAME=VALUE|`.
fn put_all(vars: &Vars, out: &mut Answer) {
    for k in 0..vars.count() {
        out.put(vars.name(k).unwrap_or(b"?"));
        out.put(b"=");
        out.put(vars.value(k).unwrap_or(b"?"));
        out.put(b"|");
    }
}

// Whether a variable that is unset was set, and a copy that was made before.
fn put_copied(vars: &mut Vars, name: &[u8], out: &mut Answer) {
    match vars.copy() {
        Ok(copy) => {
            out.put_flag(vars.unset(name));
            out.put(b" ");
            put_all(&copy, out);
            drop(copy);
        }
        Err(Memory) => out.lack(),
    }
}

// Sets `count` variables, and puts whether each could be set.
fn put_filled(vars: &mut Vars, count: u32, out: &mut Answer) {
    let mut all = true;
    for n in 0..count {
        all = all && is_set(out.alloc(), vars, n);
    }
    out.put_flag(all);
}

// Whether the variable of this number could be set.
fn is_set(alloc: Global, vars: &mut Vars, n: u32) -> bool {
    match format!(in alloc; "v{n}") {
        Ok(name) => vars.set(name.as_bytes(), b"").is_ok(),
        Err(_) => false,
    }
}

// The pairs of an environment, with `;` between one and the next.
fn pairs_of(text: &str, out: &mut Answer) -> Items<(Text, Text)> {
    let mut pairs = Items::new(out.alloc());
    for pair in text.split(';') {
        if let Some((name, value)) = pair.split_once('=') {
            let name = out.copied(name.as_bytes());
            let value = out.copied(value.as_bytes());
            out.note(pairs.push((name, value)));
        }
    }
    pairs
}

// A case over an environment; that of names is always the same.
fn put_environment(case: &[Text], out: &mut Answer) {
    let text = match words(case, 1) {
        "expand" => "HOME=/h;LOGNAME=u;MAIL=/v/u",
        _ => words(case, 2),
    };
    let pairs = pairs_of(text, out);
    if words(case, 1) == "places" {
        out.put_flag(knows_user(pairs.items()));
        out.put(b" ");
    }
    match Places::read(out.alloc(), pairs.items()) {
        Ok(Some(places)) => {
            put_of_places(&places, case, out);
            drop(places);
        }
        Ok(None) => out.put(b"none"),
        Err(Memory) => out.lack(),
    }
}

// What is asked of places: all of them, the width, or what a file name stands for.
fn put_of_places(places: &Places, case: &[Text], out: &mut Answer) {
    match words(case, 1) {
        "places" => put_each_place(places, out),
        "width" => out.put_shown(&places.width),
        "expand" => match Vars::new(out.alloc()) {
            Ok(mut vars) => {
                put_expanded(places, &mut vars, case, out);
                drop(vars);
            }
            Err(Memory) => out.lack(),
        },
        _ => out.put_bad(),
    }
}

fn put_place(place: &Text, out: &mut Answer) {
    out.put(place.bytes());
    out.put(b",");
}

fn put_each_place(places: &Places, out: &mut Answer) {
    put_place(&places.home, out);
    put_place(&places.user, out);
    put_place(&places.mail, out);
    put_place(&places.rc, out);
    put_place(&places.mbox, out);
    put_place(&places.dead, out);
    put_place(&places.lister, out);
    put_place(&places.shell, out);
    put_place(&places.editor, out);
    put_place(&places.visual, out);
    put_place(&places.tz, out);
    out.put_shown(&places.width);
}

// What a file name stands for, as a previous file and a folder may be given.
fn put_expanded(places: &Places, vars: &mut Vars, case: &[Text], out: &mut Answer) {
    if case.len() > 4 && vars.set(b"folder", field(case, 4)).is_err() {
        return out.put_bad();
    }
    let (name, previous) = (field(case, 2), field(case, 3));
    out.put_made(expand_name(out.alloc(), name, places, vars, previous));
}
