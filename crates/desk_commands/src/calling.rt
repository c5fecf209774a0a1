// Macros that are called and listed.
ghost use Rattle.std.specs.Prelude.{◌≡◌, ◌<◌, ◌++◌, [], length, slice_index_or, IfOk, OnOk};
ghost use Rattle.std.specs.List.{flat_map};
ghost use Rattle.command_desk.specs.Answers.{Means};
ghost use Rattle.command_desk.specs.Desks.{IsWithin};
ghost use Rattle.desk_commands.specs.Calling.{call, call_named, calling, defines, listed};

use command_desk::{Ask, Desk, Refusal, Steps, as_lines, fault, put_lines, says, unchanged};
use mail_text::{Items, Memory, Text};
use mailx_macros::Macros;
use std::alloc::Global;

// These lines are asked for, and nothing is changed.
fn calling(alloc: Global, lines: &[Text]) -> Result<Steps, Memory>
    ensures { IfOk result (λ steps. steps ≡ calling lines.now) }
{
    let text = as_lines(alloc, lines)?;
    let mut asks = Items::new(alloc);
    asks.push(Ask::Lines { text })?;
    Ok(Steps {
        asks,
        effects: unchanged(alloc),
    })
}

// The lines of the macro of this name are asked for, if it is defined.
fn call_named(alloc: Global, desk: &Desk, name: &[u8]) -> Result<Steps, Refusal>
    ensures means { Means result (call_named desk.now name.now) }
    ensures within { IsWithin desk.now result }
{
    match desk.macros.body(name) {
        Some(lines) => Ok(calling(alloc, lines)?),
        None => Err(fault(alloc, name, b": no such macro")),
    }
}

/// `call`: the lines of the macro that its one word names are carried out next. Refused are another number of words,
/// and a name that isn't defined.
pub fn call(alloc: Global, desk: &Desk, words: &[Text]) -> Result<Steps, Refusal>
    ensures means { Means result (call desk.now words.now) }
    ensures within { IsWithin desk.now result }
{
    match words {
        [name] => call_named(alloc, desk, name.bytes()),
        _ => Err(fault(alloc, b"call", b": bad arguments")),
    }
}

// Puts a macro as it is listed.
fn put_macro(out: &mut Text, name: &[u8], lines: &[Text]) -> Result<(), Memory>
    ensures { OnOk result (out.new ≡ out.old ++ listed (name.now, lines.now)) }
{
    out.push(b"define ")?;
    out.push(name)?;
    out.push(b" {\n")?;
    put_lines(out, lines)?;
    out.push(b"}\n")
}

// Puts the macro at a place.
fn put_macro_at(out: &mut Text, macros: &Macros, k: usize) -> Result<(), Memory>
    requires { k < length macros.now.done }
    ensures { OnOk result (out.new ≡ out.old ++ listed (slice_index_or macros.now.done k ([], []))) }
{
    match (macros.name(k), macros.body_at(k)) {
        (Some(name), Some(lines)) => put_macro(out, name, lines),
        _ => Ok(()),
    }
}

// All macros as they are listed.
fn all_listed(alloc: Global, macros: &Macros) -> Result<Text, Memory>
    ensures { IfOk result (λ t. t ≡ flat_map listed macros.now.done) }
{
    let mut out = Text::new(alloc);
    for k in 0..macros.count() {
        put_macro_at(&mut out, macros, k)?;
    }
    Ok(out)
}

/// `defines`: the macros are listed in order of definition, each as `define NAME {`, its lines, and `}`.
pub fn defines(alloc: Global, desk: &Desk) -> Result<Steps, Refusal>
    ensures means { Means result (defines desk.now) }
    ensures within { IsWithin desk.now result }
{
    says(alloc, all_listed(alloc, &desk.macros)?, unchanged(alloc))
}
