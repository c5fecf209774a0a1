// Commands that set and unset variables.
ghost use Rattle.std.specs.Prelude.{◌≡◌, ◌<◌, ◌+◌, ◌++◌, [], Some, None, map, length, slice_index_or, IfOk, IfErr, OnOk};
ghost use Rattle.std.specs.List.{flat_map};
ghost use Rattle.mailx_vars.specs.Changes.{changed};
ghost use Rattle.command_desk.specs.Answers.{Means, IsRefusedBy};
ghost use Rattle.command_desk.specs.Desks.{IsDesk, IsWithin};
ghost use Rattle.desk_commands.specs.Setting.{setting_line, IsSplit, unsets, unsetting, setting_of, line_of_change, are_few, first_refusal, first_apart, refusal_line, sets, set, unset};

use command_desk::{Desk, Effects, Refusal, Steps, effects_alone, fault, says, unchanged};
use mail_text::{Items, Memory, Text};
use mailx_vars::{Setting, VarError, Vars};
use std::alloc::Global;

/// The most variables that can be set.
const VARIABLE_LIMIT: usize = 1_000;

// Puts a variable as it is listed.
fn put_setting(out: &mut Text, name: &[u8], value: &[u8]) -> Result<(), Memory>
    ensures { OnOk result (out.new ≡ out.old ++ setting_line (name.now, value.now)) }
{
    out.push(name)?;
    out.push(b"=")?;
    out.push(value)?;
    out.push(b"\n")
}

// What stands before the first `=` and after it, if there is one.
fn equals_in(word: &[u8]) -> Option<(&[u8], &[u8])>
    ensures { IsSplit result word.now }
{
    for (k, b) in word.iter().enumerate() {
        if *b == b'=' {
            let (name, _) = word.split_at(k);
            let (_, value) = word.split_at(k + 1);
            return Some((name, value));
        }
    }
    None
}

// Whether the word is `no` and a name.
fn unsets(word: &[u8]) -> bool
    ensures { result ≡ unsets word.now }
{
    word.starts_with(b"no") && word.len() > 2
}

// The change that unsets a variable.
fn unsetting(alloc: Global, name: &[u8]) -> Result<Setting, Memory>
    ensures { IfOk result (λ setting. setting ≡ unsetting name.now) }
{
    Ok(Setting {
        name: Text::copy(alloc, name)?,
        value: None,
    })
}

// What a word of `set` changes: `name=value`, `noname` or `name`.
fn setting_of(alloc: Global, word: &[u8]) -> Result<Setting, Memory>
    ensures { IfOk result (λ setting. setting ≡ setting_of word.now) }
{
    match equals_in(word) {
        Some((name, value)) => Ok(Setting {
            name: Text::copy(alloc, name)?,
            value: Some(Text::copy(alloc, value)?),
        }),
        None if unsets(word) => {
            let (_, name) = word.split_at(2);
            unsetting(alloc, name)
        }
        None => Ok(Setting {
            name: Text::copy(alloc, word)?,
            value: Some(Text::new(alloc)),
        }),
    }
}

// What the words of `set` change, in order.
fn settings_of(alloc: Global, words: &[Text]) -> Result<Items<Setting>, Memory>
    ensures { IfOk result (λ settings. settings ≡ map setting_of words.now) }
{
    let mut settings = Items::new(alloc);
    for word in words {
        settings.push(setting_of(alloc, word.bytes())?)?;
    }
    Ok(settings)
}

// The refusal to set a variable of this name.
fn refusal(alloc: Global, name: &[u8], error: VarError) -> Refusal
    ensures { IsRefusedBy result (Some (refusal_line name.now error)) }
{
    match error {
        VarError::BadName => fault(alloc, name, b": bad name"),
        _ => fault(alloc, b"", b"too many variables"),
    }
}

// Refuses a change that can't be made.
fn accepts(alloc: Global, vars: &Vars, setting: &Setting) -> Result<(), Refusal>
    ensures ok { OnOk result (line_of_change vars.now setting.now.name setting.now.value ≡ None) }
    ensures err { IfErr result (λ r. IsRefusedBy r (line_of_change vars.now setting.now.name setting.now.value)) }
{
    if setting.value.is_none() {
        return Ok(());
    }
    match vars.refuses(setting.name.bytes()) {
        Some(error) => Err(refusal(alloc, setting.name.bytes(), error)),
        None => Ok(()),
    }
}

// Refuses the first change that can't be made alone.
fn accepts_apart(alloc: Global, vars: &Vars, settings: &[Setting]) -> Result<(), Refusal>
    ensures ok { OnOk result (first_apart vars.now settings.now ≡ None) }
    ensures err { IfErr result (λ refusal. IsRefusedBy refusal (first_apart vars.now settings.now)) }
{
    for setting in settings {
        accepts(alloc, vars, setting)?;
    }
    Ok(())
}

// Makes a change that can be made.
fn make(vars: &mut Vars, setting: &Setting) -> Result<(), Memory>
    requires { line_of_change vars.old setting.now.name setting.now.value ≡ None }
    ensures { OnOk result (vars.new ≡ changed vars.old setting.now) }
{
    match &setting.value {
        Some(value) => match vars.set(setting.name.bytes(), value.bytes()) {
            Ok(()) => Ok(()),
            Err(_) => Err(Memory),
        },
        None => {
            vars.unset(setting.name.bytes());
            Ok(())
        }
    }
}

// Refuses the first change that can't be made once those before it are, which is tried on a copy of the variables.
fn accepts_in_turn(alloc: Global, vars: &Vars, settings: &[Setting]) -> Result<(), Refusal>
    ensures ok { OnOk result (first_refusal vars.now settings.now ≡ None) }
    ensures err { IfErr result (λ refusal. IsRefusedBy refusal (first_refusal vars.now settings.now)) }
{
    let mut vars = vars.copy()?;
    for setting in settings {
        accepts(alloc, &vars, setting)?;
        make(&mut vars, setting)?;
    }
    Ok(())
}

// Whether these changes are one, or can't reach the most variables that can be set.
fn are_few(vars: &Vars, settings: &[Setting]) -> bool
    ensures { result ≡ are_few vars.now settings.now }
{
    settings.len() <= 1 || settings.len() <= VARIABLE_LIMIT.saturating_sub(vars.count())
}

// Refuses the first change that can't be made.
fn accepts_all(alloc: Global, vars: &Vars, settings: &[Setting]) -> Result<(), Refusal>
    ensures ok { OnOk result (first_refusal vars.now settings.now ≡ None) }
    ensures err { IfErr result (λ refusal. IsRefusedBy refusal (first_refusal vars.now settings.now)) }
{
    if are_few(vars, settings) {
        accepts_apart(alloc, vars, settings)
    } else {
        accepts_in_turn(alloc, vars, settings)
    }
}

// Puts the variable at a place.
fn put_variable(out: &mut Text, vars: &Vars, k: usize) -> Result<(), Memory>
    requires { k < length vars.now }
    ensures { OnOk result (out.new ≡ out.old ++ setting_line (slice_index_or vars.now k ([], []))) }
{
    match (vars.name(k), vars.value(k)) {
        (Some(name), Some(value)) => put_setting(out, name, value),
        _ => Ok(()),
    }
}

// All variables, one a line.
fn listing(alloc: Global, vars: &Vars) -> Result<Text, Memory>
    ensures { IfOk result (λ t. t ≡ flat_map setting_line vars.now) }
{
    let mut out = Text::new(alloc);
    for k in 0..vars.count() {
        put_variable(&mut out, vars, k)?;
    }
    Ok(out)
}

// Changes of variables, and no other change.
fn sets(alloc: Global, settings: Items<Setting>) -> Effects
    ensures { result ≡ sets settings }
{
    Effects {
        settings,
        ..unchanged(alloc)
    }
}

/// `set`.
#[tactic(auto, using(command_desk::proofs::MeansLemmas::means_refused_by, command_desk::proofs::MeansLemmas::unless_none))]
pub fn set(alloc: Global, desk: &Desk, words: &[Text]) -> Result<Steps, Refusal>
    requires { IsDesk desk.now }
    ensures means { Means result (set desk.now words.now) }
    ensures within { IsWithin desk.now result }
{
    if words.is_empty() {
        let out = listing(alloc, &desk.vars)?;
        return says(alloc, out, unchanged(alloc));
    }
    let settings = settings_of(alloc, words)?;
    accepts_all(alloc, &desk.vars, settings.items())?;
    Ok(effects_alone(alloc, sets(alloc, settings)))
}

// What unsets these variables.
fn unset_all(alloc: Global, names: &[Text]) -> Result<Items<Setting>, Memory>
    ensures { IfOk result (λ settings. settings ≡ map unsetting names.now) }
{
    let mut settings = Items::new(alloc);
    for name in names {
        settings.push(unsetting(alloc, name.bytes())?)?;
    }
    Ok(settings)
}

/// `unset`.
pub fn unset(alloc: Global, desk: &Desk, words: &[Text]) -> Result<Steps, Refusal>
    requires { IsDesk desk.now }
    ensures means { Means result (unset desk.now words.now) }
    ensures within { IsWithin desk.now result }
{
    if words.is_empty() {
        return Err(fault(alloc, b"unset", b": bad arguments"));
    }
    let settings = unset_all(alloc, words)?;
    Ok(effects_alone(alloc, sets(alloc, settings)))
}
