ghost use Rattle.std.specs.Prelude.{◌≡◌, ◌≤◌, ◌<◌, ◌⊎◌, ◌↔◌, None, length, slice_get, option_map, IsSome, IfOk, IfErr, IsErrAnd, OnOk, OnErr, MatchOption, Ok, Err, [], vec_capacity, false};
ghost use Rattle.std.specs.List.{position};
ghost use Rattle.std.specs.Map.{keys_of, values_of};
ghost use Rattle.mailx_vars.specs.Settings.{AreSettings, defaults, is_set, number_in, refusal, value_of, with_value, without};
ghost use Rattle.mailx_vars.specs.Changes.{changed, named};

use crate::environment::first_pair;
use crate::error::VarError;
use crate::names::is_variable_name;
use mail_text::{Memory, Text, read_number};
use std::alloc::Global;
use std::marker::Model;

/// The most variables that can be set.
const VARIABLE_LIMIT: usize = 1_000;

/// A change of a variable.
#[derive(Drop)]
pub struct Setting {
    /// Its name.
    pub name: Text,
    /// Its value, or none if it is unset.
    pub value: Option<Text>,
}

/// Variables with their values, in order of first setting, and room for as many as can be set. Contracts see the
/// list of pairs of name and value.
#[derive(Drop)]
pub struct Vars {
    list: Vec<(Text, Text)>,
}

impl Model for Vars {
    ghost use Rattle.std.specs.Prelude.{◌≤◌, vec_capacity};
    ghost use Rattle.mailx_vars.specs.Settings.{Settings, AreSettings};

    ghost Value = { Settings };

    ghost view = { λ v. v.list.items };

    ghost invariant = { λ v. AreSettings v.list.items × (1000 ≤ vec_capacity v.list) };
}

// The place of a variable.
fn place_of(list: &[(Text, Text)], name: &[u8]) -> Option<usize>
    ensures { result ≡ position (named name.now) list.now }
{
    list.iter().position(|pair| name == pair.0.bytes())
}

// The value of a variable.
fn value_in<'a>(list: &'a [(Text, Text)], name: &[u8]) -> Option<&'a [u8]>
    ensures { option_map (λ value. value.now) result ≡ value_of list.now name.now }
{
    match first_pair(list, name) {
        Some((_, value)) => Some(value.bytes()),
        None => None,
    }
}

// Puts a value under a name: in its place if the name is there, else at the end, if there is room.
#[tactic(auto, using(crate::proofs::PairLemmas::put_here, crate::proofs::PairLemmas::put_new, crate::proofs::PairLemmas::new_name, crate::proofs::PairLemmas::place_within))]
fn put(list: &mut Vec<(Text, Text)>, name: Text, value: Text)
    requires { is_set list.old.items name ≡ false → length list.old.items < vec_capacity list.old }
    ensures items { list.new.items ≡ with_value list.old.items name value }
    ensures room { vec_capacity list.new ≡ vec_capacity list.old }
{
    match place_of(list, name.bytes()) {
        Some(k) => list[k] = (name, value),
        None => list.push_reserved((name, value)),
    }
}

// Takes a variable out, and says whether it was set.
#[tactic(auto, using(crate::proofs::PairLemmas::out_none, crate::proofs::PairLemmas::found_none, crate::proofs::PairLemmas::place_within))]
fn take_out(list: &mut Vec<(Text, Text)>, name: &[u8]) -> bool
    ensures said { result ≡ is_set list.old.items name.now }
    ensures items { list.new.items ≡ without list.old.items name.now }
    ensures room { vec_capacity list.new ≡ vec_capacity list.old }
{
    match place_of(list, name) {
        Some(k) => {
            list.remove(k);
            true
        }
        None => false,
    }
}

// No variables, with room for as many as can be set.
fn none(alloc: Global) -> Result<Vec<(Text, Text)>, Memory>
    ensures items { IfOk result (λ list. list.items ≡ []) }
    ensures settings { IfOk result (λ list. AreSettings list.items) }
    ensures room { IfOk result (λ list. 1000 ≤ vec_capacity list) }
{
    Ok(Vec::with_capacity(alloc, VARIABLE_LIMIT)?)
}

// A copy of variables, with room for as many as can be set.
#[tactic(auto, using(crate::proofs::PairLemmas::same_settings, crate::proofs::PairLemmas::few_settings))]
fn copy_of(alloc: Global, pairs: &[(Text, Text)]) -> Result<Vec<(Text, Text)>, Memory>
    requires { AreSettings pairs.now }
    ensures items { IfOk result (λ list. list.items ≡ pairs.now) }
    ensures settings { IfOk result (λ list. AreSettings list.items) }
    ensures room { IfOk result (λ list. 1000 ≤ vec_capacity list) }
{
    let mut list = Vec::with_capacity(alloc, VARIABLE_LIMIT)?;
    for pair in pairs {
        let name = Text::copy(alloc, pair.0.bytes())?;
        let value = Text::copy(alloc, pair.1.bytes())?;
        list.push_reserved((name, value));
    }
    Ok(list)
}

impl Vars {
    /// The variables that are set at the start: `asksub`, `header` and `save`, each to nothing, `escape` to `~`,
    /// `indentprefix` to a tab, `prompt` to `? `, `screen` to 20, `toplines` to 5, `sendmail` to its usual path.
    pub fn new(alloc: Global) -> Result<Vars, Memory>
        ensures { IfOk result (λ vars. vars ≡ defaults) }
    {
        let list = none(alloc)?;
        let mut vars = Vars { list };
        vars.start(b"asksub", b"")?;
        vars.start(b"header", b"")?;
        vars.start(b"save", b"")?;
        vars.start(b"escape", b"~")?;
        vars.start(b"indentprefix", b"\t")?;
        vars.start(b"prompt", b"? ")?;
        vars.start(b"screen", b"20")?;
        vars.start(b"toplines", b"5")?;
        vars.start(b"sendmail", b"/usr/lib/sendmail")?;
        Ok(vars)
    }

    // Sets a variable that can be set.
    fn start(&mut self, name: &[u8], value: &[u8]) -> Result<(), Memory>
        ensures { OnOk result (self.new ≡ with_value self.old name.now value.now) }
    {
        match self.set(name, value) {
            Ok(()) => Ok(()),
            Err(_) => Err(Memory),
        }
    }

    /// A copy of the variables, in the same order.
    pub fn copy(&self) -> Result<Vars, Memory>
        ensures { IfOk result (λ vars. vars ≡ self.now) }
    {
        let list = copy_of(*self.list.allocator(), &self.list)?;
        Ok(Vars { list })
    }

    /// Why a variable can't be set: `BadName` if the name is empty or holds `=` or a byte outside 33 to 126; else
    /// `TooMany` if the name is new and 1,000 are set. It takes no memory.
    pub fn refuses(&self, name: &[u8]) -> Option<VarError>
        ensures { result ≡ refusal self.now name.now }
    {
        if !is_variable_name(name) {
            return Some(VarError::BadName);
        }
        if !self.flag(name) && self.count() >= VARIABLE_LIMIT {
            return Some(VarError::TooMany);
        }
        None
    }

    // Puts a value under a name that isn't refused: in its place if the name is there, else at the end.
    #[tactic(auto, using(crate::proofs::PairLemmas::settings_put, crate::proofs::PairLemmas::room_for))]
    fn put(&mut self, name: Text, value: Text)
        requires { refusal self.old name ≡ None }
        ensures { self.new ≡ with_value self.old name value }
    {
        put(&mut self.list, name, value);
    }

    /// Sets a variable. One that is set already keeps its place, a new one goes last. After an error, which `refuses`
    /// foretells unless memory ran out, the variables are as before.
    pub fn set(&mut self, name: &[u8], value: &[u8]) -> Result<(), VarError>
        ensures refused { MatchOption (refusal self.old name.now) (IfErr result (λ e. e ≡ VarError.Memory))
            (λ e. result ≡ Err e) }
        ensures ok { OnOk result (self.new ≡ with_value self.old name.now value.now) }
        ensures err { OnErr result (self.new ≡ self.old) }
    {
        if let Some(e) = self.refuses(name) {
            return Err(e);
        }
        let alloc = *self.list.allocator();
        let name = Text::copy(alloc, name)?;
        let value = Text::copy(alloc, value)?;
        self.put(name, value);
        Ok(())
    }

    /// Makes a change of a variable, and takes no memory. One that `refuses` refuses is passed over.
    pub fn change(&mut self, setting: Setting)
        ensures { self.new ≡ changed self.old setting }
    {
        let Setting { name, value } = setting;
        match value {
            Some(value) => {
                if self.refuses(name.bytes()).is_none() {
                    self.put(name, value);
                }
            }
            None => {
                self.unset(name.bytes());
            }
        }
    }

    /// Unsets a variable, and says whether it was set. It takes no memory.
    #[tactic(auto, using(crate::proofs::PairLemmas::settings_without))]
    pub fn unset(&mut self, name: &[u8]) -> bool
        ensures said { result ≡ is_set self.old name.now }
        ensures gone { self.new ≡ without self.old name.now }
    {
        take_out(&mut self.list, name)
    }

    /// The value of a variable; none if it is unset. It takes no memory.
    pub fn get(&self, name: &[u8]) -> Option<&[u8]>
        ensures { option_map (λ value. value.now) result ≡ value_of self.now name.now }
    {
        value_in(&self.list, name)
    }

    /// Whether a variable is set, be it to nothing. It takes no memory.
    pub fn flag(&self, name: &[u8]) -> bool
        ensures { result ≡ is_set self.now name.now }
    {
        self.get(name).is_some()
    }

    /// How many variables are set: at most 1,000. Their names are distinct.
    pub fn count(&self) -> usize
        ensures count { result ≡ length self.now }
        ensures settings { AreSettings self.now }
    {
        self.list.len()
    }

    /// The name of the variable at place `k`, from 0, in order of first setting; none past the last. It takes no
    /// memory.
    pub fn name(&self, k: usize) -> Option<&[u8]>
        ensures name { option_map (λ name. name.now) result ≡ slice_get (keys_of self.now) k }
        ensures found { IsSome result ↔ (k < length self.now) }
    {
        match self.list.get(k) {
            Some((name, _)) => Some(name.bytes()),
            None => None,
        }
    }

    /// The value of the variable at place `k`, from 0, in order of first setting; none past the last. It takes no
    /// memory.
    pub fn value(&self, k: usize) -> Option<&[u8]>
        ensures value { option_map (λ value. value.now) result ≡ slice_get (values_of self.now) k }
        ensures found { IsSome result ↔ (k < length self.now) }
    {
        match self.list.get(k) {
            Some((_, value)) => Some(value.bytes()),
            None => None,
        }
    }

    /// The number that a variable's value writes in decimal digits. `NotANumber` comes if the variable is unset, or
    /// `read_number` refuses its value.
    pub fn number(&self, name: &[u8]) -> Result<u64, VarError>
        ensures { MatchOption (number_in self.now name.now)
            (IsErrAnd result (λ e. (e ≡ VarError.NotANumber name.now) ⊎ (e ≡ VarError.Memory)))
            (λ n. result ≡ Ok n) }
    {
        if let Some(value) = self.get(name) {
            if let Some(n) = read_number(value) {
                return Ok(n);
            }
        }
        let name = Text::copy(*self.list.allocator(), name)?;
        Err(VarError::NotANumber { name })
    }
}
