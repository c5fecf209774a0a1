ghost use Rattle.std.specs.Prelude.{◌≡◌, ◌≤◌, ◌<◌, ◌+◌, [], false, true, length, option_map, unwrap_or, is_some, IfOk, IfErr, OnOk, OnErr, MatchOption, Ok, Err};
ghost use Rattle.std.specs.List.{flat_map};
ghost use Rattle.alias_groups.specs.Groups.{AreGroups, define_refusal, is_alias, member_count, members_of, with_members, without};
ghost use Rattle.alias_groups.specs.Entries.{groups_in};
ghost use Rattle.alias_groups.specs.Expansion.{expansion};
ghost use Rattle.alias_groups.specs.Listing.{alias_line, listed};
ghost use Rattle.alias_groups.specs.Removal.{given, without_these};

use crate::error::{AliasError, ExpandError};
use crate::listing::put_alias;
use crate::own::{Own, dropped_names};
use crate::walk::expand_all;
use lru::LruCache;
use mail_text::{Memory, Text};
use std::alloc::Global;
use std::marker::Model;

/// The most members that all aliases can have together.
const MEMBER_LIMIT: usize = 100_000;

// Names with their members. Each stays where it is, and is found, put last or taken out in constant time.
type Groups = LruCache<Vec<u8>, Vec<Text>>;

/// Aliases with their members, in order of first definition. Contracts see the list of pairs of name and members.
#[derive(Drop)]
pub struct Aliases {
    alloc: Global,
    groups: Groups,
    members: usize,
}

impl Model for Aliases {
    ghost use Rattle.std.specs.Prelude.{◌≡◌, List};
    ghost use Rattle.alias_groups.specs.Groups.{AreGroups, Group, member_count};
    ghost use Rattle.alias_groups.specs.Entries.{groups_in};

    ghost Value = { List Group };

    ghost view = { λ a. groups_in a.groups.entries };

    ghost invariant = { λ a. AreGroups (groups_in a.groups.entries)
        × (a.members ≡ member_count (groups_in a.groups.entries)) };
}

// Copies of names.
fn copies(alloc: Global, names: &[Text]) -> Result<Vec<Text>, Memory>
    ensures { IfOk result (λ copies. copies.items ≡ names.now) }
{
    let mut copies = Vec::with_capacity(alloc, names.len())?;
    for name in names {
        copies.push_reserved(Text::copy(alloc, name.bytes())?);
    }
    Ok(copies)
}

// Puts members at the end of the list of an alias.
fn append(groups: &mut Groups, name: &[u8], mut more: Vec<Text>) -> Result<(), Memory>
    requires { is_alias (groups_in groups.old.entries) name.now ≡ true }
    ensures ok { OnOk result
        (groups_in groups.new.entries ≡ with_members (groups_in groups.old.entries) name.now more.items) }
    ensures err { OnErr result (groups_in groups.new.entries ≡ groups_in groups.old.entries) }
{
    let Some(list) = groups.peek_mut(name) else {
        return Ok(());
    };
    match list.append(&mut more) {
        Ok(()) => Ok(()),
        Err(_) => Err(Memory),
    }
}

// Puts an alias behind the others.
fn push(alloc: Global, groups: &mut Groups, name: &[u8], members: Vec<Text>) -> Result<(), Memory>
    requires { is_alias (groups_in groups.old.entries) name.now ≡ false }
    ensures ok { OnOk result
        (groups_in groups.new.entries ≡ with_members (groups_in groups.old.entries) name.now members.items) }
    ensures err { OnErr result (groups_in groups.new.entries ≡ groups_in groups.old.entries) }
{
    if groups.len() >= groups.cap().get() {
        return Err(Memory);
    }
    let key = name.to_vec(alloc)?;
    groups.put(key, members)?;
    groups.demote(name);
    Ok(())
}

// Puts members at the end of the list of an alias, which goes last if it is new.
fn put(alloc: Global, groups: &mut Groups, name: &[u8], more: Vec<Text>) -> Result<(), Memory>
    ensures ok { OnOk result
        (groups_in groups.new.entries ≡ with_members (groups_in groups.old.entries) name.now more.items) }
    ensures err { OnErr result (groups_in groups.new.entries ≡ groups_in groups.old.entries) }
{
    if is_in(groups, name) {
        append(groups, name, more)
    } else {
        push(alloc, groups, name, more)
    }
}

// Whether an alias has this name.
fn is_in(groups: &Groups, name: &[u8]) -> bool
    ensures { result ≡ is_alias (groups_in groups.now.entries) name.now }
{
    groups.contains(name)
}

// Takes an alias out, and says how many members it had; none if it wasn't defined.
fn take_out(groups: &mut Groups, name: &[u8]) -> Option<usize>
    ensures said { is_some result ≡ is_alias (groups_in groups.old.entries) name.now }
    ensures groups { groups_in groups.new.entries ≡ without (groups_in groups.old.entries) name.now }
    ensures members { member_count (groups_in groups.new.entries) + unwrap_or result 0
        ≡ member_count (groups_in groups.old.entries) }
{
    match groups.pop(name) {
        Some(members) => Some(members.as_slice().len()),
        None => None,
    }
}

// Takes out the aliases of these names, and says how many members they had.
fn take_out_all(groups: &mut Groups, names: &[Text]) -> usize
    requires { AreGroups (groups_in groups.old.entries) }
    ensures groups { groups_in groups.new.entries ≡ without_these (groups_in groups.old.entries) names.now }
    ensures members { member_count (groups_in groups.new.entries) + result
        ≡ member_count (groups_in groups.old.entries) }
{
    let mut members = 0;
    for name in names {
        members += take_out(groups, name.bytes()).unwrap_or(0);
    }
    members
}

impl Aliases {
    /// No aliases.
    pub fn new(alloc: Global) -> Result<Aliases, Memory>
        ensures { IfOk result (λ aliases. aliases ≡ []) }
    {
        let groups = LruCache::unbounded(alloc)?;
        Ok(Aliases {
            alloc,
            groups,
            members: 0,
        })
    }

    /// Puts members at the end of the list of an alias. One that is defined keeps its place, a new one goes last.
    /// `TooMany` comes exactly if all aliases together would have more than 100,000 members. After an error all is
    /// as before.
    pub fn define(&mut self, name: &[u8], to: &[Text]) -> Result<(), AliasError>
        ensures refused { MatchOption (define_refusal self.old to.now)
            (IfErr result (λ e. e ≡ AliasError.Memory)) (λ e. result ≡ Err e) }
        ensures ok { OnOk result (self.new ≡ with_members self.old name.now to.now) }
        ensures err { OnErr result (self.new ≡ self.old) }
    {
        if let Some(e) = self.refuses(to) {
            return Err(e);
        }
        let more = copies(self.alloc, to)?;
        put(self.alloc, &mut self.groups, name, more)?;
        self.members += to.len();
        Ok(())
    }

    /// Why an alias takes no such members: all aliases together would have more than 100,000. It takes no memory.
    pub fn refuses(&self, to: &[Text]) -> Option<AliasError>
        ensures { result ≡ define_refusal self.now to.now }
    {
        if to.len() > MEMBER_LIMIT - self.members {
            Some(AliasError::TooMany)
        } else {
            None
        }
    }

    /// Puts members at the end of the list of an alias, as `define` does, if `refuses` doesn't refuse them. If
    /// memory runs out, all is as before.
    pub fn give(&mut self, name: &[u8], to: &[Text]) -> Result<(), Memory>
        ensures ok { OnOk result (self.new ≡ given self.old name.now to.now) }
        ensures err { OnErr result (self.new ≡ self.old) }
    {
        match self.define(name, to) {
            Ok(()) => Ok(()),
            Err(AliasError::TooMany) => Ok(()),
            Err(AliasError::Memory) => Err(Memory),
        }
    }

    /// Removes an alias, and says whether it was defined. It takes no memory.
    pub fn remove(&mut self, name: &[u8]) -> bool
        ensures said { result ≡ is_alias self.old name.now }
        ensures gone { self.new ≡ without self.old name.now }
    {
        match take_out(&mut self.groups, name) {
            Some(members) => {
                self.members -= members;
                true
            }
            None => false,
        }
    }

    /// Removes the aliases of these names, in time that grows with the names. One that isn't defined is passed over. It
    /// takes no memory.
    pub fn remove_all(&mut self, names: &[Text])
        ensures { self.new ≡ without_these self.old names.now }
    {
        self.members -= take_out_all(&mut self.groups, names);
    }

    /// The members of an alias; none exactly if the name isn't defined. It takes no memory.
    pub fn members(&self, name: &[u8]) -> Option<&[Text]>
        ensures { option_map (λ members. members.now) result ≡ members_of self.now name.now }
    {
        match self.groups.peek(name) {
            Some(members) => Some(members.as_slice()),
            None => None,
        }
    }

    /// All aliases as they are listed, one a line, in order of first definition. Their names are distinct, and they have
    /// at most 100,000 members together.
    pub fn lines(&self, alloc: Global) -> Result<Text, Memory>
        ensures lines { IfOk result (λ lines. lines ≡ flat_map alias_line self.now) }
        ensures groups { AreGroups self.now }
    {
        let mut out = Text::new(alloc);
        for (name, members) in self.groups.iter() {
            put_alias(&mut out, name.as_slice(), members.as_slice())?;
        }
        Ok(out)
    }

    /// The alias of this name as it is listed; nothing if the name isn't defined.
    pub fn line(&self, alloc: Global, name: &[u8]) -> Result<Text, Memory>
        ensures { IfOk result (λ line. line ≡ listed self.now name.now) }
    {
        let mut out = Text::new(alloc);
        if let Some(members) = self.members(name) {
            put_alias(&mut out, name, members)?;
        }
        Ok(out)
    }

    /// The names that names stand for, in the order in which a walk over them first reaches each. A name that is no
    /// alias is added; an alias that is met for the first time is walked through; one that is met inside its own walk
    /// is added as a name; one whose walk is over adds nothing. Names of aliases are compared byte for byte. No name
    /// is added twice, ASCII case ignored. Without `metoo` a name of `own` that is reached through an alias is left
    /// out. `TooMany` comes exactly if there would be more than 10,000 names. It uses a stack and no recursion.
    pub fn expand(&self, names: &[Text], own: &Own, metoo: bool) -> Result<Vec<Text>, ExpandError>
        ensures names { IfOk result (λ all. all.items ≡ expansion self.now own.now metoo names.now) }
        ensures few { IfOk result (λ all. length all.items ≤ 10000) }
        ensures too_many { result ≡ Err ExpandError.TooMany
            → 10000 < length (expansion self.now own.now metoo names.now) }
    {
        let dropped = dropped_names(self.alloc, own, metoo)?;
        expand_all(self.alloc, self, &dropped, names)
    }
}
