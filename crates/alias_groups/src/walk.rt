// The walk over names and the aliases among them, on a stack of its own.
ghost use Rattle.std.specs.Prelude.{◌≡◌, ◌≤◌, ◌<◌, [], ◌∷◌, length, IfOk, OnOk, Err, MatchOption, false};
ghost use Rattle.std.specs.Map.{keys_of};
ghost use Rattle.alias_groups.specs.Walk.{is_among};
ghost use Rattle.alias_groups.specs.Unwinding.{Fits, IsClosed, IsDone, IsNamed, IsNext, IsTooLong, Walking, finished, named_in, opened_in, start};

use crate::aliases::Aliases;
use crate::error::ExpandError;
use indexmap::{IndexMap, IndexSet};
use mail_text::{Memory, Text};
use name_lists::Names;
use std::alloc::Global;
use std::marker::Model;

// The most names that an expansion has.
const NAME_LIMIT: usize = 10_000;

// A walk under way. Contracts see it as the lists of `Walking`.
#[derive(Drop)]
struct Walk<'a> {
    // The aliases whose walk is open, innermost last, each with what is left of the list in which it was met.
    inside: IndexMap<&'a [u8], &'a [Text]>,
    // The aliases whose walk is over.
    over: IndexSet<&'a [u8]>,
    // The names that were added.
    added: Names,
}

impl<'a> Model for Walk<'a> {
    ghost use Rattle.std.specs.Prelude.{map};
    ghost use Rattle.alias_groups.specs.Unwinding.{Walking};

    ghost Value = { Walking };

    ghost view = { λ w. record {
      inside = map (λ e. (e.0.now, e.1.now)) w.inside.entries;
      over = map
          (λ k. k.now) w.over.keys;
      added = w.added;
    } };
}

impl<'a> Walk<'a> {
    // A walk that begins.
    fn new(alloc: Global) -> Walk<'a>
        ensures { result ≡ start }
    {
        Walk {
            inside: IndexMap::new(alloc),
            over: IndexSet::new(alloc),
            added: Names::new(alloc),
        }
    }

    // Adds a name, unless it was added or is to be dropped.
    fn add_name(&mut self, dropped: &Names, name: &[u8]) -> Result<(), ExpandError>
        requires { length self.old.added ≤ 10000 }
        ensures ok { OnOk result (self.new ≡ named_in dropped.now self.old name.now) }
        ensures few { OnOk result (length self.new.added ≤ 10000) }
        ensures too_many { result ≡ Err ExpandError.TooMany
            → 10000 < length (named_in dropped.now self.old name.now).added }
    {
        if !self.inside.is_empty() && dropped.look_up(name)? {
            return Ok(());
        }
        if self.added.look_up(name)? {
            return Ok(());
        }
        if self.added.len() >= NAME_LIMIT {
            return Err(ExpandError::TooMany);
        }
        self.added.put(name)?;
        Ok(())
    }

    // Adds a name, and gives what is left of its list.
    fn add(
        &mut self,
        dropped: &Names,
        name: &[u8],
        left: &'a [Text],
    ) -> Result<&'a [Text], ExpandError>
        requires { length self.old.added ≤ 10000 }
        ensures next { IfOk result (λ next. IsNamed dropped.now self.old name.now left.now self.new next.now) }
        ensures too_many { result ≡ Err ExpandError.TooMany
            → 10000 < length (named_in dropped.now self.old name.now).added }
    {
        match self.add_name(dropped, name) {
            Ok(()) => Ok(left),
            Err(e) => Err(e),
        }
    }

    // Meets a name, before what is left of its list, and gives the list to go on with.
    fn meet(
        &mut self,
        aliases: &'a Aliases,
        dropped: &Names,
        name: &'a [u8],
        left: &'a [Text],
    ) -> Result<&'a [Text], ExpandError>
        requires { Fits aliases.now self.old }
        ensures next { IfOk result
            (λ next. IsNext aliases.now dropped.now self.old (name.now ∷ left.now) self.new next.now) }
        ensures too_many { result ≡ Err ExpandError.TooMany
            → IsTooLong aliases.now dropped.now self.old (name.now ∷ left.now) }
    {
        match aliases.members(name) {
            Some(members) => {
                if self.inside.contains_key(name) {
                    return self.add(dropped, name, left);
                }
                if self.over.contains(name) {
                    return Ok(left);
                }
                self.open(name, left)?;
                Ok(members)
            }
            None => self.add(dropped, name, left),
        }
    }

    // Opens the walk of an alias, which was met before what is left of its list.
    fn open(&mut self, name: &'a [u8], left: &'a [Text]) -> Result<(), Memory>
        requires { is_among (keys_of self.old.inside) name.now ≡ false }
        ensures { OnOk result (self.new ≡ opened_in self.old name.now left.now) }
    {
        self.inside.insert(name, left)?;
        Ok(())
    }

    // Ends the innermost walk of an alias, and gives what is left of the list in which it was met.
    fn close(&mut self) -> Result<Option<&'a [Text]>, Memory>
        ensures { IfOk result
            (λ left. MatchOption left ((self.old.inside ≡ []) × (self.new ≡ self.old))
            (λ left. IsClosed self.old left.now self.new)) }
    {
        match self.inside.pop() {
            Some((name, left)) => {
                self.over.insert(name)?;
                Ok(Some(left))
            }
            None => Ok(None),
        }
    }

    // Meets the next name, or ends the walk of an alias when its list is done. It gives the list to go on with, and
    // none if all is done.
    fn step(
        &mut self,
        aliases: &'a Aliases,
        dropped: &Names,
        left: &'a [Text],
    ) -> Result<Option<&'a [Text]>, ExpandError>
        requires { Fits aliases.now self.old }
        ensures next { IfOk result (λ next. MatchOption next (IsDone aliases.now dropped.now self.old left.now self.new)
            (λ next. IsNext aliases.now dropped.now self.old left.now self.new next.now)) }
        ensures too_many { result ≡ Err ExpandError.TooMany → IsTooLong aliases.now dropped.now self.old left.now }
    {
        match left.split_first() {
            Some((name, left)) => {
                let next = self.meet(aliases, dropped, name.bytes(), left)?;
                Ok(Some(next))
            }
            None => Ok(self.close()?),
        }
    }

    // The names that were added.
    fn into_names(self) -> Vec<Text>
        ensures { result.items ≡ self.entry.added }
    {
        self.added.into_vec()
    }
}

// The names that a walk over names adds.
pub(crate) fn expand_all<'a>(
    alloc: Global,
    aliases: &'a Aliases,
    dropped: &Names,
    names: &'a [Text],
) -> Result<Vec<Text>, ExpandError>
    ensures names { IfOk result (λ all. all.items ≡ (finished aliases.now dropped.now start names.now).added) }
    ensures few { IfOk result (λ all. length all.items ≤ 10000) }
    ensures too_many { result ≡ Err ExpandError.TooMany → IsTooLong aliases.now dropped.now start names.now }
{
    let mut walk = Walk::new(alloc);
    let mut left = names;
    'names: loop {
        match walk.step(aliases, dropped, left)? {
            Some(next) => left = next,
            None => return Ok(walk.into_names()),
        }
    }
}
