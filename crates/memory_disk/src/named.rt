// Values by name.
ghost use Rattle.std.specs.Prelude.{◌≡◌, [], List, ℕ, Option, OnOk, OnErr, is_some, length, slice_get, option_map};
ghost use Rattle.std.specs.Option.{option_copied};
ghost use Rattle.host_port.specs.Disk.{with_at};
ghost use Rattle.memory_disk.specs.Lists.{named, names_of, NamesOnce};

use indexmap::IndexMap;
use mail_text::Memory;
use std::alloc::Global;
use std::marker::Model;

/// Values by name. Contracts see a list of pairs, in which a pair may say that a name has no value.
#[derive(Drop)]
pub struct Named<V> {
    map: IndexMap<Vec<u8>, Option<V>>,
}

impl<V> Model for Named<V> {
    ghost use Rattle.std.specs.Prelude.{List, ℕ, Option};
    ghost use Rattle.memory_disk.specs.Pairs.{pairs_of};

    ghost Value = { List (List ℕ × Option V) };

    ghost view = { λ m. pairs_of m.map.entries };
}

impl<V: Drop> Named<V> {
    /// How many names were put, each of which stands once.
    pub(crate) fn len(&self) -> usize
        ensures count { result ≡ length self.now }
        ensures once { NamesOnce self.now }
    {
        self.map.len()
    }

    /// The name at this place, from 0, in order of first putting.
    pub(crate) fn name(&self, k: usize) -> Option<&[u8]>
        ensures { option_map (λ n. n.now) result ≡ slice_get (names_of self.now) k }
    {
        match self.map.get_index(k) {
            Some((key, _)) => Some(key.as_slice()),
            None => None,
        }
    }

    pub(crate) fn new(alloc: Global) -> Named<V>
        ensures { result ≡ [] }
    {
        Named {
            map: IndexMap::new(alloc),
        }
    }

    /// The value of a name.
    pub fn get(&self, name: &[u8]) -> Option<&V>
        ensures { option_copied result ≡ named self.now name.now }
    {
        match self.map.get(name) {
            Some(Some(value)) => Some(value),
            Some(None) => None,
            None => None,
        }
    }

    /// Whether a name has a value.
    pub fn has(&self, name: &[u8]) -> bool
        ensures { result ≡ is_some (named self.now name.now) }
    {
        self.get(name).is_some()
    }

    pub(crate) fn put(&mut self, alloc: Global, name: &[u8], value: Option<V>) -> Result<(), Memory>
        ensures ok { OnOk result ((q : List ℕ) → named self.new q ≡ with_at (named self.old) name.now value q) }
        ensures err { OnErr result (self.new ≡ self.old) }
    {
        let key = name.to_vec(alloc)?;
        self.map.insert(key, value)?;
        Ok(())
    }

    /// Leaves a name without a value. It takes no memory.
    pub(crate) fn clear(&mut self, name: &[u8])
        ensures { (q : List ℕ) → named self.new q ≡ with_at (named self.old) name.now None q }
    {
        if let Some(value) = self.map.get_mut(name) {
            *value = None;
        }
    }
}
