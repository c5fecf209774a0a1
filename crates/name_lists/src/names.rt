// Names in order, each once, with their places in a tree by their lower-case forms.
ghost use Rattle.std.specs.Prelude.{◌≡◌, ◌≤◌, [], length, take, IfOk, OnOk, OnErr};
ghost use Rattle.name_lists.specs.Names.{has_name, with_name, with_names};
ghost use Rattle.std.specs.Str.{str_to_ascii_lowercase};

use mail_text::{Memory, Text, same_ascii};
use std::alloc::Global;
use std::collections::BTreeMap;
use std::marker::Model;

// A name of up to this many bytes is looked for in the tree without memory; a longer one would make a header's line
// longer than RFC 5322, section 2.1.1 allows.
const LONGEST: usize = 998;

/// Names in order of first naming, each once, ASCII case ignored. Contracts see the list of them.
#[derive(Drop)]
pub struct Names {
    alloc: Global,
    names: Vec<Text>,
    places: BTreeMap<Vec<u8>, usize>,
}

impl Model for Names {
    ghost use Rattle.std.specs.Prelude.{List, ℕ};
    ghost use Rattle.name_lists.specs.Keys.{ArePlacesOf};

    ghost Value = { List (List ℕ) };

    ghost view = { λ n. n.names.items };

    ghost invariant = { λ n. ArePlacesOf n.names.items n.places };
}

impl Names {
    /// No names. It takes no memory.
    pub fn new(alloc: Global) -> Names
        ensures { result ≡ [] }
    {
        Names {
            alloc,
            names: Vec::new(alloc),
            places: BTreeMap::new(alloc),
        }
    }

    /// How many they are.
    pub fn len(&self) -> usize
        ensures { result ≡ length self.now }
    {
        self.names.len()
    }

    /// The names.
    pub fn names(&self) -> &[Text]
        ensures { result.now ≡ self.now }
    {
        &self.names
    }

    /// The names as a vector.
    pub fn into_vec(self) -> Vec<Text>
        ensures { result.items ≡ self }
    {
        self.names
    }

    /// Whether the name is among them, in time that grows with the name and the logarithm of their number.
    pub fn look_up(&self, name: &[u8]) -> Result<bool, Memory>
        ensures { IfOk result (λ has. has ≡ has_name self.now name.now) }
    {
        let key = lower_case(self.alloc, name)?;
        Ok(self.places.contains_key(key.as_slice()))
    }

    /// Whether the name is among them. It takes no memory, so a name of more than 998 bytes is compared with each.
    pub fn has(&self, name: &[u8]) -> bool
        ensures { result ≡ has_name self.now name.now }
    {
        if self.names.is_empty() {
            return false;
        }
        if name.len() <= LONGEST {
            let mut buffer = [0; LONGEST];
            let key = &mut buffer[..name.len()];
            key.copy_from_slice(name);
            key.make_ascii_lowercase();
            self.places.contains_key(&*key)
        } else {
            self.names
                .iter()
                .any(|other| same_ascii(name, other.bytes()))
        }
    }

    /// Puts these names at the end, but for those that are there. If memory runs out, the names are as before.
    pub fn add(&mut self, names: &[Text]) -> Result<(), Memory>
        ensures ok { OnOk result (self.new ≡ with_names self.old names.now) }
        ensures err { OnErr result (self.new ≡ self.old) }
    {
        let count = self.names.len();
        match self.add_each(names) {
            Ok(()) => Ok(()),
            Err(memory) => {
                self.truncate(count);
                Err(memory)
            }
        }
    }

    // Puts these names at the end, but for those that are there. If memory runs out, some may have been put.
    fn add_each(&mut self, names: &[Text]) -> Result<(), Memory>
        ensures ok { OnOk result (self.new ≡ with_names self.old names.now) }
        ensures err { OnErr result (take (length self.old) self.new ≡ self.old) }
    {
        for name in names {
            self.put(name.bytes())?;
        }
        Ok(())
    }

    /// Puts a name at the end, if it isn't there. If memory runs out, the names are as before.
    pub fn put(&mut self, name: &[u8]) -> Result<(), Memory>
        ensures ok { OnOk result (self.new ≡ with_name self.old name.now) }
        ensures err { OnErr result (self.new ≡ self.old) }
    {
        let text = Text::copy(self.alloc, name)?;
        let key = lower_case(self.alloc, name)?;
        if self.places.contains_key(key.as_slice()) {
            return Ok(());
        }
        self.names.try_reserve(1)?;
        self.places.insert(key, self.names.len())?;
        match self.names.push(text) {
            Ok(()) => Ok(()),
            Err(_) => unreachable!(),
        }
    }

    // Keeps the first names alone.
    fn truncate(&mut self, count: usize)
        ensures { self.new ≡ take count self.old }
    {
        self.names.truncate(count);
        self.places.retain(|_, place| *place < count);
    }
}

// A copy of the name in lower case.
fn lower_case(alloc: Global, name: &[u8]) -> Result<Vec<u8>, Memory>
    ensures { IfOk result (λ key. key.items ≡ str_to_ascii_lowercase name.now) }
{
    let mut key = name.to_vec(alloc)?;
    key.make_ascii_lowercase();
    Ok(key)
}
