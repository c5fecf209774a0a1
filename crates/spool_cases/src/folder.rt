// A folder in memory. It tells its calls.
ghost use Rattle.std.specs.Prelude.{◌≡◌, ◌++◌, ◌∷◌, [], Some};

use mail_text::Text;
use spool_rules::{Found, Seen, Spool, Step, Stop};
use std::alloc::Global;
use std::process::Abort;

/// A name in the folder, and the file that it names.
#[derive(Drop)]
pub struct Entry {
    pub name: Text,
    pub found: Found,
}

/// The list of users, and a folder. The call of one number is answered a fault. Nobody else is there who would hold what
/// is held.
#[derive(Drop)]
pub struct MemSpool<R> {
    rt: R,
    alloc: Global,
    users: Text,
    entries: Vec<Entry>,
    told: Vec<Step>,
    fails: Option<(usize, Stop)>,
    inodes: u64,
}

impl<R: Abort> MemSpool<R> {
    /// An empty folder.
    pub fn new(rt: R, alloc: Global, users: Text) -> MemSpool<R>
        ensures { result.told.items ≡ [] }
    {
        MemSpool {
            rt,
            alloc,
            users,
            entries: Vec::new(alloc),
            told: Vec::new(alloc),
            fails: None,
            inodes: 0,
        }
    }

    /// Begins to tell anew. The call of this number will be answered a fault.
    pub fn begin(&mut self, fails: Option<(usize, Stop)>)
        ensures { self.new.told.items ≡ [] }
    {
        self.told.clear();
        self.fails = fails;
    }

    /// The calls so far.
    pub fn told(&self) -> &[Step] {
        &self.told
    }

    /// Puts a file of this owner at a name.
    pub fn put(&mut self, name: &[u8], owner: u32, mode: u32)
        ensures { self.new.told ≡ self.old.told }
    {
        self.inodes = self.inodes.saturating_add(1);
        let found = Found {
            owner,
            mode,
            device: 1,
            inode: self.inodes,
        };
        self.enter(name, found);
    }

    fn enter(&mut self, name: &[u8], found: Found)
        ensures { self.new.told ≡ self.old.told }
    {
        let name = self.copied(name);
        self.entries
            .push(Entry { name, found })
            .expect(&self.rt, "room");
    }

    fn copied(&self, bytes: &[u8]) -> Text
        ensures { result ≡ bytes.now }
    {
        Text::copy(self.alloc, bytes).expect(&self.rt, "room")
    }

    fn found(&self, name: &[u8]) -> Option<Found> {
        for entry in &self.entries {
            if entry.name.bytes() == name {
                return Some(entry.found);
            }
        }
        None
    }

    // The fault of the next call, if it is the one that fails.
    fn fault(&self) -> Option<Stop> {
        match self.fails {
            Some((number, stop)) if number == self.told.len() => Some(stop),
            _ => None,
        }
    }

    // What a call comes to that changes no name.
    fn calm(&self) -> Result<(), Stop> {
        match self.fault() {
            Some(stop) => Err(stop),
            None => Ok(()),
        }
    }

    fn made(&mut self, name: &[u8], mode: u32) -> Result<(), Stop>
        ensures { self.new.told ≡ self.old.told }
    {
        if let Some(stop) = self.fault() {
            return Err(stop);
        }
        if self.found(name).is_some() {
            return Err(Stop::Disk);
        }
        self.put(name, 1000, mode);
        Ok(())
    }

    fn linked(&mut self, from: &[u8], to: &[u8]) -> Result<bool, Stop>
        ensures { self.new.told ≡ self.old.told }
    {
        if let Some(stop) = self.fault() {
            return Err(stop);
        }
        match (self.found(from), self.found(to)) {
            (_, Some(_)) => Ok(false),
            (Some(found), None) => {
                self.enter(to, found);
                Ok(true)
            }
            (None, None) => Err(Stop::Disk),
        }
    }

    fn removed(&mut self, name: &[u8]) -> Result<(), Stop>
        ensures { self.new.told ≡ self.old.told }
    {
        if let Some(stop) = self.fault() {
            return Err(stop);
        }
        self.entries.retain(|entry| entry.name.bytes() != name);
        Ok(())
    }

    fn renamed(&mut self, from: &[u8], to: &[u8]) -> Result<(), Stop>
        ensures { self.new.told ≡ self.old.told }
    {
        match self.found(from) {
            Some(found) => {
                self.removed(to)?;
                self.removed(from)?;
                self.enter(to, found);
                Ok(())
            }
            None => Err(Stop::Disk),
        }
    }

    fn tell(&mut self, step: Step)
        ensures { self.new.told.items ≡ self.old.told.items ++ step ∷ [] }
    {
        self.told.push(step).expect(&self.rt, "room");
    }
}

impl<R: Abort> Spool for MemSpool<R> {
    ghost told = { λ s. Some s.told.items };

    fn users(&mut self, alloc: Global) -> Result<Text, Stop> {
        if let Some(stop) = self.fault() {
            self.tell(Step::Users { list: Err(stop) });
            return Err(stop);
        }
        let list = self.copied(self.users.bytes());
        let answer = Text::copy(alloc, list.bytes()).expect(&self.rt, "room");
        self.tell(Step::Users { list: Ok(list) });
        Ok(answer)
    }

    fn hold(&mut self, name: &[u8]) -> Result<(), Stop> {
        let done = self.calm();
        let name = self.copied(name);
        self.tell(Step::Hold { name, done });
        done
    }

    fn look(&mut self, name: &[u8]) -> Result<Seen, Stop> {
        let seen = match (self.fault(), self.found(name)) {
            (Some(stop), _) => Err(stop),
            (None, Some(found)) => Ok(Seen::File(found)),
            (None, None) => Ok(Seen::Nothing),
        };
        let name = self.copied(name);
        self.tell(Step::Look { name, seen });
        seen
    }

    fn make(&mut self, name: &[u8], bytes: &[u8]) -> Result<(), Stop> {
        let done = self.made(name, 0o600);
        let name = self.copied(name);
        let bytes = self.copied(bytes);
        self.tell(Step::Make { name, bytes, done });
        done
    }

    fn take(&mut self, name: &[u8], mode: u32) -> Result<(), Stop> {
        let done = self.made(name, mode);
        let name = self.copied(name);
        self.tell(Step::Take { name, mode, done });
        done
    }

    fn link(&mut self, from: &[u8], to: &[u8]) -> Result<bool, Stop> {
        let free = self.linked(from, to);
        let from = self.copied(from);
        let to = self.copied(to);
        self.tell(Step::Link { from, to, free });
        free
    }

    fn rename(&mut self, from: &[u8], to: &[u8]) -> Result<(), Stop> {
        let done = self.renamed(from, to);
        let from = self.copied(from);
        let to = self.copied(to);
        self.tell(Step::Rename { from, to, done });
        done
    }

    fn remove(&mut self, name: &[u8]) -> Result<(), Stop> {
        let done = self.removed(name);
        let name = self.copied(name);
        self.tell(Step::Remove { name, done });
        done
    }

    fn sync(&mut self) -> Result<(), Stop> {
        let done = self.calm();
        self.tell(Step::Sync { done });
        done
    }
}
