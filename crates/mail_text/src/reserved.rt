ghost use Rattle.std.specs.Prelude.{◌≡◌, ◌+◌, ◌<◌, ◌≤◌, ◌++◌, [], ◌∷◌, length, slice_get, IsOk, OnOk, OnErr};
ghost use Rattle.std.specs.Borrow.{sem};

use crate::Memory;
use std::alloc::Global;
use std::marker::Model;

/// A list and the number of further values for which it holds memory already. Contracts see both.
#[derive(Drop)]
pub struct Reserved<T> {
    items: Vec<T>,
}

impl<T> Model for Reserved<T> {
    ghost use Rattle.std.specs.Prelude.{◌-◌, vec_len, vec_capacity};
    ghost use Rattle.mail_text.specs.Room.{Room};

    ghost Value = { Room T };

    ghost view = { λ s. record { items = s.items.items; spare = vec_capacity s.items - vec_len s.items } };
}

impl<T> Reserved<T> {
    ghost use Rattle.mail_text.specs.Lending.{LendsRoomValue};

    /// No values. It takes no memory.
    pub fn new(alloc: Global) -> Reserved<T>
        ensures { result.items ≡ [] }
    {
        Reserved::of(Vec::new(alloc))
    }

    /// The values of a vector, with the room that it has. It takes no memory.
    pub fn of(items: Vec<T>) -> Reserved<T>
        ensures { result.items ≡ items.items }
    {
        Reserved { items }
    }

    /// The values as a vector. It takes no memory.
    pub fn into_vec(self) -> Vec<T>
        ensures { result.items ≡ self.items }
    {
        self.items
    }

    /// The value at place `k`, to be changed in place.
    pub(crate) fn get_mut(&mut self, k: usize) -> &mut T
        requires { k < length self.old.items }
        ensures* writes_back { sem 𝓛 (LendsRoomValue T.row self.entry k result) }
        ensures value { slice_get self.old.items k ≡ Some result.now }
    {
        &mut self.items[k]
    }

    /// The values as a slice.
    pub fn items(&self) -> &[T]
        ensures { result.now ≡ self.now.items }
    {
        &self.items
    }

    /// Makes room for one more value at least, and takes no memory if there is such room. If memory runs out, all
    /// is as before.
    pub fn reserve(&mut self) -> Result<(), Memory>
        ensures items { self.new.items ≡ self.old.items }
        ensures room { self.old.spare ≤ self.new.spare }
        ensures ok { OnOk result (0 < self.new.spare) }
        ensures enough { 0 < self.old.spare → IsOk result }
        ensures err { OnErr result (self.new.spare ≡ self.old.spare) }
    {
        self.items.try_reserve(1)?;
        Ok(())
    }

    /// Puts a value at the end, if there is room for it. It takes no memory.
    pub fn put(&mut self, x: T)
        requires { 0 < self.old.spare }
        ensures items { self.new.items ≡ self.old.items ++ x ∷ [] }
        ensures room { self.old.spare ≤ self.new.spare + 1 }
    {
        match self.items.push(x) {
            Ok(()) => {}
            Err(_) => unreachable!(),
        }
    }
    /// Puts a value at the end, and makes room for it if there is none. If memory runs out, all is as before,
    /// and the value is gone.
    pub fn push(&mut self, x: T) -> Result<(), Memory>
    where
        T: Drop,
        ensures ok { OnOk result (self.new.items ≡ self.old.items ++ x ∷ []) }
        ensures room { self.old.spare ≤ self.new.spare + 1 }
        ensures err { OnErr result (self.new.items ≡ self.old.items) }
        ensures kept { OnErr result (self.new.spare ≡ self.old.spare) }
        ensures enough { 0 < self.old.spare → IsOk result }
    {
        self.reserve()?;
        self.put(x);
        Ok(())
    }
}
