ghost use Rattle.std.specs.Prelude.{◌≡◌, ◌<◌, ◌++◌, [], ◌∷◌, length, slice_get, OnOk, OnErr};
ghost use Rattle.std.specs.Borrow.{sem};

use crate::{Memory, Reserved};
use std::alloc::Global;
use std::marker::Model;

/// Values in order. Contracts see the list of them.
#[derive(Drop)]
pub struct Items<T> {
    list: Reserved<T>,
}

impl<T> Model for Items<T> {
    ghost use Rattle.std.specs.Prelude.{List};

    ghost Value = { List T };

    ghost view = { λ s. s.list.items };
}

impl<T> Items<T> {
    ghost use Rattle.mail_text.specs.Lending.{LendsValue, LendsList};

    /// No values. It takes no memory.
    pub fn new(alloc: Global) -> Items<T>
        ensures { result ≡ [] }
    {
        Items::of(Vec::new(alloc))
    }

    /// The values of a vector. It takes no memory.
    pub fn of(v: Vec<T>) -> Items<T>
        ensures { result ≡ v.items }
    {
        Items {
            list: Reserved::of(v),
        }
    }

    /// The values as a slice.
    pub fn items(&self) -> &[T]
        ensures { result.now ≡ self.now }
    {
        self.list.items()
    }

    /// The value at place `k`, from 0, to be changed in place.
    pub fn get_mut(&mut self, k: usize) -> &mut T
        requires { k < length self.old }
        ensures* writes_back { sem 𝓛 (LendsValue T.row self.entry k result) }
        ensures value { slice_get self.old k ≡ Some result.now }
    {
        let list = &mut self.list;
        list.get_mut(k)
    }

    /// The list with the number of values for which it holds memory already. What becomes of it there becomes of the
    /// list. So several lists can be given room first, and values then be put into all of them or into none.
    pub fn reserved(&mut self) -> &mut Reserved<T>
        ensures* writes_back { sem 𝓛 (LendsList T.row self.entry result) }
        ensures items { result.now.items ≡ self.old }
    {
        &mut self.list
    }

    /// The values as a vector. It takes no memory.
    pub fn into_vec(self) -> Vec<T>
        ensures { result.items ≡ self }
    {
        self.list.into_vec()
    }

    /// Puts a value at the end. If memory runs out, the list is as before, and the value is gone.
    pub fn push(&mut self, x: T) -> Result<(), Memory>
    where
        T: Drop,
        ensures ok { OnOk result (self.new ≡ self.old ++ x ∷ []) }
        ensures err { OnErr result (self.new ≡ self.old) }
    {
        self.list.push(x)
    }
}
