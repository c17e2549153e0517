// Lists with room for more.
ghost use Rattle.std.specs.Prelude.{◌≡◌, ◌+◌, ◌-◌, ◌<◌, ◌≤◌, [], ◌∷◌, ◌++◌, length, vec_capacity, vec_len, OnOk};
ghost use Rattle.std.specs.List.Sorted.{IsPermutation};
ghost use Rattle.cta_values.specs.ByName.{IsByName};

use crate::named::Named;
use crate::no_memory::NoMemory;
use std::marker::Model;

/// A list. Contracts see its items and the room that is left for more of them.
#[derive(Drop)]
pub struct Rows<T> {
    inner: Vec<T>,
}

impl<T> Model for Rows<T> {
    ghost use Rattle.std.specs.Prelude.{◌-◌, ◌≤◌, vec_capacity, vec_len};
    ghost use Rattle.cta_values.specs.Listed.{Listed};

    ghost Value = { Listed T };

    ghost view = { λ r. record { items = r.inner.items; room = vec_capacity r.inner - vec_len r.inner } };
}

impl<T> Rows<T> {
    /// The list of these items, with the room that the vector had. It takes no memory and constant time.
    pub fn of(items: Vec<T>) -> Rows<T>
        ensures items { result.items ≡ items.items }
        ensures room { result.room ≡ vec_capacity items - vec_len items }
    {
        Rows { inner: items }
    }

    /// The items in their order, in constant time.
    pub fn as_slice(&self) -> &[T]
        ensures { result.now ≡ self.now.items }
    {
        self.inner.as_slice()
    }

    /// The number of items.
    pub fn len(&self) -> usize
        ensures { result ≡ length self.now.items }
    {
        self.inner.len()
    }

    /// Makes room for at least this many more items, and never makes the room smaller. NoMemory changes no item. Its
    /// cost is the number of items.
    pub fn reserve(&mut self, more: u32) -> Result<(), NoMemory>
        ensures items { self.new.items ≡ self.old.items }
        ensures room { OnOk result (more ≤ self.new.room) }
        ensures kept { self.old.room ≤ self.new.room }
    {
        self.inner.reserve(more as usize)?;
        Ok(())
    }

    /// Adds an item behind the others, for which room is left. It takes no memory and constant time.
    pub fn push(&mut self, item: T)
        requires { 0 < self.old.room }
        ensures items { self.new.items ≡ self.old.items ++ item ∷ [] }
        ensures room { self.old.room ≤ self.new.room + 1 }
    {
        match self.inner.push(item) {
            Ok(()) => {}
            Err(_) => unreachable!(),
        }
    }
}

impl<T: Named> Rows<T> {
    /// Puts the items in byte order of their names. NoMemory leaves the same items in some order. Its cost is the number of items times its
    /// logarithm.
    pub fn sort(&mut self) -> Result<(), NoMemory>
        ensures permutation { IsPermutation self.old.items self.new.items }
        ensures sorted { OnOk result (IsByName T.name_of self.new.items) }
    {
        self.inner.sort_by(|x, y| x.name().cmp(y.name()))?;
        Ok(())
    }
}
