// Lists in memory.
ghost use Rattle.std.specs.Prelude.{◌≡◌, [], ◌∷◌, ◌++◌, ◌<◌, length, take, slice_get, IfOk, OnOk, OnErr};

use crate::{Copied, NoMemory};
use std::alloc::Global;
use std::marker::Model;

/// A name: its bytes as they were written.
pub type Name = Row<u8>;

/// A list over a `Vec` that contracts see as the list of its items, so that a copy equals what it copies.
#[derive(Debug, Drop)]
pub struct Row<T> {
    items: Vec<T>,
}

impl<T> Model for Row<T> {
    ghost use Rattle.std.specs.Prelude.{List};
    ghost use Rattle.std.specs.Coded.{coded_list};

    ghost Value = { List T };

    ghost coded = { coded_list T.code };

    ghost view = { λ row. row.items.items };
}

impl<T> Row<T> {
    /// The empty list. It takes no memory.
    pub fn new(alloc: Global) -> Row<T>
        ensures { result ≡ [] }
    {
        Row {
            items: Vec::new(alloc),
        }
    }

    /// How many items there are.
    pub fn len(&self) -> usize
        ensures { result ≡ length self.now }
    {
        self.items.len()
    }

    /// The items, lent.
    pub fn as_slice(&self) -> &[T]
        ensures { result.now ≡ self.now }
    {
        self.items.as_slice()
    }

    /// The item at place i, counted from 0.
    pub fn get(&self, i: usize) -> &T
        requires { i < length self.now }
        ensures { slice_get self.now i ≡ Some result.now }
    {
        &self.items[i]
    }
}

impl<T: Drop> Row<T> {
    /// Puts an item last. Where memory is short the list is as before, and the item is given up.
    pub fn push(&mut self, item: T) -> Result<(), NoMemory>
        ensures ok { OnOk result (self.new ≡ self.old ++ item ∷ []) }
        ensures err { OnErr result (self.new ≡ self.old) }
    {
        match self.items.push(item) {
            Ok(_) => Ok(()),
            Err(_) => Err(NoMemory),
        }
    }

    /// Puts all items of another list last, in their order. Where memory is short the list is as before, and the items are given up.
    pub fn append(&mut self, other: Row<T>) -> Result<(), NoMemory>
        ensures ok { OnOk result (self.new ≡ self.old ++ other) }
        ensures err { OnErr result (self.new ≡ self.old) }
    {
        let mut items = other.items;
        match self.items.append(&mut items) {
            Ok(_) => Ok(()),
            Err(_) => Err(NoMemory),
        }
    }

    /// Keeps the first so many items, or all where there are no more.
    pub fn truncate(&mut self, len: usize)
        ensures { self.new ≡ take len self.old }
    {
        self.items.truncate(len);
    }
}

impl<T: Copied> Copied for Row<T> {
    fn copy(&self, alloc: Global) -> Result<Row<T>, NoMemory> {
        let mut row = Row::new(alloc);
        for item in self.as_slice() {
            row.push(item.copy(alloc)?)?;
        }
        Ok(row)
    }
}
