ghost use Rattle.std.specs.Prelude.{◌≡◌, [], ◌∷◌, ◌++◌, ◌<◌, length, slice_get, remove, Some, OnOk, OnErr, OnSome};
ghost use Rattle.std.specs.Option.{option_copied};

use crate::bytes::Bytes;
use crate::errors::Memory;
use std::alloc::Global;
use std::marker::Model;

/// A list that contracts see as its items in order.
#[derive(Debug, Drop)]
pub struct ListOf<T> {
    items: Vec<T>,
}

impl<T> Model for ListOf<T> {
    ghost use Rattle.std.specs.Prelude.{List};
    ghost use Rattle.std.specs.Coded.{coded_list};

    ghost Value = { List T };

    ghost coded = { coded_list T.code };

    ghost view = { λ it. it.items.items };
}

impl<T> ListOf<T> {
    /// No items yet; takes no memory.
    pub fn new(alloc: Global) -> ListOf<T>
        ensures { result ≡ [] }
    {
        ListOf {
            items: Vec::new(alloc),
        }
    }

    pub fn len(&self) -> usize
        ensures { result ≡ length self.now }
    {
        self.items.len()
    }

    pub fn get(&self, i: usize) -> Option<&T>
        ensures value { option_copied result ≡ slice_get self.now i }
        ensures within { OnSome result (i < length self.now) }
    {
        self.items.get(i)
    }

    pub fn as_slice(&self) -> &[T]
        ensures { result.now ≡ self.now }
    {
        self.items.as_slice()
    }

    /// The items in order, without a copy.
    pub fn into_vec(self) -> Vec<T>
        ensures { result.items ≡ self }
    {
        let ListOf { items } = self;
        items
    }

    /// The items of `items` in order, without a copy.
    pub fn from_vec(items: Vec<T>) -> ListOf<T>
        ensures { result ≡ items.items }
    {
        ListOf { items }
    }
}

impl<T: Drop> ListOf<T> {
    /// Adds the item at the end; after want of memory the item is dropped and the list is as before.
    pub fn push(&mut self, item: T) -> Result<(), Memory>
        ensures ok { OnOk result (self.new ≡ self.old ++ item ∷ []) }
        ensures err { OnErr result (self.new ≡ self.old) }
    {
        self.items.push(item)?;
        Ok(())
    }

    /// Takes the item at a place out; those behind it move up.
    pub fn remove(&mut self, i: usize) -> T
        requires { i < length self.old }
        ensures item { slice_get self.old i ≡ Some result }
        ensures others { self.new ≡ remove self.old i }
    {
        self.items.remove(i)
    }
}

/// Names of files.
pub type Names = ListOf<Bytes>;

/// Keys, or the inputs of links.
pub type Keys = ListOf<Bytes>;

/// Transaction numbers.
pub type Numbers = ListOf<u64>;
