ghost use Rattle.std.specs.Prelude.{
  ◌≡◌,
  ◌↔◌,
  IsTrue,
  ◌+◌,
  ◌<◌,
  ◌≤◌,
  [],
  ◌∷◌,
  ◌++◌,
  length,
  insert,
  remove,
  take,
  slice_get,
  slice_set,
  slice_index_or,
  OnOk,
  OnErr,
  IfOk,
};
ghost use Rattle.std.specs.Option.{option_copied};
ghost use Rattle.std.specs.List.Retain.{IsFiltered};
ghost use Rattle.std.specs.Fn.{CalledAt};
ghost use Rattle.std.specs.Borrow.{Lends, sem};
ghost use Rattle.base_types.specs.contracts.items.Items.{the_row};

use crate::errors::NoMemory;
use crate::plain::Plain;
use std::alloc::Global;
use std::marker::Model;

/// A list of values. Contracts see it as the list of its elements.
#[derive(Debug)]
pub struct Items<T> {
    elements: Vec<T>,
}

impl<T: Drop> Drop for Items<T> {
    fn drop(self) {
        let Items { elements: _ } = self;
    }
}

impl<T> Model for Items<T> {
    ghost use Rattle.std.specs.Prelude.{List};

    ghost Value = { List T };

    ghost view = { λ a. a.elements.items };
}

impl<T> Items<T> {
    /// The empty list. It takes no memory.
    pub fn new(alloc: Global) -> Items<T>
        ensures { result ≡ [] }
    {
        Items {
            elements: Vec::new(alloc),
        }
    }

    /// The list of these elements. It takes no memory.
    pub fn from_vec(elements: Vec<T>) -> Items<T>
        ensures { result ≡ elements.items }
    {
        Items { elements }
    }

    /// The elements. It takes no memory.
    pub fn into_vec(self) -> Vec<T>
        ensures { result.items ≡ self }
    {
        let Items { elements } = self;
        elements
    }

    /// The memory that the list grows in.
    pub fn alloc(&self) -> Global {
        *self.elements.allocator()
    }

    pub fn len(&self) -> usize
        ensures { result ≡ length self.now }
    {
        self.elements.len()
    }

    pub fn is_empty(&self) -> bool
        ensures { IsTrue result ↔ (self.now ≡ []) }
    {
        self.elements.is_empty()
    }

    pub fn as_slice(&self) -> &[T]
        ensures { result.now ≡ self.now }
    {
        self.elements.as_slice()
    }

    /// The element at `index`, where there is one.
    pub fn at(&self, index: usize) -> Option<&T>
        ensures { option_copied result ≡ slice_get self.now index }
    {
        self.elements.as_slice().get(index)
    }

    /// The element at `index`.
    pub fn get(&self, index: usize) -> &T
        requires { index < length self.now }
        ensures { result.now ≡ slice_index_or self.now index result.now }
    {
        &self.elements[index]
    }

    /// The element at `index`, to be changed in place.
    pub fn get_mut(&mut self, index: usize) -> &mut T
        requires { index < length self.old }
        ensures* writes_back { sem 𝓛
            (Lends (the_row T.row) T.row self.entry result (λ w. slice_set self.entry.now index w)) }
        ensures value { result.now ≡ slice_index_or self.old index result.now }
    {
        &mut self.elements[index]
    }

    /// Adds a value at the end.
    pub fn push(&mut self, value: T) -> Result<(), NoMemory>
    where
        T: Drop,
        ensures ok { OnOk result (self.new ≡ self.old ++ value ∷ []) }
        ensures err { OnErr result (self.new ≡ self.old) }
    {
        self.elements.push(value)?;
        Ok(())
    }

    /// Puts a value before the element at `index`, or at the end.
    pub fn insert(&mut self, index: usize, value: T) -> Result<(), NoMemory>
    where
        T: Drop,
        requires { index ≤ length self.old }
        ensures ok { OnOk result (self.new ≡ insert self.old index value) }
        ensures err { OnErr result (self.new ≡ self.old) }
    {
        self.elements.insert(index, value)?;
        Ok(())
    }

    /// Replaces the element at `index`, where there is one.
    pub fn put(&mut self, index: usize, value: T)
    where
        T: Drop,
        ensures { self.new ≡ slice_set self.old index value }
    {
        if index < self.elements.len() {
            self.elements[index] = value;
        }
    }

    /// Replaces the element at `index`.
    pub fn set(&mut self, index: usize, value: T)
    where
        T: Drop,
        requires { index < length self.old }
        ensures { self.new ≡ slice_set self.old index value }
    {
        self.elements[index] = value;
    }
}

impl<T: Drop> Items<T> {
    /// Takes the element at `index` out; those behind it move up.
    pub fn remove(&mut self, index: usize) -> T
        requires { index < length self.old }
        ensures value { result ≡ slice_index_or self.old index result }
        ensures rest { self.new ≡ remove self.old index }
    {
        self.elements.remove(index)
    }

    /// Keeps the first `len` elements, or all where there are no more.
    pub fn truncate(&mut self, len: usize)
        ensures { self.new ≡ take len self.old }
    {
        self.elements.truncate(len);
    }

    /// Adds all elements of another list at the end.
    pub fn append(&mut self, other: Items<T>) -> Result<(), NoMemory>
        ensures ok { OnOk result (self.new ≡ self.old ++ other) }
        ensures err { OnErr result (self.new ≡ self.old) }
    {
        let mut elements = other.into_vec();
        self.elements.append(&mut elements)?;
        Ok(())
    }

    /// Keeps the elements that pass a test, in their order.
    pub fn retain<F: FnMut(&T) -> bool>(&mut self, test: F)
    where
        F: Drop,
        requires { F.IsAlwaysCallable test }
        ensures { IsFiltered (CalledAt F.FnMut) test self.old self.new }
    {
        self.elements.retain(test);
    }
}

impl<T: Copy> Items<T> {
    /// The list of these values.
    pub fn from_slice(alloc: Global, values: &[T]) -> Result<Items<T>, NoMemory>
        ensures { IfOk result (λ items. items ≡ values.now) }
    {
        Ok(Items {
            elements: Vec::from_slice(alloc, values)?,
        })
    }

    /// The same list once more, copied as one piece (`copy` goes by elements).
    pub fn to_items(&self) -> Result<Items<T>, NoMemory>
        ensures { IfOk result (λ items. items ≡ self.now) }
    {
        Items::from_slice(self.alloc(), self.as_slice())
    }

    /// Adds these values at the end.
    pub fn extend(&mut self, values: &[T]) -> Result<(), NoMemory>
        ensures ok { OnOk result (self.new ≡ self.old ++ values.now) }
        ensures err { OnErr result (self.new ≡ self.old) }
    {
        self.elements.extend_from_slice(values)?;
        Ok(())
    }
}

impl<T: Plain> Items<T> {
    /// The list of copies of these values.
    pub fn copied(alloc: Global, values: &[T]) -> Result<Items<T>, NoMemory>
        ensures { IfOk result (λ copies. copies ≡ values.now) }
    {
        let mut elements = Vec::with_capacity(alloc, values.len())?;
        for value in values {
            elements.push(value.copy()?)?;
        }
        Ok(Items { elements })
    }
}

impl<T: Plain> Plain for Items<T> {
    fn copy(&self) -> Result<Items<T>, NoMemory> {
        Items::copied(self.alloc(), self.elements.as_slice())
    }
}

impl<T: PartialEq> PartialEq for Items<T> {
    ghost use Rattle.std.specs.Cmp.Lexicographic.{lists_per, pointwise};

    ghost eq = { λ a b. pointwise T.eq a b };

    ghost laws = { lists_per T.laws };

    fn eq(&self, other: &Items<T>) -> bool {
        self.elements == other.elements
    }
}
