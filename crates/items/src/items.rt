// A vector that contracts see as the list of its elements.
ghost use Rattle.std.specs.Prelude.{◌≡◌, [], ◌∷◌, ◌++◌, ◌==◌, ◌<◌, ◌^◌, length, OnOk, OnErr, IfOk};
ghost use Rattle.std.specs.Prelude.{IfSome, IfNone, slice_get, option_copied};
ghost use Rattle.std.specs.{Slice.Iter.{iter_rest}, Iterator.Adapters.{IterYieldsInOrder}};

use std::alloc::{AllocError, Global};
use std::marker::Model;
use std::slice::Iter;

/// A growing list, seen by contracts as the list of its elements.
#[derive(Drop)]
pub struct Items<T> {
    vec: Vec<T>,
}

impl<T> Model for Items<T> {
    ghost use Rattle.std.specs.Prelude.{List};

    ghost Value = { List T };

    ghost view = { λ a. a.vec.items };
}

impl<T> Items<T> {
    /// An empty list, which takes no memory until it grows.
    pub fn new(alloc: Global) -> Self
        ensures { result ≡ [] }
    {
        Items {
            vec: Vec::new(alloc),
        }
    }

    /// The list of a vector's elements.
    pub fn from_vec(vec: Vec<T>) -> Self
        ensures { result ≡ vec.items }
    {
        Items { vec }
    }

    /// The vector that holds the elements.
    pub fn into_vec(self) -> Vec<T>
        ensures { result.items ≡ self }
    {
        self.vec
    }

    /// All elements, in their order.
    pub fn as_slice(&self) -> &[T]
        ensures { result.now ≡ self.now }
    {
        self.vec.as_slice()
    }

    /// How many elements there are.
    pub fn len(&self) -> usize
        ensures { result ≡ length self.now }
    {
        self.vec.len()
    }

    /// Whether there is no element.
    pub fn is_empty(&self) -> bool
        ensures { result ≡ (length self.now == 0) }
    {
        self.vec.len() == 0
    }

    /// The element at a place, counted from 0.
    pub fn get(&self, index: usize) -> Option<&T>
        ensures { option_copied result ≡ slice_get self.now index }
    {
        self.vec.as_slice().get(index)
    }

    /// The elements in their order.
    pub fn iter(&self) -> Iter<'_, T>
        ensures rest { iter_rest result ≡ self.now }
        ensures runs { IterYieldsInOrder T }
    {
        self.vec.as_slice().iter()
    }
}

impl<T: Drop> Items<T> {
    /// Adds an element at the end. A refused one leaves the list as it was.
    pub fn push(&mut self, item: T) -> Result<(), AllocError>
        ensures ok { OnOk result (self.new ≡ self.old ++ item ∷ []) }
        ensures err { OnErr result (self.new ≡ self.old) }
    {
        self.vec.push(item)?;
        Ok(())
    }

    /// Takes the last element out.
    pub fn pop(&mut self) -> Option<T>
        ensures last { IfSome result (λ item. self.old ≡ self.new ++ item ∷ []) }
        ensures none { IfNone result (self.old ≡ []) }
        ensures none_left { IfNone result (self.new ≡ []) }
    {
        self.vec.pop()
    }

    /// Takes all elements out. The memory stays.
    pub fn clear(&mut self)
        ensures { self.new ≡ [] }
    {
        self.vec.clear();
    }
}

impl<T: Copy> Items<T> {
    /// A copy of a slice.
    pub fn from_slice(alloc: Global, items: &[T]) -> Result<Self, AllocError>
        ensures { IfOk result (λ list. list ≡ items.now) }
    {
        let vec = Vec::from_slice(alloc, items)?;
        Ok(Items { vec })
    }

    /// Adds copies of a slice's elements at the end. A refused call leaves the list as it was.
    pub fn extend_from_slice(&mut self, items: &[T]) -> Result<(), AllocError>
        ensures ok { OnOk result (self.new ≡ self.old ++ items.now) }
        ensures err { OnErr result (self.new ≡ self.old) }
    {
        self.vec.extend_from_slice(items)
    }
}

impl<'a, T> IntoIterator for &'a Items<T> {
    type Item = &'a T;

    type IntoIter = Iter<'a, T>;

    ghost into_iter_gives = { λ list it. (iter_rest it ≡ list.now) × (length (iter_rest it) < 2 ^ 64)
        × IterYieldsInOrder T };

    fn into_iter(self) -> Iter<'a, T> {
        self.iter()
    }
}
