// Fewer elements: two of a sort are made one, or the only one is taken away.

use crate::changes::{Element, Joined, Left, made_one, names};
use crate::refutation::Refutation;
use std::alloc::AllocError;

impl Refutation<'_> {
    fn joins(&mut self, two: Joined, left: Left) -> Result<bool, AllocError> {
        let candidate = made_one(self.alloc, self.spec, self.ob, &self.draft, two, left)?;
        self.tries(candidate)
    }

    // Whether a fact names an element.
    fn names(&self, element: Element) -> bool {
        for fact in self.draft.facts.as_slice() {
            if names(self.spec, fact, element) {
                return true;
            }
        }
        false
    }

    // Joins two elements where a fact names this one, whose facts are left out.
    fn joins_without(&mut self, two: Joined, number: u32) -> Result<bool, AllocError> {
        let element = Element {
            sort: two.sort,
            number,
        };
        if !self.names(element) {
            return Ok(false);
        }
        self.joins(two, Left::Naming(element))
    }

    // Joins two elements: with the facts of both, of the first, of the second, or with no facts at all.
    fn joins_anyhow(&mut self, two: Joined) -> Result<bool, AllocError> {
        if self.joins(two, Left::None)?
            || self.joins_without(two, two.gone)?
            || self.joins_without(two, two.kept)?
        {
            return Ok(true);
        }
        if self.draft.facts.is_empty() {
            return Ok(false);
        }
        self.joins(two, Left::All)
    }

    // Joins an element with one below it.
    fn joins_below(&mut self, sort: u8, gone: u32) -> Result<bool, AllocError> {
        for kept in 0..gone {
            if self.joins_anyhow(Joined { sort, kept, gone })? {
                return Ok(true);
            }
        }
        Ok(false)
    }

    // Takes the only element of a sort away, with its facts.
    fn leaves_sort(&mut self, sort: u8) -> Result<bool, AllocError> {
        let only = Element { sort, number: 0 };
        let two = Joined {
            sort,
            kept: 0,
            gone: 0,
        };
        self.joins(two, Left::Naming(only))
    }

    fn narrows(&mut self, sort: u8) -> Result<bool, AllocError> {
        let size = self.draft.size_of(sort);
        if size == 1 {
            return self.leaves_sort(sort);
        }
        let mut changed = false;
        for n in 0..size {
            if self.joins_below(sort, size - 1 - n)? {
                changed = true;
            }
        }
        Ok(changed)
    }

    /// Joins elements as long as what is left refutes the obligation. Says whether there was a change.
    pub fn with_fewer_elements(&mut self) -> Result<bool, AllocError> {
        let spec = self.spec;
        let mut changed = false;
        for sort in 0..spec.sorts.len() {
            if self.narrows(sort as u8)? {
                changed = true;
            }
        }
        Ok(changed)
    }
}
