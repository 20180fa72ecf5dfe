// Fewer facts: all of them, those of a relation or a counter, those that name an element, one, or two are left out.

use crate::changes::{Change, Element, Left};
use crate::refutation::Refutation;
use spec_core::Thing;
use std::alloc::AllocError;

impl Refutation<'_> {
    fn leaves_out(&mut self, left: Left) -> Result<bool, AllocError> {
        self.changes(Change { left, numbers: &[] })
    }

    // Leaves out all facts of a relation or a counter.
    fn without_things(&mut self) -> Result<bool, AllocError> {
        let spec = self.spec;
        let mut changed = false;
        for k in 0..spec.relations.len() {
            if self.leaves_out(Left::Of(Thing::Relation(k as u8)))? {
                changed = true;
            }
        }
        for k in 0..spec.counters.len() {
            if self.leaves_out(Left::Of(Thing::Counter(k as u8)))? {
                changed = true;
            }
        }
        Ok(changed)
    }

    // Leaves out all facts that name an element of a sort.
    fn without_naming(&mut self, sort: u8) -> Result<bool, AllocError> {
        let size = self.draft.size_of(sort);
        let mut changed = false;
        for number in 0..size {
            if self.leaves_out(Left::Naming(Element { sort, number }))? {
                changed = true;
            }
        }
        Ok(changed)
    }

    fn without_groups(&mut self) -> Result<bool, AllocError> {
        let spec = self.spec;
        let mut changed = self.without_things()?;
        for sort in 0..spec.sorts.len() {
            if self.without_naming(sort as u8)? {
                changed = true;
            }
        }
        Ok(changed)
    }

    // Leaves out single facts, the last one first.
    fn without_single(&mut self) -> Result<bool, AllocError> {
        let mut changed = false;
        let count = self.draft.facts.len();
        for n in 0..count {
            let place = count - 1 - n;
            if self.leaves_out(Left::At(place, place))? {
                changed = true;
            }
        }
        Ok(changed)
    }

    fn without_two(&mut self, second: usize) -> Result<bool, AllocError> {
        for first in 0..second {
            if self.leaves_out(Left::At(first, second))? {
                return Ok(true);
            }
        }
        Ok(false)
    }

    // Leaves out two facts together.
    fn without_pair(&mut self) -> Result<bool, AllocError> {
        for second in 0..self.draft.facts.len() {
            if self.without_two(second)? {
                return Ok(true);
            }
        }
        Ok(false)
    }

    /// Leaves facts out as long as what is left refutes the obligation. Says whether there was a change.
    pub fn with_fewer_facts(&mut self) -> Result<bool, AllocError> {
        let count = self.draft.facts.len();
        if count > 1 && self.leaves_out(Left::All)? {
            return Ok(true);
        }
        let mut changed = count > 2 && self.without_groups()?;
        if self.without_single()? {
            changed = true;
        }
        if !changed && count > 2 {
            return self.without_pair();
        }
        Ok(changed)
    }
}
