// A refutation that is made smaller: what is tried stays where it is smaller and refutes the obligation too.
//
// Facts and numbers are changed in the values themselves, and changed back where they don't serve. Where elements are joined, the
// values are made anew.

ghost use Rattle.std.specs.Prelude.{◌≡◌, ◌≤◌, length};

use crate::changes::{Change, Left, calls_changed, with_change};
use crate::draft::{Draft, Fact, Number, Place, put_fact};
use crate::reading::{bit_of, may_serve};
use items::or_drop;
use obligation_list::{Obligation, Witness, breaks};
use spec_core::{Spec, is_in_state_range};
use spec_states::State;
use std::alloc::{AllocError, Global};
use std::marker::Model;
use std::mem::replace;

/// Values that refute an obligation, with their draft, and how many more drafts are tried.
#[derive(Drop)]
pub struct Refutation<'a> {
    pub alloc: Global,
    pub spec: &'a Spec,
    pub ob: &'a Obligation,
    pub witness: Witness,
    pub draft: Draft,
    pub left: u32,
    /// What each invariant reads, as bits; nothing where they may be false.
    pub read: &'a [u32],
}

impl<'a> Model for Refutation<'a> {
    ghost use Rattle.std.specs.Prelude.{ℕ};
    ghost use Rattle.witness_shrinking.specs.Refuted.{IsShrinking};

    ghost Value = { ℕ };

    ghost view = { λ a. a.left };

    ghost invariant = { λ a. IsShrinking a.spec.now a.ob.now a.witness };
}

// Makes a change to the facts of a state, or takes it back.
fn put_change(
    spec: &Spec,
    state: &mut State,
    facts: &[Fact],
    change: Change<'_>,
    is_back: bool,
) -> Result<(), AllocError>
    requires relations { length spec.now.relations ≤ length state.old.relations }
    requires counters { length spec.now.counters ≤ length state.old.counters }
    ensures relations { length state.new.relations ≡ length state.old.relations }
    ensures counters { length state.new.counters ≡ length state.old.counters }
{
    for (place, fact) in facts.iter().enumerate() {
        let value = change.value(spec, place, fact);
        if value != fact.value {
            put_fact(spec, state, fact, if is_back { fact.value } else { value })?;
        }
    }
    Ok(())
}

// The bits of the facts that a change gives other values.
fn bits_changed(spec: &Spec, facts: &[Fact], change: Change<'_>) -> u32 {
    let mut bits = 0;
    for (place, fact) in facts.iter().enumerate() {
        if change.value(spec, place, fact) != fact.value {
            bits |= bit_of(fact.thing);
        }
    }
    bits
}

// Whether any of these facts is left out.
fn leaves_any(spec: &Spec, facts: &[Fact], left: Left) -> bool {
    for (place, fact) in facts.iter().enumerate() {
        if left.leaves_out(spec, place, fact) {
            return true;
        }
    }
    false
}

fn is_argument(place: Place) -> bool {
    match place {
        Place::Argument(_, _) => true,
        Place::Value(_) => false,
    }
}

impl<'a> Refutation<'a> {
    // Whether the values refute the obligation, which they did before facts of what has these bits changed, or elements.
    fn serves(&self, touched: u32) -> bool {
        may_serve(self.spec, &self.witness, self.read, touched)
            && breaks(self.spec, self.ob, &self.witness)
    }

    /// The refutation by a draft, where its values refute the obligation too; facts of what has these bits differ.
    pub fn with(&self, draft: Draft, touched: u32) -> Result<Option<Refutation<'a>>, AllocError> {
        let made = or_drop!(draft.witness(self.alloc, self.spec); draft);
        let Some(witness) = made else {
            drop(draft);
            return Ok(None);
        };
        let next = Refutation {
            alloc: self.alloc,
            spec: self.spec,
            ob: self.ob,
            witness,
            draft,
            left: self.left,
            read: self.read,
        };
        if next.serves(touched) {
            return Ok(Some(next));
        }
        drop(next);
        Ok(None)
    }

    /// Whether a draft is smaller.
    pub fn is_above(&self, draft: &Draft) -> bool {
        let spec = self.spec;
        draft.size(spec).is_below(self.draft.size(spec))
    }

    /// Tries a draft: where it is smaller and refutes the obligation, it takes the place of the one that was.
    pub fn tries(&mut self, candidate: Draft) -> Result<bool, AllocError> {
        if self.left == 0 || !self.is_above(&candidate) {
            drop(candidate);
            return Ok(false);
        }
        self.left = self.left.saturating_sub(1);
        let Some(next) = self.with(candidate, 0)? else {
            return Ok(false);
        };
        let before = replace(self, next);
        drop(before);
        Ok(true)
    }

    // Gives the calls other numbers.
    fn puts_arguments(&mut self, numbers: &[Number]) -> Result<(), AllocError> {
        let calls = calls_changed(self.alloc, self.draft.calls.as_slice(), numbers)?;
        let before = replace(&mut self.witness.calls, calls);
        drop(before);
        Ok(())
    }

    // Makes a change to the values, or takes it back.
    fn puts(&mut self, change: Change<'_>, is_back: bool) -> Result<(), AllocError> {
        let facts = self.draft.facts.as_slice();
        put_change(self.spec, &mut self.witness.state, facts, change, is_back)?;
        if !change
            .numbers
            .iter()
            .any(|number| is_argument(number.place))
        {
            return Ok(());
        }
        self.puts_arguments(if is_back { &[] } else { change.numbers })
    }

    // Whether a change makes it smaller: it leaves facts out, or its numbers are smaller.
    fn is_above_by(&self, change: Change<'_>) -> bool {
        let numbers = change.numbers;
        if !numbers.iter().all(|number| is_in_state_range(number.value)) {
            return false;
        }
        leaves_any(self.spec, self.draft.facts.as_slice(), change.left)
            || self.draft.is_smaller_with(numbers)
    }

    // Makes a change to the draft, which the values have already.
    fn keeps(&mut self, change: Change<'_>) -> Result<(), AllocError> {
        let draft = with_change(self.alloc, self.spec, &self.draft, change)?;
        let before = replace(&mut self.draft, draft);
        drop(before);
        Ok(())
    }

    /// Tries a change: where it makes the values smaller and they still refute the obligation, it stays.
    pub fn changes(&mut self, change: Change<'_>) -> Result<bool, AllocError> {
        if self.left == 0 || !self.is_above_by(change) {
            return Ok(false);
        }
        self.left = self.left.saturating_sub(1);
        let touched = bits_changed(self.spec, self.draft.facts.as_slice(), change);
        self.puts(change, false)?;
        if !self.serves(touched) {
            self.puts(change, true)?;
            return Ok(false);
        }
        self.keeps(change)?;
        Ok(true)
    }
}
