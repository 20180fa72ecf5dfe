// Smaller witnesses: what doesn't matter for a refutation is taken away, so that what is left shows what does.
ghost use Rattle.obligation_list.specs.Obligations.{IsObligation};
ghost use Rattle.witness_shrinking.specs.Refuted.{IsRefutedBy, HasLists};

use crate::changes::{has, with_thing};
use crate::draft::Draft;
use crate::reading::{bit_of, bits_of_invariants};
use crate::refutation::Refutation;
use items::{Items, or_drop};
use obligation_list::{Obligation, Witness, breaks};
use spec_core::{Spec, Thing};
use std::alloc::{AllocError, Global};
use std::mem::replace;

// How many drafts are tried at most.
const MOST_TRIES: u32 = 400;

// How many kinds of steps there are, and how many of them serve behind a detour.
const STEPS: u32 = 4;

const STEPS_BEHIND: u32 = 2;

// Whether a relation or a counter may stand for another one: it is of the same kind and has the same sorts.
fn is_alike(spec: &Spec, one: Thing, other: Thing) -> bool {
    let is_kind = match one {
        Thing::Relation(_) => matches!(other, Thing::Relation(_)),
        Thing::Counter(_) => matches!(other, Thing::Counter(_)),
    };
    is_kind && one != other && spec.places_of(one) == spec.places_of(other)
}

// The relations and counters by their numbers, the relations first.
fn thing_at(spec: &Spec, n: usize) -> Thing {
    let relations = spec.relations.len();
    if n < relations {
        Thing::Relation(n as u8)
    } else {
        Thing::Counter(u8::try_from(n.saturating_sub(relations)).unwrap_or(u8::MAX))
    }
}

impl Refutation<'_> {
    // Takes the kinds of steps that serve behind a detour in turn, until none of them changes anything.
    fn shrinks_behind(&mut self) -> Result<(), AllocError> {
        let mut calm = 0u32;
        for n in 0..MOST_TRIES {
            let is_changed = if n % STEPS_BEHIND == 0 {
                self.with_fewer_facts()?
            } else {
                self.with_lesser_numbers()?
            };
            calm = if is_changed {
                0
            } else {
                calm.saturating_add(1)
            };
            if calm >= STEPS_BEHIND {
                return Ok(());
            }
        }
        Ok(())
    }

    // The bit of what a fact is of.
    fn bit_at(&self, at: usize) -> u32 {
        match self.draft.facts.get(at) {
            Some(fact) => bit_of(fact.thing),
            None => 0,
        }
    }

    // Says of a fact that it is one of another relation or counter, and goes on from there; keeps that where it is smaller.
    fn detours_by(&mut self, at: usize, thing: Thing) -> Result<bool, AllocError> {
        let candidate = with_thing(self.alloc, &self.draft, at, thing)?;
        self.left = self.left.saturating_sub(1);
        let touched = bit_of(thing) | self.bit_at(at);
        let Some(mut other) = self.with(candidate, touched)? else {
            return Ok(false);
        };
        or_drop!(other.shrinks_behind(); other);
        self.left = other.left;
        if !self.is_above(&other.draft) {
            drop(other);
            return Ok(false);
        }
        let before = replace(self, other);
        drop(before);
        Ok(true)
    }

    // Whether a fact may be one of another relation or counter.
    fn may_move(&self, at: usize, thing: Thing) -> bool {
        let facts = self.draft.facts.as_slice();
        let Some(fact) = facts.get(at) else {
            return false;
        };
        self.left > 0
            && is_alike(self.spec, fact.thing, thing)
            && !has(facts, thing, fact.elements.as_slice())
    }

    fn detours_at(&mut self, at: usize) -> Result<bool, AllocError> {
        let spec = self.spec;
        for n in 0..spec.relations.len().saturating_add(spec.counters.len()) {
            let thing = thing_at(spec, n);
            if self.may_move(at, thing) && self.detours_by(at, thing)? {
                return Ok(true);
            }
        }
        Ok(false)
    }

    // Lets a fact be one of another relation or counter, where a smaller witness is behind that.
    fn with_detours(&mut self) -> Result<bool, AllocError> {
        for at in 0..self.draft.facts.len() {
            if self.detours_at(at)? {
                return Ok(true);
            }
        }
        Ok(false)
    }

    fn steps(&mut self, kind: u32) -> Result<bool, AllocError> {
        match kind {
            0 => self.with_fewer_elements(),
            1 => self.with_fewer_facts(),
            2 => self.with_lesser_numbers(),
            _ => self.with_detours(),
        }
    }

    // The values behind all steps; none where their world is none.
    fn shrunk(&mut self) -> Result<Option<Witness>, AllocError> {
        self.shrinks()?;
        self.draft.witness(self.alloc, self.spec)
    }

    // Takes the kinds of steps in turn until none of them changes anything.
    fn shrinks(&mut self) -> Result<(), AllocError> {
        let mut calm = 0u32;
        for n in 0..MOST_TRIES {
            let is_changed = self.steps(n % STEPS)?;
            calm = if is_changed {
                0
            } else {
                calm.saturating_add(1)
            };
            if calm >= STEPS {
                return Ok(());
            }
        }
        Ok(())
    }
}

// What each invariant reads, as bits; nothing for an initial state, in which one of them is false.
fn bits_read(alloc: Global, spec: &Spec, ob: &Obligation) -> Result<Items<u32>, AllocError> {
    match ob {
        Obligation::Init { inv: _ } => Ok(Items::new(alloc)),
        _ => bits_of_invariants(alloc, spec),
    }
}

// A smaller witness, where the draft is that of the first one; none where its world is none.
fn smaller(
    alloc: Global,
    spec: &Spec,
    ob: &Obligation,
    witness: Witness,
    draft: Draft,
    read: &[u32],
) -> Result<Option<Witness>, AllocError>
    requires member { IsObligation spec.now ob.now }
    requires lists { HasLists spec.now witness.state }
{
    let mut refutation = Refutation {
        alloc,
        spec,
        ob,
        witness,
        draft,
        left: MOST_TRIES,
        read,
    };
    let made = refutation.shrunk();
    drop(refutation);
    made
}

// A smaller witness, where there is one.
fn smaller_than(
    alloc: Global,
    spec: &Spec,
    ob: &Obligation,
    witness: &Witness,
) -> Result<Option<Witness>, AllocError>
    requires { IsObligation spec.now ob.now }
{
    let draft = Draft::of(alloc, spec, witness)?;
    let copy = or_drop!(draft.witness(alloc, spec); draft);
    let Some(first) = copy else {
        drop(draft);
        return Ok(None);
    };
    let read = or_drop!(bits_read(alloc, spec, ob); first, draft);
    let made = smaller(alloc, spec, ob, first, draft, read.as_slice());
    drop(read);
    made
}

/// Makes a witness that refutes an obligation smaller, step by step, as long as it still does.
pub fn shrink(
    alloc: Global,
    spec: &Spec,
    ob: &Obligation,
    witness: &mut Witness,
) -> Result<(), AllocError>
    requires member { IsObligation spec.now ob.now }
    requires refuted { IsRefutedBy spec.now ob.now witness.old }
    ensures { IsRefutedBy spec.now ob.now witness.new }
{
    let Some(smaller) = smaller_than(alloc, spec, ob, witness)? else {
        return Ok(());
    };
    if breaks(spec, ob, &smaller) {
        *witness = smaller;
    } else {
        drop(smaller);
    }
    Ok(())
}
