// What lines read, and whether those that read something are true.
//
// A change of some facts leaves each invariant as true as it was that reads none of their relations and counters. So of what is tried
// the others are asked first, and most of it fails there.

ghost use Rattle.std.specs.Prelude.{◌≡◌, true};
ghost use Rattle.spec_core.specs.Fits.{world_fits};

use items::Items;
use obligation_list::Witness;
use spec_core::{Body, Call, Formula, Spec, Term, Thing, World, line_holds, requires_broken_at};
use spec_states::State;
use std::alloc::{AllocError, Global};

// A specification has at most so many relations.
const MOST_RELATIONS: u32 = 16;

/// The bit of a relation or a counter.
pub fn bit_of(thing: Thing) -> u32 {
    match thing {
        Thing::Relation(k) => 1u32.wrapping_shl(k as u32),
        Thing::Counter(k) => 1u32.wrapping_shl((k as u32).wrapping_add(MOST_RELATIONS)),
    }
}

fn bits_of_term(term: &Term) -> u32 {
    let mut bits = 0;
    for summand in term.summands.as_slice() {
        if let Body::Count(counter, _) = &summand.body {
            bits |= bit_of(Thing::Counter(*counter));
        }
    }
    bits
}

// The bits of what a formula reads.
fn bits_of(formula: &Formula) -> u32 {
    match formula {
        Formula::True => 0,
        Formula::False => 0,
        Formula::Not(f) => bits_of(f),
        Formula::And(f, g) => bits_of(f) | bits_of(g),
        Formula::Or(f, g) => bits_of(f) | bits_of(g),
        Formula::Implies(f, g) => bits_of(f) | bits_of(g),
        Formula::Has(relation, _) => bit_of(Thing::Relation(*relation)),
        Formula::Same(_, _) => 0,
        Formula::Differ(_, _) => 0,
        Formula::Compare(t, _, u) => bits_of_term(t) | bits_of_term(u),
    }
}

/// The bits of what each invariant reads.
pub fn bits_of_invariants(alloc: Global, spec: &Spec) -> Result<Items<u32>, AllocError> {
    let mut bits = Items::new(alloc);
    for invariant in spec.invariants.as_slice() {
        bits.push(bits_of(&invariant.line.body))?;
    }
    Ok(bits)
}

// Whether an invariant is true.
fn is_true(spec: &Spec, world: &World, state: &State, number: usize) -> bool
    requires { world_fits spec.now world.now ≡ true }
{
    if number >= spec.invariants.len() {
        return true;
    }
    spec.well_formed();
    let line = &spec.invariants.as_slice()[number].line;
    line_holds(spec, world, state, &[], line)
}

// Whether each invariant is true that reads some of what has these bits.
fn are_true(spec: &Spec, world: &World, state: &State, read: &[u32], touched: u32) -> bool
    requires { world_fits spec.now world.now ≡ true }
{
    for (number, bits) in read.iter().enumerate() {
        if bits & touched != 0 && !is_true(spec, world, state, number) {
            return false;
        }
    }
    true
}

// Whether a call fits, and its precondition is true.
fn is_ready(spec: &Spec, world: &World, state: &State, call: &Call) -> bool
    requires { world_fits spec.now world.now ≡ true }
{
    call.fits(spec, world) && requires_broken_at(spec, world, state, call).is_none()
}

/// Whether each invariant that reads some of what has these bits is true, and each call is ready.
pub fn may_serve(spec: &Spec, witness: &Witness, read: &[u32], touched: u32) -> bool {
    let (world, state) = (&witness.world, &witness.state);
    if !world.fits(spec) || !are_true(spec, world, state, read, touched) {
        return false;
    }
    for call in witness.calls.as_slice() {
        if !is_ready(spec, world, state, call) {
            return false;
        }
    }
    true
}
