// Whether a witness refutes an obligation, by plain evaluation. Nothing here takes memory: what is read after one call or two is
// read without building a state.

ghost use Rattle.std.specs.Prelude.{◌≡◌, ◌<◌, ◌↔◌, IsTrue, true, length, is_none, []};
ghost use Rattle.spec_core.specs.{State.{reads}, Specification.{op_of, places_of}};
ghost use Rattle.spec_core.specs.Meaning.{invariant_line, inv, pre};
ghost use Rattle.spec_core.specs.Fits.{fits_places, world_fits, call_fits, is_state};
ghost use Rattle.effectors.specs.Effect.{after};
ghost use Rattle.obligation_list.specs.Obligations.{IsObligation};
ghost use Rattle.obligation_list.specs.Breaking.{requires_line, failing_vars, line_at, reads_same};
ghost use Rattle.obligation_list.specs.Breaking.{elements_of};
ghost use Rattle.obligation_list.specs.Refuting.{IsRefutation, may_run_together, refutes_init};
ghost use Rattle.obligation_list.specs.Refuting.{refutes_safety, are_together, refutes_commute};
ghost use Rattle.obligation_list.specs.Refuting.{refutes_stable, refutes_in, parts_fit, refutes};

use crate::initial::is_initial;
use crate::lines::{invariant_line, is_ready, line_at, requires_line};
use crate::obligation::Obligation;
use crate::witness::Witness;
use effectors::{After, post2_count, post2_has};
use spec_core::{Call, Prefix, Prefixed, Spec, Thing, World, invariant_broken_at};
use spec_states::State;
use token_rules::conflicts;

// The elements are those at which a line may fail.
fn fits_line(world: &World, line: &Prefixed, elements: &[u32]) -> bool
    ensures { result ≡ fits_places world.now (failing_vars line.now) elements.now }
{
    match line.prefix {
        Prefix::Exists => elements.is_empty(),
        Prefix::Plain => world.has_tuple(line.vars.as_slice(), elements),
        Prefix::Forall => world.has_tuple(line.vars.as_slice(), elements),
    }
}

// The elements are those at which the conclusion may fail.
fn has_elements(spec: &Spec, world: &World, ob: &Obligation, elements: &[u32]) -> bool
    requires { IsObligation spec.now ob.now }
    ensures { result ≡ fits_places world.now (elements_of spec.now ob.now) elements.now }
{
    match ob {
        Obligation::Init { inv } => fits_line(world, invariant_line(spec, *inv), elements),
        Obligation::Safety { op: _, inv } => fits_line(world, invariant_line(spec, *inv), elements),
        Obligation::Commute {
            first: _,
            second: _,
            thing,
        } => world.has_tuple(spec.places_of(*thing), elements),
        Obligation::Stable { op, line, other: _ } => fits_line(
            world,
            requires_line(spec, *op, *line),
            elements,
        ),
    }
}

fn parts_fit(spec: &Spec, ob: &Obligation, w: &Witness) -> bool
    requires { IsObligation spec.now ob.now }
    ensures { result ≡ parts_fit spec.now ob.now w.now.world w.now.state w.now.elements }
{
    w.world.fits(spec)
        && w.state.fits(spec, &w.world)
        && has_elements(spec, &w.world, ob, w.elements.as_slice())
}

// Every invariant is true.
fn invariants_hold(spec: &Spec, world: &World, state: &State) -> bool
    requires { world_fits spec.now world.now ≡ true }
    ensures { result ≡ inv spec.now world.now (reads state.now) }
{
    invariant_broken_at(spec, world, state).is_none()
}

// The invariant is true in the state at the elements.
fn init_concluded(spec: &Spec, world: &World, state: &State, inv: u8, elements: &[u32]) -> bool
    requires world { world_fits spec.now world.now ≡ true }
    requires inv { inv < length spec.now.invariants }
    requires elements { fits_places world.now
        (failing_vars (invariant_line spec.now inv)) elements.now ≡ true }
    ensures { result ≡ line_at world.now (reads state.now) []
        (invariant_line spec.now inv) elements.now }
{
    spec.well_formed();
    line_at(spec, world, state, &[], invariant_line(spec, inv), elements)
}

// The invariant is true after the call at the elements.
fn safety_concluded(
    spec: &Spec,
    world: &World,
    state: &State,
    call: &Call,
    inv: u8,
    elements: &[u32],
) -> bool
    requires world { world_fits spec.now world.now ≡ true }
    requires state { is_state spec.now world.now state.now ≡ true }
    requires call { call_fits spec.now world.now call.now ≡ true }
    requires inv { inv < length spec.now.invariants }
    requires elements { fits_places world.now
        (failing_vars (invariant_line spec.now inv)) elements.now ≡ true }
    ensures { result ≡ line_at world.now (after spec.now world.now call.now (reads state.now)) []
        (invariant_line spec.now inv) elements.now }
{
    spec.well_formed();
    let after = After {
        spec,
        world,
        state,
        call,
    };
    line_at(
        spec,
        world,
        &after,
        &[],
        invariant_line(spec, inv),
        elements,
    )
}

// The thing reads the same after both calls in either order.
fn commute_concluded(
    spec: &Spec,
    world: &World,
    state: &State,
    a: &Call,
    b: &Call,
    thing: Thing,
    elements: &[u32],
) -> bool
    requires world { world_fits spec.now world.now ≡ true }
    requires state { is_state spec.now world.now state.now ≡ true }
    requires a { call_fits spec.now world.now a.now ≡ true }
    requires b { call_fits spec.now world.now b.now ≡ true }
    ensures { result ≡ reads_same thing elements.now
        (after spec.now world.now b.now (after spec.now world.now a.now (reads state.now)))
        (after spec.now world.now a.now (after spec.now world.now b.now (reads state.now))) }
{
    match thing {
        Thing::Relation(k) => {
            post2_has(spec, world, state, a, b, k, elements)
                == post2_has(spec, world, state, b, a, k, elements)
        }
        Thing::Counter(k) => {
            post2_count(spec, world, state, a, b, k, elements)
                == post2_count(spec, world, state, b, a, k, elements)
        }
    }
}

// The requires line of the first call is true after the second at the elements.
fn stable_concluded(
    spec: &Spec,
    world: &World,
    state: &State,
    a: &Call,
    b: &Call,
    op: u8,
    line: u8,
    elements: &[u32],
) -> bool
    requires world { world_fits spec.now world.now ≡ true }
    requires state { is_state spec.now world.now state.now ≡ true }
    requires a { call_fits spec.now world.now a.now ≡ true }
    requires b { call_fits spec.now world.now b.now ≡ true }
    requires op { a.now.op ≡ op }
    requires line { line < length (op_of spec.now op).requires_ }
    requires elements { fits_places world.now
        (failing_vars (requires_line spec.now op line)) elements.now ≡ true }
    ensures { result ≡ line_at world.now (after spec.now world.now b.now
        (reads state.now)) a.now.args (requires_line spec.now op line) elements.now }
{
    spec.well_formed();
    let after = After {
        spec,
        world,
        state,
        call: b,
    };
    line_at(
        spec,
        world,
        &after,
        a.args.as_slice(),
        requires_line(spec, op, line),
        elements,
    )
}

fn refutes_init(spec: &Spec, world: &World, state: &State, inv: u8, elements: &[u32]) -> bool
    requires world { world_fits spec.now world.now ≡ true }
    requires inv { inv < length spec.now.invariants }
    requires elements { fits_places world.now
        (failing_vars (invariant_line spec.now inv)) elements.now ≡ true }
    ensures { result ≡ refutes_init spec.now inv world.now (reads state.now) elements.now }
{
    is_initial(spec, world, state) && !init_concluded(spec, world, state, inv, elements)
}

fn refutes_safety(
    spec: &Spec,
    world: &World,
    state: &State,
    op: u8,
    inv: u8,
    call: &Call,
    elements: &[u32],
) -> bool
    requires world { world_fits spec.now world.now ≡ true }
    requires state { is_state spec.now world.now state.now ≡ true }
    requires inv { inv < length spec.now.invariants }
    requires elements { fits_places world.now
        (failing_vars (invariant_line spec.now inv)) elements.now ≡ true }
    ensures { result ≡ refutes_safety spec.now op inv world.now
        (reads state.now) call.now elements.now }
{
    call.op == op
        && call.fits(spec, world)
        && invariants_hold(spec, world, state)
        && is_ready(spec, world, state, call)
        && !safety_concluded(spec, world, state, call, inv, elements)
}

// Every invariant and both preconditions are true in the state, and the calls don't conflict.
fn may_run_together(spec: &Spec, world: &World, state: &State, a: &Call, b: &Call) -> bool
    requires world { world_fits spec.now world.now ≡ true }
    requires a { call_fits spec.now world.now a.now ≡ true }
    requires b { call_fits spec.now world.now b.now ≡ true }
    ensures { result ≡ may_run_together spec.now world.now (reads state.now) a.now b.now }
{
    invariants_hold(spec, world, state)
        && is_ready(spec, world, state, a)
        && is_ready(spec, world, state, b)
        && !conflicts(spec, world, a, b)
}

// The calls are of these operations and may run together.
fn are_together(
    spec: &Spec,
    world: &World,
    state: &State,
    first: u8,
    second: u8,
    a: &Call,
    b: &Call,
) -> bool
    requires { world_fits spec.now world.now ≡ true }
    ensures { result ≡ are_together spec.now first second world.now (reads state.now) a.now b.now }
{
    a.op == first
        && a.fits(spec, world)
        && b.op == second
        && b.fits(spec, world)
        && may_run_together(spec, world, state, a, b)
}

fn refutes_commute(
    spec: &Spec,
    world: &World,
    state: &State,
    first: u8,
    second: u8,
    thing: Thing,
    a: &Call,
    b: &Call,
    elements: &[u32],
) -> bool
    requires world { world_fits spec.now world.now ≡ true }
    requires state { is_state spec.now world.now state.now ≡ true }
    ensures { result ≡ refutes_commute spec.now first second thing world.now
        (reads state.now) a.now b.now elements.now }
{
    are_together(spec, world, state, first, second, a, b)
        && !commute_concluded(spec, world, state, a, b, thing, elements)
}

fn refutes_stable(
    spec: &Spec,
    world: &World,
    state: &State,
    first: u8,
    line: u8,
    second: u8,
    a: &Call,
    b: &Call,
    elements: &[u32],
) -> bool
    requires world { world_fits spec.now world.now ≡ true }
    requires state { is_state spec.now world.now state.now ≡ true }
    requires line { line < length (op_of spec.now first).requires_ }
    requires elements { fits_places world.now
        (failing_vars (requires_line spec.now first line)) elements.now ≡ true }
    ensures { result ≡ refutes_stable spec.now first line second world.now
        (reads state.now) a.now b.now elements.now }
{
    are_together(spec, world, state, first, second, a, b)
        && !stable_concluded(spec, world, state, a, b, first, line, elements)
}

// The calls are those of the obligation, what must be true is true, and the conclusion fails at the elements.
fn refutes_in(
    spec: &Spec,
    ob: &Obligation,
    world: &World,
    state: &State,
    calls: &[Call],
    elements: &[u32],
) -> bool
    requires ob { IsObligation spec.now ob.now }
    requires world { world_fits spec.now world.now ≡ true }
    requires state { is_state spec.now world.now state.now ≡ true }
    requires elements { fits_places world.now (elements_of spec.now ob.now) elements.now ≡ true }
    ensures { result ≡ refutes_in spec.now ob.now world.now
        (reads state.now) calls.now elements.now }
{
    match ob {
        Obligation::Init { inv } => match calls {
            [] => refutes_init(spec, world, state, *inv, elements),
            _ => false,
        },
        Obligation::Safety { op, inv } => match calls {
            [a] => refutes_safety(spec, world, state, *op, *inv, a, elements),
            _ => false,
        },
        Obligation::Commute {
            first,
            second,
            thing,
        } => match calls {
            [a, b] => {
                refutes_commute(spec, world, state, *first, *second, *thing, a, b, elements)
            }
            _ => false,
        },
        Obligation::Stable { op, line, other } => match calls {
            [a, b] => refutes_stable(spec, world, state, *op, *line, *other, a, b, elements),
            _ => false,
        },
    }
}

fn refutes(spec: &Spec, ob: &Obligation, w: &Witness) -> bool
    requires { IsObligation spec.now ob.now }
    ensures { result ≡ refutes spec.now ob.now w.now.world w.now.state w.now.calls w.now.elements }
{
    if parts_fit(spec, ob, w) {
        refutes_in(
            spec,
            ob,
            &w.world,
            &w.state,
            w.calls.as_slice(),
            w.elements.as_slice(),
        )
    } else {
        false
    }
}

/// Whether a witness refutes an obligation of the specification: its parts fit, with at most 100 elements of each sort and numbers
/// from -10^15 to 10^15; the state is the initial one or every invariant is true in it; the preconditions of the calls are true in
/// it; two calls don't conflict; and the conclusion fails at the elements.
pub fn breaks(spec: &Spec, ob: &Obligation, w: &Witness) -> bool
    requires { IsObligation spec.now ob.now }
    ensures { IsTrue result ↔ IsRefutation spec.now ob.now w.now.world w.now.state w.now.calls
        w.now.elements }
{
    refutes(spec, ob, w)
}
