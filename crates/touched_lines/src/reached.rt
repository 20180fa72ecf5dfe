// The truth of a line's body where it reads what updates reach, reading by reading.

ghost use Rattle.std.specs.{Prelude.{◌≡◌, ◌≤◌, true, [], length}, List.{list_all}};
ghost use Rattle.spec_core.specs.{Limits.{most_variables}, Form.{form_of}, State.{Reads}};
ghost use Rattle.spec_core.specs.Truth.{truth, line_true};
ghost use Rattle.spec_core.specs.Fits.{world_fits, form_fits, line_fits};
ghost use Rattle.effectors.specs.Effect.{after};
ghost use Rattle.touched_lines.specs.Spans.{all_within};
ghost use Rattle.touched_lines.specs.Touched.{spans_from, true_where, true_reached, body_true};
ghost use Rattle.touched_lines.specs.Touched.{term_true, form_true};

use crate::spans::span_of;
use crate::within::{true_last, true_last_two, true_three};
use effectors::is_thing;
use spec_core::{
    Body, Call, Elem, Formula, Prefix, Prefixed, Readings, Spec, Spot, Summand, Term, Thing,
    Update, World, holds, line_holds,
};

// Whether a body over variables of these sorts is true at all elements at which the reading at these places is one that the spots reach.
fn true_in_spans<R: Readings>(
    spec: &Spec,
    world: &World,
    at: &R,
    args: &[i64],
    sorts: &[u8],
    body: &Formula,
    elems: &[Elem],
    spots: &[Spot],
) -> bool
    requires world { world_fits spec.now world.now ≡ true }
    requires few { length sorts.now ≤ most_variables }
    requires fits { all_within (spans_from world.now args.now elems.now spots.now 0 sorts.now) []
        (λ vars. form_fits spec.now world.now [] vars (form_of body.now)) ≡ true }
    ensures { result ≡ all_within (spans_from world.now args.now elems.now spots.now 0 sorts.now) []
        (λ vars. truth world.now (R.reads at.now) [] vars (form_of body.now)) }
{
    match sorts {
        [] => holds(spec, world, at, &[], &[], body),
        [a] => {
            let only = span_of(world, args, *a, 0, elems, spots);
            true_last(spec, world, at, &[], only, body)
        }
        [a, b] => {
            let one = span_of(world, args, *a, 0, elems, spots);
            let other = span_of(world, args, *b, 1, elems, spots);
            true_last_two(spec, world, at, &[], one, other, body)
        }
        [a, b, c] => {
            let first = span_of(world, args, *a, 0, elems, spots);
            let second = span_of(world, args, *b, 1, elems, spots);
            let third = span_of(world, args, *c, 2, elems, spots);
            true_three(spec, world, at, first, second, third, body)
        }
        _ => unreachable!(),
    }
}

fn true_where<R: Readings>(
    spec: &Spec,
    world: &World,
    at: &R,
    args: &[i64],
    line: &Prefixed,
    elems: &[Elem],
    spots: &[Spot],
) -> bool
    requires world { world_fits spec.now world.now ≡ true }
    requires fits { line_fits spec.now world.now [] line.now ≡ true }
    ensures { result ≡ true_where world.now (R.reads at.now) args.now line.now elems.now spots.now }
{
    true_in_spans(
        spec,
        world,
        at,
        args,
        line.vars.as_slice(),
        &line.body,
        elems,
        spots,
    )
}

fn true_reached<R: Readings>(
    spec: &Spec,
    world: &World,
    at: &R,
    args: &[i64],
    line: &Prefixed,
    updates: &[Update],
    thing: Thing,
    elems: &[Elem],
) -> bool
    requires world { world_fits spec.now world.now ≡ true }
    requires fits { line_fits spec.now world.now [] line.now ≡ true }
    ensures { result ≡ true_reached world.now
        (R.reads at.now) args.now line.now updates.now thing elems.now }
{
    match updates {
        [] => true,
        [update, updates @ ..] => {
            if is_thing(update.thing, thing)
                && !true_where(spec, world, at, args, line, elems, update.at.as_slice())
            {
                return false;
            }
            true_reached(spec, world, at, args, line, updates, thing, elems)
        }
    }
}

fn body_true<R: Readings>(
    spec: &Spec,
    world: &World,
    at: &R,
    args: &[i64],
    line: &Prefixed,
    updates: &[Update],
    body: &Body,
) -> bool
    requires world { world_fits spec.now world.now ≡ true }
    requires fits { line_fits spec.now world.now [] line.now ≡ true }
    ensures { result ≡ body_true world.now (R.reads at.now) args.now line.now updates.now body.now }
{
    match body {
        Body::One => true,
        Body::Param(_) => true,
        Body::Count(counter, elems) => {
            let thing = Thing::Counter(*counter);
            true_reached(
                spec,
                world,
                at,
                args,
                line,
                updates,
                thing,
                elems.as_slice(),
            )
        }
    }
}

fn summands_true<R: Readings>(
    spec: &Spec,
    world: &World,
    at: &R,
    args: &[i64],
    line: &Prefixed,
    updates: &[Update],
    summands: &[Summand],
) -> bool
    requires world { world_fits spec.now world.now ≡ true }
    requires fits { line_fits spec.now world.now [] line.now ≡ true }
    ensures { result ≡ list_all (λ s. body_true world.now
        (R.reads at.now) args.now line.now updates.now s.body) summands.now }
{
    match summands {
        [] => true,
        [summand, summands @ ..] => body_true(spec, world, at, args, line, updates, &summand.body)
            && summands_true(spec, world, at, args, line, updates, summands),
    }
}

fn term_true<R: Readings>(
    spec: &Spec,
    world: &World,
    at: &R,
    args: &[i64],
    line: &Prefixed,
    updates: &[Update],
    term: &Term,
) -> bool
    requires world { world_fits spec.now world.now ≡ true }
    requires fits { line_fits spec.now world.now [] line.now ≡ true }
    ensures { result ≡ term_true world.now (R.reads at.now) args.now line.now updates.now term.now }
{
    summands_true(
        spec,
        world,
        at,
        args,
        line,
        updates,
        term.summands.as_slice(),
    )
}

// Whether the line's body is true wherever one of the readings in a part of it is one that the updates reach.
fn form_true<R: Readings>(
    spec: &Spec,
    world: &World,
    at: &R,
    args: &[i64],
    line: &Prefixed,
    updates: &[Update],
    part: &Formula,
) -> bool
    requires world { world_fits spec.now world.now ≡ true }
    requires fits { line_fits spec.now world.now [] line.now ≡ true }
    ensures { result ≡ form_true world.now (R.reads at.now) args.now line.now updates.now
        (form_of part.now) }
{
    match part {
        Formula::True => true,
        Formula::False => true,
        Formula::Not(f) => form_true(spec, world, at, args, line, updates, f),
        Formula::And(f, g) => form_true(spec, world, at, args, line, updates, f)
            && form_true(spec, world, at, args, line, updates, g),
        Formula::Or(f, g) => form_true(spec, world, at, args, line, updates, f)
            && form_true(spec, world, at, args, line, updates, g),
        Formula::Implies(f, g) => form_true(spec, world, at, args, line, updates, f)
            && form_true(spec, world, at, args, line, updates, g),
        Formula::Has(relation, elems) => {
            let thing = Thing::Relation(*relation);
            true_reached(
                spec,
                world,
                at,
                args,
                line,
                updates,
                thing,
                elems.as_slice(),
            )
        }
        Formula::Same(_, _) => true,
        Formula::Differ(_, _) => true,
        Formula::Compare(t, _, u) => term_true(spec, world, at, args, line, updates, t)
            && term_true(spec, world, at, args, line, updates, u),
    }
}

/// The truth of a line after a call, where it was true before the call.
pub fn line_holds_after<R: Readings>(
    spec: &Spec,
    world: &World,
    at: &R,
    call: &Call,
    line: &Prefixed,
) -> bool
    requires world { world_fits spec.now world.now ≡ true }
    requires fits { line_fits spec.now world.now [] line.now ≡ true }
    ensures { (before : Reads) → R.reads at.now ≡ after spec.now world.now call.now before
        → line_true world.now before [] line.now ≡ true
        → result ≡ line_true world.now (R.reads at.now) [] line.now }
{
    let updates = spec.updates_of(call.op);
    let args = call.args.as_slice();
    match line.prefix {
        Prefix::Exists => line_holds(spec, world, at, &[], line),
        Prefix::Forall => form_true(spec, world, at, args, line, updates, &line.body),
        Prefix::Plain => form_true(spec, world, at, args, line, updates, &line.body),
    }
}
