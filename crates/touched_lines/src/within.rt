// Whether a body is true at each choice of elements, one of each of some spans.
//
// There are at most three variables. The elements chosen so far stand in an array on the stack; each loop chooses one more, unless
// those that are chosen force the body to be true already.

ghost use Rattle.std.specs.Prelude.{◌≡◌, ℕ, ◌≤◌, true, List, [], ◌∷◌, ◌++◌, length};
ghost use Rattle.spec_core.specs.{Form.{form_of}, Truth.{truth}, Fits.{world_fits, form_fits}};
ghost use Rattle.touched_lines.specs.Spans.{all_within};

use crate::spans::Span;
use spec_core::{Formula, Readings, Spec, World, holds, is_forced};

// Whether the body is true with one more element chosen.
fn holds_with<R: Readings>(
    spec: &Spec,
    world: &World,
    at: &R,
    chosen: &[u32],
    e: u32,
    body: &Formula,
) -> bool
    requires world { world_fits spec.now world.now ≡ true }
    requires few { length chosen.now ≤ 2 }
    requires fits { form_fits spec.now world.now [] (chosen.now ++ e ∷ []) (form_of body.now)
        ≡ true }
    ensures { result ≡ truth world.now (R.reads at.now) [] (chosen.now ++ e ∷ [])
        (form_of body.now) }
{
    match chosen {
        [] => holds(spec, world, at, &[], &[e], body),
        [a] => holds(spec, world, at, &[], &[*a, e], body),
        [a, b] => holds(spec, world, at, &[], &[*a, *b, e], body),
        _ => unreachable!(),
    }
}

// Whether the chosen elements force the body to be true, with an element for the last variable, which isn't used.
fn chosen_force<R: Readings>(
    spec: &Spec,
    world: &World,
    at: &R,
    chosen: &[u32],
    e: u32,
    body: &Formula,
) -> bool
    requires world { world_fits spec.now world.now ≡ true }
    requires fits { form_fits spec.now world.now [] (chosen.now ++ e ∷ []) (form_of body.now)
        ≡ true }
    ensures { result ≡ true → (t : List ℕ) → truth world.now (R.reads at.now) [] (chosen.now ++ t)
        (form_of body.now) ≡ true }
{
    match chosen {
        [a] => is_forced(spec, world, at, &[], &[*a, e], 1, body, true),
        [a, b] => is_forced(spec, world, at, &[], &[*a, *b, e], 2, body, true),
        _ => false,
    }
}

/// Whether the body is true at each element of the last span.
pub fn true_last<R: Readings>(
    spec: &Spec,
    world: &World,
    at: &R,
    chosen: &[u32],
    span: Span,
    body: &Formula,
) -> bool
    requires world { world_fits spec.now world.now ≡ true }
    requires few { length chosen.now ≤ 2 }
    requires fits { all_within (span ∷ []) chosen.now
        (λ vars. form_fits spec.now world.now [] vars (form_of body.now)) ≡ true }
    ensures { result ≡ all_within (span ∷ []) chosen.now
        (λ vars. truth world.now (R.reads at.now) [] vars (form_of body.now)) }
{
    if span.from < span.to && chosen_force(spec, world, at, chosen, span.from, body) {
        return true;
    }
    for e in span.from..span.to {
        if !holds_with(spec, world, at, chosen, e, body) {
            return false;
        }
    }
    true
}

// The same with one more element chosen.
fn true_last_with<R: Readings>(
    spec: &Spec,
    world: &World,
    at: &R,
    chosen: &[u32],
    e: u32,
    span: Span,
    body: &Formula,
) -> bool
    requires world { world_fits spec.now world.now ≡ true }
    requires few { length chosen.now ≤ 1 }
    requires fits { all_within (span ∷ []) (chosen.now ++ e ∷ [])
        (λ vars. form_fits spec.now world.now [] vars (form_of body.now)) ≡ true }
    ensures { result ≡ all_within (span ∷ []) (chosen.now ++ e ∷ [])
        (λ vars. truth world.now (R.reads at.now) [] vars (form_of body.now)) }
{
    match chosen {
        [] => true_last(spec, world, at, &[e], span, body),
        [a] => true_last(spec, world, at, &[*a, e], span, body),
        _ => unreachable!(),
    }
}

/// Whether it is so at all elements of the last two spans.
pub fn true_last_two<R: Readings>(
    spec: &Spec,
    world: &World,
    at: &R,
    chosen: &[u32],
    span: Span,
    last: Span,
    body: &Formula,
) -> bool
    requires world { world_fits spec.now world.now ≡ true }
    requires few { length chosen.now ≤ 1 }
    requires fits { all_within (span ∷ last ∷ []) chosen.now
        (λ vars. form_fits spec.now world.now [] vars (form_of body.now)) ≡ true }
    ensures { result ≡ all_within (span ∷ last ∷ []) chosen.now
        (λ vars. truth world.now (R.reads at.now) [] vars (form_of body.now)) }
{
    for e in span.from..span.to {
        if !true_last_with(spec, world, at, chosen, e, last, body) {
            return false;
        }
    }
    true
}

/// Whether it is so at all elements of three spans.
pub fn true_three<R: Readings>(
    spec: &Spec,
    world: &World,
    at: &R,
    first: Span,
    second: Span,
    third: Span,
    body: &Formula,
) -> bool
    requires world { world_fits spec.now world.now ≡ true }
    requires fits { all_within (first ∷ second ∷ third ∷ []) []
        (λ vars. form_fits spec.now world.now [] vars (form_of body.now)) ≡ true }
    ensures { result ≡ all_within (first ∷ second ∷ third ∷ []) []
        (λ vars. truth world.now (R.reads at.now) [] vars (form_of body.now)) }
{
    for e in first.from..first.to {
        if !true_last_two(spec, world, at, &[e], second, third, body) {
            return false;
        }
    }
    true
}
