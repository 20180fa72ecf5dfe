// Whether the first variables force a formula's truth.
//
// The other variables have elements too, of which nothing is used: so the formula fits, and its atoms can be asked.

ghost use Rattle.std.specs.{Prelude.{◌≡◌, true, ◌&&◌}, List.{list_all}};
ghost use Rattle.spec_core.specs.{Form.{form_of}, Truth.{truth}};
ghost use Rattle.spec_core.specs.{Fits.{in_state_range, world_fits, form_fits}, Choices.{agrees}};
ghost use Rattle.spec_core.specs.Forced.{is_bound, body_bound, term_bound, atom_bound};
ghost use Rattle.spec_core.specs.Forced.{atom_forced, is_forced};

use crate::{Body, Elem, Formula, Readings, Spec, Summand, Term, World, holds};

fn is_bound(elem: Elem, count: usize) -> bool
    ensures { result ≡ is_bound count elem }
{
    match elem {
        Elem::Const(_) => true,
        Elem::Param(_) => true,
        Elem::Var(n) => (n as usize) < count,
    }
}

fn all_bound(elems: &[Elem], count: usize) -> bool
    ensures { result ≡ list_all (is_bound count) elems.now }
{
    elems.iter().all(|elem| is_bound(*elem, count))
}

fn body_bound(body: &Body, count: usize) -> bool
    ensures { result ≡ body_bound count body.now }
{
    match body {
        Body::One => true,
        Body::Param(_) => true,
        Body::Count(_, elems) => all_bound(elems.as_slice(), count),
    }
}

fn summands_bound(summands: &[Summand], count: usize) -> bool
    ensures { result ≡ list_all (λ s. body_bound count s.body) summands.now }
{
    summands
        .iter()
        .all(|summand| body_bound(&summand.body, count))
}

fn term_bound(term: &Term, count: usize) -> bool
    ensures { result ≡ term_bound count term.now }
{
    summands_bound(term.summands.as_slice(), count)
}

fn atom_bound(formula: &Formula, count: usize) -> bool
    ensures { result ≡ atom_bound count (form_of formula.now) }
{
    match formula {
        Formula::True => true,
        Formula::False => true,
        Formula::Has(_, elems) => all_bound(elems.as_slice(), count),
        Formula::Same(a, b) => is_bound(*a, count) && is_bound(*b, count),
        Formula::Differ(a, b) => is_bound(*a, count) && is_bound(*b, count),
        Formula::Compare(t, _, u) => term_bound(t, count) && term_bound(u, count),
        Formula::Not(_) => false,
        Formula::And(_, _) => false,
        Formula::Or(_, _) => false,
        Formula::Implies(_, _) => false,
    }
}

/// Whether the formula's truth is the wanted one.
pub fn agrees<R: Readings>(
    spec: &Spec,
    world: &World,
    at: &R,
    args: &[i64],
    vars: &[u32],
    formula: &Formula,
    wanted: bool,
) -> bool
    requires world { world_fits spec.now world.now ≡ true }
    requires args { list_all in_state_range args.now ≡ true }
    requires fits { form_fits spec.now world.now args.now vars.now (form_of formula.now) ≡ true }
    ensures { result ≡ agrees wanted (truth world.now (R.reads at.now) args.now vars.now
        (form_of formula.now)) }
{
    let truth = holds(spec, world, at, args, vars, formula);
    if wanted { truth } else { !truth }
}

fn atom_forced<R: Readings>(
    spec: &Spec,
    world: &World,
    at: &R,
    args: &[i64],
    vars: &[u32],
    count: usize,
    formula: &Formula,
    wanted: bool,
) -> bool
    requires world { world_fits spec.now world.now ≡ true }
    requires args { list_all in_state_range args.now ≡ true }
    requires fits { form_fits spec.now world.now args.now vars.now (form_of formula.now) ≡ true }
    ensures { result ≡ atom_forced world.now (R.reads at.now) args.now vars.now count
        (form_of formula.now) wanted }
{
    atom_bound(formula, count) && agrees(spec, world, at, args, vars, formula, wanted)
}

/// Whether the first variables, so many as `count` says, force the formula's truth to be the wanted one.
pub fn is_forced<R: Readings>(
    spec: &Spec,
    world: &World,
    at: &R,
    args: &[i64],
    vars: &[u32],
    count: usize,
    formula: &Formula,
    wanted: bool,
) -> bool
    requires world { world_fits spec.now world.now ≡ true }
    requires args { list_all in_state_range args.now ≡ true }
    requires fits { form_fits spec.now world.now args.now vars.now (form_of formula.now) ≡ true }
    ensures { result ≡ is_forced world.now (R.reads at.now) args.now vars.now count
        (form_of formula.now) wanted }
{
    match formula {
        Formula::True => wanted,
        Formula::False => !wanted,
        Formula::Not(f) => is_forced(spec, world, at, args, vars, count, f, !wanted),
        Formula::And(f, g) => {
            if wanted {
                is_forced(spec, world, at, args, vars, count, f, true)
                    && is_forced(spec, world, at, args, vars, count, g, true)
            } else {
                is_forced(spec, world, at, args, vars, count, f, false)
                    || is_forced(spec, world, at, args, vars, count, g, false)
            }
        }
        Formula::Or(f, g) => {
            if wanted {
                is_forced(spec, world, at, args, vars, count, f, true)
                    || is_forced(spec, world, at, args, vars, count, g, true)
            } else {
                is_forced(spec, world, at, args, vars, count, f, false)
                    && is_forced(spec, world, at, args, vars, count, g, false)
            }
        }
        Formula::Implies(f, g) => {
            if wanted {
                is_forced(spec, world, at, args, vars, count, f, false)
                    || is_forced(spec, world, at, args, vars, count, g, true)
            } else {
                is_forced(spec, world, at, args, vars, count, f, true)
                    && is_forced(spec, world, at, args, vars, count, g, false)
            }
        }
        Formula::Has(_, _) => atom_forced(spec, world, at, args, vars, count, formula, wanted),
        Formula::Same(_, _) => atom_forced(spec, world, at, args, vars, count, formula, wanted),
        Formula::Differ(_, _) => atom_forced(spec, world, at, args, vars, count, formula, wanted),
        Formula::Compare(_, _, _) => atom_forced(
            spec, world, at, args, vars, count, formula, wanted,
        ),
    }
}
