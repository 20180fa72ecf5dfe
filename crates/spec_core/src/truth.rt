// The truth of formulas and lines, over whatever reads like a state.
//
// Nothing here takes memory. A term's value stays below 2^127: a reading is at most 3 * 10^26 in size, a coefficient at most
// 10^9, and a term has at most 16 summands.

ghost use Rattle.std.specs.Prelude.{◌≡◌, ℕ, ◌≤◌, ◌*◌, ◌<◌, ◌^◌, ◌*ℤ◌, unsigned_abs, nat_lt, true};
ghost use Rattle.std.specs.{Prelude.{length}, List.{list_all}};
ghost use Rattle.spec_core.specs.Limits.{most_places, most_keys, most_summands, greatest_literal};
ghost use Rattle.spec_core.specs.{Form.{form_of}, State.{Reads}};
ghost use Rattle.spec_core.specs.Truth.{elem_of, elems_of, body_of, sum_of, term_of, compare_of};
ghost use Rattle.spec_core.specs.Truth.{truth};
ghost use Rattle.spec_core.specs.Fits.{in_state_range, world_fits, body_fits, summand_fits};
ghost use Rattle.spec_core.specs.{Fits.{term_fits, form_fits}, Sizes.{is_small}};

use crate::formula::{Body, Cmp, Elem, Formula, Summand, Term};
use crate::spec::Spec;
use crate::world::World;

/// What reads like a state whose values are at most 3 * 10^26 in size.
pub trait Readings {
    ghost reads: { Self → Reads };

    /// Whether the tuple is in the relation.
    fn has(&self, relation: u8, tuple: &[u32]) -> bool
        ensures { result ≡ (reads self.now).has relation tuple.now };

    /// The counter's value at the key.
    fn count(&self, counter: u8, key: &[u32]) -> i128
        ensures value { result ≡ (reads self.now).count counter key.now }
        ensures small { unsigned_abs result ≤ 3 * 10 ^ 26 };
}

/// The element that a constant, an argument or a variable is; 0 where there is none.
pub fn elem_at(world: &World, args: &[i64], vars: &[u32], elem: Elem) -> u64
    ensures { result ≡ elem_of world.now args.now vars.now elem }
{
    match elem {
        Elem::Const(n) => world
            .consts
            .as_slice()
            .get(n as usize)
            .copied()
            .unwrap_or(0) as u64,
        Elem::Param(n) => args.get(n as usize).copied().unwrap_or(0).unsigned_abs(),
        Elem::Var(n) => vars.get(n as usize).copied().unwrap_or(0) as u64,
    }
}

// An element of the world, at a place of a tuple or key.
fn small_at(world: &World, args: &[i64], vars: &[u32], elem: Elem) -> u32
    requires { is_small world.now args.now vars.now elem ≡ true }
    ensures { result ≡ elem_of world.now args.now vars.now elem }
{
    elem_at(world, args, vars, elem) as u32
}

/// The reading of a relation at up to three elements, each below 2^32.
pub fn has_at<R: Readings>(
    world: &World,
    at: &R,
    args: &[i64],
    vars: &[u32],
    relation: u8,
    elems: &[Elem],
) -> bool
    requires few { length elems.now ≤ most_places }
    requires small { list_all (is_small world.now args.now vars.now) elems.now ≡ true }
    ensures { result ≡ (R.reads at.now).has relation
        (elems_of world.now args.now vars.now elems.now) }
{
    match elems {
        [a] => at.has(relation, &[small_at(world, args, vars, *a)]),
        [a, b] => at.has(
            relation,
            &[
                small_at(world, args, vars, *a),
                small_at(world, args, vars, *b),
            ],
        ),
        [a, b, c] => at.has(
            relation,
            &[
                small_at(world, args, vars, *a),
                small_at(world, args, vars, *b),
                small_at(world, args, vars, *c),
            ],
        ),
        _ => at.has(relation, &[]),
    }
}

/// The reading of a counter at up to two elements, each below 2^32.
pub fn count_at<R: Readings>(
    world: &World,
    at: &R,
    args: &[i64],
    vars: &[u32],
    counter: u8,
    elems: &[Elem],
) -> i128
    requires few { length elems.now ≤ most_keys }
    requires small { list_all (is_small world.now args.now vars.now) elems.now ≡ true }
    ensures value { result ≡ (R.reads at.now).count counter
        (elems_of world.now args.now vars.now elems.now) }
    ensures small { unsigned_abs result ≤ 3 * 10 ^ 26 }
{
    match elems {
        [a] => at.count(counter, &[small_at(world, args, vars, *a)]),
        [a, b] => at.count(
            counter,
            &[
                small_at(world, args, vars, *a),
                small_at(world, args, vars, *b),
            ],
        ),
        _ => at.count(counter, &[]),
    }
}

fn compare(cmp: Cmp, a: i128, b: i128) -> bool
    ensures { result ≡ compare_of cmp a b }
{
    match cmp {
        Cmp::Less => a < b,
        Cmp::AtMost => a <= b,
        Cmp::Equal => a == b,
        Cmp::Unequal => a != b,
        Cmp::AtLeast => a >= b,
        Cmp::Greater => a > b,
    }
}

fn scaled(coef: i64, value: i128) -> i128
    requires coef { unsigned_abs coef ≤ greatest_literal }
    requires value { unsigned_abs value ≤ 3 * 10 ^ 26 }
    ensures value { result ≡ coef *ℤ value }
    ensures small { unsigned_abs result ≤ 3 * 10 ^ 35 }
{
    coef as i128 * value
}

fn body_value<R: Readings>(
    spec: &Spec,
    world: &World,
    at: &R,
    args: &[i64],
    vars: &[u32],
    body: &Body,
) -> i128
    requires world { world_fits spec.now world.now ≡ true }
    requires args { list_all in_state_range args.now ≡ true }
    requires fits { body_fits spec.now world.now args.now vars.now body.now ≡ true }
    ensures value { result ≡ body_of world.now (R.reads at.now) args.now vars.now body.now }
    ensures small { unsigned_abs result ≤ 3 * 10 ^ 26 }
{
    match body {
        Body::One => 1,
        Body::Param(n) => args[*n as usize] as i128,
        Body::Count(counter, elems) => {
            spec.well_formed();
            count_at(world, at, args, vars, *counter, elems.as_slice())
        }
    }
}

fn summand_value<R: Readings>(
    spec: &Spec,
    world: &World,
    at: &R,
    args: &[i64],
    vars: &[u32],
    summand: &Summand,
) -> i128
    requires world { world_fits spec.now world.now ≡ true }
    requires args { list_all in_state_range args.now ≡ true }
    requires fits { summand_fits spec.now world.now args.now vars.now summand.now ≡ true }
    ensures value { result ≡ summand.now.coef *ℤ body_of world.now
        (R.reads at.now) args.now vars.now summand.now.body }
    ensures small { unsigned_abs result ≤ 3 * 10 ^ 35 }
{
    scaled(
        summand.coef,
        body_value(spec, world, at, args, vars, &summand.body),
    )
}

fn sum_value<R: Readings>(
    spec: &Spec,
    world: &World,
    at: &R,
    args: &[i64],
    vars: &[u32],
    summands: &[Summand],
) -> i128
    requires world { world_fits spec.now world.now ≡ true }
    requires args { list_all in_state_range args.now ≡ true }
    requires few { length summands.now ≤ most_summands }
    requires fits { list_all (summand_fits spec.now world.now args.now vars.now) summands.now
        ≡ true }
    ensures value { result ≡ sum_of world.now (R.reads at.now) args.now vars.now summands.now }
    ensures small { unsigned_abs result ≤ 16 * (3 * 10 ^ 35) }
{
    let mut sum = 0;
    for summand in summands {
        sum += summand_value(spec, world, at, args, vars, summand);
    }
    sum
}

/// The value of a term, at most 4.8 * 10^36 in size.
pub fn term_value<R: Readings>(
    spec: &Spec,
    world: &World,
    at: &R,
    args: &[i64],
    vars: &[u32],
    term: &Term,
) -> i128
    requires world { world_fits spec.now world.now ≡ true }
    requires args { list_all in_state_range args.now ≡ true }
    requires fits { term_fits spec.now world.now args.now vars.now term.now ≡ true }
    ensures value { result ≡ term_of world.now (R.reads at.now) args.now vars.now term.now }
    ensures small { unsigned_abs result ≤ 16 * (3 * 10 ^ 35) }
{
    sum_value(spec, world, at, args, vars, term.summands.as_slice())
}

/// The truth of a formula at arguments and variables that fit it.
pub fn holds<R: Readings>(
    spec: &Spec,
    world: &World,
    at: &R,
    args: &[i64],
    vars: &[u32],
    formula: &Formula,
) -> bool
    requires world { world_fits spec.now world.now ≡ true }
    requires args { list_all in_state_range args.now ≡ true }
    requires fits { form_fits spec.now world.now args.now vars.now (form_of formula.now) ≡ true }
    ensures { result ≡ truth world.now (R.reads at.now) args.now vars.now (form_of formula.now) }
{
    match formula {
        Formula::True => true,
        Formula::False => false,
        Formula::Not(f) => !holds(spec, world, at, args, vars, f),
        Formula::And(f, g) => holds(spec, world, at, args, vars, f)
            && holds(spec, world, at, args, vars, g),
        Formula::Or(f, g) => holds(spec, world, at, args, vars, f)
            || holds(spec, world, at, args, vars, g),
        Formula::Implies(f, g) => !holds(spec, world, at, args, vars, f)
            || holds(spec, world, at, args, vars, g),
        Formula::Has(relation, elems) => {
            spec.well_formed();
            has_at(world, at, args, vars, *relation, elems.as_slice())
        }
        Formula::Same(a, b) => elem_at(world, args, vars, *a) == elem_at(world, args, vars, *b),
        Formula::Differ(a, b) => elem_at(world, args, vars, *a) != elem_at(world, args, vars, *b),
        Formula::Compare(t, cmp, u) => {
            let left = term_value(spec, world, at, args, vars, t);
            compare(*cmp, left, term_value(spec, world, at, args, vars, u))
        }
    }
}
