// Calls that take the same tokens conflict with the same calls.

ghost use Rattle.std.specs.Prelude.{◌≡◌};
ghost use Rattle.token_manager.specs.Alike.{same_elems, same_takes, take_alike};

use spec_core::{Call, Elem, Spec, Take, World, elem_at};

// Some elements are the same at both arguments.
fn same_elems(world: &World, one: &[i64], other: &[i64], elems: &[Elem]) -> bool
    ensures { result ≡ same_elems world.now one.now other.now elems.now }
{
    elems.iter().all(|e| elem_at(world, one, &[], *e) == elem_at(world, other, &[], *e))
}

// Each of some takes lines names the same elements at both arguments.
fn same_takes(world: &World, one: &[i64], other: &[i64], takes: &[Take]) -> bool
    ensures { result ≡ same_takes world.now one.now other.now takes.now }
{
    takes
        .iter()
        .all(|t| same_elems(world, one, other, t.args.as_slice()))
}

/// Whether two calls take the same tokens. What conflicts with the one then conflicts with the other.
pub fn take_alike(spec: &Spec, world: &World, a: &Call, b: &Call) -> bool
    ensures { result ≡ take_alike spec.now world.now a.now b.now }
{
    a.op == b.op
        && same_takes(
            world,
            a.args.as_slice(),
            b.args.as_slice(),
            spec.takes_of(b.op),
        )
}

fn with_elems(world: &World, args: &[i64], elems: &[Elem], sum: u64) -> u64 {
    let mut sum = sum;
    for elem in elems {
        sum = sum
            .wrapping_mul(1099511628211)
            .wrapping_add(elem_at(world, args, &[], *elem));
    }
    sum
}

/// A number that calls that take the same tokens have in common. Others may have it too, so whoever goes by it asks `take_alike`.
pub fn token_sum(spec: &Spec, world: &World, call: &Call) -> u64 {
    let mut sum = call.op as u64;
    for take in spec.takes_of(call.op) {
        sum = with_elems(world, call.args.as_slice(), take.args.as_slice(), sum);
    }
    sum
}
