// Whether one assignment of elements to the variables of a rule gives the elements that two takes lines name.
//
// Each variable is compared with its later places, so nothing is stored: a pattern has at most three.

ghost use Rattle.std.specs.Prelude.{◌≡◌, ℕ, List, true, []};
ghost use Rattle.spec_core.specs.Truth.{elems_of};
ghost use Rattle.token_rules.specs.Assignment.{stands_for, assigned, one_assignment, Assigns};

use spec_core::{Elem, World, elem_at};

// The variable has this element wherever it stands.
fn stands_for(
    world: &World,
    args: &[i64],
    var: u8,
    element: u64,
    vars: &[u8],
    elems: &[Elem],
) -> bool
    ensures { result ≡ stands_for var element vars.now (elems_of world.now args.now [] elems.now) }
{
    match vars {
        [] => elems.is_empty(),
        [next, vars @ ..] => match elems {
            [] => false,
            [elem, elems @ ..] => {
                (*next != var || elem_at(world, args, &[], *elem) == element)
                    && stands_for(world, args, var, element, vars, elems)
            }
        },
    }
}

// One assignment gives the elements of one list of variables.
fn assigned(world: &World, args: &[i64], vars: &[u8], elems: &[Elem]) -> bool
    ensures { result ≡ assigned vars.now (elems_of world.now args.now [] elems.now) }
{
    match vars {
        [] => elems.is_empty(),
        [var, vars @ ..] => match elems {
            [] => false,
            [elem, elems @ ..] => {
                stands_for(
                    world,
                    args,
                    *var,
                    elem_at(world, args, &[], *elem),
                    vars,
                    elems,
                ) && assigned(world, args, vars, elems)
            }
        },
    }
}

/// Whether one assignment of elements to variables gives the elements of both lists, the first at the arguments `one`, the
/// second at the arguments `other`.
pub fn one_assignment(
    world: &World,
    one: &[i64],
    other: &[i64],
    left: &[u8],
    first: &[Elem],
    right: &[u8],
    second: &[Elem],
) -> bool
    ensures { result
        ≡ one_assignment left.now (elems_of world.now one.now [] first.now) right.now
        (elems_of world.now other.now [] second.now) }
{
    match left {
        [] => first.is_empty() && assigned(world, other, right, second),
        [var, left @ ..] => match first {
            [] => false,
            [elem, first @ ..] => {
                let element = elem_at(world, one, &[], *elem);
                stands_for(world, one, *var, element, left, first)
                    && stands_for(world, other, *var, element, right, second)
                    && one_assignment(world, one, other, left, first, right, second)
            }
        },
    }
}

/// Two lists of elements pass the test exactly where some assignment of elements to variables gives both.
pub fn law_one_assignment()
    ensures found { (vs es us fs : List ℕ) → one_assignment vs es us fs ≡ true
        → (value : ℕ → ℕ) × Assigns vs es us fs value }
    ensures only { (vs es us fs : List ℕ) (value : ℕ → ℕ) → Assigns vs es us fs value
        → one_assignment vs es us fs ≡ true }
{}
