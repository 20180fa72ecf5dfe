// Whether a body has the wanted truth at each choice of elements for its variables.
//
// There are at most three variables. The elements chosen so far stand in an array on the stack; each loop chooses one more, unless
// those that are chosen force the wanted truth already.

ghost use Rattle.std.specs.Prelude.{◌≡◌, ℕ, ◌≤◌, true, List, [], ◌∷◌, ◌++◌, length};
ghost use Rattle.std.specs.List.{list_all};
ghost use Rattle.spec_core.specs.{Limits.{most_variables}, Form.{form_of}, World.{tuples}};
ghost use Rattle.spec_core.specs.{Truth.{truth}, Fits.{in_state_range, world_fits, form_fits}};
ghost use Rattle.spec_core.specs.Choices.{all_choices, agrees};

use crate::forced::{agrees, is_forced};
use crate::{Formula, Readings, Spec, World};

// Whether the body's truth is the wanted one, with one more element chosen.
fn agrees_with<R: Readings>(
    spec: &Spec,
    world: &World,
    at: &R,
    args: &[i64],
    chosen: &[u32],
    e: u32,
    body: &Formula,
    wanted: bool,
) -> bool
    requires world { world_fits spec.now world.now ≡ true }
    requires args { list_all in_state_range args.now ≡ true }
    requires few { length chosen.now ≤ 2 }
    requires fits { form_fits spec.now world.now args.now (chosen.now ++ e ∷ []) (form_of body.now)
        ≡ true }
    ensures { result ≡ agrees wanted (truth world.now (R.reads at.now) args.now
        (chosen.now ++ e ∷ []) (form_of body.now)) }
{
    match chosen {
        [] => agrees(spec, world, at, args, &[e], body, wanted),
        [a] => agrees(spec, world, at, args, &[*a, e], body, wanted),
        [a, b] => agrees(spec, world, at, args, &[*a, *b, e], body, wanted),
        _ => unreachable!(),
    }
}

// Whether the chosen elements force the wanted truth, with elements for the last variables, which aren't used.
fn chosen_force<R: Readings>(
    spec: &Spec,
    world: &World,
    at: &R,
    args: &[i64],
    chosen: &[u32],
    rest: &[u32],
    body: &Formula,
    wanted: bool,
) -> bool
    requires world { world_fits spec.now world.now ≡ true }
    requires args { list_all in_state_range args.now ≡ true }
    requires fits { form_fits spec.now world.now args.now (chosen.now ++ rest.now)
        (form_of body.now) ≡ true }
    ensures { result ≡ true → (sorts : List ℕ)
        → all_choices world.now chosen.now sorts
        (λ vars. agrees wanted (truth world.now (R.reads at.now) args.now vars (form_of body.now)))
        ≡ true }
{
    match chosen {
        [a] => match rest {
            [b] => is_forced(spec, world, at, args, &[*a, *b], 1, body, wanted),
            [b, c] => is_forced(spec, world, at, args, &[*a, *b, *c], 1, body, wanted),
            _ => false,
        },
        [a, b] => match rest {
            [c] => is_forced(spec, world, at, args, &[*a, *b, *c], 2, body, wanted),
            _ => false,
        },
        _ => false,
    }
}

// Whether the chosen elements force the wanted truth, where elements of the last sort are left to be chosen.
fn force_last<R: Readings>(
    spec: &Spec,
    world: &World,
    at: &R,
    args: &[i64],
    chosen: &[u32],
    sort: u8,
    body: &Formula,
    wanted: bool,
) -> bool
    requires world { world_fits spec.now world.now ≡ true }
    requires args { list_all in_state_range args.now ≡ true }
    requires fits { all_choices world.now chosen.now (sort ∷ [])
        (λ vars. form_fits spec.now world.now args.now vars (form_of body.now)) ≡ true }
    ensures { result ≡ true → all_choices world.now chosen.now (sort ∷ [])
        (λ vars. agrees wanted (truth world.now (R.reads at.now) args.now vars (form_of body.now)))
        ≡ true }
{
    if world.size(sort) == 0 {
        return false;
    }
    chosen_force(spec, world, at, args, chosen, &[0], body, wanted)
}

// The same where elements of the last two sorts are left.
fn force_last_two<R: Readings>(
    spec: &Spec,
    world: &World,
    at: &R,
    args: &[i64],
    chosen: &[u32],
    sort: u8,
    last: u8,
    body: &Formula,
    wanted: bool,
) -> bool
    requires world { world_fits spec.now world.now ≡ true }
    requires args { list_all in_state_range args.now ≡ true }
    requires fits { all_choices world.now chosen.now (sort ∷ last ∷ [])
        (λ vars. form_fits spec.now world.now args.now vars (form_of body.now)) ≡ true }
    ensures { result ≡ true → all_choices world.now chosen.now (sort ∷ last ∷ [])
        (λ vars. agrees wanted (truth world.now (R.reads at.now) args.now vars (form_of body.now)))
        ≡ true }
{
    if world.size(sort) == 0 || world.size(last) == 0 {
        return false;
    }
    chosen_force(spec, world, at, args, chosen, &[0, 0], body, wanted)
}

// Whether the body's truth is the wanted one at each element of the last sort.
fn all_last<R: Readings>(
    spec: &Spec,
    world: &World,
    at: &R,
    args: &[i64],
    chosen: &[u32],
    sort: u8,
    body: &Formula,
    wanted: bool,
) -> bool
    requires world { world_fits spec.now world.now ≡ true }
    requires args { list_all in_state_range args.now ≡ true }
    requires few { length chosen.now ≤ 2 }
    requires fits { all_choices world.now chosen.now (sort ∷ [])
        (λ vars. form_fits spec.now world.now args.now vars (form_of body.now)) ≡ true }
    ensures { result ≡ all_choices world.now chosen.now (sort ∷ [])
        (λ vars. agrees wanted (truth world.now (R.reads at.now) args.now vars
        (form_of body.now))) }
{
    if force_last(spec, world, at, args, chosen, sort, body, wanted) {
        return true;
    }
    for e in 0..world.size(sort) {
        if !agrees_with(spec, world, at, args, chosen, e, body, wanted) {
            return false;
        }
    }
    true
}

// The same with one more element chosen.
fn all_last_with<R: Readings>(
    spec: &Spec,
    world: &World,
    at: &R,
    args: &[i64],
    chosen: &[u32],
    e: u32,
    sort: u8,
    body: &Formula,
    wanted: bool,
) -> bool
    requires world { world_fits spec.now world.now ≡ true }
    requires args { list_all in_state_range args.now ≡ true }
    requires few { length chosen.now ≤ 1 }
    requires fits { all_choices world.now (chosen.now ++ e ∷ []) (sort ∷ [])
        (λ vars. form_fits spec.now world.now args.now vars (form_of body.now)) ≡ true }
    ensures { result ≡ all_choices world.now (chosen.now ++ e ∷ []) (sort ∷ [])
        (λ vars. agrees wanted (truth world.now (R.reads at.now) args.now vars
        (form_of body.now))) }
{
    match chosen {
        [] => all_last(spec, world, at, args, &[e], sort, body, wanted),
        [a] => all_last(spec, world, at, args, &[*a, e], sort, body, wanted),
        _ => unreachable!(),
    }
}

// Whether it is so at all elements of the last two sorts.
fn all_last_two<R: Readings>(
    spec: &Spec,
    world: &World,
    at: &R,
    args: &[i64],
    chosen: &[u32],
    sort: u8,
    last: u8,
    body: &Formula,
    wanted: bool,
) -> bool
    requires world { world_fits spec.now world.now ≡ true }
    requires args { list_all in_state_range args.now ≡ true }
    requires few { length chosen.now ≤ 1 }
    requires fits { all_choices world.now chosen.now (sort ∷ last ∷ [])
        (λ vars. form_fits spec.now world.now args.now vars (form_of body.now)) ≡ true }
    ensures { result ≡ all_choices world.now chosen.now (sort ∷ last ∷ [])
        (λ vars. agrees wanted (truth world.now (R.reads at.now) args.now vars
        (form_of body.now))) }
{
    if force_last_two(spec, world, at, args, chosen, sort, last, body, wanted) {
        return true;
    }
    for e in 0..world.size(sort) {
        if !all_last_with(spec, world, at, args, chosen, e, last, body, wanted) {
            return false;
        }
    }
    true
}

// Whether it is so at all elements of three sorts.
fn all_three<R: Readings>(
    spec: &Spec,
    world: &World,
    at: &R,
    args: &[i64],
    first: u8,
    second: u8,
    third: u8,
    body: &Formula,
    wanted: bool,
) -> bool
    requires world { world_fits spec.now world.now ≡ true }
    requires args { list_all in_state_range args.now ≡ true }
    requires fits { all_choices world.now [] (first ∷ second ∷ third ∷ [])
        (λ vars. form_fits spec.now world.now args.now vars (form_of body.now)) ≡ true }
    ensures { result ≡ all_choices world.now [] (first ∷ second ∷ third ∷ [])
        (λ vars. agrees wanted (truth world.now (R.reads at.now) args.now vars
        (form_of body.now))) }
{
    for e in 0..world.size(first) {
        if !all_last_two(spec, world, at, args, &[e], second, third, body, wanted) {
            return false;
        }
    }
    true
}

/// Whether the body's truth is the wanted one at each choice of elements of these sorts.
pub fn all_agree<R: Readings>(
    spec: &Spec,
    world: &World,
    at: &R,
    args: &[i64],
    sorts: &[u8],
    body: &Formula,
    wanted: bool,
) -> bool
    requires world { world_fits spec.now world.now ≡ true }
    requires args { list_all in_state_range args.now ≡ true }
    requires few { length sorts.now ≤ most_variables }
    requires fits { list_all (λ vars. form_fits spec.now world.now args.now vars (form_of body.now))
        (tuples world.now sorts.now) ≡ true }
    ensures { result ≡ list_all (λ vars. agrees wanted
        (truth world.now (R.reads at.now) args.now vars (form_of body.now)))
        (tuples world.now sorts.now) }
{
    match sorts {
        [] => agrees(spec, world, at, args, &[], body, wanted),
        [a] => all_last(spec, world, at, args, &[], *a, body, wanted),
        [a, b] => all_last_two(spec, world, at, args, &[], *a, *b, body, wanted),
        [a, b, c] => all_three(spec, world, at, args, *a, *b, *c, body, wanted),
        _ => unreachable!(),
    }
}
