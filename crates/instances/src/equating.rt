// Equality goes over each of three constants of one sort to the other two.
ghost use Rattle.std.specs.Prelude.{◌≡◌, ◌+◌, ◌≤◌, ◌<◌, ◌∷◌, [], ℕ, true, length, drop};
ghost use Rattle.std.specs.Prelude.{slice_index};
ghost use Rattle.std.specs.{Prelude.{IfOk}, List.{flat_map}};
ghost use Rattle.ground_problem.specs.Constants.{of_sort};
ghost use Rattle.ground_problem.specs.Symbols as symbols;
ghost use Rattle.ground_problem.specs.Equality as equality;
ghost use Rattle.ground_numbers.specs.Numbered.{literal, negation, conjunction, disjunction};
ghost use Rattle.ground_atoms.specs.Making.{make};
ghost use Rattle.ground_groups.specs.Limited.{Appends};
ghost use Rattle.instances.specs.Equalities.{AreNumbered};

use ground_atoms::{Atom, Atoms, GroundFormula};
use ground_groups::adding::has_room;
use ground_groups::{GroundRefused, Grounding, as_number};
use items::Items;
use std::alloc::{AllocError, Global};

// The number of the equality of two constants, the lesser first.
fn number_of(atoms: &mut Atoms, pair: (u32, u32)) -> Result<u32, AllocError>
    ensures { IfOk result
        (λ n. make atoms.old (symbols.same pair.0 pair.1)
        ≡ record { known = atoms.new; form = literal n true }) }
{
    let (lesser, greater) = pair;
    atoms.number_of(Atom::Same(lesser, greater))
}

// Appends that where the first two equalities are true, so is the third one, by their numbers.
fn push_implied(
    grounding: &mut Grounding,
    first: u32,
    second: u32,
    third: u32,
) -> Result<(), GroundRefused>
    ensures atoms { grounding.new.atoms ≡ grounding.old.atoms }
    ensures formula { (f : symbols.Symbolic)
        → make grounding.old.atoms f ≡ record {
          known = grounding.old.atoms;
          form = disjunction
              (negation (conjunction (literal first true) (literal second true)))
              (literal third true);
        }
        → Appends result grounding.old (f ∷ []) grounding.new }
{
    has_room(grounding)?;
    grounding
        .formulas
        .push(GroundFormula::Implied(first, second, third))?;
    Ok(())
}

// Appends that equality goes over each of three constants, by the numbers of their equalities.
fn push_three(
    grounding: &mut Grounding,
    front: u32,
    back: u32,
    ends: u32,
) -> Result<(), GroundRefused>
    ensures { (a b c : ℕ) → AreNumbered grounding.old.atoms a b c front back ends
        → Appends result grounding.old (equality.three_agree a b c) grounding.new }
{
    match push_implied(grounding, front, back, ends) {
        Ok(()) => {}
        Err(refused) => return Err(refused),
    }
    match push_implied(grounding, front, ends, back) {
        Ok(()) => {}
        Err(refused) => return Err(refused),
    }
    push_implied(grounding, ends, back, front)
}

// Appends that equality goes over each of three constants. Each equality is looked up once, and stands in three formulas.
fn add_three(grounding: &mut Grounding, a: u32, b: u32, c: u32) -> Result<(), GroundRefused>
    ensures { Appends result grounding.old (equality.three_agree a b c) grounding.new }
{
    let front = number_of(&mut grounding.atoms, (a, b))?;
    let back = number_of(&mut grounding.atoms, (b, c))?;
    let ends = number_of(&mut grounding.atoms, (a, c))?;
    push_three(grounding, front, back, ends)
}

// The same for two constants and each of these.
fn add_triples(
    grounding: &mut Grounding,
    a: u32,
    b: u32,
    later: &[u32],
) -> Result<(), GroundRefused>
    ensures { Appends result grounding.old
        (flat_map (equality.three_agree a b) later.now) grounding.new }
{
    for place in 0..later.len() {
        match add_three(grounding, a, b, later[place]) {
            Ok(()) => {}
            Err(refused) => return Err(refused),
        }
    }
    Ok(())
}

// The same for a constant, the one at a place and each after it.
fn add_from(
    grounding: &mut Grounding,
    a: u32,
    later: &[u32],
    place: usize,
) -> Result<(), GroundRefused>
    requires { place < length later.now }
    ensures { Appends result grounding.old
        (flat_map (equality.three_agree a (slice_index later.now place))
        (drop (place + 1) later.now))
        grounding.new }
{
    let next = place + 1;
    add_triples(grounding, a, later[place], &later[next..])
}

// The same for a constant and each two of these.
fn add_pairs(grounding: &mut Grounding, a: u32, later: &[u32]) -> Result<(), GroundRefused>
    ensures { Appends result grounding.old
        (equality.agree_with_pairs a later.now) grounding.new }
{
    for place in 0..later.len() {
        match add_from(grounding, a, later, place) {
            Ok(()) => {}
            Err(refused) => return Err(refused),
        }
    }
    Ok(())
}

// The constants of a sort, from this one on.
fn of_sort_from(
    alloc: Global,
    sorts: &[u8],
    from: usize,
    sort: u8,
) -> Result<Items<u32>, AllocError>
    requires { from ≤ length sorts.now }
    ensures { IfOk result (λ ns. ns ≡ of_sort from (drop from sorts.now) sort) }
{
    let mut constants = Items::new(alloc);
    for place in from..sorts.len() {
        if sorts[place] == sort {
            constants.push(as_number(place)?)?;
        }
    }
    Ok(constants)
}

// The same for the constant at a place and each two after it of its sort.
fn add_of_sort(grounding: &mut Grounding, sorts: &[u8], place: usize) -> Result<(), GroundRefused>
    requires { place < length sorts.now }
    ensures { Appends result grounding.old
        (equality.agree_with_pairs place
        (of_sort (place + 1) (drop (place + 1) sorts.now) (slice_index sorts.now place)))
        grounding.new }
{
    let constant = as_number(place)?;
    let later = of_sort_from(grounding.alloc, sorts, place + 1, sorts[place])?;
    add_pairs(grounding, constant, later.as_slice())
}

/// Appends this for every three constants of one sort, the triples in rising order.
pub fn add_equality(grounding: &mut Grounding, sorts: &[u8]) -> Result<(), GroundRefused>
    ensures { Appends result grounding.old (equality.equality 0 sorts.now) grounding.new }
{
    for place in 0..sorts.len() {
        match add_of_sort(grounding, sorts, place) {
            Ok(()) => {}
            Err(refused) => return Err(refused),
        }
    }
    Ok(())
}
