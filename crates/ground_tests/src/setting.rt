// Specifications, their obligations, and the problems of these. What lacks memory ends the test.

ghost use Rattle.std.specs.{Prelude.{◌≡◌, IfOk, IfSome}, List.{Contains}};
ghost use Rattle.obligation_list.specs.Obligations.{IsObligation};
ghost use Rattle.ground_numbers.specs.Problem.{problem_of};
ghost use Rattle.instances.specs.Ground.{IsGrounded};

use clausify::problem_of;
use ground_numbers::law_obligation_fits;
use instances::{GroundRefused, Grounded, ground};
use items::Items;
use obligation_list::{Obligation, law_obligations, list};
use proof_lines::Problem;
use spec_core::{Spec, Thing};
use spec_from_bytes::{Reading, SPECIFICATION_LIMIT, read_bytes};
use std::alloc::{AllocError, Global};
use std::process::Abort;

/// A list of these items.
pub fn items<T: Copy>(rt: &impl Abort, alloc: Global, list: &[T]) -> Items<T> {
    Items::from_slice(alloc, list).expect(rt, "memory")
}

/// What a text is read as. It stays whole, and is let go as a whole.
pub fn read(rt: &impl Abort, alloc: Global, text: &[u8]) -> Reading {
    assert!(rt; text.len() <= SPECIFICATION_LIMIT);
    read_bytes(alloc, text).expect(rt, "memory")
}

/// The specification that was read.
pub fn spec_of<'a>(rt: &impl Abort, reading: &'a Reading) -> &'a Spec {
    match reading {
        Reading::Specified(_, spec) => spec,
        Reading::Refused(_) => panic!(rt; "no specification"),
    }
}

/// How many obligations a specification has.
pub fn count_of(rt: &impl Abort, alloc: Global, spec: &Spec) -> usize {
    let obligations = list(alloc, spec).expect(rt, "memory");
    let count = obligations.len();
    drop(obligations);
    count
}

/// The obligation that calls of two operations commute on the first relation.
pub fn commute(first: u8, second: u8) -> Obligation {
    Obligation::Commute {
        first,
        second,
        thing: Thing::Relation(0),
    }
}

/// The ground problem of an obligation, none where it has too many formulas.
pub fn grounded(rt: &impl Abort, alloc: Global, spec: &Spec, ob: &Obligation) -> Option<Grounded>
    requires { IsObligation spec.now ob.now }
    ensures { IfSome result (λ made. IsGrounded spec.now ob.now made) }
{
    match ground(alloc, spec, ob) {
        Ok(grounded) => Some(grounded),
        Err(GroundRefused::TooMany) => None,
        Err(GroundRefused::Memory) => panic!(rt; "memory"),
    }
}

/// The obligation at a place of a list of obligations.
pub fn obligation_at<'a>(
    rt: &impl Abort,
    spec: &Spec,
    obligations: &'a [Obligation],
    place: usize,
) -> &'a Obligation
    requires { (ob : Obligation) → Contains obligations.now ob → IsObligation spec.now ob }
    ensures { IsObligation spec.now result.now }
{
    let _spec = spec;
    obligations.get(place).expect(rt, "an obligation")
}

/// The ground problem of the obligation at a place of the list, none where it has too many formulas.
pub fn ground_at(
    rt: &impl Abort,
    alloc: Global,
    spec: &Spec,
    place: usize,
    obligation: Obligation,
) -> Option<Grounded> {
    let obligations = list(alloc, spec).expect(rt, "memory");
    let found = obligations.get(place).expect(rt, "an obligation");
    assert!(rt; *found == obligation);
    law_obligations();
    let made = grounded(rt, alloc, spec, found);
    drop(obligations);
    made
}

/// The problem of clauses of an obligation.
pub fn pose(
    alloc: Global,
    spec: &Spec,
    ob: &Obligation,
    grounded: &Grounded,
) -> Result<Problem, AllocError>
    requires { IsGrounded spec.now ob.now grounded.now }
    ensures { IfOk result (λ p. p ≡ problem_of spec.now ob.now) }
{
    let _spec = spec;
    let _ob = ob;
    law_obligation_fits();
    problem_of(alloc, &grounded.atoms, grounded.formulas.as_slice())
}

/// The problem of clauses of the obligation at a place of the list.
pub fn problem_at(
    rt: &impl Abort,
    alloc: Global,
    spec: &Spec,
    place: usize,
    obligation: Obligation,
) -> Problem {
    let obligations = list(alloc, spec).expect(rt, "memory");
    let found = obligations.get(place).expect(rt, "an obligation");
    assert!(rt; *found == obligation);
    law_obligations();
    let made = grounded(rt, alloc, spec, found).expect(rt, "few formulas");
    let problem = pose(alloc, spec, found, &made).expect(rt, "memory");
    drop(made);
    drop(obligations);
    problem
}
