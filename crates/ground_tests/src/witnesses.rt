// Witnesses from interpretations that are written by hand: each breaks its obligation, and has the least element for each class.

ghost use Rattle.std.specs.{Prelude.{◌≡◌, true}, List.{list_all}};
ghost use Rattle.spec_core.specs.Fits.{in_state_range};
ghost use Rattle.obligation_list.specs.Obligations.{IsObligation};
ghost use Rattle.instances.specs.Ground.{IsGrounded};

use crate::examples::{guarded, set, withdrawals};
use crate::satisfying::all_hold;
use crate::setting::{commute, grounded, items, obligation_at, read, spec_of};
use instances::Grounded;
use model_back::{Named, tried_witness, witness_of};
use obligation_list::{Obligation, Witness, breaks, list};
use proof_lines::Interpretation;
use spec_core::{Call, Spec};
use std::alloc::Global;
use std::process::Abort;

/// Truth values of atoms and values of integer names, by their numbers.
type Values = (&'static [bool], &'static [i128]);

fn are_in_range(values: &[i128]) -> bool
    ensures { result ≡ list_all in_state_range values.now }
{
    values
        .iter()
        .all(|value| value.unsigned_abs() <= 1_000_000_000_000_000)
}

// The witness of an interpretation that makes all formulas of the problem true.
fn witness_by(
    rt: &impl Abort,
    alloc: Global,
    spec: &Spec,
    ob: &Obligation,
    grounded: &Grounded,
    found: &Interpretation,
) -> Witness
    requires member { IsObligation spec.now ob.now }
    requires grounded { IsGrounded spec.now ob.now grounded.now }
{
    assert!(rt; all_hold(rt, found, &grounded.atoms, grounded.formulas.as_slice()));
    assert!(rt; are_in_range(found.ints.as_slice()));
    witness_of(alloc, spec, ob, grounded, found).expect(rt, "memory")
}

// A call: its operation and its arguments.
type Called = (u8, &'static [i64]);

// What a witness holds beside its state: the sizes of the sorts, the elements of the constants, the calls, the elements of the
// conclusion.
#[derive(Drop)]
struct Wanted {
    sizes: &'static [u32],
    consts: &'static [u32],
    calls: &'static [Called],
    elements: &'static [u32],
}

fn are_these(calls: &[Call], want: &[Called]) -> bool {
    calls.len() == want.len()
        && calls.iter().zip(want).all(|(call, (op, args))| call.op == *op
            && call.args.as_slice() == *args)
}

fn is_this(witness: &Witness, want: &Wanted) -> bool {
    witness.world.sizes.as_slice() == want.sizes
        && witness.world.consts.as_slice() == want.consts
        && are_these(witness.calls.as_slice(), want.calls)
        && witness.elements.as_slice() == want.elements
}

// Whether what breaks the obligation at a place of the list, by these values, is this.
fn breaks_by(
    rt: &impl Abort,
    alloc: Global,
    spec: &Spec,
    place: usize,
    obligation: Obligation,
    found: &Interpretation,
    want: &Wanted,
) -> bool {
    let obligations = list(alloc, spec).expect(rt, "memory");
    let ob = obligation_at(rt, spec, obligations.as_slice(), place);
    assert!(rt; *ob == obligation);
    let problem = grounded(rt, alloc, spec, ob).expect(rt, "few formulas");
    let witness = witness_by(rt, alloc, spec, ob, &problem, found);
    drop(problem);
    let is_broken = breaks(spec, ob, &witness) && is_this(&witness, want);
    drop(witness);
    drop(obligations);
    is_broken
}

/// What breaks the obligation at a place of the list, by these values, is this.
fn check(
    rt: &impl Abort,
    alloc: Global,
    text: &[u8],
    place: usize,
    obligation: Obligation,
    values: Values,
    want: &Wanted,
) {
    let reading = read(rt, alloc, text);
    let spec = spec_of(rt, &reading);
    let found = Interpretation {
        truths: items(rt, alloc, values.0),
        ints: items(rt, alloc, values.1),
    };
    assert!(rt; breaks_by(rt, alloc, spec, place, obligation, &found, want));
    drop(found);
    reading.let_go();
}

// Two withdrawals of 1 from one account, whose balance is 1, and 0 after the second. The integer names are the amounts, both
// balances and that after; the atoms before the equality of the accounts are rows.
static ONE_ACCOUNT: Values = (
    &[false, false, false, false, false, false, false, true],
    &[1, 1, 1, 1, 0],
);

fn one_account() -> Values {
    ONE_ACCOUNT
}

#[test]
fn two_withdrawals_empty_an_account(rt: HostRuntime) {
    let covered = Obligation::Stable {
        op: 1,
        line: 1,
        other: 1,
    };
    let want = Wanted {
        sizes: &[1],
        consts: &[],
        calls: &[(1, &[0, 1]), (1, &[0, 1])],
        elements: &[],
    };
    check(
        &rt,
        rt.alloc(),
        withdrawals(),
        11,
        covered,
        one_account(),
        &want,
    );
}

// The constants x, y and e of the calls and the conclusion are equal. In the order of their numbers: e is in the set after the put and
// the drop, and after the drop and the put; y is e; e is in it after the put; x is e; e is in it after the drop, and before; x is y.
static ONE_ELEMENT: Values = (&[false, true, true, true, true, false, false, true], &[]);

fn one_element() -> Values {
    ONE_ELEMENT
}

#[test]
fn a_put_and_a_drop_of_one_element_differ(rt: HostRuntime) {
    let want = Wanted {
        sizes: &[1],
        consts: &[],
        calls: &[(0, &[0]), (1, &[0])],
        elements: &[0],
    };
    check(
        &rt,
        rt.alloc(),
        set(),
        1,
        commute(0, 1),
        one_element(),
        &want,
    );
}

// The element with a name isn't the one that is put in. In the order of their numbers: the named one, the one that is put in, and that
// of the conclusion are in the set; the last is in it after the call, and it is the one that is put in.
static PUT_ANOTHER: Values = (&[false, false, false, true, true], &[]);

fn put_another() -> Values {
    PUT_ANOTHER
}

#[test]
fn a_class_is_numbered_by_its_least_constant(rt: HostRuntime) {
    let kept = Obligation::Safety { op: 0, inv: 0 };
    let want = Wanted {
        sizes: &[2],
        consts: &[0],
        calls: &[(0, &[1])],
        elements: &[1],
    };
    check(&rt, rt.alloc(), guarded(), 1, kept, put_another(), &want);
}

// What comes of these values where they are tried on the obligation at a place of the list.
fn tried(
    rt: &impl Abort,
    alloc: Global,
    spec: &Spec,
    place: usize,
    found: &Interpretation,
) -> Option<Witness> {
    let obligations = list(alloc, spec).expect(rt, "memory");
    let ob = obligation_at(rt, spec, obligations.as_slice(), place);
    let problem = grounded(rt, alloc, spec, ob).expect(rt, "few formulas");
    assert!(rt; are_in_range(found.ints.as_slice()));
    let named = Named {
        atoms: &problem.atoms,
        sorts: problem.consts.as_slice(),
        consts: problem.elements.as_slice(),
        calls: problem.calls.as_slice(),
    };
    let witness = tried_witness(alloc, spec, ob, &named, found).expect(rt, "memory");
    drop(problem);
    drop(obligations);
    witness
}

// Whether these values of the put and the drop are a witness, where they are tried.
fn are_tried(rt: &impl Abort, alloc: Global, truths: &[bool]) -> bool {
    let reading = read(rt, alloc, set());
    let spec = spec_of(rt, &reading);
    let found = Interpretation {
        truths: items(rt, alloc, truths),
        ints: items(rt, alloc, &[]),
    };
    let witness = tried(rt, alloc, spec, 1, &found);
    let is_witness = witness.is_some();
    drop(witness);
    drop(found);
    reading.let_go();
    is_witness
}

// That the constants are equal is enough for a witness: what comes of the calls is read from the state. Where the put and the drop are of
// two elements, they commute.
#[test]
fn values_are_tried(rt: HostRuntime) {
    assert!(&rt; are_tried(&rt, rt.alloc(), one_element().0));
    let equal_alone = [false, false, true, false, true, false, false, true];
    assert!(&rt; are_tried(&rt, rt.alloc(), &equal_alone));
    assert!(&rt; !are_tried(&rt, rt.alloc(), &[]));
    assert!(&rt;
        !are_tried(
            &rt,
            rt.alloc(),
            &[true, true, false, true, false, true, true, false]
        )
    );
}
