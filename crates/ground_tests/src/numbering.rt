// Atoms and integer names are numbered in the order in which they are first named.

use ground_atoms::{Atom, Atoms, GroundFormula, IntName, SumPart, Tuple, at_most};
use std::alloc::Global;
use std::process::Abort;

fn has(rt: &impl Abort, alloc: Global, stage: u8, constant: u32) -> Atom {
    Atom::Has {
        stage,
        relation: 0,
        tuple: Tuple::of(alloc, &[constant]).expect(rt, "memory"),
    }
}

#[test]
fn equal_ones_have_one_number(rt: HostRuntime) {
    let alloc = rt.alloc();
    let mut atoms = Atoms::new(alloc);
    let same = atoms.number_of(Atom::Same(0, 1)).expect(&rt, "memory");
    let at_entry = atoms.number_of(has(&rt, alloc, 0, 0)).expect(&rt, "memory");
    let again = atoms.number_of(Atom::Same(0, 1)).expect(&rt, "memory");
    let later = atoms.number_of(has(&rt, alloc, 1, 0)).expect(&rt, "memory");
    let arg = atoms
        .int_of(IntName::Arg { call: 0, param: 0 })
        .expect(&rt, "memory");
    assert!(&rt; same == 0 && at_entry == 1 && again == 0 && later == 2 && arg == 0);
    assert!(&rt; atoms.atom(2).is_some() && atoms.atom(3).is_none());
    assert!(&rt; atoms.int(0).is_some() && atoms.int(1).is_none());
    assert!(&rt; atoms.named().len() == 2 && atoms.named()[1].stage == 1);
    drop(atoms);
}

// A multiple of the first parameter of the first call.
fn argument(coef: i64) -> SumPart {
    SumPart::Multiple(coef, IntName::Arg { call: 0, param: 0 })
}

#[test]
fn sums_that_cancel_are_truth_values(rt: HostRuntime) {
    let alloc = rt.alloc();
    let mut atoms = Atoms::new(alloc);
    let left = [argument(2), SumPart::Number(3)];
    let right = [argument(2)];
    let more = at_most(&mut atoms, alloc, &left, &right, 2).expect(&rt, "memory");
    assert!(&rt; matches!(&more, GroundFormula::Truth(false)));
    drop(more);
    let less = at_most(&mut atoms, alloc, &right, &left, 0).expect(&rt, "memory");
    assert!(&rt; matches!(&less, GroundFormula::Truth(true)));
    drop(less);
    let open = at_most(&mut atoms, alloc, &left, &[], 0).expect(&rt, "memory");
    assert!(&rt; matches!(&open, GroundFormula::Lit(0, true)));
    drop(open);
    assert!(&rt; atoms.int(0).is_some() && atoms.int(1).is_none());
    assert!(&rt; atoms.atom(0).is_some() && atoms.atom(1).is_none());
    drop(atoms);
}
