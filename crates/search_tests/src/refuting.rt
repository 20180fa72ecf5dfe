// Solvers asked alone: the solver of the empty list, and the solver of rows without names.
use crate::constants::Constants;
use lin_rows::row_of;
use theory_api::{NoInts, Theory, TheoryAnswer, refutes};

#[test]
fn no_rows_have_the_empty_model(rt: HostRuntime) {
    let answer = NoInts.check(rt.alloc(), &[], 0);
    let is_empty = matches!(&answer, TheoryAnswer::Model(values) if values.is_empty());
    drop(answer);
    assert!(rt; is_empty);
    assert!(rt; !refutes(&mut NoInts, rt.alloc(), &[], 0));
}

#[test]
fn a_contradiction_is_refuted_and_a_true_row_is_not(rt: HostRuntime) {
    let mut constants = Constants;
    let row = row_of(rt.alloc(), &[], -1).expect(&rt, "memory");
    assert!(rt; refutes(&mut constants, rt.alloc(), &[row], 0));
    let row = row_of(rt.alloc(), &[], 0).expect(&rt, "memory");
    assert!(rt; !refutes(&mut constants, rt.alloc(), &[row], 0));
}
