// Ground problems of small specifications: their numbers and their lengths, worked out by hand.

use crate::examples::{flag, wide};
use crate::setting::{commute, ground_at, read, spec_of};
use ground_atoms::{Atom, Atoms};
use obligation_list::Obligation;
use std::alloc::Global;
use std::process::Abort;

// How many formulas it has.
fn length_at(
    rt: &impl Abort,
    alloc: Global,
    text: &[u8],
    place: usize,
    obligation: Obligation,
) -> Option<usize> {
    let reading = read(rt, alloc, text);
    let grounded = ground_at(rt, alloc, spec_of(rt, &reading), place, obligation);
    let length = grounded.as_ref().map(|found| found.formulas.len());
    drop(grounded);
    reading.let_go();
    length
}

#[test]
fn problems_of_a_flag_have_so_many_formulas(rt: HostRuntime) {
    let alloc = rt.alloc();
    // The negated invariant; the invariant, its negation later, two of a definition; the invariant, the difference, two of each of
    // four definitions.
    let first = length_at(&rt, alloc, flag(), 0, Obligation::Init { inv: 0 });
    let kept = length_at(&rt, alloc, flag(), 1, Obligation::Safety { op: 0, inv: 0 });
    let both = length_at(&rt, alloc, flag(), 2, commute(0, 0));
    assert!(&rt; first == Some(1) && kept == Some(4) && both == Some(10));
}

#[test]
fn a_long_list_is_refused_alone(rt: HostRuntime) {
    let alloc = rt.alloc();
    // 7 constants: 3 * 35 triples and the negated invariant.
    let first = length_at(&rt, alloc, wide(), 0, Obligation::Init { inv: 0 });
    // 13 constants: 5 * 13^3 instances, the negation, two of a definition, 3 * 286 triples and 78 pairs.
    let kept = length_at(&rt, alloc, wide(), 5, Obligation::Safety { op: 0, inv: 0 });
    // 17 constants: 5 * 17^3 instances alone are 24565.
    let both = length_at(&rt, alloc, wide(), 10, commute(0, 0));
    assert!(&rt; first == Some(106) && kept == Some(11924) && both.is_none());
}

// The stage of the reading of the first relation that has a number, none where it has no such atom.
fn stage_at(atoms: &Atoms, number: u32) -> Option<u8> {
    match atoms.atom(number) {
        Some(
            Atom::Has {
                stage,
                relation: 0,
                ..
            },
        ) => Some(*stage),
        _ => None,
    }
}

#[test]
fn readings_of_a_flag_are_numbered_as_they_are_named(rt: HostRuntime) {
    let alloc = rt.alloc();
    let reading = read(&rt, alloc, flag());
    let spec = spec_of(&rt, &reading);
    let Some(grounded) = ground_at(&rt, alloc, spec, 2, commute(0, 0)) else {
        panic!(&rt; "too many");
    };
    let stages = [0, 1, 2, 3, 4, 5].map(|number| stage_at(&grounded.atoms, number));
    assert!(&rt; stages == [Some(0), Some(2), Some(4), Some(1), Some(3), None]);
    drop(grounded);
    reading.let_go();
}
