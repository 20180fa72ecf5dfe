// What a reading after a call's updates is, at a stage: what its definition says of values that are worked out by hand.
//
// The calls are made at constant 2, and the readings are those at constant 5, which may be the same element or another one.

use crate::examples::{set, withdrawals};
use crate::satisfying::all_hold;
use crate::setting::{items, read, spec_of};
use ground_atoms::{Atom, Atoms, GroundArg, GroundCall, GroundFormula, IntName};
use items::Items;
use proof_lines::Interpretation;
use spec_core::Spec;
use stage_defs::{define_count, define_has};
use std::alloc::Global;
use std::process::Abort;

/// A stage, and the one before it.
#[derive(Clone, Copy)]
struct Stages {
    at: u8,
    before: u8,
}

/// The stages after the first call and then the second one, and those in the other order.
static STAGES: [Stages; 4] = [
    Stages { at: 1, before: 0 },
    Stages { at: 2, before: 1 },
    Stages { at: 3, before: 0 },
    Stages { at: 4, before: 3 },
];

/// Whether the two constants are the same, and the readings before the call and after it; the amount of the call.
#[derive(Clone, Copy)]
struct Values {
    same: bool,
    has: [bool; 2],
    counts: [i128; 2],
    amount: i128,
}

/// A call at constant 2, and at the first integer name where it has an amount.
fn call_of(rt: &impl Abort, alloc: Global, op: u8) -> GroundCall {
    GroundCall {
        op,
        args: items(rt, alloc, &[GroundArg::Elem(2), GroundArg::Int(0)]),
    }
}

/// What an atom is by these values. Another stage than the two is no part of the definition.
fn truth_of(rt: &impl Abort, atom: &Atom, stages: Stages, values: Values) -> bool {
    match atom {
        Atom::Same(first, second) => {
            assert!(rt; *first == 2 && *second == 5);
            values.same
        }
        Atom::Has { stage, .. } if *stage == stages.before => values.has[0],
        Atom::Has { stage, .. } => {
            assert!(rt; *stage == stages.at);
            values.has[1]
        }
        Atom::Row(_) => false,
    }
}

fn truths_of(
    rt: &impl Abort,
    alloc: Global,
    atoms: &Atoms,
    stages: Stages,
    values: Values,
) -> Items<bool> {
    let mut truths = Items::new(alloc);
    for number in 0..16u32 {
        if let Some(atom) = atoms.atom(number) {
            let truth = truth_of(rt, atom, stages, values);
            truths.push(truth).expect(rt, "memory");
        }
    }
    truths
}

/// What an integer name is by these values.
fn value_of(rt: &impl Abort, name: &IntName, stages: Stages, values: Values) -> i128 {
    match name {
        IntName::Arg { .. } => values.amount,
        IntName::Count { stage, .. } if *stage == stages.before => values.counts[0],
        IntName::Count { stage, .. } => {
            assert!(rt; *stage == stages.at);
            values.counts[1]
        }
    }
}

fn values_of(
    rt: &impl Abort,
    alloc: Global,
    atoms: &Atoms,
    stages: Stages,
    values: Values,
) -> Items<i128> {
    let mut ints = Items::new(alloc);
    for number in 0..16u32 {
        if let Some(name) = atoms.int(number) {
            let value = value_of(rt, name, stages, values);
            ints.push(value).expect(rt, "memory");
        }
    }
    ints
}

/// Whether a definition is true of these values.
fn is_said(
    rt: &impl Abort,
    alloc: Global,
    atoms: &Atoms,
    definition: &[GroundFormula],
    stages: Stages,
    values: Values,
) -> bool {
    let truths = truths_of(rt, alloc, atoms, stages, values);
    let ints = values_of(rt, alloc, atoms, stages, values);
    let found = Interpretation { truths, ints };
    let said = all_hold(rt, &found, atoms, definition);
    drop(found);
    said
}

/// The values of a relation: whether the constants are the same, the reading before, and the reading after.
static TRUTHS: [(bool, bool, bool); 8] = [
    (false, false, false),
    (false, false, true),
    (false, true, false),
    (false, true, true),
    (true, false, false),
    (true, false, true),
    (true, true, false),
    (true, true, true),
];

// The first operation puts its element in, the second one takes it out; elsewhere the reading stays.
fn check_relation(rt: &impl Abort, alloc: Global, spec: &Spec, op: u8, stages: Stages) {
    let mut atoms = Atoms::new(alloc);
    let call = call_of(rt, alloc, op);
    let definition = define_has(spec, &mut atoms, alloc, &call, stages.at, 0, &[5]).expect(
        rt, "memory",
    );
    drop(call);
    for (same, before, after) in &TRUTHS {
        let values = Values {
            same: *same,
            has: [*before, *after],
            counts: [0, 0],
            amount: 0,
        };
        let meant = if *same { op == 0 } else { *before };
        let said = is_said(rt, alloc, &atoms, definition.as_slice(), stages, values);
        assert!(rt; said == (*after == meant));
    }
    drop(definition);
    drop(atoms);
}

#[test]
fn a_relation_reads_as_the_call_leaves_it(rt: HostRuntime) {
    let reading = read(&rt, rt.alloc(), set());
    let spec = spec_of(&rt, &reading);
    for stages in &STAGES {
        check_relation(&rt, rt.alloc(), spec, 0, *stages);
        check_relation(&rt, rt.alloc(), spec, 1, *stages);
    }
    reading.let_go();
}

/// The operation, whether the constants are the same, the reading before, the amount, the reading after, and another one.
type Count = (u8, bool, i128, i128, i128, i128);

/// A deposit adds its amount, and a withdrawal takes it away; elsewhere the reading stays.
static COUNTS: [Count; 8] = [
    (0, true, 3, 2, 5, 3),
    (0, true, 3, 0, 3, 2),
    (0, true, 3, -4, -1, 0),
    (0, false, 3, 2, 3, 5),
    (1, true, 3, 2, 1, 5),
    (1, true, 3, 5, -2, -1),
    (1, false, 3, 2, 3, 1),
    (1, false, -7, 7, -7, 0),
];

// Whether the definition of a counter's reading after a call is true of these values.
fn is_counted(
    rt: &impl Abort,
    alloc: Global,
    spec: &Spec,
    op: u8,
    stages: Stages,
    values: Values,
) -> bool {
    let mut atoms = Atoms::new(alloc);
    let call = call_of(rt, alloc, op);
    let definition = define_count(spec, &mut atoms, alloc, &call, stages.at, 0, &[5]).expect(
        rt, "memory",
    );
    drop(call);
    let said = is_said(rt, alloc, &atoms, definition.as_slice(), stages, values);
    drop(definition);
    drop(atoms);
    said
}

// The reading after a call is this one, and not the other one.
fn check_counter(rt: &impl Abort, alloc: Global, spec: &Spec, stages: Stages) {
    for (op, same, before, amount, after, other) in &COUNTS {
        let right = Values {
            same: *same,
            has: [false, false],
            counts: [*before, *after],
            amount: *amount,
        };
        let wrong = Values {
            same: *same,
            has: [false, false],
            counts: [*before, *other],
            amount: *amount,
        };
        assert!(rt; is_counted(rt, alloc, spec, *op, stages, right));
        assert!(rt; !is_counted(rt, alloc, spec, *op, stages, wrong));
    }
}

#[test]
fn a_counter_reads_as_the_call_leaves_it(rt: HostRuntime) {
    let reading = read(&rt, rt.alloc(), withdrawals());
    let spec = spec_of(&rt, &reading);
    for stages in &STAGES {
        check_counter(&rt, rt.alloc(), spec, *stages);
    }
    reading.let_go();
}
