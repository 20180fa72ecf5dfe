// Small systems, and whether whole numbers satisfy them.
//
// A program in Python wrote them, with coefficients at random, and tried all triples of numbers from the least to the greatest. In each
// the second row is the opposite of the first, or is that a little apart, so that many have points over fractions and none over whole
// numbers.
use crate::solvers::asked::{Line, Told, tell, tell_planes};
use crate::solvers::searches::{find, find_within};
use crate::summaries::Said;

// Three names from -`below` to `above`, and three rows: coefficients, then the bound.
struct System {
    above: i128,
    below: i128,
    rows: [[i128; 4]; 3],
    has_model: bool,
}

static SYSTEMS: &[System] = &[
    System {
        above: 3,
        below: 2,
        rows: [[5, 5, 7, 3], [-5, -5, -7, -3], [-3, 7, 5, 4]],
        has_model: true,
    },
    System {
        above: 1,
        below: 3,
        rows: [[-5, 5, 0, -4], [5, -5, 0, 4], [7, -7, 3, 1]],
        has_model: false,
    },
    System {
        above: 3,
        below: 3,
        rows: [[-3, -7, 7, -5], [3, 7, -7, 5], [-7, -2, -2, 3]],
        has_model: false,
    },
    System {
        above: 2,
        below: 0,
        rows: [[2, 5, -2, 2], [-2, -5, 2, -2], [0, 5, -7, 4]],
        has_model: true,
    },
    System {
        above: 2,
        below: 0,
        rows: [[0, 3, 7, -5], [0, -3, -7, 6], [0, 2, -2, 2]],
        has_model: false,
    },
    System {
        above: 1,
        below: 2,
        rows: [[-5, -5, 3, -5], [5, 5, -3, 5], [3, -5, -7, 4]],
        has_model: true,
    },
    System {
        above: 1,
        below: 0,
        rows: [[-2, -7, 5, 0], [2, 7, -5, 1], [3, 3, -5, 3]],
        has_model: true,
    },
    System {
        above: 1,
        below: 3,
        rows: [[0, 2, -5, -2], [0, -2, 5, 2], [-7, 3, -5, -4]],
        has_model: true,
    },
    System {
        above: 3,
        below: 0,
        rows: [[-5, -7, -7, 1], [5, 7, 7, -1], [-3, 7, -2, 1]],
        has_model: false,
    },
    System {
        above: 1,
        below: 3,
        rows: [[-3, 3, 3, -5], [3, -3, -3, 5], [3, -2, -7, -2]],
        has_model: false,
    },
    System {
        above: 2,
        below: 3,
        rows: [[-7, -2, -3, 0], [7, 2, 3, 1], [-5, -7, -3, -3]],
        has_model: true,
    },
    System {
        above: 2,
        below: 2,
        rows: [[-7, 2, 0, 0], [7, -2, 0, 0], [-5, -5, -2, 3]],
        has_model: true,
    },
    System {
        above: 1,
        below: 3,
        rows: [[-7, 2, 2, 3], [7, -2, -2, -3], [-3, 5, -3, 0]],
        has_model: true,
    },
    System {
        above: 3,
        below: 0,
        rows: [[-3, 0, -2, 3], [3, 0, 2, -3], [-2, -3, 7, -3]],
        has_model: false,
    },
    System {
        above: 2,
        below: 3,
        rows: [[5, -5, 3, -6], [-5, 5, -3, 6], [-5, -7, 7, -2]],
        has_model: true,
    },
    System {
        above: 3,
        below: 0,
        rows: [[3, 0, 3, 3], [-3, 0, -3, -3], [0, 7, -3, 5]],
        has_model: true,
    },
    System {
        above: 1,
        below: 0,
        rows: [[-2, 5, 7, 4], [2, -5, -7, -3], [-5, 0, -2, -3]],
        has_model: true,
    },
    System {
        above: 1,
        below: 3,
        rows: [[-5, 0, 3, 1], [5, 0, -3, -1], [-7, -7, -3, -2]],
        has_model: false,
    },
    System {
        above: 3,
        below: 2,
        rows: [[-3, -5, 2, -4], [3, 5, -2, 4], [2, 7, -3, 3]],
        has_model: true,
    },
    System {
        above: 1,
        below: 0,
        rows: [[5, 2, 0, -6], [-5, -2, 0, 6], [-5, 5, -5, 5]],
        has_model: false,
    },
    System {
        above: 2,
        below: 2,
        rows: [[-3, -5, -5, 1], [3, 5, 5, 0], [2, -7, -3, 6]],
        has_model: true,
    },
    System {
        above: 2,
        below: 2,
        rows: [[-5, 5, -5, 0], [5, -5, 5, 0], [5, -7, 3, 0]],
        has_model: true,
    },
    System {
        above: 1,
        below: 3,
        rows: [[-5, -5, -5, 4], [5, 5, 5, -4], [0, 3, 2, 0]],
        has_model: false,
    },
    System {
        above: 3,
        below: 3,
        rows: [[5, 5, 5, 2], [-5, -5, -5, -2], [7, 7, -7, -2]],
        has_model: false,
    },
    System {
        above: 1,
        below: 3,
        rows: [[5, -7, -2, 5], [-5, 7, 2, -5], [5, 5, 0, -6]],
        has_model: true,
    },
    System {
        above: 1,
        below: 0,
        rows: [[-5, 5, -5, 4], [5, -5, 5, -3], [2, -5, -2, -3]],
        has_model: false,
    },
    System {
        above: 2,
        below: 0,
        rows: [[7, 2, 0, 5], [-7, -2, 0, -5], [2, 7, -5, -6]],
        has_model: false,
    },
    System {
        above: 1,
        below: 0,
        rows: [[7, 2, -3, 1], [-7, -2, 3, -1], [7, 7, 5, 1]],
        has_model: false,
    },
    System {
        above: 3,
        below: 0,
        rows: [[-7, 3, -7, 2], [7, -3, 7, -2], [7, 3, 7, 6]],
        has_model: false,
    },
    System {
        above: 2,
        below: 0,
        rows: [[5, -3, 2, 0], [-5, 3, -2, 0], [7, 2, -5, -3]],
        has_model: false,
    },
    System {
        above: 0,
        below: 4,
        rows: [[-8, 2, -2, -2], [8, -2, 2, 3], [7, 0, -2, -6]],
        has_model: false,
    },
    System {
        above: 4,
        below: 1,
        rows: [[-7, 0, 5, -2], [7, 0, -5, 2], [8, -8, 0, 5]],
        has_model: true,
    },
    System {
        above: 0,
        below: 4,
        rows: [[3, -6, 8, 6], [-3, 6, -8, -4], [9, 8, 2, -4]],
        has_model: true,
    },
    System {
        above: 4,
        below: 2,
        rows: [[3, 9, 6, -6], [-3, -9, -6, 6], [9, 9, -6, -3]],
        has_model: true,
    },
    System {
        above: 1,
        below: 2,
        rows: [[2, 4, -4, 6], [-2, -4, 4, -6], [-5, -8, -8, 1]],
        has_model: true,
    },
    System {
        above: 0,
        below: 4,
        rows: [[8, 6, 8, -4], [-8, -6, -8, 4], [5, 0, 8, -6]],
        has_model: false,
    },
    System {
        above: 4,
        below: 0,
        rows: [[8, -5, 0, 6], [-8, 5, 0, -5], [-6, -2, 4, 1]],
        has_model: true,
    },
    System {
        above: 4,
        below: 1,
        rows: [[-5, -8, -5, -4], [5, 8, 5, 4], [-7, -7, 7, 1]],
        has_model: false,
    },
    System {
        above: 3,
        below: 2,
        rows: [[-5, 0, 6, 2], [5, 0, -6, -2], [7, -2, 2, 6]],
        has_model: false,
    },
    System {
        above: 1,
        below: 1,
        rows: [[9, -9, 9, -4], [-9, 9, -9, 4], [-5, 9, 3, 3]],
        has_model: false,
    },
    System {
        above: 0,
        below: 4,
        rows: [[7, -5, -6, -5], [-7, 5, 6, 5], [-3, 3, 2, -3]],
        has_model: false,
    },
    System {
        above: 4,
        below: 4,
        rows: [[0, 8, -8, 2], [0, -8, 8, -2], [8, -2, 9, -4]],
        has_model: false,
    },
    System {
        above: 2,
        below: 4,
        rows: [[-5, 5, 5, -2], [5, -5, -5, 2], [2, 7, -8, 0]],
        has_model: false,
    },
    System {
        above: 2,
        below: 0,
        rows: [[-6, 3, -8, 5], [6, -3, 8, -3], [2, -8, -7, -4]],
        has_model: true,
    },
    System {
        above: 3,
        below: 0,
        rows: [[5, 4, -2, -4], [-5, -4, 2, 5], [-4, 7, 6, 4]],
        has_model: false,
    },
    System {
        above: 0,
        below: 4,
        rows: [[0, 2, -5, -4], [0, -2, 5, 5], [5, -2, 0, -5]],
        has_model: true,
    },
    System {
        above: 4,
        below: 4,
        rows: [[-6, 0, -6, -4], [6, 0, 6, 5], [-7, 8, -4, 3]],
        has_model: false,
    },
    System {
        above: 0,
        below: 3,
        rows: [[-4, 9, 2, -3], [4, -9, -2, 3], [9, 7, -7, -5]],
        has_model: true,
    },
    System {
        above: 3,
        below: 3,
        rows: [[-3, -5, -7, -5], [3, 5, 7, 5], [-9, -6, -4, 0]],
        has_model: true,
    },
    System {
        above: 3,
        below: 2,
        rows: [[6, 6, 8, 6], [-6, -6, -8, -6], [0, -7, 5, 1]],
        has_model: true,
    },
];

// (a proof looks into a table wherever the table is named)
fn systems() -> &'static [System] {
    SYSTEMS
}

fn lines_of(system: &System) -> [Line<'_>; 9] {
    let [first, second, third] = &system.rows;
    [
        (&[1], system.above),
        (&[0, 1], system.above),
        (&[0, 0, 1], system.above),
        (&[-1], system.below),
        (&[0, -1], system.below),
        (&[0, 0, -1], system.below),
        (&first[..3], first[3]),
        (&second[..3], second[3]),
        (&third[..3], third[3]),
    ]
}

fn is_right(has_model: bool, told: Told, found: Said) -> bool {
    match told {
        Told::Model { first: _ } => has_model && found == Said::Sat,
        Told::Conflict => !has_model && found == Said::Unsat,
        Told::Split { .. } => found == if has_model { Said::Sat } else { Said::Unsat },
        _ => false,
    }
}

#[test]
fn small_systems_are_decided(rt: HostRuntime) {
    for system in systems() {
        let lines = lines_of(system);
        let told = tell(rt.alloc(), &lines, 3);
        let found = find(rt.alloc(), &lines, 3);
        assert!(rt; is_right(system.has_model, told, found));
    }
}

#[test]
fn small_systems_are_decided_by_cutting_planes(rt: HostRuntime) {
    for system in systems() {
        let lines = lines_of(system);
        let told = tell_planes(rt.alloc(), &lines, 3);
        let found = find_within(rt.alloc(), &lines, 3, 100);
        assert!(rt; is_right(system.has_model, told, found));
    }
}
