// Problems whose rows the solver is asked about before all atoms have values.
use crate::summaries::Said;
use crate::watched::asked::{both_say, said_by_watching, said_plainly};
use crate::watched::problems::problem;
use std::alloc::Global;

// Four names of which each is above 0 if it is at most 0, and three that are each below the next, in a circle.
const CIRCLE: &str =
    "11 7:1 <= 0;-1 <= -1;0 1 <= 0;0 -1 <= -1;0 0 1 <= 0;0 0 -1 <= -1;0 0 0 1 <= 0;0 0 0 -1 <= -1;\
0 0 0 0 1 -1 0 <= -1;0 0 0 0 0 1 -1 <= -1;0 0 0 0 -1 0 1 <= -1;-1 2;-3 4;-5 6;-7 8;9;10;11";

// With 2x + 3y = 4 and a positive y a solver would split at x <= 0, which is an atom without a value.
const GAP: &str = "4 2:2 3 <= 4;-2 -3 <= -4;0 -1 <= -1;1 <= 0;1;2;3";

// A number beyond the range of a state, and four clauses that no interpretation satisfies.
const FAR: &str = "3 1:-1 <= -1000000000000001;1;2 3;2 -3;-2 3;-2 -3";

// What both searches say of the circle with a budget of lines, the one on watched literals first.
fn said_of_the_circle(alloc: Global, budget: u32) -> Option<(Said, Said)> {
    match problem(alloc, CIRCLE) {
        Ok(Some(problem)) => {
            let said = (
                said_by_watching(alloc, &problem, budget),
                said_plainly(alloc, &problem, budget),
            );
            drop(problem);
            Some(said)
        }
        _ => None,
    }
}

#[test]
fn rows_in_conflict_are_met_before_the_other_rows_are_true(rt: HostRuntime) {
    assert!(rt; said_of_the_circle(rt.alloc(), 4) == Some((Said::Unsat, Said::Nothing)));
    assert!(rt; said_of_the_circle(rt.alloc(), 16) == Some((Said::Unsat, Said::Unsat)));
}

#[test]
fn an_atom_is_decided_in_place_of_a_split(rt: HostRuntime) {
    assert!(rt; both_say(rt.alloc(), GAP, Said::Sat));
}

#[test]
fn a_number_beyond_the_range_is_no_answer_where_clauses_refute(rt: HostRuntime) {
    assert!(rt; both_say(rt.alloc(), FAR, Said::Unsat));
}
