// What the search that learns clauses proposes, beside what is worked by hand.
use crate::watched::problems::problem;
use clause_learning::{Proposal, propose};
use proof_lines::Line;
use std::alloc::Global;

// What is proposed of the problem of a text, with a budget of lines.
fn proposed(alloc: Global, text: &str, budget: u32) -> Option<Proposal> {
    match problem(alloc, text) {
        Ok(Some(problem)) => {
            let proposal = propose(alloc, &problem, budget);
            drop(problem);
            proposal.ok()
        }
        _ => None,
    }
}

// Clause 0 says that the first atom is true, so the second is, by clause 1, and the third is not, by clause 2.
const FORCED: &str = "3 0:1;-1 2;-2 -3";

fn are_values(alloc: Global, text: &str, values: &[bool]) -> bool {
    let proposal = proposed(alloc, text, 10);
    let are = matches!(&proposal, Some(Proposal::Values(found)) if found.as_slice() == values);
    drop(proposal);
    are
}

#[test]
fn the_only_values_are_proposed(rt: HostRuntime) {
    assert!(rt; are_values(rt.alloc(), FORCED, &[true, true, false]));
}

/// The numbers of two clauses, and the atom that is resolved away, from 0 on.
type Resolvent = (u32, u32, u32);

// All clauses of two atoms. Say that the second atom is false: then clauses 0 and 2 contradict one another, and it is true, clause 4. So is
// the first atom, by clause 1, and clause 5 says that. The opposite of the second atom is left of clause 3, clause 6, against clause 4.
const ALL_OF_TWO: &str = "2 0:1 2;1 -2;-1 2;-1 -2";

const LOG: [Resolvent; 4] = [(0, 2, 0), (4, 1, 1), (5, 3, 0), (4, 6, 1)];

fn is_resolvent(line: &Line, resolvent: Option<&Resolvent>) -> bool {
    match (line, resolvent) {
        (Line::Resolve { left, right, pivot }, Some(want)) => (*left, *right, *pivot) == *want,
        _ => false,
    }
}

fn are_resolvents(lines: &[Line], resolvents: &[Resolvent]) -> bool {
    let mut count = 0usize;
    for line in lines {
        if !is_resolvent(line, resolvents.get(count)) {
            return false;
        }
        count = count.saturating_add(1);
    }
    count == resolvents.len()
}

fn is_log(alloc: Global, text: &str, budget: u32, resolvents: &[Resolvent]) -> bool {
    match proposed(alloc, text, budget) {
        Some(Proposal::Log(lines)) => {
            let is = are_resolvents(lines.as_slice(), resolvents);
            drop(lines);
            is
        }
        _ => false,
    }
}

#[test]
fn a_conflict_gives_a_clause_that_refutes(rt: HostRuntime) {
    assert!(rt; is_log(rt.alloc(), ALL_OF_TWO, 4, &LOG));
}

#[test]
fn no_longer_log_than_the_budget_is_proposed(rt: HostRuntime) {
    assert!(rt; !is_log(rt.alloc(), ALL_OF_TWO, 3, &LOG));
}
