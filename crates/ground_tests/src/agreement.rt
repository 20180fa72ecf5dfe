// The two searches on the problems of specifications: each obligation has the same answer by both, Unsat or Sat.

use crate::examples::{friends, withdrawals};
use crate::setting::{count_of, grounded, obligation_at, pose, read, spec_of};
use linear_ints::Eliminator;
use obligation_list::{law_obligations, list};
use proof_lines::Problem;
use sample_specs::sample_spec;
use sat_core::{Answer, solve_plain};
use spec_core::Spec;
use std::alloc::Global;
use std::process::Abort;
use watched_search::solve;

// The most lines of a log.
const BUDGET: u32 = 1_000_000;

// Whether there is an interpretation, where the search says so.
fn in_short(answer: &Answer) -> Option<bool> {
    match answer {
        Answer::Unsat(_) => Some(false),
        Answer::Sat(_) => Some(true),
        _ => None,
    }
}

fn by_watching(alloc: Global, problem: &Problem) -> Option<bool> {
    let answer = solve(alloc, problem, &mut Eliminator::new(), BUDGET);
    let short = in_short(&answer);
    drop(answer);
    short
}

fn plainly(alloc: Global, problem: &Problem) -> Option<bool> {
    let answer = solve_plain(alloc, problem, &mut Eliminator::new(), BUDGET);
    let short = in_short(&answer);
    drop(answer);
    short
}

// Whether both searches say the same of the obligation at a place.
fn agree_at(rt: &impl Abort, alloc: Global, spec: &Spec, place: usize) -> bool {
    let obligations = list(alloc, spec).expect(rt, "memory");
    law_obligations();
    let ob = obligation_at(rt, spec, obligations.as_slice(), place);
    let made = grounded(rt, alloc, spec, ob).expect(rt, "few formulas");
    let problem = pose(alloc, spec, ob, &made).expect(rt, "memory");
    drop(made);
    drop(obligations);
    let watched = by_watching(alloc, &problem);
    let plain = plainly(alloc, &problem);
    drop(problem);
    watched.is_some() && watched == plain
}

// Of how many obligations both searches say the same, up to the first one of which they don't.
fn agreements(rt: &impl Abort, alloc: Global, spec: &Spec, obligations: usize) -> usize {
    for place in 0..obligations {
        if !agree_at(rt, alloc, spec, place) {
            return place;
        }
    }
    obligations
}

// Both searches say the same of each of more than three obligations.
fn check(rt: &impl Abort, alloc: Global, spec: &Spec) {
    let count = count_of(rt, alloc, spec);
    assert!(rt; count > 3);
    assert_eq!(rt; agreements(rt, alloc, spec, count), count);
}

// The same of the specification that a text is.
fn check_text(rt: &impl Abort, alloc: Global, text: &[u8]) {
    let reading = read(rt, alloc, text);
    check(rt, alloc, spec_of(rt, &reading));
    reading.let_go();
}

#[test]
fn both_searches_agree_on_accounts(rt: HostRuntime) {
    check_text(&rt, rt.alloc(), withdrawals());
}

#[test]
fn both_searches_agree_on_a_transitive_relation(rt: HostRuntime) {
    check_text(&rt, rt.alloc(), friends());
}

#[test]
fn both_searches_agree_on_the_generated_specification(rt: HostRuntime) {
    let spec = sample_spec(rt.alloc(), 4).expect(&rt, "memory");
    check(&rt, rt.alloc(), &spec);
    drop(spec);
}
