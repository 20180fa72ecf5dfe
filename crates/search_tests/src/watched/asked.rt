// What the two searches answer, in short.
use crate::summaries::{Said, in_short};
use crate::watched::problems::problem;
use linear_ints::Eliminator;
use proof_lines::Problem;
use sat_core::solve_plain;
use std::alloc::Global;
use std::process::Abort;
use watched_search::solve;

/// What the plain search says with a budget of lines.
pub fn said_plainly(alloc: Global, problem: &Problem, budget: u32) -> Said {
    let answer = solve_plain(alloc, problem, &mut Eliminator::new(), budget);
    let short = in_short(alloc, problem, &answer);
    drop(answer);
    short
}

/// What the search on watched literals says with a budget of lines.
pub fn said_by_watching(alloc: Global, problem: &Problem, budget: u32) -> Said {
    let answer = solve(alloc, problem, &mut Eliminator::new(), budget);
    let short = in_short(alloc, problem, &answer);
    drop(answer);
    short
}

/// What the search on watched literals says of the problem of a text.
pub fn said_of(alloc: Global, text: &str, budget: u32) -> Said {
    match problem(alloc, text) {
        Ok(Some(problem)) => {
            let said = said_by_watching(alloc, &problem, budget);
            drop(problem);
            said
        }
        _ => Said::Nothing,
    }
}

/// Whether both searches say this of the problem of a text.
pub fn both_say(alloc: Global, text: &str, what: Said) -> bool {
    match problem(alloc, text) {
        Ok(Some(problem)) => {
            let same = said_plainly(alloc, &problem, 1000) == what
                && said_by_watching(alloc, &problem, 1000) == what;
            drop(problem);
            same
        }
        _ => false,
    }
}

/// Checks what the search on watched literals says of the problem of a text.
pub fn check(rt: &impl Abort, alloc: Global, text: &str, budget: u32, want: Said) {
    assert!(rt;
        said_of(alloc, text, budget) == want,
        "{text} in {budget} lines"
    );
}
