// Systems as the rows of a problem, each a clause of its own, given to the search.
use crate::solvers::asked::{Line, row};
use crate::summaries::{Said, in_short};
use crate::watched::asked::said_plainly;
use items::Items;
use proof_lines::{AtomKind, Clause, Lit, Problem};
use std::alloc::{AllocError, Global};
use std::process::Abort;
use watched_search::search;

/// The rows of a system, how many names they have, and what the search finds.
pub type Search = (&'static [Line<'static>], u32, Said);

fn only(alloc: Global, atom: u32) -> Result<Clause, AllocError> {
    Clause::of(
        alloc,
        &[Lit {
            atom,
            positive: true,
        }],
    )
}

fn clauses_of(alloc: Global, lines: &[Line]) -> Result<Items<Clause>, AllocError> {
    let mut clauses = Items::new(alloc);
    let mut atom = 0u32;
    for _ in lines {
        clauses.push(only(alloc, atom)?)?;
        atom = atom.saturating_add(1);
    }
    Ok(clauses)
}

fn atoms_of(alloc: Global, lines: &[Line]) -> Result<Items<AtomKind>, AllocError> {
    let mut atoms = Items::new(alloc);
    for line in lines {
        atoms.push(AtomKind::Row(row(alloc, line)?))?;
    }
    Ok(atoms)
}

/// The problem in which each row of lines is to be true.
pub fn problem_of(alloc: Global, lines: &[Line], ints: u32) -> Result<Option<Problem>, AllocError> {
    let atoms = atoms_of(alloc, lines)?;
    match clauses_of(alloc, lines) {
        Ok(clauses) => Ok(Problem::new(atoms, ints, clauses)),
        Err(error) => {
            drop(atoms);
            Err(error)
        }
    }
}

/// What the plain search, with the elimination solver, says of the rows of lines.
pub fn find(alloc: Global, lines: &[Line], ints: u32) -> Said {
    match problem_of(alloc, lines, ints) {
        Ok(Some(problem)) => {
            let found = said_plainly(alloc, &problem, 1000);
            drop(problem);
            found
        }
        _ => Said::Nothing,
    }
}

/// What the search with the solver of its choice says of the rows of lines, in as many lines of a log at most.
pub fn find_within(alloc: Global, lines: &[Line], ints: u32, budget: u32) -> Said {
    match problem_of(alloc, lines, ints) {
        Ok(Some(problem)) => {
            let answer = search(alloc, &problem, budget);
            let found = in_short(alloc, &problem, &answer);
            drop(answer);
            drop(problem);
            found
        }
        _ => Said::Nothing,
    }
}

/// Checks what the search finds for each system within twenty lines.
pub fn check_searches(rt: &impl Abort, alloc: Global, cases: &[Search]) {
    for (lines, ints, want) in cases {
        assert!(rt;
            find_within(alloc, lines, *ints, 20) == *want,
            "at {lines:?}"
        );
    }
}
