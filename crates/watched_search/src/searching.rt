// The solvers of rows, and which of them a problem needs.
ghost use Rattle.std.specs.Prelude.{◌≡◌, true, false};
ghost use Rattle.sat_core.specs.{Forcing.{is_plain, are_plain}, Answers.{IsAnswer}};
ghost use Rattle.diff_bounds.specs.Differences.{problem_fits};

use crate::solving::solve;
use diff_bounds::{DiffBounds, fits, law_fits};
use linear_ints::CuttingPlanes;
use proof_lines::{AtomKind, Problem};
use sat_core::Answer;
use std::alloc::Global;
use theory_api::NoInts;

fn is_plain(atom: &AtomKind) -> bool
    ensures { result ≡ is_plain atom.now }
{
    match atom {
        AtomKind::Plain => true,
        AtomKind::Row(_) => false,
    }
}

fn are_plain(problem: &Problem) -> bool
    ensures { result ≡ are_plain problem.now.atoms }
{
    problem.atoms.iter().all(|atom| is_plain(atom))
}

fn int_count(problem: &Problem) -> u32
    ensures { result ≡ problem.now.ints }
{
    problem.ints
}

fn search_plain(alloc: Global, problem: &Problem, budget: u32) -> Answer
    requires plain { are_plain problem.now.atoms ≡ true }
    requires no_ints { problem.now.ints ≡ 0 }
    ensures { IsAnswer false false problem.now budget result }
{
    solve(alloc, problem, &mut NoInts, budget)
}

fn search_differences(alloc: Global, problem: &Problem, budget: u32) -> Answer
    requires { problem_fits problem.now ≡ true }
    ensures { IsAnswer false false problem.now budget result }
{
    law_fits();
    solve(alloc, problem, &mut DiffBounds::new(), budget)
}

fn search_rows(alloc: Global, problem: &Problem, budget: u32) -> Answer
    ensures { IsAnswer true true problem.now budget result }
{
    solve(alloc, problem, &mut CuttingPlanes::new(), budget)
}

/// Searches for an interpretation that makes all clauses of a problem true, or for a log of at most `budget` lines that shows that
/// there is none. Where the problem fits the solver of difference rows, the search never splits, and no rows stop it.
pub fn search(alloc: Global, problem: &Problem, budget: u32) -> Answer
    ensures answer { IsAnswer true true problem.now budget result }
    ensures fitting { problem_fits problem.now ≡ true
        → IsAnswer false false problem.now budget result }
{
    if int_count(problem) == 0 && are_plain(problem) {
        return search_plain(alloc, problem, budget);
    }
    if fits(problem) {
        return search_differences(alloc, problem, budget);
    }
    search_rows(alloc, problem, budget)
}
