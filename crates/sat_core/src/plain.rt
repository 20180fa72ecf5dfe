// The plain search: it looks through all clauses for a false or a unit one.
ghost use Rattle.std.specs.{Prelude.{◌≡◌, ◌<◌, ◌≤◌, ℕ, List, true, false, length}, List.{list_any}};
ghost use Rattle.lin_rows.specs.Rows.{Row as PlainRow};
ghost use Rattle.proof_lines.specs.{declared.clause.Lit.{Lit as PlainLit}, Clauses.{is_empty}};
ghost use Rattle.sat_core.specs.{Answers.{AreRowsOf, IsAnswer, ShowsNone}, Searching.{InSearch}};
ghost use Rattle.sat_core.specs.Outcomes.{IsOutcome, IsPushed};

use crate::answer::Answer;
use crate::checking::Outcome;
use crate::finding::{Found, find, unassigned};
use crate::growing::{atom_count, sign_of};
use crate::state::SearchState;
use crate::trail::{Entry, Trail};
use items::Items;
use proof_lines::problem::law_rows;
use proof_lines::{Lit, Problem, RangeEvidence, RowsEvidence};
use std::alloc::Global;
use theory_api::Theory;

fn push(trail: &mut Trail, lit: Lit, reason: Option<u32>) -> Outcome
    ensures { IsPushed result trail.old lit reason trail.new }
{
    match trail.push(Entry { lit, reason }) {
        Ok(()) => Outcome::Continue,
        Err(_) => Outcome::Memory,
    }
}

// One step: a conflict is analyzed at once; then what is forced is taken to be true; then an atom is decided, a row by its truth
// where all numbers are 0; and where all atoms have values, the solver of rows is asked.
fn advance<T: Theory>(
    alloc: Global,
    theory: &mut T,
    problem: &Problem,
    state: &mut SearchState,
    budget: u32,
) -> Outcome
    requires search { InSearch (record { problem = problem.now; split = T.MAY_SPLIT })
        budget state.old }
    requires taken { T.MAY_SPLIT ≡ false → (lits : List PlainLit) (rows : List PlainRow)
        → AreRowsOf problem.now.atoms lits rows → T.takes rows problem.now.ints }
    ensures { IsOutcome result (record { problem = problem.now; split = T.MAY_SPLIT }) T.MAY_STOP
        budget state.old state.new }
{
    match find(&state.grown, &state.trail) {
        Found::Conflict(start) => state.analyze_conflict(alloc, start, budget).outcome(),
        Found::Forced(reason, lit) => push(&mut state.trail, lit, Some(reason)),
        Found::Nothing => match unassigned(&state.trail, atom_count(&state.grown)) {
            Some(atom) => {
                let positive = sign_of(&state.grown, atom);
                push(&mut state.trail, Lit { atom, positive }, None)
            }
            None => match state.final_check(alloc, theory, problem, budget) {
                Ok(outcome) => outcome,
                Err(_) => Outcome::Memory,
            },
        },
    }
}

fn holds_empty(problem: &Problem) -> bool
    ensures { result ≡ list_any is_empty problem.now.clauses }
{
    problem.clauses.iter().any(|clause| clause.is_empty())
}

// Goes on with a search until there is an answer.
fn search_on<T: Theory>(
    alloc: Global,
    problem: &Problem,
    theory: &mut T,
    state: &mut SearchState,
    budget: u32,
) -> Answer
    requires search { InSearch (record { problem = problem.now; split = T.MAY_SPLIT })
        budget state.old }
    requires taken { T.MAY_SPLIT ≡ false → (lits : List PlainLit) (rows : List PlainRow)
        → AreRowsOf problem.now.atoms lits rows → T.takes rows problem.now.ints }
    ensures { IsAnswer T.MAY_SPLIT T.MAY_STOP problem.now budget result }
{
    'search: loop {
        match advance(alloc, theory, problem, state, budget) {
            Outcome::Continue => {}
            Outcome::Refuted => return Answer::Unsat(state.take_log(alloc)),
            Outcome::Found(interpretation) => return Answer::Sat(interpretation),
            Outcome::BudgetExhausted => return Answer::Lines(state.take_log(alloc)),
            Outcome::Rows { used, steps } => {
                let log = state.take_log(alloc);
                return Answer::Rows(RowsEvidence { log, used, steps });
            }
            Outcome::Range { used, steps, what } => {
                let log = state.take_log(alloc);
                return Answer::Range(RangeEvidence {
                    log,
                    used,
                    steps,
                    what,
                });
            }
            Outcome::Memory => return Answer::Memory,
        }
    }
}

// The search, without the fact that its Unsat means that there is no interpretation.
fn search<T: Theory>(alloc: Global, problem: &Problem, theory: &mut T, budget: u32) -> Answer
    requires taken { T.MAY_SPLIT ≡ false → (lits : List PlainLit) (rows : List PlainRow)
        → AreRowsOf problem.now.atoms lits rows → T.takes rows problem.now.ints }
    ensures { IsAnswer T.MAY_SPLIT T.MAY_STOP problem.now budget result }
{
    if holds_empty(problem) {
        return Answer::Unsat(Items::new(alloc));
    }
    let Ok(mut state) = SearchState::begin(alloc, problem) else {
        return Answer::Memory;
    };
    search_on(alloc, problem, theory, &mut state, budget)
}

/// Searches for an interpretation that makes all clauses of a problem true, or for a log of at most `budget` lines that shows
/// that there is none. A row of the problem with the bound 2^127 - 1 has no negation, and may be answered as want of memory.
pub fn solve_plain<T: Theory>(
    alloc: Global,
    problem: &Problem,
    theory: &mut T,
    budget: u32,
) -> Answer
    requires taken { T.MAY_SPLIT ≡ false → (lits : List PlainLit) (rows : List PlainRow)
        → AreRowsOf problem.now.atoms lits rows → T.takes rows problem.now.ints }
    ensures promised { IsAnswer T.MAY_SPLIT T.MAY_STOP problem.now budget result }
    ensures none { ShowsNone problem.now result }
{
    problem.law_fits();
    law_rows(problem.atoms.as_slice());
    search(alloc, problem, theory, budget)
}
