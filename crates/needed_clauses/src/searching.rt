// The rounds of a search that takes more clauses as it needs them.
ghost use Rattle.std.specs.Prelude.{◌≡◌, ◌≤◌, true, false, length, IsTrue, IfOk, IfSome};
ghost use Rattle.std.specs.List.{list_all};
ghost use Rattle.proof_lines.specs.Problems.{fits, has_good_row};
ghost use Rattle.diff_bounds.specs.Differences.{problem_fits};
ghost use Rattle.sat_core.specs.Answers.{IsAnswer, IsModelOf, IsRefuted};
ghost use Rattle.needed_clauses.specs.{Renaming.{IsPart}, Rounds.{IsRound, IsAnsweredByAny}};

use crate::judging::{Taken, take_each_false, take_false, values_by};
use crate::parts::{Part, number_of, part_of};
use crate::renumbering::{are_plain_lines, renumbered};
use crate::testing::sizes;
use items::{Items, or_drop};
use proof_lines::problem::law_rows;
use proof_lines::{Interpretation, Line, Problem};
use sat_core::Answer;
use std::alloc::{AllocError, Global};
use watched_search::evaluated;

// So many rounds at most: each is a search, and most problems of the examples need one.
const ROUNDS: u32 = 10;

// So many lines of a log at most, for a part.
const FEW_LINES: u32 = 2000;

// Fewer clauses behind the front aren't worth a round.
const FEW_CLAUSES: usize = 100;

// With so many atoms there are more clauses than a log has lines.
const MANY_ATOMS: usize = 32;

/// A problem that is searched, the clauses up to `front` first, and how many lines a log may have.
#[derive(Clone, Copy)]
pub struct Task<'a> {
    pub problem: &'a Problem,
    pub front: usize,
    pub budget: u32,
}

/// What a round comes to.
#[derive(Drop)]
pub enum Round {
    /// This is the answer.
    Answered(Answer),
    /// More clauses are to be searched.
    More,
    /// The whole problem is to be searched.
    Whole,
}

// The clauses of the front.
fn front_taken(alloc: Global, problem: &Problem, front: usize) -> Result<Taken, AllocError> {
    let mut marks = Vec::with_capacity(alloc, problem.clauses.len())?;
    for clause in 0..problem.clauses.len() {
        marks.push(clause < front)?;
    }
    Ok(Taken { marks, many: 0 })
}

fn numbers_of(alloc: Global, taken: &Taken) -> Result<Vec<u32>, AllocError> {
    let mut numbers = Vec::new(alloc);
    for (clause, is_taken) in taken.marks.iter().enumerate() {
        if *is_taken {
            numbers.push(number_of(clause))?;
        }
    }
    Ok(numbers)
}

fn few_of(budget: u32) -> u32 {
    if budget < FEW_LINES {
        budget
    } else {
        FEW_LINES
    }
}

// Whether a log has no more lines than the budget, and the problem has so many atoms that there are more clauses over them than such a log has lines.
fn is_short(problem: &Problem, log: &[Line], budget: u32) -> bool
    ensures few { IsTrue result → length log.now ≤ budget }
    ensures many { IsTrue result → 32 ≤ length problem.now.atoms }
{
    log.len() <= budget as usize && problem.atoms.len() >= MANY_ATOMS
}

// The facts that the parts of a problem fit together and that its rows keep what the type of rows keeps.
fn law_good_rows(problem: &Problem)
    ensures fits { fits problem.now ≡ true }
    ensures rows { list_all has_good_row problem.now.atoms ≡ true }
{
    problem.law_fits();
    law_rows(problem.atoms.as_slice());
}

// What a log of a part comes to.
fn judge_log(
    alloc: Global,
    problem: &Problem,
    part: &Part,
    log: Items<Line>,
    few: u32,
    budget: u32,
) -> Result<Round, AllocError>
    requires part { IsPart part.now.problem problem.now part.now.clauses.items part.now.atoms.items }
    requires refuted { IsRefuted true part.now.problem few log }
    ensures { IfOk result (λ round. IsRound round problem.now budget) }
{
    if !is_short(problem, log.as_slice(), budget) || !are_plain_lines(log.as_slice()) {
        drop(log);
        return Ok(Round::Whole);
    }
    law_good_rows(problem);
    let (clauses, atoms) = (part.clauses.as_slice(), part.atoms.as_slice());
    let (whole, many) = sizes(problem);
    let lines = renumbered(alloc, clauses, many, atoms, whole, log)?;
    Ok(Round::Answered(Answer::Unsat(lines)))
}

// The interpretation that a search of the whole problem finds in a few lines, and else this one. Where all clauses on equality are at hand,
// more elements are found to be equal, and the worlds are smaller.
fn found_in_whole(alloc: Global, problem: &Problem, found: Interpretation, budget: u32) -> Answer
    requires { IsModelOf problem.now found }
    ensures { IsAnsweredByAny problem.now budget result }
{
    match watched_search::search(alloc, problem, few_of(budget)) {
        Answer::Sat(whole) => {
            drop(found);
            Answer::Sat(whole)
        }
        other => {
            drop(other);
            Answer::Sat(found)
        }
    }
}

// What an interpretation of a part comes to.
fn judge_found(
    alloc: Global,
    task: &Task<'_>,
    part: &Part,
    taken: &mut Taken,
    found: Interpretation,
) -> Result<Round, AllocError>
    ensures { IfOk result (λ round. IsRound round task.now.problem.now task.now.budget) }
{
    let Task {
        problem,
        front,
        budget,
    } = *task;
    let Interpretation { truths, ints } = found;
    let places = part.places.as_slice();
    let mut values =
        or_drop!(values_by(alloc, problem, places, truths.as_slice(), ints.as_slice()); truths, ints);
    drop(truths);
    taken.many = 0;
    take_false(problem, places, values.as_mut_slice(), taken, front);
    if taken.many == 0 {
        take_each_false(problem, values.as_slice(), taken);
    }
    if taken.many > 0 {
        return Ok(Round::More);
    }
    match evaluated(alloc, problem, values.as_slice(), ints)? {
        Some(found) => Ok(Round::Answered(found_in_whole(alloc, problem, found, budget))),
        None => Ok(Round::Whole),
    }
}

fn search_part(alloc: Global, task: &Task<'_>, taken: &mut Taken) -> Result<Round, AllocError>
    ensures { IfOk result (λ round. IsRound round task.now.problem.now task.now.budget) }
{
    let numbers = numbers_of(alloc, taken)?;
    let Some(part) = part_of(alloc, task.problem, numbers)? else {
        return Ok(Round::Whole);
    };
    let few = few_of(task.budget);
    match watched_search::search(alloc, &part.problem, few) {
        Answer::Unsat(log) => judge_log(alloc, task.problem, &part, log, few, task.budget),
        Answer::Sat(found) => judge_found(alloc, task, &part, taken, found),
        Answer::Memory => Err(AllocError),
        other => {
            drop(other);
            Ok(Round::Whole)
        }
    }
}

// Rounds until there is an answer; nothing where the whole problem is to be searched.
fn searched_in_parts(
    alloc: Global,
    problem: &Problem,
    front: usize,
    budget: u32,
) -> Result<Option<Answer>, AllocError>
    ensures { IfOk result (λ found. IfSome found (λ answer. IsAnsweredByAny problem.now budget answer)) }
{
    if problem.clauses.len().saturating_sub(front) < FEW_CLAUSES {
        return Ok(None);
    }
    let task = Task {
        problem,
        front,
        budget,
    };
    let mut taken = front_taken(alloc, problem, front)?;
    for _ in 0..ROUNDS {
        match search_part(alloc, &task, &mut taken)? {
            Round::Answered(answer) => return Ok(Some(answer)),
            Round::More => {}
            Round::Whole => return Ok(None),
        }
    }
    Ok(None)
}

/// What `watched_search` promises of its search. The clauses up to `front` are searched first, and of those behind them as many as are needed.
pub fn search(alloc: Global, problem: &Problem, front: usize, budget: u32) -> Answer
    ensures answer { IsAnswer true true problem.now budget result }
    ensures fitting { problem_fits problem.now ≡ true
        → IsAnswer false false problem.now budget result }
{
    match searched_in_parts(alloc, problem, front, budget) {
        Ok(Some(answer)) => answer,
        Ok(None) => watched_search::search(alloc, problem, budget),
        Err(_) => Answer::Memory,
    }
}

/// What `search` promises, of a problem that probably has an interpretation: first the whole of it is searched, in a few lines.
pub fn search_whole_first(alloc: Global, problem: &Problem, front: usize, budget: u32) -> Answer
    ensures answer { IsAnswer true true problem.now budget result }
    ensures fitting { problem_fits problem.now ≡ true
        → IsAnswer false false problem.now budget result }
{
    match watched_search::search(alloc, problem, few_of(budget)) {
        Answer::Sat(found) => Answer::Sat(found),
        other => {
            drop(other);
            search(alloc, problem, front, budget)
        }
    }
}
