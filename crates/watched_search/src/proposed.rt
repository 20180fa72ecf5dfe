// What a search proposes that promises nothing, tested: a log by the proof kernel, values by evaluation.
ghost use Rattle.std.specs.Prelude.{◌≡◌, ℕ, Bool, not, length, IsTrue, IfOk, IfSome};
ghost use Rattle.std.specs.List.{list_all};
ghost use Rattle.sat_core.specs.{SearchLogs.{is_split}, Answers.{IsAnswer, IsRefuted}};

use crate::evaluating::evaluated;
use clause_learning::{Proposal, propose};
use items::Items;
use proof_kernel::check_log;
use proof_lines::{Line, Problem};
use sat_core::Answer;
use std::alloc::{AllocError, Global};

// With so many atoms there are more clauses than a log has lines.
const MANY_ATOMS: usize = 32;

fn is_split(line: &Line) -> bool
    ensures { result ≡ is_split line.now }
{
    match line {
        Line::Split { .. } => true,
        _ => false,
    }
}

// Whether no line splits whole numbers.
fn are_unsplit(lines: &[Line]) -> bool
    ensures { result ≡ list_all (λ l. not (is_split l)) lines.now }
{
    lines.iter().all(|line| !is_split(line))
}

fn atoms_in(problem: &Problem) -> usize
    ensures { result ≡ length problem.now.atoms }
{
    problem.atoms.len()
}

// Whether a log of no more lines than the budget shows that a problem has no interpretation.
fn is_refutation(alloc: Global, problem: &Problem, lines: &[Line], budget: u32) -> bool
    ensures { IsTrue result → (split : Bool) → IsRefuted split problem.now budget lines.now }
{
    if lines.len() > budget as usize {
        return false;
    }
    if atoms_in(problem) < MANY_ATOMS {
        return false;
    }
    if !are_unsplit(lines) {
        return false;
    }
    match check_log(alloc, problem, lines) {
        Ok(_) => true,
        Err(_) => false,
    }
}

// So many numbers, each of which is 0.
fn zeros(alloc: Global, many: u32) -> Result<Items<i128>, AllocError> {
    let mut numbers = Items::new(alloc);
    for _ in 0..many {
        numbers.push(0)?;
    }
    Ok(numbers)
}

// The answer that values are, where they make all clauses true.
fn answered_by(
    alloc: Global,
    problem: &Problem,
    values: &[bool],
) -> Result<Option<Answer>, AllocError>
    ensures { (budget : ℕ) (split stop : Bool)
        → IfOk result
        (λ found. IfSome found (λ answer. IsAnswer split stop problem.now budget answer)) }
{
    let numbers = zeros(alloc, problem.ints)?;
    match evaluated(alloc, problem, values, numbers)? {
        Some(found) => Ok(Some(Answer::Sat(found))),
        None => Ok(None),
    }
}

/// What `clause_learning` proposes for a problem, where it stands the test.
pub(crate) fn proposed(
    alloc: Global,
    problem: &Problem,
    budget: u32,
) -> Result<Option<Answer>, AllocError>
    ensures { (split stop : Bool) → IfOk result
        (λ found. IfSome found (λ answer. IsAnswer split stop problem.now budget answer)) }
{
    match propose(alloc, problem, budget)? {
        Proposal::Log(lines) => {
            if is_refutation(alloc, problem, lines.as_slice(), budget) {
                Ok(Some(Answer::Unsat(lines)))
            } else {
                drop(lines);
                Ok(None)
            }
        }
        Proposal::Values(values) => {
            let answer = answered_by(alloc, problem, values.as_slice());
            drop(values);
            answer
        }
        Proposal::Nothing => Ok(None),
    }
}
