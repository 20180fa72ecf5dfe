// The solver of rows is asked about an implicant of a whole trail, which may have far fewer rows.
//
// Of its answers two help. Numbers give each atom that stands for a row its truth, the other atoms keep their values, and all clauses
// are evaluated: where they are true, this is an interpretation, and no trust is put in the choice of the implicant. Rows that
// contradict each other are those of literals of the trail, so their clause is learned as that of an early conflict, wherever on the
// trail its newest literal stands. Of a split or a limit nothing is made here: these are answered of the whole trail alone.
ghost use Rattle.std.specs.Prelude.{◌≡◌, List, true, IfOk};
ghost use Rattle.lin_rows.specs.Rows.{Row as PlainRow};
ghost use Rattle.proof_lines.specs.declared.clause.Lit.{Lit as PlainLit};
ghost use Rattle.sat_core.specs.declared.state.SearchState.{SearchState as PlainState};
ghost use Rattle.sat_core.specs.Answers.{AreRowsOf};
ghost use Rattle.theory_api.specs.Laws.{all_below};
ghost use Rattle.watched_search.specs.Reduced.{IsReduced};

use crate::early::{Clash, Said, ask_rows};
use crate::evaluating::evaluated;
use implicants::{choose, relaxed};
use items::Items;
use proof_lines::{Interpretation, Lit, Problem};
use sat_core::SearchState;
use std::alloc::{AllocError, Global};
use theory_api::Theory;

/// What an implicant of a whole trail says of it.
#[derive(Drop)]
pub enum Reduced {
    /// This interpretation makes all clauses of the problem true.
    Found(Interpretation),
    /// Rows of the trail contradict each other.
    Clash(Clash),
    /// Neither: the rows of the whole trail say more.
    Nothing,
}

// What numbers that satisfy the rows of an implicant come to.
fn found_by(
    alloc: Global,
    problem: &Problem,
    values: &[bool],
    numbers: Items<i128>,
) -> Result<Reduced, AllocError>
    ensures { (s : PlainState) → IfOk result (λ reduced. IsReduced reduced problem.now s) }
{
    match evaluated(alloc, problem, values, numbers)? {
        Some(found) => Ok(Reduced::Found(found)),
        None => Ok(Reduced::Nothing),
    }
}

// Asks a solver about the rows of an implicant, where it has fewer literals than the trail has.
fn ask_about<T: Theory>(
    alloc: Global,
    theory: &mut T,
    problem: &Problem,
    state: &SearchState,
    values: &[bool],
    few: &[Lit],
    lits: &[Lit],
) -> Result<Reduced, AllocError>
    requires taken { (lits : List PlainLit) (rows : List PlainRow)
        → AreRowsOf state.now.grown.atoms lits rows → all_below state.now.grown.ints rows ≡ true
        → T.takes rows state.now.grown.ints }
    ensures { IfOk result (λ reduced. IsReduced reduced problem.now state.now) }
{
    if few.len() >= lits.len() {
        return Ok(Reduced::Nothing);
    }
    match ask_rows(alloc, theory, &state.grown, &state.trail, few, false)? {
        Said::Model(numbers) => found_by(alloc, problem, values, numbers),
        Said::Clash(clash) => Ok(Reduced::Clash(clash)),
        Said::Nothing => Ok(Reduced::Nothing),
    }
}

/// Asks a solver about the rows of an implicant of a trail, where that has fewer rows than the trail. The literals are those of the
/// trail over atoms with rows, the earliest first.
pub(crate) fn ask_reduced<T: Theory>(
    alloc: Global,
    theory: &mut T,
    problem: &Problem,
    state: &SearchState,
    lits: &[Lit],
) -> Result<Reduced, AllocError>
    requires taken { (lits : List PlainLit) (rows : List PlainRow)
        → AreRowsOf state.now.grown.atoms lits rows → all_below state.now.grown.ints rows ≡ true
        → T.takes rows state.now.grown.ints }
    ensures { IfOk result (λ reduced. IsReduced reduced problem.now state.now) }
{
    if lits.is_empty() {
        return Ok(Reduced::Nothing);
    }
    let trail = &state.trail;
    let values = relaxed(alloc, problem, trail)?;
    let chosen = or_drop!(choose(alloc, problem, trail, lits, values.as_slice()); values);
    match chosen {
        Some(few) => {
            let reduced = ask_about(
                alloc,
                theory,
                problem,
                state,
                values.as_slice(),
                few.as_slice(),
                lits,
            );
            drop(few);
            drop(values);
            reduced
        }
        None => {
            drop(values);
            Ok(Reduced::Nothing)
        }
    }
}
