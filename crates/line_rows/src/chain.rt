// Lines whose steps make a chain: each step names rows of used literals and the row of the step before it alone.
//
// Most Farkas lines do: each step adds the row of one more literal. Of a chain's rows none but the last is kept, and the next is written
// over the one before it, so that the steps of such a line seldom take memory.
ghost use Rattle.std.specs.Prelude.{◌≡◌, List, option_copied, [], MatchResult, IfSome, Ok};
ghost use Rattle.lin_rows.specs.Rows.{Row as RowView};
ghost use Rattle.line_rows.specs.Kept.{chain_at, IsChain, HasLast, KeptUntil, Ends};
ghost use Rattle.line_rows.specs.{Refusals.{IsTold}, Steps.{step_row, with_steps, line_rows}};

use crate::kept::{keep_used, kept_at};
use crate::kept_row::KeptRow;
use crate::steps::sum_of_step_in;
use lin_rows::{Row, RowTerm};
use proof_lines::clause::Lit;
use proof_lines::line::{LineRefused, RowStep};
use proof_lines::problem::AtomKind;
use std::alloc::Global;

// Whether a number is that of a used literal's row or of the last of so many rows.
fn is_near(used: usize, end: usize, number: u32) -> bool {
    let number = number as usize;
    number < used || number + 1 == end
}

/// Whether the steps of a line make a chain.
pub fn is_chain(used: &[Lit], steps: &[RowStep]) -> bool {
    for (i, step) in steps.iter().enumerate() {
        let end = used.len() + i;
        if !is_near(used.len(), end, step.left) || !is_near(used.len(), end, step.right) {
            return false;
        }
    }
    true
}

// The row under a number, where those of the used literals are kept and the last of so many rows.
#[inline(always)]
fn chain_at<'r>(
    kept: &'r [KeptRow<'_>],
    last: &'r Option<Row>,
    end: usize,
    number: u32,
) -> Option<&'r Row>
    ensures { option_copied result ≡ chain_at kept.now last.now end number }
{
    let number = number as usize;
    if number < kept.len() {
        return kept_at(kept, number);
    }
    if number + 1 == end {
        return last.as_ref();
    }
    None
}

// The row of the next step of a chain; nothing where the step names another row.
#[inline(always)]
fn chain_step(
    alloc: Global,
    room: Vec<RowTerm>,
    kept: &[KeptRow<'_>],
    last: &Option<Row>,
    end: usize,
    step: &RowStep,
) -> Result<Option<Row>, LineRefused>
    ensures { (rows : List RowView) → IsChain rows kept.now last.now end
        → MatchResult result (λ o. IfSome o (λ row. step_row rows step.now ≡ Ok row))
        (λ e. IsTold e (step_row rows step.now)) }
{
    let (Some(left), Some(right)) = (
        chain_at(kept, last, end, step.left),
        chain_at(kept, last, end, step.right),
    ) else {
        return Ok(None);
    };
    match sum_of_step_in(alloc, room, left, right, step) {
        Ok(row) => Ok(Some(row)),
        Err(refused) => Err(refused),
    }
}

// The memory of a row that nothing names any more.
#[inline(always)]
fn room_of(alloc: Global, last: Option<Row>) -> Vec<RowTerm> {
    match last {
        Some(row) => row.into_terms(),
        None => Vec::new(alloc),
    }
}

// The last row of a chain of steps; nothing where they make none.
fn chain_end(
    alloc: Global,
    kept: &[KeptRow<'_>],
    steps: &[RowStep],
) -> Result<Option<Row>, LineRefused>
    ensures { (all : List RowView) → KeptUntil all [] 0 kept.now
        → MatchResult result (λ o. IfSome o (λ row. HasLast (with_steps all steps.now) row))
        (λ e. IsTold e (with_steps all steps.now)) }
{
    let mut room = Vec::new(alloc);
    let mut last = None;
    for (i, step) in steps.iter().enumerate() {
        let row = match chain_step(alloc, room, kept, &last, kept.len() + i, step) {
            Ok(Some(row)) => row,
            Ok(None) => return Ok(None),
            Err(refused) => return Err(refused),
        };
        room = room_of(alloc, last);
        last = Some(row);
    }
    Ok(last)
}

/// Whether the last row of a line is a contradiction, where its steps make a chain, or the first rule that its used literals or steps
/// break. Nothing where the steps make no chain.
pub fn refutes_chain(
    alloc: Global,
    atoms: &[AtomKind],
    used: &[Lit],
    steps: &[RowStep],
) -> Result<Option<bool>, LineRefused>
    ensures { MatchResult result (λ o. IfSome o
        (λ b. Ends b (line_rows atoms.now used.now steps.now)))
        (λ e. IsTold e (line_rows atoms.now used.now steps.now)) }
{
    let rows = match keep_used(alloc, atoms, used, &[]) {
        Ok(rows) => rows,
        Err(refused) => return Err(refused),
    };
    match chain_end(alloc, rows.as_slice(), steps) {
        Ok(Some(row)) => Ok(Some(row.is_contradiction())),
        Ok(None) => Ok(None),
        Err(refused) => Err(refused),
    }
}
