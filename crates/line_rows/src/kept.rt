// The rows of a line, of which those alone are kept that are named later, so that a long line holds few rows at a time.
//
// The steps are read twice: first for when each row is named last, then row by row. A row that nothing names any more is let go at once.
//
// A line with few rows keeps them all, so that it isn't asked when each is named last. The evidence
// of too many rows keeps all, since they are compared.
ghost use Rattle.std.specs.Prelude.{◌≡◌, ℕ, List, ◌<◌, ◌+◌, cond, true, false, length, option_copied, slice_index_or, slice_set, MatchResult, OnOk, OnErr, IfOk, Ok, Some, None, [], ◌∷◌, ◌++◌};
ghost use Rattle.std.specs.List.{list_all};
ghost use Rattle.lin_rows.specs.Rows.{Row as RowView};
ghost use Rattle.line_rows.specs.Kept.{kept_at, is_done, step_sum, StepsEnd, KeptUntil, HasKeptUntil, HasKept, is_bad, Ends};
ghost use Rattle.line_rows.specs.Refusals.{or_broken, IsTold};
ghost use Rattle.line_rows.specs.Steps.{has_row, lit_rows, used_rows, with_steps, line_rows};
ghost use Rattle.proof_lines.specs.declared.line.Why.TheVariants.{Range as TheRange};

use crate::chain::{is_chain, refutes_chain};
use crate::kept_row::KeptRow;
use crate::steps::{all_have_rows, kept_row, sum_of_step};
use lin_rows::Row;
use proof_lines::clause::Lit;
use proof_lines::line::{LineRefused, RowStep, Why};
use proof_lines::problem::AtomKind;
use std::alloc::{AllocError, Global};

/// The row that is kept under a number, if one is.
#[inline(always)]
pub fn kept_at<'r>(rows: &'r [KeptRow<'_>], number: usize) -> Option<&'r Row>
    ensures { option_copied result ≡ kept_at rows.now number }
{
    match rows.get(number) {
        Some(kept) => kept.row(),
        None => None,
    }
}

// Whether nothing names a row after so many steps.
fn is_done(ends: &[usize], taken: usize, number: usize) -> bool
    ensures { result ≡ is_done ends.now taken number }
{
    match ends.get(number) {
        Some(end) => *end <= taken,
        None => false,
    }
}

// A row is named until after so many steps.
fn raise(ends: &mut [usize], number: usize, end: usize)
    ensures later { (t i : ℕ) → is_done ends.old t i ≡ false → is_done ends.new t i ≡ false }
    ensures named { (t : ℕ) → t < end → is_done ends.new t number ≡ false }
{
    if number < ends.len() && ends[number] < end {
        ends[number] = end;
    }
}

// The rows that a step names are named until after it.
fn raise_two(ends: &mut [usize], step: &RowStep, end: usize)
    ensures later { (t i : ℕ) → is_done ends.old t i ≡ false → is_done ends.new t i ≡ false }
    ensures left { (t : ℕ) → t < end → is_done ends.new t step.now.left ≡ false }
    ensures right { (t : ℕ) → t < end → is_done ends.new t step.now.right ≡ false }
{
    raise(ends, step.left as usize, end);
    raise(ends, step.right as usize, end);
}

fn raise_steps(ends: &mut [usize], steps: &[RowStep])
    ensures { StepsEnd steps.now (length steps.now) ends.new }
{
    for (i, step) in steps.iter().enumerate() {
        raise_two(ends, step, i + 1);
    }
}

fn raise_named(ends: &mut [usize], named: &[usize], end: usize)
    ensures later { (t i : ℕ) → is_done ends.old t i ≡ false → is_done ends.new t i ≡ false }
    ensures named { (t j : ℕ) → t < end → j < length named.now
        → is_done ends.new t (slice_index_or named.now j 0) ≡ false }
{
    for number in named {
        raise(ends, *number, end);
    }
}

/// A line of at most so many rows keeps them all, so that it isn't asked when each is named last.
const FEW_ROWS: usize = 64;

/// For each row of a line, after how many steps nothing names it any more. What the line says at its end names rows until after the
/// last step. Of few rows nothing is told, and none is let go.
pub fn ends_of(
    alloc: Global,
    count: usize,
    steps: &[RowStep],
    named: &[usize],
) -> Result<Vec<usize>, AllocError>
    ensures steps { IfOk result (λ ends. StepsEnd steps.now (length steps.now) ends.items) }
    ensures named { IfOk result
        (λ ends. (j : ℕ) → j < length named.now
        → is_done ends.items (length steps.now) (slice_index_or named.now j 0) ≡ false) }
{
    if count <= FEW_ROWS {
        return Ok(Vec::new(alloc));
    }
    let mut ends = vec![in alloc; 0; count]?;
    raise_steps(ends.as_mut_slice(), steps);
    raise_named(ends.as_mut_slice(), named, steps.len() + 1);
    Ok(ends)
}

// Adds the next row, unless nothing names it after so many steps.
#[inline(always)]
fn push_row<'a>(
    rows: &mut Vec<KeptRow<'a>>,
    ends: &[usize],
    taken: usize,
    row: KeptRow<'a>,
) -> Result<(), AllocError>
    ensures { OnOk result
        (rows.new.items
        ≡ rows.old.items
        ++ cond (is_done ends.now taken (length rows.old.items)) None row.entry ∷ []) }
{
    let kept = if is_done(ends, taken, rows.len()) {
        KeptRow::none()
    } else {
        row
    };
    rows.push(kept)?;
    Ok(())
}

// Lets a row go that nothing names after so many steps.
#[inline(always)]
fn let_go(rows: &mut Vec<KeptRow<'_>>, ends: &[usize], taken: usize, number: usize)
    ensures { rows.new.items ≡ cond (is_done ends.now taken number)
        (slice_set rows.old.items number None) rows.old.items }
{
    if number < rows.len() && is_done(ends, taken, number) {
        rows[number] = KeptRow::none();
    }
}

/// Adds the row of a step, after which so many are taken.
#[inline(always)]
pub fn push_step(
    rows: &mut Vec<KeptRow<'_>>,
    ends: &[usize],
    taken: usize,
    step: &RowStep,
    row: Row,
) -> Result<(), AllocError>
    ensures { OnOk result
        ((all : List RowView) → KeptUntil all ends.now taken rows.old.items
        → KeptUntil (all ++ row ∷ []) ends.now taken rows.new.items) }
{
    push_row(rows, ends, taken, KeptRow::made(row))?;
    let_go(rows, ends, taken, step.left as usize);
    let_go(rows, ends, taken, step.right as usize);
    Ok(())
}

/// The row of a step, from the two rows that are kept for it.
#[inline(always)]
pub fn step_sum(alloc: Global, rows: &[KeptRow<'_>], step: &RowStep) -> Result<Row, LineRefused>
    ensures { MatchResult result
        (λ row. step_sum (kept_at rows.now step.now.left) (kept_at rows.now step.now.right) step.now
        ≡ Ok row)
        (λ e. IsTold e
        (step_sum (kept_at rows.now step.now.left) (kept_at rows.now step.now.right) step.now)) }
{
    let (Some(left), Some(right)) = (
        kept_at(rows, step.left as usize),
        kept_at(rows, step.right as usize),
    ) else {
        return Err(LineRefused::Bad(Why::Place));
    };
    sum_of_step(alloc, left, right, step)
}

// The rows of steps, after those that are kept.
fn take_steps(
    alloc: Global,
    rows: &mut Vec<KeptRow<'_>>,
    ends: &[usize],
    steps: &[RowStep],
) -> Result<(), LineRefused>
    requires { StepsEnd steps.now (length steps.now) ends.now }
    ensures { (all : List RowView) → KeptUntil all ends.now 0 rows.old.items
        → MatchResult result
        (λ _. HasKeptUntil (with_steps all steps.now) ends.now (length steps.now) rows.new.items)
        (λ e. IsTold e (with_steps all steps.now)) }
{
    for (i, step) in steps.iter().enumerate() {
        let row = match step_sum(alloc, rows.as_slice(), step) {
            Ok(row) => row,
            Err(refused) => return Err(refused),
        };
        let Ok(()) = push_step(rows, ends, i + 1, step, row) else {
            return Err(LineRefused::Memory);
        };
    }
    Ok(())
}

// For how many rows of a line there is room at once. A line with few rows has about as many steps as used literals.
fn room_needed(used: &[Lit], ends: &[usize]) -> usize {
    if ends.is_empty() {
        used.len().min(FEW_ROWS) * 2
    } else {
        ends.len()
    }
}

// Room for so many rows at once.
fn room_for<'a>(alloc: Global, count: usize) -> Result<Vec<KeptRow<'a>>, LineRefused>
    ensures { MatchResult result (λ rows. rows.items ≡ []) (λ e. e ≡ LineRefused.Memory) }
{
    match Vec::with_capacity(alloc, count) {
        Ok(rows) => Ok(rows),
        Err(_) => Err(LineRefused::Memory),
    }
}

// The rows of used literals, of which those are kept that are named.
fn keep_rows<'a>(
    alloc: Global,
    atoms: &'a [AtomKind],
    used: &[Lit],
    ends: &[usize],
) -> Result<Vec<KeptRow<'a>>, LineRefused>
    requires { list_all (has_row atoms.now) used.now ≡ true }
    ensures { MatchResult result
        (λ kept. HasKeptUntil (or_broken TheRange (lit_rows atoms.now used.now)) ends.now 0
        kept.items)
        (λ e. IsTold e (or_broken TheRange (lit_rows atoms.now used.now))) }
{
    let mut rows = room_for(alloc, room_needed(used, ends))?;
    for lit in used {
        let row = match kept_row(alloc, atoms, *lit) {
            Ok(row) => row,
            Err(refused) => return Err(refused),
        };
        let Ok(()) = push_row(&mut rows, ends, 0, row) else {
            return Err(LineRefused::Memory);
        };
    }
    Ok(rows)
}

/// The rows of the used literals of a line, of which those are kept that are named.
pub fn keep_used<'a>(
    alloc: Global,
    atoms: &'a [AtomKind],
    used: &[Lit],
    ends: &[usize],
) -> Result<Vec<KeptRow<'a>>, LineRefused>
    ensures { MatchResult result
        (λ kept. HasKeptUntil (used_rows atoms.now used.now) ends.now 0 kept.items)
        (λ e. IsTold e (used_rows atoms.now used.now)) }
{
    if used.is_empty() || !all_have_rows(atoms, used) {
        return Err(LineRefused::Bad(Why::Place));
    }
    keep_rows(alloc, atoms, used, ends)
}

/// The rows of a line, of which those with some numbers are kept, or the first rule that its used literals or steps break.
pub fn kept_rows<'a>(
    alloc: Global,
    atoms: &'a [AtomKind],
    used: &[Lit],
    steps: &[RowStep],
    named: &[usize],
) -> Result<Vec<KeptRow<'a>>, LineRefused>
    ensures { MatchResult result
        (λ kept. HasKept (line_rows atoms.now used.now steps.now) named.now kept.items)
        (λ e. IsTold e (line_rows atoms.now used.now steps.now)) }
{
    let Ok(ends) = ends_of(alloc, used.len() + steps.len(), steps, named) else {
        return Err(LineRefused::Memory);
    };
    let mut rows = match keep_used(alloc, atoms, used, ends.as_slice()) {
        Ok(rows) => rows,
        Err(refused) => return Err(refused),
    };
    match take_steps(alloc, &mut rows, ends.as_slice(), steps) {
        Ok(()) => Ok(rows),
        Err(refused) => Err(refused),
    }
}

// Whether the row that is kept under a number is a contradiction.
fn is_bad(rows: &[KeptRow<'_>], number: usize) -> bool
    ensures { result ≡ is_bad (kept_at rows.now number) }
{
    match kept_at(rows, number) {
        Some(row) => row.is_contradiction(),
        None => false,
    }
}

// The same as below, from the rows that are kept until they are named last.
fn refutes_kept(
    alloc: Global,
    atoms: &[AtomKind],
    used: &[Lit],
    steps: &[RowStep],
) -> Result<bool, LineRefused>
    ensures { MatchResult result (λ b. Ends b (line_rows atoms.now used.now steps.now))
        (λ e. IsTold e (line_rows atoms.now used.now steps.now)) }
{
    let last = (used.len() + steps.len()).saturating_sub(1);
    match kept_rows(alloc, atoms, used, steps, &[last]) {
        Ok(rows) => Ok(is_bad(rows.as_slice(), last)),
        Err(refused) => Err(refused),
    }
}

/// Whether the last row of a line is a contradiction, or the first rule that its used literals or steps break.
pub fn refutes_used(
    alloc: Global,
    atoms: &[AtomKind],
    used: &[Lit],
    steps: &[RowStep],
) -> Result<bool, LineRefused>
    ensures { MatchResult result (λ b. Ends b (line_rows atoms.now used.now steps.now))
        (λ e. IsTold e (line_rows atoms.now used.now steps.now)) }
{
    if is_chain(used, steps) {
        match refutes_chain(alloc, atoms, used, steps) {
            Ok(Some(ends)) => return Ok(ends),
            Ok(None) => {}
            Err(refused) => return Err(refused),
        }
    }
    refutes_kept(alloc, atoms, used, steps)
}
