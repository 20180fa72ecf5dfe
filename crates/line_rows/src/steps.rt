// The rows of a line: those of its used literals, tightened, then those of its steps.
ghost use Rattle.std.specs.Prelude.{◌≡◌, true, map, IfOk, IsSome, IsTrue, MatchResult, Some, option_copied};
ghost use Rattle.std.specs.{Option.{option_map}, List.{list_all}};
ghost use Rattle.lin_rows.specs.Divisors.{tightened};
ghost use Rattle.proof_lines.specs.declared.line.Why.TheVariants.{Range as TheRange};
ghost use Rattle.line_rows.specs.Steps.{atom_row, has_row, lit_row, lit_rows, used_rows, step_row, with_steps, line_rows, ends_badly, refutes};
ghost use Rattle.line_rows.specs.Kept.{step_sum, is_first_unit, Keeps};
ghost use Rattle.line_rows.specs.Refusals.{or_broken, IsTold};

use crate::kept_row::KeptRow;
use lin_rows::{
    MultiplesRefused, Row, RowRefused, RowTerm, negate, sum_of_multiples_in, tighten, tighten_own,
};
use proof_lines::clause::Lit;
use proof_lines::line::{LineRefused, RowStep, Why};
use proof_lines::problem::AtomKind;
use std::alloc::{AllocError, Global};

// The row of an atom, if it is there and has one.
fn atom_row(atoms: &[AtomKind], number: u32) -> Option<&Row>
    ensures { option_copied result ≡ atom_row atoms.now number }
{
    match atoms.get(number as usize) {
        Some(AtomKind::Row(row)) => Some(row),
        _ => None,
    }
}

fn has_row(atoms: &[AtomKind], lit: Lit) -> bool
    ensures { result ≡ has_row atoms.now lit }
{
    atom_row(atoms, lit.atom).is_some()
}

/// The row of a literal, tightened. Range comes exactly where a negation leaves the range of a row.
#[inline(always)]
pub fn lit_row(alloc: Global, atoms: &[AtomKind], lit: Lit) -> Result<Row, LineRefused>
    requires { has_row atoms.now lit ≡ true }
    ensures { MatchResult result
        (λ row. or_broken TheRange (option_map tightened (lit_row atoms.now lit)) ≡ Ok row)
        (λ e. IsTold e (or_broken TheRange (option_map tightened (lit_row atoms.now lit)))) }
{
    let Some(row) = atom_row(atoms, lit.atom) else {
        return Err(LineRefused::Bad(Why::Range));
    };
    if lit.positive {
        let Ok(tight) = tighten(alloc, row) else {
            return Err(LineRefused::Memory);
        };
        return Ok(tight);
    }
    match negate(alloc, row) {
        Ok(opposite) => match tighten_own(alloc, opposite) {
            Ok(tight) => Ok(tight),
            Err(_) => Err(LineRefused::Memory),
        },
        Err(RowRefused::Range) => Err(LineRefused::Bad(Why::Range)),
        Err(RowRefused::Memory) => Err(LineRefused::Memory),
    }
}

#[inline(always)]
fn is_first_unit(terms: &[RowTerm]) -> bool
    ensures { result ≡ is_first_unit terms.now }
{
    match terms {
        [] => false,
        [term, ..] => term.coef.unsigned_abs() == 1,
    }
}

#[inline(always)]
fn has_first_unit(row: &Row) -> bool
    ensures { result ≡ is_first_unit row.now.terms }
{
    is_first_unit(row.terms())
}

// Whether the first coefficient shows that tightening leaves a row as it is. For most rows it does.
#[inline(always)]
fn is_surely_tight(row: &Row) -> bool
    ensures { IsTrue result → tightened row.now ≡ row.now }
{
    row.terms().is_empty() || has_first_unit(row)
}

/// The row of a literal, tightened, as it is kept: the row of the atom itself, where that is tight and the literal is positive.
#[inline(always)]
pub fn kept_row<'a>(
    alloc: Global,
    atoms: &'a [AtomKind],
    lit: Lit,
) -> Result<KeptRow<'a>, LineRefused>
    requires { has_row atoms.now lit ≡ true }
    ensures { MatchResult result
        (λ kept. Keeps kept (or_broken TheRange (option_map tightened (lit_row atoms.now lit))))
        (λ e. IsTold e (or_broken TheRange (option_map tightened (lit_row atoms.now lit)))) }
{
    if let Some(row) = atom_row(atoms, lit.atom) {
        if lit.positive && is_surely_tight(row) {
            return Ok(KeptRow::lent(row));
        }
    }
    match lit_row(alloc, atoms, lit) {
        Ok(row) => Ok(KeptRow::made(row)),
        Err(refused) => Err(refused),
    }
}

fn all_rows(alloc: Global, atoms: &[AtomKind], used: &[Lit]) -> Result<Vec<Row>, LineRefused>
    requires { list_all (has_row atoms.now) used.now ≡ true }
    ensures { MatchResult result
        (λ rows. or_broken TheRange (lit_rows atoms.now used.now) ≡ Ok rows.items)
        (λ e. IsTold e (or_broken TheRange (lit_rows atoms.now used.now))) }
{
    let mut rows = Vec::new(alloc);
    for lit in used {
        let row = match lit_row(alloc, atoms, *lit) {
            Ok(row) => row,
            Err(refused) => return Err(refused),
        };
        let Ok(()) = rows.push(row) else {
            return Err(LineRefused::Memory);
        };
    }
    Ok(rows)
}

fn used_rows(alloc: Global, atoms: &[AtomKind], used: &[Lit]) -> Result<Vec<Row>, LineRefused>
    ensures { MatchResult result (λ rows. used_rows atoms.now used.now ≡ Ok rows.items)
        (λ e. IsTold e (used_rows atoms.now used.now)) }
{
    if used.is_empty() || !all_have_rows(atoms, used) {
        return Err(LineRefused::Bad(Why::Place));
    }
    all_rows(alloc, atoms, used)
}

/// Whether the atom of each of these literals stands for a row.
pub fn all_have_rows(atoms: &[AtomKind], used: &[Lit]) -> bool
    ensures { result ≡ list_all (has_row atoms.now) used.now }
{
    used.iter().all(|lit| has_row(atoms, *lit))
}

/// The row of a step, from its two rows.
#[inline(always)]
pub fn sum_of_step(
    alloc: Global,
    left: &Row,
    right: &Row,
    step: &RowStep,
) -> Result<Row, LineRefused>
    ensures { MatchResult result
        (λ row. step_sum (Some left.now) (Some right.now) step.now ≡ Ok row)
        (λ e. IsTold e (step_sum (Some left.now) (Some right.now) step.now)) }
{
    sum_of_step_in(alloc, Vec::new(alloc), left, right, step)
}

/// The row of a step, from its two rows, written over terms that nothing needs any more.
#[inline(always)]
pub fn sum_of_step_in(
    alloc: Global,
    room: Vec<RowTerm>,
    left: &Row,
    right: &Row,
    step: &RowStep,
) -> Result<Row, LineRefused>
    ensures { MatchResult result
        (λ row. step_sum (Some left.now) (Some right.now) step.now ≡ Ok row)
        (λ e. IsTold e (step_sum (Some left.now) (Some right.now) step.now)) }
{
    match sum_of_multiples_in(alloc, room, left, step.first, right, step.second) {
        Ok(row) => Ok(row),
        Err(MultiplesRefused::Negative) => Err(LineRefused::Bad(Why::Multiplier)),
        Err(MultiplesRefused::Range) => Err(LineRefused::Bad(Why::Range)),
        Err(MultiplesRefused::Memory) => Err(LineRefused::Memory),
    }
}

// The row of a step over earlier rows.
fn step_row(alloc: Global, rows: &[Row], step: &RowStep) -> Result<Row, LineRefused>
    ensures { MatchResult result (λ row. step_row rows.now step.now ≡ Ok row)
        (λ e. IsTold e (step_row rows.now step.now)) }
{
    let left = step.left as usize;
    let right = step.right as usize;
    if left >= rows.len() || right >= rows.len() {
        return Err(LineRefused::Bad(Why::Place));
    }
    sum_of_step(alloc, &rows[left], &rows[right], step)
}

fn with_steps(alloc: Global, mut rows: Vec<Row>, steps: &[RowStep]) -> Result<Vec<Row>, LineRefused>
    ensures { MatchResult result (λ all. with_steps rows.items steps.now ≡ Ok all.items)
        (λ e. IsTold e (with_steps rows.items steps.now)) }
{
    for step in steps {
        let row = step_row(alloc, rows.as_slice(), step)?;
        let Ok(()) = rows.push(row) else {
            return Err(LineRefused::Memory);
        };
    }
    Ok(rows)
}

/// All rows of a line, or the first rule that its used literals or steps break.
pub fn line_rows(
    alloc: Global,
    atoms: &[AtomKind],
    used: &[Lit],
    steps: &[RowStep],
) -> Result<Vec<Row>, LineRefused>
    ensures { MatchResult result (λ rows. line_rows atoms.now used.now steps.now ≡ Ok rows.items)
        (λ e. IsTold e (line_rows atoms.now used.now steps.now)) }
{
    let rows = used_rows(alloc, atoms, used)?;
    with_steps(alloc, rows, steps)
}

/// Whether the last row is a contradiction.
pub fn ends_badly(rows: &[Row]) -> bool
    ensures { result ≡ ends_badly rows.now }
{
    match rows.len() {
        0 => false,
        count => rows[count - 1].is_contradiction(),
    }
}

fn all_tightened(alloc: Global, given: &[Row]) -> Result<Vec<Row>, AllocError>
    ensures { IfOk result (λ rows. rows.items ≡ map tightened given.now) }
{
    let mut rows = Vec::new(alloc);
    for row in given {
        rows.push(tighten(alloc, row)?)?;
    }
    Ok(rows)
}

/// Whether steps refute given rows, without literals: the last of all rows is a contradiction, so no whole numbers satisfy the
/// given ones.
pub fn refutes_rows(alloc: Global, given: &[Row], steps: &[RowStep]) -> Result<bool, AllocError>
    ensures { IfOk result (λ b. b ≡ refutes given.now steps.now) }
{
    let rows = all_tightened(alloc, given)?;
    match with_steps(alloc, rows, steps) {
        Ok(all) => Ok(ends_badly(all.as_slice())),
        Err(LineRefused::Bad(_)) => Ok(false),
        Err(LineRefused::Memory) => Err(AllocError),
    }
}
