// Trimming a conflict to the rows that its contradiction rests on.
//
// The contradiction is the last row. It rests on itself and on the two rows of each step that gives a row it rests on, so these rows are
// marked from the last step back. The used rows and the steps that are marked keep their order and get new numbers. Elimination makes
// many rows that no contradiction rests on, so a trimmed conflict is mostly far shorter; and the clause that a search learns from it
// has only literals that matter.
//
// Whether what is left is a conflict is tested by the rule of a Farkas line itself; where it isn't, or memory runs out, the conflict
// stays as it was. So nothing has to be believed of the marks and the new numbers.
ghost use Rattle.std.specs.{Prelude.{◌≡◌, true, nat_lt, IfOk, IfSome}, List.{list_all}};
ghost use Rattle.theory_api.specs.Laws.{are_given, rows_at, IsConflict};

use items::Items;
use lin_rows::Row;
use line_rows::steps::refutes_rows;
use proof_lines::RowStep;
use std::alloc::{AllocError, Global};

/// A conflict: the numbers of its given rows, and the steps that refute them.
#[derive(Drop)]
pub struct Conflict {
    pub used: Items<u32>,
    pub steps: Items<RowStep>,
}

fn all_below(count: usize, numbers: &[u32]) -> bool
    ensures { result ≡ list_all (λ n. nat_lt n count) numbers.now }
{
    numbers.iter().all(|number| (*number as usize) < count)
}

fn are_given(rows: &[Row], used: &[u32]) -> bool
    ensures { result ≡ are_given rows.now used.now }
{
    !used.is_empty() && all_below(rows.len(), used)
}

fn rows_at(alloc: Global, rows: &[Row], used: &[u32]) -> Result<Vec<Row>, AllocError>
    requires { are_given rows.now used.now ≡ true }
    ensures { IfOk result (λ named. named.items ≡ rows_at rows.now used.now) }
{
    let mut named = Vec::new(alloc);
    for number in used {
        named.push(rows[*number as usize].copy(alloc)?)?;
    }
    Ok(named)
}

// Whether steps refute the used rows.
fn is_conflict(
    alloc: Global,
    rows: &[Row],
    used: &[u32],
    steps: &[RowStep],
) -> Result<bool, AllocError>
    ensures { IfOk result (λ b. b ≡ true → IsConflict rows.now used.now steps.now) }
{
    if !are_given(rows, used) {
        return Ok(false);
    }
    let named = rows_at(alloc, rows, used)?;
    refutes_rows(alloc, named.as_slice(), steps)
}

fn is_marked(marks: &[bool], number: usize) -> bool {
    marks.get(number).copied().unwrap_or(false)
}

fn mark(marks: &mut [bool], number: usize) {
    if number < marks.len() {
        marks[number] = true;
    }
}

// Marks the rows on which the marked ones rest, from the last step back.
fn mark_rested(marks: &mut [bool], given: usize, steps: &[RowStep]) {
    for (i, step) in steps.iter().enumerate().rev() {
        if is_marked(marks, given.saturating_add(i)) {
            mark(marks, step.left as usize);
            mark(marks, step.right as usize);
        }
    }
}

// The rows that the last one rests on are marked. The first `given` rows are those of no step.
fn marks_of(alloc: Global, given: usize, steps: &[RowStep]) -> Result<Vec<bool>, AllocError> {
    let count = given.saturating_add(steps.len());
    let mut marks = vec![in alloc; false; count]?;
    mark(marks.as_mut_slice(), count.saturating_sub(1));
    mark_rested(marks.as_mut_slice(), given, steps);
    Ok(marks)
}

// How many marked rows stand before each row: the new numbers of the marked ones.
fn numbers_of(alloc: Global, marks: &[bool]) -> Result<Vec<u32>, AllocError> {
    let mut numbers = Vec::new(alloc);
    let mut before = 0u32;
    for marked in marks {
        numbers.push(before)?;
        if *marked {
            before = before.saturating_add(1);
        }
    }
    Ok(numbers)
}

fn new_number(numbers: &[u32], number: u32) -> u32 {
    numbers.get(number as usize).copied().unwrap_or(0)
}

// The used rows that are marked.
fn marked_used(alloc: Global, used: &[u32], marks: &[bool]) -> Result<Items<u32>, AllocError> {
    let mut kept = Items::new(alloc);
    for (i, number) in used.iter().enumerate() {
        if is_marked(marks, i) {
            kept.push(*number)?;
        }
    }
    Ok(kept)
}

// The steps that are marked, over the new numbers.
fn marked_steps(
    alloc: Global,
    given: usize,
    steps: &[RowStep],
    marks: &[bool],
    numbers: &[u32],
) -> Result<Items<RowStep>, AllocError> {
    let mut kept = Items::new(alloc);
    for (i, step) in steps.iter().enumerate() {
        if is_marked(marks, given.saturating_add(i)) {
            kept.push(RowStep {
                left: new_number(numbers, step.left),
                first: step.first,
                right: new_number(numbers, step.right),
                second: step.second,
            })?;
        }
    }
    Ok(kept)
}

// What the last row rests on.
fn rested_on(alloc: Global, used: &[u32], steps: &[RowStep]) -> Result<Conflict, AllocError> {
    let given = used.len();
    let marks = marks_of(alloc, given, steps)?;
    let numbers = numbers_of(alloc, marks.as_slice())?;
    let used = marked_used(alloc, used, marks.as_slice())?;
    let steps = marked_steps(alloc, given, steps, marks.as_slice(), numbers.as_slice())?;
    Ok(Conflict { used, steps })
}

/// What the last row of a line rests on, where the rule of a Farkas line says that this is a conflict; nothing else has to be known of
/// the line.
pub fn conflict_in(alloc: Global, rows: &[Row], used: &[u32], steps: &[RowStep]) -> Option<Conflict>
    ensures { IfSome result (λ short. IsConflict rows.now short.used short.steps) }
{
    let Ok(short) = rested_on(alloc, used, steps) else {
        return None;
    };
    match is_conflict(alloc, rows, short.used.as_slice(), short.steps.as_slice()) {
        Ok(true) => Some(short),
        _ => None,
    }
}

/// A conflict of the given rows, without what its contradiction doesn't rest on.
pub fn trimmed(alloc: Global, rows: &[Row], used: Items<u32>, steps: Items<RowStep>) -> Conflict
    requires { IsConflict rows.now used steps }
    ensures { IsConflict rows.now result.used result.steps }
{
    match conflict_in(alloc, rows, used.as_slice(), steps.as_slice()) {
        Some(short) => short,
        None => Conflict { used, steps },
    }
}
