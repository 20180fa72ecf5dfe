// Local search: numbers that break a few rows are mended by moving one name at a time.
//
// Of the broken rows the one that is broken most, for its greatest coefficient, gets one of its names moved by just what the row lacks: the
// name that leaves the least sum of what all rows lack. A name that was moved a moment ago counts as bad, so that no two names go to and
// fro.
use crate::combining::{Derivation, row_at};
use crate::joining::sum_at;
use lin_rows::{Row, RowTerm};
use simplex::Number;
use simplex::number::{at, put};
use std::alloc::Global;

/// How far a number of a state may lie from 0.
const FARTHEST: u128 = 1_000_000_000_000_000;

/// For so many moves a name stays where it is.
const REST: u32 = 3;

/// What it counts to move such a name.
const RESTING: i128 = 1_000_000;

/// Numbers for the names, with the sum of each given row.
#[derive(Drop)]
pub struct Attempt {
    pub values: Vec<i128>,
    pub sums: Vec<i128>,
    /// The number of moves up to the last one of each name.
    pub moved: Vec<u32>,
    /// The numbers of the given rows that name each name, once a name is to be moved.
    pub naming: Vec<Vec<u32>>,
}

// A name's new value is so far from its old one.
#[derive(Clone, Copy)]
struct Move {
    name: u32,
    by: i128,
}

/// Whether a number is one of a state.
pub fn is_in_state(value: i128) -> bool {
    value.unsigned_abs() <= FARTHEST
}

fn sums_of(derivation: &Derivation<'_>, alloc: Global, values: &[i128]) -> Option<Vec<i128>> {
    let count = derivation.rows.given_len();
    let mut sums = Vec::with_capacity(alloc, count).ok()?;
    for number in 0..count {
        sums.push(sum_at(derivation.rows.get(number)?, values)?)
            .ok()?;
    }
    Some(sums)
}

// The greatest size of a coefficient, at least 1.
fn greatest_size(terms: &[RowTerm]) -> i128 {
    let mut most = 1i128;
    for term in terms {
        let size = term.coef.saturating_abs();
        if size > most {
            most = size;
        }
    }
    most
}

// How far a sum is beyond a row, for its greatest coefficient; nothing where the row holds.
fn share_beyond(row: &Row, sum: i128) -> Option<i128> {
    let beyond = sum.saturating_sub(row.bound());
    if beyond <= 0 {
        return None;
    }
    let size = greatest_size(row.terms());
    Some(beyond.saturating_mul(1024).over(size).unwrap_or(0))
}

// The number of the given row that is broken most; without a number where all hold.
fn worst(derivation: &Derivation<'_>, sums: &[i128]) -> Option<u32> {
    let mut most = 0i128;
    let mut found = None;
    for (number, sum) in sums.iter().enumerate() {
        let share = match derivation.rows.get(number) {
            Some(row) => share_beyond(row, *sum),
            None => None,
        };
        let Some(share) = share else {
            continue;
        };
        if share >= most {
            most = share.saturating_add(1);
            found = u32::try_from(number).ok();
        }
    }
    found
}

// The move of a term's name by what its row lacks.
fn move_of(term: &RowTerm, beyond: i128) -> Option<Move> {
    let size = term.coef.checked_abs()?;
    let least = beyond.checked_add(size)?.checked_sub(1)?.checked_div(size)?;
    let by = if term.coef > 0 {
        least.checked_neg()?
    } else {
        least
    };
    Some(Move {
        name: term.place,
        by,
    })
}

// What a row lacks, and one more where it lacks anything.
fn lack(beyond: i128) -> i128 {
    if beyond > 0 {
        beyond.saturating_add(1)
    } else {
        0
    }
}

// How much more a row lacks after a move.
fn change(row: &Row, sum: i128, step: Move) -> i128 {
    let before = sum.saturating_sub(row.bound());
    let after = before.saturating_add(row.coefficient(step.name).saturating_mul(step.by));
    lack(after).saturating_sub(lack(before))
}

// The numbers of the given rows that name a name.
fn naming_at(attempt: &Attempt, name: u32) -> &[u32] {
    match attempt.naming.get(name as usize) {
        Some(numbers) => numbers.as_slice(),
        None => &[],
    }
}

// Puts the number of a row into the lists of the names of its terms.
fn list_row(naming: &mut [Vec<u32>], number: u32, terms: &[RowTerm]) -> Option<()> {
    for term in terms {
        if let Some(numbers) = naming.get_mut(term.place as usize) {
            numbers.push(number).ok()?;
        }
    }
    Some(())
}

// Lists for each name the given rows that name it.
fn list_naming(derivation: &Derivation<'_>, alloc: Global, attempt: &mut Attempt) -> Option<()> {
    for _ in attempt.naming.len()..attempt.values.len() {
        attempt.naming.push(Vec::new(alloc)).ok()?;
    }
    for number in 0..attempt.sums.len() {
        let row = derivation.rows.get(number)?;
        let number = u32::try_from(number).ok()?;
        list_row(attempt.naming.as_mut_slice(), number, row.terms())?;
    }
    Some(())
}

// How much more all rows lack after a move.
fn cost(derivation: &Derivation<'_>, attempt: &Attempt, step: Move) -> i128 {
    let mut cost = 0i128;
    for number in naming_at(attempt, step.name) {
        let index = *number as usize;
        if let Some(row) = derivation.rows.get(index) {
            let sum = at(attempt.sums.as_slice(), index);
            cost = cost.saturating_add(change(row, sum, step));
        }
    }
    cost
}

fn is_resting(moved: &[u32], name: u32, moves: u32) -> bool {
    match moved.get(name as usize) {
        Some(last) => *last > 0 && moves < last.saturating_add(REST),
        None => false,
    }
}

// What a move costs; nothing where it leaves the numbers of a state.
fn price(derivation: &Derivation<'_>, attempt: &Attempt, step: Move, moves: u32) -> Option<i128> {
    let value = at(attempt.values.as_slice(), step.name as usize);
    if !is_in_state(value.checked_add(step.by)?) {
        return None;
    }
    let cost = cost(derivation, attempt, step);
    if is_resting(attempt.moved.as_slice(), step.name, moves) {
        return Some(cost.saturating_add(RESTING));
    }
    Some(cost)
}

// The cheapest move that makes a row hold.
fn cheapest(
    derivation: &Derivation<'_>,
    attempt: &Attempt,
    row: &Row,
    beyond: i128,
    moves: u32,
) -> Option<Move> {
    let mut least = i128::MAX;
    let mut found = None;
    for term in row.terms() {
        let step = move_of(term, beyond)?;
        let Some(price) = price(derivation, attempt, step, moves) else {
            continue;
        };
        if price < least {
            least = price;
            found = Some(step);
        }
    }
    found
}

// Brings the sum of a row up to date.
fn move_sum(derivation: &Derivation<'_>, sums: &mut [i128], number: u32, step: Move) -> Option<()> {
    let index = number as usize;
    let row = derivation.rows.get(index)?;
    let more = row.coefficient(step.name).checked_mul(step.by)?;
    let sum = at(sums, index).checked_add(more)?;
    put(sums, index, sum);
    Some(())
}

// Brings the sums up to date.
fn move_sums(
    derivation: &Derivation<'_>,
    naming: &[Vec<u32>],
    sums: &mut [i128],
    step: Move,
) -> Option<()> {
    let numbers = naming.get(step.name as usize)?;
    for number in numbers.as_slice() {
        move_sum(derivation, sums, *number, step)?;
    }
    Some(())
}

fn make_move(
    derivation: &Derivation<'_>,
    attempt: &mut Attempt,
    step: Move,
    moves: u32,
) -> Option<()> {
    let name = step.name as usize;
    let value = at(attempt.values.as_slice(), name).checked_add(step.by)?;
    put(attempt.values.as_mut_slice(), name, value);
    if name < attempt.moved.len() {
        attempt.moved[name] = moves;
    }
    let naming = attempt.naming.as_slice();
    move_sums(derivation, naming, attempt.sums.as_mut_slice(), step)
}

// Moves one name; whether all rows hold already.
fn mend_one(
    derivation: &Derivation<'_>,
    alloc: Global,
    attempt: &mut Attempt,
    moves: u32,
) -> Option<bool> {
    let Some(number) = worst(derivation, attempt.sums.as_slice()) else {
        return Some(true);
    };
    if attempt.naming.is_empty() {
        list_naming(derivation, alloc, attempt)?;
    }
    let row = row_at(derivation, number)?;
    let beyond = at(attempt.sums.as_slice(), number as usize).checked_sub(row.bound())?;
    let step = cheapest(derivation, attempt, row, beyond, moves)?;
    make_move(derivation, attempt, step, moves)?;
    Some(false)
}

/// Whether the given rows hold after some moves at most.
pub fn mend(
    derivation: &Derivation<'_>,
    alloc: Global,
    attempt: &mut Attempt,
    most: u32,
) -> Option<bool> {
    for moves in 0..most {
        if mend_one(derivation, alloc, attempt, moves.saturating_add(1))? {
            return Some(true);
        }
    }
    Some(worst(derivation, attempt.sums.as_slice()).is_none())
}

/// An attempt with these numbers.
pub fn attempt_at(
    derivation: &Derivation<'_>,
    alloc: Global,
    values: Vec<i128>,
) -> Option<Attempt> {
    let Some(sums) = sums_of(derivation, alloc, values.as_slice()) else {
        drop(values);
        return None;
    };
    let Ok(moved) = vec![in alloc; 0u32; values.len()] else {
        drop(values);
        drop(sums);
        return None;
    };
    Some(Attempt {
        values,
        sums,
        moved,
        naming: Vec::new(alloc),
    })
}

/// Whether all numbers are those of a state.
pub fn are_in_state(values: &[i128]) -> bool {
    values.iter().all(|value| is_in_state(*value))
}
