// The steps at one place: each of its upper rows is combined with each of its lower ones.
ghost use Rattle.std.specs.Prelude.{◌≡◌, ◌<◌, true, length, MatchResult, Some, [], ◌∷◌};
ghost use Rattle.lin_rows.specs.Cancelling.{combined};
ghost use Rattle.line_rows.specs.Steps.{row_at};
ghost use Rattle.elimination.specs.{Needed.{is_needed}, Pairs.{IsCombinedAt}, Stops.{IsEarlyStop}};
ghost use Rattle.elimination.specs.Tableaux.{AreCombined, CanAllMeet, CanMeet, IsGrown, IsTableau};

use crate::held::Held;
use crate::stop::Stop;
use crate::tableau::{ROW_LIMIT, Tableau};
use lin_rows::{Combined, Row, RowRefused, combine};
use proof_lines::{RangeWhat, RowStep};
use std::alloc::Global;

/// Whether a row is to be held.
pub fn is_needed(held: &Held, row: &Row) -> bool
    ensures { result ≡ is_needed held.now row.now }
{
    row.is_contradiction() || !(row.terms().is_empty() || held.has(row))
}

/// The step that gives a combination.
pub fn step_of(left: u32, right: u32, sum: &Combined) -> RowStep
    ensures { result ≡ record {
      left = left;
      first = sum.now.first;
      right = right;
      second = sum.now.second;
    } }
{
    RowStep {
        left,
        first: sum.first,
        right,
        second: sum.second,
    }
}

// Holds a combination of two rows, where it is needed.
fn hold_sum(
    tableau: &mut Tableau,
    alloc: Global,
    rows: &[Row],
    place: u32,
    upper: u32,
    lower: u32,
    sum: Combined,
) -> Result<(), Stop>
    requires tableau { IsTableau rows.now tableau.old }
    requires meet { CanMeet tableau.old place upper lower }
    requires sum { combined (row_at tableau.old.held upper) (row_at tableau.old.held lower) place
        ≡ Some sum }
    ensures { MatchResult result
        (λ _. IsGrown rows.now tableau.old tableau.new
        × IsCombinedAt place tableau.new.held (row_at tableau.new.held upper)
        (row_at tableau.new.held lower))
        (λ stop. IsEarlyStop rows.now tableau.new stop) }
{
    let step = step_of(upper, lower, &sum);
    if !is_needed(&tableau.held, &sum.row) {
        return Ok(());
    }
    let refuted = sum.row.is_contradiction();
    let Ok(()) = tableau.push_step(alloc, step, sum.row) else {
        return Err(Stop::Memory);
    };
    if refuted {
        return Err(Stop::Contradiction);
    }
    if tableau.held.len() >= ROW_LIMIT {
        return Err(Stop::Full);
    }
    Ok(())
}

// Combines two rows, and holds the combination where it is needed.
fn combine_two(
    tableau: &mut Tableau,
    alloc: Global,
    rows: &[Row],
    place: u32,
    upper: u32,
    lower: u32,
) -> Result<(), Stop>
    requires tableau { IsTableau rows.now tableau.old }
    requires meet { CanMeet tableau.old place upper lower }
    ensures { MatchResult result
        (λ _. IsGrown rows.now tableau.old tableau.new
        × IsCombinedAt place tableau.new.held (row_at tableau.new.held upper)
        (row_at tableau.new.held lower))
        (λ stop. IsEarlyStop rows.now tableau.new stop) }
{
    let held = tableau.held.as_slice();
    match combine(alloc, &held[upper as usize], &held[lower as usize], place) {
        Ok(sum) => hold_sum(tableau, alloc, rows, place, upper, lower, sum),
        Err(RowRefused::Range) => Err(Stop::Beyond(RangeWhat::Product {
            left: upper,
            right: lower,
            place,
        })),
        Err(RowRefused::Memory) => Err(Stop::Memory),
    }
}

// Combines an upper row with each of some lower ones.
fn combine_one(
    tableau: &mut Tableau,
    alloc: Global,
    rows: &[Row],
    place: u32,
    upper: u32,
    lowers: &[u32],
) -> Result<(), Stop>
    requires tableau { IsTableau rows.now tableau.old }
    requires meet { CanAllMeet tableau.old place (upper ∷ []) lowers.now }
    ensures { MatchResult result
        (λ _. IsGrown rows.now tableau.old tableau.new
        × AreCombined tableau.new.held place (upper ∷ []) 1 lowers.now (length lowers.now))
        (λ stop. IsEarlyStop rows.now tableau.new stop) }
{
    for lower in lowers {
        match combine_two(tableau, alloc, rows, place, upper, *lower) {
            Ok(()) => (),
            Err(stop) => return Err(stop),
        }
    }
    Ok(())
}

/// Combines each of some upper rows with each of some lower ones.
pub fn combine_all(
    tableau: &mut Tableau,
    alloc: Global,
    rows: &[Row],
    place: u32,
    uppers: &[u32],
    lowers: &[u32],
) -> Result<(), Stop>
    requires tableau { IsTableau rows.now tableau.old }
    requires meet { CanAllMeet tableau.old place uppers.now lowers.now }
    ensures { MatchResult result
        (λ _. IsGrown rows.now tableau.old tableau.new
        × AreCombined tableau.new.held place uppers.now (length uppers.now) lowers.now
        (length lowers.now))
        (λ stop. IsEarlyStop rows.now tableau.new stop) }
{
    for upper in uppers {
        match combine_one(tableau, alloc, rows, place, *upper, lowers) {
            Ok(()) => (),
            Err(stop) => return Err(stop),
        }
    }
    Ok(())
}
