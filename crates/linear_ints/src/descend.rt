// Choosing values, from the place that was eliminated last back to the first.
ghost use Rattle.std.specs.Prelude.{◌≡◌, ◌<◌, ◌<ℤ◌, ◌+◌, ◌-ℤ◌, pos, int_lt, true, length, map, take, slice_set, IfOk, MatchResult, [], ◌∷◌};
ghost use Rattle.std.specs.List.{list_all};
ghost use Rattle.lin_rows.specs.{Numbers.{in_range}, Rows.{is_row, point_of}};
ghost use Rattle.line_rows.specs.{Splits.{other_names}, Steps.{row_at}};
ghost use Rattle.theory_api.specs.Laws.{IsModel};
ghost use Rattle.linear_ints.specs.Deciding.{nearest};
ghost use Rattle.linear_ints.specs.Descending.{AreBounds, AreZeros, IsDescent, IsFaultAt};
ghost use Rattle.linear_ints.specs.Stops.{IsStop};
ghost use Rattle.elimination.specs.{Pairs.{place_at}, Tableaux.{IsElimination}};

use crate::bounds::{Bound, Fault, FaultAt, side_bound, value_of};
use elimination::{Stop, Tableau, prefix};
use items::Items;
use lin_rows::Row;
use lin_rows::number::minus;
use line_rows::splitting::{is_above, is_negative, is_positive, names_of_one, names_of_two};
use proof_lines::RangeWhat;
use std::alloc::{AllocError, Global};

// The values of names.
fn values_at(alloc: Global, names: &[u32], values: &[i128]) -> Result<Items<i128>, AllocError>
    ensures { IfOk result (λ list. list ≡ map (point_of values.now) names.now) }
{
    let mut list = Items::new(alloc);
    for name in names {
        list.push(value_of(values, *name))?;
    }
    Ok(list)
}

// The values of the names of a held row other than a place.
fn values_of_one(
    tableau: &Tableau,
    alloc: Global,
    row: u32,
    place: u32,
    values: &[i128],
) -> Result<Items<i128>, AllocError>
    requires { row < length tableau.now.held }
    ensures { IfOk result (λ list. list ≡ map (point_of values.now)
        (other_names place (row_at tableau.now.held row ∷ []))) }
{
    let held = tableau.held.as_slice();
    let names = names_of_one(alloc, place, &held[row as usize])?;
    let listed = names.as_slice();
    values_at(alloc, listed, values)
}

// The values of the names of two held rows other than a place.
fn values_of_two(
    tableau: &Tableau,
    alloc: Global,
    low: u32,
    high: u32,
    place: u32,
    values: &[i128],
) -> Result<Items<i128>, AllocError>
    requires low { low < length tableau.now.held }
    requires high { high < length tableau.now.held }
    ensures { IfOk result
        (λ list. list
        ≡ map (point_of values.now)
        (other_names place (row_at tableau.now.held low ∷ row_at tableau.now.held high ∷ []))) }
{
    let held = tableau.held.as_slice();
    let names = names_of_two(alloc, place, &held[low as usize], &held[high as usize])?;
    let listed = names.as_slice();
    values_at(alloc, listed, values)
}

// As many zeros as there are names.
fn zeros(alloc: Global, count: u32) -> Result<Vec<i128>, AllocError>
    ensures { IfOk result (λ values. AreZeros count values.items) }
{
    let mut values = Items::new(alloc);
    for place in 0..count {
        values.push(0)?;
    }
    Ok(values.into_vec())
}

// The place of a stage.
fn place_of(tableau: &Tableau, stage: usize) -> u32
    requires { stage < length tableau.now.order }
    ensures { result ≡ place_at tableau.now.order stage }
{
    let order = tableau.order.as_slice();
    order[stage]
}

// Whether the lowest value of a place is above the highest.
fn crosses(low: &Bound, high: &Bound) -> bool
    requires { in_range high.now.value ≡ true }
    ensures { result ≡ int_lt (pos 0 -ℤ high.now.value) low.now.value }
{
    is_above(&low.value, &minus(&high.value))
}

// The number nearest to 0 from the lowest value to the highest.
fn middle(low: &Bound, high: &Bound) -> i128
    requires { in_range high.now.value ≡ true }
    ensures { result ≡ nearest low.now.value (pos 0 -ℤ high.now.value) }
{
    let highest = minus(&high.value);
    if is_positive(&low.value) {
        low.value
    } else if is_negative(&highest) {
        highest
    } else {
        0
    }
}

// A row of the place that gives no bound stops the search for values.
fn fault_stop(
    tableau: &Tableau,
    alloc: Global,
    rows: &[Row],
    stage: usize,
    values: &[i128],
    at: FaultAt,
) -> Stop
    requires elimination { IsElimination rows.now tableau.now }
    requires left { tableau.now.left ≡ [] }
    requires stage { stage < length tableau.now.order }
    requires descent { IsDescent tableau.now (stage + 1) values.now }
    requires fault { IsFaultAt (take stage tableau.now.order)
        (place_at tableau.now.order stage) tableau.now.held values.now at }
    ensures { IsStop tableau.now.ints rows.now tableau.now result }
{
    let place = place_of(tableau, stage);
    let row = at.row;
    let Ok(values) = values_of_one(tableau, alloc, row, place, values) else {
        return Stop::Memory;
    };
    match at.fault {
        Fault::Sum => Stop::Beyond(RangeWhat::Sum { row, place, values }),
        Fault::Value => Stop::Beyond(RangeWhat::Value { row, place, values }),
    }
}

// A gap between the lowest and the highest value of a place stops the search for values.
fn gap_stop(
    tableau: &Tableau,
    alloc: Global,
    rows: &[Row],
    stage: usize,
    values: &[i128],
    low: &Bound,
    high: &Bound,
) -> Stop
    requires elimination { IsElimination rows.now tableau.now }
    requires left { tableau.now.left ≡ [] }
    requires stage { stage < length tableau.now.order }
    requires descent { IsDescent tableau.now (stage + 1) values.now }
    requires bounds { AreBounds tableau.now stage values.now low.now.row low.now.value high.now.row
        (pos 0 -ℤ high.now.value) }
    requires gap { (pos 0 -ℤ high.now.value) <ℤ low.now.value }
    requires in_range { in_range high.now.value ≡ true }
    requires low_row { low.now.row < length tableau.now.held }
    requires high_row { high.now.row < length tableau.now.held }
    ensures { IsStop tableau.now.ints rows.now tableau.now result }
{
    let place = place_of(tableau, stage);
    let Ok(values) = values_of_two(tableau, alloc, low.row, high.row, place, values) else {
        return Stop::Memory;
    };
    let at = minus(&high.value);
    Stop::Gap {
        place,
        at,
        low: low.row,
        high: high.row,
        values,
    }
}

// The value of the place of a stage.
fn value_at(
    tableau: &Tableau,
    alloc: Global,
    rows: &[Row],
    stage: usize,
    values: &[i128],
) -> Result<i128, Stop>
    requires elimination { IsElimination rows.now tableau.now }
    requires left { tableau.now.left ≡ [] }
    requires stage { stage < length tableau.now.order }
    requires descent { IsDescent tableau.now (stage + 1) values.now }
    ensures { MatchResult result
        (λ value. IsDescent tableau.now stage
        (slice_set values.now (place_at tableau.now.order stage) value))
        (λ stop. IsStop tableau.now.ints rows.now tableau.now stop) }
{
    let Ok(before) = prefix(alloc, &tableau.order, stage) else {
        return Err(Stop::Memory);
    };
    let low = match side_bound(tableau, &before, false, stage, values) {
        Ok(low) => low,
        Err(at) => {
            drop(before);
            return Err(fault_stop(tableau, alloc, rows, stage, values, at));
        }
    };
    let high = match side_bound(tableau, &before, true, stage, values) {
        Ok(high) => high,
        Err(at) => {
            drop(before);
            return Err(fault_stop(tableau, alloc, rows, stage, values, at));
        }
    };
    drop(before);
    if crosses(&low, &high) {
        return Err(gap_stop(tableau, alloc, rows, stage, values, &low, &high));
    }
    Ok(middle(&low, &high))
}

// Writes a value in.
fn put(values: &mut Vec<i128>, place: u32, value: &i128)
    requires { place < length values.old.items }
    ensures { values.new.items ≡ slice_set values.old.items place value.now }
{
    values[place as usize] = *value;
}

// Gives the place of a stage its value.
fn choose_value(
    tableau: &Tableau,
    alloc: Global,
    rows: &[Row],
    stage: usize,
    values: &mut Vec<i128>,
) -> Result<(), Stop>
    requires elimination { IsElimination rows.now tableau.now }
    requires left { tableau.now.left ≡ [] }
    requires stage { stage < length tableau.now.order }
    requires descent { IsDescent tableau.now (stage + 1) values.old.items }
    ensures { MatchResult result (λ _. IsDescent tableau.now stage values.new.items)
        (λ stop. IsStop tableau.now.ints rows.now tableau.now stop) }
{
    let seen = values.as_slice();
    match value_at(tableau, alloc, rows, stage, seen) {
        Ok(value) => {
            let place = place_of(tableau, stage);
            put(values, place, &value);
            Ok(())
        }
        Err(stop) => Err(stop),
    }
}

/// Gives each name a value: nearest to 0 of those that the rows allow, from the place that was eliminated last back to the first.
pub fn descend(tableau: &Tableau, alloc: Global, rows: &[Row]) -> Result<Items<i128>, Stop>
    requires elimination { IsElimination rows.now tableau.now }
    requires left { tableau.now.left ≡ [] }
    requires rows { list_all is_row rows.now ≡ true }
    ensures { MatchResult result (λ values. IsModel tableau.now.ints rows.now values)
        (λ stop. IsStop tableau.now.ints rows.now tableau.now stop) }
{
    let Ok(mut values) = zeros(alloc, tableau.ints) else {
        return Err(Stop::Memory);
    };
    let mut stage = tableau.order.len();
    'stages: while stage > 0 {
        stage -= 1;
        match choose_value(tableau, alloc, rows, stage, &mut values) {
            Ok(()) => (),
            Err(stop) => return Err(stop),
        }
    }
    Ok(Items::from_vec(values))
}
