// What the rows of a place say of its value, once later places have theirs.
ghost use Rattle.std.specs.Prelude.{◌≡◌, ◌<◌, ◌≤◌, ◌-ℤ◌, pos, int_lt, cond, true, false, length, take, MatchOption, MatchResult};
ghost use Rattle.lin_rows.specs.{Numbers.{is_zero}, Rows.{coefficient_at, point_of, sum_from}};
ghost use Rattle.line_rows.specs.Splits.{rest_at};
ghost use Rattle.linear_ints.specs.{Ceilings.{IsBound, is_beyond}, Descending.{IsFault, IsFaultAt}};
ghost use Rattle.linear_ints.specs.{Fractions.{size}, Listed.{listed}};
ghost use Rattle.linear_ints.specs.Bounds.{IsBoundAt, IsGreatest, IsGreatestOf};
ghost use Rattle.elimination.specs.Pairs.{place_at};

use crate::ceiling::bound;
use elimination::{Order, Tableau, is_on_at};
use lin_rows::{Row, RowTerm, add_product};
use line_rows::splitting::is_above;

/// Why a row gives no bound.
#[derive(Clone, Copy)]
pub enum Fault {
    /// Putting the values in leaves the range of a row.
    Sum,
    /// The row allows the place no number in the range of a state.
    Value,
}

/// A held row that gives no bound.
#[derive(Clone, Copy)]
pub struct FaultAt {
    pub row: u32,
    pub fault: Fault,
}

/// A bound, and the number of the held row that gives it. For an upper row it is the bound of the opposite value.
#[derive(Clone, Copy)]
pub struct Bound {
    pub value: i128,
    pub row: u32,
}

/// The value of a place, 0 where there is none.
pub fn value_of(values: &[i128], place: u32) -> i128
    ensures { result ≡ point_of values.now place }
{
    values.get(place as usize).copied().unwrap_or(0)
}

fn listed_value(values: &[i128], place: u32) -> i128
    ensures { result ≡ listed values.now place }
{
    value_of(values, place)
}

fn sum_of(terms: &[RowTerm], values: &[i128]) -> Option<i128>
    ensures { result ≡ sum_from (listed values.now) (pos 0) terms.now }
{
    let mut sum = 0;
    for term in terms {
        sum = add_product(&sum, &term.coef, &listed_value(values, term.place))?;
    }
    Some(sum)
}

fn rest_of(row: &Row, values: &[i128]) -> Option<i128>
    ensures { result ≡ rest_at (point_of values.now) row.now }
{
    let summands = row.terms();
    sum_of(summands, values)
}

// The bound that a row gives for a place that it names, with the rest of the row.
fn bound_with(row: &Row, place: u32, rest: &i128) -> Option<i128>
    requires { is_zero (coefficient_at row.now.terms place) ≡ false }
    ensures { MatchOption result (is_beyond (rest.now -ℤ row.now.bound) (size row.now place) ≡ true)
        (λ v. IsBound v (rest.now -ℤ row.now.bound) (size row.now place)) }
{
    bound(rest, &row.bound(), row.coefficient(place).unsigned_abs())
}

// The bound that a row gives for a place that it names.
fn bound_of(row: &Row, place: u32, values: &[i128]) -> Result<i128, Fault>
    requires { is_zero (coefficient_at row.now.terms place) ≡ false }
    ensures { MatchResult result (λ b. IsBoundAt values.now place row.now b)
        (λ fault. IsFault values.now place row.now fault) }
{
    match rest_of(row, values) {
        None => Err(Fault::Sum),
        Some(rest) => match bound_with(row, place, &rest) {
            Some(value) => Ok(value),
            None => Err(Fault::Value),
        },
    }
}

// The greater of two bounds.
fn greater(old: Bound, value: i128, row: u32) -> Bound
    ensures value { result.value ≡ cond (int_lt old.value value) value old.value }
    ensures row { result.row ≡ cond (int_lt old.value value) row old.row }
{
    if is_above(&value, &old.value) {
        Bound { value, row }
    } else {
        old
    }
}

// The greatest bound that those of some rows give that are on one side of a place, at least that of a state; or the first row that
// gives none.
fn greatest(
    upper: bool,
    before: &Order,
    place: u32,
    held: &[Row],
    named: &[u32],
    values: &[i128],
) -> Result<Bound, FaultAt>
    ensures { MatchResult result
        (λ b. IsGreatestOf upper before.now place held.now values.now named.now b.row b.value)
        (λ f. IsFaultAt before.now place held.now values.now f) }
{
    let mut greatest = Bound {
        value: -1_000_000_000_000_000,
        row: 0,
    };
    for number in named {
        let row = *number;
        if is_on_at(upper, before, place, held, row) {
            match bound_of(&held[row as usize], place, values) {
                Ok(value) => greatest = greater(greatest, value, row),
                Err(fault) => return Err(FaultAt { row, fault }),
            }
        }
    }
    Ok(greatest)
}

/// The greatest bound of one side of a stage, with the places before it.
pub fn side_bound(
    tableau: &Tableau,
    before: &Order,
    upper: bool,
    stage: usize,
    values: &[i128],
) -> Result<Bound, FaultAt>
    requires stage { stage < length tableau.now.order }
    requires before { before.now ≡ take stage tableau.now.order }
    ensures { MatchResult result
        (λ b. IsGreatest upper (take stage tableau.now.order) (place_at tableau.now.order stage)
        tableau.now.held values.now (length tableau.now.held) b.row b.value)
        (λ f. IsFaultAt (take stage tableau.now.order) (place_at tableau.now.order stage)
        tableau.now.held values.now f) }
{
    let order = tableau.order.as_slice();
    let held = tableau.held.as_slice();
    let place = order[stage];
    let named = tableau.held.naming(place);
    greatest(upper, before, place, held, named, values)
}
