// The upper and the lower rows of a place.
ghost use Rattle.std.specs.{Prelude.{◌≡◌, cond, not, length, IfOk}, List.{list_all, filter}};
ghost use Rattle.lin_rows.specs.Rows.{coefficient_at};
ghost use Rattle.proof_lines.specs.Numbers.{stands_in};
ghost use Rattle.line_rows.specs.Steps.{is_negative, is_positive};
ghost use Rattle.theory_api.specs.Ends.{names_none};
ghost use Rattle.elimination.specs.Sides.{is_on, is_on_at, IsSide};

use crate::order::Order;
use crate::tableau::Tableau;
use items::Items;
use lin_rows::{Row, RowTerm};
use line_rows::splitting::{is_negative, is_positive};
use std::alloc::{AllocError, Global};

/// Whether a row names none of some places.
pub fn names_none(places: &Order, row: &Row) -> bool
    ensures { result ≡ names_none places.now row.now }
{
    stands_free(places, row.terms())
}

fn stands_free(places: &Order, terms: &[RowTerm]) -> bool
    ensures { result ≡ list_all (λ t. not (stands_in places.now t.place)) terms.now }
{
    terms.iter().all(|term| !places.holds(term.place))
}

fn has_sign(upper: bool, a: &i128) -> bool
    ensures { result ≡ cond upper (is_positive a.now) (is_negative a.now) }
{
    if upper {
        is_positive(a)
    } else {
        is_negative(a)
    }
}

/// Whether a row names no place before, and is on one side of a place.
pub fn is_on(upper: bool, before: &Order, place: u32, row: &Row) -> bool
    ensures { result ≡ is_on upper before.now place row.now }
{
    has_sign(upper, &row.coefficient(place)) && names_none(before, row)
}

/// Whether a number is one of a row on a side of a place.
pub fn is_on_at(upper: bool, before: &Order, place: u32, held: &[Row], number: u32) -> bool
    ensures { result ≡ is_on_at upper before.now place held.now number }
{
    match held.get(number as usize) {
        Some(row) => is_on(upper, before, place, row),
        None => false,
    }
}

/// Those of some numbers that are of rows on a side of a place.
pub fn of_side(
    alloc: Global,
    upper: bool,
    before: &Order,
    place: u32,
    held: &[Row],
    named: &[u32],
) -> Result<Items<u32>, AllocError>
    ensures { IfOk result (λ numbers. numbers
        ≡ filter (is_on_at upper before.now place held.now) named.now) }
{
    let numbers = named
        .iter()
        .copied()
        .filter(|number| is_on_at(upper, before, place, held, *number))
        .collect(alloc)?;
    Ok(Items::from_vec(numbers))
}

/// The numbers of the held rows on one side of a place that isn't eliminated yet.
pub fn side_of(
    tableau: &Tableau,
    alloc: Global,
    upper: bool,
    place: u32,
) -> Result<Items<u32>, AllocError>
    ensures { IfOk result (λ numbers. IsSide upper tableau.now.order place tableau.now.held
        (length tableau.now.held) numbers) }
{
    let held = tableau.held.as_slice();
    let named = tableau.held.naming(place);
    of_side(alloc, upper, &tableau.order, place, held, named)
}
