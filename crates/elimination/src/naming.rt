// For each place the numbers of the rows that name it.
//
// The proofs ask only that no row is missing, since the values that are chosen in the end have to satisfy all rows of a place. A number
// that stands in a list for nothing does no harm: whoever goes through a list looks at the row.
ghost use Rattle.std.specs.Prelude.{◌≡◌, ℕ, ◌<◌, ◌==◌, true, length, slice_index_or, OnOk, []};
ghost use Rattle.std.specs.List.{list_any};
ghost use Rattle.elimination.specs.Naming.{KeepsLists, lists};

use items::Items;
use lin_rows::RowTerm;
use std::alloc::{AllocError, Global};

/// The numbers of the rows that name a place.
pub fn numbers_at(by_place: &[Items<u32>], place: u32) -> &[u32]
    ensures { result.now ≡ slice_index_or by_place.now place [] }
{
    match by_place.get(place as usize) {
        Some(numbers) => numbers.as_slice(),
        None => &[],
    }
}

// Lists up to a place, the new ones empty.
fn make_room(alloc: Global, by_place: &mut Vec<Items<u32>>, place: usize) -> Result<(), AllocError>
    ensures same { (q : ℕ) → slice_index_or by_place.new.items q []
        ≡ slice_index_or by_place.old.items q [] }
    ensures room { OnOk result (place < length by_place.new.items) }
{
    while by_place.len() <= place {
        by_place.push(Items::new(alloc))?;
    }
    Ok(())
}

fn put(by_place: &mut Vec<Items<u32>>, place: usize, number: u32) -> Result<(), AllocError>
    requires { place < length by_place.old.items }
    ensures kept { KeepsLists by_place.old.items by_place.new.items }
    ensures listed { OnOk result (lists by_place.new.items place number ≡ true) }
{
    by_place[place].push(number)?;
    Ok(())
}

// Puts a number into the list of a place.
fn list_one(
    alloc: Global,
    by_place: &mut Vec<Items<u32>>,
    place: u32,
    number: u32,
) -> Result<(), AllocError>
    ensures kept { KeepsLists by_place.old.items by_place.new.items }
    ensures listed { OnOk result (lists by_place.new.items place number ≡ true) }
{
    make_room(alloc, by_place, place as usize)?;
    put(by_place, place as usize, number)
}

/// Puts the number of a row into the lists of the places of its terms.
pub fn list_all(
    alloc: Global,
    by_place: &mut Vec<Items<u32>>,
    terms: &[RowTerm],
    number: u32,
) -> Result<(), AllocError>
    ensures kept { KeepsLists by_place.old.items by_place.new.items }
    ensures listed { OnOk result
        ((q : ℕ) → list_any (λ t. t.place == q) terms.now ≡ true
        → lists by_place.new.items q number ≡ true) }
{
    for term in terms {
        list_one(alloc, by_place, term.place, number)?;
    }
    Ok(())
}
