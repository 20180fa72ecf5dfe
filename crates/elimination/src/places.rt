// The places that rows name.
ghost use Rattle.std.specs.{Prelude.{◌≡◌, ℕ, ◌==◌, ◌||◌, IfOk, OnOk}, List.{list_any}};
ghost use Rattle.proof_lines.specs.Numbers.{stands_in};
ghost use Rattle.elimination.specs.Places.{names};

use crate::order::Order;
use items::Items;
use lin_rows::{Row, RowTerm};
use std::alloc::{AllocError, Global};

// Adds a place, unless it is there.
fn name(named: &mut Order, place: u32) -> Result<(), AllocError>
    ensures { OnOk result ((q : ℕ) → stands_in named.new q
        ≡ (stands_in named.old q || (place == q))) }
{
    if named.holds(place) {
        return Ok(());
    }
    named.push(place)
}

// Adds the places of terms.
fn name_all(named: &mut Order, terms: &[RowTerm]) -> Result<(), AllocError>
    ensures { OnOk result ((q : ℕ) → stands_in named.new q
        ≡ (stands_in named.old q || list_any (λ t. t.place == q) terms.now)) }
{
    for term in terms {
        name(named, term.place)?;
    }
    Ok(())
}

/// The places that some rows name, each once.
pub fn named_places(alloc: Global, rows: &[Row]) -> Result<Items<u32>, AllocError>
    ensures { IfOk result (λ places. (q : ℕ) → stands_in places q ≡ list_any (names q) rows.now) }
{
    let mut named = Order::new(alloc);
    for row in rows {
        name_all(&mut named, row.terms())?;
    }
    Ok(named.into_items())
}
