// The elimination of places, one after the other.
ghost use Rattle.std.specs.Prelude.{◌≡◌, ◌<◌, ◌==◌, true, not, length, OnOk, IfOk, MatchResult, [], ◌∷◌, ◌++◌};
ghost use Rattle.std.specs.List.{filter};
ghost use Rattle.proof_lines.specs.Numbers.{stands_in};
ghost use Rattle.elimination.specs.{Stops.{IsEarlyStop}, Tableaux.{IsElimination}};

use crate::choosing::fewest;
use crate::sides::side_of;
use crate::steps::combine_all;
use crate::stop::Stop;
use crate::tableau::Tableau;
use items::Items;
use lin_rows::Row;
use std::alloc::{AllocError, Global};

/// The places but one.
pub fn without(alloc: Global, places: &[u32], place: u32) -> Result<Items<u32>, AllocError>
    ensures { IfOk result (λ left. left ≡ filter (λ q. not (q == place)) places.now) }
{
    let left = places
        .iter()
        .copied()
        .filter(|q| *q != place)
        .collect(alloc)?;
    Ok(Items::from_vec(left))
}

// A place goes from those that are left to the end of the order, and its rows count no longer.
fn pass_on(
    tableau: &mut Tableau,
    alloc: Global,
    place: u32,
    uppers: &[u32],
    lowers: &[u32],
) -> Result<(), AllocError>
    ensures { OnOk result
        (tableau.new
        ≡ record tableau.old
        { order = tableau.old.order ++ place ∷ []; left = filter (λ q. not (q == place)) tableau.old.left }) }
{
    let left = without(alloc, tableau.left.as_slice(), place)?;
    tableau.order.push(place)?;
    tableau.left = left;
    tableau.held.set_aside(uppers);
    tableau.held.set_aside(lowers);
    Ok(())
}

// Eliminates a place that is left.
fn eliminate_place(
    tableau: &mut Tableau,
    alloc: Global,
    rows: &[Row],
    place: u32,
) -> Result<(), Stop>
    requires elimination { IsElimination rows.now tableau.old }
    requires left { stands_in tableau.old.left place ≡ true }
    ensures { MatchResult result
        (λ _. IsElimination rows.now tableau.new × (tableau.new.ints ≡ tableau.old.ints)
        × (length tableau.new.left < length tableau.old.left))
        (λ stop. IsEarlyStop rows.now tableau.new stop) }
{
    let Ok(uppers) = side_of(tableau, alloc, true, place) else {
        return Err(Stop::Memory);
    };
    let Ok(lowers) = side_of(tableau, alloc, false, place) else {
        return Err(Stop::Memory);
    };
    let highs = uppers.as_slice();
    let lows = lowers.as_slice();
    let Ok(()) = pass_on(tableau, alloc, place, highs, lows) else {
        return Err(Stop::Memory);
    };
    match combine_all(tableau, alloc, rows, place, highs, lows) {
        Ok(()) => Ok(()),
        Err(stop) => Err(stop),
    }
}

/// Eliminates all places that are left, each time the one that asks for the fewest steps.
pub fn eliminate_all(tableau: &mut Tableau, alloc: Global, rows: &[Row]) -> Result<(), Stop>
    requires { IsElimination rows.now tableau.old }
    ensures { MatchResult result
        (λ _. IsElimination rows.now tableau.new × (tableau.new.ints ≡ tableau.old.ints)
        × (tableau.new.left ≡ []))
        (λ stop. IsEarlyStop rows.now tableau.new stop) }
{
    'places: while !tableau.left.is_empty() {
        let left = tableau.left.as_slice();
        let place = fewest(&tableau.held, left);
        match eliminate_place(tableau, alloc, rows, place) {
            Ok(()) => (),
            Err(stop) => return Err(stop),
        }
    }
    Ok(())
}
