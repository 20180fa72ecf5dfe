// Taking the given rows into a tableau.
ghost use Rattle.std.specs.Prelude.{◌≡◌, ◌<◌, ◌+◌, ◌*◌, length, MatchResult};
ghost use Rattle.elimination.specs.{Stops.{IsEarlyStop}, Tableaux.{IsTaking}};

use crate::stop::Stop;
use crate::tableau::{ROW_LIMIT, Tableau};
use lin_rows::{Row, tighten};
use std::alloc::Global;

// Holds a given row, tightened, unless an equal one is held.
fn take_row(tableau: &mut Tableau, alloc: Global, rows: &[Row], number: u32) -> Result<(), Stop>
    requires taking { IsTaking rows.now number tableau.old }
    requires number { number < length rows.now }
    ensures { MatchResult result
        (λ _. IsTaking rows.now (number + 1) tableau.new × (tableau.new.ints ≡ tableau.old.ints))
        (λ stop. IsEarlyStop rows.now tableau.new stop) }
{
    let given = &rows[number as usize];
    let Ok(row) = tighten(alloc, given) else {
        return Err(Stop::Memory);
    };
    if tableau.held.has(&row) {
        return Ok(());
    }
    let refuted = row.is_contradiction();
    let Ok(()) = tableau.push_given(alloc, number, row) else {
        return Err(Stop::Memory);
    };
    if refuted {
        return Err(Stop::Contradiction);
    }
    if tableau.held.len() >= ROW_LIMIT {
        return Err(Stop::Full);
    }
    Ok(())
}

/// Holds all given rows, tightened.
pub fn take_all(tableau: &mut Tableau, alloc: Global, rows: &[Row]) -> Result<(), Stop>
    requires { IsTaking rows.now 0 tableau.old }
    ensures { MatchResult result
        (λ _. IsTaking rows.now (length rows.now) tableau.new
        × (tableau.new.ints ≡ tableau.old.ints))
        (λ stop. IsEarlyStop rows.now tableau.new stop) }
{
    for number in 0..rows.len() {
        if number > 4_294_967_295 {
            return Err(Stop::Memory);
        }
        match take_row(tableau, alloc, rows, number as u32) {
            Ok(()) => (),
            Err(stop) => return Err(stop),
        }
    }
    Ok(())
}
