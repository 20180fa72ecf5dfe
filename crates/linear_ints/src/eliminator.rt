// The solver that a clause search asks.
ghost use Rattle.std.specs.{Prelude.{◌≡◌, true, [], IfOk, MatchResult}, List.{list_all}};
ghost use Rattle.lin_rows.specs.Rows.{is_row};
ghost use Rattle.theory_api.specs.Laws.{IsAnswer, IsBeyond, IsModel, all_below};
ghost use Rattle.linear_ints.specs.Stops.{IsStop};
ghost use Rattle.elimination.specs.Tableaux.{IsTaking};

use crate::descend::descend;
use elimination::{
    Conflict, Held, Order, Rest, Stop, Tableau, conflict_past, eliminate_all, named_places,
    take_all, trimmed,
};
use items::Items;
use lin_rows::Row;
use proof_lines::RangeWhat;
use std::alloc::{AllocError, Global};
use theory_api::{Theory, TheoryAnswer, law_rows};

/// A solver of linear rows over whole numbers, by elimination.
#[derive(Drop)]
pub struct Eliminator;

impl Eliminator {
    /// The solver. It keeps nothing between questions.
    pub fn new() -> Eliminator {
        Eliminator
    }
}

// The tableau before the first row.
fn start(alloc: Global, rows: &[Row], ints: u32) -> Result<Tableau, AllocError>
    requires rows { list_all is_row rows.now ≡ true }
    requires places { all_below ints rows.now ≡ true }
    ensures taking { IfOk result (λ tableau. IsTaking rows.now 0 tableau) }
    ensures ints { IfOk result (λ tableau. tableau.ints ≡ ints) }
{
    let left = named_places(alloc, rows)?;
    Ok(Tableau {
        ints,
        used: Items::new(alloc),
        steps: Items::new(alloc),
        held: Held::new(alloc),
        order: Order::new(alloc),
        left,
    })
}

// Takes the rows, eliminates all places and gives each its value.
fn solve(tableau: &mut Tableau, alloc: Global, rows: &[Row], ints: u32) -> Result<Items<i128>, Stop>
    requires taking { IsTaking rows.now 0 tableau.old }
    requires ints { tableau.old.ints ≡ ints }
    requires rows { list_all is_row rows.now ≡ true }
    ensures { MatchResult result (λ values. IsModel ints rows.now values)
        (λ stop. IsStop ints rows.now tableau.new stop) }
{
    match take_all(tableau, alloc, rows) {
        Ok(()) => (),
        Err(stop) => return Err(stop),
    }
    match eliminate_all(tableau, alloc, rows) {
        Ok(()) => (),
        Err(stop) => return Err(stop),
    }
    match descend(tableau, alloc, rows) {
        Ok(values) => Ok(values),
        Err(stop) => Err(stop),
    }
}

// What the search is told.
fn answer(tableau: Tableau, alloc: Global, rows: &[Row], ints: u32, stop: Stop) -> TheoryAnswer
    requires { IsStop ints rows.now tableau stop }
    ensures { IsAnswer true true ints rows.now result }
{
    let Tableau {
        ints: _,
        used,
        steps,
        held,
        order,
        left,
    } = tableau;
    drop(held);
    drop(order);
    drop(left);
    match stop {
        Stop::Contradiction => {
            let Conflict { used, steps } = trimmed(alloc, rows, used, steps);
            TheoryAnswer::Conflict { used, steps }
        }
        Stop::Full => TheoryAnswer::Rows { used, steps },
        Stop::Gap {
            place,
            at,
            low,
            high,
            values,
        } => TheoryAnswer::Split {
            place,
            at,
            used,
            steps,
            low,
            high,
            values,
        },
        Stop::Beyond(what) => TheoryAnswer::Range { used, steps, what },
        Stop::Memory => TheoryAnswer::Memory,
    }
}

// What the search is told where a combination leaves the range of a row: a conflict that is found without it, else that it does.
fn answer_product(
    tableau: Tableau,
    alloc: Global,
    rows: &[Row],
    ints: u32,
    what: RangeWhat,
) -> TheoryAnswer
    requires { IsBeyond rows.now tableau.used tableau.steps what }
    ensures { IsAnswer true true ints rows.now result }
{
    let Tableau {
        ints: _,
        used,
        steps,
        held,
        order,
        left,
    } = tableau;
    let rest = Rest {
        held,
        order,
        left,
        steps: Items::new(alloc),
    };
    match conflict_past(alloc, rows, used.as_slice(), steps.as_slice(), rest) {
        Some(found) => {
            drop(used);
            drop(steps);
            drop(what);
            let Conflict { used, steps } = found;
            TheoryAnswer::Conflict { used, steps }
        }
        None => TheoryAnswer::Range { used, steps, what },
    }
}

impl Theory for Eliminator {
    ghost use Rattle.std.specs.Prelude.{true};

    ghost MAY_SPLIT = { true };

    ghost MAY_STOP = { true };

    ghost takes = { λ rows ints. Unit {0} };

    const MAY_SPLIT: bool = true;

    const MAY_STOP: bool = true;

    fn check(&mut self, alloc: Global, rows: &[Row], ints: u32) -> TheoryAnswer {
        law_rows(rows);
        let Ok(mut tableau) = start(alloc, rows, ints) else {
            return TheoryAnswer::Memory;
        };
        match solve(&mut tableau, alloc, rows, ints) {
            Ok(values) => {
                drop(tableau);
                TheoryAnswer::Model(values)
            }
            Err(Stop::Beyond(RangeWhat::Product { left, right, place })) => {
                let what = RangeWhat::Product { left, right, place };
                answer_product(tableau, alloc, rows, ints, what)
            }
            Err(stop) => answer(tableau, alloc, rows, ints, stop),
        }
    }

    ghost takes_all = { λ h rows ints p. tt };
}
