// The solver that a clause search asks.
ghost use Rattle.std.specs.{Prelude.{◌≡◌, true, IfSome, IsTrue}, List.{list_all}};
ghost use Rattle.lin_rows.specs.Rows.{point_of};
ghost use Rattle.line_rows.specs.Evidence.{in_state};
ghost use Rattle.proof_lines.specs.Problems.{row_true};
ghost use Rattle.theory_api.specs.Laws.{IsAnswer, IsModel, all_satisfied};

use crate::Eliminator;
use cutting_planes::{Proposal, propose};
use elimination::{Conflict, conflict_in};
use items::Items;
use lin_rows::{Row, truth_at};
use proof_lines::RowStep;
use std::alloc::Global;
use theory_api::{Theory, TheoryAnswer};

/// A solver of linear rows over whole numbers: by cutting planes where they decide, else by elimination.
#[derive(Drop)]
pub struct CuttingPlanes {
    eliminator: Eliminator,
}

impl CuttingPlanes {
    /// The solver. It keeps nothing between questions.
    pub fn new() -> CuttingPlanes {
        CuttingPlanes {
            eliminator: Eliminator::new(),
        }
    }
}

fn is_in_state(value: &i128) -> bool
    ensures { result ≡ in_state value.now }
{
    value.unsigned_abs() <= 1_000_000_000_000_000
}

fn are_in_state(values: &[i128]) -> bool
    ensures { result ≡ list_all in_state values.now }
{
    values.iter().all(|value| is_in_state(value))
}

// Whether values are known to satisfy a row.
fn satisfies(row: &Row, values: &[i128]) -> bool
    ensures { IsTrue result → row_true (point_of values.now) row.now ≡ true }
{
    let Ok(places) = u32::try_from(values.len()) else {
        return false;
    };
    if !row.is_within(places) {
        return false;
    }
    match truth_at(row, values) {
        Some(truth) => truth,
        None => false,
    }
}

fn satisfies_all(rows: &[Row], values: &[i128]) -> bool
    ensures { IsTrue result → all_satisfied (point_of values.now) rows.now ≡ true }
{
    for row in rows {
        if !satisfies(row, values) {
            return false;
        }
    }
    true
}

// Whether values are those of a model, tested by the rows themselves.
fn is_model(rows: &[Row], ints: u32, values: &[i128]) -> bool
    ensures { IsTrue result → IsModel ints rows.now values.now }
{
    values.len() == ints as usize && are_in_state(values) && satisfies_all(rows, values)
}

fn model_of(rows: &[Row], ints: u32, values: Items<i128>) -> Option<TheoryAnswer>
    ensures { IfSome result (λ a. IsAnswer true true ints rows.now a) }
{
    if is_model(rows, ints, values.as_slice()) {
        return Some(TheoryAnswer::Model(values));
    }
    drop(values);
    None
}

// The conflict that a line is, trimmed, where the rule of a Farkas line says so.
fn conflict_of(
    alloc: Global,
    rows: &[Row],
    ints: u32,
    used: Items<u32>,
    steps: Items<RowStep>,
) -> Option<TheoryAnswer>
    ensures { IfSome result (λ a. IsAnswer true true ints rows.now a) }
{
    let tested = conflict_in(alloc, rows, used.as_slice(), steps.as_slice());
    drop(used);
    drop(steps);
    match tested {
        Some(conflict) => {
            let Conflict { used, steps } = conflict;
            Some(TheoryAnswer::Conflict { used, steps })
        }
        None => None,
    }
}

/// What the guide proposes, where the test says that it is so.
pub fn tested(alloc: Global, rows: &[Row], ints: u32) -> Option<TheoryAnswer>
    ensures { IfSome result (λ a. IsAnswer true true ints rows.now a) }
{
    match propose(alloc, rows, ints) {
        Some(Proposal::Numbers(values)) => model_of(rows, ints, Items::from_vec(values)),
        Some(Proposal::Refutation { used, steps }) => conflict_of(alloc, rows, ints, used, steps),
        None => None,
    }
}

impl Theory for CuttingPlanes {
    ghost use Rattle.std.specs.Prelude.{true};

    ghost MAY_SPLIT = { true };

    ghost MAY_STOP = { true };

    ghost takes = { λ rows ints. Unit {0} };

    const MAY_SPLIT: bool = true;

    const MAY_STOP: bool = true;

    fn check(&mut self, alloc: Global, rows: &[Row], ints: u32) -> TheoryAnswer {
        match tested(alloc, rows, ints) {
            Some(answer) => answer,
            None => self.eliminator.check(alloc, rows, ints),
        }
    }

    ghost takes_all = { λ h rows ints p. tt };
}
