// The solver that a clause search asks.
ghost use Rattle.std.specs.{Prelude.{◌≡◌, true, false, IfOk}, List.{list_all}};
ghost use Rattle.lin_rows.specs.Rows.{is_row};
ghost use Rattle.theory_api.specs.Laws.{IsAnswer, all_below};
ghost use Rattle.diff_bounds.specs.{Differences.{are_taken}, Cycles.{AddsUp}};
ghost use Rattle.diff_bounds.specs.{Distances.{HasShortest}, Edges.{AreEdges}};
ghost use Rattle.diff_bounds.specs.States.{AreKept, IsLongNow};

use crate::cycle::{cycle_of, steps_of};
use crate::edges::{Edge, edges_of};
use crate::relaxing::settle;
use crate::values::values_of;
use crate::walks::Walks;
use lin_rows::Row;
use std::alloc::{AllocError, Global};
use theory_api::{Theory, TheoryAnswer, law_rows};

/// The most rows of which the sums have numbers.
const ROW_LIMIT: usize = 2147483648;

/// A solver of difference rows over whole numbers, by shortest walks.
#[derive(Drop)]
pub struct DiffBounds;

impl DiffBounds {
    /// The solver. It keeps nothing between questions.
    pub fn new() -> DiffBounds {
        DiffBounds
    }
}

// The conflict of a long walk.
fn conflict_of(
    alloc: Global,
    walks: &Walks,
    edges: &[Edge],
    rows: &[Row],
) -> Result<TheoryAnswer, AllocError>
    requires edges { AreEdges walks.now.ints rows.now edges.now }
    requires kept { AreKept edges.now walks.now }
    requires long { IsLongNow walks.now }
    ensures promised { IfOk result (λ a. IsAnswer false false walks.now.ints rows.now a) }
    ensures added { IfOk result (AddsUp walks.now.ints rows.now) }
    ensures shortest { IfOk result (HasShortest walks.now.ints rows.now) }
{
    let used = cycle_of(alloc, walks, edges)?;
    if used.len() > ROW_LIMIT {
        return Err(AllocError);
    }
    let steps = match steps_of(alloc, used.len() as u32) {
        Ok(steps) => steps,
        Err(error) => {
            drop(used);
            return Err(error);
        }
    };
    Ok(TheoryAnswer::Conflict { used, steps })
}

// What the search is told. More rows than can be numbered are answered as want of memory.
fn solve(alloc: Global, rows: &[Row], ints: u32) -> Result<TheoryAnswer, AllocError>
    requires rows { list_all is_row rows.now ≡ true }
    requires places { all_below ints rows.now ≡ true }
    requires taken { are_taken ints rows.now ≡ true }
    ensures promised { IfOk result (λ a. IsAnswer false false ints rows.now a) }
    ensures added { IfOk result (AddsUp ints rows.now) }
    ensures shortest { IfOk result (HasShortest ints rows.now) }
{
    if rows.len() > u32::MAX as usize {
        return Err(AllocError);
    }
    let edges = edges_of(alloc, rows, ints)?;
    let mut walks = Walks::start(alloc, ints)?;
    if settle(&mut walks, edges.as_slice(), rows.len() as u32)? {
        return conflict_of(alloc, &walks, edges.as_slice(), rows);
    }
    let values = values_of(alloc, &walks, edges.as_slice())?;
    Ok(TheoryAnswer::Model(values))
}

impl Theory for DiffBounds {
    ghost use Rattle.std.specs.Prelude.{◌≡◌, true, false};
    ghost use Rattle.diff_bounds.specs.Differences.{are_taken};

    ghost MAY_SPLIT = { false };

    ghost MAY_STOP = { false };

    ghost takes = { λ rows ints. are_taken ints rows ≡ true };

    const MAY_SPLIT: bool = false;

    const MAY_STOP: bool = false;

    /// A conflict names the rows of one cycle, each of them once and the last one first, and its steps add them up one by one; a cycle of
    /// one row is a conflict without steps. Which cycle it is isn't promised. The values of a model are the shortest distances along rows,
    /// less that of the number 0; they lie as far from 0 as there are names times the greatest bound at most.
    fn check(&mut self, alloc: Global, rows: &[Row], ints: u32) -> TheoryAnswer
        requires places { all_below ints rows.now ≡ true }
        requires taken { are_taken ints rows.now ≡ true }
        ensures promised { IsAnswer false false ints rows.now result }
        ensures added { AddsUp ints rows.now result }
        ensures shortest { HasShortest ints rows.now result }
    {
        law_rows(rows);
        match solve(alloc, rows, ints) {
            Ok(answer) => answer,
            Err(_) => TheoryAnswer::Memory,
        }
    }

    ghost takes_all = { λ h rows ints p. absurd Prim.cc };
}
