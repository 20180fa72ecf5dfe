// The edges of rows.
//
// A tightened row says that one place is at most so far above another: an edge from the other to the one. The places are those of the
// integer names, and one more, after them, for the number 0.
ghost use Rattle.std.specs.Prelude.{◌≡◌, ◌<◌, true, nat_lt, IfOk, int_lt, pos, [], ◌∷◌};
ghost use Rattle.std.specs.List.{list_all};
ghost use Rattle.lin_rows.specs.Rows.{places_below};
ghost use Rattle.theory_api.specs.Laws.{all_below};
ghost use Rattle.diff_bounds.specs.Differences.{is_unit, are_difference, is_taken, are_taken};
ghost use Rattle.diff_bounds.specs.Edges.{LieBetween, IsEdge, AreEdges};

use lin_rows::{Row, RowTerm, tighten};
use std::alloc::{AllocError, Global};

/// Says that `to` is at most `bound` above `from`.
#[derive(Clone, Copy)]
pub struct Edge {
    pub from: usize,
    pub to: usize,
    pub bound: i128,
}

fn is_positive(a: &i128) -> bool
    ensures { result ≡ int_lt (pos 0) a.now }
{
    *a > 0
}

// Two places.
#[derive(Clone, Copy)]
struct Ends {
    from: usize,
    to: usize,
}

// The ends of one term.
fn ends_of_one(term: &RowTerm, zero: usize) -> Ends
    requires unit { is_unit term.now.coef ≡ true }
    requires below { term.now.place < zero }
    ensures { LieBetween zero (term.now ∷ []) result.from result.to }
{
    if is_positive(&term.coef) {
        return Ends {
            from: zero,
            to: term.place as usize,
        };
    }
    Ends {
        from: term.place as usize,
        to: zero,
    }
}

// The ends of two terms.
fn ends_of_two(first: &RowTerm, second: &RowTerm, zero: usize) -> Ends
    requires difference { are_difference (first.now ∷ second.now ∷ []) ≡ true }
    requires first_below { first.now.place < zero }
    requires second_below { second.now.place < zero }
    ensures { LieBetween zero (first.now ∷ second.now ∷ []) result.from result.to }
{
    if is_positive(&first.coef) {
        return Ends {
            from: second.place as usize,
            to: first.place as usize,
        };
    }
    Ends {
        from: first.place as usize,
        to: second.place as usize,
    }
}

// The ends of the terms of a difference.
fn ends_of(terms: &[RowTerm], zero: usize) -> Ends
    requires difference { are_difference terms.now ≡ true }
    requires places { list_all (λ t. nat_lt t.place zero) terms.now ≡ true }
    ensures { LieBetween zero terms.now result.from result.to }
{
    match terms {
        [] => Ends {
            from: zero,
            to: zero,
        },
        [only] => ends_of_one(only, zero),
        [first, second, ..] => ends_of_two(first, second, zero),
    }
}

// The edge of a row.
fn edge_of(alloc: Global, row: &Row, ints: u32) -> Result<Edge, AllocError>
    requires taken { is_taken ints row.now ≡ true }
    requires places { places_below ints row.now ≡ true }
    ensures { IfOk result (λ edge. IsEdge ints row.now edge) }
{
    let tight = tighten(alloc, row)?;
    let terms = tight.terms();
    let ends = ends_of(terms, ints as usize);
    let edge = Edge {
        from: ends.from,
        to: ends.to,
        bound: tight.bound(),
    };
    drop(tight);
    Ok(edge)
}

/// The edges of rows.
pub fn edges_of(alloc: Global, rows: &[Row], ints: u32) -> Result<Vec<Edge>, AllocError>
    requires taken { are_taken ints rows.now ≡ true }
    requires places { all_below ints rows.now ≡ true }
    ensures { IfOk result (λ edges. AreEdges ints rows.now edges.items) }
{
    let mut edges = Vec::new(alloc);
    for number in 0..rows.len() {
        let edge = edge_of(alloc, &rows[number], ints)?;
        edges.push(edge)?;
    }
    Ok(edges)
}
