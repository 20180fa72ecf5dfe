// Making walks shorter, edge by edge and round by round (Bellman and Ford).
//
// An edge that leads to a lower value than the latest one of its end gives that end a new visit. In a round each edge is looked at
// once. After k rounds each edge is settled, or its latest start has a depth of k at least; so after one round more than there are
// integer names all edges are settled, unless a walk became longer than that before. Such a walk comes to some place twice.
ghost use Rattle.std.specs.Prelude.{◌≡◌, ◌+◌, ◌<◌, length, IfOk, MatchOption, IsTrue, ◌+ℤ◌, ◌≤ℤ◌};
ghost use Rattle.std.specs.Prelude.{neg_ℤ, pos, int_le};
ghost use Rattle.diff_bounds.specs.{Differences.{state_limit}, Edges.{edge_at, AreNear}};
ghost use Rattle.diff_bounds.specs.Walks.{IsNext};
ghost use Rattle.diff_bounds.specs.States.{AreKept, AreShortNow, IsSettledNow, AreSettledNow};
ghost use Rattle.diff_bounds.specs.States.{AreAheadNow, AreRelaxed, IsRound, IsEnd};

use crate::edges::Edge;
use crate::walks::{Visit, Walks};
use std::alloc::AllocError;

// The value at the end of an edge.
fn value_along(from: &i128, bound: &i128) -> i128
    requires from_low { neg_ℤ (pos state_limit) ≤ℤ from.now }
    requires from_high { from.now ≤ℤ pos 0 }
    requires bound_low { neg_ℤ (pos state_limit) ≤ℤ bound.now }
    requires bound_high { bound.now ≤ℤ pos state_limit }
    ensures { result ≡ from.now +ℤ bound.now }
{
    *from + *bound
}

fn is_at_most(a: &i128, b: &i128) -> bool
    ensures { result ≡ int_le a.now b.now }
{
    *a <= *b
}

// The next visit of the end of an edge, where it leads to a lower value.
fn next_visit(walks: &Walks, edges: &[Edge], number: u32) -> Option<Visit>
    requires kept { AreKept edges.now walks.now }
    requires near { AreNear walks.now.ints edges.now }
    requires short { AreShortNow walks.now }
    requires number { number < length edges.now }
    ensures { MatchOption result (IsSettledNow walks.now (edge_at edges.now number))
        (λ v. IsNext walks.now.ints edges.now walks.now.visits.items walks.now.latest.items number
        v) }
{
    let edge = edges[number as usize];
    let from = walks.now_at(edge.from);
    let to = walks.now_at(edge.to);
    let value = value_along(&from.value, &edge.bound);
    if is_at_most(&to.value, &value) {
        return None;
    }
    Some(Visit {
        place: edge.to,
        depth: from.depth + 1,
        value,
        edge: number,
        before: walks.latest[edge.from],
    })
}

fn are_settled(walks: &Walks, edges: &[Edge], count: u32) -> bool
    requires kept { AreKept edges.now walks.now }
    requires near { AreNear walks.now.ints edges.now }
    requires short { AreShortNow walks.now }
    requires count { count ≡ length edges.now }
    ensures { IsTrue result → AreSettledNow walks.now edges.now }
{
    for number in 0..count {
        match next_visit(walks, edges, number) {
            Some(_) => return false,
            None => {}
        }
    }
    true
}

// Looks at an edge. Whether a walk became longer than there are integer names.
fn relax(walks: &mut Walks, edges: &[Edge], number: u32) -> Result<bool, AllocError>
    requires kept { AreKept edges.now walks.old }
    requires near { AreNear walks.old.ints edges.now }
    requires short { AreShortNow walks.old }
    requires number { number < length edges.now }
    ensures { IfOk result (λ long. AreRelaxed edges.now number
        (number + 1) walks.old walks.new long) }
{
    let Some(visit) = next_visit(walks, edges, number) else {
        return Ok(false);
    };
    walks.push(visit)?;
    Ok(visit.depth > walks.ints as usize)
}

// Looks at each edge once.
fn relax_all(walks: &mut Walks, edges: &[Edge], count: u32) -> Result<bool, AllocError>
    requires kept { AreKept edges.now walks.old }
    requires near { AreNear walks.old.ints edges.now }
    requires short { AreShortNow walks.old }
    requires count { count ≡ length edges.now }
    ensures { IfOk result (λ long. IsRound edges.now walks.old walks.new long) }
{
    for number in 0..count {
        if relax(walks, edges, number)? {
            return Ok(true);
        }
    }
    Ok(false)
}

/// Makes walks shorter until all edges are settled, or a walk is longer than there are integer names, which it says.
pub fn settle(walks: &mut Walks, edges: &[Edge], count: u32) -> Result<bool, AllocError>
    requires kept { AreKept edges.now walks.old }
    requires near { AreNear walks.old.ints edges.now }
    requires short { AreShortNow walks.old }
    requires start { AreAheadNow walks.old edges.now 0 0 }
    requires count { count ≡ length edges.now }
    ensures { IfOk result (λ long. IsEnd edges.now walks.old.ints walks.new long) }
{
    let rounds = walks.ints as usize + 1;
    for _round in 0..rounds {
        if are_settled(walks, edges, count) {
            return Ok(false);
        }
        if relax_all(walks, edges, count)? {
            return Ok(true);
        }
    }
    Ok(false)
}
