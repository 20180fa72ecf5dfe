// Marks by literal: one look tells whether a literal is one of many, in place of a look at each of them.
//
// A table has a mark for each literal up to a greatest one. Making it takes room and time in proportion to the greatest atom, which should be one
// of a problem, and time in proportion to the literals that are marked. So only long lists have one of their own. Short ones share the size of a
// table that stands on the stack. What lies beyond a table is looked for among the literals: an empty table is right for all of them.
ghost use Rattle.std.specs.Prelude.{◌≡◌, ◌≤◌, true, IfOk, [], slice_set};
ghost use Rattle.proof_lines.specs.Clauses.{has, holds_both_ways};
ghost use Rattle.proof_lines.specs.Marks.{sign_place, place, HasMarks};

use crate::clause::{Lit, holds};
use std::alloc::{AllocError, Global};

// Below so many literals, and so many comparisons, a scan takes less than a table.
const FEW_LITERALS: usize = 8;

const FEW_COMPARISONS: usize = 4_096;

/// How many places a table has for clauses that aren't long: those of the first 256 atoms.
pub const SHORT_TABLE: usize = 512;

fn sign_place(positive: bool) -> usize
    ensures is { result ≡ sign_place positive }
    ensures few { result ≤ 1 }
{
    if positive { 1 } else { 0 }
}

// The place of a literal in a table of marks.
fn place(lit: Lit) -> usize
    ensures { result ≡ place lit }
{
    2 * lit.atom as usize + sign_place(lit.positive)
}

// How many places a table has that goes up to the greatest of some literals. A shorter table would be as right.
fn places(lits: &[Lit]) -> usize {
    let mut count = 0;
    for lit in lits {
        let at = place(*lit);
        if at >= count && at < usize::MAX {
            count = at + 1;
        }
    }
    count
}

fn mark(marks: &mut [bool], lit: Lit)
    ensures { marks.new ≡ slice_set marks.old (place lit) true }
{
    let at = place(lit);
    if at < marks.len() {
        marks[at] = true;
    }
}

/// Marks some literals in a table, and no others.
pub fn mark_all(marks: &mut [bool], lits: &[Lit])
    ensures { HasMarks marks.new lits.now }
{
    marks.fill(false);
    for lit in lits {
        mark(marks, *lit);
    }
}

// A table of so many places for some literals.
fn marks_of(alloc: Global, count: usize, lits: &[Lit]) -> Result<Vec<bool>, AllocError>
    ensures { IfOk result (λ marks. HasMarks marks.items lits.now) }
{
    let mut marks = vec![in alloc; false; count]?;
    mark_all(marks.as_mut_slice(), lits);
    Ok(marks)
}

/// Whether a scan for each of some literals among others takes less than a table that goes up to the greatest.
pub fn are_few(one: usize, other: usize) -> bool {
    one < FEW_LITERALS || other < FEW_LITERALS || one.saturating_mul(other) < FEW_COMPARISONS
}

/// A table for some literals, among which each of some others will be looked for. It is empty where these are few.
pub fn marks_for(alloc: Global, lits: &[Lit], others: &[Lit]) -> Result<Vec<bool>, AllocError>
    ensures { IfOk result (λ marks. HasMarks marks.items lits.now) }
{
    if are_few(lits.len(), others.len()) {
        return marks_of(alloc, 0, lits);
    }
    let count = places(lits).max(places(others));
    marks_of(alloc, count, lits)
}

/// Whether a literal is one of some literals that have this table.
pub fn is_among(marks: &[bool], lits: &[Lit], lit: Lit) -> bool
    requires { HasMarks marks.now lits.now }
    ensures { result ≡ has lits.now lit }
{
    let at = place(lit);
    if at < marks.len() {
        marks[at]
    } else {
        holds(lits, lit)
    }
}

/// Whether some atom stands both ways in a list, which may be long, of literals over the atoms of a problem.
pub fn some_both_ways(alloc: Global, lits: &[Lit]) -> Result<bool, AllocError>
    ensures { IfOk result (λ both. both ≡ holds_both_ways lits.now) }
{
    let marks = marks_for(alloc, lits, lits)?;
    let table = marks.as_slice();
    let both = lits.iter().any(|lit| is_among(table, lits, lit.opposite()));
    Ok(both)
}
