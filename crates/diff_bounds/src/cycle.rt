// The cycle of a long walk, and the conflict of its rows.
//
// A walk with more edges than there are integer names has two visits more than that, and so comes to some place twice. Between two
// visits of a place, of which the later one has the lower value, lies a cycle whose bounds add up to less than 0. Its rows, added up one
// after the other from the last edge back, say at each stage that one place is at most so far above another, and in the end that 0 is
// at most a negative number.
ghost use Rattle.std.specs.Prelude.{◌≡◌, ◌-◌, ◌≤◌, ◌^◌, IfOk, None, length, drop, replicate};
ghost use Rattle.diff_bounds.specs.{Cycles.{IsCycle, first_steps}, States.{AreKept, IsLongNow}};

use crate::edges::Edge;
use crate::walks::Walks;
use items::Items;
use proof_lines::RowStep;
use std::alloc::{AllocError, Global};

// No place was seen.
fn no_marks(alloc: Global, count: usize) -> Result<Vec<Option<usize>>, AllocError>
    ensures { IfOk result (λ seen. seen.items ≡ replicate count None) }
{
    let mut marks = Vec::new(alloc);
    for _place in 0..count {
        marks.push(None)?;
    }
    Ok(marks)
}

// The members of a list from a place on.
fn from_place(alloc: Global, list: &[u32], place: usize) -> Result<Items<u32>, AllocError>
    requires { place ≤ length list.now }
    ensures { IfOk result (λ rest. rest ≡ drop place list.now) }
{
    Items::from_slice(alloc, &list[place..])
}

/// The edges of a cycle of a long walk, the last one first.
pub fn cycle_of(alloc: Global, walks: &Walks, edges: &[Edge]) -> Result<Items<u32>, AllocError>
    requires kept { AreKept edges.now walks.now }
    requires long { IsLongNow walks.now }
    ensures { IfOk result (λ used. IsCycle walks.now.visits.items used) }
{
    let mut seen = no_marks(alloc, walks.ints as usize + 1)?;
    let mut used = Items::new(alloc);
    let mut at = walks.visits.len() - 1;
    'back: loop {
        let visit = walks.visits[at];
        match seen[visit.place] {
            Some(first) => return from_place(alloc, used.as_slice(), first),
            None => seen[visit.place] = Some(used.len()),
        }
        used.push(visit.edge)?;
        at = visit.before;
    }
}

/// The steps that add up `count` rows.
pub fn steps_of(alloc: Global, count: u32) -> Result<Items<RowStep>, AllocError>
    requires some { 1 ≤ count }
    requires few { count ≤ 2 ^ 31 }
    ensures { IfOk result (λ steps. steps ≡ first_steps count (count - 1)) }
{
    let mut steps = Items::new(alloc);
    for right in 1..count {
        let left = if right == 1 { 0 } else { count + right - 2 };
        steps.push(RowStep {
            left,
            first: 1,
            right,
            second: 1,
        })?;
    }
    Ok(steps)
}
