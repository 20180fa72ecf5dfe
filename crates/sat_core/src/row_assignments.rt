// The rows that the literals of a trail stand for.
ghost use Rattle.std.specs.Prelude.{◌≡◌, ◌<◌, ◌^◌, nat_lt, ℕ, cond, true, false, map, length, slice_index_or, Some, IfOk, OnOk, ◌+◌};
ghost use Rattle.std.specs.List.{list_all};
ghost use Rattle.lin_rows.specs.Rows.{is_row, negated};
ghost use Rattle.proof_lines.specs.Clauses.{lit_of};
ghost use Rattle.sat_core.specs.Trails.{in_trail, is_assigned};
ghost use Rattle.sat_core.specs.Searching.{IsRowAssignment, lit_at};

use crate::growing::atom_count;
use crate::trail::Trail;
use items::Items;
use lin_rows::{Row, negate};
use proof_lines::{AtomKind, Lit, Problem};
use std::alloc::{AllocError, Global};

/// Literals whose atoms stand for rows, and the row of each.
#[derive(Drop)]
pub struct RowAssignment {
    pub lits: Items<Lit>,
    pub rows: Items<Row>,
}

impl RowAssignment {
    /// The fact that the rows keep what their type keeps.
    pub fn law_rows(&self)
        ensures { list_all is_row self.now.rows ≡ true }
    {
        theory_api::law_rows(self.rows.as_slice());
    }
}

/// The row of a literal over an atom with a row. A negation beyond the range of a row is answered as want of memory.
pub fn row_of_sign(alloc: Global, row: &Row, positive: bool) -> Result<Row, AllocError>
    ensures { IfOk result (λ r. cond positive (Some row.now) (negated row.now) ≡ Some r) }
{
    if positive {
        return row.copy(alloc);
    }
    match negate(alloc, row) {
        Ok(opposite) => Ok(opposite),
        Err(_) => Err(AllocError),
    }
}

// Adds the literal of an atom that a trail has, and its row, where the atom stands for one.
fn assign_atom(
    alloc: Global,
    problem: &Problem,
    trail: &Trail,
    assignment: &mut RowAssignment,
    atom: u32,
) -> Result<(), AllocError>
    requires there { atom < length problem.now.atoms }
    requires assigned { is_assigned trail.now atom ≡ true }
    requires assignment { IsRowAssignment problem.now.atoms trail.now atom assignment.old.lits assignment.old.rows }
    ensures { OnOk result (IsRowAssignment problem.now.atoms trail.now
        (atom + 1) assignment.new.lits assignment.new.rows) }
{
    match &problem.atoms.as_slice()[atom as usize] {
        AtomKind::Plain => {}
        AtomKind::Row(row) => {
            let positive = trail.holds(Lit {
                atom,
                positive: true,
            });
            let row = row_of_sign(alloc, row, positive)?;
            assignment.lits.push(Lit { atom, positive })?;
            assignment.rows.push(row)?;
        }
    }
    Ok(())
}

/// The literals of a trail whose atoms stand for rows, and their rows.
pub fn row_assignment(
    alloc: Global,
    problem: &Problem,
    trail: &Trail,
) -> Result<RowAssignment, AllocError>
    requires few { length problem.now.atoms < 2 ^ 32 }
    requires assigned { (a : ℕ) → a < length problem.now.atoms → is_assigned trail.now a ≡ true }
    ensures { IfOk result (λ d. IsRowAssignment problem.now.atoms trail.now
        (length problem.now.atoms) d.lits d.rows) }
{
    let mut assignment = RowAssignment {
        lits: Items::new(alloc),
        rows: Items::new(alloc),
    };
    for atom in 0..atom_count(problem) {
        assign_atom(alloc, problem, trail, &mut assignment, atom)?;
    }
    Ok(assignment)
}

/// The literals with some numbers.
pub fn pick(alloc: Global, lits: &[Lit], used: &[u32]) -> Result<Items<Lit>, AllocError>
    requires { list_all (λ u. nat_lt u (length lits.now)) used.now ≡ true }
    ensures { IfOk result (λ out. out ≡ map (lit_at lits.now) used.now) }
{
    let mut out = Items::new(alloc);
    for number in used {
        out.push(lits[*number as usize])?;
    }
    Ok(out)
}

/// The truth values that a trail gives the first atoms.
pub fn truths(alloc: Global, trail: &Trail, atoms: usize) -> Result<Items<bool>, AllocError>
    requires { atoms < 2 ^ 32 }
    ensures many { IfOk result (λ out. length out ≡ atoms) }
    ensures each { IfOk result (λ out. (a : ℕ) → a < atoms
        → slice_index_or out a false ≡ in_trail trail.now (lit_of a true)) }
{
    let mut out = Items::new(alloc);
    for atom in 0..atoms {
        out.push(trail.holds(Lit {
            atom: atom as u32,
            positive: true,
        }))?;
    }
    Ok(out)
}
