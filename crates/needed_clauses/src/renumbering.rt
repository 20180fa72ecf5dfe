// A log of a part, with the numbers of the whole problem.
ghost use Rattle.std.specs.{Prelude.{◌≡◌, map, IfOk}, List.{list_all}};
ghost use Rattle.needed_clauses.specs.Renaming.{number_in, lit_by, line_by, is_plain_line};

use crate::testing::{lit_in, number_in};
use items::{Items, or_drop};
use proof_lines::{Line, Lit};
use std::alloc::{AllocError, Global};

// Literals with the numbers that their atoms have.
fn lits_in(
    alloc: Global,
    atoms: &[u32],
    whole: usize,
    lits: &[Lit],
) -> Result<Items<Lit>, AllocError>
    ensures { IfOk result (λ ls. ls ≡ map (lit_by (number_in atoms.now whole)) lits.now) }
{
    let mut renamed = Items::new(alloc);
    for lit in lits {
        renamed.push(lit_in(atoms, whole, *lit)?)?;
    }
    Ok(renamed)
}

// A line with the numbers that clauses and atoms have in the whole, which has so many of them.
fn line_by(
    alloc: Global,
    clauses: &[u32],
    many: usize,
    atoms: &[u32],
    whole: usize,
    line: Line,
) -> Result<Line, AllocError>
    ensures { IfOk result
        (λ l. l ≡ line_by (number_in clauses.now many) (number_in atoms.now whole) line) }
{
    match line {
        Line::Resolve { left, right, pivot } => Ok(Line::Resolve {
            left: number_in(clauses, many, left)?,
            right: number_in(clauses, many, right)?,
            pivot: number_in(atoms, whole, pivot)?,
        }),
        Line::Farkas { used, steps } => {
            let renamed = or_drop!(lits_in(alloc, atoms, whole, used.as_slice()); used, steps);
            drop(used);
            Ok(Line::Farkas {
                used: renamed,
                steps,
            })
        }
        other => Ok(other),
    }
}

fn is_plain_line(line: &Line) -> bool
    ensures { result ≡ is_plain_line line.now }
{
    match line {
        Line::Resolve { .. } => true,
        Line::Farkas { .. } => true,
        Line::Split { .. } => false,
        Line::Drop { .. } => false,
    }
}

/// Whether all lines resolve or are lines of rows.
pub fn are_plain_lines(lines: &[Line]) -> bool
    ensures { result ≡ list_all is_plain_line lines.now }
{
    lines.iter().all(|line| is_plain_line(line))
}

/// The log of a part, with the numbers that its clauses and its atoms have in the whole problem, which has so many clauses and so many
/// atoms. The clauses of its lines come behind those of the problem.
pub fn renumbered(
    alloc: Global,
    clauses: &[u32],
    many: usize,
    atoms: &[u32],
    whole: usize,
    log: Items<Line>,
) -> Result<Items<Line>, AllocError>
    ensures { IfOk result
        (λ ls. ls ≡ map (line_by (number_in clauses.now many) (number_in atoms.now whole)) log) }
{
    let mut lines = Items::from_vec(or_drop!(Vec::with_capacity(alloc, log.len()); log));
    for line in log.into_vec() {
        let line = line_by(alloc, clauses, many, atoms, whole, line)?;
        lines.push(line)?;
    }
    Ok(lines)
}
