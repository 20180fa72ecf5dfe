// Asking about the rows of some literals of a trail: before all atoms have values about those that the trail has so far, and where all have
// values about those of an implicant.
//
// What is wanted is numbers that satisfy the rows, or a few rows that contradict each other. Before all atoms have values nothing else
// helps, and nothing is lost where neither comes: the same rows will be asked about again, with others. So there the guide of
// cutting planes is asked alone, whose limits make an answer cheap. Elimination may hold thousands of rows before it stops.
ghost use Rattle.std.specs.Prelude.{◌≡◌, List, true, OnOk, IfOk, IfSome};
ghost use Rattle.lin_rows.specs.Rows.{Row as PlainRow};
ghost use Rattle.proof_lines.specs.declared.clause.Lit.{Lit as PlainLit};
ghost use Rattle.sat_core.specs.Answers.{AreRowsOf};
ghost use Rattle.theory_api.specs.Laws.{all_below, IsAnswer};
ghost use Rattle.watched_search.specs.Early.{AreHeld, IsSaid};

use items::Items;
use lin_rows::Row;
use linear_ints::tested;
use proof_lines::{AtomKind, Lit, Problem, RowStep};
use sat_core::Trail;
use sat_core::row_assignments::{RowAssignment, pick, row_of_sign};
use std::alloc::{AllocError, Global};
use theory_api::{Theory, TheoryAnswer};

/// Literals of a trail whose rows contradict each other, by these steps.
#[derive(Drop)]
pub struct Clash {
    pub used: Items<Lit>,
    pub steps: Items<RowStep>,
}

/// What a solver says of some rows, as far as the search goes on from it before all atoms have values.
#[derive(Drop)]
pub enum Said {
    /// These numbers satisfy them.
    Model(Items<i128>),
    /// They contradict each other.
    Clash(Clash),
    /// Neither: it would split whole numbers, or stop.
    Nothing,
}

// Adds a literal and its row, where the trail has the literal and its atom stands for a row.
fn assign_lit(
    alloc: Global,
    problem: &Problem,
    trail: &Trail,
    assignment: &mut RowAssignment,
    lit: Lit,
) -> Result<(), AllocError>
    requires { AreHeld problem.now.atoms trail.now assignment.old.lits assignment.old.rows }
    ensures { OnOk result
        (AreHeld problem.now.atoms trail.now assignment.new.lits assignment.new.rows) }
{
    if !trail.holds(lit) {
        return Ok(());
    }
    match problem.atoms.get(lit.atom as usize) {
        Some(AtomKind::Row(row)) => {
            let row = row_of_sign(alloc, row, lit.positive)?;
            or_drop!(assignment.lits.push(lit); row);
            assignment.rows.push(row)
        }
        _ => Ok(()),
    }
}

// Those of some literals that a trail has and whose atoms stand for rows, and their rows.
fn held_assignment(
    alloc: Global,
    problem: &Problem,
    trail: &Trail,
    lits: &[Lit],
) -> Result<RowAssignment, AllocError>
    ensures { IfOk result (λ d. AreHeld problem.now.atoms trail.now d.lits d.rows) }
{
    let few = Vec::with_capacity(alloc, lits.len())?;
    let rows = Vec::with_capacity(alloc, lits.len())?;
    let mut assignment = RowAssignment {
        lits: Items::from_vec(few),
        rows: Items::from_vec(rows),
    };
    for lit in lits {
        assign_lit(alloc, problem, trail, &mut assignment, *lit)?;
    }
    Ok(assignment)
}

// Asks about rows: a solver that may stop only where all atoms have values, and else the guide in place of it.
fn answer_of<T: Theory>(
    alloc: Global,
    theory: &mut T,
    rows: &[Row],
    ints: u32,
    early: bool,
) -> Option<TheoryAnswer>
    requires places { all_below ints rows.now ≡ true }
    requires taken { T.takes rows.now ints }
    ensures { IfSome result (λ answer. IsAnswer true true ints rows.now answer) }
{
    if early && T::MAY_STOP {
        return tested(alloc, rows, ints);
    }
    Some(theory.check(alloc, rows, ints))
}

/// Asks about the rows of those of some literals that a trail has. Early is before all atoms have values.
pub(crate) fn ask_rows<T: Theory>(
    alloc: Global,
    theory: &mut T,
    problem: &Problem,
    trail: &Trail,
    lits: &[Lit],
    early: bool,
) -> Result<Said, AllocError>
    requires taken { (lits : List PlainLit) (rows : List PlainRow)
        → AreRowsOf problem.now.atoms lits rows → all_below problem.now.ints rows ≡ true
        → T.takes rows problem.now.ints }
    ensures { IfOk result (λ said. IsSaid said problem.now trail.now) }
{
    problem.law_fits();
    let assignment = held_assignment(alloc, problem, trail, lits)?;
    let Some(answer) = answer_of(
        alloc,
        theory,
        assignment.rows.as_slice(),
        problem.ints,
        early,
    ) else {
        drop(assignment);
        return Ok(Said::Nothing);
    };
    match answer {
        TheoryAnswer::Model(numbers) => {
            drop(assignment);
            Ok(Said::Model(numbers))
        }
        TheoryAnswer::Conflict { used, steps } => {
            let picked =
                or_drop!(pick(alloc, assignment.lits.as_slice(), used.as_slice()); used, steps, assignment);
            drop(used);
            drop(assignment);
            Ok(Said::Clash(Clash {
                used: picked,
                steps,
            }))
        }
        TheoryAnswer::Memory => {
            drop(assignment);
            Err(AllocError)
        }
        other => {
            drop(other);
            drop(assignment);
            Ok(Said::Nothing)
        }
    }
}
