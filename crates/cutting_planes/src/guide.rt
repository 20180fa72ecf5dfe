// The guide: what it proposes of rows.
use crate::combining::{Derivation, Multiple, combine, is_contradiction, no_rows, take};
use crate::cuts::{Cutting, add_cuts};
use crate::joining::{bound_names, join_broken};
use crate::reformed::propose_reformed;
use crate::repairing::{Attempt, are_in_state, attempt_at, mend};
use crate::rounding::{Rounding, round};
use items::Items;
use lin_rows::Row;
use proof_lines::RowStep;
use simplex::number::at;
use simplex::{Equation, Number, Pivoted, Tableau, Vertex, slack_of, solve, start, vertex_of};
use std::alloc::Global;

/// The most turns of the guide, in each of which rows join, names get bounds, or cuts are made.
const TURN_LIMIT: u32 = 400;

/// The most turns in which cuts are made.
const CUT_LIMIT: u32 = 15;

/// The most turns in which names get bounds.
const BOUND_LIMIT: u32 = 4;

/// The most moves of a local search, and after how many turns of cuts there is one.
const MOVE_LIMIT: u32 = 100;

const MOVE_EVERY: u32 = 8;

/// What is proposed. Nobody has tested it.
#[derive(Drop)]
pub enum Proposal {
    /// Numbers for the names, which may satisfy all rows.
    Numbers(Vec<i128>),
    /// The last row of the line may be a contradiction.
    Refutation {
        used: Items<u32>,
        steps: Items<RowStep>,
    },
}

/// What was found of the rows of a derivation.
#[derive(Drop)]
pub enum Found {
    /// Numbers for the names.
    Numbers(Vec<i128>),
    /// The last row of the line is a contradiction.
    Refuted,
}

/// What stands while the guide works.
#[derive(Drop)]
struct Guide<'r, N> {
    derivation: Derivation<'r>,
    tableau: Tableau<N>,
    joined: Vec<bool>,
    cuts: u32,
    bounds: u32,
}

/// How a turn ends.
#[derive(Drop)]
enum Turn {
    Again,
    Found(Found),
    /// A limit is met, or no cut is left to make.
    GivenUp,
}

/// How a guide ends.
#[derive(Drop)]
pub enum Ended {
    Proposed(Proposal),
    /// A limit is met, or no cut is left to make.
    GivenUp,
}

/// Takes the given rows; whether one is a contradiction.
pub fn take_all(derivation: &mut Derivation<'_>, alloc: Global, rows: &[Row]) -> Option<bool> {
    for (i, row) in rows.iter().enumerate() {
        if take(derivation, alloc, u32::try_from(i).ok()?, row)? {
            return Some(true);
        }
    }
    Some(false)
}

// Lists a multiple of the row of a variable.
fn list_multiple<N: Number>(
    tableau: &Tableau<N>,
    variable: usize,
    by: i128,
    multiples: &mut Vec<Multiple>,
) -> Option<()> {
    let row = slack_of(tableau, variable)?.row?;
    multiples.push(Multiple { row, by }).ok()
}

fn list_multiples<N: Number>(
    tableau: &Tableau<N>,
    equation: &Equation<N>,
    multiples: &mut Vec<Multiple>,
) -> Option<()> {
    list_multiple(
        tableau,
        equation.basic,
        equation.denominator.wide(),
        multiples,
    )?;
    for (column, variable) in tableau.columns.iter().enumerate() {
        let by = at(equation.numerators.as_slice(), column);
        if !by.is_zero() {
            list_multiple(tableau, *variable, by.wide().checked_neg()?, multiples)?;
        }
    }
    Some(())
}

// The multiples by which an infeasible equation refutes the rows; nothing where a bound of our own is among them.
fn multiples_of<N: Number>(
    tableau: &Tableau<N>,
    alloc: Global,
    number: usize,
) -> Option<Vec<Multiple>> {
    let equation = tableau.equations.get(number)?;
    let mut multiples = Vec::new(alloc);
    match list_multiples(tableau, equation, &mut multiples) {
        Some(()) => Some(multiples),
        None => {
            drop(multiples);
            None
        }
    }
}

// Adds the multiples up.
fn refute<N: Number>(guide: &mut Guide<'_, N>, alloc: Global, number: usize) -> Option<Turn> {
    let multiples = multiples_of(&guide.tableau, alloc, number)?;
    let sum = combine(&mut guide.derivation, alloc, multiples.as_slice());
    drop(multiples);
    if is_contradiction(&guide.derivation, sum?) {
        return Some(Turn::Found(Found::Refuted));
    }
    None
}

fn values_of(attempt: Attempt) -> Vec<i128> {
    let Attempt {
        values,
        sums,
        moved,
        naming,
    } = attempt;
    drop(sums);
    drop(moved);
    drop(naming);
    values
}

// Whole numbers near a vertex, mended by some moves, where all rows then hold.
fn try_rounding<N: Number>(
    derivation: &Derivation<'_>,
    alloc: Global,
    vertex: &Vertex<N>,
    way: Rounding,
    moves: u32,
) -> Option<Vec<i128>> {
    let values = round(vertex, alloc, way)?;
    let mut attempt = attempt_at(derivation, alloc, values)?;
    let mended = mend(derivation, alloc, &mut attempt, moves);
    let values = values_of(attempt);
    match mended {
        Some(true) if are_in_state(values.as_slice()) => Some(values),
        _ => {
            drop(values);
            None
        }
    }
}

// The values of a whole vertex, which satisfies all rows.
fn try_whole<N: Number>(vertex: &Vertex<N>, alloc: Global) -> Option<Vec<i128>> {
    let values = round(vertex, alloc, Rounding::Down)?;
    if are_in_state(values.as_slice()) {
        return Some(values);
    }
    drop(values);
    None
}

/// Whole numbers near a vertex that satisfy all rows.
pub fn try_all<N: Number>(
    derivation: &Derivation<'_>,
    alloc: Global,
    vertex: &Vertex<N>,
    moves: u32,
) -> Option<Vec<i128>> {
    if vertex.common.is_one() {
        return try_whole(vertex, alloc);
    }
    for way in [Rounding::Nearest, Rounding::Down, Rounding::Up] {
        if let Some(values) = try_rounding(derivation, alloc, vertex, way, moves) {
            return Some(values);
        }
    }
    None
}

// Whole numbers near a vertex that satisfies all rows, or cuts where there are none.
fn settle<N: Number>(guide: &mut Guide<'_, N>, alloc: Global, vertex: &Vertex<N>) -> Option<Turn> {
    let moves = if guide.cuts % MOVE_EVERY == 0 {
        MOVE_LIMIT
    } else {
        0
    };
    if let Some(values) = try_all(&guide.derivation, alloc, vertex, moves) {
        return Some(Turn::Found(Found::Numbers(values)));
    }
    if guide.cuts >= CUT_LIMIT {
        return Some(Turn::GivenUp);
    }
    guide.cuts = guide.cuts.saturating_add(1);
    match add_cuts(&mut guide.tableau, alloc, &mut guide.derivation)? {
        Cutting::Made(0) => Some(Turn::GivenUp),
        Cutting::Made(_) => Some(Turn::Again),
        Cutting::Contradiction(_) => Some(Turn::Found(Found::Refuted)),
    }
}

// What follows from a vertex.
fn go_on<N: Number>(guide: &mut Guide<'_, N>, alloc: Global, vertex: &Vertex<N>) -> Option<Turn> {
    if join_broken(
        &mut guide.tableau,
        alloc,
        &guide.derivation,
        guide.joined.as_mut_slice(),
        vertex,
    )? {
        return Some(Turn::Again);
    }
    if guide.bounds < BOUND_LIMIT && bound_names(&mut guide.tableau, alloc, vertex)? {
        guide.bounds = guide.bounds.saturating_add(1);
        return Some(Turn::Again);
    }
    settle(guide, alloc, vertex)
}

fn take_turn<N: Number>(guide: &mut Guide<'_, N>, alloc: Global) -> Option<Turn> {
    match solve(&mut guide.tableau, alloc)? {
        Pivoted::Infeasible(number) => refute(guide, alloc, number),
        Pivoted::Spent => Some(Turn::GivenUp),
        Pivoted::Feasible => {
            let vertex = vertex_of(&guide.tableau, alloc)?;
            let turn = go_on(guide, alloc, &vertex);
            drop(vertex);
            turn
        }
    }
}

fn turn_on<N: Number>(guide: &mut Guide<'_, N>, alloc: Global) -> Option<Turn> {
    for _turn in 0..TURN_LIMIT {
        match take_turn(guide, alloc)? {
            Turn::Again => {}
            other => return Some(other),
        }
    }
    Some(Turn::GivenUp)
}

// The numbers of the given rows that a derivation has taken.
fn numbers_taken(derivation: &Derivation<'_>, alloc: Global) -> Option<Items<u32>> {
    let count = derivation.rows.given_len();
    let mut used = Vec::with_capacity(alloc, count).ok()?;
    for number in 0..count {
        used.push(derivation.rows.number_of(number)?).ok()?;
    }
    Some(Items::from_vec(used))
}

// The line of a derivation.
fn refutation(derivation: Derivation<'_>, alloc: Global) -> Option<Proposal> {
    let used = numbers_taken(&derivation, alloc);
    let Derivation {
        rows,
        narrow,
        steps,
    } = derivation;
    drop(rows);
    drop(narrow);
    match used {
        Some(used) => Some(Proposal::Refutation { used, steps }),
        None => {
            drop(steps);
            None
        }
    }
}

/// What is proposed by what was found.
pub fn proposal_of(
    derivation: Derivation<'_>,
    alloc: Global,
    found: Option<Found>,
) -> Option<Proposal> {
    match found {
        Some(Found::Refuted) => refutation(derivation, alloc),
        Some(Found::Numbers(values)) => {
            drop(derivation);
            Some(Proposal::Numbers(values))
        }
        None => {
            drop(derivation);
            None
        }
    }
}

fn proposed_by(derivation: Derivation<'_>, alloc: Global, found: Found) -> Option<Ended> {
    let proposal = proposal_of(derivation, alloc, Some(found))?;
    Some(Ended::Proposed(proposal))
}

// What a guide ends with.
fn conclude<N: Number>(guide: Guide<'_, N>, alloc: Global, turn: Option<Turn>) -> Option<Ended> {
    let Guide {
        derivation,
        tableau,
        joined,
        cuts: _,
        bounds: _,
    } = guide;
    drop(tableau);
    drop(joined);
    match turn {
        Some(Turn::Found(found)) => proposed_by(derivation, alloc, found),
        Some(_) => {
            drop(derivation);
            Some(Ended::GivenUp)
        }
        None => {
            drop(derivation);
            None
        }
    }
}

// The guide of given rows, none of which has joined.
fn guide_of<N: Number>(
    derivation: Derivation<'_>,
    alloc: Global,
    ints: u32,
) -> Option<Guide<'_, N>> {
    let Some(tableau) = start(alloc, ints as usize) else {
        drop(derivation);
        return None;
    };
    let Ok(joined) = vec![in alloc; false; derivation.rows.given_len()] else {
        drop(derivation);
        drop(tableau);
        return None;
    };
    Some(Guide {
        derivation,
        tableau,
        joined,
        cuts: 0,
        bounds: 0,
    })
}

// What is proposed of given rows that are no contradiction.
fn propose_by<N: Number>(derivation: Derivation<'_>, alloc: Global, ints: u32) -> Option<Ended> {
    let mut guide = guide_of::<N>(derivation, alloc, ints)?;
    let turn = turn_on(&mut guide, alloc);
    conclude(guide, alloc, turn)
}

/// What is proposed, by a tableau whose numbers have one width; nothing where a number has no room, or for want of memory.
pub fn propose_in<N: Number>(alloc: Global, rows: &[Row], ints: u32) -> Option<Ended> {
    let mut derivation = no_rows(alloc, rows)?;
    match take_all(&mut derivation, alloc, rows) {
        Some(false) => propose_by::<N>(derivation, alloc, ints),
        Some(true) => proposed_by(derivation, alloc, Found::Refuted),
        None => {
            drop(derivation);
            None
        }
    }
}

// The same without the equations, then by a tableau of 128 bits.
fn propose_wide(alloc: Global, rows: &[Row], ints: u32) -> Option<Proposal> {
    if let Some(proposal) = propose_reformed(alloc, rows, ints) {
        return Some(proposal);
    }
    match propose_in::<i128>(alloc, rows, ints)? {
        Ended::Proposed(proposal) => Some(proposal),
        Ended::GivenUp => None,
    }
}

/// Numbers that may satisfy all rows, or a line that may refute them; nothing where a number has no room, where a limit is met, or for
/// want of memory. A tableau of 64 bits is tried first, then the rows without their equations, then a tableau of 128 bits, where one of
/// 64 had no room.
pub fn propose(alloc: Global, rows: &[Row], ints: u32) -> Option<Proposal> {
    match propose_in::<i64>(alloc, rows, ints) {
        Some(Ended::Proposed(proposal)) => Some(proposal),
        Some(Ended::GivenUp) => propose_reformed(alloc, rows, ints),
        None => propose_wide(alloc, rows, ints),
    }
}
