// A search through faces: complete for few names between bounds, and without a split.
//
// Where cuts alone come to no end, names are given values one after the other, each the greatest that is possible: a face, at which a row
// says that the name is at most a number, and an assumption says that it is at least that. Where a face has no points, multiples of rows and
// of assumptions contradict each other. The rows among them add up to one that says of the name that was assumed last, and of those before
// it, that their sum in those multiples is less than at the face. With some more multiples of the rows of the earlier faces, the
// coefficients have the multiple of the last name as their divisor; so tightening rounds, and the row says that at the earlier faces the
// last name is less by one than it was assumed. It rests on no assumption. So a tree of cases comes out as a line of sums, each rounded,
// and at its end no face is left. A face that has whole points gives them.
//
// The greatest value is found by assumptions too: that a name is at least a number above its value at a vertex. If that is impossible,
// the same sum is the row that says so.
//
// The search gives up after so many vertices.
use crate::combining::{Derivation, Multiple, combine, no_rows, row_at};
use crate::guide::{Found, Proposal, proposal_of, take_all, try_all};
use crate::joining::{join, join_broken};
use lin_rows::{Row, RowTerm};
use simplex::number::{at, put};
use simplex::{Pivoted, Slack, Tableau, Vertex, add_row, slack_of, solve, start, vertex_of};
use std::alloc::Global;

/// The most names and rows of a search.
const NAME_LIMIT: u32 = 16;

const ROW_LIMIT: usize = 120;

/// The most vertices.
const VERTEX_LIMIT: u32 = 100;

/// The most turns in which rows join for one vertex.
const TURN_LIMIT: u32 = 100;

/// So many numbers are looked at in pivots of all vertices.
const WORK_LIMIT: usize = 2_000_000;

/// How far an assumption goes at most beyond the value that a vertex has.
const FARTHEST_STEP: i128 = 1_000_000;

/// An assumption: that a name is at least a number.
#[derive(Clone, Copy)]
struct Level {
    name: u32,
    least: i128,
    /// The row that says that at the faces before it it is at most that, where there is one.
    row: Option<u32>,
    /// How far the next assumption goes, where there is none.
    step: i128,
}

/// A row that was made, and how many assumptions it was made for.
#[derive(Clone, Copy)]
struct Made {
    row: u32,
    depth: usize,
}

#[derive(Drop)]
struct Faces<'r> {
    derivation: Derivation<'r>,
    names: u32,
    levels: Vec<Level>,
    made: Vec<Made>,
    /// How many numbers may still be looked at.
    work: usize,
}

/// Multiples of rows and of assumptions that contradict each other.
#[derive(Drop)]
struct Clash {
    rows: Vec<Multiple>,
    levels: Vec<i128>,
}

/// What a face has.
#[derive(Drop)]
enum Visited {
    Numbers(Vec<i128>),
    /// A vertex, of which the whole part of one value is wanted.
    Vertex(Vec<i128>),
    Nothing(Clash),
}

/// What follows.
#[derive(Drop)]
enum Next {
    On,
    Found(Found),
}

// Adds the assumptions to a tableau.
fn assume_all(tableau: &mut Tableau<i128>, alloc: Global, levels: &[Level]) -> Option<()> {
    for level in levels {
        let terms = [RowTerm {
            place: level.name,
            coef: -1,
        }];
        let slack = Slack {
            bound: level.least.checked_neg()?,
            row: None,
        };
        add_row(tableau, alloc, &terms, slack)?;
    }
    Some(())
}

fn join_made(tableau: &mut Tableau<i128>, alloc: Global, faces: &Faces<'_>) -> Option<()> {
    for made in faces.made.as_slice() {
        join(tableau, alloc, &faces.derivation, made.row)?;
    }
    Some(())
}

// Adds a variable's multiple to a clash: of an assumption, which are the first slacks, or of a row.
fn add_multiple(
    tableau: &Tableau<i128>,
    clash: &mut Clash,
    variable: usize,
    by: i128,
) -> Option<()> {
    let slack = variable.checked_sub(tableau.names)?;
    if slack < clash.levels.len() {
        put(clash.levels.as_mut_slice(), slack, by);
        return Some(());
    }
    let row = slack_of(tableau, variable)?.row?;
    clash.rows.push(Multiple { row, by }).ok()
}

fn fill_clash(tableau: &Tableau<i128>, clash: &mut Clash, number: usize) -> Option<()> {
    let equation = tableau.equations.get(number)?;
    add_multiple(tableau, clash, equation.basic, equation.denominator)?;
    for (column, variable) in tableau.columns.iter().enumerate() {
        let by = at(equation.numerators.as_slice(), column);
        if by != 0 {
            add_multiple(tableau, clash, *variable, by.checked_neg()?)?;
        }
    }
    Some(())
}

// The multiples by which an equation contradicts itself.
fn clash_of(
    tableau: &Tableau<i128>,
    alloc: Global,
    levels: usize,
    number: usize,
) -> Option<Visited> {
    let levels = vec![in alloc; 0i128; levels].ok()?;
    let mut clash = Clash {
        rows: Vec::new(alloc),
        levels,
    };
    match fill_clash(tableau, &mut clash, number) {
        Some(()) => Some(Visited::Nothing(clash)),
        None => {
            drop(clash);
            None
        }
    }
}

// The whole parts of the values of a vertex.
fn whole_parts(vertex: &Vertex<i128>, alloc: Global) -> Option<Vec<i128>> {
    let mut values = Vec::with_capacity(alloc, vertex.numerators.len()).ok()?;
    for (name, numerator) in vertex.numerators.as_slice().iter().enumerate() {
        let denominator = at(vertex.denominators.as_slice(), name);
        values
            .push(numerator.checked_div_euclid(denominator)?)
            .ok()?;
    }
    Some(values)
}

// What comes of a vertex: nothing yet where further rows join.
fn visit_vertex(
    faces: &Faces<'_>,
    tableau: &mut Tableau<i128>,
    alloc: Global,
    joined: &mut [bool],
    vertex: &Vertex<i128>,
) -> Option<Option<Visited>> {
    if join_broken(tableau, alloc, &faces.derivation, joined, vertex)? {
        return Some(None);
    }
    if let Some(values) = try_all(&faces.derivation, alloc, vertex, 0) {
        return Some(Some(Visited::Numbers(values)));
    }
    Some(Some(Visited::Vertex(whole_parts(vertex, alloc)?)))
}

// One turn at a face.
fn visit_once(
    faces: &Faces<'_>,
    tableau: &mut Tableau<i128>,
    alloc: Global,
    joined: &mut [bool],
) -> Option<Option<Visited>> {
    match solve(tableau, alloc)? {
        Pivoted::Infeasible(number) => {
            Some(Some(clash_of(tableau, alloc, faces.levels.len(), number)?))
        }
        Pivoted::Spent => None,
        Pivoted::Feasible => {
            let vertex = vertex_of(tableau, alloc)?;
            let visited = visit_vertex(faces, tableau, alloc, joined, &vertex);
            drop(vertex);
            visited
        }
    }
}

fn visit_on(
    faces: &Faces<'_>,
    tableau: &mut Tableau<i128>,
    alloc: Global,
    joined: &mut [bool],
) -> Option<Visited> {
    assume_all(tableau, alloc, faces.levels.as_slice())?;
    join_made(tableau, alloc, faces)?;
    for _turn in 0..TURN_LIMIT {
        if let Some(visited) = visit_once(faces, tableau, alloc, joined)? {
            return Some(visited);
        }
    }
    None
}

// Visits the face of the assumptions.
fn visit(faces: &mut Faces<'_>, alloc: Global) -> Option<Visited> {
    let mut joined = vec![in alloc; false; faces.derivation.rows.given_len()].ok()?;
    let Some(mut tableau) = start::<i128>(alloc, faces.names as usize) else {
        drop(joined);
        return None;
    };
    tableau.work = faces.work;
    let visited = visit_on(faces, &mut tableau, alloc, joined.as_mut_slice());
    faces.work = tableau.work;
    drop(tableau);
    drop(joined);
    visited
}

// The last assumption that a clash rests on.
fn last_used(levels: &[i128]) -> Option<usize> {
    let mut found = None;
    for (i, by) in levels.iter().enumerate() {
        if *by != 0 {
            found = Some(i);
        }
    }
    found
}

// Adds multiples of the row of an earlier face, so that its name's coefficient is a multiple of a divisor.
fn add_face(faces: &Faces<'_>, clash: &mut Clash, place: usize, divisor: i128) -> Option<()> {
    let lacks = at(clash.levels.as_slice(), place)
        .checked_neg()?
        .checked_rem_euclid(divisor)?;
    if lacks == 0 {
        return Some(());
    }
    let row = faces.levels.get(place)?.row?;
    let held = row_at(&faces.derivation, row)?;
    for (i, level) in faces.levels.iter().enumerate() {
        let more = held.coefficient(level.name).checked_mul(lacks)?;
        let sum = at(clash.levels.as_slice(), i).checked_add(more)?;
        put(clash.levels.as_mut_slice(), i, sum);
    }
    clash.rows.push(Multiple { row, by: lacks }).ok()
}

fn add_faces(faces: &Faces<'_>, clash: &mut Clash, last: usize) -> Option<()> {
    let divisor = at(clash.levels.as_slice(), last);
    for i in 0..last {
        let place = last.saturating_sub(i).saturating_sub(1);
        add_face(faces, clash, place, divisor)?;
    }
    Some(())
}

// What a row says that a name is at most, at the faces before it.
fn most_at(faces: &Faces<'_>, row: u32, name: u32, depth: usize) -> Option<i128> {
    let row = row_at(&faces.derivation, row)?;
    if row.coefficient(name) != 1 {
        return None;
    }
    let mut most = row.bound();
    for level in faces.levels.as_slice().get(..depth)? {
        let more = row.coefficient(level.name).checked_mul(level.least)?;
        most = most.checked_sub(more)?;
    }
    Some(most)
}

// Whether the row that was made last was made for more assumptions than so many.
fn is_made_beyond(faces: &Faces<'_>, depth: usize) -> bool {
    match faces.made.last() {
        Some(made) => made.depth > depth,
        None => false,
    }
}

// Forgets the assumptions from a place on, and what was made for them.
fn go_back(faces: &mut Faces<'_>, depth: usize) {
    for _level in depth..faces.levels.len() {
        let _ = faces.levels.pop();
    }
    for _made in 0..faces.made.len() {
        if !is_made_beyond(faces, depth) {
            return;
        }
        let _ = faces.made.pop();
    }
}

// Goes on with a row that says that a name is at most less than was assumed last.
fn lower(faces: &mut Faces<'_>, row: u32, depth: usize) -> Option<Next> {
    let level = faces.levels.get(depth).copied()?;
    let most = most_at(faces, row, level.name, depth)?;
    if most >= level.least {
        return None;
    }
    go_back(faces, depth);
    faces.made.push(Made { row, depth }).ok()?;
    if level.row.is_none() {
        faces
            .levels
            .push(Level {
                name: level.name,
                least: most,
                row: Some(row),
                step: 1,
            })
            .ok()?;
    }
    Some(Next::On)
}

// Makes the row of a clash.
fn follow(faces: &mut Faces<'_>, alloc: Global, clash: &mut Clash) -> Option<Next> {
    let Some(last) = last_used(clash.levels.as_slice()) else {
        combine(&mut faces.derivation, alloc, clash.rows.as_slice())?;
        return Some(Next::Found(Found::Refuted));
    };
    add_faces(faces, clash, last)?;
    let row = combine(&mut faces.derivation, alloc, clash.rows.as_slice())?;
    if row_at(&faces.derivation, row)?.is_contradiction() {
        return Some(Next::Found(Found::Refuted));
    }
    lower(faces, row, last)
}

// The last name of which nothing is assumed.
fn next_name(faces: &Faces<'_>) -> Option<u32> {
    let mut found = None;
    for name in 0..faces.names {
        if !faces.levels.iter().any(|level| level.name == name) {
            found = Some(name);
        }
    }
    found
}

// The last assumption, where no row says how far it goes.
fn open_level(faces: &Faces<'_>) -> Option<Level> {
    let level = faces.levels.last().copied()?;
    if level.row.is_none() {
        return Some(level);
    }
    None
}

// What is assumed of a name at first goes one beyond its value.
fn first_level(name: u32) -> Level {
    Level {
        name,
        least: 0,
        row: None,
        step: 1,
    }
}

// An assumption that goes its step beyond the value at a vertex.
fn further(level: Level, values: &[i128]) -> Option<Level> {
    if level.step > FARTHEST_STEP {
        return None;
    }
    let least = at(values, level.name as usize).checked_add(level.step)?;
    let step = level.step.checked_mul(2)?;
    Some(Level {
        name: level.name,
        least,
        row: None,
        step,
    })
}

// Assumes more of a name than its value at a vertex: of the last one, where no row says how far it goes, else of a further one.
fn assume_more(faces: &mut Faces<'_>, values: &[i128]) -> Option<Next> {
    let last = open_level(faces);
    let level = match last {
        Some(level) => further(level, values)?,
        None => further(first_level(next_name(faces)?), values)?,
    };
    if last.is_some() {
        let _ = faces.levels.pop();
    }
    faces.levels.push(level).ok()?;
    Some(Next::On)
}

// Visits a face, and goes on from what it has.
fn take_step(faces: &mut Faces<'_>, alloc: Global) -> Option<Next> {
    match visit(faces, alloc)? {
        Visited::Numbers(values) => Some(Next::Found(Found::Numbers(values))),
        Visited::Vertex(values) => {
            let next = assume_more(faces, values.as_slice());
            drop(values);
            next
        }
        Visited::Nothing(mut clash) => {
            let next = follow(faces, alloc, &mut clash);
            drop(clash);
            next
        }
    }
}

fn step_on(faces: &mut Faces<'_>, alloc: Global) -> Option<Found> {
    for _vertex in 0..VERTEX_LIMIT {
        if let Next::Found(found) = take_step(faces, alloc)? {
            return Some(found);
        }
    }
    None
}

// The search before its first vertex.
fn faces_of(alloc: Global, rows: &[Row], names: u32) -> Option<Faces<'_>> {
    let mut derivation = no_rows(alloc, rows)?;
    if take_all(&mut derivation, alloc, rows).is_none() {
        drop(derivation);
        return None;
    }
    Some(Faces {
        derivation,
        names,
        levels: Vec::new(alloc),
        made: Vec::new(alloc),
        work: WORK_LIMIT,
    })
}

/// Numbers that may satisfy all rows, or a line that may refute them, by a search through faces.
pub fn search_faces(alloc: Global, rows: &[Row], names: u32) -> Option<Proposal> {
    if names > NAME_LIMIT || rows.len() > ROW_LIMIT {
        return None;
    }
    let mut faces = faces_of(alloc, rows, names)?;
    let found = step_on(&mut faces, alloc);
    let Faces {
        derivation,
        names: _,
        levels,
        made,
        work: _,
    } = faces;
    drop(levels);
    drop(made);
    proposal_of(derivation, alloc, found)
}
