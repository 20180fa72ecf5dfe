// The rows without their equations, in the coordinates of a short basis of the lattice that is left.
//
// The equations among the given rows are taken out by `whole_lattice`, which leaves a point and short vectors. A given row says something of
// the multiples of these: a row of the guide's own, with one name for each vector. What the guide proposes of such rows is put back.
// Numbers are multiples of the vectors, added to the point. A refutation is steps over rows of multiples; each such row is what a given
// row and multiples of equations add up to, for along the vectors the equations have the value 0, and along those that are settled
// the multiples are chosen so. It has the same divisor, and tightening rounds both by the same, so the steps stay as they are.
//
// Where the equations alone have no whole numbers, one of them, with such multiples of the others, has coefficients with a divisor that
// its value lacks. Taken once with their upper rows and once with the lower ones, it is rounded twice and contradicts itself.
ghost use Rattle.std.specs.Prelude.{◌≡◌};
ghost use Rattle.lin_rows.specs.Rows.{all_in_range};

use crate::combining::{
    Derivation, Multiple, combine, is_contradiction, no_rows, push_step, row_at,
};
use crate::faces::search_faces;
use crate::guide::{Ended, Found, Proposal, proposal_of, propose_in, take_all};
use crate::pairs::Pair;
use crate::system::{System, lattice_of, middle_of, system_of, write_coefs};
use lin_rows::number::is_in_range;
use lin_rows::{Row, RowTerm, row_of};
use proof_lines::RowStep;
use simplex::number::{at, put};
use std::alloc::Global;
use whole_lattice::{Lattice, Multiples, Taken, dot, multiples_for};

/// A system, and the lattice of the points that satisfy its equations.
#[derive(Drop)]
struct Reformed {
    system: System,
    lattice: Lattice,
    /// Room for the coefficients of a row.
    coefs: Vec<i128>,
}

/// What came of taking the equations out.
#[derive(Clone, Copy)]
enum Equations {
    Out,
    /// The equation with this number has no whole numbers.
    Impossible(usize),
}

// Takes an equation, where it has been left so far.
fn take_equation(
    reformed: &mut Reformed,
    is_left: bool,
    number: usize,
    simple: bool,
) -> Option<Taken> {
    if !is_left {
        return Some(Taken::Holds);
    }
    let coefs = reformed.system.equations.get(number);
    let value = at(reformed.system.values.as_slice(), number);
    reformed.lattice.take(number, coefs, value, simple)
}

// Takes the equations that have been left so far, those alone that are simple where it is said so.
fn take_equations(reformed: &mut Reformed, left: &mut [bool], simple: bool) -> Option<Equations> {
    for number in 0..left.len() {
        match take_equation(reformed, left[number], number, simple)? {
            Taken::Holds => left[number] = false,
            Taken::Nowhere => return Some(Equations::Impossible(number)),
            Taken::Later => {}
        }
    }
    Some(Equations::Out)
}

fn take_out(reformed: &mut Reformed, left: &mut [bool]) -> Option<Equations> {
    match take_equations(reformed, left, true)? {
        Equations::Out => take_equations(reformed, left, false),
        impossible => Some(impossible),
    }
}

// Adds a multiple of an equation: of its upper row, or of its lower one where it is below 0.
fn push_multiple(pair: Pair, by: i128, list: &mut Vec<Multiple>) -> Option<()> {
    if by == 0 {
        return Some(());
    }
    let multiple = if by > 0 {
        Multiple {
            row: pair.upper,
            by,
        }
    } else {
        Multiple {
            row: pair.lower,
            by: by.checked_neg()?,
        }
    };
    list.push(multiple).ok()
}

// Adds the multiples of the equations, as upper rows or as lower ones.
fn push_multiples(
    system: &System,
    lattice: &Lattice,
    multiples: &Multiples,
    sign: i128,
    list: &mut Vec<Multiple>,
) -> Option<()> {
    for (i, by) in multiples.by.iter().enumerate() {
        let pair = system.pairs.get(lattice.numbers.get(i).copied()?).copied()?;
        push_multiple(pair, by.checked_mul(sign)?, list)?;
    }
    Some(())
}

// Lists the multiples of a row and of equations.
fn list_multiples(
    reformed: &Reformed,
    row: u32,
    multiples: &Multiples,
    sign: i128,
    list: &mut Vec<Multiple>,
) -> Option<()> {
    list.push(Multiple {
        row,
        by: multiples.common,
    })
    .ok()?;
    push_multiples(&reformed.system, &reformed.lattice, multiples, sign, list)
}

// The number of the row that a row and multiples of equations add up to.
fn add_up(
    reformed: &Reformed,
    derivation: &mut Derivation<'_>,
    alloc: Global,
    row: u32,
    multiples: &Multiples,
    sign: i128,
) -> Option<u32> {
    let mut list = Vec::new(alloc);
    let made = match list_multiples(reformed, row, multiples, sign, &mut list) {
        Some(()) => combine(derivation, alloc, list.as_slice()),
        None => None,
    };
    drop(list);
    made
}

// Adds the steps by which the two rows of an equation, each with multiples of others, contradict each other.
fn refute_pair(
    reformed: &Reformed,
    derivation: &mut Derivation<'_>,
    alloc: Global,
    pair: Pair,
    multiples: &Multiples,
) -> Option<()> {
    let upper = add_up(reformed, derivation, alloc, pair.upper, multiples, 1)?;
    if is_contradiction(derivation, upper) {
        return Some(());
    }
    let lower = add_up(reformed, derivation, alloc, pair.lower, multiples, -1)?;
    if is_contradiction(derivation, lower) {
        return Some(());
    }
    push_step(
        derivation,
        alloc,
        RowStep {
            left: upper,
            first: 1,
            right: lower,
            second: 1,
        },
    )?;
    Some(())
}

// Adds the steps by which an equation without whole numbers contradicts itself.
fn refute_equation(
    reformed: &Reformed,
    derivation: &mut Derivation<'_>,
    alloc: Global,
    number: usize,
) -> Option<()> {
    let system = &reformed.system;
    let coefs = system.equations.get(number);
    let pair = system.pairs.get(number).copied()?;
    let multiples = multiples_for(alloc, &reformed.lattice, &system.equations, coefs)?;
    let refuted = refute_pair(reformed, derivation, alloc, pair, &multiples);
    drop(multiples);
    refuted
}

// The term of a row over the multiples of a vector, added to what is there unless it is 0.
fn push_term(
    lattice: &Lattice,
    coefs: &[i128],
    number: usize,
    terms: &mut Vec<RowTerm>,
) -> Option<()> {
    let coef = dot(coefs, lattice.vectors.get(number))?;
    if coef == 0 {
        return Some(());
    }
    let place = u32::try_from(number).ok()?;
    terms.push(RowTerm { place, coef }).ok()
}

// The terms of a row over the multiples of the vectors, added to what is there.
fn push_terms(lattice: &Lattice, coefs: &[i128], terms: &mut Vec<RowTerm>) -> Option<()> {
    for number in 0..lattice.free() {
        push_term(lattice, coefs, number, terms)?;
    }
    Some(())
}

// Whether all coefficients of terms may stand in a row.
fn may_stand(terms: &[RowTerm]) -> bool
    ensures { result ≡ all_in_range terms.now }
{
    terms.iter().all(|term| is_in_range(term.coef))
}

fn row_with(alloc: Global, terms: &[RowTerm], bound: i128) -> Option<Row> {
    if !may_stand(terms) || !is_in_range(bound) {
        return None;
    }
    row_of(alloc, terms, bound).ok()
}

// What a given row says of the multiples of the vectors.
fn reformed_row(
    reformed: &mut Reformed,
    derivation: &Derivation<'_>,
    alloc: Global,
    number: u32,
) -> Option<Row> {
    let row = row_at(derivation, number)?;
    write_coefs(&reformed.system, row.terms(), reformed.coefs.as_mut_slice())?;
    let coefs = reformed.coefs.as_slice();
    let bound = row
        .bound()
        .checked_sub(dot(coefs, reformed.lattice.point())?)?;
    let mut terms = Vec::new(alloc);
    let made = match push_terms(&reformed.lattice, coefs, &mut terms) {
        Some(()) => row_with(alloc, terms.as_slice(), bound),
        None => None,
    };
    drop(terms);
    made
}

fn push_reformed(
    reformed: &mut Reformed,
    derivation: &Derivation<'_>,
    alloc: Global,
    rows: &mut Vec<Row>,
) -> Option<()> {
    for i in 0..reformed.system.others.len() {
        let number = reformed.system.others.get(i).copied()?;
        let row = reformed_row(reformed, derivation, alloc, number)?;
        rows.push(row).ok()?;
    }
    Some(())
}

fn reformed_rows(
    reformed: &mut Reformed,
    derivation: &Derivation<'_>,
    alloc: Global,
) -> Option<Vec<Row>> {
    let mut rows = Vec::new(alloc);
    match push_reformed(reformed, derivation, alloc, &mut rows) {
        Some(()) => Some(rows),
        None => {
            drop(rows);
            None
        }
    }
}

// The number of a name, from multiples of the vectors.
fn number_of(lattice: &Lattice, multiples: &[i128], name: usize) -> Option<i128> {
    let mut sum = at(lattice.point(), name);
    for (number, by) in multiples.iter().enumerate() {
        let more = at(lattice.vectors.get(number), name).checked_mul(*by)?;
        sum = sum.checked_add(more)?;
    }
    Some(sum)
}

fn write_numbers(reformed: &Reformed, multiples: &[i128], values: &mut [i128]) -> Option<()> {
    for (name, place) in reformed.system.places.iter().enumerate() {
        let number = number_of(&reformed.lattice, multiples, name)?;
        put(values, *place as usize, number);
    }
    Some(())
}

// The numbers for the names, from multiples of the vectors.
fn numbers_of(
    reformed: &Reformed,
    alloc: Global,
    multiples: &[i128],
    ints: usize,
) -> Option<Vec<i128>> {
    let mut values = vec![in alloc; 0i128; ints].ok()?;
    match write_numbers(reformed, multiples, values.as_mut_slice()) {
        Some(()) => Some(values),
        None => {
            drop(values);
            None
        }
    }
}

// Makes a row on which a refutation rests; its number.
fn make_one(
    reformed: &mut Reformed,
    derivation: &mut Derivation<'_>,
    alloc: Global,
    used: u32,
) -> Option<u32> {
    let number = reformed.system.others.get(used as usize).copied()?;
    let row = row_at(derivation, number)?;
    write_coefs(&reformed.system, row.terms(), reformed.coefs.as_mut_slice())?;
    let multiples = multiples_for(
        alloc,
        &reformed.lattice,
        &reformed.system.equations,
        reformed.coefs.as_slice(),
    )?;
    let made = add_up(reformed, derivation, alloc, number, &multiples, 1);
    drop(multiples);
    made
}

// Makes the rows on which a refutation rests, and lists their numbers.
fn make_used(
    reformed: &mut Reformed,
    derivation: &mut Derivation<'_>,
    alloc: Global,
    used: &[u32],
    numbers: &mut Vec<u32>,
) -> Option<()> {
    for used in used {
        let made = make_one(reformed, derivation, alloc, *used)?;
        numbers.push(made).ok()?;
    }
    Some(())
}

// Repeats a step of a refutation over the rows that were made; the number of its row.
fn repeat_step(
    derivation: &mut Derivation<'_>,
    alloc: Global,
    numbers: &[u32],
    step: &RowStep,
) -> Option<u32> {
    let left = numbers.get(step.left as usize).copied()?;
    let right = numbers.get(step.right as usize).copied()?;
    let made = u32::try_from(derivation.rows.len()).ok()?;
    push_step(
        derivation,
        alloc,
        RowStep {
            left,
            first: step.first,
            right,
            second: step.second,
        },
    )?;
    Some(made)
}

// Repeats the steps of a refutation over the rows that were made.
fn repeat_steps(
    derivation: &mut Derivation<'_>,
    alloc: Global,
    numbers: &mut Vec<u32>,
    steps: &[RowStep],
) -> Option<()> {
    for step in steps {
        let made = repeat_step(derivation, alloc, numbers.as_slice(), step)?;
        numbers.push(made).ok()?;
    }
    Some(())
}

fn put_back(
    reformed: &mut Reformed,
    derivation: &mut Derivation<'_>,
    alloc: Global,
    used: &[u32],
    steps: &[RowStep],
) -> Option<()> {
    let mut numbers = Vec::new(alloc);
    let done = match make_used(reformed, derivation, alloc, used, &mut numbers) {
        Some(()) => repeat_steps(derivation, alloc, &mut numbers, steps),
        None => None,
    };
    drop(numbers);
    done
}

// What a proposal over short vectors says of the names and the given rows.
fn found_by(
    reformed: &mut Reformed,
    derivation: &mut Derivation<'_>,
    alloc: Global,
    ints: usize,
    proposal: Proposal,
) -> Option<Found> {
    match proposal {
        Proposal::Numbers(multiples) => {
            let values = numbers_of(reformed, alloc, multiples.as_slice(), ints);
            drop(multiples);
            Some(Found::Numbers(values?))
        }
        Proposal::Refutation { used, steps } => {
            let done = put_back(
                reformed,
                derivation,
                alloc,
                used.as_slice(),
                steps.as_slice(),
            );
            drop(used);
            drop(steps);
            done?;
            Some(Found::Refuted)
        }
    }
}

// What is proposed of rows over short vectors: by cuts in a tableau of 64 bits, else by the search through faces.
fn propose_short(alloc: Global, rows: &[Row], free: usize) -> Option<Proposal> {
    let ints = u32::try_from(free).ok()?;
    match propose_in::<i64>(alloc, rows, ints) {
        Some(Ended::Proposed(proposal)) => Some(proposal),
        _ => search_faces(alloc, rows, ints),
    }
}

// Moves the point to the middle of the slabs.
fn approach_middle(
    reformed: &mut Reformed,
    derivation: &Derivation<'_>,
    alloc: Global,
) -> Option<()> {
    let middle = middle_of(&reformed.system, derivation, alloc)?;
    let done = reformed.lattice.approach(middle.as_slice());
    drop(middle);
    done
}

// Moves the point to the middle and asks the guide about what is left.
fn settle(
    reformed: &mut Reformed,
    derivation: &mut Derivation<'_>,
    alloc: Global,
    ints: usize,
) -> Option<Found> {
    reformed.lattice.reduce()?;
    approach_middle(reformed, derivation, alloc)?;
    let rows = reformed_rows(reformed, derivation, alloc)?;
    let proposal = propose_short(alloc, rows.as_slice(), reformed.lattice.free());
    drop(rows);
    found_by(reformed, derivation, alloc, ints, proposal?)
}

fn reform(derivation: &Derivation<'_>, alloc: Global, ints: usize) -> Option<Reformed> {
    let system = system_of(derivation, alloc, ints)?;
    let Some(lattice) = lattice_of(&system, derivation, alloc) else {
        drop(system);
        return None;
    };
    let Ok(coefs) = vec![in alloc; 0i128; system.places.len()] else {
        drop(system);
        drop(lattice);
        return None;
    };
    Some(Reformed {
        system,
        lattice,
        coefs,
    })
}

// Takes the equations out, and asks about what is left.
fn answer(
    reformed: &mut Reformed,
    derivation: &mut Derivation<'_>,
    alloc: Global,
    ints: usize,
) -> Option<Found> {
    let mut left = vec![in alloc; true; reformed.system.pairs.len()].ok()?;
    let equations = take_out(reformed, left.as_mut_slice());
    drop(left);
    match equations? {
        Equations::Out => settle(reformed, derivation, alloc, ints),
        Equations::Impossible(number) => {
            refute_equation(reformed, derivation, alloc, number)?;
            Some(Found::Refuted)
        }
    }
}

fn find_reformed(
    derivation: &mut Derivation<'_>,
    alloc: Global,
    rows: &[Row],
    ints: usize,
) -> Option<Found> {
    take_all(derivation, alloc, rows)?;
    let mut reformed = reform(derivation, alloc, ints)?;
    let found = answer(&mut reformed, derivation, alloc, ints);
    drop(reformed);
    found
}

/// What the guide proposes of the rows without their equations, in terms of the rows.
pub fn propose_reformed(alloc: Global, rows: &[Row], ints: u32) -> Option<Proposal> {
    let mut derivation = no_rows(alloc, rows)?;
    let found = find_reformed(&mut derivation, alloc, rows, ints as usize);
    proposal_of(derivation, alloc, found)
}
