// The tableau of the simplex method: each basic variable in terms of those that aren't basic.
use crate::number::{Number, add_multiples, at, put, reduce, scale};
use lin_rows::RowTerm;
use std::alloc::Global;

/// The basic variable is the sum of the numerators times the variables of the columns, divided by the denominator, which is positive.
/// The value is what that sum is now.
#[derive(Drop)]
pub struct Equation<N> {
    pub basic: usize,
    pub denominator: N,
    pub value: N,
    pub numerators: Vec<N>,
}

/// The sum of a row's terms as a variable. It is at most the row's bound.
#[derive(Clone, Copy)]
pub struct Slack<N> {
    pub bound: N,
    /// The number of the held row, where it is one; a bound of our own is none.
    pub row: Option<u32>,
}

/// The variables are the names, from 0 on, which are free, and after them the slacks. A slack that isn't basic is at its bound, and a
/// name that isn't basic is 0, so their values are whole.
#[derive(Drop)]
pub struct Tableau<N> {
    pub names: usize,
    pub equations: Vec<Equation<N>>,
    /// The variable of each column.
    pub columns: Vec<usize>,
    /// The value of the variable of each column.
    pub values: Vec<N>,
    /// The equation of each name that is basic.
    pub equation_of: Vec<Option<usize>>,
    pub slacks: Vec<Slack<N>>,
    /// The columns that the equation names that is used in others.
    pub named: Vec<usize>,
    /// How many pivots may follow, and how many numbers they may look at.
    pub pivots: u32,
    pub work: usize,
}

/// The most pivots, and the most numbers that they look at.
const PIVOT_LIMIT: u32 = 2_000;

const WORK_LIMIT: usize = 1_000_000;

// The numbers below a limit.
fn counted(alloc: Global, limit: usize) -> Option<Vec<usize>> {
    let mut numbers = Vec::with_capacity(alloc, limit).ok()?;
    for number in 0..limit {
        numbers.push(number).ok()?;
    }
    Some(numbers)
}

/// The tableau of no rows, where all names are 0.
pub fn start<N: Number>(alloc: Global, names: usize) -> Option<Tableau<N>> {
    let columns = counted(alloc, names)?;
    let values = vec![in alloc; N::zero(); names].ok()?;
    let equation_of = vec![in alloc; None; names].ok()?;
    Some(Tableau {
        names,
        equations: Vec::new(alloc),
        columns,
        values,
        equation_of,
        slacks: Vec::new(alloc),
        named: Vec::new(alloc),
        pivots: PIVOT_LIMIT,
        work: WORK_LIMIT,
    })
}

/// The slack that a variable is.
pub fn slack_of<N: Number>(tableau: &Tableau<N>, variable: usize) -> Option<Slack<N>> {
    if variable < tableau.names {
        return None;
    }
    tableau.slacks.get(variable - tableau.names).copied()
}

/// Lists the columns that an equation names.
pub fn list_named<N: Number>(named: &mut Vec<usize>, numerators: &[N]) -> Option<()> {
    named.clear();
    for (column, numerator) in numerators.iter().enumerate() {
        if !numerator.is_zero() {
            named.push(column).ok()?;
        }
    }
    Some(())
}

/// Divides an equation by what divides all its numbers.
pub fn reduce_equation<N: Number>(equation: &mut Equation<N>) -> Option<()> {
    let common = reduce(equation.numerators.as_mut_slice(), equation.denominator)?;
    if !common.is_one() {
        equation.denominator = equation.denominator.over(common)?;
        equation.value = equation.value.over(common)?;
    }
    Some(())
}

/// Multiplies all numbers of an equation.
pub fn expand<N: Number>(equation: &mut Equation<N>, by: N) -> Option<()> {
    if !by.is_one() {
        scale(equation.numerators.as_mut_slice(), by)?;
        equation.denominator = equation.denominator.times(by)?;
        equation.value = equation.value.times(by)?;
    }
    Some(())
}

/// Adds a multiple of the numerators of another equation, in the columns that it names, and of its value.
pub fn add_numerators<N: Number>(
    into: &mut Equation<N>,
    of: &Equation<N>,
    named: &[usize],
    by: N,
) -> Option<()> {
    add_multiples(
        into.numerators.as_mut_slice(),
        of.numerators.as_slice(),
        named,
        by,
    )?;
    into.value = into.value.plus(of.value.times(by)?)?;
    Some(())
}

// Adds the multiple of an equation's basic variable.
fn add_equation<N: Number>(
    into: &mut Equation<N>,
    of: &Equation<N>,
    named: &mut Vec<usize>,
    coefficient: N,
) -> Option<()> {
    let common = into.denominator.divisor(of.denominator);
    let first = of.denominator.over(common)?;
    let second = into.denominator.over(common)?.times(coefficient)?;
    list_named(named, of.numerators.as_slice())?;
    expand(into, first)?;
    add_numerators(into, of, named.as_slice(), second)?;
    reduce_equation(into)
}

// Adds a term, in terms of the columns. A name that isn't basic is the variable of the column of its own number, and is 0.
fn add_term<N: Number>(
    into: &mut Equation<N>,
    tableau: &mut Tableau<N>,
    term: &RowTerm,
) -> Option<()> {
    let name = term.place as usize;
    let coefficient = N::of(term.coef)?;
    match tableau.equation_of.get(name).copied()? {
        Some(number) => {
            let of = tableau.equations.get(number)?;
            add_equation(into, of, &mut tableau.named, coefficient)
        }
        None => {
            let more = coefficient.times(into.denominator)?;
            let sum = at(into.numerators.as_slice(), name).plus(more)?;
            put(into.numerators.as_mut_slice(), name, sum);
            Some(())
        }
    }
}

fn add_terms<N: Number>(
    into: &mut Equation<N>,
    tableau: &mut Tableau<N>,
    terms: &[RowTerm],
) -> Option<()> {
    for term in terms {
        add_term(into, tableau, term)?;
    }
    reduce_equation(into)
}

// The equation of a new slack, with no terms yet.
fn no_terms<N: Number>(alloc: Global, tableau: &Tableau<N>) -> Option<Equation<N>> {
    let numerators = vec![in alloc; N::zero(); tableau.columns.len()].ok()?;
    Some(Equation {
        basic: tableau.names.saturating_add(tableau.slacks.len()),
        denominator: N::one(),
        value: N::zero(),
        numerators,
    })
}

fn push<N: Number>(tableau: &mut Tableau<N>, equation: Equation<N>, slack: Slack<N>) -> Option<()> {
    tableau.slacks.push(slack).ok()?;
    tableau.equations.push(equation).ok()
}

/// Adds a row: the sum of its terms becomes a basic slack.
pub fn add_row<N: Number>(
    tableau: &mut Tableau<N>,
    alloc: Global,
    terms: &[RowTerm],
    slack: Slack<N>,
) -> Option<()> {
    let mut equation = no_terms(alloc, tableau)?;
    match add_terms(&mut equation, tableau, terms) {
        Some(()) => push(tableau, equation, slack),
        None => {
            drop(equation);
            None
        }
    }
}
