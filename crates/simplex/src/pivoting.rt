// The simplex method: pivots until each slack is at most its bound, or until an equation shows that they can't all be.
//
// A basic slack beyond its bound is to fall. In its equation a column helps that holds a name, which may move either way, or a slack with
// a positive numerator, which may only fall from its bound. Where there is such a column the two variables change places, and the slack
// that was basic is put to its bound. Where there is none, the equation says that the slack is a sum of slacks with negative numerators,
// all of which are at their greatest: the sum can't fall, and so the equation's multipliers refute the rows.
//
// Of the slacks beyond their bounds the one is taken whose equation names the fewest columns, and of the columns that help a name before a
// slack, and the one that the fewest equations name. So a pivot changes few equations, and a refutation rests on few rows. Where
// that takes a thousand pivots, the least variable is taken each time (Bland), so that no tableau comes twice; the limit of pivots
// makes it plain that the method ends.
use crate::number::{Number, at, put, scale};
use crate::tableau::{
    Equation, Tableau, add_numerators, expand, list_named, reduce_equation, slack_of,
};
use std::alloc::Global;
use std::mem;

/// Of the pivots so many are left when the least variable begins to be taken each time.
const BLAND_PIVOTS: u32 = 1_000;

/// How the pivots end.
#[derive(Clone, Copy)]
pub enum Pivoted {
    /// Each slack is at most its bound.
    Feasible,
    /// The equation with this number shows that they can't be.
    Infeasible(usize),
    /// Too many pivots were made, or too many numbers were looked at.
    Spent,
}

// Whether an equation's basic variable is a slack beyond its bound.
fn is_beyond<N: Number>(tableau: &Tableau<N>, equation: &Equation<N>) -> Option<bool> {
    match slack_of(tableau, equation.basic) {
        None => Some(false),
        Some(slack) => {
            let greatest = slack.bound.times(equation.denominator)?;
            Some(equation.value.is_above(greatest))
        }
    }
}

// Whether short equations come first. Later the least variable does.
fn is_early<N: Number>(tableau: &Tableau<N>) -> bool {
    tableau.pivots > BLAND_PIVOTS
}

// How many columns an equation names.
fn count_named<N: Number>(equation: &Equation<N>) -> usize {
    let mut count = 0usize;
    for by in equation.numerators.as_slice() {
        if !by.is_zero() {
            count = count.saturating_add(1);
        }
    }
    count
}

// How many equations name a column, or else that they are at least so many.
fn count_naming<N: Number>(equations: &[Equation<N>], column: usize, enough: usize) -> usize {
    let mut count = 0usize;
    for equation in equations {
        if count >= enough {
            return count;
        }
        if !at(equation.numerators.as_slice(), column).is_zero() {
            count = count.saturating_add(1);
        }
    }
    count
}

// Where an equation stands among those whose basic slack is beyond its bound: the least is taken.
fn rank_of_equation<N: Number>(tableau: &Tableau<N>, equation: &Equation<N>) -> usize {
    if is_early(tableau) {
        count_named(equation)
    } else {
        equation.basic
    }
}

// Where a column with a variable stands among those that help: the least is taken. That it is no less than the least so far is enough.
fn rank_of_column<N: Number>(
    tableau: &Tableau<N>,
    column: usize,
    variable: usize,
    least: usize,
) -> usize {
    if !is_early(tableau) {
        return variable;
    }
    let before = if variable < tableau.names {
        0
    } else {
        tableau.equations.len()
    };
    let enough = least.saturating_sub(before);
    let naming = count_naming(tableau.equations.as_slice(), column, enough);
    before.saturating_add(naming)
}

// The equation of a basic slack beyond its bound; without a number where there is none.
fn leaving<N: Number>(tableau: &Tableau<N>) -> Option<Option<usize>> {
    let mut least = usize::MAX;
    let mut found = None;
    for (number, equation) in tableau.equations.iter().enumerate() {
        if !is_beyond(tableau, equation)? {
            continue;
        }
        let rank = rank_of_equation(tableau, equation);
        if rank < least {
            least = rank;
            found = Some(number);
        }
    }
    Some(found)
}

// Whether a basic slack falls where the variable of a column with this numerator moves as it may.
fn helps<N: Number>(tableau: &Tableau<N>, variable: usize, by: N) -> bool {
    by.is_positive() || (!by.is_zero() && variable < tableau.names)
}

// A column by which an equation's basic slack may fall.
fn entering<N: Number>(tableau: &Tableau<N>, equation: &Equation<N>) -> Option<usize> {
    let mut least = usize::MAX;
    let mut found = None;
    for (column, by) in equation.numerators.iter().enumerate() {
        let variable = tableau.columns.get(column).copied()?;
        if !helps(tableau, variable, *by) {
            continue;
        }
        let rank = rank_of_column(tableau, column, variable, least);
        if rank < least {
            least = rank;
            found = Some(column);
        }
    }
    found
}

// The equation for the variable of a column, which has a value, in place of its basic one, which takes the column and gets its bound.
fn solve_for<N: Number>(
    equation: &mut Equation<N>,
    column: usize,
    value: N,
    bound: N,
) -> Option<()> {
    let by = at(equation.numerators.as_slice(), column);
    let rest = equation.value.plus(by.times(value)?.opposite()?)?;
    let moved = equation.denominator.times(bound)?.plus(rest.opposite()?)?;
    if by.is_positive() {
        scale(equation.numerators.as_mut_slice(), N::one().opposite()?)?;
        put(
            equation.numerators.as_mut_slice(),
            column,
            equation.denominator,
        );
        equation.denominator = by;
        equation.value = moved;
    } else {
        put(
            equation.numerators.as_mut_slice(),
            column,
            equation.denominator.opposite()?,
        );
        equation.denominator = by.opposite()?;
        equation.value = moved.opposite()?;
    }
    reduce_equation(equation)
}

// Puts the variable of a column, which had a value, in terms of the others into an equation.
fn substitute<N: Number>(
    equation: &mut Equation<N>,
    column: usize,
    value: N,
    by: &Equation<N>,
    named: &[usize],
) -> Option<()> {
    let multiple = at(equation.numerators.as_slice(), column);
    let common = multiple.divisor(by.denominator);
    let first = by.denominator.over(common)?;
    let second = multiple.over(common)?;
    put(equation.numerators.as_mut_slice(), column, N::zero());
    equation.value = equation.value.plus(multiple.times(value)?.opposite()?)?;
    expand(equation, first)?;
    add_numerators(equation, by, named, second)?;
    reduce_equation(equation)
}

// The same for all equations that name it; how many there are.
fn substitute_all<N: Number>(
    equations: &mut [Equation<N>],
    column: usize,
    value: N,
    by: &Equation<N>,
    named: &[usize],
) -> Option<usize> {
    let mut count = 1usize;
    for number in 0..equations.len() {
        if !at(equations[number].numerators.as_slice(), column).is_zero() {
            substitute(&mut equations[number], column, value, by, named)?;
            count = count.saturating_add(1);
        }
    }
    Some(count)
}

// Notes that the variable of a column and a basic slack, which is now at its bound, have changed places.
fn exchange<N: Number>(
    tableau: &mut Tableau<N>,
    number: usize,
    column: usize,
    by: &mut Equation<N>,
    bound: N,
) -> Option<()> {
    let name = tableau.columns.get(column).copied()?;
    put(tableau.values.as_mut_slice(), column, bound);
    if column < tableau.columns.len() {
        tableau.columns[column] = by.basic;
    }
    if name < tableau.equation_of.len() {
        tableau.equation_of[name] = Some(number);
    }
    by.basic = name;
    Some(())
}

// Exchanges an equation for another one.
fn exchange_equation<N: Number>(
    equations: &mut [Equation<N>],
    number: usize,
    other: &mut Equation<N>,
) {
    if number < equations.len() {
        mem::swap(&mut equations[number], other);
    }
}

// Counts the numbers of some equations as looked at.
fn count_work<N: Number>(tableau: &mut Tableau<N>, equations: usize) {
    let numbers = equations.saturating_mul(tableau.columns.len());
    tableau.work = tableau.work.saturating_sub(numbers);
}

// Solves an equation, which has been taken out, for the variable of a column, and puts it into all others.
fn turn_equation<N: Number>(
    tableau: &mut Tableau<N>,
    number: usize,
    column: usize,
    by: &mut Equation<N>,
) -> Option<()> {
    let bound = slack_of(tableau, by.basic)?.bound;
    let value = at(tableau.values.as_slice(), column);
    solve_for(by, column, value, bound)?;
    exchange(tableau, number, column, by, bound)?;
    list_named(&mut tableau.named, by.numerators.as_slice())?;
    let count = substitute_all(
        tableau.equations.as_mut_slice(),
        column,
        value,
        by,
        tableau.named.as_slice(),
    )?;
    count_work(tableau, count);
    Some(())
}

// An equation with no numbers.
fn nothing<N: Number>(alloc: Global) -> Equation<N> {
    Equation {
        basic: usize::MAX,
        denominator: N::one(),
        value: N::zero(),
        numerators: Vec::new(alloc),
    }
}

// The basic slack of an equation and the variable of a column change places.
fn pivot<N: Number>(
    tableau: &mut Tableau<N>,
    alloc: Global,
    number: usize,
    column: usize,
) -> Option<()> {
    let mut by = nothing(alloc);
    exchange_equation(tableau.equations.as_mut_slice(), number, &mut by);
    let turned = turn_equation(tableau, number, column, &mut by);
    exchange_equation(tableau.equations.as_mut_slice(), number, &mut by);
    drop(by);
    turned
}

// One pivot, or how they end.
fn turn<N: Number>(tableau: &mut Tableau<N>, alloc: Global) -> Option<Option<Pivoted>> {
    if tableau.work == 0 {
        return Some(Some(Pivoted::Spent));
    }
    let Some(number) = leaving(tableau)? else {
        return Some(Some(Pivoted::Feasible));
    };
    let Some(column) = entering(tableau, tableau.equations.get(number)?) else {
        return Some(Some(Pivoted::Infeasible(number)));
    };
    pivot(tableau, alloc, number, column)?;
    Some(None)
}

/// Pivots until they end; nothing where a number is too large.
pub fn solve<N: Number>(tableau: &mut Tableau<N>, alloc: Global) -> Option<Pivoted> {
    for _pivot in 0..tableau.pivots {
        match turn(tableau, alloc)? {
            Some(pivoted) => return Some(pivoted),
            None => tableau.pivots = tableau.pivots.saturating_sub(1),
        }
    }
    Some(Pivoted::Spent)
}
