// Gomory's cuts, as steps of a Farkas line.
//
// The equation of a basic name x says d * x = the sum of n * s over the columns, each s the sum of a row's terms, at most its bound b and
// at the vertex equal to it. Take each row with the multiplier n mod d, which isn't negative; so the sum is one of a Farkas line. What is
// added up is the sum of n * s less d times a sum of whole multiples of terms; the first part is d * x, so each coefficient of the result
// is a multiple of d. Its bound is the sum of n * b less a multiple of d; the first part is d * x at the vertex, where x isn't whole, so
// the bound isn't a multiple of d. Nor are all coefficients 0, for the vertex satisfies the sum with equality, and 0 is a multiple of d.
// So tightening, which divides by a multiple of d, rounds the bound down, and the vertex breaks the tightened row. All whole points of
// the rows satisfy it. The multipliers -n mod d give a second cut.
//
// A name that is a column has no row to take. Where n is a multiple of d it needs none, since its coefficient is one then; else the
// equation gives no cut. A cut needs no Split, and is a row like any other: it joins the tableau, and later cuts and refutations are sums
// of it.
use crate::combining::{Derivation, Multiple, combine, is_contradiction, row_at};
use crate::joining::join;
use lin_rows::{Row, same_row};
use simplex::number::at;
use simplex::{Equation, Number, Slack, Tableau, slack_of};
use std::alloc::Global;

/// The most cuts at a time.
const MOST_AT_ONCE: usize = 2;

/// Cuts with greater coefficients aren't taken.
const GREATEST_COEFFICIENT: u128 = 1_099_511_627_776;

/// What looking for cuts gave.
#[derive(Clone, Copy)]
pub enum Cutting {
    /// So many rows joined the tableau.
    Made(usize),
    /// The row with this number is a contradiction.
    Contradiction(u32),
}

// The multiple of the row of a column's slack, where there is one; nothing where a multiple is needed and the column has no row.
fn multiple_at<N: Number>(
    tableau: &Tableau<N>,
    equation: &Equation<N>,
    column: usize,
    sign: i128,
) -> Option<Option<Multiple>> {
    let by = at(equation.numerators.as_slice(), column)
        .wide()
        .checked_mul(sign)?
        .checked_rem_euclid(equation.denominator.wide())?;
    if by == 0 {
        return Some(None);
    }
    let variable = tableau.columns.get(column).copied()?;
    let row = slack_of(tableau, variable)?.row?;
    Some(Some(Multiple { row, by }))
}

// The multiples of a cut.
fn multiples_of<N: Number>(
    tableau: &Tableau<N>,
    alloc: Global,
    equation: &Equation<N>,
    sign: i128,
) -> Option<Vec<Multiple>> {
    let mut multiples = Vec::new(alloc);
    for column in 0..tableau.columns.len() {
        if let Some(multiple) = multiple_at(tableau, equation, column, sign)? {
            multiples.push(multiple).ok()?;
        }
    }
    Some(multiples)
}

// Whether an equation is that of a name whose value isn't whole.
fn is_fractional<N: Number>(tableau: &Tableau<N>, equation: &Equation<N>) -> Option<bool> {
    if equation.basic >= tableau.names || equation.denominator.is_one() {
        return Some(false);
    }
    let denominator = equation.denominator.wide();
    let rest = equation.value.wide().checked_rem_euclid(denominator)?;
    Some(rest != 0)
}

fn is_small(row: &Row) -> bool {
    !row.terms().is_empty()
        && row
            .terms()
            .iter()
            .all(|term| term.coef.unsigned_abs() < GREATEST_COEFFICIENT)
}

// Whether a slack is that of a row.
fn is_slack_of<N: Number>(slack: &Slack<N>, derivation: &Derivation<'_>, row: &Row) -> bool {
    let Some(number) = slack.row else {
        return false;
    };
    match row_at(derivation, number) {
        Some(other) => same_row(other, row),
        None => false,
    }
}

// Whether the tableau has a row already.
fn has_row<N: Number>(tableau: &Tableau<N>, derivation: &Derivation<'_>, row: &Row) -> bool {
    for slack in tableau.slacks.as_slice() {
        if is_slack_of(slack, derivation, row) {
            return true;
        }
    }
    false
}

// Whether a row is to join the tableau.
fn is_wanted<N: Number>(tableau: &Tableau<N>, derivation: &Derivation<'_>, number: u32) -> bool {
    match row_at(derivation, number) {
        Some(row) => is_small(row) && !has_row(tableau, derivation, row),
        None => false,
    }
}

// The number of a cut's row.
fn cut<N: Number>(
    tableau: &Tableau<N>,
    alloc: Global,
    derivation: &mut Derivation<'_>,
    number: usize,
    sign: i128,
) -> Option<u32> {
    let multiples = multiples_of(tableau, alloc, tableau.equations.get(number)?, sign)?;
    let made = combine(derivation, alloc, multiples.as_slice());
    drop(multiples);
    made
}

// The cuts of an equation, of which those that are wanted are listed.
fn cut_both<N: Number>(
    tableau: &Tableau<N>,
    alloc: Global,
    derivation: &mut Derivation<'_>,
    number: usize,
    cuts: &mut Vec<u32>,
) -> Option<Cutting> {
    for sign in [1i128, -1] {
        let Some(made) = cut(tableau, alloc, derivation, number, sign) else {
            continue;
        };
        if is_contradiction(derivation, made) {
            return Some(Cutting::Contradiction(made));
        }
        if is_wanted(tableau, derivation, made) {
            cuts.push(made).ok()?;
        }
    }
    Some(Cutting::Made(cuts.len()))
}

// The cuts of all equations of names, up to a limit.
fn cut_all<N: Number>(
    tableau: &Tableau<N>,
    alloc: Global,
    derivation: &mut Derivation<'_>,
    cuts: &mut Vec<u32>,
) -> Option<Cutting> {
    for number in 0..tableau.equations.len() {
        if cuts.len() >= MOST_AT_ONCE || !is_fractional(tableau, tableau.equations.get(number)?)? {
            continue;
        }
        match cut_both(tableau, alloc, derivation, number, cuts)? {
            Cutting::Made(_) => {}
            Cutting::Contradiction(row) => return Some(Cutting::Contradiction(row)),
        }
    }
    Some(Cutting::Made(cuts.len()))
}

fn join_all<N: Number>(
    tableau: &mut Tableau<N>,
    alloc: Global,
    derivation: &Derivation<'_>,
    cuts: &[u32],
) -> Option<()> {
    for number in cuts {
        join(tableau, alloc, derivation, *number)?;
    }
    Some(())
}

/// Makes cuts of a vertex that isn't whole, and joins them to the tableau.
pub fn add_cuts<N: Number>(
    tableau: &mut Tableau<N>,
    alloc: Global,
    derivation: &mut Derivation<'_>,
) -> Option<Cutting> {
    let mut cuts = Vec::new(alloc);
    let cutting = cut_all(tableau, alloc, derivation, &mut cuts);
    let joined = join_all(tableau, alloc, derivation, cuts.as_slice());
    drop(cuts);
    joined?;
    cutting
}
