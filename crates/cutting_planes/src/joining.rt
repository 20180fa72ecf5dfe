// Rows that join the tableau late: only those that a vertex breaks, the worst of them first.
use crate::combining::{Derivation, row_at};
use crate::worst::{Worst, excess_of};
use lin_rows::{Row, RowTerm};
use simplex::number::at;
use simplex::{Number, Slack, Tableau, Vertex, add_row, numerator_at};
use std::alloc::Global;

/// How far names may go.
const FARTHEST: i128 = 1_000_000_000_000_000;

/// The sum of a row's terms.
pub fn sum_at<N: Number>(row: &Row, values: &[N]) -> Option<i128> {
    let mut sum = 0i128;
    for term in row.terms() {
        let more = term.coef.times(at(values, term.place as usize).wide())?;
        sum = sum.checked_add(more)?;
    }
    Some(sum)
}

// The length of a row, rounded down.
fn length(terms: &[RowTerm]) -> u64 {
    let mut sum = 0u128;
    for term in terms {
        let size = term.coef.unsigned_abs();
        sum = sum.saturating_add(size.saturating_mul(size));
    }
    u64::try_from(sum.isqrt()).unwrap_or(u64::MAX)
}

// How far values, over a denominator, are beyond a row, in its own length; 0 where they satisfy it.
fn excess<N: Number>(row: &Row, values: &[N], denominator: N) -> Option<u64> {
    let most = row.bound().times(denominator.wide())?;
    let beyond = sum_at(row, values)?.checked_sub(most)?;
    if beyond <= 0 {
        return Some(0);
    }
    Some(excess_of(beyond, length(row.terms())))
}

// The given rows that values, over a denominator, break, unless they have joined.
fn enter_broken<N: Number>(
    derivation: &Derivation<'_>,
    joined: &[bool],
    values: &[N],
    denominator: N,
    worst: &mut Worst,
) -> Option<()> {
    if derivation.narrow.are_for(values, denominator) {
        return derivation.narrow.broken(joined, values, denominator, worst);
    }
    for number in 0..derivation.rows.given_len() {
        if joined.get(number).copied().unwrap_or(true) {
            continue;
        }
        let row = derivation.rows.get(number)?;
        let excess = excess(row, values, denominator)?;
        if excess > 0 {
            worst.enter(number, excess)?;
        }
    }
    Some(())
}

// The numerators of a vertex over one denominator.
fn over_one_denominator<N: Number>(vertex: &Vertex<N>, alloc: Global) -> Option<Vec<N>> {
    let mut numerators = Vec::with_capacity(alloc, vertex.numerators.len()).ok()?;
    for name in 0..vertex.numerators.len() {
        numerators.push(numerator_at(vertex, name)?).ok()?;
    }
    Some(numerators)
}

// The given rows that a vertex breaks, unless they have joined.
fn enter_broken_at<N: Number>(
    derivation: &Derivation<'_>,
    alloc: Global,
    joined: &[bool],
    vertex: &Vertex<N>,
    worst: &mut Worst,
) -> Option<()> {
    if vertex.common.is_one() {
        let values = vertex.numerators.as_slice();
        return enter_broken(derivation, joined, values, vertex.common, worst);
    }
    let numerators = over_one_denominator(vertex, alloc)?;
    let values = numerators.as_slice();
    let entered = enter_broken(derivation, joined, values, vertex.common, worst);
    drop(numerators);
    entered
}

/// A row of the derivation joins the tableau.
pub fn join<N: Number>(
    tableau: &mut Tableau<N>,
    alloc: Global,
    derivation: &Derivation<'_>,
    number: u32,
) -> Option<()> {
    let row = row_at(derivation, number)?;
    let slack = Slack {
        bound: N::of(row.bound())?,
        row: Some(number),
    };
    add_row(tableau, alloc, row.terms(), slack)
}

// The worst rows join; whether there was one.
fn join_worst<N: Number>(
    tableau: &mut Tableau<N>,
    alloc: Global,
    derivation: &Derivation<'_>,
    joined: &mut [bool],
    worst: &Worst,
) -> Option<bool> {
    let mut any = false;
    for broken in worst.as_slice() {
        let number = broken.number;
        join(tableau, alloc, derivation, u32::try_from(number).ok()?)?;
        any = true;
        if number < joined.len() {
            joined[number] = true;
        }
    }
    Some(any)
}

/// The worst of the given rows that a vertex breaks join the tableau; whether there was one.
pub fn join_broken<N: Number>(
    tableau: &mut Tableau<N>,
    alloc: Global,
    derivation: &Derivation<'_>,
    joined: &mut [bool],
    vertex: &Vertex<N>,
) -> Option<bool> {
    let mut worst = Worst::new(alloc)?;
    let any = match enter_broken_at(derivation, alloc, joined, vertex, &mut worst) {
        Some(()) => join_worst(tableau, alloc, derivation, joined, &worst),
        None => None,
    };
    drop(worst);
    any
}

// A name may go no further than a state's numbers, up or down.
fn bound_name<N: Number>(
    tableau: &mut Tableau<N>,
    alloc: Global,
    name: usize,
    coef: i128,
) -> Option<()> {
    let place = u32::try_from(name).ok()?;
    let terms = [RowTerm { place, coef }];
    let slack = Slack {
        bound: N::of(FARTHEST)?,
        row: None,
    };
    add_row(tableau, alloc, &terms, slack)
}

/// Names that a vertex puts beyond a state's numbers get a bound; whether there was one. Such a bound isn't given, so what rests on it
/// is no proposal.
pub fn bound_names<N: Number>(
    tableau: &mut Tableau<N>,
    alloc: Global,
    vertex: &Vertex<N>,
) -> Option<bool> {
    let mut any = false;
    for (name, numerator) in vertex.numerators.as_slice().iter().enumerate() {
        let denominator = at(vertex.denominators.as_slice(), name).wide();
        let farthest = denominator.checked_mul(FARTHEST)?;
        let numerator = numerator.wide();
        if numerator > farthest {
            bound_name(tableau, alloc, name, 1)?;
            any = true;
        } else if numerator < farthest.checked_neg()? {
            bound_name(tableau, alloc, name, -1)?;
            any = true;
        }
    }
    Some(any)
}
