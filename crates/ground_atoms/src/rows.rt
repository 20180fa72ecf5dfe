// Comparisons of sums, as rows over integer names.
ghost use Rattle.std.specs.Prelude.{◌≡◌, true, ◌+ℤ◌, ◌-ℤ◌, IfOk, OnOk};
ghost use Rattle.lin_rows.specs.{Numbers.{in_range}, Rows.{all_in_range}};
ghost use Rattle.ground_problem.specs.Symbols.{at_most};
ghost use Rattle.ground_numbers.specs.Numbers.{plain_of, bound_of, added_up, signed};
ghost use Rattle.ground_atoms.specs.Making.{make, make_row, make_terms, make_at_most_name};
ghost use Rattle.ground_atoms.specs.{Symbols.{parts_of}, Formulas.{form_of}, Staying.{NumbersStay}};

use crate::atom::Atom;
use crate::atoms::Atoms;
use crate::formula::GroundFormula;
use crate::keyed_row::KeyedRow;
use crate::part::SumPart;
use lin_rows::number::minus;
use lin_rows::{Row, RowTerm, plus, row_of};
use std::alloc::{AllocError, Global};

#[tactic(auto, using(crate::proofs::Staying::stay, crate::proofs::Staying::stay_then))]
/// Says that one sum is at most another one and a number, over numbers of integer names.
pub fn at_most(
    atoms: &mut Atoms,
    alloc: Global,
    left: &[SumPart],
    right: &[SumPart],
    more: i64,
) -> Result<GroundFormula, AllocError>
    ensures made { IfOk result
        (λ f. make atoms.old (at_most (parts_of left.now) (parts_of right.now) more)
        ≡ record { known = atoms.new; form = form_of f }) }
    ensures stay { NumbersStay atoms.old atoms.new }
{
    let bound = bound_of(left, right, more)?;
    let mut terms = Vec::with_capacity(alloc, left.len().saturating_add(right.len()))?;
    add_terms(atoms, alloc, true, left, &mut terms)?;
    add_terms(atoms, alloc, false, right, &mut terms)?;
    let row = summed(alloc, &terms, bound)?;
    row_formula(atoms, row)
}

/// Says that one integer name is at most another one, by their numbers.
pub fn at_most_name(
    atoms: &mut Atoms,
    alloc: Global,
    first: u32,
    second: u32,
) -> Result<GroundFormula, AllocError>
    ensures made { IfOk result (λ f. make_at_most_name atoms.old first second ≡ record {
      known = atoms.new;
      form = form_of f;
    }) }
    ensures stay { NumbersStay atoms.old atoms.new }
{
    let terms = [term_of(true, first, 1), term_of(false, second, 1)];
    let row = summed(alloc, &terms, 0)?;
    row_formula(atoms, row)
}

// A row as a literal, or as a truth value where it has no terms.
fn row_formula(atoms: &mut Atoms, row: Row) -> Result<GroundFormula, AllocError>
    ensures made { IfOk result (λ f. make_row atoms.old row.terms row ≡ record {
      known = atoms.new;
      form = form_of f;
    }) }
    ensures stay { NumbersStay atoms.old atoms.new }
{
    if row.terms().is_empty() {
        let holds = row.bound() >= 0;
        return Ok(GroundFormula::Truth(holds));
    }
    let number = atoms.number_of(Atom::Row(KeyedRow::new(row)))?;
    Ok(GroundFormula::Lit(number, true))
}

#[tactic(auto, using(crate::proofs::Staying::stay, crate::proofs::Staying::stay_then))]
// Appends the multiples of a sum, or their opposites.
fn add_terms(
    atoms: &mut Atoms,
    alloc: Global,
    positive: bool,
    parts: &[SumPart],
    terms: &mut Vec<RowTerm>,
) -> Result<(), AllocError>
    ensures made { OnOk result
        (make_terms positive atoms.old terms.old.items (parts_of parts.now)
        ≡ record { known = atoms.new; terms = terms.new.items }) }
    ensures range { OnOk result (all_in_range terms.old.items ≡ true
        → all_in_range terms.new.items ≡ true) }
    ensures stay { NumbersStay atoms.old atoms.new }
{
    match parts {
        [] => Ok(()),
        [SumPart::Multiple(coef, name), rest @ ..] => {
            let place = atoms.int_of(name.copy(alloc)?)?;
            terms.push(term_of(positive, place, *coef))?;
            add_terms(atoms, alloc, positive, rest, terms)
        }
        [_, rest @ ..] => add_terms(atoms, alloc, positive, rest, terms),
    }
}

// The sum of terms as a row.
fn summed(alloc: Global, terms: &[RowTerm], bound: i128) -> Result<Row, AllocError>
    requires coefficients { all_in_range terms.now ≡ true }
    requires bound { in_range bound ≡ true }
    ensures { IfOk result (λ row. row ≡ record { terms = added_up terms.now; bound = bound }) }
{
    match row_of(alloc, terms, bound) {
        Ok(row) => Ok(row),
        Err(_) => Err(AllocError),
    }
}

fn term_of(positive: bool, place: u32, coef: i64) -> RowTerm
    ensures term { result ≡ record { place = place; coef = signed positive coef } }
    ensures range { in_range result.coef ≡ true }
{
    let wide = coef as i128;
    let coef = if positive { wide } else { -wide };
    RowTerm { place, coef }
}

// The number that a sum is at most, once the multiples of the other sum are taken from it.
fn bound_of(left: &[SumPart], right: &[SumPart], more: i64) -> Result<i128, AllocError>
    ensures bound { IfOk result (λ b. b ≡ bound_of (parts_of left.now) (parts_of right.now) more) }
    ensures range { IfOk result (λ b. in_range b ≡ true) }
{
    let added = sum_of(&(more as i128), &plain_of(right)?)?;
    difference_of(&added, &plain_of(left)?)
}

fn sum_of(a: &i128, b: &i128) -> Result<i128, AllocError>
    ensures sum { IfOk result (λ n. n ≡ a.now +ℤ b.now) }
    ensures range { IfOk result (λ n. in_range n ≡ true) }
{
    plus(a, b).ok_or(AllocError)
}

fn difference_of(a: &i128, b: &i128) -> Result<i128, AllocError>
    requires { in_range b.now ≡ true }
    ensures difference { IfOk result (λ n. n ≡ a.now -ℤ b.now) }
    ensures range { IfOk result (λ n. in_range n ≡ true) }
{
    sum_of(a, &minus(b))
}

// The sum of the numbers of a sum.
fn plain_of(parts: &[SumPart]) -> Result<i128, AllocError>
    ensures sum { IfOk result (λ n. n ≡ plain_of (parts_of parts.now)) }
    ensures range { IfOk result (λ n. in_range n ≡ true) }
{
    let mut sum = 0;
    for part in parts {
        if let SumPart::Number(n) = part {
            sum = sum_of(&sum, n)?;
        }
    }
    Ok(sum)
}
