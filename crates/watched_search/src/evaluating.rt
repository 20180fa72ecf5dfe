// Interpretations, tested by evaluation: whatever numbers and values are taken for one, all clauses and all rows say whether it is.
ghost use Rattle.std.specs.Prelude.{◌≡◌, ℕ, ◌<◌, Bool, true, false, length, slice_index_or, IsTrue, IfOk, IfSome};
ghost use Rattle.std.specs.List.{list_all};
ghost use Rattle.lin_rows.specs.Rows.{point_of};
ghost use Rattle.proof_lines.specs.declared.problem.AtomKind.TheVariants.{Plain};
ghost use Rattle.proof_lines.specs.{Clauses.{lit_true, clause_true, all_true}, Problems.{row_true}};
ghost use Rattle.line_rows.specs.Evidence.{in_state};
ghost use Rattle.sat_core.specs.Answers.{IsModelOf};
ghost use Rattle.watched_search.specs.Reduced.{truth_in, HasTruth, HaveTruths};

use items::Items;
use lin_rows::{Row, truth_at};
use proof_lines::{AtomKind, Interpretation, Lit, Problem};
use std::alloc::{AllocError, Global};

/// Whether numbers satisfy a row, where there are numbers for its names and sums in range.
pub fn known_truth(numbers: &[i128], row: &Row) -> Option<bool>
    ensures { IfSome result (λ truth. row_true (point_of numbers.now) row.now ≡ truth) }
{
    let Ok(places) = u32::try_from(numbers.len()) else {
        return None;
    };
    if row.is_within(places) {
        truth_at(row, numbers)
    } else {
        None
    }
}

fn is_in_state(number: &i128) -> bool
    ensures { result ≡ in_state number.now }
{
    number.unsigned_abs() <= 1_000_000_000_000_000
}

fn are_in_state(numbers: &[i128]) -> bool
    ensures { result ≡ list_all in_state numbers.now }
{
    numbers.iter().all(|number| is_in_state(number))
}

// Whether an atom that stands for a row has the row's truth.
fn has_truth(atom: &AtomKind, numbers: &[i128], value: bool) -> bool
    ensures { IsTrue result → HasTruth atom.now numbers.now value }
{
    match atom {
        AtomKind::Plain => true,
        AtomKind::Row(row) => match known_truth(numbers, row) {
            Some(truth) => truth == value,
            None => false,
        },
    }
}

fn truth_at_place(truths: &[bool], place: usize) -> bool
    ensures { result ≡ truth_in truths.now place }
{
    match truths.get(place) {
        Some(truth) => *truth,
        None => false,
    }
}

fn atom_at(atoms: &[AtomKind], place: usize) -> &AtomKind
    requires { place < length atoms.now }
    ensures { result.now ≡ slice_index_or atoms.now place Plain }
{
    &atoms[place]
}

fn have_truths(atoms: &[AtomKind], numbers: &[i128], truths: &[bool]) -> bool
    ensures { IsTrue result → HaveTruths (length atoms.now) atoms.now numbers.now truths.now }
{
    for place in 0..atoms.len() {
        let atom = atom_at(atoms, place);
        if !has_truth(atom, numbers, truth_at_place(truths, place)) {
            return false;
        }
    }
    true
}

fn is_true(truths: &[bool], lit: Lit) -> bool
    ensures { result ≡ lit_true (truth_in truths.now) lit }
{
    truth_at_place(truths, lit.atom as usize) == lit.positive
}

fn is_clause_true(truths: &[bool], lits: &[Lit]) -> bool
    ensures { result ≡ clause_true (truth_in truths.now) lits.now }
{
    lits.iter().any(|lit| is_true(truths, *lit))
}

fn are_true(truths: &[bool], problem: &Problem) -> bool
    ensures { result ≡ all_true (truth_in truths.now) problem.now.clauses }
{
    problem
        .clauses
        .iter()
        .all(|clause| is_clause_true(truths, clause.lits()))
}

fn atoms_of(problem: &Problem) -> &[AtomKind]
    ensures { result.now ≡ problem.now.atoms }
{
    problem.atoms.as_slice()
}

// Whether there are as many as the problem has atoms and integer names.
fn are_enough(problem: &Problem, truths: &[bool], numbers: &[i128]) -> bool
    ensures atoms { IsTrue result → length truths.now ≡ length problem.now.atoms }
    ensures ints { IsTrue result → length numbers.now ≡ problem.now.ints }
{
    truths.len() == problem.atoms.len() && numbers.len() == problem.ints as usize
}

// Whether truths and numbers are an interpretation that makes all clauses true.
fn is_model(problem: &Problem, truths: &[bool], numbers: &[i128]) -> bool
    ensures { IsTrue result → IsModelOf problem.now
        (record { truths = truths.now; ints = numbers.now }) }
{
    if !are_enough(problem, truths, numbers) {
        return false;
    }
    if !are_in_state(numbers) {
        return false;
    }
    let atoms = atoms_of(problem);
    if !have_truths(atoms, numbers, truths) {
        return false;
    }
    are_true(truths, problem)
}

fn truth_of(atom: &AtomKind, numbers: &[i128], value: bool) -> bool {
    match atom {
        AtomKind::Plain => value,
        AtomKind::Row(row) => match known_truth(numbers, row) {
            Some(truth) => truth,
            None => value,
        },
    }
}

// The given values of the plain atoms, and the truths of the rows.
fn truths_by(
    alloc: Global,
    atoms: &[AtomKind],
    values: &[bool],
    numbers: &[i128],
) -> Result<Items<bool>, AllocError> {
    let mut truths = Items::new(alloc);
    for (place, atom) in atoms.iter().enumerate() {
        truths.push(truth_of(atom, numbers, truth_at_place(values, place)))?;
    }
    Ok(truths)
}

/// The interpretation that has these values of the plain atoms and these numbers, where it makes all clauses true.
pub fn evaluated(
    alloc: Global,
    problem: &Problem,
    values: &[bool],
    numbers: Items<i128>,
) -> Result<Option<Interpretation>, AllocError>
    ensures { IfOk result (λ found. IfSome found (λ i. IsModelOf problem.now i)) }
{
    let truths =
        or_drop!(truths_by(alloc, problem.atoms.as_slice(), values, numbers.as_slice()); numbers);
    if is_model(problem, truths.as_slice(), numbers.as_slice()) {
        return Ok(Some(Interpretation {
            truths,
            ints: numbers,
        }));
    }
    drop(truths);
    drop(numbers);
    Ok(None)
}
