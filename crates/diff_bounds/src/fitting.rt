// Which problems fit the solver: the rows of their atoms and the negations of these are difference rows with near bounds. No row is
// made for the test.
ghost use Rattle.std.specs.Prelude.{◌≡◌, true, ℤ, pos, ◌+ℤ◌, ◌≢◌, unsigned_abs, List, map, Some};
ghost use Rattle.std.specs.{List.{list_all}, Int.{int_div_euclid}, Ordering.{int_eq}};
ghost use Rattle.lin_rows.specs.{Numbers.{in_range}, Rows.{Row as RowForm, rises_from, negated}};
ghost use Rattle.proof_lines.specs.{declared.clause.Lit.{Lit as LitForm}, Problems.{PlainProblem}};
ghost use Rattle.line_rows.specs.{Evidence.{in_state}, Steps.{lit_row}};
ghost use Rattle.diff_bounds.specs.Differences.{is_near, is_taken, are_taken, is_there_taken};
ghost use Rattle.diff_bounds.specs.Differences.{row_fits, atom_fits, problem_fits};
ghost use Rattle.diff_bounds.specs.Fitting.{is_simple};

use lin_rows::number::below_minus;
use lin_rows::{Row, RowTerm};
use proof_lines::{AtomKind, Problem};

/// The greatest size of a number of a state.
const STATE_LIMIT: u128 = 1_000_000_000_000_000;

fn is_in_state(a: &i128) -> bool
    ensures { result ≡ in_state a.now }
{
    a.unsigned_abs() <= STATE_LIMIT
}

// Whether as many such bounds as there are integer names, and one more, don't lead beyond the range of a state.
fn is_near(ints: u32, bound: &i128) -> bool
    ensures { result ≡ is_near ints bound.now }
{
    bound.unsigned_abs() <= STATE_LIMIT / (ints as u128 + 1)
}

// A bound divided by the size of a coefficient and rounded down.
fn divided(bound: &i128, coef: &i128) -> i128
    requires range { in_range coef.now ≡ true }
    requires not_zero { coef.now ≢ pos 0 }
    ensures { result ≡ int_div_euclid bound.now (pos (unsigned_abs coef.now)) }
{
    bound.div_euclid(coef.unsigned_abs() as i128)
}

fn are_opposite(a: &i128, b: &i128) -> bool
    requires { in_range b.now ≡ true }
    ensures { result ≡ int_eq (a.now +ℤ b.now) (pos 0) }
{
    *a == -*b
}

// Whether terms are those of a difference, once divided by the size of a coefficient, with a near bound.
fn is_simple(ints: u32, terms: &[RowTerm], bound: &i128) -> bool
    requires { rises_from 0 terms.now ≡ true }
    ensures { result ≡ is_simple ints terms.now bound.now }
{
    match terms {
        [] => is_near(ints, bound),
        [only] => is_near(ints, &divided(bound, &only.coef)),
        [first, second] => {
            are_opposite(&first.coef, &second.coef) && is_near(ints, &divided(bound, &first.coef))
        }
        _ => false,
    }
}

fn are_in_state(terms: &[RowTerm]) -> bool
    ensures { result ≡ list_all (λ t. in_state t.coef) terms.now }
{
    terms.iter().all(|term| is_in_state(&term.coef))
}

fn is_taken(ints: u32, row: &Row) -> bool
    ensures { result ≡ is_taken ints row.now }
{
    is_simple(ints, row.terms(), &row.bound())
}

// The negation has the opposite coefficients, and these say the same.
fn is_negation_taken(ints: u32, row: &Row) -> bool
    ensures { result ≡ is_there_taken ints (negated row.now) }
{
    match below_minus(&row.bound()) {
        Some(bound) => is_simple(ints, row.terms(), &bound),
        None => false,
    }
}

fn row_fits(ints: u32, row: &Row) -> bool
    ensures { result ≡ row_fits ints row.now }
{
    are_in_state(row.terms()) && (is_taken(ints, row) && is_negation_taken(ints, row))
}

fn atom_fits(ints: u32, atom: &AtomKind) -> bool
    ensures { result ≡ atom_fits ints atom.now }
{
    match atom {
        AtomKind::Plain => true,
        AtomKind::Row(row) => row_fits(ints, row),
    }
}

/// Whether the solver takes rows. It takes no memory.
pub fn takes(rows: &[Row], ints: u32) -> bool
    ensures { result ≡ are_taken ints rows.now }
{
    rows.iter().all(|row| is_taken(ints, row))
}

/// Whether a problem fits the solver: for the row of each of its atoms, the coefficients lie in the range of a state, and the solver
/// takes the row and its negation. It takes no memory.
pub fn fits(problem: &Problem) -> bool
    ensures { result ≡ problem_fits problem.now }
{
    let ints = problem.ints;
    problem
        .atoms
        .as_slice()
        .iter()
        .all(|atom| atom_fits(ints, atom))
}

/// Rows that stand for literals of a problem that fits, an atom's row or the negation of one, are taken.
pub fn law_fits()
    ensures { (p : PlainProblem) (lits : List LitForm) (rows : List RowForm) → problem_fits p ≡ true
        → map (lit_row p.atoms) lits ≡ map (λ r. Some r) rows → are_taken p.ints rows ≡ true }
{}
