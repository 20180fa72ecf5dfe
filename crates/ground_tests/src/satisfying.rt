// Whether an interpretation makes formulas over numbered atoms true, where the sums of its rows are in range.

ghost use Rattle.std.specs.Prelude.{◌≡◌, Some, map};
ghost use Rattle.proof_lines.specs.Problems.{atom_true, kind_true, meaning_of, row_true};
ghost use Rattle.ground_numbers.specs.{Numbered.{all_hold, holds}, Problem.{kind_of}};
ghost use Rattle.ground_atoms.specs.Formulas.{form_of, tuples_equal, readings_agree};
ghost use Rattle.ground_atoms.specs.Symbols.{atom_of};

use ground_atoms::{Agreement, Atom, Atoms, GroundFormula, Places};
use lin_rows::{Row, truth_at};
use proof_lines::Interpretation;
use std::process::Abort;

fn row_is_true(rt: &impl Abort, found: &Interpretation, row: &Row) -> bool
    ensures { result ≡ row_true (meaning_of found.now).number row.now }
{
    let values = found.ints.as_slice();
    let count = u32::try_from(values.len()).expect(rt, "few values");
    assert!(rt; row.is_within(count));
    truth_at(row, values).expect(rt, "sums in range")
}

fn truth_of(found: &Interpretation, number: u32) -> bool
    ensures { result ≡ (meaning_of found.now).truth number }
{
    found
        .truths
        .as_slice()
        .get(number as usize)
        .copied()
        .unwrap_or(false)
}

fn is_true(rt: &impl Abort, found: &Interpretation, atom: &Atom, number: u32) -> bool
    ensures { result ≡ kind_true (meaning_of found.now) number (Some (kind_of (atom_of atom.now))) }
{
    match atom {
        Atom::Row(row) => row_is_true(rt, found, row.row()),
        _ => truth_of(found, number),
    }
}

fn literal_is_true(rt: &impl Abort, found: &Interpretation, atoms: &Atoms, number: u32) -> bool
    ensures { result ≡ atom_true (meaning_of found.now) (map kind_of atoms.now.table.atoms) number }
{
    match atoms.atom(number) {
        Some(atom) => is_true(rt, found, atom, number),
        None => truth_of(found, number),
    }
}

fn tuples_equal(
    rt: &impl Abort,
    found: &Interpretation,
    atoms: &Atoms,
    places: Places,
    equal: u32,
    also: u32,
) -> bool
    ensures { result ≡ holds (atom_true (meaning_of found.now) (map kind_of atoms.now.table.atoms)) (tuples_equal places equal also) }
{
    let first = literal_is_true(rt, found, atoms, equal);
    match places {
        Places::Only => first,
        Places::First => first,
        Places::Second => first,
        Places::Both => first && literal_is_true(rt, found, atoms, also),
    }
}

fn readings_agree(
    rt: &impl Abort,
    found: &Interpretation,
    atoms: &Atoms,
    agreement: Agreement,
    left: u32,
    right: u32,
) -> bool
    ensures { result ≡ holds (atom_true (meaning_of found.now) (map kind_of atoms.now.table.atoms)) (readings_agree agreement left right) }
{
    let first = literal_is_true(rt, found, atoms, left);
    let second = literal_is_true(rt, found, atoms, right);
    match agreement {
        Agreement::Relation => (!first || second) && (first || !second),
        Agreement::Counter => first && second,
    }
}

fn holds(rt: &impl Abort, found: &Interpretation, atoms: &Atoms, formula: &GroundFormula) -> bool
    ensures { result ≡ holds (atom_true (meaning_of found.now) (map kind_of atoms.now.table.atoms)) (form_of formula.now) }
{
    match formula {
        GroundFormula::Truth(truth) => *truth,
        GroundFormula::Lit(atom, positive) => {
            literal_is_true(rt, found, atoms, *atom) == *positive
        }
        GroundFormula::NotAtom(atom) => !literal_is_true(rt, found, atoms, *atom),
        GroundFormula::BothAtoms(first, second) => {
            literal_is_true(rt, found, atoms, *first) && literal_is_true(rt, found, atoms, *second)
        }
        GroundFormula::AtomImplies(first, second) => {
            !literal_is_true(rt, found, atoms, *first) || literal_is_true(rt, found, atoms, *second)
        }
        GroundFormula::Implied(first, second, third) => {
            !(literal_is_true(rt, found, atoms, *first)
                && literal_is_true(rt, found, atoms, *second))
                || literal_is_true(rt, found, atoms, *third)
        }
        GroundFormula::Congruent {
            places,
            agreement,
            equal,
            also,
            left,
            right,
        } => {
            !tuples_equal(rt, found, atoms, *places, *equal, *also)
                || readings_agree(rt, found, atoms, *agreement, *left, *right)
        }
        GroundFormula::Not(part) => !holds(rt, found, atoms, part),
        GroundFormula::And(parts) => {
            holds(rt, found, atoms, &parts.0) && holds(rt, found, atoms, &parts.1)
        }
        GroundFormula::Or(parts) => {
            holds(rt, found, atoms, &parts.0) || holds(rt, found, atoms, &parts.1)
        }
    }
}

/// Whether all these formulas are true.
pub fn all_hold(
    rt: &impl Abort,
    found: &Interpretation,
    atoms: &Atoms,
    formulas: &[GroundFormula],
) -> bool
    ensures { result ≡ all_hold (atom_true (meaning_of found.now) (map kind_of atoms.now.table.atoms)) (map form_of formulas.now) }
{
    match formulas {
        [] => true,
        [first, rest @ ..] => { holds(rt, found, atoms, first) && all_hold(rt, found, atoms, rest) }
    }
}
