// Truth values are folded, and "not" is moved inward to the literals.
ghost use Rattle.std.specs.Prelude.{◌≡◌, true, false, IfOk};
ghost use Rattle.ground_numbers.specs.Clauses.{folded, fold_all, fold_any};
ghost use Rattle.ground_numbers.specs.Numbered.{literal, negation, disjunction};
ghost use Rattle.ground_atoms.specs.declared.formula.Agreement.TheVariants as agreements;
ghost use Rattle.ground_atoms.specs.Formulas.{form_of, both_true, tuples_equal, readings_agree};
ghost use Rattle.clausify.specs.Formulas.{folded_of, is_plain_if_unsettled};

use crate::bare::{Folded, signed};
use ground_atoms::{Agreement, GroundFormula, Places};
use std::alloc::{AllocError, Global};

fn fold_all(alloc: Global, left: Folded, right: Folded) -> Result<Folded, AllocError>
    requires left { is_plain_if_unsettled left ≡ true }
    requires right { is_plain_if_unsettled right ≡ true }
    ensures equal { IfOk result (λ f. folded_of f ≡ fold_all (folded_of left) (folded_of right)) }
    ensures plain { IfOk result (λ f. is_plain_if_unsettled f ≡ true) }
{
    match left {
        Folded::Settled(true) => Ok(right),
        Folded::Settled(false) => Ok(Folded::Settled(false)),
        Folded::Unsettled(f) => match right {
            Folded::Settled(true) => Ok(Folded::Unsettled(f)),
            Folded::Settled(false) => Ok(Folded::Settled(false)),
            Folded::Unsettled(g) => Ok(Folded::Unsettled(GroundFormula::And(Box::new(
                alloc,
                (f, g),
            )?))),
        },
    }
}

fn fold_any(alloc: Global, left: Folded, right: Folded) -> Result<Folded, AllocError>
    requires left { is_plain_if_unsettled left ≡ true }
    requires right { is_plain_if_unsettled right ≡ true }
    ensures equal { IfOk result (λ f. folded_of f ≡ fold_any (folded_of left) (folded_of right)) }
    ensures plain { IfOk result (λ f. is_plain_if_unsettled f ≡ true) }
{
    match left {
        Folded::Settled(true) => Ok(Folded::Settled(true)),
        Folded::Settled(false) => Ok(right),
        Folded::Unsettled(f) => match right {
            Folded::Settled(true) => Ok(Folded::Settled(true)),
            Folded::Settled(false) => Ok(Folded::Unsettled(f)),
            Folded::Unsettled(g) => Ok(Folded::Unsettled(GroundFormula::Or(Box::new(
                alloc,
                (f, g),
            )?))),
        },
    }
}

// "And" of two folded formulas, or "or" where `all` is false.
fn fold(alloc: Global, all: bool, left: Folded, right: Folded) -> Result<Folded, AllocError>
    requires left { is_plain_if_unsettled left ≡ true }
    requires right { is_plain_if_unsettled right ≡ true }
    ensures all { all ≡ true → IfOk result (λ f. folded_of f
        ≡ fold_all (folded_of left) (folded_of right)) }
    ensures any { all ≡ false → IfOk result (λ f. folded_of f
        ≡ fold_any (folded_of left) (folded_of right)) }
    ensures plain { IfOk result (λ f. is_plain_if_unsettled f ≡ true) }
{
    if all {
        fold_all(alloc, left, right)
    } else {
        fold_any(alloc, left, right)
    }
}

// An atom, or its negation where `sign` is false.
fn atom_folded(sign: bool, atom: u32) -> Folded
    ensures equal { folded_of result ≡ folded sign (literal atom true) }
    ensures plain { is_plain_if_unsettled result ≡ true }
{
    Folded::Unsettled(GroundFormula::Lit(atom, signed(sign, true)))
}

// Two atoms are both true, or not both where `sign` is false.
fn both_folded(alloc: Global, sign: bool, first: u32, second: u32) -> Result<Folded, AllocError>
    ensures equal { IfOk result (λ f. folded_of f ≡ folded sign (both_true first second)) }
    ensures plain { IfOk result (λ f. is_plain_if_unsettled f ≡ true) }
{
    if sign {
        return Ok(Folded::Unsettled(GroundFormula::BothAtoms(first, second)));
    }
    let f = atom_folded(sign, first);
    let g = atom_folded(sign, second);
    fold(alloc, sign, f, g)
}

// Two tuples are equal, or not equal where `sign` is false.
fn equal_folded(
    alloc: Global,
    sign: bool,
    places: Places,
    equal: u32,
    also: u32,
) -> Result<Folded, AllocError>
    ensures equal { IfOk result (λ f. folded_of f ≡ folded sign (tuples_equal places equal also)) }
    ensures plain { IfOk result (λ f. is_plain_if_unsettled f ≡ true) }
{
    let f = atom_folded(sign, equal);
    match places {
        Places::Only => Ok(f),
        Places::First => fold(alloc, sign, f, Folded::Settled(signed(sign, true))),
        Places::Second => fold(alloc, sign, Folded::Settled(signed(sign, true)), f),
        Places::Both => both_folded(alloc, sign, equal, also),
    }
}

// The second atom is true where the first is.
fn to_folded(alloc: Global, sign: bool, left: u32, right: u32) -> Result<Folded, AllocError>
    ensures equal { IfOk result
        (λ f. folded_of f
        ≡ folded sign (disjunction (negation (literal left true)) (literal right true))) }
    ensures plain { IfOk result (λ f. is_plain_if_unsettled f ≡ true) }
{
    if sign {
        return Ok(Folded::Unsettled(GroundFormula::AtomImplies(left, right)));
    }
    let premise = atom_folded(!sign, left);
    let conclusion = atom_folded(sign, right);
    fold(alloc, !sign, premise, conclusion)
}

// The first atom is true where the second is.
fn fro_folded(alloc: Global, sign: bool, left: u32, right: u32) -> Result<Folded, AllocError>
    ensures equal { IfOk result
        (λ f. folded_of f
        ≡ folded sign (disjunction (literal left true) (negation (literal right true)))) }
    ensures plain { IfOk result (λ f. is_plain_if_unsettled f ≡ true) }
{
    let conclusion = atom_folded(sign, left);
    let premise = atom_folded(!sign, right);
    fold(alloc, !sign, conclusion, premise)
}

// Two readings of a relation are both true or both false, or one alone is true where `sign` is false.
fn ways_folded(alloc: Global, sign: bool, left: u32, right: u32) -> Result<Folded, AllocError>
    ensures equal { IfOk result
        (λ f. folded_of f ≡ folded sign (readings_agree agreements.Relation left right)) }
    ensures plain { IfOk result (λ f. is_plain_if_unsettled f ≡ true) }
{
    let to = to_folded(alloc, sign, left, right)?;
    let fro = fro_folded(alloc, sign, left, right)?;
    fold(alloc, sign, to, fro)
}

// Two readings are one, or differ where `sign` is false.
fn agree_folded(
    alloc: Global,
    sign: bool,
    agreement: Agreement,
    left: u32,
    right: u32,
) -> Result<Folded, AllocError>
    ensures equal { IfOk result
        (λ f. folded_of f ≡ folded sign (readings_agree agreement left right)) }
    ensures plain { IfOk result (λ f. is_plain_if_unsettled f ≡ true) }
{
    match agreement {
        Agreement::Relation => ways_folded(alloc, sign, left, right),
        Agreement::Counter => both_folded(alloc, sign, left, right),
    }
}

/// The formula, or its negation where `sign` is false, with truth values folded and "not" at the literals alone.
pub fn folded(alloc: Global, sign: bool, form: &GroundFormula) -> Result<Folded, AllocError>
    ensures equal { IfOk result (λ f. folded_of f ≡ folded sign (form_of form.now)) }
    ensures plain { IfOk result (λ f. is_plain_if_unsettled f ≡ true) }
{
    match form {
        GroundFormula::Truth(value) => Ok(Folded::Settled(signed(sign, *value))),
        GroundFormula::Lit(atom, positive) => {
            Ok(Folded::Unsettled(GroundFormula::Lit(*atom, signed(sign, *positive))))
        }
        GroundFormula::NotAtom(atom) => {
            Ok(Folded::Unsettled(GroundFormula::Lit(*atom, signed(!sign, true))))
        }
        GroundFormula::BothAtoms(first, second) => both_folded(alloc, sign, *first, *second),
        GroundFormula::AtomImplies(left, right) => to_folded(alloc, sign, *left, *right),
        GroundFormula::Implied(first, second, third) => {
            let premise = both_folded(alloc, !sign, *first, *second)?;
            let conclusion = atom_folded(sign, *third);
            fold(alloc, !sign, premise, conclusion)
        }
        GroundFormula::Congruent {
            places,
            agreement,
            equal,
            also,
            left,
            right,
        } => {
            let premise = equal_folded(alloc, !sign, *places, *equal, *also)?;
            let conclusion = agree_folded(alloc, sign, *agreement, *left, *right)?;
            fold(alloc, !sign, premise, conclusion)
        }
        GroundFormula::Not(inner) => folded(alloc, !sign, inner),
        GroundFormula::And(parts) => {
            let f = folded(alloc, sign, &parts.0)?;
            let g = folded(alloc, sign, &parts.1)?;
            fold(alloc, sign, f, g)
        }
        GroundFormula::Or(parts) => {
            let f = folded(alloc, sign, &parts.0)?;
            let g = folded(alloc, sign, &parts.1)?;
            fold(alloc, !sign, f, g)
        }
    }
}
