// Formulas made of others. Where the parts are atoms, or "not" of them, most take no memory of their own.
ghost use Rattle.std.specs.Prelude.{◌≡◌, true, IfOk, IfSome};
ghost use Rattle.ground_numbers.specs.Numbered.{literal, negation, conjunction, disjunction};
ghost use Rattle.ground_atoms.specs.Formulas.{form_of, both_true};

use ground_atoms::GroundFormula;
use std::alloc::{AllocError, Global};

// The atom that a formula is, if it is one.
fn atom_of(form: &GroundFormula) -> Option<u32>
    ensures { IfSome result (λ n. form_of form.now ≡ literal n true) }
{
    match form {
        GroundFormula::Lit(atom, true) => Some(*atom),
        _ => None,
    }
}

// The atom whose negation a formula is, if it is that of one.
fn negated_atom_of(form: &GroundFormula) -> Option<u32>
    ensures { IfSome result (λ n. form_of form.now ≡ negation (literal n true)) }
{
    match form {
        GroundFormula::NotAtom(atom) => Some(*atom),
        _ => None,
    }
}

/// "not" of a formula.
pub fn negated(alloc: Global, inner: GroundFormula) -> Result<GroundFormula, AllocError>
    ensures { IfOk result (λ f. form_of f ≡ negation (form_of inner)) }
{
    match inner {
        GroundFormula::Lit(atom, true) => Ok(GroundFormula::NotAtom(atom)),
        other => Ok(GroundFormula::Not(Box::new(alloc, other)?)),
    }
}

/// Two formulas joined by "and".
pub fn both(
    alloc: Global,
    left: GroundFormula,
    right: GroundFormula,
) -> Result<GroundFormula, AllocError>
    ensures { IfOk result (λ f. form_of f ≡ conjunction (form_of left) (form_of right)) }
{
    if let (Some(first), Some(second)) = (atom_of(&left), atom_of(&right)) {
        return Ok(GroundFormula::BothAtoms(first, second));
    }
    Ok(GroundFormula::And(Box::new(alloc, (left, right))?))
}

/// Two formulas joined by "or".
pub fn either(
    alloc: Global,
    left: GroundFormula,
    right: GroundFormula,
) -> Result<GroundFormula, AllocError>
    ensures { IfOk result (λ f. form_of f ≡ disjunction (form_of left) (form_of right)) }
{
    if let (Some(first), Some(second)) = (negated_atom_of(&left), atom_of(&right)) {
        return Ok(GroundFormula::AtomImplies(first, second));
    }
    Ok(GroundFormula::Or(Box::new(alloc, (left, right))?))
}

// The conclusion is true where two atoms are.
fn implied_by_both(
    alloc: Global,
    first: u32,
    second: u32,
    conclusion: GroundFormula,
) -> Result<GroundFormula, AllocError>
    ensures { IfOk result
        (λ f. form_of f ≡ disjunction (negation (both_true first second)) (form_of conclusion)) }
{
    if let Some(third) = atom_of(&conclusion) {
        return Ok(GroundFormula::Implied(first, second, third));
    }
    let left = negated(alloc, GroundFormula::BothAtoms(first, second))?;
    either(alloc, left, conclusion)
}

/// The conclusion is true where the premise is.
pub fn implies(
    alloc: Global,
    premise: GroundFormula,
    conclusion: GroundFormula,
) -> Result<GroundFormula, AllocError>
    ensures { IfOk result
        (λ f. form_of f ≡ disjunction (negation (form_of premise)) (form_of conclusion)) }
{
    match premise {
        GroundFormula::BothAtoms(first, second) => {
            implied_by_both(alloc, first, second, conclusion)
        }
        other => {
            let left = negated(alloc, other)?;
            either(alloc, left, conclusion)
        }
    }
}
