// Formulas of the specification, at constants and at readings.
ghost use Rattle.std.specs.Prelude.{◌≡◌, IfOk};
ghost use Rattle.spec_core.specs.Form as forms;
ghost use Rattle.ground_problem.specs.Symbols as symbols;
ghost use Rattle.ground_problem.specs.Formulas as formulas;
ghost use Rattle.ground_atoms.specs.Staying.{NumbersStay};
ghost use Rattle.stage_defs.specs.Settings.{readings_in, caller_in, IsMade};

use crate::comparing::{comparison, has, same_const};
use crate::connecting::{both, either, implies, negated};
use crate::setting::{Setting, const_of, tuple_of};
use crate::sums::parts_of;
use ground_atoms::{Atoms, GroundFormula};
use spec_core::{Cmp, Elem, Formula, Term};
use std::alloc::{AllocError, Global};

/// Makes a formula in a setting, with these constants for its variables, and numbers its atoms from left to right.
pub fn formula(
    atoms: &mut Atoms,
    alloc: Global,
    setting: &Setting<'_>,
    vars: &[u32],
    form: &Formula,
) -> Result<GroundFormula, AllocError>
    ensures made { IfOk result
        (λ f. IsMade atoms.old
        (formulas.formula (readings_in setting.now) (caller_in setting.now) vars.now
        (forms.form_of form.now))
        atoms.new f) }
    ensures stay { NumbersStay atoms.old atoms.new }
{
    match form {
        Formula::True => Ok(GroundFormula::Truth(true)),
        Formula::False => Ok(GroundFormula::Truth(false)),
        Formula::Not(f) => {
            let inner = formula(atoms, alloc, setting, vars, f)?;
            negated(alloc, inner)
        }
        Formula::And(f, g) => {
            let left = formula(atoms, alloc, setting, vars, f)?;
            let right = formula(atoms, alloc, setting, vars, g)?;
            both(alloc, left, right)
        }
        Formula::Or(f, g) => {
            let left = formula(atoms, alloc, setting, vars, f)?;
            let right = formula(atoms, alloc, setting, vars, g)?;
            either(alloc, left, right)
        }
        Formula::Implies(f, g) => {
            let premise = formula(atoms, alloc, setting, vars, f)?;
            let conclusion = formula(atoms, alloc, setting, vars, g)?;
            implies(alloc, premise, conclusion)
        }
        Formula::Has(relation, elements) => {
            let tuple = tuple_of(alloc, setting, vars, elements.as_slice())?;
            has(atoms, setting, *relation, tuple)
        }
        Formula::Same(a, b) => equality(atoms, setting, vars, *a, *b),
        Formula::Differ(a, b) => {
            let inner = equality(atoms, setting, vars, *a, *b)?;
            negated(alloc, inner)
        }
        Formula::Compare(left, order, right) => {
            compared(atoms, alloc, setting, vars, left, *order, right)
        }
    }
}

fn equality(
    atoms: &mut Atoms,
    setting: &Setting<'_>,
    vars: &[u32],
    a: Elem,
    b: Elem,
) -> Result<GroundFormula, AllocError>
    ensures made { IfOk result
        (λ f. IsMade atoms.old
        (symbols.same_const (formulas.const_of (caller_in setting.now) vars.now a)
        (formulas.const_of (caller_in setting.now) vars.now b))
        atoms.new f) }
    ensures stay { NumbersStay atoms.old atoms.new }
{
    same_const(
        atoms,
        const_of(setting, vars, a),
        const_of(setting, vars, b),
    )
}

fn compared(
    atoms: &mut Atoms,
    alloc: Global,
    setting: &Setting<'_>,
    vars: &[u32],
    left: &Term,
    order: Cmp,
    right: &Term,
) -> Result<GroundFormula, AllocError>
    ensures made { IfOk result
        (λ f. IsMade atoms.old
        (formulas.comparison order
        (formulas.parts_of (readings_in setting.now) (caller_in setting.now) vars.now left.now)
        (formulas.parts_of (readings_in setting.now) (caller_in setting.now) vars.now right.now))
        atoms.new f) }
    ensures stay { NumbersStay atoms.old atoms.new }
{
    let left = parts_of(alloc, setting, vars, left)?;
    let right = parts_of(alloc, setting, vars, right)?;
    comparison(atoms, alloc, left.as_slice(), order, right.as_slice())
}
