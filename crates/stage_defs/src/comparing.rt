// Equalities, readings of relations and comparisons of sums.
ghost use Rattle.std.specs.Prelude.{◌≡◌, IfOk, get_or};
ghost use Rattle.spec_core.specs.Specification.{no_relation};
ghost use Rattle.ground_problem.specs.Symbols as symbols;
ghost use Rattle.ground_problem.specs.Formulas.{comparison};
ghost use Rattle.ground_atoms.specs.{Symbols.{parts_of}, Staying.{NumbersStay}};
ghost use Rattle.stage_defs.specs.Settings.{readings_in, IsMade};

use crate::connecting::{both, either};
use crate::setting::{Setting, Stage};
use ground_atoms::{Atom, Atoms, GroundFormula, SumPart, Tuple, at_most};
use spec_core::{Cmp, Spec};
use std::alloc::{AllocError, Global};

/// The equality of two constants: true of one constant with itself, else a literal whose lesser constant stands first.
pub fn same_const(atoms: &mut Atoms, left: u32, right: u32) -> Result<GroundFormula, AllocError>
    ensures made { IfOk result (λ f. IsMade atoms.old (symbols.same_const left right) atoms.new f) }
    ensures stay { NumbersStay atoms.old atoms.new }
{
    if left == right {
        return Ok(GroundFormula::Truth(true));
    }
    let atom = if left < right {
        Atom::Same(left, right)
    } else {
        Atom::Same(right, left)
    };
    Ok(GroundFormula::Lit(atoms.number_of(atom)?, true))
}

/// The reading of a relation at a tuple: a literal at a stage, and a truth value in the initial state.
pub fn has(
    atoms: &mut Atoms,
    setting: &Setting<'_>,
    relation: u8,
    tuple: Tuple,
) -> Result<GroundFormula, AllocError>
    ensures made { IfOk result (λ f. IsMade atoms.old
        ((readings_in setting.now).has relation tuple) atoms.new f) }
    ensures stay { NumbersStay atoms.old atoms.new }
{
    match setting.stage {
        Stage::Initial => Ok(GroundFormula::Truth(begins_true(setting.spec, relation))),
        Stage::Numbered(stage) => {
            let atom = Atom::Has {
                stage,
                relation,
                tuple,
            };
            Ok(GroundFormula::Lit(atoms.number_of(atom)?, true))
        }
    }
}

// What a relation reads in the initial state.
fn begins_true(spec: &Spec, relation: u8) -> bool
    ensures { result ≡ (get_or spec.now.relations relation no_relation).initial }
{
    match spec.relations.as_slice().get(relation as usize) {
        Some(found) => found.initial,
        None => false,
    }
}

/// Two sums are equal: the one is at most the other, and the other at most the one.
pub fn equal(
    atoms: &mut Atoms,
    alloc: Global,
    left: &[SumPart],
    right: &[SumPart],
) -> Result<GroundFormula, AllocError>
    ensures made { IfOk result (λ f. IsMade atoms.old
        (symbols.equal (parts_of left.now) (parts_of right.now)) atoms.new f) }
    ensures stay { NumbersStay atoms.old atoms.new }
{
    let up = at_most(atoms, alloc, left, right, 0)?;
    let down = at_most(atoms, alloc, right, left, 0)?;
    both(alloc, up, down)
}

/// Two sums are unequal: one of them is less.
pub fn unequal(
    atoms: &mut Atoms,
    alloc: Global,
    left: &[SumPart],
    right: &[SumPart],
) -> Result<GroundFormula, AllocError>
    ensures made { IfOk result (λ f. IsMade atoms.old
        (symbols.unequal (parts_of left.now) (parts_of right.now)) atoms.new f) }
    ensures stay { NumbersStay atoms.old atoms.new }
{
    let below = at_most(atoms, alloc, left, right, -1)?;
    let above = at_most(atoms, alloc, right, left, -1)?;
    either(alloc, below, above)
}

/// A comparison of two sums; `>` and `>=` exchange the sides.
pub fn comparison(
    atoms: &mut Atoms,
    alloc: Global,
    left: &[SumPart],
    order: Cmp,
    right: &[SumPart],
) -> Result<GroundFormula, AllocError>
    ensures made { IfOk result (λ f. IsMade atoms.old
        (comparison order (parts_of left.now) (parts_of right.now)) atoms.new f) }
    ensures stay { NumbersStay atoms.old atoms.new }
{
    match order {
        Cmp::Less => at_most(atoms, alloc, left, right, -1),
        Cmp::AtMost => at_most(atoms, alloc, left, right, 0),
        Cmp::Equal => equal(atoms, alloc, left, right),
        Cmp::Unequal => unequal(atoms, alloc, left, right),
        Cmp::AtLeast => at_most(atoms, alloc, right, left, 0),
        Cmp::Greater => at_most(atoms, alloc, right, left, -1),
    }
}
