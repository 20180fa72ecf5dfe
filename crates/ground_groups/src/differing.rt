// Readings at a stage, and a thing that reads differently at two stages.
ghost use Rattle.std.specs.Prelude.{◌≡◌, ◌∷◌, [], pos, IfOk};
ghost use Rattle.spec_core.specs.declared.update.Thing.TheVariants as thing;
ghost use Rattle.ground_problem.specs.Symbols as symbols;
ghost use Rattle.ground_problem.specs.Conclusion as conclusion;
ghost use Rattle.ground_numbers.specs.Stages.{stage_of};
ghost use Rattle.ground_atoms.specs.Symbols.{parts_of};
ghost use Rattle.stage_defs.specs.Settings.{IsMade};
ghost use Rattle.ground_groups.specs.Limited.{Appends};

use crate::adding::has_room;
use crate::grounding::Grounding;
use crate::refused::GroundRefused;
use ground_atoms::{Atoms, GroundFormula, SumPart, Tuple};
use items::Items;
use spec_core::{Spec, Thing};
use stage_defs::{Setting, Stage, both, either, has, negated, reading_part, unequal};
use std::alloc::{AllocError, Global};

/// The reading of a relation at a numbered stage.
pub fn reading(
    atoms: &mut Atoms,
    alloc: Global,
    spec: &Spec,
    stage: u8,
    relation: u8,
    tuple: &[u32],
) -> Result<GroundFormula, AllocError>
    ensures { IfOk result (λ f. IsMade atoms.old
        (symbols.has (stage_of stage) relation tuple.now) atoms.new f) }
{
    let setting = Setting {
        spec,
        stage: Stage::Numbered(stage),
        call: 0,
        args: &[],
    };
    has(atoms, &setting, relation, Tuple::of(alloc, tuple)?)
}

/// The sum of a counter's reading at a numbered stage.
pub fn sum(
    alloc: Global,
    spec: &Spec,
    stage: u8,
    counter: u8,
    key: &[u32],
) -> Result<Items<SumPart>, AllocError>
    ensures { IfOk result (λ ps. parts_of ps ≡ symbols.multiple (pos 1)
        (symbols.reading (stage_of stage) counter key.now) ∷ []) }
{
    let setting = Setting {
        spec,
        stage: Stage::Numbered(stage),
        call: 0,
        args: &[],
    };
    let mut parts = Items::new(alloc);
    let part = reading_part(&setting, 1, counter, Tuple::of(alloc, key)?);
    parts.push(part)?;
    Ok(parts)
}

// A relation holds after two calls in the one order and not in the other.
fn only_first(
    atoms: &mut Atoms,
    alloc: Global,
    spec: &Spec,
    relation: u8,
    tuple: &[u32],
) -> Result<GroundFormula, AllocError>
    ensures { IfOk result
        (λ f. IsMade atoms.old
        (symbols.both (symbols.has (stage_of 2) relation tuple.now)
        (symbols.negated (symbols.has (stage_of 4) relation tuple.now)))
        atoms.new f) }
{
    let left = reading(atoms, alloc, spec, 2, relation, tuple)?;
    let other = reading(atoms, alloc, spec, 4, relation, tuple)?;
    let right = negated(alloc, other)?;
    both(alloc, left, right)
}

// A relation holds after two calls in the other order and not in the one.
fn only_second(
    atoms: &mut Atoms,
    alloc: Global,
    spec: &Spec,
    relation: u8,
    tuple: &[u32],
) -> Result<GroundFormula, AllocError>
    ensures { IfOk result
        (λ f. IsMade atoms.old
        (symbols.both (symbols.negated (symbols.has (stage_of 2) relation tuple.now))
        (symbols.has (stage_of 4) relation tuple.now))
        atoms.new f) }
{
    let other = reading(atoms, alloc, spec, 2, relation, tuple)?;
    let left = negated(alloc, other)?;
    let right = reading(atoms, alloc, spec, 4, relation, tuple)?;
    both(alloc, left, right)
}

fn relation_differs(
    atoms: &mut Atoms,
    alloc: Global,
    spec: &Spec,
    relation: u8,
    tuple: &[u32],
) -> Result<GroundFormula, AllocError>
    ensures { IfOk result
        (λ f. IsMade atoms.old
        (conclusion.differ (thing.Relation relation) (stage_of 2) (stage_of 4) tuple.now) atoms.new
        f) }
{
    let left = only_first(atoms, alloc, spec, relation, tuple)?;
    let right = only_second(atoms, alloc, spec, relation, tuple)?;
    either(alloc, left, right)
}

fn counter_differs(
    atoms: &mut Atoms,
    alloc: Global,
    spec: &Spec,
    counter: u8,
    key: &[u32],
) -> Result<GroundFormula, AllocError>
    ensures { IfOk result
        (λ f. IsMade atoms.old
        (conclusion.differ (thing.Counter counter) (stage_of 2) (stage_of 4) key.now) atoms.new f) }
{
    let first = sum(alloc, spec, 2, counter, key)?;
    let second = sum(alloc, spec, 4, counter, key)?;
    unequal(atoms, alloc, first.as_slice(), second.as_slice())
}

fn differs(
    atoms: &mut Atoms,
    alloc: Global,
    spec: &Spec,
    thing: Thing,
    elements: &[u32],
) -> Result<GroundFormula, AllocError>
    ensures { IfOk result
        (λ f. IsMade atoms.old
        (conclusion.differ thing (stage_of 2) (stage_of 4) elements.now) atoms.new f) }
{
    match thing {
        Thing::Relation(relation) => relation_differs(atoms, alloc, spec, relation, elements),
        Thing::Counter(counter) => counter_differs(atoms, alloc, spec, counter, elements),
    }
}

/// Appends that a thing reads differently after two calls in the one order and in the other.
pub fn add_differs(
    grounding: &mut Grounding,
    spec: &Spec,
    thing: Thing,
    elements: &[u32],
) -> Result<(), GroundRefused>
    ensures { Appends result grounding.old
        (conclusion.differ thing (stage_of 2) (stage_of 4) elements.now ∷ []) grounding.new }
{
    has_room(grounding)?;
    let made = differs(&mut grounding.atoms, grounding.alloc, spec, thing, elements)?;
    grounding.formulas.push(made)?;
    Ok(())
}
