// The definition of a relation's reading after a call.
ghost use Rattle.std.specs.Prelude.{◌≡◌, [], length, map, IfOk, OnOk};
ghost use Rattle.spec_core.specs.declared.update.Thing.TheVariants as thing;
ghost use Rattle.ground_problem.specs.Symbols as symbols;
ghost use Rattle.ground_atoms.specs.{Making.{make_all}, Formulas.{form_of}, Staying.{NumbersStay}};
ghost use Rattle.stage_defs.specs.Settings.{readings_in, caller_in, has_definition, has_defined};
ghost use Rattle.stage_defs.specs.{Settings.{itself, updated_by, IsMade}, Parts.{has_upto}};

use crate::acting::acts_on;
use crate::comparing::has;
use crate::connecting::{both, either, negated};
use crate::defined::Defined;
use crate::setting::{Setting, Stage};
use effectors::is_thing;
use ground_atoms::{Atoms, GroundCall, GroundFormula, Tuple};
use items::Items;
use spec_core::{Change, Spec, Thing};
use std::alloc::{AllocError, Global};

/// The formulas that tie a relation's reading at a stage to the readings before it. After a refusal `atoms` may have new numbers; others stay.
pub fn define_has(
    spec: &Spec,
    atoms: &mut Atoms,
    alloc: Global,
    call: &GroundCall,
    stage: u8,
    relation: u8,
    tuple: &[u32],
) -> Result<Items<GroundFormula>, AllocError>
    ensures made { IfOk result
        (λ fs. make_all [] atoms.old (has_definition spec.now call.now stage relation tuple.now)
        ≡ record { known = atoms.new; forms = map form_of fs }) }
    ensures stay { NumbersStay atoms.old atoms.new }
{
    let mut out = Items::new(alloc);
    let reading = Defined::after(spec, call, stage, relation, tuple);
    add_has(atoms, alloc, &reading, &mut out)?;
    Ok(out)
}

/// Appends the formulas that tie a relation's reading to those before it.
pub fn add_has(
    atoms: &mut Atoms,
    alloc: Global,
    reading: &Defined<'_>,
    out: &mut Items<GroundFormula>,
) -> Result<(), AllocError>
    ensures made { OnOk result
        (make_all (map form_of out.old) atoms.old (has_defined reading.now)
        ≡ record { known = atoms.new; forms = map form_of out.new }) }
    ensures stay { NumbersStay atoms.old atoms.new }
{
    out.push(only_if(atoms, alloc, reading)?)?;
    out.push(if_updated(atoms, alloc, reading)?)
}

// The reading is true only where the updates make it so.
fn only_if(
    atoms: &mut Atoms,
    alloc: Global,
    reading: &Defined<'_>,
) -> Result<GroundFormula, AllocError>
    ensures made { IfOk result
        (λ f. IsMade atoms.old
        (symbols.either (symbols.negated (itself reading.now)) (updated_by reading.now))
        atoms.new f) }
    ensures stay { NumbersStay atoms.old atoms.new }
{
    let itself = itself(atoms, alloc, reading)?;
    let left = negated(alloc, itself)?;
    let right = updated(atoms, alloc, reading)?;
    either(alloc, left, right)
}

// It is true where they make it so.
fn if_updated(
    atoms: &mut Atoms,
    alloc: Global,
    reading: &Defined<'_>,
) -> Result<GroundFormula, AllocError>
    ensures made { IfOk result
        (λ f. IsMade atoms.old
        (symbols.either (itself reading.now) (symbols.negated (updated_by reading.now)))
        atoms.new f) }
    ensures stay { NumbersStay atoms.old atoms.new }
{
    let left = itself(atoms, alloc, reading)?;
    let value = updated(atoms, alloc, reading)?;
    let right = negated(alloc, value)?;
    either(alloc, left, right)
}

// The reading at the stage itself.
fn itself(
    atoms: &mut Atoms,
    alloc: Global,
    reading: &Defined<'_>,
) -> Result<GroundFormula, AllocError>
    ensures made { IfOk result (λ f. IsMade atoms.old (itself reading.now) atoms.new f) }
    ensures stay { NumbersStay atoms.old atoms.new }
{
    let after = Setting {
        spec: reading.before.spec,
        stage: Stage::Numbered(reading.stage),
        call: reading.before.call,
        args: reading.before.args,
    };
    has(
        atoms,
        &after,
        reading.number,
        Tuple::of(alloc, reading.tuple)?,
    )
}

#[tactic(auto, using(crate::proofs::Updates::upto_all))]
// What the updates make of the reading before.
fn updated(
    atoms: &mut Atoms,
    alloc: Global,
    reading: &Defined<'_>,
) -> Result<GroundFormula, AllocError>
    ensures made { IfOk result (λ f. IsMade atoms.old (updated_by reading.now) atoms.new f) }
    ensures stay { NumbersStay atoms.old atoms.new }
{
    updated_upto(atoms, alloc, reading, reading.updates.len())
}

#[tactic(auto, using(crate::proofs::Updates::upto_more))]
// What the first so many updates make of it. The last of them is named first.
fn updated_upto(
    atoms: &mut Atoms,
    alloc: Global,
    reading: &Defined<'_>,
    count: usize,
) -> Result<GroundFormula, AllocError>
    ensures made { IfOk result
        (λ f. IsMade atoms.old
        (has_upto (readings_in reading.now.before) (caller_in reading.now.before)
        (thing.Relation reading.now.number) reading.now.tuple.now reading.now.updates.now count
        ((readings_in reading.now.before).has reading.now.number reading.now.tuple.now))
        atoms.new f) }
    ensures stay { NumbersStay atoms.old atoms.new }
{
    if count == 0 {
        let tuple = Tuple::of(alloc, reading.tuple)?;
        return has(atoms, &reading.before, reading.number, tuple);
    }
    let earlier = count - 1;
    match reading.updates.get(earlier) {
        Some(update) if is_thing(update.thing, Thing::Relation(reading.number)) => {
            match &update.change {
                Change::Insert => {
                    let acting = acts_on(atoms, alloc, &reading.before, reading.tuple, update)?;
                    let value = updated_upto(atoms, alloc, reading, earlier)?;
                    either(alloc, acting, value)
                }
                Change::Remove => {
                    let acting = acts_on(atoms, alloc, &reading.before, reading.tuple, update)?;
                    let elsewhere = negated(alloc, acting)?;
                    let value = updated_upto(atoms, alloc, reading, earlier)?;
                    both(alloc, elsewhere, value)
                }
                _ => updated_upto(atoms, alloc, reading, earlier),
            }
        }
        _ => updated_upto(atoms, alloc, reading, earlier),
    }
}
